//! The packets that a master joins of what its slaves send over a serving are of the services that came into hand. Definitions and a law, no running code: the
//! function here does nothing, and its contract states the law.

ghost use Rattle.packets_heard.specs.of_life_runs.Led.{Exchanged};
ghost use Rattle.packets_heard.specs.Servings.{served_joined};
ghost use Rattle.served_rings.specs.of_plan_ring.Lives.{IsKnown};
ghost use Rattle.served_rings.specs.of_plan_ring.Round.{AllRound, ring_of};
ghost use Rattle.served_rings.specs.of_run_work.ServedGained.{leads_of};
ghost use Rattle.packets_heard.specs.of_segment_plan.Sound.{IsPlan};
ghost use Rattle.packets_heard.specs.of_segment_plan.declared.plan.Scenario.{Scenario};
ghost use Rattle.run_promises.specs.Sent.{AllSend};
ghost use Rattle.run_promises.specs.Quiet.{AsksQuiet};
ghost use Rattle.packets_heard.specs.of_life_runs.Served.{ServeTo, Serves};
ghost use Rattle.std.specs.Prelude.{ℕ, All, List};

/// WHAT A MASTER JOINED OF A SLAVE'S PACKETS over a serving weighs no more, whatever each packet weighs, than what the services that came into hand of it may make
/// it send: a mail that is passed on makes it send none, where it is fair and none of EoE, whatever frames are lost and whoever is given up.
pub fn served_sent_law()
    ensures { (weigh : List ℕ → ℕ) (plan : Scenario) → IsPlan plan → IsKnown plan → (fs : List Exchanged) (missed : ℕ) (ws : List Serves) → (led : ServeTo plan fs missed ws) →
        AllRound (ring_of plan) fs → All AsksQuiet ws → AllSend weigh plan.slaves (leads_of ws) (served_joined led) }
{
    served_rings::served_ring_law();
    life_runs::served_runs::asked_law();
    served_rings::plan_speakers::speaker_law();
    packets_heard::packets_law();
    crate::slave_sends::emits_law();
    few_replies::whole_counts::parts_tell();
}
