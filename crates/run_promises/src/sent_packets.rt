//! The packets that a master joins of what its slaves send are of the services that came into hand. Definitions and a law, no running code: the function
//! here does nothing, and its contract states the law.

ghost use Rattle.packets_heard.specs.of_life_runs.First.{lens_of, first_leads};
ghost use Rattle.packets_heard.specs.of_life_runs.Led.{Exchanged, Leads, IsLed};
ghost use Rattle.packets_heard.specs.Heard.{joined_in};
ghost use Rattle.served_rings.specs.of_plan_ring.Lives.{IsKnown};
ghost use Rattle.served_rings.specs.of_plan_ring.Round.{ring_of, AllRound};
ghost use Rattle.packets_heard.specs.of_segment_plan.Sound.{IsPlan};
ghost use Rattle.packets_heard.specs.of_segment_plan.declared.plan.Scenario.{Scenario};
ghost use Rattle.run_promises.specs.Sent.{AllSend};
ghost use Rattle.std.specs.Prelude.{ℕ, List};

/// WHAT A MASTER JOINED OF A SLAVE'S PACKETS over a run weighs no more, whatever each packet weighs, than what the services that came into hand of it may
/// make it send: each service makes it send its packet once at most, in whatever epoch, whatever frames are lost and whoever is given up.
pub fn sent_law()
    ensures { (weigh : List ℕ → ℕ) (plan : Scenario) → IsPlan plan → IsKnown plan → (fs : List Exchanged) (missed : ℕ) (leads : List Leads) → (led : IsLed (lens_of plan.slaves) plan.recover plan.retry (first_leads plan) fs missed leads) →
        AllRound (ring_of plan) fs → AllSend weigh plan.slaves leads (joined_in led) }
{
    plan_ring::run_lives_law();
    packets_heard::packets_law();
    crate::slave_sends::emits_law();
}
