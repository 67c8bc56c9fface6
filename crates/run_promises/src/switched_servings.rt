//! The packets of a serving are those of one switch. Definitions and a law, no running code: the function here does nothing, and its contract states the law.
#![tactic(auto)]

ghost use Rattle.std.specs.Prelude.{◌≡◌, ◌++◌, ℕ, List, All};
ghost use Rattle.arrayvec.specs.ArrayVec.{ArrayVec};
ghost use Rattle.packets_heard.specs.of_eoe_switch.declared.switching.SwitchEvent.{SwitchEvent};
ghost use Rattle.packets_heard.specs.of_life_runs.Led.{Exchanged};
ghost use Rattle.packets_heard.specs.of_master_node.Happened.{arrivals_at};
ghost use Rattle.packets_heard.specs.of_master_node.Ports.{IsAtPort, ports_behind, ports_of};
ghost use Rattle.packets_heard.specs.Servings.{AreServedBegun, ServedListed};
ghost use Rattle.served_rings.specs.of_plan_ring.Lives.{IsKnown};
ghost use Rattle.served_rings.specs.of_plan_ring.Round.{AllRound, ring_of};
ghost use Rattle.served_rings.specs.of_run_work.ServedGained.{leads_of};
ghost use Rattle.served_rings.specs.of_run_work.Switched.{AreSwitched};
ghost use Rattle.packets_heard.specs.of_segment_plan.Sound.{IsPlan};
ghost use Rattle.packets_heard.specs.of_segment_plan.declared.plan.Scenario.{Scenario};
ghost use Rattle.run_promises.specs.Quiet.{AsksQuiet};
ghost use Rattle.packets_heard.specs.of_life_runs.Served.{ServeTo, Serves};

/// THE PACKETS OF A SERVING ARE THOSE OF ONE SWITCH, where its events are just those that the frames list, at the ports of the plan, as over a run: whatever mails
/// are asked between the frames, if they are fair and none of EoE.
pub fn switched_serving_law()
    ensures { (plan : Scenario) → IsPlan plan → IsKnown plan → (fs : List Exchanged) (missed : ℕ) (ws : List Serves) → (led : ServeTo plan fs missed ws) → AllRound (ring_of plan) fs → All AsksQuiet ws →
        (es : List SwitchEvent) (rest : List (ArrayVec ℕ)) → All (IsAtPort (ports_of plan.slaves)) es → arrivals_at 0 es ++ rest ≡ plan.host →
        ServedListed (ports_behind 0 plan.slaves) led es → AreServedBegun (ports_behind 0 plan.slaves) (ports_of plan.slaves) led es → AreSwitched plan (leads_of ws) }
{
    crate::served_packets::served_sent_law();
    packets_heard::port_events::port_law();
    packets_heard::packets_begun::begun_law();
    run_work::packet_work::packet_law();
    life_runs::served_runs::asked_law();
}
