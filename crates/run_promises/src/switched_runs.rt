//! The packets of a program's run are those of one switch. Definitions and a law, no running code: the function here does nothing, and its contract states
//! the law.

ghost use Rattle.std.specs.Prelude.{◌≡◌, ◌++◌, ℕ, List, All};
ghost use Rattle.arrayvec.specs.ArrayVec.{ArrayVec};
ghost use Rattle.packets_heard.specs.of_eoe_switch.declared.switching.SwitchEvent.{SwitchEvent};
ghost use Rattle.packets_heard.specs.of_life_runs.First.{lens_of, first_leads};
ghost use Rattle.packets_heard.specs.of_life_runs.Led.{Exchanged, Leads, IsLed};
ghost use Rattle.packets_heard.specs.of_master_node.Happened.{arrivals_at};
ghost use Rattle.packets_heard.specs.of_master_node.Ports.{IsAtPort, ports_behind, ports_of};
ghost use Rattle.packets_heard.specs.Over.{AreBegun};
ghost use Rattle.served_rings.specs.of_plan_ring.Lives.{IsKnown};
ghost use Rattle.served_rings.specs.of_plan_ring.Round.{ring_of, AllRound};
ghost use Rattle.packets_heard.specs.Listed.{Listed};
ghost use Rattle.served_rings.specs.of_run_work.Switched.{AreSwitched};
ghost use Rattle.packets_heard.specs.of_segment_plan.Sound.{IsPlan};
ghost use Rattle.packets_heard.specs.of_segment_plan.declared.plan.Scenario.{Scenario};

/// THE PACKETS OF A RUN ARE THOSE OF ONE SWITCH, where its events are just those that the frames list, at the ports of the plan: just the packets of the host,
/// the first of them, came in at its port, and at a slave's port just those that its mails complete; and those that came into hand began there, each the oldest.
pub fn switched_run_law()
    ensures { (plan : Scenario) → IsPlan plan → IsKnown plan → (fs : List Exchanged) (missed : ℕ) (leads : List Leads) → (led : IsLed (lens_of plan.slaves) plan.recover plan.retry (first_leads plan) fs missed leads) → AllRound (ring_of plan) fs →
        (es : List SwitchEvent) (rest : List (ArrayVec ℕ)) → All (IsAtPort (ports_of plan.slaves)) es → arrivals_at 0 es ++ rest ≡ plan.host →
        Listed (lens_of plan.slaves) plan.recover plan.retry (ports_behind 0 plan.slaves) led es → AreBegun (ports_behind 0 plan.slaves) (ports_of plan.slaves) led es → AreSwitched plan leads }
{
    crate::sent_packets::sent_law();
    packets_heard::port_events::port_law();
    packets_heard::packets_begun::begun_law();
    run_work::packet_work::packet_law();
    run_frames::script_runs::script_run_law();
}
