//! A run of one tour or a serving, with what its master remembers of its slaves' visits and what happens at its switch. Definitions and laws, no running code: the
//! functions here do nothing, and their contracts state the laws.

ghost use Rattle.std.specs.Prelude.{ℕ, List};
ghost use Rattle.master_node.specs.of_eoe_switch.declared.switching.SwitchEvent.{SwitchEvent};
ghost use Rattle.master_node.specs.of_life_runs.First.{lens_of, first_leads};
ghost use Rattle.master_node.specs.of_life_runs.Led.{Exchanged, Leads, IsLed};
ghost use Rattle.master_node.specs.Happened.{NoneWaits};
ghost use Rattle.master_node.specs.Ports.{ports_behind};
ghost use Rattle.master_node.specs.Resting.{AllRest};
ghost use Rattle.master_node.specs.ServedEager.{AllServedRest};
ghost use Rattle.master_node.specs.declared.lan.Lan.{Lan};
ghost use Rattle.master_node.specs.of_master_side.Recall.{Recall};
ghost use Rattle.packets_heard.specs.Listed.{Listed};
ghost use Rattle.packets_heard.specs.Recalled.{IsLanOf};
ghost use Rattle.packets_heard.specs.Servings.{ServedListed};
ghost use Rattle.slave_server.specs.of_segment_plan.declared.plan.Scenario.{Scenario};
ghost use Rattle.master_node.specs.of_life_runs.Served.{Serves, IsServedLed, all_serve};

/// WHERE THE MASTER WANTS NOTHING of each slave, no packet waits at any port: not at that of a slave that rests, nor at that of one that was given up for
/// good, which is down; and at the host's none ever does.
pub fn quiet_law()
    ensures { (plan : Scenario) (fs : List Exchanged) (missed : ℕ) (leads : List Leads) (led : IsLed (lens_of plan.slaves) plan.recover plan.retry (first_leads plan) fs missed leads) (es : List SwitchEvent) (l : Lan) (ms : List Recall) →
        Listed (lens_of plan.slaves) plan.recover plan.retry (ports_behind 0 plan.slaves) led es → IsLanOf plan l es → AllRest (lens_of plan.slaves) l 0 ms leads → NoneWaits l.switch }
{}

/// So it is over a serving, whatever mails were asked.
pub fn quiet_served_law()
    ensures { (plan : Scenario) (fs : List Exchanged) (missed : ℕ) (ws : List Serves) (led : IsServedLed (lens_of plan.slaves) plan.recover plan.retry (all_serve plan.paces (first_leads plan)) fs missed ws) (es : List SwitchEvent) (l : Lan) (ms : List Recall) →
        ServedListed (ports_behind 0 plan.slaves) led es → IsLanOf plan l es → AllServedRest (lens_of plan.slaves) l 0 ms ws → NoneWaits l.switch }
{}
