ghost use Rattle.std.specs.Prelude.{◌≡◌, ◌≤◌, ◌<◌, length, All, IfOk};
ghost use Rattle.run_book.specs.of_eoe_switch.Switch.{switched};
ghost use Rattle.run_book.specs.Ports.{ports_of, IsAtPort};
ghost use Rattle.run_report.specs.Drops.{behind, drops_at};

use ec_fields::NoMemory;
use eoe_switch::{Switch, SwitchEvent};
use segment_plan::SlaveSpec;
use std::alloc::Global;

// The ports of the switch: the host's, and one for each slave that serves EoE.
fn ports_of(slaves: &[SlaveSpec]) -> u32
    requires { length slaves.now ≤ 16 }
    ensures value { result ≡ ports_of slaves.now }
    ensures few { result ≤ 17 }
{
    1 + slaves.iter().filter(|spec| spec.eoe).count() as u32
}

// One more event at the switch, and at how many ports it dropped a packet.
fn drops_at(switch: &mut Switch, event: &SwitchEvent) -> u32
    requires { IsAtPort (length switch.old.ports) event.now }
    ensures drops { result ≡ drops_at switch.old event.now }
    ensures switch { switch.new ≡ behind switch.old event.now }
    ensures ports { length switch.new.ports ≡ length switch.old.ports }
    ensures few { result ≤ length switch.old.ports }
{
    match event {
        SwitchEvent::Arrive { port, packet } => switch.arrive(*port, packet).1.bits.count_ones(),
        SwitchEvent::Begun { port } => {
            switch.begun(*port);
            0
        }
        SwitchEvent::Down { port } => {
            switch.down(*port);
            0
        }
    }
}

/// How many packets were dropped at full queues, of a switch at which all this happened.
pub fn drops(alloc: Global, slaves: &[SlaveSpec], events: &[SwitchEvent]) -> Result<u128, NoMemory>
    requires few { length slaves.now ≤ 16 }
    requires events { All (IsAtPort (ports_of slaves.now)) events.now }
    ensures { IfOk result (λ drops. drops ≡ (switched (ports_of slaves.now) events.now).drops) }
{
    let mut switch = Switch::new(alloc, ports_of(slaves))?;
    // A list of events has fewer than 2 ^ 64 of them.
    let mut drops: u128 = 0;
    for event in events {
        drops += u128::from(drops_at(&mut switch, event));
    }
    Ok(drops)
}
