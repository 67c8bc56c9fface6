ghost use Rattle.std.specs.Prelude.{◌≡◌, ◌≤◌, ◌<◌, ◌+◌, ◌++◌, ◌∷◌, [], length, IfOk};

use ec_fields::NoMemory;
use eoe_switch::SwitchEvent;
use std::alloc::Global;
use std::marker::Model;

/// How much can happen at the switch in a step: a packet of the host comes in and one begins for each slave; or behind the frame of each slave one
/// comes in, or its port goes down.
const MOST: usize = 17;

/// Something that happened at the switch, and whether the host was handed the packet that came in.
#[derive(Drop)]
pub struct Happening {
    pub event: SwitchEvent,
    pub handed: bool,
}

/// What happened at the switch in a step. Its memory is taken at `new`.
#[derive(Drop)]
pub struct Happenings {
    rows: Vec<Happening>,
    count: usize,
}

impl Model for Happenings {
    ghost use Rattle.std.specs.Prelude.{◌≡◌, ◌≤◌, List, take, vec_len};
    ghost use Rattle.master_node.specs.declared.happened.Happening.{Happening};

    ghost Value = { List Happening };

    ghost view = { λ h. take h.count h.rows.items };

    ghost invariant = { λ h. (vec_len h.rows ≡ 17) × (h.count ≤ 17) };
}

impl Happenings {
    /// Nothing happened. The memory for a step is taken here.
    pub fn new(alloc: Global) -> Result<Happenings, NoMemory>
        ensures { IfOk result (λ rows. rows ≡ []) }
    {
        let mut rows = Vec::with_capacity(alloc, MOST)?;
        for _ in 0..MOST {
            let event = SwitchEvent::Down { port: 0 };
            rows.push(Happening {
                event,
                handed: false,
            })?;
        }
        Ok(Happenings { rows, count: 0 })
    }

    /// The next step begins: nothing happened.
    pub fn clear(&mut self)
        ensures { self.new ≡ [] }
    {
        self.count = 0;
    }

    /// One more. A step has room for all that can happen in it.
    pub fn put(&mut self, row: Happening)
        ensures all { length self.old < 17 → self.new ≡ self.old ++ row ∷ [] }
        ensures few { length self.new ≤ length self.old + 1 }
        ensures full { 17 ≤ length self.old → self.new ≡ self.old }
    {
        if self.count < self.rows.len() {
            self.rows[self.count] = row;
            self.count += 1;
        }
    }

    /// All of them, in order.
    pub fn all(&self) -> &[Happening]
        ensures { result.now ≡ self.now }
    {
        &self.rows.as_slice()[..self.count]
    }
}
