ghost use Rattle.std.specs.Prelude.{◌≡◌, ◌≤◌, IsTrue};
ghost use Rattle.ec_outside.specs.Calls.{made, will_fail};
ghost use Rattle.ec_outside.specs.Faults.{Rose};

use ec_fields::Rows;

/// The trait calls of one object in memory, as a file, sink, port or link: which of them are to
/// fail, counted from 0, how many were made, and how many failed. Both counts stand still at their
/// type's end.
#[derive(Drop)]
pub struct Calls {
    /// The numbers of the calls that are to fail.
    pub failing: Rows<u64>,
    /// How many calls were made.
    pub count: u64,
    /// How many of them failed.
    pub faults: u64,
}

impl Calls {
    /// No call was made; those with these numbers are to fail.
    pub fn new(failing: Rows<u64>) -> Calls
        ensures { result ≡ record { failing = failing; count = 0; faults = 0 } }
    {
        Calls {
            failing,
            count: 0,
            faults: 0,
        }
    }

    fn will_fail(&self) -> bool
        ensures { result ≡ will_fail self.now }
    {
        let count = self.count;
        self.failing
            .as_slice()
            .iter()
            .any(|number| *number == count)
    }

    /// Counts a call, and says whether it is one that is to fail.
    pub fn fails(&mut self) -> bool
        ensures fails { result ≡ will_fail self.old }
        ensures counted { self.new ≡ made self.old }
        ensures later { self.old.faults ≤ self.new.faults }
        ensures rose { IsTrue result → Rose self.old.faults self.new.faults }
    {
        let fails = self.will_fail();
        self.count = self.count.saturating_add(1);
        if fails {
            self.faults = self.faults.saturating_add(1);
            return true;
        }
        false
    }
}
