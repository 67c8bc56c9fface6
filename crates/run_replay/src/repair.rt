/// How many slaves a ring has, and behind how many frames the slowest of them makes a step.
#[derive(Clone, Copy)]
pub struct Ring {
    pub slaves: u64,
    pub slowest: u64,
}

/// How far a repair is: in how many frames at most what comes behind its access in hand is done, and whether that access is in vain until the slave
/// makes a step.
#[derive(Clone, Copy, PartialEq, Eq)]
pub struct Way {
    pub rest: u64,
    pub awaits: bool,
}

/// An opening under way: bring-up, which has accesses 1 to 5, or a reopening, which first returns the slave to Init and has 1 to 9.
#[derive(Clone, Copy)]
pub struct Opening {
    pub again: bool,
    pub step: u64,
}

/// The inward half of a slave's link.
#[derive(Clone, Copy)]
pub enum Half {
    /// Nothing is in doubt.
    Clear,
    /// A read was lost, and the repeat request is to be written.
    Doubt,
    /// It was written, and its acknowledge is awaited.
    Asked,
    /// The mail can be fetched again.
    Refetch,
}

impl Opening {
    /// The access by which the return to Init is seen.
    pub fn shows_clear(&self) -> bool {
        self.again && self.step == 2
    }

    /// The last access, which reads the status.
    pub fn is_last(&self) -> bool {
        self.step == self.last()
    }

    /// The next access is in hand.
    pub fn on(self) -> Opening {
        Opening {
            step: self.step.saturating_add(1),
            ..self
        }
    }

    fn last(&self) -> u64 {
        if self.again { 9 } else { 5 }
    }

    // How many accesses that are repeated until the slave shows a state come behind this one.
    fn awaited_behind(&self) -> u64 {
        let clear = if self.again && self.step < 2 { 1 } else { 0 };
        let last = if self.step < self.last() { 1 } else { 0 };
        clear + last
    }

    /// Each access takes a round at most, and one that awaits a step the time until the slowest slave makes one.
    pub fn way(&self, ring: &Ring) -> Way {
        let rounds = self
            .last()
            .saturating_sub(self.step)
            .saturating_mul(ring.slaves);
        let steps = self.awaited_behind().saturating_mul(ring.slowest);
        Way {
            rest: rounds.saturating_add(steps),
            awaits: self.shows_clear() || self.is_last(),
        }
    }
}

impl Half {
    /// A lost read: the repeat request is written, its acknowledge is read, and mailbox 1 is read again.
    pub fn way(&self, ring: &Ring) -> Option<Way> {
        match self {
            Half::Clear => None,
            Half::Doubt => Some(Way {
                rest: ring.slaves.saturating_mul(2).saturating_add(ring.slowest),
                awaits: false,
            }),
            Half::Asked => Some(Way {
                rest: ring.slaves,
                awaits: true,
            }),
            Half::Refetch => Some(Way {
                rest: 0,
                awaits: false,
            }),
        }
    }
}
