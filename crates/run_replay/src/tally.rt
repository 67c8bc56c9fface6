use crate::repair::Ring;

/// How far a run has come: the frames sent, those of them that were lost, what was gained, and how often a state service began to reopen its slave; in
/// how many frames at most all live slaves are repaired, if none is lost; and how many came back since with nothing gained.
#[derive(Clone, Copy, Default)]
pub struct Tally {
    pub frames: u64,
    pub lost: u64,
    pub gains: u64,
    pub reopened: u64,
    pub repair: u64,
    pub still: u64,
}

impl Ring {
    /// By how many frames at most a lost frame, or a state service that begins to reopen its slave, puts off the end of the repairs: a reopening has
    /// nine accesses, two of which await a step of the slave.
    pub fn broken(&self) -> u64 {
        self.slaves
            .saturating_mul(9)
            .saturating_add(self.slowest.saturating_mul(2))
    }

    /// How many frames at most come back without a gain, with nothing to repair: until each slave has made a step, and three rounds.
    pub fn quiet(&self) -> u64 {
        self.slaves.saturating_mul(3).saturating_add(self.slowest)
    }
}

impl Tally {
    fn is_put_off(&self, ring: &Ring, behind: &Tally) -> bool {
        behind.repair <= self.repair.saturating_add(ring.broken()) && behind.still == 0
    }

    // The frame was lost: nothing is gained by it.
    fn loses(&self, ring: &Ring, behind: &Tally) -> bool {
        behind.lost == self.lost.saturating_add(1)
            && behind.gains == self.gains
            && behind.reopened == self.reopened
            && self.is_put_off(ring, behind)
    }

    // It came back, and all that is repaired comes nearer its end.
    fn repairs(&self, behind: &Tally) -> bool {
        behind.lost == self.lost
            && self.gains <= behind.gains
            && behind.reopened == self.reopened
            && behind.repair < self.repair
            && behind.still == self.still
    }

    // It came back with a gain.
    fn gains(&self, behind: &Tally) -> bool {
        behind.lost == self.lost
            && self.gains < behind.gains
            && behind.reopened == self.reopened
            && behind.repair <= self.repair
            && behind.still == 0
    }

    // It came back with a gain by which slaves begin to be reopened.
    fn reopens(&self, ring: &Ring, behind: &Tally) -> bool {
        behind.lost == self.lost
            && self.gains < behind.gains
            && self.reopened < behind.reopened
            && self.is_put_off(ring, behind)
    }

    // It came back with none, as one of so many in a row at most.
    fn is_still(&self, ring: &Ring, behind: &Tally) -> bool {
        behind.lost == self.lost
            && behind.gains == self.gains
            && behind.reopened == self.reopened
            && behind.repair <= self.repair
            && behind.still == self.still.saturating_add(1)
            && behind.still <= ring.quiet()
    }

    /// Whether the tally behind one frame more is one that a frame may leave.
    pub fn counts(&self, ring: &Ring, behind: &Tally) -> bool {
        let is_one = behind.frames == self.frames.saturating_add(1);
        let came_back = self.repairs(behind)
            || self.gains(behind)
            || self.reopens(ring, behind)
            || self.is_still(ring, behind);
        is_one && (self.loses(ring, behind) || came_back)
    }

    /// Whether the frames sent and those to come until all is repaired are paid: by each lost frame, by each gain and each reopening, and by the first
    /// bring-up, which takes `first` frames.
    pub fn is_paid(&self, ring: &Ring, first: u64) -> bool {
        let a_gain = ring.quiet().saturating_add(1);
        let a_loss = ring.broken().saturating_add(a_gain);
        let paid = self
            .lost
            .saturating_mul(a_loss)
            .saturating_add(self.gains.saturating_mul(a_gain))
            .saturating_add(self.reopened.saturating_mul(ring.broken()))
            .saturating_add(first)
            .saturating_add(self.still);
        self.still <= ring.quiet() && self.frames.saturating_add(self.repair) <= paid
    }
}
