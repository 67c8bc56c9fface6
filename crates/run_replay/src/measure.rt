use crate::gram::{FrameView, Spot};
use crate::repair::Ring;
use crate::sending::Sending;
use crate::tally::Tally;
use crate::tracker::Tracker;
use datagrams::{Frame, FrameFault, read};
use ec_fields::{NoMemory, Rows};
use run_book::SentFrame;
use segment_plan::Scenario;
use segment_ring::Fate;
use std::alloc::Global;

/// What a run came to by the measure.
#[derive(Clone, Copy)]
pub struct Measured {
    /// In how many frames all was to be repaired, at most.
    pub repair: u64,
    /// By how many frames one frame put that off, at most, and by how many one may.
    pub rise: u64,
    pub broken: u64,
    /// What was gained, and how often a state service began to reopen its slave.
    pub gains: u64,
    pub reopened: u64,
    /// How many frames in a row came back with nothing gained, at most, and how many may.
    pub still: u64,
    pub quiet: u64,
}

/// Why the frames of a run don't count.
#[derive(Clone, Copy)]
pub enum Uncounted {
    /// Behind this one the measure is one that no frame may leave.
    Breaks { frame: u64 },
    /// This one doesn't read.
    Unread { frame: u64 },
    /// More were sent than are paid.
    Unpaid,
    /// Want of memory.
    NoMemory,
}

/// How a frame counts.
#[derive(Clone, Copy)]
enum Passage {
    Lost,
    /// It came back in the first bring-up.
    BringsUp,
    /// It came back behind that; `enters` says whether a packet of the host came in with it.
    Round { enters: bool },
}

/// The ring between two frames.
#[derive(Drop)]
struct Measure {
    ring: Ring,
    slaves: Rows<Tracker>,
    /// How many slaves, from the first on, have ended their first bring-up.
    opened: usize,
    /// The place of the slave that was carried last.
    last: Option<usize>,
    /// How many frames were lost in a row.
    missed: u32,
    tally: Tally,
}

// The pace of the slave at a place.
fn pace_at(plan: &Scenario, place: usize) -> u32 {
    match plan.paces.get(place) {
        Some(pace) => *pace,
        None => 1,
    }
}

fn first_trackers(alloc: Global, plan: &Scenario) -> Result<Rows<Tracker>, NoMemory> {
    let mut slaves = Rows::new(alloc);
    let mut adp: u16 = 0;
    for (place, slave) in plan.slaves.as_slice().iter().enumerate() {
        let spot = Spot {
            station: slave.station,
            adp,
        };
        slaves.add(Tracker::new(spot, pace_at(plan, place)))?;
        adp = adp.wrapping_sub(1);
    }
    Ok(slaves)
}

fn slowest(paces: &[u32]) -> u64 {
    let mut slowest = 0;
    for pace in paces {
        slowest = u64::from(*pace).max(slowest);
    }
    slowest
}

// Where this slave was carried last, how many slaves of the ring come before the one at a place.
fn ahead(count: usize, last: Option<usize>, place: usize) -> u64 {
    let start = match last {
        Some(last) if last < count => last + 1,
        _ => 0,
    };
    let ahead = if start <= place {
        place - start
    } else {
        place.saturating_add(count - start)
    };
    ahead as u64
}

impl Measure {
    // Before the first frame.
    fn first(alloc: Global, plan: &Scenario) -> Result<Measure, NoMemory> {
        let slaves = first_trackers(alloc, plan)?;
        let ring = Ring {
            slaves: slaves.len() as u64,
            slowest: slowest(plan.paces.as_slice()),
        };
        let mut measure = Measure {
            ring,
            slaves,
            opened: 0,
            last: None,
            missed: 0,
            tally: Tally::default(),
        };
        measure.tally.repair = measure.repair();
        Ok(measure)
    }

    fn is_bringing_up(&self) -> bool {
        self.opened < self.slaves.len()
    }

    // In the first bring-up the slaves are repaired one behind the other: each frame carries the one that is brought up, as in a ring of its own.
    fn one_by_one(&self) -> u64 {
        let alone = Ring {
            slaves: 1,
            slowest: self.ring.slowest,
        };
        let mut frames: u64 = 0;
        for slave in self.slaves.as_slice() {
            frames = frames.saturating_add(slave.deadline(&alone, 0, self.tally.frames));
        }
        frames
    }

    // Behind it they are repaired side by side.
    fn side_by_side(&self) -> u64 {
        let count = self.slaves.len();
        let mut frames: u64 = 0;
        for (place, slave) in self.slaves.as_slice().iter().enumerate() {
            let ahead = ahead(count, self.last, place);
            frames = frames.max(slave.deadline(&self.ring, ahead, self.tally.frames));
        }
        frames
    }

    // In how many frames all is repaired, if none is lost.
    fn repair(&self) -> u64 {
        if self.is_bringing_up() {
            self.one_by_one()
        } else {
            self.side_by_side()
        }
    }

    fn gains(&self) -> u64 {
        let mut gains: u64 = 0;
        for slave in self.slaves.as_slice() {
            gains = gains.saturating_add(slave.gains());
        }
        gains
    }

    fn reopened(&self) -> u64 {
        let mut reopened: u64 = 0;
        for slave in self.slaves.as_slice() {
            reopened = reopened.saturating_add(slave.reopened);
        }
        reopened
    }

    // Behind a frame of the first bring-up that of the next slave may begin.
    fn opens_next(&mut self) {
        let is_open = match self.slaves.get(self.opened) {
            Some(slave) => !slave.is_opening(),
            None => false,
        };
        if is_open {
            self.opened = self.opened.saturating_add(1);
        }
    }

    // A round begins behind the slave carried last; behind a lost frame the same slaves come again, unless they are given up.
    fn visits(&mut self, sending: &Sending<'_>) {
        if self.is_bringing_up() {
            self.last = None;
        } else if sending.back.is_some() || sending.gives_up {
            if let Some(last) = sending.last_carried(self.slaves.as_slice()) {
                self.last = Some(last);
            }
        }
    }

    // How many frames in a row came back with nothing gained, behind one more, before which the tally was this.
    fn still(&self, before: &Tally) -> u64 {
        if self.tally.reopened > before.reopened {
            0
        } else if before.repair > 0 {
            before.still
        } else if self.tally.gains > before.gains {
            0
        } else {
            before.still.saturating_add(1)
        }
    }

    // A frame is lost; or it counts so, where it came back with nothing gained and a packet of the host came in with it.
    fn counts_lost(&mut self) {
        self.tally.lost = self.tally.lost.saturating_add(1);
        self.tally.still = 0;
    }

    // The slaves are as they are behind the frame: the tally goes on by it.
    fn tallies(&mut self, before: &Tally, passage: Passage) {
        self.tally.frames = before.frames.saturating_add(1);
        self.tally.gains = self.gains();
        self.tally.reopened = self.reopened();
        self.tally.repair = self.repair();
        match passage {
            Passage::Lost => self.counts_lost(),
            Passage::BringsUp => {}
            Passage::Round { enters } => {
                self.tally.still = self.still(before);
                if enters && self.tally.still > before.still {
                    self.counts_lost();
                }
            }
        }
    }

    fn passage(&self, sending: &Sending<'_>, enters: bool) -> Passage {
        if sending.back.is_none() {
            Passage::Lost
        } else if self.is_bringing_up() {
            Passage::BringsUp
        } else {
            Passage::Round { enters }
        }
    }

    // The ring goes on by a frame. The result says whether its tally counts.
    fn goes_on(
        &mut self,
        alloc: Global,
        sending: &Sending<'_>,
        enters: bool,
    ) -> Result<bool, NoMemory> {
        let before = self.tally;
        let passage = self.passage(sending, enters);
        let bringing_up = self.is_bringing_up();
        self.visits(sending);
        self.slaves = sending.all_behind(alloc, self.slaves.as_slice())?;
        self.missed = if sending.back.is_some() || sending.gives_up {
            0
        } else {
            self.missed.saturating_add(1)
        };
        if bringing_up {
            self.opens_next();
        }
        self.tallies(&before, passage);
        Ok(before.counts(&self.ring, &self.tally))
    }
}

// What came back of a frame: `Ok(None)` where it was lost, `Err` where it doesn't read.
fn back_of<'a>(
    row: &'a SentFrame,
    found: &'a Result<Frame, FrameFault>,
) -> Result<Option<FrameView<'a>>, FrameFault> {
    match (&row.fate, found) {
        (Fate::Lost { .. }, _) => Ok(None),
        (Fate::Pass, Err(fault)) => Err(*fault),
        (Fate::Pass, Ok(frame)) => Ok(Some(FrameView {
            octets: row.back.bytes(),
            parts: frame.parts.as_slice(),
        })),
    }
}

// The ring goes on by the first of these frames, with this number. The result says whether its tally counts.
fn step(
    alloc: Global,
    plan: &Scenario,
    rows: &[SentFrame],
    enters: bool,
    measure: &mut Measure,
) -> Result<bool, Uncounted> {
    let number = measure.tally.frames;
    let unread = Uncounted::Unread { frame: number };
    let Some(row) = rows.first() else {
        return Err(unread);
    };
    let Ok(sent) = read(row.sent.bytes()) else {
        return Err(unread);
    };
    let found = read(row.back.bytes());
    let Ok(back) = back_of(row, &found) else {
        return Err(unread);
    };
    let sending = Sending {
        sent: FrameView {
            octets: row.sent.bytes(),
            parts: sent.parts.as_slice(),
        },
        back,
        gives_up: back.is_none() && measure.missed >= plan.retry,
        recover: plan.recover,
        number,
        rows,
    };
    match measure.goes_on(alloc, &sending, enters) {
        Ok(counts) => Ok(counts),
        Err(NoMemory) => Err(Uncounted::NoMemory),
    }
}

fn has(numbers: &[u32], number: usize) -> bool {
    for one in numbers {
        if *one as usize == number {
            return true;
        }
    }
    false
}

impl Measured {
    // Before the first frame.
    fn first(measure: &Measure) -> Measured {
        Measured {
            repair: measure.tally.repair,
            rise: 0,
            broken: measure.ring.broken(),
            gains: 0,
            reopened: 0,
            still: 0,
            quiet: measure.ring.quiet(),
        }
    }

    // One frame more left this tally behind that.
    fn adds(&mut self, before: &Tally, behind: &Tally) {
        self.repair = self.repair.max(behind.repair);
        self.rise = self.rise.max(behind.repair.saturating_sub(before.repair));
        self.gains = behind.gains;
        self.reopened = behind.reopened;
        self.still = self.still.max(behind.still);
    }
}

/// Counts the frames of a run of a plan, or says where they don't count. `entries` are the numbers of the frames with which a packet of the host came
/// in.
pub fn count_frames(
    alloc: Global,
    plan: &Scenario,
    rows: &[SentFrame],
    entries: &[u32],
) -> Result<Measured, Uncounted> {
    let Ok(mut measure) = Measure::first(alloc, plan) else {
        return Err(Uncounted::NoMemory);
    };
    let first = measure.tally.repair;
    let mut measured = Measured::first(&measure);
    for frame in 0..rows.len() {
        let before = measure.tally;
        let enters = has(entries, frame);
        if !step(alloc, plan, &rows[frame..], enters, &mut measure)? {
            return Err(Uncounted::Breaks {
                frame: measure.tally.frames.saturating_sub(1),
            });
        }
        measured.adds(&before, &measure.tally);
    }
    if measure.tally.is_paid(&measure.ring, first) {
        Ok(measured)
    } else {
        Err(Uncounted::Unpaid)
    }
}
