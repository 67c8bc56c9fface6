use crate::gram::{Access, Gram, Spot};
use crate::repair::{Half, Opening, Ring, Way};

/// The state Init, as AL status has it.
const INIT: u16 = 1;
/// The mark by which AL control acknowledges an error, and AL status shows one.
const MARK: u16 = 16;

/// How the master stands to a slave.
#[derive(Clone, Copy)]
enum Stand {
    Opens(Opening),
    Open,
    /// It was given up for good.
    Gone,
}

/// How far a state service that has drained has come: it writes its target; it awaits that; it acknowledges an error; it waits until the error is
/// gone.
#[derive(Clone, Copy)]
enum Phase {
    Ask,
    Await,
    Acknowledge,
    Recover,
}

/// A slave as the frames show it: how far its opening or its repeat round is, and what it has gained.
#[derive(Clone, Copy)]
pub struct Tracker {
    pub spot: Spot,
    pace: u64,
    stand: Stand,
    half: Half,
    /// The repeat request, as it was written last.
    bit: bool,
    /// The counter of the mail that was read last.
    last: u8,
    /// A write of mailbox 0 is not done yet.
    held: bool,
    /// Of the state service in hand.
    phase: Option<Phase>,
    /// The state that AL control was written with last.
    target: u16,
    /// What was gained, but for the state service in hand.
    won: u64,
    /// How often a state service began to reopen the slave.
    pub reopened: u64,
    /// How often it was given up.
    gave: u32,
    /// Whether its processor made a step since the access in hand is in hand.
    stepped: bool,
}

impl Phase {
    // Five steps at most: one more ends the service.
    fn gains(&self) -> u64 {
        match self {
            Phase::Ask => 1,
            Phase::Await => 2,
            Phase::Acknowledge => 3,
            Phase::Recover => 4,
        }
    }
}

/// What a state service has gained that is over.
const WHOLE: u64 = 5;

fn phase_gains(phase: &Option<Phase>) -> u64 {
    match phase {
        Some(phase) => phase.gains(),
        None => 0,
    }
}

impl Tracker {
    /// A slave before the first frame, with the pace of its processor.
    pub fn new(spot: Spot, pace: u32) -> Tracker {
        Tracker {
            spot,
            pace: u64::from(pace),
            stand: Stand::Opens(Opening {
                again: false,
                step: 1,
            }),
            half: Half::Clear,
            bit: false,
            last: 0,
            held: false,
            phase: None,
            target: 0,
            won: 0,
            reopened: 0,
            gave: 0,
            stepped: false,
        }
    }

    /// The mails that were told and heard, and the steps of its state services.
    pub fn gains(&self) -> u64 {
        self.won.saturating_add(phase_gains(&self.phase))
    }

    /// Whether it is brought up, or opened anew.
    pub fn is_opening(&self) -> bool {
        matches!(self.stand, Stand::Opens(_))
    }

    /// What is to be repaired of it.
    pub fn way(&self, ring: &Ring) -> Option<Way> {
        match &self.stand {
            Stand::Opens(opening) => Some(opening.way(ring)),
            Stand::Open => self.half.way(ring),
            Stand::Gone => None,
        }
    }

    // Behind how many frames the next step comes: one does behind each whose number, counted from 1, the pace divides.
    fn clock(&self, number: u64) -> u64 {
        if self.pace == 0 {
            return 0;
        }
        self.pace.saturating_sub(number % self.pace)
    }

    /// In how many frames it is repaired, where so many slaves are visited before it and so many frames have been sent.
    pub fn deadline(&self, ring: &Ring, ahead: u64, number: u64) -> u64 {
        let Some(way) = self.way(ring) else {
            return 0;
        };
        let now = if way.awaits && !self.stepped {
            self.clock(number).saturating_add(ring.slaves)
        } else {
            ahead.saturating_add(1)
        };
        way.rest.saturating_add(now)
    }

    /// It goes on behind a frame with this number, before which it was as `before`: its processor may make a step.
    pub fn ticks(&mut self, before: &Tracker, number: u64) {
        let alone = Ring {
            slaves: 1,
            slowest: 1,
        };
        let same = self.way(&alone) == before.way(&alone);
        let steps = self.clock(number) == 1;
        self.stepped = steps || same && self.stepped;
    }

    /// A datagram is sent to it.
    pub fn sends(&mut self, gram: &Gram) {
        match gram.access {
            Access::WriteMail => self.held = true,
            Access::WriteRequest { bit } => self.bit = bit,
            Access::SetControl { word } if word < MARK => self.target = word,
            _ => {}
        }
    }

    /// A datagram to it is lost.
    pub fn loses(&mut self, gram: &Gram) {
        if matches!(self.stand, Stand::Open) && matches!(gram.access, Access::ReadMail { .. }) {
            self.half = Half::Doubt;
        }
    }

    /// It is given up: the first so many times it is opened anew.
    pub fn gives_up(&mut self, recover: u32) {
        self.stand = if self.gave < recover {
            self.gave = self.gave.saturating_add(1);
            Stand::Opens(Opening {
                again: true,
                step: 1,
            })
        } else {
            Stand::Gone
        };
    }

    /// A datagram to it came back. `returns` says whether the next one to it returns it to Init.
    pub fn returned(&mut self, gram: &Gram, returns: bool) {
        match self.stand {
            Stand::Opens(opening) => self.opening_back(opening, gram),
            Stand::Open => self.open_back(gram, returns),
            Stand::Gone => {}
        }
    }

    fn opening_back(&mut self, opening: Opening, gram: &Gram) {
        if opening.shows_clear() {
            if gram.shows(INIT) {
                self.clears();
                self.stand = Stand::Opens(opening.on());
            }
        } else if opening.is_last() {
            if gram.shows(self.target) {
                self.stand = Stand::Open;
            }
        } else {
            self.stand = Stand::Opens(opening.on());
        }
    }

    // The return to Init was seen: what was in hand is left, and counts as it stands.
    fn clears(&mut self) {
        self.won = self.gains().saturating_add(u64::from(self.held));
        self.held = false;
        self.phase = None;
        self.half = Half::Clear;
        self.last = 0;
    }

    fn wins(&mut self, gained: u64) {
        self.won = self.won.saturating_add(gained);
    }

    fn open_back(&mut self, gram: &Gram, returns: bool) {
        match gram.access {
            Access::ReadMail { mail } => self.read_back(gram, mail),
            _ if !gram.is_met() => {}
            Access::WriteMail => {
                self.held = false;
                self.wins(1);
            }
            Access::WriteRequest { .. } => self.half = Half::Asked,
            Access::ReadAcknowledge { bit } if bit == self.bit => self.half = Half::Refetch,
            Access::ReadFull { .. } if self.is_drained_by(gram) => self.drained(returns),
            Access::SetControl { .. } => self.word_written(),
            Access::ReadState { status } => self.status_found(status),
            _ => {}
        }
    }

    // A read of mailbox 1 came back: a mail whose counter isn't that of the last one is new.
    fn read_back(&mut self, gram: &Gram, mail: u8) {
        self.half = Half::Clear;
        if !gram.is_met() {
            return;
        }
        if mail == 0 || mail != self.last {
            self.wins(1);
        }
        self.last = mail;
    }

    /// Whether a datagram that came back ends the drain of a state service: mailbox 0 is seen empty.
    pub fn is_drained_by(&self, gram: &Gram) -> bool {
        matches!(self.stand, Stand::Open)
            && self.phase.is_none()
            && gram.is_met()
            && gram.access == Access::ReadFull { full: false }
    }

    // Mailbox 0 was seen empty: the state service goes on, by a reopening where its target returns the slave to Init.
    fn drained(&mut self, returns: bool) {
        self.phase = Some(Phase::Ask);
        if returns {
            self.reopened = self.reopened.saturating_add(1);
            self.stand = Stand::Opens(Opening {
                again: true,
                step: 1,
            });
        }
    }

    fn word_written(&mut self) {
        self.phase = match self.phase {
            Some(Phase::Ask) => Some(Phase::Await),
            Some(Phase::Acknowledge) => Some(Phase::Recover),
            phase => phase,
        };
    }

    // The state service is over where its target is shown, or an error that was acknowledged is gone.
    fn status_found(&mut self, status: u16) {
        match self.phase {
            Some(Phase::Await) if status == self.target => self.ends(),
            Some(Phase::Await) if status >= MARK => self.phase = Some(Phase::Acknowledge),
            Some(Phase::Recover) if status < MARK => self.ends(),
            _ => {}
        }
    }

    fn ends(&mut self) {
        self.phase = None;
        self.wins(WHOLE);
    }
}
