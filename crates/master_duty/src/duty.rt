ghost use Rattle.std.specs.Prelude.{◌≡◌, ◌<◌, true};
ghost use Rattle.master_duty.specs.Stages.{is_going};

use crate::stage::{Errand, Met, Stage};
use al_state::{Climb, ClimbNext, climb_new, next, status, written};

/// A change of a slave's AL state that is in hand (ETG.1000.6, AL control and AL status): the state that it is to end in, and how
/// far it has come. A state is a number below 16.
#[derive(Clone, Copy)]
pub struct Duty {
    /// The state to be reached: 1 Init, 2 PreOp, 3 Bootstrap, 4 SafeOp, 8 Op.
    pub target: u8,
    /// How far it has come.
    pub stage: Stage,
    pub ghost going: { is_going target stage ≡ true },
}

impl Duty {
    ghost use Rattle.std.specs.Prelude.{◌≡◌, ◌<◌, ◌==◌, ℕ, Bool, Some, None, Option, true};
    ghost use Rattle.state_model.specs.of_segment_model.Slaves.{Access, Found};
    ghost use Rattle.state_model.specs.Accounts.{access_done, stage_access};
    ghost use Rattle.master_duty.specs.Stages.{stage_of, errand_of, errand_access, found_state, is_met, reopening};
    ghost use Rattle.master_duty.specs.Reply.{Reply};
    ghost use Rattle.master_duty.specs.Mets.{progress_of, met_of, KeepsTarget};

    /// A state service comes into hand.
    pub fn new(target: u8) -> Duty
        requires { target < 16 }
        ensures target { result.target ≡ target }
        ensures stage { result.stage ≡ Stage.Drain }
    {
        Duty {
            target,
            stage: Stage::Drain,
        }
    }

    /// The access that it sends, none while it drains.
    pub fn errand(&self) -> Option<Errand>
        ensures access { errand_access result ≡ stage_access self.now.target (stage_of self.now.stage) }
        ensures of { result ≡ errand_of self.now.stage }
    {
        match self.stage {
            Stage::Drain => None,
            Stage::Way(climb) => Some(match next(&climb) {
                ClimbNext::Write(word) => Errand::Write(word),
                _ => Errand::ReadStatus,
            }),
        }
    }

    /// The state in which the slave is to be opened anew, where the service has drained and returns it to
    /// Init: 2 for the target 1, 3 for the target 3.
    pub fn reopens(&self) -> Option<u8>
        ensures { result ≡ reopening self.now.target (stage_of self.now.stage) }
    {
        match (self.stage, self.target) {
            (Stage::Way(_), 1) => Some(2),
            (Stage::Way(_), 3) => Some(3),
            _ => None,
        }
    }

    // What its climb has come to.
    fn met(self, climb: Climb) -> Met
        requires { is_met self.target climb ≡ true }
        ensures done { progress_of {R = Reply} result ≡ met_of climb }
        ensures kept { KeepsTarget self.target result }
    {
        match climb {
            Climb::Arrived => Met::Reached,
            Climb::Refused { code } => Met::Refused(code),
            other => Met::On(Duty {
                target: self.target,
                stage: Stage::Way(other),
            }),
        }
    }

    /// The status octet of mailbox 0 was read: a drain ends where the mailbox is empty.
    pub fn full_shown(self, full: bool) -> Met
        ensures done { progress_of {R = Reply} result ≡ access_done self.target (stage_of self.stage) Access.ReadFull (Some (Found.Full full)) }
        ensures kept { KeepsTarget self.target result }
    {
        match self.stage {
            Stage::Drain => {
                if full {
                    Met::On(self)
                } else {
                    Met::On(Duty {
                        target: self.target,
                        stage: Stage::Way(climb_new(0, self.target)),
                    })
                }
            }
            Stage::Way(_) => Met::On(self),
        }
    }

    /// The control word that was sent is written.
    pub fn word_written(self) -> Met
        ensures done { (target : ℕ) (acknowledge : Bool) → progress_of {R = Reply} result ≡ access_done self.target (stage_of self.stage) (Access.SetControl target acknowledge) None }
        ensures kept { KeepsTarget self.target result }
    {
        match self.stage {
            Stage::Drain => Met::On(self),
            Stage::Way(mut climb) => {
                written(&mut climb);
                self.met(climb)
            }
        }
    }

    /// AL status and code were read. A status of 32 and above is none that a slave has.
    pub fn status_shown(self, word: u16, code: u16) -> Met
        requires { word < 32 }
        ensures done { progress_of {R = Reply} result ≡ access_done self.target (stage_of self.stage) Access.ReadState (Some (found_state word code)) }
        ensures kept { KeepsTarget self.target result }
    {
        match self.stage {
            Stage::Drain => Met::On(self),
            Stage::Way(mut climb) => {
                status(&mut climb, word, code);
                self.met(climb)
            }
        }
    }
}
