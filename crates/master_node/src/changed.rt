//! What a master says of the newest change of state of a slave.

ghost use Rattle.std.specs.Prelude.{◌≡◌, Option};
ghost use Rattle.life_runs.specs.of_master_duty.Reply.{Reply};
ghost use Rattle.life_runs.specs.of_master_hand.Spoken.{Asked};
ghost use Rattle.life_runs.specs.of_master_side.Carried.{in_hand};
ghost use Rattle.life_runs.specs.of_master_side.Shown.{DutyShows, OverShows};
ghost use Rattle.life_runs.specs.of_state_model.Accounts.{Account};
ghost use Rattle.master_node.specs.Changed.{TellsChange};

use crate::node::MasterNode;
use master_duty::Met;

/// What became of the newest change of state since a slave was opened.
#[derive(Clone, Copy)]
pub enum Changed {
    /// None came into hand.
    Nothing,
    /// It is in hand.
    Going,
    /// The slave reached the state.
    Reached,
    /// The slave refused it, with this AL status code.
    Refused(u16),
}

// By what a side has of it.
fn changed_by(duty: Option<Met>) -> Changed
    ensures { (b : Account Asked Reply) → DutyShows (in_hand duty) b.hand → OverShows duty b.over → TellsChange result b }
{
    match duty {
        None => Changed::Nothing,
        Some(Met::On(_)) => Changed::Going,
        Some(Met::Reached) => Changed::Reached,
        Some(Met::Refused(code)) => Changed::Refused(code),
    }
}

impl MasterNode {
    ghost use Rattle.std.specs.Prelude.{◌≡◌, ◌<◌, ℕ, List, IfSome, slice_get, vec_len};
    ghost use Rattle.life_runs.specs.of_frame_view.View.{Lens};
    ghost use Rattle.life_runs.specs.of_life_model.Lives.{Stand};
    ghost use Rattle.life_runs.specs.Led.{Leads};
    ghost use Rattle.master_node.specs.Told.{HasLeads};

    /// What became of the newest change of state of a slave that is open. It stays until the next comes into hand, or the slave is opened
    /// anew.
    pub fn changed(&self, slave: u32) -> Changed
        requires { slave < vec_len self.now.posts }
        ensures { (lens : ℕ → Lens) (recover : ℕ) (as' : List Leads) → HasLeads lens recover self.now as' →
            IfSome (slice_get as' slave) (λ a. a.lived.life.stand ≡ Stand.Open → TellsChange result a.lived.life.era.account) }
    {
        changed_by(self.tour.stops[slave as usize].side.duty)
    }
}
