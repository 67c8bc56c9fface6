//! How a master stands to a slave: it is open, or to be returned to Init.

ghost use Rattle.std.specs.Prelude.{◌≡◌};
ghost use Rattle.master_node.specs.Standing.{leaves, is_up};

use crate::node::MasterNode;
use al_state::BringStep;
use master_tour::Stand;

// Whether a slave is opened anew and wasn't seen in Init yet.
fn leaves(stand: Stand) -> bool
    ensures { result ≡ leaves stand }
{
    match stand {
        Stand::Opening(up) => up.again && matches!(up.step, BringStep::Return | BringStep::Watch),
        Stand::Open | Stand::Gone => false,
    }
}

// Whether a slave is open.
fn is_up(stand: Stand) -> bool
    ensures { result ≡ is_up stand }
{
    matches!(stand, Stand::Open)
}

impl MasterNode {
    ghost use Rattle.std.specs.Prelude.{◌≡◌, ◌<◌, ℕ, List, IfSome, slice_get, vec_len};
    ghost use Rattle.life_runs.specs.of_frame_view.View.{Lens};
    ghost use Rattle.life_runs.specs.Spans.{is_leaving, is_open};
    ghost use Rattle.life_runs.specs.Led.{Leads};
    ghost use Rattle.master_node.specs.Told.{HasLeads};

    /// Whether a slave is to be returned to Init: it is opened anew, and wasn't seen in Init yet.
    pub fn is_leaving(&self, slave: u32) -> bool
        requires { slave < vec_len self.now.posts }
        ensures { (lens : ℕ → Lens) (recover : ℕ) (as' : List Leads) → HasLeads lens recover self.now as' → IfSome (slice_get as' slave) (λ a. result ≡ is_leaving a.lived.life.stand) }
    {
        leaves(self.tour.stops[slave as usize].stand)
    }

    /// Whether a slave is open.
    pub fn is_open(&self, slave: u32) -> bool
        requires { slave < vec_len self.now.posts }
        ensures { (lens : ℕ → Lens) (recover : ℕ) (as' : List Leads) → HasLeads lens recover self.now as' → IfSome (slice_get as' slave) (λ a. result ≡ is_open a.lived.life.stand) }
    {
        is_up(self.tour.stops[slave as usize].stand)
    }
}
