//! A serving as its master leads it: its slaves stay where they are, and no more mails wait for one than may. Definitions and laws, no running code: the
//! functions here do nothing, and their contracts state the laws.
#![tactic(auto)]

ghost use Rattle.run_frames.specs.of_life_runs.Led.{Exchanged, Leads};
ghost use Rattle.run_frames.specs.of_frame_view.View.{Lens};
ghost use Rattle.served_places.specs.Places.{MayWait, spot_at};
ghost use Rattle.run_frames.specs.of_life_runs.Served.{Serves, IsServedLed, all_serve};
ghost use Rattle.std.specs.Prelude.{◌≡◌, ℕ, List, map, All};

pub mod kept_rows;
pub mod served_tours;

/// EACH SLAVE STAYS AT ITS PLACE over all frames of a serving, whatever is asked of it.
pub fn places_law()
    ensures { (lens : ℕ → Lens) (recover retry : ℕ) (first : List Serves) (fs : List Exchanged) (missed : ℕ) (ws : List Serves) → IsServedLed lens recover retry first fs missed ws → map spot_at ws ≡ map spot_at first }
{}

/// NO MORE THAN 64 MAILS WAIT for a slave, over all frames of a serving.
pub fn waiting_law()
    ensures { (lens : ℕ → Lens) (recover retry : ℕ) (paces : List ℕ) (first : List Leads) (fs : List Exchanged) (missed : ℕ) (ws : List Serves) → IsServedLed lens recover retry (all_serve paces first) fs missed ws → All MayWait ws }
{}
