//! The frames of a run, counted.

ghost use Rattle.std.specs.Prelude.{◌≤◌, ◌<◌, ℕ, ◌+◌, ◌*◌};
ghost use Rattle.life_model.specs.Tally.{Tally, Counted, IsPaid, new_tally};

/// WHAT A RUN TAKES: each lost frame is paid with what it breaks, each gain with the frames that come before the next one, each reopening that a state
/// service begins with its own, and so the first bring-up. So at each moment the frames sent are fewer than `16 * pace * (slaves + 1)` for each of these,
/// and two for each slave.
pub fn sum_law()
    ensures paid { (slaves pace first : ℕ) (t : Tally) → Counted slaves pace (new_tally first) t → IsPaid slaves pace first t }
    ensures within { (slaves pace first work lost : ℕ) (t : Tally) → 1 ≤ slaves → 1 ≤ pace → first ≤ slaves * (5 + pace) → Counted slaves pace (new_tally first) t → t.gains + t.reopened ≤ work → t.lost ≤ lost →
        t.frames < 16 * pace * (slaves + 1) * (work + lost + 2 * slaves) }
{}
