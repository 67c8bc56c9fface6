ghost use Rattle.std.specs.Prelude.{◌≡◌, ◌++◌, OnOk};
ghost use Rattle.check_summary.specs.declared.promise.Promise.TheVariants as promises;
ghost use Rattle.check_summary.specs.of_segment_plan.Sound.{IsPlan};
ghost use Rattle.check_summary.specs.Few.{AreFew};
ghost use Rattle.check_summary.specs.Promise.{is_cut_off, HasEnough, promise_of, lost_text, promise_text};

use crate::losses::{Row, longest_row};
use crate::numbers::add_number;
use ec_fields::{NoMemory, Octets};
use segment_plan::{Scenario, bound};

/// The line of a promise where the budget is below the bound.
pub const CUT_OFF: &str =
    "promise: each service is carried out at most once, in order; the budget is below the bound, so the run may be cut off\n";

/// How the line begins where more frames in a row are lost than a slave outlives.
pub const AT_MOST_ONCE: &str =
    "promise: each service is carried out at most once, in order; frames ";

/// The line where neither is so.
pub const ANSWERED: &str =
    "promise: each service is carried out or refused once, in order, and answered; no slave is given up\n";

/// What a run of a plan promises of its services.
#[derive(Clone, Copy)]
pub enum Promise {
    /// The budget of frames is below the bound, so the run may be cut off.
    CutOff,
    /// These frames in a row may be more than a slave outlives.
    Lost(Row),
    /// Each service is carried out or refused once, and answered.
    Answered,
}

// Whether a plan has a budget below its frame bound.
fn is_cut_off(budget: Option<u32>, bound: u64) -> bool
    ensures { result ≡ is_cut_off budget bound }
{
    match budget {
        Some(budget) => u64::from(budget) < bound,
        None => false,
    }
}

/// What a run of a plan promises: the first that applies.
#[tactic(auto, unfolding(crate::specs::Promise::promise_of))]
pub fn promise_of(plan: &Scenario) -> Promise
    requires { IsPlan plan.now }
    ensures is { result ≡ promise_of plan.now }
    // That each is answered is promised only where no more frames in a row are lost than a slave outlives, and the budget reaches the bound.
    ensures few { result ≡ promises.Answered → AreFew plan.now.lose plan.now.retry }
    ensures enough { result ≡ promises.Answered → HasEnough plan.now }
{
    if is_cut_off(plan.budget, bound(plan, 0)) {
        return Promise::CutOff;
    }
    let row = longest_row(plan.lose.as_slice());
    if row.count() > u64::from(plan.retry) {
        Promise::Lost(row)
    } else {
        Promise::Answered
    }
}

// Adds the line of frames that may be more than a slave outlives.
#[tactic(auto, unfolding(crate::specs::Promise::lost_text))]
fn add_lost(text: &mut Octets, row: Row) -> Result<(), NoMemory>
    ensures { OnOk result (text.new ≡ text.old ++ lost_text row) }
{
    text.add(AT_MOST_ONCE.as_bytes())?;
    add_number(text, u64::from(row.first))?;
    text.add(b" to ")?;
    add_number(text, row.behind.saturating_sub(1))?;
    text.add(b" may be more than a slave outlives\n")?;
    Ok(())
}

/// Adds the line of a promise.
#[tactic(auto, unfolding(crate::specs::Promise::promise_text))]
pub(crate) fn add_promise(text: &mut Octets, promise: Promise) -> Result<(), NoMemory>
    ensures { OnOk result (text.new ≡ text.old ++ promise_text promise) }
{
    match promise {
        Promise::CutOff => text.add(CUT_OFF.as_bytes()),
        Promise::Lost(row) => add_lost(text, row),
        Promise::Answered => text.add(ANSWERED.as_bytes()),
    }
}
