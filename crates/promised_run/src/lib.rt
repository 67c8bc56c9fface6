//! A run of a plan that was read, with what it promises of each slave.
#![tactic(auto)]

ghost use Rattle.promised_run.specs.Bounded.{IsBounded};
ghost use Rattle.promised_run.specs.Promised.{IsPromised};
ghost use Rattle.gateway_run.specs.of_run_book.Book.{IsNew};
ghost use Rattle.run_promises.specs.of_scenario.Told.{IsTold};
ghost use Rattle.gateway_run.specs.of_run_record.Ran.{HasFrames, EndsAs};
ghost use Rattle.run_promises.specs.of_segment_plan.Sound.{IsPlan};
ghost use Rattle.std.specs.Prelude.{◌≡◌, [], false};

pub mod bound_premises;
pub mod bounded_runs;
pub mod bounded_servings;
pub mod eager_runs;
pub mod eager_servings;
pub mod fewer_servings;
pub mod promised_serving;
pub mod served_books;
pub mod toured_servings;

use crate::bounded_runs::fewer_law;
use life_runs::epochs_law;
use life_runs::served_runs::run_served_law;
use plan_ring::plan_dues::plan_due_law;
use plan_ring::plan_rooms::room_law;
use run_book::{Book, Ending};
use run_frames::script_runs::script_run_law;
use run_promises::accepted_mails::accepted_law;
use run_promises::whole_packets::whole_packets_law;
use run_promises::{read_promise_law, rest_promise_law};
use segment_plan::Scenario;
use served_rings::served_replies::served_replies_law;
use std::alloc::Global;

/// Runs a plan that was read, as `run_record` does. Whatever frames are lost, each slave begins just the first services of its script, each once and
/// in order; it has carried out in each epoch just the first of these and counts just those by mails, and each reply is its application's. Each epoch
/// opens the AL state that its cause says, and each frame is addressed to the slaves of its visit. Its frames are fewer than the bound, so a budget of
/// as many never cuts it off, and where a budget was spent something was left to do; where no more in a row are lost than the retry limit, all is done.
pub fn run(alloc: Global, plan: &Scenario, book: &mut Book) -> Ending
    requires plan { IsPlan plan.now }
    requires told { IsTold plan.now }
    requires new { IsNew book.old }
    ensures frames { HasFrames plan.now book.new }
    ensures promise { IsPromised plan.now book.new }
    ensures bounded { IsBounded plan.now book.new }
    ensures ends { EndsAs plan.now book.new result }
    ensures ending { book.new.ending ≡ result }
    ensures serving { book.new.serving ≡ false }
    ensures unheard { book.new.grams ≡ [] }
    ensures unsent { book.new.replies ≡ [] }
{
    read_promise_law();
    rest_promise_law();
    script_run_law();
    epochs_law();
    plan_due_law();
    room_law();
    fewer_law();
    run_served_law();
    served_replies_law();
    whole_packets_law();
    accepted_law();
    run_record::run(alloc, plan, book)
}
