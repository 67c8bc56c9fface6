//! The frames of a serving are fewer than the bound. A law, no running code: the function here does nothing, and its contract states the law.

ghost use Rattle.gateway_run.specs.Served.{HasAccount};
ghost use Rattle.run_promises.specs.of_master_node.Happened.{events_of};
ghost use Rattle.run_promises.specs.of_packets_heard.Recalled.{State};
ghost use Rattle.run_promises.specs.of_packets_heard.ServedRecalled.{ServedRecalledIn};
ghost use Rattle.seen_slaves.specs.of_plan_ring.Lives.{IsKnown};
ghost use Rattle.seen_slaves.specs.of_plan_ring.PlanRooms.{HasRoom};
ghost use Rattle.gateway_run.specs.of_run_book.declared.book.Book.{Book};
ghost use Rattle.gateway_run.specs.of_run_book.declared.book.Ending.{Ending};
ghost use Rattle.gateway_run.specs.of_run_book.declared.book.GramIn.{GramIn};
ghost use Rattle.gateway_run.specs.of_run_record.Ran.{HasSent};
ghost use Rattle.run_promises.specs.of_run_work.Fair.{AreFairGrams};
ghost use Rattle.run_promises.specs.of_segment_plan.Bound.{bound_of};
ghost use Rattle.run_promises.specs.of_segment_plan.Sound.{IsPlan};
ghost use Rattle.run_promises.specs.of_segment_plan.declared.plan.Scenario.{Scenario};
ghost use Rattle.std.specs.Prelude.{◌≡◌, ◌<◌, ◌≤◌, ℕ, length, map};

/// THE FRAMES OF A SERVING OF A PLAN ARE FEWER THAN THE BOUND for so many datagrams, whatever frames are lost, where no datagram's mail begins a download to 2F01:01
/// and each service of the plan has room: its master makes no visit in vain by what it remembers, and its slaves send no mail that isn't due.
pub fn fewer_law()
    ensures { (plan : Scenario) (count : ℕ) (book : Book) (ending : Ending) → IsPlan plan → IsKnown plan → HasRoom plan → HasSent plan count book → (a : HasAccount plan count book ending) →
        (s : State) → ServedRecalledIn plan a.answers.serving.leading.toured s → s.events ≡ events_of a.answers.serving.rows → AreFairGrams (map (λ (g : GramIn). g.bytes) book.grams) → length book.grams ≤ count → length book.frames < bound_of plan count }
{
    crate::served_books::asked_law();
    crate::bounded_servings::bounded_serving_law();
    crate::eager_servings::eager_serving_law();
    seen_slaves::served_waits::served_due_law();
}
