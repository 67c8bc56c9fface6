//! While the frames of a serving gain nothing some slave waits yet; what its slaves answer; and that what they send is due. Definitions and laws, no running code: the functions here do
//! nothing, and their contracts state the laws.

ghost use Rattle.std.specs.Prelude.{ℕ, List, Option};
ghost use Rattle.idle_slaves.specs.Eager.{Remembered};
ghost use Rattle.idle_slaves.specs.of_life_runs.First.{first_leads, lens_of};
ghost use Rattle.idle_slaves.specs.of_life_runs.Led.{Exchanged};
ghost use Rattle.idle_slaves.specs.of_link_mails.Body.{Body};
ghost use Rattle.served_rings.specs.of_master_duty.Reply.{Reply};
ghost use Rattle.served_rings.specs.of_master_hand.Spoken.{Asked};
ghost use Rattle.idle_slaves.specs.of_plan_ring.Lives.{IsKnown};
ghost use Rattle.idle_slaves.specs.of_plan_ring.Round.{AllRound, ring_of};
ghost use Rattle.idle_slaves.specs.of_run_frames.Clocks.{Clocked};
ghost use Rattle.idle_slaves.specs.of_run_frames.Runs.{Progress};
ghost use Rattle.idle_slaves.specs.of_segment_plan.Bound.{slowest};
ghost use Rattle.idle_slaves.specs.of_segment_plan.Sound.{IsPlan};
ghost use Rattle.idle_slaves.specs.of_segment_plan.declared.plan.Scenario.{Scenario};
ghost use Rattle.served_rings.specs.of_served_places.Answered.{ServedAnswers, ServedAsks, ServedWaits};
ghost use Rattle.served_rings.specs.of_served_places.Toured.{IsServedToured};
ghost use Rattle.idle_slaves.specs.of_life_runs.Served.{Serves, all_serve};
ghost use Rattle.seen_slaves.specs.Dues.{ServedMailsAreDue};
ghost use Rattle.seen_slaves.specs.Eager.{ServedEagerIn};

/// SOME SLAVE OF A PLAN'S SERVING WAITS YET behind each frame that came back and gained nothing, with nothing to repair, before which no mail was asked since the
/// last, with no packet of the host and by which no mail that is passed on came a step on: where its master makes no visit in vain if more could go on, and no
/// frame if all is done, whatever mails are asked.
pub fn served_waits_law()
    ensures { (plan : Scenario) (fs : List Exchanged) (again : Option (List ℕ)) (missed : ℕ) (ws : List Serves) (p : Progress) (cs : List (Clocked Body Asked Reply)) (ls ns : List Remembered) → IsPlan plan → IsKnown plan →
        (run : IsServedToured (lens_of plan.slaves) plan.recover plan.retry (slowest plan.paces) (all_serve plan.paces (first_leads plan)) fs again missed ws p cs) → AllRound (ring_of plan) fs → ServedEagerIn plan run ls ns → ServedWaits run }
{
    frame_view::seen_is();
    run_work::served_work::served_returned();
    served_rings::served_ring_law();
    served_rings::plan_speakers::any_law();
    crate::tagged_waits::parts_never();
}

/// EACH SLAVE OF A PLAN'S RING ANSWERS what awaits a step of its processor, by each frame of a serving that came back, where its frames went round the ring and
/// ask by the inward half first: behind a step it shows the state that its opening awaits, and acknowledges the repeat request.
pub fn served_answers_law()
    ensures { (plan : Scenario) (fs : List Exchanged) (again : Option (List ℕ)) (missed : ℕ) (ws : List Serves) (p : Progress) (cs : List (Clocked Body Asked Reply)) → IsPlan plan → IsKnown plan →
        (run : IsServedToured (lens_of plan.slaves) plan.recover plan.retry (slowest plan.paces) (all_serve plan.paces (first_leads plan)) fs again missed ws p cs) → AllRound (ring_of plan) fs → ServedAsks run → ServedAnswers run }
{
    frame_view::seen_is();
    served_rings::served_ring_law();
}

/// EACH MAIL THAT A FRAME BRINGS of an open slave of a plan's serving is due as the frame finds it: it replies to nothing, or it is a reply to the service in hand
/// or to the mail that is passed on, of which nothing is left to tell, and which has no answer yet.
pub fn served_due_law()
    ensures { (plan : Scenario) → IsPlan plan → IsKnown plan → ServedMailsAreDue plan }
{
    frame_view::seen_is();
    served_rings::served_ring_law();
    served_rings::plan_speakers::any_law();
    crate::tagged_waits::parts_never();
    crate::tagged_waits::parts_hear();
}
