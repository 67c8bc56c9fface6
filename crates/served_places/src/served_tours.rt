//! A serving whose frames are visits of one tour. Definitions and a law, no running code: the function here does nothing, and its contract states the law.

ghost use Rattle.std.specs.Prelude.{◌≡◌, ◌≤◌, ◌<◌, ◌+◌, ◌*◌, ℕ, Option, List, length, map};
ghost use Rattle.run_frames.specs.of_frame_view.View.{Lens};
ghost use Rattle.run_frames.specs.of_life_runs.First.{lens_of, first_leads};
ghost use Rattle.run_frames.specs.of_life_runs.Led.{Exchanged, speech_at, is_passed};
ghost use Rattle.few_replies.specs.of_link_mails.Body.{Body};
ghost use Rattle.run_frames.specs.of_master_duty.Reply.{Reply};
ghost use Rattle.run_frames.specs.of_master_hand.Spoken.{Asked, acknowledged, is_followed};
ghost use Rattle.run_frames.specs.Answers.{AllReturned};
ghost use Rattle.run_frames.specs.Clocks.{Clocked};
ghost use Rattle.run_frames.specs.Fates.{gained_in};
ghost use Rattle.run_frames.specs.Runs.{Progress, IsRun};
ghost use Rattle.run_frames.specs.of_segment_plan.Bound.{slowest};
ghost use Rattle.run_frames.specs.of_segment_plan.Sound.{IsPlan};
ghost use Rattle.run_frames.specs.of_segment_plan.declared.plan.Scenario.{Scenario};
ghost use Rattle.run_frames.specs.of_life_runs.Served.{Serves, IsServedLed, all_serve};
ghost use Rattle.served_places.specs.Answered.{ServedAsks, ServedAnswers, ServedWaits};
ghost use Rattle.served_places.specs.Toured.{IsServedToured, first_served};

/// SUCH FRAMES ARE A SERVING, and each is counted once.
pub fn served_tours()
    ensures { (lens : ℕ → Lens) (recover retry slowest : ℕ) (first : List Serves) (fs : List Exchanged) (again : Option (List ℕ)) (missed : ℕ) (ws : List Serves) (p : Progress) (cs : List (Clocked Body Asked Reply)) →
        IsServedToured lens recover retry slowest first fs again missed ws p cs → IsServedLed lens recover retry first fs missed ws × (p.frames ≡ length fs) }
{}

/// ITS FRAMES COUNT AS THOSE OF A RUN, of a plan's slaves with their paces, where what came back of each is the return of what was sent; it asked by the inward
/// half first, and each slave answered what awaits a step behind one; and while nothing is gained some slave waits yet, or the frame counts as lost. So they
/// are fewer than `16 * pace * (slaves + 1)` for each gain, each reopening by a state service, each frame that counts as lost, and two for each slave.
pub fn served_frames()
    ensures run { (plan : Scenario) (fs : List Exchanged) (again : Option (List ℕ)) (missed : ℕ) (ws : List Serves) (p : Progress) (cs : List (Clocked Body Asked Reply)) → IsPlan plan →
        (t : IsServedToured (lens_of plan.slaves) plan.recover plan.retry (slowest plan.paces) (all_serve plan.paces (first_leads plan)) fs again missed ws p cs) → AllReturned (lens_of plan.slaves) fs → ServedAsks t → ServedAnswers t → ServedWaits t →
        IsRun (speech_at (lens_of plan.slaves)) acknowledged is_followed is_passed plan.recover (slowest plan.paces) (first_served (all_serve plan.paces (first_leads plan))) p cs }
    ensures within { (plan : Scenario) (fs : List Exchanged) (again : Option (List ℕ)) (missed work lost : ℕ) (ws : List Serves) (p : Progress) (cs : List (Clocked Body Asked Reply)) → IsPlan plan →
        (t : IsServedToured (lens_of plan.slaves) plan.recover plan.retry (slowest plan.paces) (all_serve plan.paces (first_leads plan)) fs again missed ws p cs) → AllReturned (lens_of plan.slaves) fs → ServedAsks t → ServedAnswers t → ServedWaits t →
        gained_in (map (λ w. w.lead) ws) ≤ length plan.slaves + work → p.lost ≤ lost → length fs < 16 * slowest plan.paces * (length plan.slaves + 1) * (work + lost + 2 * length plan.slaves) }
{
    frame_view::seen_is();
}
