//! A run of which it is known with which frames packets of the host came in. Definitions and a law, no running code: the function here does nothing, and its
//! contract states the law.

ghost use Rattle.std.specs.Prelude.{ℕ, List, Option};
ghost use Rattle.idle_slaves.specs.Eager.{Remembered};
ghost use Rattle.plan_ring.specs.of_life_runs.First.{lens_of, first_leads};
ghost use Rattle.plan_ring.specs.of_life_runs.Led.{Exchanged, Leads};
ghost use Rattle.plan_ring.specs.of_link_mails.Body.{Body};
ghost use Rattle.plan_ring.specs.of_master_duty.Reply.{Reply};
ghost use Rattle.plan_ring.specs.of_master_hand.Spoken.{Asked};
ghost use Rattle.plan_ring.specs.of_run_frames.Clocks.{Clocked};
ghost use Rattle.plan_ring.specs.of_run_frames.Runs.{Progress};
ghost use Rattle.plan_ring.specs.of_run_frames.Toured.{IsToured};
ghost use Rattle.plan_ring.specs.of_segment_plan.declared.plan.Scenario.{Scenario};
ghost use Rattle.idle_slaves.specs.Entered.{EagerBut, Entered};

/// OF A RUN WITH KNOWN FRAMES OF THE HOST those of them that gained nothing count as lost: each other frame that gained nothing is one that its master made with
/// no visit in vain. No more count as lost than were lost, and one for each of the host's frames.
pub fn entered_law()
    ensures { (plan : Scenario) (slowest : ℕ) (paces : List ℕ) (fs : List Exchanged) (again : Option (List ℕ)) (missed : ℕ) (leads : List Leads) (p : Progress) (cs : List (Clocked Body Asked Reply)) (ns : List Remembered) →
        (run : IsToured (lens_of plan.slaves) plan.recover plan.retry slowest (first_leads plan) paces fs again missed leads p cs) → (e : EagerBut plan run ns) → Entered plan slowest paces fs again missed leads p cs ns run e }
{}
