//! What the frame bound counts for the services of a plan is enough for the mails that they take. Definitions and a law, no running code: the function
//! here does nothing, and its contract states the law.

ghost use Rattle.std.specs.Prelude.{◌≡◌, ◌≤◌, ◌+◌, ℕ, Some};
ghost use Rattle.master_hand.specs.Spoken.{Asked};
ghost use Rattle.master_hand.specs.Talk.{asked_of};
ghost use Rattle.master_hand.specs.of_segment_plan.declared.slave.SlaveSpec.{SlaveSpec};
ghost use Rattle.master_hand.specs.of_segment_plan.declared.service.Service as Plan;
ghost use Rattle.master_hand.specs.of_segment_plan.Bound.{work_of};
ghost use Rattle.master_hand.specs.of_segment_plan.Sound.{IsSlave, IsService};
ghost use Rattle.slave_server.specs.Spec.{core_of, profile_of};
ghost use Rattle.few_replies.specs.Shapes.{shape_of};
ghost use Rattle.life_counts.specs.Asked.{asked_most};
ghost use Rattle.life_counts.specs.Split.{own_work, entering, split_work};

/// THE FRAME BOUND COUNTS AS MANY MAILS AS A SERVICE TAKES at most, of each service of a plan by mails: by the sizes that the plan gives its slave, which
/// stay whatever services were carried out. The packet that a download emits takes no more than its fragments, which the bound counts apart.
pub fn plan_counts()
    ensures within { (room : ℕ) (s : SlaveSpec) (service : Plan.Service) (q : Asked) → IsSlave s → IsService service → asked_of room service ≡ Some q → asked_most (profile_of s) (shape_of (core_of s)) q ≤ own_work s service + entering service }
    // What the bound counts at one of so many slaves is both, with what each fragment leads to at the switch.
    ensures split { (slaves : ℕ) (s : SlaveSpec) (service : Plan.Service) → work_of slaves s service ≡ split_work slaves s service }
{}
