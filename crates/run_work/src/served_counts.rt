//! What the lives of a serving gain that are worked by the slaves of its plan. Definitions and laws, no running code: the functions here do nothing, and
//! their contracts state the laws.

ghost use Rattle.std.specs.Prelude.{◌≡◌, ◌≤◌, ◌+◌, ◌*◌, ℕ, All, List, [], length};
ghost use Rattle.life_counts.specs.Begun.{life_most, AreUnopened};
ghost use Rattle.life_counts.specs.of_life_model.Gains.{gains};
ghost use Rattle.life_counts.specs.of_life_model.Lives.{Life};
ghost use Rattle.plan_ring.specs.of_life_runs.First.{lens_of, first_leads};
ghost use Rattle.plan_ring.specs.of_life_runs.Led.{Exchanged};
ghost use Rattle.life_counts.specs.of_link_mails.Body.{Body};
ghost use Rattle.plan_ring.specs.of_master_duty.Reply.{Reply};
ghost use Rattle.life_counts.specs.of_master_hand.Spoken.{Asked};
ghost use Rattle.life_counts.specs.Split.{own_work};
ghost use Rattle.run_work.specs.Switched.{cuts_begun};
ghost use Rattle.run_work.specs.Together.{packets_begun};
ghost use Rattle.plan_ring.specs.of_run_frames.Begun.{work_in};
ghost use Rattle.life_counts.specs.of_segment_plan.Sound.{IsPlan};
ghost use Rattle.life_counts.specs.of_segment_plan.declared.plan.Scenario.{Scenario};
ghost use Rattle.life_counts.specs.of_segment_plan.declared.slave.SlaveSpec.{SlaveSpec};
ghost use Rattle.plan_ring.specs.of_life_runs.Served.{Serves, IsServedLed, all_serve};
ghost use Rattle.run_work.specs.ServedGained.{serving_most, AllPaid, served_in, asked_in, leads_of};
ghost use Rattle.life_counts.specs.of_few_replies.Shapes.{shape_at};
ghost use Rattle.life_counts.specs.of_slave_model.Profile.{Profile, IsProfile};
ghost use Rattle.plan_ring.specs.of_slave_parts.Parts.{Server};
ghost use Rattle.life_counts.specs.of_state_model.Families.{InState};
ghost use Rattle.run_work.specs.Fair.{IsFairGram};
ghost use Rattle.run_work.specs.Lives.{IsServedLife, AllServedLives};

/// WHAT A SLAVE'S LIFE HAS GAINED in which fair mails are passed on beside services is no more than what came into hand of it counts, in all its epochs: a
/// service what the shape of the slave says, and a mail 78.
pub fn slave_law()
    ensures { (p : Profile) → IsProfile p → (first : InState Server) (l : Life Body Asked Reply) → IsServedLife p first l → AreUnopened l → gains l ≤ 1 + life_most (serving_most p (shape_at first)) l }
{
    few_replies::whole_counts::passed_law();
    slave_parts::parts_served::parts_are_served();
}

/// THE LIVES OF A SERVING of a plan, which its slaves work: what they have together gained, and how often state services began to reopen their slaves, is no
/// more than all services of the plan count of their own, the fragments of what downloads emit that began, what the packets take that came into hand, one
/// for each slave, and 82 for each mail that was asked.
pub fn served_law()
    ensures { (plan : Scenario) → IsPlan plan → All (λ (s : SlaveSpec). length s.mac ≡ 6) plan.slaves → (fs : List Exchanged) (missed : ℕ) (ws : List Serves) →
        IsServedLed (lens_of plan.slaves) plan.recover plan.retry (all_serve plan.paces (first_leads plan)) fs missed ws → AllServedLives plan.slaves ws →
        served_in ws ≤ length plan.slaves + work_in own_work plan.slaves plan.services + (cuts_begun plan.slaves (leads_of ws) + packets_begun plan.slaves (leads_of ws)) + 82 * asked_in ws }
{
    few_replies::whole_counts::passed_law();
    slave_parts::parts_served::parts_are_served();
    crate::served_work::served_work();
}

/// A worked row: a datagram that is no request is fair.
pub fn fair_row()
    ensures { IsFairGram [] }
{}
