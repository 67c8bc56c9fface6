//! What a frame that came back brings of a plan's slaves is due to their master. Definitions and laws, no running code: the functions here do nothing, and their
//! contracts state the laws.

ghost use Rattle.std.specs.Prelude.{ℕ, Bool};
ghost use Rattle.slave_server.specs.of_slave_model.Hears.{HearsFirst};
ghost use Rattle.whole_ring.specs.of_frame_view.View.{Lens};
ghost use Rattle.slave_server.specs.of_segment_plan.Sound.{IsPlan};
ghost use Rattle.slave_server.specs.of_segment_plan.declared.plan.Scenario.{Scenario};
ghost use Rattle.plan_ring.specs.Dues.{MailsAreDue};
ghost use Rattle.plan_ring.specs.Asked.{asked};
ghost use Rattle.plan_ring.specs.Lives.{IsKnown};
ghost use Rattle.slave_server.specs.of_slave_model.Profile.{Profile, IsProfile};

/// A SLAVE OF A PLAN, with the services that its master asks for, has a client that hears first.
pub fn asked_hears_law()
    ensures { (p : Profile) → IsProfile p → (boot : Bool) (lens : ℕ → Lens) → HearsFirst (asked p boot lens).exchange }
{
    slave_parts::parts_are_lawful();
}

/// EACH MAIL THAT A FRAME BRINGS of an open slave of a plan's run is due as the frame finds it: it replies to nothing, or it is a reply to the service in hand,
/// of which nothing is left to tell, and which has no answer yet.
pub fn plan_due_law()
    ensures { (plan : Scenario) → IsPlan plan → IsKnown plan → MailsAreDue plan }
{
    crate::run_lives_law();
    crate::plan_met::plan_met_law();
    asked_hears_law();
}
