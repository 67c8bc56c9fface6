//! The clients of a plan's slaves, as their master asks for their services, never wait in vain. No running code: the function here does nothing, and its
//! contract states the law.

ghost use Rattle.std.specs.Prelude.{ℕ, Bool};
ghost use Rattle.plan_ring.specs.of_frame_view.View.{Lens};
ghost use Rattle.plan_ring.specs.of_slave_model.Waits.{NeverWaits};
ghost use Rattle.plan_ring.specs.Asked.{asked};
ghost use Rattle.plan_ring.specs.of_slave_model.Profile.{Profile, IsProfile};

/// A SLAVE OF A PLAN, with the services that its master asks for, never has a client that waits in vain.
pub fn asked_waits_law()
    ensures { (p : Profile) → IsProfile p → (boot : Bool) (lens : ℕ → Lens) → NeverWaits (asked p boot lens).exchange }
{
    slave_parts::parts_are_lawful();
}
