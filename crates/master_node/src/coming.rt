//! What may come into hand of a slave.

ghost use Rattle.std.specs.Prelude.{◌≡◌, ℕ, None, Some, slice_get};
ghost use Rattle.master_node.specs.Coming.{wish_of, IsComing};
ghost use Rattle.master_node.specs.Starts.{IsByMails, NeverBegins};
ghost use Rattle.master_node.specs.declared.coming.Coming.{Coming};

use master_hand::InHand;
use master_side::{Target, Wish};
use segment_plan::Service;

/// What may come into hand at a visit.
#[derive(Clone, Copy)]
pub enum Coming {
    /// A packet from the switch.
    Packet,
    /// A mail that is passed on.
    Mail,
    /// The next scripted service, by mails.
    Script,
    /// The next scripted service, a change of the AL state.
    State(Target),
}

/// What the slave's side is to wish.
pub fn wish_of(coming: Option<Coming>) -> Option<Wish>
    ensures { result ≡ wish_of coming }
{
    match coming? {
        Coming::Packet | Coming::Mail | Coming::Script => Some(Wish::Mails),
        Coming::State(target) => Some(Wish::State(target)),
    }
}

/// What the script has next; a script hands over no packet. A control word has room for a state below 16.
pub fn scripted(hand: &InHand) -> Option<Coming>
    ensures comes { IsComing (slice_get hand.now.laying.script hand.now.laying.number) result }
    ensures none { result ≡ None → (room : ℕ) → NeverBegins room (slice_get hand.now.laying.script hand.now.laying.number) }
    ensures packet { result ≡ Some Coming.Packet → ⊥ }
    ensures mails { result ≡ Some Coming.Script → IsByMails (slice_get hand.now.laying.script hand.now.laying.number) }
{
    match hand.scripted()? {
        Service::Forward(_) => None,
        Service::State { target } => Some(Coming::State(Target {
            state: *target % 16,
        })),
        _ => Some(Coming::Script),
    }
}
