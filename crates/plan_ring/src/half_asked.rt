//! The repeat request of an inward half whose acknowledge is awaited: it stands in the slave, whatever frames came back or were lost. Definitions and a
//! law, no running code: the function here does nothing, and its contract states the law.

ghost use Rattle.std.specs.Prelude.{◌≡◌, ℕ, Bool, List, Option, Some};
ghost use Rattle.whole_ring.specs.of_link_model.Frames.{Gram, IsSent, grams_after, node_after, halves_after, halves_without, in_ask};
ghost use Rattle.whole_ring.specs.of_link_model.Link.{Halves};
ghost use Rattle.whole_ring.specs.of_link_model.Mails.{LinkMail};
ghost use Rattle.whole_ring.specs.of_link_model.Master.{InState};
ghost use Rattle.whole_ring.specs.of_link_model.Slave.{Node};
ghost use Rattle.plan_ring.specs.SlaveAsked.{AllHere, AllAsk, IsAsked, GoesOn, AllMet, AllRead};

/// WHERE THE ACKNOWLEDGE IS AWAITED THE REQUEST STANDS, by the datagrams of a frame to this station, each half's at most once: where they were met and
/// came back, where they were met and were lost, and where they were lost before the slave. While it was awaited before, request and acknowledge stay.
pub fn half_law<B, S>()
    ensures back { (station : ℕ) (held : Option (LinkMail B)) (h : Halves B) (n : Node B S) (gs : List (Gram B)) → IsSent held (Some h.inn) gs → AllHere station gs → IsAsked h.inn n.inn →
        GoesOn h.inn n.inn (halves_after station h (grams_after station n gs)).inn (node_after station n gs).inn }
    ensures lost { (station : ℕ) (held : Option (LinkMail B)) (h : Halves B) (n : Node B S) (gs : List (Gram B)) → IsSent held (Some h.inn) gs → AllHere station gs → IsAsked h.inn n.inn →
        GoesOn h.inn n.inn (halves_without station h gs).inn (node_after station n gs).inn }
    ensures unmet { (station : ℕ) (held : Option (LinkMail B)) (h : Halves B) (n : Node B S) (gs : List (Gram B)) → IsSent held (Some h.inn) gs → AllHere station gs → IsAsked h.inn n.inn → GoesOn h.inn n.inn (halves_without station h gs).inn n.inn }

    // Where each asks by the inward half, the request was met, and the acknowledge that is read is the one that stands.
    ensures requests { (station : ℕ) (held : Option (LinkMail B)) (h : Halves B) (n : Node B S) (gs : List (Gram B)) → IsSent held (Some h.inn) gs → AllHere station gs → AllAsk (in_ask InState.Doubt h.inn.bit) gs → AllMet (grams_after station n gs) }
    ensures reads { (station : ℕ) (held : Option (LinkMail B)) (h : Halves B) (n : Node B S) (gs : List (Gram B)) → IsSent held (Some h.inn) gs → AllHere station gs → AllAsk (in_ask InState.Asked h.inn.bit) gs → AllRead n.inn.acknowledge (grams_after station n gs) }
{}
