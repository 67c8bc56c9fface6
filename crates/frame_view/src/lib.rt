//! Frames as a session sees them: what each datagram asks of the mailboxes and of the other registers of the slave that it is addressed to, and what
//! it brings back; and what a master's frame has for each slave of a ring, with what its return or loss makes of each life. No running code: each
//! function here does nothing, and its contract states a law.
#![tactic(auto)]

pub mod life_frames;

ghost use Rattle.std.specs.Prelude.{◌≡◌, ℕ, List, map};
ghost use Rattle.al_state.specs.of_datagrams.Datagram as Raw;
ghost use Rattle.al_state.specs.of_datagrams.Frame.{IsFrame, chained};
ghost use Rattle.frame_view.specs.View.{Lens, datagram_seen};
ghost use Rattle.frame_view.specs.Seen.{seen};

/// Octets that are a frame of the grammar are seen as its datagrams.
pub fn seen_is()
    ensures { (lens : ℕ → Lens) (octets : List ℕ) (ds : List Raw.Datagram) → IsFrame octets ds → seen lens octets ≡ map (datagram_seen lens) ds }
{}
