//! Frames and slaves as a session sees them: what real registers do with a frame of octets is what the session's slaves do with its datagrams, what
//! comes back from a ring is the return of what was sent, and the slave's AL state machine is the model's. No running code: each function here does
//! nothing, and its contract states a law.
#![tactic(auto)]

pub mod ring_returns;
pub mod state_law;

ghost use Rattle.std.specs.Prelude.{◌≡◌, ◌<◌, ◌==◌, ℕ, List, false, ◌+◌, length};
ghost use Rattle.slave_node.specs.of_datagrams.Datagram as Raw;
ghost use Rattle.slave_node.specs.of_datagrams.Frame.{IsFrame};
ghost use Rattle.slave_node.specs.of_esc_registers.declared.registers.Registers.{Registers};
ghost use Rattle.slave_node.specs.Passing.{IsPassed, frame_passed, datagrams_after};
ghost use Rattle.frame_view.specs.of_link_mails.Body.{Body};
ghost use Rattle.slave_node.specs.of_mailbox_slave.Kept.{Kept};
ghost use Rattle.frame_view.specs.of_segment_model.Slaves.{Serving, Slave, Datagram, frame_after};
ghost use Rattle.frame_view.specs.View.{Lens};
ghost use Rattle.frames_seen.specs.FrameMet.{IsFrameMet, AreOctetsMet};
ghost use Rattle.frames_seen.specs.Kept.{FrameKeeps};
ghost use Rattle.frames_seen.specs.Met.{IsMet};
ghost use Rattle.frames_seen.specs.Own.{own_of, IsApart, IsAlone, IsOwnMet, NoneMeant};
ghost use Rattle.frames_seen.specs.Places.{AllElse};
ghost use Rattle.frames_seen.specs.Ring.{all_after, AllApart, IsRingMet, AreAnswers};
ghost use Rattle.frames_seen.specs.Slaves.{IsOpen};
ghost use Rattle.frames_seen.specs.Spoken.{IsSpoken, AllSpoken};

/// One datagram at an open slave, in every case: by place and by station, meant or not, each register, each length. The datagram behind the
/// slave and the slave behind the datagram are seen as the session has them, and the slave stays open.
pub fn one_seen<V>()
    ensures { (lens : ℕ → Lens) (r : Registers) (k : Kept) (v : Serving V Body) (d : Raw.Datagram) → IsOpen lens r → IsSpoken r.station d → IsMet lens r k v d }
{}

/// A whole frame at an open slave.
pub fn open_view<V>()
    ensures datagrams { (lens : ℕ → Lens) (r : Registers) (k : Kept) (v : Serving V Body) (ds : List Raw.Datagram) → IsOpen lens r → AllSpoken r.station ds → IsFrameMet lens r k v ds }
    ensures octets { (lens : ℕ → Lens) (r after : Registers) (k : Kept) (v : Serving V Body) (octets behind : List ℕ) (ds : List Raw.Datagram) → IsOpen lens r → AllSpoken r.station ds →
        IsFrame octets ds → IsPassed r after behind ds → AreOctetsMet lens r after k v octets behind }
{}

/// What a slave makes of octets is what it makes of the frame's datagrams, where they are a frame; and whatever they are, what only the slave
/// writes stays.
pub fn octet_law()
    ensures passes { (r : Registers) (octets : List ℕ) (ds : List Raw.Datagram) → IsFrame octets ds → IsPassed r (frame_passed r octets).0 (frame_passed r octets).1 ds }
    ensures keeps { (r : Registers) (octets : List ℕ) → FrameKeeps r (frame_passed r octets).0 }
{}

/// A slave that isn't meant leaves the datagrams that are addressed to another station, whatever its registers.
pub fn other_view()
    ensures { (station : ℕ) (r : Registers) (ds : List Raw.Datagram) → IsApart station r ds → own_of station (datagrams_after r ds) ≡ own_of station ds }
{}

/// An open slave is moved by the datagrams that are addressed to it alone, where no other means it.
pub fn own_view<V>()
    ensures { (lens : ℕ → Lens) (r : Registers) (k : Kept) (v : Serving V Body) (ds : List Raw.Datagram) → IsOpen lens r → IsAlone r.station r ds → AllSpoken r.station (own_of r.station ds) → IsOwnMet lens r k v ds }
{}

/// One open slave of a ring, whatever the others are: its own datagrams come back as the session's slave makes them of those that were sent,
/// and it is behind the frame what the session says. What comes back answers what was sent.
pub fn ring_view<V>()
    ensures ring { (lens : ℕ → Lens) (before : List Registers) (r : Registers) (behind : List Registers) (k : Kept) (v : Serving V Body) (sent : List Raw.Datagram) →
        IsOpen lens r → AllApart r.station before sent → IsAlone r.station r (all_after before sent) → AllApart r.station behind (datagrams_after r (all_after before sent)) →
        AllSpoken r.station (own_of r.station sent) → IsRingMet lens before r behind k v sent }
    ensures answers { (station : ℕ) (s : Slave V Body) (ds : List (Datagram Body)) → AreAnswers ds (frame_after station s ds) }
{}

/// Who is apart from a station: a slave that is open under another one, and one that nothing means.
pub fn apart_law<V>()
    ensures opens { (lens : ℕ → Lens) (station : ℕ) (r : Registers) (k : Kept) (v : Serving V Body) (ds : List Raw.Datagram) → (r.station == station) ≡ false → IsOpen lens r → IsAlone r.station r ds →
        AllSpoken r.station (own_of r.station ds) → IsApart station r ds }
    ensures unmeant { (station : ℕ) (r : Registers) (ds : List Raw.Datagram) → NoneMeant r ds → IsApart station r ds }
{}

/// Along a ring a datagram by place means the slave at that place and no other: what was sent to other places comes so to each slave, and an
/// open slave is then meant by its station alone.
pub fn place_law<V>()
    ensures comes { (place behind : ℕ) (rs : List Registers) (ds : List Raw.Datagram) → behind + length rs < 17 → AllElse place behind ds → AllElse place (behind + length rs) (all_after rs ds) }
    ensures alone { (lens : ℕ → Lens) (place : ℕ) (r : Registers) (k : Kept) (v : Serving V Body) (ds : List Raw.Datagram) → place < 16 → IsOpen lens r → AllElse place place ds →
        AllSpoken r.station (own_of r.station ds) → IsAlone r.station r ds }
{}
