//! The counters by which a record tells which mails are new are those of a master's side: the last mail told and the last one heard; and a side knows
//! whether an empty read counts. No running code: the functions here do nothing, and their contracts state laws.

ghost use Rattle.std.specs.Prelude.{◌≡◌, ◌≤◌, ℕ, suc, Bool, true, false, Option, None, List, []};
ghost use Rattle.frame_view.specs.of_exchange_model.Exchange.{Speech};
ghost use Rattle.mailbox_master.specs.of_link_mails.Body.{Body};
ghost use Rattle.mailbox_master.specs.of_link_model.Segment.{RingFate};
ghost use Rattle.master_duty.specs.of_segment_model.Record.{Kept, did_read, kept_after, nothing_kept};
ghost use Rattle.master_duty.specs.of_segment_model.Seats as Seats;
ghost use Rattle.master_duty.specs.of_segment_model.Seats.{Choice, side_next, side_back, side_lost};
ghost use Rattle.master_duty.specs.of_segment_model.Slaves.{Access, Datagram, grams};
ghost use Rattle.master_duty.specs.Reply.{Reply};
ghost use Rattle.master_side.specs.Carried.{Meant, IsBack, one};
ghost use Rattle.master_side.specs.Passing.{IsKept, read_behind};
ghost use Rattle.master_side.specs.Shown.{new_side};
ghost use Rattle.master_side.specs.declared.carried.Carried.{Carried};
ghost use Rattle.master_side.specs.Counts.{CountsAt, counts_behind};

/// They are at the begin of an epoch, and stay so: before a frame, by any choice, and behind the slave's own datagram, which came back or was lost.
pub fn kept_law<Q>()
    ensures begins { IsKept {Q = Q} nothing_kept new_side }
    ensures next { (x : Speech Body Q Reply) (frame : ℕ) (kept : Kept) (d : Seats.Side Body Q Reply) (c : Choice Q) → IsKept kept d → IsKept kept (side_next x frame d c) }
    ensures back { (x : Speech Body Q Reply) (frame station counter : ℕ) (octets : List ℕ) (carried : Carried) (due : Option Access) (kept : Kept) (d : Seats.Side Body Q Reply) (b : Datagram Body) → IsKept kept d → Meant station carried d.halves due b → IsBack counter octets b →
        IsKept (kept_after station kept (record { sent = one b; fate = RingFate.Back; back = one b })) (side_back x frame station (one b) d) }
    ensures lost { (station : ℕ) (carried : Carried) (due : Option Access) (kept : Kept) (d : Seats.Side Body Q Reply) (b : Datagram Body) → IsKept kept d → Meant station carried d.halves due b →
        IsKept (kept_after station kept (record { sent = one b; fate = RingFate.Lost 0; back = [] })) (side_lost station (one b) d) }
{}

/// A side that keeps the frame of its last done read knows whether an empty read counts, as the record has it at the slave's pace: at the begin of an
/// epoch each does; behind the slave's own datagram, and behind a frame that brought no done read of it or was lost.
pub fn counts_law<Q>()
    ensures begins { (pace made : ℕ) → CountsAt None pace made true }
    ensures back { (station pace made counter : ℕ) (octets : List ℕ) (carried : Carried) (due : Option Access) (at : Option ℕ) (counts : Bool) (d : Seats.Side Body Q Reply) (b : Datagram Body) → 1 ≤ pace → CountsAt at pace made counts → Meant station carried d.halves due b → IsBack counter octets b →
        CountsAt (read_behind carried d.halves.inn.state counter made at) pace (suc made) (counts_behind station pace made (one b) counts) }
    ensures still { (station pace made : ℕ) (at : Option ℕ) (counts : Bool) (back : List (Datagram Body)) → 1 ≤ pace → did_read station (grams back) ≡ false → CountsAt at pace made counts → CountsAt at pace (suc made) (counts_behind station pace made back counts) }
{}
