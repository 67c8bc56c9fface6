//! The return of an access of an opening: the slave is seen in Init, or is open, or the next access is in hand.

ghost use Rattle.std.specs.Prelude.{◌≡◌, false, if◌then◌else◌, not, ◌&&◌};
ghost use Rattle.master_side.specs.of_al_state.BringUp.{is_behind_init};
ghost use Rattle.master_tour.specs.Stands.{turned_by};

use crate::cursor::Cursor;
use crate::stop::{Stand, Stop, Turned, body_of};
use al_state::{BringUp, came_back, cleared};
use master_side::Hand;

// How the master stands to a slave behind an access of its opening.
fn stand_behind(is_up: bool, up: BringUp) -> Stand
    ensures { result ≡ (if is_up then Stand.Open else Stand.Opening up) }
{
    if is_up {
        Stand::Open
    } else {
        Stand::Opening(up)
    }
}

// Whether an access of an opening has shown its slave in Init: that is behind it, and was not before.
fn clears(up: &BringUp, next: &BringUp) -> bool
    ensures { result ≡ not (up.now.again && is_behind_init up.now.step) && (next.now.again && is_behind_init next.now.step) }
{
    !cleared(up) && cleared(next)
}

// What the return of an opening's access has turned a slave's stand into.
fn news_of(is_up: bool, is_cleared: bool) -> Option<Turned>
    ensures { result ≡ turned_by false is_cleared is_up }
{
    if is_cleared {
        Some(Turned::Cleared)
    } else if is_up {
        Some(Turned::Opened)
    } else {
        None
    }
}

impl<H: Hand> Stop<H> {
    ghost use Rattle.std.specs.Prelude.{◌≡◌, ℕ, List, true, false, if◌then◌else◌, None, Bool, Option, Some};
    ghost use Rattle.master_side.specs.of_datagrams.Datagram as Raw;
    ghost use Rattle.master_side.specs.of_datagrams.Frame.{IsFrame};
    ghost use Rattle.master_side.specs.of_exchange_model.Exchange.{Speech};
    ghost use Rattle.master_side.specs.of_link_mails.Body.{Body};
    ghost use Rattle.master_side.specs.of_segment_model.Slaves.{Datagram, Found};
    ghost use Rattle.master_tour.specs.Joins.{join_behind};
    ghost use Rattle.master_side.specs.of_segment_model.Seats as Seats;
    ghost use Rattle.master_side.specs.of_state_model.Accounts.{Account, new_account};
    ghost use Rattle.master_side.specs.of_frame_view.View.{Lens};
    ghost use Rattle.master_side.specs.of_frame_view.Seen.{seen};
    ghost use Rattle.master_side.specs.of_mailbox_master.Any.{in_area_len};
    ghost use Rattle.master_side.specs.of_master_duty.Reply.{Reply};
    ghost use Rattle.master_tour.specs.Made.{IsSized};
    ghost use Rattle.master_tour.specs.Cursor.{IsAtOne};
    ghost use Rattle.master_tour.specs.Stands.{IsMet, came_at};
    ghost use Rattle.master_side.specs.of_segment_model.Returned.{Returns};
    ghost use Rattle.master_side.specs.of_life_model.Lives.{Life, Spot, life_back};
    ghost use Rattle.master_side.specs.of_segment_model.Record.{News};
    ghost use Rattle.master_side.specs.Shown.{new_side};
    ghost use Rattle.master_tour.specs.declared.stop.Stand.{Stand};
    ghost use Rattle.master_side.specs.Sides.{ShowsOf, LinkStays};
    ghost use Rattle.master_tour.specs.Stops.{StopLived, StopFollows, StopUnder, StopPassing, StopSized};
    ghost use Rattle.master_tour.specs.Counting.{CountsOn, CameCounts};

    // Where the slave was seen in Init, its mailboxes and services are forgotten.
    fn renew_where(&mut self, is_cleared: bool)
        ensures cleared { is_cleared ≡ true → (x : Speech Body H.Asked Reply) (d : Seats.Side Body H.Asked Reply) (a : Account H.Asked Reply) → ShowsOf self.old.side x d a →
            ShowsOf self.new.side x new_side new_account }
        ensures still { is_cleared ≡ false → self.new.side ≡ self.old.side }
        ensures station { self.new.side.station ≡ self.old.side.station }
        ensures kept { (self.new.stand ≡ self.old.stand) × (self.new.spare ≡ self.old.spare) × (self.new.news ≡ self.old.news) }
        ensures plan { (self.new.place ≡ self.old.place) × (self.new.start ≡ self.old.start) }
        ensures link { LinkStays self.old.side self.new.side }
        ensures script { H.script self.new.side.hand ≡ H.script self.old.side.hand }
        ensures unpassed { self.old.side.passing ≡ None → self.new.side.passing ≡ None }
        ensures passing { is_cleared ≡ true → self.new.side.passing ≡ None }
        ensures heard { self.new.side.heard ≡ self.old.side.heard }
        ensures join { H.join self.new.side.hand ≡ (if is_cleared then H.unjoined else H.join self.old.side.hand) }
        ensures knows { H.knows self.old.side.hand ≡ true → H.knows self.new.side.hand ≡ true }
        ensures read { is_cleared ≡ true → self.new.side.read_at ≡ None }
        ensures pace { self.new.side.pace ≡ self.old.side.pace }
    {
        if is_cleared {
            self.side.renew();
        }
    }

    // The access of its opening came back with this working counter and body: the next is in hand, or the slave is open.
    fn opening_met(&mut self, up: BringUp, counter: u16, body: &[u8])
        ensures lives { self.old.stand ≡ Stand.Opening up → (x : Speech Body H.Asked Reply) (more : Body → Bool) (passed : H.Asked → Bool) (frame recover : ℕ) (spot : Spot) (news : List (News Body)) (back : List (Datagram Body)) (came : Bool × Option Found) (l : Life Body H.Asked Reply) →
            IsMet up counter body.now came → StopLived self.old x recover spot l →
            StopFollows self.new x recover spot l (life_back x H.acknowledged more passed frame spot news back (Some came) l l.stand) }
        ensures kept { (self.new.place ≡ self.old.place) × (self.new.start ≡ self.old.start) }
        ensures station { self.new.side.station ≡ self.old.side.station }
        ensures link { LinkStays self.old.side self.new.side }
        ensures sized { IsSized (Stand.Opening up) self.old.side.out.len (in_area_len self.old.side.inn) → StopSized self.new }
        ensures script { H.script self.new.side.hand ≡ H.script self.old.side.hand }
        ensures unpassed { self.old.side.passing ≡ None → self.new.side.passing ≡ None }
        ensures passing { self.old.stand ≡ Stand.Opening up → (x : Speech Body H.Asked Reply) (frame recover : ℕ) (spot : Spot) (news : List (News Body)) (back : List (Datagram Body)) (came : Bool × Option Found) (l : Life Body H.Asked Reply) →
            IsMet up counter body.now came → StopLived self.old x recover spot l → StopPassing self.old l →
            StopPassing self.new (life_back x H.acknowledged H.more H.passed frame spot news back (Some came) l l.stand) }
        ensures heard { self.new.side.heard ≡ self.old.side.heard }
        ensures join { H.join self.new.side.hand ≡ join_behind H.unjoined self.new.news (H.join self.old.side.hand) }
        ensures knows { H.knows self.old.side.hand ≡ true → H.knows self.new.side.hand ≡ true }
        ensures counts { self.old.stand ≡ Stand.Opening up → (x : Speech Body H.Asked Reply) (made recover : ℕ) (spot : Spot) (back : List (Datagram Body)) (came : Bool × Option Found) (l : Life Body H.Asked Reply) →
            IsMet up counter body.now came → StopLived self.old x recover spot l → CountsOn made back self.old self.new l }
        ensures pace { self.new.side.pace ≡ self.old.side.pace }
    {
        let mut next = up;
        let is_up = came_back(&mut next, counter, body);
        let is_cleared = clears(&up, &next);
        self.stand = stand_behind(is_up, next);
        self.news = news_of(is_up, is_cleared);
        self.renew_where(is_cleared);
    }

    // Its datagram of the frame that came back, while it is opened.
    pub(crate) fn opening_back(&mut self, up: BringUp, cursor: &mut Cursor, octets: &[u8])
        requires frame { (ds : List Raw.Datagram) × IsFrame octets.now ds }
        requires stands { IsAtOne octets.now cursor.old.number cursor.old.part }
        ensures stands { IsAtOne octets.now cursor.new.number cursor.new.part }
        ensures lives { self.old.stand ≡ Stand.Opening up → self.old.news ≡ None → (x : Speech Body H.Asked Reply) (more : Body → Bool) (passed : H.Asked → Bool) (number recover : ℕ) (spot : Spot) (lens : ℕ → Lens) (ns : List (News Body)) (sent : List (Datagram Body)) (l : Life Body H.Asked Reply) →
            Returns sent (seen lens octets.now) → StopUnder lens self.old l sent → StopLived self.old x recover spot l →
            StopFollows self.new x recover spot l (life_back x H.acknowledged more passed number spot ns (seen lens octets.now) (came_at self.old.under self.old.at (seen lens octets.now)) l l.stand) }
        ensures kept { (self.new.place ≡ self.old.place) × (self.new.start ≡ self.old.start) }
        ensures station { self.new.side.station ≡ self.old.side.station }
        ensures link { LinkStays self.old.side self.new.side }
        ensures sized { self.old.stand ≡ Stand.Opening up → StopSized self.old → StopSized self.new }
        ensures script { H.script self.new.side.hand ≡ H.script self.old.side.hand }
        ensures unpassed { self.old.side.passing ≡ None → self.new.side.passing ≡ None }
        ensures passing { self.old.stand ≡ Stand.Opening up → (x : Speech Body H.Asked Reply) (number recover : ℕ) (spot : Spot) (lens : ℕ → Lens) (ns : List (News Body)) (sent : List (Datagram Body)) (l : Life Body H.Asked Reply) →
            Returns sent (seen lens octets.now) → StopUnder lens self.old l sent → StopLived self.old x recover spot l → StopPassing self.old l →
            StopPassing self.new (life_back x H.acknowledged H.more H.passed number spot ns (seen lens octets.now) (came_at self.old.under self.old.at (seen lens octets.now)) l l.stand) }
        ensures heard { self.new.side.heard ≡ self.old.side.heard }
        ensures join { self.old.news ≡ None → H.join self.new.side.hand ≡ join_behind H.unjoined self.new.news (H.join self.old.side.hand) }
        ensures knows { H.knows self.old.side.hand ≡ true → H.knows self.new.side.hand ≡ true }
        ensures counts { self.old.stand ≡ Stand.Opening up → (made : ℕ) (lens : ℕ → Lens) (sent : List (Datagram Body)) → Returns sent (seen lens octets.now) → CameCounts lens sent (seen lens octets.now) made self.old self.new }
        ensures pace { self.new.side.pace ≡ self.old.side.pace }
    {
        if !self.under {
            return;
        }
        if cursor.seek(octets, self.at) {
            let part = cursor.part;
            self.opening_met(up, part.head.counter, body_of(octets, part));
        }
    }
}
