//! A try: a session's step over any master and any wire, at the toy exchange. Nothing calls it; it shows that the contracts of a master and a
//! wire compose.

ghost use Rattle.std.specs.Prelude.{◌≡◌, ◌+◌, ℕ, List, [], ◌∷◌, ◌++◌, length, true, false, None, Some};
ghost use Rattle.exchange_model.specs.Toy.{Adder, Mail, Service, adder, speech};
ghost use Rattle.link_model.specs.Segment.{RingFate};
ghost use Rattle.segment_model.specs.Slaves.{Processor, Datagram};
ghost use Rattle.segment_model.specs.Record.{Frame};
ghost use Rattle.segment_model.specs.Seats.{Side, Planned};
ghost use Rattle.segment_model.specs.Split.{IsBound, sides_after};
ghost use Rattle.segment_model.specs.Trial.{Came, ReturnsBy, Stays};

/// A frame, seen as its datagrams.
pub trait Buffer {
    ghost use Rattle.std.specs.Prelude.{List};
    ghost use Rattle.exchange_model.specs.Toy.{Mail};
    ghost use Rattle.segment_model.specs.Slaves.{Datagram};

    ghost seen: { Self → List (Datagram Mail) };
}

/// A master: it shows sides with the frame that is under way, if one is, and counts the frames that it made. What comes back of a frame is
/// the return of what was sent; of other frames nothing is said, since a half goes by what it asked and not by what a datagram says it asks.
pub trait Master<F: Buffer> {
    ghost use Rattle.std.specs.Prelude.{◌≡◌, ◌+◌, ℕ, List, Option, None, Some};
    ghost use Rattle.exchange_model.specs.Toy.{Mail, Service, speech};
    ghost use Rattle.segment_model.specs.Slaves.{Datagram};
    ghost use Rattle.segment_model.specs.Returned.{Returns};
    ghost use Rattle.segment_model.specs.Seats.{Side, Choice};
    ghost use Rattle.segment_model.specs.Split.{IsFrameOf, sides_next, sides_back, sides_lost};
    ghost use Rattle.segment_model.specs.Trial.{Chosen};

    ghost shows: { Self → List (ℕ × Side Mail Service ℕ) → Option (List (Datagram Mail)) → Type 0 };

    ghost made: { Self → ℕ };

    /// Makes the next frame by choices of its own.
    fn next(&mut self, into: &mut F)
        ensures chosen { (ds : List (ℕ × Side Mail Service ℕ)) → shows self.old ds None → Chosen (made self.old) ds (F.seen into.new) (λ es. shows self.new es (Some (F.seen into.new))) }
        ensures made { made self.new ≡ made self.old };

    /// The frame came back.
    fn returned(&mut self, frame: &F)
        ensures sides { (ds : List (ℕ × Side Mail Service ℕ)) (sent : List (Datagram Mail)) → shows self.old ds (Some sent) → Returns sent (F.seen frame.now) → shows self.new (sides_back speech (made self.old) (F.seen frame.now) ds) None }
        ensures made { made self.new ≡ made self.old + 1 };

    /// The frame was lost.
    fn lost(&mut self)
        ensures sides { (ds : List (ℕ × Side Mail Service ℕ)) (sent : List (Datagram Mail)) → shows self.old ds (Some sent) → shows self.new (sides_lost sent ds) None }
        ensures made { made self.new ≡ made self.old + 1 };
}

/// A wire with its ring: it carries a frame, and then processors step.
pub trait Wire<F: Buffer> {
    ghost use Rattle.std.specs.Prelude.{◌≡◌, ℕ, List};
    ghost use Rattle.exchange_model.specs.Toy.{Adder, Mail, adder};
    ghost use Rattle.link_model.specs.Segment.{RingFate};
    ghost use Rattle.segment_model.specs.Slaves.{Processor, Ring, ring_after, ring_back, ring_steps};
    ghost use Rattle.segment_model.specs.Trial.{Came};

    ghost ring: { Self → Ring Adder Mail };

    ghost processor: { Self → Processor Adder };

    ghost fate: { Self → RingFate };

    ghost steps: { Self → List ℕ };

    /// Whether the frame came back. `fate` and `steps` are those of this call.
    fn exchange(&mut self, sent: &F, back: &mut F) -> bool
        ensures ring { ring self.new ≡ ring_steps adder (processor self.old) (ring_after (ring self.old) (F.seen sent.now) (fate self.new)) (steps self.new) }
        ensures back { F.seen back.new ≡ ring_back (ring self.old) (F.seen sent.now) (fate self.new) }
        ensures processor { processor self.new ≡ processor self.old }
        ensures came { Came (fate self.new) result };
}

/// What a master does by what came of its frame.
fn go_on<F: Buffer, M: Master<F>>(master: &mut M, returned: bool, back: &F)
    ensures sides { (ds : List (ℕ × Side Mail Service ℕ)) (sent : List (Datagram Mail)) (fate : RingFate) → Came fate returned → ReturnsBy fate sent (F.seen back.now) → M.shows master.old ds (Some sent) → M.shows master.new (sides_after speech (M.made master.old) sent fate (F.seen back.now) ds) None }
    ensures made { M.made master.new ≡ M.made master.old + 1 }
{
    if returned {
        master.returned(back);
    } else {
        master.lost();
    }
}

/// One step of a session: a master and a wire that are a session stay one, by one frame more.
pub fn step<F: Buffer, M: Master<F>, W: Wire<F>>(
    master: &mut M,
    wire: &mut W,
    sent: &mut F,
    back: &mut F,
)
    ensures { (ps : List (Planned Adder)) (ds : List (ℕ × Side Mail Service ℕ)) (fs : List (Frame Mail)) → M.shows master.old ds None → M.made master.old ≡ length fs → IsBound adder (W.processor wire.old) ps ds (W.ring wire.old) fs →
        Stays (W.processor wire.new) ps (λ es. M.shows master.new es None) (M.made master.new) (W.ring wire.new) fs (record { sent = F.seen sent.new; fate = W.fate wire.new; back = F.seen back.new }) }
{
    master.next(sent);
    let returned = wire.exchange(sent, back);
    go_on(master, returned, back);
}
