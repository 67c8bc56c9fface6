ghost use Rattle.std.specs.Prelude.{◌≡◌, ◌≤◌, ◌<◌, suc};

use datagrams::FrameBuf;

/// What becomes of a frame.
#[derive(Clone, Copy)]
pub enum Fate {
    /// It returns.
    Pass,
    /// It doesn't return; the first `after` slaves of the ring met it.
    Lost { after: u32 },
}

/// What a master sends its frames on.
pub trait Wire {
    ghost use Rattle.std.specs.Prelude.{ℕ, List};
    ghost use Rattle.segment_ring.specs.declared.wire.Fate.{Fate};

    ghost number: { Self → ℕ };

    ghost fate: { Self → Fate };

    ghost returned: { Self → List ℕ → List ℕ };

    ghost behind: { Self → List ℕ → Self };

    /// Sends a frame, numbered from 0. `back` has what came back, in place of what it had: nothing where the frame was lost.
    fn exchange(&mut self, sent: &FrameBuf, back: &mut FrameBuf) -> Fate
        requires { number self.old < 100000000 }
        ensures wire { self.new ≡ behind self.old sent.now.items }
        ensures back { back.new.items ≡ returned self.old sent.now.items }
        ensures fate { result ≡ fate self.old }
        ensures number { number self.new ≡ suc (number self.old) };
}

/// A slave of a ring.
pub trait Slave {
    ghost use Rattle.std.specs.Prelude.{ℕ, List};

    ghost passed: { Self → List ℕ → Self × List ℕ };

    ghost stepped: { Self → Self };

    ghost handled: { Self → ℕ };

    /// A frame passes the slave, in place.
    fn pass(&mut self, frame: &mut FrameBuf)
        ensures passed { (self.new, frame.new.items) ≡ passed self.old frame.old.items }
        ensures handled { handled self.new ≡ handled self.old };

    /// Its processor makes a step, which carries out at most one service.
    fn step(&mut self)
        requires { handled self.old < 18446744073709551615 }
        ensures stepped { self.new ≡ stepped self.old }
        ensures handled { handled self.new ≤ suc (handled self.old) };
}
