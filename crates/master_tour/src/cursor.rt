ghost use Rattle.std.specs.Prelude.{List};
ghost use Rattle.master_side.specs.of_datagrams.Datagram as Raw;
ghost use Rattle.master_side.specs.of_datagrams.Frame.{IsFrame, IsPart};

use datagrams::Part;

/// A place in a frame that reads: one of its datagrams, with its number, from 0 on.
#[derive(Clone, Copy)]
pub struct Cursor {
    pub number: usize,
    pub part: Part,
}

impl Cursor {
    ghost use Rattle.std.specs.Prelude.{◌≡◌, ◌≤◌, List, length, true, false};
    ghost use Rattle.master_side.specs.of_datagrams.Datagram as Raw;
    ghost use Rattle.master_side.specs.of_datagrams.Frame.{IsFrame, IsPart};
    ghost use Rattle.master_tour.specs.Cursor.{IsAtOne};

    /// At the first datagram.
    pub fn new(octets: &[u8]) -> Cursor
        requires { (ds : List Raw.Datagram) × IsFrame octets.now ds }
        ensures stands { IsAtOne octets.now result.number result.part }
        ensures first { result.number ≡ 0 }
    {
        Cursor {
            number: 0,
            part: datagrams::first(octets),
        }
    }

    // This place, or the first where it lies behind the datagram with this number.
    fn before(self, octets: &[u8], at: usize) -> Cursor
        requires frame { (ds : List Raw.Datagram) × IsFrame octets.now ds }
        requires stands { IsAtOne octets.now self.number self.part }
        ensures stands { IsAtOne octets.now result.number result.part }
        ensures before { result.number ≤ at }
    {
        if at < self.number {
            Cursor::new(octets)
        } else {
            self
        }
    }

    /// Goes to the datagram with this number, `false` where the frame has none with it.
    pub fn seek(&mut self, octets: &[u8], at: usize) -> bool
        requires frame { (ds : List Raw.Datagram) × IsFrame octets.now ds }
        requires stands { IsAtOne octets.now self.old.number self.old.part }
        ensures stands { IsAtOne octets.now self.new.number self.new.part }
        ensures at { result ≡ true → self.new.number ≡ at }
        ensures none { result ≡ false → (ds : List Raw.Datagram) → IsFrame octets.now ds → length ds ≤ at }
    {
        let start = self.before(octets, at);
        *self = start;
        for number in start.number..at {
            let Some(later) = datagrams::next(octets, &self.part) else {
                return false;
            };
            self.part = later;
            self.number = number + 1;
        }
        true
    }
}
