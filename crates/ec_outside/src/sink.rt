ghost use Rattle.std.specs.Prelude.{◌≡◌, ◌≤◌};
ghost use Rattle.ec_outside.specs.Faults.{Rose};

/// Why a sink took less than it was given.
#[derive(Clone, Copy)]
pub enum SinkErr {
    /// A fault of the sink; its count of faults rose.
    Failed,
    /// Want of memory.
    NoMemory,
}

/// Where text goes, in order.
///
/// `written` is all that was taken so far, where that is told; `sink_faults` counts the faults. It
/// never falls, and stands still at the greatest `u64`.
pub trait Sink {
    ghost use Rattle.std.specs.Prelude.{ℕ, List, Option};
    ghost use Rattle.ec_outside.specs.Sink.{Puts};

    ghost written: { Self → Option (List ℕ) };

    ghost sink_faults: { Self → ℕ };

    /// Appends all the bytes. After `Failed`, which comes only where the count of faults rose in
    /// this call, a prefix of them was appended; after `NoMemory` none.
    fn put(&mut self, bytes: &[u8]) -> Result<(), SinkErr>
        ensures content { Puts (written self.old) (written self.new) bytes.now result }
        ensures later { sink_faults self.old ≤ sink_faults self.new }
        ensures cause { result ≡ Err SinkErr.Failed → Rose (sink_faults self.old) (sink_faults self.new) };
}
