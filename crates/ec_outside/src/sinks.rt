ghost use Rattle.std.specs.Prelude.{◌≡◌, ◌≤◌, ◌++◌, [], IsErrOf, IsTrue, ◌↔◌, OnOk, OnErr};
ghost use Rattle.ec_outside.specs.Calls.{made, will_fail};
ghost use Rattle.ec_outside.specs.Faults.{Rose};
ghost use Rattle.ec_outside.specs.Sink.{Puts};

use crate::calls::Calls;
use crate::sink::{Sink, SinkErr};
use ec_fields::{Octets, Rows};
use std::alloc::Global;

fn append(written: &mut Octets, bytes: &[u8]) -> Result<(), SinkErr>
    ensures ok { OnOk result (written.new ≡ written.old ++ bytes.now) }
    ensures err { OnErr result (written.new ≡ written.old) }
    ensures memory { result ≡ Err SinkErr.Failed → ⊥ }
{
    match written.add(bytes) {
        Ok(()) => Ok(()),
        Err(_) => Err(SinkErr::NoMemory),
    }
}

/// A sink in memory of which chosen calls fail, numbered from 0.
#[derive(Drop)]
pub struct MemSink {
    pub(crate) written: Octets,
    pub(crate) calls: Calls,
}

impl MemSink {
    /// An empty sink; the calls of `put` with these numbers are to fail.
    pub fn new(alloc: Global, failing: Rows<u64>) -> MemSink
        ensures { result ≡ record { written = []; calls = record { failing = failing; count = 0; faults = 0 } } }
    {
        MemSink {
            written: Octets::new(alloc),
            calls: Calls::new(failing),
        }
    }

    /// All that was taken so far.
    pub fn bytes(&self) -> &[u8]
        ensures { result.now ≡ self.now.written }
    {
        self.written.bytes()
    }
}

impl Sink for MemSink {
    ghost use Rattle.std.specs.Prelude.{Some};

    ghost written = { λ s. Some s.written };

    ghost sink_faults = { λ s. s.calls.faults };

    fn put(&mut self, bytes: &[u8]) -> Result<(), SinkErr>
        ensures content { Puts (Some self.old.written) (Some self.new.written) bytes.now result }
        ensures failing { IsErrOf result SinkErr.Failed ↔ IsTrue (will_fail self.old.calls) }
        ensures none { OnErr result (self.new.written ≡ self.old.written) }
        ensures calls { self.new.calls ≡ made self.old.calls }
        ensures later { self.old.calls.faults ≤ self.new.calls.faults }
        ensures cause { result ≡ Err SinkErr.Failed → Rose self.old.calls.faults self.new.calls.faults }
    {
        if self.calls.fails() {
            return Err(SinkErr::Failed);
        }
        append(&mut self.written, bytes)
    }
}

/// A sink in memory that never fails.
#[derive(Drop)]
pub struct SureSink {
    pub(crate) written: Octets,
}

impl SureSink {
    /// An empty sink.
    pub fn new(alloc: Global) -> SureSink
        ensures { result ≡ record { written = [] } }
    {
        SureSink {
            written: Octets::new(alloc),
        }
    }

    /// All that was taken so far.
    pub fn bytes(&self) -> &[u8]
        ensures { result.now ≡ self.now.written }
    {
        self.written.bytes()
    }
}

impl Sink for SureSink {
    ghost use Rattle.std.specs.Prelude.{Some};

    ghost written = { λ s. Some s.written };

    ghost sink_faults = { λ s. 0 };

    fn put(&mut self, bytes: &[u8]) -> Result<(), SinkErr>
        ensures ok { OnOk result (self.new.written ≡ self.old.written ++ bytes.now) }
        ensures err { OnErr result (self.new.written ≡ self.old.written) }
        ensures memory { result ≡ Err SinkErr.Failed → ⊥ }
    {
        append(&mut self.written, bytes)
    }
}
