ghost use Rattle.std.specs.Prelude.{◌≡◌, ◌≤◌, Err};
ghost use Rattle.ecmbx_call.specs.of_ec_outside.Faults.{Rose};
ghost use Rattle.ecmbx_call.specs.of_ec_outside.declared.sink.SinkErr.TheVariants as errors;

use ec_fields::Octets;
use ec_outside::{Sink, SinkErr};
use std::alloc::Global;

/// So many octets are held before they are written.
const FULL: usize = 65_536;

/// The standard output of the runtime, written many lines at a time. What it holds isn't told.
#[derive(Drop)]
pub struct Output<'a, R: Print> {
    rt: &'a R,
    held: Octets,
    faults: u64,
}

impl<'a, R: Print> Output<'a, R> {
    /// The output, without a fault so far, that holds nothing.
    pub fn new(alloc: Global, rt: &'a R) -> Output<'a, R> {
        Output {
            rt,
            held: Octets::new(alloc),
            faults: 0,
        }
    }

    /// Writes what is held. After an error, too, nothing is held.
    pub fn flush(&mut self) -> Result<(), SinkErr>
        ensures later { self.old.faults ≤ self.new.faults }
        ensures cause { result ≡ Err errors.Failed → Rose self.old.faults self.new.faults }
    {
        let done = self.rt.write_all(self.held.bytes()).is_ok();
        self.held.clear();
        if done {
            return Ok(());
        }
        self.faults = self.faults.saturating_add(1);
        Err(SinkErr::Failed)
    }
}

impl<'a, R: Print> Sink for Output<'a, R> {
    ghost use Rattle.std.specs.Prelude.{None};

    ghost written = { λ s. None };

    ghost sink_faults = { λ s. s.faults };

    fn put(&mut self, bytes: &[u8]) -> Result<(), SinkErr> {
        if self.held.add(bytes).is_err() {
            return Err(SinkErr::NoMemory);
        }
        if self.held.len() < FULL {
            return Ok(());
        }
        self.flush()
    }
}
