ghost use Rattle.std.specs.Prelude.{◌≡◌, ◌+◌, ◌≤◌, ◌<◌, ◌↔◌, [], ◌++◌, length, IfOk, IsTrue};
ghost use Rattle.std.specs.Bool.{OnTrue, OnFalse};

use crate::memory::NoMemory;
use std::alloc::Global;
use std::marker::Model;

/// A list of octets up to a limit, whose memory is taken when it is made. No other call takes any.
#[derive(Drop)]
pub struct Transfer {
    octets: Vec<u8>,
    limit: usize,
}

impl Model for Transfer {
    ghost use Rattle.std.specs.Prelude.{◌≤◌, vec_len, vec_capacity};
    ghost use Rattle.ec_fields.specs.Transfer.{Limited};

    ghost Value = { Limited };

    ghost view = { λ t. record { octets = t.octets.items; limit = t.limit } };

    ghost invariant = { λ t. (vec_len t.octets ≤ t.limit) × (t.limit ≤ vec_capacity t.octets) };
}

impl Transfer {
    /// An empty list with room for `limit` octets.
    pub fn new(alloc: Global, limit: usize) -> Result<Transfer, NoMemory>
        ensures empty { IfOk result (λ t. t.octets ≡ []) }
        ensures limit { IfOk result (λ t. t.limit ≡ limit) }
    {
        let octets = Vec::with_capacity(alloc, limit)?;
        Ok(Transfer { octets, limit })
    }

    /// Removes all octets; the limit stays.
    pub fn clear(&mut self)
        ensures octets { self.new.octets ≡ [] }
        ensures limit { self.new.limit ≡ self.old.limit }
    {
        self.octets.clear();
    }

    /// Appends the octets. `false` exactly where the list would exceed its limit; then nothing
    /// changed.
    pub fn add(&mut self, bytes: &[u8]) -> bool
        ensures fits { IsTrue result ↔ (length self.old.octets + length bytes.now ≤ self.old.limit) }
        ensures added { OnTrue result (self.new.octets ≡ self.old.octets ++ bytes.now) }
        ensures refused { OnFalse result (self.new.octets ≡ self.old.octets) }
        ensures limit { self.new.limit ≡ self.old.limit }
    {
        if bytes.len() > self.limit - self.octets.len() {
            return false;
        }
        self.octets.extend_from_slice(bytes).is_ok()
    }

    /// The octets.
    pub fn bytes(&self) -> &[u8]
        ensures octets { result.now ≡ self.now.octets }
        ensures within { length self.now.octets ≤ self.now.limit }
    {
        self.octets.as_slice()
    }

    /// How many octets the list may hold.
    pub fn limit(&self) -> usize
        ensures { result ≡ self.now.limit }
    {
        self.limit
    }
}
