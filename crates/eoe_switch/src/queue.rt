ghost use Rattle.std.specs.Prelude.{◌≡◌, ◌≤◌, [], ◌∷◌, ◌++◌, length, nat_lt, if◌then◌else◌, IfOk, slice_get, drop};
ghost use Rattle.std.specs.Option.{option_copied};

use circular_buffer::HeapCircularBuffer;
use ec_fields::NoMemory;
use eoe::Packet;
use std::alloc::Global;
use std::marker::Model;

/// How many packets may wait at a port.
const WAITING: usize = 8;

/// The packets that wait at a port, the oldest first: at most 8.
#[derive(Drop)]
pub struct Queue {
    ring: HeapCircularBuffer<Packet>,
}

impl Model for Queue {
    ghost use Rattle.std.specs.Prelude.{◌≡◌, List, ℕ};
    ghost use Rattle.arrayvec.specs.ArrayVec.{ArrayVec};

    ghost Value = { List (ArrayVec ℕ) };

    ghost view = { λ q. q.ring.items };

    ghost invariant = { λ q. q.ring.capacity ≡ 8 };
}

impl Queue {
    /// Nothing waits. The memory for 8 packets is taken here.
    pub fn new(alloc: Global) -> Result<Queue, NoMemory>
        ensures { IfOk result (λ queue. queue ≡ []) }
    {
        let ring = HeapCircularBuffer::with_capacity(alloc, WAITING)?;
        Ok(Queue { ring })
    }

    /// How many packets wait.
    pub fn len(&self) -> usize
        ensures value { result ≡ length self.now }
        ensures few { result ≤ 8 }
    {
        self.ring.len()
    }

    /// The oldest packet, `None` exactly where none waits. It goes on waiting.
    pub fn oldest(&self) -> Option<&Packet>
        ensures { option_copied result ≡ slice_get self.now 0 }
    {
        self.ring.front()
    }

    /// Appends a packet; `false` exactly where 8 wait already, and then nothing changed.
    pub fn push(&mut self, packet: Packet) -> bool
        ensures room { result ≡ nat_lt (length self.old) 8 }
        ensures queue { self.new ≡ (if result then self.old ++ packet ∷ [] else self.old) }
    {
        self.ring.try_push_back(packet).is_ok()
    }

    /// Hands out the oldest packet, `None` exactly where none waits.
    pub fn pop(&mut self) -> Option<Packet>
        ensures oldest { result ≡ slice_get self.old 0 }
        ensures queue { self.new ≡ drop 1 self.old }
    {
        self.ring.pop_front()
    }

    /// Discards all packets.
    pub fn clear(&mut self)
        ensures { self.new ≡ [] }
    {
        self.ring.clear();
    }
}
