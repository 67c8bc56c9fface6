ghost use Rattle.std.specs.Prelude.{◌≡◌, ◌≤◌, [], true, Ok, None};
ghost use Rattle.file_store.specs.Stored.{Stored};
ghost use Rattle.foe_server.specs.Serving.{Serving, fresh, told_of, without_part, is_sound};

use crate::state::{Pending, State};
use arrayvec::ArrayVec;
use ec_fields::NoMemory;
use file_store::{Name, Store};
use std::alloc::Global;
use std::marker::Model;

/// The octets of a mail before those of a packet: its header, opcode, reserved octet and packet number.
pub(crate) const PACKET_HEAD: usize = 12;

/// A server over the files of one slave. The octets of a write lie in the store, so that no call takes memory.
#[derive(Drop)]
pub struct FoeServer {
    pub(crate) out: u16,
    pub(crate) back: u16,
    pub(crate) name: Name,
    pub(crate) state: State,
    pub(crate) pending: Pending,
}

impl Model for FoeServer {
    ghost use Rattle.std.specs.Prelude.{◌≡◌, ◌≤◌, true};
    ghost use Rattle.foe_server.specs.Serving.{Serving, is_sound};

    ghost Value = { Serving };

    ghost view = { λ c. record { out = c.out; back = c.back; name = c.name.items; state = c.state; pending = c.pending } };

    ghost invariant = { λ c. (64 ≤ c.out) × (c.out ≤ 1486) × (64 ≤ c.back) × (c.back ≤ 1486) × (is_sound c.state ≡ true) };
}

impl FoeServer {
    /// A server without a transfer and without a mail, of a slave that takes requests through a mailbox of `out_len` octets and answers
    /// through one of `in_len`. It takes no memory, and never answers `NoMemory`.
    pub fn new(_alloc: Global, out_len: u16, in_len: u16) -> Result<FoeServer, NoMemory>
        requires out_least { 64 ≤ out_len }
        requires out_most { out_len ≤ 1486 }
        requires in_least { 64 ≤ in_len }
        requires in_most { in_len ≤ 1486 }
        ensures { result ≡ Ok (fresh out_len in_len []) }
    {
        Ok(FoeServer {
            out: out_len,
            back: in_len,
            name: ArrayVec::new(),
            state: State::Idle,
            pending: Pending::Nothing,
        })
    }

    /// The server as it was made: without a transfer and without a mail. A version that isn't committed is dropped.
    pub fn clear(&mut self, store: &mut Store)
        ensures fresh { self.new ≡ fresh self.old.out self.old.back self.old.name }
        ensures store { store.new ≡ without_part store.old }
    {
        self.end(store, Pending::Nothing);
    }

    // Goes on with this transfer, and has this to tell.
    pub(crate) fn tell(&mut self, state: State, pending: Pending)
        requires { is_sound state ≡ true }
        ensures { self.new ≡ told_of self.old state pending }
    {
        self.state = state;
        self.pending = pending;
    }

    // Ends the transfer, and has this to tell.
    pub(crate) fn end(&mut self, store: &mut Store, pending: Pending)
        ensures told { self.new ≡ told_of self.old State.Idle pending }
        ensures store { store.new ≡ without_part store.old }
    {
        store.drop_part();
        self.tell(State::Idle, pending);
    }

    // Ends the transfer, refused with this FoE code.
    pub(crate) fn refuse(&mut self, store: &mut Store, code: u32) -> bool
        ensures told { self.new ≡ told_of self.old State.Idle (Pending.Error code) }
        ensures store { store.new ≡ without_part store.old }
        ensures counts { result ≡ true }
    {
        self.end(store, Pending::Error { code });
        true
    }
}
