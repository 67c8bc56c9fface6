ghost use Rattle.std.specs.Prelude.{◌≡◌, ◌≤◌, ◌<◌, ◌+◌, ◌-◌, [], true, false, length, None, IfOk};
ghost use Rattle.protocol_models.specs.CoeServer.{Transfer, idle};
ghost use Rattle.coe_server.specs.Serving.{transfer_of, waiting_mails, packet_of, told_of, is_sound, is_told};

use crate::state::{Emitted, Pending, State};
use arrayvec::ArrayVec;
use coe_values::Values;
use ec_fields::{NoMemory, Transfer};
use std::alloc::Global;
use std::marker::Model;

/// The most octets that a value has.
const MOST: usize = 16_384;

/// A server over the objects of one slave. It takes all its memory when it is made.
#[derive(Drop)]
pub struct CoeServer {
    pub(crate) eoe: bool,
    pub(crate) room: u16,
    pub(crate) state: State,
    pub(crate) pending: Pending,
    pub(crate) values: Values,
    /// Where a value stands whole while the objects are called; between calls it means nothing.
    pub(crate) whole: Transfer,
    pub(crate) emitted: Emitted,
    pub(crate) octets: ArrayVec<u8, 1514>,
}

impl Model for CoeServer {
    ghost use Rattle.std.specs.Prelude.{◌≡◌, ◌≤◌, true};
    ghost use Rattle.coe_server.specs.Serving.{Serving, is_sound, is_told, is_emitted};

    ghost Value = { Serving };

    ghost view = { λ c. record { eoe = c.eoe; room = c.room; state = c.state; value = c.values.value; pending = c.pending; told = c.values.told; emitted = c.emitted; octets = c.octets.items } };

    ghost invariant = { λ c. (64 ≤ c.room) × (c.room ≤ 1486) × (c.whole.limit ≡ 16384) × (is_sound c.state c.values.value ≡ true) × (is_told c.room c.values.value c.values.told c.pending ≡ true) × (is_emitted c.emitted c.octets.items ≡ true) };
}

impl CoeServer {
    /// A server without a transfer, a mail or a packet, that answers through a mailbox of this length.
    pub fn new(alloc: Global, eoe: bool, in_len: u16) -> Result<CoeServer, NoMemory>
        requires least { 64 ≤ in_len }
        requires most { in_len ≤ 1486 }
        ensures transfer { IfOk result (λ c. transfer_of c ≡ idle) }
        ensures silent { IfOk result (λ c. waiting_mails c ≡ []) }
        ensures packet { IfOk result (λ c. packet_of c ≡ None) }
        ensures room { IfOk result (λ c. c.room ≡ in_len) }
        ensures eoe { IfOk result (λ c. c.eoe ≡ eoe) }
    {
        let values = Values::new(alloc)?;
        let whole = Transfer::new(alloc, MOST)?;
        Ok(CoeServer {
            eoe,
            room: in_len,
            state: State::Idle,
            pending: Pending::Nothing,
            values,
            whole,
            emitted: Emitted::Nothing,
            octets: ArrayVec::new(),
        })
    }

    /// The server as it was made: without a transfer, a mail or a packet.
    pub fn clear(&mut self)
        ensures transfer { transfer_of self.new ≡ idle }
        ensures silent { waiting_mails self.new ≡ [] }
        ensures packet { packet_of self.new ≡ None }
        ensures room { self.new.room ≡ self.old.room }
        ensures eoe { self.new.eoe ≡ self.old.eoe }
    {
        self.tell(State::Idle, Pending::Nothing);
    }

    // Goes on with this transfer, and has this to tell.
    pub(crate) fn tell(&mut self, state: State, pending: Pending)
        requires sound { is_sound state self.old.value ≡ true }
        requires told { is_told self.old.room self.old.value self.old.told pending ≡ true }
        ensures { self.new ≡ told_of self.old state pending }
    {
        self.state = state;
        self.pending = pending;
        self.emitted = Emitted::Nothing;
    }
}
