ghost use Rattle.std.specs.Prelude.{◌≡◌, ◌≤◌, [], true, IfOk, None};
ghost use Rattle.soe_server.specs.Serving.{join_of, waiting_mails, told_of, is_told};

use crate::state::{Common, Pending};
use ec_fields::{NoMemory, Transfer};
use soe_parts::MOST;
use std::alloc::Global;
use std::marker::Model;

/// A server over the IDNs of one slave. It takes all its memory when it is made.
#[derive(Drop)]
pub struct SoeServer {
    pub(crate) room: u16,
    pub(crate) join: Option<Common>,
    pub(crate) value: Transfer,
    pub(crate) pending: Pending,
    pub(crate) told: Transfer,
}

impl Model for SoeServer {
    ghost use Rattle.std.specs.Prelude.{◌≡◌, ◌≤◌, true};
    ghost use Rattle.soe_server.specs.Serving.{Serving, is_told};

    ghost Value = { Serving };

    ghost view = { λ c. record { room = c.room; join = c.join; value = c.value.octets; pending = c.pending; told = c.told.octets } };

    ghost invariant = { λ c. (64 ≤ c.room) × (c.room ≤ 1486) × (c.value.limit ≡ 16384) × (c.told.limit ≡ 16384) × (is_told c.told.octets c.pending ≡ true) };
}

impl SoeServer {
    /// A server without a join and without a mail, that answers through a mailbox of this length.
    pub fn new(alloc: Global, in_len: u16) -> Result<SoeServer, NoMemory>
        requires least { 64 ≤ in_len }
        requires most { in_len ≤ 1486 }
        ensures join { IfOk result (λ c. join_of c ≡ None) }
        ensures silent { IfOk result (λ c. waiting_mails c ≡ []) }
        ensures room { IfOk result (λ c. c.room ≡ in_len) }
    {
        let value = Transfer::new(alloc, MOST)?;
        let told = Transfer::new(alloc, MOST)?;
        Ok(SoeServer {
            room: in_len,
            join: None,
            value,
            pending: Pending::Nothing,
            told,
        })
    }

    /// The server as it was made: without a join and without a mail.
    pub fn clear(&mut self)
        ensures join { join_of self.new ≡ None }
        ensures silent { waiting_mails self.new ≡ [] }
        ensures room { self.new.room ≡ self.old.room }
    {
        self.tell(None, Pending::Nothing);
    }

    // Goes on with this join, and has this to tell.
    pub(crate) fn tell(&mut self, join: Option<Common>, pending: Pending)
        requires { is_told self.old.told pending ≡ true }
        ensures { self.new ≡ told_of self.old join pending }
    {
        self.join = join;
        self.pending = pending;
    }
}
