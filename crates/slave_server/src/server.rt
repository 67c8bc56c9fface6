ghost use Rattle.std.specs.Prelude.{◌≡◌, ◌≤◌, [], true, None, IfOk};
ghost use Rattle.slave_parts.specs.of_eoe_server.Serving.{is_roomy};
ghost use Rattle.slave_server.specs.Serving.{fresh, cleared};

use coe_server::CoeServer;
use ec_fields::NoMemory;
use eoe_server::{Addresses, EoeServer};
use file_store::Store;
use foe_server::FoeServer;
use idn_table::IdnTable;
use object_dictionary::Objects;
use soe_server::SoeServer;
use std::alloc::Global;
use std::marker::Model;

/// The lengths of a slave's mailboxes, towards it and from it.
#[derive(Clone, Copy)]
pub struct Lengths {
    pub out_len: u16,
    pub in_len: u16,
}

/// The protocols that a slave serves.
#[derive(Clone, Copy)]
pub struct Protocols {
    pub has_coe: bool,
    pub has_foe: bool,
    pub has_soe: bool,
    pub has_eoe: bool,
}

/// The services of one slave: its application, a server for each protocol, and a mailbox error that waits.
#[derive(Drop)]
pub struct SlaveServer {
    pub(crate) lengths: Lengths,
    pub(crate) protocols: Protocols,
    pub(crate) objects: Objects,
    pub(crate) store: Store,
    pub(crate) idns: IdnTable,
    pub(crate) addresses: Addresses,
    pub(crate) sdo: CoeServer,
    pub(crate) file: FoeServer,
    pub(crate) drive: SoeServer,
    pub(crate) ether: EoeServer,
    pub(crate) failure: Option<u16>,
    pub(crate) handled: u64,
}

impl Model for SlaveServer {
    ghost use Rattle.slave_server.specs.Serving.{Serving, IsInside, view_of};

    ghost Value = { Serving };

    ghost view = { λ s. view_of (record { out = s.lengths.out_len; back = s.lengths.in_len; has_coe = s.protocols.has_coe; has_foe = s.protocols.has_foe; has_soe = s.protocols.has_soe; has_eoe = s.protocols.has_eoe; objects = s.objects; store = s.store; idns = s.idns; addresses = s.addresses; sdo = s.sdo; file = s.file; drive = s.drive; ether = s.ether; failure = s.failure; handled = s.handled }) };

    ghost invariant = { λ s. IsInside (record { out = s.lengths.out_len; back = s.lengths.in_len; has_coe = s.protocols.has_coe; has_foe = s.protocols.has_foe; has_soe = s.protocols.has_soe; has_eoe = s.protocols.has_eoe; objects = s.objects; store = s.store; idns = s.idns; addresses = s.addresses; sdo = s.sdo; file = s.file; drive = s.drive; ether = s.ether; failure = s.failure; handled = s.handled }) };
}

impl SlaveServer {
    /// The services of a slave of these mailboxes and protocols, without a transfer and without a mail, over these objects, files, IDNs and
    /// addresses. It takes all the memory that its steps fill.
    pub fn new(
        alloc: Global,
        lengths: Lengths,
        protocols: Protocols,
        objects: Objects,
        store: Store,
        idns: IdnTable,
        addresses: Addresses,
    ) -> Result<SlaveServer, NoMemory>
        requires out_least { 64 ≤ lengths.out_len }
        requires out_most { lengths.out_len ≤ 1486 }
        requires in_least { 64 ≤ lengths.in_len }
        requires in_most { lengths.in_len ≤ 1486 }
        requires committed { store.part ≡ None }
        requires roomy { is_roomy lengths.in_len addresses ≡ true }
        ensures silent { IfOk result (λ s. s.waiting ≡ []) }
        ensures server { IfOk result (λ s. s.server ≡ fresh (record { objects = objects; files = store.kept; idns = idns; block = addresses.block.items })) }
        ensures profile { IfOk result (λ s. s.profile ≡ record { out = lengths.out_len; back = lengths.in_len; has_coe = protocols.has_coe; has_foe = protocols.has_foe; has_soe = protocols.has_soe; has_eoe = protocols.has_eoe; fixed_ip = addresses.fixed; mac = addresses.mac.items }) }
    {
        let sdo = CoeServer::new(alloc, protocols.has_eoe, lengths.in_len)?;
        let file = FoeServer::new(alloc, lengths.out_len, lengths.in_len)?;
        let drive = SoeServer::new(alloc, lengths.in_len)?;
        Ok(SlaveServer {
            lengths,
            protocols,
            objects,
            store,
            idns,
            addresses,
            sdo,
            file,
            drive,
            ether: EoeServer::new(lengths.in_len),
            failure: None,
            handled: 0,
        })
    }

    /// The services at a return to Init: transfers, joins and mails are gone, and the next packet has frame number 0. What the services acted
    /// on, and how many were carried out, stays.
    pub fn forget(&mut self)
        ensures { self.new ≡ cleared self.old }
    {
        self.sdo.clear();
        self.file.clear(&mut self.store);
        self.drive.clear();
        self.ether.clear();
        self.failure = None;
    }
}
