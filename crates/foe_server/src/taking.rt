ghost use Rattle.std.specs.Prelude.{◌≡◌, ◌≤◌, ◌+◌, ℕ, true, is_some, length, drop, None};
ghost use Rattle.file_store.specs.Files.{file_of, get};
ghost use Rattle.file_store.specs.Stored.{Stored, part_octets};
ghost use Rattle.protocol_models.specs.FoeServer.{takes_read, takes_write, takes_data, stores, closes, takes_ack, continues, foe_takes, takes_unread, foe_outcome};
ghost use Rattle.protocol_models.specs.of_foe_codec.View.{foe_seen, IsCapped};
ghost use Rattle.protocol_models.specs.FoeOctets.{body_heard};
ghost use Rattle.foe_server.specs.Stores.{store_files};
ghost use Rattle.foe_server.specs.Serving.{Serving, Serves, IsWriting, transfer_of, outcome_of, told_of};

use crate::server::{FoeServer, PACKET_HEAD};
use crate::state::{Pending, State};
use ec_fields::refill;
use file_store::{NOT_FOUND, Store};
use foe_codec::{FoeFault, FoeView};

/// No block is free for a packet's octets (ETG.1000.6, "FoE error codes").
const DISK_FULL: u32 = 0x8003;

/// A mail that the transfer doesn't await.
const ILLEGAL: u32 = 0x8004;

/// A packet of another number than the awaited one.
const PACKET_NUMBER: u32 = 0x8005;

impl FoeServer {
    fn take_read(&mut self, store: &mut Store, al: u8, name: &[u8], pass: u32) -> bool
        requires { length name.now ≤ 32 }
        ensures does { takes_read (store_files al) self.old.back store.old.kept name.now pass ≡ outcome_of store.new self.new result }
        ensures serves { Serves self.new store.new }
        ensures out { self.new.out ≡ self.old.out }
        ensures back { self.new.back ≡ self.old.back }
    {
        store.drop_part();
        if let Some(code) = store.allowed(name, pass, false, al) {
            return self.refuse(store, code);
        }
        refill(&mut self.name, name);
        self.tell(
            State::Reading { number: 1, from: 0 },
            Pending::Packet { number: 1, from: 0 },
        );
        true
    }

    fn take_write(&mut self, store: &mut Store, al: u8, name: &[u8], pass: u32) -> bool
        requires { length name.now ≤ 32 }
        ensures does { takes_write (store_files al) store.old.kept name.now pass ≡ outcome_of store.new self.new result }
        ensures serves { Serves self.new store.new }
        ensures out { self.new.out ≡ self.old.out }
        ensures back { self.new.back ≡ self.old.back }
    {
        store.drop_part();
        if let Some(code) = store.allowed(name, pass, true, al) {
            return self.refuse(store, code);
        }
        store.begin(name);
        refill(&mut self.name, name);
        self.tell(State::Writing { number: 0 }, Pending::Ack { number: 0 });
        false
    }

    // The new version is whole: busy as often as the file says, then committed with the acknowledgement.
    fn close(&mut self, store: &mut Store, number: u32, told: u8) -> bool
        requires writing { IsWriting self.old.name 0 store.old }
        ensures does { (al : ℕ) → closes (store_files al) store.old.kept self.old.name number (part_octets store.old) told ≡ outcome_of store.new self.new result }
        ensures serves { Serves self.new store.new }
        ensures out { self.new.out ≡ self.old.out }
        ensures back { self.new.back ≡ self.old.back }
    {
        let busy = store.busy(self.name.as_slice());
        if told < busy {
            let again = told + 1;
            self.tell(
                State::Closing {
                    number,
                    told: again,
                },
                Pending::Busy {
                    done: told,
                    entire: busy,
                },
            );
            return false;
        }
        store.commit();
        self.tell(State::Idle, Pending::Ack { number });
        true
    }

    // The awaited packet of a write: the room for it first.
    fn store_packet(&mut self, store: &mut Store, number: u32, bytes: &[u8]) -> bool
        requires writing { (before : ℕ) × (number ≡ before + 1) × IsWriting self.old.name before store.old }
        ensures does { (al : ℕ) → stores (store_files al) self.old.out store.old.kept self.old.name number (part_octets store.old) bytes.now ≡ outcome_of store.new self.new result }
        ensures serves { Serves self.new store.new }
        ensures out { self.new.out ≡ self.old.out }
        ensures back { self.new.back ≡ self.old.back }
    {
        if store.append(bytes).is_err() {
            return self.refuse(store, DISK_FULL);
        }
        if bytes.len() < self.out as usize - PACKET_HEAD {
            return self.close(store, number, 0);
        }
        self.tell(State::Writing { number }, Pending::Ack { number });
        false
    }

    fn take_data(&mut self, store: &mut Store, packet: u32, bytes: &[u8]) -> bool
        requires serves { Serves self.old store.old }
        ensures does { (al : ℕ) → takes_data (store_files al) self.old.out store.old.kept (transfer_of self.old store.old) packet bytes.now ≡ outcome_of store.new self.new result }
        ensures serves { Serves self.new store.new }
        ensures out { self.new.out ≡ self.old.out }
        ensures back { self.new.back ≡ self.old.back }
    {
        match self.state {
            State::Idle | State::Reading { number: _, from: _ } => self.refuse(store, ILLEGAL),
            State::Writing { number } => {
                if packet != number + 1 {
                    return self.refuse(store, PACKET_NUMBER);
                }
                self.store_packet(store, packet, bytes)
            }
            State::Closing { number, told } => {
                if packet != number {
                    return self.refuse(store, PACKET_NUMBER);
                }
                self.close(store, packet, told)
            }
        }
    }

    // The next packet of a file, behind the acknowledgement of this one; nothing behind the last.
    fn go_on(&mut self, store: &Store, number: u32, from: u32) -> bool
        requires sound { number ≤ from + 1 }
        requires none { store.now.part ≡ None }
        ensures does { continues self.old.back store.now.kept number (drop from (get store.now.kept self.old.name)) ≡ outcome_of store.now self.new result }
        ensures serves { Serves self.new store.now }
        ensures out { self.new.out ≡ self.old.out }
        ensures back { self.new.back ≡ self.old.back }
    {
        let part = self.back as usize - PACKET_HEAD;
        let left = store
            .len(self.name.as_slice())
            .saturating_sub(from as usize);
        if left < part {
            self.tell(State::Idle, Pending::Nothing);
            return false;
        }
        let number = number + 1;
        let from = from + part as u32;
        self.tell(
            State::Reading { number, from },
            Pending::Packet { number, from },
        );
        false
    }

    fn take_ack(&mut self, store: &mut Store, packet: u32) -> bool
        requires serves { Serves self.old store.old }
        ensures does { takes_ack self.old.back store.old.kept (transfer_of self.old store.old) packet ≡ outcome_of store.new self.new result }
        ensures serves { Serves self.new store.new }
        ensures out { self.new.out ≡ self.old.out }
        ensures back { self.new.back ≡ self.old.back }
    {
        match self.state {
            State::Idle | State::Writing { number: _ } | State::Closing { number: _, told: _ } =>
                self.refuse(store, ILLEGAL),
            State::Reading { number, from } => {
                if packet != number {
                    self.end(
                        store,
                        Pending::Error {
                            code: PACKET_NUMBER,
                        },
                    );
                    return false;
                }
                self.go_on(store, number, from)
            }
        }
    }

    fn take_message(&mut self, store: &mut Store, al: u8, message: FoeView<'_>) -> bool
        requires capped { IsCapped message }
        requires serves { Serves self.old store.old }
        ensures does { foe_takes (store_files al) self.old.out self.old.back store.old.kept (transfer_of self.old store.old) (foe_seen message.entry) ≡ outcome_of store.new self.new result }
        ensures serves { Serves self.new store.new }
        ensures out { self.new.out ≡ self.old.out }
        ensures back { self.new.back ≡ self.old.back }
    {
        match message {
            FoeView::Read { pass, name } => self.take_read(store, al, name, pass),
            FoeView::Write { pass, name } => self.take_write(store, al, name, pass),
            FoeView::Data { packet, bytes } => self.take_data(store, packet, bytes),
            FoeView::Ack { packet } => self.take_ack(store, packet),
            FoeView::Error { code: _ } => {
                self.end(store, Pending::Nothing);
                false
            }
            FoeView::Busy { done: _, entire: _ } => self.refuse(store, ILLEGAL),
        }
    }

    // A mail that does not read leaves the transfer.
    fn take_unread(&mut self, fault: FoeFault) -> bool
        ensures does { (store : Stored) → takes_unread store.kept (transfer_of self.old store) fault ≡ outcome_of store self.new result }
        ensures same { self.new ≡ record self.old { pending = self.new.pending } }
    {
        let pending = match fault {
            FoeFault::Short => Pending::Failed { detail: 6 },
            FoeFault::Opcode => Pending::Error { code: ILLEGAL },
            FoeFault::Name => Pending::Error { code: NOT_FOUND },
        };
        self.pending = pending;
        true
    }

    /// Takes the body of a mail and does what it asks with the files, at this AL state. The store is the one that the server worked on
    /// before. `true` exactly where a service was carried out by it, be it by a refusal; a part of a transfer that goes on carries out none
    /// (ETG.1000.6, "File access over EtherCAT").
    pub fn take(&mut self, store: &mut Store, al: u8, body: &[u8]) -> bool
        requires body { length body.now ≤ 1480 }
        requires serves { Serves self.old store.old }
        ensures does { foe_outcome (store_files al) self.old.out self.old.back store.old.kept (transfer_of self.old store.old) (body_heard body.now) ≡ outcome_of store.new self.new result }
        ensures serves { Serves self.new store.new }
        ensures out { self.new.out ≡ self.old.out }
        ensures back { self.new.back ≡ self.old.back }
    {
        match foe_codec::view(body) {
            Ok(message) => self.take_message(store, al, message),
            Err(fault) => self.take_unread(fault),
        }
    }
}
