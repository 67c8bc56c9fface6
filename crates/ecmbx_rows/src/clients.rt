//! Clients through mailboxes of 64 octets that are told what comes.

ghost use Rattle.std.specs.Prelude.{◌≡◌, true};
ghost use Rattle.std.specs.Bool.{OnTrue};
ghost use Rattle.foe_codec.specs.Message.{is_name};

use arrayvec::ArrayVec;
use coe_client::CoeClient;
use ec_fields::{NoMemory, Octets, buffer_of};
use foe_client::FoeClient;
use mailbox_mail::{Kind, Mail, ReplyKind, Took};
use object_dictionary::SdoService;
use reply_text::reply_text;
use row_table::{Bench, Row};
use soe_client::SoeClient;
use std::alloc::Global;

/// A client of each protocol.
#[derive(Drop)]
pub struct ClientBench {
    coe: CoeClient,
    foe: FoeClient,
    soe: SoeClient,
}

/// A client of one protocol.
trait Client {
    /// The body of the next mail that goes; `false` where none does now.
    fn next(&mut self, body: &mut ArrayVec<u8, 1480>) -> bool;

    /// Takes a mail: what it is to the client, by the value that it had, and the reply where it ends the service.
    fn hear(&mut self, mail: &Mail, value: &mut Octets) -> (Took, Option<ReplyKind>);
}

impl Client for CoeClient {
    fn next(&mut self, body: &mut ArrayVec<u8, 1480>) -> bool {
        self.next_mail(body)
    }

    fn hear(&mut self, mail: &Mail, value: &mut Octets) -> (Took, Option<ReplyKind>) {
        match self.take(mail) {
            Took::Done => match self.value(value) {
                Ok(()) => (Took::Done, Some(self.reply())),
                Err(_) => (Took::Done, None),
            },
            took => (took, None),
        }
    }
}

impl Client for FoeClient {
    fn next(&mut self, body: &mut ArrayVec<u8, 1480>) -> bool {
        self.next_mail(body)
    }

    fn hear(&mut self, mail: &Mail, value: &mut Octets) -> (Took, Option<ReplyKind>) {
        match self.take(mail) {
            Took::Done => match self.value(value) {
                Ok(()) => (Took::Done, Some(self.reply())),
                Err(_) => (Took::Done, None),
            },
            took => (took, None),
        }
    }
}

impl Client for SoeClient {
    fn next(&mut self, body: &mut ArrayVec<u8, 1480>) -> bool {
        self.next_mail(body)
    }

    fn hear(&mut self, mail: &Mail, value: &mut Octets) -> (Took, Option<ReplyKind>) {
        match self.take(mail) {
            Took::Done => match self.value(value) {
                Ok(()) => (Took::Done, Some(self.reply())),
                Err(_) => (Took::Done, None),
            },
            took => (took, None),
        }
    }
}

// Whether octets are a file's name.
fn names_file(name: &[u8]) -> bool
    ensures { OnTrue result (is_name name.now ≡ true) }
{
    1 <= name.len() && name.len() <= 32
}

// The next mail that goes, by its length and its first octets.
fn send<C: Client>(row: &mut Row<'_>, client: &mut C) {
    let head = row.count();
    let mut body = ArrayVec::new();
    if !client.next(&mut body) {
        return row.say("none");
    }
    let octets = body.as_slice();
    let len = octets.len();
    row.show(len as u64);
    row.digits(&octets[..head.min(len)]);
}

// What a mail is to the client, and where it ends the service, the reply.
fn take<C: Client>(row: &mut Row<'_>, client: &mut C, kind: Kind) {
    let octets = row.octets();
    if octets.len() > 1480 {
        return row.fail();
    }
    let mail = Mail {
        address: 0,
        kind,
        counter: 1,
        body: buffer_of(octets.bytes()),
    };
    let mut value = Octets::new(row.alloc());
    match client.hear(&mail, &mut value) {
        (Took::More, _) => row.say("more"),
        (Took::Foreign, _) => row.say("foreign"),
        (Took::Done, None) => row.fail(),
        (Took::Done, Some(reply)) => match reply_text(row.alloc(), reply, value.bytes()) {
            Ok(text) => {
                let text = row.text_in(text.bytes());
                row.say(text);
            }
            Err(_) => row.fail(),
        },
    }
}

impl ClientBench {
    /// No service is begun.
    pub fn new(alloc: Global) -> Result<ClientBench, NoMemory> {
        Ok(ClientBench {
            coe: CoeClient::new(alloc, 64, 64)?,
            foe: FoeClient::new(alloc, 64, 64)?,
            soe: SoeClient::new(alloc, 64, 64)?,
        })
    }

    // New clients in their place.
    fn renew(&mut self, row: &mut Row<'_>) {
        match ClientBench::new(row.alloc()) {
            Ok(bench) => {
                *self = bench;
                row.say("new");
            }
            Err(_) => row.fail(),
        }
    }

    // A download of an entry.
    fn download(&mut self, row: &mut Row<'_>) {
        let (index, sub) = (row.short(), row.small());
        let bytes = row.octets();
        if bytes.len() > 16_384 {
            return row.fail();
        }
        self.coe.start(&SdoService::Download { index, sub, bytes });
        row.say("begun");
    }

    // A read or a write of a file.
    fn start_file(&mut self, row: &mut Row<'_>, writes: bool) {
        let (name, pass) = (row.word().as_bytes(), row.number());
        if !names_file(name) {
            return row.fail();
        }
        if !writes {
            self.foe.start_read(name, pass);
            return row.say("begun");
        }
        let octets = row.octets();
        if octets.len() > 131_072 {
            return row.fail();
        }
        self.foe.start_write(name, pass, octets.bytes());
        row.say("begun");
    }

    // A read or a write of an element.
    fn start_element(&mut self, row: &mut Row<'_>, writes: bool) {
        let (drive, idn, elements) = (row.small(), row.short(), row.small());
        if drive > 7 {
            return row.fail();
        }
        if !writes {
            self.soe.start_read(drive, idn, elements);
            return row.say("begun");
        }
        let octets = row.octets();
        if octets.len() > 16_384 {
            return row.fail();
        }
        self.soe.start_write(drive, idn, elements, octets.bytes());
        row.say("begun");
    }

    // Asks the client of CoE.
    fn ask_coe(&mut self, row: &mut Row<'_>) {
        match row.word() {
            "download" => self.download(row),
            "upload" => {
                let (index, sub) = (row.short(), row.small());
                self.coe.start(&SdoService::Upload { index, sub });
                row.say("begun");
            }
            "list" => {
                let kind = row.short();
                self.coe.start(&SdoService::List { kind });
                row.say("begun");
            }
            "has_next" => row.answer(self.coe.has_next()),
            "is_done" => row.answer(self.coe.is_done()),
            "send" => send(row, &mut self.coe),
            "take" => take(row, &mut self.coe, Kind::CoE),
            _ => row.fail(),
        }
    }
}

impl Bench for ClientBench {
    fn carry(&mut self, row: &mut Row<'_>) {
        match row.word() {
            "new" => self.renew(row),
            "coe" => self.ask_coe(row),
            "read_file" => self.start_file(row, false),
            "write_file" => self.start_file(row, true),
            "foe_has_next" => row.answer(self.foe.has_next()),
            "foe_send" => send(row, &mut self.foe),
            "foe_take" => take(row, &mut self.foe, Kind::FoE),
            "foe_take_error" => take(row, &mut self.foe, Kind::Error),
            "read_idn" => self.start_element(row, false),
            "write_idn" => self.start_element(row, true),
            "soe_send" => send(row, &mut self.soe),
            "soe_take" => take(row, &mut self.soe, Kind::SoE),
            "soe_take_error" => take(row, &mut self.soe, Kind::Error),
            _ => row.fail(),
        }
    }
}
