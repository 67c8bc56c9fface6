ghost use Rattle.std.specs.Prelude.{◌≡◌, ◌≤◌, ◌<◌, ◌+◌, ◌^◌, ◌++◌, true, false, IsTrue, length, take, Err, None};
ghost use Rattle.soe_parts.specs.of_soe_codec.Message.{IsSpellable, soe_read};
ghost use Rattle.soe_parts.specs.of_soe_codec.View.{soe_seen};
ghost use Rattle.idn_table.specs.of_protocol_models.SoeServer.{ahead, gathered, asked, written, soe_takes, takes_whole, takes_unread, soe_outcome};
ghost use Rattle.idn_table.specs.of_protocol_models.SoeOctets.{body_heard, is_marked};
ghost use Rattle.idn_table.specs.Idns.{Table, idn_elements};
ghost use Rattle.soe_parts.specs.Parts.{subject_view};
ghost use Rattle.soe_server.specs.Serving.{subject_of, join_of, goes_with, told_of, outcome_of};

use crate::server::SoeServer;
use crate::state::{Common, Pending};
use ec_fields::{bits, u16_at};
use idn_table::IdnTable;
use soe_codec::{READ, READ_ANSWER, SoeFault, SoeView, WRITE, WRITE_ANSWER};
use soe_parts::{MOST, Subject};

// What a message without the incomplete bit is about.
fn subject_of(message: SoeView<'_>) -> Subject
    ensures { result ≡ subject_of (soe_seen message.entry) }
{
    Subject {
        drive: message.drive,
        idn: message.field,
        elements: message.elements,
    }
}

// At most so many octets.
fn upto(bytes: &[u8], len: usize) -> &[u8]
    ensures { result.now ≡ take len bytes.now }
{
    if len >= bytes.len() {
        bytes
    } else {
        &bytes[..len]
    }
}

impl SoeServer {
    // Whether a message goes on with the join.
    fn goes_on(&self, message: SoeView<'_>) -> bool
        ensures { result ≡ goes_with self.now.join (soe_seen message.entry) }
    {
        match self.join {
            Some(join) => {
                join.opcode == message.opcode
                    && join.drive == message.drive
                    && join.elements == message.elements
            }
            None => false,
        }
    }

    // Lets go of the octets of a join that a message doesn't go on with.
    fn keep_ahead(&mut self, message: SoeView<'_>)
        ensures { self.new ≡ record self.old { value = ahead (join_of self.old) (soe_seen message.entry) } }
    {
        if !self.goes_on(message) {
            self.value.clear();
        }
    }

    fn append(&mut self, bytes: &[u8])
        requires { length self.old.value + length bytes.now ≤ 16384 }
        ensures { self.new ≡ record self.old { value = self.old.value ++ bytes.now } }
    {
        let _fits = self.value.add(bytes);
    }

    // Keeps the octets of a message behind those of the join, if it goes on with it: the first 16,384 of them.
    fn gather(&mut self, message: SoeView<'_>)
        ensures { self.new ≡ record self.old { value = gathered (join_of self.old) (soe_seen message.entry) } }
    {
        self.keep_ahead(message);
        let room = MOST - self.value.bytes().len();
        self.append(upto(message.bytes, room));
    }

    // A fragment that isn't the last.
    fn take_fragment(&mut self, message: SoeView<'_>) -> bool
        requires { IsTrue (soe_seen message).incomplete }
        ensures does { (idns : Table) → soe_takes idn_elements self.old.room idns (join_of self.old) (soe_seen message.entry) ≡ outcome_of idns self.new result }
        ensures room { self.new.room ≡ self.old.room }
    {
        self.gather(message);
        let join = Common {
            opcode: message.opcode,
            drive: message.drive,
            elements: message.elements,
        };
        self.tell(Some(join), Pending::Nothing);
        false
    }

    // A request for an element.
    fn take_read(&mut self, idns: &IdnTable, subject: Subject) -> bool
        requires { subject.drive < 2 ^ 3 }
        ensures does { asked self.old.room idns.now (subject_view subject) (idn_elements.read idns.now (subject_view subject)) ≡ outcome_of idns.now self.new result }
        ensures room { self.new.room ≡ self.old.room }
    {
        self.tell(None, Pending::Nothing);
        let pending = match idns.read_element(
            subject.drive,
            subject.idn,
            subject.elements,
            &mut self.told,
        ) {
            Some(code) => Pending::Refused {
                opcode: READ_ANSWER,
                subject,
                code,
            },
            None => Pending::Parts { subject, from: 0 },
        };
        self.tell(None, pending);
        true
    }

    // A write whose octets have come whole.
    fn take_write(&mut self, idns: &mut IdnTable, subject: Subject) -> bool
        requires { subject.drive < 2 ^ 3 }
        ensures does { written idns.old (subject_view subject) (idn_elements.write idns.old (subject_view subject) self.old.value) ≡ outcome_of idns.new self.new result }
        ensures room { self.new.room ≡ self.old.room }
    {
        let pending = match idns.write_element(
            subject.drive,
            subject.idn,
            subject.elements,
            self.value.bytes(),
        ) {
            Some(code) => Pending::Refused {
                opcode: WRITE_ANSWER,
                subject,
                code,
            },
            None => Pending::Written { subject },
        };
        self.tell(None, pending);
        true
    }

    // A mail whose answer is a mailbox error; the join goes on, or has ended.
    fn fail(&mut self, join: Option<Common>, detail: u16) -> bool
        ensures told { self.new ≡ told_of self.old join (Pending.Failed detail) }
        ensures counts { result ≡ true }
    {
        // A field is named so that the proof has what holds of the fields.
        let _ = &self.join;
        self.tell(join, Pending::Failed { detail });
        true
    }

    // A message without the incomplete bit.
    fn take_whole(&mut self, idns: &mut IdnTable, message: SoeView<'_>) -> bool
        requires { IsSpellable (soe_seen message) }
        ensures does { takes_whole idn_elements self.old.room idns.old (join_of self.old) (soe_seen message.entry) ≡ outcome_of idns.new self.new result }
        ensures room { self.new.room ≡ self.old.room }
    {
        let subject = subject_of(message);
        match message.opcode {
            READ => self.take_read(idns, subject),
            WRITE => {
                self.gather(message);
                self.take_write(idns, subject)
            }
            _ => self.fail(None, 4),
        }
    }

    fn take_message(&mut self, idns: &mut IdnTable, message: SoeView<'_>) -> bool
        requires { IsSpellable (soe_seen message) }
        ensures does { soe_takes idn_elements self.old.room idns.old (join_of self.old) (soe_seen message.entry) ≡ outcome_of idns.new self.new result }
        ensures room { self.new.room ≡ self.old.room }
    {
        if message.incomplete {
            return self.take_fragment(message);
        }
        self.take_whole(idns, message)
    }

    // A mail without an answer, which leaves the join.
    fn pass_over(&mut self) -> bool
        ensures told { self.new ≡ told_of self.old self.old.join Pending.Nothing }
        ensures counts { result ≡ false }
    {
        // A field is named so that the proof has what holds of the fields.
        let _ = &self.join;
        self.tell(self.join, Pending::Nothing);
        false
    }

    // A mail that does not read.
    fn take_unread(&mut self, fault: SoeFault, body: &[u8]) -> bool
        requires { soe_read body.now ≡ Err fault }
        ensures does { (idns : Table) → takes_unread idns (join_of self.old) fault (is_marked body.now) ≡ outcome_of idns self.new result }
        ensures room { self.new.room ≡ self.old.room }
    {
        match fault {
            SoeFault::Short => self.fail(self.join, 6),
            SoeFault::Incomplete => self.pass_over(),
            SoeFault::Opcode => {
                if bits(u16_at(body, 0), 3, 1) == 1 {
                    return self.pass_over();
                }
                self.fail(self.join, 4)
            }
        }
    }

    /// Takes the body of a mail and does what it asks of the IDNs. `true` exactly where a service was carried out by it, be it by a refusal; a
    /// mail of 4 octets or more with the incomplete bit carries out none and gets no answer (ETG.1000.6, "SoE").
    pub fn take(&mut self, idns: &mut IdnTable, body: &[u8]) -> bool
        requires { length body.now ≤ 1480 }
        ensures does { soe_outcome idn_elements self.old.room idns.old (join_of self.old) (body_heard body.now) ≡ outcome_of idns.new self.new result }
        ensures room { self.new.room ≡ self.old.room }
    {
        match soe_codec::view(body) {
            Ok(message) => self.take_message(idns, message),
            Err(fault) => self.take_unread(fault, body),
        }
    }
}
