ghost use Rattle.std.specs.Prelude.{◌≡◌, ◌≤◌, true, false, length, slice_index, Err};
ghost use Rattle.object_dictionary.specs.of_ec_fields.Fields.{number_at};
ghost use Rattle.protocol_models.specs.of_coe_codec.Fields.{service_in};
ghost use Rattle.protocol_models.specs.of_coe_codec.Reading.{coe_read};
ghost use Rattle.protocol_models.specs.of_coe_codec.View.{coe_seen, IsWithin};
ghost use Rattle.protocol_models.specs.CoeServer.{coe_takes, takes_unread, coe_outcome};
ghost use Rattle.protocol_models.specs.CoeOctets.{body_heard};
ghost use Rattle.coe_server.specs.Serving.{transfer_of, told_of, outcome_of};

use crate::dictionary::{Dictionary, Question, Target};
use crate::server::CoeServer;
use crate::state::{Pending, State};
use coe_codec::{CoeFault, CoeView};
use ec_fields::u16_at;
use object_dictionary::COMMAND_NOT_VALID;

impl CoeServer {
    // A mail whose answer is a mailbox error.
    fn fail(&mut self, detail: u16) -> bool
        ensures told { self.new ≡ told_of self.old self.old.state (Pending.Failed detail) }
        ensures counts { result ≡ true }
    {
        self.tell(self.state, Pending::Failed { detail });
        true
    }

    fn take_message<D: Dictionary>(&mut self, objects: &mut D, al: u8, message: CoeView<'_>) -> bool
        requires { IsWithin message }
        ensures does { coe_takes (D.tables al) self.old.eoe self.old.room objects.old (transfer_of self.old) (coe_seen message.entry) ≡ outcome_of objects.new self.new result }
        ensures room { self.new.room ≡ self.old.room }
        ensures eoe { self.new.eoe ≡ self.old.eoe }
    {
        match message {
            CoeView::Expedited {
                index,
                sub,
                all,
                bytes,
            } => { self.take_whole(objects, al, Target { index, sub, all }, bytes) }
            CoeView::First {
                index,
                sub,
                all,
                size,
                bytes,
            } => { self.take_first(objects, al, Target { index, sub, all }, size, bytes) }
            CoeView::Segment {
                toggle,
                last,
                bytes,
            } => self.take_segment(objects, al, toggle, last, bytes),
            CoeView::Upload { index, sub, all } => self.take_upload(
                objects,
                al,
                Target { index, sub, all },
            ),
            CoeView::UploadSegment { toggle } => self.take_upload_segment::<D>(toggle),
            CoeView::Abort {
                index: _,
                sub: _,
                code: _,
            } => {
                self.tell(State::Idle, Pending::Nothing);
                false
            }
            CoeView::ListRequest { kind } => self.take_question(
                objects,
                al,
                Question::List { kind },
            ),
            CoeView::ObjectRequest { index } => self.take_question(
                objects,
                al,
                Question::Object { index },
            ),
            CoeView::EntryRequest { index, sub, info } => {
                self.take_question(objects, al, Question::Entry { index, sub, info })
            }
            CoeView::Information {
                opcode: _,
                incomplete: _,
                left: _,
                bytes: _,
            }
            | CoeView::InformationError { code: _ } => self.deny(),
            CoeView::Emergency { octets: _ }
            | CoeView::DownloadAnswer { index: _, sub: _ }
            | CoeView::ExpeditedAnswer {
                index: _,
                sub: _,
                bytes: _,
            }
            | CoeView::FirstAnswer {
                index: _,
                sub: _,
                size: _,
                bytes: _,
            }
            | CoeView::SegmentAnswer { toggle: _ }
            | CoeView::UploadSegmentAnswer {
                toggle: _,
                last: _,
                bytes: _,
            } => self.fail(4),
        }
    }

    // The entry that an SDO request of an unknown command names.
    fn abort_unknown(&mut self, body: &[u8]) -> bool
        requires { 6 ≤ length body.now }
        ensures told { self.new ≡ told_of self.old State.Idle (Pending.Abort (record { index = number_at 2 body.now 3; sub = slice_index body.now 5; all = false }) COMMAND_NOT_VALID) }
        ensures counts { result ≡ true }
    {
        let target = Target {
            index: u16_at(body, 3),
            sub: body[5],
            all: false,
        };
        self.refuse(target, COMMAND_NOT_VALID)
    }

    // A body that doesn't read.
    fn take_unread<D: Dictionary>(&mut self, fault: CoeFault, body: &[u8]) -> bool
        requires { coe_read body.now ≡ Err fault }
        ensures does { (app : D) → takes_unread app (transfer_of self.old) fault (service_in body.now) (number_at 2 body.now 3) (slice_index body.now 5) ≡ outcome_of app self.new result }
        ensures room { self.new.room ≡ self.old.room }
        ensures eoe { self.new.eoe ≡ self.old.eoe }
    {
        let service = if body.len() < 2 { 0 } else { body[1] / 16 };
        match fault {
            CoeFault::Short => self.fail(6),
            CoeFault::Service => self.fail(4),
            CoeFault::Command => {
                if service == 1 || service == 3 {
                    return self.fail(4);
                }
                if service == 8 {
                    return self.deny();
                }
                self.abort_unknown(body)
            }
            CoeFault::Size => {
                if service == 1 || service == 3 {
                    return self.fail(4);
                }
                self.fail(8)
            }
        }
    }

    /// Takes the body of a mail and does what it asks in the objects, at this AL state. `true` exactly where a service was carried out by it, be
    /// it by a refusal; a part of a transfer that goes on carries out none (ETG.1000.6, "CANopen over EtherCAT").
    pub fn take<D: Dictionary>(&mut self, objects: &mut D, al: u8, body: &[u8]) -> bool
        requires { length body.now ≤ 1480 }
        ensures does { coe_outcome (D.tables al) self.old.eoe self.old.room objects.old (transfer_of self.old) (body_heard body.now) ≡ outcome_of objects.new self.new result }
        ensures room { self.new.room ≡ self.old.room }
        ensures eoe { self.new.eoe ≡ self.old.eoe }
    {
        match coe_codec::view(body) {
            Ok(message) => self.take_message(objects, al, message),
            Err(fault) => self.take_unread::<D>(fault, body),
        }
    }
}
