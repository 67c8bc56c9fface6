ghost use Rattle.std.specs.Prelude.{◌≡◌, ◌≢◌, ◌≤◌, ◌<◌, ◌+◌, ◌-◌, ◌*◌, ◌↔◌, List, [], ◌∷◌, ◌++◌, true, false, length, drop, take, Some, None, IfOk, IfSome};
ghost use Rattle.std.specs.Bool.{OnTrue, OnFalse};
ghost use Rattle.protocol_models.specs.of_coe_codec.Fields.{bit};
ghost use Rattle.protocol_models.specs.of_coe_codec.Reading.{is_information};
ghost use Rattle.protocol_models.specs.of_coe_codec.Writing.{HasSpelling, coe_text};
ghost use Rattle.protocol_models.specs.of_coe_codec.View.{coe_seen, IsCapped};
ghost use Rattle.protocol_models.specs.CoeMails.{mail, Emergency};
ghost use Rattle.coe_server.specs.Serving.{first_answer, segment_answer, fragment, transfer_of, answers_of, waiting_mails, packet_of, has_message, failure_in, message_of, first_part, pending_behind, IsShort, IsWritten, GivesNext};

use crate::dictionary::Target;
use crate::server::CoeServer;
use crate::state::{Emitted, Pending};
use arrayvec::ArrayVec;
use coe_codec::CoeView;
use coe_values::Slot;
use ec_fields::{append, refill};
use mailbox_mail::{Kind, Mail};

// Writes a message that is short enough for the mailbox.
fn written(room: u16, message: CoeView<'_>, body: &mut ArrayVec<u8, 1480>)
    requires spelling { HasSpelling (coe_seen message) }
    requires capped { IsCapped message }
    requires short { IsShort room (coe_seen message) }
    ensures { IsWritten room (coe_seen message.entry) body.new.items }
{
    coe_codec::write_view(message, body);
}

// The command of a segment's answer. It tells how many of a short one's 7 octets are unused.
fn segment_command(toggle: bool, last: bool, unused: usize) -> u8
    requires { unused ≤ 7 }
    ensures { result ≡ bit last + 2 * unused + 16 * bit toggle }
{
    let mark = if last { 1 } else { 0 };
    let turn = if toggle { 16 } else { 0 };
    mark + 2 * unused as u8 + turn
}

impl CoeServer {
    // Whether a message is to be told.
    fn has_message(&self) -> bool
        ensures { result ≡ has_message self.now.pending }
    {
        match self.pending {
            Pending::Nothing | Pending::Failed { detail: _ } => false,
            Pending::DownloadAnswer { target: _ }
            | Pending::SegmentAnswer { toggle: _ }
            | Pending::Abort { target: _, code: _ }
            | Pending::Error { code: _ }
            | Pending::Whole { target: _ }
            | Pending::First { target: _, upto: _ }
            | Pending::Part { from: _, toggle: _ }
            | Pending::Last { from: _, toggle: _ }
            | Pending::Parts { opcode: _, from: _ } => true,
        }
    }

    // The detail of the mailbox error that is to be told.
    fn failure(&self) -> Option<u16>
        ensures { result ≡ failure_in self.now.pending }
    {
        match self.pending {
            Pending::Failed { detail } => Some(detail),
            Pending::Nothing
            | Pending::DownloadAnswer { target: _ }
            | Pending::SegmentAnswer { toggle: _ }
            | Pending::Abort { target: _, code: _ }
            | Pending::Error { code: _ }
            | Pending::Whole { target: _ }
            | Pending::First { target: _, upto: _ }
            | Pending::Part { from: _, toggle: _ }
            | Pending::Last { from: _, toggle: _ }
            | Pending::Parts { opcode: _, from: _ } => None,
        }
    }

    /// Whether a mail waits.
    pub fn waiting(&self) -> bool
        ensures { result ≡ false ↔ (waiting_mails self.now ≡ []) }
    {
        // What the type keeps of its fields is wanted in the proof: reading one brings it there.
        let _ = &self.room;
        let answers = match self.pending {
            Pending::Nothing => false,
            Pending::DownloadAnswer { target: _ }
            | Pending::SegmentAnswer { toggle: _ }
            | Pending::Abort { target: _, code: _ }
            | Pending::Error { code: _ }
            | Pending::Failed { detail: _ }
            | Pending::Whole { target: _ }
            | Pending::First { target: _, upto: _ }
            | Pending::Part { from: _, toggle: _ }
            | Pending::Last { from: _, toggle: _ }
            | Pending::Parts { opcode: _, from: _ } => true,
        };
        answers || matches!(self.emitted, Emitted::Emergency)
    }

    /// Whether the mail taken last has emitted a packet that wasn't handed out yet.
    pub fn has_packet(&self) -> bool
        ensures some { OnTrue result (self.now.emitted ≡ Emitted.Packet) }
        ensures none { OnFalse result (self.now.emitted ≢ Emitted.Packet) }
    {
        match self.emitted {
            Emitted::Packet => true,
            Emitted::Nothing | Emitted::Emergency => false,
        }
    }

    /// Hands out the packet that the mail taken last has emitted, in place of what `into` has. `false` where there is none, or it was handed out.
    pub fn packet(&mut self, into: &mut ArrayVec<u8, 1514>) -> bool
        ensures given { OnTrue result (self.old.emitted ≡ Emitted.Packet) }
        ensures octets { OnTrue result (into.new.items ≡ self.old.octets) }
        ensures once { OnTrue result (self.new ≡ record self.old { emitted = Emitted.Nothing }) }
        ensures none { OnFalse result (self.old.emitted ≢ Emitted.Packet) }
        ensures same { OnFalse result ((self.new ≡ self.old) × (into.new ≡ into.old)) }
    {
        match self.emitted {
            Emitted::Packet => {
                refill(into, self.octets.as_slice());
                self.emitted = Emitted::Nothing;
                true
            }
            Emitted::Nothing | Emitted::Emergency => false,
        }
    }

    // What stands before the first octets of a value: its size among it.
    fn write_front(&self, target: Target, body: &mut ArrayVec<u8, 1480>)
        ensures text { body.new.items ≡ coe_text (first_answer target.index target.sub (length self.now.value) []) }
        ensures length { length body.new.items ≡ 10 }
        ensures few { length self.now.value ≤ 16384 }
    {
        let message = CoeView::FirstAnswer {
            index: target.index,
            sub: target.sub,
            size: self.values.len(Slot::Value) as u32,
            bytes: &[],
        };
        coe_codec::write_view(message, body);
    }

    // The first octets of a value, with its size. They go from the value straight to their place.
    fn write_first(&self, target: Target, upto: u32, body: &mut ArrayVec<u8, 1480>)
        requires { self.now.pending ≡ Pending.First target upto }
        ensures { IsWritten self.now.room (message_of self.now) body.new.items }
    {
        self.write_front(target, body);
        self.values.append_to(Slot::Value, 0, upto as usize, body);
    }

    // How many of its 7 octets a segment from a place on doesn't use, where it is that short.
    fn unused(&self, from: u32, most: usize) -> usize
        requires { from < length self.now.value }
        ensures unused { result ≡ 7 - length (take most (drop from self.now.value)) }
        ensures few { result ≤ 7 }
    {
        let count = (self.values.len(Slot::Value) - from as usize).min(most);
        7usize.saturating_sub(count)
    }

    // A segment with the octets of a value from a place on, at most so many. They go from the value straight to their place.
    fn write_octets(
        &self,
        from: u32,
        most: usize,
        toggle: bool,
        last: bool,
        body: &mut ArrayVec<u8, 1480>,
    )
        requires within { from < length self.now.value }
        requires some { 1 ≤ most }
        requires fits { most ≤ self.now.room - 9 }
        ensures { IsWritten self.now.room (segment_answer toggle last (take most (drop from self.now.value))) body.new.items }
    {
        const ZEROS: [u8; 7] = [0; 7];
        let unused = self.unused(from, most);
        refill(body, &[0, 48, segment_command(toggle, last, unused)]);
        self.values
            .append_to(Slot::Value, from as usize, most, body);
        append(body, &ZEROS[..unused]);
    }

    // As many octets of a value as a segment has.
    fn write_segment(&self, from: u32, toggle: bool, body: &mut ArrayVec<u8, 1480>)
        requires { self.now.pending ≡ Pending.Part from toggle }
        ensures { IsWritten self.now.room (message_of self.now) body.new.items }
    {
        let most = self.room as usize - 9;
        self.write_octets(from, most, toggle, false, body);
    }

    // The last octets of a value.
    fn write_last(&self, from: u32, toggle: bool, body: &mut ArrayVec<u8, 1480>)
        requires { self.now.pending ≡ Pending.Last from toggle }
        ensures { IsWritten self.now.room (message_of self.now) body.new.items }
    {
        let most = self.room as usize - 9;
        self.write_octets(from, most, toggle, true, body);
    }

    // A part of an information answer from a place on: as many octets as it has room for. They go from the answer straight to their place.
    fn write_fragment(
        &self,
        opcode: u8,
        incomplete: bool,
        left: u16,
        from: u32,
        body: &mut ArrayVec<u8, 1480>,
    )
        requires { is_information opcode ≡ true }
        ensures { IsWritten self.now.room (fragment opcode incomplete left (take (self.now.room - 12) (drop from self.now.told))) body.new.items }
    {
        let part = self.room as usize - 12;
        let front = CoeView::Information {
            opcode,
            incomplete,
            left,
            bytes: &[],
        };
        coe_codec::write_view(front, body);
        self.values.append_to(Slot::Told, from as usize, part, body);
    }

    // The next part of an information answer, with the number of those behind it.
    fn write_part(&self, opcode: u8, from: u32, body: &mut ArrayVec<u8, 1480>)
        requires { self.now.pending ≡ Pending.Parts opcode from }
        ensures { IsWritten self.now.room (message_of self.now) body.new.items }
    {
        let rest = self.values.len(Slot::Told) - from as usize;
        let part = self.room as usize - 12;
        let incomplete = rest > part;
        let left = if incomplete {
            ((rest - part + part - 1) / part) as u16
        } else {
            0
        };
        self.write_fragment(opcode, incomplete, left, from, body);
    }

    // A value of 1 to 4 octets.
    fn write_whole(&self, target: Target, body: &mut ArrayVec<u8, 1480>)
        requires { self.now.pending ≡ Pending.Whole target }
        ensures { IsWritten self.now.room (message_of self.now) body.new.items }
    {
        let bytes: ArrayVec<u8, 4> = self.values.rest(Slot::Value, 0);
        let message = CoeView::ExpeditedAnswer {
            index: target.index,
            sub: target.sub,
            bytes: bytes.as_slice(),
        };
        written(self.room, message, body);
    }

    // The first message of what is to be told.
    fn write_message(&self, body: &mut ArrayVec<u8, 1480>)
        requires { has_message self.now.pending ≡ true }
        ensures { IsWritten self.now.room (message_of self.now) body.new.items }
    {
        match self.pending {
            Pending::Nothing | Pending::Failed { detail: _ } => unreachable!(),
            Pending::DownloadAnswer {
                target: Target { index, sub, all: _ },
            } => {
                written(self.room, CoeView::DownloadAnswer { index, sub }, body);
            }
            Pending::SegmentAnswer { toggle } => {
                written(self.room, CoeView::SegmentAnswer { toggle }, body);
            }
            Pending::Abort {
                target: Target { index, sub, all: _ },
                code,
            } => {
                written(self.room, CoeView::Abort { index, sub, code }, body);
            }
            Pending::Error { code } => {
                written(self.room, CoeView::InformationError { code }, body);
            }
            Pending::Whole { target } => self.write_whole(target, body),
            Pending::First { target, upto } => self.write_first(target, upto, body),
            Pending::Part { from, toggle } => self.write_segment(from, toggle, body),
            Pending::Last { from, toggle } => self.write_last(from, toggle, body),
            Pending::Parts { opcode, from } => self.write_part(opcode, from, body),
        }
    }

    // What is to be told behind the first message.
    fn behind(&self) -> Pending
        ensures { result ≡ pending_behind self.now.room self.now.told self.now.pending }
    {
        match self.pending {
            Pending::Parts { opcode, from } => {
                let part = self.room as usize - 12;
                if self.values.len(Slot::Told) - from as usize <= part {
                    return Pending::Nothing;
                }
                Pending::Parts {
                    opcode,
                    from: from + part as u32,
                }
            }
            Pending::Nothing
            | Pending::DownloadAnswer { target: _ }
            | Pending::SegmentAnswer { toggle: _ }
            | Pending::Abort { target: _, code: _ }
            | Pending::Error { code: _ }
            | Pending::Failed { detail: _ }
            | Pending::Whole { target: _ }
            | Pending::First { target: _, upto: _ }
            | Pending::Part { from: _, toggle: _ }
            | Pending::Last { from: _, toggle: _ } => Pending::Nothing,
        }
    }

    // The first message goes.
    fn give_message(&mut self, body: &mut ArrayVec<u8, 1480>)
        requires { has_message self.old.pending ≡ true }
        ensures written { IsWritten self.old.room (message_of self.old) body.new.items }
        ensures first { answers_of self.old ≡ mail (message_of self.old) ∷ answers_of self.new }
        ensures same { self.new ≡ record self.old { pending = self.new.pending } }
    {
        self.write_message(body);
        self.pending = self.behind();
    }

    // The emergency goes, which is the last of the mails.
    fn give_emergency(&mut self, body: &mut ArrayVec<u8, 1480>)
        requires { self.old.emitted ≡ Emitted.Emergency }
        ensures written { IsWritten self.old.room (Emergency (record { items = self.old.octets })) body.new.items }
        ensures same { self.new ≡ record self.old { emitted = Emitted.Nothing } }
    {
        let message = CoeView::Emergency {
            octets: self.octets.as_slice(),
        };
        written(self.room, message, body);
        self.emitted = Emitted::Nothing;
    }

    /// Puts the next of the mails that wait in place of what `into` has, as [`next`](CoeServer::next) gives it. Only the octets of its body are
    /// written.
    pub fn next_into(&mut self, into: &mut Mail)
        requires { waiting_mails self.old ≢ [] }
        ensures next { GivesNext self.old into.new self.new }
        ensures fits { length into.new.body.items + 6 ≤ self.old.room }
        ensures packet { packet_of self.new ≡ packet_of self.old }
        ensures transfer { transfer_of self.new ≡ transfer_of self.old }
        ensures room { self.new.room ≡ self.old.room }
        ensures eoe { self.new.eoe ≡ self.old.eoe }
    {
        into.address = 0;
        into.counter = 0;
        if self.has_message() {
            into.kind = Kind::CoE;
            self.give_message(&mut into.body);
            return;
        }
        match self.failure() {
            Some(detail) => {
                let [low, high] = detail.to_le_bytes();
                into.kind = Kind::Error;
                refill(&mut into.body, &[1, 0, low, high]);
                self.pending = Pending::Nothing;
            }
            None => {
                into.kind = Kind::CoE;
                self.give_emergency(&mut into.body);
            }
        }
    }

    /// Gives the next of the mails that wait, to nobody and not yet counted. An emergency is the last. Each fits the mailbox for answers.
    /// A packet that was emitted still waits to be handed out.
    pub fn next(&mut self) -> Mail
        requires { waiting_mails self.old ≢ [] }
        ensures next { GivesNext self.old result self.new }
        ensures fits { length result.body.items + 6 ≤ self.old.room }
        ensures packet { packet_of self.new ≡ packet_of self.old }
        ensures transfer { transfer_of self.new ≡ transfer_of self.old }
        ensures room { self.new.room ≡ self.old.room }
        ensures eoe { self.new.eoe ≡ self.old.eoe }
    {
        let mut mail = Mail {
            address: 0,
            kind: Kind::CoE,
            counter: 0,
            body: ArrayVec::new(),
        };
        self.next_into(&mut mail);
        mail
    }
}
