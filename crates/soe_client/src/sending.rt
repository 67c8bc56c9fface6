ghost use Rattle.std.specs.Prelude.{◌≡◌, ◌≤◌, ◌+◌, ◌↔◌, List, [], false, length};
ghost use Rattle.std.specs.Bool.{OnTrue, OnFalse};
ghost use Rattle.soe_parts.specs.of_protocol_models.SoeMails.{SoeMail};
ghost use Rattle.soe_parts.specs.Parts.{IsFirst};
ghost use Rattle.soe_client.specs.Talk.{left, awaited, SendsNext};

use crate::client::SoeClient;
use crate::state::Unsent;
use arrayvec::ArrayVec;
use soe_codec::{READ, WRITE};
use soe_parts::{write_message, write_part};

impl SoeClient {
    /// Whether a mail is left to send.
    pub fn has_next(&self) -> bool
        ensures { result ≡ false ↔ (left self.now ≡ []) }
    {
        // A field is named so that the proof has what holds of the fields.
        let _ = &self.room;
        match self.unsent {
            Unsent::Nothing => false,
            Unsent::Request | Unsent::Octets { from: _ } => true,
        }
    }

    // Writes the request for an element.
    fn write_request(&mut self, body: &mut ArrayVec<u8, 1480>)
        requires { self.old.unsent ≡ Unsent.Request }
        ensures first { IsFirst (left self.old) body.new.items (left self.new) }
        ensures same { self.new ≡ record self.old { unsent = self.new.unsent } }
        ensures short { length body.new.items + 6 ≤ self.old.room }
    {
        write_message(READ, self.subject(), body);
        self.unsent = Unsent::Nothing;
    }

    // Writes the next fragment of a write.
    fn write_fragment(&mut self, from: u32, body: &mut ArrayVec<u8, 1480>)
        requires { self.old.unsent ≡ Unsent.Octets from }
        ensures first { IsFirst (left self.old) body.new.items (left self.new) }
        ensures same { self.new ≡ record self.old { unsent = self.new.unsent } }
        ensures short { length body.new.items + 6 ≤ self.old.room }
    {
        let subject = self.subject();
        let bytes = self.bytes.bytes();
        self.unsent = match write_part(WRITE, subject, self.room, bytes, from, body) {
            Some(next) => Unsent::Octets { from: next },
            None => Unsent::Nothing,
        };
    }

    /// Puts the body of the next mail in place of what `body` has. `false` where the client has no mail left; then nothing changed. The body
    /// fits the mailbox that requests go through.
    pub fn next_mail(&mut self, body: &mut ArrayVec<u8, 1480>) -> bool
        ensures sends { OnTrue result (SendsNext self.old body.new.items self.new) }
        ensures fits { OnTrue result (length body.new.items + 6 ≤ self.old.room) }
        ensures waits { OnFalse result (left self.old ≡ []) }
        ensures same { OnFalse result ((self.new ≡ self.old) × (body.new ≡ body.old)) }
        ensures replies { (ms : List SoeMail) → awaited self.new ms ≡ awaited self.old ms }
    {
        match self.unsent {
            Unsent::Nothing => return false,
            Unsent::Request => self.write_request(body),
            Unsent::Octets { from } => self.write_fragment(from, body),
        }
        true
    }
}
