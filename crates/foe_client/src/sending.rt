ghost use Rattle.std.specs.Prelude.{◌≡◌, ◌≤◌, ◌<◌, ◌+◌, ◌↔◌, List, [], true, false, length, take, drop};
ghost use Rattle.protocol_models.specs.of_foe_codec.Message.{IsSpellable, foe_text};
ghost use Rattle.protocol_models.specs.of_foe_codec.View.{foe_seen, IsCapped};
ghost use Rattle.protocol_models.specs.FoeServer.{packet_room};
ghost use Rattle.std.specs.Bool.{OnTrue, OnFalse};
ghost use Rattle.protocol_models.specs.FoeMails.{FoeMail};
ghost use Rattle.foe_client.specs.Talk.{following, later, awaited};
ghost use Rattle.foe_client.specs.Send.{message_of, sent_first, SendsNext};

use crate::client::{FoeClient, HEADER};
use crate::state::Unsent;
use arrayvec::ArrayVec;
use foe_codec::{FoeView, write_view};

impl FoeClient {
    // A packet's octets: as many as the mailbox takes, or all that are left.
    fn part(&self, from: u32) -> &[u8]
        requires { from ≤ length self.now.bytes }
        ensures value { result.now ≡ take (packet_room self.now.out) (drop from self.now.bytes) }
        ensures fits { length result.now ≤ 1474 }
    {
        let rest = &self.bytes.bytes()[from as usize..];
        let room = self.out as usize - HEADER;
        if rest.len() < room {
            rest
        } else {
            &rest[..room]
        }
    }

    // The message of the first mail that isn't sent.
    fn message(&self) -> FoeView<'_>
        ensures value { foe_seen result ≡ message_of self.now self.now.unsent }
        ensures spelled { IsSpellable (foe_seen result) }
        ensures capped { IsCapped result }
    {
        match self.unsent {
            Unsent::ReadRequest => FoeView::Read {
                pass: self.pass,
                name: self.name.as_slice(),
            },
            Unsent::WriteRequest => FoeView::Write {
                pass: self.pass,
                name: self.name.as_slice(),
            },
            Unsent::Packet { number, from } => FoeView::Data {
                packet: number,
                bytes: self.part(from),
            },
            Unsent::Ack { number } => FoeView::Ack { packet: number },
        }
    }

    // The mail that follows the first one.
    fn following(&self) -> Unsent
        requires { 0 < self.now.quota }
        ensures { result ≡ following self.now.out self.now.bytes self.now.unsent }
    {
        match self.unsent {
            Unsent::ReadRequest => Unsent::Ack { number: 1 },
            Unsent::WriteRequest => Unsent::Packet { number: 1, from: 0 },
            Unsent::Packet { number, from } => {
                let room = self.out as usize - HEADER;
                if self.bytes.bytes().len() - (from as usize) < room {
                    return Unsent::Packet { number, from };
                }
                Unsent::Packet {
                    number: number + 1,
                    from: from + room as u32,
                }
            }
            Unsent::Ack { number } => Unsent::Ack { number: number + 1 },
        }
    }

    // Writes the first mail that isn't sent, in place of what the body held.
    fn write_first(&self, body: &mut ArrayVec<u8, 1480>)
        ensures { body.new.items ≡ foe_text (message_of self.now self.now.unsent) }
    {
        write_view(self.message(), body);
    }

    // The first mail is sent.
    fn send_first(&mut self)
        requires { 0 < self.old.quota }
        ensures { self.new ≡ sent_first self.old }
    {
        self.unsent = self.following();
        self.quota -= 1;
    }

    /// Whether a mail may go now.
    pub fn has_next(&self) -> bool
        ensures { result ≡ false ↔ (later self.now [] ≡ []) }
    {
        self.quota != 0
    }

    /// Puts the body of the next mail in place of what `body` has. `false` where the client awaits an answer, or has no mail left; then
    /// nothing changed. The body fits the mailbox that requests go through. Behind a file that was read, the acknowledgement of its last packet
    /// comes once.
    pub fn next_mail(&mut self, body: &mut ArrayVec<u8, 1480>) -> bool
        ensures sends { OnTrue result (SendsNext self.old body.new.items self.new) }
        ensures fits { OnTrue result (length body.new.items + 6 ≤ self.old.out) }
        ensures waits { OnFalse result (later self.old [] ≡ []) }
        ensures same { OnFalse result ((self.new ≡ self.old) × (body.new ≡ body.old)) }
        ensures replies { (ms : List FoeMail) → awaited self.new ms ≡ awaited self.old ms }
    {
        if self.quota == 0 {
            return false;
        }
        self.write_first(body);
        self.send_first();
        true
    }
}
