ghost use Rattle.std.specs.Prelude.{◌≡◌, ◌≤◌, ◌<◌, ◌+◌, ◌^◌, ◌↔◌, [], true, false, length};
ghost use Rattle.std.specs.Bool.{OnTrue, OnFalse};
ghost use Rattle.protocol_models.specs.EoeMails.{packet_mails};
ghost use Rattle.eoe_client.specs.Talk.{fragments_left, SendsPart};

use arrayvec::ArrayVec;
use eoe::{EoeView, Fragmenter, Packet};
use std::fmt;
use std::marker::Model;

/// Packets on their way to a slave, one at a time. It takes no memory.
#[derive(Drop)]
pub struct PacketSender {
    pub(crate) room: u16,
    pub(crate) cutter: Fragmenter,
}

impl Model for PacketSender {
    ghost use Rattle.std.specs.Prelude.{◌≡◌, ◌≤◌, ◌-◌, ◌*◌, ◌/◌};
    ghost use Rattle.eoe_client.specs.Talk.{Sending};

    ghost Value = { Sending };

    ghost view = { λ c. record { room = c.room; cutting = c.cutter } };

    ghost invariant = { λ c. (64 ≤ c.room) × (c.room ≤ 1486) × (c.cutter.size ≡ 32 * ((c.room - 10) / 32)) × (32 * c.cutter.number ≤ c.cutter.at) };
}

impl PacketSender {
    /// A sender to a slave whose mailbox for requests has this length.
    pub fn new(room: u16) -> PacketSender
        requires least { 64 ≤ room }
        requires most { room ≤ 1486 }
        ensures silent { fragments_left result.cutting ≡ [] }
        ensures room { result.room ≡ room }
    {
        PacketSender {
            room,
            cutter: eoe::cut(&Packet::new(), room, 0),
        }
    }

    /// Begins to send a packet with this frame number, in place of the one before. The sender then has its fragments to send.
    pub fn start(&mut self, packet: &Packet, frame: u8)
        requires { frame < 2 ^ 4 }
        ensures mails { fragments_left self.new.cutting ≡ packet_mails self.old.room packet.now.items frame }
        ensures room { self.new.room ≡ self.old.room }
    {
        self.cutter = eoe::cut(packet, self.room, frame);
    }

    /// Whether a mail is left to send.
    pub fn has_next(&self) -> bool
        ensures { result ≡ false ↔ (fragments_left self.now.cutting ≡ []) }
    {
        !self.cutter.is_over()
    }

    /// Puts the body of the next mail in place of what `body` has. `false` where no fragment is left; then nothing changed. The body fits the
    /// mailbox that requests go through.
    pub fn next_mail(&mut self, body: &mut ArrayVec<u8, 1480>) -> bool
        ensures sends { OnTrue result (SendsPart self.old body.new.items self.new) }
        ensures fits { OnTrue result (length body.new.items + 6 ≤ self.old.room) }
        ensures waits { OnFalse result (fragments_left self.old.cutting ≡ []) }
        ensures same { OnFalse result ((self.new ≡ self.old) × (body.new ≡ body.old)) }
    {
        match self.cutter.peek() {
            Some(fragment) => eoe::write_view(EoeView::Fragment(fragment), body),
            None => return false,
        }
        self.cutter.skip();
        true
    }
}

impl fmt::Debug for PacketSender {
    fn fmt<W: fmt::Write>(&self, f: &mut fmt::Formatter<W>) -> fmt::Result {
        write!(f, "PacketSender {{ room: {} }}", self.room)
    }
}
