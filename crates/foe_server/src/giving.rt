ghost use Rattle.std.specs.Prelude.{◌≡◌, ◌≢◌, ◌≤◌, ◌+◌, ◌↔◌, false, true, length};
ghost use Rattle.foe_server.specs.Serving.{waiting_mails, is_message, IsOnly, GivesNext};

use crate::server::{FoeServer, PACKET_HEAD};
use crate::state::Pending;
use arrayvec::ArrayVec;
use file_store::Store;
use foe_codec::{FoeView, write_view};
use mailbox_mail::{Kind, Mail, error_mail};

impl FoeServer {
    /// Whether a mail waits.
    pub fn waiting(&self) -> bool
        ensures { result ≡ false ↔ (self.now.pending ≡ Pending.Nothing) }
    {
        match self.pending {
            Pending::Nothing => false,
            Pending::Packet { number: _, from: _ }
            | Pending::Ack { number: _ }
            | Pending::Busy { done: _, entire: _ }
            | Pending::Error { code: _ }
            | Pending::Failed { detail: _ } => true,
        }
    }

    // Writes a packet of the file: its head, and behind it the octets out of the store.
    fn write_packet(&self, store: &Store, number: u32, from: u32, body: &mut ArrayVec<u8, 1480>)
        requires { self.now.pending ≡ Pending.Packet number from }
        ensures only { IsOnly (waiting_mails self.now store.now) body.new.items }
        ensures short { length body.new.items + 6 ≤ self.now.back }
    {
        let most = self.back as usize - PACKET_HEAD;
        let head = FoeView::Data {
            packet: number,
            bytes: &[],
        };
        write_view(head, body);
        store.append_to(self.name.as_slice(), from as usize, most, body);
    }

    // Writes the message that waits, in place of what the body held.
    fn write_next(&self, store: &Store, body: &mut ArrayVec<u8, 1480>)
        requires { is_message self.now.pending ≡ true }
        ensures only { IsOnly (waiting_mails self.now store.now) body.new.items }
        ensures short { length body.new.items + 6 ≤ self.now.back }
    {
        match self.pending {
            Pending::Nothing | Pending::Failed { detail: _ } => unreachable!(),
            Pending::Packet { number, from } => self.write_packet(store, number, from, body),
            Pending::Ack { number } => write_view(FoeView::Ack { packet: number }, body),
            Pending::Busy { done, entire } => {
                let message = FoeView::Busy {
                    done: done as u16,
                    entire: entire as u16,
                };
                write_view(message, body);
            }
            Pending::Error { code } => write_view(FoeView::Error { code }, body),
        }
    }

    /// Gives the mail that waits, to nobody and not yet counted, in place of the mail that stood there. It fits the mailbox for answers. A
    /// packet of a file costs its octets.
    pub fn next_into(&mut self, store: &Store, mail: &mut Mail)
        requires { self.old.pending ≢ Pending.Nothing }
        ensures next { GivesNext self.old store.now mail.new self.new }
        ensures fits { length mail.new.body.items + 6 ≤ self.old.back }
    {
        if let Pending::Failed { detail } = self.pending {
            self.pending = Pending::Nothing;
            *mail = error_mail(detail);
            return;
        }
        mail.address = 0;
        mail.kind = Kind::FoE;
        mail.counter = 0;
        self.write_next(store, &mut mail.body);
        self.pending = Pending::Nothing;
    }

    /// Gives the mail that waits, to nobody and not yet counted. It fits the mailbox for answers. A packet of a file costs its octets.
    pub fn next(&mut self, store: &Store) -> Mail
        requires { self.old.pending ≢ Pending.Nothing }
        ensures next { GivesNext self.old store.now result self.new }
        ensures fits { length result.body.items + 6 ≤ self.old.back }
    {
        let mut mail = Mail {
            address: 0,
            kind: Kind::FoE,
            counter: 0,
            body: ArrayVec::new(),
        };
        self.next_into(store, &mut mail);
        mail
    }
}
