ghost use Rattle.std.specs.Prelude.{◌≡◌, ◌+◌, ◌≤◌, length, IfOk};
ghost use Rattle.coe_client.specs.of_mailbox_mail.Mail.{IsMail};
ghost use Rattle.coe_client.specs.of_mailbox_mail.declared.mail.Kind.TheVariants.{CoE};
ghost use Rattle.coe_client.specs.of_protocol_models.CoeOctets.{coe_mail_heard, mail_with};
ghost use Rattle.coe_law.specs.Mailboxes.{empty, counted, posted, lengths_of};

use ec_fields::{NoMemory, buffer_of};
use mailbox_mail::{Kind, Mail, next_counter, read, write};
use std::alloc::Global;
use std::marker::Model;

/// A mailbox of one direction: its area, and the counter of the last mail written there (ETG.1000.4, "Mailbox").
#[derive(Drop)]
pub struct Mailbox {
    area: Vec<u8>,
    counter: u8,
}

impl Model for Mailbox {
    ghost use Rattle.std.specs.Prelude.{◌≤◌};
    ghost use Rattle.coe_law.specs.Mailboxes.{Posted};

    ghost Value = { Posted };

    ghost view = { λ m. record { counter = m.counter; area = m.area.items } };

    ghost invariant = { λ m. m.counter ≤ 7 };
}

impl Mailbox {
    /// A mailbox of this length, into which no mail was written yet.
    pub fn new(alloc: Global, len: u16) -> Result<Mailbox, NoMemory>
        ensures { IfOk result (λ m. m ≡ empty len) }
    {
        Ok(Mailbox {
            area: vec![in alloc; 0; len as usize]?,
            counter: 0,
        })
    }

    /// Carries a mail to the other side: it is written into the area with the next counter, and read there.
    pub fn carry(&mut self, mail: Mail) -> Mail
        requires { 6 + length mail.body.items ≤ length self.old.area }
        ensures mail { result ≡ counted self.old mail }
        ensures area { self.new ≡ posted self.old mail }
        ensures read { IsMail self.new.area result }
        ensures len { length self.new.area ≡ length self.old.area }
    {
        let counter = next_counter(self.counter);
        self.counter = counter;
        let mail = Mail { counter, ..mail };
        let area = self.area.as_mut_slice();
        write(&mail, area);
        match read(area) {
            Ok(mail) => mail,
            Err(_) => unreachable!(),
        }
    }
}

/// The two mailboxes of a slave: the one that requests go through, and the one for answers.
#[derive(Drop)]
pub struct Mailboxes {
    outward: Mailbox,
    inward: Mailbox,
}

impl Model for Mailboxes {
    ghost use Rattle.coe_law.specs.Mailboxes.{Post};

    ghost Value = { Post };

    ghost view = { λ m. record { out = m.outward; back = m.inward } };
}

impl Mailboxes {
    /// Empty mailboxes of these lengths.
    pub fn new(alloc: Global, out_len: u16, in_len: u16) -> Result<Mailboxes, NoMemory>
        ensures made { IfOk result (λ m. m ≡ record { out = empty out_len; back = empty in_len }) }
        ensures lengths { IfOk result (λ m. lengths_of m ≡ record { out = out_len; back = in_len }) }
    {
        Ok(Mailboxes {
            outward: Mailbox::new(alloc, out_len)?,
            inward: Mailbox::new(alloc, in_len)?,
        })
    }

    /// A request of this body as the slave reads it, through the mailbox for requests.
    pub fn request(&mut self, body: &[u8]) -> Mail
        requires few { length body.now ≤ 1480 }
        requires fits { 6 + length body.now ≤ (lengths_of self.old).out }
        ensures mail { result ≡ counted self.old.out (mail_with CoE body.now) }
        ensures area { self.new ≡ record self.old { out = posted self.old.out (mail_with CoE body.now) } }
        ensures read { IsMail self.new.out.area result }
        ensures body { result.body.items ≡ body.now }
        ensures lengths { lengths_of self.new ≡ lengths_of self.old }
    {
        let mail = Mail {
            address: 0,
            kind: Kind::CoE,
            counter: 0,
            body: buffer_of(body),
        };
        self.outward.carry(mail)
    }

    /// An answer as the client reads it, through the mailbox for answers.
    pub fn answer(&mut self, mail: Mail) -> Mail
        requires { 6 + length mail.body.items ≤ (lengths_of self.old).back }
        ensures mail { result ≡ counted self.old.back mail }
        ensures area { self.new ≡ record self.old { back = posted self.old.back mail } }
        ensures read { IsMail self.new.back.area result }
        ensures heard { coe_mail_heard result ≡ coe_mail_heard mail }
        ensures lengths { lengths_of self.new ≡ lengths_of self.old }
    {
        self.inward.carry(mail)
    }
}
