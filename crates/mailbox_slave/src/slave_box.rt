//! The box: what a slave keeps of its mails beside its registers.

ghost use Rattle.std.specs.Prelude.{◌≡◌, ℕ, MatchOption, ◌+◌, ◌≤◌, None, Some, true, false, is_some, IsSome, length, option_map};
ghost use Rattle.std.specs.Option.{ForSome};
ghost use Rattle.link_mails.specs.of_link_model.Counters.{next_counter};
ghost use Rattle.esc_registers.specs.of_mailbox_mail.Mail.{mail_read};
ghost use Rattle.link_mails.specs.of_link_model.Slave.{noticed, repeated, looked, node_take, node_offer, node_serve, processor_step};
ghost use Rattle.link_mails.specs.Body.{counted_as, link_mail, link_read};
ghost use Rattle.mailbox_slave.specs.Kept.{IsCounted, FitsArea, KeptFits, is_at_rest};
ghost use Rattle.mailbox_slave.specs.Registers.{in_box, in_len, acknowledge_of, ChangesIn, ChangesOut, ChangesBoxes};
ghost use Rattle.esc_registers.specs.of_mailbox_mail.Area.{mail_area};
ghost use Rattle.mailbox_slave.specs.Node.{in_side, node_of, server_of, IsSpelled};
ghost use Rattle.mailbox_slave.specs.Exact.{with_mail, kept_noticed, last_repeated, boxes_looked, mail_served, mail_offered, slave_served, slave_stepped};

use crate::server::Server;
use esc_registers::Esc;
use link_mails::{is_repeat, next_counter};
use mailbox_mail::{Mail, MailFault, error_mail, read_into, view};
use std::marker::Model;

/// What a slave keeps of its mails: which was taken last, and which it may have to offer again. The
/// last mail read and the newest one stand in two places that change their parts: no mail is moved.
#[derive(Drop)]
pub struct SlaveBox {
    last_taken: u8,
    newest: u8,
    again: bool,
    turned: bool,
    has_read: bool,
    is_fresh: bool,
    is_withdrawn: bool,
    first: Mail,
    second: Mail,
    inbox: Result<Mail, MailFault>,
}

impl Model for SlaveBox {
    ghost use Rattle.std.specs.Prelude.{◌≡◌, ◌&&◌, false};
    ghost use Rattle.mailbox_slave.specs.Kept.{Kept, IsSound, kept_of};

    ghost Value = { Kept };

    ghost view = { λ b. kept_of b.last_taken b.newest b.again b.turned b.has_read b.is_fresh b.is_withdrawn b.first b.second };

    ghost invariant = { λ b. IsSound (kept_of b.last_taken b.newest b.again b.turned b.has_read b.is_fresh b.is_withdrawn b.first b.second) × ((b.is_fresh && b.is_withdrawn) ≡ false) };
}

impl SlaveBox {
    /// The box at the end of bring-up: no mail was taken or offered yet.
    pub fn new() -> SlaveBox
        ensures { result ≡ record { last_taken = 0; newest = 0; again = false; last_read = None; fresh = None; withdrawn = None } }
    {
        SlaveBox {
            last_taken: 0,
            newest: 0,
            again: false,
            turned: false,
            has_read: false,
            is_fresh: false,
            is_withdrawn: false,
            first: error_mail(0),
            second: error_mail(0),
            inbox: Err(MailFault::Short),
        }
    }

    /// Steps 1 and 2: a mail offered that is gone from mailbox 1 was read; and a repeat request that
    /// is not yet acknowledged is answered: the last read mail is offered again, a new one that
    /// stands unread is withdrawn, and the request is acknowledged.
    pub fn look(&mut self, esc: &mut Esc)
        requires { KeptFits (in_len esc.old) self.old }
        ensures exact { record { kept = self.new; registers = esc.new } ≡ boxes_looked self.old esc.old }
        ensures side { in_side self.new esc.new ≡ looked (in_side self.old esc.old) }
        ensures spelled { IsSpelled self.old esc.old → IsSpelled self.new esc.new }
        ensures last_taken { self.new.last_taken ≡ self.old.last_taken }
        ensures registers { ChangesIn esc.old esc.new }
        ensures kept { KeptFits (in_len esc.new) self.new }
    {
        self.notice(esc);
        if esc.repeat_asked() {
            self.repeat(esc);
            esc.acknowledge();
        }
    }

    // Step 1.
    fn notice(&mut self, esc: &Esc)
        ensures exact { self.new ≡ kept_noticed self.old esc.now.in_manager.full }
        ensures side { in_side self.new esc.now ≡ (let s = in_side self.old esc.now in noticed s s.box s.offered) }
        ensures spelled { IsSpelled self.old esc.now → IsSpelled self.new esc.now }
        ensures last_taken { self.new.last_taken ≡ self.old.last_taken }
        ensures kept { (len : ℕ) → KeptFits len self.old → KeptFits len self.new }
    {
        if esc.in_full() {
            return;
        }
        if self.is_fresh {
            self.turned = !self.turned;
            self.has_read = true;
            self.is_fresh = false;
        } else {
            self.again = false;
        }
    }

    // The last read mail is offered again, unless it stands already.
    fn repeat(&mut self, esc: &mut Esc)
        requires { KeptFits (in_len esc.old) self.old }
        ensures exact { record { kept = self.new; registers = esc.new } ≡ last_repeated self.old esc.old self.old.last_read }
        ensures side { in_side self.new esc.new ≡ (let s = in_side self.old esc.old in repeated s s.last_read) }
        ensures spelled { IsSpelled self.old esc.old → IsSpelled self.new esc.new }
        ensures last_taken { self.new.last_taken ≡ self.old.last_taken }
        ensures registers { ChangesIn esc.old esc.new }
        ensures kept { KeptFits (in_len esc.new) self.new }
    {
        if self.again || !self.has_read {
            return;
        }
        let mail = if self.turned {
            &self.second
        } else {
            &self.first
        };
        place(esc, mail);
        self.again = true;
        if self.is_fresh {
            self.is_withdrawn = true;
            self.is_fresh = false;
        }
    }

    /// Steps 4 and 5: a mail in mailbox 0 that is the last one taken is removed; any other is taken,
    /// where mailbox 1 is empty, no mail is withdrawn and the server has nothing waiting. Then,
    /// where mailbox 1 is empty, the withdrawn mail is offered, or else the server's next one.
    pub fn serve<S: Server>(&mut self, esc: &mut Esc, server: &mut S, al: u8)
        requires ready { S.ready server.old }
        requires room { S.room server.old + 6 ≤ in_len esc.old }
        requires kept { KeptFits (in_len esc.old) self.old }
        ensures exact { record { kept = self.new; registers = esc.new; server = server.new } ≡ slave_served S.taken S.next_mail S.rest al self.old esc.old server.old }
        ensures node { node_of self.new esc.new server.new ≡ node_serve (server_of S.taken S.next_mail S.rest al) (node_of self.old esc.old server.old) }
        ensures spelled { IsSpelled self.old esc.old → IsSpelled self.new esc.new }
        ensures registers { ChangesBoxes esc.old esc.new }
        ensures kept { KeptFits (in_len esc.new) self.new }
        ensures room { S.room server.new ≡ S.room server.old }
    {
        self.take(esc, server, al);
        self.offer(esc, server);
    }

    /// A step of the processor: [`look`](SlaveBox::look), and then [`serve`](SlaveBox::serve).
    pub fn step<S: Server>(&mut self, esc: &mut Esc, server: &mut S, al: u8)
        requires ready { S.ready server.old }
        requires room { S.room server.old + 6 ≤ in_len esc.old }
        requires kept { KeptFits (in_len esc.old) self.old }
        ensures exact { record { kept = self.new; registers = esc.new; server = server.new } ≡ slave_stepped S.taken S.next_mail S.rest al self.old esc.old server.old }
        ensures node { node_of self.new esc.new server.new ≡ processor_step (server_of S.taken S.next_mail S.rest al) (node_of self.old esc.old server.old) }
        ensures spelled { IsSpelled self.old esc.old → IsSpelled self.new esc.new }
        ensures registers { ChangesBoxes esc.old esc.new }
        ensures kept { KeptFits (in_len esc.new) self.new }
        ensures room { S.room server.new ≡ S.room server.old }
    {
        self.look(esc);
        self.serve(esc, server, al);
    }

    /// Whether no mail is offered unread, and none is withdrawn.
    pub fn at_rest(&self) -> bool
        ensures { result ≡ is_at_rest self.now }
    {
        !self.again && !self.is_fresh && !self.is_withdrawn
    }

    // Step 4.
    fn take<S: Server>(&mut self, esc: &mut Esc, server: &mut S, al: u8)
        requires { S.ready server.old }
        ensures exact { record { kept = self.new; registers = esc.new; server = server.new } ≡ mail_served S.taken S.next_mail al self.old esc.old server.old }
        ensures node { node_of self.new esc.new server.new ≡ node_take (server_of S.taken S.next_mail S.rest al) (node_of self.old esc.old server.old) }
        ensures spelled { IsSpelled self.old esc.old → IsSpelled self.new esc.new }
        ensures own { self.new ≡ record self.old { last_taken = self.new.last_taken } }
        ensures registers { ChangesOut esc.old esc.new }
        ensures room { S.room server.new ≡ S.room server.old }
    {
        let Some(counter) = counter_in(esc) else {
            return;
        };
        if is_repeat(self.last_taken, counter) {
            esc.release_out();
        } else if !esc.in_full() && !self.is_withdrawn && !server.waiting() {
            read_box(esc, &mut self.inbox);
            server.take(&self.inbox, al);
            self.last_taken = counter;
            esc.release_out();
        }
    }

    // Step 5.
    fn offer<S: Server>(&mut self, esc: &mut Esc, server: &mut S)
        requires room { S.room server.old + 6 ≤ in_len esc.old }
        requires kept { KeptFits (in_len esc.old) self.old }
        ensures exact { record { kept = self.new; registers = esc.new; server = server.new } ≡ mail_offered S.next_mail S.rest self.old esc.old server.old }
        ensures node { (al : ℕ) → node_of self.new esc.new server.new ≡ node_offer (server_of S.taken S.next_mail S.rest al) (node_of self.old esc.old server.old) }
        ensures spelled { IsSpelled self.old esc.old → IsSpelled self.new esc.new }
        ensures registers { ChangesIn esc.old esc.new }
        ensures kept { KeptFits (in_len esc.new) self.new }
        ensures room { S.room server.new ≡ S.room server.old }
    {
        if esc.in_full() {
            return;
        }
        if self.is_withdrawn {
            self.put_back(esc);
        } else if server.waiting() {
            self.put_next(esc, server);
        }
    }

    // Offers the withdrawn mail.
    fn put_back(&mut self, esc: &mut Esc)
        requires some { IsSome self.old.withdrawn }
        requires kept { KeptFits (in_len esc.old) self.old }
        ensures own { self.new ≡ record self.old { again = false; fresh = self.old.withdrawn; withdrawn = None } }
        ensures exact { Some esc.new ≡ option_map (with_mail esc.old) self.old.withdrawn }
        ensures mail { in_box esc.new ≡ option_map link_mail self.old.withdrawn }
        ensures len { in_len esc.new ≡ in_len esc.old }
    {
        if self.turned {
            place(esc, &self.first);
        } else {
            place(esc, &self.second);
        }
        self.again = false;
        self.is_withdrawn = false;
        self.is_fresh = true;
    }

    // Offers the server's next mail.
    fn put_next<S: Server>(&mut self, esc: &mut Esc, server: &mut S)
        requires some { IsSome (S.next_mail server.old) }
        requires none { self.old.withdrawn ≡ None }
        requires room { S.room server.old + 6 ≤ in_len esc.old }
        ensures own { self.new ≡ record self.old { newest = next_counter self.old.newest; again = false; fresh = option_map (counted_as (next_counter self.old.newest)) (S.next_mail server.old) } }
        ensures exact { Some esc.new ≡ option_map (λ m. with_mail esc.old (counted_as (next_counter self.old.newest) m)) (S.next_mail server.old) }
        ensures mail { in_box esc.new ≡ option_map (λ m. link_mail (counted_as (next_counter self.old.newest) m)) (S.next_mail server.old) }
        ensures len { in_len esc.new ≡ in_len esc.old }
        ensures fits { ForSome self.new.fresh (FitsArea (in_len esc.old)) }
        ensures server { server.new ≡ S.rest server.old }
        ensures room { S.room server.new ≡ S.room server.old }
    {
        let counter = next_counter(self.newest);
        if self.turned {
            draw(server, &mut self.first, counter);
            place(esc, &self.first);
        } else {
            draw(server, &mut self.second, counter);
            place(esc, &self.second);
        }
        self.newest = counter;
        self.again = false;
        self.is_fresh = true;
    }
}

// Draws the server's next mail into a place, with this counter.
fn draw<S: Server>(server: &mut S, into: &mut Mail, counter: u8)
    requires { IsSome (S.next_mail server.old) }
    ensures mail { option_map (counted_as counter) (S.next_mail server.old) ≡ Some into.new }
    ensures counter { into.new.counter ≡ counter }
    ensures server { server.new ≡ S.rest server.old }
    ensures fits { length into.new.body.items ≤ S.room server.old }
    ensures room { S.room server.new ≡ S.room server.old }
{
    server.next_into(into);
    into.counter = counter;
}

// The counter of the mail in mailbox 0, 0 of one that does not read.
fn counter_in(esc: &Esc) -> Option<u8>
    ensures { MatchOption result (esc.now.out_manager.full ≡ false) (λ counter. (esc.now.out_manager.full ≡ true) × (counter ≡ (link_read (mail_read esc.now.out_manager.area)).counter)) }
{
    match esc.out_area() {
        None => None,
        Some(area) => Some(counter_of(area)),
    }
}

fn counter_of(area: &[u8]) -> u8
    ensures value { result ≡ (link_read (mail_read area.now)).counter }
{
    match view(area) {
        Ok(mail) => mail.counter,
        Err(_) => 0,
    }
}

// The mail in mailbox 0, or the fault with which it does not read.
fn read_box(esc: &Esc, into: &mut Result<Mail, MailFault>)
    requires { esc.now.out_manager.full ≡ true }
    ensures { into.new ≡ mail_read esc.now.out_manager.area }
{
    match esc.out_area() {
        None => {}
        Some(area) => read_into(area, into),
    }
}

// Puts a mail into mailbox 1.
fn place(esc: &mut Esc, mail: &Mail)
    requires counted { IsCounted mail.now }
    requires fits { FitsArea (in_len esc.old) mail.now }
    ensures exact { esc.new ≡ with_mail esc.old mail.now }
    ensures mail { in_box esc.new ≡ Some (link_mail mail.now) }
    ensures len { in_len esc.new ≡ in_len esc.old }
{
    let _addressed = mail.address;
    let _length = mail.body.len();
    esc.place_in(mail);
}
