//! What the newest service by mails of a slave has to offer.

ghost use Rattle.std.specs.Prelude.{◌≡◌};

use mailbox_mail::{Kind, MailView};

/// What a mail that was accepted is to the service in hand.
#[derive(Clone, Copy)]
pub enum Heard {
    /// It replies to nothing: an emergency or a fragment of a packet.
    Emission,
    /// A reply, and the service awaits more of it.
    More,
    /// The last reply.
    Last,
    /// A mail that the service does not await: nothing more is known of it.
    Foreign,
}

/// The newest service by mails of a slave, and the one that is laid ready to follow it. What it shows of its
/// row has mails in it that nobody keeps, so that is a relation; the speech of the slave's client is part of it.
pub trait Hand {
    ghost use Rattle.std.specs.Prelude.{◌≡◌, ◌≤◌, ◌+◌, ℕ, List, [], ◌∷◌, Bool, true, false, Option, Some, None, Ok, option_map, is_some, length, if◌then◌else◌};
    ghost use Rattle.master_duty.specs.of_mailbox_mail.declared.mail.Mail.{Mail};
    ghost use Rattle.master_duty.specs.of_mailbox_mail.View.{mail_seen};
    ghost use Rattle.frame_view.specs.of_exchange_model.Exchange.{Speech};
    ghost use Rattle.frame_view.specs.of_exchange_model.Rows.{Row, begun, row_heard};
    ghost use Rattle.mailbox_master.specs.of_link_mails.Body.{Body, uncounted};
    ghost use Rattle.master_duty.specs.of_segment_model.Seats.{Side, next_mail};
    ghost use Rattle.master_duty.specs.of_state_model.Accounts.{is_free, is_acknowledged};
    ghost use Rattle.master_duty.specs.Reply.{Reply};
    ghost use Rattle.master_side.specs.Due.{IsDue};
    ghost use Rattle.master_side.specs.Fits.{Tells};
    ghost use Rattle.master_side.specs.Passing.{told_as, goes_on};

    ghost Asked: { Type 0 };

    ghost acknowledged: { Asked → Bool };

    ghost shows: { Self → Speech Body Asked Reply → Option (Row Body Asked Reply) → Type 0 };

    ghost room: { Self → ℕ };

    ghost ready: { Self → Option Asked };

    ghost taken: { Self → Mail };

    // What is left of what it was given to ask, and that once the service that was laid ready has come into hand.
    ghost Script: { Type 0 };

    ghost script: { Self → Script };

    ghost behind: { Self → Script };

    // A service that passes a mail on, and a hand whose newest service does.
    ghost passed: { Asked → Bool };

    ghost passes: { Self → Bool };

    // Its last reply was not heard yet; and a reply that is not the last.
    ghost awaits: { Self → Bool };

    ghost more: { Body → Bool };

    // It knows which mails are left of its newest service: no reply came that was not due.
    ghost knows: { Self → Bool };

    // Its newest service is over, by whether the mail held was not yet sent and whether none is; and the write of its last acknowledgement is done.
    ghost over: { Self → Bool → Bool → Bool };

    ghost done: { Self → Bool → Bool };

    // What the mail that was heard last brought beside a reply of the service in hand.
    ghost brings: { Self → Body → Type 0 };

    // What is kept of that mail to be handed on, by whether a reply of a mail that is passed on was awaited before it.
    ghost replied: { Self → Bool → Body → Type 0 };

    // What of a packet is under way: in a hand, before all mails, and behind a mail.
    ghost Join: { Type 0 };

    ghost join: { Self → Join };

    ghost unjoined: { Join };

    ghost joined: { Join → Body → Join };

    // What the mail that was heard last has completed of it.
    ghost completed: { Self → Join → Body → Type 0 };

    /// The service that was laid ready comes into hand in place of the one before: whether there was one.
    fn begin(&mut self) -> bool
        ensures did { result ≡ is_some (ready self.old) }
        ensures begun { (x : Speech Body Asked Reply) (now : Option (Row Body Asked Reply)) (q : Asked) (frame : ℕ) → shows self.old x now → ready self.old ≡ Some q → (x.valid q ≡ true) × shows self.new x (Some (begun q frame)) }
        ensures none { (x : Speech Body Asked Reply) (now : Option (Row Body Asked Reply)) → shows self.old x now → ready self.old ≡ None → shows self.new x now }
        ensures script { script self.new ≡ (if result then behind self.old else script self.old) }
        ensures passes { (q : Asked) → ready self.old ≡ Some q → passes self.new ≡ passed q }
        ensures awaits { (q : Asked) → ready self.old ≡ Some q → passed q ≡ true → awaits self.new ≡ true }
        ensures knows { knows self.new ≡ (if result then true else knows self.old) }
        ensures join { join self.new ≡ join self.old }
        ensures room { room self.new ≡ room self.old };

    /// The mail that goes next, if there is one, is taken to be held; `kind` and `body` are its parts. Its address is 0, as
    /// on a segment.
    fn take_next(&mut self) -> bool
        ensures local { result ≡ true → (taken self.new).address ≡ 0 }
        ensures fits { result ≡ true → 6 + length (taken self.new).body.items ≤ room self.old }
        ensures held { (x : Speech Body Asked Reply) (now : Option (Row Body Asked Reply)) → shows self.old x now → Tells result (taken self.new) x now (shows self.new x) }
        ensures awaits { awaits self.old ≡ true → awaits self.new ≡ true }
        ensures rest { result ≡ false → knows self.new ≡ true → (x : Speech Body Asked Reply) (now : Option (Row Body Asked Reply)) → shows self.new x now → next_mail x now None true ≡ [] }
        ensures knows { knows self.new ≡ knows self.old }
        ensures script { script self.new ≡ script self.old }
        ensures join { join self.new ≡ join self.old }
        ensures room { room self.new ≡ room self.old };

    /// The kind of the mail that was taken last.
    fn kind(&self) -> Kind
        ensures { result ≡ (taken self.now).kind };

    /// Its body.
    fn body(&self) -> &[u8]
        ensures { result.now ≡ (taken self.now).body.items };

    /// A mail was accepted; a body has at most 1,480 octets.
    fn hear(&mut self, mail: &MailView) -> Heard
        requires { length mail.now.body.now ≤ 1480 }
        ensures shown { (x : Speech Body Asked Reply) (frame : ℕ) (now : Option (Row Body Asked Reply)) → shows self.old x now → shows self.new x (option_map (λ r. row_heard x frame (Ok (uncounted (mail_seen mail.now)) ∷ []) r) now) }
        ensures tells { (x : Speech Body Asked Reply) (now : Option (Row Body Asked Reply)) → shows self.old x now → awaits self.old ≡ true → (let b = Ok (uncounted (mail_seen mail.now)) in result ≡ told_as (x.emission b) (more b)) }
        ensures awaits { awaits self.old ≡ true → goes_on result ≡ true → awaits self.new ≡ true }
        ensures knows { (x : Speech Body Asked Reply) (now : Option (Row Body Asked Reply)) → shows self.old x now → knows self.old ≡ true → IsDue x now (Ok (uncounted (mail_seen mail.now))) → knows self.new ≡ true }
        ensures sure { knows self.new ≡ true → knows self.old ≡ true }
        ensures brings { brings self.new (Ok (uncounted (mail_seen mail.now))) }
        ensures replied { replied self.new (awaits self.old) (Ok (uncounted (mail_seen mail.now))) }
        ensures join { join self.new ≡ joined (join self.old) (Ok (uncounted (mail_seen mail.now))) }
        ensures completed { completed self.new (join self.old) (Ok (uncounted (mail_seen mail.now))) }
        ensures script { script self.new ≡ script self.old }
        ensures room { room self.new ≡ room self.old };

    /// Whether the newest service is over: the mail held was sent (`fresh` is false), or none is held (`idle`).
    fn is_over(&self, fresh: bool, idle: bool) -> bool
        ensures free { (x : Speech Body Asked Reply) (d : Side Body Asked Reply) → result ≡ true → d.fresh ≡ fresh → (idle ≡ true → d.halves.out.holding ≡ None) → shows self.now x d.now → is_free x d d.now ≡ true }
        ensures over { (x : Speech Body Asked Reply) (d : Side Body Asked Reply) → knows self.now ≡ true → d.fresh ≡ fresh → (d.halves.out.holding ≡ None → idle ≡ true) → shows self.now x d.now → is_free x d d.now ≡ true → result ≡ true }
        ensures knows { result ≡ true → knows self.now ≡ true }
        ensures is { result ≡ over self.now fresh idle };

    /// Whether the write of its last mail is done, where that mail is an acknowledgement.
    fn is_acknowledged(&self, idle: bool) -> bool
        ensures done { (x : Speech Body Asked Reply) (d : Side Body Asked Reply) → result ≡ true → (idle ≡ true → d.halves.out.holding ≡ None) → shows self.now x d.now → is_acknowledged x acknowledged d d.now ≡ true }
        ensures sure { (x : Speech Body Asked Reply) (d : Side Body Asked Reply) → knows self.now ≡ true → (d.halves.out.holding ≡ None → idle ≡ true) → shows self.now x d.now → is_acknowledged x acknowledged d d.now ≡ true → result ≡ true }
        ensures is { result ≡ done self.now idle };

    /// The newest service is forgotten, and the one that was laid ready: the slave is opened anew.
    fn renew(&mut self)
        ensures shown { (x : Speech Body Asked Reply) (now : Option (Row Body Asked Reply)) → shows self.old x now → shows self.new x None }
        ensures script { script self.new ≡ script self.old }
        ensures join { join self.new ≡ unjoined }
        ensures knows { knows self.new ≡ true }
        ensures room { room self.new ≡ room self.old };

    /// Whether the newest service is a mail that is passed on as it is.
    fn is_passed(&self) -> bool
        ensures { result ≡ passes self.now };

    ghost quiet: { (h : Self) (x : Speech Body Asked Reply) (frame : ℕ) (now : Option (Row Body Asked Reply)) → shows h x now → shows h x (option_map (λ r. row_heard x frame [] r) now) };
}
