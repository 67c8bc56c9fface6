ghost use Rattle.std.specs.Prelude.{◌≡◌, true};
ghost use Rattle.master_hand.specs.Shown.{is_answered, course_behind, heard_as};
ghost use Rattle.master_hand.specs.Talk.{is_handed};

use crate::clients::{Clients, Which};
use crate::course::Course;
use crate::found::{Brought, Found};
use crate::laying::Laying;
use crate::passed::Content;
use ec_fields::{NoMemory, Rows};
use mailbox_mail::{Kind, MailView, ReplyKind, Took};
use master_side::{Hand, Heard};
use segment_plan::Service;
use std::alloc::Global;

/// The newest service by mails of one slave, the one that is laid ready to follow it, and the slave's script.
#[derive(Drop)]
pub struct InHand {
    /// The clients, each with the service that it had last.
    pub clients: Clients,
    /// Whose service is the newest, and how far it has come.
    pub which: Which,
    pub course: Course,
    /// The script, and what is laid ready.
    pub laying: Laying,
    /// The mail that was taken last to be sent.
    pub held: Content,
    /// What the mail heard last brought.
    pub found: Found,
    pub ghost one_slave: { laying.areas ≡ clients.areas },
    pub ghost answered: { is_answered course which clients ≡ true },
}

impl InHand {
    ghost use Rattle.std.specs.Prelude.{◌≡◌, ◌≤◌, [], true, false, length, IfOk, None, All, if◌then◌else◌, ◌&&◌, not, is_some};
    ghost use Rattle.eoe_client.specs.of_mailbox_mail.View.{mail_seen};
    ghost use Rattle.segment_plan.specs.Sound.{IsService};
    ghost use Rattle.master_side.specs.Passing.{told_as, goes_on};
    ghost use Rattle.master_hand.specs.Spoken.{is_followed, hand_speech};
    ghost use Rattle.master_hand.specs.Passed.{body_of};
    ghost use Rattle.master_hand.specs.Talk.{client_awaits, client_later};
    ghost use Rattle.master_hand.specs.Over.{delivers, is_sent_by};
    ghost use Rattle.master_hand.specs.Brings.{emergency_kept};
    ghost use Rattle.master_hand.specs.Joins.{packet_kept};
    ghost use Rattle.master_hand.specs.Replied.{KeepsReply};
    ghost use Rattle.master_hand.specs.Shown.{Shows, is_awaiting, knows};
    ghost use Rattle.master_hand.specs.Hears.{awaits_in, HearsReply, KnowsReply};
    ghost use Rattle.master_hand.specs.declared.course.Course.{Course};
    ghost use Rattle.master_hand.specs.declared.laying.Laid.{Laid};

    /// No service came into hand yet. The hand owns the scripted services of its slave, in order, and takes all its memory here.
    pub fn new(
        alloc: Global,
        out_len: u16,
        in_len: u16,
        script: Rows<Service>,
    ) -> Result<InHand, NoMemory>
        requires out_least { 64 ≤ out_len }
        requires out_most { out_len ≤ 1486 }
        requires in_least { 64 ≤ in_len }
        requires in_most { in_len ≤ 1486 }
        requires sound { All IsService script }
        requires few { length script ≤ 4096 }
        ensures areas { IfOk result (λ h. h.clients.areas ≡ record { out = out_len; back = in_len }) }
        ensures shown { IfOk result (λ h. Shows h.course h.which h.clients (hand_speech (record { out = out_len; back = in_len })) None) }
        ensures script { IfOk result (λ h. (h.laying.script ≡ script) × (h.laying.number ≡ 0)) }
        ensures laid { IfOk result (λ h. h.laying.laid ≡ Laid.Nothing) }
        ensures join { IfOk result (λ h. h.found.join ≡ None) }
    {
        Ok(InHand {
            clients: Clients::new(alloc, out_len, in_len)?,
            which: Which::Coe,
            course: Course::Nothing,
            laying: Laying::new(out_len, in_len, script),
            held: Content::new(),
            found: Found::new(),
        })
    }

    // Whether mails of the newest service are left, or were when a part of its reply came.
    fn is_left(&self) -> bool
        requires { is_awaiting self.now.course ≡ true }
        ensures none { result ≡ false → (self.now.course ≡ Course.Goes) × (client_later self.now.which self.now.clients [] ≡ []) }
        ensures all { self.now.course ≡ Course.Goes → client_later self.now.which self.now.clients [] ≡ [] → result ≡ false }
    {
        match self.course {
            Course::Goes => self.clients.has_next(self.which),
            _ => true,
        }
    }

    // A mail that replies comes while the reply isn't complete.
    fn hear_reply(&mut self, mail: &MailView) -> Heard
        requires awaits { is_awaiting self.old.course ≡ true }
        requires short { length mail.now.body.now ≤ 1480 }
        ensures shown { HearsReply self.old self.new (body_of (mail_seen mail.now)) }
        ensures areas { self.new.clients.areas ≡ self.old.clients.areas }
        ensures laying { self.new.laying ≡ self.old.laying }
        ensures tells { awaits_in self.old ≡ true → result ≡ told_as false (is_followed (body_of (mail_seen mail.now))) }
        ensures awaits { awaits_in self.old ≡ true → goes_on result ≡ true → awaits_in self.new ≡ true }
        ensures found { emergency_kept self.old.found ≡ None → emergency_kept self.new.found ≡ None }
        ensures join { self.new.found.join ≡ self.old.found.join }
        ensures sure { knows self.new.course ≡ true → knows self.old.course ≡ true }
        ensures knows { KnowsReply self.old self.new (body_of (mail_seen mail.now)) }
        ensures packet { packet_kept self.old.found ≡ None → packet_kept self.new.found ≡ None }
        ensures reply { KeepsReply self.old.found self.new.found (awaits_in self.old) (mail_seen mail.now) }
    {
        let left = self.is_left();
        self.found.keep(mail);
        let took = self.clients.take(self.which, &self.found.mail);
        self.found.reply(self.which, took);
        self.course = course_behind(left, took);
        heard_of(took)
    }

    // Whether the newest service is over, where its reply is there or not.
    fn is_sent(&self, answered: bool, fresh: bool, idle: bool) -> bool
        ensures left { result ≡ true → client_later self.now.which self.now.clients [] ≡ [] }
        ensures done { result ≡ true → (if is_handed self.now.which && not answered then idle else answered && not fresh) ≡ true }
        ensures all { client_later self.now.which self.now.clients [] ≡ [] → (if is_handed self.now.which && not answered then idle else answered && not fresh) ≡ true → result ≡ true }
        ensures is { result ≡ is_sent_by answered self.now.which self.now.clients fresh idle }
    {
        if self.clients.has_next(self.which) {
            return false;
        }
        if is_handed(self.which) && !answered {
            idle
        } else {
            answered && !fresh
        }
    }

    // Whether the newest service, which has its answer, ends with an acknowledgement: a read that delivered its file does.
    fn is_delivered(&self) -> bool
        requires { is_some (client_awaits self.now.which self.now.clients []) ≡ true }
        ensures { result ≡ delivers self.now.which self.now.clients }
    {
        self.which == Which::ReadFile
            && matches!(self.clients.reply(self.which), Some(ReplyKind::Value))
    }
}

// Whether a service that has no answer ends with its last write.
fn is_handed(which: Which) -> bool
    ensures { result ≡ is_handed which }
{
    matches!(which, Which::Packet | Which::Passed)
}

// How far the newest service has come behind a mail that replies, by whether mails of its own were left.
fn course_behind(left: bool, took: Took) -> Course
    ensures { result ≡ course_behind left took }
{
    match (left, took) {
        (false, Took::More) => Course::Goes,
        (false, Took::Done) => Course::Answered,
        (true, Took::More) => Course::Mute,
        (true, Took::Done) => Course::Closed,
        (_, Took::Foreign) => Course::Astray,
    }
}

// What such a mail is to the service.
fn heard_of(took: Took) -> Heard
    ensures { result ≡ heard_as took }
{
    match took {
        Took::More => Heard::More,
        Took::Done => Heard::Last,
        Took::Foreign => Heard::Foreign,
    }
}

impl Hand for InHand {
    ghost use Rattle.master_hand.specs.Spoken.{Asked, acknowledged, is_followed, is_passed};
    ghost use Rattle.master_hand.specs.Passed.{mail_of};
    ghost use Rattle.master_hand.specs.Laying.{ready_of, Scripted, scripted, scripted_behind};
    ghost use Rattle.std.specs.Prelude.{Option, None};
    ghost use Rattle.eoe_client.specs.of_eoe.declared.joining.Unfinished.{Unfinished};
    ghost use Rattle.master_hand.specs.Brings.{Brings};
    ghost use Rattle.master_hand.specs.Joins.{unfinished_behind, Completes};
    ghost use Rattle.master_hand.specs.Replied.{Replies};
    ghost use Rattle.master_hand.specs.Shown.{Shows, is_passing, awaits_reply, knows};
    ghost use Rattle.master_hand.specs.Quiet.{quiet_shown};
    ghost use Rattle.master_hand.specs.Over.{over_by, done_by};

    ghost Asked = { Asked };

    ghost acknowledged = { acknowledged };

    ghost shows = { λ h x now. Shows h.course h.which h.clients x now };

    ghost room = { λ h. h.clients.areas.out };

    ghost ready = { λ h. ready_of h.laying };

    ghost taken = { λ h. mail_of h.held };

    ghost Script = { Scripted };

    ghost script = { λ h. scripted h.laying };

    ghost behind = { λ h. scripted_behind h.laying };

    ghost passed = { is_passed };

    ghost passes = { λ h. is_passing h.course h.which };

    ghost awaits = { λ h. awaits_reply h.course h.which h.clients };

    ghost more = { is_followed };

    ghost knows = { λ h. knows h.course };

    ghost over = { λ h fresh idle. over_by h.course h.which h.clients fresh idle };

    ghost done = { λ h idle. done_by h.course h.which h.clients idle };

    ghost brings = { λ h b. Brings h.found b };

    ghost replied = { λ h awaited b. Replies h.found awaited b };

    ghost Join = { Option Unfinished };

    ghost join = { λ h. h.found.join };

    ghost unjoined = { None };

    ghost joined = { unfinished_behind };

    ghost completed = { λ h before b. Completes h.found before b };

    ghost quiet = { λ h x frame now s. quiet_shown h.course h.which h.clients x frame now s };

    fn begin(&mut self) -> bool {
        match self.laying.begin(&mut self.clients) {
            None => false,
            Some(which) => {
                self.which = which;
                self.course = Course::Goes;
                true
            }
        }
    }

    fn take_next(&mut self) -> bool {
        match self.course {
            Course::Nothing | Course::Mute | Course::Closed | Course::Astray => false,
            Course::Goes | Course::Answered => self.clients.next_mail(self.which, &mut self.held),
        }
    }

    fn kind(&self) -> Kind {
        self.held.kind
    }

    fn body(&self) -> &[u8] {
        self.held.body.as_slice()
    }

    fn hear(&mut self, mail: &MailView) -> Heard {
        if self.found.hear(mail) {
            return Heard::Emission;
        }
        match self.course {
            Course::Nothing | Course::Closed | Course::Astray => Heard::Foreign,
            Course::Goes | Course::Mute => self.hear_reply(mail),
            Course::Answered => {
                self.course = Course::Closed;
                Heard::Foreign
            }
        }
    }

    fn is_over(&self, fresh: bool, idle: bool) -> bool {
        match self.course {
            Course::Nothing => true,
            Course::Goes => self.is_sent(false, fresh, idle),
            Course::Answered => self.is_sent(true, fresh, idle),
            Course::Mute | Course::Closed | Course::Astray => false,
        }
    }

    fn is_acknowledged(&self, idle: bool) -> bool {
        match self.course {
            Course::Nothing => true,
            Course::Goes => self.which != Which::ReadFile || idle,
            Course::Answered => !self.is_delivered() || idle,
            Course::Mute | Course::Closed | Course::Astray => idle,
        }
    }

    fn renew(&mut self) {
        self.course = Course::Nothing;
        self.laying.forget();
        self.found.renew();
    }

    fn is_passed(&self) -> bool {
        self.course != Course::Nothing && self.which == Which::Passed
    }
}
