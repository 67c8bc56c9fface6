ghost use Rattle.std.specs.Prelude.{◌≡◌, ◌≤◌, ◌<◌, ◌+◌, ◌++◌, suc, [], length, slice_get, IfSome, None, Some, option_map, true, OnOk, OnErr};
ghost use Rattle.std.specs.Option.{option_copied};
ghost use Rattle.master_hand.specs.Talk.{client_awaits, value_of, is_mail};
ghost use Rattle.master_hand.specs.Brings.{emergency_kept};
ghost use Rattle.master_hand.specs.Joins.{packet_kept};
ghost use Rattle.master_hand.specs.Replied.{reply_kept};
ghost use Rattle.master_hand.specs.Shown.{SameHand, has_reply};
ghost use Rattle.master_hand.specs.Hears.{AnswersSo, answer_kept};
ghost use Rattle.master_hand.specs.declared.laying.Laid.{Laid};

use crate::clients::Which;
use crate::course::Course;
use crate::found::Brought;
use crate::hand::InHand;
use arrayvec::ArrayVec;
use ec_fields::{NoMemory, Octets};
use eoe::Packet;
use mailbox_mail::{Mail, ReplyKind};
use segment_plan::Service;

impl InHand {
    /// The scripted service that comes next, a change of state too; `None` where none is left.
    pub fn scripted(&self) -> Option<&Service>
        ensures { option_copied result ≡ slice_get self.now.laying.script self.now.laying.number }
    {
        self.laying.next()
    }

    /// How many scripted services came into hand or were passed by: the number of the next.
    pub fn number(&self) -> u32
        ensures { result ≡ self.now.laying.number }
    {
        self.laying.number()
    }

    /// The next scripted service is a change of state, which another has in hand: the one behind it comes next.
    pub fn pass_by(&mut self)
        ensures kept { SameHand self.old.course self.old.which self.old.clients self.new.course self.new.which self.new.clients }
        ensures found { self.new.found ≡ self.old.found }
        ensures next { self.old.laying.number < length self.old.laying.script → self.new.laying ≡ record self.old.laying { number = suc self.old.laying.number } }
    {
        self.laying.pass_by();
    }

    /// The next scripted service, one by mails, is laid ready: `begin` then starts its client and counts it.
    pub fn lay_script(&mut self)
        ensures kept { SameHand self.old.course self.old.which self.old.clients self.new.course self.new.which self.new.clients }
        ensures found { self.new.found ≡ self.old.found }
        ensures laid { self.new.laying ≡ record self.old.laying { laid = Laid.Script } }
    {
        self.laying.lay_script();
    }

    /// A packet from the switch is laid ready. Its frame number is the next one, 0 to 15 in turn, which a reopening leaves.
    pub fn lay_packet(&mut self, packet: &Packet)
        requires { 14 ≤ length packet.now.items }
        ensures kept { SameHand self.old.course self.old.which self.old.clients self.new.course self.new.which self.new.clients }
        ensures found { self.new.found ≡ self.old.found }
        ensures laid { self.new.laying ≡ record self.old.laying { laid = Laid.Packet; packet = packet.now.items } }
    {
        self.laying.lay_packet(packet);
    }

    /// A mail that is passed on as it is is laid ready; its address and its counter don't go with it. It has to fit the slave's mailbox.
    pub fn lay_mail(&mut self, mail: &Mail)
        requires { 6 + length mail.now.body.items ≤ self.old.clients.areas.out }
        ensures kept { SameHand self.old.course self.old.which self.old.clients self.new.course self.new.which self.new.clients }
        ensures found { self.new.found ≡ self.old.found }
        ensures laid { self.new.laying ≡ record self.old.laying { laid = Laid.Mail; mail = record { kind = mail.now.kind; body = mail.now.body } } }
    {
        self.laying.lay_mail(mail.kind, mail.body.as_slice());
    }

    /// Whether the newest service is a packet.
    pub fn is_packet(&self) -> bool {
        self.course != Course::Nothing && self.which == Which::Packet
    }

    /// Whether the reply of the newest service is there.
    pub fn is_answered(&self) -> bool
        ensures { result ≡ has_reply self.now.course }
    {
        matches!(self.course, Course::Answered | Course::Closed)
    }

    /// The kind of the reply of the newest service, once its last mail was accepted; packets and mails that are passed on have none.
    pub fn answer(&self) -> Option<ReplyKind>
        ensures reply { IfSome result (λ kind. client_awaits self.now.which self.now.clients [] ≡ Some (Some (kind, value_of self.now.which self.now.clients))) }
        ensures told { IfSome result (λ kind. AnswersSo self.now kind) }
        ensures none { result ≡ None → has_reply self.now.course ≡ true → is_mail self.now.which ≡ true }
        ensures kept { result ≡ answer_kept self.now }
    {
        if !self.is_answered() {
            return None;
        }
        self.clients.reply(self.which)
    }

    /// Appends the value of that reply; it is empty where the reply has none. After `NoMemory` the list is as before.
    pub fn value(&self, into: &mut Octets) -> Result<(), NoMemory>
        ensures ok { OnOk result (has_reply self.now.course ≡ true → into.new ≡ into.old ++ value_of self.now.which self.now.clients) }
        ensures err { OnErr result (into.new ≡ into.old) }
    {
        if !self.is_answered() {
            return Ok(());
        }
        self.clients.value(self.which, into)
    }

    /// The mail heard last, where it was an emergency: its octets.
    pub fn emergency(&self) -> Option<&ArrayVec<u8, 8>>
        ensures { option_map (λ octets. octets.now.items) result ≡ emergency_kept self.now.found }
    {
        match self.found.brought {
            Brought::Emergency => Some(&self.found.emergency),
            Brought::Nothing | Brought::Packet | Brought::Reply => None,
        }
    }

    /// The packet that the fragment heard last has completed.
    pub fn packet(&self) -> Option<&Packet>
        ensures { option_map (λ packet. packet.now.items) result ≡ packet_kept self.now.found }
    {
        match self.found.brought {
            Brought::Packet => Some(&self.found.packet),
            Brought::Nothing | Brought::Emergency | Brought::Reply => None,
        }
    }

    /// The mail heard last, where it is a reply of a mail that is passed on.
    pub fn replied(&self) -> Option<&Mail>
        ensures { option_copied result ≡ reply_kept self.now.found }
    {
        match self.found.brought {
            Brought::Reply => Some(&self.found.mail),
            Brought::Nothing | Brought::Emergency | Brought::Packet => None,
        }
    }
}
