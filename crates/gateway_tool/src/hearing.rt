ghost use Rattle.std.specs.Prelude.{◌≡◌, ◌≤◌, ◌<◌, [], None, true, length, is_some, IfOk, OnErr};
ghost use Rattle.std.specs.Bool.{OnTrue, OnFalse};
ghost use Rattle.gateway_tool.specs.Rule.{Call};
ghost use Rattle.gateway_tool.specs.Told.{Told, told};
ghost use Rattle.gateway_tool.specs.Client.{left, awaits};
ghost use Rattle.gateway_tool.specs.Talk.{heard_by, HearsMail, passed_behind, taken_behind, is_done, Goes, HasHeard, WaitsSo, most_left};

use crate::gram::mail_in;
use crate::talk::Talk;
use ec_outside::{Heard, Port, PortErr};
use mailbox_mail::{Mail, Took};

// Whether a mail completed the reply.
fn is_done(took: Took) -> bool
    ensures { result ≡ is_done took }
{
    match took {
        Took::Done => true,
        Took::More | Took::Foreign => false,
    }
}

impl Talk {
    // The mail that was heard, where it is one of the station and has the counter of the last mail sent.
    fn heard(&self) -> Option<Mail>
        ensures { result ≡ heard_by self.now }
    {
        let mail = mail_in(self.gram.as_slice())?;
        if mail.address == self.station && mail.counter == self.counter {
            Some(mail)
        } else {
            None
        }
    }

    // What the datagram that was heard is to the client.
    fn hear(&mut self) -> Took
        requires none { left self.old.client [] ≡ [] }
        ensures hears { HearsMail result (heard_by self.old) self.old.client self.new.client }
        ensures few { length (left self.new.client []) ≤ 1 }
        ensures kept { self.new ≡ record self.old { client = self.new.client } }
    {
        match self.heard() {
            Some(mail) => self.client.take(&mail),
            None => Took::Foreign,
        }
    }

    // A datagram was taken, or passed over.
    fn count(&mut self, took: Took)
        requires passed { self.old.passed < 65536 }
        requires taken { self.old.taken < 65536 }
        ensures { self.new ≡ record self.old { passed = passed_behind took self.old.passed; taken = taken_behind took self.old.taken } }
    {
        match took {
            Took::Foreign => self.passed += 1,
            Took::More | Took::Done => {
                self.passed = 0;
                self.taken += 1;
            }
        }
    }

    /// Takes the datagram that was heard, or passes it over; whether the reply is complete.
    pub fn take(&mut self) -> bool
        requires none { left self.old.client [] ≡ [] }
        requires waits { awaits self.old.client [] ≡ None }
        requires passed { self.old.passed < 65536 }
        requires taken { self.old.taken < 65536 }
        ensures goes { (c : Call) (first now : Told) → HasHeard c first now self.old → Goes c first now self.new }
        ensures replied { is_some (awaits self.new.client []) ≡ result }
        ensures few { length (left self.new.client []) ≤ 1 }
        ensures quiet { 0 < self.new.passed → left self.new.client [] ≡ [] }
        ensures less { most_left self.new < most_left self.old }
    {
        let took = self.hear();
        self.count(took);
        is_done(took)
    }

    /// Waits for a datagram; `false` where none will come any more.
    pub fn wait<P: Port>(&mut self, port: &mut P) -> Result<bool, PortErr>
        ensures waits { (c : Call) (first : Told) → Goes c first (told P.heard P.sent P.over P.port_faults port.old) self.old → WaitsSo c first (told P.heard P.sent P.over P.port_faults port.new) self.new result }
        ensures kept { self.new ≡ record self.old { gram = self.new.gram } }
        ensures over { IfOk result (λ some. OnTrue some (P.over port.new ≡ P.over port.old)) }
        ensures ended { IfOk result (λ some. OnFalse some (P.over port.new ≡ true)) }
        ensures failed { OnErr result (P.over port.new ≡ P.over port.old) }
    {
        match port.wait(&mut self.gram) {
            Ok(Heard::From(_)) => Ok(true),
            Ok(Heard::Ended) => Ok(false),
            Ok(Heard::Quiet) => unreachable!(),
            Err(fault) => Err(fault),
        }
    }
}
