ghost use Rattle.std.specs.Prelude.{◌≡◌, ◌≤◌, List, [], None, length, IfOk};
ghost use Rattle.gateway_core.specs.of_mailbox_mail.declared.mail.Mail.{Mail as AMail};
ghost use Rattle.gateway_tool.specs.Rule.{IsForm, Call, Standing, at_first};
ghost use Rattle.gateway_tool.specs.Told.{Told, told};
ghost use Rattle.gateway_tool.specs.Client.{left, awaits};
ghost use Rattle.gateway_tool.specs.Talk.{Stands, Lays, Goes, SendsSo, EndsSo, forgiven};

use crate::client::Client;
use crate::gram::write_gram;
use crate::talk::Talk;
use arrayvec::ArrayVec;
use ec_fields::NoMemory;
use ec_outside::{Gram, Peer, Port, PortErr};
use mailbox_mail::{Mail, next_counter};
use segment_plan::Service;
use std::alloc::Global;

// A fault of the port is passed by, and want of memory isn't.
fn forgiven(sent: Result<(), PortErr>) -> Result<(), PortErr>
    ensures { result ≡ forgiven sent }
{
    match sent {
        Ok(()) => Ok(()),
        Err(PortErr::Failed) => Ok(()),
        Err(PortErr::NoMemory) => Err(PortErr::NoMemory),
    }
}

impl Talk {
    /// The service begins: nothing was sent yet.
    pub fn begin(
        alloc: Global,
        station: u16,
        out_len: u16,
        in_len: u16,
        service: &Service,
        to: Peer,
    ) -> Result<Talk, NoMemory>
        requires out_least { 64 ≤ out_len }
        requires out_most { out_len ≤ 1486 }
        requires in_least { 64 ≤ in_len }
        requires in_most { in_len ≤ 1486 }
        requires form { IsForm service.now }
        ensures stands { IfOk result (Stands (record { areas = record { out = out_len; back = in_len }; service = service.now; station = station; to = to }) at_first []) }
        ensures few { IfOk result (λ t. length (left t.client []) ≤ 1) }
        ensures waits { IfOk result (λ t. awaits t.client [] ≡ None) }
        ensures fresh { IfOk result (λ t. t.passed ≡ 0) }
    {
        Ok(Talk {
            client: Client::begin(alloc, out_len, in_len, service)?,
            station,
            to,
            counter: 0,
            taken: 0,
            passed: 0,
            gram: Gram::new(),
        })
    }

    // Makes the datagram of the next mail. `false` where none may go now.
    fn lay_next(&mut self) -> bool
        requires few { length (left self.old.client []) ≤ 1 }
        ensures lays { (c : Call) (s : Standing) (told : List AMail) → Stands c s told self.old → Lays result c s told self.new }
        ensures none { left self.new.client [] ≡ [] }
        ensures replies { awaits self.new.client [] ≡ awaits self.old.client [] }
        ensures kept { (self.new.passed ≡ self.old.passed) × (self.new.taken ≡ self.old.taken) × (self.new.to ≡ self.old.to) }
    {
        let mut mail = Mail {
            address: self.station,
            kind: self.client.kind(),
            counter: next_counter(self.counter),
            body: ArrayVec::new(),
        };
        if !self.client.next_mail(&mut mail.body) {
            return false;
        }
        self.counter = mail.counter;
        write_gram(&mail, &mut self.gram);
        true
    }

    /// Sends the next mail, where one may go now.
    pub fn send<P: Port>(&mut self, port: &mut P) -> Result<(), PortErr>
        requires few { length (left self.old.client []) ≤ 1 }
        ensures sends { (c : Call) (first : Told) → Goes c first (told P.heard P.sent P.over P.port_faults port.old) self.old → SendsSo c first (told P.heard P.sent P.over P.port_faults port.new) self.new result }
        ensures none { left self.new.client [] ≡ [] }
        ensures replies { awaits self.new.client [] ≡ awaits self.old.client [] }
        ensures kept { (self.new.passed ≡ self.old.passed) × (self.new.taken ≡ self.old.taken) }
        ensures over { P.over port.new ≡ P.over port.old }
    {
        if !self.lay_next() {
            return Ok(());
        }
        port.send(self.to, self.gram.as_slice())
    }

    /// Sends what is left behind a reply, the acknowledgement of a file's last packet: the reply stands where the port fails.
    pub fn acknowledge<P: Port>(&mut self, port: &mut P) -> Result<(), PortErr>
        requires few { length (left self.old.client []) ≤ 1 }
        ensures ends { (c : Call) (first : Told) → Goes c first (told P.heard P.sent P.over P.port_faults port.old) self.old → EndsSo c first (told P.heard P.sent P.over P.port_faults port.new) self.new result }
        ensures none { left self.new.client [] ≡ [] }
        ensures replies { awaits self.new.client [] ≡ awaits self.old.client [] }
        ensures over { P.over port.new ≡ P.over port.old }
        ensures memory { result ≡ Err PortErr.Failed → ⊥ }
    {
        let sent = self.send(port);
        forgiven(sent)
    }
}
