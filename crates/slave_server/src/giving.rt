ghost use Rattle.std.specs.Prelude.{◌≡◌, ◌≢◌, ◌≤◌, ◌+◌, true, [], Some, is_some, IsSome, length};
ghost use Rattle.slave_parts.specs.of_eoe_server.Serving.{waiting_mails, is_roomy, GivesNext};
ghost use Rattle.slave_node.specs.of_mailbox_mail.Mail.{error_of};
ghost use Rattle.slave_server.specs.Serving.{next_mail, rest};

use crate::server::SlaveServer;
use eoe_server::{Addresses, EoeServer};
use mailbox_mail::{Mail, error_mail};

impl SlaveServer {
    /// Whether a mail waits.
    pub(crate) fn has_mail(&self) -> bool
        ensures { result ≡ is_some (next_mail self.now) }
    {
        if self.failure.is_some() {
            return true;
        }
        if self.sdo.waiting() {
            return true;
        }
        if self.file.waiting() {
            return true;
        }
        if self.drive.waiting() {
            return true;
        }
        if self.ether.waiting() {
            return true;
        }
        false
    }

    /// Gives the next of the mails that wait, to nobody and not yet counted: replies, then what the slave sends of itself. Each fits the mailbox.
    pub(crate) fn give(&mut self) -> Mail
        requires { IsSome (next_mail self.old) }
        ensures given { next_mail self.old ≡ Some result }
        ensures rest { self.new ≡ rest self.old }
        ensures fits { length result.body.items + 6 ≤ self.old.profile.back }
    {
        if let Some(detail) = self.failure.take() {
            return error_mail(detail);
        }
        if self.sdo.waiting() {
            return self.sdo.next();
        }
        if self.file.waiting() {
            return self.file.next(&self.store);
        }
        if self.drive.waiting() {
            return self.drive.next();
        }
        self.ether.next(&self.addresses)
    }

    /// The same in place of the mail that stood there, so that a protocol's server writes its octets where they stay.
    pub(crate) fn give_into(&mut self, into: &mut Mail)
        requires { IsSome (next_mail self.old) }
        ensures given { next_mail self.old ≡ Some into.new }
        ensures rest { self.new ≡ rest self.old }
        ensures fits { length into.new.body.items + 6 ≤ self.old.profile.back }
    {
        if let Some(detail) = self.failure.take() {
            put_error(detail, into);
            return;
        }
        if self.sdo.waiting() {
            self.sdo.next_into(into);
            return;
        }
        if self.file.waiting() {
            self.file.next_into(&self.store, into);
            return;
        }
        if self.drive.waiting() {
            self.drive.next_into(into);
            return;
        }
        put_ether(&mut self.ether, &self.addresses, into);
    }
}

// A mailbox error, to nobody and not yet counted. It is made apart from the other mails, which then need no place for a whole one.
fn put_error(detail: u16, into: &mut Mail)
    ensures { into.new ≡ error_of detail }
{
    *into = error_mail(detail);
}

// The next mail of the EoE server, made apart for the same reason.
fn put_ether(ether: &mut EoeServer, addresses: &Addresses, into: &mut Mail)
    requires left { waiting_mails ether.old addresses.now.block.items ≢ [] }
    requires roomy { is_roomy ether.old.room addresses.now ≡ true }
    ensures next { GivesNext ether.old addresses.now.block.items into.new ether.new }
    ensures fits { length into.new.body.items + 6 ≤ ether.old.room }
    ensures same { ether.new ≡ record ether.old { answer = ether.new.answer; sending = ether.new.sending } }
{
    *into = ether.next(addresses);
}
