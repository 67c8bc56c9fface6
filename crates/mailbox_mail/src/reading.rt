ghost use Rattle.std.specs.Prelude.{◌≡◌, ◌≤◌, length, IfOk, MatchResult};
ghost use Rattle.mailbox_mail.specs.Mail.{IsMail, mail_read, fault_of};
ghost use Rattle.mailbox_mail.specs.View.{seen, mail_seen};

use crate::mail::{BODY, HEADER, Kind, Mail, MailFault, MailView};
use ec_fields::{buffer_of, refill, u16_at};

/// The mail at the head of an area as it stands there, as [`read`] reads it. Nothing is copied.
pub fn view(area: &[u8]) -> Result<MailView<'_>, MailFault>
    ensures mail { seen result ≡ mail_read area.now }
    ensures within { IfOk result (λ v. length v.body.now ≤ 1480) }
{
    if area.len() < HEADER {
        return Err(MailFault::Short);
    }
    let len = u16_at(area, 0) as usize;
    if len > area.len() - HEADER || len > BODY {
        return Err(MailFault::LengthPastArea);
    }
    let marks = area[5];
    match Kind::of_code(marks % 16) {
        None => Err(MailFault::UnknownKind),
        Some(kind) => Ok(MailView {
            address: u16_at(area, 2),
            kind,
            counter: marks / 16 % 8,
            body: &area[HEADER..HEADER + len],
        }),
    }
}

/// The same as [`read`], into a place that is kept: where a mail stands there, only the body's octets
/// are moved.
pub fn read_into(area: &[u8], into: &mut Result<Mail, MailFault>)
    ensures { into.new ≡ mail_read area.now }
{
    match view(area) {
        Err(fault) => *into = Err(fault),
        Ok(found) => match into {
            Ok(mail) => {
                mail.address = found.address;
                mail.kind = found.kind;
                mail.counter = found.counter;
                refill(&mut mail.body, found.body);
            }
            Err(_) => *into = Ok(mail_of(found)),
        },
    }
}

/// The mail by itself: its body is copied.
pub fn mail_of(mail: MailView<'_>) -> Mail
    requires { length mail.body.now ≤ 1480 }
    ensures { result ≡ mail_seen mail.entry }
{
    Mail {
        address: mail.address,
        kind: mail.kind,
        counter: mail.counter,
        body: buffer_of(mail.body),
    }
}

// The parts are judged in the order of the faults.
fn read_parts(area: &[u8]) -> Result<Mail, MailFault>
    ensures { result ≡ mail_read area.now }
{
    match view(area) {
        Err(fault) => Err(fault),
        Ok(found) => Ok(mail_of(found)),
    }
}

/// Reads the mail at the head of an area (ETG.1000.4, "Mailbox header"). Channel, priority, bit 7
/// of the counter's octet and all octets behind the body are ignored. The faults come in the order
/// of [`MailFault`].
pub fn read(area: &[u8]) -> Result<Mail, MailFault>
    ensures found { IfOk result (IsMail area.now) }
    ensures only { (mail : Mail) → IsMail area.now mail → result ≡ Ok mail }
    ensures exact { MatchResult result (λ _. fault_of area.now ≡ None) (λ e. fault_of area.now ≡ Some e) }
{
    read_parts(area)
}
