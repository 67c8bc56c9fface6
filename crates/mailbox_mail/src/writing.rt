ghost use Rattle.std.specs.Prelude.{◌≡◌, ◌+◌, ◌-◌, ◌<◌, ◌≤◌, ◌++◌, length, drop, replicate};
ghost use Rattle.mailbox_mail.specs.Mail.{IsMail, mail_text};
ghost use Rattle.mailbox_mail.specs.Head.{mail_behind, head_text};

use crate::mail::{HEADER, Mail, MailHead};

/// Writes the mail at the head of an area and fills the rest with zeros. Channel and priority are
/// written as 0.
pub fn write(mail: &Mail, area: &mut [u8])
    requires counted { mail.now.counter ≤ 7 }
    requires fits { 6 + length mail.now.body.items ≤ length area.old }
    ensures octets { area.new ≡ mail_text 0 0 mail.now ++ replicate (length area.old - (6 + length mail.now.body.items)) 0 }
    ensures spelled { IsMail area.new mail.now }
{
    write_parts(mail, area);
}

fn write_parts(mail: &Mail, area: &mut [u8])
    requires counted { mail.now.counter ≤ 7 }
    requires fits { 6 + length mail.now.body.items ≤ length area.old }
    ensures octets { area.new ≡ mail_text 0 0 mail.now ++ replicate (length area.old - (6 + length mail.now.body.items)) 0 }
    ensures within { length mail.now.body.items ≤ 1480 }
    ensures addressed { mail.now.address < 65536 }
{
    let len = mail.body.len();
    let (header, behind) = area.split_at_mut(HEADER);
    let (body, rest) = behind.split_at_mut(len);
    put_head(mail.head(), len, header);
    body.copy_from_slice(mail.body.as_slice());
    rest.fill(0);
}

/// Writes the header of a mail in front of its body, which stands in the area already: the `len`
/// octets behind the header. These and all behind them stay as they are. Channel and priority are
/// written as 0.
pub fn write_head(head: MailHead, len: usize, area: &mut [u8])
    requires counted { head.counter ≤ 7 }
    requires within { len ≤ 1480 }
    requires fits { 6 + len ≤ length area.old }
    ensures octets { area.new ≡ mail_text 0 0 (mail_behind head len area.old) ++ drop (6 + len) area.old }
    ensures spelled { IsMail area.new (mail_behind head len area.old) }
{
    head_in_front(head, len, area);
}

fn head_in_front(head: MailHead, len: usize, area: &mut [u8])
    requires counted { head.counter ≤ 7 }
    requires within { len ≤ 1480 }
    requires fits { 6 + len ≤ length area.old }
    ensures octets { area.new ≡ head_text head len ++ drop 6 area.old }
    ensures addressed { head.address < 65536 }
{
    let (header, _) = area.split_at_mut(HEADER);
    put_head(head, len, header);
}

// The six octets of a header.
fn put_head(head: MailHead, len: usize, header: &mut [u8])
    requires counted { head.counter ≤ 7 }
    requires within { len ≤ 1480 }
    requires fits { length header.old ≡ 6 }
    ensures { header.new ≡ head_text head len }
{
    let [length_low, length_high] = (len as u16).to_le_bytes();
    let [address_low, address_high] = head.address.to_le_bytes();
    let marks = head.kind.code() + 16 * head.counter;
    header.copy_from_slice(&[length_low, length_high, address_low, address_high, 0, marks]);
}
