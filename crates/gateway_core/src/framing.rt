ghost use Rattle.std.specs.Prelude.{◌≡◌, ◌≤◌, ◌+◌, ◌++◌, length, IfOk};
ghost use Rattle.byteorder.specs.Endian.{little_bytes};
ghost use Rattle.mailbox_mail.specs.Mail.{mail_text};
ghost use Rattle.gateway_core.specs.Framing.{request_in, request_seen, length_read, gram_text};

use ec_fields::{bits, u16_at};
use ec_outside::Gram;
use mailbox_mail::{HEADER, Mail, MailHead, MailView, view, write_head};

/// The octets of the frame header in front of the mail.
const FRAME_HEADER: usize = 2;

/// The type of a frame header that is followed by a mail (ETG.1000.4, "EtherCAT frame").
const MAILBOX: u16 = 5;

/// Why a datagram is no request of the gateway, in the order in which the parts are looked at.
#[derive(Clone, Copy)]
pub enum GatewayFault {
    /// Fewer octets than a frame header and a mail's header have.
    Short,
    /// A type other than 5.
    WrongType,
    /// The header's length exceeds the octets behind it.
    Length,
    /// The octets of that length are no mail.
    Mail,
}

/// The mail behind a frame header as it stands there. Octets behind it are ignored.
pub(crate) fn mail_behind(bytes: &[u8]) -> Result<MailView<'_>, GatewayFault>
    ensures mail { request_seen result ≡ request_in bytes.now }
    ensures within { IfOk result (λ v. length v.body.now ≤ 1480) }
{
    if bytes.len() < FRAME_HEADER + HEADER {
        return Err(GatewayFault::Short);
    }
    let word = u16_at(bytes, 0);
    if bits(word, 12, 4) != MAILBOX {
        return Err(GatewayFault::WrongType);
    }
    let behind = &bytes[FRAME_HEADER..];
    let len = bits(word, 0, 11) as usize;
    if len > behind.len() {
        return Err(GatewayFault::Length);
    }
    match view(&behind[..len]) {
        Ok(mail) => Ok(mail),
        Err(_) => Err(GatewayFault::Mail),
    }
}

/// The octets of the mail that stands behind the frame header, at octet 2 of a datagram
/// (ETG.8200): its header and its body. The faults come in the order of [`GatewayFault`].
pub fn gateway_read(bytes: &[u8]) -> Result<usize, GatewayFault>
    ensures { result ≡ length_read (request_in bytes.now) }
{
    match mail_behind(bytes) {
        Ok(mail) => Ok(HEADER + mail.body.len()),
        Err(fault) => Err(fault),
    }
}

/// Makes the datagram of a mail of at most 1,486 octets: a frame header of type 5 with the mail's
/// length, and the mail.
pub fn gateway_write(mail: &[u8], into: &mut Gram)
    requires { length mail.now ≤ 1486 }
    ensures { into.new.items ≡ little_bytes 2 (20480 + length mail.now) ++ mail.now }
{
    begin(mail.len(), into);
    append(into, mail);
}

// A frame header of type 5 before this many octets, and nothing else.
fn begin(len: usize, into: &mut Gram)
    requires { len ≤ 1486 }
    ensures { into.new.items ≡ little_bytes 2 (20480 + len) }
{
    let word = (MAILBOX << 12) + len as u16;
    let [low, high] = word.to_le_bytes();
    into.clear();
    into.push(low);
    into.push(high);
}

// Appends octets that fit.
fn append(into: &mut Gram, octets: &[u8])
    requires { length into.old.items + length octets.now ≤ 2048 }
    ensures { into.new.items ≡ into.old.items ++ octets.now }
{
    match into.try_extend_from_slice(octets) {
        Ok(()) => {}
        Err(_) => unreachable!(),
    }
}

/// Makes the datagram of a mail with this station and counter in place of its own.
pub(crate) fn write_to(mail: &Mail, station: u16, counter: u8, into: &mut Gram)
    requires { counter ≤ 7 }
    ensures { into.new.items ≡ gram_text (record mail.now { address = station; counter = counter }) }
{
    let len = mail.body.len();
    let head = MailHead {
        address: station,
        kind: mail.kind,
        counter,
    };
    begin(HEADER + len, into);
    append(into, &[0; HEADER]);
    append(into, mail.body.as_slice());
    write_head(head, len, &mut into.as_mut_slice()[FRAME_HEADER..]);
}
