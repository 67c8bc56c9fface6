ghost use Rattle.std.specs.Prelude.{◌≡◌, ◌≤◌};
ghost use Rattle.gateway_core.specs.Framing.{request_in, gram_text};
ghost use Rattle.gateway_tool.specs.Rule.{mail_in};

use ec_outside::Gram;
use gateway_core::{gateway_read, gateway_write};
use mailbox_mail::{HEADER, Mail, read, write};

/// The octets of the frame header in front of a datagram's mail.
const FRAME_HEADER: usize = 2;

/// Puts the datagram of a mail in place of what `into` has.
pub fn write_gram(mail: &Mail, into: &mut Gram)
    requires { mail.now.counter ≤ 7 }
    ensures { into.new.items ≡ gram_text mail.now }
{
    let len = HEADER + mail.body.len();
    let mut area = [0; 1486];
    write(mail, &mut area);
    gateway_write(&area[..len], into);
}

/// The mail of a datagram that reads.
pub fn mail_in(bytes: &[u8]) -> Option<Mail>
    ensures { result ≡ mail_in (request_in bytes.now) }
{
    match gateway_read(bytes) {
        Ok(_) => match read(&bytes[FRAME_HEADER..]) {
            Ok(mail) => Some(mail),
            Err(_) => None,
        },
        Err(_) => None,
    }
}
