ghost use Rattle.std.specs.Prelude.{◌≡◌, ◌++◌, codes, IfOk};
ghost use Rattle.reply_text.specs.Reply.{hex_of, value_text, kind_text};

use ec_fields::{NoMemory, Octets};
use mailbox_mail::ReplyKind;
use std::alloc::Global;

fn text_of_value(alloc: Global, value: &[u8]) -> Result<Octets, NoMemory>
    ensures { IfOk result (λ text. text ≡ value_text value.now) }
{
    if value.is_empty() {
        return Octets::copy_of(alloc, b"value");
    }
    let digits = hex::encode(alloc, value)?;
    let mut text = Octets::copy_of(alloc, b"value ")?;
    text.add(digits.as_bytes())?;
    Ok(text)
}

fn coded(alloc: Global, word: &str, code: u32) -> Result<Octets, NoMemory>
    ensures { IfOk result (λ text. text ≡ word.now ++ hex_of 4 code) }
{
    let digits = format!(in alloc; "{code:04x}")?;
    let mut text = Octets::copy_of(alloc, word.as_bytes())?;
    text.add(digits.as_bytes())?;
    Ok(text)
}

fn text_of_abort(alloc: Global, code: u32) -> Result<Octets, NoMemory>
    ensures { IfOk result (λ text. text ≡ codes "abort " ++ hex_of 8 code) }
{
    let text = format!(in alloc; "abort {code:08x}")?;
    Octets::copy_of(alloc, text.as_bytes())
}

/// What a service came to, in words: `done`, the value in hexadecimal digits behind `value`, or the name and the digits of a code.
pub fn reply_text(alloc: Global, kind: ReplyKind, value: &[u8]) -> Result<Octets, NoMemory>
    ensures { IfOk result (λ text. text ≡ kind_text kind value.now) }
{
    match kind {
        ReplyKind::Done => Octets::copy_of(alloc, b"done"),
        ReplyKind::Value => text_of_value(alloc, value),
        ReplyKind::Abort(code) => text_of_abort(alloc, code),
        ReplyKind::FoeError(code) => coded(alloc, "foe ", code),
        ReplyKind::SoeError(code) => coded(alloc, "soe ", u32::from(code)),
        ReplyKind::EoeResult(code) => coded(alloc, "eoe ", u32::from(code)),
        ReplyKind::MailboxError(detail) => coded(alloc, "mailbox ", u32::from(detail)),
        ReplyKind::StateRefused(code) => coded(alloc, "refused ", u32::from(code)),
        ReplyKind::Handed => Octets::copy_of(alloc, b"handed"),
    }
}
