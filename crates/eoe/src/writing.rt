ghost use Rattle.std.specs.Prelude.{◌≡◌, ◌≤◌, length};
ghost use Rattle.eoe.specs.Message.{IsEoe, IsFragment, IsSpellable, first_of, second_of, octets_of, eoe_text};
ghost use Rattle.eoe.specs.View.{fragment_seen, eoe_seen, IsCapped};

use crate::message::Eoe;
use crate::viewing::{EoeView, FragmentView, view_of};
use arrayvec::ArrayVec;
use ec_fields::refill_parts;

const LAST: u16 = 0x0100;

const STAMPED: u16 = 0x0200;

// The first word: type, and the marks of a fragment. Address messages have the last bit set.
fn first_word(message: EoeView<'_>) -> u16
    ensures { result ≡ first_of (eoe_seen message.entry) }
{
    match message {
        EoeView::Fragment(fragment) => {
            let last = if fragment.last { LAST } else { 0 };
            let stamped = if fragment.stamped { STAMPED } else { 0 };
            last + stamped
        }
        EoeView::SetIp(_) => 2 + LAST,
        EoeView::SetIpAnswer(_) => 3 + LAST,
        EoeView::GetIp => 6 + LAST,
        EoeView::GetIpAnswer { .. } => 7 + LAST,
    }
}

// The second word: the place of a fragment, or the result of an answer.
fn second_word(message: EoeView<'_>) -> u16
    requires { IsSpellable (eoe_seen message) }
    ensures { result ≡ second_of (eoe_seen message.entry) }
{
    match message {
        EoeView::Fragment(fragment) => place_word(fragment),
        EoeView::SetIp(_) | EoeView::GetIp => 0,
        EoeView::SetIpAnswer(result_code) => result_code,
        EoeView::GetIpAnswer { result_code, .. } => result_code,
    }
}

fn place_word(fragment: FragmentView<'_>) -> u16
    requires { IsFragment (fragment_seen fragment) }
    ensures { result ≡ second_of (Eoe.Fragment (fragment_seen fragment.entry)) }
{
    fragment.number as u16 + 64 * fragment.offset as u16 + 4096 * fragment.frame as u16
}

// The octets behind the two words.
fn octets(message: EoeView<'_>) -> &[u8]
    requires { IsCapped message }
    ensures value { result.now ≡ octets_of (eoe_seen message.entry) }
    ensures fits { length result.now ≤ 1476 }
{
    match message {
        EoeView::Fragment(fragment) => fragment.bytes,
        EoeView::SetIp(block) => block,
        EoeView::GetIpAnswer { block, .. } => block,
        EoeView::SetIpAnswer(_) | EoeView::GetIp => &[],
    }
}

// The octets, and that the second word is one.
fn write_plain(message: EoeView<'_>, body: &mut ArrayVec<u8, 1480>)
    requires spelling { IsSpellable (eoe_seen message) }
    requires capped { IsCapped message }
    ensures octets { body.new.items ≡ eoe_text (eoe_seen message.entry) }
    ensures in_range { second_of (eoe_seen message.entry) ≤ 65535 }
{
    let [a, b] = first_word(message).to_le_bytes();
    let [c, d] = second_word(message).to_le_bytes();
    refill_parts(body, &[a, b, c, d], octets(message));
}

/// Writes a message as it stands somewhere as the body of an EoE mail, as [`write`] does.
pub fn write_view(message: EoeView<'_>, body: &mut ArrayVec<u8, 1480>)
    requires spelling { IsSpellable (eoe_seen message) }
    requires capped { IsCapped message }
    ensures octets { body.new.items ≡ eoe_text (eoe_seen message.entry) }
    ensures spelled { IsEoe body.new.items (eoe_seen message.entry) }
{
    write_plain(message, body);
}

/// Writes a message as the body of an EoE mail, in place of what it held.
pub fn write(eoe: &Eoe, body: &mut ArrayVec<u8, 1480>)
    requires { IsSpellable eoe.now }
    ensures octets { body.new.items ≡ eoe_text eoe.now }
    ensures spelled { IsEoe body.new.items eoe.now }
{
    write_view(view_of(eoe), body);
}
