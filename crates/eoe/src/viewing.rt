ghost use Rattle.std.specs.Prelude.{◌≡◌, ◌≤◌, length, IfOk, Ok};
ghost use Rattle.eoe.specs.Message.{IsEoe, fragment_in, message_in, eoe_read};
ghost use Rattle.eoe.specs.View.{fragment_seen, eoe_seen, seen, IsCapped};

use crate::message::{Eoe, EoeFault, Fragment};
use ec_fields::{bits, u16_at};

/// The octets of a message's two words.
const HEADER: usize = 4;

/// Places in a packet are told in blocks of this many octets.
pub const BLOCK: usize = 32;

/// A part of a packet as it stands in a body: its fields are those of [`Fragment`], and its octets are
/// where they lie.
#[derive(Clone, Copy)]
pub struct FragmentView<'a> {
    pub last: bool,
    pub stamped: bool,
    pub number: u8,
    pub offset: u8,
    pub frame: u8,
    pub bytes: &'a [u8],
}

/// A message as it stands in a body: its variants are those of [`Eoe`], and its octets are where they lie.
#[derive(Clone, Copy)]
pub enum EoeView<'a> {
    Fragment(FragmentView<'a>),
    SetIp(&'a [u8]),
    SetIpAnswer(u16),
    GetIp,
    GetIpAnswer { result_code: u16, block: &'a [u8] },
}

// The fragment that two words and the octets behind them spell.
fn fragment_in(first: u16, second: u16, rest: &[u8]) -> FragmentView<'_>
    ensures value { fragment_seen result ≡ fragment_in first second rest.now }
    ensures octets { result.bytes.now ≡ rest.now }
{
    FragmentView {
        last: bits(first, 8, 1) == 1,
        stamped: bits(first, 9, 1) == 1,
        number: bits(second, 0, 6) as u8,
        offset: bits(second, 6, 6) as u8,
        frame: bits(second, 12, 4) as u8,
        bytes: rest,
    }
}

// The message of two words and the octets behind them.
fn message_in(first: u16, second: u16, rest: &[u8]) -> Result<EoeView<'_>, EoeFault>
    requires { length rest.now ≤ 1476 }
    ensures value { seen result ≡ message_in first second rest.now }
    ensures capped { IfOk result IsCapped }
{
    match bits(first, 0, 4) {
        0 => {
            let fragment = fragment_in(first, second, rest);
            if !fragment.last && rest.len() % BLOCK != 0 {
                return Err(EoeFault::Offset);
            }
            Ok(EoeView::Fragment(fragment))
        }
        2 => Ok(EoeView::SetIp(rest)),
        3 => Ok(EoeView::SetIpAnswer(second)),
        6 => Ok(EoeView::GetIp),
        7 => Ok(EoeView::GetIpAnswer {
            result_code: second,
            block: rest,
        }),
        _ => Err(EoeFault::WrongType),
    }
}

// What the body reads as, by the reader's own rule.
fn view_plain(body: &[u8]) -> Result<EoeView<'_>, EoeFault>
    requires { length body.now ≤ 1480 }
    ensures value { seen result ≡ eoe_read body.now }
    ensures capped { IfOk result IsCapped }
{
    if body.len() < HEADER {
        return Err(EoeFault::Short);
    }
    message_in(u16_at(body, 0), u16_at(body, 2), &body[HEADER..])
}

/// The message in the body of an EoE mail as it stands there. The port, the request of a time, reserved
/// bits, the last bit of an address message and the octets behind a fixed message are ignored. The faults
/// come in the order of [`EoeFault`]. Nothing is copied.
pub fn view(body: &[u8]) -> Result<EoeView<'_>, EoeFault>
    requires { length body.now ≤ 1480 }
    ensures found { IfOk result (λ v. IsEoe body.now (eoe_seen v)) }
    ensures only { (eoe : Eoe) → IsEoe body.now eoe → seen result ≡ Ok eoe }
    ensures exact { seen result ≡ eoe_read body.now }
    ensures capped { IfOk result IsCapped }
{
    view_plain(body)
}

/// A fragment as a view of itself.
pub fn fragment_of(fragment: &Fragment) -> FragmentView<'_>
    ensures value { fragment_seen result ≡ fragment.now }
    ensures capped { length result.bytes.now ≤ 1476 }
{
    FragmentView {
        last: fragment.last,
        stamped: fragment.stamped,
        number: fragment.number,
        offset: fragment.offset,
        frame: fragment.frame,
        bytes: fragment.bytes.as_slice(),
    }
}

/// A message as a view of itself.
pub fn view_of(eoe: &Eoe) -> EoeView<'_>
    ensures value { eoe_seen result ≡ eoe.now }
    ensures capped { IsCapped result }
{
    match eoe {
        Eoe::Fragment(fragment) => EoeView::Fragment(fragment_of(fragment)),
        Eoe::SetIp(block) => EoeView::SetIp(block.as_slice()),
        Eoe::SetIpAnswer(result_code) => EoeView::SetIpAnswer(*result_code),
        Eoe::GetIp => EoeView::GetIp,
        Eoe::GetIpAnswer { result_code, block } => EoeView::GetIpAnswer {
            result_code: *result_code,
            block: block.as_slice(),
        },
    }
}
