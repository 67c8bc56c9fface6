ghost use Rattle.std.specs.Prelude.{◌≡◌, ◌≢◌, ◌↔◌};
ghost use Rattle.datagrams.specs.of_ec_fields.Fields.{bits_of};
ghost use Rattle.al_state.specs.Request.{is_state, is_change, refusal_of, carried, request_of};

use ec_fields::bits;

/// Init.
pub const INIT: u8 = 1;

/// PreOp.
pub const PRE_OP: u8 = 2;

/// Bootstrap.
pub const BOOTSTRAP: u8 = 3;

/// SafeOp.
pub const SAFE_OP: u8 = 4;

/// Op.
pub const OP: u8 = 8;

/// The state of a slave: 1 Init, 2 PreOp, 3 Bootstrap, 4 SafeOp, 8 Op. The error flag stands exactly
/// where `error` isn't 0, which then is the AL status code.
#[derive(Clone, Copy)]
pub struct Al {
    pub state: u8,
    pub error: u16,
}

/// What became of an AL control word. The number of a refusal is the AL status code
/// (ETG.1000.6, table 11).
#[derive(Clone, Copy)]
pub enum Asked {
    /// The state is the target, with no error.
    Changed,
    /// The error flag stands and the word doesn't acknowledge it: nothing changed.
    Ignored,
    /// The state stays, with this error.
    Refused(u16),
}

// Whether a number is that of a state.
fn is_state(state: u8) -> bool
    ensures { result ≡ is_state state }
{
    matches!(state, INIT | PRE_OP | BOOTSTRAP | SAFE_OP | OP)
}

// Whether a slave may go from a state to another, or stays.
fn is_change(from: u8, to: u8) -> bool
    ensures { result ≡ is_change from to }
{
    if from == to {
        return true;
    }
    match from {
        INIT => to == PRE_OP || to == BOOTSTRAP,
        PRE_OP => to == INIT || to == SAFE_OP,
        BOOTSTRAP => to == INIT,
        SAFE_OP => to == INIT || to == PRE_OP || to == OP,
        OP => to == INIT || to == PRE_OP || to == SAFE_OP,
        _ => false,
    }
}

// The code that refuses a target, the first that applies.
fn refusal(from: u8, to: u8, boot: bool, areas: bool) -> Option<u16>
    ensures { result ≡ refusal_of from to boot areas }
{
    if !is_state(to) {
        return Some(0x0012);
    }
    if to == BOOTSTRAP && !boot {
        return Some(0x0013);
    }
    if !is_change(from, to) {
        return Some(0x0011);
    }
    if from == INIT && to == BOOTSTRAP && !areas {
        return Some(0x0015);
    }
    if from == INIT && to == PRE_OP && !areas {
        return Some(0x0016);
    }
    None
}

/// Carries out an AL control word at a slave: the target in bits 0 to 3, the acknowledge of an error
/// in bit 4. `boot` says whether the slave has Bootstrap, `areas` whether its mailbox sync managers
/// are right. While an error stands, a word that doesn't acknowledge it is ignored.
pub fn request(al: &mut Al, control: u16, boot: bool, areas: bool) -> Asked
    ensures table { request_of al.old control boot areas ≡ (al.new, result) }
    ensures ignored { (result ≡ Asked.Ignored) ↔ ((al.old.error ≢ 0) × (bits_of control 4 1 ≡ 0)) }
{
    if al.error != 0 && bits(control, 4, 1) == 0 {
        return Asked::Ignored;
    }
    let target = bits(control, 0, 4) as u8;
    match refusal(al.state, target, boot, areas) {
        None => {
            *al = Al {
                state: target,
                error: 0,
            };
            Asked::Changed
        }
        Some(code) => {
            al.error = code;
            Asked::Refused(code)
        }
    }
}
