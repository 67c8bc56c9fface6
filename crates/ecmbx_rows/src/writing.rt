//! What is written of the messages that bodies read as, in place of other octets.

ghost use Rattle.std.specs.Prelude.{◌≤◌, length};
ghost use Rattle.std.specs.Bool.{OnTrue};
ghost use Rattle.coe_codec.specs.Writing.{HasSpelling};
ghost use Rattle.eoe.specs.Message.{IsFragment, IsSpellable as IsSpellableEoe};
ghost use Rattle.foe_codec.specs.Message.{IsSpellable};

use arrayvec::ArrayVec;
use coe_codec::Coe;
use ec_fields::buffer_of;
use eoe::{Eoe, Fragment};
use foe_codec::Foe;
use row_table::Row;

// Whether a message of CoE has a spelling.
fn is_spellable_coe(message: &Coe) -> bool
    ensures { OnTrue result (HasSpelling message.now) }
{
    match message {
        Coe::Emergency { octets } => octets.len() == 8,
        Coe::Expedited { bytes, .. } | Coe::ExpeditedAnswer { bytes, .. } => bytes.len() >= 1,
        Coe::First { size, bytes, .. } | Coe::FirstAnswer { size, bytes, .. } => {
            bytes.len() <= *size as usize
        }
        Coe::Segment { bytes, .. } | Coe::UploadSegmentAnswer { bytes, .. } => bytes.len() >= 1,
        Coe::Information { .. } => false,
        _ => true,
    }
}

// Whether a message of FoE has one.
fn is_spellable_foe(message: &Foe) -> bool
    ensures { OnTrue result (IsSpellable message.now) }
{
    match message {
        Foe::Read { name, .. } | Foe::Write { name, .. } => name.len() >= 1,
        _ => true,
    }
}

// Whether a fragment has one.
fn is_fragment(fragment: &Fragment) -> bool
    ensures { OnTrue result (IsFragment fragment.now) }
{
    let fits = fragment.number < 64 && fragment.offset < 64 && fragment.frame < 16;
    fits && (fragment.last || fragment.bytes.len() % 32 == 0)
}

// Whether a message of EoE has one.
fn is_spellable_eoe(message: &Eoe) -> bool
    ensures { OnTrue result (IsSpellableEoe message.now) }
{
    match message {
        Eoe::Fragment(fragment) => is_fragment(fragment),
        _ => true,
    }
}

/// What is written of the message of CoE that a body reads as.
pub fn coe_back(row: &mut Row<'_>, octets: &[u8])
    requires { length octets.now ≤ 1480 }
{
    let Ok(message) = coe_codec::read(octets) else {
        return row.fail();
    };
    if !is_spellable_coe(&message) {
        return row.fail();
    }
    let mut body = buffer_of(&[0xEE; 9]);
    coe_codec::write(&message, &mut body);
    row.digits(body.as_slice());
}

/// The same of FoE.
pub fn foe_back(row: &mut Row<'_>, octets: &[u8])
    requires { length octets.now ≤ 1480 }
{
    let Ok(message) = foe_codec::read(octets) else {
        return row.fail();
    };
    if !is_spellable_foe(&message) {
        return row.fail();
    }
    let mut body = ArrayVec::new();
    foe_codec::write(&message, &mut body);
    row.digits(body.as_slice());
}

/// The same of SoE.
pub fn soe_back(row: &mut Row<'_>, octets: &[u8])
    requires { length octets.now ≤ 1480 }
{
    let Ok(message) = soe_codec::read(octets) else {
        return row.fail();
    };
    let mut body = ArrayVec::new();
    soe_codec::write(&message, &mut body);
    row.digits(body.as_slice());
}

/// The same of EoE.
pub fn eoe_back(row: &mut Row<'_>, octets: &[u8])
    requires { length octets.now ≤ 1480 }
{
    let Ok(message) = eoe::read(octets) else {
        return row.fail();
    };
    if !is_spellable_eoe(&message) {
        return row.fail();
    }
    let mut body = ArrayVec::new();
    eoe::write(&message, &mut body);
    row.digits(body.as_slice());
}
