ghost use Rattle.std.specs.Prelude.{◌≡◌, ◌≤◌, ◌*◌, ◌/◌, ◌%◌, [], length, is_ok, Ok, IfOk, IfErr, OnOk, true, if◌then◌else◌};
ghost use Rattle.toml.specs.View.{view, table_view};
ghost use Rattle.hex.specs.Hex.{decode_of};
ghost use Rattle.scenario_keys.specs.declared.refusal.Rule.TheVariants as rules;
ghost use Rattle.scenario_keys.specs.declared.refusal.Stop.TheVariants as stops;
ghost use Rattle.scenario_keys.specs.Reading.{Gives, Fails};
ghost use Rattle.scenario_keys.specs.Keys.{text_in};
ghost use Rattle.scenario_values.specs.Octets.{digits_in, is_fit, octets_in, octets_at, no_octets_at};

use crate::digits::{decode_behind, decode_into, writes_octets};
use arrayvec::ArrayVec;
use ec_fields::Octets;
use scenario_keys::{Place, Rule, Stop, find, needed, refused, text, unless};
use std::alloc::Global;
use toml::{Table, Value};

fn digits(alloc: Global, value: &Value, place: Place) -> Result<Octets, Stop>
    ensures { Gives (λ t. t) result (digits_in place (view value.now)) }
{
    let text = text(value, place)?.as_bytes();
    unless(text.len() % 2 == 0, Rule::NotOctets, place)?;
    let mut octets = vec![in alloc; 0u8; text.len() / 2]?;
    unless(
        decode_into(text, octets.as_mut_slice()),
        Rule::NotOctets,
        place,
    )?;
    Ok(Octets::from_vec(octets))
}

fn octets(
    alloc: Global,
    value: &Value,
    least: usize,
    most: usize,
    place: Place,
) -> Result<Octets, Stop>
    ensures gives { Gives (λ t. t) result (octets_in least most place (view value.now)) }
    ensures within { IfOk result (λ t. (least ≤ length t) × (length t ≤ most)) }
{
    let octets = digits(alloc, value, place)?;
    let fits = least <= octets.len() && octets.len() <= most;
    unless(fits, Rule::OutOfRange, place)?;
    Ok(octets)
}

/// `least` to `most` octets, written in hexadecimal digits.
pub fn needed_octets(
    alloc: Global,
    table: &Table,
    key: &str,
    least: usize,
    most: usize,
    place: Place,
) -> Result<Octets, Stop>
    ensures gives { Gives (λ t. t) result (octets_at key.now least most place (table_view table.now)) }
    ensures within { IfOk result (λ t. (least ≤ length t) × (length t ≤ most)) }
{
    octets(alloc, needed(table, key, place)?, least, most, place)
}

/// Why a text is refused that doesn't write so many octets: it writes none at all, or too few or too many.
fn unfit(text: &[u8], place: Place) -> Stop
    ensures { result ≡ stops.Refused (record { rule = if is_ok (decode_of text.now) then rules.OutOfRange else rules.NotOctets; place = place }) }
{
    if writes_octets(text) {
        refused(Rule::OutOfRange, place)
    } else {
        refused(Rule::NotOctets, place)
    }
}

fn is_fit(text: &[u8], least: usize, most: usize) -> bool
    ensures { result ≡ is_fit least most text.now }
{
    text.len() % 2 == 0 && least <= text.len() / 2 && text.len() / 2 <= most
}

/// The characters of a text for so many octets.
#[tactic(auto, using(crate::proofs::Fit::even, crate::proofs::Fit::most_half, crate::proofs::Fit::exact_twice, crate::proofs::Fit::unfit_refused))]
fn fitting(value: &Value, least: usize, most: usize, place: Place) -> Result<&[u8], Stop>
    ensures text { IfOk result (λ t. text_in place (view value.now) ≡ Ok t.now) }
    ensures fit { IfOk result (λ t. is_fit least most t.now ≡ true) }
    ensures even { IfOk result (λ t. length t.now % 2 ≡ 0) }
    ensures most { IfOk result (λ t. length t.now / 2 ≤ most) }
    ensures exact { IfOk result (λ t. least ≡ most → length t.now ≡ 2 * least) }
    ensures refused { IfErr result (λ e. Fails e (octets_in least most place (view value.now))) }
{
    let text = text(value, place)?.as_bytes();
    if is_fit(text, least, most) {
        Ok(text)
    } else {
        Err(unfit(text, place))
    }
}

fn fill(value: &Value, place: Place, out: &mut [u8]) -> Result<(), Stop>
    ensures { Gives (λ _. out.new) result (octets_in (length out.old) (length out.old) place (view value.now)) }
{
    let text = fitting(value, out.len(), out.len(), place)?;
    unless(decode_into(text, out), Rule::NotOctets, place)
}

/// Just as many octets as their place has, written in hexadecimal digits.
pub fn needed_in_place(table: &Table, key: &str, place: Place, out: &mut [u8]) -> Result<(), Stop>
    ensures { Gives (λ _. out.new) result (octets_at key.now (length out.old) (length out.old) place (table_view table.now)) }
{
    fill(needed(table, key, place)?, place, out)
}

fn fill_buffer<const CAP: usize>(
    value: &Value,
    least: usize,
    place: Place,
    buffer: &mut ArrayVec<u8, CAP>,
) -> Result<(), Stop>
    requires { buffer.old.items ≡ [] }
    ensures gives { Gives (λ _. buffer.new.items) result (octets_in least CAP place (view value.now)) }
    ensures within { OnOk result (least ≤ length buffer.new.items) }
{
    let text = fitting(value, least, CAP, place)?;
    unless(decode_behind(text, buffer), Rule::NotOctets, place)
}

/// `least` octets to as many as an empty buffer holds, written in hexadecimal digits and read into it.
pub fn needed_buffer<const CAP: usize>(
    table: &Table,
    key: &str,
    least: usize,
    place: Place,
    buffer: &mut ArrayVec<u8, CAP>,
) -> Result<(), Stop>
    requires { buffer.old.items ≡ [] }
    ensures gives { Gives (λ _. buffer.new.items) result (octets_at key.now least CAP place (table_view table.now)) }
    ensures within { OnOk result (least ≤ length buffer.new.items) }
{
    fill_buffer(needed(table, key, place)?, least, place, buffer)
}

/// No octets: refuses them, since another key excludes them.
pub fn no_octets(table: &Table, key: &str, place: Place) -> Result<(), Stop>
    ensures { Gives (λ done. done) result (no_octets_at key.now place (table_view table.now)) }
{
    match find(table, key) {
        Some(value) => Err(unfit(text(value, place)?.as_bytes(), place)),
        None => Ok(()),
    }
}
