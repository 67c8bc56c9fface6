ghost use Rattle.std.specs.Prelude.{◌≡◌, ◌≤◌, ◌+◌, ◌*◌, [], map, length, IfOk, All, true};
ghost use Rattle.std.specs.List.{list_any};
ghost use Rattle.toml.specs.View.{table_view};
ghost use Rattle.scenario_values.specs.of_block_pool.Region.{blocks_for};
ghost use Rattle.scenario_values.specs.of_segment_plan.Sound.{taken, has_name, is_new_file, are_new_files, IsFile};
ghost use Rattle.scenario_values.specs.of_scenario_keys.Reading.{Gives};
ghost use Rattle.scenario_slaves.specs.Files.{rights_of, rights_at, file_name_at, file_value_at, file_of, files_of};

use ec_fields::{Octets, Rows, buffer_of};
use file_store::{FileSpec, Name};
use scenario_keys::{
    Place, Rule, Stop, bool_or_false, integer_or, needed_name, needed_text, only_known, put,
    refused, unless,
};
use scenario_values::needed_octets;
use std::alloc::Global;
use toml::Table;

fn rights_of(word: &str) -> Option<(bool, bool)>
    ensures { result ≡ rights_of word.now }
{
    if word == "r" {
        Some((true, false))
    } else if word == "w" {
        Some((false, true))
    } else if word == "rw" {
        Some((true, true))
    } else {
        None
    }
}

/// Whether a file may be read, and whether it may be written.
fn rights(table: &Table, place: Place) -> Result<(bool, bool), Stop>
    ensures { Gives (λ r. r) result (rights_at place (table_view table.now)) }
{
    match rights_of(needed_text(table, "rights", place)?) {
        Some(rights) => Ok(rights),
        None => Err(refused(Rule::OutOfRange, place)),
    }
}

fn has_file(before: &[(FileSpec, Octets)], name: &[u8]) -> bool
    ensures { result ≡ list_any (has_name name.now) before.now }
{
    before.iter().any(|file| file.0.name.as_slice() == name)
}

fn is_new_file(before: &[(FileSpec, Octets)], name: &[u8]) -> bool
    ensures { result ≡ is_new_file before.now name.now }
{
    !has_file(before, name)
}

fn file_name(table: &Table, before: &[(FileSpec, Octets)], place: Place) -> Result<Name, Stop>
    ensures gives { Gives (λ n. n.items) result (file_name_at before.now place (table_view table.now)) }
    ensures within { IfOk result (λ n. (1 ≤ length n.items) × (length n.items ≤ 32)) }
    ensures new { IfOk result (λ n. is_new_file before.now n.items ≡ true) }
{
    let name = needed_name(table, "name", place)?.as_bytes();
    unless(is_new_file(before, name), Rule::OutOfRange, place)?;
    Ok(buffer_of(name))
}

fn blocks_for(octets: usize) -> u32
    requires { octets ≤ 131072 }
    ensures value { result ≡ blocks_for octets }
    ensures within { result ≤ 1024 }
{
    (octets as u32 + 127) / 128
}

/// The blocks that files have.
fn taken(files: &[(FileSpec, Octets)]) -> u32
    requires few { length files.now ≤ 32 }
    requires files { All IsFile files.now }
    ensures value { result ≡ taken files.now }
    ensures within { result ≤ 1024 * length files.now }
{
    let mut taken = 0;
    for (_, value) in files {
        taken += blocks_for(value.len());
    }
    taken
}

fn file_value(
    alloc: Global,
    table: &Table,
    blocks: u32,
    before: &[(FileSpec, Octets)],
    place: Place,
) -> Result<Octets, Stop>
    requires few { length before.now ≤ 32 }
    requires files { All IsFile before.now }
    ensures gives { Gives (λ t. t) result (file_value_at blocks before.now place (table_view table.now)) }
    ensures within { IfOk result (λ t. length t ≤ 131072) }
    ensures fits { IfOk result (λ t. taken before.now + blocks_for (length t) ≤ blocks) }
{
    let value = needed_octets(alloc, table, "value", 0, 131_072, place)?;
    let fits = taken(before) + blocks_for(value.len()) <= blocks;
    unless(fits, Rule::OutOfRange, place)?;
    Ok(value)
}

#[tactic(auto, unfolding(crate::specs::Files::file_of))]
fn file(
    alloc: Global,
    table: &Table,
    blocks: u32,
    before: &[(FileSpec, Octets)],
    place: Place,
) -> Result<(FileSpec, Octets), Stop>
    requires few { length before.now ≤ 32 }
    requires files { All IsFile before.now }
    ensures gives { Gives (λ f. f) result (file_of blocks before.now place (table_view table.now)) }
    ensures sound { IfOk result IsFile }
    ensures fits { IfOk result (λ f. taken before.now + blocks_for (length f.1) ≤ blocks) }
    ensures new { IfOk result (λ f. is_new_file before.now f.0.name.items ≡ true) }
{
    let known = &["name", "password", "rights", "boot", "busy", "value"];
    only_known(table, known, place)?;
    let name = file_name(table, before, place)?;
    let pass = integer_or(table, "password", 0, 0, 0xFFFF_FFFF, place)?;
    let (read, write) = rights(table, place)?;
    let boot = bool_or_false(table, "boot", place)?;
    let busy = integer_or(table, "busy", 0, 0, 15, place)?;
    let value = file_value(alloc, table, blocks, before, place)?;
    let spec = FileSpec {
        name,
        pass: pass as u32,
        read,
        write,
        boot,
        busy: busy as u8,
    };
    Ok((spec, value))
}

/// The files of a slave with so many blocks, each name once.
pub(crate) fn files(
    alloc: Global,
    tables: &[&Table],
    slave: u32,
    blocks: u32,
) -> Result<Rows<(FileSpec, Octets)>, Stop>
    requires { length tables.now ≤ 32 }
    ensures gives { Gives (λ fs. fs) result (files_of slave blocks (map (λ t. table_view t.now) tables.now)) }
    ensures many { IfOk result (λ fs. length fs ≡ length tables.now) }
    ensures sound { IfOk result (All IsFile) }
    ensures fits { IfOk result (λ fs. taken fs ≤ blocks) }
    ensures once { IfOk result (λ fs. are_new_files [] fs ≡ true) }
{
    let mut rows = Rows::new(alloc);
    for (i, table) in tables.iter().enumerate() {
        let place = Place::File(slave, i as u32);
        let row = file(alloc, table, blocks, rows.as_slice(), place)?;
        put(&mut rows, row)?;
    }
    Ok(rows)
}
