use crate::bounds::sizes_at;
use crate::contents::{wrong_bounds, wrong_number_of};
use crate::numbers::slave_asked;
use ec_fields::NoMemory;
use eoe::is_block;
use fault_kinds::{Found, Wrong, octets_text, pair_of};
use fault_sites::{Site, is_served, items_at, number_at, text_at};
use fault_texts::{octets_of, type_of};
use scenario_keys::Place;
use std::alloc::{AllocError, Global};
use toml::{Table, Value};

fn has_octets(alloc: Global, key: &str, count: usize) -> Result<Option<Wrong>, NoMemory> {
    let told = octets_text(alloc, count as u64)?;
    Ok(Some(Wrong::told(format!(in alloc; "`{key}` has {told}")?)))
}

// The first octet of hexadecimal digits is odd.
fn is_odd(digits: &str) -> bool {
    match digits.as_bytes() {
        [_, low, ..] => match low {
            b'1' | b'3' | b'5' | b'7' | b'9' => true,
            b'b' | b'd' | b'f' => true,
            b'B' | b'D' | b'F' => true,
            _ => false,
        },
        _ => false,
    }
}

// The address of a slave without EoE, of another length, or of a group.
fn wrong_mac(alloc: Global, site: &Site, digits: &str) -> Result<Option<Wrong>, NoMemory> {
    if !is_served(site.table, "eoe") {
        return Ok(Some(Wrong::told(String::from_str(
            alloc,
            "`mac` stands in a slave without eoe",
        )?)));
    }
    if digits.len() / 2 != 6 {
        return has_octets(alloc, "mac", digits.len() / 2);
    }
    if is_odd(digits) {
        return Ok(Some(Wrong::told(String::from_str(
            alloc,
            "`mac` begins with an odd octet, as the address of a group does",
        )?)));
    }
    Ok(None)
}

// A value whose octets are fewer or more than its sizes say.
fn wrong_length(alloc: Global, table: &Table, count: usize) -> Result<Option<Wrong>, AllocError> {
    let Some((least, most)) = sizes_at(table) else {
        return Ok(None);
    };
    let many = i64::try_from(count).unwrap_or(i64::MAX);
    if least <= many && many <= most {
        return Ok(None);
    }
    let told = octets_text(alloc, count as u64)?;
    Ok(Some(Wrong::told(format!(in alloc;
        "`value` has {told}, and its size is {least} to {most}"
    )?)))
}

fn wrong_entry(alloc: Global, site: &Site, digits: &str) -> Result<Option<Wrong>, NoMemory> {
    let data = match number_at(site.table, "type") {
        Some(number) => type_of(number),
        None => None,
    };
    match data {
        Some(data) if data.size != 0 => wrong_number_of(alloc, site, data, digits),
        _ => Ok(wrong_length(alloc, site.table, digits.len() / 2)?),
    }
}

fn wrong_idn(alloc: Global, site: &Site, digits: &str) -> Result<Option<Wrong>, NoMemory> {
    match wrong_length(alloc, site.table, digits.len() / 2)? {
        Some(wrong) => Ok(Some(wrong)),
        None => wrong_bounds(alloc, site, digits, false),
    }
}

// The blocks of 128 octets that a file's octets take.
fn blocks_for(count: usize) -> u64 {
    (count / 128) as u64 + u64::from(count % 128 != 0)
}

// The blocks that the files ahead of one take.
fn taken(files: &[Value], number: u32) -> u64 {
    let mut taken = 0_u64;
    for file in files.iter().take(number as usize) {
        let digits = match file.as_table() {
            Some(table) => text_at(table, "value").unwrap_or(""),
            None => "",
        };
        taken = taken.saturating_add(blocks_for(digits.len() / 2));
    }
    taken
}

// The blocks that are left for a file.
fn left_for(site: &Site) -> u64 {
    let Some(slave) = site.slave() else {
        return 0;
    };
    let all = number_at(slave, "blocks").unwrap_or(64);
    let all = u64::try_from(all).unwrap_or(0);
    all.saturating_sub(taken(items_at(slave, "file"), site.number()))
}

fn is_or_are(count: u64) -> &'static str {
    if count == 1 { "is" } else { "are" }
}

fn too_many_blocks(
    alloc: Global,
    count: usize,
    blocks: u64,
    left: u64,
) -> Result<Wrong, AllocError> {
    let word = if blocks == 1 { "block" } else { "blocks" };
    let are = is_or_are(left);
    let mut wrong = Wrong::told(format!(in alloc;
        "`value` has {blocks} {word} of 128 octets, and {left} {are} left"
    )?);
    wrong.found = Found::Octets(count as u64);
    wrong.remedy = Some(String::from_str(alloc, "more blocks, up to 1024, in the slave")?);
    Ok(wrong)
}

// A file that is too long, or that doesn't fit the blocks that are left.
fn wrong_file(alloc: Global, site: &Site, digits: &str) -> Result<Option<Wrong>, NoMemory> {
    let count = digits.len() / 2;
    if count > 131_072 {
        return has_octets(alloc, "value", count);
    }
    let blocks = blocks_for(count);
    let left = left_for(site);
    if blocks > left {
        return Ok(Some(too_many_blocks(alloc, count, blocks, left)?));
    }
    Ok(None)
}

// The lengths of the mailboxes of the slave that a service names.
fn mail_of(site: &Site) -> Option<(i64, i64)> {
    pair_of(slave_asked(site)?.get("mail")?)
}

// Whether hexadecimal digits are an address block.
fn writes_block(alloc: Global, digits: &str) -> Result<bool, NoMemory> {
    match hex::decode(alloc, digits.as_bytes()) {
        Ok(octets) => Ok(is_block(octets.as_slice())),
        Err(error) if matches!(error, hex::FromHexError::OutOfMemory) => Err(NoMemory),
        Err(_) => Ok(false),
    }
}

// An address block that is none, or that the mailboxes don't hold.
fn wrong_block(alloc: Global, site: &Site, digits: &str) -> Result<Option<Wrong>, NoMemory> {
    let count = digits.len() / 2;
    let told = octets_text(alloc, count as u64)?;
    let (outward, inward) = mail_of(site).unwrap_or((0, 0));
    let most = outward.min(inward).saturating_sub(10);
    if i64::try_from(count).unwrap_or(i64::MAX) > most {
        return Ok(Some(Wrong::told(format!(in alloc;
            "`block` of {told} doesn't fit mailboxes of {outward} and {inward}"
        )?)));
    }
    if writes_block(alloc, digits)? {
        return Ok(None);
    }
    Ok(Some(Wrong::told(format!(in alloc; "`block` of {told} isn't an address block")?)))
}

// Octets of a service or of the host, so many at least and at most.
fn wrong_many(
    alloc: Global,
    key: &str,
    count: usize,
    limits: (u64, u64),
) -> Result<Option<Wrong>, NoMemory> {
    let many = count as u64;
    if limits.0 <= many && many <= limits.1 {
        Ok(None)
    } else {
        has_octets(alloc, key, count)
    }
}

/// What is wrong with octets: they are too few or too many, or say what they can't.
pub(crate) fn wrong_octets(
    alloc: Global,
    site: &Site,
    key: &str,
    digits: &str,
) -> Result<Option<Wrong>, NoMemory> {
    let count = digits.len() / 2;
    match site.place {
        Place::Slave(_) => wrong_mac(alloc, site, digits),
        Place::Entry(_, _, _) => wrong_entry(alloc, site, digits),
        Place::File(_, _) => wrong_file(alloc, site, digits),
        Place::Idn(_, _) => wrong_idn(alloc, site, digits),
        Place::Service(_) if key == "block" => wrong_block(alloc, site, digits),
        Place::Service(_) => {
            let action = text_at(site.table, "do").unwrap_or("");
            wrong_many(alloc, key, count, octets_of(action))
        }
        Place::Host(_) => wrong_many(alloc, key, count, (14, 1514)),
        _ => Ok(None),
    }
}
