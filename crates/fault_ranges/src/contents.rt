use ec_fields::NoMemory;
use fault_kinds::{Wrong, octets_text};
use fault_sites::{Site, number_at};
use fault_texts::DataType;
use std::alloc::{AllocError, Global};

// The octets of a number, at most 8, lowest ahead, behind which its sign is repeated.
fn extended(octets: &[u8], is_signed: bool) -> [u8; 8] {
    let is_negative = is_signed && octets.last().is_some_and(|octet| *octet >= 0x80);
    let mut all = if is_negative { [0xFF; 8] } else { [0; 8] };
    for (place, octet) in all.iter_mut().zip(octets) {
        *place = *octet;
    }
    all
}

// The number that octets mean.
fn number_of(octets: &[u8], is_signed: bool) -> i128 {
    let all = extended(octets, is_signed);
    if is_signed {
        i128::from(i64::from_le_bytes(all))
    } else {
        i128::from(u64::from_le_bytes(all))
    }
}

// The number that hexadecimal digits mean, where they are digits of at most 8 octets.
fn number_in(alloc: Global, digits: &str, is_signed: bool) -> Result<Option<i128>, NoMemory> {
    if digits.len() > 16 {
        return Ok(None);
    }
    match hex::decode(alloc, digits.as_bytes()) {
        Ok(octets) => Ok(Some(number_of(octets.as_slice(), is_signed))),
        Err(error) if matches!(error, hex::FromHexError::OutOfMemory) => Err(NoMemory),
        Err(_) => Ok(None),
    }
}

fn above_max(alloc: Global, site: &Site, number: i128) -> Result<Option<Wrong>, AllocError> {
    match number_at(site.table, "max") {
        Some(max) if number > i128::from(max) => Ok(Some(Wrong::told(format!(in alloc;
            "`value` is {number}, above `max`, which is {max}"
        )?))),
        _ => Ok(None),
    }
}

fn below_min(alloc: Global, site: &Site, number: i128) -> Result<Option<Wrong>, AllocError> {
    match number_at(site.table, "min") {
        Some(min) if number < i128::from(min) => Ok(Some(Wrong::told(format!(in alloc;
            "`value` is {number}, below `min`, which is {min}"
        )?))),
        _ => Ok(None),
    }
}

/// What is wrong with a number: it isn't within the bounds beside it.
pub(crate) fn wrong_bounds(
    alloc: Global,
    site: &Site,
    digits: &str,
    is_signed: bool,
) -> Result<Option<Wrong>, NoMemory> {
    let Some(number) = number_in(alloc, digits, is_signed)? else {
        return Ok(None);
    };
    match above_max(alloc, site, number)? {
        Some(wrong) => Ok(Some(wrong)),
        None => Ok(below_min(alloc, site, number)?),
    }
}

// The digits of a number with as many octets as its type has: zeros are added, or taken away.
fn padded(alloc: Global, digits: &str, wanted: usize) -> Result<Option<String>, AllocError> {
    if digits.len() > wanted {
        let (kept, spare) = digits.as_bytes().split_at(wanted);
        return spared(alloc, kept, spare);
    }
    let mut line = String::from_str(alloc, "value = \"")?;
    line.push_str(digits)?;
    for _ in digits.len()..wanted {
        line.push_str("0")?;
    }
    line.push_str("\"")?;
    Ok(Some(line))
}

// The digits that are kept, where those that aren't are zeros.
fn spared(alloc: Global, kept: &[u8], spare: &[u8]) -> Result<Option<String>, AllocError> {
    if !spare.iter().all(|digit| *digit == b'0') {
        return Ok(None);
    }
    match std::str::from_utf8(kept) {
        Ok(kept) => Ok(Some(format!(in alloc; "value = \"{kept}\"")?)),
        Err(_) => Ok(None),
    }
}

fn wrong_width(alloc: Global, data: &DataType, digits: &str) -> Result<Wrong, AllocError> {
    let told = octets_text(alloc, (digits.len() / 2) as u64)?;
    let (name, size) = (data.name, data.size);
    let mut wrong = Wrong::told(format!(in alloc; "`value` has {told}, and {name} has {size}")?);
    let wanted = usize::try_from(data.size).unwrap_or(8).min(8) * 2;
    wrong.remedy = padded(alloc, digits, wanted)?;
    Ok(wrong)
}

/// What is wrong with the octets of a number of a data type: they are too few or too many, or not within the bounds beside them.
pub(crate) fn wrong_number_of(
    alloc: Global,
    site: &Site,
    data: &DataType,
    digits: &str,
) -> Result<Option<Wrong>, NoMemory> {
    if (digits.len() / 2) as u64 != data.size {
        return Ok(Some(wrong_width(alloc, data, digits)?));
    }
    if data.number == 1 && digits != "00" && digits != "01" {
        return Ok(Some(Wrong::told(String::from_str(alloc, "a BOOLEAN is 00 or 01")?)));
    }
    wrong_bounds(alloc, site, digits, data.is_signed)
}
