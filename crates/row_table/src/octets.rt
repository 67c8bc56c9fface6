use anyhow::Result;
use ec_fields::Octets;
use std::alloc::Global;

// Appends the octets of a part: hexadecimal digits, or `DIGITS*COUNT`.
fn add_part(alloc: Global, part: &str, octets: &mut Octets) -> Result<()> {
    let (digits, count) = match part.split_once('*') {
        Some((digits, count)) => (digits, count.parse::<u32>()?),
        None => (part, 1),
    };
    let bytes = hex::decode(alloc, digits)?;
    for _ in 0..count {
        octets.add(bytes.as_slice())?;
    }
    Ok(())
}

/// The octets of a text, as `03000100+07*52`; `-` stands for none.
pub fn octets_in(alloc: Global, text: &str) -> Result<Octets> {
    let mut octets = Octets::new(alloc);
    if text == "-" {
        return Ok(octets);
    }
    for part in text.split('+') {
        add_part(alloc, part, &mut octets)?;
    }
    Ok(octets)
}
