ghost use Rattle.std.specs.Prelude.{◌≡◌, ◌≤◌, ◌<◌, ◌+◌, nat_le, [], true, length, None};
ghost use Rattle.object_dictionary.specs.Entries.{is_entry};
ghost use Rattle.object_dictionary.specs.Dictionary.{object_of};
ghost use Rattle.object_dictionary.specs.Whole.{sizes};
ghost use Rattle.object_dictionary.specs.Sound.{are_entries, are_sized, is_object, is_emitter, is_accepted};

use crate::entry::EntrySpec;
use crate::kinds::{is_string, size_of_kind};
use crate::objects::Objects;
use ec_fields::{Octets, Rows};

// Whether a dictionary may have the entry.
fn is_entry(spec: &EntrySpec) -> bool
    ensures { result ≡ is_entry spec.now }
{
    let len = spec.value.len();
    (is_string(spec.kind) || spec.most == size_of_kind(spec.kind))
        && 1 <= spec.least
        && spec.least <= spec.most
        && spec.most <= 8000
        && spec.least as usize <= len
        && len <= spec.most as usize
        && spec.name.len() <= 40
}

fn are_entries(specs: &[EntrySpec]) -> bool
    ensures { result ≡ are_entries specs.now }
{
    specs.iter().all(|spec| is_entry(spec))
}

/// Whether the greatest sizes of the entries are 16,000 octets or fewer together, as an object's have to be.
pub fn are_small(specs: &[EntrySpec]) -> bool
    ensures { result ≡ nat_le (sizes specs.now) 16000 }
{
    let mut left = 16_000;
    for spec in specs {
        if spec.most > left {
            return false;
        }
        left -= spec.most;
    }
    true
}

fn are_sized(specs: &[EntrySpec], least: u32, most: u32) -> bool
    ensures { result ≡ are_sized least most specs.now }
{
    specs
        .iter()
        .all(|spec| spec.least == least && spec.most == most)
}

// Whether the sizes are those of what a download emits.
fn is_emitter(index: u16, specs: &[EntrySpec]) -> bool
    ensures { result ≡ is_emitter index (record { code = 0; name = []; entries = specs.now }) }
{
    match index {
        0x2F00 => are_sized(specs, 8, 8),
        0x2F01 => are_sized(specs, 14, 1514),
        _ => true,
    }
}

fn is_object(code: u8, name: &[u8], specs: &[EntrySpec]) -> bool
    ensures { result ≡ is_object (record { code = code; name = name.now; entries = specs.now }) }
{
    let most = if code == 7 { 1 } else { 254 };
    1 <= specs.len()
        && specs.len() <= most
        && are_small(specs)
        && name.len() <= 40
        && are_entries(specs)
}

impl Objects {
    /// Whether `insert` may be called with this object: its index is free, fewer than 258 objects are there, a variable has one entry and an
    /// array or record 1 to 254, of at most 16,000 octets together, and each value fits its entry.
    pub fn accepts(&self, index: u16, code: u8, name: &Octets, entries: &Rows<EntrySpec>) -> bool
        ensures exact { result ≡ is_accepted index (record { code = code; name = name.now; entries = entries.now }) self.now }
        ensures absent { result ≡ true → object_of self.now index ≡ None }
        ensures few { result ≡ true → length self.now < 258 }
        ensures object { result ≡ true → is_object (record { code = code; name = name.now; entries = entries.now }) ≡ true }
        ensures emitter { result ≡ true → is_emitter index (record { code = code; name = name.now; entries = entries.now }) ≡ true }
    {
        let specs = entries.as_slice();
        !self.has(index)
            && self.len() < 258
            && is_object(code, name.bytes(), specs)
            && is_emitter(index, specs)
    }
}
