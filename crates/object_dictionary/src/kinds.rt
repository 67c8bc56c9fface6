ghost use Rattle.std.specs.Prelude.{◌≡◌, ◌≤◌, length, true, None};
ghost use Rattle.object_dictionary.specs.Entries.{is_text, size_of_kind, is_entry, bound_refusal};

use crate::entry::{EntrySpec, refuses_value};

/// Whether a data type is VISIBLE_STRING or OCTET_STRING; every other one is a number (CiA 301).
pub fn is_string(kind: u16) -> bool
    ensures { result ≡ is_text kind }
{
    kind == 9 || kind == 10
}

/// The octets of a value of a numeric data type: 1, 2, 4 or 8.
pub fn size_of_kind(kind: u16) -> u32
    ensures value { result ≡ size_of_kind kind }
    ensures some { 1 ≤ result }
    ensures few { result ≤ 8 }
{
    match kind {
        21 | 27 => 8,
        4 | 7 => 4,
        3 | 6 => 2,
        _ => 1,
    }
}

impl EntrySpec {
    /// Why the entry's own value is out of its bounds, as an abort code: above `max`, a BOOLEAN above 1, or
    /// below `min`. None where it is within them; a string has none.
    pub fn refuses_value(&self) -> Option<u32>
        requires { is_entry self.now ≡ true }
        ensures { result ≡ bound_refusal self.now self.now.value }
    {
        refuses_value(self.kind, self.min, self.max, self.value.bytes())
    }
}
