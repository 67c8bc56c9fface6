ghost use Rattle.std.specs.Prelude.{◌≡◌, map};
ghost use Rattle.fault_texts.specs.Rows.{asked, keys_of};

use crate::rows::{ENTRY, FILE, IDN, OBJECT, SLAVE, TOP};
use crate::services::{HOST, SERVICE};
use crate::shape::{Kind, Row};

/// The keys of a kind of table, in the order in which they are read.
pub fn rows_of(kind: Kind) -> &'static [Row]
    ensures { map asked result.now ≡ keys_of kind }
{
    match kind {
        Kind::Top => TOP,
        Kind::Slave => SLAVE,
        Kind::Object => OBJECT,
        Kind::Entry => ENTRY,
        Kind::File => FILE,
        Kind::Idn => IDN,
        Kind::Service => SERVICE,
        Kind::Host => HOST,
    }
}
