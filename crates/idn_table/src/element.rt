ghost use Rattle.std.specs.Prelude.{◌≡◌};
ghost use Rattle.idn_table.specs.Idns.{element_of};

/// The element of an IDN that a service is about.
#[derive(Clone, Copy)]
pub enum Element {
    State,
    Name,
    Attribute,
    Unit,
    Minimum,
    Maximum,
    Value,
}

/// The element of these flags: exactly one of the bits 0 to 6.
pub(crate) fn element_of(flags: u8) -> Option<Element>
    ensures { result ≡ element_of flags }
{
    match flags {
        0x01 => Some(Element::State),
        0x02 => Some(Element::Name),
        0x04 => Some(Element::Attribute),
        0x08 => Some(Element::Unit),
        0x10 => Some(Element::Minimum),
        0x20 => Some(Element::Maximum),
        0x40 => Some(Element::Value),
        _ => None,
    }
}
