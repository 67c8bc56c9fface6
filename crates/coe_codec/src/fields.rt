ghost use Rattle.std.specs.Prelude.{◌≡◌, ◌≤◌, length};
ghost use Rattle.coe_codec.specs.Fields.{service_in, specifier_in, flag_in, unused_in, bit};

// Bits 12 to 15 of the header.
pub(crate) fn service(body: &[u8]) -> u8
    requires { 2 ≤ length body.now }
    ensures { result ≡ service_in body.now }
{
    body[1] / 16
}

// Bits 5 to 7 of the command.
pub(crate) fn specifier(body: &[u8]) -> u8
    requires { 3 ≤ length body.now }
    ensures { result ≡ specifier_in body.now }
{
    body[2] / 32
}

// One bit of the command, by its weight.
pub(crate) fn flag(body: &[u8], weight: u8) -> bool
    requires long { 3 ≤ length body.now }
    requires some { 1 ≤ weight }
    ensures { result ≡ flag_in body.now weight }
{
    body[2] / weight % 2 == 1
}

// Bits 1 to 3 of a segment's command.
pub(crate) fn unused(body: &[u8]) -> usize
    requires { 3 ≤ length body.now }
    ensures { result ≡ unused_in body.now }
{
    (body[2] / 2 % 8) as usize
}

// A flag as the number that a command has for it.
pub(crate) fn number(flag: bool) -> u8
    ensures { result ≡ bit flag }
{
    if flag { 1 } else { 0 }
}
