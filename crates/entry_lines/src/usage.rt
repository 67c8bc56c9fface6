ghost use Rattle.std.specs.Prelude.{◌≡◌};
ghost use Rattle.entry_lines.specs.Usage.{get_usage_line, put_usage_line};

/// The line where the words behind `get` are none that it has.
pub fn get_usage() -> &'static [u8]
    ensures { result.now ≡ get_usage_line }
{
    b"usage: ecmbx get SCENARIO SLAVE WHAT [FILE]\n"
}

/// The line where the words behind `put` are none that it has.
pub fn put_usage() -> &'static [u8]
    ensures { result.now ≡ put_usage_line }
{
    b"usage: ecmbx put SCENARIO SLAVE WHAT VALUE\n"
}
