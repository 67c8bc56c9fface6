ghost use Rattle.std.specs.Prelude.{◌≡◌, ℕ, ◌<◌, ◌≤◌, false, true, length, suc, count_by, ◌==◌, take};
ghost use Rattle.toml_places.specs.Lines.{is_line_end, line_number};

/// Where the line ends in which a place stands: behind its line feed, or at the end of the text.
pub fn line_end(text: &[u8], from: usize) -> usize
    requires { from < length text.now }
    ensures behind { from < result }
    ensures within { result ≤ length text.now }
    ensures ends { is_line_end text.now result ≡ true }
    // It is the first line end behind the place.
    ensures first { (k : ℕ) → from < k → k < result → is_line_end text.now k ≡ false }
{
    for at in from..text.len() {
        if text[at] == b'\n' {
            return at + 1;
        }
    }
    text.len()
}

/// The number of the line that begins at a place, counted from 1.
pub fn line_number(text: &[u8], at: usize) -> usize
    requires { at ≤ length text.now }
    ensures { result ≡ line_number text.now at }
{
    text[..at].iter().filter(|octet| **octet == b'\n').count() + 1
}
