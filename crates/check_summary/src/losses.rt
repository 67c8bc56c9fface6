ghost use Rattle.std.specs.Prelude.{◌≡◌};
ghost use Rattle.check_summary.specs.Losses.{count_of, extended, longer, counted_in, longest_row};

/// Frames in a row that are lost.
#[derive(Clone, Copy)]
pub struct Row {
    /// The number of the first, counted from 0.
    pub first: u32,
    /// The number of the one behind the last.
    pub behind: u64,
}

impl Row {
    /// How many there are.
    pub fn count(self) -> u64
        ensures { result ≡ count_of self }
    {
        self.behind.saturating_sub(u64::from(self.first))
    }
}

/// The longest row so far, and the row of the last frame.
#[derive(Clone, Copy)]
struct Rows {
    longest: Row,
    last: Row,
}

// The row with a frame: it goes on where the frame follows it, else another one begins.
fn extended(row: Row, frame: u32) -> Row
    ensures { result ≡ extended row frame }
{
    let number = u64::from(frame);
    Row {
        first: if number == row.behind {
            row.first
        } else {
            frame
        },
        behind: number + 1,
    }
}

// The longer of two rows, the first where they are as long.
fn longer(row: Row, other: Row) -> Row
    ensures { result ≡ longer row other }
{
    if row.count() < other.count() {
        other
    } else {
        row
    }
}

// The rows with one more frame.
fn counted_in(rows: Rows, frame: u32) -> Rows
    ensures { result ≡ counted_in rows frame }
{
    let last = extended(rows.last, frame);
    Rows {
        longest: longer(rows.longest, last),
        last,
    }
}

/// The first of the longest rows of frames that are lost, each with the number of slaves that it meets before.
pub fn longest_row(lose: &[(u32, u32)]) -> Row
    ensures { result ≡ longest_row lose.now }
{
    let none = Row {
        first: 0,
        behind: 0,
    };
    let mut rows = Rows {
        longest: none,
        last: none,
    };
    for (frame, _) in lose {
        rows = counted_in(rows, *frame);
    }
    rows.longest
}
