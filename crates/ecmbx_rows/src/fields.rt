//! Octets, rows, fields and frames.

ghost use Rattle.std.specs.Prelude.{◌≡◌};

use datagrams::{Command, FrameBuf, Head, add, begin, finish};
use ec_fields::{Rows, Transfer, bits, put_bits, put_u16, put_u32, u8_at, u16_at, u32_at};
use row_table::{Bench, Row};

/// Octets, rows, fields and frames.
#[derive(Drop)]
pub struct FieldBench;

// Octets with more behind them.
fn grow(row: &mut Row<'_>) {
    let mut octets = row.octets();
    let more = row.octets();
    row.check(octets.add(more.bytes()).is_ok());
    row.digits(octets.bytes());
}

// Rows of two numbers, of which the second is changed: how many there are, and both as they are removed.
fn change(row: &mut Row<'_>) {
    let (first, second, other) = (row.number(), row.number(), row.number());
    let mut rows = Rows::new(row.alloc());
    if rows.push(u64::from(first)).is_err() || rows.push(u64::from(second)).is_err() {
        return row.fail();
    }
    *rows.at_mut(1) = u64::from(other);
    row.show(rows.len() as u64);
    row.show_some(rows.pop());
    row.show_some(rows.pop());
}

// A transfer of three octets at most, to which three parts are added: whether each fits, and what stands there.
fn add_three(row: &mut Row<'_>) {
    let Ok(mut transfer) = Transfer::new(row.alloc(), 3) else {
        return row.fail();
    };
    for _ in 0..3 {
        let part = row.octets();
        row.answer(transfer.add(part.bytes()));
    }
    row.digits(transfer.bytes());
}

// Eight octets with a number of two octets at place 1 and one of four at place 3, and what is read there.
fn put(row: &mut Row<'_>) {
    let (word, long) = (row.short(), row.number());
    let mut octets = [0xEE; 8];
    put_u16(&mut octets, 1, word);
    put_u32(&mut octets, 3, long);
    row.digits(&octets);
    row.show(u64::from(u8_at(&octets, 0)));
    row.show(u64::from(u16_at(&octets, 1)));
    row.show(u64::from(u32_at(&octets, 3)));
}

// Bits of a word.
fn tell_bits(row: &mut Row<'_>) {
    let (word, at, count) = (row.short(), row.number(), row.number());
    if at > 15 || count < 1 || count > 15 || at + count > 16 {
        return row.fail();
    }
    row.show(u64::from(bits(word, at, count)));
}

// The head of a repeat request.
fn request_head(station: u16) -> Head
    ensures { result.len ≡ 1 }
{
    Head {
        command: Command::Fpwr,
        index: 0x0C,
        adp: station,
        ado: 0x080E,
        len: 1,
        ..Head::default()
    }
}

// The frame that writes the repeat request of two slaves.
fn requests(row: &mut Row<'_>) {
    let (first, second) = (row.short(), row.short());
    let mut frame = FrameBuf::new();
    begin(&mut frame);
    add(&mut frame, &request_head(first), &[3]);
    add(&mut frame, &request_head(second), &[3]);
    finish(&mut frame);
    row.digits(frame.as_slice());
}

impl Bench for FieldBench {
    fn carry(&mut self, row: &mut Row<'_>) {
        match row.word() {
            "octets" => grow(row),
            "rows" => change(row),
            "transfer" => add_three(row),
            "put" => put(row),
            "bits" => tell_bits(row),
            "put_bits" => {
                let word = row.short();
                row.show(u64::from(put_bits(word, 12, 3, 5)));
            }
            "requests" => requests(row),
            _ => row.fail(),
        }
    }
}
