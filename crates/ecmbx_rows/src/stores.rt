//! The blocks of a slave's memory, the files in them, and the values of a server.

ghost use Rattle.std.specs.Prelude.{◌≡◌, ◌≤◌, IfSome, None};
ghost use Rattle.file_store.specs.Stored.{HasPart};

use arrayvec::ArrayVec;
use block_pool::Pool;
use coe_values::{Slot, Values};
use ec_fields::{Transfer, buffer_of};
use file_store::{FileSpec, PoolFull, Store};
use row_table::{Bench, Row};

/// A region of three blocks and two chains; a store with the file `fw`, which may be read and written under the password 7, and is busy twice; and the two
/// values of a server, whose memory they share.
#[derive(Drop)]
pub struct StoreBench;

// One chain of 128 octets and one more: the free blocks behind each, the length, and its octets from a place on.
fn one_chain(row: &mut Row<'_>) {
    let at = row.count();
    let Ok(mut pool) = Pool::new(row.alloc(), 3, 2) else {
        return row.fail();
    };
    let octets = [7; 129];
    let Some(first) = pool.begin() else {
        return row.fail();
    };
    let Ok(()) = pool.append(&first, &octets[..128]) else {
        return row.fail();
    };
    let free = pool.free();
    let Ok(()) = pool.append(&first, &octets[..1]) else {
        return row.fail();
    };
    let (left, len) = (pool.free(), pool.len(&first));
    let mut into = [0; 4];
    let count = pool.read_at(&first, at, &mut into);
    row.show(u64::from(free));
    row.show(u64::from(left));
    row.show(len as u64);
    row.show(count as u64);
    row.digits(&into);
}

// Two chains, of 129 octets and 128: what is refused to the second, the free blocks, whether a third begins, and both behind the first's end.
fn two_chains(row: &mut Row<'_>) {
    let Ok(mut pool) = Pool::new(row.alloc(), 3, 2) else {
        return row.fail();
    };
    let octets = [7; 129];
    let Some(first) = pool.begin() else {
        return row.fail();
    };
    let Ok(()) = pool.append(&first, &octets) else {
        return row.fail();
    };
    let Some(second) = pool.begin() else {
        return row.fail();
    };
    let Err(_full) = pool.append(&second, &octets) else {
        return row.fail();
    };
    let (left, len) = (pool.free(), pool.len(&second));
    let Ok(()) = pool.append(&second, &octets[..128]) else {
        return row.fail();
    };
    let none = pool.free();
    if pool.begin().is_some() {
        return row.fail();
    }
    pool.close(first);
    let (free, anew) = (pool.free(), pool.begin().is_some());
    row.show(u64::from(left));
    row.show(len as u64);
    row.show(u64::from(none));
    row.show(u64::from(free));
    row.answer(anew);
}

// A store of so many blocks, whose file has these octets.
fn store_with(row: &mut Row<'_>, blocks: u32, boot: bool, bytes: &[u8]) -> Option<Store>
    requires { blocks ≤ 1024 }
    ensures { IfSome result (λ store. store.part ≡ None) }
{
    let Ok(mut store) = Store::new(row.alloc(), blocks) else {
        return None;
    };
    if bytes.len().div_ceil(128) > store.free() as usize {
        return None;
    }
    let spec = FileSpec {
        name: buffer_of(b"fw"),
        pass: 7,
        read: true,
        write: true,
        boot,
        busy: 2,
    };
    if store.insert(spec, bytes).is_err() {
        return None;
    }
    Some(store)
}

// A new version of the file, where the blocks allow it.
fn write(row: &mut Row<'_>, store: &mut Store, bytes: &[u8]) -> Result<(), PoolFull> {
    if store.allowed(b"fw", 7, true, 2).is_some() {
        row.fail();
        return Ok(());
    }
    store.begin(b"fw");
    if let Err(full) = store.append(bytes) {
        store.drop_part();
        return Err(full);
    }
    store.commit();
    Ok(())
}

// What the file has at a place, one octet.
fn octet(store: &Store, at: usize) -> Option<u64> {
    let mut into = [0; 1];
    if store.read_at(b"fw", at, &mut into) == 0 {
        return None;
    }
    Some(u64::from(into[0]))
}

// A version begins with 128 octets: how often the file is busy, and behind them the free blocks and the first octet.
fn begin(row: &mut Row<'_>, store: &mut Store) -> Option<()>
    ensures { IfSome result (λ _. HasPart store.new) }
{
    if store.allowed(b"fw", 7, true, 2).is_some() {
        return None;
    }
    row.show(u64::from(store.busy(b"fw")));
    store.begin(b"fw");
    if store.append(&[2; 128]).is_err() {
        return None;
    }
    row.show(u64::from(store.free()));
    row.show_some(octet(store, 0));
    Some(())
}

// Whether one octet more is taken, and behind the version's end the free blocks and octets 127 and 128.
fn end(row: &mut Row<'_>, store: &mut Store)
    requires { HasPart store.old }
{
    let Err(_full) = store.append(&[2]) else {
        return row.fail();
    };
    row.answer(false);
    store.commit();
    row.show(u64::from(store.free()));
    row.show_some(octet(store, 127));
    row.show_some(octet(store, 128));
}

// A version of 129 octets over two blocks, of which the file has one: what is seen before, while it is appended and behind its end.
fn version(row: &mut Row<'_>) {
    let Some(mut store) = store_with(row, 2, false, &[1; 128]) else {
        return row.fail();
    };
    row.show(u64::from(store.free()));
    row.show(store.len(b"fw") as u64);
    match begin(row, &mut store) {
        Some(()) => end(row, &mut store),
        None => row.fail(),
    }
}

// Whether a version was refused, and two blocks are free and the file has its octet as before.
fn stays(store: &Store, written: Result<(), PoolFull>) -> bool {
    written.is_err() && store.free() == 2 && octet(store, 0) == Some(9)
}

// So many versions of 257 octets and one of 256, over two free blocks: what the last of each came to, the free blocks, and one octet.
fn dropped(row: &mut Row<'_>) {
    let (count, at) = (row.number(), row.count());
    let octets = [3; 257];
    let Some(mut store) = store_with(row, 3, false, &[9]) else {
        return row.fail();
    };
    for _ in 0..count {
        let written = write(row, &mut store, &octets);
        row.check(stays(&store, written));
    }
    let written = write(row, &mut store, &octets[..256]);
    row.answer(written.is_ok());
    row.show(u64::from(store.free()));
    row.show_some(octet(&store, at));
}

// The code by which the file refuses, or another file.
fn refused(row: &mut Row<'_>) {
    let (boot, name) = (row.flag(), row.word().as_bytes());
    let (pass, al) = (row.number(), row.small());
    let Some(store) = store_with(row, 1, boot, &[]) else {
        return row.fail();
    };
    match store.allowed(name, pass, false, al) {
        Some(code) => row.show(u64::from(code)),
        None => row.say("none"),
    }
}

// Begins each value anew and again at its full length, while the other stays.
fn begin_anew(values: &mut Values) {
    let long = [5; 8192];
    values.begin(Slot::Told, &long);
    values.append(Slot::Told, &long);
    values.begin(Slot::Value, &[1, 2, 3]);
    values.append(Slot::Value, &long);
    values.append(Slot::Value, &long[..8189]);
}

// Both lengths, and three octets of the value.
fn tell_both(row: &mut Row<'_>, values: &Values) {
    row.show(values.len(Slot::Value) as u64);
    row.show(values.len(Slot::Told) as u64);
    let part: ArrayVec<u8, 4> = values.part(Slot::Value, 2, 3);
    row.digits(part.as_slice());
}

// The value's length where it is copied, and the other begun anew.
fn tell_copies(row: &mut Row<'_>, values: &mut Values) {
    let Ok(mut whole) = Transfer::new(row.alloc(), 16_384) else {
        return row.fail();
    };
    values.begin(Slot::Told, &[9]);
    values.copy_to(Slot::Value, &mut whole);
    row.show(whole.bytes().len() as u64);
    values.copy_to(Slot::Told, &mut whole);
    row.digits(whole.bytes());
}

// Both lengths behind so many rounds, three octets of the value, its length where it is copied, and the other begun anew.
fn rounds(row: &mut Row<'_>) {
    let count = row.number();
    let Ok(mut values) = Values::new(row.alloc()) else {
        return row.fail();
    };
    for _ in 0..count {
        begin_anew(&mut values);
    }
    tell_both(row, &values);
    tell_copies(row, &mut values);
}

impl Bench for StoreBench {
    fn carry(&mut self, row: &mut Row<'_>) {
        match row.word() {
            "one" => one_chain(row),
            "two" => two_chains(row),
            "version" => version(row),
            "dropped" => dropped(row),
            "refused" => refused(row),
            "rounds" => rounds(row),
            _ => row.fail(),
        }
    }
}
