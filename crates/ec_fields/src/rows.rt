ghost use Rattle.std.specs.Prelude.{◌≡◌, ◌<◌, [], ◌∷◌, ◌++◌, length, IfErr, OnOk, OnErr, IsTrue, ◌↔◌, IfNone, MatchOption, slice_get, slice_index_or};
ghost use Rattle.std.specs.Option.{option_copied};
ghost use Rattle.std.specs.Borrow.{sem};
ghost use Rattle.ec_fields.specs.Rows.{LendsRow};

use crate::memory::NoMemory;
use std::alloc::Global;
use std::marker::Model;

/// A list of rows that can grow.
#[derive(Drop)]
pub struct Rows<T> {
    rows: Vec<T>,
}

impl<T> Model for Rows<T> {
    ghost use Rattle.std.specs.Prelude.{List};

    ghost Value = { List T };

    ghost view = { λ r. r.rows.items };
}

impl<T> Rows<T> {
    /// The empty list. It takes no memory yet; later calls grow it from `alloc`.
    pub fn new(alloc: Global) -> Rows<T>
        ensures { result ≡ [] }
    {
        Rows {
            rows: Vec::new(alloc),
        }
    }

    /// Appends a row. `Err(row)` is want of memory: the row comes back and the list is as before.
    pub fn push(&mut self, row: T) -> Result<(), T>
        ensures ok { OnOk result (self.new ≡ self.old ++ row ∷ []) }
        ensures err { OnErr result (self.new ≡ self.old) }
        ensures returned { IfErr result (λ back. back ≡ row) }
    {
        match self.rows.push(row) {
            Ok(()) => Ok(()),
            Err(failed) => Err(failed.value),
        }
    }

    /// How many rows there are.
    pub fn len(&self) -> usize
        ensures { result ≡ length self.now }
    {
        self.rows.len()
    }

    /// Whether there are none.
    pub fn is_empty(&self) -> bool
        ensures { IsTrue result ↔ (self.now ≡ []) }
    {
        self.rows.is_empty()
    }

    /// The row at a place, counted from 0; `None` exactly where the list has no such row.
    pub fn get(&self, at: usize) -> Option<&T>
        ensures { option_copied result ≡ slice_get self.now at }
    {
        self.rows.get(at)
    }

    /// The row at a place, to be changed; all other rows stay.
    pub fn at_mut(&mut self, at: usize) -> &mut T
        requires { at < length self.old }
        ensures* writes_back { sem 𝓛 (LendsRow T.row self.entry at result) }
        ensures value { result.now ≡ slice_index_or self.old at result.now }
    {
        &mut self.rows[at]
    }

    /// Removes the last row and gives it; `None` exactly where no row is left.
    pub fn pop(&mut self) -> Option<T>
        ensures last { MatchOption result (self.old ≡ []) (λ row. self.old ≡ self.new ++ row ∷ []) }
        ensures none { IfNone result (self.new ≡ []) }
    {
        self.rows.pop()
    }

    /// The rows in order.
    pub fn as_slice(&self) -> &[T]
        ensures { result.now ≡ self.now }
    {
        self.rows.as_slice()
    }
}

impl<T: Drop> Rows<T> {
    /// Appends a row. After `NoMemory` the list is as before, and the row is gone.
    pub fn add(&mut self, row: T) -> Result<(), NoMemory>
        ensures ok { OnOk result (self.new ≡ self.old ++ row ∷ []) }
        ensures err { OnErr result (self.new ≡ self.old) }
    {
        match self.push(row) {
            Ok(()) => Ok(()),
            Err(_) => Err(NoMemory),
        }
    }
}
