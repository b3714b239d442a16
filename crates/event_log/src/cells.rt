//! Tables whose reads and writes are counted. No call allocates memory or waits.

ghost use Rattle.std.specs.Prelude.{◌≡◌, ◌+◌, ◌<◌, ℕ, length, slice_index_or, slice_set};

use std::marker::Model;
use std::sync::ledger::{Blank, Book, Ledger, Share};

/// How many cells were read or written: a ghost count, which takes no bytes and no time. Only
/// [`Cells`] adds to it, one for each cell that it reads or writes. A call that is passed a count
/// therefore adds to it at least what the call read and wrote under it. What a call does under a
/// private count, made by [`fresh`](Ticks::fresh), is in that count.
#[derive(Drop)]
pub struct Ticks<L: Ledger> {
    book: Book<L>,
    share: Share<L>,
}

impl<L: Ledger> Model for Ticks<L> {
    ghost use Rattle.std.specs.Prelude.{ℕ, ◌<◌};

    ghost Value = { ℕ };

    ghost view = { λ t. t.book.total };

    ghost invariant = { λ t. 0 < t.share.parts };
}

impl<L: Ledger> Ticks<L> {
    /// Returns a count of 0. No type is assigned to `blank` yet.
    ///
    /// Requires: `blank` is a ledger of one part. `L` has its name and its parts.
    pub fn fresh(blank: Blank) -> Ticks<L>
        requires name { blank.name ≡ L.name }
        requires parts { blank.parts ≡ L.parts }
        requires one { blank.parts ≡ 1 }
        ensures { result ≡ 0 }
    {
        let (book, share) = blank.open();
        Ticks { book, share }
    }

    fn tick(&mut self)
        ensures { self.new ≡ self.old + 1 }
    {
        self.book.add(&mut self.share, 1);
    }
}

/// A table of `N` cells, seen as the list of what they hold. Each read and each write of a cell is
/// counted.
#[derive(Drop)]
pub struct Cells<T: Copy + Drop, const N: usize> {
    cells: [T; N],
}

impl<T: Copy + Drop, const N: usize> Model for Cells<T, N> {
    ghost use Rattle.std.specs.Prelude.{List};

    ghost Value = { List T };

    ghost view = { λ c. c.cells };
}

impl<T: Copy + Drop, const N: usize> Cells<T, N> {
    /// Returns a table with `value` in each of its `N` cells.
    pub fn filled(value: T) -> Self
        ensures length { length result ≡ N }
        ensures each { (i : ℕ) → i < N → slice_index_or result i value ≡ value }
    {
        Cells { cells: [value; N] }
    }

    /// Returns the value of cell `i`. One tick.
    ///
    /// Requires: `i` is less than the number of cells.
    pub fn get<L: Ledger>(&self, i: usize, ticks: &mut Ticks<L>) -> T
        requires { i < length self.now }
        ensures value { result ≡ slice_index_or self.now i result }
        ensures ticks { ticks.new ≡ ticks.old + 1 }
    {
        ticks.tick();
        let cells: &[T] = &self.cells;
        cells[i]
    }

    /// Stores `value` in cell `i`. One tick.
    ///
    /// Requires: `i` is less than the number of cells.
    pub fn set<L: Ledger>(&mut self, i: usize, value: T, ticks: &mut Ticks<L>)
        requires { i < length self.old }
        ensures cells { self.new ≡ slice_set self.old i value }
        ensures ticks { ticks.new ≡ ticks.old + 1 }
    {
        ticks.tick();
        let held: &mut [T] = &mut self.cells;
        held[i] = value;
    }
}
