//! A queue of items in a table of a fixed size, where no item is ever moved. No call allocates
//! memory or waits.

ghost use Rattle.std.specs.Prelude.{◌≡◌, ◌+◌, ◌<◌, ◌≤◌, ◌++◌, ◌∷◌, [], length};
ghost use Rattle.event_log.specs.{declared.ids.TheConstants.CAPACITY, Rings.{front_item, items_behind}};

use crate::cells::{Cells, Ticks};
use crate::ids::CAPACITY;
use arrayvec::ArrayVec;
use std::marker::{Brand, Model};
use std::sync::ledger::{Blank, Ledger};

/// A queue of at most [`CAPACITY`] items, front first. It is a circular buffer, in which a put or a
/// take touches one cell (the bounded buffer of Anderson and Dahlin, Operating Systems: Principles
/// and Practice).
#[derive(Drop)]
pub struct Ring<T: Copy + Drop> {
    slots: Cells<T, CAPACITY>,
    start: usize,
    len: usize,
}

impl<T: Copy + Drop> Model for Ring<T> {
    ghost use Rattle.std.specs.Prelude.{◌≡◌, ◌<◌, ◌≤◌, List, length};
    ghost use Rattle.event_log.specs.{declared.ids.TheConstants.CAPACITY, Rings.window};

    ghost Value = { List T };

    ghost view = { λ q. window q.start q.len q.slots };

    ghost invariant = { λ q. (q.start < CAPACITY) × (q.len ≤ CAPACITY) × (length q.slots ≡ CAPACITY) };
}

impl<T: Copy + Drop> Ring<T> {
    /// Returns an empty queue. Its cells hold `filler` until an item is put in them.
    pub fn new(filler: T) -> Ring<T>
        ensures { result ≡ [] }
    {
        Ring {
            slots: Cells::filled(filler),
            start: 0,
            len: 0,
        }
    }

    /// Returns how many items are in the queue.
    pub fn len(&self) -> usize
        ensures items { result ≡ length self.now }
        ensures within { result ≤ CAPACITY }
    {
        self.len
    }

    /// Puts `item` after the others. At most two ticks.
    ///
    /// Requires: the queue holds fewer than [`CAPACITY`] items.
    pub fn put_in<L: Ledger>(&mut self, item: T, ticks: &mut Ticks<L>)
        requires { length self.old < CAPACITY }
        ensures items { self.new ≡ self.old ++ item ∷ [] }
        ensures ticks { ticks.new ≤ ticks.old + 2 }
    {
        let slot = (self.start + self.len) % CAPACITY;
        self.slots.set(slot, item, ticks);
        self.len += 1;
    }

    /// Removes and returns the item at the front; `None` if the queue is empty. At most two ticks.
    pub fn take_in<L: Ledger>(&mut self, ticks: &mut Ticks<L>) -> Option<T>
        ensures first { result ≡ front_item self.old }
        ensures rest { self.new ≡ items_behind self.old }
        ensures ticks { ticks.new ≤ ticks.old + 2 }
    {
        if self.len == 0 {
            return None;
        }
        let item = self.slots.get(self.start, ticks);
        self.start = (self.start + 1) % CAPACITY;
        self.len -= 1;
        Some(item)
    }
    /// Puts `item` after the others.
    ///
    /// Requires: the queue holds fewer than [`CAPACITY`] items.
    pub fn put(&mut self, item: T)
        requires { length self.old < CAPACITY }
        ensures { self.new ≡ self.old ++ item ∷ [] }
    {
        put_from::<T, Brand>(self, item, Blank::new(1));
    }

    /// Removes and returns the item at the front; `None` if the queue is empty.
    pub fn take(&mut self) -> Option<T>
        ensures first { result ≡ front_item self.old }
        ensures rest { self.new ≡ items_behind self.old }
    {
        take_from::<T, Brand>(self, Blank::new(1))
    }

    /// Returns the items, front first, as a separate list. One tick for each.
    pub fn items_in<L: Ledger>(&self, ticks: &mut Ticks<L>) -> ArrayVec<T, CAPACITY>
    where
        T: Default,
        ensures items { result.items ≡ self.now }
        ensures ticks { ticks.new ≡ ticks.old + length self.now }
    {
        let mut items = ArrayVec::new();
        for i in 0..self.len {
            let slot = (self.start + i) % CAPACITY;
            items.push(self.slots.get(slot, ticks));
        }
        items
    }

    /// Returns the items, front first, as a separate list.
    pub fn items(&self) -> ArrayVec<T, CAPACITY>
    where
        T: Default,
        ensures { result.items ≡ self.now }
    {
        items_from::<T, Brand>(self, Blank::new(1))
    }
}

fn put_from<T: Copy + Drop, L: Ledger>(ring: &mut Ring<T>, item: T, blank: Blank)
    requires name { blank.name ≡ L.name }
    requires parts { blank.parts ≡ L.parts }
    requires one { blank.parts ≡ 1 }
    requires room { length ring.old < CAPACITY }
    ensures { ring.new ≡ ring.old ++ item ∷ [] }
{
    let mut ticks = Ticks::<L>::fresh(blank);
    ring.put_in(item, &mut ticks);
}

fn take_from<T: Copy + Drop, L: Ledger>(ring: &mut Ring<T>, blank: Blank) -> Option<T>
    requires name { blank.name ≡ L.name }
    requires parts { blank.parts ≡ L.parts }
    requires one { blank.parts ≡ 1 }
    ensures first { result ≡ front_item ring.old }
    ensures rest { ring.new ≡ items_behind ring.old }
{
    let mut ticks = Ticks::<L>::fresh(blank);
    ring.take_in(&mut ticks)
}

fn items_from<T: Copy + Default + Drop, L: Ledger>(
    ring: &Ring<T>,
    blank: Blank,
) -> ArrayVec<T, CAPACITY>
    requires name { blank.name ≡ L.name }
    requires parts { blank.parts ≡ L.parts }
    requires one { blank.parts ≡ 1 }
    ensures { result.items ≡ ring.now }
{
    let mut ticks = Ticks::<L>::fresh(blank);
    ring.items_in(&mut ticks)
}
