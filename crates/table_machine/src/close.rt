//! How a table is closed. The function neither allocates nor blocks.

ghost use Rattle.std.specs.Prelude.{◌≡◌, ℕ, ◌<◌, ◌≤◌, [], ◌∷◌, ◌++◌, Some, IsSome, All, List, length, vec_capacity};
ghost use Rattle.std.specs.Mem.Slots.{slots_items, slots_len, IsFull};
ghost use mathlib.Core.Option.{some};
ghost use lib.ListN.{get_elem?};
ghost use Rattle.{event_log.specs.declared.ids.LockId.LockId, table_machine.specs.{declared.views.Home.Home, SeatViews.{SeatView, IsOver, Covers}}};
ghost use Rattle.table_machine.specs.SeatViews.{ClosesTable, Gathered};

use crate::keys::Key;
use crate::plays::{Copies, Enters, Meets};
use crate::rule::Token;
use crate::shared::Shared;
use crate::table_words::TableWords;
use crate::views::{Home, Slot};
use atomic_table::Closed;
use event_log::LockId;
use layer_traits::SplitEdit;
use std::alloc::Global;

impl<E: SplitEdit, K: TableWords> Shared<E, K> {
    /// Closes the table and returns each block as the sections left it, in the order of `open`. It
    /// takes the keys of all CPUs, none with a ticket outstanding. There is one legal words log, of
    /// which the log of each key is a prefix. It contains exactly those events of each CPU that the
    /// CPU's key has seen. Each block is the fold of its lock's sections in that log. It allocates
    /// nothing.
    ///
    /// Requires: there is one key for each CPU, each is one of this table, and none is at a lock.
    pub fn close(self, keys: Vec<Key<E>>) -> Vec<(LockId, E::Block)>
        requires covers { Covers self.cpus keys.items }
        requires keys { All (IsOver self) keys.items }
        ensures { ClosesTable E.protocol self keys.items result.items }
    {
        let seat = self.gathered(keys);
        let Shared {
            table,
            ranks: _,
            locks,
            blocks,
        } = self;
        returned(table.close_with(seat), locks, blocks)
    }

    // Returns a new seat that has merged all keys.
    fn gathered(&self, keys: Vec<Key<E>>) -> Token<E>
        requires { All (IsOver self.now) keys.items }
        ensures table { result.table_id ≡ self.now.table }
        ensures gathered { Gathered self.now.start result.me.0 keys.items }
    {
        let (_, mut seat) = self.table.shared.load_new_seat::<Enters<E>>(0);
        for key in keys {
            self.absorb(&mut seat, key);
        }
        seat
    }

    // Merges one key into the seat.
    fn absorb(&self, seat: &mut Token<E>, key: Key<E>)
        requires table { seat.old.table_id ≡ self.now.table }
        requires start { seat.old.me.0.start ≡ self.now.start }
        requires over { IsOver self.now key }
        ensures table { seat.new.table_id ≡ self.now.table }
        ensures start { seat.new.me.0.start ≡ self.now.start }
        ensures gathered { (seat_views : List _) → Gathered self.now.start seat.old.me.0 seat_views
            → Gathered self.now.start seat.new.me.0 (seat_views ++ key ∷ []) }
    {
        let Key {
            token,
            cpu: _,
            ticket: _,
        } = key;
        let table = &self.table.shared;
        table.join_seat::<Copies>(seat, token);
        table.load::<Meets<E>>(seat, 0);
    }
}

// Returns the blocks in the slots, with their locks.
fn returned<E: SplitEdit>(
    mut closed: Closed<Slot<E, E::Block>, Global>,
    locks: Vec<LockId>,
    mut blocks: Vec<(LockId, E::Block)>,
) -> Vec<(LockId, E::Block)>
    requires full { IsFull closed.slots }
    requires count { slots_len closed.slots ≡ length locks.items }
    requires home { (i : ℕ) → i < length locks.items
        → (y : Home _ _) × (get_elem? (slots_items closed.slots) i ≡ some y) × IsSome y.block }
    requires empty { blocks.items ≡ [] }
    requires room { length locks.items ≤ vec_capacity blocks }
    ensures count { length result.items ≡ length locks.items }
    ensures blocks { (i : ℕ) (lock : LockId) (y : Home _ _) (b : _)
        → get_elem? locks.items i ≡ some lock → get_elem? (slots_items closed.slots) i ≡ some y
        → y.block ≡ Some b → get_elem? result.items i ≡ some (lock, b) }
{
    for i in 0..locks.len() {
        let slot = closed.take(i);
        let Home {
            block: left,
            edit: _,
        } = slot.into_home();
        let Some(block) = left else { unreachable!() };
        blocks.push_reserved((locks[i], block));
    }
    closed.free();
    blocks
}
