//! The contents of a slot, and what a seat knows.

ghost use Rattle.std.specs.Prelude.{◌≡◌, None, Some};

use event_log::{CpuId, Event, LockId};
use layer_traits::{Ghost, Mark};
use std::collections::LinkedList;
use std::marker::Model;
use std::mem;

/// The contents of a lock's slot: its block and, only for clauses, the edit of the section that
/// left the block there.
#[derive(Drop)]
pub(crate) struct Home<E, B> {
    pub(crate) block: Option<B>,
    pub(crate) edit: Ghost<Option<E>>,
}

/// The slot of a lock, viewed as its contents. Slots are adjacent, and CPUs that are inside
/// different locks write theirs at the same time. Therefore 128 bytes after the contents are left
/// unused, and at any address no two slots share a pair of cache lines.
#[derive(Drop)]
pub(crate) struct Slot<E, B> {
    home: Home<E, B>,
    unused: [u64; 16],
}

impl<E, B> Model for Slot<E, B> {
    ghost use Rattle.table_machine.specs.declared.views.Home.{Home};

    ghost Value = { Home E B };

    ghost view = { λ s. s.home };
}

impl<E: Drop, B: Drop> Slot<E, B> {
    ghost use Rattle.table_machine.specs.Rule.{fresh_home};

    /// Returns a slot with this block, which no section left there.
    pub(crate) fn new(block: B) -> Slot<E, B>
        ensures { result ≡ fresh_home block }
    {
        Slot {
            home: Home {
                block: Some(block),
                edit: Ghost::of(&None),
            },
            unused: [0; 16],
        }
    }

    /// Returns the contents of the slot.
    pub(crate) fn into_home(self) -> Home<E, B>
        ensures { result ≡ self }
    {
        let Slot { home, unused: _ } = self;
        home
    }

    /// Takes the block out.
    #[inline(always)]
    pub(crate) fn take(&mut self) -> Option<B>
        ensures block { result ≡ self.old.block }
        ensures empty { self.new ≡ record { block = None; edit = self.old.edit } }
    {
        mem::replace(&mut self.home.block, None)
    }

    /// Puts a block in, in place of the contents, with the edit of the section that leaves it.
    #[inline(always)]
    pub(crate) fn put(&mut self, block: B, edit: E)
        ensures { self.new ≡ record { block = Some block; edit = Some edit } }
    {
        self.home.block = Some(block);
        self.home.edit = Ghost::of(&Some(edit));
    }
}

/// What a seat knows. No value of it is made: it exists only in proofs.
pub struct View<E, B> {
    /// The blocks that the table opened with.
    pub start: LinkedList<(LockId, B)>,
    /// The CPUs that this seat acts for.
    pub cpus: LinkedList<CpuId>,
    /// The log that it has seen.
    pub history: LinkedList<Event<Mark<E>>>,
    /// What another seat had seen, until the next load merges it.
    pub told: LinkedList<Event<Mark<E>>>,
    /// The CPUs that the other seat acted for.
    pub lent: LinkedList<CpuId>,
}
