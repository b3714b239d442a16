//! The rule that each atomic step keeps.
use crate::table_words::TableWords;
use crate::views::{Slot, View};
use atomic_table::{Seat, Shared, Table, TableRule};
use event_log::LockId;
use layer_traits::SplitEdit;
use std::alloc::Global;
use std::marker::PhantomData;
use std::snapshot::Snapshot;

/// What the table is given once, when it is made.
#[derive(Drop)]
pub(crate) struct Opening<B> {
    /// The number of CPUs.
    pub(crate) cpus: u8,
    /// The blocks that it opens with.
    pub(crate) blocks: Snapshot<Vec<(LockId, B)>>,
}

/// The invariant: there is one legal log, the words and the blocks are its replay, and each view is
/// a prefix of it.
pub(crate) struct LogRule<E, K> {
    edit: PhantomData<E>,
    words: PhantomData<K>,
}

impl<E: SplitEdit, K: TableWords> TableRule<Slot<E, E::Block>, View<E, E::Block>, Opening<E::Block>>
    for LogRule<E, K> {
    ghost use Rattle.{std.specs.Prelude.{[]}, table_machine.specs.{Rule.TableInv, Views.{caught_up, cpus_from}}};

    ghost holds = { λ k. TableInv K.kind E.protocol k.cpus k.blocks.value.items };

    ghost first = { λ k. caught_up k.blocks.value.items (cpus_from 0 k.cpus) [] };
}

pub(crate) type Token<E> = Seat<Slot<E, <E as SplitEdit>::Block>, View<E, <E as SplitEdit>::Block>>;

pub(crate) type Core<E, K> = Shared<
    Slot<E, <E as SplitEdit>::Block>,
    View<E, <E as SplitEdit>::Block>,
    Opening<<E as SplitEdit>::Block>,
    LogRule<E, K>,
>;

pub(crate) type Whole<E, K> = Table<
    Slot<E, <E as SplitEdit>::Block>,
    View<E, <E as SplitEdit>::Block>,
    Opening<<E as SplitEdit>::Block>,
    LogRule<E, K>,
    Global,
>;
