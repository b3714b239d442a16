//! The table that the seats of all CPUs share. No function allocates or blocks.

ghost use Rattle.std.specs.Prelude.{◌≡◌, ◌<◌, ◌≤◌, ◌^◌, IsSome, length};
ghost use Rattle.{event_log.specs.declared.ids.TheConstants.CPUS, layer_traits.specs.Protocols.OneLock.opened, table_machine.specs.Layout.{rank_of, word_at}};
ghost use Rattle.table_machine.specs.Layout.{word_count};

use crate::rule::Whole;
use crate::table_words::{TableWords, TicketWords, WaiterWords};
use event_log::{CPUS, LockId};
use layer_traits::SplitEdit;
use std::marker::Model;

/// The words and the blocks of locks, shared by threads. Each lock has its words, `next` and those
/// that waiters poll, and a slot that contains its block while no CPU is inside it. The locks are
/// ticket locks by default.
///
/// In a contract it is a table view: the table's identity, the blocks that it opened with, and its
/// number of CPUs.
#[derive(Drop)]
pub struct Shared<E: SplitEdit, K: TableWords = TicketWords> {
    pub(crate) table: Whole<E, K>,
    pub(crate) ranks: Vec<usize>,
    pub(crate) locks: Vec<LockId>,
    pub(crate) blocks: Vec<(LockId, E::Block)>,
}

/// The words and the blocks of locks with a grant word for each waiter, shared by threads.
pub type GrantShared<E> = Shared<E, WaiterWords>;

impl<E: SplitEdit, K: TableWords> Model for Shared<E, K> {
    ghost use Rattle.std.specs.Prelude.{◌≡◌, ◌≤◌, [], length, vec_capacity};
    ghost use Rattle.{layer_traits.specs.Protocols.OneLock.AreDistinct, table_machine.specs.{SeatViews.TableView, Layout.IsLaidOut}};

    ghost Value = { TableView E.Block };

    ghost view = { λ s. record { table = s.table.shared.table_id; start = s.table.shared.key.blocks.value.items; cpus = s.table.shared.key.cpus } };

    ghost invariant = { λ s. (IsLaidOut s.table.shared.key.blocks.value.items s.table.shared.table_id.words s.table.shared.table_id.slots
        s.ranks.items s.locks.items)
        × (s.blocks.items ≡ []) × (length s.table.shared.key.blocks.value.items ≤ vec_capacity s.blocks)
        × AreDistinct s.table.shared.key.blocks.value.items };
}

impl<E: SplitEdit, K: TableWords> Shared<E, K> {
    #[tactic(auto, using(crate::proofs::Finding::rank_below))]
    // Returns the rank of a lock among those of the opening.
    pub(crate) fn rank(&self, lock: LockId) -> usize
        requires { IsSome (opened self.now.start lock) }
        ensures rank { result ≡ rank_of self.now.start lock }
        ensures within { result < length self.now.start }
        ensures small { word_count (length self.now.start) < 2 ^ 64 }
    {
        self.ranks[lock.number()]
    }

    // Returns the position of a lock's word, by the word's number.
    pub(crate) fn word(&self, lock: LockId, word: usize) -> usize
        requires lock { IsSome (opened self.now.start lock) }
        requires word { word ≤ CPUS }
        ensures { result ≡ word_at (rank_of self.now.start lock) word }
    {
        8 * ((CPUS + 1) * self.rank(lock) + word) + 8
    }

    /// Returns how many tickets were drawn at a lock, modulo 2^64, as a hint. The result may be any
    /// number, also if there is no such lock. It is no event, and needs no seat.
    pub fn next_hint(&self, lock: LockId) -> u64 {
        let rank = self.ranks[lock.number()];
        if rank < self.locks.len() {
            return self.table.shared.peek(8 * (CPUS + 1) * rank + 8);
        }
        0
    }
}
