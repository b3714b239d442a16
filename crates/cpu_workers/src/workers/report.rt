//! What the workers of a plan leave. No call takes memory or waits.

ghost use Rattle.std.specs.Prelude.{◌≡◌, Some, All};
ghost use Rattle.{layer_traits.specs.Protocols.OneLock.opened, table_machine.specs.SeatViews.{ClosesTable, Covers, IsOver}};
ghost use Rattle.cpu_workers.specs.{Closing.{block_shown, tower_rules}, Lawful.messages_in};

use crate::locks::PlanWords;
use crate::workers::stops::Stop;
use arrayvec::ArrayVec;
use boot::LockKind;
use event_log::{BufId, CAPACITY, Entry, LockId, Msg};
use ipc_calls::{TowerBlock, TowerEdit};
use layer_traits::QueueBlock;
use std::snapshot::Snapshot;
use table_machine::{Key, Shared};

/// What the workers of a plan leave. The lists of CPUs have one element for each CPU, by its
/// number. It is evidence: only this module makes it, of a table of shared words that was closed
/// with the keys of its CPUs.
#[derive(Drop)]
pub struct Report {
    /// The entries of each CPU's calls that took effect, oldest first.
    pub traces: Vec<Vec<Entry>>,
    /// Each lock of the tower, with the block that it guards.
    pub blocks: Vec<(LockId, TowerBlock)>,
    /// Why each worker stopped.
    pub stops: Vec<Stop>,
    /// How many turns each worker took; at 2^64 - 1 there may have been more.
    pub taken: Vec<u64>,
    closed: ClosedTable,
}

/// Evidence of a table that was closed: the kind of its words, and the blocks that it returned.
#[derive(Drop)]
struct ClosedTable {
    lock: LockKind,
    blocks: Snapshot<Vec<(LockId, TowerBlock)>>,
}

impl Report {
    ghost use Rattle.cpu_workers.specs.Seating.{items_of_block};

    // Closes a table of shared words with the keys of its CPUs, and returns a report of what they
    // left besides.
    pub(crate) fn of_closed<K: PlanWords>(
        shared: Shared<TowerEdit, K>,
        keys: Vec<Key<TowerEdit>>,
        traces: Vec<Vec<Entry>>,
        stops: Vec<Stop>,
        taken: Vec<u64>,
    ) -> Report
        requires covers { Covers shared.cpus keys.items }
        requires keys { All (IsOver shared) keys.items }
        ensures traces { result.traces ≡ traces }
        ensures taken { result.taken ≡ taken }
        ensures stops { result.stops ≡ stops }
        ensures lock { result.closed.lock ≡ K.lock_kind }
        ensures closed { result.closed.blocks.value ≡ result.blocks }
        ensures closes { ClosesTable tower_rules shared keys.items result.blocks.items }
    {
        let blocks = shared.close(keys);
        let closed = ClosedTable {
            lock: K::kind(),
            blocks: Snapshot::of(&blocks),
        };
        Report {
            traces,
            blocks,
            stops,
            taken,
            closed,
        }
    }

    /// Returns the kind of the words of the table's locks.
    pub fn lock(&self) -> LockKind
        ensures { result ≡ self.now.closed.lock }
    {
        self.closed.lock
    }

    /// Returns the traces and the stops.
    pub fn into_parts(self) -> (Vec<Vec<Entry>>, Vec<Stop>)
        ensures traces { result.0 ≡ self.traces }
        ensures stops { result.1 ≡ self.stops }
    {
        let Report { traces, stops, .. } = self;
        (traces, stops)
    }

    /// Returns what `buffer` holds, front first, according to the report's blocks. If there is no
    /// such buffer, it returns nothing.
    pub fn items(&self, buffer: BufId) -> ArrayVec<Msg, CAPACITY>
        ensures { result.items ≡ items_of_block self.now.blocks.items buffer }
    {
        items_at(&self.blocks, LockId::Buffer(buffer))
    }
}

// Returns the items of the buffer at a lock, according to the first of these blocks with that lock.
pub(crate) fn items_at(blocks: &[(LockId, TowerBlock)], lock: LockId) -> ArrayVec<Msg, CAPACITY>
    ensures { result.items ≡ messages_in (block_shown (opened blocks.now lock)) }
{
    for (i, entry) in blocks.iter().enumerate() {
        if entry.0 == lock {
            return items_of(&entry.1);
        }
    }
    ArrayVec::new()
}

// Returns the items of a buffer's block; a queue's block has none.
fn items_of(block: &TowerBlock) -> ArrayVec<Msg, CAPACITY>
    ensures { result.items ≡ messages_in (block_shown (Some block.now)) }
{
    match block {
        QueueBlock::Queue(_, _) => ArrayVec::new(),
        QueueBlock::Above(room) => room.content().above.above.items().items(),
    }
}
