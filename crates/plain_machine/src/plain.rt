//! The owned machine. Only `open` allocates. No function blocks.

ghost use Rattle.std.specs.Prelude.{◌≡◌, ℕ, ◌%◌, ◌^◌, ◌<◌, [], IsSome, IsNone, IfSome, IfOk, option_map, ◌↔◌};

use crate::cells::{self, Cell};
use crate::lock_queue_words::{GrantLockWords, Granting, LockQueueWords, LockWords};
use crate::logged_edits::LoggedEdit;
use crate::notes::Notes;
use event_log::{CPUS, CpuId, LockId, NoMemory};
use layer_traits::{GrantWords, Mark, OwnedWords, SplitEdit, UsesGrantWords, Words, steps_of};
use std::alloc::Global;
use std::snapshot::Snapshot;

/// One owned state that has the words and the blocks of all locks, and stores the log of their
/// events. It acts for every CPU. No function after [`Plain::open`] allocates. Its locks are ticket
/// locks by default.
#[derive(Drop)]
pub struct Plain<E: SplitEdit, K: LockQueueWords = LockWords> {
    log: Notes<Mark<LoggedEdit<E, E::Request>>>,
    cells: Vec<Option<Cell<K, E::Block>>>,
    // The blocks that the locks opened with, only for clauses.
    opening: Snapshot<Vec<(LockId, E::Block)>>,
}

/// The owned machine whose locks have a grant word for each waiter.
pub type GrantPlain<E> = Plain<E, Granting>;

impl<E: SplitEdit, K: LockQueueWords> Plain<E, K> {
    ghost use Rattle.{event_log.specs.{Sections.block_after, declared.ids.{CpuId.CpuId, TheConstants.CPUS}}, layer_traits.specs.Protocols.OneLock.AreDistinct};
    ghost use Rattle.{layer_traits.specs.Protocols.{OneLock.{SomeoneInside, opened}, WordsProtocol.sections}, plain_machine.specs.Machine.IsServed};
    ghost use Rattle.plain_machine.specs.{Machine.{event_list, room_left}, Table.home_at};

    /// Returns a machine in which no CPU has used a lock or has its block, with room for `room`
    /// events.
    ///
    /// Requires: no lock occurs twice.
    ///
    /// Errors: `NoMemory` if the allocation of the log or of the table of locks failed.
    pub fn open(
        alloc: Global,
        blocks: Vec<(LockId, E::Block)>,
        room: usize,
    ) -> Result<Plain<E, K>, NoMemory>
        requires distinct { AreDistinct blocks.items }
        ensures history { IfOk result (λ w. event_list w.log ≡ []) }
        ensures opening { IfOk result (λ w. opened w.opening.value.items ≡ opened blocks.items) }
        ensures room { IfOk result (λ w. room_left w.log ≡ room) }
        ensures acts { IfOk result (λ w. (c : CpuId) → c.0 < CPUS
            → IsServed K.Coupling E.protocol (opened w.opening.value.items) (event_list w.log)
            w.cells.items
            c) }
    {
        let opening = Snapshot::of(&blocks);
        let log = Notes::with_room(alloc, room)?;
        let len = cells::table_len(&blocks);
        let mut cells = cells::empty_table(alloc, len)?;
        cells::fill(&mut cells, blocks);
        Ok(Plain {
            log,
            cells,
            opening,
        })
    }

    /// Returns the block of `lock`: `None` exactly while a CPU has it.
    ///
    /// Requires: the holder acts for some CPU, and the lock is one of the machine.
    pub fn home(&self, lock: LockId) -> Option<&E::Block>
        requires acts { (c : CpuId)
            × IsServed K.Coupling E.protocol (opened self.now.opening.value.items)
            (event_list self.now.log)
            self.now.cells.items c }
        requires lock { IsSome (opened self.now.opening.value.items lock) }
        ensures away { IsNone result ↔ SomeoneInside lock (event_list self.now.log) }
        ensures block { IfSome result (λ block.
            block_after E.protocol.edited (opened self.now.opening.value.items) lock
            (sections (event_list self.now.log)) ≡ Some block.now) }
        ensures table { option_map (λ block. block.now) result ≡ home_at self.now.cells.items lock }
    {
        cells::home(&self.cells, lock)
    }
}

impl<E: SplitEdit> Plain<E, LockWords> {
    ghost use Rattle.event_log.specs.WordsLog.{draws, frees};

    /// Returns the words of `lock`, modulo 2^64: how many tickets were drawn, and how often the
    /// lock was freed.
    ///
    /// Requires: the holder acts for some CPU, and the lock is one of the machine.
    pub fn words(&self, lock: LockId) -> LockWords
        requires acts { (c : _) × ⟦<Plain<E> as Words>⟧.ActsFor self.now c }
        requires lock { IsSome (⟦<Plain<E> as Words>⟧.opening self.now lock) }
        ensures next { result.next ≡ draws lock (⟦<Plain<E> as Words>⟧.history self.now) % 2 ^ 64 }
        ensures serving { result.serving
            ≡ frees lock (⟦<Plain<E> as Words>⟧.history self.now) % 2 ^ 64 }
    {
        cells::words(&self.cells, lock)
    }
}

impl<E: SplitEdit> Plain<E, Granting> {
    ghost use Rattle.{std.specs.Prelude.slice_index, event_log.specs.{declared.ids.TheConstants.CPUS, Grants.{tickets, grant_word}}};

    /// Returns the words of `lock`: how many tickets were taken, modulo 2^64, and what the gives
    /// left in each grant word.
    ///
    /// Requires: the holder acts for some CPU, and the lock is one of the machine.
    pub fn words(&self, lock: LockId) -> GrantLockWords
        requires acts { (c : _) × ⟦<Plain<E, Granting> as GrantWords>⟧.ActsFor self.now c }
        requires lock { IsSome (⟦<Plain<E, Granting> as GrantWords>⟧.opening self.now lock) }
        ensures next { result.next
            ≡ tickets lock (⟦<Plain<E, Granting> as GrantWords>⟧.history self.now) % 2 ^ 64 }
        ensures words { (k : ℕ) → k < CPUS
            → slice_index result.words k
            ≡ grant_word lock k (⟦<Plain<E, Granting> as GrantWords>⟧.history self.now) }
    {
        let granting = cells::words(&self.cells, lock);
        granting.lock
    }
}

impl<E: SplitEdit, K: LockQueueWords> Words for Plain<E, K> {
    ghost use Rattle.{event_log.specs.declared.ids.TheConstants.CPUS, layer_traits.specs.Protocols.OneLock.opened, plain_machine.specs.Machine.IsServed};
    ghost use Rattle.plain_machine.specs.Machine.{event_list, room_left};

    type Edit = E;

    type Mark = Mark<LoggedEdit<E, E::Request>>;

    ghost edit_in = { λ mark. mark.edit };

    ghost opening = { λ w. opened w.opening.value.items };

    ghost history = { λ w. event_list w.log };

    ghost ActsFor = { λ w c. IsServed K.Coupling E.protocol (opened w.opening.value.items) (event_list w.log) w.cells.items c };

    ghost room = { λ w. room_left w.log };

    #[inline(always)]
    fn mark(handed: E::Request, edit: E) -> Mark<LoggedEdit<E, E::Request>> {
        Mark {
            edit: LoggedEdit::of(handed, &edit),
        }
    }

    #[inline(always)]
    fn draw(&mut self, cpu: CpuId, lock: LockId) -> u64 {
        let ticket = cells::take(&mut self.cells, lock);
        self.log.draw(cpu, lock);
        ticket
    }

    #[inline(always)]
    fn look(&mut self, cpu: CpuId, lock: LockId, ticket: u64) -> Option<E::Block> {
        self.log.look(cpu, lock);
        cells::look(&mut self.cells, lock, ticket)
    }

    #[inline(always)]
    fn spin(&mut self, cpu: CpuId, lock: LockId, ticket: u64, steps: &[CpuId]) -> usize {
        if cells::serves(&self.cells, lock, ticket) {
            return 0;
        }
        let looks = steps_of(cpu, steps);
        self.log.looks(cpu, lock, looks);
        looks
    }

    #[inline(always)]
    fn free(
        &mut self,
        cpu: CpuId,
        lock: LockId,
        block: E::Block,
        mark: Mark<LoggedEdit<E, E::Request>>,
    ) {
        cells::give(&mut self.cells, lock, block);
        self.log.free(cpu, lock, mark);
    }

    ghost legal = { λ w c acts. acts.1.legal };
}

impl<E: SplitEdit, K: LockQueueWords> OwnedWords for Plain<E, K> {
    ghost use Rattle.{event_log.specs.declared.ids.TheConstants.CPUS, layer_traits.specs.Protocols.OneLock.{AreDistinct, opened}};
    ghost use Rattle.plain_machine.specs.{Laws.HomeLaws.home_reads, Machine.event_list, Table.home_at};

    ghost block_at = { λ w lock. home_at w.cells.items lock };

    fn open(alloc: Global, blocks: Vec<(LockId, E::Block)>, room: usize) -> Result<Self, NoMemory>
        requires distinct { AreDistinct blocks.items }
        ensures history { IfOk result (λ w. ⟦<Plain<E, K> as Words>⟧.history w ≡ []) }
        ensures opening { IfOk result
            (λ w. ⟦<Plain<E, K> as Words>⟧.opening w ≡ opened blocks.items) }
        ensures room { IfOk result (λ w. ⟦<Plain<E, K> as Words>⟧.room w ≡ room) }
        ensures acts { IfOk result
            (λ w. (c : _) → c.0 < CPUS → ⟦<Plain<E, K> as Words>⟧.ActsFor w c) }
    {
        Plain::open(alloc, blocks, room)
    }

    fn block(&self, lock: LockId) -> Option<&E::Block> {
        self.home(lock)
    }

    ghost blocks = { λ w c lock acts there. home_reads K.Coupling E.protocol.edited (opened w.opening.value.items) (event_list w.log) w.cells.items lock
        (acts.1.coupled lock there) };
}

impl<E: SplitEdit> UsesGrantWords for Plain<E, Granting> {}
