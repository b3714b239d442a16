//! Machines with FIFO locks that are opened with their blocks and report them.
//!
//! Only `open` allocates memory, and no call waits.

ghost use Rattle.std.specs.Prelude.{◌≡◌, ◌<◌, [], Option, Some, IsSome, IfOk, MatchOption, option_map};

use crate::fifo_lock::{FifoLock, UsesGrants, UsesTickets};
use event_log::{LockId, NoMemory};
use layer_traits::{OwnedGrantWords, OwnedWords, SplitEdit};
use std::alloc::Global;

/// A machine with FIFO locks that is opened with its blocks and reports those that no CPU holds.
pub trait OwnedFifoLock<LockProtocol>: FifoLock<LockProtocol> {
    ghost use Rattle.event_log.specs.{declared.ids.{CpuId.CpuId, LockId.LockId, TheConstants.CPUS}, Sections.{block_after, sections_in}};
    ghost use Rattle.{layer_traits.specs.Protocols.OneLock.{AreDistinct, opened}, spinlock.specs.OwnedLaws.SomeoneHolds};

    /// The block of a lock, if no CPU holds it.
    ghost block_at: { Self → LockId → Option Self.Edit.Block };

    /// Opens a machine with these locks, each with its block, and with room for `room` events. All
    /// memory is allocated here.
    ///
    /// Requires: no lock occurs twice in `blocks`.
    ///
    /// Errors: `NoMemory` if an allocation failed; then the blocks are gone.
    fn open(
        alloc: Global,
        blocks: Vec<(LockId, <Self::Edit as SplitEdit>::Block)>,
        room: usize,
    ) -> Result<Self, NoMemory>
        requires distinct { AreDistinct blocks.items }
        ensures acts { IfOk result (λ m. Self.acts m ≡ []) }
        ensures opening { IfOk result (λ m. Self.opening m ≡ opened blocks.items) }
        ensures room { IfOk result (λ m. Self.room m ≡ room) }
        ensures owned { IfOk result (λ m. (c : CpuId) → c.0 < CPUS → Self.ActsFor m c) };

    /// Returns the block of `lock`; `None` if a CPU holds it.
    ///
    /// Requires: the holder acts for some CPU, and the lock exists.
    fn block(&self, lock: LockId) -> Option<&<Self::Edit as SplitEdit>::Block>
        requires acts { (c : CpuId) × Self.ActsFor self.now c }
        requires lock { IsSome (Self.opening self.now lock) }
        ensures { option_map (λ block. block.now) result ≡ block_at self.now lock };

    /// Law: a block that is not in the machine is with a CPU that holds its lock. One that is in
    /// the machine is what the sections make of it.
    ghost blocks: { (m : Self) (c : CpuId) (lock : LockId) → Self.ActsFor m c → IsSome (Self.opening m lock)
        → MatchOption (block_at m lock) (SomeoneHolds lock (Self.acts m))
        (λ block. block_after Self.Edit.protocol.edited (Self.opening m) lock (sections_in (Self.acts m)) ≡ Some block) };
}

impl<W: OwnedWords> OwnedFifoLock<UsesTickets> for W {
    ghost use Rattle.{event_log.specs.declared.ids.TheConstants.CPUS, layer_traits.specs.Protocols.OneLock.{AreDistinct, opened}};
    ghost use Rattle.spinlock.specs.Laws.LineLaws.{words_blocks};

    ghost block_at = { λ m lock. W.block_at m lock };

    fn open(
        alloc: Global,
        blocks: Vec<(LockId, <W::Edit as SplitEdit>::Block)>,
        room: usize,
    ) -> Result<Self, NoMemory>
        requires distinct { AreDistinct blocks.items }
        ensures acts { IfOk result (λ m. ⟦<W as FifoLock<UsesTickets>>⟧.acts m ≡ []) }
        ensures opening { IfOk result
            (λ m. ⟦<W as FifoLock<UsesTickets>>⟧.opening m ≡ opened blocks.items) }
        ensures room { IfOk result (λ m. ⟦<W as FifoLock<UsesTickets>>⟧.room m ≡ room) }
        ensures owned { IfOk result
            (λ m. (c : _) → c.0 < CPUS → ⟦<W as FifoLock<UsesTickets>>⟧.ActsFor m c) }
    {
        <W as OwnedWords>::open(alloc, blocks, room)
    }

    fn block(&self, lock: LockId) -> Option<&<W::Edit as SplitEdit>::Block> {
        <W as OwnedWords>::block(self, lock)
    }

    ghost blocks = { λ m c lock acts there. words_blocks W.Edit.protocol.edited (W.opening m) (W.history m) lock (W.block_at m lock)
        (W.blocks m c lock acts there) };
}

impl<W: OwnedGrantWords> OwnedFifoLock<UsesGrants> for W {
    ghost use Rattle.{event_log.specs.declared.ids.TheConstants.CPUS, layer_traits.specs.Protocols.OneLock.{AreDistinct, opened}};
    ghost use Rattle.spinlock.specs.Laws.LineLaws.{grants_blocks};

    ghost block_at = { λ m lock. W.block_at m lock };

    fn open(
        alloc: Global,
        blocks: Vec<(LockId, <W::Edit as SplitEdit>::Block)>,
        room: usize,
    ) -> Result<Self, NoMemory>
        requires distinct { AreDistinct blocks.items }
        ensures acts { IfOk result (λ m. ⟦<W as FifoLock<UsesGrants>>⟧.acts m ≡ []) }
        ensures opening { IfOk result
            (λ m. ⟦<W as FifoLock<UsesGrants>>⟧.opening m ≡ opened blocks.items) }
        ensures room { IfOk result (λ m. ⟦<W as FifoLock<UsesGrants>>⟧.room m ≡ room) }
        ensures owned { IfOk result
            (λ m. (c : _) → c.0 < CPUS → ⟦<W as FifoLock<UsesGrants>>⟧.ActsFor m c) }
    {
        <W as OwnedGrantWords>::open(alloc, blocks, room)
    }

    fn block(&self, lock: LockId) -> Option<&<W::Edit as SplitEdit>::Block> {
        <W as OwnedGrantWords>::block(self, lock)
    }

    ghost blocks = { λ m c lock acts there. grants_blocks W.Edit.protocol.edited (W.opening m) (W.history m) lock (W.block_at m lock)
        (W.blocks m c lock acts there) };
}
