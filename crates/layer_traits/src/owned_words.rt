//! Words of ticket locks that are opened with their blocks and report them.
//!
//! Only `open` allocates memory, and no call waits.

ghost use Rattle.std.specs.Prelude.{◌≡◌, ◌<◌, [], Option, Some, IsSome, IfOk, MatchOption, option_map};

use crate::edits::SplitEdit;
use crate::words::Words;
use event_log::{LockId, NoMemory};
use std::alloc::Global;

/// Words of ticket locks that are opened with their blocks, and report those that are in the
/// machine.
pub trait OwnedWords: Words {
    ghost use Rattle.event_log.specs.{declared.ids.{CpuId.CpuId, LockId.LockId, TheConstants.CPUS}, Sections.block_after};
    ghost use Rattle.layer_traits.specs.Protocols.{OneLock.{AreDistinct, SomeoneInside, opened}, WordsProtocol.sections};

    /// The block of a lock, if it is in the machine.
    ghost block_at: { Self → LockId → Option Self.Edit.Block };

    /// Opens a machine with these locks, each with its block, and with room for `room` events. All
    /// memory is allocated here.
    ///
    /// Requires: no lock occurs twice in `blocks`.
    ///
    /// Errors: `NoMemory` if an allocation failed; then the blocks are gone.
    fn open(
        alloc: Global,
        blocks: Vec<(LockId, <Self::Edit as SplitEdit>::Block)>,
        room: usize,
    ) -> Result<Self, NoMemory>
        requires distinct { AreDistinct blocks.items }
        ensures history { IfOk result (λ w. Self.history w ≡ []) }
        ensures opening { IfOk result (λ w. Self.opening w ≡ opened blocks.items) }
        ensures room { IfOk result (λ w. Self.room w ≡ room) }
        ensures acts { IfOk result (λ w. (c : CpuId) → c.0 < CPUS → Self.ActsFor w c) };

    /// Returns the block of `lock`; `None` if a CPU holds it.
    ///
    /// Requires: the holder acts for some CPU, and the lock exists.
    fn block(&self, lock: LockId) -> Option<&<Self::Edit as SplitEdit>::Block>
        requires acts { (c : CpuId) × Self.ActsFor self.now c }
        requires lock { IsSome (Self.opening self.now lock) }
        ensures { option_map (λ block. block.now) result ≡ block_at self.now lock };

    /// Law: a block that is not in the machine is with a CPU inside its lock. One that is in the
    /// machine is what the sections make of it.
    ghost blocks: { (w : Self) (c : CpuId) (lock : LockId) → Self.ActsFor w c → IsSome (Self.opening w lock)
        → MatchOption (block_at w lock) (SomeoneInside lock (Self.history w))
        (λ block. block_after Self.Edit.protocol.edited (Self.opening w) lock (sections (Self.history w)) ≡ Some block) };
}
