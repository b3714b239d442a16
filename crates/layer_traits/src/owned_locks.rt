//! A layer of critical sections that opens a machine and reports its blocks.
//!
//! Only `open` allocates memory, and no call waits.

ghost use Rattle.std.specs.Prelude.{◌≡◌, ◌<◌, [], true, Option, IsSome, IfOk, option_map};

use crate::edits::SplitEdit;
use crate::layers::Layer;
use crate::locks::LockLaw;
use event_log::{LockId, NoMemory};
use std::alloc::Global;

/// A layer of critical sections whose machine is opened with its blocks and reports those that it
/// has. Its parts report the blocks that their CPU holds.
pub trait OwnedLocks<E: SplitEdit>: Layer<LockLaw<E>> {
    ghost use Rattle.event_log.specs.{declared.ids.{CpuId.CpuId, LockId.LockId, TheConstants.CPUS}, Actions.phase, Sections.block_after};
    ghost use Rattle.layer_traits.specs.{Protocols.OneLock.{AreDistinct, opened}, Views.Owned.IsObserved, Polling.Plans.is_in_section};

    /// The block of a lock, if it is in the machine.
    ghost block_at: { Self.Machine → LockId → Option E.Block };

    /// The block of a lock, if the part's CPU holds it.
    ghost block_with: { Self → LockId → Option E.Block };

    /// Opens a machine with these locks, each with its block, and with room for `room` events. All
    /// memory is allocated here.
    ///
    /// Requires: no lock occurs twice in `blocks`.
    ///
    /// Errors: `NoMemory` if an allocation failed; then the blocks are gone.
    fn open(
        alloc: Global,
        blocks: Vec<(LockId, E::Block)>,
        room: usize,
    ) -> Result<Self::Machine, NoMemory>
        requires distinct { AreDistinct blocks.items }
        ensures history { IfOk result (λ m. Self.history m ≡ []) }
        ensures opening { IfOk result (λ m. Self.opening m ≡ opened blocks.items) }
        ensures room { IfOk result (λ m. Self.room m ≡ room) }
        ensures acts { IfOk result (λ m. (c : CpuId) → c.0 < CPUS → Self.ActsFor m c) }
        ensures outside { IfOk result (λ m. (c : CpuId) → Self.IsOutside m c) }
        ensures none { IfOk result (λ m. Self.acts m ≡ []) }
        ensures holders { IfOk result (λ m. (c : CpuId) → Self.MayHold m c → ⊥) };

    /// Returns the block of `lock`; `None` if a CPU holds it.
    ///
    /// Requires: the machine's holder acts for some CPU, and the lock exists.
    fn block_in(m: &Self::Machine, lock: LockId) -> Option<&E::Block>
        requires acts { (c : CpuId) × Self.ActsFor m.now c }
        requires lock { IsSome (Self.opening m.now lock) }
        ensures { option_map (λ block. block.now) result ≡ block_at m.now lock };

    /// Returns the block of `lock` that this CPU holds; `None` if it does not hold the block.
    fn block_here(&self, lock: LockId) -> Option<&E::Block>
        ensures { option_map (λ block. block.now) result ≡ block_with self.now lock };

    /// Law: what the machine or a part reports of a block is what the sections make of it.
    ghost shown: { (m : Self.Machine) (c : CpuId) (lock : LockId) → Self.ActsFor m c → IsSome (Self.opening m lock)
        → IsObserved (λ (p : Self). Self.Coupled p m) (λ p. Self.cpu_of p) (Self.MayHold m)
        (λ p. block_with p lock) (block_at m lock)
        (block_after E.protocol.edited (Self.opening m) lock (Self.history m)) };

    /// Law: if a poll is one action, a CPU that may hold a lock waits at a lock or holds one.
    ghost holding: { Self.IsStepwise → (m : Self.Machine) (c : CpuId) → Self.MayHold m c → is_in_section (phase c (Self.acts m)) ≡ true };
}
