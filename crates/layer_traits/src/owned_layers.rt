//! Layers that report the blocks of buffers and the pending queues, whether in the machine or held.
//!
//! A block or a queue is in the machine, or is held by a CPU that may hold its lock: then that
//! CPU's part has it. If a poll is one action, that CPU is in a section. No call is given an
//! allocator, and none waits.

ghost use Rattle.std.specs.Prelude.{◌≡◌, true, List, Option, Some, IsSome, option_map};
ghost use Rattle.event_log.specs.{declared.ids.{BufId.BufId, CpuId.CpuId, LockId.{LockId, TheVariants.{Buffer, Pending}}, Tid.Tid}, Actions.phase};
ghost use Rattle.{layer_traits.specs.{Layers.QLocking.LockState, Views.Owned.IsObserved, Polling.Plans.is_in_section}, thread_blocks.specs.Queues.is_in};

use crate::layers::{Law, Layer};
use crate::lock_views::LockView;
use crate::threads::{ThreadLaw, ThreadLayer};
use event_log::{BufId, CpuId, Tid};

/// What a law says of the blocks of buffers and of the pending queues, for a layer that reports
/// them.
pub trait BlockLaw: Law {
    /// The view of a buffer's block in clauses.
    type Seen;

    /// The part of the block that the layer above edits.
    type Above;

    /// The view of the part that the layer above edits.
    ghost above: { Self.Seen → Self.Above };

    /// The block of a buffer, as its sections left it.
    ghost block_after: { (LockId → Option Self.Block) → List Self.Event → BufId → Option Self.Seen };

    /// The pending queue of a CPU, as the moves left it, front first.
    ghost pending_after: { (LockId → Option Self.Block) → List Self.Event → CpuId → List Tid };
}

/// The same for a layer whose calls put threads to sleep: its blocks have waiting lists, and may
/// have a lock.
pub trait SleeperLaw: ThreadLaw {
    /// The view of a buffer's block in clauses.
    type Seen;

    /// The part of the block that the layer above edits.
    type Above;

    /// The block as a lock with its owner and its waiting lists; without an owner if no thread has
    /// one, or the layer has none.
    ghost lock: { Self.Seen → LockState Self.Above };

    /// The block of a buffer, as its sections left it.
    ghost block_after: { (LockId → Option Self.Block) → List Self.Event → BufId → Option Self.Seen };

    /// The pending queue of a CPU, as the moves left it, front first.
    ghost pending_after: { (LockId → Option Self.Block) → List Self.Event → CpuId → List Tid };
}

/// A layer whose machine reports the blocks and pending queues that it has, and whose parts report
/// those that their CPU holds.
pub trait OwnedLayer<L: BlockLaw>: Layer<L> {
    /// The block of a buffer, if it is in the machine.
    ghost block_at: { Self.Machine → BufId → Option L.Seen };

    /// The block of a buffer, if the part's CPU holds it.
    ghost block_with: { Self → BufId → Option L.Seen };

    /// The pending queue of a CPU, front first, if it is in the machine.
    ghost queue_at: { Self.Machine → CpuId → Option (List Tid) };

    /// The pending queue of a CPU, if the part's CPU holds it.
    ghost queue_with: { Self → CpuId → Option (List Tid) };

    /// Returns the part of the block of the buffer `b` that the layer above edits; `None` if a CPU
    /// holds the block.
    ///
    /// Requires: the machine's holder acts for some CPU, and the buffer exists.
    fn block_in(m: &Self::Machine, b: BufId) -> Option<&L::Above>
        requires acts { (c : CpuId) × Self.ActsFor m.now c }
        requires buffer { IsSome (Self.opening m.now (Buffer b)) }
        ensures { option_map (λ block. block.now) result ≡ option_map L.above (block_at m.now b) };

    /// Returns the same of a block that this CPU holds; `None` if it does not hold the block.
    fn block_here(&self, b: BufId) -> Option<&L::Above>
        ensures { option_map (λ block. block.now) result
            ≡ option_map L.above (block_with self.now b) };

    /// Returns whether `t` is in the pending queue of `d`; `None` if a CPU holds that queue.
    ///
    /// Requires: the machine's holder acts for some CPU, and the queue exists.
    fn pends_in(m: &Self::Machine, d: CpuId, t: Tid) -> Option<bool>
        requires acts { (c : CpuId) × Self.ActsFor m.now c }
        requires queue { IsSome (Self.opening m.now (Pending d)) }
        ensures { result ≡ option_map (λ queue. is_in t queue) (queue_at m.now d) };

    /// Returns the same of a queue that this CPU holds; `None` if it does not hold the queue.
    fn pends_here(&self, d: CpuId, t: Tid) -> Option<bool>
        ensures { result ≡ option_map (λ queue. is_in t queue) (queue_with self.now d) };

    /// Law: what the machine or a part reports of a buffer is what the sections leave in it.
    ghost shown: { (m : Self.Machine) (c : CpuId) (b : BufId) → Self.ActsFor m c → IsSome (Self.opening m (Buffer b))
        → IsObserved (λ (p : Self). Self.Coupled p m) (λ p. Self.cpu_of p) (Self.MayHold m)
        (λ p. block_with p b) (block_at m b)
        (L.block_after (Self.opening m) (Self.history m) b) };

    /// Law: what the machine or a part reports of a pending queue is what the moves leave in it.
    ghost queues: { (m : Self.Machine) (c d : CpuId) → Self.ActsFor m c → IsSome (Self.opening m (Pending d))
        → IsObserved (λ (p : Self). Self.Coupled p m) (λ p. Self.cpu_of p) (Self.MayHold m)
        (λ p. queue_with p d) (queue_at m d)
        (Some (L.pending_after (Self.opening m) (Self.history m) d)) };

    /// Law: if a poll is one action, a CPU that may hold a lock waits at a lock or holds one.
    ghost holding: { Self.IsStepwise → (m : Self.Machine) (c : CpuId) → Self.MayHold m c → is_in_section (phase c (Self.acts m)) ≡ true };
}

/// The same of a layer whose calls put threads to sleep, with the owners of its locks and its
/// waiting lists.
pub trait OwnedThreadLayer<L: SleeperLaw>: ThreadLayer<L> {
    /// The block of a buffer, if it is in the machine.
    ghost block_at: { Self.Machine → BufId → Option L.Seen };

    /// The block of a buffer, if the part's CPU holds it.
    ghost block_with: { Self → BufId → Option L.Seen };

    /// The pending queue of a CPU, front first, if it is in the machine.
    ghost queue_at: { Self.Machine → CpuId → Option (List Tid) };

    /// The pending queue of a CPU, if the part's CPU holds it.
    ghost queue_with: { Self → CpuId → Option (List Tid) };

    /// Returns what the block of the buffer `b` shows; `None` if a CPU holds the block.
    ///
    /// Requires: the machine's holder acts for some CPU, and the buffer exists.
    fn block_in(m: &Self::Machine, b: BufId) -> Option<LockView<'_, L::Above>>
        requires acts { (c : CpuId) × Self.ActsFor m.now c }
        requires buffer { IsSome (Self.opening m.now (Buffer b)) }
        ensures { result ≡ option_map L.lock (block_at m.now b) };

    /// Returns the same of a block that this CPU holds; `None` if it does not hold the block.
    fn block_here(&self, b: BufId) -> Option<LockView<'_, L::Above>>
        ensures { result ≡ option_map L.lock (block_with self.now b) };

    /// Returns whether `t` is in the pending queue of `d`; `None` if a CPU holds that queue.
    ///
    /// Requires: the machine's holder acts for some CPU, and the queue exists.
    fn pends_in(m: &Self::Machine, d: CpuId, t: Tid) -> Option<bool>
        requires acts { (c : CpuId) × Self.ActsFor m.now c }
        requires queue { IsSome (Self.opening m.now (Pending d)) }
        ensures { result ≡ option_map (λ queue. is_in t queue) (queue_at m.now d) };

    /// Returns the same of a queue that this CPU holds; `None` if it does not hold the queue.
    fn pends_here(&self, d: CpuId, t: Tid) -> Option<bool>
        ensures { result ≡ option_map (λ queue. is_in t queue) (queue_with self.now d) };

    /// Law: what the machine or a part reports of a buffer is what the sections leave in it.
    ghost shown: { (m : Self.Machine) (c : CpuId) (b : BufId) → Self.ActsFor m c → IsSome (Self.opening m (Buffer b))
        → IsObserved (λ (p : Self). Self.Coupled p m) (λ p. Self.cpu_of p) (Self.MayHold m)
        (λ p. block_with p b) (block_at m b)
        (L.block_after (Self.opening m) (Self.history m) b) };

    /// Law: what the machine or a part reports of a pending queue is what the moves leave in it.
    ghost queues: { (m : Self.Machine) (c d : CpuId) → Self.ActsFor m c → IsSome (Self.opening m (Pending d))
        → IsObserved (λ (p : Self). Self.Coupled p m) (λ p. Self.cpu_of p) (Self.MayHold m)
        (λ p. queue_with p d) (queue_at m d)
        (Some (L.pending_after (Self.opening m) (Self.history m) d)) };

    /// Law: if a poll is one action, a CPU that may hold a lock waits at a lock or holds one.
    ghost holding: { Self.IsStepwise → (m : Self.Machine) (c : CpuId) → Self.MayHold m c → is_in_section (phase c (Self.acts m)) ≡ true };
}
