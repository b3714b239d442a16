//! A layer of buffers that reports its blocks.
//!
//! No call is given an allocator, and none waits.

ghost use Rattle.std.specs.Prelude.{◌≡◌, ◌<◌, true, List, Option, IsSome, length, option_map, slice_index};
ghost use Rattle.layer_traits.specs.Blocks.Capacities.{caps_in};

use crate::buffer_layers::BufferLaw;
use crate::buffer_views::BufferView;
use crate::call_layers::CallLayer;
use event_log::{BufId, CpuId, Tid};

/// A layer of buffers whose machine reports the blocks that it has, and whose parts report those
/// that their CPU holds.
pub trait OwnedBuffers: CallLayer<BufferLaw> {
    ghost use Rattle.{std.specs.List.AllByRecursion, event_log.specs.declared.ids.{BufId.BufId, CpuId.CpuId, LockId.TheVariants.Pending, Tid.Tid}};
    ghost use Rattle.event_log.specs.{declared.ids.TheConstants.CPUS, Actions.phase, Buffers.items_of, Runs.is_closed};
    ghost use Rattle.layer_traits.specs.Views.{Acted.{ItemsAre, owner_after}, Owned.{BufferShown, shows}, Observed.IsObservedAs};
    ghost use Rattle.layer_traits.specs.{Blocks.BufferEffects.contents_of, Threads.Places.pending_by, Polling.Plans.is_in_section};
    ghost use Rattle.thread_blocks.specs.Queues.{is_in};

    /// The owner of the lock of a buffer, as its last section left it.
    ghost owner: { Self.Machine → BufId → Option Tid };

    /// What a buffer shows, if its block is in the machine.
    ghost buffer_at: { Self.Machine → BufId → Option BufferShown };

    /// What a buffer shows, if the part's CPU holds its block.
    ghost buffer_with: { Self → BufId → Option BufferShown };

    /// The pending queue of a CPU, front first, if it is in the machine.
    ghost queue_at: { Self.Machine → CpuId → Option (List Tid) };

    /// The pending queue of a CPU, if the part's CPU holds it.
    ghost queue_with: { Self → CpuId → Option (List Tid) };

    /// Returns what the buffer `b` shows; `None` if a CPU holds its block.
    ///
    /// Requires: the machine's holder acts for some CPU, and the buffer exists.
    fn buffer_in(m: &Self::Machine, b: BufId) -> Option<BufferView<'_>>
        requires acts { (c : CpuId) × Self.ActsFor m.now c }
        requires buffer { b.0 < length (caps_in (Self.opening m.now)) }
        ensures { result ≡ buffer_at m.now b };

    /// Returns the same of a block that this CPU holds; `None` if it does not hold the block.
    fn buffer_here(&self, b: BufId) -> Option<BufferView<'_>>
        ensures { result ≡ buffer_with self.now b };

    /// Returns whether `t` is in the pending queue of `d`; `None` if a CPU holds that queue.
    ///
    /// Requires: the machine's holder acts for some CPU, and the queue exists.
    fn pends_in(m: &Self::Machine, d: CpuId, t: Tid) -> Option<bool>
        requires acts { (c : CpuId) × Self.ActsFor m.now c }
        requires queue { IsSome (Self.opening m.now (Pending d)) }
        ensures { result ≡ option_map (λ queue. is_in t queue) (queue_at m.now d) };

    /// Returns the same of a queue that this CPU holds; `None` if it does not hold the queue.
    fn pends_here(&self, d: CpuId, t: Tid) -> Option<bool>
        ensures { result ≡ option_map (λ queue. is_in t queue) (queue_with self.now d) };

    /// Law: each effect in the history is of a CPU that a machine may have.
    ghost known: { (m : Self.Machine) (c : CpuId) → Self.ActsFor m c → AllByRecursion (λ e. e.cpu.0 < CPUS) (Self.history m) };

    /// Law: what the machine or a part reports of a buffer is what the effects and its last section
    /// leave: its items, whether it is closed, its lock's owner and its waiting lists.
    ghost shown: { (m : Self.Machine) (c : CpuId) (b : BufId) → Self.ActsFor m c → b.0 < length (caps_in (Self.opening m))
        → IsObservedAs (λ (p : Self). Self.Coupled p m) (λ p. Self.cpu_of p) (Self.MayHold m)
        (λ p. buffer_with p b) (buffer_at m b)
        (shows (items_of (contents_of (caps_in (Self.opening m)) (Self.history m)) b.0)
        (is_closed (Self.history m) b.0) (owner m b) (Self.wait_lists m b)) };

    /// Law: if a poll is one action, the owner of a buffer's lock is the one that the sections of
    /// the actions leave.
    ghost owner_is: { Self.IsStepwise → (m : Self.Machine) (c : CpuId) (b : BufId) → Self.ActsFor m c
        → owner m b ≡ owner_after (Self.opening m) (Self.acts m) b };

    /// Law: if a poll is one action, the sections of the actions determine a buffer's items, its
    /// capacity, and whether it is closed.
    ghost items_are: { Self.IsStepwise → (m : Self.Machine) (c : CpuId) (b : BufId) → Self.ActsFor m c → b.0 < length (caps_in (Self.opening m))
        → ItemsAre (Self.opening m) (Self.acts m) b (items_of (contents_of (caps_in (Self.opening m)) (Self.history m)) b.0)
        (slice_index (caps_in (Self.opening m)) b.0) (is_closed (Self.history m) b.0) };

    /// Law: the threads of a pending queue that the machine or a part reports are those that the
    /// moves leave in it.
    ghost queues: { (m : Self.Machine) (c d : CpuId) → Self.ActsFor m c → IsSome (Self.opening m (Pending d))
        → IsObservedAs (λ (p : Self). Self.Coupled p m) (λ p. Self.cpu_of p) (Self.MayHold m)
        (λ p. queue_with p d) (queue_at m d)
        (pending_by (Self.moves m) d) };

    /// Law: if a poll is one action, a CPU that may hold a lock waits at a lock or holds one.
    ghost holding: { Self.IsStepwise → (m : Self.Machine) (c : CpuId) → Self.MayHold m c → is_in_section (phase c (Self.acts m)) ≡ true };
}
