//! Layers that open a machine with the buffers of a tower. Its sections are those of either body of
//! the layer of buffers. Only functions that open or make blocks allocate. No function blocks.

ghost use Rattle.std.specs.Prelude.{◌≡◌, ◌<◌, ◌≤◌, All, [], IsSome, IfOk, map};
ghost use Rattle.{event_log.specs.{declared.ids.LockId.TheVariants.Pending, Buffers.IsCapacity}, sleep_wakeup.specs.Nested.state_of};
ghost use Rattle.layer_traits.specs.{Blocks.{Capacities.caps_in, QueueBlocks.{StartsWell, homes_in, inner}}, Protocols.OneLock.{AreDistinct, opened}};
ghost use Rattle.{layer_traits.specs.Views.{Openings.AreOpenable, Renaming.viewed}, ipc_calls.specs.Openings.locks_at_boot};

use event_log::{CpuId, LockId, NoMemory};
use layer_traits::{
    BufferEdit, CvEdit, CvLeave, OwnedBuffers, OwnedLayer, OwnedLocks, OwnedThreadLayer,
    QueueBlock, QueueEdit, QueueLaw, SchedLaw, SleepLaw, Sleeps,
};
use queuing_lock::QLockSection;
use scheduler::Sched;
use shared_queue::{SharedQueues, queue_blocks};
use sleep_wakeup::{SleepBlock, SleepEdit, Sleeper, sleep_blocks};
use std::alloc::Global;

/// A call on the lock of a buffer.
pub type LockEdit = QLockSection<CvEdit<BufferEdit>, CvLeave>;

/// The sections of a tower at the locks of its buffers, with what they find there at boot.
pub trait OpensBlocks: Sleeps {
    ghost use Rattle.std.specs.Prelude.{ℕ};

    /// What the lock of a buffer of this capacity guards at boot, besides its waiting lists.
    ghost at_boot: { ℕ → Self.Block };

    /// Returns these blocks of buffers of these capacities, in their order. All memory that they
    /// need is allocated here.
    ///
    /// Requires: each capacity is from 1 to `CAPACITY`.
    ///
    /// Errors: `NoMemory` if an allocation failed.
    fn blocks(alloc: Global, caps: &[u8]) -> Result<Vec<Self::Block>, NoMemory>
        requires { All IsCapacity caps.now }
        ensures { IfOk result (λ blocks. blocks.items ≡ map at_boot caps.now) };
}

/// A layer of buffers whose machine is opened with its buffers, and which reports the machine's
/// blocks.
pub trait OpensBuffers: OwnedBuffers {
    ghost use Rattle.event_log.specs.declared.ids.{CpuId.CpuId, LockId.TheVariants.Pending, TheConstants.CPUS};
    ghost use Rattle.layer_traits.specs.{Blocks.{BufferEffects.opening_locks, QueueBlocks.{homes_in, inner}}, Views.Openings.{AreOpenable, Opened}};

    /// Returns a machine of so many CPUs, with a buffer of each of these capacities and a thread of
    /// each of these home CPUs. It has room for `room` polls. All memory is allocated here.
    ///
    /// Requires: there are 1 to `CPUS` CPUs, and at most `BUFFERS` capacities, each from 1 to
    /// `CAPACITY`. There are at most `THREADS` homes, each one of the CPUs.
    ///
    /// Errors: `NoMemory` if an allocation failed.
    fn open(
        alloc: Global,
        cpus: u8,
        caps: &[u8],
        homes: &[CpuId],
        room: usize,
    ) -> Result<Self::Machine, NoMemory>
        requires { AreOpenable cpus caps.now homes.now }
        ensures opened { IfOk result (λ m.
            Opened (caps_in (Self.opening m)) (homes_in (Self.opening m)) (Self.history m)
            (Self.moves m) (Self.room m) caps.now homes.now room) }
        ensures boot { IfOk result
            (λ m. inner (Self.opening m) ≡ opening_locks (caps_in (Self.opening m))) }
        ensures queues { IfOk result
            (λ m. (c : CpuId) → c.0 < cpus → IsSome (Self.opening m (Pending c))) }
        ensures fresh { IfOk result (λ m. (c : CpuId) → c.0 < cpus → Self.IsFresh m homes.now c) }
        ensures acts { IfOk result (λ m. (c : CpuId) → c.0 < CPUS → Self.ActsFor m c) }
        ensures none { IfOk result (λ m. Self.acts m ≡ []) }
        ensures holders { IfOk result (λ m. (c : CpuId) → Self.MayHold m c → ⊥) };
}

/// Shared queues whose machine is opened with the locks of buffers, and which report the machine's
/// blocks.
pub trait OpensQueues<E: OpensBlocks>: OwnedLayer<QueueLaw<SleepEdit<E>>> {
    ghost use Rattle.event_log.specs.declared.ids.{CpuId.CpuId, LockId.TheVariants.Pending, TheConstants.CPUS};
    ghost use Rattle.layer_traits.specs.{Blocks.QueueBlocks.{homes_in, inner}, Views.{Openings.AreOpenable, Renaming.viewed}};
    ghost use Rattle.{ipc_calls.specs.Openings.locks_at_boot, sleep_wakeup.specs.Nested.state_of};

    /// As `open` of [`OpensLocks`].
    ///
    /// Requires: there are 1 to `CPUS` CPUs, and at most `BUFFERS` capacities, each from 1 to
    /// `CAPACITY`. There are at most `THREADS` homes, each one of the CPUs.
    ///
    /// Errors: `NoMemory` if an allocation failed.
    fn open(
        alloc: Global,
        cpus: u8,
        caps: &[u8],
        homes: &[CpuId],
        room: usize,
    ) -> Result<Self::Machine, NoMemory>
        requires { AreOpenable cpus caps.now homes.now }
        ensures history { IfOk result (λ m. Self.history m ≡ []) }
        ensures room { IfOk result (λ m. room ≤ Self.room m) }
        ensures homes { IfOk result (λ m. homes_in (Self.opening m) ≡ homes.now) }
        ensures queues { IfOk result
            (λ m. (c : CpuId) → c.0 < cpus → IsSome (Self.opening m (Pending c))) }
        ensures locks { IfOk result
            (λ m. inner (viewed state_of (Self.opening m)) ≡ locks_at_boot E.at_boot caps.now) }
        ensures acts { IfOk result (λ m. (c : CpuId) → c.0 < CPUS → Self.ActsFor m c) }
        ensures outside { IfOk result (λ m. (c : CpuId) → Self.IsOutside m c) }
        ensures none { IfOk result (λ m. Self.acts m ≡ []) }
        ensures holders { IfOk result (λ m. (c : CpuId) → Self.MayHold m c → ⊥) };
}

/// Schedulers whose machine is opened with the locks of buffers, and which report the machine's
/// blocks.
pub trait OpensScheds<E: OpensBlocks>: OwnedLayer<SchedLaw<SleepEdit<E>>> {
    ghost use Rattle.event_log.specs.declared.ids.{CpuId.CpuId, LockId.TheVariants.Pending, TheConstants.CPUS};
    ghost use Rattle.layer_traits.specs.{Blocks.QueueBlocks.{homes_in, inner}, Views.{Openings.AreOpenable, Renaming.viewed}};
    ghost use Rattle.{ipc_calls.specs.Openings.locks_at_boot, sleep_wakeup.specs.Nested.state_of};

    /// As `open` of [`OpensLocks`].
    ///
    /// Requires: there are 1 to `CPUS` CPUs, and at most `BUFFERS` capacities, each from 1 to
    /// `CAPACITY`. There are at most `THREADS` homes, each one of the CPUs.
    ///
    /// Errors: `NoMemory` if an allocation failed.
    fn open(
        alloc: Global,
        cpus: u8,
        caps: &[u8],
        homes: &[CpuId],
        room: usize,
    ) -> Result<Self::Machine, NoMemory>
        requires { AreOpenable cpus caps.now homes.now }
        ensures history { IfOk result (λ m. Self.history m ≡ []) }
        ensures room { IfOk result (λ m. room ≤ Self.room m) }
        ensures homes { IfOk result (λ m. homes_in (Self.opening m) ≡ homes.now) }
        ensures queues { IfOk result
            (λ m. (c : CpuId) → c.0 < cpus → IsSome (Self.opening m (Pending c))) }
        ensures locks { IfOk result
            (λ m. inner (viewed state_of (Self.opening m)) ≡ locks_at_boot E.at_boot caps.now) }
        ensures acts { IfOk result (λ m. (c : CpuId) → c.0 < CPUS → Self.ActsFor m c) }
        ensures outside { IfOk result (λ m. (c : CpuId) → Self.IsOutside m c) }
        ensures none { IfOk result (λ m. Self.acts m ≡ []) }
        ensures holders { IfOk result (λ m. (c : CpuId) → Self.MayHold m c → ⊥) };
}

/// A layer of sections that put threads to sleep, whose machine is opened with the locks of
/// buffers, and which reports the machine's blocks.
pub trait OpensLocks<E: OpensBlocks>: OwnedThreadLayer<SleepLaw<E>> {
    ghost use Rattle.event_log.specs.declared.ids.{CpuId.CpuId, LockId.TheVariants.Pending, TheConstants.CPUS};
    ghost use Rattle.{layer_traits.specs.{Blocks.QueueBlocks.{homes_in, inner}, Views.Openings.AreOpenable}, ipc_calls.specs.Openings.locks_at_boot};

    /// Returns a machine of so many CPUs, with a buffer's lock for each of these capacities and a
    /// thread of each of these home CPUs. It has room for `room` polls. All memory is allocated
    /// here.
    ///
    /// Requires: there are 1 to `CPUS` CPUs, and at most `BUFFERS` capacities, each from 1 to
    /// `CAPACITY`. There are at most `THREADS` homes, each one of the CPUs.
    ///
    /// Errors: `NoMemory` if an allocation failed.
    fn open(
        alloc: Global,
        cpus: u8,
        caps: &[u8],
        homes: &[CpuId],
        room: usize,
    ) -> Result<Self::Machine, NoMemory>
        requires { AreOpenable cpus caps.now homes.now }
        ensures history { IfOk result (λ m. Self.history m ≡ []) }
        ensures room { IfOk result (λ m. room ≤ Self.room m) }
        ensures homes { IfOk result (λ m. homes_in (Self.opening m) ≡ homes.now) }
        ensures queues { IfOk result
            (λ m. (c : CpuId) → c.0 < cpus → IsSome (Self.opening m (Pending c))) }
        ensures locks { IfOk result
            (λ m. inner (Self.opening m) ≡ locks_at_boot E.at_boot caps.now) }
        ensures acts { IfOk result (λ m. (c : CpuId) → c.0 < CPUS → Self.ActsFor m c) }
        ensures outside { IfOk result (λ m. (c : CpuId) → Self.IsOutside m c) }
        ensures none { IfOk result (λ m. Self.acts m ≡ []) }
        ensures holders { IfOk result (λ m. (c : CpuId) → Self.MayHold m c → ⊥) };
}

/// Returns the locks of a tower at boot, each with its block. A CPU's block is an empty pending
/// queue; that of a capacity is the one that the sections of its buffer find. `homes` holds the
/// home CPU of each thread. All memory that the blocks need is allocated here.
///
/// Requires: there are 1 to `CPUS` CPUs, and at most `BUFFERS` capacities, each from 1 to
/// `CAPACITY`. There are at most `THREADS` homes, each one of the CPUs.
///
/// Errors: `NoMemory` if an allocation failed.
pub fn opening_blocks<E: OpensBlocks>(
    alloc: Global,
    cpus: u8,
    caps: &[u8],
    homes: &[CpuId],
) -> Result<Vec<(LockId, QueueBlock<SleepBlock<E::Block>>)>, NoMemory>
    requires { AreOpenable cpus caps.now homes.now }
    ensures distinct { IfOk result (λ locks. AreDistinct locks.items) }
    ensures starts { IfOk result (λ locks. StartsWell (opened locks.items)) }
    ensures homes { IfOk result (λ locks. homes_in (opened locks.items) ≡ homes.now) }
    ensures queues { IfOk result
        (λ locks. (c : CpuId) → c.0 < cpus → IsSome (opened locks.items (Pending c))) }
    ensures locks { IfOk result
        (λ locks. inner (viewed state_of (opened locks.items)) ≡ locks_at_boot E.at_boot caps.now) }
{
    let blocks = sleep_blocks(alloc, E::blocks(alloc, caps)?)?;
    queue_blocks(alloc, blocks, cpus, homes)
}

// One impl for each layer, because the check of an impl over several layers exceeds its limit.
impl<E: OpensBlocks, L: OwnedLocks<QueueEdit<SleepEdit<E>>>> OpensQueues<E> for SharedQueues<L> {
    fn open(
        alloc: Global,
        cpus: u8,
        caps: &[u8],
        homes: &[CpuId],
        room: usize,
    ) -> Result<L::Machine, NoMemory> {
        L::open(alloc, opening_blocks::<E>(alloc, cpus, caps, homes)?, room)
    }
}

impl<E: OpensBlocks, Q: OpensQueues<E>> OpensScheds<E> for Sched<Q> {
    fn open(
        alloc: Global,
        cpus: u8,
        caps: &[u8],
        homes: &[CpuId],
        room: usize,
    ) -> Result<Q::Machine, NoMemory> {
        Q::open(alloc, cpus, caps, homes, room)
    }
}

impl<E: OpensBlocks, S: OpensScheds<E>> OpensLocks<E> for Sleeper<E, S> {
    fn open(
        alloc: Global,
        cpus: u8,
        caps: &[u8],
        homes: &[CpuId],
        room: usize,
    ) -> Result<S::Machine, NoMemory> {
        <S as OpensScheds<E>>::open(alloc, cpus, caps, homes, room)
    }
}
