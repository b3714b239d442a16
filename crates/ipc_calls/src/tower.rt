//! The tower of layers, from buffers down to critical sections, over one machine. `tower_blocks`
//! and `open` allocate. No function blocks.

ghost use Rattle.std.specs.Prelude.{◌≡◌, ◌<◌, ◌≤◌, [], None, IsSome, IfOk, length, replicate};
ghost use Rattle.event_log.specs.declared.ids.{CpuId.CpuId, LockId.TheVariants.Pending, TheConstants.{BUFFERS, THREADS}};
ghost use Rattle.layer_traits.specs.{Blocks.{BufferEffects.opening_locks, QueueBlocks.{StartsWell, homes_in, inner}}, Layers.BufferLaw.no_call};
ghost use Rattle.layer_traits.specs.{Protocols.OneLock.{AreDistinct, opened}, Views.{Openings.AreOpenable, Renaming.viewed}};
ghost use Rattle.{queuing_lock.specs.Nested.nested_lock_of, sleep_wakeup.specs.Nested.state_of};

use crate::ipc::Ipc;
use crate::opening::{LockEdit, OpensBlocks, OpensBuffers, OpensLocks, opening_blocks};
use condvar::Cond;
use event_log::{CpuId, LockId, NoMemory};
use fifo_buffer::{Fifo, empty_blocks};
use layer_traits::{
    BareBufferEdit, BufferBlock, BufferEdit, BufferLaw, BufferReply, CallLayer, CvEdit, CvLaw,
    CvLeave, CvReply, IpcLaw, Layer, LockLaw, LockStateOf, LockingOf, OwnThreads, QLockLaw,
    QLockReply, QueueBlock, QueueEdit, QueueEvent, QueueLaw, SchedCall, SchedLaw, SectionOf,
    SleepLaw, SleepStateOf, SleepingOf, WaitingOf,
};
use queuing_lock::{QLock, QLockBlock, QLockSection, lock_blocks};
use scheduler::Sched;
use shared_queue::SharedQueues;
use sleep_wakeup::{SleepBlock, SleepEdit, Sleeper};
use std::alloc::Global;
use std::marker::PhantomData;

/// What a section of the tower does to the block of its lock.
pub type TowerEdit = QueueEdit<SleepEdit<LockEdit>>;

/// The form in which layers pass a [`TowerEdit`] down: its message is in the payload.
pub type TowerRequest = QueueEdit<SleepEdit<QLockSection<CvEdit<BareBufferEdit>, CvLeave>>>;

/// What a lock of the tower guards: a pending queue, or a buffer under its lock and wait lists.
pub type TowerBlock = QueueBlock<SleepBlock<QLockBlock<BufferBlock>>>;

/// One CPU's part of the layers from buffers down to shared queues, over a part `L` of critical
/// sections.
pub type TowerOver<L> = Fifo<Cond<QLock<Sleeper<LockEdit, Sched<SharedQueues<L>>>>>>;

/// The law of the tower's locks, with the type of its events. A function that passes a lock to the
/// tower names this type, because the check looks for the law there.
pub type TowerLockLaws = PhantomData<(LockLaw<TowerEdit>, SectionOf<TowerEdit>)>;

/// The laws of the tower's layers, with the types that their clauses name. A function that makes a
/// part of the tower names this type, because the check looks for the laws there.
pub type TowerLaws = PhantomData<
    (
        LockLaw<TowerEdit>,
        SectionOf<TowerEdit>,
        QueueLaw<SleepEdit<LockEdit>>,
        QueueEvent<SleepEdit<LockEdit>>,
        SchedLaw<SleepEdit<LockEdit>>,
        SchedCall<SleepEdit<LockEdit>>,
        OwnThreads,
        SleepLaw<LockEdit>,
        SleepStateOf<QLockBlock<BufferBlock>>,
        SleepingOf<QLockReply<CvReply<BufferReply>>>,
        QLockLaw<CvEdit<BufferEdit>>,
        LockStateOf<BufferBlock>,
        LockingOf<CvReply<BufferReply>>,
        CvLaw<BufferEdit>,
        WaitingOf<BufferReply>,
        BufferLaw,
        IpcLaw,
    ),
>;

/// Returns the locks of the tower at boot, each with its block. A CPU's block is an empty pending
/// queue; that of a capacity is an empty buffer under a free lock. `homes` holds the home CPU of
/// each thread. All memory that the blocks need is allocated here.
///
/// Requires: there are 1 to `CPUS` CPUs, and at most `BUFFERS` capacities, each from 1 to
/// `CAPACITY`. There are at most `THREADS` homes, each one of the CPUs.
///
/// Errors: `NoMemory` if an allocation failed.
pub fn tower_blocks(
    alloc: Global,
    cpus: u8,
    caps: &[u8],
    homes: &[CpuId],
) -> Result<Vec<(LockId, TowerBlock)>, NoMemory>
    requires { AreOpenable cpus caps.now homes.now }
    ensures distinct { IfOk result (λ locks. AreDistinct locks.items) }
    ensures starts { IfOk result (λ locks. StartsWell (opened locks.items)) }
    ensures homes { IfOk result (λ locks. homes_in (opened locks.items) ≡ homes.now) }
    ensures queues { IfOk result
        (λ locks. (c : CpuId) → c.0 < cpus → IsSome (opened locks.items (Pending c))) }
    ensures locks { IfOk result
        (λ locks. inner (viewed nested_lock_of (viewed state_of (opened locks.items)))
        ≡ opening_locks caps.now) }
{
    opening_blocks::<LockEdit>(alloc, cpus, caps, homes)
}

/// Returns the part of `cpu` at boot, over a machine in which nothing was done. The machine has the
/// locks of the tower, with a buffer of each of these capacities and a thread of each of these home
/// CPUs. The CPU has nothing under way and no thread has called, so any thread may begin a call
/// there.
///
/// Requires: nothing was done in the machine, and its holder acts for the CPU. It opened with the
/// locks of the tower: these homes, an empty buffer of each of these capacities, at most `BUFFERS`,
/// and a pending queue of the CPU.
pub fn part_over<L: Layer<LockLaw<TowerEdit>>>(
    m: &L::Machine,
    cpu: CpuId,
    caps: &[u8],
    homes: &[CpuId],
) -> Ipc<TowerOver<L>>
    requires buffers { length caps.now ≤ BUFFERS }
    requires acts { L.ActsFor m.now cpu }
    requires outside { L.IsOutside m.now cpu }
    requires fresh { L.history m.now ≡ [] }
    requires starts { StartsWell (L.opening m.now) }
    requires homes { homes_in (L.opening m.now) ≡ homes.now }
    requires queue { IsSome (L.opening m.now (Pending cpu)) }
    requires locks { inner (viewed nested_lock_of (viewed state_of (L.opening m.now)))
        ≡ opening_locks caps.now }
    ensures cpu { ⟦<Ipc<TowerOver<L>> as CallLayer<IpcLaw>>⟧.cpu_of result ≡ cpu }
    ensures under_way { ⟦<Ipc<TowerOver<L>> as CallLayer<IpcLaw>>⟧.under_way result ≡ None }
    ensures call_states { (⟦<Ipc<TowerOver<L>> as CallLayer<IpcLaw>>⟧.local result).call_states
        ≡ replicate THREADS no_call }
    ensures coupled { ⟦<Ipc<TowerOver<L>> as CallLayer<IpcLaw>>⟧.Coupled result m.now }
{
    let _ = m;
    let _laws: TowerLaws = PhantomData;
    Ipc::part(cpu, homes, caps.len() as u8)
}

impl OpensBlocks for QLockSection<CvEdit<BufferEdit>, CvLeave> {
    ghost use Rattle.{std.specs.Prelude.ℕ, queuing_lock.specs.Nested.unowned, layer_traits.specs.Blocks.BufferBlocks.empty_block};

    ghost at_boot = { λ capacity. unowned (empty_block capacity) };

    fn blocks(alloc: Global, caps: &[u8]) -> Result<Vec<QLockBlock<BufferBlock>>, NoMemory> {
        lock_blocks(alloc, empty_blocks(alloc, caps)?)
    }
}

impl<S: OpensLocks<LockEdit>> OpensBuffers for Fifo<Cond<QLock<S>>> {
    fn open(
        alloc: Global,
        cpus: u8,
        caps: &[u8],
        homes: &[CpuId],
        room: usize,
    ) -> Result<S::Machine, NoMemory> {
        S::open(alloc, cpus, caps, homes, room)
    }
}
