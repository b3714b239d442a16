//! The tower of layers with monitors as its buffers: two layers fewer than in that of queuing locks
//! and conditions. `monitor_blocks` and `open` allocate. No function blocks.

ghost use Rattle.std.specs.Prelude.{◌≡◌, ◌<◌, ◌≤◌, [], None, IsSome, IfOk, length, replicate};
ghost use Rattle.event_log.specs.declared.ids.{CpuId.CpuId, LockId.TheVariants.Pending, TheConstants.{BUFFERS, THREADS}};
ghost use Rattle.layer_traits.specs.{Blocks.QueueBlocks.{StartsWell, homes_in, inner}, Layers.BufferLaw.no_call};
ghost use Rattle.layer_traits.specs.{Protocols.OneLock.{AreDistinct, opened}, Views.{Openings.AreOpenable, Renaming.viewed}};
ghost use Rattle.{fifo_buffer.specs.MonitorHistories.fresh_monitors, sleep_wakeup.specs.Nested.state_of};

use crate::ipc::Ipc;
use crate::opening::{OpensBlocks, OpensBuffers, OpensLocks, opening_blocks};
use event_log::{CpuId, LockId, NoMemory};
use fifo_buffer::{Monitor, MonitorBlock, MonitorEdit, MonitorReply};
use layer_traits::{
    BufferLaw, CallLayer, IpcLaw, Layer, LockLaw, OwnThreads, QueueBlock, QueueEdit, QueueEvent,
    QueueLaw, SchedCall, SchedLaw, SectionOf, SleepLaw, SleepStateOf, SleepingOf,
};
use scheduler::Sched;
use shared_queue::SharedQueues;
use sleep_wakeup::{SleepBlock, SleepEdit, Sleeper};
use std::alloc::Global;
use std::marker::PhantomData;

/// What a section of the tower does to the block of its lock.
pub type MonitorTowerEdit = QueueEdit<SleepEdit<MonitorEdit>>;

/// The form in which layers pass a [`MonitorTowerEdit`] down: the edit itself, with its message.
pub type MonitorTowerRequest = QueueEdit<SleepEdit<MonitorEdit>>;

/// What a lock of the tower guards: a pending queue, or a monitor with the waiting lists of its
/// lock.
pub type MonitorTowerBlock = QueueBlock<SleepBlock<MonitorBlock>>;

/// One CPU's part of the layers from monitors down to shared queues, over a part `L` of critical
/// sections.
pub type MonitorOver<L> = Monitor<Sleeper<MonitorEdit, Sched<SharedQueues<L>>>>;

/// The law of the tower's locks, with the type of its events. A function that passes a lock to the
/// tower names this type, because the check looks for the law there.
pub type MonitorLockLaws = PhantomData<(LockLaw<MonitorTowerEdit>, SectionOf<MonitorTowerEdit>)>;

/// The laws of the tower's layers, with the types that their clauses name. A function that makes a
/// part of the tower names this type, because the check looks for the laws there.
pub type MonitorTowerLaws = PhantomData<
    (
        LockLaw<MonitorTowerEdit>,
        SectionOf<MonitorTowerEdit>,
        QueueLaw<SleepEdit<MonitorEdit>>,
        QueueEvent<SleepEdit<MonitorEdit>>,
        SchedLaw<SleepEdit<MonitorEdit>>,
        SchedCall<SleepEdit<MonitorEdit>>,
        OwnThreads,
        SleepLaw<MonitorEdit>,
        SleepStateOf<MonitorBlock>,
        SleepingOf<MonitorReply>,
        BufferLaw,
        IpcLaw,
    ),
>;

/// Returns the locks of the tower at boot, each with its block. A CPU's block is an empty pending
/// queue; that of a capacity is an empty monitor. `homes` holds the home CPU of each thread. All
/// memory that the blocks need is allocated here.
///
/// Requires: there are 1 to `CPUS` CPUs, and at most `BUFFERS` capacities, each from 1 to
/// `CAPACITY`. There are at most `THREADS` homes, each one of the CPUs.
///
/// Errors: `NoMemory` if an allocation failed.
pub fn monitor_blocks(
    alloc: Global,
    cpus: u8,
    caps: &[u8],
    homes: &[CpuId],
) -> Result<Vec<(LockId, MonitorTowerBlock)>, NoMemory>
    requires { AreOpenable cpus caps.now homes.now }
    ensures distinct { IfOk result (λ locks. AreDistinct locks.items) }
    ensures starts { IfOk result (λ locks. StartsWell (opened locks.items)) }
    ensures homes { IfOk result (λ locks. homes_in (opened locks.items) ≡ homes.now) }
    ensures queues { IfOk result
        (λ locks. (c : CpuId) → c.0 < cpus → IsSome (opened locks.items (Pending c))) }
    ensures locks { IfOk result
        (λ locks. inner (viewed state_of (opened locks.items)) ≡ fresh_monitors caps.now) }
{
    opening_blocks::<MonitorEdit>(alloc, cpus, caps, homes)
}

/// Returns the part of `cpu` at boot, over a machine in which nothing was done. The machine has the
/// locks of the tower, with a monitor of each of these capacities and a thread of each of these
/// home CPUs. The CPU has nothing under way and no thread has called, so any thread may begin a
/// call there.
///
/// Requires: nothing was done in the machine, and its holder acts for the CPU. It opened with the
/// locks of the tower: these homes, an empty monitor of each of these capacities, at most
/// `BUFFERS`, and a pending queue of the CPU.
pub fn monitor_part_over<L: Layer<LockLaw<MonitorTowerEdit>>>(
    m: &L::Machine,
    cpu: CpuId,
    caps: &[u8],
    homes: &[CpuId],
) -> Ipc<MonitorOver<L>>
    requires buffers { length caps.now ≤ BUFFERS }
    requires acts { L.ActsFor m.now cpu }
    requires outside { L.IsOutside m.now cpu }
    requires fresh { L.history m.now ≡ [] }
    requires starts { StartsWell (L.opening m.now) }
    requires homes { homes_in (L.opening m.now) ≡ homes.now }
    requires queue { IsSome (L.opening m.now (Pending cpu)) }
    requires locks { inner (viewed state_of (L.opening m.now)) ≡ fresh_monitors caps.now }
    ensures cpu { ⟦<Ipc<MonitorOver<L>> as CallLayer<IpcLaw>>⟧.cpu_of result ≡ cpu }
    ensures under_way { ⟦<Ipc<MonitorOver<L>> as CallLayer<IpcLaw>>⟧.under_way result ≡ None }
    ensures call_states { (⟦<Ipc<MonitorOver<L>> as CallLayer<IpcLaw>>⟧.local result).call_states
        ≡ replicate THREADS no_call }
    ensures coupled { ⟦<Ipc<MonitorOver<L>> as CallLayer<IpcLaw>>⟧.Coupled result m.now }
{
    let _ = m;
    let _laws: MonitorTowerLaws = PhantomData;
    Ipc::part(cpu, homes, caps.len() as u8)
}

impl OpensBlocks for MonitorEdit {
    ghost use Rattle.fifo_buffer.specs.Monitors.{empty_monitor};

    ghost at_boot = { empty_monitor };

    fn blocks(alloc: Global, caps: &[u8]) -> Result<Vec<MonitorBlock>, NoMemory> {
        let mut blocks = Vec::with_capacity(alloc, caps.len())?;
        for capacity in caps {
            blocks
                .push(MonitorBlock::new(usize::from(*capacity)))
                .unwrap();
        }
        Ok(blocks)
    }
}

impl<S: OpensLocks<MonitorEdit>> OpensBuffers for Monitor<S> {
    fn open(
        alloc: Global,
        cpus: u8,
        caps: &[u8],
        homes: &[CpuId],
        room: usize,
    ) -> Result<S::Machine, NoMemory> {
        S::open(alloc, cpus, caps, homes, room)
    }
}
