//! The workers of a plan, each over its own side of a machine: from before their first turn to
//! what they leave.

ghost use Rattle.std.specs.Prelude.{◌≡◌, ℕ, ◌<◌, ◌≤◌, Some, [], IfOk, length, slice_get, vec_capacity};
ghost use Rattle.layer_traits.specs.{Blocks.{Capacities.caps_in, QueueBlocks.{homes_in, inner}, BufferEffects.opening_locks}, Threads.OnePlace.cpu_at};
ghost use Rattle.{event_log.specs.declared.ids.TheConstants.CPUS, boot.specs.Plan.IsPlan, cpu.specs.Boots.homes_for};
ghost use Rattle.cpu_workers.specs.{declared.workers.seats.TheConstants.STRETCH, Reports.Both};
ghost use Rattle.cpu_workers.specs.Seating.{HasLeft, IsApart, IsAtBoot, IsReadySeat, IsUnused, OpensPlan, tower_acts};

use crate::refusals::WorkerError;
use crate::workers::gates::Gate;
use crate::workers::hints::Hints;
use crate::workers::seats::STRETCH;
use crate::workers::starting::{Came, work_all};
use crate::workers::turns::Did;
use crate::workers::worker::Worker;
use boot::Boot;
use cpu::{guests_of, homes_of};
use event_log::{CpuId, Entry, NoMemory};
use ipc_calls::{Ipc, TowerEdit, TowerLaws, TowerOver};
use layer_traits::{CallLayer, IpcLaw, Layer, LockLaw};
use std::alloc::Global;
use std::marker::PhantomData;
use std::sync::Wait;
use std::thread::Threads;

/// What a worker leaves: its machine, its trace and what it did.
#[derive(Drop)]
pub(crate) struct Left<M: Drop> {
    pub(crate) machine: M,
    pub(crate) trace: Vec<Entry>,
    pub(crate) did: Did,
}

// Makes the worker of a CPU of the plan before its first turn.
fn worker_over<I: CallLayer<IpcLaw> + Drop>(
    alloc: Global,
    boot: &Boot,
    number: CpuId,
    machine: I::Machine,
) -> Result<Worker<I>, NoMemory>
where
    I::Machine: Drop,
    requires stepwise { I.IsStepwise }
    requires room { (m : I.Machine) → 0 < I.room m }
    requires unused { IsUnused (I.IsFresh machine (homes_for boot.now) number)
        (homes_in (I.opening machine) ≡ homes_for boot.now)
        (caps_in (I.opening machine) ≡ boot.now.caps)
        (I.history machine ≡ []) (I.acts machine ≡ [])
        (inner (I.opening machine) ≡ opening_locks (caps_in (I.opening machine))) }
    ensures at_boot { IfOk result (IsAtBoot boot.now number) }
    ensures machine_id { IfOk result (λ w. w.machine_id ≡ I.machine_id machine) }
{
    let homes = homes_of(boot);
    let buffers = boot.caps().len() as u8;
    let guests = guests_of(alloc, boot, number)?;
    let limit = boot.trace() as usize;
    Worker::at_boot(
        alloc,
        machine,
        number,
        homes.as_slice(),
        buffers,
        guests,
        limit,
    )
}

// Makes the workers of all CPUs of the plan before their first turn, each over its machine.
fn workers_over<I: CallLayer<IpcLaw> + Drop>(
    alloc: Global,
    boot: &Boot,
    machines: Vec<I::Machine>,
) -> Result<Vec<Worker<I>>, NoMemory>
where
    I::Machine: Drop,
    requires stepwise { I.IsStepwise }
    requires room { (m : I.Machine) → STRETCH ≤ I.room m }
    requires few { length machines.items ≤ CPUS }
    requires unused { (k : ℕ) (m : I.Machine) → slice_get machines.items k ≡ Some m
        → IsUnused (I.IsFresh m (homes_for boot.now) (cpu_at k))
        (homes_in (I.opening m) ≡ homes_for boot.now) (caps_in (I.opening m) ≡ boot.now.caps)
        (I.history m ≡ []) (I.acts m ≡ [])
        (inner (I.opening m) ≡ opening_locks (caps_in (I.opening m))) }
    ensures count { IfOk result (λ workers. length workers.items ≡ length machines.items) }
    ensures each { IfOk result (λ workers. (k : ℕ) (w : _) → slice_get workers.items k ≡ Some w
        → IsAtBoot boot.now (cpu_at k) w
        × ((m : I.Machine) → slice_get machines.items k ≡ Some m → w.machine_id ≡ I.machine_id m)) }
{
    let mut machines = machines;
    let count = machines.len();
    let mut workers = Vec::with_capacity(alloc, count)?;
    for number in 0..count {
        let machine = machines.remove(0);
        // No `?`, which would move the worker's many bytes three times more.
        let mut worker = match worker_over::<I>(alloc, boot, CpuId(number as u8), machine) {
            Ok(worker) => worker,
            Err(error) => return Err(error),
        };
        worker.stretch_to(STRETCH);
        workers.push_reserved(worker);
    }
    Ok(workers)
}

// Takes one worker apart into what it leaves.
fn apart<I: CallLayer<IpcLaw> + Drop>(came: Came<I>) -> Left<I::Machine>
where
    I::Machine: Drop,
    ensures apart { IsApart came.worker (I.acts result.machine) (I.machine_id result.machine)
        result.trace.items }
    ensures owns { I.ActsFor result.machine came.worker.cpu }
    ensures did { result.did ≡ came.did }
{
    let Came { worker, did } = came;
    worker.keeps();
    let (trace, machine) = worker.into_parts();
    Left {
        machine,
        trace,
        did,
    }
}

// Puts what all workers leave into the list, which has room.
fn all_apart<I: CallLayer<IpcLaw> + Drop>(
    came: Vec<Came<I>>,
    mut left: Vec<Left<I::Machine>>,
) -> Vec<Left<I::Machine>>
where
    I::Machine: Drop,
    requires empty { left.items ≡ [] }
    requires room { length came.items ≤ vec_capacity left }
    ensures { Both (λ c x. IsApart c.worker (I.acts x.machine) (I.machine_id x.machine)
        x.trace.items
        × I.ActsFor x.machine c.worker.cpu
        × (x.did ≡ c.did)) came.items result.items }
{
    for one in came {
        let alone = apart::<I>(one);
        left.push_reserved(alone);
    }
    left
}

// Runs a worker of each CPU of the plan over its machine, as `run_over` does, whatever the layers
// under the calls are.
pub(crate) fn run_each<
    I: CallLayer<IpcLaw> + Drop + Send,
    G: Gate + Sync,
    R: Threads + Wait + Sync,
>(
    rt: &R,
    alloc: Global,
    boot: &Boot,
    turns: u64,
    gate: &G,
    machines: Vec<I::Machine>,
) -> Result<Vec<Left<I::Machine>>, WorkerError>
where
    I::Machine: Drop + Send + Hints,
    requires stepwise { I.IsStepwise }
    requires room { (m : I.Machine) → STRETCH ≤ I.room m }
    requires few { length machines.items ≤ CPUS }
    requires unused { (k : ℕ) (m : I.Machine) → slice_get machines.items k ≡ Some m
        → IsUnused (I.IsFresh m (homes_for boot.now) (cpu_at k))
        (homes_in (I.opening m) ≡ homes_for boot.now) (caps_in (I.opening m) ≡ boot.now.caps)
        (I.history m ≡ []) (I.acts m ≡ [])
        (inner (I.opening m) ≡ opening_locks (caps_in (I.opening m))) }
    ensures count { IfOk result (λ left. length left.items ≡ length machines.items) }
    ensures machine_id { IfOk result
        (λ left. (k : ℕ) (x : _) (m : I.Machine) → slice_get left.items k ≡ Some x
        → slice_get machines.items k ≡ Some m
        → I.machine_id x.machine ≡ I.machine_id m) }
    ensures owns { IfOk result
        (λ left. (k : ℕ) (x : _) → slice_get left.items k ≡ Some x
        → I.ActsFor x.machine (cpu_at k)) }
    ensures left { IfOk result (λ left. (k : ℕ) (x : _) → slice_get left.items k ≡ Some x
        → HasLeft boot.now (G.MayAnswer gate.now) turns (cpu_at k) (I.acts x.machine)
        (I.machine_id x.machine) x.trace.items x.did.taken x.did.stop) }
{
    let left = Vec::with_capacity(alloc, machines.len())?;
    let workers = workers_over::<I>(alloc, boot, machines)?;
    let came = work_all(rt, alloc, gate, workers, turns)?;
    Ok(all_apart::<I>(came.into_done(), left))
}

/// Runs a worker of each CPU of the plan over its machine, each in its own thread, and returns
/// what they leave, by CPU. All memory is taken before any step. Only this function names the
/// layers of the tower, each of which makes a proof over it more costly.
///
/// Errors: `NoMemory` if an allocation failed, and `NoThread` if a thread could not be started;
/// then no step was taken.
pub(crate) fn run_over<
    L: Layer<LockLaw<TowerEdit>> + Drop + Send,
    G: Gate + Sync,
    R: Threads + Wait + Sync,
>(
    rt: &R,
    alloc: Global,
    boot: &Boot,
    turns: u64,
    gate: &G,
    machines: Vec<L::Machine>,
) -> Result<Vec<Left<L::Machine>>, WorkerError>
where
    L::Machine: Drop + Send + Hints,
    requires stepwise { L.IsStepwise }
    requires room { (m : L.Machine) → STRETCH ≤ L.room m }
    requires plan { IsPlan boot.now }
    requires count { length machines.items ≤ boot.now.cpus }
    requires few { length machines.items ≤ CPUS }
    requires ready { (k : ℕ) (m : L.Machine) → slice_get machines.items k ≡ Some m
        → IsReadySeat (L.ActsFor m (cpu_at k)) (L.IsOutside m (cpu_at k)) (L.history m ≡ [])
        (L.acts m ≡ []) (OpensPlan boot.now (L.opening m)) }
    ensures count { IfOk result (λ left. length left.items ≡ length machines.items) }
    ensures machine_id { IfOk result
        (λ left. (k : ℕ) (x : _) (m : L.Machine) → slice_get left.items k ≡ Some x
        → slice_get machines.items k ≡ Some m
        → L.machine_id x.machine ≡ L.machine_id m) }
    ensures owns { IfOk result
        (λ left. (k : ℕ) (x : _) → slice_get left.items k ≡ Some x
        → L.ActsFor x.machine (cpu_at k)) }
    ensures left { IfOk result (λ left. (k : ℕ) (x : _) → slice_get left.items k ≡ Some x
        → HasLeft boot.now (G.MayAnswer gate.now) turns (cpu_at k) (tower_acts (L.acts x.machine))
        (L.machine_id x.machine) x.trace.items x.did.taken x.did.stop) }
{
    let _laws: TowerLaws = PhantomData;
    run_each::<Ipc<TowerOver<L>>, G, R>(rt, alloc, boot, turns, gate, machines)
}
