//! Natives over their own sides of a machine: from before their first calls to what they leave.

ghost use Rattle.std.specs.Prelude.{◌≡◌, ℕ, ◌<◌, ◌≤◌, Some, [], All, IfOk, length, slice_get, vec_capacity};
ghost use Rattle.layer_traits.specs.{Blocks.{Capacities.caps_in, QueueBlocks.{homes_in, inner}, BufferEffects.opening_locks}, Threads.OnePlace.cpu_at};
ghost use Rattle.{event_log.specs.declared.ids.TheConstants.{BUFFERS, CPUS, THREADS}, cpu_workers.specs.Natives.{HasLeftCalls, HasLeftMachine, IsNewCaller}};
ghost use Rattle.cpu_workers.specs.{Natives.OpensWith, Reports.Both, Seating.{IsReadySeat, IsUnused, tower_acts}};

use crate::natives::Native;
use crate::natives::tasks::NativeTask;
use crate::pool::run_all;
use crate::refusals::WorkerError;
use crate::workers::{Caller, Hints};
use event_log::{CpuId, NoMemory, Tid};
use ipc_calls::{Ipc, TowerEdit, TowerLaws, TowerOver};
use layer_traits::{CallLayer, IpcLaw, Layer, LockLaw};
use std::alloc::Global;
use std::marker::PhantomData;
use std::sync::Wait;
use std::thread::Threads;

/// What a native leaves: its machine and itself.
#[derive(Drop)]
pub(crate) struct LeftNative<M: Drop, N: Drop> {
    pub(crate) machine: M,
    pub(crate) native: N,
}

// Makes the tasks of the natives before their first calls, each for the thread of its number and
// over its machine.
fn tasks_over<I: CallLayer<IpcLaw> + Drop, N: Native + Drop>(
    alloc: Global,
    caps: &[u8],
    homes: &[CpuId],
    machines: Vec<I::Machine>,
    natives: Vec<N>,
) -> Result<Vec<NativeTask<I, N>>, NoMemory>
where
    I::Machine: Drop + Hints,
    requires room { (m : I.Machine) → 0 < I.room m }
    requires few { length machines.items ≤ CPUS }
    requires count { length natives.items ≡ length machines.items }
    requires buffers { length caps.now ≤ BUFFERS }
    requires threads { length homes.now ≤ THREADS }
    requires unused { (k : ℕ) (m : I.Machine) → slice_get machines.items k ≡ Some m
        → IsUnused (I.IsFresh m homes.now (cpu_at k)) (homes_in (I.opening m) ≡ homes.now)
        (caps_in (I.opening m) ≡ caps.now)
        (I.history m ≡ []) (I.acts m ≡ [])
        (inner (I.opening m) ≡ opening_locks (caps_in (I.opening m))) }
    ensures count { IfOk result (λ tasks. length tasks.items ≡ length machines.items) }
    ensures each { IfOk result (λ tasks. (k : ℕ) (t : _) → slice_get tasks.items k ≡ Some t
        → IsNewCaller caps.now (cpu_at k) t.caller.value
        × (slice_get natives.items k ≡ Some t.native)
        × ((m : I.Machine) → slice_get machines.items k ≡ Some m
        → t.caller.value.machine_id ≡ I.machine_id m)) }
{
    let mut machines = machines;
    let mut natives = natives;
    let count = machines.len();
    let mut tasks = Vec::with_capacity(alloc, count)?;
    for number in 0..count {
        let machine = machines.remove(0);
        let native = natives.remove(0);
        let caller = Caller::new(
            machine,
            CpuId(number as u8),
            Tid(number as u8),
            homes,
            caps.len() as u8,
        );
        let caller = Box::new(alloc, caller)?;
        tasks.push_reserved(NativeTask { caller, native });
    }
    Ok(tasks)
}

// Returns what one native leaves.
fn left_by<I: CallLayer<IpcLaw> + Drop, N: Native + Drop>(
    task: NativeTask<I, N>,
) -> LeftNative<I::Machine, N>
where
    I::Machine: Drop + Hints,
    requires stepwise { I.IsStepwise }
    ensures machine { HasLeftMachine task.caller.value (I.acts result.machine)
        (I.machine_id result.machine) }
    ensures owns { I.ActsFor result.machine task.caller.value.cpu }
    ensures native { result.native ≡ task.native }
{
    let NativeTask { caller, native } = task;
    LeftNative {
        machine: Box::into_inner(caller).into_machine(),
        native,
    }
}

// Puts what all natives leave into the list, which has room.
fn all_left<I: CallLayer<IpcLaw> + Drop, N: Native + Drop>(
    done: Vec<NativeTask<I, N>>,
    mut left: Vec<LeftNative<I::Machine, N>>,
) -> Vec<LeftNative<I::Machine, N>>
where
    I::Machine: Drop + Hints,
    requires stepwise { I.IsStepwise }
    requires empty { left.items ≡ [] }
    requires room { length done.items ≤ vec_capacity left }
    ensures { Both (λ d x. HasLeftMachine d.caller.value (I.acts x.machine) (I.machine_id x.machine)
        × I.ActsFor x.machine d.caller.value.cpu
        × (x.native ≡ d.native)) done.items result.items }
{
    for one in done {
        let alone = left_by::<I, N>(one);
        left.push_reserved(alone);
    }
    left
}

// Runs each native over its machine, as `call_over` does, whatever the layers under the calls are.
pub(crate) fn call_each<
    I: CallLayer<IpcLaw> + Drop + Send,
    N: Native + Drop + Send,
    R: Threads + Wait + Sync,
>(
    rt: &R,
    alloc: Global,
    caps: &[u8],
    homes: &[CpuId],
    machines: Vec<I::Machine>,
    natives: Vec<N>,
) -> Result<Vec<LeftNative<I::Machine, N>>, WorkerError>
where
    I::Machine: Drop + Send + Hints,
    requires stepwise { I.IsStepwise }
    requires room { (m : I.Machine) → 0 < I.room m }
    requires few { length machines.items ≤ CPUS }
    requires count { length natives.items ≡ length machines.items }
    requires buffers { length caps.now ≤ BUFFERS }
    requires threads { length homes.now ≤ THREADS }
    requires needs { All (λ n. N.Needs n caps.now) natives.items }
    requires unused { (k : ℕ) (m : I.Machine) → slice_get machines.items k ≡ Some m
        → IsUnused (I.IsFresh m homes.now (cpu_at k)) (homes_in (I.opening m) ≡ homes.now)
        (caps_in (I.opening m) ≡ caps.now)
        (I.history m ≡ []) (I.acts m ≡ [])
        (inner (I.opening m) ≡ opening_locks (caps_in (I.opening m))) }
    ensures count { IfOk result (λ left. length left.items ≡ length machines.items) }
    ensures machine_id { IfOk result
        (λ left. (k : ℕ) (x : _) (m : I.Machine) → slice_get left.items k ≡ Some x
        → slice_get machines.items k ≡ Some m
        → I.machine_id x.machine ≡ I.machine_id m) }
    ensures owns { IfOk result
        (λ left. (k : ℕ) (x : _) → slice_get left.items k ≡ Some x
        → I.ActsFor x.machine (cpu_at k)) }
    ensures left { IfOk result
        (λ left. (k : ℕ) (x : _) (n : N) → slice_get left.items k ≡ Some x
        → slice_get natives.items k ≡ Some n
        → HasLeftCalls N.Kept caps.now (cpu_at k) n x.native (I.acts x.machine)) }
{
    let left = Vec::with_capacity(alloc, machines.len())?;
    let tasks = tasks_over::<I, N>(alloc, caps, homes, machines, natives)?;
    let done = run_all(rt, alloc, tasks)?;
    Ok(all_left::<I, N>(done.into_done(), left))
}

/// Runs each native over its machine, in its own thread, and returns what they leave, in their
/// order. All memory is taken before any call. Only this function names the layers of the tower,
/// each of which makes a proof over it more costly.
///
/// Errors: `NoMemory` if an allocation failed, and `NoThread` if a thread could not be started;
/// then no call was made.
pub(crate) fn call_over<
    L: Layer<LockLaw<TowerEdit>> + Drop + Send,
    N: Native + Drop + Send,
    R: Threads + Wait + Sync,
>(
    rt: &R,
    alloc: Global,
    caps: &[u8],
    homes: &[CpuId],
    machines: Vec<L::Machine>,
    natives: Vec<N>,
) -> Result<Vec<LeftNative<L::Machine, N>>, WorkerError>
where
    L::Machine: Drop + Send + Hints,
    requires stepwise { L.IsStepwise }
    requires room { (m : L.Machine) → 0 < L.room m }
    requires few { length machines.items ≤ CPUS }
    requires count { length natives.items ≡ length machines.items }
    requires buffers { length caps.now ≤ BUFFERS }
    requires threads { length homes.now ≤ THREADS }
    requires needs { All (λ n. N.Needs n caps.now) natives.items }
    requires ready { (k : ℕ) (m : L.Machine) → slice_get machines.items k ≡ Some m
        → IsReadySeat (L.ActsFor m (cpu_at k)) (L.IsOutside m (cpu_at k)) (L.history m ≡ [])
        (L.acts m ≡ [])
        (OpensWith (length machines.items) caps.now homes.now (L.opening m)) }
    ensures count { IfOk result (λ left. length left.items ≡ length machines.items) }
    ensures machine_id { IfOk result
        (λ left. (k : ℕ) (x : _) (m : L.Machine) → slice_get left.items k ≡ Some x
        → slice_get machines.items k ≡ Some m
        → L.machine_id x.machine ≡ L.machine_id m) }
    ensures owns { IfOk result
        (λ left. (k : ℕ) (x : _) → slice_get left.items k ≡ Some x
        → L.ActsFor x.machine (cpu_at k)) }
    ensures left { IfOk result
        (λ left. (k : ℕ) (x : _) (n : N) → slice_get left.items k ≡ Some x
        → slice_get natives.items k ≡ Some n
        → HasLeftCalls N.Kept caps.now (cpu_at k) n x.native (tower_acts (L.acts x.machine))) }
{
    let _laws: TowerLaws = PhantomData;
    call_each::<Ipc<TowerOver<L>>, N, R>(rt, alloc, caps, homes, machines, natives)
}
