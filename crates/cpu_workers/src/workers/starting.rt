//! A thread for each worker. `work_all` takes memory, starts the threads and waits for them.

ghost use Rattle.std.specs.Prelude.{◌≡◌, [], All, IfOk};
ghost use Rattle.cpu_workers.specs.Reports.{Both, HasRun};

use crate::own_threads::{Joined, Task};
use crate::pool::run_all;
use crate::refusals::WorkerError;
use crate::workers::gates::Gate;
use crate::workers::hints::Hints;
use crate::workers::turns::{Did, work};
use crate::workers::worker::Worker;
use layer_traits::{CallLayer, IpcLaw};
use std::alloc::{AllocError, Global};
use std::sync::Wait;
use std::thread::Threads;

/// A worker whose thread was joined, and what the worker did there.
#[derive(Drop)]
pub struct Came<I: CallLayer<IpcLaw> + Drop>
where
    I::Machine: Drop,
{
    /// The worker.
    pub worker: Worker<I>,
    /// How many turns it took, and why it stopped.
    pub did: Did,
}

// A worker before its turns, under its gate.
#[derive(Drop)]
struct Turning<'a, I: CallLayer<IpcLaw> + Drop, G: Gate>
where
    I::Machine: Drop,
{
    worker: Worker<I>,
    gate: &'a G,
    turns: u64,
}

impl<'a, I: CallLayer<IpcLaw> + Drop, G: Gate> Task for Turning<'a, I, G>
where
    I::Machine: Drop + Hints,
{
    ghost use Rattle.std.specs.Prelude.{◌≡◌, []};
    ghost use Rattle.cpu_workers.specs.Reports.{HasRun};

    type Done = Came<I>;

    ghost MayRun = { λ t. t.worker.acts ≡ [] };

    ghost HasDone = { λ t came. HasRun (G.MayAnswer t.gate.now) t.turns t.worker came.worker came.did.taken came.did.stop };

    fn run<R: Wait>(self, rt: &R) -> Came<I> {
        let Turning {
            mut worker,
            gate,
            turns,
        } = self;
        let did = work(rt, gate, &mut worker, turns);
        Came { worker, did }
    }
}

// Returns a task for each worker.
fn all_turning<'a, I: CallLayer<IpcLaw> + Drop, G: Gate>(
    alloc: Global,
    gate: &'a G,
    workers: Vec<Worker<I>>,
    turns: u64,
) -> Result<Vec<Turning<'a, I, G>>, AllocError>
where
    I::Machine: Drop,
    ensures { IfOk result (λ tasks. Both
        (λ w t. (t.worker ≡ w) × (t.gate.now ≡ gate.now) × (t.turns ≡ turns)) workers.items
        tasks.items) }
{
    let mut tasks = Vec::with_capacity(alloc, workers.len())?;
    for worker in workers {
        let task = Turning {
            worker,
            gate,
            turns,
        };
        tasks.push_reserved(task);
    }
    Ok(tasks)
}

/// Runs each worker in its own thread, as `work` does, and returns what the threads left, in the
/// workers' order. All memory is taken and all threads are known to have started before any step;
/// all are joined.
///
/// It waits for its threads, so it need not return.
///
/// Requires: nothing was done in any worker's machine yet.
///
/// Errors: `NoMemory` if an allocation failed, and `NoThread` if a thread could not be started;
/// then no step was taken.
pub fn work_all<I: CallLayer<IpcLaw> + Drop + Send, G: Gate + Sync, R: Threads + Wait + Sync>(
    rt: &R,
    alloc: Global,
    gate: &G,
    workers: Vec<Worker<I>>,
    turns: u64,
) -> Result<Joined<Came<I>>, WorkerError>
where
    I::Machine: Drop + Send + Hints,
    requires { All (λ w. w.acts ≡ []) workers.items }
    ensures { IfOk result (λ came. Both
        (λ w c. HasRun (G.MayAnswer gate.now) turns w c.worker c.did.taken c.did.stop) workers.items
        came.done.items) }
{
    let tasks = all_turning(alloc, gate, workers, turns)?;
    match run_all(rt, alloc, tasks) {
        Ok(came) => Ok(came),
        Err(refused) => Err(WorkerError::from(refused)),
    }
}
