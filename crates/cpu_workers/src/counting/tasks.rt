//! A worker that counts, as a task in its own thread. `count_all` takes memory, starts threads
//! and waits for them.

ghost use Rattle.std.specs.Prelude.{◌≡◌, ◌≤◌, [], IsSome, IfOk, IfErr, All, length, map, vec_capacity};
ghost use Rattle.{layer_traits.specs.Protocols.OneLock.opened, cpu_workers.specs.{declared.counting.TheConstants.NUMBER, Counts.{AllHaveMade, IsFresh}}};
ghost use Rattle.cpu_workers.specs.Reports.{Both};

use crate::counting::AddOne;
use crate::counting::sections::work;
use crate::locks::PlanWords;
use crate::own_threads::{Joined, Task};
use crate::pool::{Refused, run_all};
use crate::refusals::WorkerError;
use std::alloc::{AllocError, Global};
use std::sync::Wait;
use std::thread::Threads;
use table_machine::{Key, Shared};

// A worker before its sections, at the table of its key.
#[derive(Drop)]
struct Counting<'a, K: PlanWords> {
    shared: &'a Shared<AddOne, K>,
    key: Key<AddOne>,
    times: u64,
}

impl<'a, K: PlanWords> Task for Counting<'a, K> {
    ghost use Rattle.{std.specs.Prelude.IsSome, layer_traits.specs.Protocols.OneLock.opened, cpu_workers.specs.declared.counting.TheConstants.NUMBER};
    ghost use Rattle.cpu_workers.specs.Counts.{HasMade, IsFresh};

    type Done = Key<AddOne>;

    ghost MayRun = { λ t. IsFresh t.shared.now t.key × IsSome (opened t.shared.now.start NUMBER) };

    ghost HasDone = { λ t key. HasMade NUMBER t.key key t.times };

    fn run<R: Wait>(self, rt: &R) -> Key<AddOne> {
        let Counting { shared, key, times } = self;
        work(rt, shared, key, times)
    }
}

// Room for the tasks of so many workers, and for their keys if these are returned.
#[derive(Drop)]
struct Room<'a, K: PlanWords> {
    tasks: Vec<Counting<'a, K>>,
    keys: Vec<Key<AddOne>>,
}

fn room_for<'a, K: PlanWords>(alloc: Global, count: usize) -> Result<Room<'a, K>, AllocError>
    ensures tasks { IfOk result
        (λ room. (room.tasks.items ≡ []) × (count ≤ vec_capacity room.tasks)) }
    ensures keys { IfOk result (λ room. (room.keys.items ≡ []) × (count ≤ vec_capacity room.keys)) }
{
    Ok(Room {
        tasks: Vec::with_capacity(alloc, count)?,
        keys: Vec::with_capacity(alloc, count)?,
    })
}

// Puts a task for each key into the list, which has room.
fn all_counting<'a, K: PlanWords>(
    shared: &'a Shared<AddOne, K>,
    keys: Vec<Key<AddOne>>,
    times: u64,
    mut tasks: Vec<Counting<'a, K>>,
) -> Vec<Counting<'a, K>>
    requires empty { tasks.items ≡ [] }
    requires room { length keys.items ≤ vec_capacity tasks }
    ensures { Both (λ key t. (t.key ≡ key) × (t.shared.now ≡ shared.now) × (t.times ≡ times))
        keys.items result.items }
{
    for key in keys {
        let task = Counting { shared, key, times };
        tasks.push_reserved(task);
    }
    tasks
}

// Puts the keys of tasks that are returned into the list, which has room.
fn keys_of<K: PlanWords>(
    tasks: Vec<Counting<'_, K>>,
    mut keys: Vec<Key<AddOne>>,
) -> Vec<Key<AddOne>>
    requires empty { keys.items ≡ [] }
    requires room { length tasks.items ≤ vec_capacity keys }
    ensures { result.items ≡ map (λ t. t.key) tasks.entry.items }
{
    for task in tasks {
        let Counting {
            shared: _,
            key,
            times: _,
        } = task;
        keys.push_reserved(key);
    }
    keys
}

/// Runs a worker for each key, which does so many sections in its own thread, as `run_all` does.
///
/// Requires: each key is one of this table and has seen nothing, and the lock of the number is
/// there.
///
/// Errors: `NoMemory` if an allocation failed, and `NoThread` if a thread could not be started,
/// with the keys as they were.
pub(crate) fn count_all<K: PlanWords + Sync, R: Threads + Wait + Sync>(
    rt: &R,
    alloc: Global,
    shared: &Shared<AddOne, K>,
    keys: Vec<Key<AddOne>>,
    times: u64,
) -> Result<Joined<Key<AddOne>>, Refused<Key<AddOne>>>
    requires fresh { All (IsFresh shared.now) keys.items }
    requires lock { IsSome (opened shared.now.start NUMBER) }
    ensures came { IfOk result (λ came. AllHaveMade NUMBER keys.items came.done.items times) }
    ensures refused { IfErr result (λ r. r.back.items ≡ keys.items) }
{
    let room = match room_for(alloc, keys.len()) {
        Ok(room) => room,
        Err(error) => {
            let fault = WorkerError::from(error);
            return Err(Refused { fault, back: keys });
        }
    };
    let Room { tasks, keys: again } = room;
    let tasks = all_counting(shared, keys, times, tasks);
    match run_all(rt, alloc, tasks) {
        Ok(came) => Ok(came),
        Err(Refused { fault, back }) => {
            let back = keys_of(back, again);
            Err(Refused { fault, back })
        }
    }
}
