//! A thread for each task: all are started before any task runs, and all are joined. `run_all`
//! takes memory, starts threads and waits for them.

ghost use Rattle.std.specs.Prelude.{◌≡◌, ◌+◌, ◌≤◌, [], All, IfOk, IfErr, IsOk, IsNone, length, map, vec_capacity};
ghost use Rattle.cpu_workers.specs.{Reports.Both, Tasks.task_of};

use crate::own_threads::{
    Joined, NoThread, NotStarted, Start, Task, Word, join_all, start, take_back,
};
use crate::refusals::WorkerError;
use crossbeam_utils::sync::WaitGroup;
use std::alloc::{AllocError, Global};
use std::sync::Wait;
use std::thread;
use std::thread::{Scope, Threads};

/// Why no task ran, and what there was to run.
#[derive(Drop)]
pub(crate) struct Refused<T: Drop> {
    /// Why.
    pub(crate) fault: WorkerError,
    /// All tasks, as they were.
    pub(crate) back: Vec<T>,
}

impl<T: Drop> From<Refused<T>> for WorkerError {
    ghost use Rattle.std.specs.Prelude.{◌≡◌};

    ghost from_gives = { λ refused e. e ≡ refused.fault };

    fn from(refused: Refused<T>) -> WorkerError {
        let Refused { fault, back: _ } = refused;
        fault
    }
}

// All memory that so many tasks' threads take, except the threads' own memory.
#[derive(Drop)]
struct Supplies<T: Task + Drop>
where
    T::Done: Drop,
{
    group: Vec<WaitGroup>,
    starts: Vec<Start<T>>,
    done: Vec<T::Done>,
    back: Vec<T>,
}

// Makes a group of so many parts, and one more: while that one is left, no thread continues.
fn group_of(alloc: Global, count: usize) -> Result<Vec<WaitGroup>, AllocError>
    ensures { IfOk result (λ group. length group.items ≡ count + 1) }
{
    let first = WaitGroup::new(alloc)?;
    let mut group = Vec::with_capacity(alloc, count.saturating_add(1))?;
    for _ in 0..count {
        group.push(first.clone()?)?;
    }
    group.push(first)?;
    Ok(group)
}

fn permits_for<T: Task + Drop>(alloc: Global, count: usize) -> Result<Supplies<T>, AllocError>
where
    T::Done: Drop,
    ensures starts { IfOk result
        (λ supplies. (supplies.starts.items ≡ []) × (count ≤ vec_capacity supplies.starts)) }
    ensures done { IfOk result
        (λ supplies. (supplies.done.items ≡ []) × (count ≤ vec_capacity supplies.done)) }
    ensures back { IfOk result
        (λ supplies. (supplies.back.items ≡ []) × (count ≤ vec_capacity supplies.back)) }
{
    Ok(Supplies {
        group: group_of(alloc, count)?,
        starts: Vec::with_capacity(alloc, count)?,
        done: Vec::with_capacity(alloc, count)?,
        back: Vec::with_capacity(alloc, count)?,
    })
}

// Starts a thread for each task, until no thread could be started for one. Returns the list, which
// has room, of starts and unstarted tasks, and that error.
fn start_all<'s, E, T: Task + Drop + Send + 's, R: Threads + Wait + Sync>(
    rt: &'s R,
    scope: &Scope<'s, E>,
    group: &mut Vec<WaitGroup>,
    word: &'s Word,
    tasks: Vec<T>,
    mut starts: Vec<Start<T>>,
) -> (Vec<Start<T>>, Option<NoThread>)
where
    T::Done: Drop + Send + 's,
    requires may { All T.MayRun tasks.items }
    requires empty { starts.items ≡ [] }
    requires room { length tasks.items ≤ vec_capacity starts }
    ensures tasks { map (task_of (λ s. s.child.promise.task.value)) result.0.items ≡ tasks.items }
    ensures started { IsNone result.1 → All IsOk result.0.items }
{
    let mut refused = None;
    for task in tasks {
        if refused.is_some() {
            starts.push_reserved(Err(task));
            continue;
        }
        match start(rt, scope, group, word, task) {
            Ok(started) => starts.push_reserved(Ok(started)),
            Err(NotStarted { refused: no, task }) => {
                refused = Some(no);
                starts.push_reserved(Err(task));
            }
        }
    }
    (starts, refused)
}

// Runs each task in its own thread in this scope. All threads are started before the word is
// given to any. If a thread could not be started, the word is given to none, and the tasks are as
// they were.
fn run_in<'s, E, T: Task + Drop + Send + 's, R: Threads + Wait + Sync>(
    rt: &'s R,
    scope: &Scope<'s, E>,
    word: &'s Word,
    tasks: Vec<T>,
    supplies: Supplies<T>,
) -> Result<Joined<T::Done>, Refused<T>>
where
    T::Done: Drop + Send + 's,
    requires may { All T.MayRun tasks.items }
    requires word { word.now.count.value ≡ length tasks.items }
    requires starts { (supplies.starts.items ≡ [])
        × (length tasks.items ≤ vec_capacity supplies.starts) }
    requires done { (supplies.done.items ≡ []) × (length tasks.items ≤ vec_capacity supplies.done) }
    requires back { (supplies.back.items ≡ []) × (length tasks.items ≤ vec_capacity supplies.back) }
    ensures ran { IfOk result (λ joined. Both T.HasDone tasks.items joined.done.items) }
    ensures refused { IfErr result (λ r. r.back.items ≡ tasks.items) }
{
    let Supplies {
        mut group,
        starts,
        done,
        back,
    } = supplies;
    let (starts, refused) = start_all(rt, scope, &mut group, word, tasks, starts);
    if let Some(no) = refused {
        return Err(Refused {
            fault: WorkerError::NoThread(no),
            back: take_back(rt, starts, back),
        });
    }
    word.give(starts.as_slice());
    group.clear();
    Ok(join_all(rt, starts, done))
}

// Opens the scope of the threads.
fn run_with<T: Task + Drop + Send, R: Threads + Wait + Sync>(
    rt: &R,
    word: &Word,
    tasks: Vec<T>,
    supplies: Supplies<T>,
) -> Result<Joined<T::Done>, Refused<T>>
where
    T::Done: Drop + Send,
    requires may { All T.MayRun tasks.items }
    requires word { word.now.count.value ≡ length tasks.items }
    requires starts { (supplies.starts.items ≡ [])
        × (length tasks.items ≤ vec_capacity supplies.starts) }
    requires done { (supplies.done.items ≡ []) × (length tasks.items ≤ vec_capacity supplies.done) }
    requires back { (supplies.back.items ≡ []) × (length tasks.items ≤ vec_capacity supplies.back) }
    ensures ran { IfOk result (λ joined. Both T.HasDone tasks.items joined.done.items) }
    ensures refused { IfErr result (λ r. r.back.items ≡ tasks.items) }
{
    thread::scope(
        thread::scope_env(),
        rt,
        |scope| -> Result<Joined<T::Done>, Refused<T>>
            requires { All T.MayRun tasks.items × (word.now.count.value ≡ length tasks.items)
                × (supplies.starts.items ≡ []) × (length tasks.items ≤ vec_capacity supplies.starts)
                × (supplies.done.items ≡ []) × (length tasks.items ≤ vec_capacity supplies.done)
                × (supplies.back.items ≡ []) × (length tasks.items ≤ vec_capacity supplies.back) }
            ensures { IfOk result (λ joined. Both T.HasDone tasks.items joined.done.items)
                × IfErr result (λ r. r.back.items ≡ tasks.items) }
        { run_in(rt, scope, word, tasks, supplies) },
    )
}

/// Runs each task in its own thread, and returns what the threads left, in the tasks' order. All
/// memory is taken before a thread is started. All threads are started before any task runs, and
/// all are joined. A task runs only in its thread.
///
/// It waits for its threads, so it need not return.
///
/// Requires: each task may run.
///
/// Errors: `NoMemory` if an allocation failed, and `NoThread` if a thread could not be started,
/// with the tasks as they were.
pub(crate) fn run_all<T: Task + Drop + Send, R: Threads + Wait + Sync>(
    rt: &R,
    alloc: Global,
    tasks: Vec<T>,
) -> Result<Joined<T::Done>, Refused<T>>
where
    T::Done: Drop + Send,
    requires { All T.MayRun tasks.items }
    ensures ran { IfOk result (λ joined. Both T.HasDone tasks.items joined.done.items) }
    ensures refused { IfErr result (λ r. r.back.items ≡ tasks.items) }
{
    let supplies = match permits_for(alloc, tasks.len()) {
        Ok(supplies) => supplies,
        Err(error) => {
            return Err(Refused {
                fault: WorkerError::from(error),
                back: tasks,
            });
        }
    };
    let word = Word::new(tasks.len());
    run_with(rt, &word, tasks, supplies)
}
