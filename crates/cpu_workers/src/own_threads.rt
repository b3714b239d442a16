//! Tasks in their own threads. Only this module makes the evidence of what a thread left
//! ([`Joined`]), from a thread that was joined. Only this module makes the evidence that a thread
//! could not be started ([`NoThread`]), from a failed start. Starting a thread takes its memory,
//! and joining one waits for it.

ghost use Rattle.std.specs.Prelude.{◌≡◌, ◌≤◌, [], All, Err, IfOk, IfErr, IsOk, MatchResult, length, map, vec_capacity};
ghost use Rattle.cpu_workers.specs.{Reports.Both, Tasks.task_of};

use crossbeam_utils::sync::WaitGroup;
use std::snapshot::Snapshot;
use std::sync::Wait;
use std::sync::atomic::{AtomicBool, Ordering};
use std::thread::{Promise, PromisedHandle, Scope, SpawnError, Threads};
use thiserror::Error;

/// What runs in its own thread.
pub(crate) trait Task: Sized {
    /// What it leaves.
    type Done;

    /// When it may run.
    ghost MayRun: { Self → Type 0 };

    /// What it has done if it leaves this.
    ghost HasDone: { Self → Self.Done → Type 0 };

    /// Runs to its end. It may wait for other threads, so it need not return.
    ///
    /// Requires: it may run.
    fn run<R: Wait>(self, rt: &R) -> Self::Done
        requires { MayRun self }
        ensures { HasDone self result };
}

/// A thread could not be started, and nothing was run. It is made only of a failed start.
#[derive(Clone, Copy, Debug, PartialEq, Eq, Error)]
#[error("NoThread(5)")]
pub struct NoThread {
    refused: (),
}

/// What the tasks' threads left, one element for each, in their order. It is evidence: it is made
/// only of joined threads.
#[derive(Drop)]
pub struct Joined<D: Drop> {
    done: Vec<D>,
}

impl<D: Drop> Joined<D> {
    /// Returns what they left.
    pub fn into_done(self) -> Vec<D>
        ensures { result ≡ self.done }
    {
        let Joined { done } = self;
        done
    }
}

/// A task for which no thread could be started, as it was.
#[derive(Drop)]
pub(crate) struct NotStarted<T: Drop> {
    /// The error.
    pub(crate) refused: NoThread,
    /// The task.
    pub(crate) task: T,
}

// What a thread's result keeps: the task has run, or is as it was.
#[derive(Drop)]
struct RunOf<T: Task + Drop> {
    task: Snapshot<T>,
}

impl<T: Task + Drop> Promise<Result<T::Done, T>> for RunOf<T> {
    ghost use Rattle.std.specs.Prelude.{◌≡◌, MatchResult};

    ghost kept_by = { λ p r. MatchResult r (λ done. T.HasDone p.task.value done) (λ task. task ≡ p.task.value) };
}

/// A thread that was started for a task.
#[derive(Drop)]
pub(crate) struct Started<T: Task + Drop>
where
    T::Done: Drop,
{
    child: PromisedHandle<Result<T::Done, T>, RunOf<T>>,
}

/// A task to be started: the thread that was started for it, or the task itself if none was.
pub(crate) type Start<T> = Result<Started<T>, T>;

/// The word on which threads begin. It is for so many threads, and is given only if all were
/// started.
#[derive(Drop)]
pub(crate) struct Word {
    given: AtomicBool,
    count: Snapshot<usize>,
}

impl Word {
    /// Makes the word for so many threads, which is not given.
    pub(crate) fn new(count: usize) -> Word
        ensures { result.count.value ≡ count }
    {
        Word {
            given: AtomicBool::new(false),
            count: Snapshot::of(&count),
        }
    }

    /// Gives the word.
    ///
    /// Requires: for each of so many tasks a thread was started.
    pub(crate) fn give<T: Task + Drop>(&self, starts: &[Start<T>])
    where
        T::Done: Drop,
        requires all { length starts.now ≡ self.now.count.value }
        requires started { All IsOk starts.now }
    {
        let _ = starts;
        self.given.store(true, Ordering::SeqCst);
    }
}

// Does what a thread does: it waits until no part of the group is left elsewhere, and runs its task
// if the word was given.
fn run_started<T: Task + Drop, R: Wait>(
    rt: &R,
    part: Option<WaitGroup>,
    word: &Word,
    task: T,
) -> Result<T::Done, T>
    requires { T.MayRun task }
    ensures { MatchResult result (λ done. T.HasDone task done) (λ same. same ≡ task) }
{
    if let Some(part) = part {
        part.wait(rt);
    }
    if word.given.load(Ordering::SeqCst) {
        Ok(task.run(rt))
    } else {
        Err(task)
    }
}

// Returns the task of a thread to which the word was not given. The type has no error for a task
// that has run; with such a task this function would wait forever.
fn untouched<T: Task + Drop, R: Wait>(rt: &R, came: Result<T::Done, T>) -> T
where
    T::Done: Drop,
    ensures { came ≡ Err result }
{
    if let Err(task) = came {
        return task;
    }
    for _ in rt.forever() {}
    unreachable!()
}

/// Starts a thread for a task, with a part of the group. The thread waits until no part is left
/// elsewhere, and then runs its task if the word was given.
///
/// Requires: the task may run.
///
/// Errors: if no thread could be started, the task as it was. Then no part of the group is left.
pub(crate) fn start<'s, E, T: Task + Drop + Send + 's, R: Threads + Wait + Sync>(
    rt: &'s R,
    scope: &Scope<'s, E>,
    group: &mut Vec<WaitGroup>,
    word: &'s Word,
    task: T,
) -> Result<Started<T>, NotStarted<T>>
where
    T::Done: Drop + Send + 's,
    requires { T.MayRun task }
    ensures started { IfOk result (λ started. started.child.promise.task.value ≡ task) }
    ensures back { IfErr result (λ not. not.task ≡ task) }
{
    let part = group.pop();
    let promise = RunOf {
        task: Snapshot::of(&task),
    };
    let started = scope.spawn_with(
        promise,
        move || -> Result<T::Done, T>
            requires { T.MayRun task }
            ensures { MatchResult result (λ done. T.HasDone task done) (λ same. same ≡ task) }
        { run_started(rt, part, word, task) },
    );
    match started {
        Ok(child) => Ok(Started { child }),
        Err(not) => {
            group.clear();
            let SpawnError { value } = not;
            Err(NotStarted {
                refused: NoThread { refused: () },
                task: untouched(rt, value()),
            })
        }
    }
}

// Joins a thread to which the word was given, and returns what it left. The type has no error for a
// task that has not run; with such a task this function would wait forever.
fn done_by<T: Task + Drop, R: Threads + Wait>(rt: &R, start: Start<T>) -> T::Done
where
    T::Done: Drop,
    requires { IsOk start }
    ensures { T.HasDone (task_of (λ s. s.child.promise.task.value) start) result }
{
    let left = match start {
        Ok(started) => started.child.join(rt),
        Err(_) => unreachable!(),
    };
    if let Ok(done) = left {
        return done;
    }
    for _ in rt.forever() {}
    unreachable!()
}

/// Joins all threads, to which the word was given, and puts what they left into the list, which has
/// room.
///
/// Requires: all were started.
pub(crate) fn join_all<T: Task + Drop, R: Threads + Wait>(
    rt: &R,
    starts: Vec<Start<T>>,
    mut done: Vec<T::Done>,
) -> Joined<T::Done>
where
    T::Done: Drop,
    requires started { All IsOk starts.items }
    requires empty { done.items ≡ [] }
    requires room { length starts.items ≤ vec_capacity done }
    ensures { Both T.HasDone (map (task_of (λ s. s.child.promise.task.value)) starts.items)
        result.done.items }
{
    for start in starts {
        let one = done_by(rt, start);
        done.push_reserved(one);
    }
    Joined { done }
}

// Returns the task of a start to which the word was not given.
fn back_from<T: Task + Drop, R: Threads + Wait>(rt: &R, start: Start<T>) -> T
where
    T::Done: Drop,
    ensures { result ≡ task_of (λ s. s.child.promise.task.value) start }
{
    match start {
        Ok(started) => untouched(rt, started.child.join(rt)),
        Err(task) => task,
    }
}

/// Joins all threads that were started, to which the word was not given. Puts all tasks as they
/// were into the list, which has room.
pub(crate) fn take_back<T: Task + Drop, R: Threads + Wait>(
    rt: &R,
    starts: Vec<Start<T>>,
    mut back: Vec<T>,
) -> Vec<T>
where
    T::Done: Drop,
    requires empty { back.items ≡ [] }
    requires room { length starts.items ≤ vec_capacity back }
    ensures { result.items ≡ map (task_of (λ s. s.child.promise.task.value)) starts.items }
{
    for start in starts {
        let one = back_from(rt, start);
        back.push_reserved(one);
    }
    back
}
