//! Counting: each of several CPUs adds 1 to one number, again and again, in critical sections. All
//! calls take memory. Only `count_table` waits.

ghost use Rattle.std.specs.Prelude.{◌≡◌, ◌*◌, ◌≤◌, IfOk};
ghost use Rattle.event_log.specs.declared.ids.TheConstants.{CPUS};
ghost use Rattle.cpu_workers.specs.declared.counting.counted.CountedAt.TheVariants.{Machine as AtMachine, Table as AtTable};

use crate::line::MOST_TIMES;
use crate::locks::rounds::count_behind;
use boot::LockKind;
use cpu_workers::counting::{self, AddOne, CountFault, CountLaws, Counted};
use cpu_workers::{OnLock, by_kind};
use event_log::NoMemory;
use plain_machine::{LockQueueWords, Plain};
use spinlock::Ticket;
use std::alloc::Global;
use std::marker::PhantomData;
use std::sync::Wait;
use std::thread::Threads;

/// Counts over the owned machine with locks of these words, which are of this kind.
fn count_over<K: LockQueueWords + OnLock>(
    alloc: Global,
    cpus: u8,
    times: u64,
    lock: LockKind,
) -> Result<Counted, NoMemory>
    requires some { 1 ≤ cpus }
    requires cpus { cpus ≤ CPUS }
    requires times { times ≤ MOST_TIMES }
    requires kind { lock ≡ K.lock_kind }
    ensures number { IfOk result (λ counted. counted.number ≡ times * cpus) }
    ensures lock { IfOk result (λ counted. counted.lock ≡ lock) }
    ensures all { IfOk result (λ counted. counted.cpus ≡ cpus) }
    ensures times { IfOk result (λ counted. counted.times ≡ times) }
    ensures at { IfOk result (λ counted. counted.at ≡ AtMachine) }
{
    let _laws: CountLaws = PhantomData;
    count_behind::<Ticket<Plain<AddOne, K>>>(alloc, cpus, times, lock)
}

/// Counts over the owned machine with locks of this kind: each of `cpus` CPUs does `times` sections
/// that add 1.
///
/// Requires: `cpus` is from 1 to [`CPUS`](event_log::CPUS). `times` is at most [`MOST_TIMES`].
///
/// Errors: `NoMemory` if memory ran out; then no section was done.
pub fn count_plain(alloc: Global, cpus: u8, times: u64, lock: LockKind) -> Result<Counted, NoMemory>
    requires some { 1 ≤ cpus }
    requires cpus { cpus ≤ CPUS }
    requires times { times ≤ MOST_TIMES }
    ensures number { IfOk result (λ counted. counted.number ≡ times * cpus) }
    ensures lock { IfOk result (λ counted. counted.lock ≡ lock) }
    ensures all { IfOk result (λ counted. counted.cpus ≡ cpus) }
    ensures times { IfOk result (λ counted. counted.times ≡ times) }
    ensures at { IfOk result (λ counted. counted.at ≡ AtMachine) }
{
    by_kind!(lock, count_over::<Line>(alloc, cpus, times, lock))
}

/// Counts over shared words of locks of this kind. Each of `cpus` CPUs does `times` sections that
/// add 1 to one number, in its own thread, as [`counting::count_table`] says.
///
/// Requires: `cpus` is at most [`CPUS`](event_log::CPUS). `times` is at most [`MOST_TIMES`].
///
/// Errors: `NoMemory` if memory ran out, and `NoThread` if a thread could not be started. Then no
/// section was done, and the threads that were started are joined.
pub fn count_table<R: Threads + Wait + Sync>(
    rt: &R,
    alloc: Global,
    cpus: u8,
    times: u64,
    lock: LockKind,
) -> Result<Counted, CountFault>
    requires cpus { cpus ≤ CPUS }
    requires times { times ≤ MOST_TIMES }
    ensures number { IfOk result (λ counted. counted.number ≡ times * cpus) }
    ensures lock { IfOk result (λ counted. counted.lock ≡ lock) }
    ensures all { IfOk result (λ counted. counted.cpus ≡ cpus) }
    ensures times { IfOk result (λ counted. counted.times ≡ times) }
    ensures at { IfOk result (λ counted. counted.at ≡ AtTable) }
{
    counting::count_table(rt, alloc, cpus, times, lock)
}
