//! The table of a count: opened with its number, counted at, and closed. Opening it takes memory;
//! counting waits for the workers.

ghost use Rattle.std.specs.Prelude.{◌≡◌, ◌*◌, ◌<◌, ◌≤◌, ◌^◌, ◌⊎◌, [], ◌∷◌, IsErr, IsSome, IfOk, IfErr, IfSome, OnErr};
ghost use Rattle.{event_log.specs.Refusals.no_memory, table_machine.specs.SeatViews.new_seat_views, cpu_workers.specs.Counts.IsUncounted};
ghost use Rattle.cpu_workers.specs.declared.{counting.counted.CountedAt.TheVariants.Table as AtTable, refusals.WorkerError.TheVariants.NoMemory as LacksMemory};

use crate::by_kind;
use crate::counting::counted::{Counted, number_left, number_untouched};
use crate::counting::tasks::count_all;
use crate::counting::{AddOne, CountFault, NUMBER};
use crate::locks::PlanWords;
use crate::pool::Refused;
use boot::LockKind;
use event_log::{CPUS, NoMemory};
use std::alloc::Global;
use std::sync::Wait;
use std::thread::Threads;
use table_machine::{Key, Shared, TableWords};

// Opens the table of the number, which is 0, with a key for each CPU.
fn open_number<K: TableWords>(
    alloc: Global,
    cpus: u8,
) -> Result<(Shared<AddOne, K>, Vec<Key<AddOne>>), NoMemory>
    requires { cpus ≤ CPUS }
    ensures start { IfOk result (λ r. r.0.start ≡ (NUMBER, 0) ∷ []) }
    ensures cpus { IfOk result (λ r. r.0.cpus ≡ cpus) }
    ensures keys { IfOk result (λ r. r.1.items ≡ new_seat_views r.0 cpus) }
{
    let mut blocks = Vec::new(alloc);
    blocks.push((NUMBER, 0))?;
    Shared::open(alloc, blocks, cpus)
}

/// Why nothing was counted, and the number that was left.
#[derive(Debug, Drop)]
pub struct NotCounted {
    /// Why.
    pub fault: CountFault,
    /// What the closed table had, if there was a table: no section, and the number 0.
    pub left: Option<Counted>,
}

// Counts at the table, if it was opened. If it was not, memory ran out. If nothing was counted, the
// table is closed with the keys that were returned, and its number is 0.
fn count_if_open<K: PlanWords + Sync, R: Threads + Wait + Sync>(
    rt: &R,
    alloc: Global,
    opened: Result<(Shared<AddOne, K>, Vec<Key<AddOne>>), NoMemory>,
    cpus: u8,
    times: u64,
) -> Result<Counted, NotCounted>
    requires start { IfOk opened (λ r. r.0.start ≡ (NUMBER, 0) ∷ []) }
    requires cpus { IfOk opened (λ r. r.0.cpus ≤ CPUS) }
    requires all { IfOk opened (λ r. r.0.cpus ≡ cpus) }
    requires keys { IfOk opened (λ r. r.1.items ≡ new_seat_views r.0 r.0.cpus) }
    requires times { times * CPUS < 2 ^ 64 }
    ensures number { IfOk opened (λ r. IfOk result (λ counted. counted.number ≡ times * r.0.cpus)) }
    ensures lock { IfOk result (λ counted. counted.lock ≡ K.lock_kind) }
    ensures all { IfOk result (λ counted. counted.cpus ≡ cpus) }
    ensures times { IfOk result (λ counted. counted.times ≡ times) }
    ensures at { IfOk result (λ counted. counted.at ≡ AtTable) }
    ensures none { IfErr result
        (λ not. IfSome not.left (λ left. IsUncounted left cpus K.lock_kind)) }
    ensures closed { IfOk opened (λ _. IfErr result (λ not. IsSome not.left)) }
    ensures memory { OnErr opened
        (IsErr result × IfErr result (λ not. not.fault ≡ LacksMemory no_memory)) }
{
    let (shared, keys) = match opened {
        Ok(opened) => opened,
        Err(error) => {
            let fault = CountFault::from(error);
            return Err(NotCounted { fault, left: None });
        }
    };
    match count_all(rt, alloc, &shared, keys, times) {
        Ok(came) => Ok(number_left(shared, came, cpus, times)),
        Err(Refused { fault, back }) => {
            let left = Some(number_untouched(shared, back, cpus));
            Err(NotCounted { fault, left })
        }
    }
}

/// Counts as [`count_table`] does, and returns what is left if nothing was counted.
///
/// Requires: there are at most `CPUS` CPUs, and all sections together are fewer than 2^64.
///
/// Errors: as `count_table`; then no section was done, and the table's number is 0, if there was a
/// table. If there was none, memory ran out.
pub fn count_or_leave<R: Threads + Wait + Sync>(
    rt: &R,
    alloc: Global,
    cpus: u8,
    times: u64,
    lock: LockKind,
) -> Result<Counted, NotCounted>
    requires cpus { cpus ≤ CPUS }
    requires times { times * CPUS < 2 ^ 64 }
    ensures number { IfOk result (λ counted. counted.number ≡ times * cpus) }
    ensures lock { IfOk result (λ counted. counted.lock ≡ lock) }
    ensures all { IfOk result (λ counted. counted.cpus ≡ cpus) }
    ensures times { IfOk result (λ counted. counted.times ≡ times) }
    ensures at { IfOk result (λ counted. counted.at ≡ AtTable) }
    ensures none { IfErr result (λ not. IfSome not.left (λ left. IsUncounted left cpus lock)) }
    ensures table { IfErr result (λ not. (not.fault ≡ LacksMemory no_memory) ⊎ IsSome not.left) }
{
    by_kind!(
        lock,
        count_if_open::<Table, R>(rt, alloc, open_number(alloc, cpus), cpus, times)
    )
}

/// Counts over shared words of locks of this kind. Each of `cpus` CPUs does `times` sections that
/// add 1 to one number. Each has its own thread and its own seat at one table. All threads are
/// started before any of them does a section, and all are joined.
///
/// The number is read from the block that the closed table returns. It is evidence that so many
/// CPUs counted it, each in so many sections ([`Counted`]). It is made of keys that joined threads
/// left.
///
/// Requires: there are at most `CPUS` CPUs, and all sections together are fewer than 2^64.
///
/// Errors: `NoMemory` if memory ran out, and `NoThread` if a thread could not be started. Then no
/// section was done, and the threads that were started are joined.
pub fn count_table<R: Threads + Wait + Sync>(
    rt: &R,
    alloc: Global,
    cpus: u8,
    times: u64,
    lock: LockKind,
) -> Result<Counted, CountFault>
    requires cpus { cpus ≤ CPUS }
    requires times { times * CPUS < 2 ^ 64 }
    ensures number { IfOk result (λ counted. counted.number ≡ times * cpus) }
    ensures lock { IfOk result (λ counted. counted.lock ≡ lock) }
    ensures all { IfOk result (λ counted. counted.cpus ≡ cpus) }
    ensures times { IfOk result (λ counted. counted.times ≡ times) }
    ensures at { IfOk result (λ counted. counted.at ≡ AtTable) }
{
    match count_or_leave(rt, alloc, cpus, times, lock) {
        Ok(counted) => Ok(counted),
        Err(not) => Err(not.fault),
    }
}
