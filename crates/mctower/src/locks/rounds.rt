//! Rounds of a count over one owned machine: each CPU in turn adds 1 to one number, in a critical
//! section under one lock. All calls except `round` and `rounds` take memory. None waits.

ghost use Rattle.std.specs.Prelude.{◌≡◌, ℕ, ◌+◌, ◌*◌, ◌<◌, ◌≤◌, ◌%◌, ◌^◌, Some, None, IsSome, IfOk, [], length};
ghost use Rattle.{event_log.specs.{declared.ids.{CpuId.CpuId, TheConstants.CPUS}, Actions.{gives, phase, Rests}}, cpu_workers.specs.Counts.sections_at};
ghost use Rattle.cpu_workers.specs.declared.counting.counted.CountedAt.TheVariants.{Machine as AtMachine};
ghost use Rattle.mctower.specs.Count.{AreReady, after_round, after_rounds};

use crate::line::MOST_TIMES;
use crate::locks::kinds::KindOf;
use boot::LockKind;
use cpu_workers::OnLock;
use cpu_workers::counting::{AddOne, Counted, NUMBER, number_in};
use event_log::{CpuId, LockId, NoMemory};
use layer_traits::{LockLayer, OwnedLocks, Payload};
use spinlock::whole;
use std::alloc::{AllocError, Global};

/// Does one whole section of each part in turn at `lock`, which adds 1 to the lock's number. The
/// payload holds nothing that counts.
fn round<L: LockLayer<AddOne>>(
    parts: &mut [L],
    machine: &mut L::Machine,
    lock: LockId,
    payload: &mut Payload,
)
    requires stepwise { L.IsStepwise }
    requires ready { AreReady L.cpu_of L.under_way L.Coupled parts.old machine.old }
    requires lock { IsSome (L.opening machine.old lock) }
    requires room { 3 * length parts.old ≤ L.room machine.old }
    requires owned { (c : CpuId) → c.0 < CPUS → L.ActsFor machine.old c }
    requires rests { (c : CpuId) → phase c (L.acts machine.old) ≡ Rests }
    ensures ready { AreReady L.cpu_of L.under_way L.Coupled parts.new machine.new }
    ensures opening { L.opening machine.new ≡ L.opening machine.old }
    ensures room { L.room machine.old ≤ L.room machine.new + 3 * length parts.old }
    ensures owned { (c : CpuId) → c.0 < CPUS → L.ActsFor machine.new c }
    ensures rests { (c : CpuId) → phase c (L.acts machine.new) ≡ Rests }
    ensures counted { sections_at lock (L.history machine.new)
        ≡ sections_at lock (L.history machine.old) + length parts.old }
    ensures order { L.acts machine.new ≡ after_round lock (length parts.old) (L.acts machine.old) }
{
    for i in 0..parts.len() {
        whole(&mut parts[i], machine, lock, AddOne, payload);
    }
}

/// Does that many rounds, as [`round`] does one.
fn rounds<L: LockLayer<AddOne>>(parts: &mut [L], machine: &mut L::Machine, lock: LockId, times: u64)
    requires stepwise { L.IsStepwise }
    requires ready { AreReady L.cpu_of L.under_way L.Coupled parts.old machine.old }
    requires lock { IsSome (L.opening machine.old lock) }
    requires room { 3 * (times * length parts.old) ≤ L.room machine.old }
    requires owned { (c : CpuId) → c.0 < CPUS → L.ActsFor machine.old c }
    requires rests { (c : CpuId) → phase c (L.acts machine.old) ≡ Rests }
    ensures opening { L.opening machine.new ≡ L.opening machine.old }
    ensures owned { (c : CpuId) → c.0 < CPUS → L.ActsFor machine.new c }
    ensures rests { (c : CpuId) → phase c (L.acts machine.new) ≡ Rests }
    ensures counted { sections_at lock (L.history machine.new)
        ≡ sections_at lock (L.history machine.old) + times * length parts.old }
    ensures order { L.acts machine.new
        ≡ after_rounds lock (length parts.old) times (L.acts machine.old) }
{
    let mut payload = Payload::new();
    for _ in 0..times {
        round(parts, machine, lock, &mut payload);
    }
}

/// Makes a part for each CPU from 0 on, each at rest.
fn parts_of<L: LockLayer<AddOne> + Drop>(alloc: Global, cpus: u8) -> Result<Vec<L>, AllocError>
    ensures long { IfOk result (λ parts. length parts.items ≡ cpus) }
    ensures ready { IfOk result (λ parts. (m : _) → ((c : CpuId) → c.0 < cpus → L.ActsFor m c)
        → ((c : CpuId) → c.0 < cpus → L.IsOutside m c)
        → AreReady L.cpu_of L.under_way L.Coupled parts.items m) }
{
    let mut parts = Vec::with_capacity(alloc, cpus as usize)?;
    for number in 0..cpus {
        parts.push(L::part(CpuId(number), &[], 1))?;
    }
    Ok(parts)
}

/// Makes an owned machine with the number 0 under its lock, and room for `events` events.
fn number_machine<L: OwnedLocks<AddOne>>(
    alloc: Global,
    events: usize,
) -> Result<L::Machine, NoMemory>
    ensures owned { IfOk result (λ m. (c : CpuId) → c.0 < CPUS → L.ActsFor m c) }
    ensures opening { IfOk result (λ m. L.opening m NUMBER ≡ Some 0) }
    ensures outside { IfOk result (λ m. (c : CpuId) → L.IsOutside m c) }
    ensures none { IfOk result (λ m. L.acts m ≡ []) }
    ensures room { IfOk result (λ m. L.room m ≡ events) }
{
    let mut blocks = Vec::new(alloc);
    blocks.push((NUMBER, 0))?;
    L::open(alloc, blocks, events)
}

/// Returns the owned machine after each of `cpus` CPUs has done `times` sections that add 1 to the
/// number, which was 0. The sections are done whole, in rounds of the CPUs from 0 on. Each CPU
/// keeps its part of the lock over all of its sections.
///
/// Requires: each poll of the lock is one action. `cpus` is from 1 to [`CPUS`](event_log::CPUS).
/// `times` is at most [`MOST_TIMES`].
///
/// Errors: `NoMemory` if the machine or the parts could not be allocated; then no section was done.
pub fn count_rounds<L: OwnedLocks<AddOne> + Drop>(
    alloc: Global,
    cpus: u8,
    times: u64,
) -> Result<L::Machine, NoMemory>
where
    L::Machine: Drop,
    requires stepwise { L.IsStepwise }
    requires some { 1 ≤ cpus }
    requires cpus { cpus ≤ CPUS }
    requires times { times ≤ MOST_TIMES }
    ensures owned { IfOk result (λ m. (c : CpuId) → c.0 < CPUS → L.ActsFor m c) }
    ensures opening { IfOk result (λ m. L.opening m NUMBER ≡ Some 0) }
    ensures rests { IfOk result (λ m. (c : CpuId) → phase c (L.acts m) ≡ Rests) }
    ensures counted { IfOk result (λ m. gives NUMBER (L.acts m) ≡ times * cpus) }
    ensures order { IfOk result (λ m. L.acts m ≡ after_rounds NUMBER cpus times []) }
{
    let mut machine = number_machine::<L>(alloc, 3 * times as usize * cpus as usize)?;
    let mut parts = parts_of::<L>(alloc, cpus)?;
    rounds(parts.as_mut_slice(), &mut machine, NUMBER, times);
    Ok(machine)
}

/// Counts over the owned machine with this lock, as
/// [`count_plain`](crate::locks::counts::count_plain) does.
///
/// Requires: there are from 1 to `CPUS` CPUs, and each adds at most `MOST_TIMES` times. Each poll
/// of the lock is one action. `lock` is the kind of its words.
///
/// Errors: `NoMemory` if an allocation failed.
pub(crate) fn count_behind<L: OwnedLocks<AddOne> + Drop>(
    alloc: Global,
    cpus: u8,
    times: u64,
    lock: LockKind,
) -> Result<Counted, NoMemory>
where
    L::Machine: OnLock + Drop,
    requires stepwise { L.IsStepwise }
    requires some { 1 ≤ cpus }
    requires cpus { cpus ≤ CPUS }
    requires times { times ≤ MOST_TIMES }
    requires kind { lock ≡ L.Machine.lock_kind }
    ensures number { IfOk result (λ counted. counted.number ≡ times * cpus) }
    ensures lock { IfOk result (λ counted. counted.lock ≡ lock) }
    ensures all { IfOk result (λ counted. counted.cpus ≡ cpus) }
    ensures times { IfOk result (λ counted. counted.times ≡ times) }
    ensures at { IfOk result (λ counted. counted.at ≡ AtMachine) }
{
    let machine = count_rounds::<L>(alloc, cpus, times)?;
    Ok(number_in::<L, KindOf>(&machine, cpus, times, lock))
}
