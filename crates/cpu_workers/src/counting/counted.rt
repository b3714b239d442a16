//! What was counted: a number with the kind of the locks under which it was counted. Only this
//! module makes it, of a machine or of a closed table. No call takes memory or waits.

ghost use Rattle.std.specs.Prelude.{◌≡◌, ◌*◌, ◌%◌, ◌^◌, ◌<◌, ◌≤◌, Some, [], ◌∷◌};
ghost use Rattle.{event_log.specs.{declared.ids.{CpuId.CpuId, TheConstants.CPUS}, Actions.{gives, phase, Rests}}, table_machine.specs.SeatViews.new_seat_views};
ghost use Rattle.cpu_workers.specs.declared.counting.counted.CountedAt.TheVariants.{Machine as AtMachine, Table as AtTable};
ghost use Rattle.cpu_workers.specs.Counts.{AllHaveMade, IsNumberOfFrees, after_rounds, counting};

use crate::counting::{AddOne, NUMBER};
use crate::locks::PlanWords;
use crate::own_threads::Joined;
use boot::LockKind;
use layer_traits::OwnedLocks;
use table_machine::{Key, Shared};

/// A name of the lock whose layer of critical sections `L` is; it gives the lock's kind.
pub trait LockOfKind<L> {
    ghost use Rattle.boot.specs.declared.locks.LockKind.{LockKind};

    /// The lock's kind, as a plan names it.
    ghost lock_kind: { LockKind };
}

/// Where a number was counted.
#[derive(Clone, Copy, Debug, PartialEq, Eq)]
pub enum CountedAt {
    /// In an owned machine.
    Machine,
    /// At a table of shared words.
    Table,
}

/// A number that was counted under locks of this kind: how often a lock was released. Each of so
/// many CPUs did so many sections. [`number_in`] makes it of an owned machine. [`number_left`]
/// makes it of a closed table, each of whose CPUs counted in its own thread. For a table at which
/// nothing was counted it says that no section was done.
#[derive(Clone, Copy, Debug, PartialEq, Eq)]
pub struct Counted {
    number: u64,
    lock: LockKind,
    cpus: u8,
    times: u64,
    at: CountedAt,
}

impl Counted {
    /// Returns the number.
    pub fn number(&self) -> u64
        ensures { result ≡ self.now.number }
    {
        self.number
    }

    /// Returns the kind of the locks.
    pub fn lock(&self) -> LockKind
        ensures { result ≡ self.now.lock }
    {
        self.lock
    }

    /// Returns how many CPUs counted.
    pub fn cpus(&self) -> u8
        ensures { result ≡ self.now.cpus }
    {
        self.cpus
    }

    /// Returns how many sections each of them did.
    pub fn times(&self) -> u64
        ensures { result ≡ self.now.times }
    {
        self.times
    }
}

/// Returns the number of an owned machine at rest: how often its lock was released, modulo 2^64.
///
/// Requires: each poll of the lock is one action. The holder of the machine acts for some CPU. The
/// machine was opened with the number 0. No CPU waits at a lock or holds one. Each of `cpus` CPUs
/// has done `times` sections, in rounds, and nothing else was done. `lock` is the kind of the lock.
pub fn number_in<L: OwnedLocks<AddOne>, V: LockOfKind<L>>(
    machine: &L::Machine,
    cpus: u8,
    times: u64,
    lock: LockKind,
) -> Counted
    requires stepwise { L.IsStepwise }
    requires owned { (c : CpuId) × L.ActsFor machine.now c }
    requires opening { L.opening machine.now NUMBER ≡ Some 0 }
    requires rests { (c : CpuId) → phase c (L.acts machine.now) ≡ Rests }
    requires rounds { L.acts machine.now ≡ after_rounds NUMBER cpus times [] }
    requires kind { lock ≡ V.lock_kind }
    ensures number { result.number ≡ gives NUMBER (L.acts machine.now) % 2 ^ 64 }
    ensures lock { result.lock ≡ lock }
    ensures cpus { result.cpus ≡ cpus }
    ensures times { result.times ≡ times }
    ensures at { result.at ≡ AtMachine }
{
    Counted {
        number: *L::block_in(machine, NUMBER).unwrap(),
        lock,
        cpus,
        times,
        at: CountedAt::Machine,
    }
}

// Closes a table with the keys of its CPUs, each of which has made so many sections.
fn closed<K: PlanWords>(
    shared: Shared<AddOne, K>,
    keys: Vec<Key<AddOne>>,
    cpus: u8,
    times: u64,
) -> Counted
    requires start { shared.start ≡ (NUMBER, 0) ∷ [] }
    requires cpus { shared.cpus ≤ CPUS }
    requires all { shared.cpus ≡ cpus }
    requires times { times * CPUS < 2 ^ 64 }
    requires came { AllHaveMade NUMBER (new_seat_views shared shared.cpus) keys.items times }
    ensures number { result.number ≡ times * shared.cpus }
    ensures frees { IsNumberOfFrees counting NUMBER shared keys.items result.number }
    ensures lock { result.lock ≡ K.lock_kind }
    ensures all { result.cpus ≡ cpus }
    ensures times { result.times ≡ times }
    ensures at { result.at ≡ AtTable }
{
    let blocks = shared.close(keys);
    Counted {
        number: blocks[0].1,
        lock: K::kind(),
        cpus,
        times,
        at: CountedAt::Table,
    }
}

/// Closes the table, whose number was 0 before each of its CPUs did `times` sections that add 1,
/// each CPU in its own thread. Returns the number: how often the table's lock was released in one
/// legal log. The log begins with the log of each key and has no other CPU's events.
///
/// Requires: the table has the one lock of the number, which was 0, and `cpus` CPUs, at most
/// `CPUS`. Each key has made exactly so many sections. All sections together are fewer than 2^64.
pub fn number_left<K: PlanWords>(
    shared: Shared<AddOne, K>,
    came: Joined<Key<AddOne>>,
    cpus: u8,
    times: u64,
) -> Counted
    requires start { shared.start ≡ (NUMBER, 0) ∷ [] }
    requires cpus { shared.cpus ≤ CPUS }
    requires all { shared.cpus ≡ cpus }
    requires times { times * CPUS < 2 ^ 64 }
    requires came { AllHaveMade NUMBER (new_seat_views shared shared.cpus) came.done.items times }
    ensures number { result.number ≡ times * shared.cpus }
    ensures frees { IsNumberOfFrees counting NUMBER shared came.done.items result.number }
    ensures lock { result.lock ≡ K.lock_kind }
    ensures all { result.cpus ≡ cpus }
    ensures times { result.times ≡ times }
    ensures at { result.at ≡ AtTable }
{
    closed(shared, came.into_done(), cpus, times)
}

/// Closes the table, whose number was 0, with its keys as they were, and returns the number:
/// nothing was counted.
///
/// Requires: the table has the one lock of the number, which was 0, and `cpus` CPUs, at most
/// `CPUS`. No key has seen anything.
pub(crate) fn number_untouched<K: PlanWords>(
    shared: Shared<AddOne, K>,
    keys: Vec<Key<AddOne>>,
    cpus: u8,
) -> Counted
    requires start { shared.start ≡ (NUMBER, 0) ∷ [] }
    requires cpus { shared.cpus ≤ CPUS }
    requires all { shared.cpus ≡ cpus }
    requires keys { keys.items ≡ new_seat_views shared shared.cpus }
    ensures number { result.number ≡ 0 }
    ensures lock { result.lock ≡ K.lock_kind }
    ensures all { result.cpus ≡ cpus }
    ensures times { result.times ≡ 0 }
{
    closed(shared, keys, cpus, 0)
}
