//! What the state lines report of a system, read off it. No call takes memory or waits.

ghost use Rattle.std.specs.Prelude.{◌≡◌, ◌<◌, ◌≤◌, ℕ, length, slice_index_or};
ghost use Rattle.{event_log.specs.declared.ids.TheConstants.{CPUS, THREADS}, layer_traits.specs.declared.calls.Place.Place, cpu.specs.Claims.IsPlaceOf};
ghost use Rattle.{cpu.specs.{Claims.listed, Systems.halted_in}, mctower.specs.State.IsStateOf};

use crate::tell::state_lines::State;
use arrayvec::ArrayVec;
use cpu::System;
use event_log::{CPUS, CpuId, THREADS, Tid};
use layer_traits::{Owned, Place, Reason};

/// Returns why each of so many CPUs of a system is halted.
fn halted_of<I: Owned + Drop>(cpus: u8, system: &System<I>) -> ArrayVec<Option<Reason>, CPUS>
where
    I::Machine: Drop,
    requires few { cpus ≤ CPUS }
    requires cpus { length system.now.cpus ≡ cpus }
    ensures { result.items ≡ listed (λ c. halted_in (record { 0 = c }) system.now) 0 cpus }
{
    let mut halted = ArrayVec::new();
    for cpu in 0..cpus {
        halted.push(system.halted(CpuId(cpu)));
    }
    halted
}

/// Returns where each of so many threads of a system is.
fn places_of<I: Owned + Drop>(threads: usize, system: &System<I>) -> [Place; THREADS]
where
    I::Machine: Drop,
    requires few { threads ≤ THREADS }
    requires threads { length system.now.homes ≡ threads }
    ensures count { length result ≡ THREADS }
    ensures read { (t : ℕ) (d : Place) → t < threads
        → IsPlaceOf system.now (record { 0 = t }) (slice_index_or result t d) }
{
    let mut places = [Place::Ended; THREADS];
    for t in 0..threads {
        places[t] = system.place(Tid(t as u8));
    }
    places
}

/// Returns what the state lines report of a system. Takes no memory.
pub fn state_of<I: Owned + Drop>(system: &System<I>) -> State
where
    I::Machine: Drop,
    ensures { IsStateOf I.IsStepwise system.now result }
{
    let threads = system.threads();
    let places = places_of(threads, system);
    let halted = halted_of(system.cpus(), system);
    let is_quiet = system.is_quiet();
    State {
        halted,
        places,
        threads,
        is_quiet,
    }
}
