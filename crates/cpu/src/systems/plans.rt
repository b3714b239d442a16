//! The system of a plan. `guests_of` and `System::open` allocate. No function blocks.

ghost use Rattle.std.specs.Prelude.{◌≡◌, ◌<◌, IfOk, None, length, map, replicate, slice_index_or};
ghost use Rattle.{boot.specs.Plan.IsPlan, cpu.specs.Boots.{guests_for, homes_for, tables_for}};

use crate::guests::Guest;
use crate::systems::System;
use arrayvec::ArrayVec;
use boot::Boot;
use event_log::{CpuId, NoMemory, THREADS, Tid};
use layer_traits::Owned;
use std::alloc::Global;

/// Returns the home CPU of each thread of a plan.
pub fn homes_of(boot: &Boot) -> ArrayVec<CpuId, THREADS>
    ensures { result.items ≡ homes_for boot.now }
{
    let mut homes = ArrayVec::new();
    for t in 0..boot.threads() {
        homes.push(boot.home(Tid(t as u8)));
    }
    homes
}

/// Returns what a CPU's table has at the number of a thread, which must exist: a new guest if the
/// CPU is the thread's home.
fn guest_at(
    alloc: Global,
    boot: &Boot,
    number: CpuId,
    thread: Tid,
) -> Result<Option<Guest>, NoMemory>
    requires { thread.0 < length boot.now.tasks }
    ensures { IfOk result (λ guest. guest
        ≡ slice_index_or (guests_for boot.now number.0) thread.0 None) }
{
    let home = boot.home(thread);
    if home.0 != number.0 {
        return Ok(None);
    }
    let program = boot.program(thread).copy(alloc)?;
    Ok(Some(Guest::new(program)))
}

/// Returns the guests of a CPU of a plan.
///
/// Errors: `NoMemory` if an allocation failed. Then nothing was made, and the plan is as it was.
pub fn guests_of(alloc: Global, boot: &Boot, number: CpuId) -> Result<Vec<Option<Guest>>, NoMemory>
    ensures { IfOk result (λ guests. guests.items ≡ guests_for boot.now number.0) }
{
    let mut guests = Vec::with_capacity(alloc, boot.threads())?;
    for t in 0..boot.threads() {
        let guest = guest_at(alloc, boot, number, Tid(t as u8))?;
        guests.push(guest).unwrap();
    }
    Ok(guests)
}

/// Returns the guests of each CPU of a plan.
fn tables_of(alloc: Global, boot: &Boot) -> Result<Vec<Vec<Option<Guest>>>, NoMemory>
    ensures { IfOk result (λ tables. map (λ table. table.items) tables.items
        ≡ tables_for boot.now) }
{
    let mut tables = Vec::with_capacity(alloc, usize::from(boot.cpus()))?;
    for number in 0..boot.cpus() {
        let guests = guests_of(alloc, boot, CpuId(number))?;
        tables.push(guests).unwrap();
    }
    Ok(tables)
}

impl<I: Owned + Drop> System<I>
where
    I::Machine: Drop,
{
    ghost use Rattle.cpu.specs.{Claims.{MatchesPrograms, HasLinearization, MovesAgree, HasUniquePlace, KeepsAffinity}, Sound.{BootsByTable, IsSetupFor}};
    ghost use Rattle.cpu.specs.{Sound.{SoundByTable, setup_for}, Observed.ObservedByTable};

    /// Returns the system of a plan before its first step, with room for `room` steps. Each CPU's
    /// threads are ready by rising number, and every buffer is empty. All memory is allocated here.
    ///
    /// Errors: `NoMemory` if an allocation failed. Then nothing was made, and the plan is as it
    /// was.
    pub fn open(alloc: Global, boot: &Boot, room: usize) -> Result<System<I>, NoMemory>
        ensures caps { IfOk result (λ s. s.caps ≡ boot.now.caps) }
        ensures homes { IfOk result (λ s. s.homes ≡ homes_for boot.now) }
        ensures guests { IfOk result (λ s. map (λ p. p.guests) s.cpus ≡ tables_for boot.now) }
        ensures limits { IfOk result
            (λ s. map (λ p. p.limit) s.cpus ≡ replicate boot.now.cpus boot.now.trace) }
        ensures room { IfOk result (λ s. s.room ≡ room) }
        ensures taken { IfOk result (λ s. s.taken ≡ 0) }
        ensures plan { IsPlan boot.now }
        // The plan determines the system's setup of the step table, and the system is in the
        // table's state at boot.
        ensures planned { IfOk result (IsSetupFor (setup_for boot.now)) }
        ensures boots { IfOk result (λ s. I.IsStepwise → BootsByTable s) }
        ensures sound { IfOk result (λ s. I.IsStepwise → SoundByTable s) }
        ensures observed { IfOk result (λ s. I.IsStepwise → ObservedByTable s) }

        // This holds after every list of steps.
        ensures linearization { IfOk result HasLinearization }
        ensures follow { IfOk result MatchesPrograms }
        ensures stay { IfOk result KeepsAffinity }
        ensures once { IfOk result HasUniquePlace }
        ensures agree { IfOk result MovesAgree }
    {
        let homes = homes_of(boot);
        let caps = boot.caps();
        let tables = tables_of(alloc, boot)?;
        System::with_tables(
            alloc,
            caps.as_slice(),
            homes.as_slice(),
            tables,
            boot.trace() as usize,
            room,
        )
    }
}
