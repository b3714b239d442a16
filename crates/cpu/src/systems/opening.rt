//! Systems at boot. The functions here allocate. None blocks.

ghost use Rattle.std.specs.Prelude.{◌≡◌, ℕ, ◌+◌, ◌≤◌, ◌∷◌, ◌++◌, IfOk, Some, None, [], length, map, replicate, slice_get, slice_index_or, vec_capacity};
ghost use Rattle.layer_traits.specs.{Views.OwnParts.threads_in, Blocks.{Capacities.caps_in, QueueBlocks.homes_in}, Layers.BufferLaw.buffering_at_start};
ghost use Rattle.{layer_traits.specs.{Layers.BufferLaw.no_call, Threads.Places.at_boot}, event_log.specs.declared.ids.TheConstants.{CPUS, THREADS}};
ghost use Rattle.cpu.specs.Boots.{IsBooted, IsBootedAs};

use crate::cpus::Cpu;
use crate::guest_tables::Guests;
use crate::guests::Guest;
use crate::systems::System;
use event_log::{CpuId, NoMemory};
use layer_traits::{CallLayer, IpcLaw, Owned};
use std::alloc::Global;

impl<I: CallLayer<IpcLaw>> Cpu<I> {
    /// Returns a CPU before its first step, with the guests of its home threads. Its machine has
    /// threads of these home CPUs and so many buffers. Its trace has room for `limit` entries.
    ///
    /// Requires: there are at most [`THREADS`](event_log::THREADS) homes.
    ///
    /// Errors: `NoMemory` if an allocation failed. Then nothing was made, and the guests are
    /// dropped.
    pub fn at_boot(
        alloc: Global,
        number: CpuId,
        homes: &[CpuId],
        buffers: u8,
        guests: Vec<Option<Guest>>,
        limit: usize,
    ) -> Result<Cpu<I>, NoMemory>
        requires { length homes.now ≤ THREADS }
        ensures booted { IfOk result
            (λ c. IsBooted number guests.items limit c.number c.guests.items c.trace.items c.limit
            (vec_capacity c.trace)) }
        ensures cpu { IfOk result (λ c. I.cpu_of c.part ≡ number) }
        ensures under_way { IfOk result (λ c. I.under_way c.part ≡ None) }
        ensures local { IfOk result (λ c. I.local c.part ≡ buffering_at_start homes.now number) }
        ensures coupled { IfOk result
            (λ c. (m : I.Machine) → I.IsFresh m homes.now number
            → length (caps_in (I.opening m)) ≡ buffers → I.Coupled c.part m) }
    {
        let trace = Vec::with_capacity(alloc, limit)?;
        Ok(Cpu {
            part: I::part(number, homes, buffers),
            number,
            guests: Guests::new(guests),
            trace,
            limit,
        })
    }
}

/// Appends one CPU to the others; room for it is reserved.
fn put_cpu<I: CallLayer<IpcLaw> + Drop>(cpus: &mut Vec<Cpu<I>>, cpu: Cpu<I>)
    requires { length cpus.old.items + 1 ≤ vec_capacity cpus.old }
    ensures items { cpus.new.items ≡ cpus.old.items ++ cpu ∷ [] }
    ensures capacity { vec_capacity cpus.old ≤ vec_capacity cpus.new }
{
    cpus.push(cpu).unwrap();
}

/// Returns the CPUs of a machine before their first step, one for each table of guests.
fn cpus_at_boot<I: CallLayer<IpcLaw> + Drop>(
    alloc: Global,
    homes: &[CpuId],
    buffers: u8,
    tables: Vec<Vec<Option<Guest>>>,
    limit: usize,
) -> Result<Vec<Cpu<I>>, NoMemory>
    requires homes { length homes.now ≤ THREADS }
    requires few { length tables.items ≤ CPUS }
    ensures count { IfOk result (λ cpus. length cpus.items ≡ length tables.items) }
    ensures booted { IfOk result (λ cpus. (k : ℕ) (x : _) → slice_get cpus.items k ≡ Some x
        → IsBootedAs (λ p (m : I.Machine). I.Coupled p m) (λ m number. I.IsFresh m homes.now number)
        (λ m. length (caps_in (I.opening m))) buffers homes.now k
        (slice_index_or (map (λ table. table.items) tables.items) k []) limit x.part
        (I.cpu_of x.part) (I.local x.part)
        (I.under_way x.part) x.number x.guests.items x.trace.items x.limit (vec_capacity x.trace)) }
{
    let mut tables = tables;
    let count = tables.len();
    let mut cpus = Vec::with_capacity(alloc, count)?;
    for number in 0..count {
        let guests = tables.remove(0);
        // A `match` and no `?`, because `?` would copy the CPU's many bytes three times more.
        match Cpu::at_boot(alloc, CpuId(number as u8), homes, buffers, guests, limit) {
            Ok(cpu) => put_cpu(&mut cpus, cpu),
            Err(error) => return Err(error),
        }
    }
    Ok(cpus)
}

impl<I: Owned + Drop> System<I>
where
    I::Machine: Drop,
{
    ghost use Rattle.cpu.specs.{Boots.AreTables, Claims.{MatchesPrograms, HasLinearization, MovesAgree, HasUniquePlace, KeepsAffinity, cpu_shown, shown_of}};
    ghost use Rattle.cpu.specs.{Cpus.IsCpu, Sound.{BootsByTable, SoundByTable}, Observed.ObservedByTable, Systems.IsSystem, Tables.IsTabled};
    ghost use Rattle.layer_traits.specs.Views.Openings.{AreOpenable};

    /// Returns a system before its first step: buffers of these capacities, threads of these home
    /// CPUs, and one CPU for each table of guests. Each trace has room for `limit` entries, and the
    /// system has room for `room` steps. Each CPU's threads are ready by rising number, and every
    /// buffer is empty. All memory is allocated here.
    ///
    /// Requires: there are 1 to `CPUS` tables. There are at most `BUFFERS` buffers, each of
    /// capacity 1 to `CAPACITY`. There are at most `THREADS` threads, and each home is one of the
    /// CPUs. Each table has a place for each thread. It has a guest before its first instruction at
    /// the threads of its CPU, and none at the others. Each guest's program names only buffers of
    /// the system.
    ///
    /// Errors: `NoMemory` if an allocation failed. Then nothing was made, and the tables are
    /// dropped.
    pub fn with_tables(
        alloc: Global,
        caps: &[u8],
        homes: &[CpuId],
        tables: Vec<Vec<Option<Guest>>>,
        limit: usize,
        room: usize,
    ) -> Result<System<I>, NoMemory>
        requires openable { AreOpenable (length tables.items) caps.now homes.now }
        requires tables { AreTables homes.now (length caps.now)
            (map (λ table. table.items) tables.items) }
        ensures caps { IfOk result (λ s. s.caps ≡ caps.now) }
        ensures homes { IfOk result (λ s. s.homes ≡ homes.now) }
        ensures room { IfOk result (λ s. s.room ≡ room) }
        ensures taken { IfOk result (λ s. s.taken ≡ 0) }
        ensures guests { IfOk result
            (λ s. map (λ p. p.guests) s.cpus ≡ map (λ table. table.items) tables.items) }
        ensures limits { IfOk result
            (λ s. map (λ p. p.limit) s.cpus ≡ map (λ table. limit) tables.items) }
        // It is in the step table's state at boot.
        ensures boots { IfOk result (λ s. I.IsStepwise → BootsByTable s) }
        ensures sound { IfOk result (λ s. I.IsStepwise → SoundByTable s) }
        ensures observed { IfOk result (λ s. I.IsStepwise → ObservedByTable s) }

        // This holds after every list of steps.
        ensures linearization { IfOk result HasLinearization }
        ensures follow { IfOk result MatchesPrograms }
        ensures stay { IfOk result KeepsAffinity }
        ensures once { IfOk result HasUniquePlace }
        ensures agree { IfOk result MovesAgree }
    {
        let machine = I::open(alloc, tables.len() as u8, caps, homes, room)?;
        let cpus = cpus_at_boot(alloc, homes, caps.len() as u8, tables, limit)?;
        Ok(System::assembled(machine, cpus, homes.len(), room as u64))
    }

    /// Returns the system of a machine and its CPUs, before its first step.
    fn assembled(machine: I::Machine, cpus: Vec<Cpu<I>>, threads: usize, room: u64) -> System<I>
        requires { IsSystem (λ c. I.Coupled c.part machine × (I.cpu_of c.part ≡ c.number)
            × IsCpu (homes_in (I.opening machine)) (length (caps_in (I.opening machine)))
            (I.history machine) (threads_in (I.local c.part))
            (I.local c.part).call_states (I.under_way c.part) c.number c.guests.items c.trace.items
            c.limit (vec_capacity c.trace)
            × (I.IsStepwise
            → IsTabled (homes_in (I.opening machine)) (caps_in (I.opening machine)) c.number
            (I.local c.part) (I.under_way c.part)
            c.guests.items (I.opening machine)))
            (λ c. c.number) (λ c. I.ActsFor machine c) (λ c. I.MayHold machine c) I.IsStepwise
            (I.acts machine) cpus.items (homes_in (I.opening machine))
            (I.history machine) room 0 (I.room machine)
            ((threads ≡ length (homes_in (I.opening machine))) × (I.IsStepwise → BootsByTable
            (shown_of (caps_in (I.opening machine)) (homes_in (I.opening machine))
            (I.history machine)
            (I.wait_lists machine) (I.owner machine)
            (I.moves machine) (I.acts machine)
            (map (λ c. cpu_shown (threads_in (I.local c.part)) c.guests.items c.trace.items c.limit
            (I.is_inside c.part) (I.local c.part)) cpus.items) room 0))) }
        ensures caps { result.caps ≡ caps_in (I.opening machine) }
        ensures homes { result.homes ≡ homes_in (I.opening machine) }
        ensures room { result.room ≡ room }
        ensures taken { result.taken ≡ 0 }
        ensures guests { map (λ p. p.guests) result.cpus ≡ map (λ c. c.guests.items) cpus.items }
        ensures limits { map (λ p. p.limit) result.cpus ≡ map (λ c. c.limit) cpus.items }
        ensures boots { I.IsStepwise → BootsByTable result }
        ensures sound { I.IsStepwise → SoundByTable result }
        ensures observed { I.IsStepwise → ObservedByTable result }

        // This holds after every list of steps.
        ensures linearization { HasLinearization result }
        ensures follow { MatchesPrograms result }
        ensures stay { KeepsAffinity result }
        ensures once { HasUniquePlace result }
        ensures agree { MovesAgree result }
    {
        let system = System {
            machine,
            cpus,
            threads,
            room,
            taken: 0,
        };
        system.holds();
        system
    }
}
