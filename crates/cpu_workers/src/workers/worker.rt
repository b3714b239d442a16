//! A worker: one CPU with its machine. Only `at_boot` takes memory. No call waits.

ghost use Rattle.std.specs.Prelude.{◌≡◌, ◌≢◌, ◌<◌, ◌≤◌, Some, None, IfOk, [], length, vec_capacity};
ghost use Rattle.layer_traits.specs.{Blocks.{Capacities.caps_in, QueueBlocks.homes_in}, Views.OwnParts.threads_in};

use cpu::{Cpu, Guest};
use event_log::{BufId, CpuId, Entry, NoMemory};
use layer_traits::{CallLayer, IpcLaw, Reason, Step};
use std::alloc::Global;
use std::marker::Model;

/// One CPU with its own side of a machine, in which it may act at any time. A contract sees it
/// as plain data: which CPU it is, its plan, and its state in the step table.
#[derive(Drop)]
pub struct Worker<I: CallLayer<IpcLaw> + Drop>
where
    I::Machine: Drop,
{
    cpu: Cpu<I>,
    machine: I::Machine,
    // How many events the machine has room for at any time.
    stretch: usize,
}

impl<I: CallLayer<IpcLaw> + Drop> Model for Worker<I>
where
    I::Machine: Drop,
{
    ghost use Rattle.std.specs.Prelude.{◌≡◌, ◌<◌, ◌≤◌, length, vec_capacity};
    ghost use Rattle.{cpu.specs.{Cpus.{IsCpu, programs_of}, Tables.{IsTabled, cpu_local}}, cpu_workers.specs.{Working.Working, Seats.IsWorker}};
    ghost use Rattle.layer_traits.specs.{Blocks.{BufferEffects.opening_locks, Capacities.caps_in, QueueBlocks.{homes_in, inner}}, Views.OwnParts.threads_in};

    ghost Value = { Working };

    ghost view = { λ w. record {
      cpu = w.cpu.number;
      plan = record {
        homes = homes_in (I.opening w.machine);
        caps = caps_in (I.opening w.machine);
        programs = programs_of w.cpu.guests.items;
        limit = w.cpu.limit;
      };
      cpu_local = cpu_local (I.local w.cpu.part) w.cpu.guests.items w.cpu.trace.items;
      acts = I.acts w.machine;
      machine_id = I.machine_id w.machine;
    } };

    ghost invariant = { λ w. IsWorker I.IsStepwise (I.Coupled w.cpu.part w.machine) (I.cpu_of w.cpu.part ≡ w.cpu.number)
        (IsCpu (homes_in (I.opening w.machine)) (length (caps_in (I.opening w.machine))) (I.history w.machine) (threads_in (I.local w.cpu.part))
        (I.local w.cpu.part).call_states (I.under_way w.cpu.part) w.cpu.number w.cpu.guests.items w.cpu.trace.items w.cpu.limit (vec_capacity w.cpu.trace))
        (IsTabled (homes_in (I.opening w.machine)) (caps_in (I.opening w.machine)) w.cpu.number (I.local w.cpu.part) (I.under_way w.cpu.part)
        w.cpu.guests.items (I.opening w.machine))
        ((0 < w.stretch) × ((m : I.Machine) → w.stretch ≤ I.room m))
        (inner (I.opening w.machine) ≡ opening_locks (caps_in (I.opening w.machine))) };
}

impl<I: CallLayer<IpcLaw> + Drop> Worker<I>
where
    I::Machine: Drop,
{
    ghost use Rattle.layer_traits.specs.{declared.steps.Reason.TheVariants.StepsUsed, Blocks.{BufferEffects.opening_locks, QueueBlocks.inner}};
    ghost use Rattle.{event_log.specs.{Actions.AreLegal, declared.ids.TheConstants.THREADS}, cpu.specs.{Cpus.{IsCpu, programs_of}, Tables.IsTabled}};
    ghost use Rattle.cpu.specs.{Tables.cpu_local, Boots.AreGuests, Table.{Setups.{SystemConfig, boot_of}, Steps.halted_at}};
    ghost use Rattle.cpu_workers.specs.{Working.{IsPlanned, IsSame, MayStep, TookTurns, Turned, is_inside}, Orders.{HasFollowed, IsTraceOf}};

    /// Makes the worker of a CPU and its machine, which agree. The machine does one action a step
    /// and has room for one at any time, and each of its buffers opened empty.
    ///
    /// Requires: each poll is one action, and the machine has room at any time. CPU and machine
    /// agree, and the CPU's state is as the step table says. Each buffer opened empty.
    pub fn new(cpu: Cpu<I>, machine: I::Machine) -> Worker<I>
        requires stepwise { I.IsStepwise }
        requires coupled { I.Coupled cpu.part machine }
        requires number { I.cpu_of cpu.part ≡ cpu.number }
        requires is { IsCpu (homes_in (I.opening machine)) (length (caps_in (I.opening machine)))
            (I.history machine) (threads_in (I.local cpu.part))
            (I.local cpu.part).call_states (I.under_way cpu.part) cpu.number cpu.guests.items
            cpu.trace.items cpu.limit (vec_capacity cpu.trace) }
        requires tabled { IsTabled (homes_in (I.opening machine)) (caps_in (I.opening machine))
            cpu.number (I.local cpu.part) (I.under_way cpu.part)
            cpu.guests.items (I.opening machine) }
        requires room { (m : I.Machine) → 0 < I.room m }
        requires opens { inner (I.opening machine) ≡ opening_locks (caps_in (I.opening machine)) }
        ensures cpu { result.cpu ≡ cpu.number }
        ensures plan { result.plan
            ≡ record {
              homes = homes_in (I.opening machine);
              caps = caps_in (I.opening machine);
              programs = programs_of cpu.guests.items;
              limit = cpu.limit;
            } }
        ensures cpu_local { result.cpu_local
            ≡ cpu_local (I.local cpu.part) cpu.guests.items cpu.trace.items }
        ensures acts { result.acts ≡ I.acts machine }
        ensures machine_id { result.machine_id ≡ I.machine_id machine }
    {
        Worker {
            cpu,
            machine,
            stretch: 1,
        }
    }

    // Lets the worker take up to so many turns at once from here on.
    pub(crate) fn stretch_to(&mut self, stretch: usize)
        requires some { 0 < stretch }
        requires room { (m : I.Machine) → stretch ≤ I.room m }
        ensures { self.new ≡ self.old }
    {
        self.stretch = stretch;
    }

    /// Makes the worker of a CPU before its first turn, with the guests of its home threads.
    /// Nothing was done in the worker's own side of the machine, which has threads of these
    /// homes and so many buffers. Its trace has room for `limit` entries.
    ///
    /// Requires: each poll is one action, and the machine has room at any time. Nothing was done in
    /// it, and it has these homes, at most `THREADS`, and so many buffers. There is a guest for
    /// each home thread of this CPU and for no other.
    ///
    /// Errors: `NoMemory` if an allocation failed; then the machine is dropped.
    pub fn at_boot(
        alloc: Global,
        machine: I::Machine,
        number: CpuId,
        homes: &[CpuId],
        buffers: u8,
        guests: Vec<Option<Guest>>,
        limit: usize,
    ) -> Result<Worker<I>, NoMemory>
        requires stepwise { I.IsStepwise }
        requires threads { length homes.now ≤ THREADS }
        requires fresh { I.IsFresh machine homes.now number }
        requires homes { homes_in (I.opening machine) ≡ homes.now }
        requires buffers { length (caps_in (I.opening machine)) ≡ buffers }
        requires history { I.history machine ≡ [] }
        requires guests { AreGuests homes.now buffers number guests.items }
        requires room { (m : I.Machine) → 0 < I.room m }
        requires opens { inner (I.opening machine) ≡ opening_locks (caps_in (I.opening machine)) }
        ensures cpu { IfOk result (λ w. w.cpu ≡ number) }
        ensures plan { IfOk result (λ w. w.plan
            ≡ record {
              homes = homes_in (I.opening machine);
              caps = caps_in (I.opening machine);
              programs = programs_of guests.items;
              limit = limit;
            }) }
        ensures boots { IfOk result
            (λ w. (setup : SystemConfig) → setup.homes ≡ homes.now
            → w.cpu_local ≡ boot_of setup number) }
        ensures acts { IfOk result (λ w. w.acts ≡ I.acts machine) }
        ensures machine_id { IfOk result (λ w. w.machine_id ≡ I.machine_id machine) }
    {
        // A match and no `?`, which would move the CPU's many bytes three times more.
        match Cpu::at_boot(alloc, number, homes, buffers, guests, limit) {
            Ok(cpu) => Ok(Worker::new(cpu, machine)),
            Err(error) => Err(error),
        }
    }

    /// Returns the trace of the worker's CPU and its machine.
    pub fn into_parts(self) -> (Vec<Entry>, I::Machine)
        ensures trace { result.0.items ≡ self.cpu_local.trace }
        ensures acts { I.acts result.1 ≡ self.acts }
        ensures machine_id { I.machine_id result.1 ≡ self.machine_id }
        ensures owns { I.ActsFor result.1 self.cpu }
    {
        let Worker { cpu, machine, .. } = self;
        (cpu.trace, machine)
    }

    /// States the invariant after any number of turns. The trace is the CPU's effects in the
    /// actions that it has seen, once each and in order, and these actions are legal. The trace is
    /// within its room, each of its entries is of a home thread, and each of these threads has
    /// followed its program.
    pub fn keeps(&self)
        ensures trace { IsTraceOf self.now.cpu self.now.plan.caps self.now.acts
            self.now.cpu_local.trace }
        ensures legal { AreLegal self.now.acts }
        ensures follows { HasFollowed self.now }
    {
        let _ = &self.machine;
    }

    /// Returns the number of the worker's CPU.
    pub fn number(&self) -> CpuId
        ensures { result ≡ self.now.cpu }
    {
        self.cpu.number
    }

    /// Returns whether a section of the CPU is under way.
    pub fn is_busy(&self) -> bool
        ensures { result ≡ is_inside self.now }
    {
        self.part().is_busy()
    }

    // Returns the CPU's part.
    #[inline(always)]
    pub(crate) fn part(&self) -> &I
        ensures { I.is_inside result.now ≡ is_inside self.now }
    {
        &self.cpu.part
    }

    // Returns the machine in which it acts.
    #[inline(always)]
    pub(crate) fn machine(&self) -> &I::Machine {
        &self.machine
    }

    // Returns how many of the CPU's calls took effect.
    pub(crate) fn calls(&self) -> usize {
        self.cpu.trace.len()
    }

    // Returns the buffer at which the newest of them did.
    pub(crate) fn last_buffer(&self) -> Option<BufId> {
        match self.cpu.trace.last() {
            Some(entry) => Some(entry.buffer),
            None => None,
        }
    }

    /// Returns why the CPU takes no step while no section of it is under way: `AllEnded` or
    /// `TraceFull`.
    pub fn halted(&self) -> Option<Reason>
        ensures is { (setup : SystemConfig) → IsPlanned setup self.now.plan
            → halted_at setup self.now.cpu self.now.cpu_local ≡ result }
        ensures local { result ≢ Some StepsUsed }
    {
        self.cpu.halted()
    }

    /// Takes up to `most` turns of the CPU, one after the other, and returns how many it took. It
    /// takes none if the CPU is halted. It takes only one if no thread runs, so that other threads
    /// may run after it.
    pub(crate) fn turns(&mut self, most: usize) -> usize
        requires { 0 < most }
        ensures some { (setup : SystemConfig) → IsPlanned setup self.old.plan
            → MayStep setup self.old
            → 0 < result }
        ensures few { result ≤ most }
        ensures took { TookTurns self.old result self.new }
    {
        if self.cpu.reason().is_some() {
            return 0;
        }
        let runs = self.cpu.part.current().is_some();
        let most = if runs { most.min(self.stretch) } else { 1 };
        self.cpu.run(&mut self.machine, most)
    }

    /// Takes one step of the CPU: one local action or one atomic action. Returns `Halted` if it
    /// took none.
    pub fn step(&mut self) -> Step
        ensures same { IsSame self.old self.new }
        ensures turned { Turned self.old self.new result }
    {
        self.cpu.step(&mut self.machine)
    }
}
