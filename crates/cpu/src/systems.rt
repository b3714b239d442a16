//! The whole system: a machine of message calls and its CPUs. Only the functions that open a system
//! allocate. None blocks.

mod opening;
mod plans;
mod quiescent;
mod quiet;

ghost use Rattle.std.specs.Prelude.{◌≡◌, ◌+◌, ◌<◌, ◌≤◌, ◌↔◌, true, false, All, IfSome, IsOk, OnErr, OnOk, Some, None, [], length, map, slice_index_or, take};
ghost use Rattle.layer_traits.specs.{Blocks.{Capacities.caps_in, QueueBlocks.homes_in}, Views.OwnParts.threads_in, Polling.Spins.BeginWith};

use crate::cpus::Cpu;
use arrayvec::ArrayVec;
use event_log::{BufId, CAPACITY, CpuId, Entry, Msg, Tid};
use layer_traits::{Owned, Place, Reason, Step, steps_of};
pub use plans::{guests_of, homes_of};
use std::marker::Model;
use thiserror::Error;

/// The schedule names a CPU that the system does not have. Nothing changed.
#[derive(Clone, Copy, Debug, PartialEq, Eq, Error)]
#[error("BadCpu(4)")]
pub struct BadCpu;

/// A machine and its CPUs, after the steps that were taken. It allocates nothing after it is
/// opened.
#[derive(Drop)]
pub struct System<I: Owned + Drop>
where
    I::Machine: Drop,
{
    machine: I::Machine,
    cpus: Vec<Cpu<I>>,
    threads: usize,
    room: u64,
    taken: u64,
}

impl<I: Owned + Drop> Model for System<I>
where
    I::Machine: Drop,
{
    ghost use Rattle.std.specs.Prelude.{◌≡◌, length, map, vec_capacity};
    ghost use Rattle.{layer_traits.specs.{Blocks.{Capacities.caps_in, QueueBlocks.homes_in}, Views.OwnParts.threads_in}, cpu.specs.Cpus.IsCpu};
    ghost use Rattle.cpu.specs.{Claims.{SystemView, cpu_shown, shown_of}, Tables.IsTabled, Sound.IsReachedByTable, Systems.IsSystem};

    ghost Value = { SystemView };

    ghost view = { λ s. shown_of (caps_in (I.opening s.machine)) (homes_in (I.opening s.machine)) (I.history s.machine) (I.wait_lists s.machine)
        (I.owner s.machine) (I.moves s.machine) (I.acts s.machine)
        (map (λ c. cpu_shown (threads_in (I.local c.part)) c.guests.items c.trace.items c.limit (I.is_inside c.part) (I.local c.part)) s.cpus.items) s.room
        s.taken };

    ghost invariant = { λ s. IsSystem (λ c. I.Coupled c.part s.machine × (I.cpu_of c.part ≡ c.number)
        × IsCpu (homes_in (I.opening s.machine)) (length (caps_in (I.opening s.machine))) (I.history s.machine) (threads_in (I.local c.part))
        (I.local c.part).call_states (I.under_way c.part) c.number c.guests.items c.trace.items c.limit (vec_capacity c.trace)
        × (I.IsStepwise → IsTabled (homes_in (I.opening s.machine)) (caps_in (I.opening s.machine)) c.number (I.local c.part) (I.under_way c.part)
        c.guests.items (I.opening s.machine)))
        (λ c. c.number) (λ c. I.ActsFor s.machine c) (λ c. I.MayHold s.machine c) I.IsStepwise (I.acts s.machine) s.cpus.items
        (homes_in (I.opening s.machine)) (I.history s.machine) s.room s.taken (I.room s.machine)
        ((s.threads ≡ length (homes_in (I.opening s.machine))) × (I.IsStepwise
        → IsReachedByTable (shown_of (caps_in (I.opening s.machine)) (homes_in (I.opening s.machine)) (I.history s.machine) (I.wait_lists s.machine)
        (I.owner s.machine) (I.moves s.machine) (I.acts s.machine)
        (map (λ c. cpu_shown (threads_in (I.local c.part)) c.guests.items c.trace.items c.limit (I.is_inside c.part) (I.local c.part)) s.cpus.items) s.room
        s.taken))) };
}

impl<I: Owned + Drop> System<I>
where
    I::Machine: Drop,
{
    ghost use Rattle.{layer_traits.specs.declared.steps.{Reason.Reason, Step.TheVariants.{Halted, Stepped}}, event_log.specs.declared.ids.TheConstants.CPUS};
    ghost use Rattle.{event_log.specs.{declared.ids.TheConstants.THREADS, Buffers.items_of}, cpu.specs.{Cpus.step_answer, Sound.{RanByTable, ReturnsAlone}}};
    ghost use Rattle.cpu.specs.{Linear.{CallsGoOn, IsLinearizable}, Sound.SoundByTable, Observed.ObservedByTable};
    ghost use Rattle.cpu.specs.Systems.{HaltsByTable, Ran, SamePlan, SteppedByTable, halted_in, reason_of};
    ghost use Rattle.cpu.specs.Claims.{MatchesPrograms, HasLinearization, IsPlaceOf, MovesAgree, HasUniquePlace, KeepsAffinity, shown_of, traces_of};

    /// Takes one step of `cpu`: one local action or one atomic action.
    ///
    /// Returns `Halted` if it took none, and then nothing changed. The reason is `AllEnded` if each
    /// home thread of the CPU has ended. It is `TraceFull` if the trace has no room for the call
    /// that its thread is about to begin. Otherwise it is `StepsUsed` if the system's room is used.
    /// Neither of the first two occurs while the CPU has a section under way.
    ///
    /// Requires: the system has a CPU of this number.
    #[inline(always)]
    pub fn step(&mut self, cpu: CpuId) -> Step
        requires { cpu.0 < length self.old.cpus }
        ensures answer { result ≡ step_answer (reason_of cpu self.old) }
        ensures still { (r : Reason) → result ≡ Halted r → self.new ≡ self.old }
        ensures counted { result ≡ Stepped → self.new.taken ≡ self.old.taken + 1 }
        // The calls so far keep their order. At most one follows them, and it is a call of `cpu`.
        ensures calls { CallsGoOn cpu self.old self.new }
        ensures plan { SamePlan self.old self.new }
        // A step that is taken is the step of the step table.
        ensures steps { I.IsStepwise → result ≡ Stepped
            → SteppedByTable cpu self.old self.new Stepped }
        // If none is taken, the step table takes none for the same reason.
        ensures halts { I.IsStepwise → (r : Reason) → result ≡ Halted r
            → SteppedByTable cpu self.old self.new (Halted r) }
        // The step table reaches the system, no wake-up is lost, and the system shows the table's
        // state.
        ensures sound { I.IsStepwise → SoundByTable self.new }
        ensures observed { I.IsStepwise → ObservedByTable self.new }

        // This holds after every list of steps.
        ensures linearization { HasLinearization self.new }
        ensures follow { MatchesPrograms self.new }
        ensures stay { KeepsAffinity self.new }
        ensures once { HasUniquePlace self.new }
        ensures agree { MovesAgree self.new }
    {
        if let Some(reason) = self.reason(cpu) {
            self.holds();
            return Step::Halted(reason);
        }
        self.turn(&[cpu]);
        self.holds();
        Step::Stepped
    }

    /// Returns why `cpu` takes no step.
    #[inline(always)]
    fn reason(&self, cpu: CpuId) -> Option<Reason>
        requires { cpu.0 < length self.now.cpus }
        ensures is { result ≡ reason_of cpu self.now }
        ensures room { result ≡ None → self.now.taken < self.now.room }
        ensures table { I.IsStepwise → HaltsByTable cpu self.now (halted_in cpu self.now) }
    {
        if let Some(reason) = self.halted(cpu) {
            return Some(reason);
        }
        if self.taken == self.room {
            return Some(Reason::StepsUsed);
        }
        None
    }

    /// Returns why `cpu` takes no step, whatever room the system has: `AllEnded` or `TraceFull`,
    /// and neither while a section of the CPU is under way.
    ///
    /// Requires: the system has a CPU of this number.
    #[inline(always)]
    pub fn halted(&self, cpu: CpuId) -> Option<Reason>
        requires { cpu.0 < length self.now.cpus }
        ensures is { result ≡ halted_in cpu self.now }
        ensures table { I.IsStepwise → HaltsByTable cpu self.now (halted_in cpu self.now) }
    {
        let at = &self.cpus[usize::from(cpu.0)];
        at.reason()
    }

    /// Takes one step of each CPU in `steps`, in their order. The steps of halted CPUs do nothing.
    ///
    /// Errors: `BadCpu` if a number is no CPU of the system; then nothing changed.
    pub fn run(&mut self, steps: &[CpuId]) -> Result<(), BadCpu>
        ensures kept { OnErr result (self.new ≡ self.old) }
        ensures known { IsOk result ↔ All (λ c. c.0 < length self.old.cpus) steps.now }
        ensures ran { OnOk result (Ran I.IsStepwise self.old steps.now self.new) }
        // Linearizability: each call takes effect in one step, after all that took effect before.
        ensures linear { OnOk result (IsLinearizable self.old steps.now self.new) }
        // The schedule is run by the step table, which reaches the system; no wake-up is lost, and
        // the system shows the table's state.
        ensures table { OnOk result (I.IsStepwise → RanByTable self.old steps.now self.new) }
        ensures sound { I.IsStepwise → SoundByTable self.new }
        ensures observed { I.IsStepwise → ObservedByTable self.new }
        ensures plan { SamePlan self.old self.new }

        // This holds after every list of steps.
        ensures linearization { HasLinearization self.new }
        ensures follow { MatchesPrograms self.new }
        ensures stay { KeepsAffinity self.new }
        ensures once { HasUniquePlace self.new }
        ensures agree { MovesAgree self.new }
    {
        if !are_below(steps, self.cpus.len()) {
            self.holds();
            return Err(BadCpu);
        }
        let mut at = 0;
        while at < steps.len() {
            at += self.turn(&steps[at..]);
        }
        self.holds();
        Ok(())
    }

    /// Takes a prefix of `steps` whose steps are all of one CPU. The steps of a halted CPU do
    /// nothing. Any other CPU continues until it is halted or a poll of a lock fails. After a
    /// failed poll its next polls must fail too, and are taken in bulk. Returns how many steps it
    /// took.
    ///
    /// Requires: there is a step, and the system has a CPU of each number.
    #[inline(always)]
    fn turn(&mut self, steps: &[CpuId]) -> usize
        requires some { 0 < length steps.now }
        requires known { All (λ c. c.0 < length self.old.cpus) steps.now }
        ensures some { 0 < result }
        ensures few { result ≤ length steps.now }
        ensures plan { SamePlan self.old self.new }
        ensures ran { Ran I.IsStepwise self.old (take result steps.now) self.new }
        ensures table { I.IsStepwise → RanByTable self.old (take result steps.now) self.new }
    {
        let cpu = steps[0];
        let local = steps_behind(cpu, &steps[1..]) + 1;
        if self.reason(cpu).is_some() {
            return local;
        }
        let most = (self.room - self.taken).min(local as u64) as usize;
        let at = &mut self.cpus[usize::from(cpu.0)];
        let taken = at.run(&mut self.machine, most);
        let looks = at.spin(&mut self.machine, &steps[taken..most]);
        self.taken += (taken + looks) as u64;
        taken + looks
    }

    /// Returns what `buffer` holds, head first. A block that a CPU has in its hands counts as it
    /// was when its lock was last released.
    ///
    /// Requires: the system has a buffer of this number.
    pub fn buffer(&self, buffer: BufId) -> ArrayVec<Msg, CAPACITY>
        requires { buffer.0 < length self.now.caps }
        ensures { result.items ≡ items_of self.now.contents buffer.0 }
    {
        if let Some(items) = I::buffer_in(&self.machine, buffer) {
            return items;
        }
        for at in &self.cpus {
            if let Some(items) = at.part.buffer_here(buffer) {
                return items;
            }
        }
        ArrayVec::new()
    }

    /// Returns whether a call has closed `buffer`. A block that a CPU has in its hands counts as it
    /// was when its lock was last released.
    ///
    /// Requires: the system has a buffer of this number.
    pub fn is_closed(&self, buffer: BufId) -> bool
        requires { buffer.0 < length self.now.caps }
        ensures { result ≡ slice_index_or self.now.closed buffer.0 false }
    {
        if let Some(closed) = I::closed_at_home(&self.machine, buffer) {
            return closed;
        }
        for at in &self.cpus {
            if let Some(closed) = at.part.closed_in_hands(buffer) {
                return closed;
            }
        }
        false
    }

    /// Returns the thread that owns the lock of `buffer`. A block that a CPU has in its hands
    /// counts as it was when its lock was last released.
    ///
    /// Requires: the system has a buffer of this number.
    pub fn busy(&self, buffer: BufId) -> Option<Tid>
        requires { buffer.0 < length self.now.caps }
        ensures { result ≡ slice_index_or self.now.owners buffer.0 None }
    {
        if let Some(owner) = I::busy_in(&self.machine, buffer) {
            return owner;
        }
        for at in &self.cpus {
            if let Some(owner) = at.part.busy_here(buffer) {
                return owner;
            }
        }
        None
    }

    /// Returns the place of `thread`: where it runs, waits or sleeps. A block that a CPU has in its
    /// hands counts as it was when its lock was last released.
    ///
    /// Requires: the system has a thread of this number.
    pub fn place(&self, thread: Tid) -> Place
        requires { thread.0 < length self.now.homes }
        ensures { IsPlaceOf self.now thread result }
    {
        match self.place_at_home(thread) {
            Some(place) => place,
            None => self.place_anywhere(thread),
        }
    }

    /// Returns the place of `thread`, from the first CPU that can report it.
    ///
    /// Requires: the system has a thread of this number.
    fn place_anywhere(&self, thread: Tid) -> Place
        requires { thread.0 < length self.now.homes }
        ensures { IsPlaceOf self.now thread result }
    {
        let machine = &self.machine;
        for at in &self.cpus {
            if let Some(place) = at.part.place_at(machine, thread) {
                return place;
            }
        }
        Place::Ended
    }

    /// Returns the place of `thread` as its home CPU reports it; `None` if that CPU cannot. It can
    /// for most threads.
    ///
    /// Requires: the system has a thread of this number.
    fn place_at_home(&self, thread: Tid) -> Option<Place>
        requires { thread.0 < length self.now.homes }
        ensures { IfSome result (IsPlaceOf self.now thread) }
    {
        for at in &self.cpus {
            if at.guests.has(thread) {
                return at.part.place_at(&self.machine, thread);
            }
        }
        None
    }

    /// Returns the entries of the calls that took effect on `cpu`, oldest first.
    ///
    /// Requires: the system has a CPU of this number.
    pub fn trace(&self, cpu: CpuId) -> &[Entry]
        requires { cpu.0 < length self.now.cpus }
        ensures { result.now ≡ slice_index_or (traces_of self.now) cpu.0 [] }
    {
        let at = &self.cpus[usize::from(cpu.0)];
        at.trace()
    }

    /// Returns how many CPUs the system has.
    pub fn cpus(&self) -> u8
        ensures cpus { result ≡ length self.now.cpus }
        ensures few { result ≤ CPUS }
    {
        self.cpus.len() as u8
    }

    /// Returns how many threads the system has.
    pub fn threads(&self) -> usize
        ensures threads { result ≡ length self.now.homes }
        ensures few { result ≤ THREADS }
    {
        self.threads
    }

    /// Returns the underlying machine. It is the one whose capacities, home CPUs, contents, wait
    /// lists, owners, moves and actions the system shows, and no other holder acts in it.
    pub fn machine(&self) -> &I::Machine
        ensures acts { (c : CpuId) → c.0 < CPUS → I.ActsFor result.now c }
        ensures shows { self.now
            ≡ shown_of (caps_in (I.opening result.now)) (homes_in (I.opening result.now))
            (I.history result.now) (I.wait_lists result.now)
            (I.owner result.now) (I.moves result.now) (I.acts result.now) self.now.cpus
            self.now.room self.now.taken }
    {
        &self.machine
    }

    /// The invariant of every system, whatever steps were taken.
    pub fn holds(&self)
        ensures sound { I.IsStepwise → SoundByTable self.now }
        ensures agree { MovesAgree self.now }
        ensures observed { I.IsStepwise → ObservedByTable self.now }
        ensures linearization { HasLinearization self.now }
        ensures follow { MatchesPrograms self.now }
        ensures stay { KeepsAffinity self.now }
        ensures once { HasUniquePlace self.now }
    {
        let _ = &self.room;
    }

    /// Law, of every system over layers whose polls are single actions: how many steps a call takes
    /// without contention. The function computes nothing.
    ///
    /// A thread runs on a CPU that is not halted, at a call that has not begun. No spin lock is
    /// held or requested. No thread owns the call's buffer, which allows the call, and the call's
    /// wait queue is empty. The system has room for 32 more steps. While only this CPU steps, the
    /// call returns after an exact number of steps:
    ///
    /// - A send or a receive takes 18, or 21 if the first of the other side's wait queue waits and
    ///   is of another CPU. The call's first signal wakes that thread.
    /// - A call that finds its buffer closed wakes no thread, and takes 18.
    /// - A close takes 15, or 18 if it wakes a thread of another CPU. It takes 21 only if it wakes
    ///   two, for which the buffer must have capacity 0.
    pub fn alone(&self)
        ensures { I.IsStepwise → ReturnsAlone self.now }
    {
        let _ = &self.room;
    }
}

/// Returns how many of the steps at the front of `steps` are those of `cpu`. The next step is
/// compared first, because a turn is often one step.
#[inline(always)]
fn steps_behind(cpu: CpuId, steps: &[CpuId]) -> usize
    ensures { BeginWith cpu result steps.now }
{
    match steps.first() {
        Some(next) if *next == cpu => steps_of(cpu, steps),
        _ => 0,
    }
}

/// Returns whether each of these CPUs has a number below this one. Only the greatest of them is
/// compared, which is found without a branch for each.
fn are_below(cpus: &[CpuId], count: usize) -> bool
    ensures { (result ≡ true) ↔ All (λ c. c.0 < count) cpus.now }
{
    let mut most = 0;
    for cpu in cpus {
        if most < cpu.0 {
            most = cpu.0;
        }
    }
    cpus.is_empty() || usize::from(most) < count
}
