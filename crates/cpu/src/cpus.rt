//! One CPU over a layer of message calls. No function allocates or blocks.

ghost use Rattle.std.specs.Prelude.{◌≡◌, ◌+◌, ◌<◌, true, false, ◌≤◌, [], ◌∷◌, ◌++◌, Some, None, if◌then◌else◌, length, vec_capacity};
ghost use Rattle.{layer_traits.specs.{Views.OwnParts.threads_in, Layers.BufferLaw.entry_of, declared.calls.Call.Call}, cpu.specs.Guests.entries_of};
ghost use Rattle.cpu.specs.Cpus.{begins_at, begun_count, chosen_for, guest_at};

use crate::guest_tables::Guests;
use crate::guests::{Guest, NextAction};
use event_log::{BufId, CpuId, Entry, Tid};
use layer_traits::{Call, CallLayer, Effect, Ghost, IpcLaw, Pass, Reason, Step};

/// What a CPU that is not halted does next.
#[derive(Drop)]
pub enum Choice {
    /// It polls this message call of the running thread.
    Polls(Tid, Ghost<Call>),
    /// It polls this pass (a scheduling operation).
    Passes(Pass),
    /// The running thread executes an instruction that touches only its own line and registers.
    Computes(Tid),
}

/// One CPU: its part of the layer of message calls, and its private data. It allocates nothing
/// after it is made.
///
/// It agrees with a machine (`AgreesAt`, the coupling invariant) if its part does and has the CPU's
/// number. Its threads, guests and trace must also agree with what was done in the machine. If each
/// poll is one action, the CPU is also in the state that the step table gives.
#[derive(Drop)]
pub struct Cpu<I: CallLayer<IpcLaw>> {
    /// The CPU's part of the layer.
    pub part: I,
    /// The CPU's number.
    pub number: CpuId,
    /// The guest of each thread, by the thread's number; `None` at threads of other home CPUs.
    pub guests: Guests,
    /// The entries of the CPU's calls that took effect, oldest first.
    pub trace: Vec<Entry>,
    /// The largest number of entries in the trace.
    pub limit: usize,
}

impl<I: CallLayer<IpcLaw>> Cpu<I> {
    ghost use Rattle.layer_traits.specs.declared.{steps.{Reason.Reason, Step.TheVariants.{Halted, Stepped}}, passes.Pass.TheVariants.Drain};
    ghost use Rattle.cpu.specs.{declared.cpus.Choice.TheVariants.{Polls, Passes, Computes}, CpuSteps.{IsCpuAt, IsTabledAt, Leaves, RunsAt, WentAt, stops_at}};
    ghost use Rattle.cpu.specs.{CpuSteps.{AgreesAt, GoesAt, RanWithin, SteppedAt}, Cpus.{chosen, cpu_halted_at, step_answer}};
    ghost use Rattle.layer_traits.specs.Polling.Spins.{BeginWith, Misses, Spun};

    /// Returns what the CPU does next if it is not halted.
    #[inline(always)]
    fn choice(&self) -> Choice
        requires { (t : _) → (threads_in (I.local self.now.part)).current ≡ Some t
            → t.0 < length self.now.guests.items }
        ensures { result ≡ chosen (threads_in (I.local self.now.part)) self.now.guests.items }
    {
        let hand = self.part.hand();
        match self.part.current() {
            Some(thread) => {
                if hand.is_none() {
                    if let Some(call) = self.guests.kept_for(thread) {
                        return Choice::Polls(thread, call);
                    }
                }
                choice_for(thread, hand, self.guests.at(thread))
            }
            None => match hand {
                Some(woken) => Choice::Passes(Pass::MakeReady(woken)),
                None if self.part.has_ready() => Choice::Passes(Pass::Switch),
                None => Choice::Passes(Pass::Drain),
            },
        }
    }

    /// Returns why the CPU takes no step while no section is under way: `AllEnded` or `TraceFull`.
    ///
    /// Requires: the running thread, if there is one, has a place in the table of guests.
    #[inline(always)]
    pub fn halted(&self) -> Option<Reason>
        requires { (t : _) → (threads_in (I.local self.now.part)).current ≡ Some t
            → t.0 < length self.now.guests.items }
        ensures { result ≡ cpu_halted_at (threads_in (I.local self.now.part)) self.now.guests.items
            self.now.trace.items self.now.limit }
    {
        if self.guests.are_over() && self.part.hand().is_none() {
            return Some(Reason::AllEnded);
        }
        if self.trace.len() + self.guests.begun() < self.limit {
            return None;
        }
        if let Choice::Polls(thread, _) = self.choice() {
            let begins = is_in_no_call(self.guests.at(thread));
            if begins && self.trace.len() + self.guests.begun() == self.limit {
                return Some(Reason::TraceFull);
            }
        }
        None
    }

    /// Returns why the CPU takes no step. It is `AllEnded` if each of its threads has ended. It is
    /// `TraceFull` if its trace has no room for the call that its thread is about to begin. It is
    /// neither while a section is under way.
    ///
    /// Requires: the running thread, if there is one, has a place in the table of guests.
    #[inline(always)]
    pub fn reason(&self) -> Option<Reason>
        requires { (t : _) → (threads_in (I.local self.now.part)).current ≡ Some t
            → t.0 < length self.now.guests.items }
        ensures { result ≡ stops_at ⟦<I as CallLayer<IpcLaw>>⟧ self.now }
    {
        if self.part.is_busy() {
            return None;
        }
        self.halted()
    }

    /// Returns the entries of the CPU's calls that took effect, oldest first.
    pub(crate) fn trace(&self) -> &[Entry]
        ensures { result.now ≡ self.now.trace.items }
    {
        self.trace.as_slice()
    }

    /// Continues the message call of the running thread, which is the call asked for. Takes up to
    /// `most` steps, at most until the call ends, takes effect, or leaves the thread not running.
    /// Returns how many steps it took.
    ///
    /// Requires: as `run`. The thread runs and its guest is at that call. If the call is about to
    /// begin, the trace has room for its entry.
    #[inline(always)]
    fn call(&mut self, m: &mut I::Machine, thread: Tid, asked: Ghost<Call>, most: usize) -> usize
        requires goes { GoesAt ⟦<I as CallLayer<IpcLaw>>⟧ m.old self.old most }
        requires chosen { chosen (threads_in (I.local self.old.part)) self.old.guests.items
            ≡ Polls thread asked }
        requires not_full { begins_at (guest_at self.old.guests.items thread.0) ≡ true
            → length self.old.trace.items + begun_count self.old.guests.items < self.old.limit }
        ensures { RanWithin ⟦<I as CallLayer<IpcLaw>>⟧ m.old self.old most result m.new self.new }
    {
        let call = self.guests.call_of(thread, asked);
        let buffer = call.buffer();
        let run = self.part.poll_on(m, thread, call, most);
        let effect = self.part.effect_here(thread);
        let fresh = self.guests.note_poll(thread, effect, run.reply);
        note_effect(&mut self.trace, self.number, thread, buffer, fresh, effect);
        run.actions
    }

    /// Polls this pass (a scheduling operation).
    #[inline(always)]
    fn pass(&mut self, m: &mut I::Machine, pass: Pass)
        requires goes { GoesAt ⟦<I as CallLayer<IpcLaw>>⟧ m.old self.old 1 }
        requires chosen { chosen (threads_in (I.local self.old.part)) self.old.guests.items
            ≡ Passes pass }
        ensures { SteppedAt ⟦<I as CallLayer<IpcLaw>>⟧ m.old self.old m.new self.new }
    {
        let runs = self.part.current();
        let done = self.part.pass(m, pass);
        if done.is_some() {
            self.guests.note_pass(runs, pass);
        }
    }

    /// Polls a pass that is no drain. It is not inlined, because most steps belong to calls and
    /// drains.
    #[inline(never)]
    fn passes(&mut self, m: &mut I::Machine, pass: Pass)
        requires goes { GoesAt ⟦<I as CallLayer<IpcLaw>>⟧ m.old self.old 1 }
        requires chosen { chosen (threads_in (I.local self.old.part)) self.old.guests.items
            ≡ Passes pass }
        ensures { SteppedAt ⟦<I as CallLayer<IpcLaw>>⟧ m.old self.old m.new self.new }
    {
        self.pass(m, pass);
    }

    /// Returns whether the CPU continues to drain. It does if it is not halted, has no running or
    /// ready thread, and its hand is empty. The hand is the slot for a thread in transit to another
    /// CPU.
    ///
    /// Requires: the running thread, if there is one, has a place in the table of guests.
    #[inline(always)]
    fn goes_on_draining(&self) -> bool
        requires { (t : _) → (threads_in (I.local self.now.part)).current ≡ Some t
            → t.0 < length self.now.guests.items }
        ensures live { result ≡ true → stops_at ⟦<I as CallLayer<IpcLaw>>⟧ self.now ≡ None }
        ensures chosen { result ≡ true
            → chosen (threads_in (I.local self.now.part)) self.now.guests.items ≡ Passes Drain }
    {
        if self.part.current().is_some() || self.part.hand().is_some() || self.part.has_ready() {
            return false;
        }
        self.reason().is_none()
    }

    /// Continues the drain that the CPU has chosen, and the drains that follow while it has no
    /// thread to run. Takes up to `most` steps, polls of locks among them, until a poll fails.
    /// Returns how many steps it took. It is not inlined and knows one kind of pass, so that an
    /// idle CPU's steps are cheap.
    ///
    /// Requires: as `run`. The CPU has chosen a drain.
    #[inline(never)]
    fn drains(&mut self, m: &mut I::Machine, most: usize) -> usize
        requires goes { GoesAt ⟦<I as CallLayer<IpcLaw>>⟧ m.old self.old most }
        requires chosen { chosen (threads_in (I.local self.old.part)) self.old.guests.items
            ≡ Passes Drain }
        ensures { RanWithin ⟦<I as CallLayer<IpcLaw>>⟧ m.old self.old most result m.new self.new }
    {
        let mut taken = 0;
        loop {
            self.pass(m, Pass::Drain);
            taken += 1;
            if taken == most || !self.goes_on_draining() {
                return taken;
            }
            if self.part.looks(m, &mut taken, most) {
                return taken;
            }
        }
    }

    /// Lets this thread, which runs, execute an instruction that shares nothing.
    #[inline(always)]
    fn compute(&mut self, m: &mut I::Machine, thread: Tid)
        requires goes { GoesAt ⟦<I as CallLayer<IpcLaw>>⟧ m.old self.old 1 }
        requires chosen { chosen (threads_in (I.local self.old.part)) self.old.guests.items
            ≡ Computes thread }
        ensures { SteppedAt ⟦<I as CallLayer<IpcLaw>>⟧ m.old self.old m.new self.new }
    {
        self.guests.note_compute(thread);
        let _ = m;
    }

    /// Takes steps of a CPU that is not halted and needs no further poll of a lock: each one local
    /// action or one atomic action. At a message call or a drain these are up to `most` steps of
    /// it; otherwise it is one step. Returns how many steps it took.
    ///
    /// Requires: as `run`.
    #[inline(always)]
    fn go(&mut self, m: &mut I::Machine, most: usize) -> usize
        requires { GoesAt ⟦<I as CallLayer<IpcLaw>>⟧ m.old self.old most }
        ensures { RanWithin ⟦<I as CallLayer<IpcLaw>>⟧ m.old self.old most result m.new self.new }
    {
        match self.choice() {
            Choice::Polls(thread, asked) => self.call(m, thread, asked, most),
            Choice::Passes(Pass::Drain) => self.drains(m, most),
            Choice::Passes(pass) => {
                self.passes(m, pass);
                1
            }
            Choice::Computes(thread) => {
                self.compute(m, thread);
                1
            }
        }
    }

    /// Runs a CPU that is not halted for up to `most` steps, until it is halted or a poll of a lock
    /// fails. Polls count as steps. Returns how many steps it took.
    ///
    /// Requires: CPU and machine agree. The machine has room for `most` more events; `most` is not
    /// 0. The CPU is not halted.
    #[inline(always)]
    pub fn run(&mut self, m: &mut I::Machine, most: usize) -> usize
        requires { GoesAt ⟦<I as CallLayer<IpcLaw>>⟧ m.old self.old most }
        ensures { RanWithin ⟦<I as CallLayer<IpcLaw>>⟧ m.old self.old most result m.new self.new }
    {
        let mut taken = 0;
        loop {
            if self.part.looks(m, &mut taken, most) {
                return taken;
            }
            taken += self.go(m, most - taken);
            if taken == most || self.reason().is_some() {
                return taken;
            }
        }
    }

    /// Takes one step of a CPU that needs no further poll of a lock: one local action or one atomic
    /// action. Returns `Halted` if it took none, and then nothing changed. The reason is `AllEnded`
    /// if each home thread of the CPU has ended. It is `TraceFull` if the trace has no room for the
    /// call that its thread is about to begin.
    ///
    /// Requires: CPU and machine agree. The machine has room for one more event.
    #[inline(always)]
    pub fn act(&mut self, m: &mut I::Machine) -> Step
        requires agrees { AgreesAt ⟦<I as CallLayer<IpcLaw>>⟧ m.old self.old }
        requires room { 0 < I.room m.old }
        ensures coupled { I.Coupled self.new.part m.new }
        ensures is { IsCpuAt ⟦<I as CallLayer<IpcLaw>>⟧ m.new self.new }
        ensures leaves { Leaves ⟦<I as CallLayer<IpcLaw>>⟧ m.old self.old m.new self.new }
        ensures answer { result ≡ step_answer (stops_at ⟦<I as CallLayer<IpcLaw>>⟧ self.old) }
        ensures still { (r : Reason) → result ≡ Halted r → (m.new ≡ m.old) × (self.new ≡ self.old) }
        ensures table { I.IsStepwise → IsTabledAt ⟦<I as CallLayer<IpcLaw>>⟧ m.new self.new }
        ensures steps { I.IsStepwise
            → WentAt ⟦<I as CallLayer<IpcLaw>>⟧ m.old self.old m.new self.new result }
    {
        if let Some(reason) = self.reason() {
            return Step::Halted(reason);
        }
        self.go(m, 1);
        Step::Stepped
    }

    /// Takes polls in bulk if a section waits for its lock and the polls must fail. Takes at most
    /// one for each step of this CPU at the front of `steps`. Returns how many it took; nothing
    /// else has changed.
    ///
    /// Requires: the part and the machine agree. The machine has room for as many events as there
    /// are steps.
    #[inline(always)]
    pub(crate) fn spin(&self, m: &mut I::Machine, steps: &[CpuId]) -> usize
        requires coupled { I.Coupled self.now.part m.old }
        requires room { length steps.now ≤ I.room m.old }
        ensures few { BeginWith (I.cpu_of self.now.part) result steps.now }
        ensures still { result ≡ 0 → m.new ≡ m.old }
        ensures live { 0 < result → stops_at ⟦<I as CallLayer<IpcLaw>>⟧ self.now ≡ None }
        ensures spun { Spun I.Coupled I.opening I.machine_id I.history I.room I.ActsFor I.MayHold
            result m.old
            m.new }
        ensures tries { I.IsStepwise
            → Misses (I.cpu_of self.now.part) result (I.acts m.old) (I.acts m.new) }
    {
        if steps.is_empty() || !self.part.is_busy() {
            return 0;
        }
        self.part.spin(m, steps)
    }

    /// Takes one step of the CPU: one local action or one atomic action. Returns `Halted` if it
    /// took none, and then nothing changed. The reason is `AllEnded` if each home thread of the CPU
    /// has ended. It is `TraceFull` if the trace has no room for the call that its thread is about
    /// to begin. Neither occurs while a section is under way.
    ///
    /// Requires: CPU and machine agree. The machine has room for one more event.
    pub fn step(&mut self, m: &mut I::Machine) -> Step
        requires agrees { AgreesAt ⟦<I as CallLayer<IpcLaw>>⟧ m.old self.old }
        requires room { 0 < I.room m.old }
        ensures coupled { I.Coupled self.new.part m.new }
        ensures is { IsCpuAt ⟦<I as CallLayer<IpcLaw>>⟧ m.new self.new }
        ensures leaves { Leaves ⟦<I as CallLayer<IpcLaw>>⟧ m.old self.old m.new self.new }
        ensures answer { result ≡ step_answer (stops_at ⟦<I as CallLayer<IpcLaw>>⟧ self.old) }
        ensures still { (r : Reason) → result ≡ Halted r → (m.new ≡ m.old) × (self.new ≡ self.old) }
        ensures table { I.IsStepwise → IsTabledAt ⟦<I as CallLayer<IpcLaw>>⟧ m.new self.new }
        ensures steps { I.IsStepwise
            → WentAt ⟦<I as CallLayer<IpcLaw>>⟧ m.old self.old m.new self.new result }
    {
        if self.part.look(m) {
            return Step::Stepped;
        }
        self.act(m)
    }
}

/// Returns what a CPU does next if this thread runs on it and this woken thread is in its hand.
#[inline(always)]
fn choice_for(thread: Tid, hand: Option<Tid>, guest: &Option<Guest>) -> Choice
    ensures { result ≡ chosen_for thread hand guest.now }
{
    let Some(guest) = guest else {
        return Choice::Passes(Pass::Drain);
    };
    if !guest.is_calling() {
        if let Some(woken) = hand {
            return Choice::Passes(Pass::MakeReady(woken));
        }
    }
    match guest.todo() {
        NextAction::Calls(call) => Choice::Polls(thread, call),
        NextAction::Finish => Choice::Passes(Pass::End),
        NextAction::PassOn => Choice::Passes(Pass::YieldNow),
        NextAction::Compute => Choice::Computes(thread),
    }
}

/// Returns whether there is a guest and it is in no call.
#[inline(always)]
fn is_in_no_call(guest: &Option<Guest>) -> bool
    ensures { result ≡ begins_at guest.now }
{
    match guest {
        Some(guest) => !guest.is_calling(),
        None => false,
    }
}

/// Writes the entry of a call's effect, if there is one and it is fresh; room for it is reserved.
#[inline(always)]
fn note_effect(
    trace: &mut Vec<Entry>,
    cpu: CpuId,
    thread: Tid,
    buffer: BufId,
    fresh: bool,
    effect: &Option<Effect>,
)
    requires { (f : _) → (if fresh then effect.now else None) ≡ Some f
        → length trace.old.items < vec_capacity trace.old }
    ensures items { trace.new.items
        ≡ trace.old.items ++ entries_of cpu thread buffer (if fresh then effect.now else None) }
    ensures capacity { vec_capacity trace.old ≤ vec_capacity trace.new }
{
    if !fresh {
        return;
    }
    if let Some(effect) = effect {
        put_entry(trace, entry(cpu, thread, buffer, effect));
    }
}

/// Writes an entry, for which room is reserved. It is not inlined, because most polls write none.
#[inline(never)]
fn put_entry(trace: &mut Vec<Entry>, entry: Entry)
    requires { length trace.old.items < vec_capacity trace.old }
    ensures items { trace.new.items ≡ trace.old.items ++ entry ∷ [] }
    ensures capacity { vec_capacity trace.old ≤ vec_capacity trace.new }
{
    trace.push_reserved(entry);
}

/// Returns the entry of an effect on this buffer.
#[inline(always)]
fn entry(cpu: CpuId, thread: Tid, buffer: BufId, effect: &Effect) -> Entry
    ensures { result ≡ entry_of cpu thread buffer effect.now }
{
    Entry {
        cpu,
        thread,
        kind: effect.kind,
        buffer,
        value: effect.value,
        op: effect.op,
        pos: effect.pos,
    }
}
