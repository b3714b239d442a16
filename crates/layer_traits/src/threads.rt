//! One trait for the layers whose calls put threads to sleep, over the law that each of them meets.
//!
//! It is `Layer` with the threads: which run, which are ready, and how a CPU switches between them.
//! A type over another type is checked with all traits that its bound brings. A second trait beside
//! `Layer` would therefore double each layer above it.
//!
//! No call is given an allocator, and none waits.

ghost use Rattle.std.specs.Prelude.{◌≡◌, ◌≢◌, ℕ, ◌<◌, ◌≤◌, length, true, false, Bool, List, [], Option, None, Some, IsSome, OnSome, is_some, if◌then◌else◌};
ghost use Rattle.event_log.specs.{declared.ids.{CpuId.CpuId, LockId.LockId, TheConstants.CPUS}, Actions.{Action, AreLegal, phase}, History.{IsLawful, Grows}};
ghost use Rattle.layer_traits.specs.{declared.passes.Pass.Pass, Threads.{Places.Threads, Passes.{IsLocalPass, MayPass}}, Blocks.Payloads.abstract_result};
ghost use Rattle.layer_traits.specs.Polling.{Plans.{Plan, Follows, is_in_section}, Framed.Framed, Looks.Tries, Spins.{BeginWith, Spun, Misses}};
ghost use Rattle.layer_traits.specs.{Polling.Polls.until_answered, Layers.SleepLaw.MayCall};

use crate::layers::Law;
use crate::own_threads::OwnThreads;
use crate::passes::Pass;
use crate::payloads::Payload;
use event_log::{CpuId, LockId, Tid};

/// The law of a layer whose parts hold threads, and that passes calls down to its scheduler.
pub trait ThreadLaw: Law {
    /// The threads of the part's CPU.
    ghost threads_of: { Self.State → Threads };

    /// The call of the thread that runs will return without an action.
    ghost at_once: { Self.State → Bool };

    /// A pass, once it has begun.
    ghost pass_begun: { Pass → Self.Begun };

    /// What a poll of a pass adds to the events and makes of the threads.
    ghost Passed: { (LockId → Option Self.Block) → (CpuId → Type 0) → CpuId → Pass → Option (Unit {0}) → List Self.Event → List Self.Event
        → Threads → Threads → Type 0 };

    /// The rest of the part's private state is unchanged.
    ghost KeepsRest: { Self.State → Self.State → Type 0 };

    /// What a poll of a pass must do.
    ghost pass_plan: { (LockId → Option Self.Block) → CpuId → Pass → Self.State → Plan Self.Name Self.Reply Self.State (Unit {0}) };
}

/// One CPU's part of a layer that meets the law `L` and whose calls put threads to sleep. A poll
/// does at most one atomic action; if it returns `None` the same call must be polled again, once
/// its thread runs. To the layers above a section is one event.
///
/// No call allocates memory.
pub trait ThreadLayer<L: ThreadLaw>: Sized {
    /// The machine under the layer.
    type Machine;

    /// The opening block of each lock; None if there is no such lock.
    ghost opening: { Self.Machine → LockId → Option L.Block };

    /// The events that the holder of the machine has observed, newest first.
    ghost history: { Self.Machine → List L.Event };

    /// The CPUs for which the holder of the machine acts; this implies that the machine is sound.
    ghost ActsFor: { Self.Machine → CpuId → Type 0 };

    /// How many more events there is room for.
    ghost room: { Self.Machine → ℕ };

    /// Which machine it is, as numbers; a machine that no caller must recognize needs none. No poll
    /// changes it.
    ghost machine_id: { Self.Machine → List ℕ } = { λ _. [] };

    /// No section of this CPU is under way.
    ghost IsOutside: { Self.Machine → CpuId → Type 0 };

    /// This CPU may hold a lock, as far as the machine shows.
    ghost MayHold: { Self.Machine → CpuId → Type 0 };

    /// The CPU whose part it is.
    ghost cpu_of: { Self → CpuId };

    /// The part's private state.
    ghost local: { Self → L.State };

    /// The call that has begun and has not ended.
    ghost under_way: { Self → Option L.Begun };

    /// Whether the CPU waits at a lock or holds one.
    ghost is_inside: { Self → Bool };

    /// Coupling invariant: the part and the machine agree.
    ghost Coupled: { Self → Self.Machine → Type 0 };

    /// Whether one poll is one action, as in the tower.
    ghost IsStepwise: { Type 0 };

    /// Whether one poll is one call: each poll returns a result or leaves its thread to wait. A
    /// lock that lets polls pass without an action is neither whole nor stepwise.
    ghost IsWhole: { Type 0 };

    /// The actions on the locks, newest first, each Give under its section's edit.
    ghost acts: { Self.Machine → List (Action L.Name) };

    /// Returns the part of `cpu` at boot, with no pending call. `homes` holds the home of each
    /// thread, and `buffers` is the number of buffers; layers above use it.
    ///
    /// Requires: the homes are those of a boot: for a layer with threads, at most `THREADS`.
    fn part(cpu: CpuId, homes: &[CpuId], buffers: u8) -> Self
        requires { L.AreValidHomes homes.now }
        ensures cpu { cpu_of result ≡ cpu }
        ensures local { local result ≡ L.at_boot homes.now cpu }
        ensures call { under_way result ≡ None }
        ensures coupled { (m : Self.Machine) → ActsFor m cpu → IsOutside m cpu
            → L.Boots (opening m) (history m) homes.now cpu → Coupled result m };

    /// Returns whether the CPU waits at a lock or holds one.
    fn is_busy(&self) -> bool
        ensures { result ≡ is_inside self.now };

    /// Returns the threads of this CPU, without a copy.
    fn own_threads(&self) -> &OwnThreads
        ensures { result.now ≡ L.threads_of (local self.now) };

    /// Returns the thread that runs; `None` if none does.
    #[inline(always)]
    fn current(&self) -> Option<Tid>
        ensures { result ≡ (L.threads_of (local self.now)).current }
    {
        self.own_threads().current()
    }

    /// Returns the thread in this CPU's hand: woken here, and not yet forwarded to its home CPU.
    /// `None` if there is none.
    #[inline(always)]
    fn hand(&self) -> Option<Tid>
        ensures { result ≡ (L.threads_of (local self.now)).hand }
    {
        self.own_threads().hand()
    }

    /// Returns whether any thread is ready here.
    #[inline(always)]
    fn has_ready(&self) -> bool
        ensures some { result ≡ true → (L.threads_of (local self.now)).ready ≢ [] }
        ensures none { result ≡ false → (L.threads_of (local self.now)).ready ≡ [] }
    {
        self.own_threads().has_ready()
    }

    /// Returns whether the call of the thread that runs will return without an action, since it
    /// slept for a lock and was handed it.
    fn at_once(&self) -> bool
        ensures { result ≡ L.at_once (local self.now) };

    /// Polls the lock again for a section that waits at it, and returns whether it did. Such a poll
    /// ends no call, so that it needs no call and has no result. If it returns `false` nothing has
    /// changed, and the call must be polled; a layer may always return `false`.
    ///
    /// Requires: part and machine agree, and there is room for an event.
    fn look(&mut self, m: &mut Self::Machine) -> bool
        requires coupled { Coupled self.old m.old }
        requires room { 0 < room m.old }
        ensures still { result ≡ false → (self.new ≡ self.old) × (m.new ≡ m.old) }
        ensures waits { result ≡ true → is_inside self.old ≡ true }
        ensures local { local self.new ≡ local self.old }
        ensures call { under_way self.new ≡ under_way self.old }
        ensures inside { is_inside self.new ≡ is_inside self.old }
        ensures history { Grows (ActsFor m.old) L.cpu_of_event (history m.old) (history m.new) }
        ensures framed { Framed Coupled cpu_of opening machine_id room ActsFor MayHold self.old
            self.new
            m.old m.new }
        ensures tries { IsStepwise → result ≡ true
            → Tries (ActsFor m.old) (cpu_of self.old) (acts m.old) (acts m.new) };

    /// Records failed polls of a section that waits at its lock, as long as a poll would fail. It
    /// records at most one for each of the steps at the front of `steps` that are this CPU's.
    /// Returns how many it recorded: each failed, and nothing else is changed. A layer may always
    /// return 0.
    ///
    /// Requires: part and machine agree, and there is room for as many events as there are steps.
    #[inline(always)]
    fn spin(&self, m: &mut Self::Machine, steps: &[CpuId]) -> usize
        requires coupled { Coupled self.now m.old }
        requires room { length steps.now ≤ room m.old }
        ensures few { BeginWith (cpu_of self.now) result steps.now }
        ensures still { result ≡ 0 → m.new ≡ m.old }
        ensures spun { Spun Coupled opening machine_id history room ActsFor MayHold result m.old
            m.new }
        ensures outside { (c : CpuId) → IsOutside m.old c → IsOutside m.new c }
        ensures tries { IsStepwise → Misses (cpu_of self.now) result (acts m.old) (acts m.new) }
    {
        0
    }

    /// Performs at most one action of `call`. Returns its result once the call has ended, and
    /// `None` while the same call must be polled again. A call that touches nothing shared returns
    /// its result at once.
    ///
    /// A message that the call puts is in the payload at each poll, and one that its result brings
    /// is there afterwards.
    ///
    /// Requires: part and machine agree, the lock of the call exists, and there is room for an
    /// event. The call may be polled now: while a call is pending, only that call.
    fn poll(
        &mut self,
        m: &mut Self::Machine,
        call: L::Call,
        payload: &mut Payload,
    ) -> Option<L::Answer>
        requires coupled { Coupled self.old m.old }
        requires there { L.LockExists (opening m.old) call payload.old }
        requires room { 0 < room m.old }
        requires call { L.MayPoll (opening m.old) (cpu_of self.old) (history m.old) (local self.old)
            (under_way self.old) call payload.old }
        ensures call { L.LeavesBegun (cpu_of self.old) call payload.old result
            (under_way self.new) }
        ensures prompt { IsWhole
            → L.IsPrompt call payload.old result (local self.old) (local self.new) }
        ensures history { L.Polled (opening m.old) (ActsFor m.old) (cpu_of self.old) call
            payload.old
            (abstract_result L.abstract_answer result payload.new)
            (history m.old) (history m.new) (local self.old) (local self.new) (under_way self.new) }
        ensures still { L.IsLocal (local self.old) call payload.old → m.new ≡ m.old }
        ensures framed { Framed Coupled cpu_of opening machine_id room ActsFor MayHold self.old
            self.new
            m.old m.new }
        ensures outside { OnSome result
            ((L.IsLocal (local self.old) call payload.old → ⊥)
            → IsOutside m.new (cpu_of self.old)) }
        ensures follows { IsStepwise
            → Follows (ActsFor m.old) L.table (opening m.old) (cpu_of self.old)
            (L.plan (opening m.old) (cpu_of self.old) call payload.old (local self.old))
            (acts m.old) (acts m.new)
            (record {
              local = local self.new;
              answer = abstract_result L.abstract_answer result payload.new;
            }) };

    /// Performs at most one action of a pass. Returns `Some` once the pass has ended, and `None`
    /// while the same pass must be polled again.
    ///
    /// Requires: part and machine agree, and there is room for an event. The pass may be polled
    /// now: while a call is pending, only that call.
    fn pass(&mut self, m: &mut Self::Machine, call: Pass, payload: &mut Payload) -> Option<()>
        requires coupled { Coupled self.old m.old }
        requires room { 0 < room m.old }
        requires call { MayCall (under_way self.old) (L.pass_begun call)
            (MayPass call (L.threads_of (local self.old))) }
        ensures call { under_way self.new ≡ until_answered result (L.pass_begun call) }
        ensures history { L.Passed (opening m.old) (ActsFor m.old) (cpu_of self.old) call result
            (history m.old) (history m.new)
            (L.threads_of (local self.old)) (L.threads_of (local self.new)) }
        ensures rest { L.KeepsRest (local self.old) (local self.new) }
        ensures still { IsLocalPass call → m.new ≡ m.old }
        ensures framed { Framed Coupled cpu_of opening machine_id room ActsFor MayHold self.old
            self.new
            m.old m.new }
        ensures outside { OnSome result
            ((IsLocalPass call → ⊥) → IsOutside m.new (cpu_of self.old)) }
        ensures prompt { IsWhole → IsSome result }
        ensures follows { IsStepwise
            → Follows (ActsFor m.old) L.table (opening m.old) (cpu_of self.old)
            (L.pass_plan (opening m.old) (cpu_of self.old) call (local self.old))
            (acts m.old) (acts m.new) (record { local = local self.new; answer = result }) };

    /// Law: a part that agrees with a machine is of a CPU for which the machine's holder acts.
    ghost own_cpu: { (p : Self) (m : Self.Machine) → Coupled p m → ActsFor m (cpu_of p) };

    /// Law: each event in the history was allowed.
    ghost lawful: { (m : Self.Machine) (c : CpuId) → ActsFor m c → IsLawful (L.allowed (opening m)) (history m) };

    /// Law: each event in the history is of a CPU that a machine may have.
    ghost known: { (m : Self.Machine) (c : CpuId) → ActsFor m c → IsLawful (λ past e. (L.cpu_of_event e).0 < CPUS) (history m) };

    /// Law: each move of a thread starts at its place.
    ghost moves_legal: { (m : Self.Machine) (c : CpuId) → ActsFor m c → L.MovesAreLegal (opening m) (history m) };

    /// Law: the machine opened as one that may start.
    ghost opens: { (m : Self.Machine) (c : CpuId) → ActsFor m c → L.Starts (opening m) };

    /// Law: a part's private state agrees with the events.
    ghost stands: { (p : Self) (m : Self.Machine) → Coupled p m → L.Agrees (opening m) (cpu_of p) (history m) (local p) };

    /// Law: what a pending call says of whether a section is under way.
    ghost inside: { (p : Self) → L.Inside (under_way p) (is_inside p) };

    /// Law: if no call is pending, the CPU neither waits at a lock nor holds one.
    ghost idle: { (p : Self) (m : Self.Machine) → Coupled p m → under_way p ≡ None → is_inside p ≡ false };

    /// Law: the actions are legal.
    ghost legal: { (m : Self.Machine) (c : CpuId) → ActsFor m c → AreLegal (acts m) };

    /// Law: if a poll is one action, the events of the history are those of the actions.
    ghost seen_is: { IsStepwise → (m : Self.Machine) → history m ≡ L.events_in (acts m) };

    /// Law: if a poll is one action, each section of the actions edits a block of its kind.
    ghost proper: { IsStepwise → (m : Self.Machine) (c : CpuId) → ActsFor m c → L.AreProper (acts m) };

    /// Law: if a poll is one action, a CPU is inside exactly while it waits at a lock or holds one.
    ghost busy: { (p : Self) (m : Self.Machine) → Coupled p m → IsStepwise → is_inside p ≡ is_in_section (phase (cpu_of p) (acts m)) };
}
