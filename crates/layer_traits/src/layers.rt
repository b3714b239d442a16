//! One trait for the layers of the tower, over the law that each of them meets.
//!
//! No call is given an allocator, and none waits.

ghost use Rattle.std.specs.Prelude.{◌≡◌, ℕ, ◌<◌, ◌≤◌, length, true, false, Bool, List, [], Option, None, Some, OnSome, if◌then◌else◌};
ghost use Rattle.event_log.specs.{declared.ids.{CpuId.CpuId, LockId.LockId, TheConstants.CPUS}, Actions.{Action, AreLegal, phase}, History.{IsLawful, Grows}};
ghost use Rattle.layer_traits.specs.{declared.payloads.Payload.Payload, Blocks.Payloads.abstract_result, Polling.Plans.{Plan, Table, Follows, is_in_section}};
ghost use Rattle.layer_traits.specs.Polling.{Framed.Framed, Looks.Tries, Spins.{BeginWith, Spun, Misses}};

use crate::payloads::Payload;
use event_log::{CpuId, LockId};

/// What a layer promises of its calls. The rest, which every layer promises, is in `Layer`.
pub trait Law {
    /// The form in which layers pass a call down. A message that the call puts is in the payload
    /// beside it.
    type Call: Drop;

    /// The form in which layers pass a result back up. A message that it brings is in the payload
    /// beside it.
    type Answer: Drop;

    /// A call's result.
    type AbstractAnswer;

    /// What a lock guards.
    type Block;

    /// The name of a section: its edit.
    type Name;

    /// A section's result.
    type Reply;

    /// A call that took effect.
    type Event;

    /// A call that has begun.
    type Begun;

    /// A part's private state.
    type State;

    /// The CPU of an event.
    ghost cpu_of_event: { Self.Event → CpuId };

    /// Abstraction function: the result that a passed-back form means, with this payload beside it.
    ghost abstract_answer: { Self.Answer → Payload → Self.AbstractAnswer };

    /// The events that are allowed after this history, from the opening blocks on.
    ghost allowed: { (LockId → Option Self.Block) → List Self.Event → Self.Event → Type 0 };

    /// The lock of a call exists.
    ghost LockExists: { (LockId → Option Self.Block) → Self.Call → Payload → Type 0 };

    /// With this private state of the part, the call touches nothing shared.
    ghost IsLocal: { Self.State → Self.Call → Payload → Type 0 };

    /// The homes are those of a boot.
    ghost AreValidHomes: { List CpuId → Type 0 };

    /// A part's private state at boot.
    ghost at_boot: { List CpuId → CpuId → Self.State };

    /// The machine is one in which the parts of these homes may begin.
    ghost Boots: { (LockId → Option Self.Block) → List Self.Event → List CpuId → CpuId → Type 0 };

    /// A call may be polled: at its first poll it is allowed, and after that it is the pending one.
    ghost MayPoll: { (LockId → Option Self.Block) → CpuId → List Self.Event → Self.State → Option Self.Begun → Self.Call → Payload → Type 0 };

    /// Which call is pending after a poll with this result, as far as the result determines it.
    ghost LeavesBegun: { CpuId → Self.Call → Payload → Option Self.Answer → Option Self.Begun → Type 0 };

    /// What a poll adds to the events, does to the part's private state, leaves pending, and
    /// returns.
    ghost Polled: { (LockId → Option Self.Block) → (CpuId → Type 0) → CpuId → Self.Call → Payload → Option Self.AbstractAnswer
        → List Self.Event → List Self.Event → Self.State → Self.State → Option Self.Begun → Type 0 };

    /// What the poll of a whole machine does to the part's private state: it returns a result, or
    /// the law says why it does not.
    ghost IsPrompt: { Self.Call → Payload → Option Self.Answer → Self.State → Self.State → Type 0 };

    /// What the names of sections mean.
    ghost table: { Table Self.Name Self.Block Self.Reply };

    /// What a poll must do.
    ghost plan: { (LockId → Option Self.Block) → CpuId → Self.Call → Payload → Self.State → Plan Self.Name Self.Reply Self.State Self.AbstractAnswer };

    /// The events that these actions are.
    ghost events_in: { List (Action Self.Name) → List Self.Event };

    /// What a pending call says of whether a section is under way.
    ghost Inside: { Option Self.Begun → Bool → Type 0 };

    /// The opening blocks are those of a machine that may start.
    ghost Starts: { (LockId → Option Self.Block) → Type 0 };

    /// Each section of the actions edits a block of its kind.
    ghost AreProper: { List (Action Self.Name) → Type 0 };

    /// Each move of a thread starts at its place.
    ghost MovesAreLegal: { (LockId → Option Self.Block) → List Self.Event → Type 0 };

    /// A part's private state agrees with the events.
    ghost Agrees: { (LockId → Option Self.Block) → CpuId → List Self.Event → Self.State → Type 0 };
}

/// One CPU's part of a layer that meets the law `L`. A poll does at most one atomic action of the
/// call. The poll that ends the call returns its result, and until then the same call must be
/// polled again. To the layers above a call is one event.
///
/// No call allocates memory.
pub trait Layer<L: Law>: Sized {
    /// The machine under the layer.
    type Machine;

    /// The opening block of each lock; None if there is no such lock.
    ghost opening: { Self.Machine → LockId → Option L.Block };

    /// The events that the holder of the machine has observed, newest first.
    ghost history: { Self.Machine → List L.Event };

    /// The CPUs for which the holder of the machine acts; this implies that the machine is sound.
    ghost ActsFor: { Self.Machine → CpuId → Type 0 };

    /// How many more events there is room for.
    ghost room: { Self.Machine → ℕ };

    /// Which machine it is, as numbers; a machine that no caller must recognize needs none. No poll
    /// changes it.
    ghost machine_id: { Self.Machine → List ℕ } = { λ _. [] };

    /// No section of this CPU is under way.
    ghost IsOutside: { Self.Machine → CpuId → Type 0 };

    /// This CPU may hold a lock, as far as the machine shows.
    ghost MayHold: { Self.Machine → CpuId → Type 0 };

    /// The CPU whose part it is.
    ghost cpu_of: { Self → CpuId };

    /// The part's private state.
    ghost local: { Self → L.State };

    /// The call that has begun and has not ended.
    ghost under_way: { Self → Option L.Begun };

    /// Whether the CPU waits at a lock or holds one.
    ghost is_inside: { Self → Bool };

    /// Coupling invariant: the part and the machine agree.
    ghost Coupled: { Self → Self.Machine → Type 0 };

    /// Whether one poll is one action, as in the tower.
    ghost IsStepwise: { Type 0 };

    /// Whether one poll is one call: each poll returns a result. A lock that lets polls pass
    /// without an action is neither whole nor stepwise.
    ghost IsWhole: { Type 0 };

    /// The actions on the locks, newest first, each Give under its section's edit.
    ghost acts: { Self.Machine → List (Action L.Name) };

    /// Returns the part of `cpu` at boot, with no pending call. `homes` holds the home of each
    /// thread, and `buffers` is the number of buffers; layers above use it.
    ///
    /// Requires: the homes are those of a boot: for a layer with threads, at most `THREADS`.
    fn part(cpu: CpuId, homes: &[CpuId], buffers: u8) -> Self
        requires { L.AreValidHomes homes.now }
        ensures cpu { cpu_of result ≡ cpu }
        ensures local { local result ≡ L.at_boot homes.now cpu }
        ensures call { under_way result ≡ None }
        ensures coupled { (m : Self.Machine) → ActsFor m cpu → IsOutside m cpu
            → L.Boots (opening m) (history m) homes.now cpu → Coupled result m };

    /// Returns whether the CPU waits at a lock or holds one.
    fn is_busy(&self) -> bool
        ensures { result ≡ is_inside self.now };

    /// Returns the part's private state, without a copy.
    fn local_here(&self) -> &L::State
        ensures { result.now ≡ local self.now };

    /// Polls the lock again for a section that waits at it, and returns whether it did. Such a poll
    /// ends no call, so that it needs no call and has no result. If it returns `false` nothing has
    /// changed, and the call must be polled; a layer may always return `false`.
    ///
    /// Requires: part and machine agree, and there is room for an event.
    fn look(&mut self, m: &mut Self::Machine) -> bool
        requires coupled { Coupled self.old m.old }
        requires room { 0 < room m.old }
        ensures still { result ≡ false → (self.new ≡ self.old) × (m.new ≡ m.old) }
        ensures waits { result ≡ true → is_inside self.old ≡ true }
        ensures local { local self.new ≡ local self.old }
        ensures call { under_way self.new ≡ under_way self.old }
        ensures inside { is_inside self.new ≡ is_inside self.old }
        ensures history { Grows (ActsFor m.old) L.cpu_of_event (history m.old) (history m.new) }
        ensures framed { Framed Coupled cpu_of opening machine_id room ActsFor MayHold self.old
            self.new
            m.old m.new }
        ensures tries { IsStepwise → result ≡ true
            → Tries (ActsFor m.old) (cpu_of self.old) (acts m.old) (acts m.new) };

    /// Records failed polls of a section that waits at its lock, as long as a poll would fail. It
    /// records at most one for each of the steps at the front of `steps` that are this CPU's.
    /// Returns how many it recorded: each failed, and nothing else is changed. A layer may always
    /// return 0.
    ///
    /// Requires: part and machine agree, and there is room for as many events as there are steps.
    #[inline(always)]
    fn spin(&self, m: &mut Self::Machine, steps: &[CpuId]) -> usize
        requires coupled { Coupled self.now m.old }
        requires room { length steps.now ≤ room m.old }
        ensures few { BeginWith (cpu_of self.now) result steps.now }
        ensures still { result ≡ 0 → m.new ≡ m.old }
        ensures spun { Spun Coupled opening machine_id history room ActsFor MayHold result m.old
            m.new }
        ensures outside { (c : CpuId) → IsOutside m.old c → IsOutside m.new c }
        ensures tries { IsStepwise → Misses (cpu_of self.now) result (acts m.old) (acts m.new) }
    {
        0
    }

    /// Performs at most one action of `call`. Returns its result once the call has ended, and
    /// `None` while the same call must be polled again. A call that touches nothing shared returns
    /// its result at once.
    ///
    /// A message that the call puts is in the payload at each poll, and one that its result brings
    /// is there afterwards.
    ///
    /// Requires: part and machine agree, the lock of the call exists, and there is room for an
    /// event. The call may be polled now: while a call is pending, only that call.
    fn poll(
        &mut self,
        m: &mut Self::Machine,
        call: L::Call,
        payload: &mut Payload,
    ) -> Option<L::Answer>
        requires coupled { Coupled self.old m.old }
        requires there { L.LockExists (opening m.old) call payload.old }
        requires room { 0 < room m.old }
        requires call { L.MayPoll (opening m.old) (cpu_of self.old) (history m.old) (local self.old)
            (under_way self.old) call payload.old }
        ensures call { L.LeavesBegun (cpu_of self.old) call payload.old result
            (under_way self.new) }
        ensures prompt { IsWhole
            → L.IsPrompt call payload.old result (local self.old) (local self.new) }
        ensures history { L.Polled (opening m.old) (ActsFor m.old) (cpu_of self.old) call
            payload.old
            (abstract_result L.abstract_answer result payload.new)
            (history m.old) (history m.new) (local self.old) (local self.new) (under_way self.new) }
        ensures still { L.IsLocal (local self.old) call payload.old → m.new ≡ m.old }
        ensures framed { Framed Coupled cpu_of opening machine_id room ActsFor MayHold self.old
            self.new
            m.old m.new }
        ensures outside { OnSome result
            ((L.IsLocal (local self.old) call payload.old → ⊥)
            → IsOutside m.new (cpu_of self.old)) }
        ensures follows { IsStepwise
            → Follows (ActsFor m.old) L.table (opening m.old) (cpu_of self.old)
            (L.plan (opening m.old) (cpu_of self.old) call payload.old (local self.old))
            (acts m.old) (acts m.new)
            (record {
              local = local self.new;
              answer = abstract_result L.abstract_answer result payload.new;
            }) };

    /// Law: a part that agrees with a machine is of a CPU for which the machine's holder acts.
    ghost own_cpu: { (p : Self) (m : Self.Machine) → Coupled p m → ActsFor m (cpu_of p) };

    /// Law: each event in the history was allowed.
    ghost lawful: { (m : Self.Machine) (c : CpuId) → ActsFor m c → IsLawful (L.allowed (opening m)) (history m) };

    /// Law: each event in the history is of a CPU that a machine may have.
    ghost known: { (m : Self.Machine) (c : CpuId) → ActsFor m c → IsLawful (λ past e. (L.cpu_of_event e).0 < CPUS) (history m) };

    /// Law: each move of a thread starts at its place.
    ghost moves_legal: { (m : Self.Machine) (c : CpuId) → ActsFor m c → L.MovesAreLegal (opening m) (history m) };

    /// Law: the machine opened as one that may start.
    ghost opens: { (m : Self.Machine) (c : CpuId) → ActsFor m c → L.Starts (opening m) };

    /// Law: a part's private state agrees with the events.
    ghost stands: { (p : Self) (m : Self.Machine) → Coupled p m → L.Agrees (opening m) (cpu_of p) (history m) (local p) };

    /// Law: what a pending call says of whether a section is under way.
    ghost inside: { (p : Self) → L.Inside (under_way p) (is_inside p) };

    /// Law: if no call is pending, the CPU neither waits at a lock nor holds one.
    ghost idle: { (p : Self) (m : Self.Machine) → Coupled p m → under_way p ≡ None → is_inside p ≡ false };

    /// Law: the actions are legal.
    ghost legal: { (m : Self.Machine) (c : CpuId) → ActsFor m c → AreLegal (acts m) };

    /// Law: if a poll is one action, the events of the history are those of the actions.
    ghost seen_is: { IsStepwise → (m : Self.Machine) → history m ≡ L.events_in (acts m) };

    /// Law: if a poll is one action, each section of the actions edits a block of its kind.
    ghost proper: { IsStepwise → (m : Self.Machine) (c : CpuId) → ActsFor m c → L.AreProper (acts m) };

    /// Law: if a poll is one action, a CPU is inside exactly while it waits at a lock or holds one.
    ghost busy: { (p : Self) (m : Self.Machine) → Coupled p m → IsStepwise → is_inside p ≡ is_in_section (phase (cpu_of p) (acts m)) };
}
