//! One trait for the two layers at the top, over the law that each of them meets: buffers, and
//! message calls over them.
//!
//! No call is given an allocator, and none waits.

ghost use Rattle.std.specs.Prelude.{◌≡◌, ◌≢◌, ℕ, ◌+◌, ◌<◌, ◌≤◌, ◌⊎◌, Bool, true, false, List, [], Option, Some, None, IsSome, length, map};
ghost use Rattle.event_log.specs.declared.{ids.{CpuId.CpuId, Tid.Tid, BufId.BufId, LockId.LockId, TheConstants.THREADS}, entries.Entry.Entry};
ghost use Rattle.{event_log.specs.{History.IsLawful, Actions.{Action, AreLegal, phase}, Sections.sections_in}, layer_traits.specs.declared.calls.Call.Call};
ghost use Rattle.layer_traits.specs.declared.{calls.Reply.Reply, buffer_edits.BufferEdit.BufferEdit, moves.WaitList.WaitList, queue_edits.QueueEdit.QueueEdit};
ghost use Rattle.layer_traits.specs.{declared.queue_edits.QueueBlock.QueueBlock, Views.{Acted.MovesAre, OwnParts.threads_in}, Blocks.Capacities.caps_in};
ghost use Rattle.layer_traits.specs.Blocks.{QueueBlocks.{StartsWell, homes_in, inner}, QueueRules.queue_rules, BufferProtocol.{BufferLock, buffer_rules}};
ghost use Rattle.layer_traits.specs.{Blocks.BufferEffects.{MayTakeEffect, effects_in}, Layers.{Conditions.CvCall, Queues.{buffer_sections, event_of}}};
ghost use Rattle.layer_traits.specs.Layers.{QLocking.{lock_moves, lock_rules}, IpcLaw.{WaitListsAgree, OpensSo}, BufferLaw.{BufferPlan, Buffering, answer_in}};
ghost use Rattle.layer_traits.specs.Layers.BufferLaw.{reply_with, Calling, UnderWay, MayGoOn, MayPollCall, OthersSeen, Passing, buffering_at_start};
ghost use Rattle.layer_traits.specs.{Layers.BufferLaw.{fifo_pass_plan, still_passing, call_state_of, message_of}, Threads.Places.{Step, Stands, AreMoves}};
ghost use Rattle.layer_traits.specs.{Threads.Passes.{MayPass, IsLocalPass, PassPolled}, Polling.{Plans.{Follows, table_of, is_in_section}, Framed.Framed}};
ghost use Rattle.layer_traits.specs.Polling.{Spins.{BeginWith, Spun, Misses}, PollRuns.{Looked, LookedOn, Polled, PolledOn}};

use crate::calls::{Call, Effect, PollRun, Reply, ReplyKind};
use crate::own_threads::OwnThreads;
use crate::passes::Pass;
use event_log::{CpuId, Msg, Tid};

/// The law of a layer whose calls send messages and receive them.
pub trait CallLaw {
    /// What the call is on exists, with buffers of these capacities.
    ghost LockExists: { List ℕ → Call → Type 0 };

    /// A part that was made for so many buffers fits buffers of these capacities.
    ghost IsCount: { List ℕ → ℕ → Type 0 };

    /// What a poll of a call must do, if a poll is one action.
    ghost plan: { ℕ → List CpuId → CpuId → Tid → Call → Buffering → BufferPlan Reply };
}

/// One CPU's part of a layer that meets the law `L` and in which threads send to FIFO buffers and
/// receive from them. A message call is one event, its effect (linearization point). A poll does at
/// most one atomic action; if it returns `None` the same call must be polled again, once its thread
/// runs.
///
/// No call allocates memory.
pub trait CallLayer<L: CallLaw>: Sized {
    /// The machine under the layer.
    type Machine;

    /// The effects that the holder of the machine has observed, newest first.
    ghost history: { Self.Machine → List Entry };

    /// The moves of threads that it has observed, newest first.
    ghost moves: { Self.Machine → List Step };

    /// The threads that sleep at a buffer, as its last section left them.
    ghost wait_lists: { Self.Machine → BufId → WaitList → List Tid };

    /// The CPUs for which the holder of the machine acts; this implies that the machine is sound.
    ghost ActsFor: { Self.Machine → CpuId → Type 0 };

    /// How many more events there is room for.
    ghost room: { Self.Machine → ℕ };

    /// Which machine it is, as numbers; a machine that no caller must recognize needs none. No poll
    /// changes it.
    ghost machine_id: { Self.Machine → List ℕ } = { λ _. [] };

    /// Nothing was done in the machine, whose threads have these homes, and it has what a part of
    /// this CPU needs.
    ghost IsFresh: { Self.Machine → List CpuId → CpuId → Type 0 };

    /// This CPU may hold a lock, as far as the machine shows.
    ghost MayHold: { Self.Machine → CpuId → Type 0 };

    /// The CPU whose part it is.
    ghost cpu_of: { Self → CpuId };

    /// Whether a section is under way.
    ghost is_inside: { Self → Bool };

    /// The CPU's pending call or pass.
    ghost under_way: { Self → Option UnderWay };

    /// Coupling invariant: the part and the machine agree.
    ghost Coupled: { Self → Self.Machine → Type 0 };

    /// Whether one poll is one call: the call takes effect at the first poll at which its buffer
    /// allows it.
    ghost IsWhole: { Type 0 };

    /// Whether one poll is one action, as in the tower.
    ghost IsStepwise: { Type 0 };

    /// The opening block of each lock; None if there is no such lock.
    ghost opening: { Self.Machine → LockId → Option (QueueBlock BufferLock) };

    /// The actions on the locks, newest first, each Give under its section's edit.
    ghost acts: { Self.Machine → List (Action (QueueEdit (CvCall BufferEdit))) };

    /// The CPU's private state.
    ghost local: { Self → Buffering };

    /// Returns the part of `cpu` at boot: its threads are ready, and none has called. `homes` holds
    /// the home of each thread, and the buffers are numbered from 0 to `buffers - 1`.
    ///
    /// Requires: there are at most `THREADS` homes.
    fn part(cpu: CpuId, homes: &[CpuId], buffers: u8) -> Self
        requires { length homes.now ≤ THREADS }
        ensures cpu { cpu_of result ≡ cpu }
        ensures under_way { under_way result ≡ None }
        ensures local { local result ≡ buffering_at_start homes.now cpu }
        ensures coupled { (m : Self.Machine) → IsFresh m homes.now cpu
            → L.IsCount (caps_in (opening m)) buffers → Coupled result m };

    /// Returns whether a section is under way.
    fn is_busy(&self) -> bool
        ensures { result ≡ is_inside self.now };

    /// Returns the CPU's threads, without a copy.
    fn own_threads(&self) -> &OwnThreads
        ensures { result.now ≡ threads_in (local self.now) };

    /// Returns the thread that runs.
    #[inline(always)]
    fn current(&self) -> Option<Tid>
        ensures { result ≡ (threads_in (local self.now)).current }
    {
        self.own_threads().current()
    }

    /// Returns the thread in the hand: this CPU woke it and has not yet forwarded it to its home
    /// CPU.
    #[inline(always)]
    fn hand(&self) -> Option<Tid>
        ensures { result ≡ (threads_in (local self.now)).hand }
    {
        self.own_threads().hand()
    }

    /// Returns whether a thread is ready.
    #[inline(always)]
    fn has_ready(&self) -> bool
        ensures some { result ≡ true → (threads_in (local self.now)).ready ≢ [] }
        ensures none { result ≡ false → (threads_in (local self.now)).ready ≡ [] }
    {
        self.own_threads().has_ready()
    }

    /// Returns the effect of this thread's newest call, from the poll in which it occurred until
    /// the thread's next call begins.
    ///
    /// Requires: `t` is below `THREADS`.
    fn effect(&self, t: Tid) -> Option<Effect>
        requires { t.0 < THREADS }
        ensures { result ≡ (call_state_of (local self.now).call_states t).effect };

    /// Returns the same effect, without a copy.
    ///
    /// Requires: `t` is below `THREADS`.
    fn effect_here(&self, t: Tid) -> &Option<Effect>
        requires { t.0 < THREADS }
        ensures { result.now ≡ (call_state_of (local self.now).call_states t).effect };

    /// Polls the lock again for a section that waits at it, and returns whether it did. Such a poll
    /// ends no call, so that it needs no call and has no result. If it returns `false` nothing has
    /// changed, and the call must be polled; a layer may always return `false`.
    ///
    /// Requires: part and machine agree, and there is room for an event.
    fn look(&mut self, m: &mut Self::Machine) -> bool
        requires coupled { Coupled self.old m.old }
        requires room { 0 < room m.old }
        ensures { Looked Coupled cpu_of opening machine_id room ActsFor MayHold local is_inside
            under_way history
            moves acts
            IsWhole IsStepwise L.plan result self.old m.old self.new m.new };

    /// Polls the lock again for a section that waits at it, at most twice: the second poll follows
    /// a first one that failed. Each poll is one more action taken. Returns whether the actions
    /// must end here: it has polled twice, or `most` actions are taken. A layer that never polls in
    /// this way does nothing.
    ///
    /// Requires: part and machine agree. Fewer than `most` actions are taken, and there is room for
    /// as many events as are left.
    fn looks(&mut self, m: &mut Self::Machine, taken: &mut usize, most: usize) -> bool
        requires coupled { Coupled self.old m.old }
        requires some { taken.old < most }
        requires room { most ≤ taken.old + room m.old }
        ensures more { taken.old ≤ taken.new }
        ensures few { taken.new ≤ most }
        ensures ends { result ≡ true → (taken.new ≡ most) ⊎ (taken.new ≡ taken.old + 2) }
        ensures goes_on { result ≡ false → (taken.new < most) × (taken.new < taken.old + 2) }
        ensures looked_on { LookedOn Coupled cpu_of opening machine_id room ActsFor MayHold local
            is_inside
            under_way history moves acts
            IsWhole IsStepwise L.plan self.old m.old taken.old taken.new self.new m.new };

    /// Records failed polls of a section that waits at its lock, as long as a poll would fail. It
    /// records at most one for each of the steps at the front of `steps` that are this CPU's.
    /// Returns how many it recorded: each failed, and nothing else is changed. A layer may always
    /// return 0.
    ///
    /// Requires: part and machine agree, and there is room for as many events as there are steps.
    #[inline(always)]
    fn spin(&self, m: &mut Self::Machine, steps: &[CpuId]) -> usize
        requires coupled { Coupled self.now m.old }
        requires room { length steps.now ≤ room m.old }
        ensures few { BeginWith (cpu_of self.now) result steps.now }
        ensures still { result ≡ 0 → m.new ≡ m.old }
        ensures spun { Spun Coupled opening machine_id history room ActsFor MayHold result m.old
            m.new }
        ensures moves { moves m.new ≡ moves m.old }
        ensures wait_lists { wait_lists m.new ≡ wait_lists m.old }
        ensures tries { IsStepwise → Misses (cpu_of self.now) result (acts m.old) (acts m.new) }
    {
        0
    }

    /// Performs at most one action of the call of `t`. Returns the kind of its reply once the call
    /// has ended, and `None` while the same call must be polled again. A message that was received
    /// is in the effect of `t`, where a CPU reads it without a copy. `NoBuffer` is returned exactly
    /// if the number is not a buffer's, and then nothing was done.
    ///
    /// Requires: what the call is on exists, part and machine agree, there is room for an event,
    /// and `t` runs here. The call is the one that `t` has begun, or `t` is between calls. The CPU
    /// has no other pending call. If it has none, its hand is empty.
    fn poll_kind(&mut self, m: &mut Self::Machine, t: Tid, call: &Call) -> Option<ReplyKind>
        requires coupled { Coupled self.old m.old }
        requires there { L.LockExists (caps_in (opening m.old)) call.now }
        requires room { 0 < room m.old }
        requires runs { (threads_in (local self.old)).current ≡ Some t }
        requires hand { under_way self.old ≡ None → (threads_in (local self.old)).hand ≡ None }
        requires same { MayPollCall (call_state_of (local self.old).call_states t) call.now }
        requires goes_on { MayGoOn (under_way self.old) (Calling t) }
        ensures { Polled Coupled cpu_of opening machine_id room ActsFor MayHold local is_inside
            under_way history
            moves acts
            IsWhole IsStepwise L.plan t call.now self.old m.old self.new m.new
            (answer_in (local self.new).call_states t result) };

    /// Performs up to `most` actions of the call of `t`, one after the other. The first is a poll
    /// of the call, and each later one a poll of the call or of its section's lock. It continues at
    /// most until the call ends, has its effect, or leaves `t` not running, and may stop before.
    /// Returns how many actions it did, and the kind of the reply if the last of them ended the
    /// call.
    ///
    /// Requires: as `poll_kind`, with room for `most` events. `most` is not 0.
    #[inline(always)]
    fn poll_on(&mut self, m: &mut Self::Machine, t: Tid, call: &Call, most: usize) -> PollRun
        requires coupled { Coupled self.old m.old }
        requires there { L.LockExists (caps_in (opening m.old)) call.now }
        requires some { 0 < most }
        requires room { most ≤ room m.old }
        requires runs { (threads_in (local self.old)).current ≡ Some t }
        requires hand { under_way self.old ≡ None → (threads_in (local self.old)).hand ≡ None }
        requires same { MayPollCall (call_state_of (local self.old).call_states t) call.now }
        requires goes_on { MayGoOn (under_way self.old) (Calling t) }
        ensures few { result.actions ≤ most }
        ensures polled_on { PolledOn Coupled cpu_of opening machine_id room ActsFor MayHold local
            is_inside
            under_way history moves acts
            IsWhole IsStepwise L.plan t call.now self.old m.old result.actions self.new m.new
            result.reply }
    {
        PollRun {
            actions: 1,
            reply: self.poll_kind(m, t, call),
        }
    }

    /// Does the same as `poll_kind`, with the whole reply.
    ///
    /// Requires: as `poll_kind`.
    #[inline(always)]
    fn poll(&mut self, m: &mut Self::Machine, t: Tid, call: &Call) -> Option<Reply>
        requires coupled { Coupled self.old m.old }
        requires there { L.LockExists (caps_in (opening m.old)) call.now }
        requires room { 0 < room m.old }
        requires runs { (threads_in (local self.old)).current ≡ Some t }
        requires hand { under_way self.old ≡ None → (threads_in (local self.old)).hand ≡ None }
        requires same { MayPollCall (call_state_of (local self.old).call_states t) call.now }
        requires goes_on { MayGoOn (under_way self.old) (Calling t) }
        ensures { Polled Coupled cpu_of opening machine_id room ActsFor MayHold local is_inside
            under_way history
            moves acts
            IsWhole IsStepwise L.plan t call.now self.old m.old self.new m.new result }
    {
        match self.poll_kind(m, t, call) {
            None => None,
            Some(kind) => Some(whole_reply(kind, self.effect_here(t))),
        }
    }

    /// Passes a call down to the scheduler. The call states are unchanged.
    ///
    /// Requires: part and machine agree, there is room for an event, the CPU's threads allow the
    /// pass, and no other call is pending.
    fn pass(&mut self, m: &mut Self::Machine, call: Pass) -> Option<()>
        requires coupled { Coupled self.old m.old }
        requires room { 0 < room m.old }
        requires may { MayPass call (threads_in (local self.old)) }
        requires goes_on { MayGoOn (under_way self.old) (Passing call) }
        ensures history { OthersSeen (ActsFor m.old) (history m.old) (history m.new) }
        ensures passed { PassPolled (homes_in (opening m.old)) (ActsFor m.old) (cpu_of self.old)
            call result (moves m.old) (moves m.new)
            (threads_in (local self.old)) (threads_in (local self.new)) }
        ensures under_way { under_way self.new ≡ still_passing call result }
        ensures call_states { (local self.new).call_states ≡ (local self.old).call_states }
        ensures still { IsLocalPass call → m.new ≡ m.old }
        ensures prompt { IsWhole → IsSome result }
        ensures framed { Framed Coupled cpu_of opening machine_id room ActsFor MayHold self.old
            self.new
            m.old m.new }
        ensures follows { IsStepwise
            → Follows (ActsFor m.old)
            (table_of (queue_rules (lock_rules buffer_rules) (lock_moves buffer_rules)))
            (opening m.old) (cpu_of self.old)
            (fifo_pass_plan (homes_in (opening m.old)) (cpu_of self.old) call (local self.old))
            (acts m.old) (acts m.new) (record { local = local self.new; answer = result }) };

    /// Law: a part that agrees with a machine is of a CPU for which the machine's holder acts.
    ghost own_cpu: { (p : Self) (m : Self.Machine) → Coupled p m → ActsFor m (cpu_of p) };

    /// Law: each effect in the history may follow those before it.
    ghost lawful: { (m : Self.Machine) (c : CpuId) → ActsFor m c → IsLawful (MayTakeEffect (caps_in (opening m))) (history m) };

    /// Law: a CPU's threads are in the places that the moves say.
    ghost stands: { (p : Self) (m : Self.Machine) → Coupled p m → Stands (homes_in (opening m)) (cpu_of p) (moves m) (threads_in (local p)) };

    /// Law: each move in the history may follow those before it.
    ghost moves_legal: { (m : Self.Machine) (c : CpuId) → ActsFor m c → AreMoves (homes_in (opening m)) (moves m) };

    /// Law: the waiting lists of the buffers and the threads' places agree.
    ghost lists: { (p : Self) (m : Self.Machine) → Coupled p m
        → WaitListsAgree (length (caps_in (opening m))) (homes_in (opening m)) (moves m) (wait_lists m) };

    /// Law: if the CPU has no pending call, no section is under way.
    ghost idle: { (p : Self) (m : Self.Machine) → Coupled p m → under_way p ≡ None → is_inside p ≡ false };

    /// Law: the opening blocks are those of a machine in which nothing was done, and each home of a
    /// thread has its queue.
    ghost starts: { (m : Self.Machine) (c : CpuId) → ActsFor m c → StartsWell (opening m) };

    /// Law: the actions are legal.
    ghost legal: { (m : Self.Machine) (c : CpuId) → ActsFor m c → AreLegal (acts m) };

    /// Law: if a poll is one action, the effects are those of the sections of the actions. Each has
    /// the position that its thread drew.
    ghost seen_is: { IsStepwise → (m : Self.Machine)
        → history m ≡ effects_in (inner (opening m)) (buffer_sections (map event_of (sections_in (acts m)))) };

    /// Law: if a poll is one action, the threads, moves and waiting lists that the layer reports
    /// are what the sections of the actions make of them. The same holds of the pending queues.
    ghost moves_are: { IsStepwise → (m : Self.Machine) (c : CpuId) → ActsFor m c
        → MovesAre (opening m) (acts m) (moves m) (wait_lists m) };

    /// Law: if a poll is one action, a part has a section under way exactly while its CPU waits at
    /// a lock or holds one.
    ghost busy: { (p : Self) (m : Self.Machine) → Coupled p m → IsStepwise → is_inside p ≡ is_in_section (phase (cpu_of p) (acts m)) };

    /// Law: if a poll is one action, a fresh machine's blocks are those of its capacities and
    /// homes.
    ghost opens: { IsStepwise → (m : Self.Machine) (homes : List CpuId) (c : CpuId) → IsFresh m homes c
        → OpensSo (caps_in (opening m)) homes c (opening m) };
}

/// Returns the reply of this kind, with the message of this effect if it has one.
#[inline(always)]
fn whole_reply(kind: ReplyKind, effect: &Option<Effect>) -> Reply
    ensures { result ≡ reply_with kind effect.now }
{
    match kind {
        ReplyKind::Sent => Reply::Sent,
        ReplyKind::Got => Reply::Got(message_of(effect)),
        ReplyKind::Shut => Reply::Shut,
        ReplyKind::Closed => Reply::Closed,
        ReplyKind::NoBuffer => Reply::NoBuffer,
    }
}

/// Returns the message of an effect; none if there is no effect.
#[inline(always)]
pub fn message_of(effect: &Option<Effect>) -> Msg
    ensures { result ≡ message_of effect.now }
{
    match effect {
        None => Msg::none(),
        Some(effect) => effect.value,
    }
}
