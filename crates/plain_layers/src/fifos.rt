//! First-in first-out buffers in one section.

ghost use Rattle.std.specs.Prelude.{◌≡◌, ◌<◌, [], None, Some, false, option_map, replicate, slice_set};
ghost use Rattle.layer_traits.specs.{Blocks.Capacities.caps_in, Layers.BufferLaw.{buffer_of, no_call, reply_of, reply_with, call_state_of}};
ghost use Rattle.{event_log.specs.declared.ids.TheConstants.THREADS, plain_layers.specs.{FifoOwned.buffer_of_plain, Fifos.{ask_of, attempt_of, reply_to}}};
ghost use Rattle.plain_layers.specs.Fifos.{call_state_after};

use crate::attempts::{Ask, Attempt, PlainBuffer, Tried};
use crate::wholes::whole;
use event_log::{BufId, CpuId, Kind, THREADS, Tid};
use layer_traits::{
    BufferLaw, BufferView, Call, CallLayer, CallState, Effect, Ghost, LockView, Outcome,
    OwnThreads, OwnedBuffers, OwnedThreadLayer, Pass, Payload, ReplyKind, SleepLaw, Stage,
    ThreadLayer, no_calls,
};

/// One CPU's part of first-in first-out blocking buffers as they are specified, over a part `S` of
/// sleep and wakeup. A message call is one section. It takes effect if the buffer allows it;
/// otherwise its thread sleeps, and calls again after it is woken. A new caller may take what a
/// thread was woken for, and that thread then sleeps again. A close wakes the first sleeping
/// thread, and the effect of each wakes the next.
#[derive(Drop)]
pub struct PlainFifo<S> {
    lower: S,
    call_states: [CallState; THREADS],
}

/// Returns what a call asks of its buffer.
fn ask_in(call: &Call) -> Ask
    ensures { result ≡ ask_of call.now }
{
    match *call {
        Call::Send(_, message) => Ask::Send(message),
        Call::Recv(_) => Ask::Receive,
        Call::Close(_) => Ask::Close,
    }
}

/// Returns the section of a call.
fn attempt_in(t: Tid, call: &Call) -> Attempt
    ensures { result ≡ attempt_of t call.now }
{
    Attempt {
        thread: t,
        ask: ask_in(call),
    }
}

/// Returns the call state of a thread after its section had this effect, or none.
fn next(call: &Call, effect: &Option<Effect>) -> CallState
    ensures { result ≡ call_state_after call.now effect.now }
{
    match effect {
        Some(_) => CallState {
            stage: Stage::Idle,
            call: Ghost::of(&None),
            position: 0,
            effect: *effect,
        },
        None => CallState {
            stage: Stage::Waits,
            call: Ghost::of(&Some(*call)),
            position: 0,
            effect: None,
        },
    }
}

/// Returns the kind of the reply of a call after this effect.
fn answer(call: &Call, effect: &Effect) -> ReplyKind
    ensures { reply_with result (Some effect.now) ≡ reply_of call.now effect.now }
{
    match *call {
        Call::Send(_, _) => match effect.kind {
            Kind::SendClosed => ReplyKind::Closed,
            _ => ReplyKind::Sent,
        },
        Call::Recv(_) => match effect.kind {
            Kind::RecvClosed => ReplyKind::Closed,
            _ => ReplyKind::Got,
        },
        Call::Close(_) => ReplyKind::Shut,
    }
}

/// Returns the kind of the reply of a call after this effect, or none.
fn reply(call: &Call, effect: &Option<Effect>) -> Option<ReplyKind>
    ensures { option_map (λ kind. reply_with kind effect.now) result
        ≡ reply_to call.now effect.now }
{
    match effect {
        None => None,
        Some(effect) => Some(answer(call, effect)),
    }
}

impl<S: ThreadLayer<SleepLaw<Attempt>>> CallLayer<BufferLaw> for PlainFifo<S> {
    ghost use Rattle.std.specs.Prelude.{◌/◌, IsSome, length, refl};
    ghost use Rattle.{event_log.specs.declared.ids.LockId.TheVariants.Pending, plain_layers.specs.Laws.{FifoLaws.plain_wait_lists, FifoTallies.plain_lawful}};
    ghost use Rattle.plain_layers.specs.{Attempts.attempts, Fifos.{IsOwned, RestsBetweenPolls, plain_entries_in, wait_lists_in, plain_own_of, plain_shown}};
    ghost use Rattle.layer_traits.{proofs.KernelRenaming.{at_viewed, starts_viewed}, specs.Blocks.QueueBlocks.{homes_in, inner}};
    ghost use Rattle.layer_traits.specs.{Layers.{Queues.{buffer_sections, moves_in}, IpcLaw.WaitListsAgree, SleepLaw.sleep_kernel}, Threads.Places.AreMoves};
    ghost use Rattle.layer_traits.specs.{Threads.Places.Stands, Views.Renaming.viewed};

    type Machine = S::Machine;

    ghost history = { λ m. plain_entries_in (inner (S.opening m)) (buffer_sections (S.history m)) };

    ghost moves = { λ m. moves_in (sleep_kernel attempts (S.opening m)) (S.history m) };

    ghost wait_lists = { λ m b line. wait_lists_in (inner (S.opening m)) (buffer_sections (S.history m)) b line };

    ghost ActsFor = { λ m c. S.ActsFor m c × S.IsWhole × IsOwned (λ d. S.ActsFor m d) (S.opening m) };

    ghost room = { λ m. S.room m / 2 };

    ghost machine_id = { λ m. S.machine_id m };

    ghost IsFresh = { λ m homes c. (S.ActsFor m c × S.IsWhole × IsOwned (λ d. S.ActsFor m d) (S.opening m)) × S.IsOutside m c
        × (plain_entries_in (inner (S.opening m)) (buffer_sections (S.history m)) ≡ [])
        × (moves_in (sleep_kernel attempts (S.opening m)) (S.history m) ≡ [])
        × (homes_in (viewed plain_shown (S.opening m)) ≡ homes) × IsSome (S.opening m (Pending c)) };

    ghost MayHold = { λ m c. S.MayHold m c };

    ghost cpu_of = { λ p. S.cpu_of p.lower };

    ghost is_inside = { λ p. false };

    ghost under_way = { λ p. None };

    ghost Coupled = { λ p m. S.Coupled p.lower m × S.IsWhole × IsOwned (λ d. S.ActsFor m d) (S.opening m)
        × RestsBetweenPolls (S.under_way p.lower) (S.local p.lower) p.call_states };

    ghost IsWhole = { Unit {0} };

    ghost IsStepwise = { ⊥ };

    ghost opening = { λ m. viewed plain_shown (S.opening m) };

    ghost acts = { λ m. [] };

    ghost local = { λ p. plain_own_of (S.local p.lower).threads p.call_states };

    fn part(cpu: CpuId, homes: &[CpuId], buffers: u8) -> Self {
        PlainFifo {
            lower: S::part(cpu, homes, buffers),
            call_states: no_calls(),
        }
    }

    fn is_busy(&self) -> bool {
        false
    }

    #[inline(always)]
    fn own_threads(&self) -> &OwnThreads {
        self.lower.own_threads()
    }

    fn effect(&self, t: Tid) -> Option<Effect> {
        self.call_states[usize::from(t.0)].effect
    }

    fn effect_here(&self, t: Tid) -> &Option<Effect> {
        &self.call_states[usize::from(t.0)].effect
    }

    fn look(&mut self, _m: &mut S::Machine) -> bool {
        false
    }

    fn looks(&mut self, _m: &mut S::Machine, _taken: &mut usize, _most: usize) -> bool {
        false
    }

    fn poll_kind(&mut self, m: &mut S::Machine, t: Tid, call: &Call) -> Option<ReplyKind> {
        let mut payload = Payload::new();
        let outcome = whole::<Attempt, S>(
            &mut self.lower,
            m,
            call.buffer(),
            attempt_in(t, call),
            &mut payload,
        );
        let effect = outcome.out.effect();
        self.call_states[usize::from(t.0)] = next(call, &effect);
        reply(call, &effect)
    }

    fn pass(&mut self, m: &mut S::Machine, call: Pass) -> Option<()> {
        self.lower.pass(m, call, &mut Payload::new())
    }

    ghost own_cpu = { λ p m coupled. (S.own_cpu p.lower m coupled.0, coupled.1, coupled.2) };

    ghost lawful = { λ m c acts. plain_lawful (inner (S.opening m)) (caps_in (viewed plain_shown (S.opening m))) (buffer_sections (S.history m)) acts.2.fresh };

    ghost stands = { λ p m coupled. at_viewed plain_shown (S.opening m) (λ homes. Stands homes (S.cpu_of p.lower)
        (moves_in (sleep_kernel attempts (S.opening m)) (S.history m)) (S.local p.lower).threads) (S.stands p.lower m coupled.0).stands };

    ghost moves_legal = { λ m c acts. at_viewed plain_shown (S.opening m)
        (λ homes. AreMoves homes (moves_in (sleep_kernel attempts (S.opening m)) (S.history m))) (S.moves_legal m c acts.0) };

    ghost lists = { λ p m coupled. at_viewed plain_shown (S.opening m) (λ homes. WaitListsAgree (length (caps_in (viewed plain_shown (S.opening m)))) homes
        (moves_in (sleep_kernel attempts (S.opening m)) (S.history m)) (wait_lists_in (inner (S.opening m)) (buffer_sections (S.history m))))
        (plain_wait_lists (S.opening m) (S.history m) coupled.2.fresh (S.stands p.lower m coupled.0).lists) };

    ghost starts = { λ m c acts. starts_viewed plain_shown (S.opening m) (S.opens m c acts.0) };

    ghost legal = { λ m c acts. tt };

    ghost seen_is = { λ step m. absurd step };

    ghost moves_are = { λ step m c acts. absurd step };

    ghost busy = { λ p m coupled step. absurd step };

    ghost idle = { λ p m coupled none. refl };

    ghost opens = { λ step m homes c fresh. absurd step };
}

/// Returns what the buffer of a lock's block shows.
fn plain_view(view: LockView<'_, PlainBuffer>) -> BufferView<'_>
    ensures { result ≡ buffer_of_plain view.entry }
{
    BufferView {
        items: view.above.items(),
        closed: view.above.is_closed(),
        owner: view.owner,
        sleepers: view.sleepers,
        receivers: view.receivers,
        senders: view.senders,
    }
}

impl<S: OwnedThreadLayer<SleepLaw<Attempt>>> OwnedBuffers for PlainFifo<S> {
    ghost use Rattle.{std.{specs.Prelude.option_map, proofs.Common.sym}, event_log.specs.{declared.ids.LockId.TheVariants.{Buffer, Pending}, Buffers.items_of}};
    ghost use Rattle.{event_log.specs.Runs.is_closed, layer_traits.specs.{Blocks.{BufferEffects.contents_of, QueueBlocks.inner}, Threads.Places.pending_by}};
    ghost use Rattle.layer_traits.specs.{Layers.{Queues.{buffer_sections, moves_in}, SleepLaw.sleep_kernel}, Views.Renaming.{viewed, viewed_block}};
    ghost use Rattle.{layer_traits.{specs.Views.Owned.shows, proofs.OwnedLemmas.{parts_on, read_on, view_read}}, plain_layers.specs.Attempts.attempts};
    ghost use Rattle.plain_layers.specs.{Fifos.{plain_entries_in, wait_lists_in, locked_after, plain_shown}, FifoOwned.{nobody, plain_buffer}};
    ghost use Rattle.plain_layers.specs.Laws.FifoOwned.{buffer_there, entries_known, plain_read, there_viewed};

    ghost owner = { λ m b. nobody };

    ghost buffer_at = { λ m b. option_map plain_buffer (S.block_at m b) };

    ghost buffer_with = { λ p b. option_map plain_buffer (S.block_with p.lower b) };

    ghost queue_at = { λ m d. S.queue_at m d };

    ghost queue_with = { λ p d. S.queue_with p.lower d };

    fn buffer_in(m: &S::Machine, b: BufId) -> Option<BufferView<'_>> {
        Some(plain_view(S::block_in(m, b)?))
    }

    fn buffer_here(&self, b: BufId) -> Option<BufferView<'_>> {
        Some(plain_view(self.lower.block_here(b)?))
    }

    fn pends_in(m: &S::Machine, d: CpuId, t: Tid) -> Option<bool> {
        S::pends_in(m, d, t)
    }

    fn pends_here(&self, d: CpuId, t: Tid) -> Option<bool> {
        self.lower.pends_here(d, t)
    }

    ghost known = { λ m c acts. entries_known (inner (S.opening m)) (S.history m) (S.known m c acts.0) };

    ghost shown = { λ m c b acts within. view_read
        (parts_on (λ (p : Self). p.lower) (λ p. S.Coupled p m) (λ (p : Self). Self.Coupled p m) (λ p. S.cpu_of p) (S.MayHold m) (λ p coupled. coupled.0))
        plain_buffer (locked_after (inner (S.opening m)) (Buffer b) (buffer_sections (S.history m))) (λ p. S.block_with p b) (S.block_at m b)
        (shows (items_of (contents_of (caps_in (viewed plain_shown (S.opening m)))
        (plain_entries_in (inner (S.opening m)) (buffer_sections (S.history m)))) b.0)
        (is_closed (plain_entries_in (inner (S.opening m)) (buffer_sections (S.history m))) b.0) nobody
        (wait_lists_in (inner (S.opening m)) (buffer_sections (S.history m)) b))
        (plain_read (S.opening m) acts.2.fresh b within (buffer_sections (S.history m)))
        (S.shown m c b acts.0 (buffer_there (S.opening m) acts.2.fresh b within)) };

    ghost owner_is = { λ step m c b acts. absurd step };

    ghost items_are = { λ step m c b acts within. absurd step };

    ghost queues = { λ m c d acts there. read_on
        (parts_on (λ (p : Self). p.lower) (λ p. S.Coupled p m) (λ (p : Self). Self.Coupled p m) (λ p. S.cpu_of p) (S.MayHold m) (λ p coupled. coupled.0))
        (λ p. S.queue_with p d) (S.queue_at m d)
        (pending_by (moves_in (sleep_kernel attempts (S.opening m)) (S.history m)) d)
        (S.queues m c d acts.0 (there_viewed (viewed_block plain_shown) (S.opening m (Pending d)) there)) };

    ghost holding = { λ step m c held. absurd step };
}
