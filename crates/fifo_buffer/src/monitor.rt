//! First-in first-out buffers under monitors: one CPU's part of the layer.

ghost use Rattle.std.specs.Prelude.{◌≡◌, ◌<◌, [], slice_set};
ghost use Rattle.layer_traits.specs.{Blocks.Capacities.caps_in, Layers.BufferLaw.{answer_in, call_state_of, going}};
ghost use Rattle.{event_log.specs.declared.ids.TheConstants.THREADS, fifo_buffer.specs.SectionPolls.calling_after};
ghost use Rattle.fifo_buffer.specs.{MonitorOwned.buffer_of_monitor, MonitorParts.{monitor_recorded_if, monitor_reply}};

use crate::call_state_table::CallStates;
use crate::monitor_blocks::{MonitorBlock, MonitorEdit, MonitorReply};
use crate::monitor_calls::{monitor_section, record_out, reply_after};
use crate::sections::begin;
use event_log::{BufId, CpuId, Tid};
use layer_traits::{
    BufferCall, BufferLaw, BufferView, Call, CallLayer, Effect, Ghost, LockView, Outcome,
    OwnThreads, OwnedBuffers, OwnedThreadLayer, Pass, Payload, ReplyKind, SleepLaw, ThreadLayer,
};

/// One CPU's part of first-in first-out blocking bounded buffers under monitors, over a part `S` of
/// sleep and wakeup. One section of a buffer's lock does a message call: it takes effect if no
/// thread waits before its thread and the buffer allows it. Otherwise its thread joins the end of
/// its side's line, and sleeps. A thread that was woken is the first of its line, and no newcomer
/// passes it. A call after which a sleeping first is allowed wakes it, in one section for each.
#[derive(Drop)]
pub struct Monitor<S> {
    lower: S,
    call_states: CallStates,
    calling: Ghost<Option<Tid>>,
    payload: Payload,
}

impl<S: ThreadLayer<SleepLaw<MonitorEdit>>> Monitor<S> {
    /// Records the result of a poll of the section of `call` by `t`, if there is one. Returns the
    /// kind of the call's reply, if the call is over, and keeps for clauses whether it is still
    /// under way.
    fn complete(
        &mut self,
        t: Tid,
        call: &Call,
        outcome: &Option<Outcome<MonitorReply>>,
    ) -> Option<ReplyKind>
        requires known { t.0 < THREADS }
        ensures call_states { self.new.call_states.call_states
            ≡ slice_set self.old.call_states.call_states t.0
            (monitor_recorded_if call.now
            (going (call_state_of self.old.call_states.call_states t) call.now) outcome.now) }
        ensures answer { answer_in self.new.call_states.call_states t result
            ≡ monitor_reply call.now (call_state_of self.new.call_states.call_states t) }
        ensures calling { self.new.calling
            ≡ calling_after t (S.local self.old.lower).threads.current
            (answer_in self.new.call_states.call_states t result) }
        ensures lower { self.new.lower ≡ self.old.lower }
    {
        let call_state = &mut self.call_states.call_states[usize::from(t.0)];
        begin(call_state, call);
        if let Some(outcome) = outcome {
            record_out(call_state, call, &outcome.out);
        }
        let answer = reply_after(call, call_state);
        self.calling = Ghost::of(&match self.lower.current() {
            None => None,
            Some(_) => { if answer.is_none() { Some(t) } else { None } }
        });
        answer
    }
}

impl<S: ThreadLayer<SleepLaw<MonitorEdit>>> CallLayer<BufferLaw> for Monitor<S> {
    ghost use Rattle.{std.specs.Prelude.{IsSome, length}, event_log.specs.declared.ids.LockId.TheVariants.Pending};
    ghost use Rattle.layer_traits.specs.{Blocks.QueueBlocks.{homes_in, inner}, Views.Renaming.viewed, Layers.Queues.{buffer_sections, moves_in}};
    ghost use Rattle.layer_traits.specs.{Layers.{IpcLaw.WaitListsAgree, SleepLaw.sleep_kernel}, Threads.Places.{AreMoves, Stands}};
    ghost use Rattle.{layer_traits.proofs.KernelRenaming.{at_viewed, starts_viewed}, fifo_buffer.specs.Monitors.monitor_rules};
    ghost use Rattle.fifo_buffer.specs.{MonitorHistories.{monitor_entries, monitor_lists}, MonitorParts.{MonitorFits, OpensFresh, monitor_own, monitor_shown}};
    ghost use Rattle.fifo_buffer.specs.{MonitorParts.monitor_under, Laws.{MonitorLaws.{monitor_wait_lists, nothing_beneath}, MonitorTallies.monitor_lawful}};

    type Machine = S::Machine;

    ghost history = { λ m. monitor_entries (inner (S.opening m)) (buffer_sections (S.history m)) };

    ghost moves = { λ m. moves_in (sleep_kernel monitor_rules (S.opening m)) (S.history m) };

    ghost wait_lists = { λ m b line. monitor_lists (inner (S.opening m)) (buffer_sections (S.history m)) b line };

    ghost ActsFor = { λ m c. S.ActsFor m c × OpensFresh (S.opening m) };

    ghost room = { λ m. S.room m };

    ghost machine_id = { λ m. S.machine_id m };

    ghost IsFresh = { λ m homes c. (S.ActsFor m c × OpensFresh (S.opening m)) × S.IsOutside m c
        × (monitor_entries (inner (S.opening m)) (buffer_sections (S.history m)) ≡ [])
        × (moves_in (sleep_kernel monitor_rules (S.opening m)) (S.history m) ≡ [])
        × (homes_in (viewed monitor_shown (S.opening m)) ≡ homes) × IsSome (S.opening m (Pending c)) };

    ghost MayHold = { λ m c. S.MayHold m c };

    ghost cpu_of = { λ p. S.cpu_of p.lower };

    ghost is_inside = { λ p. S.is_inside p.lower };

    ghost under_way = { λ p. monitor_under p.calling (S.under_way p.lower) };

    ghost Coupled = { λ p m. S.Coupled p.lower m
        × MonitorFits (S.opening m) (S.local p.lower) p.call_states.call_states (S.under_way p.lower) p.calling };

    ghost IsWhole = { ⊥ };

    ghost IsStepwise = { ⊥ };

    ghost opening = { λ m. viewed monitor_shown (S.opening m) };

    ghost acts = { λ m. [] };

    ghost local = { λ p. monitor_own (S.local p.lower).threads p.call_states.call_states };

    fn part(cpu: CpuId, homes: &[CpuId], buffers: u8) -> Self {
        Monitor {
            lower: S::part(cpu, homes, buffers),
            call_states: CallStates::new(),
            calling: Ghost::of(&None),
            payload: Payload::new(),
        }
    }

    #[inline(always)]
    fn is_busy(&self) -> bool {
        self.lower.is_busy()
    }

    #[inline(always)]
    fn own_threads(&self) -> &OwnThreads {
        self.lower.own_threads()
    }

    #[inline(always)]
    fn effect(&self, t: Tid) -> Option<Effect> {
        self.call_states.effect(t)
    }

    #[inline(always)]
    fn effect_here(&self, t: Tid) -> &Option<Effect> {
        self.call_states.effect_here(t)
    }

    fn look(&mut self, _m: &mut S::Machine) -> bool {
        false
    }

    fn looks(&mut self, _m: &mut S::Machine, _taken: &mut usize, _most: usize) -> bool {
        false
    }

    fn poll_kind(&mut self, m: &mut S::Machine, t: Tid, call: &Call) -> Option<ReplyKind> {
        let stage = self.call_states.next_stage(t, call);
        let buffer = call.buffer();
        let edit = monitor_section(t, call, stage);
        let outcome = self
            .lower
            .poll(m, BufferCall { buffer, edit }, &mut self.payload);
        self.complete(t, call, &outcome)
    }

    fn pass(&mut self, m: &mut S::Machine, call: Pass) -> Option<()> {
        self.lower.pass(m, call, &mut self.payload)
    }

    ghost own_cpu = { λ p m coupled. (S.own_cpu p.lower m coupled.0, coupled.1.fresh) };

    ghost lawful = { λ m c acts. monitor_lawful (inner (S.opening m)) (caps_in (viewed monitor_shown (S.opening m))) (buffer_sections (S.history m)) acts.1 };

    ghost stands = { λ p m coupled. at_viewed monitor_shown (S.opening m) (λ homes. Stands homes (S.cpu_of p.lower)
        (moves_in (sleep_kernel monitor_rules (S.opening m)) (S.history m)) (S.local p.lower).threads) (S.stands p.lower m coupled.0).stands };

    ghost moves_legal = { λ m c acts. at_viewed monitor_shown (S.opening m)
        (λ homes. AreMoves homes (moves_in (sleep_kernel monitor_rules (S.opening m)) (S.history m))) (S.moves_legal m c acts.0) };

    ghost lists = { λ p m coupled. at_viewed monitor_shown (S.opening m) (λ homes. WaitListsAgree (length (caps_in (viewed monitor_shown (S.opening m)))) homes
        (moves_in (sleep_kernel monitor_rules (S.opening m)) (S.history m)) (monitor_lists (inner (S.opening m)) (buffer_sections (S.history m))))
        (monitor_wait_lists (S.opening m) (S.history m) coupled.1.fresh (S.stands p.lower m coupled.0).lists) };

    ghost starts = { λ m c acts. starts_viewed monitor_shown (S.opening m) (S.opens m c acts.0) };

    ghost legal = { λ m c acts. tt };

    ghost seen_is = { λ step m. absurd step };

    ghost moves_are = { λ step m c acts. absurd step };

    ghost busy = { λ p m coupled step. absurd step };

    ghost idle = { λ p m coupled none. S.idle p.lower m coupled.0
        (nothing_beneath (S.opening m) (S.local p.lower) p.call_states.call_states (S.under_way p.lower) p.calling coupled.1 none) };

    ghost opens = { λ step m homes c fresh. absurd step };
}

/// Returns what the buffer of a lock's block shows.
///
/// The lock of a monitor has no owner beside the CPU that holds it. A thread that owes a wake-up is
/// between two sections of one call: while there is none, no call is.
fn monitor_view(view: LockView<'_, MonitorBlock>) -> BufferView<'_>
    ensures { result ≡ buffer_of_monitor view.entry }
{
    BufferView {
        items: view.above.items(),
        closed: view.above.is_closed(),
        owner: view.above.debtor(),
        sleepers: view.sleepers,
        receivers: view.receivers,
        senders: view.senders,
    }
}

impl<S: OwnedThreadLayer<SleepLaw<MonitorEdit>>> OwnedBuffers for Monitor<S> {
    ghost use Rattle.{std.specs.Prelude.option_map, event_log.specs.{declared.ids.LockId.TheVariants.{Buffer, Pending}, Buffers.items_of, Runs.is_closed}};
    ghost use Rattle.layer_traits.specs.{Blocks.{BufferEffects.contents_of, QueueBlocks.inner}, Threads.Places.pending_by};
    ghost use Rattle.layer_traits.specs.{Layers.{Queues.{buffer_sections, moves_in}, SleepLaw.sleep_kernel}, Views.Renaming.{viewed, viewed_block}};
    ghost use Rattle.{layer_traits.proofs.OwnedLemmas.{parts_on, read_on, view_read}, fifo_buffer.specs.Monitors.monitor_rules};
    ghost use Rattle.fifo_buffer.specs.{MonitorHistories.{monitor_after, monitor_entries, monitor_lists}, MonitorParts.monitor_shown};
    ghost use Rattle.{fifo_buffer.specs.MonitorOwned.{debtor_in, monitor_buffer}, layer_traits.specs.Views.Owned.shows};
    ghost use Rattle.fifo_buffer.specs.Laws.MonitorOwned.{block_viewed_there, monitor_entries_known, monitor_read, monitor_there};

    ghost owner = { λ m b. debtor_in (monitor_after (inner (S.opening m)) (Buffer b) (buffer_sections (S.history m))) };

    ghost buffer_at = { λ m b. option_map monitor_buffer (S.block_at m b) };

    ghost buffer_with = { λ p b. option_map monitor_buffer (S.block_with p.lower b) };

    ghost queue_at = { λ m d. S.queue_at m d };

    ghost queue_with = { λ p d. S.queue_with p.lower d };

    fn buffer_in(m: &S::Machine, b: BufId) -> Option<BufferView<'_>> {
        Some(monitor_view(S::block_in(m, b)?))
    }

    fn buffer_here(&self, b: BufId) -> Option<BufferView<'_>> {
        Some(monitor_view(self.lower.block_here(b)?))
    }

    fn pends_in(m: &S::Machine, d: CpuId, t: Tid) -> Option<bool> {
        S::pends_in(m, d, t)
    }

    fn pends_here(&self, d: CpuId, t: Tid) -> Option<bool> {
        self.lower.pends_here(d, t)
    }

    ghost known = { λ m c acts. monitor_entries_known (inner (S.opening m)) (S.history m) (S.known m c acts.0) };

    ghost shown = { λ m c b acts within. view_read
        (parts_on (λ (p : Self). p.lower) (λ p. S.Coupled p m) (λ (p : Self). Self.Coupled p m) (λ p. S.cpu_of p) (S.MayHold m) (λ p coupled. coupled.0))
        monitor_buffer (monitor_after (inner (S.opening m)) (Buffer b) (buffer_sections (S.history m))) (λ p. S.block_with p b) (S.block_at m b)
        (shows (items_of (contents_of (caps_in (viewed monitor_shown (S.opening m)))
        (monitor_entries (inner (S.opening m)) (buffer_sections (S.history m)))) b.0)
        (is_closed (monitor_entries (inner (S.opening m)) (buffer_sections (S.history m))) b.0)
        (debtor_in (monitor_after (inner (S.opening m)) (Buffer b) (buffer_sections (S.history m))))
        (monitor_lists (inner (S.opening m)) (buffer_sections (S.history m)) b))
        (monitor_read (S.opening m) acts.1 b within (buffer_sections (S.history m)))
        (S.shown m c b acts.0 (monitor_there (S.opening m) acts.1 b within)) };

    ghost owner_is = { λ step m c b acts. absurd step };

    ghost items_are = { λ step m c b acts within. absurd step };

    ghost queues = { λ m c d acts there. read_on
        (parts_on (λ (p : Self). p.lower) (λ p. S.Coupled p m) (λ (p : Self). Self.Coupled p m) (λ p. S.cpu_of p) (S.MayHold m) (λ p coupled. coupled.0))
        (λ p. S.queue_with p d) (S.queue_at m d)
        (pending_by (moves_in (sleep_kernel monitor_rules (S.opening m)) (S.history m)) d)
        (S.queues m c d acts.0 (block_viewed_there (viewed_block monitor_shown) (S.opening m (Pending d)) there)) };

    ghost holding = { λ step m c held. absurd step };
}
