//! First-in first-out buffers: one CPU's part of the layer.

ghost use Rattle.std.specs.Prelude.{◌≡◌, ◌<◌, [], Bool, Some, None, IsSome, refl, slice_set, if◌then◌else◌};
ghost use Rattle.layer_traits.specs.Blocks.{Capacities.caps_in, BufferProtocol.buffer_rules, QueueBlocks.{homes_in, inner}, QueueRules.queue_rules};
ghost use Rattle.layer_traits.specs.Layers.{BufferLaw.{answer_in, buffer_of, buffering, going, stage_plan, replied, call_state_of}, QLocking.lock_moves};
ghost use Rattle.layer_traits.specs.{Layers.{QLocking.lock_rules, QLockLaw.{is_handed, slept_for}, Queues.buffer_sections}, Polling.Framed.Framed};
ghost use Rattle.{layer_traits.specs.Polling.Plans.{Follows, table_of}, event_log.specs.declared.ids.{LockId.TheVariants.Buffer, TheConstants.THREADS}};
ghost use Rattle.fifo_buffer.specs.{OwnedLaws.buffer_shown, SectionPolls.{MayPollSection, Sizes, SectionPolled, calling_after, is_at_once, reply_at}};

use crate::call_state_table::CallStates;
use crate::sections::{answers_at_once, reply, section};
use event_log::{BufId, CpuId, Tid};
use layer_traits::{
    BufferBlock, BufferCall, BufferEdit, BufferLaw, BufferView, Call, CallLayer, CvLaw, Effect,
    Ghost, LockView, OwnThreads, OwnedBuffers, OwnedThreadLayer, Pass, Payload, PollRun, ReplyKind,
    Stage, ThreadLayer,
};

/// What a poll of a section of a call did.
#[derive(Clone, Copy)]
struct SectionPoll {
    /// The section ended.
    ended: bool,
    /// If it did, the next section follows in the same poll.
    at_once: bool,
}

/// One CPU's part of first-in first-out blocking bounded buffers (Anderson and Dahlin), over a part
/// `C` of conditions. It keeps the stage of each thread's message call and, only for clauses, whose
/// call is under way. It owns the payload, in which its CPU's layers pass messages and taken
/// threads to each other.
#[derive(Drop)]
pub struct Fifo<C> {
    lower: C,
    call_states: CallStates,
    calling: Ghost<Option<Tid>>,
    payload: Payload,
}

impl<C: ThreadLayer<CvLaw<BufferEdit>>> Fifo<C> {
    /// Polls the section of `call` by `t` at this stage.
    #[inline(always)]
    fn poll_section(&mut self, m: &mut C::Machine, t: Tid, call: &Call, stage: Stage) -> SectionPoll
        requires known { t.0 < THREADS }
        requires stage { stage
            ≡ (going (call_state_of self.old.call_states.call_states t) call.now).stage }
        requires coupled { C.Coupled self.old.lower m.old }
        requires buffer { IsSome (C.opening m.old (Buffer (buffer_of call.now))) }
        requires room { 0 < C.room m.old }
        requires sizes { Sizes (C.local self.old.lower) self.old.call_states.call_states }
        requires may { MayPollSection (inner (C.opening m.old)) (buffer_sections (C.history m.old))
            t
            call.now
            (going (call_state_of self.old.call_states.call_states t) call.now)
            (C.local self.old.lower)
            (C.under_way self.old.lower) }
        ensures section_polled { SectionPolled (homes_in (C.opening m.old)) (λ c. C.ActsFor m.old c)
            (inner (C.opening m.old))
            (C.cpu_of self.old.lower) t call.now
            (going (call_state_of self.old.call_states.call_states t) call.now) (C.history m.old)
            (C.history m.new) (C.local self.old.lower) (C.local self.new.lower)
            (C.under_way self.new.lower) result.ended
            (call_state_of self.new.call_states.call_states t) }
        ensures at_once { result.at_once ≡ is_at_once stage
            (is_handed (C.local self.old.lower).lock.slept
            (C.local self.old.lower).lock.sleep.threads.current) }
        ensures call_states { self.new.call_states.call_states
            ≡ slice_set self.old.call_states.call_states t.0
            (call_state_of self.new.call_states.call_states t) }
        ensures calling { self.new.calling ≡ self.old.calling }
        ensures woken { IsSome (slept_for (C.local self.old.lower).waits t) → m.new ≡ m.old }
        ensures handed { IsSome (slept_for (C.local self.old.lower).lock.slept t) → m.new ≡ m.old }
        ensures framed { Framed (λ (p : C) k. C.Coupled p k) (λ p. C.cpu_of p) (λ k. C.opening k)
            (λ k. C.machine_id k) (λ k. C.room k)
            (λ k c. C.ActsFor k c) (λ k c. C.MayHold k c) self.old.lower self.new.lower m.old
            m.new }
        ensures follows { C.IsStepwise
            → Follows (C.ActsFor m.old)
            (table_of (queue_rules (lock_rules buffer_rules) (lock_moves buffer_rules)))
            (C.opening m.old)
            (C.cpu_of self.old.lower)
            (stage_plan (homes_in (C.opening m.old)) (C.cpu_of self.old.lower) t call.now
            (going (call_state_of self.old.call_states.call_states t) call.now).stage
            (going (call_state_of self.old.call_states.call_states t) call.now)
            (buffering (C.local self.old.lower) self.old.call_states.call_states))
            (C.acts m.old) (C.acts m.new)
            (record {
              local = buffering (C.local self.new.lower) self.new.call_states.call_states;
              answer =
                  if result.ended
                  then replied call.now
                  (going (call_state_of self.old.call_states.call_states t) call.now)
                  (going (call_state_of self.old.call_states.call_states t) call.now).stage
                  else None;
            }) }
    {
        let at_once = answers_at_once(stage, self.lower.at_once());
        let edit = section(t, call, stage, &mut self.payload.message_slot);
        let buffer = call.buffer();
        let answer = self
            .lower
            .poll(m, BufferCall { buffer, edit }, &mut self.payload);
        let ended = self
            .call_states
            .record_answer(t, call, stage, &answer, &self.payload.message_slot);
        SectionPoll { ended, at_once }
    }

    /// Completes a section poll of `call` at this stage, which ended its section or not. Returns
    /// the kind of the call's reply, if there is one, and keeps for clauses whether the call is
    /// still under way.
    fn complete(&mut self, t: Tid, call: &Call, stage: Stage, done: bool) -> Option<ReplyKind>
        requires known { t.0 < THREADS }
        ensures answer { answer_in self.old.call_states.call_states t result
            ≡ (if done then reply_at call.now stage
            (call_state_of self.old.call_states.call_states t).effect else None) }
        ensures calling { self.new.calling
            ≡ calling_after t (C.local self.old.lower).lock.sleep.threads.current
            (answer_in self.old.call_states.call_states t result) }
        ensures lower { self.new.lower ≡ self.old.lower }
        ensures call_states { self.new.call_states.call_states ≡ self.old.call_states.call_states }
    {
        let answer = if done {
            reply(call, stage, self.call_states.effect_here(t))
        } else {
            None
        };
        self.calling = Ghost::of(&match self.lower.current() {
            None => None,
            Some(_) => { if answer.is_none() { Some(t) } else { None } }
        });
        answer
    }
}

impl<C: ThreadLayer<CvLaw<BufferEdit>>> CallLayer<BufferLaw> for Fifo<C> {
    ghost use Rattle.{std.proofs.Common.ap, event_log.specs.declared.ids.LockId.TheVariants.{Buffer, Pending}, layer_traits.proofs.ActedLemmas.moves_read};
    ghost use Rattle.layer_traits.specs.Blocks.{BufferEffects.{effects_in, opening_locks}, BufferProtocol.buffer_monitor_rules, QueueBlocks.inner};
    ghost use Rattle.layer_traits.specs.Layers.{BufferLaw.buffering, Conditions.cv_rules, QLockLaw.lock_kernel, QLocking.{wait_list_in, lock_after}};
    ghost use Rattle.{layer_traits.specs.{Layers.Queues.{buffer_sections, moves_in}, Laws.Openings.opens_so}, fifo_buffer.specs.FifoFits.{BootsSo, PartFits}};
    ghost use Rattle.fifo_buffer.specs.{Laws.FifoLaws.{fifo_lawful, fifo_wait_lists, no_call_beneath}, SectionPolls.under_way_at};

    type Machine = C::Machine;

    ghost history = { λ m. effects_in (inner (C.opening m)) (buffer_sections (C.history m)) };

    ghost moves = { λ m. moves_in (lock_kernel (cv_rules buffer_monitor_rules) (C.opening m)) (C.history m) };

    ghost wait_lists = { λ m b line. wait_list_in line
        (lock_after (cv_rules buffer_monitor_rules) (inner (C.opening m)) (Buffer b) (buffer_sections (C.history m))) };

    ghost ActsFor = { λ m c. C.ActsFor m c × BootsSo (C.opening m) };

    ghost room = { λ m. C.room m };

    ghost machine_id = { λ m. C.machine_id m };

    ghost IsFresh = { λ m homes c. (C.ActsFor m c × BootsSo (C.opening m)) × C.IsOutside m c
        × (effects_in (inner (C.opening m)) (buffer_sections (C.history m)) ≡ [])
        × (moves_in (lock_kernel (cv_rules buffer_monitor_rules) (C.opening m)) (C.history m) ≡ [])
        × (homes_in (C.opening m) ≡ homes) × IsSome (C.opening m (Pending c))
        × (inner (C.opening m) ≡ opening_locks (caps_in (C.opening m))) };

    ghost MayHold = { λ m c. C.MayHold m c };

    ghost cpu_of = { λ p. C.cpu_of p.lower };

    ghost is_inside = { λ p. C.is_inside p.lower };

    ghost under_way = { λ p. under_way_at p.calling (C.under_way p.lower) };

    ghost Coupled = { λ p m. C.Coupled p.lower m
        × PartFits (C.opening m) (C.cpu_of p.lower) (C.history m) (C.local p.lower) p.call_states.call_states (C.under_way p.lower) p.calling };

    ghost IsWhole = { ⊥ };

    ghost IsStepwise = { C.IsStepwise };

    ghost opening = { λ m. C.opening m };

    ghost acts = { λ m. C.acts m };

    ghost local = { λ p. buffering (C.local p.lower) p.call_states.call_states };

    fn part(cpu: CpuId, homes: &[CpuId], buffers: u8) -> Self {
        Fifo {
            lower: C::part(cpu, homes, buffers),
            call_states: CallStates::new(),
            calling: Ghost::of(&None),
            payload: Payload::new(),
        }
    }

    #[inline(always)]
    fn is_busy(&self) -> bool {
        self.lower.is_busy()
    }

    #[inline(always)]
    fn own_threads(&self) -> &OwnThreads {
        self.lower.own_threads()
    }

    #[inline(always)]
    fn effect(&self, t: Tid) -> Option<Effect> {
        self.call_states.effect(t)
    }

    #[inline(always)]
    fn effect_here(&self, t: Tid) -> &Option<Effect> {
        self.call_states.effect_here(t)
    }

    #[inline(always)]
    fn look(&mut self, m: &mut C::Machine) -> bool {
        self.lower.look(m)
    }

    #[inline(always)]
    fn looks(&mut self, m: &mut C::Machine, taken: &mut usize, most: usize) -> bool {
        if self.look(m) {
            *taken += 1;
            if *taken == most {
                return true;
            }
            if self.look(m) {
                *taken += 1;
                return true;
            }
        }
        false
    }

    #[inline(always)]
    fn spin(&self, m: &mut C::Machine, steps: &[CpuId]) -> usize {
        self.lower.spin(m, steps)
    }

    fn poll_kind(&mut self, m: &mut C::Machine, t: Tid, call: &Call) -> Option<ReplyKind> {
        let mut first = true;
        'sections: loop {
            let stage = self.call_states.next_stage(t, call);
            // An arm for each stage, so that each contains only the section of its stage.
            let polled = match stage {
                Stage::Idle | Stage::Acquires => self.poll_section(m, t, call, Stage::Acquires),
                Stage::Enters => self.poll_section(m, t, call, Stage::Enters),
                Stage::Tries => self.poll_section(m, t, call, Stage::Tries),
                Stage::Waits => self.poll_section(m, t, call, Stage::Waits),
                Stage::AcquiresAgain => self.poll_section(m, t, call, Stage::AcquiresAgain),
                Stage::Signals => self.poll_section(m, t, call, Stage::Signals),
                Stage::SignalsOwn => self.poll_section(m, t, call, Stage::SignalsOwn),
                Stage::Releases => self.poll_section(m, t, call, Stage::Releases),
            };
            if first && polled.ended && polled.at_once {
                first = false;
                continue 'sections;
            }
            return self.complete(t, call, stage, polled.ended);
        }
    }

    #[inline(always)]
    fn poll_on(&mut self, m: &mut C::Machine, t: Tid, call: &Call, most: usize) -> PollRun {
        let had = self.call_states.has_taken(t, call);
        let mut actions = 0;
        loop {
            let reply = self.poll_kind(m, t, call);
            actions += 1;
            if actions == most || reply.is_some() || self.current().is_none() {
                return PollRun { actions, reply };
            }
            if self.call_states.effect_here(t).is_some() != had {
                return PollRun { actions, reply };
            }
            if self.looks(m, &mut actions, most) {
                return PollRun {
                    actions,
                    reply: None,
                };
            }
        }
    }

    #[inline(always)]
    fn pass(&mut self, m: &mut C::Machine, call: Pass) -> Option<()> {
        self.lower.pass(m, call, &mut self.payload)
    }

    ghost own_cpu = { λ p m coupled. (C.own_cpu p.lower m coupled.0, coupled.1.boots) };

    ghost lawful = { λ m c acts. fifo_lawful (C.opening m) (C.history m) acts.1 (C.lawful m c acts.0) };

    ghost stands = { λ p m coupled. (C.stands p.lower m coupled.0).stands };

    ghost moves_legal = { λ m c acts. C.moves_legal m c acts.0 };

    ghost lists = { λ p m coupled. fifo_wait_lists (C.opening m) (C.history m) coupled.1.boots (C.stands p.lower m coupled.0).lists };

    ghost starts = { λ m c acts. C.opens m c acts.0 };

    ghost legal = { λ m c acts. C.legal m c acts.0 };

    ghost seen_is = { λ step m. ap (λ history. effects_in (inner (C.opening m)) (buffer_sections history)) (C.seen_is step m) };

    ghost moves_are = { λ step m c acts. moves_read (C.opening m) (C.acts m) (C.opens m c acts.0) (C.proper step m c acts.0) (C.history m) (C.seen_is step m)
        (C.moves_legal m c acts.0) };

    ghost busy = { λ p m coupled. C.busy p.lower m coupled.0 };

    ghost idle = { λ p m coupled nothing. C.idle p.lower m coupled.0
        (no_call_beneath (C.opening m) (C.cpu_of p.lower) (C.history m) (C.local p.lower) p.call_states.call_states (C.under_way p.lower) p.calling
        coupled.1 nothing) };

    ghost opens = { λ step m homes c fresh. opens_so (caps_in (C.opening m)) homes c (C.opening m) (C.opens m c fresh.0.0) fresh.4 fresh.5 fresh.6 };
}

/// Returns what the buffer of a lock's block shows.
fn buffer_view(view: LockView<'_, BufferBlock>) -> BufferView<'_>
    ensures { result ≡ buffer_shown view.entry }
{
    BufferView {
        items: view.above.items(),
        closed: view.above.is_closed(),
        owner: view.owner,
        sleepers: view.sleepers,
        receivers: view.receivers,
        senders: view.senders,
    }
}

impl<C: OwnedThreadLayer<CvLaw<BufferEdit>>> OwnedBuffers for Fifo<C> {
    ghost use Rattle.{std.specs.Prelude.option_map, event_log.specs.{Buffers.items_of, Runs.is_closed}, layer_traits.proofs.ActedLemmas.owner_by_acts};
    ghost use Rattle.layer_traits.{proofs.OwnedLemmas.{parts_on, read_on, view_read}, specs.Blocks.BufferEffects.{contents_of, effects_in}};
    ghost use Rattle.layer_traits.specs.{Blocks.{BufferProtocol.buffer_monitor_rules, QueueBlocks.inner}, Layers.{Conditions.cv_rules, QLockLaw.lock_kernel}};
    ghost use Rattle.layer_traits.specs.{Layers.{QLocking.{wait_list_in, owner_in}, Queues.{buffer_sections, moves_in}}, Threads.Places.pending_by};
    ghost use Rattle.fifo_buffer.specs.Laws.OwnedLaws.{block_there, buffer_read, effects_known, items_acted};
    ghost use Rattle.{fifo_buffer.specs.OwnedLaws.buffer_lock_of, layer_traits.specs.Views.Owned.shows};

    ghost owner = { λ m b. owner_in (buffer_lock_of (C.opening m) (C.history m) b) };

    ghost buffer_at = { λ m b. option_map buffer_shown (C.block_at m b) };

    ghost buffer_with = { λ p b. option_map buffer_shown (C.block_with p.lower b) };

    ghost queue_at = { λ m d. C.queue_at m d };

    ghost queue_with = { λ p d. C.queue_with p.lower d };

    fn buffer_in(m: &C::Machine, b: BufId) -> Option<BufferView<'_>> {
        Some(buffer_view(C::block_in(m, b)?))
    }

    fn buffer_here(&self, b: BufId) -> Option<BufferView<'_>> {
        Some(buffer_view(self.lower.block_here(b)?))
    }

    #[inline(always)]
    fn pends_in(m: &C::Machine, d: CpuId, t: Tid) -> Option<bool> {
        C::pends_in(m, d, t)
    }

    #[inline(always)]
    fn pends_here(&self, d: CpuId, t: Tid) -> Option<bool> {
        self.lower.pends_here(d, t)
    }

    ghost known = { λ m c acts. effects_known (inner (C.opening m)) (C.history m) (C.known m c acts.0) };

    ghost shown = { λ m c b acts within. view_read
        (parts_on (λ (p : Self). p.lower) (λ p. C.Coupled p m) (λ (p : Self). Self.Coupled p m) (λ p. C.cpu_of p) (C.MayHold m) (λ p coupled. coupled.0))
        buffer_shown (buffer_lock_of (C.opening m) (C.history m) b) (λ p. C.block_with p b) (C.block_at m b)
        (shows (items_of (contents_of (caps_in (C.opening m)) (effects_in (inner (C.opening m)) (buffer_sections (C.history m)))) b.0)
        (is_closed (effects_in (inner (C.opening m)) (buffer_sections (C.history m))) b.0)
        (owner_in (buffer_lock_of (C.opening m) (C.history m) b)) (λ line. wait_list_in line (buffer_lock_of (C.opening m) (C.history m) b)))
        (buffer_read (C.opening m) acts.1 b within (C.history m) (C.lawful m c acts.0))
        (C.shown m c b acts.0 (block_there (C.opening m) acts.1 b within)) };

    ghost owner_is = { λ step m c b acts. owner_by_acts (C.opening m) (C.acts m) (C.opens m c acts.0) (C.proper step m c acts.0) (C.history m)
        (C.seen_is step m) b };

    ghost items_are = { λ step m c b acts within. items_acted (C.opening m) acts.1 b within (C.history m) (C.acts m) (C.opens m c acts.0)
        (C.proper step m c acts.0) (C.seen_is step m) (C.lawful m c acts.0) };

    ghost queues = { λ m c d acts there. read_on
        (parts_on (λ (p : Self). p.lower) (λ p. C.Coupled p m) (λ (p : Self). Self.Coupled p m) (λ p. C.cpu_of p) (C.MayHold m) (λ p coupled. coupled.0))
        (λ p. C.queue_with p d) (C.queue_at m d) (pending_by (moves_in (lock_kernel (cv_rules buffer_monitor_rules) (C.opening m)) (C.history m)) d)
        (C.queues m c d acts.0 there) };

    ghost holding = { C.holding };
}
