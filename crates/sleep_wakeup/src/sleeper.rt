//! The layer of sections that put threads to sleep and wake them.

ghost use Rattle.std.specs.Prelude.{◌≡◌, ◌<◌, IsSome, OnSome};
ghost use Rattle.layer_traits.specs.{declared.passes.Pass.TheVariants.MakeReady, Polling.{Framed.Framed, Plans.{Follows, table_of}, Polls.until_answered}};
ghost use Rattle.layer_traits.specs.Blocks.{Payloads.{abstract_sched_answer, abstract_result}, QueueBlocks.homes_in, QueueRules.queue_rules};
ghost use Rattle.{layer_traits.specs.Layers.{Scheds.{MaySched, SchedPolled, sched_plan}, Queues.kernel}, sleep_wakeup.specs.Nested.nested_moves};
ghost use Rattle.sleep_wakeup.specs.Nested.{nested_rules, abstract_nested_answer};
ghost use Rattle.layer_traits.specs.declared.scheds.SchedCall.TheVariants as call;

use crate::deferred::{DeferredOutcome, complete, complete_home, done, kept_edit, section};
use crate::edits::{SleepEdit, view_of};
use event_log::{BufId, CpuId, Tid};
use layer_traits::{
    BufferCall, Layer, LockView, Outcome, OwnThreads, OwnedLayer, OwnedThreadLayer, Pass, Payload,
    SchedAnswer, SchedCall, SchedLaw, SleepLaw, Sleeps, ThreadLayer,
};

/// One CPU's part of sleep and wakeup over a part of a scheduler (Gu et al., PLDI 2018). The
/// scheduler moves the threads, and the edits maintain the waiting lists. A thread joins or leaves
/// a list in the same section that puts it to sleep or wakes it.
#[derive(Drop)]
pub struct Sleeper<E: Sleeps, S> {
    lower: S,
    deferred: Option<DeferredOutcome<E, E::Response>>,
}

/// Polls the scheduler for the pass that forwards the thread in its hand to that thread's home CPU.
/// It is not inlined, since few sections wake a thread of another CPU. A poll that contains two
/// polls of all lower layers is too large to be inlined into its caller.
#[inline(never)]
fn send_home<E: Sleeps, S: Layer<SchedLaw<SleepEdit<E>>>>(
    lower: &mut S,
    m: &mut S::Machine,
    t: Tid,
    payload: &mut Payload,
) -> Option<SchedAnswer<Outcome<E::Response>>>
    requires coupled { S.Coupled lower.old m.old }
    requires room { 0 < S.room m.old }
    requires call { MaySched
        (kernel (nested_rules E.protocol) (nested_moves E.protocol) (S.opening m.old))
        (S.cpu_of lower.old) (S.history m.old) (S.local lower.old)
        (S.under_way lower.old) (call.Pass (MakeReady t)) }
    ensures call { S.under_way lower.new ≡ until_answered result (call.Pass (MakeReady t)) }
    ensures prompt { S.IsWhole → IsSome result }
    ensures history { SchedPolled
        (kernel (nested_rules E.protocol) (nested_moves E.protocol) (S.opening m.old))
        (S.ActsFor m.old)
        (S.cpu_of lower.old)
        (call.Pass (MakeReady t))
        (abstract_result (abstract_sched_answer (abstract_nested_answer E.abstract_answer)) result
        payload.new) (S.history m.old) (S.history m.new)
        (S.local lower.old) (S.local lower.new) }
    ensures framed { Framed S.Coupled S.cpu_of S.opening S.machine_id S.room S.ActsFor S.MayHold
        lower.old
        lower.new m.old m.new }
    ensures outside { OnSome result (S.IsOutside m.new (S.cpu_of lower.old)) }
    ensures follows { S.IsStepwise
        → Follows (S.ActsFor m.old)
        (table_of (queue_rules (nested_rules E.protocol) (nested_moves E.protocol)))
        (S.opening m.old)
        (S.cpu_of lower.old)
        (sched_plan (nested_moves E.protocol) (homes_in (S.opening m.old)) (S.cpu_of lower.old)
        (call.Pass (MakeReady t)) (S.local lower.old))
        (S.acts m.old) (S.acts m.new)
        (record {
          local = S.local lower.new;
          answer =
              abstract_result (abstract_sched_answer (abstract_nested_answer E.abstract_answer))
              result
              payload.new;
        }) }
{
    lower.poll(m, SchedCall::Pass(Pass::MakeReady(t)), payload)
}

impl<E: Sleeps, S: Layer<SchedLaw<SleepEdit<E>>>> ThreadLayer<SleepLaw<E>> for Sleeper<E, S> {
    ghost use Rattle.std.proofs.Common.{map, option_map, ap, ◌∙◌};
    ghost use Rattle.{event_log.{specs.Actions.renamed, proofs.Renaming.legal_renamed}, layer_traits.specs.Blocks.QueueBlocks.inner};
    ghost use Rattle.layer_traits.specs.{Views.Renaming.{renamed_edit, renamed_events, viewed}, Layers.Sleeping.NoSleepers};
    ghost use Rattle.layer_traits.proofs.KernelRenaming.{known_renamed, proper_renamed, seen_renamed, starts_viewed};
    ghost use Rattle.sleep_wakeup.specs.Laws.NestedLaws.{nested_busy, nested_idle, nested_lawful, nested_lists, nested_moves_legal, nested_stands};
    ghost use Rattle.sleep_wakeup.specs.{Nested.{slept_edit, state_of, states}, Parts.{SectionDeferredFits, abstract_deferred, own_of, under_of}};

    type Machine = S::Machine;

    ghost opening = { λ m. viewed state_of (S.opening m) };

    ghost history = { λ m. renamed_events slept_edit (S.history m) };

    ghost ActsFor = { λ m c. S.ActsFor m c };

    ghost room = { λ m. S.room m };

    ghost machine_id = { λ m. S.machine_id m };

    ghost IsOutside = { λ m c. S.IsOutside m c };

    ghost MayHold = { λ m c. S.MayHold m c };

    ghost cpu_of = { λ p. S.cpu_of p.lower };

    ghost local = { λ p. own_of (option_map (abstract_deferred E.abstract_answer) p.deferred) (S.local p.lower) };

    ghost under_way = { λ p. under_of (option_map (abstract_deferred E.abstract_answer) p.deferred) (S.under_way p.lower) };

    ghost is_inside = { λ p. S.is_inside p.lower };

    ghost Coupled = { λ p m. S.Coupled p.lower m × NoSleepers (states (inner (S.opening m)))
        × SectionDeferredFits (option_map (abstract_deferred E.abstract_answer) p.deferred) (S.under_way p.lower) (S.local p.lower).hand };

    ghost IsStepwise = { S.IsStepwise };

    ghost IsWhole = { S.IsWhole };

    ghost acts = { λ m. map (renamed (renamed_edit slept_edit)) (S.acts m) };

    fn part(cpu: CpuId, homes: &[CpuId], buffers: u8) -> Self {
        Sleeper {
            lower: S::part(cpu, homes, buffers),
            deferred: None,
        }
    }

    #[inline(always)]
    fn is_busy(&self) -> bool {
        self.lower.is_busy()
    }

    #[inline(always)]
    fn own_threads(&self) -> &OwnThreads {
        self.lower.local_here()
    }

    #[inline(always)]
    fn at_once(&self) -> bool {
        false
    }

    #[inline(always)]
    fn look(&mut self, m: &mut S::Machine) -> bool {
        self.lower.look(m)
    }

    #[inline(always)]
    fn spin(&self, m: &mut S::Machine, steps: &[CpuId]) -> usize {
        self.lower.spin(m, steps)
    }

    #[inline(always)]
    fn poll(
        &mut self,
        m: &mut S::Machine,
        call: BufferCall<E::Request>,
        payload: &mut Payload,
    ) -> Option<Outcome<E::Response>> {
        let BufferCall { buffer, edit } = call;
        let kept = kept_edit::<E>(&edit, payload);
        match self.lower.local_here().hand() {
            None => match self.lower.poll(m, section(buffer, edit), payload) {
                None => None,
                Some(answer) => {
                    let hand = self.lower.local_here().hand();
                    complete(&mut self.deferred, hand, buffer, kept, answer, payload)
                }
            },
            Some(t) => match send_home::<E, S>(&mut self.lower, m, t, payload) {
                None => None,
                Some(answer) => {
                    let hand = self.lower.local_here().hand();
                    complete_home(&mut self.deferred, hand, buffer, kept, answer, payload)
                }
            },
        }
    }

    #[inline(always)]
    fn pass(&mut self, m: &mut S::Machine, call: Pass, payload: &mut Payload) -> Option<()> {
        let answer = self.lower.poll(m, SchedCall::Pass(call), payload);
        done(answer)
    }

    ghost own_cpu = { λ p m coupled. S.own_cpu p.lower m coupled.0 };

    ghost stands = { λ p m coupled. record {
      stands = nested_stands E.protocol (S.opening m) (S.cpu_of p.lower) (S.history m) (S.local p.lower) (S.stands p.lower m coupled.0);
      lists = nested_lists E.protocol (S.opening m) (S.history m) (S.lawful m (S.cpu_of p.lower) (S.own_cpu p.lower m coupled.0)) coupled.1;
    } };

    ghost inside = { λ p. tt };

    ghost opens = { λ m c acts. starts_viewed state_of (S.opening m) (S.opens m c acts) };

    ghost lawful = { λ m c acts. nested_lawful E.protocol (S.opening m) (S.history m) (S.lawful m c acts) };

    ghost moves_legal = { λ m c acts. nested_moves_legal E.protocol (S.opening m) (S.history m) (S.lawful m c acts) };

    ghost known = { λ m c acts. known_renamed slept_edit (S.history m) (S.known m c acts) };

    ghost legal = { λ m c acts. legal_renamed (renamed_edit slept_edit) (S.acts m) (S.legal m c acts) };

    ghost seen_is = { λ step m. ap (renamed_events slept_edit) (S.seen_is step m) ∙ seen_renamed slept_edit (S.acts m) };

    ghost proper = { λ step m c acts. proper_renamed slept_edit (S.acts m) (S.proper step m c acts) };

    ghost busy = { λ p m coupled step. nested_busy (S.cpu_of p.lower) (S.acts m) (S.is_inside p.lower) (S.busy p.lower m coupled.0 step) };

    ghost idle = { λ p m coupled none. S.idle p.lower m coupled.0
        (nested_idle (option_map (abstract_deferred E.abstract_answer) p.deferred) (S.under_way p.lower) none) };
}

impl<E: Sleeps, S: OwnedLayer<SchedLaw<SleepEdit<E>>>> OwnedThreadLayer<SleepLaw<E>>
    for Sleeper<E, S> {
    ghost use Rattle.{std.{proofs.Common.sym, specs.Prelude.{true, option_map}}, event_log.specs.declared.ids.LockId.TheVariants.{Buffer, Pending}};
    ghost use Rattle.{layer_traits.proofs.{KernelRenaming.there_viewed, OwnedLemmas.parts_on}, sleep_wakeup.specs.Laws.NestedLaws.nested_busy};
    ghost use Rattle.sleep_wakeup.specs.{Laws.OwnedLaws.{nested_queues, nested_shown}, Nested.state_of};

    ghost block_at = { λ m b. option_map state_of (S.block_at m b) };

    ghost block_with = { λ p b. option_map state_of (S.block_with p.lower b) };

    ghost queue_at = { λ m d. S.queue_at m d };

    ghost queue_with = { λ p d. S.queue_with p.lower d };

    fn block_in(m: &S::Machine, b: BufId) -> Option<LockView<'_, E::Block>> {
        Some(view_of(S::block_in(m, b)?))
    }

    fn block_here(&self, b: BufId) -> Option<LockView<'_, E::Block>> {
        Some(view_of(self.lower.block_here(b)?))
    }

    #[inline(always)]
    fn pends_in(m: &S::Machine, d: CpuId, t: Tid) -> Option<bool> {
        S::pends_in(m, d, t)
    }

    #[inline(always)]
    fn pends_here(&self, d: CpuId, t: Tid) -> Option<bool> {
        self.lower.pends_here(d, t)
    }

    ghost shown = { λ m c b acts there. nested_shown E.protocol (S.opening m) (S.history m)
        (parts_on (λ (p : Self). p.lower) (λ p. S.Coupled p m) (λ (p : Self). Self.Coupled p m) (λ p. S.cpu_of p) (S.MayHold m) (λ p coupled. coupled.0))
        b (λ p. S.block_with p b) (S.block_at m b)
        (S.shown m c b acts (there_viewed state_of (S.opening m) (Buffer b) there)) };

    ghost queues = { λ m c d acts there. nested_queues E.protocol (S.opening m) (S.history m)
        (parts_on (λ (p : Self). p.lower) (λ p. S.Coupled p m) (λ (p : Self). Self.Coupled p m) (λ p. S.cpu_of p) (S.MayHold m) (λ p coupled. coupled.0))
        d (λ p. S.queue_with p d) (S.queue_at m d)
        (S.queues m c d acts (there_viewed state_of (S.opening m) (Pending d) there)) };

    ghost holding = { λ step m c held. sym (nested_busy c (S.acts m) true (sym (S.holding step m c held))) };
}
