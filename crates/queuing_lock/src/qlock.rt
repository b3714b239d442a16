//! Queuing locks.

ghost use Rattle.std.specs.Prelude.{◌≡◌};
ghost use Rattle.queuing_lock.specs.Nested.{lock_of_view};

use crate::edits::{QLockBlock, QLockSection};
use crate::slept::Slept;
use event_log::{BufId, CpuId, Tid};
use layer_traits::{
    BufferCall, LockView, Locked, Outcome, OwnThreads, OwnedThreadLayer, Pass, Payload, QLockCall,
    QLockLaw, QLockReply, SleepLaw, Sleeps, ThreadLayer,
};

/// One CPU's part of queuing locks over a part `S` of a layer that lets threads sleep. For each
/// thread it records the buffer for whose lock the thread slept.
#[derive(Drop)]
pub struct QLock<S> {
    lower: S,
    slept: Slept,
}

impl<F: Locked, S: ThreadLayer<SleepLaw<QLockSection<F, F::Release>>>> ThreadLayer<QLockLaw<F>>
    for QLock<S> {
    ghost use Rattle.std.proofs.Common.{map, option_map, ap, ◌∙◌};
    ghost use Rattle.{event_log.{specs.Actions.renamed, proofs.Renaming.legal_renamed}, layer_traits.specs.Views.Renaming.{renamed_edit, renamed_events}};
    ghost use Rattle.layer_traits.{specs.Views.Renaming.{renamed_sched, viewed}, proofs.KernelRenaming.{known_renamed, proper_renamed, seen_renamed}};
    ghost use Rattle.{layer_traits.proofs.KernelRenaming.starts_viewed, queuing_lock.specs.Laws.NestedLaws.{locks_busy, locks_lawful, locks_lists}};
    ghost use Rattle.queuing_lock.specs.{Laws.NestedLaws.{locks_moves_legal, locks_stand, none_beneath}, Nested.{lock_call, nested_lock_of}};
    ghost use Rattle.queuing_lock.specs.Parts.{DeferredFits, SleptFits};

    type Machine = S::Machine;

    ghost opening = { λ m. viewed nested_lock_of (S.opening m) };

    ghost history = { λ m. renamed_events lock_call (S.history m) };

    ghost ActsFor = { λ m c. S.ActsFor m c };

    ghost room = { λ m. S.room m };

    ghost machine_id = { λ m. S.machine_id m };

    ghost IsOutside = { λ m c. S.IsOutside m c };

    ghost MayHold = { λ m c. S.MayHold m c };

    ghost cpu_of = { λ p. S.cpu_of p.lower };

    ghost local = { λ p. record { sleep = S.local p.lower; slept = p.slept.buffers } };

    ghost under_way = { λ p. option_map (renamed_sched lock_call) (S.under_way p.lower) };

    ghost is_inside = { λ p. S.is_inside p.lower };

    ghost Coupled = { λ p m. S.Coupled p.lower m
        × SleptFits F.protocol (viewed nested_lock_of (S.opening m)) (S.cpu_of p.lower) (renamed_events lock_call (S.history m)) p.slept.buffers
        × DeferredFits (option_map (renamed_sched lock_call) (S.under_way p.lower)) (S.local p.lower).deferred (S.local p.lower).threads.hand };

    ghost IsStepwise = { S.IsStepwise };

    ghost IsWhole = { S.IsWhole };

    ghost acts = { λ m. map (renamed (renamed_edit lock_call)) (S.acts m) };

    fn part(cpu: CpuId, homes: &[CpuId], buffers: u8) -> Self {
        QLock {
            lower: S::part(cpu, homes, buffers),
            slept: Slept::new(),
        }
    }

    #[inline(always)]
    fn is_busy(&self) -> bool {
        self.lower.is_busy()
    }

    #[inline(always)]
    fn own_threads(&self) -> &OwnThreads {
        self.lower.own_threads()
    }

    #[inline(always)]
    fn at_once(&self) -> bool {
        match self.lower.current() {
            Some(t) => self.slept.has(t),
            None => false,
        }
    }

    #[inline(always)]
    fn look(&mut self, m: &mut S::Machine) -> bool {
        self.lower.look(m)
    }

    #[inline(always)]
    fn spin(&self, m: &mut S::Machine, steps: &[CpuId]) -> usize {
        self.lower.spin(m, steps)
    }

    #[inline(always)]
    fn poll(
        &mut self,
        m: &mut S::Machine,
        call: BufferCall<QLockCall<F::Request, F::Release>>,
        payload: &mut Payload,
    ) -> Option<Outcome<QLockReply<F::Response>>> {
        let BufferCall { buffer, edit } = call;
        let edit = QLockSection { edit };
        let t = <QLockSection<F, F::Release> as Sleeps>::caller(&edit);
        if self.slept.asks_again(&edit.edit) {
            self.slept.over(t);
            return Some(Outcome {
                out: QLockReply::Acquired,
                slept: false,
                woke: None,
            });
        }
        match self.lower.poll(m, BufferCall { buffer, edit }, payload) {
            None => None,
            Some(outcome) => self.slept.complete(t, buffer, outcome),
        }
    }

    #[inline(always)]
    fn pass(&mut self, m: &mut S::Machine, call: Pass, payload: &mut Payload) -> Option<()> {
        self.lower.pass(m, call, payload)
    }

    ghost own_cpu = { λ p m coupled. S.own_cpu p.lower m coupled.0 };

    ghost stands = { λ p m coupled. record {
      stands = locks_stand F.protocol (S.opening m) (S.cpu_of p.lower) (S.history m) (S.local p.lower).threads (S.stands p.lower m coupled.0).stands;
      lists = locks_lists F.protocol (S.opening m) (S.history m) (S.stands p.lower m coupled.0).lists;
      awaits = λ t b slept. (coupled.1 t b slept).awaits;
    } };

    ghost inside = { λ p. tt };

    ghost opens = { λ m c acts. starts_viewed nested_lock_of (S.opening m) (S.opens m c acts) };

    ghost lawful = { λ m c acts. locks_lawful F.protocol (S.opening m) (S.history m) (S.lawful m c acts) };

    ghost moves_legal = { λ m c acts. locks_moves_legal F.protocol (S.opening m) (S.history m) (S.moves_legal m c acts) };

    ghost known = { λ m c acts. known_renamed lock_call (S.history m) (S.known m c acts) };

    ghost legal = { λ m c acts. legal_renamed (renamed_edit lock_call) (S.acts m) (S.legal m c acts) };

    ghost seen_is = { λ step m. ap (renamed_events lock_call) (S.seen_is step m) ∙ seen_renamed lock_call (S.acts m) };

    ghost proper = { λ step m c acts. proper_renamed lock_call (S.acts m) (S.proper step m c acts) };

    ghost busy = { λ p m coupled step. locks_busy (S.cpu_of p.lower) (S.acts m) (S.is_inside p.lower) (S.busy p.lower m coupled.0 step) };

    ghost idle = { λ p m coupled none. S.idle p.lower m coupled.0 (none_beneath (S.under_way p.lower) none) };
}

/// Returns what a block with a busy word shows to the layers above: its owner is the thread in that
/// word.
fn owned<B>(view: LockView<'_, QLockBlock<B>>) -> LockView<'_, B>
    ensures { result ≡ lock_of_view view.entry }
{
    LockView {
        owner: view.above.busy,
        sleepers: view.sleepers,
        receivers: view.receivers,
        senders: view.senders,
        above: &view.above.above,
    }
}

impl<F: Locked, S: OwnedThreadLayer<SleepLaw<QLockSection<F, F::Release>>>> OwnedThreadLayer<
    QLockLaw<F>,
> for QLock<S> {
    ghost use Rattle.{std.{proofs.Common.sym, specs.Prelude.{true, option_map}}, event_log.specs.declared.ids.LockId.TheVariants.{Buffer, Pending}};
    ghost use Rattle.{layer_traits.proofs.{KernelRenaming.there_viewed, OwnedLemmas.parts_on}, queuing_lock.specs.Laws.NestedLaws.locks_busy};
    ghost use Rattle.queuing_lock.specs.{Laws.OwnedLaws.{locks_queues, locks_shown}, Nested.nested_lock_of};

    ghost block_at = { λ m b. option_map nested_lock_of (S.block_at m b) };

    ghost block_with = { λ p b. option_map nested_lock_of (S.block_with p.lower b) };

    ghost queue_at = { λ m d. S.queue_at m d };

    ghost queue_with = { λ p d. S.queue_with p.lower d };

    fn block_in(m: &S::Machine, b: BufId) -> Option<LockView<'_, F::Block>> {
        Some(owned(S::block_in(m, b)?))
    }

    fn block_here(&self, b: BufId) -> Option<LockView<'_, F::Block>> {
        Some(owned(self.lower.block_here(b)?))
    }

    #[inline(always)]
    fn pends_in(m: &S::Machine, d: CpuId, t: Tid) -> Option<bool> {
        S::pends_in(m, d, t)
    }

    #[inline(always)]
    fn pends_here(&self, d: CpuId, t: Tid) -> Option<bool> {
        self.lower.pends_here(d, t)
    }

    ghost shown = { λ m c b acts there. locks_shown F.protocol (S.opening m) (S.history m)
        (parts_on (λ (p : Self). p.lower) (λ p. S.Coupled p m) (λ (p : Self). Self.Coupled p m) (λ p. S.cpu_of p) (S.MayHold m) (λ p coupled. coupled.0))
        b (λ p. S.block_with p b) (S.block_at m b)
        (S.shown m c b acts (there_viewed nested_lock_of (S.opening m) (Buffer b) there)) };

    ghost queues = { λ m c d acts there. locks_queues F.protocol (S.opening m) (S.history m)
        (parts_on (λ (p : Self). p.lower) (λ p. S.Coupled p m) (λ (p : Self). Self.Coupled p m) (λ p. S.cpu_of p) (S.MayHold m) (λ p coupled. coupled.0))
        d (λ p. S.queue_with p d) (S.queue_at m d)
        (S.queues m c d acts (there_viewed nested_lock_of (S.opening m) (Pending d) there)) };

    ghost holding = { λ step m c held. sym (locks_busy c (S.acts m) true (sym (S.holding step m c held))) };
}
