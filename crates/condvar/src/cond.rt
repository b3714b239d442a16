//! Conditions: one CPU's part of the layer.

use crate::calls::{caller_of, side_of};
use crate::waits::Waits;
use event_log::{BufId, CpuId, Tid};
use layer_traits::{
    BufferCall, CvEdit, CvLaw, CvLeave, CvReply, Guarded, LockView, Outcome, OwnThreads,
    OwnedThreadLayer, Pass, Payload, QLockCall, QLockLaw, QLockReply, ThreadLayer,
};

/// One CPU's part of queuing locks with Mesa conditions (Anderson and Dahlin), over a part `Q` of
/// queuing locks. It keeps for each thread the buffer at which it waits.
#[derive(Drop)]
pub struct Cond<Q> {
    lower: Q,
    waits: Waits,
}

impl<G: Guarded, Q: ThreadLayer<QLockLaw<CvEdit<G>>>> ThreadLayer<CvLaw<G>> for Cond<Q> {
    ghost use Rattle.condvar.specs.Waiting.{with_waits};

    type Machine = Q::Machine;

    ghost opening = { λ m. Q.opening m };

    ghost history = { λ m. Q.history m };

    ghost ActsFor = { λ m c. Q.ActsFor m c };

    ghost room = { λ m. Q.room m };

    ghost machine_id = { λ m. Q.machine_id m };

    ghost IsOutside = { λ m c. Q.IsOutside m c };

    ghost MayHold = { λ m c. Q.MayHold m c };

    ghost cpu_of = { λ p. Q.cpu_of p.lower };

    ghost local = { λ p. with_waits (Q.local p.lower) p.waits.buffers };

    ghost under_way = { λ p. Q.under_way p.lower };

    ghost is_inside = { λ p. Q.is_inside p.lower };

    ghost Coupled = { λ p m. Q.Coupled p.lower m };

    ghost IsStepwise = { Q.IsStepwise };

    ghost IsWhole = { Q.IsWhole };

    ghost acts = { λ m. Q.acts m };

    fn part(cpu: CpuId, homes: &[CpuId], buffers: u8) -> Self {
        Cond {
            lower: Q::part(cpu, homes, buffers),
            waits: Waits::new(),
        }
    }

    #[inline(always)]
    fn is_busy(&self) -> bool {
        self.lower.is_busy()
    }

    #[inline(always)]
    fn own_threads(&self) -> &OwnThreads {
        self.lower.own_threads()
    }

    #[inline(always)]
    fn at_once(&self) -> bool {
        self.lower.at_once()
    }

    #[inline(always)]
    fn look(&mut self, m: &mut Q::Machine) -> bool {
        self.lower.look(m)
    }

    #[inline(always)]
    fn spin(&self, m: &mut Q::Machine, steps: &[CpuId]) -> usize {
        self.lower.spin(m, steps)
    }

    #[inline(always)]
    fn poll(
        &mut self,
        m: &mut Q::Machine,
        call: BufferCall<QLockCall<CvEdit<G::Request>, CvLeave>>,
        payload: &mut Payload,
    ) -> Option<Outcome<QLockReply<CvReply<G::Response>>>> {
        let t = caller_of::<G>(&call.edit, &payload.message_slot);
        if self.waits.ends_wait(&call.edit, t) {
            return Some(Outcome {
                out: QLockReply::Released(CvReply::Waited(side_of::<G>(
                    &call.edit,
                    &payload.message_slot,
                ))),
                slept: false,
                woke: None,
            });
        }
        let buffer = call.buffer;
        let answer = self.lower.poll(m, call, payload);
        self.waits.complete(t, buffer, answer)
    }

    #[inline(always)]
    fn pass(&mut self, m: &mut Q::Machine, call: Pass, payload: &mut Payload) -> Option<()> {
        self.lower.pass(m, call, payload)
    }

    ghost own_cpu = { λ p m. Q.own_cpu p.lower m };

    ghost opens = { Q.opens };

    ghost lawful = { Q.lawful };

    ghost moves_legal = { Q.moves_legal };

    ghost known = { Q.known };

    ghost legal = { Q.legal };

    ghost seen_is = { Q.seen_is };

    ghost proper = { Q.proper };

    ghost busy = { λ p m. Q.busy p.lower m };

    ghost stands = { λ p m. Q.stands p.lower m };

    ghost inside = { λ p. tt };

    ghost idle = { λ p m. Q.idle p.lower m };
}

impl<G: Guarded, Q: OwnedThreadLayer<QLockLaw<CvEdit<G>>>> OwnedThreadLayer<CvLaw<G>> for Cond<Q> {
    ghost use Rattle.{std.specs.Prelude.{Some, refl}, event_log.specs.declared.ids.LockId.TheVariants.Buffer, layer_traits.specs.Layers.Conditions.cv_rules};
    ghost use Rattle.layer_traits.specs.{Layers.{QLockLaw.lock_kernel, QLocking.lock_after, Queues.{buffer_sections, moves_in}}, Threads.Places.pending_by};
    ghost use Rattle.layer_traits.{specs.Blocks.QueueBlocks.inner, proofs.OwnedLemmas.shown_under};

    ghost block_at = { λ m b. Q.block_at m b };

    ghost block_with = { λ p b. Q.block_with p.lower b };

    ghost queue_at = { λ m d. Q.queue_at m d };

    ghost queue_with = { λ p d. Q.queue_with p.lower d };

    #[inline(always)]
    fn block_in(m: &Q::Machine, b: BufId) -> Option<LockView<'_, G::Block>> {
        Q::block_in(m, b)
    }

    #[inline(always)]
    fn block_here(&self, b: BufId) -> Option<LockView<'_, G::Block>> {
        self.lower.block_here(b)
    }

    #[inline(always)]
    fn pends_in(m: &Q::Machine, d: CpuId, t: Tid) -> Option<bool> {
        Q::pends_in(m, d, t)
    }

    #[inline(always)]
    fn pends_here(&self, d: CpuId, t: Tid) -> Option<bool> {
        self.lower.pends_here(d, t)
    }

    ghost shown = { λ m c b acts there. shown_under (λ (p : Self). p.lower) (λ p. Q.Coupled p m) (λ (p : Self). Self.Coupled p m) (λ p. Q.cpu_of p)
        (λ (p : Self). Q.cpu_of p.lower)
        (Q.MayHold m) (Q.MayHold m)
        (λ p. Q.block_with p b) (Q.block_at m b)
        (lock_after (cv_rules G.monitor_rules) (inner (Q.opening m)) (Buffer b) (buffer_sections (Q.history m)))
        (λ p coupled. coupled) (λ p coupled. refl) (λ d inside. inside) (Q.shown m c b acts there) };

    ghost queues = { λ m c d acts there. shown_under (λ (p : Self). p.lower) (λ p. Q.Coupled p m) (λ (p : Self). Self.Coupled p m) (λ p. Q.cpu_of p)
        (λ (p : Self). Q.cpu_of p.lower)
        (Q.MayHold m) (Q.MayHold m)
        (λ p. Q.queue_with p d) (Q.queue_at m d)
        (Some (pending_by (moves_in (lock_kernel (cv_rules G.monitor_rules) (Q.opening m)) (Q.history m)) d))
        (λ p coupled. coupled) (λ p coupled. refl) (λ d inside. inside) (Q.queues m c d acts there) };

    ghost holding = { Q.holding };
}
