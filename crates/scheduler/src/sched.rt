//! The scheduler.
//!
//! No call is given an allocator, and none waits.

use crate::calls::call_beneath;
use crate::owns::{pass_locally, take_answer, threads_at_boot};
use arrayvec::ArrayVec;
use event_log::{BufId, CpuId, THREADS, Tid};
use layer_traits::{
    Layer, Moves, OwnThreads, OwnedLayer, Payload, QueueLaw, SchedAnswer, SchedCall, SchedLaw,
    kept_homes,
};

/// One CPU's part of a scheduler over shared queues: it performs its CPU's calls one by one, and
/// has the CPU's private scheduling state. A thread that it wakes is ready at once if this CPU is
/// its home. Otherwise the thread is in the hand (in-transit slot) until it is pushed into its
/// home's pending queue, the remote wake-up queue (Gu et al., PLDI 2018).
#[derive(Drop)]
pub struct Sched<Q> {
    lower: Q,
    cpu: CpuId,
    homes: ArrayVec<CpuId, THREADS>,
    local: OwnThreads,
}

impl<E: Moves, Q: Layer<QueueLaw<E>>> Layer<SchedLaw<E>> for Sched<Q> {
    ghost use Rattle.std.proofs.Common.{◌∙◌, subst, sym};
    ghost use Rattle.scheduler.specs.{Laws.Parts.{busy_under, none_under, under_is_some}, Parts.{SchedPartFits, sched_under}};

    type Machine = Q::Machine;

    ghost opening = { λ m. Q.opening m };

    ghost history = { λ m. Q.history m };

    ghost ActsFor = { λ m c. Q.ActsFor m c };

    ghost room = { λ m. Q.room m };

    ghost machine_id = { λ m. Q.machine_id m };

    ghost IsOutside = { λ m c. Q.IsOutside m c };

    ghost MayHold = { λ m c. Q.MayHold m c };

    ghost cpu_of = { λ p. p.cpu };

    ghost local = { λ p. p.local };

    ghost under_way = { λ p. sched_under (Q.under_way p.lower) p.local.current };

    ghost is_inside = { λ p. Q.is_inside p.lower };

    ghost Coupled = { λ p m. Q.Coupled p.lower m × SchedPartFits E.protocol E.moves (Q.opening m) p.cpu (Q.cpu_of p.lower) p.homes.items (Q.under_way p.lower)
        (Q.history m) p.local };

    ghost IsStepwise = { Q.IsStepwise };

    ghost IsWhole = { Q.IsWhole };

    ghost acts = { λ m. Q.acts m };

    fn part(cpu: CpuId, homes: &[CpuId], buffers: u8) -> Self {
        Sched {
            lower: Q::part(cpu, homes, buffers),
            cpu,
            homes: kept_homes(homes),
            local: threads_at_boot(homes, cpu),
        }
    }

    #[inline(always)]
    fn is_busy(&self) -> bool {
        self.lower.is_busy()
    }

    #[inline(always)]
    fn local_here(&self) -> &OwnThreads {
        &self.local
    }

    #[inline(always)]
    fn look(&mut self, m: &mut Q::Machine) -> bool {
        self.lower.look(m)
    }

    #[inline(always)]
    fn spin(&self, m: &mut Q::Machine, steps: &[CpuId]) -> usize {
        self.lower.spin(m, steps)
    }

    #[inline(always)]
    fn poll(
        &mut self,
        m: &mut Q::Machine,
        call: SchedCall<E::Request>,
        payload: &mut Payload,
    ) -> Option<SchedAnswer<E::Response>> {
        let homes = self.homes.as_slice();
        match call_beneath::<E>(homes, self.cpu, call) {
            Err(pass) => {
                pass_locally(&mut self.local, pass);
                Some(SchedAnswer::Done)
            }
            Ok(step) => match self.lower.poll(m, step, payload) {
                None => None,
                Some(answer) => {
                    let local = &mut self.local;
                    Some(take_answer::<E>(local, homes, self.cpu, answer, payload))
                }
            },
        }
    }

    ghost own_cpu = { λ p m coupled. subst (λ c. Q.ActsFor m c) coupled.1.cpu (Q.own_cpu p.lower m coupled.0) };

    ghost moves_legal = { λ m c acts. tt };

    ghost opens = { λ m c acts. Q.opens m c acts };

    ghost lawful = { λ m c acts. Q.lawful m c acts };

    ghost known = { λ m c acts. Q.known m c acts };

    ghost legal = { λ m c acts. Q.legal m c acts };

    ghost seen_is = { λ step m. Q.seen_is step m };

    ghost proper = { λ step m c acts. Q.proper step m c acts };

    ghost busy = { λ p m coupled step. busy_under (Q.acts m) (Q.is_inside p.lower) p.cpu (Q.cpu_of p.lower) coupled.1.cpu (Q.busy p.lower m coupled.0 step) };

    ghost stands = { λ p m coupled. coupled.1.stands };

    ghost inside = { λ p. Q.inside p.lower ∙ sym (under_is_some (Q.under_way p.lower) p.local.current) };

    ghost idle = { λ p m coupled none. Q.idle p.lower m coupled.0 (none_under (Q.under_way p.lower) p.local.current none) };
}

impl<E: Moves, Q: OwnedLayer<QueueLaw<E>>> OwnedLayer<SchedLaw<E>> for Sched<Q> {
    ghost use Rattle.layer_traits.{proofs.OwnedLemmas.shown_under, specs.{Threads.Places.pending_by, Blocks.QueueBlocks.inner, Layers.Queues.buffer_sections}};
    ghost use Rattle.{layer_traits.specs.Layers.Queues.{kernel, moves_in}, std.specs.Prelude.Some, event_log.specs.Sections.block_after};
    ghost use Rattle.event_log.specs.declared.ids.LockId.TheVariants.{Buffer};

    ghost block_at = { λ m b. Q.block_at m b };

    ghost block_with = { λ p b. Q.block_with p.lower b };

    ghost queue_at = { λ m d. Q.queue_at m d };

    ghost queue_with = { λ p d. Q.queue_with p.lower d };

    #[inline(always)]
    fn block_in(m: &Q::Machine, b: BufId) -> Option<&E::Block> {
        Q::block_in(m, b)
    }

    #[inline(always)]
    fn block_here(&self, b: BufId) -> Option<&E::Block> {
        self.lower.block_here(b)
    }

    #[inline(always)]
    fn pends_in(m: &Q::Machine, d: CpuId, t: Tid) -> Option<bool> {
        Q::pends_in(m, d, t)
    }

    #[inline(always)]
    fn pends_here(&self, d: CpuId, t: Tid) -> Option<bool> {
        self.lower.pends_here(d, t)
    }

    ghost shown = { λ m c b acts there. shown_under (λ (p : Self). p.lower) (λ p. Q.Coupled p m) (λ (p : Self). Self.Coupled p m) (λ p. Q.cpu_of p)
        (λ (p : Self). p.cpu)
        (Q.MayHold m) (Q.MayHold m)
        (λ p. Q.block_with p b) (Q.block_at m b) (block_after E.protocol.edited (inner (Q.opening m)) (Buffer b) (buffer_sections (Q.history m)))
        (λ p coupled. coupled.0) (λ p coupled. coupled.1.cpu) (λ d inside. inside) (Q.shown m c b acts there) };

    ghost queues = { λ m c d acts there. shown_under (λ (p : Self). p.lower) (λ p. Q.Coupled p m) (λ (p : Self). Self.Coupled p m) (λ p. Q.cpu_of p)
        (λ (p : Self). p.cpu)
        (Q.MayHold m) (Q.MayHold m)
        (λ p. Q.queue_with p d) (Q.queue_at m d) (Some (pending_by (moves_in (kernel E.protocol E.moves (Q.opening m)) (Q.history m)) d))
        (λ p coupled. coupled.0) (λ p coupled. coupled.1.cpu) (λ d inside. inside) (Q.queues m c d acts there) };

    ghost holding = { Q.holding };
}
