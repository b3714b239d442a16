//! Schedulers in one step.

ghost use Rattle.std.specs.Prelude.{[], None, false, refl};

use crate::kernel::PlainKernel;
use arrayvec::ArrayVec;
use event_log::{BufId, CpuId, THREADS, Tid};
use layer_traits::{
    Layer, Moves, OwnThreads, OwnedLayer, Payload, SchedAnswer, SchedCall, SchedLaw, kept_homes,
};
use scheduler::{call_beneath, pass_locally, take_answer, threads_at_boot};
use std::marker::PhantomData;

/// One CPU's part of schedulers as they are specified: each call is done in one step, and no CPU
/// ever waits.
#[derive(Drop)]
pub struct PlainSched<E> {
    cpu: CpuId,
    homes: ArrayVec<CpuId, THREADS>,
    local: OwnThreads,
    edits: PhantomData<E>,
}

impl<E: Moves> Layer<SchedLaw<E>> for PlainSched<E> {
    ghost use Rattle.plain_layers.specs.{Kernels.HasKernel, Kernels.calls_in, Kernels.call_room, Kernels.no_site, Kernels.opening_of, KernelParts.HasThreads};

    type Machine = PlainKernel<E>;

    ghost opening = { λ m. opening_of m.opening };

    ghost history = { λ m. calls_in m };

    ghost ActsFor = { λ m c. HasKernel E.protocol E.moves m c };

    ghost room = { λ m. call_room m };

    ghost machine_id = { λ m. no_site };

    ghost IsOutside = { λ m c. Unit {0} };

    ghost MayHold = { λ m c. ⊥ };

    ghost cpu_of = { λ p. p.cpu };

    ghost local = { λ p. p.local };

    ghost under_way = { λ p. None };

    ghost is_inside = { λ p. false };

    ghost Coupled = { λ p m. HasThreads E.protocol E.moves m p.cpu p.homes.items p.local };

    ghost IsStepwise = { ⊥ };

    ghost IsWhole = { Unit {0} };

    ghost acts = { λ m. [] };

    fn part(cpu: CpuId, homes: &[CpuId], _buffers: u8) -> Self {
        PlainSched {
            cpu,
            homes: kept_homes(homes),
            local: threads_at_boot(homes, cpu),
            edits: PhantomData,
        }
    }

    fn is_busy(&self) -> bool {
        false
    }

    fn local_here(&self) -> &OwnThreads {
        &self.local
    }

    fn look(&mut self, _m: &mut PlainKernel<E>) -> bool {
        false
    }

    fn poll(
        &mut self,
        m: &mut PlainKernel<E>,
        call: SchedCall<E::Request>,
        payload: &mut Payload,
    ) -> Option<SchedAnswer<E::Response>> {
        let homes = self.homes.as_slice();
        match call_beneath::<E>(homes, self.cpu, call) {
            Err(pass) => {
                pass_locally(&mut self.local, pass);
                Some(SchedAnswer::Done)
            }
            Ok(step) => {
                let answer = m.done(self.cpu, step, payload);
                let local = &mut self.local;
                Some(take_answer::<E>(local, homes, self.cpu, answer, payload))
            }
        }
    }

    ghost own_cpu = { λ p m coupled. (coupled.0, coupled.1) };

    ghost moves_legal = { λ m c acts. tt };

    ghost opens = { λ m c acts. acts.1.starts };

    ghost lawful = { λ m c acts. acts.1.lawful };

    ghost known = { λ m c acts. acts.1.known };

    ghost legal = { λ m c acts. tt };

    ghost seen_is = { λ step m. absurd step };

    ghost proper = { λ step m c acts. absurd step };

    ghost busy = { λ p m coupled step. absurd step };

    ghost stands = { λ p m coupled. coupled.2.stands };

    ghost inside = { λ p. refl };

    ghost idle = { λ p m coupled none. refl };
}

impl<E: Moves> OwnedLayer<SchedLaw<E>> for PlainSched<E> {
    ghost use Rattle.{std.specs.Prelude.slice_get, plain_layers.specs.{Kernels.calls_in, Laws.ShownLaws.{block_shown, queue_shown}}};

    ghost block_at = { λ m b. slice_get m.lists.buffers.items b.0 };

    ghost block_with = { λ p b. None };

    ghost queue_at = { λ m d. slice_get m.lists.pending.items d.0 };

    ghost queue_with = { λ p d. None };

    fn block_in(m: &PlainKernel<E>, b: BufId) -> Option<&E::Block> {
        m.block(b)
    }

    fn block_here(&self, _b: BufId) -> Option<&E::Block> {
        None
    }

    fn pends_in(m: &PlainKernel<E>, d: CpuId, t: Tid) -> Option<bool> {
        m.pends(d, t)
    }

    fn pends_here(&self, _d: CpuId, _t: Tid) -> Option<bool> {
        None
    }

    ghost shown = { λ m c b acts there. block_shown E.protocol E.moves m.opening (calls_in m) m.lists acts.1 (λ (p : Self). Self.Coupled p m)
        (λ p. p.cpu) (Self.MayHold m) b there };

    ghost queues = { λ m c d acts there. queue_shown E.protocol E.moves m.opening (calls_in m) m.lists acts.1 (λ (p : Self). Self.Coupled p m)
        (λ p. p.cpu) (Self.MayHold m) d there };

    ghost holding = { λ step m c held. absurd held };
}
