//! Shared queues in one step.

ghost use Rattle.std.specs.Prelude.{[], None, false, refl};

use crate::kernel::PlainKernel;
use event_log::{BufId, CpuId, Tid};
use layer_traits::{BareQueueAnswer, Layer, Moves, OwnedLayer, Payload, QueueCall, QueueLaw};
use std::marker::PhantomData;

/// One CPU's part of shared queues as they are specified. A push, a taking or an edit is done in
/// one step, and no CPU ever waits.
#[derive(Drop)]
pub struct PlainQueues<E> {
    cpu: CpuId,
    edits: PhantomData<E>,
}

impl<E: Moves> Layer<QueueLaw<E>> for PlainQueues<E> {
    ghost use Rattle.plain_layers.specs.Kernels.{HasKernel, calls_in, call_room, no_site, opening_of};

    type Machine = PlainKernel<E>;

    ghost opening = { λ m. opening_of m.opening };

    ghost history = { λ m. calls_in m };

    ghost ActsFor = { λ m c. HasKernel E.protocol E.moves m c };

    ghost room = { λ m. call_room m };

    ghost machine_id = { λ m. no_site };

    ghost IsOutside = { λ m c. Unit {0} };

    ghost MayHold = { λ m c. ⊥ };

    ghost cpu_of = { λ p. p.cpu };

    ghost local = { λ p. tt };

    ghost under_way = { λ p. None };

    ghost is_inside = { λ p. false };

    ghost Coupled = { λ p m. HasKernel E.protocol E.moves m p.cpu };

    ghost IsStepwise = { ⊥ };

    ghost IsWhole = { Unit {0} };

    ghost acts = { λ m. [] };

    fn part(cpu: CpuId, _homes: &[CpuId], _buffers: u8) -> Self {
        PlainQueues {
            cpu,
            edits: PhantomData,
        }
    }

    fn is_busy(&self) -> bool {
        false
    }

    fn local_here(&self) -> &() {
        &()
    }

    fn look(&mut self, _m: &mut PlainKernel<E>) -> bool {
        false
    }

    fn poll(
        &mut self,
        m: &mut PlainKernel<E>,
        call: QueueCall<E::Request>,
        payload: &mut Payload,
    ) -> Option<BareQueueAnswer<E::Response>> {
        Some(m.done(self.cpu, call, payload))
    }

    ghost own_cpu = { λ p m coupled. coupled };

    ghost moves_legal = { λ m c acts. tt };

    ghost opens = { λ m c acts. acts.1.starts };

    ghost lawful = { λ m c acts. acts.1.lawful };

    ghost known = { λ m c acts. acts.1.known };

    ghost stands = { λ p m coupled. tt };

    ghost inside = { λ p. refl };

    ghost idle = { λ p m coupled none. refl };

    ghost legal = { λ m c acts. tt };

    ghost seen_is = { λ step m. absurd step };

    ghost proper = { λ step m c acts. absurd step };

    ghost busy = { λ p m coupled step. absurd step };
}

impl<E: Moves> OwnedLayer<QueueLaw<E>> for PlainQueues<E> {
    ghost use Rattle.{std.specs.Prelude.slice_get, plain_layers.specs.{Kernels.calls_in, Laws.ShownLaws.{block_shown, queue_shown}}};

    ghost block_at = { λ m b. slice_get m.lists.buffers.items b.0 };

    ghost block_with = { λ p b. None };

    ghost queue_at = { λ m d. slice_get m.lists.pending.items d.0 };

    ghost queue_with = { λ p d. None };

    fn block_in(m: &PlainKernel<E>, b: BufId) -> Option<&E::Block> {
        m.block(b)
    }

    fn block_here(&self, _b: BufId) -> Option<&E::Block> {
        None
    }

    fn pends_in(m: &PlainKernel<E>, d: CpuId, t: Tid) -> Option<bool> {
        m.pends(d, t)
    }

    fn pends_here(&self, _d: CpuId, _t: Tid) -> Option<bool> {
        None
    }

    ghost shown = { λ m c b acts there. block_shown E.protocol E.moves m.opening (calls_in m) m.lists acts.1 (λ (p : Self). Self.Coupled p m)
        (λ p. p.cpu) (Self.MayHold m) b there };

    ghost queues = { λ m c d acts there. queue_shown E.protocol E.moves m.opening (calls_in m) m.lists acts.1 (λ (p : Self). Self.Coupled p m)
        (λ p. p.cpu) (Self.MayHold m) d there };

    ghost holding = { λ step m c held. absurd held };
}
