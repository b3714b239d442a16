//! Shared queues under locks.
//!
//! No call is given an allocator, and none waits.

ghost use Rattle.std.specs.Prelude.{◌≡◌, refl};
ghost use Rattle.layer_traits.specs.Layers.Queues.{lock_of, queue_edit_of};

use event_log::{BufId, CpuId, LockId, Tid};
use layer_traits::{
    BareQueueAnswer, Layer, LockCall, LockLaw, Moves, OwnedLayer, OwnedLocks, Payload, QueueBlock,
    QueueCall, QueueEdit, QueueLaw,
};

/// Returns the section of a call: its lock, and its edit of the block that the lock guards.
#[inline(always)]
fn section_of<E>(call: QueueCall<E>) -> LockCall<QueueEdit<E>>
    ensures lock { result.lock ≡ lock_of call }
    ensures edit { result.edit ≡ queue_edit_of call }
{
    let (lock, edit) = match call {
        QueueCall::Push(queue, t) => (LockId::Pending(queue), QueueEdit::Push(t)),
        QueueCall::TakeAll(queue) => (LockId::Pending(queue), QueueEdit::TakeAll),
        QueueCall::OnBuffer(buffer, edit) => (LockId::Buffer(buffer), QueueEdit::Above(edit)),
    };
    LockCall { lock, edit }
}

/// One CPU's part of shared queues (Gu et al., OSDI 2016): a call is one section under the lock
/// that guards the queue or the block. The part has only the part of its locks.
#[derive(Drop)]
pub struct SharedQueues<L> {
    lower: L,
}

impl<E: Moves, L: Layer<LockLaw<QueueEdit<E>>>> Layer<QueueLaw<E>> for SharedQueues<L> {
    ghost use Rattle.std.{specs.Prelude.{map, option_map}, proofs.Common.{ap, ◌∙◌, subst, sym}};
    ghost use Rattle.layer_traits.specs.{Blocks.{QueueBlocks.StartsWell, QueueRules.{AreProper, IsProperCall}}, Layers.Queues.event_of};
    ghost use Rattle.{layer_traits.proofs.NestedLemmas.{known_events, lawful_events, lawful_proper}, shared_queue.specs.Laws.SharedLaws.no_section_beneath};
    ghost use Rattle.shared_queue.specs.Laws.SharedLaws.{same_busy};

    type Machine = L::Machine;

    ghost opening = { λ m. L.opening m };

    ghost history = { λ m. map event_of (L.history m) };

    ghost ActsFor = { λ m c. L.ActsFor m c × StartsWell (L.opening m) };

    ghost room = { λ m. L.room m };

    ghost machine_id = { λ m. L.machine_id m };

    ghost IsOutside = { λ m c. L.IsOutside m c };

    ghost MayHold = { λ m c. L.MayHold m c };

    ghost cpu_of = { λ p. L.cpu_of p.lower };

    ghost local = { λ p. tt };

    ghost under_way = { λ p. option_map event_of (L.under_way p.lower) };

    ghost is_inside = { λ p. L.is_inside p.lower };

    ghost Coupled = { λ p m. L.Coupled p.lower m × StartsWell (L.opening m) × IsProperCall (L.under_way p.lower) };

    ghost IsStepwise = { L.IsStepwise };

    ghost IsWhole = { L.IsWhole };

    ghost acts = { λ m. L.acts m };

    fn part(cpu: CpuId, homes: &[CpuId], buffers: u8) -> Self {
        SharedQueues {
            lower: L::part(cpu, homes, buffers),
        }
    }

    #[inline(always)]
    fn is_busy(&self) -> bool {
        self.lower.is_busy()
    }

    #[inline(always)]
    fn local_here(&self) -> &() {
        &()
    }

    #[inline(always)]
    fn look(&mut self, m: &mut L::Machine) -> bool {
        self.lower.look(m)
    }

    #[inline(always)]
    fn spin(&self, m: &mut L::Machine, steps: &[CpuId]) -> usize {
        self.lower.spin(m, steps)
    }

    #[inline(always)]
    fn poll(
        &mut self,
        m: &mut L::Machine,
        call: QueueCall<E::Request>,
        payload: &mut Payload,
    ) -> Option<BareQueueAnswer<E::Response>> {
        self.lower.poll(m, section_of(call), payload)
    }

    ghost own_cpu = { λ p m coupled. (L.own_cpu p.lower m coupled.0, coupled.1) };

    ghost moves_legal = { λ m c acts. tt };

    ghost opens = { λ m c acts. acts.1 };

    ghost lawful = { λ m c acts. lawful_events E.protocol E.moves (L.opening m) (L.history m) (L.lawful m c acts.0) };

    ghost known = { λ m c acts. known_events (L.history m) (L.known m c acts.0) };

    ghost stands = { λ p m coupled. tt };

    ghost inside = { λ p. L.inside p.lower ∙ sym (same_busy event_of (L.under_way p.lower)) };

    ghost idle = { λ p m coupled none. L.idle p.lower m coupled.0 (no_section_beneath event_of (L.under_way p.lower) none) };

    ghost legal = { λ m c acts. L.legal m c acts.0 };

    ghost seen_is = { λ step m. ap (map event_of) (L.seen_is step m) };

    ghost proper = { λ step m c acts. subst AreProper (L.seen_is step m) (lawful_proper E.protocol E.moves (L.opening m) (L.history m) (L.lawful m c acts.0)) };

    ghost busy = { λ p m coupled step. L.busy p.lower m coupled.0 step };
}

impl<E: Moves, L: OwnedLocks<QueueEdit<E>>> OwnedLayer<QueueLaw<E>> for SharedQueues<L> {
    ghost use Rattle.{std.specs.Option.option_and_then, event_log.specs.{declared.ids.LockId.TheVariants.{Buffer, Pending}, Sections.block_after}};
    ghost use Rattle.layer_traits.{proofs.OwnedLemmas.shown_under, specs.Blocks.{QueueBlocks.StartsWell, QueueRules.{IsProperCall, queue_edited}}};
    ghost use Rattle.shared_queue.specs.{Laws.OwnedLaws.{buffer_shown, queue_shown}, OwnedLaws.{above_in, queue_in, observers}};

    ghost block_at = { λ m b. option_and_then above_in (L.block_at m (Buffer b)) };

    ghost block_with = { λ p b. option_and_then above_in (L.block_with p.lower (Buffer b)) };

    ghost queue_at = { λ m d. option_and_then queue_in (L.block_at m (Pending d)) };

    ghost queue_with = { λ p d. option_and_then queue_in (L.block_with p.lower (Pending d)) };

    fn block_in(m: &L::Machine, b: BufId) -> Option<&E::Block> {
        match L::block_in(m, LockId::Buffer(b)) {
            Some(QueueBlock::Above(room)) => Some(room.content()),
            _ => None,
        }
    }

    fn block_here(&self, b: BufId) -> Option<&E::Block> {
        match self.lower.block_here(LockId::Buffer(b)) {
            Some(QueueBlock::Above(room)) => Some(room.content()),
            _ => None,
        }
    }

    fn pends_in(m: &L::Machine, d: CpuId, t: Tid) -> Option<bool> {
        match L::block_in(m, LockId::Pending(d)) {
            Some(QueueBlock::Queue(queue, _)) => Some(queue.content().contains(t)),
            _ => None,
        }
    }

    fn pends_here(&self, d: CpuId, t: Tid) -> Option<bool> {
        match self.lower.block_here(LockId::Pending(d)) {
            Some(QueueBlock::Queue(queue, _)) => Some(queue.content().contains(t)),
            _ => None,
        }
    }

    ghost shown = { λ m c b acts there. buffer_shown E.protocol E.moves (L.opening m)
        (observers E.protocol E.moves (L.opening m) (L.history m) acts.1 (L.lawful m c acts.0)
        (λ (p : Self). L.Coupled p.lower m × StartsWell (L.opening m) × IsProperCall (L.under_way p.lower)) (λ p. L.cpu_of p.lower)
        (L.MayHold m)) b (λ p. L.block_with p.lower (Buffer b)) (L.block_at m (Buffer b))
        (shown_under (λ (p : Self). p.lower) (λ p. L.Coupled p m) (λ p. L.Coupled p.lower m × StartsWell (L.opening m) × IsProperCall (L.under_way p.lower))
        (λ p. L.cpu_of p) (λ p. L.cpu_of p.lower) (L.MayHold m)
        (L.MayHold m)
        (λ p. L.block_with p (Buffer b)) (L.block_at m (Buffer b)) (block_after (queue_edited E.protocol.edited) (L.opening m) (Buffer b) (L.history m))
        (λ p coupled. coupled.0) (λ p coupled. refl) (λ d inside. inside) (L.shown m c (Buffer b) acts.0 there)) };

    ghost queues = { λ m c d acts there. queue_shown E.protocol E.moves (L.opening m)
        (observers E.protocol E.moves (L.opening m) (L.history m) acts.1 (L.lawful m c acts.0)
        (λ (p : Self). L.Coupled p.lower m × StartsWell (L.opening m) × IsProperCall (L.under_way p.lower)) (λ p. L.cpu_of p.lower)
        (L.MayHold m)) E.wakes_sleepers d there (λ p. L.block_with p.lower (Pending d))
        (L.block_at m (Pending d))
        (shown_under (λ (p : Self). p.lower) (λ p. L.Coupled p m) (λ p. L.Coupled p.lower m × StartsWell (L.opening m) × IsProperCall (L.under_way p.lower))
        (λ p. L.cpu_of p) (λ p. L.cpu_of p.lower) (L.MayHold m)
        (L.MayHold m)
        (λ p. L.block_with p (Pending d)) (L.block_at m (Pending d)) (block_after (queue_edited E.protocol.edited) (L.opening m) (Pending d) (L.history m))
        (λ p coupled. coupled.0) (λ p coupled. refl) (λ d inside. inside) (L.shown m c (Pending d) acts.0 there)) };

    ghost holding = { L.holding };
}
