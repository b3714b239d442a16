//! A lock with backoff, whose poll is neither one action nor one call: an example.
//!
//! Over it the tower keeps its safety: one order, which is a legal history of the buffers and ends
//! in their contents. The claims on single steps (the step table, quiescence, the steps of an
//! uncontended call) are proved only over locks whose poll is one action.

ghost use Rattle.std.specs.Prelude.{◌≡◌, [], IfOk};
ghost use Rattle.event_log.specs.declared.ids.TheConstants.{CPUS};

use event_log::{CpuId, LockId, NoMemory};
use layer_traits::{Layer, LockCall, LockLaw, OwnedLocks, Payload, SplitEdit};
use std::alloc::Global;

/// The most polls that a CPU skips between two tries.
const MOST: u8 = 8;

/// One CPU's part of a lock whose CPUs back off between two tries. After each try it skips polls of
/// a section that is under way. It skips 1 at first, twice as many after each further try up to
/// `MOST`, then 1 again.
#[derive(Drop)]
pub struct Backoff<L> {
    lower: L,
    // How many polls it still skips, and how many after the next try.
    rests: u8,
    next: u8,
}

impl<E: SplitEdit, L: Layer<LockLaw<E>>> Layer<LockLaw<E>> for Backoff<L> {
    type Machine = L::Machine;

    ghost opening = { λ m. L.opening m };

    ghost history = { λ m. L.history m };

    ghost ActsFor = { λ m c. L.ActsFor m c };

    ghost room = { λ m. L.room m };

    ghost machine_id = { λ m. L.machine_id m };

    ghost IsOutside = { λ m c. L.IsOutside m c };

    ghost MayHold = { λ m c. L.MayHold m c };

    ghost cpu_of = { λ p. L.cpu_of p.lower };

    ghost local = { λ p. tt };

    ghost under_way = { λ p. L.under_way p.lower };

    ghost is_inside = { λ p. L.is_inside p.lower };

    ghost Coupled = { λ p m. L.Coupled p.lower m };

    ghost IsStepwise = { ⊥ };

    ghost IsWhole = { ⊥ };

    ghost acts = { λ m. [] };

    fn part(cpu: CpuId, homes: &[CpuId], buffers: u8) -> Self {
        Backoff {
            lower: L::part(cpu, homes, buffers),
            rests: 0,
            next: 1,
        }
    }

    fn is_busy(&self) -> bool {
        self.lower.is_busy()
    }

    fn local_here(&self) -> &() {
        &()
    }

    fn look(&mut self, _m: &mut L::Machine) -> bool {
        false
    }

    fn poll(
        &mut self,
        m: &mut L::Machine,
        call: LockCall<E::Request>,
        payload: &mut Payload,
    ) -> Option<E::Response> {
        if self.rests > 0 && self.lower.is_busy() {
            self.rests -= 1;
            return None;
        }
        self.rests = self.next;
        self.next = if self.next < MOST { self.next * 2 } else { 1 };
        self.lower.poll(m, call, payload)
    }

    ghost own_cpu = { λ p m coupled. L.own_cpu p.lower m coupled };

    ghost lawful = { λ m c acts. L.lawful m c acts };

    ghost known = { λ m c acts. L.known m c acts };

    ghost moves_legal = { λ m c acts. tt };

    ghost opens = { λ m c acts. tt };

    ghost stands = { λ p m coupled. tt };

    ghost inside = { λ p. L.inside p.lower };

    ghost idle = { λ p m coupled none. L.idle p.lower m coupled none };

    ghost legal = { λ m c acts. tt };

    ghost seen_is = { λ step m. absurd step };

    ghost proper = { λ step m c acts. tt };

    ghost busy = { λ p m coupled step. absurd step };
}

impl<E: SplitEdit, L: OwnedLocks<E>> OwnedLocks<E> for Backoff<L> {
    ghost use Rattle.std.specs.Prelude.{◌<◌, refl};
    ghost use Rattle.{event_log.specs.Sections.block_after, layer_traits.{specs.Protocols.OneLock.{AreDistinct, opened}, proofs.OwnedLemmas.parts_on}};
    ghost use Rattle.layer_traits.proofs.OwnedLemmas.{shown_on};

    ghost block_at = { λ m lock. L.block_at m lock };

    ghost block_with = { λ p lock. L.block_with p.lower lock };

    fn open(
        alloc: Global,
        blocks: Vec<(LockId, E::Block)>,
        room: usize,
    ) -> Result<L::Machine, NoMemory>
        requires distinct { AreDistinct blocks.items }
        ensures history { IfOk result (λ m. L.history m ≡ []) }
        ensures opening { IfOk result (λ m. L.opening m ≡ opened blocks.items) }
        ensures room { IfOk result (λ m. L.room m ≡ room) }
        ensures acts { IfOk result (λ m. (c : _) → c.0 < CPUS → L.ActsFor m c) }
        ensures outside { IfOk result (λ m. (c : _) → L.IsOutside m c) }
        ensures none { IfOk result (λ m. ⟦<Backoff<L> as Layer<LockLaw<E>>>⟧.acts m ≡ []) }
        ensures holders { IfOk result (λ m. (c : _) → L.MayHold m c → ⊥) }
    {
        L::open(alloc, blocks, room)
    }

    fn block_in(m: &L::Machine, lock: LockId) -> Option<&E::Block> {
        L::block_in(m, lock)
    }

    fn block_here(&self, lock: LockId) -> Option<&E::Block> {
        self.lower.block_here(lock)
    }

    ghost shown = { λ m c lock acts there. shown_on
        (parts_on (λ (p : Self). p.lower) (λ p. L.Coupled p m) (λ (p : Self). Self.Coupled p m) (λ p. L.cpu_of p) (L.MayHold m) (λ p coupled. coupled))
        (λ p. L.block_with p lock) (L.block_at m lock) (block_after E.protocol.edited (L.opening m) lock (L.history m)) (L.shown m c lock acts there) };

    ghost holding = { λ step m c held. absurd step };
}
