//! Critical sections in one step.

ghost use Rattle.std.specs.Prelude.{◌≡◌, [], None, false, refl};

use crate::lock_table::LockTable;
use event_log::{CpuId, LockId, NoMemory};
use layer_traits::{Layer, LockCall, LockLaw, OwnedLocks, Payload, SplitEdit};
use std::alloc::Global;
use std::marker::PhantomData;

/// One CPU's part of critical sections as they are specified: a section edits its block in one
/// step, and no CPU ever waits.
#[derive(Drop)]
pub struct PlainLock<E> {
    cpu: CpuId,
    edits: PhantomData<E>,
}

impl<E: SplitEdit> Layer<LockLaw<E>> for PlainLock<E> {
    ghost use Rattle.std.specs.Prelude.{◌<◌};
    ghost use Rattle.{event_log.specs.declared.ids.TheConstants.CPUS, plain_layers.specs.Tables.{IsTable, opening_in, room_in, sections_noted}};

    type Machine = LockTable<E>;

    ghost opening = { λ m. opening_in m };

    ghost history = { λ m. sections_noted m };

    ghost ActsFor = { λ m c. (c.0 < CPUS) × IsTable E.protocol (opening_in m) (sections_noted m) m.blocks.items };

    ghost room = { λ m. room_in m };

    ghost IsOutside = { λ m c. Unit {0} };

    ghost MayHold = { λ m c. ⊥ };

    ghost cpu_of = { λ p. p.cpu };

    ghost local = { λ p. tt };

    ghost under_way = { λ p. None };

    ghost is_inside = { λ p. false };

    ghost Coupled = { λ p m. (p.cpu.0 < CPUS) × IsTable E.protocol (opening_in m) (sections_noted m) m.blocks.items };

    ghost IsStepwise = { ⊥ };

    ghost IsWhole = { Unit {0} };

    ghost acts = { λ m. [] };

    fn part(cpu: CpuId, _homes: &[CpuId], _buffers: u8) -> Self {
        PlainLock {
            cpu,
            edits: PhantomData,
        }
    }

    fn is_busy(&self) -> bool {
        false
    }

    fn local_here(&self) -> &() {
        &()
    }

    fn look(&mut self, _m: &mut LockTable<E>) -> bool {
        false
    }

    fn poll(
        &mut self,
        m: &mut LockTable<E>,
        call: LockCall<E::Request>,
        payload: &mut Payload,
    ) -> Option<E::Response> {
        Some(m.done(self.cpu, call.lock, call.edit, payload))
    }

    ghost own_cpu = { λ p m coupled. coupled };

    ghost lawful = { λ m c acts. acts.1.lawful };

    ghost known = { λ m c acts. acts.1.known };

    ghost moves_legal = { λ m c acts. tt };

    ghost opens = { λ m c acts. tt };

    ghost stands = { λ p m coupled. tt };

    ghost inside = { λ p. refl };

    ghost idle = { λ p m coupled none. refl };

    ghost legal = { λ m c acts. tt };

    ghost seen_is = { λ step m. absurd step };

    ghost proper = { λ step m c acts. tt };

    ghost busy = { λ p m coupled step. absurd step };
}

impl<E: SplitEdit> OwnedLocks<E> for PlainLock<E> {
    ghost use Rattle.std.specs.Prelude.{◌<◌, IfOk};
    ghost use Rattle.{layer_traits.specs.Protocols.OneLock.{AreDistinct, opened}, plain_layers.specs.{Laws.ShownLaws.table_shown, Tables.opening_in}};
    ghost use Rattle.{plain_layers.specs.Tables.sections_noted, event_log.specs.declared.ids.TheConstants.CPUS};

    ghost block_at = { λ m lock. opened m.blocks.items lock };

    ghost block_with = { λ p lock. None };

    fn open(
        alloc: Global,
        blocks: Vec<(LockId, E::Block)>,
        room: usize,
    ) -> Result<LockTable<E>, NoMemory>
        requires distinct { AreDistinct blocks.items }
        ensures history { IfOk result (λ m. ⟦<PlainLock<E> as Layer<LockLaw<E>>>⟧.history m ≡ []) }
        ensures opening { IfOk result
            (λ m. ⟦<PlainLock<E> as Layer<LockLaw<E>>>⟧.opening m ≡ opened blocks.items) }
        ensures room { IfOk result (λ m. ⟦<PlainLock<E> as Layer<LockLaw<E>>>⟧.room m ≡ room) }
        ensures acts { IfOk result
            (λ m. (c : _) → c.0 < CPUS → ⟦<PlainLock<E> as Layer<LockLaw<E>>>⟧.ActsFor m c) }
        ensures outside { IfOk result
            (λ m. (c : _) → ⟦<PlainLock<E> as Layer<LockLaw<E>>>⟧.IsOutside m c) }
        ensures none { IfOk result (λ m. ⟦<PlainLock<E> as Layer<LockLaw<E>>>⟧.acts m ≡ []) }
        ensures holders { IfOk result
            (λ m. (c : _) → ⟦<PlainLock<E> as Layer<LockLaw<E>>>⟧.MayHold m c → ⊥) }
    {
        LockTable::open(alloc, blocks, room)
    }

    fn block_in(m: &LockTable<E>, lock: LockId) -> Option<&E::Block> {
        m.block(lock)
    }

    fn block_here(&self, _lock: LockId) -> Option<&E::Block> {
        None
    }

    ghost shown = { λ m c lock acts there. table_shown E.protocol (opening_in m) (sections_noted m) m.blocks.items (λ (p : Self). Self.Coupled p m)
        (λ p. p.cpu) (Self.MayHold m) lock acts.1 there };

    ghost holding = { λ step m c held. absurd held };
}
