//! The lock: one implementation for every machine with FIFO locks.

ghost use Rattle.std.specs.Prelude.{◌≡◌, ◌+◌, ◌%◌, ◌^◌, ◌<◌, ◌≤◌, Bool, Option, Some, IsSome, MatchOption};
ghost use Rattle.event_log.specs.{declared.ids.CpuId.CpuId, Actions.{Try, Waits, Holds, cpu_of_action, phase, ticket_index_of}, History.Adds};
ghost use Rattle.{event_log.specs.Sections.{block_after, sections_in}, spinlock.specs.Stages.hit_by};

use crate::fifo_lock::{FifoLock, UsesGrants, UsesTickets};
use crate::owned_fifo_lock::OwnedFifoLock;
use crate::stages::TicketPhase;
use event_log::{CpuId, LockId, NoMemory};
use layer_traits::{Ghost, Layer, LockCall, LockLaw, OwnedLocks, Payload, SplitEdit};
use std::alloc::Global;
use std::marker::PhantomData;
use std::mem;

/// One CPU's part of a FIFO spin lock. A section takes a place in the queue, tries to enter until
/// that place is served, and releases the lock with its edit done. Each poll does one of these.
#[derive(Drop)]
pub struct SpinLock<M: FifoLock<LockProtocol>, LockProtocol> {
    cpu: CpuId,
    // The edit is stored for clauses only: the poll that holds the lock is passed it again.
    stage: TicketPhase<Ghost<M::Edit>, <M::Edit as SplitEdit>::Block>,
    // Always None: it names the machine's type, and what that borrows.
    machine: Option<M>,
    lock_protocol: PhantomData<LockProtocol>,
}

/// One CPU's part of a ticket lock (Gu et al., OSDI 2016). A section draws a ticket, polls until
/// `serving` is that ticket, and releases with its edit done.
pub type Ticket<W> = SpinLock<W, UsesTickets>;

/// One CPU's part of a lock with a grant word for each waiter. A section takes a ticket, polls that
/// ticket's word until it is granted, and with its edit done grants the next ticket's word.
pub type Grant<W> = SpinLock<W, UsesGrants>;

/// Tries to enter `lock` for `cpu`, which waits there with this ticket, and stores the block in
/// `stage` if it enters. It is not inlined, so that a poll of all layers is small enough to be
/// inlined into its caller.
///
/// Requires: as [`FifoLock::enter`].
#[inline(never)]
fn enters<M: FifoLock<LockProtocol>, LockProtocol>(
    m: &mut M,
    cpu: CpuId,
    lock: LockId,
    ticket: u64,
    stage: &mut TicketPhase<Ghost<M::Edit>, <M::Edit as SplitEdit>::Block>,
)
    requires cpu { M.ActsFor m.old cpu }
    requires lock { IsSome (M.opening m.old lock) }
    requires room { 0 < M.room m.old }
    requires waits { phase cpu (M.acts m.old) ≡ Waits lock }
    requires ticket { ticket ≡ ticket_index_of cpu (M.acts m.old) % 2 ^ 64 }
    ensures adds { (hit : Bool)
        × Adds (M.ActsFor m.old) cpu_of_action (Try cpu lock hit) (M.acts m.old) (M.acts m.new) }
    ensures hits { (found : Option M.Edit.Block) × (stage.new ≡ hit_by found stage.old)
        × MatchOption found
        (phase cpu (M.acts m.new) ≡ Waits lock)
        (λ block. (phase cpu (M.acts m.new) ≡ Holds lock)
        × (block_after M.Edit.protocol.edited (M.opening m.new) lock (sections_in (M.acts m.new))
        ≡ Some block)) }
    ensures opening { M.opening m.new ≡ M.opening m.old }
    ensures machine_id { M.machine_id m.new ≡ M.machine_id m.old }
    ensures room { M.room m.old ≤ M.room m.new + 1 }
    ensures acts { (c : CpuId) → M.ActsFor m.old c → M.ActsFor m.new c }
{
    let found = m.enter(cpu, lock, ticket);
    stage.hit(found);
}

impl<M: FifoLock<LockProtocol>, LockProtocol> Layer<LockLaw<M::Edit>>
    for SpinLock<M, LockProtocol> {
    ghost use Rattle.{event_log.specs.{Actions.phase, Sections.sections_in}, layer_traits.specs.Polling.Plans.is_in_section};
    ghost use Rattle.{spinlock.specs.{Stages.{stage_section, StageFits}, Laws.StageLaws.{sections_known, stage_busy}}, std.specs.Prelude.{is_some, refl, true}};
    ghost use Rattle.std.proofs.Common.{ap};

    type Machine = M;

    ghost opening = { λ m. M.opening m };

    ghost history = { λ m. sections_in (M.acts m) };

    ghost ActsFor = { λ m c. M.ActsFor m c };

    ghost room = { λ m. M.room m };

    ghost machine_id = { λ m. M.machine_id m };

    ghost IsOutside = { λ m c. M.IsOutside m c };

    ghost MayHold = { λ m c. is_in_section (phase c (M.acts m)) ≡ true };

    ghost cpu_of = { λ p. p.cpu };

    ghost local = { λ p. tt };

    ghost under_way = { λ p. stage_section p.cpu p.stage };

    ghost is_inside = { λ p. is_some (stage_section p.cpu p.stage) };

    ghost Coupled = { λ p m. M.ActsFor m p.cpu × StageFits M.Edit.protocol (M.opening m) (M.acts m) p.cpu p.stage };

    ghost IsStepwise = { Unit {0} };

    ghost IsWhole = { ⊥ };

    ghost acts = { λ m. M.acts m };

    fn part(cpu: CpuId, _homes: &[CpuId], _buffers: u8) -> Self {
        SpinLock {
            cpu,
            stage: TicketPhase::Out,
            machine: None,
            lock_protocol: PhantomData,
        }
    }

    #[inline(always)]
    fn is_busy(&self) -> bool {
        !matches!(self.stage, TicketPhase::Out)
    }

    #[inline(always)]
    fn local_here(&self) -> &() {
        &()
    }

    #[inline(always)]
    fn look(&mut self, m: &mut M) -> bool {
        match self.stage {
            TicketPhase::Waiting { lock, ticket, .. } => {
                if let Some(block) = m.enter(self.cpu, lock, ticket) {
                    let TicketPhase::Waiting { edit, .. } = mem::replace(
                        &mut self.stage,
                        TicketPhase::Out,
                    ) else {
                        unreachable!()
                    };
                    self.stage = TicketPhase::Holding { lock, edit, block };
                }
                true
            }
            TicketPhase::Out => false,
            TicketPhase::Holding { .. } => false,
        }
    }

    #[inline(always)]
    fn spin(&self, m: &mut M, steps: &[CpuId]) -> usize {
        match self.stage {
            TicketPhase::Waiting { lock, ticket, .. } => m.spin(self.cpu, lock, ticket, steps),
            TicketPhase::Out => 0,
            TicketPhase::Holding { .. } => 0,
        }
    }

    #[inline(always)]
    fn poll(
        &mut self,
        m: &mut M,
        call: LockCall<<M::Edit as SplitEdit>::Request>,
        payload: &mut Payload,
    ) -> Option<<M::Edit as SplitEdit>::Response> {
        match self.stage {
            TicketPhase::Out => {
                let lock = call.lock;
                let edit = Ghost::of(&<M::Edit as SplitEdit>::whole(&call.edit, payload));
                let ticket = m.join(self.cpu, lock);
                self.stage = TicketPhase::Waiting { lock, edit, ticket };
                None
            }
            TicketPhase::Waiting { lock, ticket, .. } => {
                enters::<M, LockProtocol>(m, self.cpu, lock, ticket, &mut self.stage);
                None
            }
            TicketPhase::Holding { .. } => {
                let TicketPhase::Holding {
                    lock,
                    mut block,
                    ..
                } = mem::replace(&mut self.stage, TicketPhase::Out)
                else {
                    unreachable!()
                };
                // The edit that is meant, before its result is stored in the payload.
                let edit = <M::Edit as SplitEdit>::whole(&call.edit, payload);
                let out = <M::Edit as SplitEdit>::apply_request(&call.edit, &mut block, payload);
                let mark = M::mark(call.edit, edit);
                m.leave(self.cpu, lock, block, mark);
                Some(out)
            }
        }
    }

    ghost own_cpu = { λ p m coupled. coupled.0 };

    ghost lawful = { λ m c acts. M.lawful m c acts };

    ghost known = { λ m c acts. sections_known (M.acts m) (M.legal m c acts) };

    ghost moves_legal = { λ m c acts. tt };

    ghost opens = { λ m c acts. tt };

    ghost stands = { λ p m coupled. tt };

    ghost inside = { λ p. refl };

    ghost idle = { λ p m coupled none. ap is_some none };

    ghost legal = { λ m c acts. M.legal m c acts };

    ghost seen_is = { λ step m. refl };

    ghost proper = { λ step m c acts. tt };

    ghost busy = { λ p m coupled step. stage_busy M.Edit.protocol (M.opening m) (M.acts m) p.cpu p.stage coupled.1 };
}

impl<M: OwnedFifoLock<LockProtocol>, LockProtocol> OwnedLocks<M::Edit>
    for SpinLock<M, LockProtocol> {
    ghost use Rattle.std.specs.Prelude.{◌<◌, [], IfOk};
    ghost use Rattle.{event_log.specs.declared.ids.TheConstants.CPUS, layer_traits.specs.Protocols.OneLock.{AreDistinct, opened}};
    ghost use Rattle.spinlock.specs.{Laws.OwnedLaws.spin_lock_shows, Stages.held_block};

    ghost block_at = { λ m lock. M.block_at m lock };

    ghost block_with = { λ p lock. held_block lock p.stage };

    fn open(
        alloc: Global,
        blocks: Vec<(LockId, <M::Edit as SplitEdit>::Block)>,
        room: usize,
    ) -> Result<M, NoMemory>
        requires distinct { AreDistinct blocks.items }
        ensures history { IfOk result
            (λ m. ⟦<SpinLock<M, LockProtocol> as Layer<LockLaw<M::Edit>>>⟧.history m ≡ []) }
        ensures opening { IfOk result
            (λ m. ⟦<SpinLock<M, LockProtocol> as Layer<LockLaw<M::Edit>>>⟧.opening m
            ≡ opened blocks.items) }
        ensures room { IfOk result
            (λ m. ⟦<SpinLock<M, LockProtocol> as Layer<LockLaw<M::Edit>>>⟧.room m ≡ room) }
        ensures acts { IfOk result
            (λ m. (c : _) → c.0 < CPUS
            → ⟦<SpinLock<M, LockProtocol> as Layer<LockLaw<M::Edit>>>⟧.ActsFor m c) }
        ensures outside { IfOk result
            (λ m. (c : _) → ⟦<SpinLock<M, LockProtocol> as Layer<LockLaw<M::Edit>>>⟧.IsOutside m
            c) }
        ensures none { IfOk result
            (λ m. ⟦<SpinLock<M, LockProtocol> as Layer<LockLaw<M::Edit>>>⟧.acts m ≡ []) }
        ensures holders { IfOk result
            (λ m. (c : _) → ⟦<SpinLock<M, LockProtocol> as Layer<LockLaw<M::Edit>>>⟧.MayHold m c
            → ⊥) }
    {
        M::open(alloc, blocks, room)
    }

    fn block_in(m: &M, lock: LockId) -> Option<&<M::Edit as SplitEdit>::Block> {
        m.block(lock)
    }

    fn block_here(&self, lock: LockId) -> Option<&<M::Edit as SplitEdit>::Block> {
        self.stage.held(lock)
    }

    ghost shown = { λ m c lock acts there. spin_lock_shows M.Edit.protocol (M.opening m) (M.acts m) lock (λ d. M.ActsFor m d) (λ (p : Self). p.cpu)
        (λ p. p.stage)
        (M.block_at m lock) (M.legal m c acts) (M.blocks m c lock acts there) };

    ghost holding = { λ step m c held. held };
}
