//! The seat of a CPU at the table of the tower's locks. No call takes memory or waits.

ghost use Rattle.std.specs.Prelude.{◌≡◌};
ghost use Rattle.table_machine.specs.SeatViews.{IsOf};

use crate::bells::Bells;
use crate::workers::hints::Hints;
use event_log::{BufId, CpuId, LockId};
use ipc_calls::{TowerBlock, TowerEdit, TowerRequest};
use layer_traits::{Mark, Words};
use std::marker::Model;
use std::sync::Wait;
use table_machine::{Key, Seat, Shared, TableWords};

/// How many turns a worker at a seat takes at once, at most: an idle CPU may keep its processor for
/// so long.
pub(crate) const STRETCH: usize = 16;

/// A seat at a table of the tower's locks, whatever their words are. It is a [`Seat`] under its
/// own name, so that no proof over it must compare the tower's edits.
#[derive(Drop)]
pub(crate) struct TowerSeat<'a, K: TableWords> {
    seat: Seat<'a, TowerEdit, K>,
    bells: &'a Bells,
}

impl<'a, K: TableWords> Model for TowerSeat<'a, K> {
    ghost use Rattle.{table_machine.specs.SeatViews.SeatView, cpu_workers.specs.Seating.{AnyBlock, Edit}};

    ghost Value = { SeatView Edit AnyBlock };

    ghost view = { λ s. s.seat };
}

impl<'a, K: TableWords> TowerSeat<'a, K> {
    // Takes the seat of the key's CPU. The key is one of this table.
    pub(crate) fn new(
        shared: &'a Shared<TowerEdit, K>,
        bells: &'a Bells,
        key: Key<TowerEdit>,
    ) -> TowerSeat<'a, K>
        requires { IsOf shared.now key }
        ensures { result ≡ key }
    {
        TowerSeat {
            seat: shared.seat(key),
            bells,
        }
    }

    // Rings the bell of the CPU into whose pending queue this CPU has put a thread: the remote
    // wake-up. A CPU's section at the queue of another CPU puts one there. The ring follows the
    // release of the lock. Therefore a CPU that read its bell before it polled its queue finds the
    // thread there, or a bell that was rung since.
    #[inline(always)]
    fn ring_for(&self, cpu: CpuId, lock: LockId) {
        if let LockId::Pending(home) = lock {
            if home != cpu {
                self.bells.ring(home);
            }
        }
    }

    // Leaves the seat.
    pub(crate) fn back(self) -> Key<TowerEdit>
        ensures { result ≡ self.entry }
    {
        let TowerSeat { seat, bells: _ } = self;
        seat.back()
    }
}

impl<'a, K: TableWords> Words for TowerSeat<'a, K> {
    ghost use Rattle.std.specs.Prelude.{◌≡◌, ℕ};
    ghost use Rattle.{event_log.specs.History.IsLawful, layer_traits.specs.Protocols.{WordsProtocol.{MayCome, edit_of}, OneLock.opened}};
    ghost use Rattle.{table_machine.specs.SeatViews.site_of, cpu_workers.specs.{Closing.tower_rules, declared.workers.seats.TheConstants.STRETCH}};

    type Edit = TowerEdit;

    type Mark = Mark<TowerEdit>;

    ghost edit_in = { edit_of };

    ghost opening = { λ s. opened s.start };

    ghost history = { λ s. s.history };

    ghost ActsFor = { λ s c. (c ≡ s.cpu) × IsLawful (MayCome (tower_rules.allowed (opened s.start))) s.history };

    ghost room = { λ s. STRETCH };

    ghost machine_id = { λ s. site_of s.table };

    fn mark(_handed: TowerRequest, edit: TowerEdit) -> Mark<TowerEdit>
        ensures { edit_of result ≡ edit }
    {
        Mark { edit }
    }

    fn draw(&mut self, cpu: CpuId, lock: LockId) -> u64 {
        self.seat.draw(cpu, lock)
    }

    fn look(&mut self, cpu: CpuId, lock: LockId, ticket: u64) -> Option<TowerBlock> {
        self.seat.look(cpu, lock, ticket)
    }

    fn spin(&mut self, _cpu: CpuId, _lock: LockId, _ticket: u64, _steps: &[CpuId]) -> usize {
        0
    }

    fn free(&mut self, cpu: CpuId, lock: LockId, block: TowerBlock, mark: Mark<TowerEdit>) {
        self.seat.free(cpu, lock, block, mark);
        self.ring_for(cpu, lock);
    }

    ghost legal = { λ s c acts. acts.1 };
}

impl<'a, K: TableWords> Hints for TowerSeat<'a, K> {
    fn next_hint(&self, buffer: BufId) -> u64 {
        self.seat.table().next_hint(LockId::Buffer(buffer))
    }

    #[inline(always)]
    fn rings(&self, cpu: CpuId) -> u64 {
        self.bells.rings(cpu)
    }

    fn park_native<R: Wait>(&self, rt: &R, cpu: CpuId, rung: u64) {
        self.bells.park_native(rt, cpu, rung);
    }

    fn park_worker<R: Wait>(&self, rt: &R, cpu: CpuId, rung: u64) {
        self.bells.park_worker(rt, cpu, rung);
    }

    fn leave(&self) {
        self.bells.leave();
    }
}
