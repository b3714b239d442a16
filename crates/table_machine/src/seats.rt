//! The seat (per-CPU handle) of a CPU at a shared table. No function allocates or blocks.

ghost use Rattle.std.specs.Prelude.{◌≡◌, List, IsSome, Some, MatchOption, option_map};
ghost use Rattle.event_log.specs.{declared.ids.CpuId.CpuId, History.{Grows, IsLawful}, WordsLog.cpu_of_event};
ghost use Rattle.{layer_traits.specs.Protocols.{WordsProtocol.MayCome, OneLock.opened}, table_machine.specs.{SeatViews.IsOf, Views.{EndsWith, IsThisCpu}}};

use crate::keys::Key;
use crate::shared::Shared;
use crate::table_words::{TableWords, TicketWords, WaiterWords};
use event_log::{CpuId, LockId};
use layer_traits::{Mark, SplitEdit, UsesGrantWords, Words};
use std::marker::Model;

/// A CPU's handle of a table, through which it may `draw`, `look` and `free`. Each call extends the
/// log that the seat has seen by events of other CPUs, then by the call's event. Its result is the
/// one that a single thread would get at that point of the log.
#[derive(Drop)]
pub struct Seat<'a, E: SplitEdit, K: TableWords = TicketWords> {
    key: Key<E>,
    shared: &'a Shared<E, K>,
}

/// A CPU's handle of a table of locks with grant words, through which it may `take`, `peek` and
/// `give`.
pub type GrantSeat<'a, E> = Seat<'a, E, WaiterWords>;

impl<'a, E: SplitEdit, K: TableWords> Model for Seat<'a, E, K> {
    ghost use Rattle.table_machine.specs.SeatViews.{SeatView, IsOf};

    ghost Value = { SeatView E E.Block };

    ghost view = { λ s. s.key };

    ghost invariant = { λ s. IsOf s.shared.now s.key };
}

impl<E: SplitEdit, K: TableWords> Shared<E, K> {
    /// Takes the seat of the key's CPU. It allocates nothing.
    ///
    /// Requires: the key is one of this table.
    pub fn seat(&self, key: Key<E>) -> Seat<'_, E, K>
        requires { IsOf self.now key }
        ensures seat { result ≡ key }
        ensures lawful { IsLawful (MayCome (E.protocol.allowed (opened key.start))) key.history }
    {
        key.lawful();
        Seat { key, shared: self }
    }
}

impl<'a, E: SplitEdit, K: TableWords> Seat<'a, E, K> {
    /// Returns the seat's table. The key that the seat returns may be used for a seat there again,
    /// whatever was done through the seat in between.
    pub fn table(&self) -> &'a Shared<E, K>
        ensures { IsOf result.now self.now }
    {
        self.shared
    }

    /// Leaves the seat. The key keeps all that the seat has seen. It allocates nothing.
    pub fn back(self) -> Key<E>
        ensures { result ≡ self.entry }
    {
        let Seat { key, shared: _ } = self;
        key
    }
}

impl<'a, E: SplitEdit, K: TableWords> Words for Seat<'a, E, K> {
    ghost use Rattle.std.specs.Prelude.{◌≡◌, ℕ};
    ghost use Rattle.{event_log.specs.History.IsLawful, layer_traits.specs.Protocols.{WordsProtocol.{MayCome, edit_of}, OneLock.opened}};
    ghost use Rattle.table_machine.specs.SeatViews.{site_of};

    type Edit = E;

    type Mark = Mark<E>;

    ghost edit_in = { edit_of };

    ghost opening = { λ s. opened s.start };

    ghost history = { λ s. s.history };

    ghost ActsFor = { λ s c. (c ≡ s.cpu) × IsLawful (MayCome (E.protocol.allowed (opened s.start))) s.history };

    ghost room = { λ s. 1 };

    ghost machine_id = { λ s. site_of s.table };

    fn mark(_handed: E::Request, edit: E) -> Mark<E> {
        Mark { edit }
    }

    fn draw(&mut self, _cpu: CpuId, lock: LockId) -> u64 {
        self.key.draw(self.shared, lock)
    }

    fn look(&mut self, _cpu: CpuId, lock: LockId, ticket: u64) -> Option<E::Block> {
        self.key.look(self.shared, lock, ticket)
    }

    // Other threads may free the lock in between, so each poll loads its word again.
    fn spin(&mut self, _cpu: CpuId, _lock: LockId, _ticket: u64, _steps: &[CpuId]) -> usize {
        0
    }

    fn free(&mut self, _cpu: CpuId, lock: LockId, block: E::Block, mark: Mark<E>) {
        self.key.free(self.shared, lock, block, mark.edit)
    }

    ghost legal = { λ s c acts. acts.1 };
}

impl<'a, E: SplitEdit> UsesGrantWords for Seat<'a, E, WaiterWords> {}

/// Brings the second seat's view up to the first's. Afterwards the log that the first has seen is a
/// prefix of the second's, and neither has lost what it had seen. It may be called at any time,
/// also within a section, and is no event of the log. It allocates nothing.
///
/// Requires: both seats are at one table.
pub fn meet<E: SplitEdit, K: TableWords>(first: &mut Seat<'_, E, K>, second: &mut Seat<'_, E, K>)
    requires { second.old.table ≡ first.old.table }
    ensures first { first.new ≡ first.old }
    ensures second { second.new ≡ record second.old { history = second.new.history } }
    ensures begins { EndsWith second.new.history first.old.history }
    ensures grows { Grows (IsThisCpu second.old.cpu) cpu_of_event second.old.history
        second.new.history }
    ensures lawful { IsLawful (MayCome (E.protocol.allowed (opened second.old.start)))
        second.new.history }
{
    let notes = first.key.notes(first.shared);
    second.key.take_in(second.shared, notes);
}
