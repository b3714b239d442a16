//! The key of a CPU, which holds what the CPU has seen. No function allocates or blocks.

ghost use Rattle.std.specs.Prelude.{◌≡◌, ℕ, List, [], IsSome, Some, MatchOption, option_map};
ghost use Rattle.event_log.specs.{declared.events.Event.TheVariants.{Draw, Look, Free}, History.{Adds, Grows, IsLawful}, WordsLog.{cpu_of_event, lock_phase}};
ghost use Rattle.{event_log.specs.{WordsLog.{Idle, Waiting, Holding}, Sections.block_after}, layer_traits.specs.Protocols.Protocol.{section, StaysAllowed}};
ghost use Rattle.{layer_traits.specs.Protocols.{WordsProtocol.{mark_of, sections, MayCome}, OneLock.opened}, table_machine.specs.SeatViews.IsOf};
ghost use Rattle.table_machine.specs.Views.{caught_up, EndsWith, IsThisCpu};

use crate::plays::{Copies, Draws, Frees, Looks, Meets};
use crate::rule::Token;
use crate::shared::Shared;
use crate::table_words::TableWords;
use event_log::{CpuId, LockId};
use layer_traits::{Mark, SplitEdit};
use std::marker::Model;

/// The right to act for one CPU at one table, and all that the CPU has seen there. It may be moved
/// between threads; there is one for each CPU of the table.
///
/// In a contract it is a seat view: its CPU, its table, the table's opening blocks, and the words
/// log that was seen, newest first.
#[derive(Drop)]
pub struct Key<E: SplitEdit> {
    pub(crate) token: Token<E>,
    pub(crate) cpu: CpuId,
    // The ticket that the CPU drew last; it determines the word by which the CPU releases the lock.
    pub(crate) ticket: u64,
}

impl<E: SplitEdit> Model for Key<E> {
    ghost use Rattle.table_machine.specs.SeatViews.{SeatView, IsKey};

    ghost Value = { SeatView E E.Block };

    ghost view = { λ k. record { cpu = k.cpu; table = k.token.table_id; start = k.token.me.0.start; history = k.token.me.0.history } };

    ghost invariant = { λ k. IsKey E.protocol k.cpu k.ticket k.token.me };
}

impl<E: SplitEdit> Key<E> {
    /// Returns the CPU whose key it is.
    pub fn cpu(&self) -> CpuId
        ensures { result ≡ self.now.cpu }
    {
        self.cpu
    }

    // Law: what was seen is legal.
    pub(crate) fn lawful(&self)
        ensures { IsLawful (MayCome (E.protocol.allowed (opened self.now.start))) self.now.history }
    {
        let _token = &self.token;
    }

    // Adds 1 to `next` and returns the old value.
    pub(crate) fn draw<K: TableWords>(&mut self, shared: &Shared<E, K>, lock: LockId) -> u64
        requires of { IsOf shared.now self.old }
        requires lock { IsSome (opened self.old.start lock) }
        requires outside { lock_phase self.old.cpu self.old.history ≡ Idle }
        ensures same { self.new ≡ record self.old { history = self.new.history } }
        ensures adds { Adds (IsThisCpu self.old.cpu) cpu_of_event (Draw self.old.cpu lock result)
            self.old.history self.new.history }
        ensures legal { IsLawful (MayCome (E.protocol.allowed (opened self.old.start)))
            self.new.history }
    {
        let word = shared.word(lock, 0);
        let table = &shared.table.shared;
        let ticket = table.fetch_add::<Draws<E>>(&mut self.token, word, 1);
        self.ticket = ticket;
        ticket
    }

    // Reads the ticket's word, and takes the block if the ticket is served.
    pub(crate) fn look<K: TableWords>(
        &mut self,
        shared: &Shared<E, K>,
        lock: LockId,
        ticket: u64,
    ) -> Option<E::Block>
        requires of { IsOf shared.now self.old }
        requires lock { IsSome (opened self.old.start lock) }
        requires waiting { lock_phase self.old.cpu self.old.history ≡ Waiting lock ticket }
        ensures same { self.new ≡ record self.old { history = self.new.history } }
        ensures adds { (read : ℕ)
            × Adds (IsThisCpu self.old.cpu) cpu_of_event (Look self.old.cpu lock ticket read)
            self.old.history self.new.history }
        ensures hits { MatchOption result
            (lock_phase self.old.cpu self.new.history ≡ Waiting lock ticket)
            (λ block. (lock_phase self.old.cpu self.new.history ≡ Holding lock ticket)
            × (block_after E.protocol.edited (opened self.old.start) lock
            (sections self.new.history)
            ≡ Some block)) }
        ensures legal { IsLawful (MayCome (E.protocol.allowed (opened self.old.start)))
            self.new.history }
    {
        let word = shared.word(lock, K::looks_at(ticket));
        let rank = shared.rank(lock);
        let table = &shared.table.shared;
        let found = table.load::<Looks<E, K>>(&mut self.token, word);
        if !K::serves(ticket, found) {
            return None;
        }
        let slot = self.token.slot_mut(table, rank);
        slot.take()
    }

    // Puts the block into its slot, and releases the lock by the word of the CPU's ticket.
    pub(crate) fn free<K: TableWords>(
        &mut self,
        shared: &Shared<E, K>,
        lock: LockId,
        block: E::Block,
        edit: E,
    )
        requires of { IsOf shared.now self.old }
        requires lock { IsSome (opened self.old.start lock) }
        requires inside { (ticket : ℕ)
            × (lock_phase self.old.cpu self.old.history ≡ Holding lock ticket) }
        requires edited { option_map (E.protocol.edited edit)
            (block_after E.protocol.edited (opened self.old.start) lock (sections self.old.history))
            ≡ Some block }
        requires allowed { StaysAllowed (E.protocol.allowed (opened self.old.start))
            (sections self.old.history) (section self.old.cpu lock edit) }
        ensures same { self.new ≡ record self.old { history = self.new.history } }
        ensures adds { Adds (IsThisCpu self.old.cpu) cpu_of_event
            (Free self.old.cpu lock (mark_of edit)) self.old.history self.new.history }
        ensures legal { IsLawful (MayCome (E.protocol.allowed (opened self.old.start)))
            self.new.history }
    {
        let word = shared.word(lock, K::gives_at(self.ticket));
        let rank = shared.rank(lock);
        let table = &shared.table.shared;
        let slot = self.token.slot_mut(table, rank);
        slot.put(block, edit);
        match K::stores(self.ticket) {
            Some(number) => table.store::<Frees<E>>(&mut self.token, word, number),
            None => {
                table.fetch_add::<Frees<E>>(&mut self.token, word, 1);
            }
        }
    }

    // Returns what was seen, in a token that acts for no CPU.
    pub(crate) fn notes<K: TableWords>(&mut self, shared: &Shared<E, K>) -> Token<E>
        requires { IsOf shared.now self.old }
        ensures same { self.new ≡ self.old }
        ensures table { result.table_id ≡ self.old.table }
        ensures notes { result.me ≡ (caught_up self.old.start [] self.old.history, []) }
    {
        shared.table.shared.split_seat::<Copies>(&mut self.token)
    }

    // Merges what the token has seen.
    pub(crate) fn take_in<K: TableWords>(&mut self, shared: &Shared<E, K>, notes: Token<E>)
        requires of { IsOf shared.now self.old }
        requires table { notes.table_id ≡ self.old.table }
        requires notes { (notes.me.1 ≡ []) × (notes.me.0.cpus ≡ []) }
        ensures same { self.new ≡ record self.old { history = self.new.history } }
        ensures begins { EndsWith self.new.history notes.me.0.history }
        ensures grows { Grows (IsThisCpu self.old.cpu) cpu_of_event self.old.history
            self.new.history }
        ensures legal { IsLawful (MayCome (E.protocol.allowed (opened self.old.start)))
            self.new.history }
    {
        let table = &shared.table.shared;
        table.join_seat::<Copies>(&mut self.token, notes);
        table.load::<Meets<E>>(&mut self.token, 0);
    }
}
