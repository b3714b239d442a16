//! The words of one lock in a table, which order the CPUs that wait for it. No function allocates
//! or blocks.

ghost use Rattle.std.specs.Prelude.{◌≡◌};

use event_log::CPUS;

/// The words of one lock and their operations, as numbers. The table stores the words by their
/// numbers; word 0 is `next`, which issues tickets. No method touches a table.
pub trait TableWords: Drop {
    ghost use Rattle.table_machine.specs.Kinds.{WordKind, IsWordKind};

    /// The words, as data.
    ghost kind: { WordKind };

    /// Returns what word 1 holds when the table opens; every other word holds 0.
    fn opens() -> u64
        ensures { result ≡ kind.opens };

    /// Returns the word that a CPU polls while it waits with this ticket.
    fn looks_at(ticket: u64) -> usize
        ensures { result ≡ kind.looks_at ticket };

    /// Returns whether the ticket is served, by the number that its word held.
    fn serves(ticket: u64, read: u64) -> bool
        ensures { result ≡ kind.serves ticket read };

    /// Returns the word that the CPU which holds this ticket writes to release the lock.
    fn gives_at(ticket: u64) -> usize
        ensures { result ≡ kind.gives_at ticket };

    /// Returns what that CPU stores there; `None` if it adds 1.
    fn stores(ticket: u64) -> Option<u64>
        ensures { result ≡ kind.stores ticket };

    /// Law: the words determine exactly which ticket index is served.
    ghost lawful: { IsWordKind kind };
}

/// The words of a ticket lock (Mellor-Crummey and Scott 1991): `next`, and `serving`, which all
/// waiters poll.
#[derive(Drop)]
pub struct TicketWords;

impl TableWords for TicketWords {
    ghost use Rattle.table_machine.specs.{Kinds.ticket_words, Laws.KindLaws.tickets_are};

    ghost kind = { ticket_words };

    #[inline(always)]
    fn opens() -> u64 {
        0
    }

    #[inline(always)]
    fn looks_at(_ticket: u64) -> usize {
        1
    }

    #[inline(always)]
    fn serves(ticket: u64, read: u64) -> bool {
        read == ticket
    }

    #[inline(always)]
    fn gives_at(_ticket: u64) -> usize {
        1
    }

    #[inline(always)]
    fn stores(_ticket: u64) -> Option<u64> {
        None
    }

    ghost lawful = { tickets_are };
}

/// The words of a lock with a grant word for each waiter, as in Anderson's array lock (1990):
/// `next`, and a word for each CPU. A waiter polls the word of its ticket, modulo
/// [`event_log::CPUS`], which no other CPU polls.
#[derive(Drop)]
pub struct WaiterWords;

impl TableWords for WaiterWords {
    ghost use Rattle.table_machine.specs.{Kinds.grant_words, Laws.KindLaws.grants_are};

    ghost kind = { grant_words };

    #[inline(always)]
    fn opens() -> u64 {
        1
    }

    #[inline(always)]
    fn looks_at(ticket: u64) -> usize {
        ticket as usize % CPUS + 1
    }

    #[inline(always)]
    fn serves(ticket: u64, read: u64) -> bool {
        read == ticket.wrapping_add(1)
    }

    #[inline(always)]
    fn gives_at(ticket: u64) -> usize {
        ticket.wrapping_add(1) as usize % CPUS + 1
    }

    #[inline(always)]
    fn stores(ticket: u64) -> Option<u64> {
        Some(ticket.wrapping_add(2))
    }

    ghost lawful = { grants_are };
}
