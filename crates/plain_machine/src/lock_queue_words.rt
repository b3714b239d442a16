//! The words of one lock, which order the CPUs that wait for it. No function allocates or blocks.

ghost use Rattle.std.specs.Prelude.{◌≡◌, ℕ, ◌+◌, ◌%◌, ◌^◌, ◌<◌, ◌≤◌, ◌==◌};
ghost use Rattle.event_log.specs.declared.ids.TheConstants.{CPUS};

use event_log::CPUS;

/// The words of one lock. They represent two exact counts: how many ticket indices of the
/// lock were taken, and how often the lock was released.
pub trait LockQueueWords: Copy + Drop {
    /// After so many ticket indices taken and so many releases, the words may be these.
    ghost Coupling: { ℕ → ℕ → Self → Type 0 };

    /// Returns the words of a lock that no CPU has used.
    fn fresh() -> Self
        ensures { Coupling 0 0 result };

    /// Takes a ticket index, and returns its ticket: how many were taken before, modulo 2^64.
    fn take(&mut self) -> u64
        ensures { (taken given : ℕ) → Coupling taken given self.old
            → (result ≡ taken % 2 ^ 64) × Coupling (taken + 1) given self.new };

    /// Returns whether the ticket index of this ticket is served. The words determine it exactly
    /// among ticket indices that are as near one another as those of the CPUs of one machine.
    fn serves(&self, ticket: u64) -> bool
        ensures { (taken given ticket_index : ℕ) → Coupling taken given self.now
            → given ≤ ticket_index
            → ticket_index < given + CPUS → ticket ≡ ticket_index % 2 ^ 64
            → result ≡ (given == ticket_index) };

    /// Releases the lock: the next ticket index is served.
    fn give(&mut self)
        ensures { (taken given : ℕ) → Coupling taken given self.old
            → Coupling taken (given + 1) self.new };
}

/// The two words of a ticket lock (Mellor-Crummey and Scott 1991), both modulo 2^64.
#[derive(Clone, Copy, Debug, PartialEq, Eq)]
pub struct LockWords {
    /// The ticket that the next draw returns: how often a ticket of the lock was drawn.
    pub next: u64,
    /// The ticket whose poll succeeds: how often the lock was freed.
    pub serving: u64,
}

impl LockQueueWords for LockWords {
    ghost use Rattle.plain_machine.specs.Coupled.{TicketsFit};

    ghost Coupling = { λ taken given w. TicketsFit taken given w };

    fn fresh() -> LockWords {
        LockWords {
            next: 0,
            serving: 0,
        }
    }

    #[inline(always)]
    fn take(&mut self) -> u64 {
        let ticket = self.next;
        self.next = ticket.wrapping_add(1);
        ticket
    }

    #[inline(always)]
    fn serves(&self, ticket: u64) -> bool {
        self.serving == ticket
    }

    #[inline(always)]
    fn give(&mut self) {
        self.serving = self.serving.wrapping_add(1);
    }
}

/// The words of a lock with a grant word for each waiter, as in Anderson's array lock (1990), all
/// modulo 2^64.
#[derive(Clone, Copy, Debug, PartialEq, Eq)]
pub struct GrantLockWords {
    /// The ticket that the next take returns: how many were taken.
    pub next: u64,
    /// The grant words. Ticket n has the word n modulo [`CPUS`], which holds n + 1 once the ticket
    /// is served.
    pub words: [u64; CPUS],
}

/// The words of a lock with grant words, and the ticket that is served. A give needs it, because it
/// stores for the next ticket and has no ticket as an argument.
#[derive(Clone, Copy)]
pub struct Granting {
    /// The lock's words.
    pub lock: GrantLockWords,
    /// The ticket that is served: that of the CPU in the critical section, if there is one.
    pub served: u64,
}

impl LockQueueWords for Granting {
    ghost use Rattle.plain_machine.specs.Coupled.{GrantsFit};

    ghost Coupling = { λ taken given w. GrantsFit taken given w };

    fn fresh() -> Granting {
        let mut words = [0; CPUS];
        words[0] = 1;
        Granting {
            lock: GrantLockWords { next: 0, words },
            served: 0,
        }
    }

    #[inline(always)]
    fn take(&mut self) -> u64 {
        let ticket = self.lock.next;
        self.lock.next = ticket.wrapping_add(1);
        ticket
    }

    #[inline(always)]
    fn serves(&self, ticket: u64) -> bool {
        self.lock.words[word_of(ticket)] == ticket.wrapping_add(1)
    }

    #[inline(always)]
    fn give(&mut self) {
        let next = self.served.wrapping_add(1);
        self.lock.words[word_of(next)] = next.wrapping_add(1);
        self.served = next;
    }
}

/// Returns the index of the grant word that a ticket polls.
#[inline(always)]
fn word_of(ticket: u64) -> usize
    ensures is { result ≡ ticket % CPUS }
    ensures within { result < CPUS }
{
    ticket as usize % CPUS
}
