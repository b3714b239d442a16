//! An example of another lock: a ticket lock that is released by a store. No plan can name it.

ghost use Rattle.std.specs.Prelude.{◌≡◌, ℕ, ◌+◌, ◌%◌, ◌^◌, ◌<◌, ◌≤◌, ◌==◌};
ghost use Rattle.event_log.specs.declared.ids.TheConstants.{CPUS};

use crate::LockQueueWords;

/// The words of a ticket lock whose holder releases it by a store, and the ticket that is served. A
/// give needs it, because it stores the next ticket and has no ticket as an argument. All are
/// modulo 2^64.
#[derive(Clone, Copy, Debug, PartialEq, Eq)]
pub struct StoredWords {
    /// The ticket that the next take returns: how many were taken.
    pub next: u64,
    /// What was stored last: the ticket whose poll succeeds.
    pub serving: u64,
    /// The ticket that is served: that of the CPU in the critical section, if there is one.
    pub served: u64,
}

impl LockQueueWords for StoredWords {
    ghost Coupling = { λ taken given w. (w.next ≡ taken % 2 ^ 64) × (w.serving ≡ given % 2 ^ 64) × (w.served ≡ given % 2 ^ 64) };

    fn fresh() -> StoredWords {
        StoredWords {
            next: 0,
            serving: 0,
            served: 0,
        }
    }

    #[inline(always)]
    fn take(&mut self) -> u64 {
        let ticket = self.next;
        self.next = ticket.wrapping_add(1);
        ticket
    }

    #[inline(always)]
    fn serves(&self, ticket: u64) -> bool {
        self.serving == ticket
    }

    #[inline(always)]
    fn give(&mut self) {
        let next = self.served.wrapping_add(1);
        self.serving = next;
        self.served = next;
    }
}
