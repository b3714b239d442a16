//! The atomic actions on the words of a lock that has a grant word for each waiter.

use crate::ids::{CpuId, LockId};

/// One atomic action of a CPU on the words of a lock with grant words. Such a lock has a word
/// `next`, and a grant word for each of the [`CPUS`](crate::CPUS) CPUs that may wait. Each waiter
/// polls a separate word (Mellor-Crummey and Scott, 1991; Anderson's array lock, 1990).
///
/// The CPU with ticket index `n` waits at the grant word `n % CPUS`, and enters once that word
/// holds `n + 1`. At the start word 0 holds 1 and the others hold 0.
#[derive(Clone, Copy, Debug, PartialEq, Eq)]
pub enum GrantEvent<M> {
    /// A fetch-and-add of 1 on `next`: the old value is the ticket.
    Take {
        /// The CPU that acts.
        cpu: CpuId,
        /// The lock whose word it is.
        lock: LockId,
        /// The old value of `next`, modulo 2^64.
        ticket: u64,
    },
    /// A load of the ticket's grant word: one poll. If it reads the ticket plus 1, the poll
    /// succeeds: the lock's block passes to the CPU.
    Peek {
        /// The CPU that acts.
        cpu: CpuId,
        /// The lock whose word it is.
        lock: LockId,
        /// The ticket that the CPU holds.
        ticket: u64,
        /// The value of the grant word, modulo 2^64.
        read: u64,
    },
    /// A store of the ticket plus 2 in the next ticket's grant word: the block, edited as the mark
    /// says, is stored again.
    Give {
        /// The CPU that acts.
        cpu: CpuId,
        /// The lock whose word it is.
        lock: LockId,
        /// What the section did.
        mark: M,
    },
}
