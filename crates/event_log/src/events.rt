//! The atomic actions on the words of one lock, as a log records them.

use crate::ids::{CpuId, LockId};

/// One atomic action of a CPU on the two words of a ticket lock, `next` and `serving`. The words
/// and blocks of all locks are the replay of a log of such events (Gu et al., OSDI 2016 and PLDI
/// 2018).
///
/// `M` is the mark of a section: it says what the section did, and is in the event that ends it.
#[derive(Clone, Copy, Debug, PartialEq, Eq)]
pub enum Event<M> {
    /// A fetch-and-add of 1 on `next`: the old value is the ticket.
    Draw {
        /// The CPU that acts.
        cpu: CpuId,
        /// The lock whose word it is.
        lock: LockId,
        /// The old value of `next`, modulo 2^64.
        ticket: u64,
    },
    /// A load of `serving`: one poll. If it reads the ticket, the poll succeeds: the lock's block
    /// passes to the CPU.
    Look {
        /// The CPU that acts.
        cpu: CpuId,
        /// The lock whose word it is.
        lock: LockId,
        /// The ticket that the CPU holds.
        ticket: u64,
        /// The value of `serving`, modulo 2^64.
        read: u64,
    },
    /// A fetch-and-add of 1 on `serving`: the block, edited as the mark says, is stored again.
    Free {
        /// The CPU that acts.
        cpu: CpuId,
        /// The lock whose word it is.
        lock: LockId,
        /// What the section did.
        mark: M,
    },
}
