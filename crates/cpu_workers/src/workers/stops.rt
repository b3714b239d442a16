//! Why a worker stopped. This module has no function.

/// Why a worker stopped, between two sections of its CPU.
#[derive(Clone, Copy, Debug, PartialEq, Eq)]
pub enum Stop {
    /// Each home thread of the CPU has ended.
    AllEnded,
    /// The CPU is not halted, and its turns are used.
    TurnsUsed,
    /// The CPU's thread is about to begin a call that its trace has no room for.
    TraceFull,
    /// The CPU is not halted, and the gate returned `Limit`.
    Held,
}
