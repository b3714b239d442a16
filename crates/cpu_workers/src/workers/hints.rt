//! Hints that a machine gives besides its events. With them a CPU chooses when it takes its next
//! turn. No clause depends on a hint.

use event_log::{BufId, CpuId};
use std::sync::Wait;

/// A machine that may give hints: how often the lock of a buffer was requested, and how often a
/// CPU's bell was rung. A machine may have a bell for each CPU, at which an idle CPU parks. A
/// machine without bells uses the defaults.
pub trait Hints {
    /// Returns how many tickets were drawn at the lock of a buffer, modulo 2^64. It is a hint: any
    /// number is allowed. The default is 0.
    fn next_hint(&self, _buffer: BufId) -> u64 {
        0
    }

    /// Returns how often the CPU's bell was rung. It is a hint: any number is allowed.
    fn rings(&self, _cpu: CpuId) -> u64 {
        0
    }

    /// Parks the CPU of a native until its bell was rung more than `rung` times, or for a while, or
    /// not at all.
    fn park_native<R: Wait>(&self, _rt: &R, _cpu: CpuId, _rung: u64) {}

    /// Parks the CPU of a worker as [`park_native`](Self::park_native) does, unless all other CPUs
    /// are parked: then no CPU can ring its bell.
    fn park_worker<R: Wait>(&self, _rt: &R, _cpu: CpuId, _rung: u64) {}

    /// Notes that a worker at this machine has stopped.
    fn leave(&self) {}
}
