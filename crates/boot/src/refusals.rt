//! What can be wrong with a plan, and where.

ghost use Rattle.std.specs.Prelude.{◌≡◌};
ghost use Rattle.event_log.specs.Refusals.{no_memory};
ghost use Rattle.boot.specs.declared.refusals.BootError.TheVariants as error;

use event_log::{NoMemory, Tid};
use guest::GuestFault;
use std::alloc::{AllocError, AllocFailed};
use std::fmt;
use thiserror::Error;

/// A key of a plan.
#[derive(Clone, Copy, Debug, PartialEq, Eq)]
pub enum PlanKey {
    /// `cpus`: how many CPUs.
    Cpus,
    /// `trace`: how many entries each CPU may trace.
    Trace,
    /// `buffers`: the capacity of each buffer.
    Buffers,
    /// `lock`: which lock the system uses.
    Lock,
    /// `thread`: the table of each thread.
    Threads,
    /// `cpu` in the table of this thread.
    Cpu(Tid),
    /// `program` in the table of this thread.
    Program(Tid),
}

impl fmt::Display for PlanKey {
    ghost use Rattle.{std.specs.Prelude.Some, boot.specs.Names.key_name};

    ghost output = { λ key. Some (key_name key) };

    fn fmt<W: fmt::Write>(&self, f: &mut fmt::Formatter<W>) -> fmt::Result {
        match self {
            PlanKey::Cpus => write!(f, "cpus"),
            PlanKey::Trace => write!(f, "trace"),
            PlanKey::Buffers => write!(f, "buffers"),
            PlanKey::Lock => write!(f, "lock"),
            PlanKey::Threads => write!(f, "thread"),
            PlanKey::Cpu(thread) => write!(f, "thread {} cpu", thread.0),
            PlanKey::Program(thread) => write!(f, "thread {} program", thread.0),
        }
    }
}

/// Why a plan was not read. Each prints as its name, its number and where it is.
#[derive(Clone, Copy, Debug, PartialEq, Eq, Error)]
pub enum BootError {
    /// An allocation failed.
    #[error("NoMemory(1)")]
    NoMemory(NoMemory),
    /// The text is not a TOML document.
    #[error("BadToml(20)")]
    BadToml,
    /// The key is absent, is of another kind, or has an item of another kind.
    #[error("MissingKey(21) {0}")]
    MissingKey(PlanKey),
    /// A length or a number of the key is out of range, or its name is not a lock's. Or a program
    /// names a buffer that the plan does not have.
    #[error("OutOfRange(22) {0}")]
    OutOfRange(PlanKey),
    /// The program of a thread is rejected: the thread, the line and the fault.
    #[error("Guest(23) thread {} line {line} {fault}", .thread.0)]
    Guest {
        /// The thread.
        thread: Tid,
        /// The line of its program, counted from 0.
        line: usize,
        /// What is wrong with the line.
        fault: GuestFault,
    },
}

impl From<AllocError> for BootError {
    ghost from_gives = { λ _ e. e ≡ error.NoMemory no_memory };

    fn from(error: AllocError) -> BootError {
        BootError::NoMemory(NoMemory::from(error))
    }
}

impl<T: Drop> From<AllocFailed<T>> for BootError {
    ghost from_gives = { λ _ e. e ≡ error.NoMemory no_memory };

    fn from(error: AllocFailed<T>) -> BootError {
        BootError::NoMemory(NoMemory::from(error))
    }
}
