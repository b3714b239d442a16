//! Why a run gave no trace text, and the error that is then reported. No call takes memory or
//! waits.

ghost use Rattle.std.specs.Prelude.{◌≡◌};
ghost use Rattle.{event_log.specs.Refusals.no_memory, mctower.specs.{Plans.from_boot, Refusals.from_fault, declared.run.run_faults.Fault.TheVariants.NoMemory}};
ghost use Rattle.mctower.specs.declared.run.run_faults.Fault.TheVariants.{BadCpu as BadCpuFault, WriteFault as WriteFailed};

use crate::refusals::Refusal;
use boot::BootError;
use cpu::BadCpu;
use event_log::NoMemory;
use std::alloc::{AllocError, AllocFailed};
use thiserror::Error;
use tracer::{GatherError, WriteFault};

/// Why a run gave no trace text. Each prints as its name, its number and where it is.
#[derive(Clone, Copy, Debug, PartialEq, Eq, Error)]
pub enum Fault {
    /// Out of memory.
    #[error("{0}")]
    NoMemory(NoMemory),
    /// The plan is rejected.
    #[error("{0}")]
    Boot(BootError),
    /// The schedule names a CPU that the plan has not.
    #[error("BadCpu(4)")]
    BadCpu,
    /// The traces have no order that keeps each of them. It never occurs.
    #[error("NoOrder(6)")]
    NoOrder,
    /// A write to the sink failed.
    #[error("WriteFault(8)")]
    WriteFault,
}

impl From<AllocError> for Fault {
    ghost from_gives = { λ _ e. e ≡ NoMemory no_memory };

    fn from(error: AllocError) -> Fault {
        Fault::NoMemory(NoMemory::from(error))
    }
}

impl<T: Drop> From<AllocFailed<T>> for Fault {
    ghost from_gives = { λ _ e. e ≡ NoMemory no_memory };

    fn from(error: AllocFailed<T>) -> Fault {
        Fault::NoMemory(NoMemory::from(error))
    }
}

impl From<NoMemory> for Fault {
    ghost from_gives = { λ _ e. e ≡ NoMemory no_memory };

    fn from(error: NoMemory) -> Fault {
        Fault::NoMemory(error)
    }
}

impl From<BootError> for Fault {
    ghost from_gives = { λ error e. e ≡ from_boot error };

    fn from(error: BootError) -> Fault {
        match error {
            BootError::NoMemory(refused) => Fault::NoMemory(refused),
            refused => Fault::Boot(refused),
        }
    }
}

impl From<BadCpu> for Fault {
    ghost from_gives = { λ _ e. e ≡ BadCpuFault };

    fn from(_error: BadCpu) -> Fault {
        Fault::BadCpu
    }
}

impl From<GatherError> for Fault {
    ghost use Rattle.mctower.specs.Plans.{from_gather};

    ghost from_gives = { λ error e. e ≡ from_gather error };

    fn from(error: GatherError) -> Fault {
        match error {
            GatherError::NoMemory(refused) => Fault::NoMemory(refused),
            GatherError::NoOrder => Fault::NoOrder,
        }
    }
}

impl From<WriteFault> for Fault {
    ghost from_gives = { λ _ e. e ≡ WriteFailed };

    fn from(_error: WriteFault) -> Fault {
        Fault::WriteFault
    }
}

/// Returns a fault of a run as an error.
pub(crate) fn run_refused(fault: Fault) -> Refusal
    ensures { result ≡ from_fault fault }
{
    match fault {
        Fault::NoMemory(refused) => Refusal::NoMemory(refused),
        Fault::Boot(error) => Refusal::Plan(error),
        Fault::BadCpu => Refusal::BadCpu,
        Fault::NoOrder => Refusal::NoOrder,
        Fault::WriteFault => Refusal::WriteFault,
    }
}
