//! Why no thread did anything. Each error carries evidence that an allocation or the start of a
//! thread failed. No call takes memory or waits.

ghost use Rattle.std.specs.Prelude.{◌≡◌};
ghost use Rattle.{event_log.specs.Refusals.no_memory, cpu_workers.specs.declared.refusals.WorkerError.TheVariants.NoMemory as LacksMemory};

use crate::own_threads::NoThread;
use event_log::NoMemory;
use std::alloc::AllocError;
use thiserror::Error;

/// Why nothing was run.
#[derive(Clone, Copy, Debug, PartialEq, Eq, Error)]
pub enum WorkerError {
    /// Out of memory.
    #[error("{0}")]
    NoMemory(NoMemory),
    /// A thread could not be started.
    #[error("{0}")]
    NoThread(NoThread),
}

impl From<NoMemory> for WorkerError {
    ghost from_gives = { λ _ e. e ≡ LacksMemory no_memory };

    fn from(error: NoMemory) -> WorkerError {
        WorkerError::NoMemory(error)
    }
}

impl From<AllocError> for WorkerError {
    ghost from_gives = { λ _ e. e ≡ LacksMemory no_memory };

    fn from(error: AllocError) -> WorkerError {
        WorkerError::NoMemory(NoMemory::from(error))
    }
}
