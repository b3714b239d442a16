//! The errors of this crate's calls. Each prints as its name and its number.

use std::alloc::{AllocError, AllocFailed};
use thiserror::Error;

/// An allocation failed. Nothing was made. A value of this type is evidence of it: it is made only
/// from the allocator's error.
#[derive(Clone, Copy, Debug, PartialEq, Eq, Error)]
#[error("NoMemory(1)")]
pub struct NoMemory {
    refused: (),
}

impl From<AllocError> for NoMemory {
    fn from(_error: AllocError) -> NoMemory {
        NoMemory { refused: () }
    }
}

impl<T: Drop> From<AllocFailed<T>> for NoMemory {
    fn from(_error: AllocFailed<T>) -> NoMemory {
        NoMemory { refused: () }
    }
}

/// The room of a log is used up. Nothing changed.
#[derive(Clone, Copy, Debug, PartialEq, Eq, Error)]
#[error("LogFull(2)")]
pub struct LogFull;
