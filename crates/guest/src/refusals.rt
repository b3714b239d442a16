//! What can be wrong with a program, and where.

ghost use Rattle.std.specs.Prelude.{◌≡◌};
ghost use Rattle.event_log.specs.Refusals.{no_memory};
ghost use Rattle.guest.specs.declared.refusals.GuestError.TheVariants as error;

use event_log::NoMemory;
use std::alloc::{AllocError, AllocFailed};
use thiserror::Error;

/// What is wrong with a line of a program. Each prints as its name and its number.
#[derive(Clone, Copy, Debug, PartialEq, Eq, Error)]
pub enum GuestFault {
    /// The first piece is not one of the eleven words, or the line does not have the word's number
    /// of pieces.
    #[error("UnknownWord(10)")]
    UnknownWord,
    /// A register is expected, and the piece is not one of `r0` to `r7`.
    #[error("BadRegister(11)")]
    BadRegister,
    /// A number is expected, and the piece is not a number, or is one that is too large.
    #[error("BadNumber(12)")]
    BadNumber,
    /// The target of a jump or of a call is not a line of the program.
    #[error("BadTarget(13)")]
    BadTarget,
    /// The program has more than 256 lines.
    #[error("TooLong(14)")]
    TooLong,
    /// The program has no line.
    #[error("Empty(15)")]
    Empty,
}

/// Why a program was not read.
#[derive(Clone, Copy, Debug, PartialEq, Eq, Error)]
pub enum GuestError {
    /// An allocation failed.
    #[error("NoMemory(1)")]
    NoMemory(NoMemory),
    /// The first line with a fault, counted from 0, and its first fault.
    #[error("line {0} {1}")]
    At(usize, GuestFault),
}

impl From<AllocError> for GuestError {
    ghost from_gives = { λ _ e. e ≡ error.NoMemory no_memory };

    fn from(error: AllocError) -> GuestError {
        GuestError::NoMemory(NoMemory::from(error))
    }
}

impl<T: Drop> From<AllocFailed<T>> for GuestError {
    ghost from_gives = { λ _ e. e ≡ error.NoMemory no_memory };

    fn from(error: AllocFailed<T>) -> GuestError {
        GuestError::NoMemory(NoMemory::from(error))
    }
}
