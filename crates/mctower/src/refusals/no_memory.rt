//! Want of memory that a library tells by a kind of error. No call takes memory or waits.
//!
//! [`NoMemory`] is evidence: it is made from the allocator's refusal. `clap` and the readers of `std`
//! do not hand that refusal on, and tell of it by a kind of error alone. So it is made up here, and
//! nowhere else in this crate.

ghost use Rattle.std.specs.Prelude.{◌≡◌, ◌≢◌, MatchOption};
ghost use Rattle.{clap.specs.declared.error.kind.ErrorKind.TheVariants.OutOfMemory, event_log.specs.Refusals.no_memory, mctower.specs.Serve.kind_refused};

use crate::refusals::Refusal;
use clap::error::ErrorKind;
use event_log::NoMemory;
use std::alloc::AllocError;
use std::io;

/// The refusal that a kind of error stands for.
fn refused() -> NoMemory
    ensures { result ≡ no_memory }
{
    NoMemory::from(AllocError)
}

/// The refusal of which an error of `clap` of this kind tells, if it tells one.
pub(crate) fn told_by_clap(kind: ErrorKind) -> Option<NoMemory>
    ensures { MatchOption result (kind ≢ OutOfMemory) (λ _. kind ≡ OutOfMemory) }
{
    match kind {
        ErrorKind::OutOfMemory => Some(refused()),
        _ => None,
    }
}

/// What a failed read refuses, by its kind.
pub(crate) fn read_refused(kind: io::ErrorKind) -> Refusal
    ensures { result ≡ kind_refused kind }
{
    match kind {
        io::ErrorKind::OutOfMemory => Refusal::NoMemory(refused()),
        _ => Refusal::ReadFault,
    }
}
