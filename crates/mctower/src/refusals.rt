//! Errors: why an order was not done, and the exit status. No call takes memory or waits.

ghost use Rattle.std.specs.Prelude.{◌≡◌};
ghost use Rattle.mctower.specs.Refusals.{from_worker, status_of_refusal};

pub mod line_faults;
pub(crate) mod no_memory;
pub(crate) mod shown_texts;

use crate::refusals::line_faults::LineFault;
use boot::BootError;
use cpu_workers::{NoThread, WorkerError};
use event_log::NoMemory;

/// Why an order was not done. Each except `BadLine` is reported with its name and its number.
#[derive(Clone, Copy, Debug, PartialEq, Eq)]
pub enum Refusal {
    /// The words are no command line of this program: what is wrong with them is reported.
    BadLine(LineFault),
    /// Out of memory.
    NoMemory(NoMemory),
    /// The schedule names a CPU that the plan has not.
    BadCpu,
    /// A thread could not be started.
    NoThread(NoThread),
    /// The traces have no order that keeps each of them. It never occurs.
    NoOrder,
    /// Standard input could not be read.
    ReadFault,
    /// Standard output could not be written; a prefix may be out.
    WriteFault,
    /// The text is no schedule.
    BadSchedule,
    /// The plan is rejected.
    Plan(BootError),
}

/// Returns the error if no worker took a step, or did no section of a count.
pub(crate) fn worker_refused(error: WorkerError) -> Refusal
    ensures { result ≡ from_worker error }
{
    match error {
        WorkerError::NoMemory(refused) => Refusal::NoMemory(refused),
        WorkerError::NoThread(refused) => Refusal::NoThread(refused),
    }
}

/// Returns the exit status of an error: 2 if the command line is a bad one, else 1.
pub(crate) fn status_of_refusal(refusal: &Refusal) -> u8
    ensures { result ≡ status_of_refusal refusal.now }
{
    match refusal {
        Refusal::BadLine(_) | Refusal::BadSchedule => 2,
        _ => 1,
    }
}
