//! The actors of a CPU at a table of shared words: a worker follows the step table, a caller runs
//! native code. A caller is built on `calling`. A worker takes its `turns` under a gate, until it
//! stops. `starting` runs many workers in threads, `seating` runs each over its seat, and `run`
//! runs those of a plan and makes a report of them.

mod callers;
mod calling;
mod gates;
mod handoff_backoff;
mod hints;
mod idlers;
pub(crate) mod report;
pub(crate) mod run;
mod seating;
pub(crate) mod seats;
mod starting;
mod stops;
mod turns;
mod worker;

pub use callers::{Caller, Closed, MOST_CALLS};
pub use calling::call;
pub use gates::{Gate, Go, OpenGate};
pub use handoff_backoff::HandoffBackoff;
pub use hints::Hints;
pub use report::Report;
pub use run::run_workers;
pub use starting::{Came, work_all};
pub use stops::Stop;
pub use turns::{Did, work};
pub use worker::Worker;
