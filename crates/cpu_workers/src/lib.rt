//! A worker thread for each CPU: the step table's kernel on real threads. Each CPU acts through its
//! own seat at one table of shared words, under a gate.
//!
//! Native threads share one buffer for four messages:
//!
//! ```text
//! let report = run_native(rt, alloc, &[4], natives)?;
//! let left = report.items(BufId(0)); // what no thread received
//!
//! // in `run` of a native
//! caller.send(rt, BufId(0), &Msg::one(7))?;
//! let message = caller.recv(rt, BufId(0)); // None: closed and empty
//! ```
#![tactic(auto)]

mod bells;
pub mod counting;
mod laws;
pub mod locks;
mod natives;
mod own_threads;
mod pauses;
mod pool;
mod refusals;
mod workers;

pub use laws::{
    actions_extend_order, fronts_by_actions, prefixes_keep_order, reports_are_lawful,
    reports_are_runs, returned_come_first, stop_reasons_hold, workers_lose_no_wake_up,
};
pub use locks::{OnLock, PlanWords};
pub use natives::{Native, NativeReport, run_native};
pub use own_threads::{Joined, NoThread};
pub use refusals::WorkerError;
pub use workers::{
    Caller, Came, Closed, Did, Gate, Go, HandoffBackoff, Hints, MOST_CALLS, OpenGate, Report, Stop,
    Worker, call, run_workers, work, work_all,
};
