//! Schedulers: each CPU's threads and its run queue, over shared queues.
//!
//! A CPU's part over shared queues runs its first thread, which then edits the buffer 0:
//!
//! ```text
//! let mut part = Sched::<SharedQueues<L>>::part(CpuId(0), &homes, 1);
//! part.poll(&mut machine, SchedCall::Pass(Pass::Switch), &mut payload); // completes at once
//! let call = SchedCall::OnBuffer(BufId(0), edit.hand_on(&mut payload));
//! let answer = part.poll(&mut machine, call, &mut payload); // None: poll the same call again
//! ```
#![tactic(auto)]

mod calls;
mod owns;
mod run_queue;
mod sched;

pub use calls::call_beneath;
pub use owns::{pass_locally, take_answer, threads_at_boot};
pub use sched::Sched;
