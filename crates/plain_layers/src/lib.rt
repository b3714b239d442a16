//! One-step machines: each layer's specification as a machine that keeps what is below as lists and
//! does a whole call in one step.
//!
//! A critical section in one step:
//!
//! ```text
//! let mut machine = PlainLock::<AddOne>::open(alloc, blocks, 1)?;
//! let mut part = PlainLock::<AddOne>::part(CpuId(0), &[], 1);
//! let call = LockCall { lock, edit: AddOne };
//! let answer = part.poll(&mut machine, call, &mut payload); // Some: it is done
//! ```
#![tactic(auto)]

mod attempt_layers;
mod attempts;
mod backoff;
mod fifos;
mod ipcs;
mod kernel;
mod lock_table;
mod locks;
mod qlock_edits;
mod qlocks;
mod queues;
mod scheds;
mod sleepers;
mod wholes;

pub use attempt_layers::{OpensAttempts, plain_buffers};
pub use attempts::{Ask, Attempt, PlainBuffer, Tried, closed_buffers_let_all_go};
pub use backoff::Backoff;
pub use fifos::PlainFifo;
pub use ipcs::{PlainIpc, ipc_is_whole};
pub use kernel::{Lists, Opening, PlainKernel};
pub use lock_table::{LockTable, Noted};
pub use locks::PlainLock;
pub use qlock_edits::{PlainQLockBlock, PlainQLockCall, plain_locks};
pub use qlocks::{PlainQLock, Unanswered, lock_is_whole};
pub use queues::PlainQueues;
pub use scheds::PlainSched;
pub use sleepers::{PlainCond, PlainSleep, cond_is_whole, sleep_is_whole};
pub use wholes::whole;
