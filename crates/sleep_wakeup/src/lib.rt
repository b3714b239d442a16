//! Sleep and wakeup: sections that put threads to sleep and wake them, over a layer of schedulers.
//!
//! A section that may put its caller to sleep, under the lock of buffer 0, is polled once:
//!
//! ```text
//! let mut part = Sleeper::<E, S>::part(CpuId(0), &homes, 1);
//! let call = BufferCall { buffer: BufId(0), edit: edit.hand_on(&mut payload.message_slot) };
//! match part.poll(&mut machine, call, &mut payload) {
//!     None => {}           // the caller must poll the same call again
//!     Some(outcome) => {}  // done: outcome.slept says whether the caller sleeps
//! }
//! ```
#![tactic(auto)]

mod blocks;
mod deferred;
mod edits;
mod sleeper;

pub use blocks::sleep_blocks;
pub use deferred::DeferredOutcome;
pub use edits::{SleepBlock, SleepEdit};
pub use sleeper::Sleeper;
