//! The queuing lock, a sleeping mutex with direct hand-off. A thread that finds it taken sleeps,
//! and a release makes the first sleeper its owner, without freeing it in between.
//!
//! Thread 3 asks for the lock of buffer 0, and is polled until it owns it:
//!
//! ```text
//! let mut part = QLock::<S>::part(CpuId(0), &homes, 1);
//! let edit = QLockCall::Acquire(Tid(3));
//! let call = BufferCall { buffer: BufId(0), edit };
//! let outcome = part.poll(&mut machine, call, &mut payload); // None: poll it again
//! ```
#![tactic(auto)]

mod blocks;
mod edits;
mod qlock;
mod slept;

pub use blocks::lock_blocks;
pub use edits::{QLockBlock, QLockSection};
pub use qlock::QLock;
