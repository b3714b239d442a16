//! Mesa condition variables (Lampson and Redell 1980) over queuing locks. A thread that may not
//! continue releases the lock and waits, in one event. A signal to the front of a line (wait queue)
//! wakes it.
//!
//! Thread 3, which owns the lock of buffer 0, releases it and waits for a message, in one event:
//!
//! ```text
//! let edit = QLockCall::Release(CvLeave::Wait(Tid(3), Side::Receivers));
//! let call = BufferCall { buffer: BufId(0), edit };
//! let outcome = part.poll(&mut machine, call, &mut payload);
//! // None while it waits; it answers once the thread was woken and runs again
//! ```
#![tactic(auto)]

mod calls;
mod cond;
mod waits;

pub use cond::Cond;
