//! The owned machine: one state that has the words and the blocks of all locks, and stores the log
//! of their events. Its locks have the two words of a ticket lock, or a grant word for each waiter.
//!
//! One section of CPU 0 over the words of a ticket lock:
//!
//! ```text
//! let mut machine = Plain::<AddOne>::open(alloc, blocks, 3)?;
//! let ticket = machine.draw(CpuId(0), lock);
//! let block = machine.look(CpuId(0), lock, ticket)?; // None: another CPU is before it
//! machine.free(CpuId(0), lock, block + 1, mark);
//! ```
#![tactic(auto)]

mod cells;
mod lock_queue_words;
mod logged_edits;
mod notes;
mod plain;
mod stored_words;

pub use lock_queue_words::{GrantLockWords, Granting, LockQueueWords, LockWords};
pub use logged_edits::LoggedEdit;
pub use plain::{GrantPlain, Plain};
pub use stored_words::StoredWords;
