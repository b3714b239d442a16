//! FIFO spin locks: critical sections over the words of a machine. One implementation serves both
//! kinds of words, tickets and one grant word for each waiter.
//!
//! A part of a ticket lock over the owned machine is polled until it returns a result:
//!
//! ```text
//! let mut machine = Ticket::<Plain<AddOne>>::open(alloc, blocks, 3)?;
//! let mut part = Ticket::<Plain<AddOne>>::part(CpuId(0), &[], 1);
//! let mut payload = Payload::new();
//! for _ in 0..3 {
//!     // None as it draws a ticket, and as its poll succeeds; then Some: the section is done.
//!     let answer = part.poll(&mut machine, LockCall { lock, edit: AddOne }, &mut payload);
//! }
//! ```
#![tactic(auto)]

mod fifo_lock;
mod owned_fifo_lock;
mod sections;
mod spin_lock;
mod stages;

pub use fifo_lock::{FifoLock, UsesGrants, UsesTickets};
pub use owned_fifo_lock::OwnedFifoLock;
pub use sections::whole;
pub use spin_lock::{Grant, SpinLock, Ticket};
