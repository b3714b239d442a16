//! Locks over shared atomic words: a table that threads share, and a seat (a per-CPU handle) at it
//! for each CPU. One implementation serves both kinds of words, those of ticket locks and those
//! with a grant word for each waiter. A seat satisfies the same law of words as the owned machine.
//! No function waits for another thread, and no lock of the operating system is used.
//!
//! A table of two CPUs, and one section of the second of them at its seat:
//!
//! ```text
//! let (shared, mut keys) = Shared::<AddOne, TicketWords>::open(alloc, blocks, 2)?;
//! let mut seat = shared.seat(keys.pop()?);
//! let ticket = seat.draw(CpuId(1), lock);
//! let block = seat.look(CpuId(1), lock, ticket)?; // None: another CPU is before it
//! seat.free(CpuId(1), lock, block + 1, mark);
//! keys.push(seat.back())?;
//! let blocks = shared.close(keys);
//! ```
#![tactic(auto)]

mod close;
mod keys;
mod open;
mod plays;
mod rule;
mod seats;
mod shared;
mod stored_words;
mod table_words;
mod views;

pub use keys::Key;
pub use seats::{GrantSeat, Seat, meet};
pub use shared::{GrantShared, Shared};
pub use stored_words::StoredWords;
pub use table_words::{TableWords, TicketWords, WaiterWords};
