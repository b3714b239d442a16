//! The lowest crate of the tower: the numbers that name CPUs, threads, buffers and locks, and the
//! atomic events. It also has a log of events with a capacity, and the definitions that every layer
//! uses.
//!
//! ```rust
//! use event_log::{BufId, CpuId, Event, EventLog, LockId};
//!
//! let lock = LockId::Buffer(BufId(1));
//! let mut log = EventLog::with_room(alloc, 2)?;
//! log.push(Event::Draw { cpu: CpuId(0), lock, ticket: 0 })?;
//! log.push(Event::Free { cpu: CpuId(0), lock, mark: 7u64 })?;
//! assert_eq!(rt; log.len(), 2);
//! ```
#![tactic(auto)]

mod cells;
mod digits;
mod entries;
mod events;
mod grants;
mod ids;
mod laws;
mod logs;
mod messages;
mod refusals;
mod rings;
mod runs;

pub use cells::{Cells, Ticks};
pub use digits::{SHORT, is_number, leading_digits, number_has_one_spelling, number_to};
pub use entries::{Entry, Kind};
pub use events::Event;
pub use grants::GrantEvent;
pub use ids::{BUFFERS, BufId, CAPACITY, CPUS, CpuId, ENTRIES, LOCKS, LockId, THREADS, TRACE, Tid};
pub use laws::{
    bounded_bypass, free_where_all_rest, freed_once_meanwhile, given_once_meanwhile,
    grants_tell_indices, legal_logs_grow, log_orders_agree, mutual_exclusion,
    mutual_exclusion_grants, one_holds, three_are_one_section, tickets_tell_indices,
};
pub use logs::EventLog;
pub use messages::{Msg, WORDS};
pub use refusals::{LogFull, NoMemory};
pub use rings::Ring;
pub use runs::{received_was_sent, run_by_index, run_grows, run_has_op_order};
