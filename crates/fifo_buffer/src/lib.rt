//! First-in first-out blocking bounded buffers over locks with conditions. A caller enters the line
//! (wait queue) of its side, and the first of a line continues once the buffer allows it.
//!
//! One poll of thread 3's send to buffer 0:
//!
//! ```text
//! let mut part = Fifo::<C>::part(CpuId(0), &homes, 1);
//! let call = Call::Send(BufId(0), Msg::one(7));
//! let reply = part.poll(&mut machine, Tid(3), &call); // None: poll the same call again
//! ```
#![tactic(auto)]

mod blocks;
mod call_state_table;
mod fifo;
mod laws;
mod monitor;
mod monitor_blocks;
mod monitor_calls;
mod monitor_laws;
mod sections;

pub use blocks::empty_blocks;
pub use fifo::Fifo;
pub use laws::{first_come_first_served, positions_are_counts};
pub use monitor::Monitor;
pub use monitor_blocks::{Front, MonitorAsk, MonitorBlock, MonitorEdit, MonitorReply};
pub use monitor_laws::{
    free_monitors_strand_no_thread, monitor_loses_no_wake_up, monitor_sections_are_lawful,
    monitor_serves_in_order,
};
