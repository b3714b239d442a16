//! The step table of one CPU. It determines which section the CPU performs next, what each section
//! makes of its block, and what the section's result makes of the CPU's private state. It implies
//! that no wake-up is lost, and that in a quiescent system no thread can make progress. It also
//! determines how many steps a call takes while only its CPU steps.
//!
//! A plan is run for 21 steps of CPU 0; `I` is the top of the layers:
//!
//! ```rust
//! let boot = Boot::read(alloc, plan)?;
//! let mut system = System::<I>::open(alloc, &boot, 21)?;
//! system.run(&[CpuId(0); 21])?;
//! let done = system.trace(CpuId(0)); // what its calls did, oldest first
//! let left = system.buffer(BufId(0)); // what buffer 0 holds
//! ```
#![tactic(auto)]

mod cpus;
mod guest_tables;
mod guests;
mod laws;
mod systems;

pub use cpus::{Choice, Cpu};
pub use guest_tables::Guests;
pub use guests::{Guest, GuestStage, NextAction};
pub use laws::{
    calls_return_alone, cpus_lose_no_wake_up, free_locks_have_no_sleepers, halts_exactly,
    linear_runs_keep_real_time, one_signal_loses_a_wake_up, order_loses_no_wake_up,
    plans_are_lines, premises_are_met, quiet_is_stuck, runs_alone, runs_of_closing, runs_of_three,
    runs_of_two, runs_of_words, silent_answer_loses_a_wake_up, stand_in_one_place,
    systems_keep_order, systems_lose_no_wake_up, systems_serve_in_order, table_has_one_order,
    table_keeps_real_time, tables_agree, work_is_a_run,
};
pub use systems::{BadCpu, System, guests_of, homes_of};
