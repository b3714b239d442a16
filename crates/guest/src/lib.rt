//! The guest language: programs of a few instructions over eight registers, and the threads that
//! run them one instruction at a time.
//!
//! A program's next call is a function of what it received: this crate defines the relation of a
//! program to the calls that it makes.
//!
//! ```rust
//! use guest::{Program, Register, Thread};
//!
//! let program = Program::read(alloc, &["set r0 7", "send 0 r0", "exit"])?;
//! let mut thread = Thread::new();
//! thread.step_local(&program);
//! assert_eq!(rt; thread.value(Register::Reg0), 7);
//! ```
#![tactic(auto)]

mod instructions;
mod laws;
mod programs;
mod reading;
mod refusals;
mod threads;

pub use instructions::{Instruction, REGISTERS, Register, Source, Target};
pub use laws::{instruction_has_one_line, steps_keep_calls};
pub use programs::{LINES, Program};
pub use refusals::{GuestError, GuestFault};
pub use threads::Thread;
