//! Reads a plan: how many CPUs a system has, how many entries each may trace, the capacities of
//! its buffers, which lock they use, and each thread's CPU and program. A plan is a TOML document.
//!
//! A `Boot` is within all limits: code that builds from a `Boot` does not test them again.
//!
//! ```rust
//! use boot::{Boot, LockKind};
//!
//! let plan = "cpus = 1\ntrace = 4\nbuffers = [1]\nthread = [{ cpu = 0, program = ['exit'] }]";
//! let boot = Boot::read(alloc, plan)?;
//! assert_eq!(rt; boot.threads(), 1);
//! assert_eq!(rt; boot.lock(), LockKind::Grant);
//! ```
#![tactic(auto)]

mod locks;
mod numbers;
mod plans;
mod refusals;
mod tables;
mod tasks;

pub use locks::LockKind;
pub use plans::Boot;
pub use refusals::{BootError, PlanKey};
