//! The layer of message calls, the top of the tower. It rejects a number that is no buffer's at
//! once, and its parts report the place of each thread.
//!
//! CPU 0's part of the tower over a machine of locks, and one poll of thread 0's receive:
//!
//! ```text
//! let mut part = part_over(&machine, CpuId(0), &[4], &[CpuId(0)]);
//! part.pass(&mut machine, Pass::Switch); // thread 0 runs
//! let reply = part.poll(&mut machine, Tid(0), &Call::Recv(BufId(0)));
//! ```
#![tactic(auto)]

mod ipc;
mod monitor_tower;
mod opening;
mod stepwise;
mod tower;
mod whole;

pub use ipc::Ipc;
pub use monitor_tower::{
    MonitorLockLaws, MonitorOver, MonitorTowerBlock, MonitorTowerEdit, MonitorTowerLaws,
    MonitorTowerRequest, monitor_blocks, monitor_part_over,
};
pub use opening::{
    LockEdit, OpensBlocks, OpensBuffers, OpensLocks, OpensQueues, OpensScheds, opening_blocks,
};
pub use stepwise::{
    StepwiseBuffers, StepwiseLocks, StepwiseQueues, StepwiseScheds, StepwiseSections,
    tower_is_stepwise,
};
pub use tower::{
    TowerBlock, TowerEdit, TowerLaws, TowerLockLaws, TowerOver, TowerRequest, part_over,
    tower_blocks,
};
pub use whole::{WholeBuffers, calls_are_whole};
