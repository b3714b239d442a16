//! Shared queues: each CPU's queue of pending threads and each buffer's block, under locks.
//!
//! A machine of two CPUs over the locks `L`, and one poll of an edit of the buffer 0:
//!
//! ```text
//! let homes = [CpuId(0), CpuId(1)];
//! let mut machine = L::open(alloc, queue_blocks(alloc, blocks, 2, &homes)?, 100)?;
//! let mut part = SharedQueues::<L>::part(CpuId(0), &homes, 1);
//! let call = QueueCall::OnBuffer(BufId(0), edit.hand_on(&mut payload));
//! let answer = part.poll(&mut machine, call, &mut payload); // None: poll the same call again
//! ```
#![tactic(auto)]

mod opening;
mod shared;

pub use opening::queue_blocks;
pub use shared::SharedQueues;
