//! Queues of threads, each over a table of linked nodes.
//!
//! ```rust
//! use event_log::Tid;
//! use thread_blocks::ThreadQueue;
//!
//! let mut queue = ThreadQueue::new();
//! queue.push(Tid(3));
//! queue.push(Tid(1));
//! assert_eq!(rt; queue.pop(), Some(Tid(3)));
//! assert_eq!(rt; queue.len(), 1);
//! ```
#![tactic(auto)]

mod lists;
mod nodes;
mod queues;

pub use lists::ThreadList;
pub use queues::ThreadQueue;
