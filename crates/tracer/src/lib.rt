//! Traces: the order of several traces, the text of a trace, and the judge of such a text.
//!
//! ```rust
//! use tracer::{Reason, Verdict, check};
//!
//! let text = b"mctower-trace 1\nbuffers 1\ncap 0 1\ne 0 0 send 0 7 0 0\nleft 0 7\nend\n";
//! assert_eq!(rt; check(text), Verdict::Yes);
//! assert_eq!(rt; check(b"mctower-trace 9\n"), Verdict::No(1, Reason::Spelling));
//! ```
#![tactic(auto)]

mod checking;
mod common_lines;
mod effects;
mod entering;
mod gathering;
mod judge;
mod laws;
mod lines;
mod next_lines;
mod numerals;
mod parts;
mod pieces;
mod reads;
mod sinks;
mod tally;
mod verdicts;
mod versions;
mod words;
mod writing;

pub use checking::{InputFault, check, check_input};
pub use event_log::{Entry, Kind};
pub use gathering::{GatherError, gather, gathered_is_a_run};
pub use laws::{check_is_sound, one_order_is_taken};
pub use sinks::{Sink, WriteFault};
pub use verdicts::{Reason, Verdict};
pub use writing::write_trace;
