//! What the program reports: lines and texts that it writes. No call takes memory or waits, unless
//! the sink's writer does.

pub mod pieces;
pub(crate) mod plan_lines;
pub(crate) mod refusal_lines;
pub mod state_lines;
