//! Passes: the scheduling operations of a CPU.

use event_log::Tid;

/// A scheduling operation of a CPU. No pass edits what a buffer's lock guards.
#[derive(Clone, Copy)]
pub enum Pass {
    /// Context switch: the thread at the head of the run queue runs; none ran before.
    Switch,
    /// The pending threads join the run queue, and after them the thread that runs.
    YieldNow,
    /// The pending threads become ready; no thread runs and none is ready.
    Drain,
    /// The thread in the hand is forwarded to its home CPU: it enters the pending queue there.
    MakeReady(Tid),
    /// The thread that runs has ended.
    End,
}
