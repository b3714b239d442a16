//! The theorems on the lines (wait queues) of a buffer. Each law is the contract of a function that
//! does nothing, so that it is proved with the crate.

ghost use Rattle.fifo_buffer.specs.{Positions.PositionsAreCounts, Served.FirstComeFirstServed};

/// After lawful events the counter of a line is the number of threads that entered it, modulo 2^64.
/// It is the position of the next thread that enters.
pub fn positions_are_counts()
    ensures { PositionsAreCounts }
{}

/// First come, first served. After lawful events, the threads that entered a side's line, oldest
/// first, are those that were served, followed by those in the line. Served are the threads whose
/// calls of that side took effect, in the order of these effects.
pub fn first_come_first_served()
    ensures { FirstComeFirstServed }
{}
