//! Which line of a trace text is wanted next.

/// Which line of a trace text may come.
#[derive(Clone, Copy)]
pub enum NextLine {
    /// The head.
    Head,
    /// The number of buffers.
    Count,
    /// A capacity, of so many buffers.
    Capacities(usize),
    /// An entry, or what is left of the first buffer.
    Entries,
    /// What is left of this buffer.
    Contents(usize),
    /// The last line.
    End,
    /// No line.
    Done,
}
