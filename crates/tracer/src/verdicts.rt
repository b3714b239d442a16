//! What a trace text is judged to be. No call takes memory or waits.

ghost use Rattle.std.specs.Prelude.{◌≡◌};
ghost use Rattle.tracer.specs.Reasons.{reason_name};

use event_log::NoMemory;
use std::fmt;
use thiserror::Error;

/// The first reason against a line of a trace text. Each prints as its name and its number.
#[derive(Clone, Copy, Debug, PartialEq, Eq, Error)]
pub enum Reason {
    /// The line is no spelling of a line that is allowed here, whatever the size of its numbers. Or
    /// it is not ended by a line feed, the text ends before its last line, or a byte follows the
    /// last line.
    Spelling,
    /// A number is out of its range, or there are more than `ENTRIES` entries.
    Range,
    /// The op is not the number of entries of that buffer before it.
    Op,
    /// The pos is not the number of entries of that buffer before it that are counted with its
    /// kind.
    Pos,
    /// A send on a buffer that holds as many items as its capacity.
    Full,
    /// A receive from a buffer that holds nothing.
    EmptyTake,
    /// A receive of a value that is not the buffer's first item.
    WrongValue,
    /// The values of a `left` line are not the items of the buffer.
    Left,
    /// The text ends as it must, but a lower version than the head's can spell it.
    OfVersion,
    /// A send on a closed buffer, or a call that found an open buffer closed.
    CloseState,
    /// A receive that found its buffer closed although items are left.
    NotEmpty,
}

impl Reason {
    /// Returns the name of the reason with its number, as `Spelling(30)`.
    pub fn name(self) -> &'static str
        ensures { result.now ≡ reason_name self }
    {
        match self {
            Reason::Spelling => "Spelling(30)",
            Reason::Range => "Range(31)",
            Reason::Op => "Op(32)",
            Reason::Pos => "Pos(33)",
            Reason::Full => "Full(34)",
            Reason::EmptyTake => "EmptyTake(35)",
            Reason::WrongValue => "WrongValue(36)",
            Reason::Left => "Left(37)",
            Reason::OfVersion => "Version(38)",
            Reason::CloseState => "CloseState(39)",
            Reason::NotEmpty => "NotEmpty(40)",
        }
    }
}

impl fmt::Display for Reason {
    ghost use Rattle.{std.specs.Prelude.Some, tracer.specs.Reasons.reason_name};

    ghost output = { λ reason. Some (reason_name reason) };

    fn fmt<W: fmt::Write>(&self, f: &mut fmt::Formatter<W>) -> fmt::Result {
        f.write_str(self.name())
    }
}

/// What the judge says of a text.
#[derive(Clone, Copy, Debug, PartialEq, Eq)]
pub enum Verdict {
    /// It is the trace text of a legal history, and what it says is left is what that history
    /// leaves.
    Yes,
    /// The first line with a fault, counted from 1, and its first reason.
    No(usize, Reason),
    /// Out of memory. The judge takes no memory, so it never says this.
    NoMemory(NoMemory),
}
