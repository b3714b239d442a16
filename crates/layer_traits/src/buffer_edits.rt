//! The edits of a FIFO buffer that is guarded by a lock with conditions.
//!
//! No call is given an allocator, and none waits.

use crate::locked::Side;
use event_log::{Kind, Msg, Tid};

/// An edit of a buffer.
#[derive(Clone, Copy)]
pub enum BufferEdit {
    /// This thread enters the queue of this side and draws its position in it.
    Enter(Tid, Side),
    /// This thread puts this message, if it is the first sender and there is room. The result says
    /// if the buffer is closed.
    TryPut(Tid, Msg),
    /// This thread takes the first message, if it is the first receiver and there is a message. The
    /// result says if the buffer is closed and empty.
    TryTake(Tid),
    /// This thread closes the buffer, which may be closed already.
    Shut(Tid),
}

/// The result of an edit of a buffer.
#[derive(Clone, Copy)]
pub enum BufferReply {
    /// The thread has this position: how many had entered this queue before it, modulo 2^64.
    Entered(u64),
    /// It was not the thread's turn, or the buffer was open and had no room or no message: nothing
    /// was done.
    NotYet,
    /// An effect of this kind was done, after this many others on the buffer, modulo 2^64, with
    /// this message.
    Done(Kind, u64, Msg),
    /// The buffer was closed, after this many effects on it and this many closes, modulo 2^64.
    WasShut(u64, u64),
}

/// The form in which layers pass an edit of a buffer down: the message that it puts is in the
/// payload.
#[derive(Clone, Copy)]
pub enum BareBufferEdit {
    /// [`BufferEdit::Enter`].
    Enter(Tid, Side),
    /// [`BufferEdit::TryPut`], of the payload's message.
    TryPut(Tid),
    /// [`BufferEdit::TryTake`].
    TryTake(Tid),
    /// [`BufferEdit::Shut`].
    Shut(Tid),
}

/// The form in which layers pass a buffer's result back up. The message and the numbers that it
/// brings are in the payload, so that what is passed by value is small.
#[derive(Clone, Copy)]
pub enum BareBufferReply {
    /// [`BufferReply::Entered`], with the position as the payload's first number.
    Entered,
    /// [`BufferReply::NotYet`].
    NotYet,
    /// [`BufferReply::Done`], with the payload's message; its first number is how many effects
    /// there were.
    Done(Kind),
    /// [`BufferReply::WasShut`], with both numbers in the payload.
    WasShut,
}
