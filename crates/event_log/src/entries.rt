//! The record of a send, a receive or a close that took effect.

use crate::ids::{BufId, CpuId, Tid};
use crate::messages::Msg;

/// Which call took effect, and whether it found its buffer closed.
#[derive(Clone, Copy, Debug, PartialEq, Eq)]
pub enum Kind {
    /// A message was put at the end of the buffer.
    Send,
    /// The first message was taken from the buffer.
    Recv,
    /// The buffer was closed; it may have been closed before.
    Close,
    /// A send found the buffer closed, and put nothing.
    SendClosed,
    /// A receive found the buffer closed and empty, and took nothing.
    RecvClosed,
}

/// One send, receive or close that took effect (its linearization point): what it did to its
/// buffer, which thread did it, and its sequence numbers.
#[derive(Clone, Copy, Debug, PartialEq, Eq)]
pub struct Entry {
    /// The CPU on which the call ran.
    pub cpu: CpuId,
    /// The thread that called.
    pub thread: Tid,
    /// What was done to the buffer.
    pub kind: Kind,
    /// The buffer.
    pub buffer: BufId,
    /// The message that was put, taken or offered; 0 for a close, and for a receive that found the
    /// buffer closed.
    pub value: Msg,
    /// How many effects, of all kinds together, the buffer had before this one.
    pub op: u64,
    /// How many effects of this kind the buffer had before this one. All sends count together, and
    /// all receives, whether or not they found the buffer closed.
    pub pos: u64,
}
