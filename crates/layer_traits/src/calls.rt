//! Message calls, their replies, their effects, and the places of threads. No call allocates memory
//! or waits.

use event_log::{BufId, CpuId, Kind, Msg};

/// A message call of a thread.
#[derive(Clone, Copy)]
pub enum Call {
    /// Puts this message at the end of the buffer, once there is room and it is the thread's turn.
    /// Puts nothing if the buffer is closed by then.
    Send(BufId, Msg),
    /// Takes the first message of the buffer, once there is one and it is the thread's turn. Takes
    /// nothing if the buffer is closed and empty by then.
    Recv(BufId),
    /// Closes the buffer, which may be closed already.
    Close(BufId),
}

impl Call {
    ghost use Rattle.std.specs.Prelude.{◌≡◌};
    ghost use Rattle.layer_traits.specs.Layers.BufferLaw.{buffer_of};

    /// Returns the buffer that the call names.
    #[inline(always)]
    pub fn buffer(&self) -> BufId
        ensures { result ≡ buffer_of self.now }
    {
        match self {
            Call::Send(buffer, _) | Call::Recv(buffer) | Call::Close(buffer) => *buffer,
        }
    }
}

/// The reply of a message call.
#[derive(Clone, Copy)]
pub enum Reply {
    /// The message was put.
    Sent,
    /// This message was taken.
    Got(Msg),
    /// The buffer was closed.
    Shut,
    /// The buffer is closed (error 16): no message was put, and none was left to take.
    Closed,
    /// There is no buffer of this number (error 3): nothing was done.
    NoBuffer,
}

/// The kind of a reply, without the message of a receive: that message is in the effect of the
/// call.
#[derive(Clone, Copy)]
pub enum ReplyKind {
    /// [`Reply::Sent`].
    Sent,
    /// [`Reply::Got`], with the message of the call's effect.
    Got,
    /// [`Reply::Shut`].
    Shut,
    /// [`Reply::Closed`].
    Closed,
    /// [`Reply::NoBuffer`].
    NoBuffer,
}

/// What consecutive polls of one call did.
#[derive(Clone, Copy)]
pub struct PollRun {
    /// How many actions they did: polls of the call, and polls of its section's lock.
    pub actions: usize,
    /// The kind of the reply, once the last of them ended the call.
    pub reply: Option<ReplyKind>,
}

/// The effect of a message call (its linearization point). In this one step its message was put or
/// taken, its buffer was closed, or it found that the buffer is closed.
#[derive(Clone, Copy)]
pub struct Effect {
    /// What was done to the buffer.
    pub kind: Kind,
    /// The message. For a close, and for a receive that found the buffer closed, it is none: the
    /// one word 0.
    pub value: Msg,
    /// How many effects, of all kinds together, the buffer had before this one, modulo 2^64.
    pub op: u64,
    /// The position that the thread drew when it entered the queue: how many threads had entered
    /// that queue of the buffer before it, modulo 2^64. For a close, how many closes of the buffer
    /// were before it.
    pub pos: u64,
}

/// The place of a thread: its scheduling state.
#[derive(Clone, Copy)]
pub enum Place {
    /// It runs on this CPU.
    Running(CpuId),
    /// It is ready on this CPU.
    Ready(CpuId),
    /// It was forwarded to this CPU, which has not taken it from its pending queue yet.
    Pending(CpuId),
    /// It is in this CPU's hand: the CPU woke it and has not yet forwarded it to its home CPU.
    Hand(CpuId),
    /// It sleeps for this buffer's lock.
    LockSleeper(BufId),
    /// It waits to receive from this buffer.
    WaitRecv(BufId),
    /// It waits to send to this buffer.
    WaitSend(BufId),
    /// It has ended.
    Ended,
}
