//! Message calls are whole (one poll is one call) if the polls of their buffers are. This is a law;
//! nothing is executed.

use crate::ipc::Ipc;
use crate::opening::OpensBuffers;
use layer_traits::Prompt;

/// Buffers of which each poll is a whole call: it takes effect at the first poll at which its
/// buffer allows it.
pub trait WholeBuffers: OpensBuffers {
    /// Law: one poll is one call.
    ghost whole: { Self.IsWhole };
}

impl<B: WholeBuffers> Prompt for Ipc<B> {
    ghost whole = { B.whole };
}

/// Law: each poll of a prompt layer is a whole call. Message calls over one-step buffers are such a
/// layer.
pub fn calls_are_whole<I: Prompt>()
    ensures { I.IsWhole }
{}
