//! The layer of buffers. No call is given an allocator or waits.

ghost use Rattle.std.specs.Prelude.{◌<◌, length};
ghost use Rattle.layer_traits.specs.Layers.BufferLaw.{buffer_of, fifo_plan};

use crate::call_layers::{CallLaw, CallLayer};

/// The law of FIFO blocking bounded buffers (Anderson and Dahlin). A caller enters the queue of its
/// side, and the first of a queue proceeds once the buffer allows it. A call is on a buffer that
/// exists.
pub struct BufferLaw;

impl CallLaw for BufferLaw {
    ghost LockExists = { λ caps call. (buffer_of call).0 < length caps };

    ghost IsCount = { λ caps buffers. Unit {0} };

    ghost plan = { λ buffers. fifo_plan };
}

/// One CPU's part of a layer of buffers. Its parts are polled with the number of a buffer that
/// exists.
pub trait BufferLayer: CallLayer<BufferLaw> {}

impl<X: CallLayer<BufferLaw>> BufferLayer for X {}
