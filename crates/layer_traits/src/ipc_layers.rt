//! The layer of message calls. No call is given an allocator or waits.

ghost use Rattle.std.specs.Prelude.{◌≡◌, length};
ghost use Rattle.layer_traits.specs.Layers.IpcLaw.{ipc_plan};

use crate::call_layers::{CallLaw, CallLayer};

/// The law of message calls: as that of buffers, and a number that is not a buffer's is rejected at
/// once, with nothing done.
pub struct IpcLaw;

impl CallLaw for IpcLaw {
    ghost LockExists = { λ caps call. Unit {0} };

    ghost IsCount = { λ caps buffers. length caps ≡ buffers };

    ghost plan = { ipc_plan };
}

/// One CPU's part of the layer of message calls: the top of the tower. A call may be on any number.
pub trait IpcLayer: CallLayer<IpcLaw> {}

impl<X: CallLayer<IpcLaw>> IpcLayer for X {}
