//! What a buffer's block shows to the layers above. No call allocates memory or waits.

ghost use Rattle.layer_traits.specs.Layers.QLocking.{LockState};

use event_log::Tid;
use std::marker::Model;
use thread_blocks::ThreadQueue;

/// What a buffer's block shows, in the machine or with a CPU.
#[derive(Drop)]
pub struct LockView<'a, B> {
    /// The owner of its lock; `None` if no thread is, or the layer has none.
    pub owner: Option<Tid>,
    /// The threads that sleep for the lock itself.
    pub sleepers: &'a ThreadQueue,
    /// The threads that wait to receive.
    pub receivers: &'a ThreadQueue,
    /// The threads that wait to send.
    pub senders: &'a ThreadQueue,
    /// The part that the layer above edits.
    pub above: &'a B,
}

impl<'a, B> Model for LockView<'a, B> {
    ghost Value = { LockState B };

    ghost view = { λ v. record { owner = v.owner; sleepers = v.sleepers.now; receivers = v.receivers.now; senders = v.senders.now; above = v.above.now } };
}
