//! What a buffer shows to the layers above. No call allocates memory or waits.

ghost use Rattle.std.specs.Prelude.{◌≡◌};
ghost use Rattle.layer_traits.specs.Views.Owned.{BufferShown, lists_shown, wait_list_among};

use crate::moves::WaitList;
use event_log::{Msg, Ring, Tid};
use std::marker::Model;
use thread_blocks::ThreadQueue;

/// What a buffer shows, its block being in the machine or with a CPU.
#[derive(Drop)]
pub struct BufferView<'a> {
    /// The items.
    pub items: &'a Ring<Msg>,
    /// Whether it is closed.
    pub closed: bool,
    /// The owner of its lock; `None` if no thread is.
    pub owner: Option<Tid>,
    /// The threads that sleep for the lock itself.
    pub sleepers: &'a ThreadQueue,
    /// The threads that wait to receive.
    pub receivers: &'a ThreadQueue,
    /// The threads that wait to send.
    pub senders: &'a ThreadQueue,
}

impl<'a> Model for BufferView<'a> {
    ghost Value = { BufferShown };

    ghost view = { λ v. record {
      items = v.items.now;
      closed = v.closed;
      owner = v.owner;
      sleepers = v.sleepers.now;
      receivers = v.receivers.now;
      senders = v.senders.now;
    } };
}

impl<'a> BufferView<'a> {
    /// Returns the waiting list that has `t`; `None` if none has it.
    pub fn wait_list(&self, t: Tid) -> Option<WaitList>
        ensures { result ≡ wait_list_among t (lists_shown self.now) }
    {
        if self.sleepers.contains(t) {
            return Some(WaitList::Sleepers);
        }
        if self.receivers.contains(t) {
            return Some(WaitList::Receivers);
        }
        if self.senders.contains(t) {
            return Some(WaitList::Senders);
        }
        None
    }
}
