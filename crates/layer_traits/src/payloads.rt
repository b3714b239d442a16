//! The data that are passed by reference beside edits and their results.
//!
//! No call is given an allocator, and none waits.

ghost use Rattle.std.specs.Prelude.{◌≡◌, []};
ghost use Rattle.event_log.specs.Messages.{no_message};

use event_log::Msg;
use std::marker::Model;
use std::mem;
use std::snapshot::Snapshot;
use thread_blocks::{ThreadList, ThreadQueue};

/// A `T` for clauses only: they see the value, which has no bytes at run time. A part can therefore
/// record what a call meant at no cost.
#[derive(Drop)]
pub struct Ghost<T> {
    value: Snapshot<T>,
}

impl<T> Model for Ghost<T> {
    ghost Value = { T };

    ghost view = { λ m. m.value.value };
}

impl<T> Ghost<T> {
    /// Returns this value, for clauses.
    #[inline(always)]
    pub fn of(value: &T) -> Ghost<T>
        ensures { result ≡ value.now }
    {
        Ghost {
            value: Snapshot::of(value),
        }
    }
}

/// What an edit of a buffer puts, and what its result brings. It is beside the edit and the result,
/// which are small and are passed by value.
#[derive(Clone, Copy)]
pub struct MessageSlot {
    /// The message that an edit puts, or that its result brings.
    pub message: Msg,
    /// The first number of a result.
    pub first: u64,
    /// The second number of a result.
    pub second: u64,
}

impl MessageSlot {
    /// Returns a message slot with no message, and zeros.
    pub fn new() -> MessageSlot
        ensures { result ≡ record { message = no_message; first = 0; second = 0 } }
    {
        MessageSlot {
            message: Msg::none(),
            first: 0,
            second: 0,
        }
    }
}

/// The data beside an edit on its way down to a block, and beside its result on the way back up.
/// The layers pass one reference to it.
#[derive(Drop)]
pub struct Payload {
    /// What an edit puts, or its result brings.
    pub message_slot: MessageSlot,
    /// The threads that were taken from a pending queue.
    pub taken: ThreadList,
}

impl Payload {
    /// Returns an empty payload.
    pub fn new() -> Payload
        ensures message_slot { result.message_slot
            ≡ record { message = no_message; first = 0; second = 0 } }
        ensures taken { result.taken ≡ [] }
    {
        Payload {
            message_slot: MessageSlot::new(),
            taken: ThreadQueue::new().take(),
        }
    }

    /// Removes and returns the threads.
    pub fn take_threads(&mut self) -> ThreadList
        ensures taken { result ≡ self.old.taken }
        ensures none { self.new.taken ≡ [] }
        ensures message_slot { self.new.message_slot ≡ self.old.message_slot }
    {
        mem::replace(&mut self.taken, ThreadQueue::new().take())
    }
}
