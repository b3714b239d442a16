//! Edits that put threads to sleep and wake them: what a section of a sleeping layer does.
//!
//! No call is given an allocator, and none waits.

ghost use Rattle.std.specs.Prelude.{◌≡◌};

use crate::moves::WaitList;
use crate::payloads::MessageSlot;
use event_log::Tid;

/// Which thread leaves the waiting lists of a lock in a section.
#[derive(Clone, Copy)]
pub enum Wake {
    /// No thread.
    Nobody,
    /// The first of the threads that sleep for the lock itself.
    FirstSleeper,
    /// This thread, if it waits among the receivers.
    Receiver(Tid),
    /// This thread, if it waits among the senders.
    Sender(Tid),
}

/// The result of a section of a sleeping layer.
#[derive(Clone, Copy)]
pub struct Outcome<O> {
    /// The result of the edit.
    pub out: O,
    /// Whether the caller sleeps now.
    pub slept: bool,
    /// The thread that the section woke.
    pub woke: Option<Tid>,
}

/// An edit of a sleeping layer. It determines which waiting list of its lock its caller joins, if
/// any, and which thread leaves one; the layer maintains the lists.
pub trait Sleeps: Sized + Drop {
    ghost use Rattle.layer_traits.specs.{declared.payloads.MessageSlot.MessageSlot, Layers.Sleeping.SleepRules};

    /// What the lock guards besides its waiting lists.
    type Block: Drop;

    /// An edit's result.
    type Out: Drop;

    /// The form in which layers pass an edit down.
    type Request: Drop;

    /// The form in which layers pass a result back up.
    type Response: Drop;

    /// What an edit means: its caller, the block that it leaves and its result, as functions of the
    /// lock's first sleeper and of the block that it finds. According to the result, which list the
    /// caller joins and which thread leaves one. After which sections which CPU may do it.
    ghost protocol: { SleepRules Self Self.Block Self.Out };

    /// Returns the calling thread.
    fn caller(handed: &Self::Request) -> Tid
        ensures { (message_slot : MessageSlot)
            → result ≡ protocol.caller (abstract_call handed.now message_slot) };

    /// Abstraction function: the edit that a passed-down form means, with this message beside it.
    ghost abstract_call: { Self.Request → MessageSlot → Self };

    /// Abstraction function: the result that a passed-back form means, with this message beside it.
    ghost abstract_answer: { Self.Response → MessageSlot → Self.Out };

    /// Returns the edit that `handed` means.
    fn whole(handed: &Self::Request, message_slot: &MessageSlot) -> Self
        ensures { result ≡ abstract_call handed.now message_slot.now };

    /// Performs on `block` the edit that `handed` means. What it returns, with the message that it
    /// leaves, means the edit's result. `first` is the first of the threads that sleep for the
    /// lock. It is given no allocator.
    fn apply_request(
        handed: &Self::Request,
        first: Option<Tid>,
        block: &mut Self::Block,
        message_slot: &mut MessageSlot,
    ) -> Self::Response
        ensures block { block.new
            ≡ protocol.edited (abstract_call handed.now message_slot.old) first block.old }
        ensures answer { abstract_answer result message_slot.new
            ≡ protocol.answer (abstract_call handed.now message_slot.old) first block.old };

    /// Returns which waiting list the caller joins; `None` if it does not fall asleep.
    fn joins(response: &Self::Response) -> Option<WaitList>
        ensures { (message_slot : MessageSlot)
            → result ≡ protocol.joins (abstract_answer response.now message_slot) };

    /// Returns which thread leaves the lock's waiting lists.
    fn leaves(response: &Self::Response) -> Wake
        ensures { (message_slot : MessageSlot)
            → result ≡ protocol.leaves (abstract_answer response.now message_slot) };
}

/// An edit of a sleeping layer, as one value: it can be copied, and holds what it puts.
pub trait WholeSleeps: Sleeps + Copy {
    /// Returns the form of this edit that layers pass down, and stores the message that it puts in
    /// `message_slot`.
    fn hand_on(self, message_slot: &mut MessageSlot) -> Self::Request
        ensures { Self.abstract_call result message_slot.new ≡ self };

    /// Returns the whole result, given its passed-back form and the message beside it.
    fn bring_back(response: Self::Response, message_slot: &MessageSlot) -> Self::Out
        ensures { result ≡ Self.abstract_answer response message_slot.now };
}
