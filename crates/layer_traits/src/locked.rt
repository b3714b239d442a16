//! Edits inside a lock that has an owner: what a section of a queuing lock does.
//!
//! No call is given an allocator, and none waits.

ghost use Rattle.std.specs.Prelude.{◌≡◌};

use crate::payloads::MessageSlot;
use event_log::Tid;

/// On which side of a buffer a thread waits.
#[derive(Clone, Copy)]
pub enum Side {
    /// The threads that wait to receive.
    Receivers,
    /// The threads that wait to send.
    Senders,
}

/// Which thread an edit inside the lock wakes.
#[derive(Clone, Copy)]
pub enum WakeWaiter {
    /// No thread.
    Nobody,
    /// This thread, if it waits among the receivers.
    Receiver(Tid),
    /// This thread, if it waits among the senders.
    Sender(Tid),
}

/// A call on a queuing lock.
#[derive(Clone, Copy)]
pub enum QLockCall<F, R> {
    /// This thread asks for the lock. It owns the lock at once if no thread does, and otherwise
    /// sleeps until the owner hands the lock over.
    Acquire(Tid),
    /// The owner edits the block inside, and keeps the lock.
    Inside(F),
    /// The owner does a last edit and hands the lock to the first thread that sleeps for it.
    Release(R),
}

/// The result of a call on a queuing lock.
#[derive(Clone, Copy)]
pub enum QLockReply<O> {
    /// The caller owns the lock.
    Acquired,
    /// The caller sleeps for the lock.
    Queued,
    /// The result of the edit inside.
    Did(O),
    /// The result of the last edit.
    Released(O),
}

/// An edit inside a queuing lock. It determines which thread it signals; a last edit determines on
/// which side its caller waits, if it does.
pub trait Locked: Sized + Drop {
    ghost use Rattle.layer_traits.specs.{declared.payloads.MessageSlot.MessageSlot, Layers.QLocking.LockRules};

    /// What the lock guards besides its owner and its waiting lists.
    type Block: Drop;

    /// An edit's result.
    type Out: Drop;

    /// The form in which layers pass an edit down.
    type Request: Drop;

    /// The form in which layers pass a result back up.
    type Response: Drop;

    /// The last edit of an owner, with which it releases the lock.
    type Release: Copy + Drop;

    /// What the edits mean: their callers, the blocks that they leave and their results. According
    /// to the result, which thread an edit signals, and on which side the caller of a last edit
    /// waits. After which sections which CPU may do a call.
    ghost protocol: { LockRules Self Self.Release Self.Block Self.Out };

    /// Returns the calling thread.
    fn caller(handed: &Self::Request) -> Tid
        ensures { (message_slot : MessageSlot)
            → result ≡ protocol.caller (abstract_call handed.now message_slot) };

    /// Abstraction function: the edit that a passed-down form means, with this message beside it.
    ghost abstract_call: { Self.Request → MessageSlot → Self };

    /// Abstraction function: the result that a passed-back form means, with this message beside it.
    ghost abstract_answer: { Self.Response → MessageSlot → Self.Out };

    /// Returns the edit that `handed` means.
    fn whole(handed: &Self::Request, message_slot: &MessageSlot) -> Self
        ensures { result ≡ abstract_call handed.now message_slot.now };

    /// Performs on `block` the edit that `handed` means. What it returns, with the message that it
    /// leaves, means the edit's result. It is given no allocator.
    fn apply_request(
        handed: &Self::Request,
        block: &mut Self::Block,
        message_slot: &mut MessageSlot,
    ) -> Self::Response
        ensures block { block.new
            ≡ protocol.edited (abstract_call handed.now message_slot.old) block.old }
        ensures answer { abstract_answer result message_slot.new
            ≡ protocol.answer (abstract_call handed.now message_slot.old) block.old };

    /// Returns which thread the edit with this result signals.
    fn signals(response: &Self::Response) -> WakeWaiter
        ensures { (message_slot : MessageSlot)
            → result ≡ protocol.signals (abstract_answer response.now message_slot) };

    /// Returns the thread that calls with this last edit.
    fn last_caller(last: Self::Release) -> Tid
        ensures { result ≡ protocol.last_caller last };

    /// Does the last edit of an owner on `block`. With any message beside it, what it returns means
    /// the edit's result. It is given no allocator.
    fn apply_last(last: Self::Release, block: &mut Self::Block) -> Self::Response
        ensures block { block.new ≡ protocol.last_edited last block.old }
        ensures answer { (message_slot : MessageSlot)
            → abstract_answer result message_slot ≡ protocol.last_answer last block.old };

    /// Returns on which side the caller of the last edit with this result waits; `None` if it
    /// continues.
    fn waits(response: &Self::Response) -> Option<Side>
        ensures { (message_slot : MessageSlot)
            → result ≡ protocol.waits (abstract_answer response.now message_slot) };
}

/// An edit inside a queuing lock, as one value: it can be copied, and holds what it puts.
pub trait WholeLocked: Locked + Copy {
    /// Returns the form of this edit that layers pass down, and stores the message that it puts in
    /// `message_slot`.
    fn hand_on(self, message_slot: &mut MessageSlot) -> Self::Request
        ensures { Self.abstract_call result message_slot.new ≡ self };

    /// Returns the whole result, given its passed-back form and the message beside it.
    fn bring_back(response: Self::Response, message_slot: &MessageSlot) -> Self::Out
        ensures { result ≡ Self.abstract_answer response message_slot.now };
}
