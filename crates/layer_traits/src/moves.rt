//! What edits do to the places of threads: a caller may go to sleep, and a sleeper may be woken.
//!
//! No call is given an allocator, and none waits.

ghost use Rattle.std.specs.Prelude.{◌≡◌};

use crate::edits::SplitEdit;
use event_log::Tid;

/// The waiting lists of a lock, in which a thread may sleep.
#[derive(Clone, Copy)]
pub enum WaitList {
    /// The threads that wait for the block itself.
    Sleepers,
    /// The threads that wait in a buffer for a message.
    Receivers,
    /// The threads that wait at a buffer for room.
    Senders,
}

/// Edits that move threads: the result of each says whether its caller went to sleep, and which
/// thread it woke.
pub trait Moves: SplitEdit {
    ghost use Rattle.layer_traits.specs.{declared.payloads.Payload.Payload, Threads.MoveRules.{MoveRules, WakesSleepers}};

    /// The caller of an edit, and what the edit's result says of places.
    ghost moves: { MoveRules Self Self.Out };

    /// Returns the waiting list in which the caller went to sleep; `None` if it stays awake.
    fn slept(response: &Self::Response) -> Option<WaitList>
        ensures { (payload : Payload)
            → result ≡ moves.slept (Self.abstract_answer response.now payload) };

    /// Returns the thread that was woken; `None` if none was.
    fn woke(response: &Self::Response) -> Option<Tid>
        ensures { (payload : Payload)
            → result ≡ moves.woke (Self.abstract_answer response.now payload) };

    /// Law: a thread that an allowed edit wakes is asleep.
    ghost wakes_sleepers: { WakesSleepers Self.protocol moves };
}
