//! Conditions: the edits by which the owner of a lock signals to the head of a side's queue, leaves
//! the lock or waits.
//!
//! No call is given an allocator, and none waits.

ghost use Rattle.std.specs.Prelude.{◌≡◌, Option};

use crate::locked::{Locked, Side, WakeWaiter, WholeLocked};
use crate::payloads::MessageSlot;
use event_log::Tid;

/// What the owner of a lock with conditions does inside.
#[derive(Clone, Copy)]
pub enum CvEdit<G> {
    /// An edit of the block.
    Edit(G),
    /// This thread wakes the head of this side's queue, if that thread may proceed and waits.
    SignalFront(Tid, Side),
}

/// How the owner of a lock with conditions releases it.
#[derive(Clone, Copy)]
pub enum CvLeave {
    /// This thread leaves.
    Leave(Tid),
    /// This thread leaves, and waits on this side until it is woken: one event.
    Wait(Tid, Side),
}

/// The result of a section of a lock with conditions.
#[derive(Clone, Copy)]
pub enum CvReply<O> {
    /// The block was edited, with this result.
    Did(O),
    /// The thread at the head of this side's queue was to be woken; `None` if none there may
    /// proceed.
    Signalled(Side, Option<Tid>),
    /// The caller left.
    Left,
    /// The caller waited on this side.
    Waited(Side),
}

/// A pure edit of the block of a lock with conditions. The block has a queue for each side, and
/// determines whether the first of a queue may proceed.
pub trait Guarded: Sized + Drop {
    ghost use Rattle.layer_traits.specs.{declared.payloads.MessageSlot.MessageSlot, Layers.Conditions.MonitorRules};

    /// What the lock guards.
    type Block: Drop;

    /// An edit's result.
    type Out: Drop;

    /// The form in which layers pass an edit down.
    type Request: Drop;

    /// The form in which layers pass a result back up.
    type Response: Drop;

    /// What an edit means: its caller, the block that it leaves and its result. Which thread is at
    /// the head of a side's queue and may proceed. After which sections which CPU may do which.
    ghost monitor_rules: { MonitorRules Self Self.Block Self.Out };

    /// Returns the thread that edits.
    fn caller(handed: &Self::Request) -> Tid
        ensures { (message_slot : MessageSlot)
            → result ≡ monitor_rules.caller (abstract_call handed.now message_slot) };

    /// Abstraction function: the edit that a passed-down form means, with this message beside it.
    ghost abstract_call: { Self.Request → MessageSlot → Self };

    /// Abstraction function: the result that a passed-back form means, with this message beside it.
    ghost abstract_answer: { Self.Response → MessageSlot → Self.Out };

    /// Returns the edit that `handed` means.
    fn whole(handed: &Self::Request, message_slot: &MessageSlot) -> Self
        ensures { result ≡ abstract_call handed.now message_slot.now };

    /// Performs on `block` the edit that `handed` means. What it returns, with the message that it
    /// leaves, means the edit's result. It is given no allocator.
    fn apply_request(
        handed: &Self::Request,
        block: &mut Self::Block,
        message_slot: &mut MessageSlot,
    ) -> Self::Response
        ensures block { block.new
            ≡ monitor_rules.edited (abstract_call handed.now message_slot.old) block.old }
        ensures answer { abstract_answer result message_slot.new
            ≡ monitor_rules.answer (abstract_call handed.now message_slot.old) block.old };

    /// Returns the thread at the head of this side's queue, if it may proceed.
    fn ready(side: Side, block: &Self::Block) -> Option<Tid>
        ensures { result ≡ monitor_rules.ready side block.now };
}

/// An edit of the block of a lock with conditions, as one value: it can be copied, and holds what
/// it puts.
pub trait WholeGuarded: Guarded + Copy {
    /// Returns the form of this edit that layers pass down, and stores the message that it puts in
    /// `message_slot`.
    fn hand_on(self, message_slot: &mut MessageSlot) -> Self::Request
        ensures { Self.abstract_call result message_slot.new ≡ self };

    /// Returns the whole result, given its passed-back form and the message beside it.
    fn bring_back(response: Self::Response, message_slot: &MessageSlot) -> Self::Out
        ensures { result ≡ Self.abstract_answer response message_slot.now };
}

impl<G: Guarded> Locked for CvEdit<G> {
    ghost use Rattle.layer_traits.specs.{Layers.Conditions.cv_rules, Blocks.Payloads.{abstract_cv_edit, abstract_cv_answer}};

    type Block = G::Block;

    type Out = CvReply<G::Out>;

    type Request = CvEdit<G::Request>;

    type Response = CvReply<G::Response>;

    type Release = CvLeave;

    ghost protocol = { cv_rules G.monitor_rules };

    ghost abstract_call = { abstract_cv_edit G.abstract_call };

    ghost abstract_answer = { abstract_cv_answer G.abstract_answer };

    fn caller(handed: &CvEdit<G::Request>) -> Tid {
        match handed {
            CvEdit::Edit(edit) => G::caller(edit),
            CvEdit::SignalFront(t, _) => *t,
        }
    }

    fn whole(handed: &CvEdit<G::Request>, message_slot: &MessageSlot) -> CvEdit<G> {
        match handed {
            CvEdit::Edit(edit) => CvEdit::Edit(G::whole(edit, message_slot)),
            CvEdit::SignalFront(t, side) => CvEdit::SignalFront(*t, *side),
        }
    }

    #[inline(always)]
    fn apply_request(
        handed: &CvEdit<G::Request>,
        block: &mut G::Block,
        message_slot: &mut MessageSlot,
    ) -> CvReply<G::Response> {
        match handed {
            CvEdit::Edit(edit) => CvReply::Did(G::apply_request(edit, block, message_slot)),
            CvEdit::SignalFront(_, side) => CvReply::Signalled(*side, G::ready(*side, block)),
        }
    }

    fn signals(response: &CvReply<G::Response>) -> WakeWaiter {
        match response {
            CvReply::Signalled(Side::Receivers, Some(front)) => WakeWaiter::Receiver(*front),
            CvReply::Signalled(Side::Senders, Some(front)) => WakeWaiter::Sender(*front),
            CvReply::Signalled(_, None) | CvReply::Did(_) | CvReply::Left | CvReply::Waited(_) => {
                WakeWaiter::Nobody
            }
        }
    }

    fn last_caller(last: CvLeave) -> Tid {
        match last {
            CvLeave::Leave(t) | CvLeave::Wait(t, _) => t,
        }
    }

    #[inline(always)]
    fn apply_last(last: CvLeave, _block: &mut G::Block) -> CvReply<G::Response> {
        match last {
            CvLeave::Leave(_) => CvReply::Left,
            CvLeave::Wait(_, side) => CvReply::Waited(side),
        }
    }

    fn waits(response: &CvReply<G::Response>) -> Option<Side> {
        match response {
            CvReply::Waited(side) => Some(*side),
            CvReply::Did(_) | CvReply::Signalled(_, _) | CvReply::Left => None,
        }
    }
}

impl<G: WholeGuarded> WholeLocked for CvEdit<G> {
    fn hand_on(self, message_slot: &mut MessageSlot) -> CvEdit<G::Request> {
        match self {
            CvEdit::Edit(edit) => CvEdit::Edit(edit.hand_on(message_slot)),
            CvEdit::SignalFront(t, side) => CvEdit::SignalFront(t, side),
        }
    }

    fn bring_back(response: CvReply<G::Response>, message_slot: &MessageSlot) -> CvReply<G::Out> {
        match response {
            CvReply::Did(out) => CvReply::Did(G::bring_back(out, message_slot)),
            CvReply::Signalled(side, front) => CvReply::Signalled(side, front),
            CvReply::Left => CvReply::Left,
            CvReply::Waited(side) => CvReply::Waited(side),
        }
    }
}
