//! What the calls on a queuing lock do to its block.

ghost use Rattle.std.specs.Prelude.{◌≡◌};
ghost use Rattle.{layer_traits.specs.{Layers.QLocking.wait_list_for, Blocks.Payloads.abstract_lock_answer}, queuing_lock.specs.Nested.{busy_rules, leaving}};
ghost use Rattle.queuing_lock.specs.Nested.{abstract_lock_section};

use event_log::Tid;
use layer_traits::{
    Locked, MessageSlot, QLockCall, QLockReply, Side, Sleeps, WaitList, Wake, WakeWaiter,
    WholeLocked, WholeSleeps,
};

/// A call on a queuing lock, as a section of the layer that lets threads sleep.
#[derive(Clone, Copy)]
pub struct QLockSection<F, R> {
    /// The call.
    pub edit: QLockCall<F, R>,
}

/// What a queuing lock guards, with the busy word that names its owner. The threads that sleep for
/// the lock are in the waiting lists of the layer below.
#[derive(Drop)]
pub struct QLockBlock<B> {
    /// The owner, if there is one.
    pub busy: Option<Tid>,
    /// What the edits above change.
    pub above: B,
}

impl<F: Locked> Sleeps for QLockSection<F, F::Release> {
    type Block = QLockBlock<F::Block>;

    type Out = QLockReply<F::Out>;

    type Request = QLockSection<F::Request, F::Release>;

    type Response = QLockReply<F::Response>;

    ghost protocol = { busy_rules F.protocol };

    ghost abstract_call = { abstract_lock_section F.abstract_call };

    ghost abstract_answer = { abstract_lock_answer F.abstract_answer };

    #[inline(always)]
    fn caller(handed: &QLockSection<F::Request, F::Release>) -> Tid {
        match &handed.edit {
            QLockCall::Acquire(t) => *t,
            QLockCall::Inside(inside) => F::caller(inside),
            QLockCall::Release(last) => F::last_caller(*last),
        }
    }

    fn whole(
        handed: &QLockSection<F::Request, F::Release>,
        message_slot: &MessageSlot,
    ) -> QLockSection<F, F::Release> {
        match &handed.edit {
            QLockCall::Acquire(t) => QLockSection {
                edit: QLockCall::Acquire(*t),
            },
            QLockCall::Inside(inside) => QLockSection {
                edit: QLockCall::Inside(F::whole(inside, message_slot)),
            },
            QLockCall::Release(last) => QLockSection {
                edit: QLockCall::Release(*last),
            },
        }
    }

    #[inline(always)]
    fn apply_request(
        handed: &QLockSection<F::Request, F::Release>,
        first: Option<Tid>,
        block: &mut QLockBlock<F::Block>,
        message_slot: &mut MessageSlot,
    ) -> QLockReply<F::Response> {
        match &handed.edit {
            QLockCall::Acquire(t) => {
                if block.busy.is_some() {
                    return QLockReply::Queued;
                }
                block.busy = Some(*t);
                QLockReply::Acquired
            }
            QLockCall::Inside(inside) => {
                QLockReply::Did(F::apply_request(inside, &mut block.above, message_slot))
            }
            QLockCall::Release(last) => {
                block.busy = first;
                QLockReply::Released(F::apply_last(*last, &mut block.above))
            }
        }
    }

    #[inline(always)]
    fn joins(response: &QLockReply<F::Response>) -> Option<WaitList> {
        match response {
            QLockReply::Queued => Some(WaitList::Sleepers),
            QLockReply::Released(last) => wait_list(F::waits(last)),
            QLockReply::Acquired | QLockReply::Did(_) => None,
        }
    }

    #[inline(always)]
    fn leaves(response: &QLockReply<F::Response>) -> Wake {
        match response {
            QLockReply::Did(inside) => leave(F::signals(inside)),
            QLockReply::Released(_) => Wake::FirstSleeper,
            QLockReply::Acquired | QLockReply::Queued => Wake::Nobody,
        }
    }
}

/// Returns the waiting list of a side.
#[inline(always)]
fn wait_list(side: Option<Side>) -> Option<WaitList>
    ensures { result ≡ wait_list_for side }
{
    match side {
        Some(Side::Receivers) => Some(WaitList::Receivers),
        Some(Side::Senders) => Some(WaitList::Senders),
        None => None,
    }
}

/// Returns which thread leaves a waiting list at a signal.
#[inline(always)]
fn leave(signal: WakeWaiter) -> Wake
    ensures { result ≡ leaving signal }
{
    match signal {
        WakeWaiter::Nobody => Wake::Nobody,
        WakeWaiter::Receiver(t) => Wake::Receiver(t),
        WakeWaiter::Sender(t) => Wake::Sender(t),
    }
}

impl<F: WholeLocked> WholeSleeps for QLockSection<F, F::Release> {
    fn hand_on(self, message_slot: &mut MessageSlot) -> QLockSection<F::Request, F::Release> {
        match self.edit {
            QLockCall::Acquire(t) => QLockSection {
                edit: QLockCall::Acquire(t),
            },
            QLockCall::Inside(inside) => QLockSection {
                edit: QLockCall::Inside(inside.hand_on(message_slot)),
            },
            QLockCall::Release(last) => QLockSection {
                edit: QLockCall::Release(last),
            },
        }
    }

    fn bring_back(
        response: QLockReply<F::Response>,
        message_slot: &MessageSlot,
    ) -> QLockReply<F::Out> {
        match response {
            QLockReply::Acquired => QLockReply::Acquired,
            QLockReply::Queued => QLockReply::Queued,
            QLockReply::Did(out) => QLockReply::Did(F::bring_back(out, message_slot)),
            QLockReply::Released(out) => QLockReply::Released(F::bring_back(out, message_slot)),
        }
    }
}
