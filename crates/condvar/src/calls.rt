//! The thread and the side of a call on a lock with conditions. No function allocates or blocks.

ghost use Rattle.std.specs.Prelude.{◌≡◌};
ghost use Rattle.layer_traits.specs.{Layers.{Conditions.cv_rules, QLocking.lock_caller}, Blocks.Payloads.{abstract_cv_edit, abstract_lock_call}};
ghost use Rattle.condvar.specs.Waiting.{side_in};

use event_log::Tid;
use layer_traits::{CvEdit, CvLeave, Guarded, MessageSlot, QLockCall, Side};

/// The thread that calls, with this parcel beside the call: it depends on no parcel.
#[inline(always)]
pub fn caller_of<G: Guarded>(
    call: &QLockCall<CvEdit<G::Request>, CvLeave>,
    message_slot: &MessageSlot,
) -> Tid
    ensures { result ≡ lock_caller (cv_rules G.monitor_rules)
        (abstract_lock_call (abstract_cv_edit G.abstract_call) call.now message_slot.now) }
{
    let _ = message_slot;
    match call {
        QLockCall::Acquire(t) => *t,
        QLockCall::Inside(CvEdit::Edit(edit)) => G::caller(edit),
        QLockCall::Inside(CvEdit::SignalFront(t, _)) => *t,
        QLockCall::Release(CvLeave::Leave(t)) => *t,
        QLockCall::Release(CvLeave::Wait(t, _)) => *t,
    }
}

/// Returns the side of a wait, which does not depend on the message slot beside it; `Receivers` for
/// a call that is no wait.
#[inline(always)]
pub fn side_of<G: Guarded>(
    call: &QLockCall<CvEdit<G::Request>, CvLeave>,
    message_slot: &MessageSlot,
) -> Side
    ensures { result ≡ side_in
        (abstract_lock_call (abstract_cv_edit G.abstract_call) call.now message_slot.now) }
{
    let _ = message_slot;
    match call {
        QLockCall::Release(CvLeave::Wait(_, side)) => *side,
        QLockCall::Release(CvLeave::Leave(_)) | QLockCall::Acquire(_) | QLockCall::Inside(_) =>
            Side::Receivers,
    }
}
