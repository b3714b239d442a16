//! The sections of a message call, stage by stage. No function allocates or blocks.

ghost use Rattle.std.specs.Prelude.{◌≡◌, Option, option_map};
ghost use Rattle.layer_traits.specs.{declared.{calls.Effect.Effect, payloads.MessageSlot.MessageSlot}, Layers.BufferLaw.{first_of, going, message_of}};
ghost use Rattle.layer_traits.specs.Layers.BufferLaw.{recorded, other_side, enlisted, reply_by, reply_with, section_at, side_of, reported_by, tried, try_of};
ghost use Rattle.layer_traits.specs.Blocks.Payloads.{abstract_buffer_edit, abstract_buffer_answer, abstract_cv_edit, abstract_cv_answer, abstract_lock_call};
ghost use Rattle.{layer_traits.specs.Blocks.Payloads.abstract_lock_answer, fifo_buffer.specs.SectionPolls.{is_at_once, reply_at}};

use event_log::{Kind, Msg, Tid};
use layer_traits::{
    BareBufferEdit, BareBufferReply, Call, CallState, CvEdit, CvLeave, CvReply, Effect, Ghost,
    MessageSlot, QLockCall, QLockReply, ReplyKind, Side, Stage,
};

/// Returns a call's own side. A close signals the senders last.
#[inline(always)]
fn own_side(call: &Call) -> Side
    ensures { result ≡ side_of call.now }
{
    match call {
        Call::Send(_, _) | Call::Close(_) => Side::Senders,
        Call::Recv(_) => Side::Receivers,
    }
}

/// Returns the side that a call signals first.
#[inline(always)]
fn far_side(call: &Call) -> Side
    ensures { result ≡ other_side call.now }
{
    match call {
        Call::Send(_, _) | Call::Close(_) => Side::Receivers,
        Call::Recv(_) => Side::Senders,
    }
}

/// Returns the edit with which a call enters its line, or closes the buffer.
#[inline(always)]
fn first_edit(t: Tid, call: &Call) -> BareBufferEdit
    ensures { (message_slot : MessageSlot)
        → abstract_buffer_edit result message_slot ≡ first_of t call.now }
{
    match call {
        Call::Send(_, _) => BareBufferEdit::Enter(t, Side::Senders),
        Call::Recv(_) => BareBufferEdit::Enter(t, Side::Receivers),
        Call::Close(_) => BareBufferEdit::Shut(t),
    }
}

/// Returns the edit that a call tries; a close never tries. A send stores its message in the
/// payload.
#[inline(always)]
fn next_try(t: Tid, call: &Call, message_slot: &mut MessageSlot) -> BareBufferEdit
    ensures { abstract_buffer_edit result message_slot.new ≡ try_of t call.now }
{
    match call {
        Call::Send(_, put) => {
            message_slot.message = *put;
            BareBufferEdit::TryPut(t)
        }
        Call::Recv(_) => BareBufferEdit::TryTake(t),
        Call::Close(_) => BareBufferEdit::Shut(t),
    }
}

/// Returns the kind of the reply of a call after an effect. The message of a receive is in the
/// effect.
#[inline(always)]
fn kind_by(call: &Call, kind: Kind) -> ReplyKind
    ensures { (effect : Option Effect)
        → reply_with result effect ≡ reply_by call.now kind (message_of effect) }
{
    match call {
        Call::Send(_, _) => match kind {
            Kind::SendClosed => ReplyKind::Closed,
            Kind::Send | Kind::Recv | Kind::Close | Kind::RecvClosed => ReplyKind::Sent,
        },
        Call::Recv(_) => match kind {
            Kind::RecvClosed => ReplyKind::Closed,
            Kind::Send | Kind::Recv | Kind::Close | Kind::SendClosed => ReplyKind::Got,
        },
        Call::Close(_) => ReplyKind::Shut,
    }
}

/// Returns the section of a call at a stage. If the section puts a message (that of a send that
/// tries), stores the message in the message slot.
#[inline(always)]
pub fn section(
    t: Tid,
    call: &Call,
    stage: Stage,
    message_slot: &mut MessageSlot,
) -> QLockCall<CvEdit<BareBufferEdit>, CvLeave>
    ensures { abstract_lock_call (abstract_cv_edit abstract_buffer_edit) result message_slot.new
        ≡ section_at t call.now stage }
{
    match stage {
        Stage::Idle | Stage::Acquires | Stage::AcquiresAgain => QLockCall::Acquire(t),
        Stage::Enters => QLockCall::Inside(CvEdit::Edit(first_edit(t, call))),
        Stage::Tries => QLockCall::Inside(CvEdit::Edit(next_try(t, call, message_slot))),
        Stage::Waits => QLockCall::Release(CvLeave::Wait(t, own_side(call))),
        Stage::Signals => QLockCall::Inside(CvEdit::SignalFront(t, far_side(call))),
        Stage::SignalsOwn => QLockCall::Inside(CvEdit::SignalFront(t, own_side(call))),
        Stage::Releases => QLockCall::Release(CvLeave::Leave(t)),
    }
}

/// Begins `call` if its thread is between calls.
pub fn begin(call_state: &mut CallState, call: &Call)
    ensures { call_state.new ≡ going call_state.old call.now }
{
    if call_state.stage == Stage::Idle {
        call_state.stage = Stage::Acquires;
        call_state.call = Ghost::of(&Some(*call));
        call_state.position = 0;
        call_state.effect = None;
    }
}

/// Records the result of a section that entered a line or closed the buffer: the thread's position,
/// or the effect of the close. The numbers are in the message slot.
fn record_entry(
    call_state: &mut CallState,
    out: &QLockReply<CvReply<BareBufferReply>>,
    message_slot: &MessageSlot,
)
    ensures { call_state.new
        ≡ enlisted call_state.old
        (reported_by (abstract_lock_answer (abstract_cv_answer abstract_buffer_answer) out.now
        message_slot.now)) }
{
    match out {
        QLockReply::Did(CvReply::Did(BareBufferReply::Entered)) => {
            call_state.stage = Stage::Tries;
            call_state.position = message_slot.first;
        }
        QLockReply::Did(CvReply::Did(BareBufferReply::WasShut)) => {
            call_state.stage = Stage::Signals;
            call_state.effect = Some(Effect {
                kind: Kind::Close,
                value: Msg::none(),
                op: message_slot.first,
                pos: message_slot.second,
            });
        }
        QLockReply::Did(CvReply::Did(BareBufferReply::NotYet | BareBufferReply::Done(_))) => {}
        QLockReply::Did(CvReply::Signalled(_, _) | CvReply::Left | CvReply::Waited(_)) => {}
        QLockReply::Acquired | QLockReply::Queued | QLockReply::Released(_) => {}
    }
}

/// Records the result of a try: its effect, with the message and the number that are in the message
/// slot, or that the thread must wait.
fn record_try(
    call_state: &mut CallState,
    out: &QLockReply<CvReply<BareBufferReply>>,
    message_slot: &MessageSlot,
)
    ensures { call_state.new
        ≡ tried call_state.old
        (reported_by (abstract_lock_answer (abstract_cv_answer abstract_buffer_answer) out.now
        message_slot.now)) }
{
    match out {
        QLockReply::Did(CvReply::Did(BareBufferReply::Done(kind))) => {
            call_state.stage = Stage::Signals;
            call_state.effect = Some(Effect {
                kind: *kind,
                value: message_slot.message,
                op: message_slot.first,
                pos: call_state.position,
            });
        }
        QLockReply::Did(_) | QLockReply::Acquired | QLockReply::Queued | QLockReply::Released(_) =>
            { call_state.stage = Stage::Waits }
    }
}

/// Records the result of the section of this stage, with the message slot that the result brought.
/// The call state is then at the next stage.
#[inline(always)]
pub fn record_section(
    call_state: &mut CallState,
    stage: Stage,
    out: &QLockReply<CvReply<BareBufferReply>>,
    message_slot: &MessageSlot,
)
    ensures { call_state.new
        ≡ recorded call_state.old stage
        (abstract_lock_answer (abstract_cv_answer abstract_buffer_answer) out.now
        message_slot.now) }
{
    match stage {
        Stage::Idle => {}
        Stage::Acquires => call_state.stage = Stage::Enters,
        Stage::Enters => record_entry(call_state, out, message_slot),
        Stage::Tries => record_try(call_state, out, message_slot),
        Stage::Waits => call_state.stage = Stage::AcquiresAgain,
        Stage::AcquiresAgain => call_state.stage = Stage::Tries,
        Stage::Signals => call_state.stage = Stage::SignalsOwn,
        Stage::SignalsOwn => call_state.stage = Stage::Releases,
        Stage::Releases => {
            call_state.stage = Stage::Idle;
            call_state.call = Ghost::of(&None);
        }
    }
}

/// Returns the kind of the reply of a call whose section at this stage has ended: the kind of its
/// effect, after the last section.
#[inline(always)]
pub fn reply(call: &Call, stage: Stage, effect: &Option<Effect>) -> Option<ReplyKind>
    ensures { option_map (λ k. reply_with k effect.now) result
        ≡ reply_at call.now stage effect.now }
{
    match stage {
        Stage::Releases => match effect {
            Some(effect) => Some(kind_by(call, effect.kind)),
            None => None,
        },
        Stage::Idle
        | Stage::Acquires
        | Stage::Enters
        | Stage::Tries
        | Stage::Waits
        | Stage::AcquiresAgain
        | Stage::Signals
        | Stage::SignalsOwn => None,
    }
}

/// Returns whether the next section follows in the same poll because this stage's ends without an
/// action. This is so at an Acquire whose thread was handed the lock, and at a wait.
#[inline(always)]
pub fn answers_at_once(stage: Stage, handed: bool) -> bool
    ensures { result ≡ is_at_once stage handed }
{
    match stage {
        Stage::Acquires | Stage::AcquiresAgain => handed,
        Stage::Waits => true,
        Stage::Idle
        | Stage::Enters
        | Stage::Tries
        | Stage::Signals
        | Stage::SignalsOwn
        | Stage::Releases => false,
    }
}
