//! The sections of a message call over monitors, stage by stage. No function allocates or blocks.

ghost use Rattle.std.specs.Prelude.{◌≡◌, option_map};
ghost use Rattle.layer_traits.specs.Layers.BufferLaw.{other_side, reply_with, side_of};
ghost use Rattle.fifo_buffer.specs.MonitorParts.{acted_at, asked_of, monitor_recorded, monitor_reply, monitor_section, stage_by};

use crate::monitor_blocks::{MonitorAsk, MonitorEdit, MonitorReply};
use crate::sections::reply;
use event_log::Tid;
use layer_traits::{Call, CallState, Effect, Ghost, ReplyKind, Side, Stage};

/// Returns a call's own side. A close wakes the senders last.
fn near_side(call: &Call) -> Side
    ensures { result ≡ side_of call.now }
{
    match call {
        Call::Send(_, _) | Call::Close(_) => Side::Senders,
        Call::Recv(_) => Side::Receivers,
    }
}

/// Returns the side whose first a call wakes first.
fn opposite_side(call: &Call) -> Side
    ensures { result ≡ other_side call.now }
{
    match call {
        Call::Send(_, _) | Call::Close(_) => Side::Receivers,
        Call::Recv(_) => Side::Senders,
    }
}

/// Returns what a call asks of its buffer.
fn asked_of(call: &Call) -> MonitorAsk
    ensures { result ≡ asked_of call.now }
{
    match *call {
        Call::Send(_, message) => MonitorAsk::Send(message),
        Call::Recv(_) => MonitorAsk::Receive,
        Call::Close(_) => MonitorAsk::Close,
    }
}

/// Returns the section of a call at a stage.
pub fn monitor_section(t: Tid, call: &Call, stage: Stage) -> MonitorEdit
    ensures { result ≡ monitor_section t call.now stage }
{
    MonitorEdit {
        thread: t,
        ask: match stage {
            Stage::Signals => MonitorAsk::WakeFirst(opposite_side(call)),
            Stage::SignalsOwn => MonitorAsk::WakeFirst(near_side(call)),
            Stage::Idle
            | Stage::Acquires
            | Stage::Enters
            | Stage::Tries
            | Stage::Waits
            | Stage::AcquiresAgain
            | Stage::Releases => asked_of(call),
        },
    }
}

/// Returns the stage of a call that has had its effect, and whose thread owes the first of this
/// side a wake-up, if any.
fn stage_by(local: Side, next: Option<Side>) -> Stage
    ensures { result ≡ stage_by local next }
{
    match next {
        None => Stage::Idle,
        Some(Side::Receivers) => match local {
            Side::Receivers => Stage::SignalsOwn,
            Side::Senders => Stage::Signals,
        },
        Some(Side::Senders) => match local {
            Side::Receivers => Stage::Signals,
            Side::Senders => Stage::SignalsOwn,
        },
    }
}

/// Returns the call state of `call` at this stage, with this effect.
fn acted_at(call: &Call, stage: Stage, effect: Option<Effect>) -> CallState
    ensures { result ≡ acted_at call.now stage effect }
{
    CallState {
        stage,
        call: Ghost::of(&if stage == Stage::Idle {
            None
        } else {
            Some(*call)
        }),
        position: 0,
        effect,
    }
}

/// Records the result of a section of `call`.
pub fn record_out(call_state: &mut CallState, call: &Call, out: &MonitorReply)
    ensures { call_state.new ≡ monitor_recorded call.now call_state.old out.now }
{
    match *out {
        MonitorReply::Acted(effect, next) => {
            *call_state = acted_at(call, stage_by(near_side(call), next), Some(effect));
        }
        MonitorReply::Refused(_) => {}
        MonitorReply::Woke(_, next) => {
            *call_state = acted_at(call, stage_by(near_side(call), next), call_state.effect);
        }
    }
}

/// Returns the kind of the reply of `call` with this call state, if it is over.
pub fn reply_after(call: &Call, call_state: &CallState) -> Option<ReplyKind>
    ensures { option_map (λ kind. reply_with kind call_state.now.effect) result
        ≡ monitor_reply call.now call_state.now }
{
    if call_state.stage == Stage::Idle {
        reply(call, Stage::Releases, &call_state.effect)
    } else {
        None
    }
}
