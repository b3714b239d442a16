//! The call states of all threads. No function allocates or blocks.

ghost use Rattle.std.specs.Prelude.{◌≡◌, ◌<◌, is_some, replicate, slice_set};
ghost use Rattle.{event_log.specs.declared.ids.TheConstants.THREADS, layer_traits.specs.Layers.BufferLaw.{going, no_call, call_state_of}};
ghost use Rattle.{layer_traits.specs.Blocks.Payloads.abstract_result, fifo_buffer.specs.SectionPolls.{outcome_of, recorded_if}};

use crate::sections::{begin, record_section};
use event_log::{THREADS, Tid};
use layer_traits::{
    BareBufferReply, Call, CallState, CvReply, Effect, MessageSlot, Outcome, QLockReply, Stage,
    no_calls,
};

/// The call state of each thread.
#[derive(Drop)]
pub struct CallStates {
    /// The call state of each thread, by its number.
    pub call_states: [CallState; THREADS],
}

impl CallStates {
    /// Returns the table in which no thread has called.
    pub fn new() -> CallStates
        ensures { result.call_states ≡ replicate THREADS no_call }
    {
        CallStates {
            call_states: no_calls(),
        }
    }

    /// Returns the effect of the newest call of `t`.
    ///
    /// Requires: the thread is below `THREADS`.
    #[inline(always)]
    pub fn effect(&self, t: Tid) -> Option<Effect>
        requires { t.0 < THREADS }
        ensures { result ≡ (call_state_of self.now.call_states t).effect }
    {
        *self.effect_here(t)
    }

    /// Returns the same effect, by reference.
    ///
    /// Requires: the thread is below `THREADS`.
    #[inline(always)]
    pub fn effect_here(&self, t: Tid) -> &Option<Effect>
        requires { t.0 < THREADS }
        ensures { result.now ≡ (call_state_of self.now.call_states t).effect }
    {
        &self.call_states[usize::from(t.0)].effect
    }

    /// Returns whether the call that a poll of `call` by `t` continues has taken effect. Between
    /// calls a new one begins, which has not.
    ///
    /// Requires: the thread is below `THREADS`.
    #[inline(always)]
    pub fn has_taken(&self, t: Tid, call: &Call) -> bool
        requires { t.0 < THREADS }
        ensures { result ≡ is_some (going (call_state_of self.now.call_states t) call.now).effect }
    {
        let _ = call;
        let call_state = &self.call_states[usize::from(t.0)];
        call_state.stage != Stage::Idle && call_state.effect.is_some()
    }

    /// Returns the stage that a poll of `call` by `t` continues. Between calls a new one begins.
    ///
    /// Requires: the thread is below `THREADS`.
    #[inline(always)]
    pub fn next_stage(&self, t: Tid, call: &Call) -> Stage
        requires { t.0 < THREADS }
        ensures { result ≡ (going (call_state_of self.now.call_states t) call.now).stage }
    {
        let _ = call;
        match self.call_states[usize::from(t.0)].stage {
            Stage::Idle => Stage::Acquires,
            Stage::Acquires => Stage::Acquires,
            Stage::Enters => Stage::Enters,
            Stage::Tries => Stage::Tries,
            Stage::Waits => Stage::Waits,
            Stage::AcquiresAgain => Stage::AcquiresAgain,
            Stage::Signals => Stage::Signals,
            Stage::SignalsOwn => Stage::SignalsOwn,
            Stage::Releases => Stage::Releases,
        }
    }

    /// Records for `t`, which is in `call`, the result of a poll of its section at this stage, with
    /// the message slot that the result brought. Returns whether there was a result.
    ///
    /// Requires: the thread is below `THREADS`, and its call is at this stage.
    #[inline(always)]
    pub fn record_answer(
        &mut self,
        t: Tid,
        call: &Call,
        stage: Stage,
        answer: &Option<Outcome<QLockReply<CvReply<BareBufferReply>>>>,
        message_slot: &MessageSlot,
    ) -> bool
        requires known { t.0 < THREADS }
        requires stage { stage ≡ (going (call_state_of self.old.call_states t) call.now).stage }
        ensures done { result ≡ is_some answer.now }
        ensures call_states { self.new.call_states
            ≡ slice_set self.old.call_states t.0
            (recorded_if (going (call_state_of self.old.call_states t) call.now)
            stage (abstract_result outcome_of answer.now message_slot.now)) }
    {
        let call_state = &mut self.call_states[usize::from(t.0)];
        if stage == Stage::Acquires {
            begin(call_state, call);
        }
        match answer {
            None => false,
            Some(outcome) => {
                record_section(call_state, stage, &outcome.out, message_slot);
                true
            }
        }
    }
}
