//! A deferred outcome: that of a section that returns only after the thread that it woke has left
//! the hand.

ghost use Rattle.std.specs.Prelude.{◌≡◌, Some, None, option_map};
ghost use Rattle.{layer_traits.specs.{declared.scheds.SchedAnswer.TheVariants.Done, Layers.SleepLaw.due}, sleep_wakeup.specs.Parts.{answer_reported, as_edit}};
ghost use Rattle.sleep_wakeup.specs.Parts.{deferred_of_answer, done_of, parcel_reported};

use crate::edits::SleepEdit;
use event_log::{BufId, Tid};
use layer_traits::{Ghost, MessageSlot, Outcome, Payload, SchedAnswer, SchedCall, Sleeps};

/// A section that is done and has not returned: which it is, its outcome, and the message slot that
/// the outcome brings. The section's edit was passed down with its call: only clauses mention it.
#[derive(Drop)]
pub struct DeferredOutcome<E, B> {
    /// The buffer whose block it edited.
    pub buffer: BufId,
    /// Its edit.
    pub edit: Ghost<E>,
    /// What it returns once the thread that it woke has left the hand.
    pub outcome: Outcome<B>,
    /// The payload's message slot at that time: other calls use the payload until then.
    pub message_slot: MessageSlot,
}

/// Returns the edit that is meant, for clauses only. It is made before the poll of the scheduler,
/// which writes the payload.
pub(crate) fn kept_edit<E: Sleeps>(handed: &E::Request, payload: &Payload) -> Ghost<E>
    ensures { result ≡ E.abstract_call handed.now payload.now.message_slot }
{
    Ghost::of(&E::whole(handed, &payload.message_slot))
}

/// Returns the section's call on the scheduler.
#[inline(always)]
pub(crate) fn section<H: Drop>(buffer: BufId, edit: H) -> SchedCall<SleepEdit<H>>
    ensures { result ≡ due None buffer (as_edit edit) }
{
    SchedCall::OnBuffer(buffer, SleepEdit { edit })
}

/// Takes the scheduler's result, and `hand`, the thread in the hand after it. Returns the outcome
/// of the section if it can be returned, with its message slot in the payload. The outcome is
/// deferred while its caller continues and a thread is in the hand.
#[inline(always)]
pub(crate) fn complete<E, B: Drop>(
    deferred: &mut Option<DeferredOutcome<E, B>>,
    hand: Option<Tid>,
    buffer: BufId,
    edit: Ghost<E>,
    answer: SchedAnswer<Outcome<B>>,
    payload: &mut Payload,
) -> Option<Outcome<B>>
    ensures deferred { deferred.new
        ≡ deferred_of_answer hand buffer edit answer payload.old.message_slot }
    ensures answer { result ≡ answer_reported deferred.old hand answer }
    ensures message_slot { payload.new.message_slot
        ≡ parcel_reported deferred.old answer payload.old.message_slot }
{
    match answer {
        SchedAnswer::Done => release(deferred, payload),
        SchedAnswer::Answer(outcome) => {
            if !outcome.slept && hand.is_some() {
                keep(deferred, buffer, edit, outcome, payload);
                return None;
            }
            if deferred.is_some() {
                forget(deferred);
            }
            Some(outcome)
        }
    }
}

/// Does as [`complete`] after a pass that forwarded the thread in the hand to its home CPU. It is
/// not inlined, since few polls do so.
#[inline(never)]
pub(crate) fn complete_home<E, B: Drop>(
    deferred: &mut Option<DeferredOutcome<E, B>>,
    hand: Option<Tid>,
    buffer: BufId,
    edit: Ghost<E>,
    answer: SchedAnswer<Outcome<B>>,
    payload: &mut Payload,
) -> Option<Outcome<B>>
    ensures deferred { deferred.new
        ≡ deferred_of_answer hand buffer edit answer payload.old.message_slot }
    ensures answer { result ≡ answer_reported deferred.old hand answer }
    ensures message_slot { payload.new.message_slot
        ≡ parcel_reported deferred.old answer payload.old.message_slot }
{
    complete(deferred, hand, buffer, edit, answer, payload)
}

/// Returns the deferred outcome, if there is one, with its message slot in the payload. It is not
/// inlined, since few polls wake a thread of another CPU.
#[inline(never)]
fn release<E, B: Drop>(
    deferred: &mut Option<DeferredOutcome<E, B>>,
    payload: &mut Payload,
) -> Option<Outcome<B>>
    ensures deferred { deferred.new ≡ None }
    ensures answer { result ≡ option_map (λ k. k.outcome) deferred.old }
    ensures message_slot { payload.new.message_slot
        ≡ parcel_reported deferred.old Done payload.old.message_slot }
{
    let k = deferred.take()?;
    payload.message_slot = k.message_slot;
    Some(k.outcome)
}

/// Defers this outcome of a section, with the message slot in the payload. It is not inlined, as
/// [`release`] is not.
#[inline(never)]
fn keep<E, B: Drop>(
    deferred: &mut Option<DeferredOutcome<E, B>>,
    buffer: BufId,
    edit: Ghost<E>,
    outcome: Outcome<B>,
    payload: &Payload,
)
    ensures { deferred.new ≡ Some
        (record {
          buffer = buffer;
          edit = edit;
          outcome = outcome;
          message_slot = payload.now.message_slot;
        }) }
{
    *deferred = Some(DeferredOutcome {
        buffer,
        edit,
        outcome,
        message_slot: payload.message_slot,
    });
}

/// Drops the deferred outcome.
#[inline(never)]
fn forget<E, B: Drop>(deferred: &mut Option<DeferredOutcome<E, B>>)
    ensures { deferred.new ≡ None }
{
    *deferred = None;
}

/// Returns whether a call that is passed down is done.
#[inline(always)]
pub(crate) fn done<O: Drop>(answer: Option<SchedAnswer<O>>) -> Option<()>
    ensures { result ≡ done_of answer }
{
    answer?;
    Some(())
}
