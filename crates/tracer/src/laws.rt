//! What the judge's yes implies, and that a text has one order. Each law is the contract of a
//! function that does nothing, so that it is proved with the crate.

ghost use Rattle.std.specs.Prelude.{◌≡◌, ℕ, List};
ghost use Rattle.event_log.specs.{declared.entries.Entry.Entry as AnEntry, Messages.Message, Runs.IsLegalHistory};
ghost use Rattle.tracer.specs.{declared.verdicts.Verdict.TheVariants.Yes as SaysYes, Judging.verdict_of};
ghost use Rattle.tracer.specs.{OneOrder.OneOrderIsTaken, TraceText.IsTraceText, Verdicts.IsTraceOfRun};

/// A law, soundness and completeness: the judge says yes exactly to the texts that spell a legal
/// history and what it leaves. Therefore the text that `write_trace` writes of such a history, and
/// of what it leaves, gets yes.
#[tactic(auto, using(crate::proofs::CompleteLemmas::complete, crate::proofs::SoundLemmas::sound))]
pub fn check_is_sound()
    ensures sound { (text : List ℕ) → verdict_of text ≡ SaysYes → IsTraceOfRun text }
    ensures complete { (text caps : List ℕ) (es : List AnEntry) (left : List (List Message))
        → IsTraceText text caps es left → IsLegalHistory caps es left → verdict_of text ≡ SaysYes }
{}

/// A law: traces have at most one order that takes at each point the first trace that is ready.
/// `gather` returns that order, so a run has one text.
#[tactic(auto, using(crate::proofs::TakenLemmas::linearization))]
pub fn one_order_is_taken()
    ensures { OneOrderIsTaken }
{}
