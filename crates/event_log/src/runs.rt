//! What holds of every run: a legal sequential history of FIFO buffers, in which a send, a receive
//! or a close is a single step. These are laws: there is nothing to execute.

ghost use Rattle.std.specs.Prelude.{◌≡◌, ◌<◌, ◌++◌, ◌∷◌, ◌↔◌, ℕ, [], List, length, take, slice_get, Some};
ghost use Rattle.event_log.specs.{Messages.Message, declared.entries.Entry.Entry as AnEntry, Runs.{IsNext, IsLegalHistory, after_entry, contents_after}};
ghost use Rattle.event_log.specs.{Streams.ReceivedWasSent, Traces.HasOpOrder};

/// A law: a run with one more entry at its end, which may follow there, is a run, and ends in what
/// that entry leaves.
#[tactic(auto, using(crate::proofs::RunLemmas::run_more))]
pub fn run_grows()
    ensures { (caps : List ℕ) (es : List AnEntry) (left : List (List Message)) (e : AnEntry)
        → IsLegalHistory caps es left → IsNext caps es left e
        → IsLegalHistory caps (es ++ e ∷ []) (after_entry left e) }
{}

/// A law: entries are a run that ends in what is left exactly under two conditions. What is left is
/// the contents after them, and each entry may follow the entries before it. Its op and its pos are
/// therefore the numbers of entries before it, of its buffer, and of its buffer and kind.
#[tactic(auto, using(crate::proofs::RunLemmas::run_from_next))]
pub fn run_by_index()
    ensures runs { (caps : List ℕ) (es : List AnEntry) (left : List (List Message))
        → IsLegalHistory caps es left
        → (left ≡ contents_after caps es)
        × ((k : ℕ) (e : AnEntry) → slice_get es k ≡ Some e
        → IsNext caps (take k es) (contents_after caps (take k es)) e) }
    ensures only { (caps : List ℕ) (es : List AnEntry)
        → ((k : ℕ) (e : AnEntry) → slice_get es k ≡ Some e
        → IsNext caps (take k es) (contents_after caps (take k es)) e)
        → IsLegalHistory caps es (contents_after caps es) }
{}

/// A law: in a run the op numbers of each buffer are 0, 1, 2 and so on.
#[tactic(auto, using(crate::proofs::RunLemmas::op_order_from))]
pub fn run_has_op_order()
    ensures { (caps : List ℕ) (es : List AnEntry) (left : List (List Message))
        → IsLegalHistory caps es left
        → HasOpOrder es }
{}

/// A law: in a run the messages sent to each buffer are, in order, those received from it, followed
/// by those left. None is lost, duplicated or reordered.
#[tactic(auto, using(crate::proofs::Streams::taken_put))]
pub fn received_was_sent()
    ensures { ReceivedWasSent }
{}
