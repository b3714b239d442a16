//! The trace text of the traces of a plan's CPUs, which both a run of steps and a run in threads
//! write. `write_text` and `write_lists` take memory. No call waits, unless the sink's writer does.

ghost use Rattle.std.specs.Prelude.{◌≡◌, ◌<◌, ℕ, IfOk, List, false, length, map, slice_index_or};
ghost use Rattle.{event_log.specs.{declared.entries.Entry.Entry as AnEntry, Messages.{IsMessage, Message}}, tracer.specs.Gather.{traces_in, entries_in}};
ghost use Rattle.{tracer.specs.{Judging.verdict_of, Sinks.has_failed, declared.verdicts.Verdict.TheVariants.Yes as SaysYes}, mctower.specs.Output.between};
ghost use Rattle.mctower.specs.{Tabled.{NothingIsPrinted, RunsHaveOneText}, Threads.ThreadsPrintARun, Texts.{HaveText, IsTextOf, Writes}};

use crate::run::run_faults::Fault;
use arrayvec::ArrayVec;
use event_log::{CAPACITY, Entry, Msg};
use std::alloc::{AllocError, Global};
use std::io::Write;
use tracer::{Sink, gather, write_trace};

/// A law: the judge says yes to the text of any traces. Therefore `check` says yes to each text
/// that a run of steps or a run in threads writes with success.
pub fn outputs_pass_check()
    ensures { (text caps : List ℕ) (traces : List (List AnEntry)) (left : List (List Message))
        → IsTextOf caps traces left text
        → verdict_of text ≡ SaysYes }
{}

/// A law, determinism: a run under a schedule has one text. Therefore what `run` prints is a
/// function of the plan and the schedule.
pub fn runs_have_one_text()
    ensures { RunsHaveOneText }
{}

/// A law, simulation. What a run of a plan in threads prints, a run of the plan prints under some
/// schedule of its CPUs, however its workers' actions interleave.
pub fn threads_print_a_run()
    ensures { ThreadsPrintARun }
{}

/// A law: after no step the step table's system of a plan has a text without an entry.
pub fn nothing_is_printed()
    ensures { NothingIsPrinted }
{}

/// Writes the trace text of these traces, one of each CPU of a plan with these capacities, and of
/// what is left in its buffers.
///
/// Requires: the sink has not failed, and the traces have a text with what is left.
///
/// Errors: `NoMemory` if an allocation failed, and then nothing was written; `WriteFault` exactly
/// if the sink failed.
pub(crate) fn write_text<W: Write>(
    alloc: Global,
    caps: &[u8],
    traces: &[&[Entry]],
    left: &[ArrayVec<Msg, CAPACITY>],
    sink: &mut Sink<W>,
) -> Result<(), Fault>
    requires live { has_failed sink.old ≡ false }
    requires text { HaveText caps.now (traces_in traces.now) (map (λ v. v.items) left.now) }
    ensures { Writes caps.now (traces_in traces.now) (map (λ v. v.items) left.now) result
        (between W.contents sink.old sink.new) }
{
    let order = gather(alloc, traces)?;
    values_fit(&order);
    write_trace(sink, caps, &order, left)?;
    Ok(())
}

/// Writes the trace text of traces in vectors, as [`write_text`] does.
///
/// Requires: the sink has not failed, and the traces have a text with what is left.
///
/// Errors: `NoMemory` if an allocation failed, and then nothing was written; `WriteFault` exactly
/// if the sink failed.
pub(crate) fn write_lists<W: Write>(
    alloc: Global,
    caps: &[u8],
    traces: &[Vec<Entry>],
    left: &[ArrayVec<Msg, CAPACITY>],
    sink: &mut Sink<W>,
) -> Result<(), Fault>
    requires live { has_failed sink.old ≡ false }
    requires text { HaveText caps.now (map (λ trace. trace.items) traces.now)
        (map (λ v. v.items) left.now) }
    ensures { Writes caps.now (map (λ trace. trace.items) traces.now) (map (λ v. v.items) left.now)
        result (between W.contents sink.old sink.new) }
{
    let slices = slices_of(alloc, traces)?;
    write_text(alloc, caps, &slices, left, sink)
}

/// Returns a slice of each trace, at its place.
///
/// Errors: `AllocError` if an allocation failed.
fn slices_of<'t>(alloc: Global, traces: &'t [Vec<Entry>]) -> Result<Vec<&'t [Entry]>, AllocError>
    ensures { IfOk result (λ all. traces_in all.items ≡ map (λ trace. trace.items) traces.now) }
{
    let mut all = Vec::new(alloc);
    for trace in traces {
        all.push(trace.as_slice())?;
    }
    Ok(all)
}

// Each message is one, as its type says; a list of entries does not say so by itself. It computes
// nothing.
fn values_fit(entries: &[&Entry])
    ensures { (k : ℕ) (d : AnEntry) → k < length (entries_in entries.now)
        → IsMessage (slice_index_or (entries_in entries.now) k d).value }
{
    for entry in entries {
        entry.value.fits();
    }
}
