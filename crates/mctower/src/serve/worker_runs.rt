//! The command `threads`: it runs a plan with a worker thread for each CPU, writes its trace text,
//! and reports why each worker stopped. `serve_threads` takes memory and waits for the workers.

ghost use Rattle.std.specs.{Prelude.{◌≡◌, ◌≤◌, ◌⊎◌, IfOk, false, is_err, map, true}, List.flat_map};
ghost use Rattle.{event_log.specs.declared.ids.TheConstants.BUFFERS, boot.specs.Plan.plan_of, tracer.specs.Sinks.{WentOut, has_failed, is_flushed}};
ghost use Rattle.{tracer.specs.TraceText.{text_line, numbered}, cpu.specs.Claims.{buffer_at, listed}, cpu_workers.specs.Seating.items_of_block};
ghost use Rattle.mctower.specs.{Output.{IsTold, between}, Serve.{OfBytes, OfInput, OfPlan, RefusedBy, WorksPlan}, Threads.{stop_pieces, stop_text, stop_word}};
ghost use Rattle.mctower.specs.Refusals.{lacks_memory};

use crate::refusals::{Refusal, worker_refused};
use crate::run::run_faults::{Fault, run_refused};
use crate::run::trace_texts::write_lists;
use crate::serve::outcomes::{Done, read_all, write_output};
use crate::tell::state_lines::put_cpu;
use arrayvec::ArrayVec;
use boot::{Boot, BootError};
use cpu_workers::{OpenGate, Report, Stop, run_workers};
use event_log::{BUFFERS, BufId, CAPACITY, Msg};
use std::alloc::Global;
use std::io::{Read, Write};
use std::sync::Wait;
use std::thread::Threads;
use tracer::{Sink, WriteFault};

/// Returns the word for a stop.
fn stop_word(stop: Stop) -> &'static str
    ensures { result.now ≡ stop_word stop }
{
    match stop {
        Stop::AllEnded => "AllEnded",
        Stop::TurnsUsed => "TurnsUsed",
        Stop::TraceFull => "TraceFull",
        Stop::Held => "Held",
    }
}

/// Writes the lines of the CPUs.
fn put_stops<W: Write>(sink: &mut Sink<W>, stops: &[Stop]) -> Result<(), WriteFault>
    requires { has_failed sink.old ≡ false }
    ensures failed { is_err result ≡ has_failed sink.new }
    ensures out { WentOut W.contents sink.old sink.new
        (flat_map text_line (numbered stop_pieces 0 stops.now)) }
{
    for (c, stop) in stops.iter().enumerate() {
        put_cpu(sink, c as u64, stop_word(*stop))?;
    }
    Ok(())
}

/// Reports why each worker stopped, by the number of its CPU, and flushes the report, if the sink
/// accepts it. Takes no memory.
///
/// Requires: the sink has not failed.
pub(crate) fn write_stops<W: Write>(sink: &mut Sink<W>, stops: &[Stop])
    requires { has_failed sink.old ≡ false }
    ensures { IsTold (between W.contents sink.old sink.new) (stop_text stops.now) }
{
    if let Ok(()) = put_stops(sink, stops) {
        let _ = sink.flush();
    }
}

/// Returns what so many buffers of a report hold.
fn left_in(report: &Report, buffers: usize) -> ArrayVec<ArrayVec<Msg, CAPACITY>, BUFFERS>
    requires { buffers ≤ BUFFERS }
    ensures { map (λ v. v.items) result.items
        ≡ listed (λ b. items_of_block report.now.blocks.items (buffer_at b)) 0 buffers }
{
    let mut left = ArrayVec::new();
    for buffer in 0..buffers {
        left.push(report.items(BufId(buffer as u8)));
    }
    left
}

/// Runs a plan with a worker thread for each CPU, and writes its trace text.
fn work_plan<O: Write, T: Threads + Wait + Sync>(
    rt: &T,
    alloc: Global,
    plan: &str,
    turns: u64,
    out: &mut Sink<O>,
) -> Result<Done, Refusal>
    requires { has_failed out.old ≡ false }
    ensures works { RefusedBy lacks_memory result (between O.contents out.old out.new)
        ⊎ OfPlan (WorksPlan turns) (plan_of plan.now) result (between O.contents out.old out.new) }
    ensures flushed { IfOk result (λ _. is_flushed out.new ≡ true) }
{
    let boot = match Boot::read(alloc, plan) {
        Ok(boot) => boot,
        Err(error) => return Err(run_refused(Fault::from(error))),
    };
    let report = match run_workers(rt, alloc, &boot, turns, &OpenGate) {
        Ok(report) => report,
        Err(error) => return Err(worker_refused(error)),
    };
    let caps = boot.caps();
    let left = left_in(&report, caps.len());
    let (traces, stops) = report.into_parts();
    if let Err(fault) = write_lists(alloc, caps.as_slice(), &traces, &left, out) {
        return Err(run_refused(fault));
    }
    write_output(out, &[], Done::Worked(stops))
}

/// Runs the plan of these bytes with a worker thread for each CPU.
fn work_bytes<O: Write, T: Threads + Wait + Sync>(
    rt: &T,
    alloc: Global,
    bytes: &[u8],
    turns: u64,
    out: &mut Sink<O>,
) -> Result<Done, Refusal>
    requires { has_failed out.old ≡ false }
    ensures works { OfBytes (WorksPlan turns) bytes.now result
        (between O.contents out.old out.new) }
    ensures flushed { IfOk result (λ _. is_flushed out.new ≡ true) }
{
    let Ok(plan) = str::from_utf8(bytes) else {
        return Err(Refusal::Plan(BootError::BadToml));
    };
    work_plan(rt, alloc, plan, turns, out)
}

/// Runs the plan on the input with a worker thread for each CPU. A worker stops after so many turns
/// at the latest, or once the section has ended that is then under way. The trace text is written
/// and flushed: the plan's capacities, all CPUs' entries in one order, and what the buffers hold at
/// the end.
///
/// It waits for the workers, so it need not return.
///
/// Requires: `out` has not failed.
///
/// Errors: before any error except `WriteFault` nothing was written.
///
/// - `NoMemory` and `ReadFault` if the input could not be read.
/// - The fault of a rejected plan.
/// - `NoMemory` and `NoThread` if no worker took a step.
/// - `WriteFault` if the sink failed, and then a prefix of the text is out.
#[inline(never)]
pub fn serve_threads<R: Read, O: Write, T: Threads + Wait + Sync>(
    rt: &T,
    alloc: Global,
    turns: u64,
    input: &mut R,
    out: &mut Sink<O>,
) -> Result<Done, Refusal>
    requires { has_failed out.old ≡ false }
    ensures works { OfInput (WorksPlan turns) (R.remaining input.old) result
        (between O.contents out.old out.new) }
    ensures flushed { IfOk result (λ _. is_flushed out.new ≡ true) }
{
    let bytes = match read_all(alloc, input) {
        Ok(bytes) => bytes,
        Err(refusal) => return Err(refusal),
    };
    work_bytes(rt, alloc, bytes.as_slice(), turns, out)
}
