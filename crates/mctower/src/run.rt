//! A run of a plan: from the plan's text and a schedule to the trace text. `run_text` takes memory.
//! No call waits, unless the sink's writer does.

ghost use Rattle.std.specs.Prelude.{◌≡◌, ◌≤◌, false, length, map, IfOk, Ok};
ghost use Rattle.{event_log.specs.declared.ids.TheConstants.BUFFERS, boot.specs.Plan.plan_of, tracer.specs.{Gather.traces_in, Sinks.has_failed}};
ghost use Rattle.{cpu.specs.Claims.traces_of, mctower.specs.{Output.between, Plans.IsOfPlan, Running.{RunsPlan, RunsText, on_lock}, Texts.Writes}};

pub mod plan_runs;
pub mod run_faults;
pub mod system_states;
pub mod trace_texts;

use crate::line::schedules::MOST_STEPS;
use crate::run::run_faults::Fault;
use crate::run::trace_texts::write_text;
use arrayvec::ArrayVec;
use boot::{Boot, LockKind};
use cpu::System;
use event_log::{BUFFERS, BufId, CAPACITY, CpuId, Entry, Msg};
use layer_traits::Owned;
use std::alloc::{AllocError, Global};
use std::io::Write;
use tracer::Sink;

/// The system of a plan after a run, by the lock that the plan names. `I` is the top of the layers
/// over ticket locks, and `J` of those over locks with grant words.
#[derive(Drop)]
pub enum Ran<I: Owned + Drop, J: Owned + Drop>
where
    I::Machine: Drop,
    J::Machine: Drop,
{
    /// The plan names ticket locks.
    Ticket(System<I>),
    /// The plan names locks with a grant word for each waiter, or none.
    Grant(System<J>),
}

/// Runs the system of a plan for the steps of a schedule, and writes the trace text. Whatever lock
/// the plan names, the system runs over the layers that `I` is the top of.
///
/// Requires: the sink has not failed. There are at most `MOST_STEPS` steps.
///
/// Errors: those of [`run_text`] except `Boot`.
pub(crate) fn run_boot<I: Owned + Drop, W: Write>(
    alloc: Global,
    boot: &Boot,
    steps: &[CpuId],
    sink: &mut Sink<W>,
) -> Result<System<I>, Fault>
where
    I::Machine: Drop,
    requires live { has_failed sink.old ≡ false }
    requires few { length steps.now ≤ MOST_STEPS }
    ensures { RunsPlan I.IsStepwise boot.now steps.now result
        (between W.contents sink.old sink.new) }
{
    let caps = boot.caps();
    let mut system = System::open(alloc, boot, steps.len())?;
    system.run(steps)?;
    write_system(alloc, boot.cpus(), caps.as_slice(), &system, sink)?;
    Ok(system)
}

/// Reads a plan, runs its system for the steps of a schedule, and writes the trace text. The text
/// has the plan's capacities, the entries of all CPUs in one order, and what the buffers hold after
/// the last step. The system runs over the lock that the plan names, and has room for as many steps
/// as the schedule has. Returns the system, in the case of that lock.
///
/// Requires: the sink has not failed. There are at most `MOST_STEPS` steps.
///
/// Errors: the first of these. Before any error except `WriteFault` nothing was written.
///
/// - `Boot` if the plan is rejected, and why.
/// - `BadCpu` if the schedule names a CPU that the plan does not have.
/// - `WriteFault` exactly if the sink failed, and then a prefix of the text is out.
/// - `NoMemory` if an allocation failed.
/// - `NoOrder` never occurs, since the traces of a system have an order.
pub fn run_text<I: Owned + Drop, J: Owned + Drop, W: Write>(
    alloc: Global,
    plan: &str,
    steps: &[CpuId],
    sink: &mut Sink<W>,
) -> Result<Ran<I, J>, Fault>
where
    I::Machine: Drop,
    J::Machine: Drop,
    requires live { has_failed sink.old ≡ false }
    requires few { length steps.now ≤ MOST_STEPS }
    ensures { RunsText (on_lock I.IsStepwise J.IsStepwise) (plan_of plan.now) steps.now result
        (between W.contents sink.old sink.new) }
{
    let boot = Boot::read(alloc, plan)?;
    run_read(alloc, &boot, steps, sink)
}

// Does what `run_text` does once the plan is read.
fn run_read<I: Owned + Drop, J: Owned + Drop, W: Write>(
    alloc: Global,
    boot: &Boot,
    steps: &[CpuId],
    sink: &mut Sink<W>,
) -> Result<Ran<I, J>, Fault>
where
    I::Machine: Drop,
    J::Machine: Drop,
    requires live { has_failed sink.old ≡ false }
    requires few { length steps.now ≤ MOST_STEPS }
    ensures { RunsText (on_lock I.IsStepwise J.IsStepwise) (Ok boot.now) steps.now result
        (between W.contents sink.old sink.new) }
{
    match boot.lock() {
        LockKind::Ticket => match run_boot::<I, W>(alloc, boot, steps, sink) {
            Ok(system) => Ok(Ran::Ticket(system)),
            Err(fault) => Err(fault),
        },
        LockKind::Grant => match run_boot::<J, W>(alloc, boot, steps, sink) {
            Ok(system) => Ok(Ran::Grant(system)),
            Err(fault) => Err(fault),
        },
    }
}

/// Writes the trace text of the system of a plan with these CPUs and capacities.
///
/// Errors: `NoMemory` if an allocation failed, and then nothing was written; `WriteFault` exactly
/// if the sink failed.
fn write_system<I: Owned + Drop, W: Write>(
    alloc: Global,
    cpus: u8,
    caps: &[u8],
    system: &System<I>,
    sink: &mut Sink<W>,
) -> Result<(), Fault>
where
    I::Machine: Drop,
    requires live { has_failed sink.old ≡ false }
    requires plan { IsOfPlan cpus caps.now system.now }
    ensures { Writes caps.now (traces_of system.now) system.now.contents result
        (between W.contents sink.old sink.new) }
{
    system.holds();
    system.traces_fit();
    let traces = traces(alloc, cpus, system)?;
    let left = contents(caps.len(), system);
    write_text(alloc, caps, &traces, &left, sink)
}

/// Returns a slice of the trace of each CPU, of which there are so many, at its place in the
/// system.
///
/// Errors: `AllocError` if an allocation failed.
fn traces<'s, I: Owned + Drop>(
    alloc: Global,
    cpus: u8,
    system: &'s System<I>,
) -> Result<Vec<&'s [Entry]>, AllocError>
where
    I::Machine: Drop,
    requires { length system.now.cpus ≡ cpus }
    ensures { IfOk result (λ all. traces_in all.items ≡ traces_of system.now) }
{
    let mut all = Vec::new(alloc);
    for cpu in 0..cpus {
        all.push(system.trace(CpuId(cpu)))?;
    }
    Ok(all)
}

/// Returns what the buffers hold, of which there are so many, at most `BUFFERS`.
fn contents<I: Owned + Drop>(
    buffers: usize,
    system: &System<I>,
) -> ArrayVec<ArrayVec<Msg, CAPACITY>, BUFFERS>
where
    I::Machine: Drop,
    requires caps { length system.now.caps ≡ buffers }
    requires all { length system.now.contents ≡ buffers }
    requires few { buffers ≤ BUFFERS }
    ensures { map (λ items. items.items) result.items ≡ system.now.contents }
{
    let mut left = ArrayVec::new();
    for buffer in 0..buffers {
        left.push(system.buffer(BufId(buffer as u8)));
    }
    left
}
