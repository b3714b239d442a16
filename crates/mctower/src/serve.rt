//! Serving a command line: reads the order, does it, prints, and returns the exit status. `serve`
//! takes memory. It may wait: for its worker threads, and for the streams.

ghost use Rattle.std.specs.Prelude.{◌≡◌, ◌≤◌, ◌⊎◌, IfOk, None, false, true, length, map, option_map, string_bytes};
ghost use Rattle.{event_log.specs.declared.ids.TheConstants.CPUS, tracer.specs.Sinks.{has_failed, is_flushed}, mctower.specs.{Output.between, Line.order_of}};
ghost use Rattle.mctower.specs.{Schedule.ReadsSteps, Serve.{Checks, Counts, Ends, OfBytes, OfInput, PutsAnswer, ServesPlan, Serves, PrintsVerdict}};
ghost use Rattle.mctower.specs.{Serve.{fault_refused, reads_input, steps_asked}, ByTable.{ProcessesRunTheTable, RunsAreReached}, Histories.TextsAreHistories};

pub mod outcomes;
pub mod worker_runs;

use crate::line::help_texts::{VERSION, help_on};
use crate::line::no_orders::why_no_order;
use crate::line::schedules::{MOST_STEPS, StepsError, read_steps, steps_refused};
use crate::line::{LineError, MOST_TIMES, Order, read_line};
use crate::locks::counts::{count_plain, count_table};
use crate::refusals::line_faults::NoOrder;
use crate::refusals::no_memory::read_refused;
use crate::refusals::{Refusal, status_of_refusal, worker_refused};
use crate::run::plan_runs::run_plan;
use crate::run::run_faults::run_refused;
use crate::serve::outcomes::{Done, read_all, write_output};
use crate::serve::worker_runs::{serve_threads, write_stops};
use crate::tell::refusal_lines::write_report;
use boot::{BootError, LockKind};
use event_log::CpuId;
use itoa::Buffer;
use std::alloc::Global;
use std::io::{Read, Write};
use std::sync::Wait;
use std::thread::Threads;
use tracer::{InputFault, Sink, Verdict, check_input};

/// Counts over both machines with locks of this kind, and prints `plain T` and `table T`.
#[inline(never)]
fn serve_count<O: Write, T: Threads + Wait + Sync>(
    rt: &T,
    alloc: Global,
    cpus: u8,
    times: u64,
    lock: LockKind,
    out: &mut Sink<O>,
) -> Result<Done, Refusal>
    requires some { 1 ≤ cpus }
    requires cpus { cpus ≤ CPUS }
    requires times { times ≤ MOST_TIMES }
    requires live { has_failed out.old ≡ false }
    ensures counts { Counts cpus times lock result (between O.contents out.old out.new) }
    ensures flushed { IfOk result (λ _. is_flushed out.new ≡ true) }
{
    let in_machine = match count_plain(alloc, cpus, times, lock) {
        Ok(counted) => counted,
        Err(refused) => return Err(Refusal::NoMemory(refused)),
    };
    let in_table = match count_table(rt, alloc, cpus, times, lock) {
        Ok(counted) => counted,
        Err(fault) => return Err(worker_refused(fault)),
    };
    let mut plain = Buffer::new();
    let mut table = Buffer::new();
    let plain = plain.format(in_machine.number()).as_bytes();
    let table = table.format(in_table.number()).as_bytes();
    let lines = [
        b"plain ".as_slice(),
        plain,
        b"\ntable ".as_slice(),
        table,
        b"\n".as_slice(),
    ];
    write_output(out, &lines, Done::BothCounted(in_machine, in_table))
}

/// Prints a verdict: `yes`, or `no L Name(N)`. Returns the exit status.
fn print_verdict<O: Write>(verdict: Verdict, out: &mut Sink<O>) -> Result<Done, Refusal>
    requires { has_failed out.old ≡ false }
    ensures prints_verdict { PrintsVerdict verdict result (between O.contents out.old out.new) }
    ensures flushed { IfOk result (λ _. is_flushed out.new ≡ true) }
{
    match verdict {
        Verdict::Yes => write_output(out, &[b"yes\n".as_slice()], Done::Exit(0)),
        Verdict::No(line, reason) => {
            let mut number = Buffer::new();
            let number = number.format(line).as_bytes();
            let name = reason.name().as_bytes();
            let pieces = [
                b"no ".as_slice(),
                number,
                b" ".as_slice(),
                name,
                b"\n".as_slice(),
            ];
            write_output(out, &pieces, Done::Exit(3))
        }
        Verdict::NoMemory(refused) => Err(Refusal::NoMemory(refused)),
    }
}

/// Returns the error of an input that was not judged.
fn check_refused(fault: InputFault) -> Refusal
    ensures { result ≡ fault_refused fault }
{
    match fault {
        InputFault::NoMemory(refused) => Refusal::NoMemory(refused),
        InputFault::ReadFault(kind) => read_refused(kind),
    }
}

/// Judges the input as it is read, and prints the verdict.
#[inline(never)]
fn serve_check<R: Read, O: Write>(
    alloc: Global,
    input: &mut R,
    out: &mut Sink<O>,
) -> Result<Done, Refusal>
    requires { has_failed out.old ≡ false }
    ensures checks { Checks (R.remaining input.old) result (between O.contents out.old out.new) }
    ensures flushed { IfOk result (λ _. is_flushed out.new ≡ true) }
{
    match check_input(alloc, input) {
        Ok(verdict) => print_verdict(verdict, out),
        Err(fault) => Err(check_refused(fault)),
    }
}

/// Returns the steps that a schedule asks for; without one there is none.
fn steps_in(alloc: Global, schedule: Option<String>) -> Result<Vec<CpuId>, StepsError>
    ensures { ReadsSteps (steps_asked (option_map string_bytes schedule)) result }
{
    match schedule {
        None => Ok(Vec::new(alloc)),
        Some(text) => read_steps(alloc, text.as_str()),
    }
}

/// Runs the plan of these bytes under a schedule's steps.
fn run_bytes<O: Write>(
    alloc: Global,
    bytes: &[u8],
    steps: &[CpuId],
    out: &mut Sink<O>,
) -> Result<Done, Refusal>
    requires live { has_failed out.old ≡ false }
    requires few { length steps.now ≤ MOST_STEPS }
    ensures runs { OfBytes (ServesPlan steps.now) bytes.now result
        (between O.contents out.old out.new) }
    ensures flushed { IfOk result (λ _. is_flushed out.new ≡ true) }
{
    let Ok(plan) = str::from_utf8(bytes) else {
        return Err(Refusal::Plan(BootError::BadToml));
    };
    match run_plan(alloc, plan, steps, out) {
        Ok(state) => write_output(out, &[], Done::Ran(state)),
        Err(fault) => Err(run_refused(fault)),
    }
}

/// Runs the plan on the input under a schedule's steps.
#[inline(never)]
fn serve_run<R: Read, O: Write>(
    alloc: Global,
    steps: &[CpuId],
    input: &mut R,
    out: &mut Sink<O>,
) -> Result<Done, Refusal>
    requires live { has_failed out.old ≡ false }
    requires few { length steps.now ≤ MOST_STEPS }
    ensures runs { OfInput (ServesPlan steps.now) (R.remaining input.old) result
        (between O.contents out.old out.new) }
    ensures flushed { IfOk result (λ _. is_flushed out.new ≡ true) }
{
    let bytes = match read_all(alloc, input) {
        Ok(bytes) => bytes,
        Err(refusal) => return Err(refusal),
    };
    run_bytes(alloc, bytes.as_slice(), steps, out)
}

/// Serves words that make no order: prints the help or the version that they ask for, or rejects
/// them.
///
/// Requires: the words make no order.
fn serve_no_order<O: Write>(
    alloc: Global,
    words: &[&str],
    out: &mut Sink<O>,
) -> Result<Done, Refusal>
    requires none { order_of (map (λ w. w.now) words.now) ≡ None }
    requires live { has_failed out.old ≡ false }
    ensures answers { PutsAnswer (map (λ w. w.now) words.now) result
        (between O.contents out.old out.new) }
    ensures flushed { IfOk result (λ _. is_flushed out.new ≡ true) }
{
    let name = b"mctower ".as_slice();
    let version = VERSION.as_bytes();
    match why_no_order(alloc, words) {
        Ok(NoOrder::AsksHelp) => {
            let help = help_on(words).as_bytes();
            write_output(out, &[name, version, b"\n".as_slice(), help], Done::Exit(2))
        }
        Ok(NoOrder::AsksVersion) => {
            write_output(out, &[name, version, b"\n".as_slice()], Done::Exit(2))
        }
        Ok(NoOrder::Faulty(fault)) => Err(Refusal::BadLine(fault)),
        Err(refused) => Err(Refusal::NoMemory(refused)),
    }
}

/// A law: each text that `run` or `threads` prints is a legal history of the plan. It is one order
/// of calls of FIFO buffers, in which each thread makes the calls of its program, on its home CPU.
/// The law mentions only buffers and programs, not the step table.
pub fn texts_are_histories()
    ensures { TextsAreHistories }
{}

/// A law, the top theorem: what a process does with a plan is the step table's run of it. `run`
/// prints the text of that run under the schedule, and its state. `threads` prints the text of such
/// a run under some schedule. The law follows from the contract of the program's last call, and
/// mentions neither the tower nor a log.
pub fn processes_run_the_table()
    ensures { ProcessesRunTheTable }
{}

/// A law: each run of a plan in the step table is a state that the table reaches. Therefore the
/// table's laws (of `cpu`) hold of what a process prints: no wake-up is lost, a quiescent system is
/// stuck, a call without contention returns, and each thread is in one place.
pub fn runs_are_reached()
    ensures { RunsAreReached }
{}

/// Does what the words order, and returns what is done. It writes nothing to standard error.
fn answer<R: Read, O: Write, T: Threads + Wait + Sync>(
    rt: &T,
    alloc: Global,
    words: &[&str],
    input: &mut R,
    out: &mut Sink<O>,
) -> Result<Done, Refusal>
    requires { has_failed out.old ≡ false }
    ensures served { Serves (map (λ w. w.now) words.now) (order_of (map (λ w. w.now) words.now))
        (R.remaining input.old) result
        (between O.contents out.old out.new) }
    ensures flushed { IfOk result (λ _. is_flushed out.new ≡ true) }
    ensures unread { reads_input (order_of (map (λ w. w.now) words.now)) ≡ false
        → input.new ≡ input.old }
{
    match read_line(alloc, words) {
        Err(LineError::NoMemory(refused)) => Err(Refusal::NoMemory(refused)),
        Err(LineError::Refused) => serve_no_order(alloc, words, out),
        Ok(Order::Count(cpus, times, lock)) => serve_count(rt, alloc, cpus, times, lock, out),
        Ok(Order::Check) => serve_check(alloc, input, out),
        Ok(Order::Run(schedule)) => match steps_in(alloc, schedule) {
            Ok(steps) => serve_run(alloc, steps.as_slice(), input, out),
            Err(error) => Err(steps_refused(error)),
        },
        Ok(Order::Threads(turns)) => serve_threads(rt, alloc, turns, input, out),
    }
}

/// Serves one command line: `words` are those after the program's name. Returns the exit status:
///
/// - 0 for a successful run, for a count, or for a yes of `check`;
/// - 1 for an error, with the line `error: Name(N)` on `err`;
/// - 2 for a bad command line, with nothing on `out`. What is wrong with it and the usage of its
///   command are on `err`; for a bad schedule it is the line of an error;
/// - 2 also for words that ask for help or the version, which is on `out`, with nothing on `err`;
/// - 3 for a no of `check`.
///
/// After a successful run the state lines of its system are on `err`. After one in threads `err`
/// has why each worker stopped. Otherwise `err` is empty with 0 and 3. With both, `out` is flushed.
/// The input is read for a check, for a run, unless its schedule is invalid, and for a run in
/// threads.
///
/// A run uses the tower of all layers, over the lock that its plan names, in one owned machine. A
/// run in threads waits for its workers, so it need not return.
///
/// Requires: neither `out` nor `err` has failed.
pub fn serve<R: Read, O: Write, E: Write, T: Threads + Wait + Sync>(
    rt: &T,
    alloc: Global,
    words: &[&str],
    input: &mut R,
    out: &mut Sink<O>,
    err: &mut Sink<E>,
) -> u8
    requires out { has_failed out.old ≡ false }
    requires err { has_failed err.old ≡ false }
    ensures served { Ends (map (λ w. w.now) words.now) (order_of (map (λ w. w.now) words.now))
        (R.remaining input.old) result
        (between O.contents out.old out.new) (between E.contents err.old err.new) }
    ensures flushed { (result ≡ 0) ⊎ (result ≡ 3) → is_flushed out.new ≡ true }
    ensures unread { reads_input (order_of (map (λ w. w.now) words.now)) ≡ false
        → input.new ≡ input.old }
{
    match answer(rt, alloc, words, input, out) {
        Ok(Done::Exit(status)) => status,
        Ok(Done::BothCounted(_, _)) => 0,
        Ok(Done::Ran(state)) => {
            state.write_report(err);
            0
        }
        Ok(Done::Worked(stops)) => {
            write_stops(err, stops.as_slice());
            0
        }
        Err(refusal) => {
            let status = status_of_refusal(&refusal);
            write_report(err, words, refusal);
            status
        }
    }
}
