//! The theorems on workers that run at one table. Each law is the contract of a function that does
//! nothing, so that the law is proved with the crate.

ghost use Rattle.cpu_workers.specs.{Closing.ReportsAreLawful, Laws.{ActionsExtendOrder, PrefixesKeepOrder, StopReasonsHold, WorkersLoseNoWakeUp}};
ghost use Rattle.cpu_workers.specs.{RealTime.ReturnedComeFirst, ReportRuns.ReportsAreRuns};

use crate::workers::Gate;

/// No lost wake-up, for workers that have each run from boot, however their actions interleave. The
/// law is on a list of actions that extends what each worker has seen, without further actions of
/// that worker. While no thread owns the lock of a buffer, the first thread of neither wait queue
/// sleeps in a call that the buffer allows.
pub fn workers_lose_no_wake_up()
    ensures { WorkersLoseNoWakeUp }
{}

/// Each atomic step of a thread appends at most one call to the order of all calls, and that call
/// is of the thread's CPU. The order of a report, or of native callers, is that of the effects of
/// one list of atomic steps. Therefore it is the order of the linearization points: the steps in
/// which the calls took effect.
pub fn actions_extend_order()
    ensures { ActionsExtendOrder }
{}

/// The order that prefixes keep follows from what each action appends: `ActionsExtendOrder`
/// implies `PrefixesKeepOrder`.
pub fn fronts_by_actions()
    ensures { ActionsExtendOrder → PrefixesKeepOrder }
{}

/// Prefixes of a list of atomic steps keep the order of calls. The order at the longer of two
/// prefixes is the order at the shorter one, followed by further calls. None of these is of a
/// thread that took no step in between. Therefore a call that took effect within the shorter prefix
/// is before each call that took effect later.
pub fn prefixes_keep_order()
    ensures { PrefixesKeepOrder }
{}

/// Real time, as Herlihy and Wing define linearizability. At each prefix of linearizable actions,
/// each call that has returned is in the order before each call that has not begun.
pub fn returned_come_first()
    ensures { ReturnedComeFirst }
{}

/// A worker stops with `AllEnded` only if each home thread of its CPU has ended. It stops with
/// `TurnsUsed` or `Held` only if its CPU is not halted.
pub fn stop_reasons_hold()
    ensures { StopReasonsHold }
{}

/// The report of workers whose threads were joined and whose table was closed is lawful. There is
/// one legal list of actions along which each CPU followed the step table, and the blocks are what
/// that list leaves. Therefore the traces have one order. It keeps each trace, is a legal history
/// of FIFO buffers and ends in what the blocks hold. Each thread followed its program, the stops
/// are true, and no wake-up is lost in the blocks.
pub fn reports_are_lawful<G: Gate>(gate: &G)
    ensures { ReportsAreLawful (G.MayAnswer gate.now) }
{
    let _ = gate;
}

/// Simulation. A lawful report is that of a run. Under some schedule the step table's system has
/// the same traces, and its CPUs, buffers and queues are in the states that the report gives.
/// Therefore what holds of each run of the table holds of what threads did.
pub fn reports_are_runs<G: Gate>(gate: &G)
    ensures { ReportsAreRuns (G.MayAnswer gate.now) }
{
    let _ = gate;
}
