//! The result of one step of a CPU, and the steps of one CPU at the front of a schedule.
//!
//! No call is given an allocator, and none waits.

ghost use Rattle.{std.specs.Prelude.{length, IsTrue}, layer_traits.specs.Polling.Spins.BeginWith};

use event_log::CpuId;

/// Why a CPU takes no step.
#[derive(Clone, Copy)]
pub enum Reason {
    /// Each thread whose home is the CPU has ended.
    AllEnded,
    /// The current thread's call could leave no entry: the CPU's trace is full, except for the
    /// entries that its pending calls will leave.
    TraceFull,
    /// The system has taken all the steps that it has room for.
    StepsUsed,
}

/// The result of one step of a CPU.
#[derive(Clone, Copy)]
pub enum Step {
    /// The step was taken.
    Stepped,
    /// No step was taken, and nothing has changed.
    Halted(Reason),
}

/// How many steps are compared at once.
const RUN: usize = 32;

/// Returns how many of the steps at the front of `steps` are those of `cpu`. Blocks of `RUN` steps
/// are compared whole, and the rest step by step.
pub fn steps_of(cpu: CpuId, steps: &[CpuId]) -> usize
    ensures { BeginWith cpu result steps.now }
{
    let runs = runs_of(cpu, steps);
    runs + few_of(cpu, &steps[runs..])
}

/// Returns how many steps are in the blocks of `RUN` steps at the front of `steps` that have only
/// steps of `cpu`.
fn runs_of(cpu: CpuId, steps: &[CpuId]) -> usize
    ensures { BeginWith cpu result steps.now }
{
    let mut local = 0;
    while RUN <= steps.len() - local {
        if !all_of(cpu, &steps[local..local + RUN]) {
            return local;
        }
        local += RUN;
    }
    local
}

/// Returns whether all of `steps` are those of `cpu`. It has no early exit, so that many steps are
/// compared at once.
#[inline(always)]
fn all_of(cpu: CpuId, steps: &[CpuId]) -> bool
    ensures { IsTrue result → BeginWith cpu (length steps.now) steps.now }
{
    let mut all = true;
    for step in steps {
        all &= step.0 == cpu.0;
    }
    all
}

/// Returns how many of the steps at the front of `steps` are those of `cpu`, step by step.
fn few_of(cpu: CpuId, steps: &[CpuId]) -> usize
    ensures { BeginWith cpu result steps.now }
{
    let mut local = 0;
    for step in steps {
        if step.0 != cpu.0 {
            return local;
        }
        local += 1;
    }
    local
}
