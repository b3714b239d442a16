//! The run of a plan over the tower of the lock that it names. `run_plan` takes memory. No call
//! waits, unless the sink's writer does.

ghost use Rattle.std.specs.Prelude.{◌≡◌, ◌≤◌, false, length};
ghost use Rattle.{boot.specs.Plan.plan_of, tracer.specs.Sinks.has_failed, mctower.specs.{Output.between, Running.RunsOverTower}};

use crate::line::schedules::MOST_STEPS;
use crate::locks::over_lock;
use crate::locks::towers::OverTower;
use crate::run::run_boot;
use crate::run::run_faults::Fault;
use crate::run::system_states::state_of;
use crate::tell::state_lines::State;
use boot::Boot;
use cpu_workers::OnLock;
use event_log::CpuId;
use layer_traits::Stepwise;
use std::alloc::Global;
use std::io::Write;
use tracer::Sink;

/// A plan that is to be run under a schedule, and the sink of its trace text.
#[derive(Drop)]
pub struct PlanRun<'p, 's, 'o, O: Write> {
    alloc: Global,
    plan: &'p Boot,
    steps: &'s [CpuId],
    out: &'o mut Sink<O>,
}

impl<O: Write> OverTower for PlanRun<'_, '_, '_, O> {
    ghost use Rattle.std.specs.Prelude.{◌≡◌, ◌≤◌, false, length, Ok};
    ghost use Rattle.{tracer.specs.Sinks.has_failed, mctower.specs.{Output.between, Running.RunsOverTower, declared.line.schedules.TheConstants.MOST_STEPS}};

    type Done = Result<State, Fault>;

    ghost IsReady = { λ run lock. (run.plan.now.lock ≡ lock) × ((has_failed run.out.now ≡ false) × (length run.steps.now ≤ MOST_STEPS)) };

    ghost Does = { λ old told new. (new.out.ghost_name ≡ old.out.ghost_name)
        × RunsOverTower (Ok old.plan.now) old.steps.now told (between O.contents old.out.now new.out.now) };

    fn over<I: Stepwise + Drop>(&mut self) -> Result<State, Fault>
    where
        I::Machine: OnLock + Drop,
    {
        let system = run_boot::<I, O>(self.alloc, self.plan, self.steps, self.out)?;
        Ok(state_of(&system))
    }
}

/// Runs a plan under a schedule over the tower of the lock that it names. It does what
/// [`run_text`](crate::run::run_text) does over the layers that it is given. Returns what the state
/// lines report of the system.
///
/// Requires: the sink has not failed. There are at most `MOST_STEPS` steps.
///
/// Errors: those of `run_text`.
pub fn run_plan<O: Write>(
    alloc: Global,
    plan: &str,
    steps: &[CpuId],
    out: &mut Sink<O>,
) -> Result<State, Fault>
    requires live { has_failed out.old ≡ false }
    requires few { length steps.now ≤ MOST_STEPS }
    ensures { RunsOverTower (plan_of plan.now) steps.now result
        (between O.contents out.old out.new) }
{
    let boot = Boot::read(alloc, plan)?;
    let mut run = PlanRun {
        alloc,
        plan: &boot,
        steps,
        out,
    };
    over_lock(boot.lock(), &mut run)
}
