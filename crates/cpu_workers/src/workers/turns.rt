//! The turns of one worker. `work` takes no memory, and waits for other CPUs.

ghost use Rattle.std.specs.Prelude.{◌≡◌, ◌≢◌, ℕ, ◌+◌, ◌<◌, ◌≤◌, ◌⊎◌, true, false, [], None, Some, MatchOption};
ghost use Rattle.{layer_traits.specs.declared.steps.Reason.TheVariants.StepsUsed, cpu.specs.Table.{Setups.SystemConfig, Steps.halted_at}};
ghost use Rattle.cpu_workers.specs.{Working.{IsPlanned, MayStep, is_inside}, Reports.{HasRun, IsTrueStop}};
ghost use Rattle.cpu_workers.specs.declared.workers.{gates.Go.TheVariants.{Limit, Pass}, stops.Stop.TheVariants.TurnsUsed};

use crate::pauses::SPINS;
use crate::workers::gates::{Gate, Go};
use crate::workers::handoff_backoff::HandoffBackoff;
use crate::workers::hints::Hints;
use crate::workers::idlers::Idler;
use crate::workers::stops::Stop;
use crate::workers::worker::Worker;
use event_log::CpuId;
use layer_traits::{CallLayer, IpcLaw, Reason};
use std::sync::Wait;

/// What a worker did.
#[derive(Clone, Copy, Debug, Drop)]
pub struct Did {
    /// How many turns its CPU took; at 2^64 - 1 there may have been more.
    pub taken: u64,
    /// Why it stopped.
    pub stop: Stop,
}

// Returns how many turns a worker takes before it asks the gate again. It is more than one only if
// the gate has not returned `Limit` and lets the CPU pass at each, and `turns` allow them.
fn at_once<G: Gate>(gate: &G, cpu: CpuId, taken: u64, turns: u64, held: bool) -> usize
    ensures some { 0 < result }
    ensures free { 1 < result → (held ≡ false) × (taken + result ≤ turns) }
    ensures open { 1 < result → (k : ℕ) → taken ≤ k → k < taken + result
        → G.MayAnswer gate.now cpu Pass k }
{
    if held || turns <= taken {
        return 1;
    }
    let open = gate.open_for(cpu, taken).min(turns - taken);
    if open == 0 { 1 } else { open as usize }
}

// Returns why a worker whose CPU has no section under way stops, if it does.
fn ending(halted: Option<Reason>, held: bool, taken: u64, turns: u64) -> Option<Stop>
    requires { halted ≢ Some StepsUsed }
    ensures stops { MatchOption result ((halted ≡ None) × (held ≡ false) × (taken < turns))
        (λ stop. IsTrueStop halted (λ turn. held ≡ true) turns taken stop) }
    // If the gate has returned `Limit` too, that is the reason.
    ensures used { result ≡ Some TurnsUsed → held ≡ false }
{
    match halted {
        Some(Reason::AllEnded) => Some(Stop::AllEnded),
        Some(Reason::TraceFull) => Some(Stop::TraceFull),
        Some(Reason::StepsUsed) => unreachable!(),
        None if held => Some(Stop::Held),
        None if turns <= taken => Some(Stop::TurnsUsed),
        None => None,
    }
}

// Asks the gate, and notes whether it holds the worker. Only this function asks, and only if the
// gate has not returned `Limit` yet.
fn ask<I: CallLayer<IpcLaw> + Drop, G: Gate>(
    gate: &G,
    worker: &Worker<I>,
    taken: u64,
    held: &mut bool,
)
where
    I::Machine: Drop,
    requires free { held.old ≡ false }
    ensures limits { held.new ≡ true → G.MayAnswer gate.now worker.now.cpu Limit taken }
    ensures passes { held.new ≡ false → G.MayAnswer gate.now worker.now.cpu Pass taken }
{
    *held = gate.pass(worker.number(), taken) == Go::Limit;
}

// Asks the gate, unless it has returned `Limit` before.
fn ask_if_free<I: CallLayer<IpcLaw> + Drop, G: Gate>(
    gate: &G,
    worker: &Worker<I>,
    taken: u64,
    held: &mut bool,
)
where
    I::Machine: Drop,
    ensures limits { held.new ≡ true
        → (held.old ≡ true) ⊎ G.MayAnswer gate.now worker.now.cpu Limit taken }
    ensures passes { held.new ≡ false → G.MayAnswer gate.now worker.now.cpu Pass taken }
    ensures kept { held.old ≡ true → held.new ≡ true }
{
    if !*held {
        ask(gate, worker, taken, held);
    }
}

// Does what a worker does before a turn: returns whether and why it stops. Inside a section it only
// asks the gate, and the worker continues.
fn before<I: CallLayer<IpcLaw> + Drop, G: Gate>(
    gate: &G,
    worker: &Worker<I>,
    taken: u64,
    turns: u64,
    held: &mut bool,
) -> Option<Stop>
where
    I::Machine: Drop,
    ensures held { held.new ≡ true
        → (held.old ≡ true) ⊎ G.MayAnswer gate.now worker.now.cpu Limit taken }
    ensures kept { held.old ≡ true → held.new ≡ true }
    // The worker continues between two sections only if there was no `Limit` and fewer turns than
    // `turns` are taken. If there was none, the gate was asked with their number, and let the CPU
    // pass.
    ensures may_take { result ≡ None
        → (is_inside worker.now ≡ true) ⊎ ((held.new ≡ false) × (taken < turns)) }
    ensures passes { result ≡ None → held.new ≡ false
        → G.MayAnswer gate.now worker.now.cpu Pass taken }
    ensures goes { result ≡ None → (setup : SystemConfig) → IsPlanned setup worker.now.plan
        → MayStep setup worker.now }
    ensures rests { (stop : _) → result ≡ Some stop → is_inside worker.now ≡ false }
    ensures stops { (stop : _) → result ≡ Some stop → (setup : SystemConfig)
        → IsPlanned setup worker.now.plan
        → IsTrueStop (halted_at setup worker.now.cpu worker.now.cpu_local) (λ turn. held.new ≡ true)
        turns taken stop }
    ensures used { result ≡ Some TurnsUsed → held.new ≡ false }
{
    if worker.is_busy() {
        ask_if_free(gate, worker, taken, held);
        return None;
    }
    let stop = ending(worker.halted(), *held, taken, turns);
    if stop.is_some() {
        return stop;
    }
    ask(gate, worker, taken, held);
    if *held { Some(Stop::Held) } else { None }
}

/// Runs a worker for turns of its CPU, until it stops between two of its sections. Before each turn
/// it checks whether a section is under way.
///
/// - If none is under way, it stops if its CPU is halted, else if the gate has returned `Limit`,
///   else if `turns` turns are taken. Otherwise it asks the gate, whose `Limit` stops it without
///   that turn.
/// - Inside a section it asks the gate too, but continues to the section's end.
///
/// The gate counts as asked at each of the turns for which it has granted that it need not be
/// asked. After a `Limit` the worker asks no more, takes no turn except to end the section, and
/// never stops as `TurnsUsed`.
///
/// It may wait for other CPUs' sections and inside the gate, so it need not return.
///
/// Requires: nothing was done in the machine yet.
pub fn work<I: CallLayer<IpcLaw> + Drop, G: Gate, R: Wait>(
    rt: &R,
    gate: &G,
    worker: &mut Worker<I>,
    turns: u64,
) -> Did
where
    I::Machine: Drop + Hints,
    requires { worker.old.acts ≡ [] }
    ensures { HasRun (G.MayAnswer gate.now) turns worker.old worker.new result.taken result.stop }
{
    let mut taken = 0;
    let mut held = false;
    let mut spins = SPINS;
    let mut handoff_backoff = HandoffBackoff::new();
    let local = worker.number();
    let mut idler = Idler::new(local);
    for _ in rt.forever() {
        if let Some(stop) = before(gate, worker, taken, turns, &mut held) {
            worker.machine().leave();
            return Did { taken, stop };
        }
        idler.before(worker.part(), worker.machine());
        let open = at_once(gate, worker.number(), taken, turns, held);
        let most = handoff_backoff.at_most(open);
        let gone = worker.turns(most);
        taken = taken.saturating_add(gone as u64);
        spins = handoff_backoff.after_turn(worker, spins);
        idler.after_turn(rt, worker, open, &mut handoff_backoff);
    }
    unreachable!()
}
