//! The workers of a plan at one table of shared words. `run_workers` takes memory, starts threads
//! and waits for them.

ghost use Rattle.std.specs.Prelude.{◌≡◌, ◌≤◌, [], IfOk, All, length, map, vec_capacity};
ghost use Rattle.{layer_traits.specs.Protocols.OneLock.{AreDistinct, opened}, table_machine.specs.SeatViews.{ClosesTable, Covers, IsOf, IsOver}};
ghost use Rattle.{table_machine.specs.SeatViews.new_seat_views, boot.specs.Plan.IsPlan, cpu.specs.Sound.setup_for, cpu_workers.specs.Closing.shown};
ghost use Rattle.cpu_workers.specs.{Closing.tower_rules, Lawful.IsLawfulReport, Logs.HasWords, ReportRuns.IsReportOfRun, Seating.{HaveLeft, OpensPlan}};

use crate::bells::Bells;
use crate::by_kind;
use crate::locks::PlanWords;
use crate::refusals::WorkerError;
use crate::workers::gates::Gate;
use crate::workers::report::Report;
use crate::workers::seating::{Left, run_over};
use crate::workers::seats::TowerSeat;
use crate::workers::stops::Stop;
use boot::Boot;
use cpu::homes_of;
use event_log::{Entry, NoMemory};
use ipc_calls::{TowerEdit, TowerLockLaws, tower_blocks};
use layer_traits::SplitEdit;
use spinlock::Ticket;
use std::alloc::{AllocError, Global};
use std::marker::PhantomData;
use std::sync::Wait;
use std::thread::Threads;
use table_machine::{Key, Shared, TableWords};

// What workers leave at a table, by CPU: their keys, traces, stops and turns.
#[derive(Drop)]
struct Back<E: SplitEdit> {
    keys: Vec<Key<E>>,
    traces: Vec<Vec<Entry>>,
    stops: Vec<Stop>,
    taken: Vec<u64>,
}

impl<E: SplitEdit> Back<E> {
    // Makes room for what so many workers leave.
    fn with_capacity(alloc: Global, count: usize) -> Result<Back<E>, AllocError>
        ensures keys { IfOk result (λ b. (b.keys.items ≡ []) × (count ≤ vec_capacity b.keys)) }
        ensures traces { IfOk result
            (λ b. (b.traces.items ≡ []) × (count ≤ vec_capacity b.traces)) }
        ensures stops { IfOk result (λ b. (b.stops.items ≡ []) × (count ≤ vec_capacity b.stops)) }
        ensures taken { IfOk result (λ b. (b.taken.items ≡ []) × (count ≤ vec_capacity b.taken)) }
    {
        Ok(Back {
            keys: Vec::with_capacity(alloc, count)?,
            traces: Vec::with_capacity(alloc, count)?,
            stops: Vec::with_capacity(alloc, count)?,
            taken: Vec::with_capacity(alloc, count)?,
        })
    }
}

// Makes a seat for each key.
pub(crate) fn seats_at<'a, K: TableWords>(
    alloc: Global,
    shared: &'a Shared<TowerEdit, K>,
    bells: &'a Bells,
    keys: Vec<Key<TowerEdit>>,
) -> Result<Vec<TowerSeat<'a, K>>, AllocError>
    requires { All (IsOf shared.now) keys.items }
    ensures { IfOk result (λ seats. seats.items ≡ keys.items) }
{
    let mut seats = Vec::with_capacity(alloc, keys.len())?;
    for key in keys {
        let seat = TowerSeat::new(shared, bells, key);
        seats.push_reserved(seat);
    }
    Ok(seats)
}

// Leaves the seats, and puts what the workers left into the lists, which have room.
fn parted<K: TableWords>(
    left: Vec<Left<TowerSeat<'_, K>>>,
    back: Back<TowerEdit>,
) -> Back<TowerEdit>
    requires keys { (back.keys.items ≡ []) × (length left.items ≤ vec_capacity back.keys) }
    requires traces { (back.traces.items ≡ []) × (length left.items ≤ vec_capacity back.traces) }
    requires stops { (back.stops.items ≡ []) × (length left.items ≤ vec_capacity back.stops) }
    requires taken { (back.taken.items ≡ []) × (length left.items ≤ vec_capacity back.taken) }
    ensures keys { result.keys.items ≡ map (λ x. x.machine) left.entry.items }
    ensures traces { map (λ t. t.items) result.traces.items
        ≡ map (λ x. x.trace.items) left.entry.items }
    ensures stops { result.stops.items ≡ map (λ x. x.did.stop) left.entry.items }
    ensures taken { result.taken.items ≡ map (λ x. x.did.taken) left.entry.items }
{
    let Back {
        mut keys,
        mut traces,
        mut stops,
        mut taken,
    } = back;
    for one in left {
        let Left {
            machine,
            trace,
            did,
        } = one;
        let key = machine.back();
        keys.push_reserved(key);
        traces.push_reserved(trace);
        stops.push_reserved(did.stop);
        taken.push_reserved(did.taken);
    }
    Back {
        keys,
        traces,
        stops,
        taken,
    }
}

// Runs a worker of each CPU at its seat. The words of the seat's locks are read as those of ticket
// locks, as the words of any lock may be.
fn run_tickets<K: PlanWords + Sync, G: Gate + Sync, R: Threads + Wait + Sync>(
    rt: &R,
    alloc: Global,
    boot: &Boot,
    turns: u64,
    gate: &G,
    shared: &Shared<TowerEdit, K>,
    keys: Vec<Key<TowerEdit>>,
) -> Result<Back<TowerEdit>, WorkerError>
    requires lock { boot.now.lock ≡ K.lock_kind }
    requires keys { keys.items ≡ new_seat_views shared.now boot.now.cpus }
    requires opens { OpensPlan boot.now (opened shared.now.start) }
    ensures { IfOk result (λ b. HaveLeft boot.now (G.MayAnswer gate.now) turns shared.now
        b.keys.items (map (λ t. t.items) b.traces.items) b.taken.items
        b.stops.items) }
{
    let back = Back::with_capacity(alloc, boot.cpus() as usize)?;
    let bells = Bells::new(alloc, boot.cpus() as usize)?;
    let seats = seats_at(alloc, shared, &bells, keys)?;
    let _laws: TowerLockLaws = PhantomData;
    let left = run_over::<Ticket<TowerSeat<'_, K>>, G, R>(rt, alloc, boot, turns, gate, seats)?;
    Ok(parted(left, back))
}

// Opens the table of a plan, with the key of each CPU.
fn table_of<K: TableWords>(
    alloc: Global,
    boot: &Boot,
) -> Result<(Shared<TowerEdit, K>, Vec<Key<TowerEdit>>), NoMemory>
    ensures plan { IfOk result (λ r. IsPlan boot.now) }
    ensures cpus { IfOk result (λ r. r.0.cpus ≡ boot.now.cpus) }
    ensures distinct { IfOk result (λ r. AreDistinct r.0.start) }
    ensures opens { IfOk result (λ r. OpensPlan boot.now (opened r.0.start)) }
    ensures keys { IfOk result (λ r. r.1.items ≡ new_seat_views r.0 boot.now.cpus) }
{
    let homes = homes_of(boot);
    let caps = boot.caps();
    let blocks = tower_blocks(alloc, boot.cpus(), caps.as_slice(), homes.as_slice())?;
    Shared::open(alloc, blocks, boot.cpus())
}

// Closes the table of workers whose threads were joined, and returns a report of what they left.
fn closed<K: PlanWords>(shared: Shared<TowerEdit, K>, back: Back<TowerEdit>) -> Report
    requires covers { Covers shared.cpus back.keys.items }
    requires keys { All (IsOver shared) back.keys.items }
    ensures traces { result.traces ≡ back.traces }
    ensures taken { result.taken ≡ back.taken }
    ensures stops { result.stops ≡ back.stops }
    ensures lock { result.closed.lock ≡ K.lock_kind }
    ensures closed { result.closed.blocks.value ≡ result.blocks }
    ensures closes { ClosesTable tower_rules shared back.keys.items result.blocks.items }
{
    let Back {
        keys,
        traces,
        stops,
        taken,
    } = back;
    Report::of_closed(shared, keys, traces, stops, taken)
}

// Runs a plan at a table of locks with these words, as [`run_workers`] says.
fn run_words<K: PlanWords + Sync, G: Gate + Sync, R: Threads + Wait + Sync>(
    rt: &R,
    alloc: Global,
    boot: &Boot,
    turns: u64,
    gate: &G,
) -> Result<Report, WorkerError>
    requires lock { boot.now.lock ≡ K.lock_kind }
    ensures lawful { IfOk result
        (λ r. IsLawfulReport (setup_for boot.now) (G.MayAnswer gate.now) turns
        (shown (map (λ t. t.items) r.traces.items) r.taken.items r.stops.items r.blocks.items)) }
    ensures words { IfOk result (λ r. HasWords boot.now (G.MayAnswer gate.now) turns
        (shown (map (λ t. t.items) r.traces.items) r.taken.items r.stops.items r.blocks.items)) }
    ensures is_run { IfOk result
        (λ r. IsReportOfRun (setup_for boot.now) (G.MayAnswer gate.now) turns
        (shown (map (λ t. t.items) r.traces.items) r.taken.items r.stops.items r.blocks.items)) }
    ensures lock { IfOk result (λ r. r.closed.lock ≡ boot.now.lock) }
    ensures closed { IfOk result (λ r. r.closed.blocks.value ≡ r.blocks) }
{
    let open = table_of::<K>(alloc, boot)?;
    let (shared, keys) = open;
    let back = run_tickets(rt, alloc, boot, turns, gate, &shared, keys)?;
    Ok(closed(shared, back))
}

/// Runs a plan with a worker thread for each CPU, each at its own seat at one table of shared
/// words, under a gate. The locks of the table are of the plan's kind.
///
/// A worker stops between two of its sections, as [`crate::work`] says. It stops if its CPU is
/// halted, if the gate has returned `Limit`, or if `turns` turns are taken. Between two sections it
/// takes a turn only below `turns`, and only if the gate may have returned `Pass` at each turn so
/// far. The gate is asked with the number of turns taken before each turn, also inside a section,
/// until it returns `Limit`. It is not asked at turns for which it has granted that it is open. If
/// it may not have returned `Pass` at each turn, no worker stops as `TurnsUsed`.
///
/// The report is lawful under the plan's step table. Its list of actions, and the order of its
/// traces, are those of one words log. That log is legal over the locks as the plan opens them.
/// Under some schedule the step table's system leaves exactly what the report gives. The report is
/// of a table of shared words that was closed, whose locks are of the plan's kind and whose blocks
/// these are.
///
/// It waits for its workers, so it need not return. All memory is taken and all workers are known
/// to have started before any step is taken.
///
/// Errors: `NoMemory` if an allocation failed, and `NoThread` if a thread could not be started.
/// Then no step was taken, and the threads that were started are joined.
pub fn run_workers<G: Gate + Sync, R: Threads + Wait + Sync>(
    rt: &R,
    alloc: Global,
    boot: &Boot,
    turns: u64,
    gate: &G,
) -> Result<Report, WorkerError>
    ensures lawful { IfOk result
        (λ r. IsLawfulReport (setup_for boot.now) (G.MayAnswer gate.now) turns
        (shown (map (λ t. t.items) r.traces.items) r.taken.items r.stops.items r.blocks.items)) }
    ensures words { IfOk result (λ r. HasWords boot.now (G.MayAnswer gate.now) turns
        (shown (map (λ t. t.items) r.traces.items) r.taken.items r.stops.items r.blocks.items)) }
    // Simulation: what the threads did, the step table's system does under some schedule.
    ensures is_run { IfOk result
        (λ r. IsReportOfRun (setup_for boot.now) (G.MayAnswer gate.now) turns
        (shown (map (λ t. t.items) r.traces.items) r.taken.items r.stops.items r.blocks.items)) }
    ensures lock { IfOk result (λ r. r.closed.lock ≡ boot.now.lock) }
    ensures closed { IfOk result (λ r. r.closed.blocks.value ≡ r.blocks) }
{
    by_kind!(
        boot.lock(),
        run_words::<Table, G, R>(rt, alloc, boot, turns, gate)
    )
}
