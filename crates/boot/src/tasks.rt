//! Reads the threads of a plan. Each call allocates memory. None waits.

ghost use Rattle.std.specs.Prelude.{◌≡◌, ◌<◌, ◌≤◌, map, length, codes, All, IfOk, IsTrue};
ghost use Rattle.{event_log.specs.{declared.ids.TheConstants.THREADS, Reading.read_from}, toml.specs.{Data.get_member, View.table_view}};
ghost use Rattle.{guest.specs.Instructions.{IsProgram, names_below}, boot.specs.{Plan.{program_at, task_at, tables_at, IsTask, Gives}, Seen.plan_task_of}};
ghost use Rattle.boot.specs.Seen.{tasks_of};

use crate::numbers::number_at;
use crate::refusals::{BootError, PlanKey};
use crate::tables::{array_at, tables, texts};
use event_log::{CpuId, THREADS, Tid};
use guest::{GuestError, Program};
use std::alloc::Global;
use toml::Table;

/// A thread of a plan: the CPU that is its home, and its program.
#[derive(Drop)]
pub struct Task {
    pub home: CpuId,
    pub program: Program,
}

/// Returns the program of a thread, whose system has so many buffers.
#[tactic(auto, unfolding(crate::specs::Plan::program_at))]
fn program_at(
    alloc: Global,
    table: &Table,
    thread: Tid,
    buffers: usize,
) -> Result<Program, BootError>
    ensures program { Gives (λ program. program) result
        (program_at buffers thread.0 (get_member (codes "program") (table_view table.now))) }
    ensures within { IfOk result IsProgram }
    ensures known { IfOk result (All (λ i. IsTrue (names_below buffers i))) }
{
    let Some(array) = array_at(table, "program") else {
        return Err(BootError::MissingKey(PlanKey::Program(thread)));
    };
    let Some(lines) = texts(alloc, array)? else {
        return Err(BootError::MissingKey(PlanKey::Program(thread)));
    };
    let program = match Program::read(alloc, &lines) {
        Ok(program) => program,
        Err(GuestError::NoMemory(refused)) => return Err(BootError::NoMemory(refused)),
        Err(GuestError::At(line, fault)) => return Err(BootError::Guest {
            thread,
            line,
            fault,
        }),
    };
    if !program.names_below(buffers) {
        return Err(BootError::OutOfRange(PlanKey::Program(thread)));
    }
    Ok(program)
}

/// Returns the thread of a table, in a system of so many CPUs and buffers.
#[tactic(auto, unfolding(crate::specs::Plan::task_at))]
fn task_at(
    alloc: Global,
    table: &Table,
    thread: Tid,
    cpus: u8,
    buffers: usize,
) -> Result<Task, BootError>
    requires { 1 ≤ cpus }
    ensures task { Gives plan_task_of result
        (task_at cpus buffers thread.0 (table_view table.now)) }
    ensures within { IfOk result (λ task. IsTask cpus buffers (plan_task_of task)) }
{
    let home = number_at(table, "cpu", PlanKey::Cpu(thread), 0, u64::from(cpus) - 1)?;
    let program = program_at(alloc, table, thread, buffers)?;
    Ok(Task {
        home: CpuId(home as u8),
        program,
    })
}

/// Returns the tables of a plan's threads.
///
/// Errors: `MissingKey` if the key `thread` is absent, its value is not an array, or an item is not
/// a table. `OutOfRange` if there is no table, or there are more than [`THREADS`]. `NoMemory` if an
/// allocation failed. Then nothing was made.
#[tactic(auto, unfolding(crate::specs::Plan::tables_at))]
pub fn tables_at<'a>(alloc: Global, document: &'a Table) -> Result<Vec<&'a Table>, BootError>
    ensures tables { Gives (λ found. map (λ table. table_view table.now) found.items) result
        (tables_at (get_member (codes "thread") (table_view document.now))) }
    ensures some { IfOk result (λ found. 1 ≤ length found.items) }
    ensures most { IfOk result (λ found. length found.items ≤ THREADS) }
{
    let Some(array) = array_at(document, "thread") else {
        return Err(BootError::MissingKey(PlanKey::Threads));
    };
    let Some(found) = tables(alloc, array)? else {
        return Err(BootError::MissingKey(PlanKey::Threads));
    };
    if found.is_empty() {
        return Err(BootError::OutOfRange(PlanKey::Threads));
    }
    if found.len() > THREADS {
        return Err(BootError::OutOfRange(PlanKey::Threads));
    }
    Ok(found)
}

/// Returns the threads of some tables, in a system of so many CPUs and buffers.
///
/// Requires: there is at least one CPU. There are at most [`THREADS`] tables.
///
/// Errors: the first fault of the first table that has one, its key `cpu` before `program`.
/// `MissingKey` if the key is absent or is of another kind. `OutOfRange` if the home is not a CPU,
/// or the program names a buffer that does not exist. `Guest` if the program is not valid.
/// `NoMemory` if an allocation failed. Then nothing was made.
pub fn tasks_of(
    alloc: Global,
    tables: &[&Table],
    cpus: u8,
    buffers: usize,
) -> Result<Vec<Task>, BootError>
    requires cpus { 1 ≤ cpus }
    requires most { length tables.now ≤ THREADS }
    ensures tasks { Gives (λ tasks. tasks_of tasks.items) result
        (read_from (task_at cpus buffers) 0 (map (λ table. table_view table.now) tables.now)) }
    ensures len { IfOk result (λ tasks. length tasks.items ≡ length tables.now) }
    ensures within { IfOk result (λ tasks. All (IsTask cpus buffers) (tasks_of tasks.items)) }
{
    let mut tasks = Vec::new(alloc);
    for (index, table) in tables.iter().enumerate() {
        let task = task_at(alloc, table, Tid(index as u8), cpus, buffers)?;
        tasks.push(task)?;
    }
    Ok(tasks)
}
