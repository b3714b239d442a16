//! What a plan says, once it is read. Only `Boot::read` allocates memory. No call waits.

ghost use Rattle.std.specs.Prelude.{◌≡◌};
ghost use Rattle.{toml.specs.Errors.IsMemory, event_log.specs.Refusals.no_memory};
ghost use Rattle.boot.specs.declared.refusals.BootError.TheVariants as refused;

use crate::locks::{LockKind, lock_at};
use crate::numbers::{caps_at, number_at};
use crate::refusals::{BootError, PlanKey};
use crate::tasks::{Task, tables_at, tasks_of};
use arrayvec::ArrayVec;
use event_log::{BUFFERS, CPUS, CpuId, TRACE, Tid};
use guest::Program;
use std::alloc::{AllocError, Global};
use std::marker::Model;
use toml::{Table, de};

/// Returns the error for a text that is not a document. The parser reports a failed allocation by a
/// flag, and only this function takes that flag for the allocator's word.
fn refusal_of(error: &de::Error) -> BootError
    ensures memory { IsMemory error.now → result ≡ refused.NoMemory no_memory }
    ensures text { ¬ IsMemory error.now → result ≡ refused.BadToml }
{
    if error.is_memory() {
        BootError::from(AllocError)
    } else {
        BootError::BadToml
    }
}

/// A plan that was read: it is within all limits.
#[derive(Drop)]
pub struct Boot {
    cpus: u8,
    trace: u32,
    caps: ArrayVec<u8, BUFFERS>,
    lock: LockKind,
    tasks: Vec<Task>,
}

impl Model for Boot {
    ghost use Rattle.boot.specs.{Plan.BootPlan, Plan.IsPlan, Seen.tasks_of};

    ghost Value = { BootPlan };

    ghost view = { λ b. record { cpus = b.cpus; trace = b.trace; caps = b.caps.items; lock = b.lock; tasks = tasks_of b.tasks.items } };

    ghost invariant = { λ b. IsPlan (record { cpus = b.cpus; trace = b.trace; caps = b.caps.items; lock = b.lock; tasks = tasks_of b.tasks.items }) };
}

impl Boot {
    ghost use Rattle.std.specs.Prelude.{◌≡◌, ◌<◌, length, IfOk};
    ghost use Rattle.{toml.specs.View.table_view, boot.specs.Plan.{plan_of, plan_in, plan_home_of, plan_program_of, IsPlan, Gives}};

    /// Reads a plan from its text.
    ///
    /// Errors: `BadToml` if the text is not a TOML document. Then the keys are tested in the order
    /// `cpus`, `trace`, `buffers`, `lock`, `thread`, and in each thread's table `cpu` before
    /// `program`. The first fault is returned:
    ///
    /// - `MissingKey` if a key is absent (only `lock` is optional), is of another kind, or has an
    ///   item of another kind;
    /// - `OutOfRange` if a length or a number is out of range, or the name is not a lock's;
    /// - `Guest` if a program is not valid, `OutOfRange` if it names a buffer that the plan does
    ///   not have.
    ///
    /// `NoMemory` if an allocation failed.
    #[tactic(auto, unfolding(crate::specs::Plan::plan_of))]
    pub fn read(alloc: Global, text: &str) -> Result<Boot, BootError>
        ensures plan { Gives (λ boot. boot) result (plan_of text.now) }
        ensures within { IfOk result IsPlan }
    {
        match toml::table_from_str(alloc, text) {
            Ok(document) => Boot::in_document(alloc, &document),
            Err(error) => Err(refusal_of(&error)),
        }
    }

    /// Returns the plan of a document.
    #[tactic(auto, unfolding(crate::specs::Plan::plan_in))]
    fn in_document(alloc: Global, document: &Table) -> Result<Boot, BootError>
        ensures plan { Gives (λ boot. boot) result (plan_in (table_view document.now)) }
        ensures within { IfOk result IsPlan }
    {
        let cpus = number_at(document, "cpus", PlanKey::Cpus, 1, CPUS as u64)? as u8;
        let trace = number_at(document, "trace", PlanKey::Trace, 1, TRACE as u64)? as u32;
        let caps = caps_at(alloc, document)?;
        let lock = lock_at(document)?;
        let tables = tables_at(alloc, document)?;
        let tasks = tasks_of(alloc, &tables, cpus, caps.len())?;
        Ok(Boot {
            cpus,
            trace,
            caps,
            lock,
            tasks,
        })
    }

    /// Returns how many CPUs the system has, from 1 to `CPUS`. They are numbered from 0.
    pub fn cpus(&self) -> u8
        ensures cpus { result ≡ self.now.cpus }
        ensures within { IsPlan self.now }
    {
        self.cpus
    }

    /// Returns how many entries each CPU may trace, from 1 to `TRACE`.
    pub fn trace(&self) -> u32
        ensures trace { result ≡ self.now.trace }
        ensures within { IsPlan self.now }
    {
        self.trace
    }

    /// Returns the capacity of each buffer by its number: 1 to `BUFFERS` buffers, each of 1 to
    /// `CAPACITY` messages.
    pub fn caps(&self) -> ArrayVec<u8, BUFFERS>
        ensures caps { result.items ≡ self.now.caps }
        ensures within { IsPlan self.now }
    {
        let mut caps = ArrayVec::new();
        caps.try_extend_from_slice(self.caps.as_slice()).unwrap();
        caps
    }

    /// Returns which lock the system's buffers and pending queues use. The default, if the plan
    /// names none, is a lock with grant words.
    pub fn lock(&self) -> LockKind
        ensures { result ≡ self.now.lock }
    {
        self.lock
    }

    /// Returns how many threads the system has, from 1 to `THREADS`. They are numbered from 0.
    pub fn threads(&self) -> usize
        ensures threads { result ≡ length self.now.tasks }
        ensures within { IsPlan self.now }
    {
        self.tasks.len()
    }

    /// Returns the home CPU of a thread.
    ///
    /// Requires: the plan has a thread of this number.
    pub fn home(&self, thread: Tid) -> CpuId
        requires { thread.0 < length self.now.tasks }
        ensures home { result.0 ≡ plan_home_of self.now thread.0 }
        ensures exists { result.0 < self.now.cpus }
    {
        self.tasks[usize::from(thread.0)].home
    }

    /// Returns the program of a thread. The program names only buffers that the plan has.
    ///
    /// Requires: the plan has a thread of this number.
    pub fn program(&self, thread: Tid) -> &Program
        requires { thread.0 < length self.now.tasks }
        ensures program { result.now ≡ plan_program_of self.now thread.0 }
        ensures within { IsPlan self.now }
    {
        &self.tasks[usize::from(thread.0)].program
    }
}
