//! Natives: code that runs in its own thread and calls the tower. A native may wait while it
//! runs. `tasks` runs one in its thread, `seating` runs each over its seat, and `run` runs all at
//! one table.

ghost use Rattle.std.specs.Prelude.{◌≡◌, List, [], ℕ};

mod run;
mod seating;
mod tasks;

use crate::workers::{Caller, Hints};
use layer_traits::{CallLayer, IpcLaw};
pub use run::{NativeReport, run_native};
use std::sync::Wait;

/// Code that runs in its own thread, on its own CPU, and sends to buffers and receives from
/// them through a caller.
pub trait Native {
    ghost use Rattle.cpu_workers.specs.Callers.{CallerView, IsSameCaller};

    /// What it requires of the buffers, in terms of their capacities.
    ghost Needs: { Self → List ℕ → Type 0 };

    /// What it promises: of itself before and after it runs, and of the caller after all its calls.
    ghost Kept: { Self → Self → CallerView → Type 0 };

    /// Runs to its end. The caller has made no call before.
    ///
    /// It may wait for other threads, so it need not return.
    ///
    /// Requires: the caller has made no call, and its buffers are as this native needs them.
    fn run<I: CallLayer<IpcLaw> + Drop, R: Wait>(&mut self, rt: &R, caller: &mut Caller<I>)
    where
        I::Machine: Drop + Hints,
        requires fresh { caller.old.calls ≡ [] }
        requires needs { Needs self.old caller.old.caps }
        ensures kept { Kept self.old self.new caller.new }
        ensures same { IsSameCaller caller.old caller.new };
}
