//! Whether a system is quiet (quiescent). No function allocates or blocks.

ghost use Rattle.std.specs.Prelude.{◌≡◌, ◌<◌, ◌↔◌, true, length};

use crate::systems::System;
use event_log::{CpuId, Tid};
use layer_traits::{Owned, Place};

impl<I: Owned + Drop> System<I>
where
    I::Machine: Drop,
{
    ghost use Rattle.{event_log.specs.declared.ids.CpuId.CpuId, layer_traits.specs.Threads.Places.{IsPending, where_is}, cpu.specs.Quiescent.AllQueuesEmpty};
    ghost use Rattle.cpu.specs.{Quiescent.{IsQuiet, quiescent_in}, Sound.IsSetupFor, Systems.whole_of, Table.Setups.SystemConfig, Observed.NoThreadCanProceed};
    ghost use Rattle.cpu.specs.Wakeups.Quiet.{IsQuietTable};

    /// Returns whether the system is quiet (quiescent):
    ///
    /// - Each CPU that is not halted has no running or ready thread, an empty hand and no section
    ///   under way.
    /// - Each thread of a halted CPU has ended.
    /// - All pending queues are empty.
    pub fn is_quiet(&self) -> bool
        ensures is { result ≡ true ↔ IsQuiet self.now }
        // The system is quiet exactly if the step table's state is.
        ensures table { I.IsStepwise → (setup : SystemConfig) → IsSetupFor setup self.now
            → (result ≡ true ↔ IsQuietTable setup (whole_of self.now)) }
        // Then no live thread has a next call that its buffer allows, no thread owns a lock, and
        // none sleeps at one.
        ensures still { I.IsStepwise → result ≡ true → NoThreadCanProceed self.now }
    {
        self.holds();
        self.rests()
    }

    /// Returns whether each CPU is quiescent and all pending queues are empty.
    fn rests(&self) -> bool
        ensures { result ≡ true ↔ IsQuiet self.now }
    {
        if !self.are_quiescent() {
            return false;
        }
        self.nobody_pends()
    }

    /// Returns whether each CPU is quiescent.
    fn are_quiescent(&self) -> bool
        ensures { result ≡ true
            ↔ ((c : CpuId) → c.0 < length self.now.cpus → quiescent_in c self.now ≡ true) }
    {
        for number in 0..self.cpus.len() {
            if !self.is_quiescent(CpuId(number as u8)) {
                return false;
            }
        }
        true
    }

    /// Returns whether all pending queues are empty.
    fn nobody_pends(&self) -> bool
        ensures { result ≡ true ↔ AllQueuesEmpty self.now }
    {
        self.holds();
        let threads = self.threads();
        for number in 0..threads {
            if self.pends(Tid(number as u8)) {
                return false;
            }
        }
        true
    }

    /// Returns whether `thread`, which must exist, is in a pending queue.
    fn pends(&self, thread: Tid) -> bool
        requires { thread.0 < length self.now.homes }
        ensures { result ≡ true
            ↔ ((d : CpuId) × (where_is self.now.homes self.now.moves thread ≡ IsPending d)) }
    {
        self.holds();
        matches!(self.place(thread), Place::Pending(_))
    }
}
