//! Whether each CPU is quiescent (idle or ended), as all CPUs of a quiet system are, and how long
//! its traces are. No function allocates or blocks.

ghost use Rattle.std.specs.Prelude.{◌≡◌, ◌<◌, length};
ghost use Rattle.{layer_traits.specs.Views.OwnParts.threads_in, cpu.specs.Quiescent.rests};

use crate::systems::System;
use event_log::CpuId;
use layer_traits::{CallLayer, IpcLaw, Owned, Reason};

/// Returns whether a CPU of this part has no section under way, no running or ready thread, and an
/// empty hand.
fn rests<I: CallLayer<IpcLaw>>(part: &I) -> bool
    ensures { result ≡ rests (I.is_inside part.now) (threads_in (I.local part.now)) }
{
    !part.is_busy() && part.current().is_none() && part.hand().is_none() && !part.has_ready()
}

impl<I: Owned + Drop> System<I>
where
    I::Machine: Drop,
{
    ghost use Rattle.cpu.specs.Quiescent.{TracesFit, quiescent_in};

    /// Returns whether `cpu`, which must exist, is quiescent. A halted CPU is quiescent if each
    /// of its threads has ended. Any other is quiescent if it has no section under way, no running
    /// or ready thread, and an empty hand. A system is quiet if each CPU is quiescent and no thread
    /// is pending.
    ///
    /// Requires: the system has a CPU of this number.
    pub(super) fn is_quiescent(&self, cpu: CpuId) -> bool
        requires { cpu.0 < length self.now.cpus }
        ensures { result ≡ quiescent_in cpu self.now }
    {
        let at = &self.cpus[usize::from(cpu.0)];
        match self.halted(cpu) {
            Some(reason) => reason == Reason::AllEnded,
            None => rests(&at.part),
        }
    }

    /// Law, of every system: no CPU's trace has more entries than its room. The function computes
    /// nothing.
    pub fn traces_fit(&self)
        ensures { TracesFit self.now }
    {
        let _ = &self.room;
    }
}
