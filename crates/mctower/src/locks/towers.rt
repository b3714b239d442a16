//! Work over the tower of all layers. A proof of a function that names a nest of many types takes
//! minutes, and longer with each further type or value. Therefore the work is one value, under a
//! trait that names no layer ([`OverTower`]). Each function that climbs names a few layers, over
//! any that meet the trait below, and passes the top upward. The lock at the foot is named in
//! `locks.rt`. No call waits, unless the work does.

use condvar::Cond;
use cpu_workers::OnLock;
use fifo_buffer::Fifo;
use ipc_calls::{Ipc, LockEdit, StepwiseLocks, StepwiseScheds, StepwiseSections, TowerLaws};
use layer_traits::Stepwise;
use queuing_lock::QLock;
use scheduler::Sched;
use shared_queue::SharedQueues;
use sleep_wakeup::Sleeper;
use std::marker::PhantomData;

/// Work over the top of a tower, under a contract that names no layer. The functions that climb the
/// tower depend only on this trait. Therefore their proofs, which take minutes, stay as they are if
/// the proof of the work changes.
pub trait OverTower {
    ghost use Rattle.boot.specs.declared.locks.LockKind.{LockKind};

    /// What the work returns.
    type Done;

    /// Whether it may be done over the tower of a lock of this kind.
    ghost IsReady: { Self → LockKind → Type 0 };

    /// What the work leaves of its value, if it returns this.
    ghost Does: { Self → Self.Done → Self → Type 0 };

    /// Does the work over the top of the tower.
    ///
    /// Requires: it may be done over the tower of the kind of lock under this one.
    fn over<I: Stepwise + Drop>(&mut self) -> Self::Done
    where
        I::Machine: OnLock + Drop,
        requires { IsReady self.old I.Machine.lock_kind }
        ensures { Does self.old result self.new };
}

/// Does the work over queuing locks, conditions, buffers and message calls.
fn over_locks<V: OverTower, S: StepwiseLocks + Drop>(work: &mut V) -> V::Done
where
    S::Machine: OnLock + Drop,
    requires { V.IsReady work.old S.Machine.lock_kind }
    ensures { V.Does work.old result work.new }
{
    let _laws: TowerLaws = PhantomData;
    work.over::<Ipc<Fifo<Cond<QLock<S>>>>>()
}

/// [`over_locks`] over sleep and wakeup.
fn over_scheds<V: OverTower, S: StepwiseScheds + Drop>(work: &mut V) -> V::Done
where
    S::Machine: OnLock + Drop,
    requires { V.IsReady work.old S.Machine.lock_kind }
    ensures { V.Does work.old result work.new }
{
    over_locks::<V, Sleeper<LockEdit, S>>(work)
}

/// Does the work over the tower on these sections.
///
/// Requires: it may be done over the tower of their kind of lock.
pub fn over_sections<V: OverTower, L: StepwiseSections + Drop>(work: &mut V) -> V::Done
where
    L::Machine: OnLock + Drop,
    requires { V.IsReady work.old L.Machine.lock_kind }
    ensures { V.Does work.old result work.new }
{
    let _laws: TowerLaws = PhantomData;
    over_scheds::<V, Sched<SharedQueues<L>>>(work)
}
