//! How a count names the kind of its lock.

use cpu_workers::OnLock;
use cpu_workers::counting::{AddOne, LockOfKind};
use layer_traits::OwnedLocks;

/// The one name by which a count gives the kind of its lock: that of the lock's machine.
pub struct KindOf;

impl<L: OwnedLocks<AddOne>> LockOfKind<L> for KindOf
where
    L::Machine: OnLock,
{
    ghost lock_kind = { L.Machine.lock_kind };
}
