//! The locks that a plan or a count may name, each over an owned machine. Each is the same lock
//! over different words, which determine its kind ([`OnLock`]). [`by_kind`] of `cpu_workers`
//! chooses the words of a kind.
//!
//! A climb takes the memory that its work takes. No call waits.

ghost use Rattle.std.specs.Prelude.{◌≡◌};

pub mod counts;
pub mod kinds;
pub(crate) mod rounds;
pub mod towers;

use crate::locks::towers::{OverTower, over_sections};
use boot::LockKind;
use cpu_workers::{OnLock, by_kind};
use ipc_calls::{TowerEdit, TowerLockLaws};
use plain_machine::{LockQueueWords, Plain};
use spinlock::Ticket;
use std::marker::PhantomData;

/// Does the work over the tower on locks with these words.
///
/// Requires: the work may be done over the tower of the kind of lock that has these words.
fn climb<K: LockQueueWords + OnLock, V: OverTower>(work: &mut V) -> V::Done
    requires { V.IsReady work.old K.lock_kind }
    ensures { V.Does work.old result work.new }
{
    let _laws: TowerLockLaws = PhantomData;
    over_sections::<V, Ticket<Plain<TowerEdit, K>>>(work)
}

/// Does the work over the tower on a lock of this kind.
///
/// Requires: the work may be done over the tower of this kind of lock.
pub fn over_lock<V: OverTower>(lock: LockKind, work: &mut V) -> V::Done
    requires { V.IsReady work.old lock }
    ensures { V.Does work.old result work.new }
{
    by_kind!(lock, climb::<Line, V>(work))
}
