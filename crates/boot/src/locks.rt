//! Which lock a plan asks for. No call allocates memory or waits.

ghost use Rattle.std.specs.Prelude.{◌≡◌, codes};
ghost use Rattle.{toml.specs.{Data.get_member, View.table_view}, boot.specs.{Locks.lock_named, Plan.lock_at}};

use crate::refusals::{BootError, PlanKey};
use crate::tables::value_at;
use toml::Table;

/// The kind of FIFO spin lock in whose queue CPUs wait.
#[derive(Clone, Copy, Debug, PartialEq, Eq)]
pub enum LockKind {
    /// `ticket`: a ticket lock.
    Ticket,
    /// `grant`: a lock with a grant word for each waiter.
    Grant,
}

impl LockKind {
    /// Returns the lock of this name: `ticket` or `grant`. `None` if no lock has this name.
    pub fn named(name: &str) -> Option<LockKind>
        ensures { result ≡ lock_named name.now }
    {
        match name {
            "ticket" => Some(LockKind::Ticket),
            "grant" => Some(LockKind::Grant),
            _ => None,
        }
    }
}

/// Returns the lock of a plan. The default, where the key is absent, is a lock with grant words.
///
/// Errors: `MissingKey` if the value of the key is not a text. `OutOfRange` if the text is not the
/// name of a lock. The table is unchanged.
#[tactic(auto, unfolding(crate::specs::Plan::lock_at))]
pub fn lock_at(table: &Table) -> Result<LockKind, BootError>
    ensures { result ≡ lock_at (get_member (codes "lock") (table_view table.now)) }
{
    let Some(value) = value_at(table, "lock") else {
        return Ok(LockKind::Grant);
    };
    let Some(name) = value.as_str() else {
        return Err(BootError::MissingKey(PlanKey::Lock));
    };
    match LockKind::named(name) {
        Some(lock) => Ok(lock),
        None => Err(BootError::OutOfRange(PlanKey::Lock)),
    }
}
