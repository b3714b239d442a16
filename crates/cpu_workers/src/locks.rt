//! The locks that a plan or a count may name. A lock is its words: those at a table
//! ([`PlanWords`]), and those in an owned machine ([`OnLock`]). Only [`by_kind`] says which words a
//! kind of lock has. A further lock is an impl of each trait for its words, and an arm there. No
//! call takes memory or waits.

ghost use Rattle.std.specs.Prelude.{◌≡◌};
ghost use Rattle.boot.specs.declared.locks.LockKind.TheVariants as kind;

pub use boot::LockKind;
use layer_traits::SplitEdit;
pub use plain_machine::{Granting, LockWords};
use plain_machine::{LockQueueWords, Plain};
use table_machine::TableWords;
pub use table_machine::{TicketWords, WaiterWords};

/// Calls a function over the words of the lock of a kind. Its first type parameter is `Table` for
/// the words at a table, which meet [`PlanWords`]. It is `Line` for those in an owned machine,
/// which meet [`OnLock`](crate::OnLock). Further type parameters are as written.
///
/// ```text
/// by_kind!(boot.lock(), run_words::<Table, G, R>(rt, alloc, boot, turns, gate))
/// by_kind!(lock, climb::<Line, V>(work))
/// ```
#[macro_export]
macro_rules! by_kind {
    (Table of $table:ident, $line:ident) => { $crate::locks::$table };
    (Line of $table:ident, $line:ident) => { $crate::locks::$line };
    ($kind:expr, $call:ident::<$words:ident $(, $with:ty)*>($($given:expr),*)) => {
        match $kind {
            $crate::locks::LockKind::Ticket => {
                $call::<$crate::by_kind!($words of TicketWords, LockWords) $(, $with)*>($($given),*)
            }
            $crate::locks::LockKind::Grant => {
                $call::<$crate::by_kind!($words of WaiterWords, Granting) $(, $with)*>($($given),*)
            }
        }
    };
}

/// The words of a lock that a plan or a count may name, at a table.
pub trait PlanWords: TableWords {
    ghost use Rattle.boot.specs.declared.locks.LockKind.{LockKind};

    /// The lock's kind, as a plan names it.
    ghost lock_kind: { LockKind };

    /// Returns the lock's kind.
    fn kind() -> LockKind
        ensures { result ≡ lock_kind };
}

impl PlanWords for TicketWords {
    ghost lock_kind = { kind.Ticket };

    fn kind() -> LockKind {
        LockKind::Ticket
    }
}

impl PlanWords for WaiterWords {
    ghost lock_kind = { kind.Grant };

    fn kind() -> LockKind {
        LockKind::Grant
    }
}

/// Locks of one kind: their words in an owned machine, and an owned machine of such words. Each
/// layer of a tower over that machine has it as its own machine.
pub trait OnLock {
    ghost use Rattle.boot.specs.declared.locks.LockKind.{LockKind};

    /// The kind of these locks, as a plan names it.
    ghost lock_kind: { LockKind };
}

impl OnLock for LockWords {
    ghost lock_kind = { kind.Ticket };
}

impl OnLock for Granting {
    ghost lock_kind = { kind.Grant };
}

impl<E: SplitEdit, K: LockQueueWords + OnLock> OnLock for Plain<E, K> {
    ghost lock_kind = { K.lock_kind };
}
