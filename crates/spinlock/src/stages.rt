//! The stage of a section: its control state.
//!
//! No call is given an allocator, and none waits.

ghost use Rattle.std.specs.Prelude.{◌≡◌, option_map};

use event_log::LockId;
use std::mem;

/// The stage of a CPU's section, with what the CPU has of it: its edit `E` may be stored for
/// clauses only.
#[derive(Drop)]
pub enum TicketPhase<E, B> {
    /// No section is under way.
    Out,
    /// A ticket is drawn, and no poll of the word has succeeded.
    Waiting {
        /// The lock.
        lock: LockId,
        /// The section's edit.
        edit: E,
        /// The ticket.
        ticket: u64,
    },
    /// A poll has succeeded, and the CPU has the block.
    Holding {
        /// The lock.
        lock: LockId,
        /// The section's edit, still to be done.
        edit: E,
        /// The lock's block as the poll returned it.
        block: B,
    },
}

impl<E: Drop, B: Drop> TicketPhase<E, B> {
    ghost use Rattle.spinlock.specs.Stages.{hit_by};

    /// Moves to the stage after a poll of a CPU that waits. A poll that found this block succeeds,
    /// and the edit moves on with it. A failed poll writes nothing.
    #[inline(always)]
    pub fn hit(&mut self, found: Option<B>)
        ensures { self.new ≡ hit_by found self.old }
    {
        if let Some(block) = found {
            *self = match mem::replace(self, TicketPhase::Out) {
                TicketPhase::Waiting { lock, edit, .. } => {
                    TicketPhase::Holding { lock, edit, block }
                }
                other => other,
            };
        }
    }
}

impl<E, B> TicketPhase<E, B> {
    ghost use Rattle.spinlock.specs.Stages.{held_block};

    /// Returns the block of `lock`, if this CPU has it.
    pub fn held(&self, lock: LockId) -> Option<&B>
        ensures { option_map (λ block. block.now) result ≡ held_block lock self.now }
    {
        match self {
            TicketPhase::Holding {
                lock: at,
                block,
                ..
            } if lock == *at => Some(block),
            _ => None,
        }
    }
}
