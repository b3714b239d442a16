//! An example of another lock: a ticket lock that is released by a store. No plan can name it.

ghost use Rattle.std.specs.Prelude.{◌≡◌};

use crate::TableWords;

/// The words of a ticket lock whose holder releases it by a store: `next` and `serving`. Only the
/// holder writes `serving`, so it need not add: it stores its ticket plus 1.
#[derive(Drop)]
pub struct StoredWords;

impl TableWords for StoredWords {
    ghost use Rattle.table_machine.specs.{Laws.Stored.stored_are, Stored.stored_words};

    ghost kind = { stored_words };

    #[inline(always)]
    fn opens() -> u64 {
        0
    }

    #[inline(always)]
    fn looks_at(_ticket: u64) -> usize {
        1
    }

    #[inline(always)]
    fn serves(ticket: u64, read: u64) -> bool {
        read == ticket
    }

    #[inline(always)]
    fn gives_at(_ticket: u64) -> usize {
        1
    }

    #[inline(always)]
    fn stores(ticket: u64) -> Option<u64> {
        Some(ticket.wrapping_add(1))
    }

    ghost lawful = { stored_are };
}
