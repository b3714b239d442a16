//! Edits as the log keeps them.
//!
//! No function allocates or blocks.

ghost use Rattle.std.specs.Prelude.{◌≡◌};

use layer_traits::Ghost;
use std::marker::Model;

/// An edit in the log: at run time the part that was passed to the machine, and only for clauses
/// the whole edit.
#[derive(Drop)]
pub struct LoggedEdit<E, H> {
    /// The part that was passed to the machine.
    pub handed: H,
    edit: Ghost<E>,
}

impl<E, H> Model for LoggedEdit<E, H> {
    ghost Value = { E };

    ghost view = { λ m. m.edit };
}

impl<E, H> LoggedEdit<E, H> {
    /// Returns the log entry of this edit, with the part that was passed to the machine.
    #[inline(always)]
    pub fn of(handed: H, edit: &E) -> LoggedEdit<E, H>
        ensures { result ≡ edit.now }
    {
        LoggedEdit {
            handed,
            edit: Ghost::of(edit),
        }
    }
}
