//! Top layers in which a poll is one action, and those in which it is a whole call.

use crate::owned::Owned;

/// A top layer of which each poll is one action, as in the tower. What holds of layers under this
/// condition holds of it without one.
pub trait Stepwise: Owned {
    /// Law: one poll is one action.
    ghost steps: { Self.IsStepwise };
}

/// A top layer of which each poll is a whole call: the call takes effect at the first poll at which
/// its buffer allows it.
pub trait Prompt: Owned {
    /// Law: one poll is one call.
    ghost whole: { Self.IsWhole };
}
