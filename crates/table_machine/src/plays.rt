//! What the caller learns from each atomic step.
ghost use Rattle.table_machine.specs.Plays.{Drew, LookedAtWord, Freed, Met, Entered};

use crate::table_words::TableWords;
use crate::views::{Slot, View};
use atomic_table::{Join, Play, Split};
use layer_traits::SplitEdit;
use std::marker::PhantomData;

/// A fetch-and-add on `next`.
pub(crate) struct Draws<E> {
    edit: PhantomData<E>,
}

impl<E: SplitEdit> Play<Slot<E, E::Block>, View<E, E::Block>> for Draws<E> {
    ghost then = { Drew E.protocol };
}

/// A load of the word that a waiter polls.
pub(crate) struct Looks<E, K> {
    edit: PhantomData<E>,
    words: PhantomData<K>,
}

impl<E: SplitEdit, K: TableWords> Play<Slot<E, E::Block>, View<E, E::Block>> for Looks<E, K> {
    ghost then = { λ _ v found w. LookedAtWord K.kind E.protocol v found w };
}

/// A write of the word by which a lock is released: a fetch-and-add or a store.
pub(crate) struct Frees<E> {
    edit: PhantomData<E>,
}

impl<E: SplitEdit> Play<Slot<E, E::Block>, View<E, E::Block>> for Frees<E> {
    ghost then = { λ _ v _ w. Freed E.protocol v w };
}

/// A load that is no event: the seat merges what it received.
pub(crate) struct Meets<E> {
    edit: PhantomData<E>,
}

impl<E: SplitEdit> Play<Slot<E, E::Block>, View<E, E::Block>> for Meets<E> {
    ghost then = { Met E.protocol };
}

/// The load of a new seat, which acts for no CPU.
pub(crate) struct Enters<E> {
    edit: PhantomData<E>,
}

impl<E: SplitEdit> Play<Slot<E, E::Block>, View<E, E::Block>> for Enters<E> {
    ghost then = { Entered };
}

/// The first CPU of a seat moves to a new seat.
pub(crate) struct Deals;

impl<E, B> Split<View<E, B>> for Deals {
    ghost use Rattle.std.specs.Prelude.{[], ◌∷◌, drop};
    ghost use Rattle.table_machine.specs.Views.{caught_up, mine, owner};

    ghost left = { λ v. caught_up v.start (drop 1 v.cpus) v.history };

    ghost right = { λ v. mine v.start (owner v.cpus) v.history };
}

/// What a seat has seen, for another seat. It acts for no CPU.
pub(crate) struct Copies;

impl<E, B> Split<View<E, B>> for Copies {
    ghost use Rattle.{std.specs.Prelude.{[]}, table_machine.specs.Views.caught_up};

    ghost left = { λ v. v };

    ghost right = { λ v. caught_up v.start [] v.history };
}

impl<E, B> Join<View<E, B>> for Copies {
    ghost use Rattle.{std.specs.Prelude.{[]}, table_machine.specs.Views.caught_up};

    ghost both = { λ v w. record { start = v.start; cpus = v.cpus; history = v.history; told = w.history; lent = w.cpus } };

    ghost spent = { caught_up [] [] [] };
}
