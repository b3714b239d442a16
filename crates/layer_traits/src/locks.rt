//! The layer of critical sections.
//!
//! No call is given an allocator, and none waits.

ghost use Rattle.std.specs.Prelude.{◌≡◌, IsSome, is_some};
ghost use Rattle.{event_log.specs.Sections.{Section, cpu_of_section, sections_in}, layer_traits.specs.{Protocols.Protocol.section, Polling.Plans.section_plan}};
ghost use Rattle.layer_traits.specs.Polling.{Plans.table_of, Polls.{MayPoll, PolledAtLock, until_answered}};

use crate::edits::SplitEdit;
use crate::layers::{Law, Layer};
use event_log::{CpuId, LockId};
use std::marker::{Model, PhantomData};

/// A section in the form in which layers pass it down: one edit of what a lock guards.
#[derive(Clone, Copy)]
pub struct LockCall<E> {
    /// The lock.
    pub lock: LockId,
    /// The passed-down form of the edit.
    pub edit: E,
}

/// In clauses: a section of a CPU.
pub struct SectionOf<E> {
    cpu: CpuId,
    call: LockCall<E>,
}

impl<E> Model for SectionOf<E> {
    ghost Value = { Section E };

    ghost view = { λ s. section s.cpu s.call.lock s.call.edit };
}

/// The law of critical sections: a call is one section, and the poll that ends it returns the
/// result of its edit.
pub struct LockLaw<E> {
    edits: PhantomData<E>,
}

impl<E: SplitEdit> Law for LockLaw<E> {
    type Call = LockCall<E::Request>;

    type Answer = E::Response;

    type AbstractAnswer = E::Out;

    type Block = E::Block;

    type Name = E;

    type Reply = E::Out;

    type Event = SectionOf<E>;

    type Begun = SectionOf<E>;

    type State = ();

    ghost cpu_of_event = { cpu_of_section };

    ghost abstract_answer = { E.abstract_answer };

    ghost allowed = { E.protocol.allowed };

    ghost LockExists = { λ opening call payload. IsSome (opening call.lock) };

    ghost IsLocal = { λ _ _ _. ⊥ };

    ghost AreValidHomes = { λ _. Unit {0} };

    ghost at_boot = { λ homes cpu. tt };

    ghost Boots = { λ _ _ _ _. Unit {0} };

    ghost MayPoll = { λ opening cpu history local under_way call payload. MayPoll (E.protocol.allowed opening) history under_way
        (section cpu call.lock (E.abstract_call call.edit payload)) };

    ghost LeavesBegun = { λ cpu call payload result begun. begun ≡ until_answered result (section cpu call.lock (E.abstract_call call.edit payload)) };

    ghost Polled = { λ opening ActsFor cpu call payload abstract_answer old new local local' begun. PolledAtLock E.protocol opening ActsFor
        (section cpu call.lock (E.abstract_call call.edit payload)) abstract_answer old new };

    ghost IsPrompt = { λ _ _ result _ _. IsSome result };

    ghost table = { table_of E.protocol };

    ghost plan = { λ opening cpu call payload local. section_plan call.lock (E.abstract_call call.edit payload) };

    ghost events_in = { sections_in };

    ghost Inside = { λ begun inside. inside ≡ is_some begun };

    ghost Starts = { λ _. Unit {0} };

    ghost AreProper = { λ _. Unit {0} };

    ghost MovesAreLegal = { λ _ _. Unit {0} };

    ghost Agrees = { λ _ _ _ _. Unit {0} };
}

/// One CPU's part of a layer of critical sections. A poll does at most one atomic action of the
/// section `(lock, edit)`. To the layers above a section is one event.
pub trait LockLayer<E: SplitEdit>: Layer<LockLaw<E>> {}

impl<E: SplitEdit, X: Layer<LockLaw<E>>> LockLayer<E> for X {}
