//! Edits: the pure state updates that sections apply to the blocks of locks.
//!
//! No call is given an allocator, and none waits.

ghost use Rattle.std.specs.Prelude.{◌≡◌};

use crate::payloads::Payload;

/// What a section leaves in the event that ends it: its edit. A words log therefore determines each
/// section's edit and, by the fold of the edits, its result.
#[derive(Drop)]
pub struct Mark<E> {
    /// The edit of the section.
    pub edit: E,
}

/// A pure edit of a lock's block, in two pieces: the form that layers pass down, and the payload
/// beside it. The payload has a message or a list of threads. One section applies one edit.
/// [`Edit`] is the same as one value.
pub trait SplitEdit: Sized + Drop {
    ghost use Rattle.layer_traits.specs.{declared.payloads.Payload.Payload, Protocols.Protocol.Rules};

    /// What the lock guards.
    type Block: Drop;

    /// An edit's result.
    type Out: Drop;

    /// The form in which layers pass an edit down.
    type Request: Drop;

    /// The form in which layers pass a result back up.
    type Response: Drop;

    /// What an edit means: the block that it leaves and its result, as functions of the block that
    /// it finds. After which sections which CPU may do it.
    ghost protocol: { Rules Self Self.Block Self.Out };

    /// Abstraction function: the edit that a passed-down form means, with this payload beside it.
    ghost abstract_call: { Self.Request → Payload → Self };

    /// Abstraction function: the result that a passed-back form means, with this payload beside it.
    ghost abstract_answer: { Self.Response → Payload → Self.Out };

    /// Returns the edit that `handed` means.
    fn whole(handed: &Self::Request, payload: &Payload) -> Self
        ensures { result ≡ abstract_call handed.now payload.now };

    /// Performs on `block` the edit that `handed` means. What it returns, with what it leaves in
    /// the payload, means the edit's result. It is given no allocator.
    fn apply_request(
        handed: &Self::Request,
        block: &mut Self::Block,
        payload: &mut Payload,
    ) -> Self::Response
        ensures block { block.new
            ≡ protocol.edited (abstract_call handed.now payload.old) block.old }
        ensures answer { abstract_answer result payload.new
            ≡ protocol.answer (abstract_call handed.now payload.old) block.old };
}

/// A pure edit of a lock's block, as one value: it can be copied, holds what it puts, and its
/// result holds what it brings. Layers pass its two pieces down.
pub trait Edit: SplitEdit + Copy {
    ghost use Rattle.layer_traits.specs.declared.payloads.Payload.{Payload};

    /// Returns the form of this edit that layers pass down, and stores what it puts in the payload.
    fn hand_on(self, payload: &mut Payload) -> Self::Request
        ensures { Self.abstract_call result payload.new ≡ self };

    /// Returns the whole result. What it brings is taken out of the payload.
    fn bring_back(response: Self::Response, payload: &mut Payload) -> Self::Out
        ensures { result ≡ Self.abstract_answer response payload.old };

    /// Edits `block` and returns the edit's result. It is given no allocator.
    fn apply(self, block: &mut Self::Block) -> Self::Out
        ensures block { block.new ≡ Self.protocol.edited self block.old }
        ensures answer { result ≡ Self.protocol.answer self block.old }
    {
        let mut payload = Payload::new();
        let handed = self.hand_on(&mut payload);
        let response = Self::apply_request(&handed, block, &mut payload);
        Self::bring_back(response, &mut payload)
    }
}
