//! Boxes: blocks stored in separate memory, so that passing a block on moves one pointer.
//!
//! Only `BlockBox::new` allocates memory, and no call waits.

ghost use Rattle.std.specs.Prelude.{◌≡◌, ◌<◌, ◌++◌, ◌∷◌, [], false, IfOk};
ghost use Rattle.{event_log.specs.declared.ids.TheConstants.THREADS, thread_blocks.specs.Queues.is_in};

use crate::edits::SplitEdit;
use crate::payloads::Payload;
use event_log::{NoMemory, Tid};
use std::alloc::Global;
use std::marker::Model;
use thread_blocks::{ThreadList, ThreadQueue};

/// A pointer to a block: moving the box moves no content. Its view is its content.
#[derive(Drop)]
pub struct BlockBox<B> {
    content: Box<B>,
}

impl<B> Model for BlockBox<B> {
    ghost Value = { B };

    ghost view = { λ r. r.content.value };
}

impl<B: Drop> BlockBox<B> {
    /// Returns a box that holds `block`.
    ///
    /// Errors: `NoMemory` if the allocation failed; then `block` is gone.
    pub fn new(alloc: Global, block: B) -> Result<BlockBox<B>, NoMemory>
        ensures { IfOk result (λ r. r ≡ block) }
    {
        let content = Box::new(alloc, block)?;
        Ok(BlockBox { content })
    }

    /// Returns what the box holds.
    pub fn content(&self) -> &B
        ensures { result.now ≡ self.now }
    {
        &self.content
    }
}

/// Performs on the content the edit that `handed` means, and returns the passed-back form of the
/// edit's result. It is given no allocator.
#[inline(always)]
pub fn edit_in_box<E: SplitEdit>(
    boxed: &mut BlockBox<E::Block>,
    handed: &E::Request,
    payload: &mut Payload,
) -> E::Response
    ensures block { boxed.new
        ≡ E.protocol.edited (E.abstract_call handed.now payload.old) boxed.old }
    ensures answer { E.abstract_answer result payload.new
        ≡ E.protocol.answer (E.abstract_call handed.now payload.old) boxed.old }
{
    E::apply_request(handed, &mut boxed.content, payload)
}

/// Appends `t` to the queue that the box holds.
///
/// Requires: `t` is below `THREADS`, and is not in the queue.
#[inline(always)]
pub fn push_in(boxed: &mut BlockBox<ThreadQueue>, t: Tid)
    requires known { t.0 < THREADS }
    requires new { is_in t boxed.old ≡ false }
    ensures { boxed.new ≡ boxed.old ++ t ∷ [] }
{
    boxed.content.push(t);
}

/// Moves all threads of the queue that the box holds into `taken`, in place of those that were
/// there, and leaves the queue empty.
#[inline(always)]
pub fn take_from(boxed: &mut BlockBox<ThreadQueue>, taken: &mut ThreadList)
    ensures all { taken.new ≡ boxed.old }
    ensures empty { boxed.new ≡ [] }
{
    boxed.content.take_into(taken);
}
