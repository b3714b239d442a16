//! The edits of shared queues, their results, and the blocks that they edit.
//!
//! No call is given an allocator, and none waits.

use crate::block_box::{BlockBox, edit_in_box, push_in, take_from};
use crate::edits::{Edit, SplitEdit};
use crate::moves::Moves;
use crate::payloads::Payload;
use arrayvec::ArrayVec;
use event_log::{CpuId, THREADS, Tid};
use std::snapshot::Snapshot;
use thread_blocks::{ThreadList, ThreadQueue};

/// An edit at shared queues: of a pending queue, or of a block of the layer above.
#[derive(Clone, Copy)]
pub enum QueueEdit<E> {
    /// Puts a thread at the end of the queue.
    Push(Tid),
    /// Takes all threads of the queue.
    TakeAll,
    /// Edits the block of the layer above.
    Above(E),
}

/// The result of a call at shared queues.
#[derive(Drop)]
pub enum QueueAnswer<O> {
    /// The thread was pushed.
    Done,
    /// The threads that were taken, in their order.
    Taken(ThreadList),
    /// The edit's result.
    Answer(O),
}

/// The form in which layers pass back a result of shared queues: threads that it brings are in the
/// payload.
#[derive(Clone, Copy)]
pub enum BareQueueAnswer<O> {
    /// [`QueueAnswer::Done`].
    Done,
    /// [`QueueAnswer::Taken`], of the payload's threads.
    Taken,
    /// [`QueueAnswer::Answer`].
    Answer(O),
}

/// What a lock guards at shared queues. Each block is stored in a box, so that it passes from CPU
/// to CPU as one pointer.
#[derive(Drop)]
pub enum QueueBlock<B> {
    /// A queue of pending threads. The homes of all threads are beside it for the proofs only: they
    /// cost nothing at run time.
    Queue(BlockBox<ThreadQueue>, Snapshot<ArrayVec<CpuId, THREADS>>),
    /// A block of the layer above.
    Above(BlockBox<B>),
}

impl<E: Moves> SplitEdit for QueueEdit<E> {
    ghost use Rattle.layer_traits.specs.Blocks.{QueueRules.queue_rules, Payloads.{abstract_queue_edit, abstract_queue_answer}};

    type Block = QueueBlock<E::Block>;

    type Out = QueueAnswer<E::Out>;

    type Request = QueueEdit<E::Request>;

    type Response = BareQueueAnswer<E::Response>;

    ghost protocol = { queue_rules E.protocol E.moves };

    ghost abstract_call = { abstract_queue_edit E.abstract_call };

    ghost abstract_answer = { abstract_queue_answer E.abstract_answer };

    fn whole(handed: &QueueEdit<E::Request>, payload: &Payload) -> QueueEdit<E> {
        match handed {
            QueueEdit::Push(t) => QueueEdit::Push(*t),
            QueueEdit::TakeAll => QueueEdit::TakeAll,
            QueueEdit::Above(edit) => QueueEdit::Above(E::whole(edit, payload)),
        }
    }

    #[inline(always)]
    fn apply_request(
        handed: &QueueEdit<E::Request>,
        block: &mut QueueBlock<E::Block>,
        payload: &mut Payload,
    ) -> BareQueueAnswer<E::Response> {
        match handed {
            QueueEdit::Push(t) => {
                if let QueueBlock::Queue(queue, _) = block {
                    if usize::from(t.0) < THREADS && !queue.content().contains(*t) {
                        push_in(queue, *t);
                    }
                }
                BareQueueAnswer::Done
            }
            QueueEdit::TakeAll => match block {
                QueueBlock::Queue(queue, _) => {
                    take_from(queue, &mut payload.taken);
                    BareQueueAnswer::Taken
                }
                QueueBlock::Above(_) => BareQueueAnswer::Done,
            },
            QueueEdit::Above(edit) => match block {
                QueueBlock::Queue(_, _) => BareQueueAnswer::Done,
                QueueBlock::Above(above) => {
                    BareQueueAnswer::Answer(edit_in_box::<E>(above, edit, payload))
                }
            },
        }
    }
}

impl<E: Moves + Edit> Edit for QueueEdit<E> {
    fn hand_on(self, payload: &mut Payload) -> QueueEdit<E::Request> {
        match self {
            QueueEdit::Push(t) => QueueEdit::Push(t),
            QueueEdit::TakeAll => QueueEdit::TakeAll,
            QueueEdit::Above(edit) => QueueEdit::Above(edit.hand_on(payload)),
        }
    }

    fn bring_back(
        response: BareQueueAnswer<E::Response>,
        payload: &mut Payload,
    ) -> QueueAnswer<E::Out> {
        match response {
            BareQueueAnswer::Done => QueueAnswer::Done,
            BareQueueAnswer::Taken => QueueAnswer::Taken(payload.take_threads()),
            BareQueueAnswer::Answer(out) => QueueAnswer::Answer(E::bring_back(out, payload)),
        }
    }
}
