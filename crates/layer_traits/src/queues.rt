//! The layer of shared queues.
//!
//! No call is given an allocator, and none waits.

ghost use Rattle.std.specs.Prelude.{◌≡◌, IsSome, is_some, map};
ghost use Rattle.event_log.specs.{declared.ids.LockId.TheVariants.Buffer, Sections.{block_after, sections_in}};
ghost use Rattle.layer_traits.specs.Blocks.{Payloads.{abstract_queue_call, abstract_queue_answer}, QueueBlocks.{StartsWell, inner}, QueueRules.AreProper};
ghost use Rattle.layer_traits.specs.{Blocks.QueueRules.queue_rules, Threads.Places.pending_by, Polling.{Plans.table_of, Polls.until_answered}};
ghost use Rattle.layer_traits.specs.Layers.Queues.{MayQueue, QueueAllowed, QueuePolled, buffer_sections, cpu_of_queue_event, event, event_of, kernel, lock_of};
ghost use Rattle.layer_traits.specs.Layers.Queues.{moves_in, queue_plan};

use crate::layers::{Law, Layer};
use crate::moves::Moves;
use crate::owned_layers::BlockLaw;
use crate::queue_edits::{BareQueueAnswer, QueueAnswer, QueueBlock, QueueEdit};
use event_log::{BufId, CpuId, Tid};
use std::marker::PhantomData;

/// A call at shared queues.
#[derive(Clone, Copy)]
pub enum QueueCall<E> {
    /// Puts a thread at the end of the pending queue of a CPU.
    Push(CpuId, Tid),
    /// Takes all threads of the pending queue of a CPU.
    TakeAll(CpuId),
    /// Edits the block of a buffer.
    OnBuffer(BufId, E),
}

/// A call at shared queues, and the CPU that made it.
#[derive(Drop)]
pub struct QueueEvent<E> {
    /// The CPU whose call it is.
    pub cpu: CpuId,
    /// The call.
    pub call: QueueCall<E>,
}

/// The law of shared queues. Each CPU has a queue of pending threads (remote wake-ups), into which
/// other CPUs push and which it drains. Each buffer has a block, which is edited. A CPU pushes the
/// thread in its hand into the queue of that thread's home, and takes only its own queue.
pub struct QueueLaw<E> {
    edits: PhantomData<E>,
}

impl<E: Moves> Law for QueueLaw<E> {
    type Call = QueueCall<E::Request>;

    type Answer = BareQueueAnswer<E::Response>;

    type AbstractAnswer = QueueAnswer<E::Out>;

    type Block = QueueBlock<E::Block>;

    type Name = QueueEdit<E>;

    type Reply = QueueAnswer<E::Out>;

    type Event = QueueEvent<E>;

    type Begun = QueueEvent<E>;

    type State = ();

    ghost cpu_of_event = { cpu_of_queue_event };

    ghost abstract_answer = { abstract_queue_answer E.abstract_answer };

    ghost allowed = { λ opening. QueueAllowed (kernel E.protocol E.moves opening) };

    ghost LockExists = { λ opening call payload. IsSome (opening (lock_of call)) };

    ghost IsLocal = { λ _ _ _. ⊥ };

    ghost AreValidHomes = { λ _. Unit {0} };

    ghost at_boot = { λ homes cpu. tt };

    ghost Boots = { λ _ _ _ _. Unit {0} };

    ghost MayPoll = { λ opening cpu history local under_way call payload. MayQueue (QueueAllowed (kernel E.protocol E.moves opening)) history under_way
        (event cpu (abstract_queue_call E.abstract_call call payload)) };

    ghost LeavesBegun = { λ cpu call payload result begun. begun ≡ until_answered result (event cpu (abstract_queue_call E.abstract_call call payload)) };

    ghost Polled = { λ opening ActsFor cpu call payload abstract_answer old new local local' begun. QueuePolled (kernel E.protocol E.moves opening) ActsFor
        (event cpu (abstract_queue_call E.abstract_call call payload)) abstract_answer old new };

    ghost IsPrompt = { λ _ _ result _ _. IsSome result };

    ghost table = { table_of (queue_rules E.protocol E.moves) };

    ghost plan = { λ opening cpu call payload local. queue_plan (abstract_queue_call E.abstract_call call payload) };

    ghost events_in = { λ acts. map event_of (sections_in acts) };

    ghost Inside = { λ begun inside. inside ≡ is_some begun };

    ghost Starts = { StartsWell };

    ghost AreProper = { λ acts. AreProper (sections_in acts) };

    ghost MovesAreLegal = { λ _ _. Unit {0} };

    ghost Agrees = { λ _ _ _ _. Unit {0} };
}

impl<E: Moves> BlockLaw for QueueLaw<E> {
    type Seen = E::Block;

    type Above = E::Block;

    ghost above = { λ block. block };

    ghost block_after = { λ opening history b. block_after E.protocol.edited (inner opening) (Buffer b) (buffer_sections history) };

    ghost pending_after = { λ opening history d. pending_by (moves_in (kernel E.protocol E.moves opening) history) d };
}

/// One CPU's part of a layer of shared queues. A poll does at most one atomic action of the call.
/// To the layers above a call is one event.
pub trait QueueLayer<E: Moves>: Layer<QueueLaw<E>> {}

impl<E: Moves, X: Layer<QueueLaw<E>>> QueueLayer<E> for X {}
