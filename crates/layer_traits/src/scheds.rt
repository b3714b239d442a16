//! The layer of schedulers. No call is given an allocator or waits.

ghost use Rattle.std.specs.Prelude.{◌≡◌, ◌≢◌, ◌≤◌, true, false, length, [], IsSome, is_some, map};
ghost use Rattle.layer_traits.specs.{Threads.Places.{at_boot, pending_by, Stands}, Blocks.Payloads.{abstract_sched_call, abstract_sched_answer}};
ghost use Rattle.layer_traits.specs.{Blocks.{QueueBlocks.{StartsWell, homes_in, inner}, QueueRules.{AreProper, queue_rules}}, Polling.Plans.table_of};
ghost use Rattle.layer_traits.specs.{Polling.Polls.until_answered, Layers.Scheds.{BufferIsThere, IsLocal, MaySched, SchedPolled, sched_plan}};
ghost use Rattle.layer_traits.specs.Layers.Queues.{QueueAllowed, buffer_sections, cpu_of_queue_event, event_of, kernel, moves_in};
ghost use Rattle.event_log.specs.{declared.ids.{LockId.TheVariants.{Buffer, Pending}, TheConstants.THREADS}, Sections.{block_after, sections_in}};

use crate::layers::{Law, Layer};
use crate::moves::Moves;
use crate::own_threads::OwnThreads;
use crate::owned_layers::BlockLaw;
use crate::passes::Pass;
use crate::queue_edits::{QueueAnswer, QueueBlock, QueueEdit};
use crate::queues::QueueEvent;
use event_log::{BufId, Tid};
use std::marker::PhantomData;

/// A call of a CPU's scheduler.
#[derive(Clone, Copy)]
pub enum SchedCall<E> {
    /// Performs a pass, a scheduling operation.
    Pass(Pass),
    /// The thread that runs edits the block of a buffer.
    OnBuffer(BufId, E),
}

/// The result of a call of a scheduler.
#[derive(Clone, Copy)]
pub enum SchedAnswer<O> {
    /// The pass is done.
    Done,
    /// The edit's result.
    Answer(O),
}

/// The law of schedulers: which thread runs on a CPU, which are ready there, which have ended, and
/// which woken thread of another home is in its hand. An edit may put the thread that runs to
/// sleep, and may wake a sleeper. A woken thread is ready at once if its home is this CPU.
/// Otherwise it is in this CPU's hand until it is made ready at its home (Gu et al., PLDI 2018).
pub struct SchedLaw<E> {
    edits: PhantomData<E>,
}

impl<E: Moves> Law for SchedLaw<E> {
    type Call = SchedCall<E::Request>;

    type Answer = SchedAnswer<E::Response>;

    type AbstractAnswer = SchedAnswer<E::Out>;

    type Block = QueueBlock<E::Block>;

    type Name = QueueEdit<E>;

    type Reply = QueueAnswer<E::Out>;

    type Event = QueueEvent<E>;

    type Begun = SchedCall<E>;

    type State = OwnThreads;

    ghost cpu_of_event = { cpu_of_queue_event };

    ghost abstract_answer = { abstract_sched_answer E.abstract_answer };

    ghost allowed = { λ opening. QueueAllowed (kernel E.protocol E.moves opening) };

    ghost LockExists = { λ opening call payload. BufferIsThere opening call };

    ghost IsLocal = { λ local call payload. IsLocal call };

    ghost AreValidHomes = { λ homes. length homes ≤ THREADS };

    ghost at_boot = { at_boot };

    ghost Boots = { λ opening history homes cpu. (history ≡ []) × (homes_in opening ≡ homes) × IsSome (opening (Pending cpu)) };

    ghost MayPoll = { λ opening cpu history local under_way call payload. MaySched (kernel E.protocol E.moves opening) cpu history local under_way
        (abstract_sched_call E.abstract_call call payload) };

    ghost LeavesBegun = { λ cpu call payload result begun. begun ≡ until_answered result (abstract_sched_call E.abstract_call call payload) };

    ghost Polled = { λ opening ActsFor cpu call payload abstract_answer old new local local' begun. SchedPolled (kernel E.protocol E.moves opening) ActsFor cpu
        (abstract_sched_call E.abstract_call call payload) abstract_answer old new local local' };

    ghost IsPrompt = { λ _ _ result _ _. IsSome result };

    ghost table = { table_of (queue_rules E.protocol E.moves) };

    ghost plan = { λ opening cpu call payload local. sched_plan E.moves (homes_in opening) cpu (abstract_sched_call E.abstract_call call payload) local };

    ghost events_in = { λ acts. map event_of (sections_in acts) };

    ghost Inside = { λ begun inside. inside ≡ is_some begun };

    ghost Starts = { StartsWell };

    ghost AreProper = { λ acts. AreProper (sections_in acts) };

    ghost MovesAreLegal = { λ _ _. Unit {0} };

    ghost Agrees = { λ opening cpu history local. Stands (homes_in opening) cpu (moves_in (kernel E.protocol E.moves opening) history) local };
}

impl<E: Moves> BlockLaw for SchedLaw<E> {
    type Seen = E::Block;

    type Above = E::Block;

    ghost above = { λ block. block };

    ghost block_after = { λ opening history b. block_after E.protocol.edited (inner opening) (Buffer b) (buffer_sections history) };

    ghost pending_after = { λ opening history d. pending_by (moves_in (kernel E.protocol E.moves opening) history) d };
}

/// One CPU's part of a layer of schedulers. A poll does at most one atomic action of the call. To
/// the layers above a call is one event.
pub trait SchedLayer<E: Moves>: Layer<SchedLaw<E>> {
    /// Returns the thread that runs; `None` if none does.
    #[inline(always)]
    fn current(&self) -> Option<Tid>
        ensures { result ≡ (Self.local self.now).current }
    {
        self.local_here().current()
    }

    /// Returns the woken thread in the hand, whose home is another CPU; `None` if there is none.
    #[inline(always)]
    fn hand(&self) -> Option<Tid>
        ensures { result ≡ (Self.local self.now).hand }
    {
        self.local_here().hand()
    }

    /// Returns whether any thread is ready.
    #[inline(always)]
    fn has_ready(&self) -> bool
        ensures some { result ≡ true → (Self.local self.now).ready ≢ [] }
        ensures none { result ≡ false → (Self.local self.now).ready ≡ [] }
    {
        self.local_here().has_ready()
    }
}

impl<E: Moves, X: Layer<SchedLaw<E>>> SchedLayer<E> for X {}
