//! The layer of sections that put threads to sleep and wake them.
//!
//! No call is given an allocator, and none waits.

ghost use Rattle.std.specs.Prelude.{◌≡◌, ◌≤◌, [], IsSome, None, length, map, false};
ghost use Rattle.layer_traits.specs.Layers.{Sleeping.{SleepState, NoSleepers, sleep_edited, sleep_moves, sleep_rules}, Queues.{QueueAllowed, buffer_sections}};
ghost use Rattle.layer_traits.specs.Layers.{Queues.{cpu_of_queue_event, event_of, moves_in}, Scheds.SchedPolled, SleepLaw.{Sleeping, MayCall, MaySleep}};
ghost use Rattle.layer_traits.specs.{Layers.SleepLaw.{MustSend, SleepPolled, sleep_kernel, sleep_plan, done_if, pass_plan}, Threads.Places.at_boot};
ghost use Rattle.layer_traits.specs.{Threads.{Places.{pending_by, AreMoves}, ListsAgree.SleepAgrees}, Views.Owned.unowned_lock};
ghost use Rattle.layer_traits.specs.Blocks.{Payloads.abstract_outcome, QueueBlocks.{StartsWell, homes_in, inner}, QueueRules.{AreProper, queue_rules}};
ghost use Rattle.{layer_traits.specs.Polling.{Plans.table_of, Polls.until_answered}, event_log.specs.declared.ids.LockId.TheVariants.{Buffer, Pending}};
ghost use Rattle.event_log.specs.{declared.ids.TheConstants.THREADS, Sections.{block_after, sections_in}};
ghost use Rattle.layer_traits.specs.declared.scheds.SchedCall.TheVariants as sched;

use crate::layers::Law;
use crate::owned_layers::SleeperLaw;
use crate::queue_edits::{QueueAnswer, QueueBlock, QueueEdit};
use crate::queues::QueueEvent;
use crate::scheds::SchedCall;
use crate::sleeps::{Outcome, Sleeps};
use crate::threads::{ThreadLaw, ThreadLayer};
use event_log::BufId;
use std::marker::{Model, PhantomData};

/// A section at the lock of a buffer, in the form in which layers pass it down: one edit of what
/// that lock guards.
#[derive(Clone, Copy)]
pub struct BufferCall<E> {
    /// The buffer.
    pub buffer: BufId,
    /// The passed-down form of the edit.
    pub edit: E,
}

/// In clauses: the block of a lock with its waiting lists.
pub struct SleepStateOf<B> {
    above: B,
}

impl<B> Model for SleepStateOf<B> {
    ghost Value = { SleepState B };

    ghost view = { λ s. record { sleepers = []; receivers = []; senders = []; above = s.above } };
}

/// In clauses: the threads of a CPU, and the outcome that is still to be returned.
pub struct SleepingOf<O> {
    outcomes: PhantomData<O>,
}

impl<O> Model for SleepingOf<O> {
    ghost Value = { Sleeping O };

    ghost view = { λ _. record { threads = at_boot [] (record { 0 = 0 }); deferred = None } };
}

/// The law of sections that put threads to sleep and wake them (Gu et al., PLDI 2018). Each
/// buffer's lock has three waiting lists. A section does one edit, by which its caller may join one
/// of them, and one thread may leave one.
///
/// A section that wakes a thread of another CPU leaves it in its CPU's hand. If the caller
/// continues, its call then forwards that thread to its home CPU, and only then returns. A call
/// whose caller fell asleep returns at once, and the scheduler's next call forwards the thread.
///
/// A call is allowed if its caller runs here, the hand is empty, and the edits' protocol allows it
/// and continues to.
pub struct SleepLaw<E> {
    edits: PhantomData<E>,
}

impl<E: Sleeps> Law for SleepLaw<E> {
    type Call = BufferCall<E::Request>;

    type Answer = Outcome<E::Response>;

    type AbstractAnswer = Outcome<E::Out>;

    type Block = QueueBlock<SleepStateOf<E::Block>>;

    type Name = QueueEdit<E>;

    type Reply = QueueAnswer<Outcome<E::Out>>;

    type Event = QueueEvent<E>;

    type Begun = SchedCall<E>;

    type State = SleepingOf<E::Out>;

    ghost cpu_of_event = { cpu_of_queue_event };

    ghost abstract_answer = { λ outcome payload. abstract_outcome E.abstract_answer outcome payload.message_slot };

    ghost allowed = { λ opening. QueueAllowed (sleep_kernel E.protocol opening) };

    ghost LockExists = { λ opening call payload. IsSome (opening (Buffer call.buffer)) };

    ghost IsLocal = { λ _ _ _. ⊥ };

    ghost AreValidHomes = { λ homes. length homes ≤ THREADS };

    ghost at_boot = { λ homes cpu. record { threads = at_boot homes cpu; deferred = None } };

    ghost Boots = { λ opening history homes cpu. (history ≡ []) × (homes_in opening ≡ homes) × IsSome (opening (Pending cpu)) × NoSleepers (inner opening) };

    ghost MayPoll = { λ opening cpu history local under_way call payload. MayCall under_way
        (sched.OnBuffer call.buffer (E.abstract_call call.edit payload.message_slot))
        (MaySleep (sleep_kernel E.protocol opening) cpu history local.threads call.buffer (E.abstract_call call.edit payload.message_slot)) };

    ghost LeavesBegun = { λ cpu call payload result begun. begun ≡ until_answered result
        (sched.OnBuffer call.buffer (E.abstract_call call.edit payload.message_slot)) };

    ghost Polled = { λ opening ActsFor cpu call payload abstract_answer old new local local' begun. SleepPolled (sleep_kernel E.protocol opening) ActsFor cpu
        call.buffer (E.abstract_call call.edit payload.message_slot) old new local (record { local = local'; answer = abstract_answer }) };

    ghost IsPrompt = { λ call payload result local local'. result ≡ None → MustSend local local' };

    ghost table = { table_of (queue_rules (sleep_rules E.protocol) (sleep_moves E.protocol)) };

    ghost plan = { λ opening cpu call payload local. sleep_plan (sleep_moves E.protocol) (homes_in opening) cpu call.buffer
        (E.abstract_call call.edit payload.message_slot) local };

    ghost events_in = { λ acts. map event_of (sections_in acts) };

    ghost Inside = { λ _ _. Unit {0} };

    ghost Starts = { StartsWell };

    ghost AreProper = { λ acts. AreProper (sections_in acts) };

    ghost MovesAreLegal = { λ opening history. AreMoves (homes_in opening) (moves_in (sleep_kernel E.protocol opening) history) };

    ghost Agrees = { λ opening cpu history local. SleepAgrees E.protocol opening cpu history local.threads };
}

impl<E: Sleeps> ThreadLaw for SleepLaw<E> {
    ghost threads_of = { λ local. local.threads };

    ghost at_once = { λ _. false };

    ghost pass_begun = { sched.Pass };

    ghost Passed = { λ opening ActsFor cpu call result old new local local'. SchedPolled (sleep_kernel E.protocol opening) ActsFor cpu (sched.Pass call)
        (done_if result) old new local local' };

    ghost KeepsRest = { λ local local'. local'.deferred ≡ local.deferred };

    ghost pass_plan = { λ opening cpu call local. pass_plan (sleep_moves E.protocol) (homes_in opening) cpu call local };
}

impl<E: Sleeps> SleeperLaw for SleepLaw<E> {
    type Seen = SleepStateOf<E::Block>;

    type Above = E::Block;

    ghost lock = { unowned_lock };

    ghost block_after = { λ opening history b. block_after (sleep_edited E.protocol) (inner opening) (Buffer b) (buffer_sections history) };

    ghost pending_after = { λ opening history d. pending_by (moves_in (sleep_kernel E.protocol opening) history) d };
}

/// One CPU's part of a layer whose sections put threads to sleep and wake them. To the layers above
/// a section is one event.
pub trait SleepLayer<E: Sleeps>: ThreadLayer<SleepLaw<E>> {}

impl<E: Sleeps, X: ThreadLayer<SleepLaw<E>>> SleepLayer<E> for X {}
