//! The layer of locks that are handed from owner to owner.
//!
//! No call is given an allocator, and none waits.

ghost use Rattle.std.specs.Prelude.{◌≡◌, ◌≤◌, [], IsSome, None, length, map};
ghost use Rattle.layer_traits.specs.Layers.{QLocking.{LockState, AreAtRest, lock_after, lock_caller, lock_moves, lock_rules}, QLockLaw.Locking};
ghost use Rattle.layer_traits.specs.Layers.QLockLaw.{locking_at_start, LockAgrees, LockPolled, MayCallLock, MustWait, lock_kernel, lock_plan, slept_for};
ghost use Rattle.layer_traits.specs.Layers.{QLockLaw.{is_handed, lock_pass_plan}, Queues.{QueueAllowed, buffer_sections, cpu_of_queue_event, event_of}};
ghost use Rattle.layer_traits.specs.{Layers.{Queues.moves_in, Scheds.SchedPolled, SleepLaw.done_if}, Blocks.Payloads.abstract_lock_call};
ghost use Rattle.layer_traits.specs.Blocks.{Payloads.{abstract_lock_answer, abstract_outcome}, QueueBlocks.{StartsWell, homes_in, inner}, QueueRules.AreProper};
ghost use Rattle.layer_traits.specs.{Blocks.QueueRules.queue_rules, Threads.Places.{AreMoves, pending_by}, Polling.Plans.table_of};
ghost use Rattle.event_log.specs.{declared.ids.{LockId.TheVariants.{Buffer, Pending}, TheConstants.THREADS}, Sections.sections_in};
ghost use Rattle.layer_traits.specs.declared.scheds.SchedCall.TheVariants as sched;

use crate::layers::Law;
use crate::locked::{Locked, QLockCall, QLockReply};
use crate::owned_layers::SleeperLaw;
use crate::queue_edits::{QueueAnswer, QueueBlock, QueueEdit};
use crate::queues::QueueEvent;
use crate::scheds::SchedCall;
use crate::sleep_layers::BufferCall;
use crate::sleeps::Outcome;
use crate::threads::{ThreadLaw, ThreadLayer};
use std::marker::{Model, PhantomData};

/// In clauses: the block of a lock with its owner and its waiting lists.
pub struct LockStateOf<B> {
    above: B,
}

impl<B> Model for LockStateOf<B> {
    ghost Value = { LockState B };

    ghost view = { λ s. record { owner = None; sleepers = []; receivers = []; senders = []; above = s.above } };
}

/// In clauses: a CPU's private state of the lower layer, and for which lock each thread slept.
pub struct LockingOf<O> {
    outcomes: PhantomData<O>,
}

impl<O> Model for LockingOf<O> {
    ghost Value = { Locking O };

    ghost view = { λ _. locking_at_start [] (record { 0 = 0 }) };
}

/// The law of queuing locks (Gu et al., OSDI 2016): each buffer's lock has an owner. An Acquire of
/// a lock that has one puts its caller to sleep, and is polled again once the thread runs again.
/// The thread then owns the lock, and the result says so without an action.
///
/// A call is allowed if its caller runs here and the hand is empty, and if it is the owner's or
/// asks for the lock. The edits' protocol must allow it and continue to. A thread that slept for a
/// lock asks for it again, and no other call is pending.
pub struct QLockLaw<F> {
    edits: PhantomData<F>,
}

impl<F: Locked> Law for QLockLaw<F> {
    type Call = BufferCall<QLockCall<F::Request, F::Release>>;

    type Answer = Outcome<QLockReply<F::Response>>;

    type AbstractAnswer = Outcome<QLockReply<F::Out>>;

    type Block = QueueBlock<LockStateOf<F::Block>>;

    type Name = QueueEdit<QLockCall<F, F::Release>>;

    type Reply = QueueAnswer<Outcome<QLockReply<F::Out>>>;

    type Event = QueueEvent<QLockCall<F, F::Release>>;

    type Begun = SchedCall<QLockCall<F, F::Release>>;

    type State = LockingOf<F::Out>;

    ghost cpu_of_event = { cpu_of_queue_event };

    ghost abstract_answer = { λ outcome payload. abstract_outcome (abstract_lock_answer F.abstract_answer) outcome payload.message_slot };

    ghost allowed = { λ opening. QueueAllowed (lock_kernel F.protocol opening) };

    ghost LockExists = { λ opening call payload. IsSome (opening (Buffer call.buffer)) };

    ghost IsLocal = { λ local call payload. IsSome
        (slept_for local.slept (lock_caller F.protocol (abstract_lock_call F.abstract_call call.edit payload.message_slot))) };

    ghost AreValidHomes = { λ homes. length homes ≤ THREADS };

    ghost at_boot = { locking_at_start };

    ghost Boots = { λ opening history homes cpu. (history ≡ []) × (homes_in opening ≡ homes) × IsSome (opening (Pending cpu)) × AreAtRest (inner opening) };

    ghost MayPoll = { λ opening cpu history local under_way call payload. MayCallLock F.protocol (lock_kernel F.protocol opening) cpu history local under_way
        call.buffer (abstract_lock_call F.abstract_call call.edit payload.message_slot) };

    ghost LeavesBegun = { λ _ _ _ _ _. Unit {0} };

    ghost Polled = { λ opening ActsFor cpu call payload abstract_answer old new local local' begun. LockPolled F.protocol (lock_kernel F.protocol opening)
        ActsFor cpu
        call.buffer (abstract_lock_call F.abstract_call call.edit payload.message_slot)
        (slept_for local.slept (lock_caller F.protocol (abstract_lock_call F.abstract_call call.edit payload.message_slot)))
        old new local begun (record { local = local'; answer = abstract_answer }) };

    ghost IsPrompt = { λ call payload result local local'. result ≡ None
        → MustWait (lock_caller F.protocol (abstract_lock_call F.abstract_call call.edit payload.message_slot)) call.buffer local local' };

    ghost table = { table_of (queue_rules (lock_rules F.protocol) (lock_moves F.protocol)) };

    ghost plan = { λ opening cpu call payload local. lock_plan (lock_moves F.protocol) (homes_in opening) cpu call.buffer
        (abstract_lock_call F.abstract_call call.edit payload.message_slot) local };

    ghost events_in = { λ acts. map event_of (sections_in acts) };

    ghost Inside = { λ _ _. Unit {0} };

    ghost Starts = { StartsWell };

    ghost AreProper = { λ acts. AreProper (sections_in acts) };

    ghost MovesAreLegal = { λ opening history. AreMoves (homes_in opening) (moves_in (lock_kernel F.protocol opening) history) };

    ghost Agrees = { LockAgrees F.protocol };
}

impl<F: Locked> ThreadLaw for QLockLaw<F> {
    ghost threads_of = { λ local. local.sleep.threads };

    ghost at_once = { λ local. is_handed local.slept local.sleep.threads.current };

    ghost pass_begun = { sched.Pass };

    ghost Passed = { λ opening ActsFor cpu call result old new local local'. SchedPolled (lock_kernel F.protocol opening) ActsFor cpu (sched.Pass call)
        (done_if result) old new local local' };

    ghost KeepsRest = { λ local local'. (local'.sleep.deferred ≡ local.sleep.deferred) × (local'.slept ≡ local.slept) };

    ghost pass_plan = { λ opening cpu call local. lock_pass_plan (lock_moves F.protocol) (homes_in opening) cpu call local };
}

impl<F: Locked> SleeperLaw for QLockLaw<F> {
    type Seen = LockStateOf<F::Block>;

    type Above = F::Block;

    ghost lock = { λ state. state };

    ghost block_after = { λ opening history b. lock_after F.protocol (inner opening) (Buffer b) (buffer_sections history) };

    ghost pending_after = { λ opening history d. pending_by (moves_in (lock_kernel F.protocol opening) history) d };
}

/// One CPU's part of a layer of queuing locks. A poll does at most one atomic action of the current
/// thread's call.
pub trait QLockLayer<F: Locked>: ThreadLayer<QLockLaw<F>> {}

impl<F: Locked, X: ThreadLayer<QLockLaw<F>>> QLockLayer<F> for X {}
