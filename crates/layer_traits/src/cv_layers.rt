//! The layer of conditions.
//!
//! No call is given an allocator, and none waits.

ghost use Rattle.std.specs.Prelude.{◌≡◌, ◌⊎◌, ◌≤◌, [], IsSome, None, length, map};
ghost use Rattle.layer_traits.specs.Layers.{CvLaw.{Waiting, waiting_at_start, CvPolled, MayCallCond, MustStay, cv_plan, cv_pass_plan}, Conditions.cv_rules};
ghost use Rattle.layer_traits.specs.Layers.{QLockLaw.{LockAgrees, lock_kernel, slept_for, is_handed}, QLocking.{AreAtRest, lock_after, lock_caller}};
ghost use Rattle.layer_traits.specs.Layers.{QLocking.{lock_moves, lock_rules}, Queues.{QueueAllowed, buffer_sections, cpu_of_queue_event, event_of, moves_in}};
ghost use Rattle.layer_traits.specs.{Layers.{Scheds.SchedPolled, SleepLaw.done_if}, Blocks.Payloads.{abstract_cv_edit, abstract_cv_answer, abstract_lock_call}};
ghost use Rattle.layer_traits.specs.Blocks.{Payloads.{abstract_lock_answer, abstract_outcome}, QueueBlocks.{StartsWell, homes_in, inner}, QueueRules.AreProper};
ghost use Rattle.layer_traits.specs.{Blocks.QueueRules.queue_rules, Threads.Places.{AreMoves, pending_by}, Polling.Plans.table_of};
ghost use Rattle.event_log.specs.{declared.ids.{LockId.TheVariants.{Buffer, Pending}, TheConstants.THREADS}, Sections.sections_in};
ghost use Rattle.layer_traits.specs.declared.scheds.SchedCall.TheVariants as sched;

use crate::conditions::{CvEdit, CvLeave, CvReply, Guarded};
use crate::layers::Law;
use crate::locked::{QLockCall, QLockReply};
use crate::owned_layers::SleeperLaw;
use crate::qlock_layers::LockStateOf;
use crate::queue_edits::{QueueAnswer, QueueBlock, QueueEdit};
use crate::queues::QueueEvent;
use crate::scheds::SchedCall;
use crate::sleep_layers::BufferCall;
use crate::sleeps::Outcome;
use crate::threads::{ThreadLaw, ThreadLayer};
use std::marker::{Model, PhantomData};

/// In clauses: a CPU's private state of its locks, and where each thread waits.
pub struct WaitingOf<O> {
    outcomes: PhantomData<O>,
}

impl<O> Model for WaitingOf<O> {
    ghost Value = { Waiting O };

    ghost view = { λ _. waiting_at_start [] (record { 0 = 0 }) };
}

/// The law of queuing locks with Mesa conditions (Anderson and Dahlin). The owner of a lock may
/// release it and wait in one event. A signal wakes the head of a queue, and the woken thread
/// acquires the lock again by a separate call. A wait returns once its thread was woken and runs
/// again.
///
/// A call is allowed if the lock below allows it. A thread that was woken from a wait calls that
/// wait again, and no other call is pending.
pub struct CvLaw<G> {
    edits: PhantomData<G>,
}

impl<G: Guarded> Law for CvLaw<G> {
    type Call = BufferCall<QLockCall<CvEdit<G::Request>, CvLeave>>;

    type Answer = Outcome<QLockReply<CvReply<G::Response>>>;

    type AbstractAnswer = Outcome<QLockReply<CvReply<G::Out>>>;

    type Block = QueueBlock<LockStateOf<G::Block>>;

    type Name = QueueEdit<QLockCall<CvEdit<G>, CvLeave>>;

    type Reply = QueueAnswer<Outcome<QLockReply<CvReply<G::Out>>>>;

    type Event = QueueEvent<QLockCall<CvEdit<G>, CvLeave>>;

    type Begun = SchedCall<QLockCall<CvEdit<G>, CvLeave>>;

    type State = WaitingOf<G::Out>;

    ghost cpu_of_event = { cpu_of_queue_event };

    ghost abstract_answer = { λ outcome payload. abstract_outcome (abstract_lock_answer (abstract_cv_answer G.abstract_answer)) outcome payload.message_slot };

    ghost allowed = { λ opening. QueueAllowed (lock_kernel (cv_rules G.monitor_rules) opening) };

    ghost LockExists = { λ opening call payload. IsSome (opening (Buffer call.buffer)) };

    ghost IsLocal = { λ local call payload.
        IsSome (slept_for local.waits (lock_caller (cv_rules G.monitor_rules)
        (abstract_lock_call (abstract_cv_edit G.abstract_call) call.edit payload.message_slot)))
        ⊎ IsSome (slept_for local.lock.slept (lock_caller (cv_rules G.monitor_rules)
        (abstract_lock_call (abstract_cv_edit G.abstract_call) call.edit payload.message_slot))) };

    ghost AreValidHomes = { λ homes. length homes ≤ THREADS };

    ghost at_boot = { waiting_at_start };

    ghost Boots = { λ opening history homes cpu. (history ≡ []) × (homes_in opening ≡ homes) × IsSome (opening (Pending cpu)) × AreAtRest (inner opening) };

    ghost MayPoll = { λ opening cpu history local under_way call payload. MayCallCond G.monitor_rules (lock_kernel (cv_rules G.monitor_rules) opening)
        cpu history local under_way call.buffer (abstract_lock_call (abstract_cv_edit G.abstract_call) call.edit payload.message_slot) };

    ghost LeavesBegun = { λ _ _ _ _ _. Unit {0} };

    ghost Polled = { λ opening ActsFor cpu call payload abstract_answer old new local local' begun. CvPolled G.monitor_rules
        (lock_kernel (cv_rules G.monitor_rules) opening)
        ActsFor cpu call.buffer (abstract_lock_call (abstract_cv_edit G.abstract_call) call.edit payload.message_slot)
        (slept_for local.waits (lock_caller (cv_rules G.monitor_rules) (abstract_lock_call (abstract_cv_edit G.abstract_call) call.edit payload.message_slot)))
        old new local begun (record { local = local'; answer = abstract_answer }) };

    ghost IsPrompt = { λ call payload result local local'. result ≡ None
        → MustStay (lock_caller (cv_rules G.monitor_rules) (abstract_lock_call (abstract_cv_edit G.abstract_call) call.edit payload.message_slot))
        call.buffer local local' };

    ghost table = { table_of (queue_rules (lock_rules (cv_rules G.monitor_rules)) (lock_moves (cv_rules G.monitor_rules))) };

    ghost plan = { λ opening cpu call payload local. cv_plan (lock_moves (cv_rules G.monitor_rules)) (homes_in opening) cpu call.buffer
        (abstract_lock_call (abstract_cv_edit G.abstract_call) call.edit payload.message_slot) local };

    ghost events_in = { λ acts. map event_of (sections_in acts) };

    ghost Inside = { λ _ _. Unit {0} };

    ghost Starts = { StartsWell };

    ghost AreProper = { λ acts. AreProper (sections_in acts) };

    ghost MovesAreLegal = { λ opening history. AreMoves (homes_in opening) (moves_in (lock_kernel (cv_rules G.monitor_rules) opening) history) };

    ghost Agrees = { λ opening cpu history local. LockAgrees (cv_rules G.monitor_rules) opening cpu history local.lock };
}

impl<G: Guarded> ThreadLaw for CvLaw<G> {
    ghost threads_of = { λ local. local.lock.sleep.threads };

    ghost at_once = { λ local. is_handed local.lock.slept local.lock.sleep.threads.current };

    ghost pass_begun = { sched.Pass };

    ghost Passed = { λ opening ActsFor cpu call result old new local local'. SchedPolled (lock_kernel (cv_rules G.monitor_rules) opening) ActsFor cpu
        (sched.Pass call) (done_if result) old new local local' };

    ghost KeepsRest = { λ local local'. (local'.lock.sleep.deferred ≡ local.lock.sleep.deferred) × (local'.lock.slept ≡ local.lock.slept)
        × (local'.waits ≡ local.waits) };

    ghost pass_plan = { λ opening cpu call local. cv_pass_plan (lock_moves (cv_rules G.monitor_rules)) (homes_in opening) cpu call local };
}

impl<G: Guarded> SleeperLaw for CvLaw<G> {
    type Seen = LockStateOf<G::Block>;

    type Above = G::Block;

    ghost lock = { λ state. state };

    ghost block_after = { λ opening history b. lock_after (cv_rules G.monitor_rules) (inner opening) (Buffer b) (buffer_sections history) };

    ghost pending_after = { λ opening history d. pending_by (moves_in (lock_kernel (cv_rules G.monitor_rules) opening) history) d };
}

/// One CPU's part of a layer of queuing locks with conditions. A poll does at most one atomic
/// action; if it returns `None` the same call must be polled again, once its thread runs.
pub trait CvLayer<G: Guarded>: ThreadLayer<CvLaw<G>> {}

impl<G: Guarded, X: ThreadLayer<CvLaw<G>>> CvLayer<G> for X {}
