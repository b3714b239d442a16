//! Changes a CPU's private scheduling state: the thread that runs, the hand (in-transit slot), the
//! run queue and the ended threads.
//!
//! No call is given an allocator, and none waits.

ghost use Rattle.std.specs.Prelude.{◌≡◌, ◌≤◌, length};
ghost use Rattle.{event_log.specs.declared.ids.TheConstants.THREADS, layer_traits.specs.Threads.{Places.{at_boot, home_of, is_cpu}, Passes.switched}};
ghost use Rattle.layer_traits.specs.{Threads.Passes.{took_pending, passed_on, finished, own_slept, own_woken}, Layers.Scheds.{own_by, answer_by}};
ghost use Rattle.{layer_traits.specs.Blocks.Payloads.{abstract_queue_answer, abstract_sched_answer}, scheduler.specs.Owns.{MayFinish, MayJoin, MaySettle}};
ghost use Rattle.scheduler.specs.Owns.{MayTake, passed_locally};

use crate::run_queue::{join, join_all};
use event_log::{CpuId, Tid};
use layer_traits::{BareQueueAnswer, Moves, OwnThreads, Pass, Payload, SchedAnswer, WaitList};
use thread_blocks::{ThreadList, ThreadQueue};

/// Returns the scheduling state of `cpu` at boot: all threads whose home it is are ready, in the
/// order of their numbers. `homes` holds the home of each thread.
///
/// Requires: there are at most `THREADS` homes.
pub fn threads_at_boot(homes: &[CpuId], cpu: CpuId) -> OwnThreads
    requires { length homes.now ≤ THREADS }
    ensures { result ≡ at_boot homes.now cpu }
{
    let mut ready = ThreadQueue::new();
    for i in 0..homes.len() {
        if cpu.0 == homes[i].0 {
            ready.push(Tid(i as u8));
        }
    }
    OwnThreads {
        current: None,
        hand: None,
        ready,
        ended: ThreadQueue::new(),
    }
}

/// Switches the context: the thread at the head of the run queue runs.
#[inline(always)]
fn switch(local: &mut OwnThreads)
    ensures { local.new ≡ switched local.old }
{
    local.current = local.ready.pop();
}

/// Moves the thread that runs to the ended ones.
#[inline(always)]
fn finish(local: &mut OwnThreads)
    requires { MayFinish local.old }
    ensures { local.new ≡ finished local.old }
{
    if let Some(t) = local.current {
        local.ended.push(t);
    }
    local.current = None;
}

/// Moves the threads of `queue` to the run queue, and after them the thread that runs.
#[inline(always)]
fn join_ready(local: &mut OwnThreads, queue: &mut ThreadList)
    requires { MayJoin queue.old local.old }
    ensures { local.new ≡ took_pending queue.old local.old }
{
    join_all(&mut local.ready, queue);
    if let Some(t) = local.current {
        join(&mut local.ready, t);
    }
    local.current = None;
}

/// Empties the hand: its thread was forwarded to its home CPU.
#[inline(always)]
fn pass_on(local: &mut OwnThreads)
    ensures { local.new ≡ passed_on local.old }
{
    local.hand = None;
}

/// Takes note that the thread that runs went to sleep, if `slept` names a wait list, and that
/// `woke` was woken. A woken thread is ready if `cpu` is its home, and otherwise in the hand.
#[inline(always)]
fn settle(
    local: &mut OwnThreads,
    homes: &[CpuId],
    cpu: CpuId,
    slept: Option<WaitList>,
    woke: Option<Tid>,
)
    requires { MaySettle woke local.old }
    ensures { local.new ≡ own_woken homes.now cpu woke (own_slept slept local.old) }
{
    if slept.is_some() {
        local.current = None;
    }
    let Some(t) = woke else { return };
    if is_home(homes, cpu, t) {
        join(&mut local.ready, t);
    } else {
        local.hand = Some(t);
    }
}

/// Does a pass that touches nothing shared: a switch, or the end of the thread that runs. Any other
/// pass changes nothing.
///
/// Requires: the thread that runs, if one does, is below `THREADS` and has not ended.
#[inline(always)]
pub fn pass_locally(local: &mut OwnThreads, pass: Pass)
    requires { MayFinish local.old }
    ensures { local.new ≡ passed_locally pass local.old }
{
    match pass {
        Pass::Switch => switch(local),
        Pass::End => finish(local),
        _ => {}
    }
}

/// Takes up the result of the shared queues, and returns the scheduler's. The threads that were
/// taken are moved directly from the payload to the run queue.
///
/// Requires: each thread that becomes ready through the result is below `THREADS`, is not ready yet
/// and occurs once.
#[inline(always)]
pub fn take_answer<E: Moves>(
    local: &mut OwnThreads,
    homes: &[CpuId],
    cpu: CpuId,
    answer: BareQueueAnswer<E::Response>,
    payload: &mut Payload,
) -> SchedAnswer<E::Response>
    requires { MayTake E.moves (abstract_queue_answer E.abstract_answer answer payload.old)
        local.old }
    ensures local { local.new
        ≡ own_by E.moves homes.now cpu (abstract_queue_answer E.abstract_answer answer payload.old)
        local.old }
    ensures answer { abstract_sched_answer E.abstract_answer result payload.new
        ≡ answer_by (abstract_queue_answer E.abstract_answer answer payload.old) }
{
    match answer {
        BareQueueAnswer::Done => {
            pass_on(local);
            SchedAnswer::Done
        }
        BareQueueAnswer::Taken => {
            join_ready(local, &mut payload.taken);
            SchedAnswer::Done
        }
        BareQueueAnswer::Answer(out) => {
            settle(local, homes, cpu, E::slept(&out), E::woke(&out));
            SchedAnswer::Answer(out)
        }
    }
}

/// Returns whether `cpu` is the home of `t`.
#[inline(always)]
fn is_home(homes: &[CpuId], cpu: CpuId, t: Tid) -> bool
    ensures { result ≡ is_cpu cpu (home_of homes.now t) }
{
    match homes.get(usize::from(t.0)) {
        None => false,
        Some(home) => cpu.0 == home.0,
    }
}
