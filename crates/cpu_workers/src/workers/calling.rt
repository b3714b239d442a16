//! One message call of a native thread, polled until it returns. It takes no memory, and waits for
//! other CPUs.

ghost use Rattle.std.specs.Prelude.{◌≡◌, ◌≢◌, ◌<◌, None, Some, IfOk, IfErr, length};
ghost use Rattle.layer_traits.specs.{Blocks.Capacities.caps_in, Views.OwnParts.threads_in, declared.call_states.Stage.TheVariants.Idle};
ghost use Rattle.layer_traits.specs.{declared.passes.Pass.TheVariants.End, Layers.BufferLaw.{Calling, MayGoOn, MayPollCall, Passing, buffer_of, call_state_of}};
ghost use Rattle.{layer_traits.specs.Threads.Passes.MayPass, cpu_workers.specs.{declared.workers.calling.Begun.TheVariants.Calls, Calls.{EndsCall, KeepsOn}}};
ghost use Rattle.cpu_workers.specs.Calls.{MayBegin, MayPollBegun, Returned, begun_under_way};

use crate::pauses::SPINS;
use crate::workers::handoff_backoff::HandoffBackoff;
use crate::workers::hints::Hints;
use crate::workers::idlers::Idler;
use event_log::{CpuId, Tid};
use layer_traits::{Call, CallLayer, IpcLaw, Pass, Reply};
use std::sync::Wait;

/// What a CPU polls for the call of one thread.
#[derive(Clone, Copy, Drop)]
pub(crate) enum Begun {
    /// The call itself: its thread runs.
    Calls,
    /// A pass from thread to thread, after which the thread may run.
    Passes(Pass),
}

// Chooses what a CPU with nothing under way polls next for the call of `t`. A thread in its hand is
// forwarded first.
fn choose<I: CallLayer<IpcLaw>>(part: &I, t: Tid) -> Begun
    ensures may { MayBegin t (threads_in (I.local part.now)) result }
    ensures hand { result ≡ Calls → (threads_in (I.local part.now)).hand ≡ None }
    ensures calls { (threads_in (I.local part.now)).hand ≡ None
        → (threads_in (I.local part.now)).current ≡ Some t → result ≡ Calls }
{
    if let Some(woken) = part.hand() {
        return Begun::Passes(Pass::MakeReady(woken));
    }
    match part.current() {
        Some(runs) if runs == t => Begun::Calls,
        Some(_) => Begun::Passes(Pass::YieldNow),
        None if part.has_ready() => Begun::Passes(Pass::Switch),
        None => Begun::Passes(Pass::Drain),
    }
}

// Polls a pass once. Returns whether the pass is still under way.
fn poll_pass<I: CallLayer<IpcLaw>>(
    part: &mut I,
    m: &mut I::Machine,
    t: Tid,
    pass: Pass,
    call: &Call,
) -> Option<Begun>
    requires coupled { I.Coupled part.old m.old }
    requires room { 0 < I.room m.old }
    requires may { MayPass pass (threads_in (I.local part.old)) }
    requires keeps { pass ≢ End }
    requires goes_on { MayGoOn (I.under_way part.old) (Passing pass) }
    ensures coupled { I.Coupled part.new m.new }
    ensures cpu { I.cpu_of part.new ≡ I.cpu_of part.old }
    ensures opening { I.opening m.new ≡ I.opening m.old }
    ensures machine_id { I.machine_id m.new ≡ I.machine_id m.old }
    ensures under_way { I.under_way part.new ≡ begun_under_way t result }
    ensures may { MayPollBegun t (threads_in (I.local part.new)) result }
    ensures ended { (threads_in (I.local part.new)).ended ≡ (threads_in (I.local part.old)).ended }
    ensures on { KeepsOn (I.cpu_of part.old) t call.now (I.local part.old).call_states
        (I.local part.new).call_states (I.history m.old) (I.history m.new) }
{
    let _ = t;
    let _ = call;
    match part.pass(m, pass) {
        Some(()) => None,
        None => Some(Begun::Passes(pass)),
    }
}

// Polls the call of `t`, which runs, once: returns its reply, or what is under way then.
fn poll_call<I: CallLayer<IpcLaw>>(
    part: &mut I,
    m: &mut I::Machine,
    t: Tid,
    call: &Call,
) -> Result<Reply, Option<Begun>>
    requires coupled { I.Coupled part.old m.old }
    requires room { 0 < I.room m.old }
    requires buffer { (buffer_of call.now).0 < length (caps_in (I.opening m.old)) }
    requires runs { (threads_in (I.local part.old)).current ≡ Some t }
    requires hand { I.under_way part.old ≡ None → (threads_in (I.local part.old)).hand ≡ None }
    requires goes_on { MayGoOn (I.under_way part.old) (Calling t) }
    requires same { MayPollCall (call_state_of (I.local part.old).call_states t) call.now }
    ensures coupled { I.Coupled part.new m.new }
    ensures cpu { I.cpu_of part.new ≡ I.cpu_of part.old }
    ensures opening { I.opening m.new ≡ I.opening m.old }
    ensures machine_id { I.machine_id m.new ≡ I.machine_id m.old }
    ensures ended { (threads_in (I.local part.new)).ended ≡ (threads_in (I.local part.old)).ended }
    ensures runs { IfOk result (λ reply. (threads_in (I.local part.new)).current ≡ Some t) }
    ensures goes { IfErr result
        (λ begun. (I.under_way part.new ≡ begun_under_way t begun)
        × MayPollBegun t (threads_in (I.local part.new)) begun
        × KeepsOn (I.cpu_of part.old) t call.now (I.local part.old).call_states
        (I.local part.new).call_states (I.history m.old) (I.history m.new)) }
    ensures ends { IfOk result
        (λ reply. (I.under_way part.new ≡ None)
        × ((call_state_of (I.local part.new).call_states t).stage ≡ Idle)
        × EndsCall (I.cpu_of part.old) t call.now reply (I.local part.old).call_states
        (I.history m.old)
        (I.history m.new)) }
{
    match part.poll(m, t, call) {
        Some(reply) => Ok(reply),
        None if part.current().is_some() => Err(Some(Begun::Calls)),
        None => Err(None),
    }
}

// Polls once: a lock, what is under way, or what is next for the call of `t`. Returns the call's
// reply, or what is under way then.
fn poll_once<I: CallLayer<IpcLaw>>(
    part: &mut I,
    m: &mut I::Machine,
    t: Tid,
    call: &Call,
    begun: Option<Begun>,
) -> Result<Reply, Option<Begun>>
    requires coupled { I.Coupled part.old m.old }
    requires room { 0 < I.room m.old }
    requires buffer { (buffer_of call.now).0 < length (caps_in (I.opening m.old)) }
    requires under_way { I.under_way part.old ≡ begun_under_way t begun }
    requires may { MayPollBegun t (threads_in (I.local part.old)) begun }
    requires same { MayPollCall (call_state_of (I.local part.old).call_states t) call.now }
    ensures coupled { I.Coupled part.new m.new }
    ensures cpu { I.cpu_of part.new ≡ I.cpu_of part.old }
    ensures opening { I.opening m.new ≡ I.opening m.old }
    ensures machine_id { I.machine_id m.new ≡ I.machine_id m.old }
    ensures ended { (threads_in (I.local part.new)).ended ≡ (threads_in (I.local part.old)).ended }
    ensures runs { IfOk result (λ reply. (threads_in (I.local part.new)).current ≡ Some t) }
    ensures goes { IfErr result
        (λ begun. (I.under_way part.new ≡ begun_under_way t begun)
        × MayPollBegun t (threads_in (I.local part.new)) begun
        × KeepsOn (I.cpu_of part.old) t call.now (I.local part.old).call_states
        (I.local part.new).call_states (I.history m.old) (I.history m.new)) }
    ensures ends { IfOk result
        (λ reply. (I.under_way part.new ≡ None)
        × ((call_state_of (I.local part.new).call_states t).stage ≡ Idle)
        × EndsCall (I.cpu_of part.old) t call.now reply (I.local part.old).call_states
        (I.history m.old)
        (I.history m.new)) }
{
    if part.look(m) {
        return Err(begun);
    }
    let next = match begun {
        Some(next) => next,
        None => choose(part, t),
    };
    match next {
        Begun::Calls => poll_call(part, m, t, call),
        Begun::Passes(pass) => Err(poll_pass(part, m, t, pass, call)),
    }
}

/// Makes one message call of the thread `t`, whose CPU has nothing under way, and returns its
/// reply. It polls the CPU until the call has returned. The call had exactly one effect, which is
/// the CPU's one new entry, and the reply is that effect's. Under the CPU's backoff, kept from call
/// to call, it may wait a little before it requests a buffer's lock.
///
/// It waits for other CPUs, so it need not return. No call takes memory.
///
/// Requires: the buffer's number is one of the machine's, which has room at any time. No call of
/// `t` is under way.
pub fn call<I: CallLayer<IpcLaw>, R: Wait>(
    rt: &R,
    part: &mut I,
    m: &mut I::Machine,
    t: Tid,
    call: &Call,
    handoff_backoff: &mut HandoffBackoff,
) -> Reply
where
    I::Machine: Hints,
    requires coupled { I.Coupled part.old m.old }
    requires room { (w : I.Machine) → 0 < I.room w }
    requires buffer { (buffer_of call.now).0 < length (caps_in (I.opening m.old)) }
    requires under_way { I.under_way part.old ≡ None }
    requires idle { (call_state_of (I.local part.old).call_states t).stage ≡ Idle }
    ensures coupled { I.Coupled part.new m.new }
    ensures under_way { I.under_way part.new ≡ None }
    ensures idle { (call_state_of (I.local part.new).call_states t).stage ≡ Idle }
    ensures cpu { I.cpu_of part.new ≡ I.cpu_of part.old }
    ensures opening { I.opening m.new ≡ I.opening m.old }
    ensures machine_id { I.machine_id m.new ≡ I.machine_id m.old }
    ensures ended { (threads_in (I.local part.new)).ended ≡ (threads_in (I.local part.old)).ended }
    ensures runs { (threads_in (I.local part.new)).current ≡ Some t }
    ensures returned { Returned (I.cpu_of part.old) t call.now result (I.history m.old)
        (I.history m.new) }
{
    handoff_backoff.begin(m, call.buffer());
    let mut begun: Option<Begun> = None;
    let mut spins = SPINS;
    let mut idler = Idler::new(CpuId(t.0));
    for _ in rt.forever() {
        idler.before(part, m);
        match poll_once(part, m, t, call, begun) {
            Ok(reply) => return reply,
            Err(goes_on) => begun = goes_on,
        }
        spins = handoff_backoff.after(part, m, spins);
        idler.after_poll(rt, part, m, handoff_backoff);
    }
    unreachable!()
}
