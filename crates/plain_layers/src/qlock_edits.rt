//! The calls of a one-step queuing lock, as edits of plain data. Only `plain_locks` allocates. No
//! function blocks.

ghost use Rattle.std.specs.Prelude.{◌≡◌, IfOk, is_some, map};
ghost use Rattle.layer_traits.specs.{declared.locked.Side.TheVariants.{Receivers, Senders}, Layers.QLocking.{list_with_waiter, lock_asked_by, signalled}};
ghost use Rattle.layer_traits.specs.Layers.{QLocking.{wait_list_asked, wait_list_for, waiting_without, lock_answer, lock_edited}, Sleeping.joined};
ghost use Rattle.{layer_traits.specs.Blocks.Payloads.{abstract_lock_call, abstract_lock_answer, abstract_outcome}, plain_layers.specs.QLocks.at_rest};
ghost use Rattle.plain_layers.specs.QLocks.{lock_in};

use event_log::{NoMemory, THREADS, Tid};
use layer_traits::{
    LockView, Locked, Moves, Outcome, Payload, QLockCall, QLockReply, Side, SplitEdit, WaitList,
    WakeWaiter,
};
use std::alloc::Global;
use std::marker::Model;
use thread_blocks::ThreadQueue;

/// A queuing lock as plain data: its owner, the threads that wait at it, head first, and what it
/// guards.
#[derive(Drop)]
pub struct PlainQLockBlock<B> {
    owner: Option<Tid>,
    sleepers: ThreadQueue,
    receivers: ThreadQueue,
    senders: ThreadQueue,
    above: B,
}

impl<B> Model for PlainQLockBlock<B> {
    ghost use Rattle.{queuing_lock.specs.declared.edits.QLockBlock.QLockBlock, sleep_wakeup.specs.declared.edits.SleepBlock.SleepBlock};

    ghost Value = { SleepBlock (QLockBlock B) };

    ghost view = { λ lock. record {
      sleepers = lock.sleepers;
      receivers = lock.receivers;
      senders = lock.senders;
      above = record { busy = lock.owner; above = lock.above };
    } };
}

impl<B> PlainQLockBlock<B> {
    /// Returns what the block shows to the layers above.
    pub(crate) fn shown(&self) -> LockView<'_, B>
        ensures { result ≡ lock_in self.now }
    {
        LockView {
            owner: self.owner,
            sleepers: &self.sleepers,
            receivers: &self.receivers,
            senders: &self.senders,
            above: &self.above,
        }
    }
}

/// Returns the locks at boot, in the order of what they guard. No thread owns one or waits at one.
///
/// Errors: `NoMemory` if an allocation failed; then what they guard is dropped.
pub fn plain_locks<B: Drop>(
    alloc: Global,
    blocks: Vec<B>,
) -> Result<Vec<PlainQLockBlock<B>>, NoMemory>
    ensures { IfOk result (λ made. made.items ≡ map at_rest blocks.items) }
{
    let mut made = Vec::with_capacity(alloc, blocks.len())?;
    for above in blocks {
        made.push(PlainQLockBlock {
            owner: None,
            sleepers: ThreadQueue::new(),
            receivers: ThreadQueue::new(),
            senders: ThreadQueue::new(),
            above,
        })
        .unwrap();
    }
    Ok(made)
}

/// A call on a queuing lock, as an edit of the lock.
#[derive(Drop)]
pub struct PlainQLockCall<F, R> {
    call: QLockCall<F, R>,
}

impl<F, R> Model for PlainQLockCall<F, R> {
    ghost use Rattle.{queuing_lock.specs.declared.edits.QLockSection.QLockSection, sleep_wakeup.specs.declared.edits.SleepEdit.SleepEdit};

    ghost Value = { SleepEdit (QLockSection F R) };

    ghost view = { λ edit. record { edit = record { edit = edit.call } } };
}

/// Appends `t` to a list, if it is a thread that a machine may have and not in the list.
fn join(queue: &mut ThreadQueue, t: Tid)
    ensures { queue.new ≡ joined t queue.old }
{
    if usize::from(t.0) < THREADS && !queue.contains(t) {
        queue.push(t);
    }
}

/// Gives the lock to `t` if no thread owns it; otherwise `t` waits for it. Returns whether it
/// waits.
fn ask<B>(lock: &mut PlainQLockBlock<B>, t: Tid) -> bool
    ensures lock { lock_in lock.new ≡ lock_asked_by t lock.old.above.busy (lock_in lock.old) }
    ensures waits { result ≡ is_some (wait_list_asked lock.old.above.busy) }
{
    if lock.owner.is_none() {
        lock.owner = Some(t);
        return false;
    }
    join(&mut lock.sleepers, t);
    true
}

/// Takes the thread that an edit signals out of its list, and returns it if it was in the list.
fn wake(signal: WakeWaiter, receivers: &mut ThreadQueue, senders: &mut ThreadQueue) -> Option<Tid>
    ensures woke { result ≡ signalled signal receivers.old senders.old }
    ensures receivers { receivers.new ≡ waiting_without Receivers signal receivers.old }
    ensures senders { senders.new ≡ waiting_without Senders signal senders.old }
{
    match signal {
        WakeWaiter::Nobody => None,
        WakeWaiter::Receiver(u) => {
            if receivers.remove(u) {
                return Some(u);
            }
            None
        }
        WakeWaiter::Sender(u) => {
            if senders.remove(u) {
                return Some(u);
            }
            None
        }
    }
}

/// Appends `t` to the list of its side, if it waits on one.
fn wait(side: Option<Side>, t: Tid, receivers: &mut ThreadQueue, senders: &mut ThreadQueue)
    ensures receivers { receivers.new ≡ list_with_waiter Receivers side t receivers.old }
    ensures senders { senders.new ≡ list_with_waiter Senders side t senders.old }
{
    match side {
        None => {}
        Some(Side::Receivers) => join(receivers, t),
        Some(Side::Senders) => join(senders, t),
    }
}

/// Returns the list of the threads that wait on a side.
fn list_of(side: Option<Side>) -> Option<WaitList>
    ensures { result ≡ wait_list_for side }
{
    match side {
        None => None,
        Some(Side::Receivers) => Some(WaitList::Receivers),
        Some(Side::Senders) => Some(WaitList::Senders),
    }
}

/// Does a call on a lock.
fn apply<F: Locked>(
    handed: &QLockCall<F::Request, F::Release>,
    block: &mut PlainQLockBlock<F::Block>,
    payload: &mut Payload,
) -> Outcome<QLockReply<F::Response>>
    ensures lock { lock_in block.new
        ≡ lock_edited F.protocol
        (abstract_lock_call F.abstract_call handed.now payload.old.message_slot)
        (lock_in block.old) }
    ensures answer { abstract_outcome (abstract_lock_answer F.abstract_answer) result
        payload.new.message_slot
        ≡ lock_answer F.protocol
        (abstract_lock_call F.abstract_call handed.now payload.old.message_slot)
        (lock_in block.old) }
{
    match handed {
        QLockCall::Acquire(t) => {
            let slept = ask(block, *t);
            let out = if slept {
                QLockReply::Queued
            } else {
                QLockReply::Acquired
            };
            Outcome {
                out,
                slept,
                woke: None,
            }
        }
        QLockCall::Inside(edit) => {
            let out = F::apply_request(edit, &mut block.above, &mut payload.message_slot);
            let woke = wake(F::signals(&out), &mut block.receivers, &mut block.senders);
            Outcome {
                out: QLockReply::Did(out),
                slept: false,
                woke,
            }
        }
        QLockCall::Release(last) => {
            let t = F::last_caller(*last);
            let out = F::apply_last(*last, &mut block.above);
            let side = F::waits(&out);
            wait(side, t, &mut block.receivers, &mut block.senders);
            // The thread that has waited longest is the next owner of the lock; if none waits, the
            // lock is free.
            let woke = block.sleepers.pop();
            block.owner = woke;
            Outcome {
                out: QLockReply::Released(out),
                slept: side.is_some(),
                woke,
            }
        }
    }
}

impl<F: Locked> SplitEdit for PlainQLockCall<F, F::Release> {
    ghost use Rattle.plain_layers.specs.QLocks.{abstract_plain_call, plain_lock_rules, abstract_plain_answer};

    type Block = PlainQLockBlock<F::Block>;

    type Out = Outcome<QLockReply<F::Out>>;

    type Request = QLockCall<F::Request, F::Release>;

    type Response = Outcome<QLockReply<F::Response>>;

    ghost protocol = { plain_lock_rules F.protocol };

    ghost abstract_call = { abstract_plain_call F.abstract_call };

    ghost abstract_answer = { abstract_plain_answer F.abstract_answer };

    fn whole(
        handed: &QLockCall<F::Request, F::Release>,
        payload: &Payload,
    ) -> PlainQLockCall<F, F::Release> {
        let call = match handed {
            QLockCall::Acquire(t) => QLockCall::Acquire(*t),
            QLockCall::Inside(edit) => QLockCall::Inside(F::whole(edit, &payload.message_slot)),
            QLockCall::Release(last) => QLockCall::Release(*last),
        };
        PlainQLockCall { call }
    }

    fn apply_request(
        handed: &QLockCall<F::Request, F::Release>,
        block: &mut PlainQLockBlock<F::Block>,
        payload: &mut Payload,
    ) -> Outcome<QLockReply<F::Response>> {
        apply::<F>(handed, block, payload)
    }
}

impl<F: Locked> Moves for PlainQLockCall<F, F::Release> {
    ghost use Rattle.{queuing_lock.specs.Nested.busy_rules, sleep_wakeup.specs.Laws.NestedLaws.nested_wakes, plain_layers.specs.QLocks.plain_lock_moves};

    ghost moves = { plain_lock_moves F.protocol };

    fn slept(response: &Outcome<QLockReply<F::Response>>) -> Option<WaitList> {
        match &response.out {
            QLockReply::Acquired | QLockReply::Did(_) => None,
            QLockReply::Queued => Some(WaitList::Sleepers),
            QLockReply::Released(last) => list_of(F::waits(last)),
        }
    }

    fn woke(response: &Outcome<QLockReply<F::Response>>) -> Option<Tid> {
        response.woke
    }

    ghost wakes_sleepers = { nested_wakes (busy_rules F.protocol) };
}
