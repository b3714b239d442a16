//! A section's edit with the waiting lists of its lock. No call allocates memory or waits.

ghost use Rattle.std.specs.Prelude.{◌≡◌};
ghost use Rattle.layer_traits.specs.{declared.moves.WaitList.TheVariants.{Sleepers, Receivers, Senders}, Views.Owned.unowned_lock, Layers.Sleeping.joined};
ghost use Rattle.{layer_traits.specs.Layers.Sleeping.{left, wait_list_joined, woken_by}, sleep_wakeup.specs.Nested.state_of};

use event_log::{THREADS, Tid};
use layer_traits::{
    Edit, LockView, Moves, Outcome, Payload, Sleeps, SplitEdit, WaitList, Wake, WholeSleeps,
};
use thread_blocks::ThreadQueue;

/// An edit of the layer above, with its effect on the waiting lists.
#[derive(Clone, Copy)]
pub struct SleepEdit<E> {
    /// The edit.
    pub edit: E,
}

/// What a lock guards: its waiting lists, and the block of the layer above.
#[derive(Drop)]
pub struct SleepBlock<B> {
    /// The threads that sleep for the lock itself.
    pub sleepers: ThreadQueue,
    /// The threads that wait to receive.
    pub receivers: ThreadQueue,
    /// The threads that wait to send.
    pub senders: ThreadQueue,
    /// The block of the layer above.
    pub above: B,
}

/// Puts `t` at the end of a waiting list, if it is a thread of the machine and is not in the list
/// yet.
fn join(queue: &mut ThreadQueue, t: Tid)
    ensures { queue.new ≡ joined t queue.old }
{
    if usize::from(t.0) < THREADS && !queue.contains(t) {
        queue.push(t);
    }
}

/// Returns what a block shows to the layers above: its lock has no owner.
pub fn view_of<B>(block: &SleepBlock<B>) -> LockView<'_, B>
    ensures { result ≡ unowned_lock (state_of block.now) }
{
    LockView {
        owner: None,
        sleepers: &block.sleepers,
        receivers: &block.receivers,
        senders: &block.senders,
        above: &block.above,
    }
}

/// Removes the thread that leaves a waiting list, and returns the thread that this wakes.
#[inline(always)]
fn let_out(
    leave: Wake,
    sleepers: &mut ThreadQueue,
    receivers: &mut ThreadQueue,
    senders: &mut ThreadQueue,
) -> Option<Tid>
    ensures woke { result ≡ woken_by leave sleepers.old receivers.old senders.old }
    ensures sleepers { sleepers.new ≡ left Sleepers leave sleepers.old }
    ensures receivers { receivers.new ≡ left Receivers leave receivers.old }
    ensures senders { senders.new ≡ left Senders leave senders.old }
{
    match leave {
        Wake::Nobody => None,
        Wake::FirstSleeper => sleepers.pop(),
        Wake::Receiver(u) => {
            if receivers.remove(u) {
                return Some(u);
            }
            None
        }
        Wake::Sender(u) => {
            if senders.remove(u) {
                return Some(u);
            }
            None
        }
    }
}

/// Puts `t` at the end of the named waiting list, if one is named.
#[inline(always)]
fn fall_asleep(
    line: Option<WaitList>,
    t: Tid,
    sleepers: &mut ThreadQueue,
    receivers: &mut ThreadQueue,
    senders: &mut ThreadQueue,
)
    ensures sleepers { sleepers.new ≡ wait_list_joined Sleepers line t sleepers.old }
    ensures receivers { receivers.new ≡ wait_list_joined Receivers line t receivers.old }
    ensures senders { senders.new ≡ wait_list_joined Senders line t senders.old }
{
    match line {
        None => {}
        Some(WaitList::Sleepers) => join(sleepers, t),
        Some(WaitList::Receivers) => join(receivers, t),
        Some(WaitList::Senders) => join(senders, t),
    }
}

impl<E: Sleeps> SplitEdit for SleepEdit<E> {
    ghost use Rattle.sleep_wakeup.specs.Nested.{abstract_nested_edit, nested_rules, abstract_nested_answer};

    type Block = SleepBlock<E::Block>;

    type Out = Outcome<E::Out>;

    type Request = SleepEdit<E::Request>;

    type Response = Outcome<E::Response>;

    ghost protocol = { nested_rules E.protocol };

    ghost abstract_call = { abstract_nested_edit E.abstract_call };

    ghost abstract_answer = { abstract_nested_answer E.abstract_answer };

    fn whole(handed: &SleepEdit<E::Request>, payload: &Payload) -> SleepEdit<E> {
        SleepEdit {
            edit: E::whole(&handed.edit, &payload.message_slot),
        }
    }

    #[inline(always)]
    fn apply_request(
        handed: &SleepEdit<E::Request>,
        block: &mut SleepBlock<E::Block>,
        payload: &mut Payload,
    ) -> Outcome<E::Response> {
        let caller = E::caller(&handed.edit);
        let first = block.sleepers.front();
        let out = E::apply_request(
            &handed.edit,
            first,
            &mut block.above,
            &mut payload.message_slot,
        );
        let line = E::joins(&out);
        let leave = E::leaves(&out);
        let woke = let_out(
            leave,
            &mut block.sleepers,
            &mut block.receivers,
            &mut block.senders,
        );
        fall_asleep(
            line,
            caller,
            &mut block.sleepers,
            &mut block.receivers,
            &mut block.senders,
        );
        Outcome {
            out,
            slept: line.is_some(),
            woke,
        }
    }
}

impl<E: Sleeps> Moves for SleepEdit<E> {
    ghost use Rattle.sleep_wakeup.specs.{Laws.NestedLaws.nested_wakes, Nested.nested_moves};

    ghost moves = { nested_moves E.protocol };

    #[inline(always)]
    fn slept(response: &Outcome<E::Response>) -> Option<WaitList> {
        E::joins(&response.out)
    }

    #[inline(always)]
    fn woke(response: &Outcome<E::Response>) -> Option<Tid> {
        response.woke
    }

    ghost wakes_sleepers = { nested_wakes E.protocol };
}

impl<E: WholeSleeps> Edit for SleepEdit<E> {
    fn hand_on(self, payload: &mut Payload) -> SleepEdit<E::Request> {
        SleepEdit {
            edit: self.edit.hand_on(&mut payload.message_slot),
        }
    }

    fn bring_back(response: Outcome<E::Response>, payload: &mut Payload) -> Outcome<E::Out> {
        Outcome {
            out: E::bring_back(response.out, &payload.message_slot),
            slept: response.slept,
            woke: response.woke,
        }
    }
}
