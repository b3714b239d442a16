//! A buffer under a monitor: a message call as one section of the buffer's lock. No function
//! allocates or blocks.

ghost use Rattle.std.specs.Prelude.{◌≡◌, ◌≤◌};
ghost use Rattle.{event_log.specs.declared.ids.TheConstants.CAPACITY, layer_traits.specs.{Blocks.BufferBlocks.may_go, Layers.Sleeping.joined}};
ghost use Rattle.fifo_buffer.specs.{declared.monitor_blocks.MonitorAsk.TheVariants.{Send, Receive, Close, WakeFirst}, Monitors.{buffer_alone, debtor_of}};
ghost use Rattle.fifo_buffer.specs.Monitors.{empty_monitor, front_woken, goes_now, is_at_head, is_owed, is_owed_by, leaving_of, monitor_edited_by};
ghost use Rattle.fifo_buffer.specs.Monitors.{monitor_effect, monitor_told_by, owed_after, owed_by, owed_next, owing, receive_effect, received, waiting_at};

use event_log::{CAPACITY, Kind, Msg, Ring, THREADS, Tid};
use layer_traits::{Effect, MessageSlot, Side, Sleeps, WaitList, Wake};
use std::marker::Model;
use thread_blocks::ThreadQueue;

/// What a thread asks of a buffer in one section.
#[derive(Clone, Copy)]
pub enum MonitorAsk {
    /// To send this message.
    Send(Msg),
    /// To receive a message.
    Receive,
    /// To close the buffer.
    Close,
    /// To wake the first thread of this side, if some thread owes it that.
    WakeFirst(Side),
}

/// A section of a monitor.
#[derive(Clone, Copy)]
pub struct MonitorEdit {
    /// The thread that calls.
    pub thread: Tid,
    /// What it asks.
    pub ask: MonitorAsk,
}

/// The result of a section of a monitor.
#[derive(Clone, Copy)]
pub enum MonitorReply {
    /// The call had this effect. Its thread owes the first of this side a wake-up, if any.
    Acted(Effect, Option<Side>),
    /// The call had no effect; its thread waits on this side.
    Refused(Side),
    /// The section woke this thread. Its own thread still owes the first of this side a wake-up, if
    /// any.
    Woke(Wake, Option<Side>),
}

impl MonitorReply {
    /// Returns the effect of the section, if it had one.
    #[inline(always)]
    pub fn effect(&self) -> Option<Effect>
        ensures { result ≡ monitor_effect self.now }
    {
        match *self {
            MonitorReply::Acted(effect, _) => Some(effect),
            MonitorReply::Refused(_) | MonitorReply::Woke(_, _) => None,
        }
    }

    /// Returns the side whose first the section's thread owes a wake-up after it, if any.
    #[inline(always)]
    pub fn owed(&self) -> Option<Side>
        ensures { result ≡ owed_after self.now }
    {
        match *self {
            MonitorReply::Acted(_, next) | MonitorReply::Woke(_, next) => next,
            MonitorReply::Refused(_) => None,
        }
    }
}

/// The status of the first thread of a line.
#[derive(Clone, Copy)]
pub enum Front {
    /// It sleeps, and no thread owes it a wake-up; or there is none.
    Asleep,
    /// It sleeps, and this thread owes it a wake-up.
    Owed(Tid),
    /// It was woken.
    Awake,
}

/// A buffer under a monitor: the line of threads of each side, and the status of its first; the
/// items, whether the buffer is closed, and counters modulo 2^64. No section allocates.
#[derive(Drop)]
pub struct MonitorBlock {
    receive_line: ThreadQueue,
    send_line: ThreadQueue,
    first_receiver: Front,
    first_sender: Front,
    items: Ring<Msg>,
    capacity: usize,
    effects: u64,
    sends: u64,
    receives: u64,
    closed: bool,
    closes: u64,
}

impl Model for MonitorBlock {
    ghost use Rattle.std.specs.Prelude.{◌≤◌, length};
    ghost use Rattle.{event_log.specs.declared.ids.TheConstants.CAPACITY, fifo_buffer.specs.Monitors.MonitorState};

    ghost Value = { MonitorState };

    ghost view = { λ b. record {
      receive_line = b.receive_line;
      send_line = b.send_line;
      first_receiver = b.first_receiver;
      first_sender = b.first_sender;
      items = b.items;
      capacity = b.capacity;
      effects = b.effects;
      sends = b.sends;
      receives = b.receives;
      closed = b.closed;
      closes = b.closes;
    } };

    ghost invariant = { λ b. (b.capacity ≤ CAPACITY) × (length b.items ≤ b.capacity) };
}

impl MonitorBlock {
    /// Returns an empty buffer with room for `capacity` items.
    ///
    /// Requires: `capacity` is at most `CAPACITY`.
    pub fn new(capacity: usize) -> MonitorBlock
        requires { capacity ≤ CAPACITY }
        ensures { result ≡ empty_monitor capacity }
    {
        MonitorBlock {
            receive_line: ThreadQueue::new(),
            send_line: ThreadQueue::new(),
            first_receiver: Front::Asleep,
            first_sender: Front::Asleep,
            items: Ring::new(Msg::none()),
            capacity,
            effects: 0,
            sends: 0,
            receives: 0,
            closed: false,
            closes: 0,
        }
    }

    /// Returns the items, front first.
    pub fn items(&self) -> &Ring<Msg>
        ensures { result.now ≡ self.now.items }
    {
        &self.items
    }

    /// Returns whether the buffer is closed.
    pub fn is_closed(&self) -> bool
        ensures { result ≡ self.now.closed }
    {
        self.closed
    }

    /// Returns a thread that owes the first of a line a wake-up, if there is one.
    pub fn debtor(&self) -> Option<Tid>
        ensures { result ≡ debtor_of self.now }
    {
        match self.first_receiver {
            Front::Owed(t) => Some(t),
            Front::Asleep | Front::Awake => match self.first_sender {
                Front::Owed(t) => Some(t),
                Front::Asleep | Front::Awake => None,
            },
        }
    }

    /// Returns whether the buffer allows a call of this side.
    fn may_go(&self, side: Side) -> bool
        ensures { result ≡ may_go side (buffer_alone self.now) }
    {
        match side {
            Side::Receivers => self.closed || 0 < self.items.len(),
            Side::Senders => self.closed || self.items.len() < self.capacity,
        }
    }

    /// Returns whether a call of `t` on this side has its effect now.
    fn goes_now(&self, t: Tid, side: Side) -> bool
        ensures { result ≡ goes_now t side self.now }
    {
        match side {
            Side::Receivers => leads(&self.receive_line, t) && self.may_go(Side::Receivers),
            Side::Senders => leads(&self.send_line, t) && self.may_go(Side::Senders),
        }
    }

    /// Puts `t` at the end of this side's line, if it is not in it yet.
    fn wait(&mut self, t: Tid, side: Side)
        ensures { self.new ≡ waiting_at t side self.old }
    {
        match side {
            Side::Receivers => {
                self.first_receiver = if leads(&self.receive_line, t) {
                    Front::Asleep
                } else {
                    self.first_receiver
                };
                join(&mut self.receive_line, t);
            }
            Side::Senders => {
                self.first_sender = if leads(&self.send_line, t) {
                    Front::Asleep
                } else {
                    self.first_sender
                };
                join(&mut self.send_line, t);
            }
        }
    }

    /// Records that `t` owes the first of each side a wake-up, if it sleeps and its call is
    /// allowed.
    fn owe(&mut self, t: Tid)
        ensures { self.new ≡ owing t self.old }
    {
        let receiver_goes = self.receive_line.front().is_some() && self.may_go(Side::Receivers);
        let sender_goes = self.send_line.front().is_some() && self.may_go(Side::Senders);
        self.first_receiver = owe_first(self.first_receiver, t, receiver_goes);
        self.first_sender = owe_first(self.first_sender, t, sender_goes);
    }

    /// Returns the side whose first `t` owes a wake-up: this one, or else the other one.
    fn owed_next(&self, t: Tid, side: Side) -> Option<Side>
        ensures { result ≡ owed_next t side self.now }
    {
        let owes_receiver = is_owed_by(&self.first_receiver, t);
        let owes_sender = is_owed_by(&self.first_sender, t);
        match side {
            Side::Receivers => {
                if owes_receiver {
                    Some(Side::Receivers)
                } else if owes_sender {
                    Some(Side::Senders)
                } else {
                    None
                }
            }
            Side::Senders => {
                if owes_sender {
                    Some(Side::Senders)
                } else if owes_receiver {
                    Some(Side::Receivers)
                } else {
                    None
                }
            }
        }
    }

    /// Sends `message` for `t`, if its call has its effect now. A closed buffer takes no message,
    /// and the effect says so. Otherwise `t` waits.
    fn send(&mut self, t: Tid, message: &Msg) -> MonitorReply
        ensures block { self.new ≡ monitor_edited_by t (Send message.now) self.old }
        ensures reported { result ≡ monitor_told_by t (Send message.now) self.old }
    {
        if !self.goes_now(t, Side::Senders) {
            self.wait(t, Side::Senders);
            return MonitorReply::Refused(Side::Senders);
        }
        let effect = Effect {
            kind: if self.closed {
                Kind::SendClosed
            } else {
                Kind::Send
            },
            value: *message,
            op: self.effects,
            pos: self.sends,
        };
        let _ = self.send_line.pop();
        self.first_sender = Front::Asleep;
        if !self.closed {
            self.items.put(*message);
        }
        self.effects = effect.op.wrapping_add(1);
        self.sends = effect.pos.wrapping_add(1);
        self.owe(t);
        MonitorReply::Acted(effect, self.owed_next(t, Side::Receivers))
    }

    /// Takes the first item for the first receiver, and leaves its line. If there is no item, the
    /// effect says that the buffer is closed.
    fn take_first(&mut self) -> Effect
        ensures block { self.new ≡ received self.old }
        ensures effect { result ≡ receive_effect self.old }
    {
        let item = self.items.take();
        let effect = Effect {
            kind: if item.is_some() {
                Kind::Recv
            } else {
                Kind::RecvClosed
            },
            value: item.unwrap_or(Msg::none()),
            op: self.effects,
            pos: self.receives,
        };
        let _ = self.receive_line.pop();
        self.first_receiver = Front::Asleep;
        self.effects = effect.op.wrapping_add(1);
        self.receives = effect.pos.wrapping_add(1);
        effect
    }

    /// Receives the first item for `t`, if its call has its effect now. If the buffer is closed and
    /// empty, the effect says so. Otherwise `t` waits.
    fn receive(&mut self, t: Tid) -> MonitorReply
        ensures block { self.new ≡ monitor_edited_by t Receive self.old }
        ensures reported { result ≡ monitor_told_by t Receive self.old }
    {
        if !self.goes_now(t, Side::Receivers) {
            self.wait(t, Side::Receivers);
            return MonitorReply::Refused(Side::Receivers);
        }
        let effect = self.take_first();
        self.owe(t);
        MonitorReply::Acted(effect, self.owed_next(t, Side::Senders))
    }

    /// Closes the buffer for `t`.
    fn close(&mut self, t: Tid) -> MonitorReply
        ensures block { self.new ≡ monitor_edited_by t Close self.old }
        ensures reported { result ≡ monitor_told_by t Close self.old }
    {
        let effect = Effect {
            kind: Kind::Close,
            value: Msg::none(),
            op: self.effects,
            pos: self.closes,
        };
        self.closed = true;
        self.effects = effect.op.wrapping_add(1);
        self.closes = effect.pos.wrapping_add(1);
        self.owe(t);
        MonitorReply::Acted(effect, self.owed_next(t, Side::Receivers))
    }

    /// Wakes the first of this side, if some thread owes it that.
    fn wake(&mut self, t: Tid, side: Side) -> MonitorReply
        ensures block { self.new ≡ monitor_edited_by t (WakeFirst side) self.old }
        ensures reported { result ≡ monitor_told_by t (WakeFirst side) self.old }
    {
        match side {
            Side::Receivers => {
                let woke = if is_owed(&self.first_receiver) {
                    self.receive_line.front()
                } else {
                    None
                };
                self.first_receiver = wake_first(self.first_receiver);
                MonitorReply::Woke(
                    leaving(Side::Receivers, woke),
                    self.owed_next(t, Side::Senders),
                )
            }
            Side::Senders => {
                let woke = if is_owed(&self.first_sender) {
                    self.send_line.front()
                } else {
                    None
                };
                self.first_sender = wake_first(self.first_sender);
                MonitorReply::Woke(
                    leaving(Side::Senders, woke),
                    self.owed_next(t, Side::Receivers),
                )
            }
        }
    }
}

/// Returns whether no thread in `line` is before `t`.
fn leads(line: &ThreadQueue, t: Tid) -> bool
    ensures { result ≡ is_at_head t line.now }
{
    match line.front() {
        None => true,
        Some(first) => t.0 == first.0,
    }
}

/// Appends `t` to `line`, if it is one of the threads that a machine may have and not in the line.
fn join(line: &mut ThreadQueue, t: Tid)
    ensures { line.new ≡ joined t line.old }
{
    if usize::from(t.0) < THREADS && !line.contains(t) {
        line.push(t);
    }
}

/// Returns the status of the first of a line after an effect of `t`. If `goes`, there is one and
/// its call is allowed.
fn owe_first(front: Front, t: Tid, goes: bool) -> Front
    ensures { result ≡ owed_by t goes front }
{
    match front {
        Front::Asleep => { if goes { Front::Owed(t) } else { Front::Asleep } }
        Front::Owed(u) => Front::Owed(u),
        Front::Awake => Front::Awake,
    }
}

/// Returns whether `t` owes this first of a line a wake-up.
fn is_owed_by(front: &Front, t: Tid) -> bool
    ensures { result ≡ is_owed_by t front.now }
{
    match *front {
        Front::Owed(u) => t.0 == u.0,
        Front::Asleep | Front::Awake => false,
    }
}

/// Returns whether some thread owes this first of a line a wake-up.
fn is_owed(front: &Front) -> bool
    ensures { result ≡ is_owed front.now }
{
    match *front {
        Front::Owed(_) => true,
        Front::Asleep | Front::Awake => false,
    }
}

/// Returns the status of the first of a line after it was woken, if it was owed that.
fn wake_first(front: Front) -> Front
    ensures { result ≡ front_woken front }
{
    match front {
        Front::Owed(_) | Front::Awake => Front::Awake,
        Front::Asleep => Front::Asleep,
    }
}

/// Returns the thread that leaves a waiting list, if this one of a side is woken.
fn leaving(side: Side, woke: Option<Tid>) -> Wake
    ensures { result ≡ leaving_of side woke }
{
    match woke {
        None => Wake::Nobody,
        Some(t) => match side {
            Side::Receivers => Wake::Receiver(t),
            Side::Senders => Wake::Sender(t),
        },
    }
}

impl Sleeps for MonitorEdit {
    ghost use Rattle.fifo_buffer.specs.Monitors.{monitor_rules};

    type Block = MonitorBlock;

    type Out = MonitorReply;

    type Request = MonitorEdit;

    type Response = MonitorReply;

    ghost protocol = { monitor_rules };

    ghost abstract_call = { λ edit message_slot. edit };

    ghost abstract_answer = { λ out message_slot. out };

    fn caller(edit: &MonitorEdit) -> Tid {
        edit.thread
    }

    // An edit contains its message.
    fn whole(edit: &MonitorEdit, _message_slot: &MessageSlot) -> MonitorEdit {
        *edit
    }

    fn apply_request(
        edit: &MonitorEdit,
        _first: Option<Tid>,
        block: &mut MonitorBlock,
        _message_slot: &mut MessageSlot,
    ) -> MonitorReply {
        match &edit.ask {
            MonitorAsk::Send(message) => block.send(edit.thread, message),
            MonitorAsk::Receive => block.receive(edit.thread),
            MonitorAsk::Close => block.close(edit.thread),
            MonitorAsk::WakeFirst(side) => block.wake(edit.thread, *side),
        }
    }

    fn joins(out: &MonitorReply) -> Option<WaitList> {
        match *out {
            MonitorReply::Refused(Side::Senders) => Some(WaitList::Senders),
            MonitorReply::Refused(Side::Receivers) => Some(WaitList::Receivers),
            MonitorReply::Acted(_, _) | MonitorReply::Woke(_, _) => None,
        }
    }

    fn leaves(out: &MonitorReply) -> Wake {
        match *out {
            MonitorReply::Woke(woke, _) => woke,
            MonitorReply::Acted(_, _) | MonitorReply::Refused(_) => Wake::Nobody,
        }
    }
}
