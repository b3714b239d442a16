//! A message call as one section: the attempts on one buffer. No function allocates or blocks.

ghost use Rattle.std.specs.Prelude.{◌≡◌, ◌≤◌, true, [], is_some};
ghost use Rattle.{event_log.specs.declared.ids.TheConstants.CAPACITY, layer_traits.specs.{Layers.Sleeping.joined, declared.sleeps.Wake.TheVariants.Nobody}};
ghost use Rattle.plain_layers.specs.Attempts.{PlainState, allows, closed_after, done, attempt_effect, effect_in, plain_empty_buffer, leaving_side};
ghost use Rattle.plain_layers.specs.{Attempts.{attempt_side, waiting_on, with_waiter, waking_by, attempt_wakes, attempt_woken}, declared.attempts.Ask.Ask};
ghost use Rattle.{plain_layers.specs.declared.attempts.{Ask.TheVariants.{Close, Receive, Send}, Tried.TheVariants.Acted}, thread_blocks.specs.Queues.first};

use event_log::{CAPACITY, Kind, Msg, Ring, THREADS, Tid};
use layer_traits::{Effect, MessageSlot, Side, Sleeps, WaitList, Wake};
use std::marker::Model;
use thread_blocks::ThreadQueue;

/// What a thread asks of a buffer.
#[derive(Clone, Copy)]
pub enum Ask {
    /// To send this message.
    Send(Msg),
    /// To receive a message.
    Receive,
    /// To close the buffer.
    Close,
}

/// A thread's attempt to do what it asks.
#[derive(Clone, Copy)]
pub struct Attempt {
    /// The thread that calls.
    pub thread: Tid,
    /// What it asks.
    pub ask: Ask,
}

/// The result of an attempt.
#[derive(Clone, Copy)]
pub enum Tried {
    /// The buffer allowed it this effect, which woke this thread.
    Acted(Effect, Wake),
    /// The buffer allowed it no effect; its caller waits on this side.
    Refused(Side),
}

impl Tried {
    /// Returns the effect of the attempt, if it had one.
    pub fn effect(&self) -> Option<Effect>
        ensures { result ≡ effect_in self.now }
    {
        match *self {
            Tried::Acted(effect, _) => Some(effect),
            Tried::Refused(_) => None,
        }
    }
}

/// A buffer with its items, whether it is closed, its counters modulo 2^64, and the threads that
/// wait at it, head first. No attempt allocates.
#[derive(Drop)]
pub struct PlainBuffer {
    items: Ring<Msg>,
    capacity: usize,
    closed: bool,
    effects: u64,
    sends: u64,
    receives: u64,
    closes: u64,
    receivers: ThreadQueue,
    senders: ThreadQueue,
}

impl Model for PlainBuffer {
    ghost use Rattle.std.specs.Prelude.{◌≤◌, length};
    ghost use Rattle.{event_log.specs.declared.ids.TheConstants.CAPACITY, plain_layers.specs.Attempts.PlainState};

    ghost Value = { PlainState };

    ghost view = { λ b. record {
      items = b.items;
      capacity = b.capacity;
      closed = b.closed;
      effects = b.effects;
      sends = b.sends;
      receives = b.receives;
      closes = b.closes;
      receivers = b.receivers;
      senders = b.senders;
    } };

    ghost invariant = { λ b. (b.capacity ≤ CAPACITY) × (length b.items ≤ b.capacity) };
}

impl PlainBuffer {
    /// Returns an empty buffer with room for `capacity` items.
    ///
    /// Requires: `capacity` is at most `CAPACITY`.
    pub fn new(capacity: usize) -> PlainBuffer
        requires { capacity ≤ CAPACITY }
        ensures { result ≡ plain_empty_buffer capacity }
    {
        PlainBuffer {
            items: Ring::new(Msg::none()),
            capacity,
            closed: false,
            effects: 0,
            sends: 0,
            receives: 0,
            closes: 0,
            receivers: ThreadQueue::new(),
            senders: ThreadQueue::new(),
        }
    }

    /// Returns the items, head first.
    pub fn items(&self) -> &Ring<Msg>
        ensures { result.now ≡ self.now.items }
    {
        &self.items
    }

    /// Returns whether it is closed.
    pub fn is_closed(&self) -> bool
        ensures { result ≡ self.now.closed }
    {
        self.closed
    }

    /// Returns whether a call may take effect: a send if there is room, a receive if there is an
    /// item, both if the buffer is closed. A close always may.
    fn allows(&self, ask: &Ask) -> bool
        ensures { result ≡ allows ask.now self.now }
    {
        match *ask {
            Ask::Send(_) => self.closed || self.items.len() < self.capacity,
            Ask::Receive => self.closed || 0 < self.items.len(),
            Ask::Close => true,
        }
    }

    /// Returns whether a thread waits on this side.
    fn has_waiting(&self, side: Side) -> bool
        ensures { result ≡ is_some (first (waiting_on side self.now)) }
    {
        match side {
            Side::Receivers => self.receivers.front().is_some(),
            Side::Senders => self.senders.front().is_some(),
        }
    }

    /// Wakes the first thread of this side, if one waits there.
    fn wake(&mut self, side: Side) -> Wake
        ensures block { self.new ≡ attempt_woken side self.old }
        ensures reported { result ≡ leaving_side side (first (waiting_on side self.old)) }
    {
        match side {
            Side::Receivers => match self.receivers.pop() {
                None => Wake::Nobody,
                Some(t) => Wake::Receiver(t),
            },
            Side::Senders => match self.senders.pop() {
                None => Wake::Nobody,
                Some(t) => Wake::Sender(t),
            },
        }
    }

    /// Wakes the thread that an effect of this side wakes: the first of the other side. If the
    /// buffer is closed and a thread waits on this side, it is the first of this side.
    fn wake_after(&mut self, local: Side) -> Wake
        ensures block { self.new
            ≡ attempt_woken (waking_by self.old.closed local self.old) self.old }
        ensures reported { result
            ≡ leaving_side (waking_by self.old.closed local self.old)
            (first (waiting_on (waking_by self.old.closed local self.old) self.old)) }
    {
        if self.closed && self.has_waiting(local) {
            return self.wake(local);
        }
        match local {
            Side::Receivers => self.wake(Side::Senders),
            Side::Senders => self.wake(Side::Receivers),
        }
    }

    /// Puts `message` if there is room and the buffer is open. In a closed buffer it puts nothing.
    fn send(&mut self, message: &Msg) -> Tried
        requires { allows (Send message.now) self.old ≡ true }
        ensures block { self.new ≡ done (Send message.now) self.old }
        ensures reported { result
            ≡ Acted (attempt_effect (Send message.now) self.old)
            (attempt_wakes (Send message.now) self.old) }
    {
        let effect = Effect {
            kind: if self.closed {
                Kind::SendClosed
            } else {
                Kind::Send
            },
            value: *message,
            op: self.effects,
            pos: self.sends,
        };
        if !self.closed {
            self.items.put(*message);
        }
        self.effects = effect.op.wrapping_add(1);
        self.sends = effect.pos.wrapping_add(1);
        Tried::Acted(effect, self.wake_after(Side::Senders))
    }

    /// Takes the first item if there is one. In a closed buffer without items it takes nothing.
    fn receive(&mut self) -> Tried
        requires { allows Receive self.old ≡ true }
        ensures block { self.new ≡ done Receive self.old }
        ensures reported { result
            ≡ Acted (attempt_effect Receive self.old) (attempt_wakes Receive self.old) }
    {
        let item = self.items.take();
        let effect = Effect {
            kind: if item.is_some() {
                Kind::Recv
            } else {
                Kind::RecvClosed
            },
            value: item.unwrap_or(Msg::none()),
            op: self.effects,
            pos: self.receives,
        };
        self.effects = effect.op.wrapping_add(1);
        self.receives = effect.pos.wrapping_add(1);
        Tried::Acted(effect, self.wake_after(Side::Receivers))
    }

    /// Closes the buffer.
    fn close(&mut self) -> Tried
        ensures block { self.new ≡ done Close self.old }
        ensures reported { result
            ≡ Acted (attempt_effect Close self.old) (attempt_wakes Close self.old) }
    {
        let effect = Effect {
            kind: Kind::Close,
            value: Msg::none(),
            op: self.effects,
            pos: self.closes,
        };
        self.closed = true;
        self.effects = effect.op.wrapping_add(1);
        self.closes = effect.pos.wrapping_add(1);
        Tried::Acted(effect, self.wake_after(Side::Receivers))
    }

    /// Lets `t` wait on this side.
    fn wait(&mut self, t: Tid, side: Side)
        ensures { self.new ≡ with_waiter t side self.old }
    {
        match side {
            Side::Senders => join(&mut self.senders, t),
            Side::Receivers => join(&mut self.receivers, t),
        }
    }
}

/// Law: a closed buffer strands no waiter. It allows every call, so that no thread begins to wait
/// there. An effect wakes a thread as long as one waits, so that each woken thread wakes the next
/// by its effect.
pub fn closed_buffers_let_all_go()
    ensures goes { (ask : Ask) (x : PlainState) → x.closed ≡ true → allows ask x ≡ true }
    ensures wakes { (ask : Ask) (x : PlainState) → closed_after ask x ≡ true
        → attempt_wakes ask x ≡ Nobody → (x.receivers ≡ []) × (x.senders ≡ []) }
{}

/// Returns the side of a call.
fn attempt_side(ask: &Ask) -> Side
    ensures { result ≡ attempt_side ask.now }
{
    match *ask {
        Ask::Send(_) => Side::Senders,
        Ask::Receive | Ask::Close => Side::Receivers,
    }
}

/// Appends `t` to `queue`, if it is one of the threads that a machine may have and not in the
/// queue.
fn join(queue: &mut ThreadQueue, t: Tid)
    ensures { queue.new ≡ joined t queue.old }
{
    if usize::from(t.0) < THREADS && !queue.contains(t) {
        queue.push(t);
    }
}

impl Sleeps for Attempt {
    ghost use Rattle.plain_layers.specs.Attempts.{attempts};

    type Block = PlainBuffer;

    type Out = Tried;

    type Request = Attempt;

    type Response = Tried;

    ghost protocol = { attempts };

    ghost abstract_call = { λ attempt message_slot. attempt };

    ghost abstract_answer = { λ tried message_slot. tried };

    fn caller(attempt: &Attempt) -> Tid {
        attempt.thread
    }

    // An attempt contains its message.
    fn whole(attempt: &Attempt, _message_slot: &MessageSlot) -> Attempt {
        *attempt
    }

    fn apply_request(
        attempt: &Attempt,
        _first: Option<Tid>,
        block: &mut PlainBuffer,
        _message_slot: &mut MessageSlot,
    ) -> Tried {
        if !block.allows(&attempt.ask) {
            let side = attempt_side(&attempt.ask);
            block.wait(attempt.thread, side);
            return Tried::Refused(side);
        }
        match &attempt.ask {
            Ask::Send(message) => block.send(message),
            Ask::Receive => block.receive(),
            Ask::Close => block.close(),
        }
    }

    fn joins(tried: &Tried) -> Option<WaitList> {
        match *tried {
            Tried::Acted(_, _) => None,
            Tried::Refused(Side::Senders) => Some(WaitList::Senders),
            Tried::Refused(Side::Receivers) => Some(WaitList::Receivers),
        }
    }

    fn leaves(tried: &Tried) -> Wake {
        match *tried {
            Tried::Acted(_, woke) => woke,
            Tried::Refused(_) => Wake::Nobody,
        }
    }
}
