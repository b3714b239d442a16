//! A buffer's block: its two queues of threads, its items, whether it is closed, and its counters.
//!
//! No call is given an allocator, and none waits.

ghost use Rattle.std.specs.Prelude.{◌≡◌, ◌≤◌, ◌++◌, ◌∷◌, [], if◌then◌else◌};
ghost use Rattle.{event_log.specs.declared.ids.TheConstants.CAPACITY, layer_traits.specs.declared.buffer_edits.BufferEdit.TheVariants.{Enter, TryPut, TryTake}};
ghost use Rattle.layer_traits.specs.declared.{buffer_edits.BufferEdit.TheVariants.Shut, locked.Side.TheVariants.{Receivers, Senders}};
ghost use Rattle.layer_traits.specs.Blocks.{Payloads.abstract_buffer_answer, BufferBlocks.{buffer_answer, buffer_edited, empty_block, front_ready, is_first}};
ghost use Rattle.layer_traits.specs.Blocks.BufferBlocks.{may_go, may_join};

use crate::buffer_edits::{BareBufferEdit, BareBufferReply, BufferEdit, BufferReply};
use crate::conditions::{Guarded, WholeGuarded};
use crate::locked::Side;
use crate::payloads::MessageSlot;
use event_log::{CAPACITY, Kind, Msg, Ring, THREADS, Tid};
use std::marker::Model;
use thread_blocks::ThreadQueue;

/// What the lock of a buffer guards: the queues of receiving and of sending threads, the items, and
/// whether the buffer is closed. It also counts the effects, the entries of each queue and the
/// closes, modulo 2^64. No edit of it allocates memory.
#[derive(Drop)]
pub struct BufferBlock {
    receive_line: ThreadQueue,
    send_line: ThreadQueue,
    items: Ring<Msg>,
    capacity: usize,
    effects: u64,
    sends: u64,
    receives: u64,
    closed: bool,
    closes: u64,
}

impl Model for BufferBlock {
    ghost use Rattle.std.specs.Prelude.{◌≤◌, length};
    ghost use Rattle.{event_log.specs.declared.ids.TheConstants.CAPACITY, layer_traits.specs.Blocks.BufferBlocks.BufferState};

    ghost Value = { BufferState };

    ghost view = { λ b. record {
      receive_line = b.receive_line;
      send_line = b.send_line;
      items = b.items;
      capacity = b.capacity;
      effects = b.effects;
      sends = b.sends;
      receives = b.receives;
      closed = b.closed;
      closes = b.closes;
    } };

    ghost invariant = { λ b. (b.capacity ≤ CAPACITY) × (length b.items ≤ b.capacity) };
}

impl BufferBlock {
    /// Returns an empty buffer with room for `capacity` items.
    ///
    /// Requires: `capacity` is at most `CAPACITY`.
    pub fn new(capacity: usize) -> BufferBlock
        requires { capacity ≤ CAPACITY }
        ensures { result ≡ empty_block capacity }
    {
        BufferBlock {
            receive_line: ThreadQueue::new(),
            send_line: ThreadQueue::new(),
            items: Ring::new(Msg::none()),
            capacity,
            effects: 0,
            sends: 0,
            receives: 0,
            closed: false,
            closes: 0,
        }
    }

    /// Returns the items, front first.
    pub fn items(&self) -> &Ring<Msg>
        ensures { result.now ≡ self.now.items }
    {
        &self.items
    }

    /// Returns whether the buffer is closed.
    pub fn is_closed(&self) -> bool
        ensures { result ≡ self.now.closed }
    {
        self.closed
    }

    /// Returns whether there is room for one more item, or the buffer is closed.
    fn may_put(&self) -> bool
        ensures { result ≡ may_go Senders self.now }
    {
        self.closed || self.items.len() < self.capacity
    }

    /// Returns whether there is an item, or the buffer is closed.
    fn may_take(&self) -> bool
        ensures { result ≡ may_go Receivers self.now }
    {
        self.closed || 0 < self.items.len()
    }

    /// Puts `t` into the queue of this side, and stores its position in `message_slot`.
    fn enter(&mut self, t: Tid, side: Side, message_slot: &mut MessageSlot) -> BareBufferReply
        ensures block { self.new ≡ buffer_edited (Enter t side) self.old }
        ensures answer { abstract_buffer_answer result message_slot.new
            ≡ buffer_answer (Enter t side) self.old }
    {
        match side {
            Side::Receivers => {
                let position = self.receives;
                if join(&mut self.receive_line, t) {
                    self.receives = position.wrapping_add(1);
                }
                message_slot.first = position;
                BareBufferReply::Entered
            }
            Side::Senders => {
                let position = self.sends;
                if join(&mut self.send_line, t) {
                    self.sends = position.wrapping_add(1);
                }
                message_slot.first = position;
                BareBufferReply::Entered
            }
        }
    }

    /// Puts the message of `message_slot` for `t`, if `t` is the first sender and there is room. A
    /// closed buffer takes no message, and the result says so.
    fn put(&mut self, t: Tid, message_slot: &mut MessageSlot) -> BareBufferReply
        ensures block { self.new ≡ buffer_edited (TryPut t message_slot.old.message) self.old }
        ensures answer { abstract_buffer_answer result message_slot.new
            ≡ buffer_answer (TryPut t message_slot.old.message) self.old }
    {
        if !leads(&self.send_line, t) {
            return BareBufferReply::NotYet;
        }
        if !self.may_put() {
            return BareBufferReply::NotYet;
        }
        let op = self.effects;
        let _ = self.send_line.pop();
        self.effects = op.wrapping_add(1);
        message_slot.first = op;
        if self.closed {
            return BareBufferReply::Done(Kind::SendClosed);
        }
        self.items.put(message_slot.message);
        BareBufferReply::Done(Kind::Send)
    }

    /// Takes the first item for `t` into `message_slot`, if `t` is the first receiver and there is
    /// an item. If the buffer is closed and empty, the result says so.
    fn take(&mut self, t: Tid, message_slot: &mut MessageSlot) -> BareBufferReply
        ensures block { self.new ≡ buffer_edited (TryTake t) self.old }
        ensures answer { abstract_buffer_answer result message_slot.new
            ≡ buffer_answer (TryTake t) self.old }
    {
        if !leads(&self.receive_line, t) {
            return BareBufferReply::NotYet;
        }
        if !self.may_take() {
            return BareBufferReply::NotYet;
        }
        let op = self.effects;
        let _ = self.receive_line.pop();
        self.effects = op.wrapping_add(1);
        message_slot.first = op;
        match self.items.take() {
            None => {
                message_slot.message = Msg::none();
                BareBufferReply::Done(Kind::RecvClosed)
            }
            Some(item) => {
                message_slot.message = item;
                BareBufferReply::Done(Kind::Recv)
            }
        }
    }

    /// Closes the buffer, which may be closed already, and stores in `message_slot` how many
    /// effects and how many closes it had before.
    fn shut(&mut self, t: Tid, message_slot: &mut MessageSlot) -> BareBufferReply
        ensures block { self.new ≡ buffer_edited (Shut t) self.old }
        ensures answer { abstract_buffer_answer result message_slot.new
            ≡ buffer_answer (Shut t) self.old }
    {
        let op = self.effects;
        let position = self.closes;
        self.closed = true;
        self.effects = op.wrapping_add(1);
        self.closes = position.wrapping_add(1);
        message_slot.first = op;
        message_slot.second = position;
        BareBufferReply::WasShut
    }

    /// Returns the thread at the head of this side's queue, if it may proceed.
    fn ready(&self, side: Side) -> Option<Tid>
        ensures { result ≡ front_ready side self.now }
    {
        match side {
            Side::Receivers => {
                if self.may_take() {
                    self.receive_line.front()
                } else {
                    None
                }
            }
            Side::Senders => {
                if self.may_put() {
                    self.send_line.front()
                } else {
                    None
                }
            }
        }
    }
}

/// Appends `t` to `line`, if it may join it, and returns whether it did.
fn join(line: &mut ThreadQueue, t: Tid) -> bool
    ensures joins { result ≡ may_join t line.old }
    ensures line { line.new ≡ (if result then line.old ++ t ∷ [] else line.old) }
{
    if usize::from(t.0) >= THREADS {
        return false;
    }
    if line.contains(t) {
        return false;
    }
    line.push(t);
    true
}

/// Returns whether `t` is the first in `line`.
fn leads(line: &ThreadQueue, t: Tid) -> bool
    ensures { result ≡ is_first t line.now }
{
    match line.front() {
        None => false,
        Some(first) => t.0 == first.0,
    }
}

impl Guarded for BufferEdit {
    ghost use Rattle.layer_traits.specs.Blocks.{BufferProtocol.buffer_monitor_rules, Payloads.{abstract_buffer_edit, abstract_buffer_answer}};

    type Block = BufferBlock;

    type Out = BufferReply;

    type Request = BareBufferEdit;

    type Response = BareBufferReply;

    ghost monitor_rules = { buffer_monitor_rules };

    ghost abstract_call = { abstract_buffer_edit };

    ghost abstract_answer = { abstract_buffer_answer };

    fn caller(handed: &BareBufferEdit) -> Tid {
        match handed {
            BareBufferEdit::Enter(t, _)
            | BareBufferEdit::TryPut(t)
            | BareBufferEdit::TryTake(t)
            | BareBufferEdit::Shut(t) => *t,
        }
    }

    fn whole(handed: &BareBufferEdit, message_slot: &MessageSlot) -> BufferEdit {
        match handed {
            BareBufferEdit::Enter(t, side) => BufferEdit::Enter(*t, *side),
            BareBufferEdit::TryPut(t) => BufferEdit::TryPut(*t, message_slot.message),
            BareBufferEdit::TryTake(t) => BufferEdit::TryTake(*t),
            BareBufferEdit::Shut(t) => BufferEdit::Shut(*t),
        }
    }

    #[inline(always)]
    fn apply_request(
        handed: &BareBufferEdit,
        block: &mut BufferBlock,
        message_slot: &mut MessageSlot,
    ) -> BareBufferReply {
        match handed {
            BareBufferEdit::Enter(t, side) => block.enter(*t, *side, message_slot),
            BareBufferEdit::TryPut(t) => block.put(*t, message_slot),
            BareBufferEdit::TryTake(t) => block.take(*t, message_slot),
            BareBufferEdit::Shut(t) => block.shut(*t, message_slot),
        }
    }

    fn ready(side: Side, block: &BufferBlock) -> Option<Tid> {
        block.ready(side)
    }
}

impl WholeGuarded for BufferEdit {
    fn hand_on(self, message_slot: &mut MessageSlot) -> BareBufferEdit {
        match self {
            BufferEdit::Enter(t, side) => BareBufferEdit::Enter(t, side),
            BufferEdit::TryPut(t, put) => {
                message_slot.message = put;
                BareBufferEdit::TryPut(t)
            }
            BufferEdit::TryTake(t) => BareBufferEdit::TryTake(t),
            BufferEdit::Shut(t) => BareBufferEdit::Shut(t),
        }
    }

    fn bring_back(response: BareBufferReply, message_slot: &MessageSlot) -> BufferReply {
        match response {
            BareBufferReply::Entered => BufferReply::Entered(message_slot.first),
            BareBufferReply::NotYet => BufferReply::NotYet,
            BareBufferReply::Done(kind) => BufferReply::Done(
                kind,
                message_slot.first,
                message_slot.message,
            ),
            BareBufferReply::WasShut => BufferReply::WasShut(
                message_slot.first,
                message_slot.second,
            ),
        }
    }
}
