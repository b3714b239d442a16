//! A queue of threads. No call allocates memory or waits.

ghost use Rattle.std.specs.Prelude.{◌≡◌, ◌+◌, ◌*◌, ◌<◌, ◌≤◌, ◌++◌, ◌∷◌, [], List, false, length, MatchOption};
ghost use Rattle.{event_log.specs.declared.ids.TheConstants.THREADS, thread_blocks.specs.{Queues.{is_in, first, rest, without, AreApart}, Links.Hold}};

use crate::lists::ThreadList;
use crate::nodes::{Node, Nodes};
use event_log::{THREADS, Ticks, Tid};
use std::marker::{Brand, Model};
use std::sync::ledger::{Blank, Ledger};

/// A FIFO queue of threads. No thread is in it twice, so that it has room for all [`THREADS`]
/// threads, and no call allocates memory.
///
/// It is a doubly linked list in one table, indexed by thread number. For each thread the table has
/// the next one, the previous one, and whether it is in the queue. Each call therefore touches few
/// cells, wherever its thread is: at most 8, and 16 for each thread that
/// [`drain_into`](ThreadQueue::drain_into) moves. A [`take`](ThreadQueue::take) pops one thread
/// after another.
#[derive(Drop)]
pub struct ThreadQueue {
    nodes: Nodes,
}

impl Model for ThreadQueue {
    ghost use Rattle.{std.specs.Prelude.List, event_log.specs.declared.ids.Tid.Tid, thread_blocks.specs.Links.{threads_of, Hold}};

    ghost Value = { List Tid };

    ghost view = { λ q. threads_of q.nodes };

    ghost invariant = { λ q. Hold q.nodes (threads_of q.nodes) };
}

impl ThreadQueue {
    /// Returns an empty queue.
    pub fn new() -> ThreadQueue
        ensures { result ≡ [] }
    {
        ThreadQueue {
            nodes: Nodes::empty(),
        }
    }

    /// Returns how many threads are in the queue.
    pub fn len(&self) -> usize
        ensures { result ≡ length self.now }
    {
        self.nodes.count
    }

    /// Returns the thread at the head, which stays there; `None` if the queue is empty.
    pub fn front(&self) -> Option<Tid>
        ensures { result ≡ first self.now }
    {
        self.nodes.end.next
    }
    /// Returns whether `t` is in the queue. At most 8 ticks.
    pub fn contains_in<L: Ledger>(&self, t: Tid, ticks: &mut Ticks<L>) -> bool
        ensures found { result ≡ is_in t self.now }
        ensures ticks { ticks.new ≤ ticks.old + 8 }
    {
        is_member(&self.nodes, t, ticks)
    }

    /// Enqueues `t` at the back. At most 8 ticks.
    ///
    /// Requires: the number of `t` is less than [`THREADS`]. `t` is not in the queue yet.
    pub fn push_in<L: Ledger>(&mut self, t: Tid, ticks: &mut Ticks<L>)
        requires known { t.0 < THREADS }
        requires new { is_in t self.old ≡ false }
        ensures pushed { self.new ≡ self.old ++ t ∷ [] }
        ensures ticks { ticks.new ≤ ticks.old + 8 }
    {
        link_behind(&mut self.nodes, t, ticks);
    }

    /// Dequeues the thread at the head; `None` if the queue is empty. At most 8 ticks, and none if
    /// it is empty.
    pub fn pop_in<L: Ledger>(&mut self, ticks: &mut Ticks<L>) -> Option<Tid>
        ensures value { result ≡ first self.old }
        ensures rest { self.new ≡ rest self.old }
        ensures apart { MatchOption result (self.old ≡ [])
            (λ t. (t.0 < THREADS) × (is_in t self.new ≡ false) × (self.old ≡ t ∷ self.new)) }
        ensures ticks { MatchOption result (ticks.new ≡ ticks.old)
            (λ _. ticks.new ≤ ticks.old + 8) }
    {
        let first = self.nodes.end.next;
        let Some(t) = first else {
            return None;
        };
        unlink(&mut self.nodes, t, ticks);
        Some(t)
    }

    /// Removes `t`, wherever it is, and returns whether it was in the queue. At most 8 ticks.
    pub fn remove_in<L: Ledger>(&mut self, t: Tid, ticks: &mut Ticks<L>) -> bool
        ensures found { result ≡ is_in t self.old }
        ensures rest { self.new ≡ without t self.old }
        ensures ticks { ticks.new ≤ ticks.old + 8 }
    {
        if !is_member(&self.nodes, t, ticks) {
            return false;
        }
        unlink(&mut self.nodes, t, ticks);
        true
    }
    /// Moves all threads to the back of `to`, and keeps their order. At most 16 ticks for each
    /// thread that is moved.
    ///
    /// Requires: no thread is in both.
    pub fn drain_in<L: Ledger>(&mut self, to: &mut ThreadQueue, ticks: &mut Ticks<L>)
        requires { AreApart self.old to.old }
        ensures to { to.new ≡ to.old ++ self.old }
        ensures empty { self.new ≡ [] }
        ensures ticks { ticks.new ≤ ticks.old + 16 * length self.old }
    {
        while let Some(t) = self.pop_in(ticks) {
            to.push_in(t, ticks);
        }
    }

    /// Returns whether `t` is in the queue.
    pub fn contains(&self, t: Tid) -> bool
        ensures { result ≡ is_in t self.now }
    {
        contains_from::<Brand>(self, t, Blank::new(1))
    }

    /// Enqueues `t` at the back.
    ///
    /// Requires: the number of `t` is less than [`THREADS`]. `t` is not in the queue yet.
    pub fn push(&mut self, t: Tid)
        requires known { t.0 < THREADS }
        requires new { is_in t self.old ≡ false }
        ensures { self.new ≡ self.old ++ t ∷ [] }
    {
        push_from::<Brand>(self, t, Blank::new(1));
    }

    /// Dequeues the thread at the head; `None` if the queue is empty.
    pub fn pop(&mut self) -> Option<Tid>
        ensures value { result ≡ first self.old }
        ensures rest { self.new ≡ rest self.old }
        ensures apart { MatchOption result (self.old ≡ [])
            (λ t. (t.0 < THREADS) × (is_in t self.new ≡ false) × (self.old ≡ t ∷ self.new)) }
    {
        pop_from::<Brand>(self, Blank::new(1))
    }

    /// Removes `t`, wherever it is, and returns whether it was in the queue.
    pub fn remove(&mut self, t: Tid) -> bool
        ensures found { result ≡ is_in t self.old }
        ensures rest { self.new ≡ without t self.old }
    {
        remove_from::<Brand>(self, t, Blank::new(1))
    }

    /// Takes all threads, and leaves the queue empty.
    pub fn take(&mut self) -> ThreadList
        ensures all { result ≡ self.old }
        ensures empty { self.new ≡ [] }
    {
        let mut taken = ThreadList::new();
        self.take_into(&mut taken);
        taken
    }

    /// Moves all threads into `to`, in place of those that were there, and leaves the queue empty.
    /// Only the threads that are taken are copied.
    #[inline(always)]
    pub fn take_into(&mut self, to: &mut ThreadList)
        ensures all { to.new ≡ self.old }
        ensures empty { self.new ≡ [] }
    {
        to.clear();
        while let Some(t) = self.pop() {
            to.push(t);
        }
    }

    /// Moves all threads to the back of `to`, and keeps their order.
    ///
    /// Requires: no thread is in both.
    pub fn drain_into(&mut self, to: &mut ThreadQueue)
        requires { AreApart self.old to.old }
        ensures to { to.new ≡ to.old ++ self.old }
        ensures empty { self.new ≡ [] }
    {
        drain_from::<Brand>(self, to, Blank::new(1));
    }
}

impl ThreadList {
    /// Moves all threads to the back of `to`, and keeps their order.
    ///
    /// Requires: no thread is in both.
    pub fn drain_into(&mut self, to: &mut ThreadQueue)
        requires { AreApart self.old to.old }
        ensures to { to.new ≡ to.old ++ self.old }
        ensures empty { self.new ≡ [] }
    {
        while let Some(thread) = self.pop() {
            to.push(thread);
        }
    }
}

fn contains_from<L: Ledger>(queue: &ThreadQueue, t: Tid, blank: Blank) -> bool
    requires name { blank.name ≡ L.name }
    requires parts { blank.parts ≡ L.parts }
    requires one { blank.parts ≡ 1 }
    ensures { result ≡ is_in t queue.now }
{
    let mut ticks = Ticks::<L>::fresh(blank);
    queue.contains_in(t, &mut ticks)
}

fn push_from<L: Ledger>(queue: &mut ThreadQueue, t: Tid, blank: Blank)
    requires name { blank.name ≡ L.name }
    requires parts { blank.parts ≡ L.parts }
    requires one { blank.parts ≡ 1 }
    requires known { t.0 < THREADS }
    requires new { is_in t queue.old ≡ false }
    ensures { queue.new ≡ queue.old ++ t ∷ [] }
{
    let mut ticks = Ticks::<L>::fresh(blank);
    queue.push_in(t, &mut ticks);
}

fn pop_from<L: Ledger>(queue: &mut ThreadQueue, blank: Blank) -> Option<Tid>
    requires name { blank.name ≡ L.name }
    requires parts { blank.parts ≡ L.parts }
    requires one { blank.parts ≡ 1 }
    ensures value { result ≡ first queue.old }
    ensures rest { queue.new ≡ rest queue.old }
    ensures apart { MatchOption result (queue.old ≡ [])
        (λ t. (t.0 < THREADS) × (is_in t queue.new ≡ false) × (queue.old ≡ t ∷ queue.new)) }
{
    let mut ticks = Ticks::<L>::fresh(blank);
    queue.pop_in(&mut ticks)
}

fn remove_from<L: Ledger>(queue: &mut ThreadQueue, t: Tid, blank: Blank) -> bool
    requires name { blank.name ≡ L.name }
    requires parts { blank.parts ≡ L.parts }
    requires one { blank.parts ≡ 1 }
    ensures found { result ≡ is_in t queue.old }
    ensures rest { queue.new ≡ without t queue.old }
{
    let mut ticks = Ticks::<L>::fresh(blank);
    queue.remove_in(t, &mut ticks)
}

fn drain_from<L: Ledger>(queue: &mut ThreadQueue, to: &mut ThreadQueue, blank: Blank)
    requires name { blank.name ≡ L.name }
    requires parts { blank.parts ≡ L.parts }
    requires one { blank.parts ≡ 1 }
    requires apart { AreApart queue.old to.old }
    ensures to { to.new ≡ to.old ++ queue.old }
    ensures empty { queue.new ≡ [] }
{
    let mut ticks = Ticks::<L>::fresh(blank);
    queue.drain_in(to, &mut ticks);
}

/// Returns whether `t` is a member, for each queue that this table holds.
fn is_member<L: Ledger>(nodes: &Nodes, t: Tid, ticks: &mut Ticks<L>) -> bool
    requires { length nodes.now.cells ≡ THREADS }
    ensures found { (queue : List Tid) → Hold nodes.now queue → result ≡ is_in t queue }
    ensures ticks { ticks.new ≤ ticks.old + 1 }
{
    if usize::from(t.0) < THREADS {
        nodes.get(Some(t), ticks).is_member
    } else {
        false
    }
}

/// Links the node before `t` with the one after it, both ways. `t` is then not a member.
fn unlink<L: Ledger>(nodes: &mut Nodes, t: Tid, ticks: &mut Ticks<L>)
    requires there { (before after : List Tid) × Hold nodes.old (before ++ t ∷ after) }
    ensures held { (before after : List Tid) → Hold nodes.old (before ++ t ∷ after)
        → Hold nodes.new (before ++ after) }
    ensures ticks { ticks.new ≤ ticks.old + 6 }
{
    let mut out = nodes.get(Some(t), ticks);
    out.is_member = false;
    nodes.set(Some(t), out, ticks);
    let mut before = nodes.get(out.prev, ticks);
    before.next = out.next;
    nodes.set(out.prev, before, ticks);
    let mut after = nodes.get(out.next, ticks);
    after.prev = out.prev;
    nodes.set(out.next, after, ticks);
    nodes.count -= 1;
}

/// Links the last node with `t`, and `t` with the end, both ways. `t` is then a member.
fn link_behind<L: Ledger>(nodes: &mut Nodes, t: Tid, ticks: &mut Ticks<L>)
    requires known { t.0 < THREADS }
    requires new { (queue : List Tid) × Hold nodes.old queue × (is_in t queue ≡ false) }
    ensures held { (queue : List Tid) → Hold nodes.old queue → is_in t queue ≡ false
        → Hold nodes.new (queue ++ t ∷ []) }
    ensures ticks { ticks.new ≤ ticks.old + 3 }
{
    let last = nodes.end.prev;
    let mut before = nodes.get(last, ticks);
    before.next = Some(t);
    nodes.set(last, before, ticks);
    let behind = Node {
        next: None,
        prev: last,
        is_member: true,
    };
    nodes.set(Some(t), behind, ticks);
    nodes.end.prev = Some(t);
    nodes.count += 1;
}
