//! The table that holds a queue. No call allocates memory or waits.

ghost use Rattle.std.specs.Prelude.{◌≡◌, ◌+◌, ◌<◌, ◌≤◌, [], IfSome, length};
ghost use Rattle.{event_log.specs.declared.ids.TheConstants.THREADS, thread_blocks.specs.Links.{at, Changed, Hold}};

use event_log::{Cells, THREADS, Ticks, Tid};
use std::sync::ledger::Ledger;

/// What the table records of a node: the next node, the previous one, and whether it is in the
/// queue. A node is a thread, or `None`: the end, which is the node before the first thread and
/// after the last. An empty queue, a first thread and a last one are therefore no special cases.
#[derive(Clone, Copy)]
pub struct Node {
    pub next: Option<Tid>,
    pub prev: Option<Tid>,
    pub is_member: bool,
}

/// The end's node, how many threads are in the queue, and a node for each thread. What a call reads
/// and writes of a node is stored side by side, and so are the nodes of the end and of the first
/// threads. Few cache lines therefore move between processors.
#[derive(Drop)]
pub struct Nodes {
    pub end: Node,
    pub count: usize,
    pub cells: Cells<Node, THREADS>,
}

impl Nodes {
    /// Returns the table of the empty queue.
    pub fn empty() -> Nodes
        ensures { Hold result [] }
    {
        let untouched = Node {
            next: None,
            prev: None,
            is_member: false,
        };
        Nodes {
            end: untouched,
            count: 0,
            cells: Cells::filled(untouched),
        }
    }

    /// Returns what the table records of this node. At most one tick.
    ///
    /// Requires: there is a cell for each of the [`THREADS`] threads. A `node` that is a thread has
    /// a number less than [`THREADS`].
    pub fn get<L: Ledger>(&self, node: Option<Tid>, ticks: &mut Ticks<L>) -> Node
        requires length { length self.now.cells ≡ THREADS }
        requires node { IfSome node (λ t. t.0 < THREADS) }
        ensures value { result ≡ at self.now node }
        ensures ticks { ticks.new ≤ ticks.old + 1 }
    {
        match node {
            None => self.end,
            Some(t) => self.cells.get(usize::from(t.0), ticks),
        }
    }

    /// Records `value` of this node, and changes no other node. At most one tick.
    ///
    /// Requires: there is a cell for each of the [`THREADS`] threads. A `node` that is a thread has
    /// a number less than [`THREADS`].
    pub fn set<L: Ledger>(&mut self, node: Option<Tid>, value: Node, ticks: &mut Ticks<L>)
        requires length { length self.old.cells ≡ THREADS }
        requires node { IfSome node (λ t. t.0 < THREADS) }
        ensures changed { Changed (at self.old) (at self.new) node value }
        ensures length { length self.new.cells ≡ THREADS }
        ensures count { self.new.count ≡ self.old.count }
        ensures ticks { ticks.new ≤ ticks.old + 1 }
    {
        match node {
            None => self.end = value,
            Some(t) => self.cells.set(usize::from(t.0), value, ticks),
        }
    }
}
