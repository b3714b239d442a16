//! The threads that were taken out of a queue at once. No call allocates memory or waits.

ghost use Rattle.std.specs.Prelude.{◌≡◌, ◌<◌, ◌++◌, ◌∷◌, [], false, length, MatchOption};
ghost use Rattle.{event_log.specs.declared.ids.TheConstants.THREADS, thread_blocks.specs.Queues.{is_in}};

use arrayvec::ArrayVec;
use event_log::{THREADS, Tid};
use std::marker::Model;

/// The threads that were taken out of a queue at once, in their order; none of them twice. They are
/// stored contiguously, in a fifth of the size of a queue, so that passing them on moves few bytes.
/// No call allocates memory.
#[derive(Drop)]
pub struct ThreadList {
    threads: ArrayVec<Tid, THREADS>,
}

impl Model for ThreadList {
    ghost use Rattle.{std.specs.Prelude.List, event_log.specs.declared.ids.Tid.Tid, thread_blocks.specs.Queues.IsQueue};

    ghost Value = { List Tid };

    ghost view = { λ l. l.threads.items };

    ghost invariant = { λ l. IsQueue l.threads.items };
}

impl ThreadList {
    /// Returns a list without threads.
    #[inline(always)]
    pub(crate) fn new() -> ThreadList
        ensures { result ≡ [] }
    {
        ThreadList {
            threads: ArrayVec::new(),
        }
    }

    /// Returns how many threads there are.
    pub fn len(&self) -> usize
        ensures { result ≡ length self.now }
    {
        self.threads.len()
    }

    /// Removes all threads.
    #[inline(always)]
    pub(crate) fn clear(&mut self)
        ensures { self.new ≡ [] }
    {
        self.threads.clear();
    }

    /// Appends `t`, which is not in the list.
    ///
    /// Requires: `t` is one of the threads that there may be, and is not in the list.
    #[inline(always)]
    pub(crate) fn push(&mut self, t: Tid)
        requires known { t.0 < THREADS }
        requires new { is_in t self.old ≡ false }
        ensures { self.new ≡ self.old ++ t ∷ [] }
    {
        self.threads.push(t);
    }

    /// Removes and returns the first thread; `None` if there is none.
    pub(crate) fn pop(&mut self) -> Option<Tid>
        ensures { MatchOption result ((self.old ≡ []) × (self.new ≡ []))
            (λ t. (t.0 < THREADS) × (is_in t self.new ≡ false) × (self.old ≡ t ∷ self.new)) }
    {
        if self.threads.is_empty() {
            return None;
        }
        Some(self.threads.remove(0))
    }
}
