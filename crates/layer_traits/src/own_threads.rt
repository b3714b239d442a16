//! A CPU's private scheduling state.
//!
//! No call is given an allocator, and none waits.

ghost use Rattle.std.specs.Prelude.{◌≡◌, ◌≢◌, [], Option, true, false};
ghost use Rattle.thread_blocks.specs.Queues.{is_in};

use event_log::Tid;
use std::marker::Model;
use thread_blocks::ThreadQueue;

/// The threads of a CPU: the one that runs, the woken one in its hand, the ready and the ended
/// ones. The hand is the in-transit slot for a woken thread whose home is another CPU. A scheduler
/// moves the threads; the layers above read them without a copy.
#[derive(Drop)]
pub struct OwnThreads {
    /// The thread that runs, if one does.
    pub current: Option<Tid>,
    /// The woken thread in the hand, if there is one.
    pub hand: Option<Tid>,
    /// The run queue: the threads that are ready, the next one in front.
    pub ready: ThreadQueue,
    /// The threads that have ended.
    pub ended: ThreadQueue,
}

impl Model for OwnThreads {
    ghost use Rattle.layer_traits.specs.Threads.Places.{Threads};

    ghost Value = { Threads };

    ghost view = { λ o. record { current = o.current; hand = o.hand; ready = o.ready; ended = o.ended } };
}

impl OwnThreads {
    /// Returns the thread that runs; `None` if none does.
    #[inline(always)]
    pub fn current(&self) -> Option<Tid>
        ensures { result ≡ self.now.current }
    {
        self.current
    }

    /// Returns the woken thread in the hand; `None` if there is none.
    #[inline(always)]
    pub fn hand(&self) -> Option<Tid>
        ensures { result ≡ self.now.hand }
    {
        self.hand
    }

    /// Returns whether any thread is ready.
    #[inline(always)]
    pub fn has_ready(&self) -> bool
        ensures some { result ≡ true → self.now.ready ≢ [] }
        ensures none { result ≡ false → self.now.ready ≡ [] }
    {
        self.ready.front().is_some()
    }

    /// Returns whether `t` is ready.
    #[inline(always)]
    pub fn is_ready(&self, t: Tid) -> bool
        ensures { result ≡ is_in t self.now.ready }
    {
        self.ready.contains(t)
    }

    /// Returns whether `t` has ended.
    #[inline(always)]
    pub fn has_ended(&self, t: Tid) -> bool
        ensures { result ≡ is_in t self.now.ended }
    {
        self.ended.contains(t)
    }
}
