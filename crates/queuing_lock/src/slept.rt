//! Which thread sleeps for which lock. No call allocates memory or waits.

ghost use Rattle.std.specs.Prelude.{◌≡◌, ◌<◌, Some, None, is_some, replicate, slice_set, if◌then◌else◌};
ghost use Rattle.{event_log.specs.declared.ids.TheConstants.THREADS, layer_traits.specs.Layers.QLockLaw.slept_for, queuing_lock.specs.Parts.asks_again};
ghost use Rattle.queuing_lock.specs.Parts.{slept_left_by, outcome_handed_on};

use event_log::{BufId, THREADS, Tid};
use layer_traits::{Outcome, QLockCall, QLockReply};

/// For each thread the buffer for whose lock it slept, from the poll in which it fell asleep until
/// its call returns.
#[derive(Drop)]
pub struct Slept {
    /// By thread number.
    pub buffers: [Option<BufId>; THREADS],
}

impl Slept {
    /// Returns the record of no sleeper.
    pub fn new() -> Slept
        ensures { result.buffers ≡ replicate THREADS None }
    {
        Slept {
            buffers: [None; THREADS],
        }
    }

    /// Returns whether `t` slept for a lock.
    #[inline(always)]
    pub fn has(&self, t: Tid) -> bool
        ensures { result ≡ is_some (slept_for self.now.buffers t) }
    {
        let at = usize::from(t.0);
        if at < THREADS {
            self.buffers[at].is_some()
        } else {
            false
        }
    }

    /// Returns whether the call asks again for a lock for which its thread slept. Such a thread
    /// makes no other call, so that no other call consults the record.
    #[inline(always)]
    pub fn asks_again<F, R>(&self, call: &QLockCall<F, R>) -> bool
        ensures { result ≡ asks_again self.now.buffers call.now }
    {
        match call {
            QLockCall::Acquire(t) => self.has(*t),
            QLockCall::Inside(_) | QLockCall::Release(_) => false,
        }
    }

    /// Records that the sleep of `t` is over.
    ///
    /// Requires: the thread is below `THREADS`.
    #[inline(always)]
    pub fn over(&mut self, t: Tid)
        requires { t.0 < THREADS }
        ensures { self.new.buffers ≡ slice_set self.old.buffers t.0 None }
    {
        self.buffers[usize::from(t.0)] = None;
    }

    /// Records that `t` sleeps for the lock of `buffer`.
    ///
    /// Requires: the thread is below `THREADS`.
    pub fn put(&mut self, t: Tid, buffer: BufId)
        requires { t.0 < THREADS }
        ensures { self.new.buffers ≡ slice_set self.old.buffers t.0 (Some buffer) }
    {
        self.buffers[usize::from(t.0)] = Some(buffer);
    }

    /// Takes the outcome of a call of `t` at the lock of `buffer`. A queued thread sleeps there,
    /// and its call continues; any other outcome is returned.
    ///
    /// Requires: the thread is below `THREADS`.
    #[inline(always)]
    pub fn complete<B: Drop>(
        &mut self,
        t: Tid,
        buffer: BufId,
        outcome: Outcome<QLockReply<B>>,
    ) -> Option<Outcome<QLockReply<B>>>
        requires { t.0 < THREADS }
        ensures slept { self.new.buffers ≡ slept_left_by t buffer self.old.buffers outcome }
        ensures complete { result ≡ outcome_handed_on outcome }
    {
        match outcome.out {
            QLockReply::Queued => {
                self.put(t, buffer);
                None
            }
            out => Some(Outcome {
                out,
                slept: outcome.slept,
                woke: outcome.woke,
            }),
        }
    }
}
