//! Which thread waits at which buffer. No function allocates or blocks.

ghost use Rattle.std.specs.Prelude.{◌≡◌, ◌<◌, ◌&&◌, Some, None, is_some, replicate, slice_set, if◌then◌else◌};
ghost use Rattle.{event_log.specs.declared.ids.TheConstants.THREADS, layer_traits.specs.Layers.QLockLaw.slept_for, condvar.specs.Waiting.{calls_wait, is_wait}};

use event_log::{BufId, THREADS, Tid};
use layer_traits::{CvEdit, CvLeave, CvReply, Outcome, QLockCall, QLockReply};

/// For each thread the buffer at which it waits, from the poll in which it began to wait until its
/// wait returns.
#[derive(Drop)]
pub struct Waits {
    /// The buffer of each thread, by its number.
    pub buffers: [Option<BufId>; THREADS],
}

impl Waits {
    /// Returns the table in which no thread waits.
    pub fn new() -> Waits
        ensures { result.buffers ≡ replicate THREADS None }
    {
        Waits {
            buffers: [None; THREADS],
        }
    }

    /// Ends the wait of `t`, and returns whether there was one.
    ///
    /// Requires: the thread is below `THREADS`.
    #[inline(always)]
    pub fn wake(&mut self, t: Tid) -> bool
        requires { t.0 < THREADS }
        ensures was { result ≡ is_some (slept_for self.old.buffers t) }
        ensures now { self.new.buffers
            ≡ (if result then slice_set self.old.buffers t.0 None else self.old.buffers) }
    {
        let at = usize::from(t.0);
        if self.buffers[at].is_none() {
            return false;
        }
        self.buffers[at] = None;
        true
    }

    /// Ends the wait of `t` if this call is a wait, and returns whether there was one. Other calls
    /// do not consult the table, because a thread that waits makes no other call.
    ///
    /// Requires: the thread is below `THREADS`.
    #[inline(always)]
    pub fn ends_wait<H>(&mut self, call: &QLockCall<CvEdit<H>, CvLeave>, t: Tid) -> bool
        requires { t.0 < THREADS }
        ensures was { result ≡ (calls_wait call.now && is_some (slept_for self.old.buffers t)) }
        ensures now { self.new.buffers
            ≡ (if result then slice_set self.old.buffers t.0 None else self.old.buffers) }
    {
        match call {
            QLockCall::Release(CvLeave::Wait(_, _)) => self.wake(t),
            QLockCall::Release(CvLeave::Leave(_)) | QLockCall::Acquire(_) | QLockCall::Inside(_) =>
                false,
        }
    }

    /// Takes what the lock of `buffer` returned for `t`. The result of a wait is held back, and the
    /// thread waits there; any other result is returned.
    ///
    /// Requires: the thread is below `THREADS`.
    #[inline(always)]
    pub fn complete<O: Drop>(
        &mut self,
        t: Tid,
        buffer: BufId,
        answer: Option<Outcome<QLockReply<CvReply<O>>>>,
    ) -> Option<Outcome<QLockReply<CvReply<O>>>>
        requires { t.0 < THREADS }
        ensures waits { self.new.buffers
            ≡ (if is_wait answer then slice_set self.old.buffers t.0 (Some buffer)
            else self.old.buffers) }
        ensures complete { result ≡ (if is_wait answer then None else answer) }
    {
        if has_waited(&answer) {
            self.buffers[usize::from(t.0)] = Some(buffer);
            return None;
        }
        answer
    }
}

/// Returns whether the lock's result says that the caller waits.
#[inline(always)]
fn has_waited<O>(answer: &Option<Outcome<QLockReply<CvReply<O>>>>) -> bool
    ensures { result ≡ is_wait answer.now }
{
    match answer {
        Some(outcome) => matches!(outcome.out, QLockReply::Released(CvReply::Waited(_))),
        None => false,
    }
}
