//! Where threads join a CPU's run queue. No call allocates memory or waits.

ghost use Rattle.std.specs.Prelude.{◌≡◌, ◌<◌, ◌∷◌, [], false};
ghost use Rattle.{event_log.specs.declared.ids.TheConstants.THREADS, thread_blocks.specs.Queues.{is_in, AreApart}, layer_traits.specs.Threads.RunQueue.joins};

use event_log::Tid;
use thread_blocks::{ThreadList, ThreadQueue};

/// Puts `t` into the run queue.
///
/// Requires: the number of `t` is less than `THREADS`, and it is not ready yet.
#[inline(always)]
pub(crate) fn join(ready: &mut ThreadQueue, t: Tid)
    requires known { t.0 < THREADS }
    requires new { is_in t ready.old ≡ false }
    ensures { ready.new ≡ joins (t ∷ []) ready.old }
{
    ready.push(t);
}

/// Moves the threads of `queue` to the run queue.
///
/// Requires: none of them is ready yet.
#[inline(always)]
pub(crate) fn join_all(ready: &mut ThreadQueue, queue: &mut ThreadList)
    requires { AreApart queue.old ready.old }
    ensures { ready.new ≡ joins queue.old ready.old }
{
    queue.drain_into(ready);
}
