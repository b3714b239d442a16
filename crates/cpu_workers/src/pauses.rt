//! How often a worker polls before it yields its processor. `pause` may yield, and so wait for
//! other threads.

ghost use Rattle.std.specs.Prelude.{◌≡◌};
ghost use Rattle.cpu_workers.specs.Idling.{spins_left};

use std::thread;

// How often a worker polls a lock before it yields its processor. With more threads than
// processors, the lock's owner may not be running. Polling so often takes about fifty context
// switches. A worker that yields sooner lets a lock convoy form. The lock's queue then fills with
// threads that are not running, and each section waits for a context switch.
pub(crate) const SPINS: u16 = 10_000;

// Yields the processor if a worker's section is under way and no spins are left. An idle CPU does
// not yield: where other programs run, each yield gives the processor to one of them for
// milliseconds. It waits for its bell instead. Returns how many spins are left. After a yield one
// spin is left, so that a worker whose poll succeeds releases the lock before it yields again.
pub(crate) fn pause(busy: bool, idle: bool, spins: u16) -> u16
    ensures { result ≡ spins_left busy spins }
{
    if busy && spins > 0 {
        return spins - 1;
    }
    if busy {
        thread::yield_now();
        return 1;
    }
    if idle {
        std::hint::spin_loop();
    }
    SPINS
}
