//! When an idle CPU parks: after a failed poll of its pending queue, if its bell is not rung for a
//! while. No call takes memory. `after_poll` and `after_turn` may wait.

ghost use Rattle.std.specs.Prelude.{◌≡◌};

use crate::workers::handoff_backoff::{HandoffBackoff, Waits, is_idle};
use crate::workers::hints::Hints;
use crate::workers::worker::Worker;
use event_log::CpuId;
use layer_traits::{CallLayer, IpcLaw};
use std::sync::Wait;

// How many times an idle CPU checks its bell before it parks, with some spin loops between two
// checks: for about 50 µs. Parking and remote wake-up take less. But a thread that is in line for a
// buffer's mutex waits for 10 to 20 µs behind three others, even if each has a processor. A check
// is outside of every section. Therefore no other CPU waits for an idle CPU that was preempted.
const CHECKS: u16 = 1_000;

/// An idle CPU's polls of its pending queue, and its waits for its bell.
#[derive(Drop)]
pub(crate) struct Idler {
    cpu: CpuId,
    // How often the CPU's bell had been rung before the newest poll of its queue began.
    rung: u64,
}

impl Idler {
    /// Returns the state of a CPU that has not polled its queue.
    pub(crate) fn new(cpu: CpuId) -> Idler {
        Idler { cpu, rung: 0 }
    }

    /// Reads the CPU's bell if the CPU waits. Its next turn polls the queue then. A worker calls it
    /// before it takes turns, a caller before each poll of a call.
    #[inline(always)]
    pub(crate) fn before<I: CallLayer<IpcLaw>>(&mut self, part: &I, machine: &I::Machine)
    where
        I::Machine: Hints,
    {
        if is_waiting(part) {
            self.rung = machine.rings(self.cpu);
        }
    }

    /// After each poll of a call: parks the CPU if it waits and its bell is not rung soon.
    #[inline(always)]
    pub(crate) fn after_poll<I: CallLayer<IpcLaw>, R: Wait>(
        &self,
        rt: &R,
        part: &I,
        machine: &I::Machine,
        handoff_backoff: &mut HandoffBackoff,
    )
    where
        I::Machine: Hints,
    {
        if is_waiting(part) && !self.is_rung_soon(machine, handoff_backoff) {
            machine.park_native(rt, self.cpu, self.rung);
        }
    }

    /// After each turn of a worker: parks its CPU if it waits, its bell is not rung soon, it is not
    /// halted, and it need not ask its gate. If only that keeps the CPU from parking, it yields the
    /// processor.
    #[inline(always)]
    pub(crate) fn after_turn<I: CallLayer<IpcLaw> + Drop, R: Wait>(
        &self,
        rt: &R,
        worker: &Worker<I>,
        open: usize,
        handoff_backoff: &mut HandoffBackoff,
    )
    where
        I::Machine: Drop + Hints,
    {
        if is_waiting(worker.part()) && !self.is_rung_soon(worker.machine(), handoff_backoff) {
            if 1 < open && worker.halted().is_none() {
                worker.machine().park_worker(rt, self.cpu, self.rung);
            } else {
                std::thread::yield_now();
            }
        }
    }

    // Returns whether the bell was rung since the newest poll of the queue began. In some waits it
    // checks for a while. It is not inlined, because few turns reach it.
    #[cold]
    #[inline(never)]
    fn is_rung_soon<H: Hints>(&self, machine: &H, handoff_backoff: &mut HandoffBackoff) -> bool {
        if machine.rings(self.cpu) != self.rung {
            return true;
        }
        if handoff_backoff.idle_waits.is_checked() && self.is_rung_in_checks(machine) {
            handoff_backoff.idle_waits = Waits::new();
            return true;
        }
        false
    }

    // Checks the bell for a while. Returns whether it was rung meanwhile.
    fn is_rung_in_checks<H: Hints>(&self, machine: &H) -> bool {
        for _ in 0..CHECKS {
            rest();
            if machine.rings(self.cpu) != self.rung {
                return true;
            }
        }
        false
    }
}

// Returns whether the CPU is idle and no section of it is under way.
#[inline(always)]
fn is_waiting<I: CallLayer<IpcLaw>>(part: &I) -> bool {
    part.current().is_none() && !part.is_busy() && is_idle(part)
}

// Spins between two checks of a bell.
fn rest() {
    for _ in 0..10 {
        std::hint::spin_loop();
    }
}
