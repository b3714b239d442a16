//! Backoff: when a worker or a caller requests a buffer's lock. If two CPUs pass a lock between
//! them with each call, each of them waits until no CPU draws a ticket there. Therefore many calls
//! of one CPU follow each other. A wait is bounded, and it changes nothing except the moment of a
//! turn or a poll.

ghost use Rattle.std.specs.Prelude.{◌≡◌, ◌<◌, ◌≤◌, false};
ghost use Rattle.layer_traits.specs.Views.OwnParts.{threads_in};
ghost use Rattle.cpu_workers.specs.{Idling.{is_idle, spins_left}, Working.is_inside, declared.workers.handoff_backoff.TheConstants.MOST_PAUSES};

use crate::pauses::{SPINS, pause};
use crate::workers::hints::Hints;
use crate::workers::worker::Worker;
use event_log::BufId;
use layer_traits::{CallLayer, IpcLaw};
use std::thread;

// After so many sleeps the CPU decides whether to back off. It does so if both hold:
// - at most `WATCHED` calls were made meanwhile;
// - no more tickets were drawn per call than two CPUs draw for a call each.
//
// Two CPUs draw 12 tickets at a buffer with room and items, and 18 if each call waits for the other
// CPU's. Four CPUs draw 24.
const SLEEPS: u16 = 16;

const WATCHED: usize = 22;

const DRAWS: u64 = 15;

// How many turns a worker that backs off takes at once: for so many turns a thread that its call
// wakes is in its hand.
const WATCHFUL: usize = 3;

// After so many waits the CPU decides whether they pay: they do if so many calls were made
// meanwhile. That is so once the other CPU backs off too, which begins after as many sleeps.
const WAITS: u16 = 16;

const PAYS: usize = 64;

// For how many calls the CPU does not back off after waits that did not pay: at first, and at most.
const FIRST_REST: usize = 1_000;

const LAST_REST: usize = 32_000;

// How many pauses the sleeper to which the CPU passed the lock may take to arrive.
const PATIENCE: u16 = 4;

// How many pauses a wait has at most.
const MOST_PAUSES: u16 = 100;

// How many spin loops a pause has. They take about as long as six yields of a processor that no
// other thread wants. A pause does not yield: where other programs run, a yield takes milliseconds.
const SPIN_LOOPS: u16 = 96;

// The last event between two sections that bears on the next call.
#[derive(Clone, Copy, Drop)]
enum LastEvent {
    Nothing,
    // The CPU was idle.
    Slept,
    // A section woke a thread of another CPU.
    Woke,
    // That thread was forwarded to its home CPU.
    Sent,
}

/// How many waits of an idle CPU have passed since checks of its bell last succeeded, at most
/// 4,096.
#[derive(Drop)]
pub(crate) struct Waits {
    failed: u16,
}

impl Waits {
    /// Returns the state of a CPU that has not been idle.
    pub(crate) fn new() -> Waits {
        Waits { failed: 0 }
    }

    /// Counts a wait, and returns whether the CPU checks its bell in it: in the first, second,
    /// fourth, eighth wait and so on. If such checks fail, the other CPU is not running, because
    /// other threads need its processor. More checks would then only delay it.
    pub(crate) fn is_checked(&mut self) -> bool {
        self.failed = self.failed % 4_096 + 1;
        self.failed.is_power_of_two()
    }
}

/// What a CPU keeps of its calls and its waits.
#[derive(Drop)]
pub struct HandoffBackoff {
    news: LastEvent,
    waits: bool,
    // How many calls the CPU has made, and the buffer of the newest.
    made: usize,
    last: Option<BufId>,
    // How many it had made, and how many tickets were drawn, when it began to count.
    since: usize,
    drawn: u64,
    // How many sleeps it has counted, or how many waits.
    counted: u16,
    // How many calls it must have made before it counts again, and for how many more after the
    // next.
    rests_until: usize,
    next_rest: usize,
    // Its waits for its bell.
    pub(crate) idle_waits: Waits,
}

impl HandoffBackoff {
    /// Returns the state of a CPU that has made no call.
    pub fn new() -> HandoffBackoff {
        HandoffBackoff {
            news: LastEvent::Nothing,
            waits: false,
            made: 0,
            last: None,
            since: 0,
            drawn: 0,
            counted: 0,
            rests_until: 0,
            next_rest: FIRST_REST,
            idle_waits: Waits::new(),
        }
    }

    // Returns whether an event was noted.
    fn is_alert(&self) -> bool {
        !matches!(&self.news, LastEvent::Nothing)
    }

    // Returns how many of so many turns the worker takes at once, so that it meets the events that
    // it notes.
    #[inline(always)]
    pub(crate) fn at_most(&self, most: usize) -> usize
        requires { 0 < most }
        ensures some { 0 < result }
        ensures few { result ≤ most }
    {
        if self.is_alert() {
            return 1;
        }
        if self.waits { most.min(WATCHFUL) } else { most }
    }

    // Notes that a caller is about to call at this buffer.
    #[inline(always)]
    pub(crate) fn begin<H: Hints>(&mut self, machine: &H, buffer: BufId) {
        self.made = self.made.saturating_add(1);
        self.last = Some(buffer);
        let woke = matches!(&self.news, LastEvent::Woke);
        self.news = LastEvent::Nothing;
        if woke {
            self.occasion(machine, true);
        }
    }

    // Does what a worker does after a turn.
    #[inline(always)]
    pub(crate) fn after_turn<I: CallLayer<IpcLaw> + Drop>(
        &mut self,
        worker: &Worker<I>,
        spins: u16,
    ) -> u16
    where
        I::Machine: Drop + Hints,
        ensures { result ≡ spins_left (is_inside worker.now) spins }
    {
        if self.is_alert() {
            self.made = worker.calls();
            self.last = worker.last_buffer();
        }
        self.after(worker.part(), worker.machine(), spins)
    }

    // Does what a CPU does after a turn, or after a poll of a caller. The CPU polls its lock again,
    // yields the processor, or waits before it requests a buffer's lock. Returns how many polls are
    // left before it yields.
    #[inline(always)]
    pub(crate) fn after<I: CallLayer<IpcLaw>>(
        &mut self,
        part: &I,
        machine: &I::Machine,
        spins: u16,
    ) -> u16
    where
        I::Machine: Hints,
        ensures { result ≡ spins_left (I.is_inside part.now) spins }
    {
        if part.is_busy() {
            if self.waits {
                self.inside(part.hand().is_some());
            }
            return pause(true, false, spins);
        }
        if self.is_alert() || part.current().is_none() || part.hand().is_some() {
            return self.mind(part, machine, spins);
        }
        SPINS
    }

    // Notes a thread that the CPU wakes, inside a section of a CPU that backs off.
    fn inside(&mut self, hand: bool) {
        if hand {
            self.news = LastEvent::Woke;
        } else if matches!(&self.news, LastEvent::Sent) {
            self.news = LastEvent::Nothing;
        }
    }

    // Notes events between two sections. It is not inlined, because few turns reach it.
    #[cold]
    #[inline(never)]
    fn mind<I: CallLayer<IpcLaw>>(&mut self, part: &I, machine: &I::Machine, spins: u16) -> u16
    where
        I::Machine: Hints,
        ensures { result ≡ spins_left false spins }
    {
        let idle = is_idle(part);
        if idle {
            self.news = LastEvent::Slept;
        } else if part.hand().is_some() {
            self.news = LastEvent::Woke;
        } else if part.current().is_some() {
            self.choose(machine);
        }
        pause(false, idle, spins)
    }

    // Chooses whether to wait, while a thread runs and the CPU's hand is empty.
    fn choose<H: Hints>(&mut self, machine: &H) {
        match self.news {
            LastEvent::Nothing => {}
            LastEvent::Slept => {
                self.news = LastEvent::Nothing;
                self.occasion(machine, false);
            }
            LastEvent::Woke => self.news = LastEvent::Sent,
            LastEvent::Sent => {
                self.news = LastEvent::Nothing;
                self.occasion(machine, true);
            }
        }
    }

    // Decides on a wait for the thread that runs. The thread continues after it slept, or it is
    // about to call and its last call woke a thread of another CPU (`gave`).
    fn occasion<H: Hints>(&mut self, machine: &H, gave: bool) {
        if self.made < self.rests_until {
            return;
        }
        if let Some(buffer) = self.last {
            if self.waits {
                self.wait(machine, buffer, gave);
            } else if !gave {
                self.watch(machine.next_hint(buffer));
            }
        }
    }

    // Counts a sleep of the thread that runs. If two conditions hold, the CPU begins to back off.
    // The thread sleeps in nearly every call. Between two sleeps, only two CPUs draw tickets at the
    // buffer's lock.
    fn watch(&mut self, next: u64) {
        if self.counted == 0 {
            self.since = self.made;
            self.drawn = next;
        }
        self.counted = self.counted.saturating_add(1);
        if self.counted >= SLEEPS {
            let calls = self.made.saturating_sub(self.since);
            let draws = next.wrapping_sub(self.drawn);
            self.waits = calls <= WATCHED && draws <= DRAWS.saturating_mul(calls as u64);
            self.since = self.made;
            self.counted = 0;
        }
    }

    // Waits, unless the last waits did not pay.
    fn wait<H: Hints>(&mut self, machine: &H, buffer: BufId, gave: bool) {
        if self.counted >= WAITS {
            if self.made.saturating_sub(self.since) < PAYS {
                self.rest();
                return;
            }
            self.since = self.made;
            self.counted = 0;
            self.next_rest = FIRST_REST;
        }
        self.counted = self.counted.saturating_add(1);
        let pauses = await_still(machine, buffer, if gave { PATIENCE } else { 1 });
        if pauses == MOST_PAUSES {
            self.rest();
        }
    }

    // Turns backoff off for a while, each time for four times as long.
    fn rest(&mut self) {
        self.waits = false;
        self.counted = 0;
        self.rests_until = self.made.saturating_add(self.next_rest);
        if self.next_rest < LAST_REST {
            self.next_rest *= 4;
        }
    }
}

// Returns whether no thread runs on the CPU, is in its hand or is ready there.
pub(crate) fn is_idle<I: CallLayer<IpcLaw>>(part: &I) -> bool
    ensures { result ≡ is_idle (threads_in (I.local part.now)).current
        (threads_in (I.local part.now)).hand (threads_in (I.local part.now)).ready }
{
    match (part.current(), part.hand()) {
        (None, None) => !part.has_ready(),
        _ => false,
    }
}

// Pauses until the lock is still: no CPU drew a ticket at the buffer's lock during one pause. If
// none was drawn since the start, it pauses `patience` times. Returns the number of pauses, at most
// `MOST_PAUSES`. After so many it yields, because other CPUs need the lock all the time.
fn await_still<H: Hints>(machine: &H, buffer: BufId, patience: u16) -> u16
    ensures { result ≤ MOST_PAUSES }
{
    let mut history = machine.next_hint(buffer);
    let mut left = patience;
    for pauses in 0..MOST_PAUSES {
        breathe();
        let now = machine.next_hint(buffer);
        left = if now == history {
            left.saturating_sub(1)
        } else {
            1
        };
        if left == 0 {
            return pauses + 1;
        }
        history = now;
    }
    thread::yield_now();
    MOST_PAUSES
}

// Pauses once.
fn breathe() {
    for _ in 0..SPIN_LOOPS {
        std::hint::spin_loop();
    }
}
