//! Bells: remote wake-up of idle CPUs. A CPU on which no thread runs may park until another CPU
//! sends it a thread, instead of polling its pending queue forever. No clause mentions a bell: a
//! parked CPU may continue at any time. `new` takes memory; the two `park` calls wait.

ghost use Rattle.std.specs.Prelude.{◌≡◌, IfOk};

use event_log::CpuId;
use std::alloc::{AllocError, Global};
use std::sync::Wait;
use std::sync::atomic::{AtomicU64, Ordering};

// The bell of one CPU: how often it was rung, and 1 while the CPU is parked or about to park, else
// 0. The padding keeps two bells out of one pair of cache lines.
#[derive(Drop)]
struct Bell {
    rings: AtomicU64,
    parked: AtomicU64,
    padding: [u64; 14],
}

/// A bell for each CPU of a table.
#[derive(Drop)]
pub(crate) struct Bells {
    bells: Vec<Bell>,
    // How many CPUs are neither parked nor stopped.
    awake: AtomicU64,
    // 1 once no CPU was awake: after that no worker parks, so that each uses up its turns.
    quiet: AtomicU64,
}

impl Bells {
    /// Returns the bells of so many CPUs, none of which was rung.
    pub(crate) fn new(alloc: Global, count: usize) -> Result<Bells, AllocError> {
        let mut bells = Vec::with_capacity(alloc, count)?;
        for _ in 0..count {
            bells.push(Bell {
                rings: AtomicU64::new(0),
                parked: AtomicU64::new(0),
                padding: [0; 14],
            })?;
        }
        Ok(Bells {
            bells,
            awake: AtomicU64::new(count as u64),
            quiet: AtomicU64::new(0),
        })
    }

    /// Returns how often the CPU's bell was rung.
    #[inline(always)]
    pub(crate) fn rings(&self, cpu: CpuId) -> u64 {
        match self.bells.get(usize::from(cpu.0)) {
            Some(bell) => bell.rings.load(Ordering::SeqCst),
            None => 0,
        }
    }

    /// Rings the CPU's bell. A CPU that is parked there is woken, and counts as awake from here on.
    pub(crate) fn ring(&self, cpu: CpuId) {
        if let Some(bell) = self.bells.get(usize::from(cpu.0)) {
            self.strike(bell);
        }
    }

    // Rings one bell.
    fn strike(&self, bell: &Bell) {
        bell.rings.fetch_add(1, Ordering::SeqCst);
        if bell.parked.load(Ordering::SeqCst) != 0 && bell.parked.swap(0, Ordering::SeqCst) != 0 {
            self.awake.fetch_add(1, Ordering::SeqCst);
            bell.rings.wake_all();
        }
    }

    // Turns parking off for good, and rings all bells.
    fn ring_all(&self) {
        self.quiet.store(1, Ordering::SeqCst);
        for bell in self.bells.iter() {
            self.strike(bell);
        }
    }

    /// Parks the CPU of a native until its bell was rung more than `rung` times. The CPU may
    /// continue sooner.
    pub(crate) fn park_native<R: Wait>(&self, rt: &R, cpu: CpuId, rung: u64) {
        if let Some(bell) = self.bells.get(usize::from(cpu.0)) {
            bell.parked.store(1, Ordering::SeqCst);
            self.awake.fetch_sub(1, Ordering::SeqCst);
            self.sleep(rt, bell, rung);
        }
    }

    /// Parks the CPU of a worker, as `park_native` does, unless no other CPU is awake and its bell
    /// was not rung. Then no CPU can ring its bell, and parking is turned off.
    pub(crate) fn park_worker<R: Wait>(&self, rt: &R, cpu: CpuId, rung: u64) {
        if self.quiet.load(Ordering::SeqCst) != 0 {
            return;
        }
        if let Some(bell) = self.bells.get(usize::from(cpu.0)) {
            bell.parked.store(1, Ordering::SeqCst);
            let is_last = self.awake.fetch_sub(1, Ordering::SeqCst) == 1;
            if is_last && bell.rings.load(Ordering::SeqCst) == rung {
                self.ring_all();
            }
            self.sleep(rt, bell, rung);
        }
    }

    // Sleeps unless the bell was rung since, and counts the CPU as awake again unless a ring has
    // done so.
    fn sleep<R: Wait>(&self, rt: &R, bell: &Bell, rung: u64) {
        if bell.rings.load(Ordering::SeqCst) == rung {
            bell.rings.park(rt, (rung & 0xffff_ffff) as u32);
        }
        if bell.parked.swap(0, Ordering::SeqCst) != 0 {
            self.awake.fetch_add(1, Ordering::SeqCst);
        }
    }

    /// Counts a worker that has stopped as not awake. If it was the last that was awake, parking is
    /// turned off.
    pub(crate) fn leave(&self) {
        if self.awake.fetch_sub(1, Ordering::SeqCst) == 1 {
            self.ring_all();
        }
    }
}
