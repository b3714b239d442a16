//! Gates: what may hold a CPU between two of its turns. `OpenGate` takes no memory and does not
//! wait.

ghost use Rattle.std.specs.Prelude.{◌≡◌, ℕ, ◌+◌, ◌<◌, ◌≤◌};

use event_log::CpuId;

/// What a gate returns.
#[derive(Clone, Copy, Debug, PartialEq, Eq)]
pub enum Go {
    /// The CPU may take its turn.
    Pass,
    /// The CPU must stop once none of its sections is under way.
    Limit,
}

/// What a worker asks before each turn of its CPU, with the number of turns that the CPU has taken.
/// It does not ask at turns for which `open_for` has granted that the CPU may pass. A gate may hold
/// the CPU inside `pass`, up to the gate's own limit, and then returns `Limit`. After that the
/// CPU takes no turn except to end its section.
pub trait Gate {
    ghost use Rattle.{event_log.specs.declared.ids.CpuId.CpuId, cpu_workers.specs.declared.workers.gates.Go.{Go, TheVariants.Pass}};

    /// For which CPU, and at which of its turns, the gate may return which result.
    ghost MayAnswer: { Self → CpuId → Go → ℕ → Type 0 };

    /// Returns whether `cpu`, which has taken `turn` turns, may take one more.
    fn pass(&self, cpu: CpuId, turn: u64) -> Go
        ensures { MayAnswer self.now cpu result turn };

    /// Returns for how many turns, starting with this one, a worker need not ask. At each of them
    /// the gate lets `cpu` pass. A gate that must be asked before each turn returns 0, which is the
    /// default.
    fn open_for(&self, _cpu: CpuId, _turn: u64) -> u64
        ensures { (k : ℕ) → _turn ≤ k → k < _turn + result → MayAnswer self.now _cpu Pass k }
    {
        0
    }
}

/// The gate that is always open.
#[derive(Clone, Copy, Debug, Drop)]
pub struct OpenGate;

impl Gate for OpenGate {
    ghost use Rattle.cpu_workers.specs.declared.workers.gates.Go.TheVariants.{Pass};

    ghost MayAnswer = { λ gate cpu go turn. go ≡ Pass };

    fn pass(&self, _cpu: CpuId, _turn: u64) -> Go {
        Go::Pass
    }

    fn open_for(&self, _cpu: CpuId, _turn: u64) -> u64 {
        u64::MAX
    }
}
