//! The names of the machine's parts, and how many of each a machine may have. Each kind of name is
//! a number with a separate type, so that a CPU is never taken for a thread. No call allocates
//! memory or waits.

ghost use Rattle.std.specs.Prelude.{◌≡◌, ◌<◌};
ghost use Rattle.event_log.specs.{declared.ids.TheConstants.LOCKS, Locks.lock_number};

/// How many CPUs a machine may have: they are numbered from 0 to `CPUS - 1`. A table indexed by
/// CPU has this size.
pub const CPUS: usize = 16;

/// How many threads a machine may have: they are numbered from 0 to `THREADS - 1`. A table indexed
/// by thread has this size.
pub const THREADS: usize = 256;

/// How many buffers a machine may have: they are numbered from 0 to `BUFFERS - 1`. A table indexed
/// by buffer has this size.
pub const BUFFERS: usize = 16;

/// How many messages a buffer may hold: its capacity is from 1 to `CAPACITY`.
pub const CAPACITY: usize = 32;

/// How many entries the trace of one CPU may have.
pub const TRACE: usize = 65_536;

/// How many entries the traces of all CPUs may have together, `CPUS` times `TRACE`. The op and the
/// pos of an entry are less.
pub const ENTRIES: usize = 1_048_576;

/// A CPU by its number, from 0.
#[derive(Clone, Copy, Debug, Default, PartialEq, Eq)]
pub struct CpuId(pub u8);

/// A thread by its number, from 0.
#[derive(Clone, Copy, Debug, Default, PartialEq, Eq)]
pub struct Tid(pub u8);

/// A buffer by its number, from 0.
#[derive(Clone, Copy, Debug, PartialEq, Eq)]
pub struct BufId(pub u8);

/// A lock by what it guards. There is one for each CPU's queue of pending threads, and one for
/// each buffer.
#[derive(Clone, Copy, Debug, PartialEq, Eq)]
pub enum LockId {
    /// The lock of the pending queue of this CPU.
    Pending(CpuId),
    /// The lock of this buffer.
    Buffer(BufId),
}

/// How many locks there can be: one for each number of a CPU and one for each number of a buffer.
/// Each number is a `u8`. A table indexed by lock has this size.
pub const LOCKS: usize = 512;

impl LockId {
    /// Returns the number of the lock among all that there can be: even for that of a CPU's queue,
    /// odd for that of a buffer. Two locks have two numbers.
    pub fn number(self) -> usize
        ensures number { result ≡ lock_number self }
        ensures within { result < LOCKS }
    {
        match self {
            LockId::Pending(cpu) => 2 * usize::from(cpu.0),
            LockId::Buffer(buffer) => 2 * usize::from(buffer.0) + 1,
        }
    }
}
