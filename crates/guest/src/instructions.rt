//! Registers and instructions. No call allocates memory or waits.

use event_log::{BufId, WORDS};

/// How many registers a thread has: as many as a message has words at most.
pub const REGISTERS: usize = WORDS;

/// A register. Each holds a number from 0 to 2^64 - 1, and 0 at the start.
#[derive(Clone, Copy, Debug, PartialEq, Eq)]
pub enum Register {
    /// `r0`
    Reg0,
    /// `r1`
    Reg1,
    /// `r2`
    Reg2,
    /// `r3`
    Reg3,
    /// `r4`
    Reg4,
    /// `r5`
    Reg5,
    /// `r6`
    Reg6,
    /// `r7`
    Reg7,
}

impl Register {
    ghost use Rattle.std.specs.Prelude.{◌≡◌, ◌<◌};
    ghost use Rattle.guest.specs.{declared.instructions.TheConstants.REGISTERS, Instructions.number_of};

    /// Returns the register's number, counted from 0.
    #[inline(always)]
    pub fn number(self) -> usize
        ensures number { result ≡ number_of self }
        ensures below { result < REGISTERS }
    {
        match self {
            Register::Reg0 => 0,
            Register::Reg1 => 1,
            Register::Reg2 => 2,
            Register::Reg3 => 3,
            Register::Reg4 => 4,
            Register::Reg5 => 5,
            Register::Reg6 => 6,
            Register::Reg7 => 7,
        }
    }
}

/// The source of a send's words.
#[derive(Clone, Copy, Debug, PartialEq, Eq)]
pub enum Source {
    /// One register: a message of one word.
    One(Register),
    /// The first registers, so many: a message of as many words.
    First(usize),
}

/// Where a receive puts its words.
#[derive(Clone, Copy, Debug, PartialEq, Eq)]
pub enum Target {
    /// The message's first word to one register. The other registers stay.
    One(Register),
    /// The message's words to the first registers, and 0 to the others.
    All,
}

/// One instruction. A line of a program is one of these.
#[derive(Clone, Copy, Debug, PartialEq, Eq)]
pub enum Instruction {
    /// `set rD n`: the register becomes the number.
    Set(Register, u64),
    /// `add rD rS`: the first register becomes the sum of both, modulo 2^64.
    Add(Register, Register),
    /// `sub rD rS`: the first register becomes the first less the second, modulo 2^64.
    Sub(Register, Register),
    /// `jnz rS k`: if the register is not 0 the next line is `k`, counted from 0.
    Jnz(Register, usize),
    /// `send b rS` sends the register to the buffer, `sendm b n` the first `n` registers. If the
    /// buffer is closed the next line is `k`, the last piece of `send b rS k` and `sendm b n k`, or
    /// the following line if there is no `k`.
    Send(BufId, Source, Option<usize>),
    /// `recv b rD` receives a message from the buffer, of which the register takes the first word;
    /// `recvm b` receives one into all registers. If the buffer is closed and empty the registers
    /// are unchanged, and the next line is as for a send: `recv b rD k`, `recvm b k`.
    Recv(BufId, Target, Option<usize>),
    /// `close b`: closes the buffer.
    Close(BufId),
    /// `yield`: lets another thread of the CPU run.
    Yield,
    /// `exit`: ends the thread.
    Exit,
}

impl Instruction {
    ghost use Rattle.std.specs.Prelude.{◌≡◌};
    ghost use Rattle.guest.specs.Instructions.{names_below};

    /// Returns whether each buffer that the instruction names is one of the first `buffers`
    /// buffers.
    pub fn names_below(&self, buffers: usize) -> bool
        ensures { result ≡ names_below buffers self.now }
    {
        match self {
            Instruction::Send(buffer, ..)
            | Instruction::Recv(buffer, ..)
            | Instruction::Close(buffer) => usize::from(buffer.0) < buffers,
            Instruction::Set(..)
            | Instruction::Add(..)
            | Instruction::Sub(..)
            | Instruction::Jnz(..)
            | Instruction::Yield
            | Instruction::Exit => true,
        }
    }
}
