//! Programs, each some lines of instructions. Only `Program::read` and `Program::copy` allocate
//! memory. No call waits.

use crate::instructions::Instruction;
use crate::reading::instructions_in;
use crate::refusals::{GuestError, GuestFault};
use event_log::NoMemory;
use std::alloc::Global;
use std::marker::Model;

/// How many lines a program may have.
pub const LINES: usize = 256;

/// A program: 1 to 256 instructions. Each jump and each target of a call is to one of its lines,
/// each call is of one of the buffers 0 to `BUFFERS - 1`.
#[derive(Drop)]
pub struct Program {
    lines: Vec<Instruction>,
}

impl Model for Program {
    ghost use Rattle.{std.specs.Prelude.List, guest.specs.{declared.instructions.Instruction.Instruction, Instructions.IsProgram}};

    ghost Value = { List Instruction };

    ghost view = { λ p. p.lines.items };

    ghost invariant = { λ p. IsProgram p.lines.items };
}

impl Program {
    ghost use Rattle.std.specs.{Prelude.{◌≡◌, ◌≢◌, ◌<◌, length, map, IfOk}, List.list_all};
    ghost use Rattle.guest.specs.{declared.instructions.Instruction.TheVariants.Exit, Instructions.{IsProgram, IsWithin, instruction_at, names_below}};
    ghost use Rattle.guest.specs.Language.{program_in, GivesOrFaults};

    /// Reads the lines of a program, one instruction each.
    ///
    /// Errors: `At(0, Empty)` if there is no line; `At(256, TooLong)` if there are more than 256.
    /// Otherwise the first line with a fault, counted from 0, and the first fault in it, its pieces
    /// taken from left to right. `NoMemory` if an allocation failed.
    #[tactic(auto, unfolding(crate::specs::Language::program_in))]
    pub fn read(alloc: Global, lines: &[&str]) -> Result<Program, GuestError>
        ensures read { GivesOrFaults (λ program. program) result
            (program_in (map (λ line. line.now) lines.now)) }
        ensures within { IfOk result IsProgram }
    {
        if lines.is_empty() {
            return Err(GuestError::At(0, GuestFault::Empty));
        }
        if lines.len() > LINES {
            return Err(GuestError::At(LINES, GuestFault::TooLong));
        }
        match instructions_in(alloc, lines) {
            Ok(lines) => Ok(Program { lines }),
            Err(error) => Err(error),
        }
    }

    /// Copies the program into newly allocated memory.
    ///
    /// Errors: `NoMemory` if the allocation failed.
    pub fn copy(&self, alloc: Global) -> Result<Program, NoMemory>
        ensures { IfOk result (λ program. program ≡ self.now) }
    {
        let mut lines = Vec::new(alloc);
        lines.extend_from_slice(&self.lines)?;
        Ok(Program { lines })
    }

    /// Returns how many lines the program has, from 1 to 256.
    pub fn len(&self) -> usize
        ensures len { result ≡ length self.now }
        ensures within { IsProgram self.now }
    {
        self.lines.len()
    }

    /// Returns whether each buffer that the program names is one of the first `buffers` buffers.
    pub fn names_below(&self, buffers: usize) -> bool
        ensures { result ≡ list_all (names_below buffers) self.now }
    {
        self.lines
            .iter()
            .all(|instruction| instruction.names_below(buffers))
    }

    /// Returns the instruction of a line, counted from 0. Past the last line it is `exit`.
    #[inline(always)]
    pub fn instruction(&self, line: usize) -> Instruction
        ensures instruction { result ≡ instruction_at self.now line }
        // Past the last line there is only `exit`.
        ensures inside { result ≢ Exit → line < length self.now }
        ensures within { IsProgram self.now }
        ensures fits { IsWithin (length self.now) result }
    {
        self.lines.get(line).copied().unwrap_or(Instruction::Exit)
    }
}
