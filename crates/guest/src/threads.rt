//! One thread's private state, and what each instruction makes of it. No call allocates memory or
//! waits.

use crate::instructions::{Instruction, REGISTERS, Register, Source, Target};
use crate::programs::Program;
use event_log::Msg;
use std::marker::Model;

/// A thread of a program: its line and its registers.
#[derive(Clone, Copy)]
pub struct Thread {
    line: usize,
    registers: [u64; REGISTERS],
}

impl Model for Thread {
    ghost use Rattle.guest.specs.State.{State};

    ghost Value = { State };

    ghost view = { λ t. record { line = t.line; registers = t.registers } };

    ghost inverse = { λ s. record { line = s.line; registers = s.registers } };
}

impl Thread {
    ghost use Rattle.std.specs.Prelude.{◌≡◌, ◌<◌, length};
    ghost use Rattle.guest.specs.{Instructions.{IsSource, IsWithin}, declared.instructions.Target.TheVariants.All, State.{at_start, next_of, after_local}};
    ghost use Rattle.guest.specs.State.{after_yield, after_send, after_recv, after_close, after_closed, register_value, message_from, moved_on, moved_with};
    ghost use Rattle.guest.specs.State.{moved_into, moved_aside};

    /// Returns a thread before its first instruction: at line 0, each register 0.
    pub fn new() -> Thread
        ensures { result ≡ at_start }
    {
        Thread {
            line: 0,
            registers: [0; REGISTERS],
        }
    }

    /// Returns the instruction of the thread's line. Past the program's last line it is `exit`.
    #[inline(always)]
    pub fn next(&self, program: &Program) -> Instruction
        ensures next { result ≡ next_of program.now self.now }
        ensures fits { IsWithin (length program.now) result }
    {
        let line = self.line;
        program.instruction(line)
    }

    /// Returns the number in a register.
    #[inline(always)]
    pub fn value(&self, register: Register) -> u64
        ensures { result ≡ register_value self.now register }
    {
        self.registers[register.number()]
    }

    /// Returns the message that a send takes from here: the number of one register, or those of the
    /// first registers.
    ///
    /// Requires: a `from` that names several registers names 1 to [`REGISTERS`] of them.
    #[inline(always)]
    pub fn message(&self, from: Source) -> Msg
        requires { IsSource from }
        ensures { result ≡ message_from self.now from }
    {
        match from {
            Source::One(register) => Msg::one(self.value(register)),
            Source::First(count) => Msg::new(&self.registers[..count]),
        }
    }

    /// Executes the instruction of the thread's line if it is `set`, `add`, `sub` or `jnz`, and
    /// moves the thread to its next line. At another instruction the thread is unchanged. Allocates
    /// no memory.
    #[inline(always)]
    pub fn step_local(&mut self, program: &Program)
        ensures { self.new ≡ after_local (next_of program.now self.old) self.old }
    {
        match program.instruction(self.line) {
            Instruction::Set(into, number) => self.put(into, number),
            Instruction::Add(into, from) => {
                let sum = self.value(into).wrapping_add(self.value(from));
                self.put(into, sum);
            }
            Instruction::Sub(into, from) => {
                let difference = self.value(into).wrapping_sub(self.value(from));
                self.put(into, difference);
            }
            Instruction::Jnz(from, target) => {
                if self.value(from) == 0 {
                    self.move_on();
                } else {
                    self.line = target;
                }
            }
            Instruction::Send(..)
            | Instruction::Recv(..)
            | Instruction::Close(..)
            | Instruction::Yield
            | Instruction::Exit => {}
        }
    }

    /// Moves the thread past the `send` or `sendm` of its line, once the call has returned. At
    /// another instruction nothing changes. Allocates no memory.
    #[inline(always)]
    pub fn after_send(&mut self, program: &Program)
        ensures { self.new ≡ after_send (next_of program.now self.old) self.old }
    {
        if let Instruction::Send(..) = program.instruction(self.line) {
            self.move_on();
        }
    }

    /// Moves the thread past the `recv` or `recvm` of its line, once the call has returned with
    /// `message`. `recv` writes the first word to its register. `recvm` writes all words to the
    /// registers from the first on, and 0 to the registers after them. At another instruction
    /// nothing changes. Allocates no memory.
    #[inline(always)]
    pub fn after_recv(&mut self, program: &Program, message: Msg)
        ensures { self.new ≡ after_recv (next_of program.now self.old) message self.old }
    {
        if let Instruction::Recv(_, into, _) = program.instruction(self.line) {
            match into {
                Target::One(register) => self.put(register, message.first()),
                Target::All => self.put_all(message),
            }
        }
    }

    /// Moves the thread past the `close` of its line, once the call has returned. At another
    /// instruction nothing changes. Allocates no memory.
    #[inline(always)]
    pub fn after_close(&mut self, program: &Program)
        ensures { self.new ≡ after_close (next_of program.now self.old) self.old }
    {
        if let Instruction::Close(..) = program.instruction(self.line) {
            self.move_on();
        }
    }

    /// Moves the thread from the send or receive of its line to the call's target, or to the
    /// following line if it has none. The call has returned and found its buffer closed. The
    /// registers are unchanged. At another instruction nothing changes. Allocates no memory.
    #[inline(always)]
    pub fn after_closed(&mut self, program: &Program)
        ensures { self.new ≡ after_closed (next_of program.now self.old) self.old }
    {
        let instruction = program.instruction(self.line);
        if let Instruction::Send(.., target) | Instruction::Recv(.., target) = instruction {
            self.move_aside(target);
        }
    }

    /// Moves the thread past the `yield` of its line. At another instruction nothing changes.
    /// Allocates no memory.
    #[inline(always)]
    pub fn after_yield(&mut self, program: &Program)
        ensures { self.new ≡ after_yield (next_of program.now self.old) self.old }
    {
        if let Instruction::Yield = program.instruction(self.line) {
            self.move_on();
        }
    }

    /// Writes a number to a register and moves to the following line.
    #[inline(always)]
    fn put(&mut self, register: Register, number: u64)
        requires { self.old.line < 256 }
        ensures { self.new ≡ moved_with self.old register number }
    {
        let index = register.number();
        self.registers[index] = number;
        self.line += 1;
    }

    /// Writes a message's words to the first registers and 0 to the others, and moves to the
    /// following line.
    fn put_all(&mut self, message: Msg)
        requires { self.old.line < 256 }
        ensures { self.new ≡ moved_into self.old All message }
    {
        let count = message.len();
        self.registers = [0; REGISTERS];
        self.registers[..count].copy_from_slice(message.words());
        self.line += 1;
    }

    /// Moves to the target, or to the following line if there is none.
    #[inline(always)]
    fn move_aside(&mut self, target: Option<usize>)
        requires { self.old.line < 256 }
        ensures { self.new ≡ moved_aside self.old target }
    {
        match target {
            Some(line) => self.line = line,
            None => self.move_on(),
        }
    }

    /// Moves to the following line.
    #[inline(always)]
    fn move_on(&mut self)
        requires { self.old.line < 256 }
        ensures { self.new ≡ moved_on self.old }
    {
        self.line += 1;
    }
}
