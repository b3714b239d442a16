//! Reads the lines of a program. One line is one instruction; its pieces are separated by one space
//! each. `instructions_in` allocates memory. No call waits.

ghost use Rattle.std.specs.Prelude.{◌≡◌, ◌<◌, ◌≤◌, ◌^◌, ℕ, List, Ok, map, length, All, IfOk};
ghost use Rattle.{event_log.specs.{declared.ids.TheConstants.BUFFERS, Reading.read_from}, guest.specs.Instructions.{IsSource, IsWithin}};
ghost use Rattle.guest.specs.{declared.instructions.Source.TheVariants.First, Language.{register_in, word_in, buffer_in, words_in, target_in, one_piece}};
ghost use Rattle.guest.specs.Language.{two_pieces, three_pieces, four_pieces, pieces_in, line_in, at_line, program_lines, GivesOrFaults};

use crate::instructions::{Instruction, REGISTERS, Register, Source, Target};
use crate::refusals::{GuestError, GuestFault};
use event_log::{BUFFERS, BufId};
use std::alloc::Global;

/// Returns the register that a piece names.
#[tactic(auto, unfolding(crate::specs::Language::register_in))]
fn register(piece: &str) -> Result<Register, GuestFault>
    ensures { result ≡ register_in piece.now }
{
    match piece {
        "r0" => Ok(Register::Reg0),
        "r1" => Ok(Register::Reg1),
        "r2" => Ok(Register::Reg2),
        "r3" => Ok(Register::Reg3),
        "r4" => Ok(Register::Reg4),
        "r5" => Ok(Register::Reg5),
        "r6" => Ok(Register::Reg6),
        "r7" => Ok(Register::Reg7),
        _ => Err(GuestFault::BadRegister),
    }
}

/// Returns the number that a piece spells, from 0 to 2^64 - 1.
#[tactic(auto, unfolding(crate::specs::Language::word_in))]
fn word(piece: &str) -> Result<u64, GuestFault>
    ensures { result ≡ word_in piece.now }
{
    event_log::number_to(piece.as_bytes(), u64::MAX).ok_or(GuestFault::BadNumber)
}

/// Returns the buffer that a piece spells, from 0 to `BUFFERS - 1`.
#[tactic(auto, unfolding(crate::specs::Language::buffer_in))]
fn buffer(piece: &str) -> Result<BufId, GuestFault>
    ensures buffer { result ≡ buffer_in piece.now }
    ensures within { IfOk result (λ buffer. buffer.0 < BUFFERS) }
{
    match event_log::number_to(piece.as_bytes(), BUFFERS as u64 - 1) {
        Some(number) => Ok(BufId(number as u8)),
        None => Err(GuestFault::BadNumber),
    }
}

/// Returns how many words a message has, as a piece spells it, from 1 to `REGISTERS`.
#[tactic(auto, unfolding(crate::specs::Language::words_in))]
fn words(piece: &str) -> Result<usize, GuestFault>
    ensures words { result ≡ words_in piece.now }
    ensures within { IfOk result (λ count. IsSource (First count)) }
{
    match event_log::number_to(piece.as_bytes(), REGISTERS as u64) {
        Some(0) | None => Err(GuestFault::BadNumber),
        Some(count) => Ok(count as usize),
    }
}

/// Returns the line that a piece spells, of a program of `count` lines.
#[tactic(auto, unfolding(crate::specs::Language::target_in))]
fn target(piece: &str, count: usize) -> Result<usize, GuestFault>
    requires { 0 < count }
    ensures target { result ≡ target_in count piece.now }
    ensures within { IfOk result (λ line. line < count) }
{
    if !event_log::is_number(piece.as_bytes()) {
        return Err(GuestFault::BadNumber);
    }
    match event_log::number_to(piece.as_bytes(), count as u64 - 1) {
        Some(line) => Ok(line as usize),
        None => Err(GuestFault::BadTarget),
    }
}

/// Returns the instruction of three pieces.
#[tactic(auto, unfolding(crate::specs::Language::three_pieces))]
fn three_pieces(
    word: &str,
    first: &str,
    second: &str,
    count: usize,
) -> Result<Instruction, GuestFault>
    requires { 0 < count }
    ensures instruction { result ≡ three_pieces count word.now first.now second.now }
    ensures within { IfOk result (IsWithin count) }
{
    match word {
        "set" => Ok(Instruction::Set(register(first)?, self::word(second)?)),
        "add" => Ok(Instruction::Add(register(first)?, register(second)?)),
        "sub" => Ok(Instruction::Sub(register(first)?, register(second)?)),
        "jnz" => Ok(Instruction::Jnz(register(first)?, target(second, count)?)),
        "send" => Ok(Instruction::Send(buffer(first)?, Source::One(register(second)?), None)),
        "recv" => Ok(Instruction::Recv(buffer(first)?, Target::One(register(second)?), None)),
        "sendm" => Ok(Instruction::Send(buffer(first)?, Source::First(words(second)?), None)),
        "recvm" => Ok(Instruction::Recv(buffer(first)?, Target::All, Some(target(second, count)?))),
        _ => Err(GuestFault::UnknownWord),
    }
}

/// Returns the instruction of four pieces.
#[tactic(auto, unfolding(crate::specs::Language::four_pieces))]
fn four_pieces(
    word: &str,
    first: &str,
    second: &str,
    third: &str,
    count: usize,
) -> Result<Instruction, GuestFault>
    requires { 0 < count }
    ensures instruction { result ≡ four_pieces count word.now first.now second.now third.now }
    ensures within { IfOk result (IsWithin count) }
{
    match word {
        "send" => Ok(Instruction::Send(
            buffer(first)?,
            Source::One(register(second)?),
            Some(target(third, count)?),
        )),
        "recv" => Ok(Instruction::Recv(
            buffer(first)?,
            Target::One(register(second)?),
            Some(target(third, count)?),
        )),
        "sendm" => Ok(Instruction::Send(
            buffer(first)?,
            Source::First(words(second)?),
            Some(target(third, count)?),
        )),
        _ => Err(GuestFault::UnknownWord),
    }
}

/// Returns the instruction of two pieces.
#[tactic(auto, unfolding(crate::specs::Language::two_pieces))]
fn two_pieces(word: &str, first: &str) -> Result<Instruction, GuestFault>
    ensures instruction { result ≡ two_pieces word.now first.now }
    ensures within { IfOk result (IsWithin 0) }
{
    match word {
        "close" => Ok(Instruction::Close(buffer(first)?)),
        "recvm" => Ok(Instruction::Recv(buffer(first)?, Target::All, None)),
        _ => Err(GuestFault::UnknownWord),
    }
}

/// Returns the instruction of one piece.
#[tactic(auto, unfolding(crate::specs::Language::one_piece))]
fn one_piece(word: &str) -> Result<Instruction, GuestFault>
    ensures instruction { result ≡ one_piece word.now }
    ensures within { IfOk result (IsWithin 0) }
{
    match word {
        "yield" => Ok(Instruction::Yield),
        "exit" => Ok(Instruction::Exit),
        _ => Err(GuestFault::UnknownWord),
    }
}

/// Returns the instruction of a line's pieces.
fn pieces(pieces: &[&str], count: usize) -> Result<Instruction, GuestFault>
    requires { 0 < count }
    ensures instruction { result ≡ pieces_in count (map (λ piece. piece.now) pieces.now) }
    ensures within { IfOk result (IsWithin count) }
{
    match pieces {
        [word] => one_piece(word),
        [word, first] => two_pieces(word, first),
        [word, first, second] => three_pieces(word, first, second, count),
        [word, first, second, third] => four_pieces(word, first, second, third, count),
        _ => Err(GuestFault::UnknownWord),
    }
}

/// Returns the instruction of a line of a program of `count` lines.
#[tactic(auto, unfolding(crate::specs::Language::line_in))]
fn line_at(alloc: Global, text: &str, count: usize, line: usize) -> Result<Instruction, GuestError>
    requires { 0 < count }
    ensures instruction { GivesOrFaults (λ i. i) result (at_line line (line_in count text.now)) }
    ensures within { IfOk result (IsWithin count) }
{
    let parts = text.split(' ').collect::<Vec<&str>>(alloc)?;
    match pieces(&parts, count) {
        Ok(instruction) => Ok(instruction),
        Err(fault) => Err(GuestError::At(line, fault)),
    }
}

/// Returns the instructions of a program's lines.
///
/// Requires: there is at least one line.
///
/// Errors: `At` with the first line that has a fault, counted from 0, and its first fault.
/// `NoMemory` if an allocation failed. Then nothing was made.
pub fn instructions_in(alloc: Global, lines: &[&str]) -> Result<Vec<Instruction>, GuestError>
    requires { 0 < length lines.now }
    ensures instructions { GivesOrFaults (λ read. read.items) result
        (program_lines (map (λ line. line.now) lines.now)) }
    ensures len { IfOk result (λ read. length read.items ≡ length lines.now) }
    ensures within { IfOk result (λ read. All (IsWithin (length lines.now)) read.items) }
{
    let mut instructions = Vec::new(alloc);
    for (index, line) in lines.iter().enumerate() {
        let instruction = line_at(alloc, line, lines.len(), index)?;
        instructions.push(instruction)?;
    }
    Ok(instructions)
}
