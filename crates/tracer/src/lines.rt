//! The lines of a trace text, read from their pieces. No call takes memory or waits.

ghost use Rattle.std.specs.Prelude.{◌≡◌, ◌≤◌, ◌<◌, IfOk, codes};
ghost use Rattle.{event_log.specs.declared.ids.TheConstants.ENTRIES, tracer.specs.Judging.{GivesOrReason, kind_in, has_message, value_in, is_of_version}};
ghost use Rattle.tracer.specs.{Judging.{entry_digits, entry_in, capacity_digits, left_digits, count_digits}, Lines.{left_of, digits_of}};

use crate::numerals::Numeral;
use crate::pieces::{Pieces, digits, ended, is_value, numeral, piece, word};
use crate::verdicts::Reason;
use crate::versions::Version;
use crate::words::{are_messages, message_in, spells_message};
use event_log::{BUFFERS, BufId, CPUS, CpuId, ENTRIES, Entry, Kind, Msg, THREADS, Tid};

/// The digits of an entry, of any size, and the piece of its message.
#[derive(Clone, Copy)]
pub struct EntryDigits<'a> {
    pub cpu: Numeral<'a>,
    pub thread: Numeral<'a>,
    pub kind: Kind,
    pub buffer: Numeral<'a>,
    pub value: Numeral<'a>,
    pub op: Numeral<'a>,
    pub pos: Numeral<'a>,
}

/// The kind that a word names.
fn kind_in(word: &[u8]) -> Result<Kind, Reason>
    ensures { result ≡ kind_in word.now }
{
    if word == b"send".as_slice() {
        return Ok(Kind::Send);
    }
    if word == b"recv".as_slice() {
        return Ok(Kind::Recv);
    }
    if word == b"close".as_slice() {
        return Ok(Kind::Close);
    }
    if word == b"sendc".as_slice() {
        return Ok(Kind::SendClosed);
    }
    if word == b"recvc".as_slice() {
        return Ok(Kind::RecvClosed);
    }
    Err(Reason::Spelling)
}

/// Whether effects of this kind have a message.
fn has_message(kind: Kind) -> bool
    ensures { result ≡ has_message kind }
{
    match kind {
        Kind::Send | Kind::Recv | Kind::SendClosed => true,
        Kind::Close | Kind::RecvClosed => false,
    }
}

/// Whether a text of this version may have such an entry, and its message is spelled as its kind
/// wants: a dash where there is none.
pub fn is_of_version(version: Version, digits: EntryDigits<'_>) -> bool
    ensures { result ≡ is_of_version version (digits_of digits.entry) }
{
    if !version.covers(Version::of_kind(digits.kind)) {
        return false;
    }
    if has_message(digits.kind) {
        spells_message(version, digits.value)
    } else {
        digits.value.text == b"-".as_slice()
    }
}

/// The message that the piece spells, none where effects of this kind have none.
fn value_in(kind: Kind, piece: Numeral<'_>) -> Result<Msg, Reason>
    ensures { result ≡ value_in kind piece.entry.text.now }
{
    if has_message(kind) {
        message_in(piece)
    } else {
        Ok(Msg::none())
    }
}

/// The digits of the entry that the pieces after its first word spell.
///
/// Errors: `Spelling` if a piece is missing or left over, is no number where one is wanted, or
/// names no kind.
#[tactic(auto, unfolding(crate::specs::Judging::entry_digits))]
#[inline]
pub fn entry_digits(pieces: Pieces<'_>) -> Result<EntryDigits<'_>, Reason>
    ensures { GivesOrReason digits_of result (entry_digits (left_of pieces.entry)) }
{
    let (cpu, rest) = digits(pieces)?;
    let (thread, rest) = digits(rest)?;
    let (word, rest) = piece(rest)?;
    let kind = kind_in(word)?;
    let (buffer, rest) = digits(rest)?;
    let (value, rest) = numeral(rest)?;
    let (op, rest) = digits(rest)?;
    let (pos, rest) = digits(rest)?;
    ended(rest)?;
    Ok(EntryDigits {
        cpu,
        thread,
        kind,
        buffer,
        value,
        op,
        pos,
    })
}

/// The entry of these digits.
///
/// Errors: `Range` if a piece spells no number in its range, or a message of too many words.
#[tactic(auto, unfolding(crate::specs::Judging::entry_in))]
#[inline]
pub fn entry_in(digits: EntryDigits<'_>) -> Result<Entry, Reason>
    ensures exact { result ≡ entry_in (digits_of digits.entry) }
    ensures op { IfOk result (λ e. e.op < ENTRIES) }
    ensures pos { IfOk result (λ e. e.pos < ENTRIES) }
{
    let cpu = digits.cpu.up_to(CPUS as u64 - 1)?;
    let thread = digits.thread.up_to(THREADS as u64 - 1)?;
    let buffer = digits.buffer.up_to(BUFFERS as u64 - 1)?;
    let value = value_in(digits.kind, digits.value)?;
    let op = digits.op.up_to(ENTRIES as u64 - 1)?;
    let pos = digits.pos.up_to(ENTRIES as u64 - 1)?;
    Ok(Entry {
        cpu: CpuId(cpu as u8),
        thread: Tid(thread as u8),
        kind: digits.kind,
        buffer: BufId(buffer as u8),
        value,
        op,
        pos,
    })
}

/// The digits of the number of buffers.
///
/// Errors: `Spelling` if the pieces are not the word `buffers` and one number.
#[tactic(auto, unfolding(crate::specs::Judging::count_digits))]
pub fn count_digits(pieces: Pieces<'_>) -> Result<Numeral<'_>, Reason>
    ensures { GivesOrReason (λ x. x.text.now) result (count_digits (left_of pieces.entry)) }
{
    let rest = word(b"buffers", pieces)?;
    let (count, rest) = digits(rest)?;
    ended(rest)?;
    Ok(count)
}

/// The digits of the capacity of buffer `b`.
///
/// Errors: `Spelling` if the pieces are not the word `cap`, the number `b` and one number.
#[tactic(auto, unfolding(crate::specs::Judging::capacity_digits))]
pub fn capacity_digits(b: u64, pieces: Pieces<'_>) -> Result<Numeral<'_>, Reason>
    ensures { GivesOrReason (λ x. x.text.now) result (capacity_digits b (left_of pieces.entry)) }
{
    let rest = word(b"cap", pieces)?;
    let (number, rest) = piece(rest)?;
    if !is_value(number, b) {
        return Err(Reason::Spelling);
    }
    let (capacity, rest) = digits(rest)?;
    ended(rest)?;
    Ok(capacity)
}

/// The pieces of the items of buffer `b`, in a text of this version.
///
/// Errors: `Spelling` if the first pieces are not the word `left` and the number `b`, or a later
/// one is no message as a text of this version spells it.
#[tactic(auto, unfolding(crate::specs::Judging::left_digits))]
pub fn left_digits(version: Version, b: u64, pieces: Pieces<'_>) -> Result<Pieces<'_>, Reason>
    ensures { GivesOrReason left_of result (left_digits version b (left_of pieces.entry)) }
{
    let rest = word(b"left", pieces)?;
    let (number, rest) = piece(rest)?;
    if !is_value(number, b) {
        return Err(Reason::Spelling);
    }
    if !are_messages(version, rest) {
        return Err(Reason::Spelling);
    }
    Ok(rest)
}
