//! The text of a trace, written to a sink. No call takes memory or waits, unless the sink's writer
//! does.

ghost use Rattle.std.specs.Prelude.{◌≡◌, ◌+◌, ◌*◌, ◌<◌, ◌≤◌, ◌++◌, ◌∷◌, [], length, map, drop, is_err, false, decimal, flat_map, codes};
ghost use Rattle.{event_log.specs.declared.messages.TheConstants.WORDS, tracer.specs.{declared.writing.TheConstants.LINE, Sinks.{WentOut, has_failed}}};
ghost use Rattle.tracer.specs.{Pieces.{text_of, spaced, behind_comma}, TraceText.{IsSpellable, spelling, text_line, head_pieces, entry_pieces, cap_pieces}};
ghost use Rattle.tracer.specs.{Gather.entries_in, TraceText.{left_pieces, numbered, kind_word, value_piece, message_text}};

use crate::sinks::{Sink, WriteFault};
use crate::versions::{Version, version_of};
use arrayvec::ArrayVec;
use event_log::{CAPACITY, Entry, Kind, Msg};
use itoa::{Buffer, write_digits};
use std::io::Write;

/// A piece of a line after its first word.
#[derive(Clone, Copy)]
enum Piece {
    Word(&'static [u8]),
    Number(u64),
}

/// Writes a number, after the bytes before it.
fn put_number<W: Write>(sink: &mut Sink<W>, before: &[u8], number: u64) -> Result<(), WriteFault>
    requires { has_failed sink.old ≡ false }
    ensures failed { is_err result ≡ has_failed sink.new }
    ensures out { WentOut W.contents sink.old sink.new (before.now ++ decimal number) }
{
    sink.put(before)?;
    sink.put(Buffer::new().format(number).as_bytes())
}

/// Writes a comma and a word, for each word.
fn put_words<W: Write>(sink: &mut Sink<W>, words: &[u64]) -> Result<(), WriteFault>
    requires { has_failed sink.old ≡ false }
    ensures failed { is_err result ≡ has_failed sink.new }
    ensures out { WentOut W.contents sink.old sink.new (flat_map behind_comma words.now) }
{
    for word in words {
        put_number(sink, b",", *word)?;
    }
    Ok(())
}

/// Writes a space and a message.
fn put_message<W: Write>(sink: &mut Sink<W>, message: &Msg) -> Result<(), WriteFault>
    requires { has_failed sink.old ≡ false }
    ensures failed { is_err result ≡ has_failed sink.new }
    ensures out { WentOut W.contents sink.old sink.new (spaced (message_text message.now)) }
{
    let count = message.len();
    put_number(sink, b" ", message.first())?;
    put_words(sink, &message.words()[1..count])
}

/// Writes a space and a piece.
fn put_piece<W: Write>(sink: &mut Sink<W>, piece: Piece) -> Result<(), WriteFault>
    requires { has_failed sink.old ≡ false }
    ensures failed { is_err result ≡ has_failed sink.new }
    ensures out { WentOut W.contents sink.old sink.new (spaced (text_of piece)) }
{
    match piece {
        Piece::Number(number) => put_number(sink, b" ", number),
        Piece::Word(word) => {
            sink.put(b" ")?;
            sink.put(word)
        }
    }
}

/// Writes a space and a piece, for each piece.
fn put_pieces<W: Write>(sink: &mut Sink<W>, pieces: &[Piece]) -> Result<(), WriteFault>
    requires { has_failed sink.old ≡ false }
    ensures failed { is_err result ≡ has_failed sink.new }
    ensures out { WentOut W.contents sink.old sink.new
        (flat_map (λ p. spaced (text_of p)) pieces.now) }
{
    for piece in pieces {
        put_piece(sink, *piece)?;
    }
    Ok(())
}

/// Writes a space and a message, for each message.
fn put_messages<W: Write>(sink: &mut Sink<W>, messages: &[Msg]) -> Result<(), WriteFault>
    requires { has_failed sink.old ≡ false }
    ensures failed { is_err result ≡ has_failed sink.new }
    ensures out { WentOut W.contents sink.old sink.new
        (flat_map (λ m. spaced (message_text m)) messages.now) }
{
    for message in messages {
        put_message(sink, message)?;
    }
    Ok(())
}

/// Writes a line: its first word, the pieces and the messages after it, and a line feed.
fn put_line<W: Write>(
    sink: &mut Sink<W>,
    word: &[u8],
    pieces: &[Piece],
    messages: &[Msg],
) -> Result<(), WriteFault>
    requires { has_failed sink.old ≡ false }
    ensures failed { is_err result ≡ has_failed sink.new }
    ensures out { WentOut W.contents sink.old sink.new
        (text_line (word.now ∷ (map text_of pieces.now ++ map message_text messages.now))) }
{
    sink.put(word)?;
    put_pieces(sink, pieces)?;
    put_messages(sink, messages)?;
    sink.put(b"\n")
}

/// Writes the head line.
fn put_head<W: Write>(sink: &mut Sink<W>, version: Version) -> Result<(), WriteFault>
    requires { has_failed sink.old ≡ false }
    ensures failed { is_err result ≡ has_failed sink.new }
    ensures out { WentOut W.contents sink.old sink.new (text_line (head_pieces version)) }
{
    put_line(sink, b"mctower-trace", &[Piece::Word(version.word())], &[])
}

/// Writes the capacity lines.
fn put_caps<W: Write>(sink: &mut Sink<W>, caps: &[u8]) -> Result<(), WriteFault>
    requires { has_failed sink.old ≡ false }
    ensures failed { is_err result ≡ has_failed sink.new }
    ensures out { WentOut W.contents sink.old sink.new
        (flat_map text_line (numbered cap_pieces 0 caps.now)) }
{
    for (b, capacity) in caps.iter().enumerate() {
        let pieces = [Piece::Number(b as u64), Piece::Number(u64::from(*capacity))];
        put_line(sink, b"cap", &pieces, &[])?;
    }
    Ok(())
}

/// Returns the word of a kind.
fn word_of(kind: Kind) -> &'static [u8]
    ensures { result.now ≡ kind_word kind }
{
    match kind {
        Kind::Send => b"send",
        Kind::Recv => b"recv",
        Kind::Close => b"close",
        Kind::SendClosed => b"sendc",
        Kind::RecvClosed => b"recvc",
    }
}

/// How many bytes the line of an entry is made in; the longest has 230.
const LINE: usize = 288;

/// Puts a byte and a number before the bytes from `end` on, and returns where they start.
fn add_number(line: &mut [u8; LINE], end: usize, before: u8, number: u64) -> usize
    requires room { 21 ≤ end }
    requires within { end ≤ LINE }
    ensures room { end ≤ result + 21 }
    ensures within { result ≤ LINE }
    ensures line { drop result line.new ≡ before ∷ (decimal number ++ drop end line.old) }
{
    let at = write_digits(number, line, end) - 1;
    line[at] = before;
    at
}

/// Puts a space and a word before the bytes from `end` on, and returns where they start.
fn add_word(line: &mut [u8; LINE], end: usize, word: &[u8]) -> usize
    requires room { length word.now + 1 ≤ end }
    requires within { end ≤ LINE }
    ensures room { end ≡ result + (length word.now + 1) }
    ensures line { drop result line.new ≡ spaced word.now ++ drop end line.old }
{
    let at = end - word.len();
    line[at..end].copy_from_slice(word);
    line[at - 1] = b' ';
    at - 1
}

/// Puts words, each after a comma, before the bytes from `end` on, and returns where they start.
fn add_words(line: &mut [u8; LINE], end: usize, words: &[u64]) -> usize
    requires few { length words.now < WORDS }
    requires room { 21 * length words.now ≤ end }
    requires within { end ≤ LINE }
    ensures room { end ≤ result + 21 * length words.now }
    ensures within { result ≤ LINE }
    ensures line { drop result line.new ≡ flat_map behind_comma words.now ++ drop end line.old }
{
    let mut at = end;
    let mut left = words.len();
    while left > 0 {
        left -= 1;
        at = add_number(line, at, b',', words[left]);
    }
    at
}

/// Puts a space and a message before the bytes from `end` on, and returns where they start.
fn add_message(line: &mut [u8; LINE], end: usize, message: &Msg) -> usize
    requires room { 168 ≤ end }
    requires within { end ≤ LINE }
    ensures room { end ≤ result + 168 }
    ensures within { result ≤ LINE }
    ensures line { drop result line.new ≡ spaced (message_text message.now) ++ drop end line.old }
{
    let count = message.len();
    let at = add_words(line, end, &message.words()[1..count]);
    add_number(line, at, b' ', message.first())
}

/// Puts a space and the message of an effect of this kind, or a dash if it has none, before the
/// bytes from `end` on. Returns where they start.
fn add_value(line: &mut [u8; LINE], end: usize, kind: Kind, value: &Msg) -> usize
    requires room { 168 ≤ end }
    requires within { end ≤ LINE }
    ensures room { end ≤ result + 168 }
    ensures within { result ≤ LINE }
    ensures line { drop result line.new ≡ spaced (value_piece kind value.now) ++ drop end line.old }
{
    match kind {
        Kind::Send | Kind::Recv | Kind::SendClosed => add_message(line, end, value),
        Kind::Close | Kind::RecvClosed => add_word(line, end, b"-"),
    }
}

/// Makes the line of an entry at the end of `line`, and returns where it starts.
fn add_entry(line: &mut [u8; LINE], entry: &Entry) -> usize
    ensures within { result ≤ LINE }
    ensures line { drop result line.new ≡ text_line (entry_pieces entry.now) }
{
    line[LINE - 1] = b'\n';
    let pos = add_number(line, LINE - 1, b' ', entry.pos);
    let op = add_number(line, pos, b' ', entry.op);
    let value = add_value(line, op, entry.kind, &entry.value);
    let buffer = add_number(line, value, b' ', u64::from(entry.buffer.0));
    let kind = add_word(line, buffer, word_of(entry.kind));
    let thread = add_number(line, kind, b' ', u64::from(entry.thread.0));
    let cpu = add_number(line, thread, b' ', u64::from(entry.cpu.0));
    line[cpu - 1] = b'e';
    cpu - 1
}

/// Writes the line of an entry.
fn put_entry<W: Write>(sink: &mut Sink<W>, entry: &Entry) -> Result<(), WriteFault>
    requires { has_failed sink.old ≡ false }
    ensures failed { is_err result ≡ has_failed sink.new }
    ensures out { WentOut W.contents sink.old sink.new (text_line (entry_pieces entry.now)) }
{
    let mut line = [0; LINE];
    let start = add_entry(&mut line, entry);
    sink.put(&line[start..])
}

/// Writes the lines of the entries.
fn put_entries<W: Write>(sink: &mut Sink<W>, entries: &[&Entry]) -> Result<(), WriteFault>
    requires { has_failed sink.old ≡ false }
    ensures failed { is_err result ≡ has_failed sink.new }
    ensures out { WentOut W.contents sink.old sink.new
        (flat_map (λ e. text_line (entry_pieces e.now)) entries.now) }
{
    for entry in entries {
        put_entry(sink, *entry)?;
    }
    Ok(())
}

/// Writes the lines of what is left.
fn put_left<W: Write>(
    sink: &mut Sink<W>,
    left: &[ArrayVec<Msg, CAPACITY>],
) -> Result<(), WriteFault>
    requires { has_failed sink.old ≡ false }
    ensures failed { is_err result ≡ has_failed sink.new }
    ensures out { WentOut W.contents sink.old sink.new
        (flat_map text_line (numbered (λ b v. left_pieces b v.items) 0 left.now)) }
{
    for (b, items) in left.iter().enumerate() {
        put_line(sink, b"left", &[Piece::Number(b as u64)], items)?;
    }
    Ok(())
}

/// Writes the text of a trace: the capacities, the entries in their order, and what is left in each
/// buffer, front first. The text is of the lowest version that can spell the entries. It uses as
/// many writes as the writer needs, and takes no memory.
///
/// Requires: the sink has not failed. There are 1 to `BUFFERS` buffers, each of capacity 1 to
/// `CAPACITY`. There are at most `ENTRIES` entries, and their numbers are in range. An entry whose
/// effect has no message has the message 0. `left` has a list for each buffer. A message in it has
/// several words only if one of an entry has.
///
/// Errors: `WriteFault` exactly if the sink failed in this call; then a prefix of the text is out.
pub fn write_trace<W: Write>(
    sink: &mut Sink<W>,
    caps: &[u8],
    entries: &[&Entry],
    left: &[ArrayVec<Msg, CAPACITY>],
) -> Result<(), WriteFault>
    requires live { has_failed sink.old ≡ false }
    requires spellable { IsSpellable caps.now (entries_in entries.now)
        (map (λ v. v.items) left.now) }
    ensures failed { is_err result ≡ has_failed sink.new }
    ensures out { WentOut W.contents sink.old sink.new
        (spelling caps.now (entries_in entries.now) (map (λ v. v.items) left.now)) }
{
    put_head(sink, version_of(entries))?;
    put_line(sink, b"buffers", &[Piece::Number(caps.len() as u64)], &[])?;
    put_caps(sink, caps)?;
    put_entries(sink, entries)?;
    put_left(sink, left)?;
    put_line(sink, b"end", &[], &[])
}
