//! Messages, spelled as their words with commas between them. No call takes memory or waits.

ghost use Rattle.std.specs.{Prelude.{◌≡◌, length}, List.list_all};
ghost use Rattle.{event_log.specs.Digits.is_number, tracer.specs.Judging.{comma_parts, spells_message, message_in, is_within, is_message, are_values}};
ghost use Rattle.tracer.specs.Lines.{left_of};

use crate::numerals::Numeral;
use crate::pieces::{Pieces, cut, in_range, piece};
use crate::verdicts::Reason;
use crate::versions::Version;
use arrayvec::ArrayVec;
use event_log::{Msg, WORDS, is_number};

/// How many words a piece has: one more than commas.
fn word_count(piece: &[u8]) -> usize
    ensures { result ≡ length (comma_parts piece.now) }
{
    let mut count = 1;
    let mut rest = piece;
    while let Some((_, after)) = cut(rest, b',') {
        count += 1;
        rest = after;
    }
    count
}

/// Whether each word of a piece is a number.
fn are_numbers(piece: &[u8]) -> bool
    ensures { result ≡ list_all is_number (comma_parts piece.now) }
{
    let mut rest = piece;
    while let Some((front, after)) = cut(rest, b',') {
        if !is_number(front) {
            return false;
        }
        rest = after;
    }
    is_number(rest)
}

/// Whether a piece spells a message, of any size, as a text of this version may.
pub fn spells_message(version: Version, piece: Numeral<'_>) -> bool
    ensures { result ≡ spells_message version piece.entry.text.now }
{
    // The piece most often is one word, and then no comma is searched for.
    if piece.is_number() {
        return true;
    }
    match cut(piece.text, b',') {
        Some((_, _)) => version.covers(Version::Three) && are_numbers(piece.text),
        None => false,
    }
}

/// The message that a piece of any number of words spells.
///
/// Errors: `Range` where it has more words than a message has, or a word has more than 64 bits.
fn words_in(piece: &[u8]) -> Result<Msg, Reason>
    ensures { result ≡ message_in piece.now }
{
    if word_count(piece) > WORDS {
        return Err(Reason::Range);
    }
    let mut words: ArrayVec<u64, WORDS> = ArrayVec::new();
    let mut rest = piece;
    while let Some((front, after)) = cut(rest, b',') {
        words.push(in_range(u64::MAX, front)?);
        rest = after;
    }
    words.push(in_range(u64::MAX, rest)?);
    Ok(Msg::new(&words))
}

/// The message that a piece spells, most often one of one word.
///
/// Errors: `Range` where it has more words than a message has, or a word has more than 64 bits.
pub fn message_in(piece: Numeral<'_>) -> Result<Msg, Reason>
    ensures { result ≡ message_in piece.entry.text.now }
{
    match piece.number() {
        Some(word) => Ok(Msg::one(word)),
        None => words_in(piece.text),
    }
}

/// Whether a piece spells this message.
fn is_message(piece: &[u8], message: &Msg) -> bool
    ensures { result ≡ is_message piece.now message.now }
{
    match message_in(Numeral::of(piece)) {
        Ok(read) => read == *message,
        Err(_) => false,
    }
}

/// Whether each piece spells a message, of any size, as a text of this version may.
pub fn are_messages(version: Version, mut pieces: Pieces<'_>) -> bool
    ensures { result ≡ list_all (spells_message version) (left_of pieces.entry) }
{
    while let Ok((front, rest)) = piece(pieces) {
        if !spells_message(version, Numeral::of(front)) {
            return false;
        }
        pieces = rest;
    }
    true
}

/// Whether each piece spells a message whose words are in range.
pub fn are_within(mut pieces: Pieces<'_>) -> bool
    ensures { result ≡ list_all is_within (left_of pieces.entry) }
{
    while let Ok((front, rest)) = piece(pieces) {
        if message_in(Numeral::of(front)).is_err() {
            return false;
        }
        pieces = rest;
    }
    true
}

/// Whether the pieces spell these messages.
pub fn are_values(mut pieces: Pieces<'_>, messages: &[Msg]) -> bool
    ensures { result ≡ are_values (left_of pieces.entry) messages.now }
{
    for message in messages {
        let Ok((front, rest)) = piece(pieces) else {
            return false;
        };
        if !is_message(front, message) {
            return false;
        }
        pieces = rest;
    }
    pieces.rest.is_none()
}
