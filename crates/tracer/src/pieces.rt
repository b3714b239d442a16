//! A text cut at a byte, and the pieces of a line. No call takes memory or waits.

ghost use Rattle.std.specs.{Prelude.{◌≡◌, ◌+◌, ◌<◌, ◌≤◌, ◌==◌, ◌∷◌, [], ℕ, false, length, get_or, IfNone, IfSome, IfOk}, List.{list_any, slice_split}};
ghost use Rattle.tracer.specs.{Judging.{GivesOrReason, piece_at, expected_word, digits_at, ended, in_range, is_value, line_pieces}, Lines.IsFirstLine};
ghost use Rattle.tracer.specs.Lines.{left_of};

use crate::numerals::Numeral;
use crate::verdicts::Reason;
use event_log::{leading_digits, number_to};

/// What stands before the first byte `at` of the text, and what stands after it.
#[inline(always)]
pub fn cut(text: &[u8], at: u8) -> Option<(&[u8], &[u8])>
    ensures none { IfNone result (slice_split (λ b. b == at) text.now ≡ text.now ∷ []) }
    ensures some { IfSome result
        (λ p. slice_split (λ b. b == at) text.now ≡ p.0.now ∷ slice_split (λ b. b == at) p.1.now) }
    ensures shorter { IfSome result (λ p. length p.0.now + 1 + length p.1.now ≡ length text.now) }
{
    for (i, byte) in text.iter().enumerate() {
        if *byte == at {
            return Some((&text[..i], &text[i + 1..]));
        }
    }
    None
}

/// How many bytes are compared at a time where a line's end is looked for.
const CHUNK: usize = 16;

// Whether the chunk holds the byte. Nothing leaves the loop early, so all bytes are compared at
// once.
#[inline(always)]
fn holds(chunk: &[u8; CHUNK], at: u8) -> bool
    ensures { result ≡ list_any (λ b. b == at) chunk.now }
{
    let mut found = false;
    for byte in chunk {
        found |= *byte == at;
    }
    found
}

// Where the first chunk starts that holds the byte, or else the end of the last chunk.
#[inline(always)]
fn chunk_with(text: &[u8], at: u8) -> usize
    ensures inside { result ≤ length text.now }
    ensures before { (k : ℕ) → k < result → (get_or text.now k 0 == at) ≡ false }
{
    let mut start = 0;
    while let Some(chunk) = text[start..].first_chunk::<CHUNK>() {
        if holds(chunk, at) {
            return start;
        }
        start += CHUNK;
    }
    start
}

/// The first line of the text, without its line feed, and what stands after that. A line is longer
/// than a piece, so its end is looked for a chunk at a time.
pub fn cut_line(text: &[u8]) -> Option<(&[u8], &[u8])>
    ensures none { IfNone result (slice_split (λ b. b == 10) text.now ≡ text.now ∷ []) }
    ensures some { IfSome result
        (λ p. slice_split (λ b. b == 10) text.now ≡ p.0.now ∷ slice_split (λ b. b == 10) p.1.now) }
    ensures shorter { IfSome result (λ p. length p.0.now + 1 + length p.1.now ≡ length text.now) }
    ensures line { IfSome result (λ p. IsFirstLine text.now p.0.now p.1.now) }
    ensures lacks { IfNone result
        ((k : ℕ) → k < length text.now → (get_or text.now k 0 == 10) ≡ false) }
{
    for end in chunk_with(text, b'\n')..text.len() {
        if text[end] == b'\n' {
            return Some((&text[..end], &text[end + 1..]));
        }
    }
    None
}

/// The pieces of a line that are still to be read: none, or those of what is left of the line.
#[derive(Clone, Copy)]
pub struct Pieces<'a> {
    pub rest: Option<&'a [u8]>,
}

/// The next piece, and the pieces after it.
///
/// Errors: `Spelling` if no piece is left.
#[inline(always)]
pub fn piece(pieces: Pieces<'_>) -> Result<(&[u8], Pieces<'_>), Reason>
    ensures { GivesOrReason (λ x. (x.0.now, left_of x.1)) result (piece_at (left_of pieces.entry)) }
{
    let Some(rest) = pieces.rest else {
        return Err(Reason::Spelling);
    };
    match cut(rest, b' ') {
        Some((front, after)) => Ok((front, Pieces { rest: Some(after) })),
        None => Ok((rest, Pieces { rest: None })),
    }
}

/// The pieces after the next one.
///
/// Errors: `Spelling` if no piece is left, or the next one is not `word`.
pub fn word<'a>(word: &[u8], pieces: Pieces<'a>) -> Result<Pieces<'a>, Reason>
    ensures { GivesOrReason left_of result (expected_word word.now (left_of pieces.entry)) }
{
    let (front, rest) = piece(pieces)?;
    if front != word {
        return Err(Reason::Spelling);
    }
    Ok(rest)
}

/// The first piece of the text where it is a number of at most `SHORT` digits, and the pieces after
/// it: it is cut and read in one pass. `None` where it is no such number.
#[inline(always)]
fn short_number(text: &[u8]) -> Option<(Numeral<'_>, Pieces<'_>)>
    ensures { IfSome result (λ x. line_pieces text.now ≡ x.0.text.now ∷ left_of x.1) }
{
    let (count, number) = leading_digits(text);
    if count == 0 {
        return None;
    }
    if count > 1 && text[0] == b'0' {
        return None;
    }
    if count == text.len() {
        return Some((Numeral::known(text, number), Pieces { rest: None }));
    }
    if text[count] != b' ' {
        return None;
    }
    let rest = Some(&text[count + 1..]);
    Some((Numeral::known(&text[..count], number), Pieces { rest }))
}

/// The next piece, read as a number where it is one, and the pieces after it.
///
/// Errors: `Spelling` if no piece is left.
#[inline(always)]
pub fn numeral(pieces: Pieces<'_>) -> Result<(Numeral<'_>, Pieces<'_>), Reason>
    ensures { GivesOrReason (λ x. (x.0.text.now, left_of x.1)) result
        (piece_at (left_of pieces.entry)) }
{
    let Some(text) = pieces.rest else {
        return Err(Reason::Spelling);
    };
    match short_number(text) {
        Some(read) => Ok(read),
        None => {
            let (front, rest) = piece(pieces)?;
            Ok((Numeral::of(front), rest))
        }
    }
}

/// The next piece, a number, and the pieces after it.
///
/// Errors: `Spelling` if no piece is left, or the next one spells no number.
#[inline(always)]
pub fn digits(pieces: Pieces<'_>) -> Result<(Numeral<'_>, Pieces<'_>), Reason>
    ensures { GivesOrReason (λ x. (x.0.text.now, left_of x.1)) result
        (digits_at (left_of pieces.entry)) }
{
    let (front, rest) = numeral(pieces)?;
    if !front.is_number() {
        return Err(Reason::Spelling);
    }
    Ok((front, rest))
}

/// Tests that no piece is left.
///
/// Errors: `Spelling` if a piece is left.
pub fn ended(pieces: Pieces<'_>) -> Result<(), Reason>
    ensures { result ≡ ended (left_of pieces.entry) }
{
    match piece(pieces) {
        Ok((_, _)) => Err(Reason::Spelling),
        Err(_) => Ok(()),
    }
}

/// The number that a piece spells, at most `most`.
///
/// Errors: `Range` if the piece spells no number, or one that is more than `most`.
#[inline(always)]
pub fn in_range(most: u64, digits: &[u8]) -> Result<u64, Reason>
    ensures exact { result ≡ in_range most digits.now }
    ensures within { IfOk result (λ n. n ≤ most) }
{
    match number_to(digits, most) {
        Some(number) => Ok(number),
        None => Err(Reason::Range),
    }
}

/// Whether a piece spells this number.
pub fn is_value(digits: &[u8], number: u64) -> bool
    ensures { result ≡ is_value digits.now number }
{
    match number_to(digits, u64::MAX) {
        Some(read) => read == number,
        None => false,
    }
}
