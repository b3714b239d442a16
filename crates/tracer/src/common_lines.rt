//! The line of a send or a receive of one word, as nearly all lines of a trace are. It is read in
//! one pass: no call looks for its end before, nor for the end of the text, since the text ends in
//! a line feed. No call takes memory or waits.

ghost use Rattle.std.specs.{Prelude.{◌≡◌, ◌<◌, ◌≤◌, ◌++◌, ◌∷◌, [], decimal, drop, length, slice_index, take, true, IfSome}, Char.is_ascii_digit};
ghost use Rattle.event_log.specs.declared.{ids.TheConstants.{BUFFERS}, digits.TheConstants.{SHORT}};
ghost use Rattle.tracer.specs.{declared.versions.Version.TheVariants.One as FirstVersion, Versions.{version_of_kind, version_of_entry}};
ghost use Rattle.tracer.specs.{TraceText.{text_line, entry_pieces, kind_word, IsEntryOf}, Steps.EndsInLine, Judging.lines_in};

use event_log::{BUFFERS, BufId, CPUS, CpuId, ENTRIES, Entry, Kind, Msg, SHORT, THREADS, Tid};

/// Where the last line feed of the text ends; its start where it has none.
pub fn lines_end(text: &[u8]) -> usize
    ensures inside { result ≤ length text.now }
    ensures ends { 0 < result → EndsInLine (take result text.now) }
    ensures behind { lines_in (drop result text.now) ≡ drop result text.now ∷ [] }
{
    let mut end = text.len();
    while end > 0 && text[end - 1] != b'\n' {
        end -= 1;
    }
    end
}

/// The digits that the text begins with, of which there is one at least: their number, where they
/// are at most `SHORT`, and how many they are. Where the first is a zero no other is read.
// More digits than that wrap round: a test of their count here would cost one for each digit.
#[tactic(auto, using(crate::proofs::CommonLemmas::first_digit, crate::proofs::CommonLemmas::digits_spell))]
#[inline(always)]
fn first_digits(text: &[u8]) -> (u64, usize)
    requires digit { is_ascii_digit (slice_index text.now 0) ≡ true }
    requires ends { EndsInLine text.now }
    ensures some { 0 < result.1 }
    ensures inside { result.1 < length text.now }
    ensures spelled { result.1 ≤ SHORT → take result.1 text.now ≡ decimal result.0 }
{
    let mut number = u64::from(text[0] - b'0');
    if number == 0 {
        return (0, 1);
    }
    let mut count = 1;
    while text[count].is_ascii_digit() {
        let digit = u64::from(text[count] - b'0');
        number = number.wrapping_mul(10).wrapping_add(digit);
        count += 1;
    }
    (number, count)
}

/// The number of at most `most` that the text begins with, where the byte `end` is after it, and
/// what is after that byte. A number of more than `SHORT` digits is none here.
#[tactic(auto, using(crate::proofs::CommonLemmas::number_cut))]
#[inline(always)]
fn number_before(text: &[u8], most: u64, end: u8) -> Option<(u64, &[u8])>
    requires ends { EndsInLine text.now }
    ensures text { IfSome result (λ x. text.now ≡ decimal x.0 ++ end ∷ x.1.now) }
    ensures within { IfSome result (λ x. x.0 ≤ most) }
{
    if !text[0].is_ascii_digit() {
        return None;
    }
    let (number, count) = first_digits(text);
    if count > SHORT || text[count] != end || number > most {
        return None;
    }
    Some((number, &text[count + 1..]))
}

/// The same before a space, after which the text continues.
#[inline(always)]
fn number_before_space(text: &[u8], most: u64) -> Option<(u64, &[u8])>
    requires ends { EndsInLine text.now }
    ensures text { IfSome result (λ x. text.now ≡ decimal x.0 ++ 32 ∷ x.1.now) }
    ensures within { IfSome result (λ x. x.0 ≤ most) }
    ensures ends { IfSome result (λ x. EndsInLine x.1.now) }
{
    let (number, rest) = number_before(text, most, b' ')?;
    Some((number, rest))
}

/// The word of a send or a receive and a space, and what is after them.
#[inline(always)]
fn call_word(text: &[u8]) -> Option<(Kind, &[u8])>
    ensures text { IfSome result (λ x. text.now ≡ kind_word x.0 ++ 32 ∷ x.1.now) }
    ensures version { IfSome result (λ x. version_of_kind x.0 ≡ FirstVersion) }
{
    match text {
        [b's', b'e', b'n', b'd', b' ', rest @ ..] => Some((Kind::Send, rest)),
        [b'r', b'e', b'c', b'v', b' ', rest @ ..] => Some((Kind::Recv, rest)),
        _ => None,
    }
}

/// The same of a text that ends in a line feed.
#[inline(always)]
fn call_before_space(text: &[u8]) -> Option<(Kind, &[u8])>
    requires ends { EndsInLine text.now }
    ensures text { IfSome result (λ x. text.now ≡ kind_word x.0 ++ 32 ∷ x.1.now) }
    ensures version { IfSome result (λ x. version_of_kind x.0 ≡ FirstVersion) }
    ensures ends { IfSome result (λ x. EndsInLine x.1.now) }
{
    let (kind, rest) = call_word(text)?;
    Some((kind, rest))
}

/// What is after the letter of an entry and a space.
#[inline(always)]
fn letter(text: &[u8]) -> Option<&[u8]>
    ensures text { IfSome result (λ rest. text.now ≡ 101 ∷ 32 ∷ rest.now) }
{
    match text {
        [b'e', b' ', rest @ ..] => Some(rest),
        _ => None,
    }
}

/// The same of a text that ends in a line feed.
#[inline(always)]
fn letter_before_space(text: &[u8]) -> Option<&[u8]>
    requires ends { EndsInLine text.now }
    ensures text { IfSome result (λ rest. text.now ≡ 101 ∷ 32 ∷ rest.now) }
    ensures ends { IfSome result (λ rest. EndsInLine rest.now) }
{
    let rest = letter(text)?;
    Some(rest)
}

/// The entry whose line the text begins with, and what is after the line. `None` where the text
/// does not begin with the line of a send or a receive of one word whose numbers are in range.
#[inline(always)]
pub fn common_entry(text: &[u8]) -> Option<(Entry, &[u8])>
    requires ends { EndsInLine text.now }
    ensures text { IfSome result (λ x. text.now ≡ text_line (entry_pieces x.0) ++ x.1.now) }
    ensures small { IfSome result (λ x. IsEntryOf BUFFERS x.0) }
    ensures version { IfSome result (λ x. version_of_entry x.0 ≡ FirstVersion) }
{
    let rest = letter_before_space(text)?;
    let (cpu, rest) = number_before_space(rest, CPUS as u64 - 1)?;
    let (thread, rest) = number_before_space(rest, THREADS as u64 - 1)?;
    let (kind, rest) = call_before_space(rest)?;
    let (buffer, rest) = number_before_space(rest, BUFFERS as u64 - 1)?;
    let (word, rest) = number_before_space(rest, u64::MAX)?;
    let (op, rest) = number_before_space(rest, ENTRIES as u64 - 1)?;
    let (pos, behind) = number_before(rest, ENTRIES as u64 - 1, b'\n')?;
    let entry = Entry {
        cpu: CpuId(cpu as u8),
        thread: Tid(thread as u8),
        kind,
        buffer: BufId(buffer as u8),
        value: Msg::one(word),
        op,
        pos,
    };
    Some((entry, behind))
}
