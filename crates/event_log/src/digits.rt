//! Numbers written in decimal digits, as programs, schedules and trace texts spell them. No call
//! allocates memory or waits.

ghost use Rattle.std.specs.{Prelude.{◌≡◌, ◌≤◌, ◌<◌, ◌^◌, ℕ, List, Some, decimal, false, length, slice_index, take, true, IfSome}, Char.is_ascii_digit};
ghost use Rattle.{std.specs.{List.list_all, Str.{all_ascii_digits, Parse.digits_value}}, event_log.specs.declared.digits.TheConstants.SHORT};
ghost use Rattle.event_log.specs.Digits.{is_number, number_to};

/// Returns whether `text` spells a number, of any size: it is `0`, or digits of which the first is
/// not `0`.
pub fn is_number(text: &[u8]) -> bool
    ensures { result ≡ is_number text.now }
{
    if text.is_empty() {
        return false;
    }
    if text[0] == b'0' {
        return text.len() == 1;
    }
    has_only_digits(text)
}

/// Returns whether each byte of `text` is a digit.
fn has_only_digits(text: &[u8]) -> bool
    ensures { result ≡ list_all is_ascii_digit text.now }
{
    text.iter().all(|byte| byte.is_ascii_digit())
}

/// How many digits `leading_digits` reads at most: so many stay below 2^64, without a test of the
/// size of their number.
pub const SHORT: usize = 19;

/// Returns the digits that the text begins with, `SHORT` at most: how many they are, and their
/// number, which is 0 if there is none. They may begin with zeros.
#[inline(always)]
pub fn leading_digits(text: &[u8]) -> (usize, u64)
    ensures few { result.0 ≤ SHORT }
    ensures inside { result.0 ≤ length text.now }
    ensures digits { all_ascii_digits (take result.0 text.now) ≡ true }
    ensures number { result.1 ≡ digits_value 10 (take result.0 text.now) }
    ensures longest { result.0 < SHORT → result.0 < length text.now
        → is_ascii_digit (slice_index text.now result.0) ≡ false }
{
    let most = text.len().min(SHORT);
    let mut number: u64 = 0;
    for count in 0..most {
        let byte = text[count];
        if !byte.is_ascii_digit() {
            return (count, number);
        }
        number = number * 10 + u64::from(byte - b'0');
    }
    (most, number)
}

/// Returns the number of at most `most` that a text of any length spells: a digit is taken only
/// while the number stays that small.
fn long_number(text: &[u8], most: u64) -> Option<u64>
    requires some { 0 < length text.now }
    requires lead { slice_index text.now 0 ≡ 48 → length text.now ≡ 1 }
    ensures number { result ≡ number_to most text.now }
    ensures within { IfSome result (λ number. number ≤ most) }
{
    let tenth = most / 10;
    let mut number: u64 = 0;
    for byte in text {
        if !byte.is_ascii_digit() {
            return None;
        }
        if number > tenth {
            return None;
        }
        let tens = number * 10;
        let digit = u64::from(*byte - b'0');
        if digit > most - tens {
            return None;
        }
        number = tens + digit;
    }
    Some(number)
}

/// Returns the number that `text` spells, if it spells one of at most `most`: `0`, or digits of
/// which the first is not `0`. `None` for any other text, also one with a sign or a leading zero.
#[tactic(auto, using(crate::proofs::DigitsLemmas::early_answers))]
pub fn number_to(text: &[u8], most: u64) -> Option<u64>
    ensures number { result ≡ number_to most text.now }
    ensures within { IfSome result (λ number. number ≤ most) }
{
    if text.is_empty() {
        return None;
    }
    if text[0] == b'0' && text.len() > 1 {
        return None;
    }
    let (count, number) = leading_digits(text);
    if count < text.len() {
        return long_number(text, most);
    }
    if number > most {
        return None;
    }
    Some(number)
}

/// The law of the spelling: each number up to `most` is spelled by one text, the one that `{}`
/// prints for it. That text is read as the number.
#[tactic(auto, using(crate::proofs::DigitsLemmas::one_spelling))]
pub fn number_has_one_spelling()
    ensures read_back { (most n : ℕ) → n < 2 ^ 64 → n ≤ most → number_to most (decimal n) ≡ Some n }
    ensures only { (most n : ℕ) (text : List ℕ) → most < 2 ^ 64 → number_to most text ≡ Some n
        → text ≡ decimal n }
{}
