//! Pieces read as numbers. No call takes memory or waits.

ghost use Rattle.std.specs.Prelude.{◌≡◌, ◌≤◌, Some, IfOk};
ghost use Rattle.{event_log.specs.Digits.{is_number, number_to}, tracer.specs.Judging.in_range};

use crate::verdicts::Reason;
use event_log::{is_number, number_to};

/// A piece that was read, and the number of 64 bits that it spells: `None` if it spells none, or a
/// larger one. So each digit is read once, also where a number of any size will do.
#[derive(Clone, Copy)]
pub struct Numeral<'a> {
    pub text: &'a [u8],
    number: Option<u64>,
    ghost read: { number ≡ number_to 18446744073709551615 text.now },
}

impl<'a> Numeral<'a> {
    /// Reads a piece.
    #[inline(always)]
    pub fn of(text: &'a [u8]) -> Numeral<'a>
        ensures { result.text.now ≡ text.now }
    {
        Numeral {
            text,
            number: number_to(text, u64::MAX),
        }
    }

    /// A piece that spells this number.
    #[inline(always)]
    pub fn known(text: &'a [u8], number: u64) -> Numeral<'a>
        requires { number_to 18446744073709551615 text.now ≡ Some number }
        ensures { result.text.now ≡ text.now }
    {
        Numeral {
            text,
            number: Some(number),
        }
    }

    /// The number of 64 bits that it spells.
    #[inline(always)]
    pub fn number(self) -> Option<u64>
        ensures { result ≡ number_to 18446744073709551615 self.entry.text.now }
    {
        self.number
    }

    /// Whether it spells a number, of any size.
    #[inline(always)]
    pub fn is_number(self) -> bool
        ensures { result ≡ is_number self.entry.text.now }
    {
        match self.number {
            Some(_) => true,
            None => is_number(self.text),
        }
    }

    /// The number that it spells, at most `most`.
    ///
    /// Errors: `Range` if it spells no number, or one that is more than `most`.
    #[inline(always)]
    pub fn up_to(self, most: u64) -> Result<u64, Reason>
        ensures exact { result ≡ in_range most self.entry.text.now }
        ensures within { IfOk result (λ n. n ≤ most) }
    {
        match self.number {
            Some(number) if number <= most => Ok(number),
            _ => Err(Reason::Range),
        }
    }
}
