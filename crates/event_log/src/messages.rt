//! What a buffer carries. No call allocates memory or waits.

ghost use Rattle.std.specs.Prelude.{◌≡◌, ◌<◌, ◌≤◌, ◌^◌, ◌∷◌, ℕ, [], length, slice_index_or};
ghost use Rattle.event_log.specs.Messages.{IsMessage, first_word, no_message};

use std::marker::Model;

/// The most words of a message.
pub const WORDS: usize = 8;

/// A message: a list of one to [`WORDS`] numbers of 64 bits, its words. All code that holds, sends
/// or receives a message uses `Msg`. It is copied whole; two are equal if their lists are.
#[derive(Clone, Copy, Debug, PartialEq, Eq)]
pub struct Msg {
    words: [u64; WORDS],
    count: u8,
}

impl Model for Msg {
    ghost use Rattle.std.{specs.Prelude.{◌≡◌, ◌≤◌, ◌<◌, ℕ, List, length, take}, proofs.Common.{arith, length-take-le}};
    ghost use Rattle.event_log.specs.{declared.messages.TheConstants.WORDS, Messages.padded};

    ghost Value = { List ℕ };

    ghost view = { λ m. take m.count m.words };

    ghost invariant = { λ m. (length m.words ≡ WORDS) × (0 < m.count) × (m.count ≤ WORDS) × (padded (take m.count m.words) ≡ m.words) };

    ghost inverse = { λ v. record { words = padded v; count = length v } };

    ghost inverse_ok = { λ m h i. record { words = h.3 i; count = length-take-le m.count m.words (omega (arith, h.0, h.2)) i } };
}

impl Msg {
    /// Returns the message of this one word.
    pub fn one(word: u64) -> Msg
        ensures { result ≡ word ∷ [] }
    {
        Msg {
            words: [word, 0, 0, 0, 0, 0, 0, 0],
            count: 1,
        }
    }

    /// Returns the value that is used if a message is expected and there is none.
    pub fn none() -> Msg
        ensures { result ≡ no_message }
    {
        Msg::one(0)
    }

    /// Returns the message of these words.
    ///
    /// Requires: there are one to [`WORDS`] words.
    pub fn new(words: &[u64]) -> Msg
        requires some { 0 < length words.now }
        requires most { length words.now ≤ WORDS }
        ensures { result ≡ words.now }
    {
        let mut all = [0; WORDS];
        all[..words.len()].copy_from_slice(words);
        Msg {
            words: all,
            count: words.len() as u8,
        }
    }

    /// Returns how many words it has.
    pub fn len(&self) -> usize
        ensures length { result ≡ length self.now }
        ensures some { 0 < result }
        ensures most { result ≤ WORDS }
    {
        usize::from(self.count)
    }

    /// Returns its words, in order.
    pub fn words(&self) -> &[u64]
        ensures { result.now ≡ self.now }
    {
        &self.words[..usize::from(self.count)]
    }

    /// Returns its first word: what a register takes of it.
    pub fn first(&self) -> u64
        ensures { result ≡ first_word self.now }
    {
        self.words[0]
    }

    /// Law: a message has one to [`WORDS`] words, and each has 64 bits.
    pub fn fits(&self)
        ensures { IsMessage self.now }
    {
        let _ = self.len();
        words_fit(self.words());
    }
}

// Each word has 64 bits, according to its type; a list of words by itself does not show it.
fn words_fit(words: &[u64])
    ensures { (k d : ℕ) → k < length words.now → slice_index_or words.now k d < 2 ^ 64 }
{
    for word in words {
        word_fits(*word);
    }
}

// A word has 64 bits.
fn word_fits(word: u64)
    ensures { word < 2 ^ 64 }
{}

impl Default for Msg {
    ghost is_default = { λ m. m ≡ no_message };

    fn default() -> Msg {
        Msg::none()
    }
}
