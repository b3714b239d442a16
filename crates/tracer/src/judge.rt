//! The judge of a trace text. No call takes memory or waits.

ghost use Rattle.std.specs.Prelude.{◌≡◌, ◌+◌, ◌≤◌, ◌<◌, ◌==◌, ◌&&◌, ℕ, length, map, nat_lt, slice_get, true};
ghost use Rattle.{event_log.specs.declared.ids.TheConstants.{BUFFERS, ENTRIES}, tracer.specs.Judging.{text_start, version_in, head_line, end_line}};
ghost use Rattle.tracer.specs.{Judging.{count_line, capacity_line, entry_line, entries_line, left_line, is_left, step, is_done}, Lines.left_of};
ghost use Rattle.tracer.specs.declared.next_lines.NextLine.TheVariants.{Capacities as WantsCapacities};

use crate::common_lines::common_entry;
use crate::entering::enter_among;
use crate::lines::{
    capacity_digits, count_digits, entry_digits, entry_in, is_of_version, left_digits,
};
use crate::next_lines::NextLine;
use crate::pieces::{Pieces, cut_line, piece};
use crate::tally::Tally;
use crate::verdicts::Reason;
use crate::versions::Version;
use crate::words::are_within;
use arrayvec::ArrayVec;
use event_log::{BUFFERS, CAPACITY, ENTRIES, Entry};

/// The version that the head names.
///
/// Errors: `Spelling` where it is no head.
fn version_in(line: &[u8]) -> Result<Version, Reason>
    ensures { result ≡ version_in line.now }
{
    if line == b"mctower-trace 1".as_slice() {
        return Ok(Version::One);
    }
    if line == b"mctower-trace 2".as_slice() {
        return Ok(Version::Two);
    }
    if line == b"mctower-trace 3".as_slice() {
        return Ok(Version::Three);
    }
    Err(Reason::Spelling)
}

/// The judge of a text, as far as it has come: which line may come, the version of the head, the
/// lowest version that can spell the entries so far, what is known of the buffers, and how many
/// entries there were.
#[derive(Drop)]
pub struct Judge {
    at: NextLine,
    version: Version,
    lowest: Version,
    buffers: ArrayVec<Tally, BUFFERS>,
    entries: u64,
    ghost room: { (count : ℕ) → at ≡ WantsCapacities count → (length buffers.items < count) × (count ≤ BUFFERS) },
}

impl Judge {
    ghost use Rattle.tracer.specs.{Tallies.{progress_of, seen_in, StepsTo}, Steps.{judged_entry, EndsInLine, StepsOver}};

    /// The judge before the first line.
    pub fn new() -> Judge
        ensures { progress_of result ≡ text_start }
    {
        Judge {
            at: NextLine::Head,
            version: Version::One,
            lowest: Version::One,
            buffers: ArrayVec::new(),
            entries: 0,
        }
    }

    /// Whether no line is wanted any more.
    pub fn is_done(&self) -> bool
        ensures { result ≡ is_done (progress_of self.now).at }
    {
        matches!(self.at, NextLine::Done)
    }

    /// Judges the first line of a text that ends in a line feed. Gives the first reason against it,
    /// if there is one, and what is after its line feed. Nearly all lines are those of entries that
    /// are read in one pass; any other is cut off first.
    #[tactic(auto, using(crate::proofs::CommonLemmas::common_step))]
    #[inline(always)]
    pub fn next_line<'a>(&mut self, text: &'a [u8]) -> (Result<(), Reason>, &'a [u8])
        requires { EndsInLine text.now }
        ensures { StepsOver (progress_of self.old) text.now result.0 (progress_of self.new)
            result.1.now }
    {
        if matches!(self.at, NextLine::Entries) {
            if let Some((entry, behind)) = common_entry(text) {
                return (self.enter(&entry), behind);
            }
        }
        let (line, behind) = cut_line(text).unwrap();
        (self.step(line), behind)
    }

    /// The next line, without its line feed.
    ///
    /// Errors: the first reason against the line.
    #[inline(never)]
    #[tactic(auto, unfolding(crate::specs::Judging::step))]
    pub fn step(&mut self, line: &[u8]) -> Result<(), Reason>
        ensures { StepsTo (step (progress_of self.old) line.now) result (progress_of self.new) }
    {
        match self.at {
            NextLine::Head => self.head(line),
            NextLine::Count => self.count(Pieces { rest: Some(line) }),
            NextLine::Capacities(count) => self.capacity(count, Pieces { rest: Some(line) }),
            NextLine::Entries => self.entry_or_left(Pieces { rest: Some(line) }),
            NextLine::Contents(b) => self.left(b, Pieces { rest: Some(line) }),
            NextLine::End => self.end(line),
            NextLine::Done => Err(Reason::Spelling),
        }
    }

    /// The head, after which the count may come.
    #[tactic(auto, unfolding(crate::specs::Judging::head_line))]
    fn head(&mut self, line: &[u8]) -> Result<(), Reason>
        ensures { StepsTo (head_line line.now (progress_of self.old)) result
            (progress_of self.new) }
    {
        self.version = version_in(line)?;
        self.at = NextLine::Count;
        Ok(())
    }

    /// The last line.
    #[tactic(auto, unfolding(crate::specs::Judging::end_line))]
    fn end(&mut self, line: &[u8]) -> Result<(), Reason>
        ensures { StepsTo (end_line line.now (progress_of self.old)) result (progress_of self.new) }
    {
        if line != b"end".as_slice() {
            return Err(Reason::Spelling);
        }
        if !self.lowest.covers(self.version) {
            return Err(Reason::OfVersion);
        }
        self.at = NextLine::Done;
        Ok(())
    }

    /// The line of the number of buffers.
    #[tactic(auto, unfolding(crate::specs::Judging::count_line))]
    fn count(&mut self, pieces: Pieces<'_>) -> Result<(), Reason>
        ensures { StepsTo (count_line (left_of pieces.entry) (progress_of self.old)) result
            (progress_of self.new) }
    {
        let digits = count_digits(pieces)?;
        let count = digits.up_to(BUFFERS as u64)?;
        if count == 0 {
            return Err(Reason::Range);
        }
        self.buffers = ArrayVec::new();
        self.at = NextLine::Capacities(count as usize);
        Ok(())
    }

    /// The line of a capacity.
    #[tactic(auto, unfolding(crate::specs::Judging::capacity_line))]
    fn capacity(&mut self, count: usize, pieces: Pieces<'_>) -> Result<(), Reason>
        requires { self.old.at ≡ WantsCapacities count }
        ensures { StepsTo (capacity_line count (left_of pieces.entry) (progress_of self.old)) result
            (progress_of self.new) }
    {
        let digits = capacity_digits(self.buffers.len() as u64, pieces)?;
        let capacity = digits.up_to(CAPACITY as u64)?;
        if capacity == 0 {
            return Err(Reason::Range);
        }
        if self.buffers.len() + 1 >= count {
            self.at = NextLine::Entries;
        }
        self.buffers.push(Tally::new(capacity as usize));
        Ok(())
    }

    /// The line of an entry, from its second piece on.
    #[tactic(auto, unfolding(crate::specs::Judging::entry_line, crate::specs::Steps::judged_entry))]
    fn entry(&mut self, pieces: Pieces<'_>) -> Result<(), Reason>
        ensures { StepsTo (entry_line (left_of pieces.entry) (progress_of self.old)) result
            (progress_of self.new) }
    {
        let digits = entry_digits(pieces)?;
        if !is_of_version(self.version, digits) {
            return Err(Reason::Spelling);
        }
        let entry = entry_in(digits)?;
        self.enter(&entry)
    }

    /// An entry that was read.
    ///
    /// Requires: the entry's op and its pos are less than [`ENTRIES`].
    ///
    /// Errors: `Range` where there were as many entries as there may be, else the first reason
    /// against the entry.
    #[tactic(auto, unfolding(crate::specs::Steps::judged_entry))]
    #[inline(always)]
    fn enter(&mut self, entry: &Entry) -> Result<(), Reason>
        requires { (entry.now.op < ENTRIES) × (entry.now.pos < ENTRIES) }
        ensures { StepsTo (judged_entry entry.now (progress_of self.old)) result
            (progress_of self.new) }
    {
        if self.entries >= ENTRIES as u64 {
            return Err(Reason::Range);
        }
        enter_among(self.buffers.as_mut_slice(), entry)?;
        self.lowest = self.lowest.both(Version::of_entry(entry));
        self.entries += 1;
        Ok(())
    }

    /// The line of what is left of buffer `b`.
    #[tactic(auto, unfolding(crate::specs::Judging::left_line))]
    fn left(&mut self, b: usize, pieces: Pieces<'_>) -> Result<(), Reason>
        ensures { StepsTo (left_line b (left_of pieces.entry) (progress_of self.old)) result
            (progress_of self.new) }
    {
        let values = left_digits(self.version, b as u64, pieces)?;
        if !are_within(values) {
            return Err(Reason::Range);
        }
        if !self.holds(b, values) {
            return Err(Reason::Left);
        }
        let count = self.buffers.len();
        self.at = if b + 1 < count {
            NextLine::Contents(b + 1)
        } else {
            NextLine::End
        };
        Ok(())
    }

    /// Whether the pieces spell what buffer `b` holds.
    fn holds(&self, b: usize, values: Pieces<'_>) -> bool
        ensures exact { result
            ≡ is_left (left_of values.entry) (slice_get (progress_of self.now).buffers b) }
        ensures known { result ≡ true → b < length self.now.buffers.items }
    {
        match self.buffers.get(b) {
            Some(buffer) => buffer.holds(values),
            None => false,
        }
    }

    /// The line of an entry, or of what is left of the first buffer.
    #[tactic(auto, unfolding(crate::specs::Judging::entries_line))]
    fn entry_or_left(&mut self, pieces: Pieces<'_>) -> Result<(), Reason>
        ensures { StepsTo (entries_line (left_of pieces.entry) (progress_of self.old)) result
            (progress_of self.new) }
    {
        let (first, rest) = piece(pieces)?;
        if first == b"e".as_slice() {
            self.entry(rest)
        } else {
            self.left(0, pieces)
        }
    }
}
