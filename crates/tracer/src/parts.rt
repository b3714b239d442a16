//! The part of an input that is read and not yet judged. To make one, and to make room in it, takes
//! memory; to fill it may wait.

ghost use Rattle.std.specs.Prelude.{◌≡◌, ◌≢◌, ◌*◌, ◌<◌, ◌≤◌, [], Ok, false, true, length, take, drop, IfErr, IfOk, OnOk};
ghost use Rattle.{std.specs.{declared.io.ErrorKind.TheVariants.Interrupted, Io.KnownBytes.IsAtEnd}, tracer.specs.Inputs.IsReadBehind};

use crate::reads::{ReadFailed, read_behind};
use event_log::NoMemory;
use std::alloc::Global;
use std::io::Read;

/// How many bytes of an input are read before they are judged, where no line is longer.
const PART: usize = 65536;

/// Reads into the bytes after the first `at` until none is left or the input ends. Gives how many
/// are filled, and whether the input ended.
///
/// Requires: `at` is at most the number of bytes.
///
/// Errors: a read that failed.
fn fill_behind<R: Read>(
    bytes: &mut [u8],
    at: usize,
    input: &mut R,
) -> Result<(usize, bool), ReadFailed>
    requires { at ≤ length bytes.old }
    ensures length { length bytes.new ≡ length bytes.old }
    ensures fits { IfOk result (λ r. r.0 ≤ length bytes.new) }
    ensures read { IfOk result
        (λ r. IsReadBehind (take at bytes.old) (take r.0 bytes.new) (R.remaining input.old)
        (R.remaining input.new)) }
    ensures end { IfOk result (λ r. r.1 ≡ true → IsAtEnd (R.remaining input.new)) }
    ensures full { IfOk result (λ r. r.1 ≡ false → r.0 ≡ length bytes.new) }
    ensures retried { IfErr result (λ failed. failed.kind ≢ Interrupted) }
{
    let mut filled = at;
    while filled < bytes.len() {
        let count = read_behind(bytes, filled, input)?;
        if count == 0 {
            return Ok((filled, true));
        }
        filled += count;
    }
    Ok((filled, false))
}

/// The bytes of an input that are read and not yet judged, with room after them.
#[derive(Drop)]
pub struct Part {
    bytes: Vec<u8>,
    filled: usize,
    ghost within: { filled ≤ length bytes.items },
    ghost some: { 0 < length bytes.items },
}

impl Part {
    ghost use Rattle.tracer.specs.Parts.{held, bytes_room};

    /// A part that holds nothing, with room for 64 KB.
    ///
    /// Errors: `NoMemory` if the room was refused.
    pub fn new(alloc: Global) -> Result<Part, NoMemory>
        ensures held { IfOk result (λ part. held part ≡ []) }
        ensures room { IfOk result (λ part. bytes_room part ≡ PART) }
    {
        let bytes = vec![in alloc; 0u8; PART]?;
        Ok(Part { bytes, filled: 0 })
    }

    /// The bytes that it holds.
    pub fn held(&self) -> &[u8]
        ensures { result.now ≡ held self.now }
    {
        &self.bytes[..self.filled]
    }

    /// Reads until its room is full or the input ends. Gives whether the input ended.
    ///
    /// Errors: a read that failed, and never that a signal interrupted one; then some of the input
    /// may be lost.
    pub fn fill<R: Read>(&mut self, input: &mut R) -> Result<bool, ReadFailed>
        ensures room { bytes_room self.new ≡ bytes_room self.old }
        ensures full { result ≡ Ok false → length (held self.new) ≡ bytes_room self.new }
        ensures read { OnOk result
            (IsReadBehind (held self.old) (held self.new) (R.remaining input.old)
            (R.remaining input.new)) }
        ensures end { result ≡ Ok true → IsAtEnd (R.remaining input.new) }
        ensures retried { IfErr result (λ failed. failed.kind ≢ Interrupted) }
    {
        let (filled, ended) = fill_behind(self.bytes.as_mut_slice(), self.filled, input)?;
        self.filled = filled;
        Ok(ended)
    }

    /// Lets go of its first bytes.
    ///
    /// Requires: it holds as many.
    pub fn drop_front(&mut self, count: usize)
        requires { count ≤ length (held self.old) }
        ensures held { held self.new ≡ drop count (held self.old) }
        ensures room { bytes_room self.new ≡ bytes_room self.old }
    {
        self.bytes.copy_within(count..self.filled, 0);
        self.filled -= count;
    }

    /// Makes room after what it holds, twice as much in all where none is left, and else none. So a
    /// line of any length has room, and is looked through a few times at most.
    ///
    /// Errors: `NoMemory` if the room was refused; it holds the same.
    pub fn make_room(&mut self) -> Result<(), NoMemory>
        ensures held { held self.new ≡ held self.old }
        ensures kept { length (held self.old) < bytes_room self.old
            → bytes_room self.new ≡ bytes_room self.old }
        ensures twice { OnOk result (bytes_room self.new ≤ 2 * bytes_room self.old) }
        ensures more { OnOk result (length (held self.new) < bytes_room self.new) }
    {
        let room = self.bytes.len();
        if self.filled >= room {
            self.bytes.resize(room.saturating_mul(2), 0)?;
        }
        Ok(())
    }
}
