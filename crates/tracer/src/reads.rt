//! One read of an input, tried again if a signal interrupted it. Only this module makes the
//! evidence that a read failed ([`ReadFailed`]). A read may wait.

ghost use Rattle.std.specs.Prelude.{◌≡◌, ◌≢◌, ◌+◌, ◌<◌, ◌≤◌, length, take, drop, IfErr, IfOk, OnErr};
ghost use Rattle.std.specs.{declared.io.ErrorKind.TheVariants.Interrupted, Io.KnownBytes.{Consumes, IsAtEnd, Keeps}};

use std::io;
use std::io::Read;

/// A read that failed, with the kind of its error. It is made only of a failed read, or after 2^64
/// interrupted reads.
#[derive(Clone, Copy, Debug, PartialEq, Eq)]
pub struct ReadFailed {
    kind: io::ErrorKind,
}

impl ReadFailed {
    /// Returns the kind of the read's error.
    pub fn kind(self) -> io::ErrorKind
        ensures { result ≡ self.kind }
    {
        self.kind
    }
}

// Reads once into the bytes after the first `at`. After an error nothing was read.
fn read_once<R: Read>(bytes: &mut [u8], at: usize, input: &mut R) -> io::Result<usize>
    requires { at ≤ length bytes.old }
    ensures length { length bytes.new ≡ length bytes.old }
    ensures front { take at bytes.new ≡ take at bytes.old }
    ensures fits { IfOk result (λ n. at + n ≤ length bytes.new) }
    ensures read { IfOk result
        (λ n. Consumes (R.remaining input.old) (R.remaining input.new)
        (take n (drop at bytes.new))) }
    ensures end { IfOk result
        (λ n. n ≡ 0 → at < length bytes.old → IsAtEnd (R.remaining input.new)) }
    ensures kept { OnErr result (Keeps (R.remaining input.old) (R.remaining input.new)) }
{
    input.read(&mut bytes[at..])
}

/// Reads into the bytes after the first `at`. A read that a signal interrupted is tried again.
///
/// Requires: `at` is at most the number of bytes.
///
/// Errors: `ReadFailed` with the kind of a read that failed, and never that a signal interrupted
/// one; `TimedOut` if 2^64 reads were interrupted.
pub(crate) fn read_behind<R: Read>(
    bytes: &mut [u8],
    at: usize,
    input: &mut R,
) -> Result<usize, ReadFailed>
    requires { at ≤ length bytes.old }
    ensures length { length bytes.new ≡ length bytes.old }
    ensures front { take at bytes.new ≡ take at bytes.old }
    ensures fits { IfOk result (λ n. at + n ≤ length bytes.new) }
    ensures read { IfOk result
        (λ n. Consumes (R.remaining input.old) (R.remaining input.new)
        (take n (drop at bytes.new))) }
    ensures end { IfOk result
        (λ n. n ≡ 0 → at < length bytes.old → IsAtEnd (R.remaining input.new)) }
    ensures retried { IfErr result (λ failed. failed.kind ≢ Interrupted) }
{
    for _ in 0..u64::MAX {
        match read_once(bytes, at, input) {
            Ok(count) => return Ok(count),
            Err(error) => {
                let kind = error.kind();
                if kind != io::ErrorKind::Interrupted {
                    return Err(ReadFailed { kind });
                }
            }
        }
    }
    Err(ReadFailed {
        kind: io::ErrorKind::TimedOut,
    })
}
