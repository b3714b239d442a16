//! A writer that remembers whether it failed and whether it was flushed. No call takes memory or
//! waits, unless its writer does.

ghost use Rattle.std.specs.{Prelude.{◌≡◌, ◌<◌, length, take, is_err, Bool, true, false, if◌then◌else◌}, Io.KnownBytes.Keeps};
ghost use Rattle.tracer.specs.Sinks.{has_failed, is_flushed, writer_of, WentOut};

use std::io::Write;
use thiserror::Error;

/// A write to a sink failed. A prefix of what it was to write may be out.
#[derive(Clone, Copy, Debug, PartialEq, Eq, Error)]
#[error("WriteFault(8)")]
pub struct WriteFault;

/// A writer, whether a write of it failed, and whether it was flushed since anything was put. A
/// write fails if it returns an error, of whatever kind, or takes no byte of a piece that is not
/// empty.
#[derive(Drop)]
pub struct Sink<W> {
    writer: W,
    failed: bool,
    flushed: bool,
}

impl<W: Write> Sink<W> {
    /// Makes a sink over `writer` that has not failed and to which nothing was put.
    pub fn new(writer: W) -> Sink<W>
        ensures failed { has_failed result ≡ false }
        ensures flushed { is_flushed result ≡ true }
        ensures writer { writer_of result ≡ writer }
    {
        Sink {
            writer,
            failed: false,
            flushed: true,
        }
    }

    /// Returns whether a write failed.
    pub fn failed(&self) -> bool
        ensures { result ≡ has_failed self.now }
    {
        let Sink { failed, .. } = self;
        *failed
    }

    /// Returns whether nothing was put since the last successful flush, or ever.
    pub fn flushed(&self) -> bool
        ensures { result ≡ is_flushed self.now }
    {
        let Sink { flushed, .. } = self;
        *flushed
    }

    /// Writes all of `piece`, by as many writes as the writer needs.
    ///
    /// Requires: the sink has not failed.
    ///
    /// Errors: `WriteFault` exactly if a write failed; then a prefix of `piece` is out, and the
    /// sink has failed. In both cases it is not flushed.
    pub fn put(&mut self, piece: &[u8]) -> Result<(), WriteFault>
        requires { has_failed self.old ≡ false }
        ensures failed { is_err result ≡ has_failed self.new }
        ensures flushed { is_flushed self.new ≡ false }
        ensures out { WentOut W.contents self.old self.new piece.now }
    {
        self.flushed = false;
        let mut rest = piece;
        while !rest.is_empty() {
            match self.writer.write(rest) {
                Ok(0) | Err(_) => {
                    self.failed = true;
                    return Err(WriteFault);
                }
                Ok(n) => rest = rest.split_at(n).1,
            }
        }
        Ok(())
    }

    /// Asks the writer to flush what it holds back.
    ///
    /// Requires: the sink has not failed.
    ///
    /// Errors: `WriteFault` exactly if the writer returns an error; then the sink has failed, and
    /// is flushed only if it was before.
    pub fn flush(&mut self) -> Result<(), WriteFault>
        requires { has_failed self.old ≡ false }
        ensures failed { is_err result ≡ has_failed self.new }
        ensures flushed { is_flushed self.new
            ≡ (if has_failed self.new then is_flushed self.old else true) }
        ensures out { Keeps (W.contents (writer_of self.old)) (W.contents (writer_of self.new)) }
    {
        self.failed = self.writer.flush().is_err();
        if self.failed {
            return Err(WriteFault);
        }
        self.flushed = true;
        Ok(())
    }
}
