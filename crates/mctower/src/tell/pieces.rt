//! What the program prints: pieces, all of which are written. No call takes memory or waits, unless
//! the sink's writer does.

ghost use Rattle.std.specs.{Prelude.{◌≡◌, IfOk, IfSome, false, is_err, true}, List.flat_map};
ghost use Rattle.{tracer.specs.Sinks.{WentOut, has_failed, is_flushed}, mctower.specs.Output.{IsTold, between}};

use arrayvec::ArrayVec;
use std::io::Write;
use tracer::{Sink, WriteFault};

/// How many bytes one write has at most.
const AT_ONCE: usize = 512;

/// Returns the pieces as one; `None` if they have more than `AT_ONCE` bytes.
fn joined(pieces: &[&[u8]]) -> Option<ArrayVec<u8, AT_ONCE>>
    ensures { IfSome result (λ line. line.items ≡ flat_map (λ p. p.now) pieces.now) }
{
    let mut line = ArrayVec::new();
    for piece in pieces {
        if line.try_extend_from_slice(*piece).is_err() {
            return None;
        }
    }
    Some(line)
}

/// Writes the pieces one by one, or a prefix of them if a write failed.
fn put_each<W: Write>(sink: &mut Sink<W>, pieces: &[&[u8]]) -> Result<(), WriteFault>
    requires { has_failed sink.old ≡ false }
    ensures failed { is_err result ≡ has_failed sink.new }
    ensures out { WentOut W.contents sink.old sink.new (flat_map (λ p. p.now) pieces.now) }
{
    for piece in pieces {
        sink.put(*piece)?;
    }
    Ok(())
}

/// Writes all pieces, or a prefix of them if a write failed. A line is put in one write, if the
/// writer takes it whole, so the lines of two programs do not mix.
///
/// Requires: the sink has not failed.
///
/// Errors: `WriteFault` if a write failed. Then a prefix of the pieces was written.
pub(crate) fn put_all<W: Write>(sink: &mut Sink<W>, pieces: &[&[u8]]) -> Result<(), WriteFault>
    requires { has_failed sink.old ≡ false }
    ensures failed { is_err result ≡ has_failed sink.new }
    ensures out { WentOut W.contents sink.old sink.new (flat_map (λ p. p.now) pieces.now) }
{
    match joined(pieces) {
        Some(line) => sink.put(line.as_slice()),
        None => put_each(sink, pieces),
    }
}

/// Writes all pieces and flushes them.
///
/// Requires: the sink has not failed.
///
/// Errors: `WriteFault` exactly if a write or the flush failed; then a prefix is out.
pub fn print<W: Write>(sink: &mut Sink<W>, pieces: &[&[u8]]) -> Result<(), WriteFault>
    requires { has_failed sink.old ≡ false }
    ensures failed { is_err result ≡ has_failed sink.new }
    ensures flushed { IfOk result (λ _. is_flushed sink.new ≡ true) }
    ensures out { WentOut W.contents sink.old sink.new (flat_map (λ p. p.now) pieces.now) }
{
    put_all(sink, pieces)?;
    sink.flush()
}

/// Writes all pieces and flushes them, if the sink accepts them.
///
/// Requires: the sink has not failed.
pub(crate) fn tell<W: Write>(sink: &mut Sink<W>, pieces: &[&[u8]])
    requires { has_failed sink.old ≡ false }
    ensures { IsTold (between W.contents sink.old sink.new) (flat_map (λ p. p.now) pieces.now) }
{
    let _ = print(sink, pieces);
}

/// Writes a text and flushes it, if the sink accepts it.
///
/// Requires: the sink has not failed.
pub(crate) fn tell_text<W: Write>(sink: &mut Sink<W>, text: &str)
    requires { has_failed sink.old ≡ false }
    ensures { IsTold (between W.contents sink.old sink.new) text.now }
{
    tell(sink, &[text.as_bytes()]);
}
