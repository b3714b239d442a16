//! The state lines: what `run` reports of the system that a schedule's steps left. No call takes
//! memory or waits, unless the sink's writer does.

ghost use Rattle.std.specs.{Prelude.{◌≡◌, ℕ, IfOk, List, Some, None, false, true, is_err, map, ◌≤◌}, List.flat_map};
ghost use Rattle.{tracer.specs.{Sinks.{WentOut, has_failed, is_flushed}, TraceText.{text_line, numbered}}, event_log.specs.declared.ids.TheConstants.THREADS};
ghost use Rattle.mctower.specs.StateLines.{cpu_pieces, halted_pieces, halted_word, place_name, place_number, quiet_pieces, state_text, thread_pieces};

use crate::tell::pieces::put_all;
use arrayvec::ArrayVec;
use event_log::{CPUS, THREADS};
use itoa::Buffer;
use layer_traits::{Place, Reason};
use std::io::Write;
use tracer::{Sink, WriteFault};

/// What the state lines report of a system.
#[derive(Drop)]
pub struct State {
    /// Why each CPU is halted, by its number; `None` if it is live.
    pub halted: ArrayVec<Option<Reason>, CPUS>,
    /// Where each thread is, by its number; the first `threads` count.
    pub places: [Place; THREADS],
    /// How many threads there are.
    pub threads: usize,
    /// Whether the system is quiet (quiescent).
    pub is_quiet: bool,
    ghost few: { threads ≤ THREADS },
}

/// Returns the word for a CPU: it is live, or why it is halted.
fn halted_word(halted: Option<Reason>) -> &'static str
    ensures { result.now ≡ halted_word halted }
{
    match halted {
        None => "live",
        Some(Reason::AllEnded) => "AllEnded",
        Some(Reason::TraceFull) => "TraceFull",
        Some(Reason::StepsUsed) => "StepsUsed",
    }
}

/// Returns the name of a place.
fn place_name(place: Place) -> &'static str
    ensures { result.now ≡ place_name place }
{
    match place {
        Place::Running(_) => "Running",
        Place::Ready(_) => "Ready",
        Place::Pending(_) => "Pending",
        Place::Hand(_) => "Hand",
        Place::LockSleeper(_) => "LockSleeper",
        Place::WaitRecv(_) => "WaitRecv",
        Place::WaitSend(_) => "WaitSend",
        Place::Ended => "Ended",
    }
}

/// Returns the number of the CPU or of the buffer at which a place is.
fn place_number(place: Place) -> Option<u8>
    ensures { result ≡ place_number place }
{
    match place {
        Place::Running(cpu) | Place::Ready(cpu) | Place::Pending(cpu) | Place::Hand(cpu) => {
            Some(cpu.0)
        }
        Place::LockSleeper(buffer) | Place::WaitRecv(buffer) | Place::WaitSend(buffer) => {
            Some(buffer.0)
        }
        Place::Ended => None,
    }
}

/// Writes the line of a CPU, with this word.
///
/// Requires: the sink has not failed.
///
/// Errors: `WriteFault` if a write failed.
pub(crate) fn put_cpu<W: Write>(sink: &mut Sink<W>, cpu: u64, word: &str) -> Result<(), WriteFault>
    requires { has_failed sink.old ≡ false }
    ensures failed { is_err result ≡ has_failed sink.new }
    ensures out { WentOut W.contents sink.old sink.new (text_line (cpu_pieces cpu word.now)) }
{
    let mut number = Buffer::new();
    let number = number.format(cpu).as_bytes();
    let word = word.as_bytes();
    put_all(
        sink,
        &[
            b"cpu ".as_slice(),
            number,
            b" ".as_slice(),
            word,
            b"\n".as_slice(),
        ],
    )
}

/// Writes the line of a thread.
fn put_thread<W: Write>(sink: &mut Sink<W>, thread: u64, place: Place) -> Result<(), WriteFault>
    requires { has_failed sink.old ≡ false }
    ensures failed { is_err result ≡ has_failed sink.new }
    ensures out { WentOut W.contents sink.old sink.new (text_line (thread_pieces thread place)) }
{
    let mut number = Buffer::new();
    let number = number.format(thread).as_bytes();
    let name = place_name(place).as_bytes();
    let mut at = Buffer::new();
    match place_number(place) {
        None => put_all(
            sink,
            &[
                b"thread ".as_slice(),
                number,
                b" ".as_slice(),
                name,
                b"\n".as_slice(),
            ],
        ),
        Some(at_number) => {
            let at = at.format(at_number).as_bytes();
            put_all(
                sink,
                &[
                    b"thread ".as_slice(),
                    number,
                    b" ".as_slice(),
                    name,
                    b"(".as_slice(),
                    at,
                    b")\n".as_slice(),
                ],
            )
        }
    }
}

/// Writes the lines of the CPUs.
fn put_cpus<W: Write>(sink: &mut Sink<W>, halted: &[Option<Reason>]) -> Result<(), WriteFault>
    requires { has_failed sink.old ≡ false }
    ensures failed { is_err result ≡ has_failed sink.new }
    ensures out { WentOut W.contents sink.old sink.new
        (flat_map text_line (numbered halted_pieces 0 halted.now)) }
{
    for (c, halted) in halted.iter().enumerate() {
        put_cpu(sink, c as u64, halted_word(*halted))?;
    }
    Ok(())
}

/// Writes the lines of the threads.
fn put_threads<W: Write>(sink: &mut Sink<W>, places: &[Place]) -> Result<(), WriteFault>
    requires { has_failed sink.old ≡ false }
    ensures failed { is_err result ≡ has_failed sink.new }
    ensures out { WentOut W.contents sink.old sink.new
        (flat_map text_line (numbered thread_pieces 0 places.now)) }
{
    for (t, place) in places.iter().enumerate() {
        put_thread(sink, t as u64, *place)?;
    }
    Ok(())
}

/// Writes the line on the whole system.
fn put_quiet<W: Write>(sink: &mut Sink<W>, is_quiet: bool) -> Result<(), WriteFault>
    requires { has_failed sink.old ≡ false }
    ensures failed { is_err result ≡ has_failed sink.new }
    ensures out { WentOut W.contents sink.old sink.new (text_line (quiet_pieces is_quiet)) }
{
    sink.put(if is_quiet {
        b"quiet yes\n".as_slice()
    } else {
        b"quiet no\n".as_slice()
    })
}

impl State {
    ghost use Rattle.mctower.specs.{Output.IsTold, Output.between, State.places_in};

    /// Writes the state lines.
    ///
    /// Errors: `WriteFault` exactly if the sink failed; then a prefix of the lines is out.
    fn put<W: Write>(&self, sink: &mut Sink<W>) -> Result<(), WriteFault>
        requires { has_failed sink.old ≡ false }
        ensures failed { is_err result ≡ has_failed sink.new }
        ensures out { WentOut W.contents sink.old sink.new
            (state_text self.now.halted.items (places_in self.now) self.now.is_quiet) }
    {
        put_cpus(sink, self.halted.as_slice())?;
        put_threads(sink, &self.places[..self.threads])?;
        put_quiet(sink, self.is_quiet)
    }

    /// Reports the state of a system in its state lines and flushes them, if the sink accepts them.
    /// Takes no memory.
    ///
    /// Requires: the sink has not failed.
    pub fn write_report<W: Write>(&self, sink: &mut Sink<W>)
        requires { has_failed sink.old ≡ false }
        ensures { IsTold (between W.contents sink.old sink.new)
            (state_text self.now.halted.items (places_in self.now) self.now.is_quiet) }
    {
        if let Ok(()) = self.put(sink) {
            let _ = sink.flush();
        }
    }
}
