//! The line that reports why a plan is rejected: the error's name and number, and its place, a key
//! or a line of a program. No call takes memory or waits, unless the sink's writer does.

ghost use Rattle.std.specs.Prelude.{◌≡◌, ◌++◌, ◌∷◌, [], codes, decimal, false};
ghost use Rattle.{tracer.specs.Sinks.has_failed, mctower.specs.{Output.{IsTold, between}, PlanFaults.{fault_name, guest_line, key_line, plan_line}}};

use crate::tell::pieces::{tell, tell_text};
use boot::{BootError, PlanKey};
use event_log::Tid;
use guest::GuestFault;
use itoa::Buffer;
use std::io::Write;
use tracer::Sink;

/// Returns the name and the number of what is wrong with a line of a program.
fn fault_name(fault: GuestFault) -> &'static str
    ensures { result.now ≡ fault_name fault }
{
    match fault {
        GuestFault::UnknownWord => "UnknownWord(10)",
        GuestFault::BadRegister => "BadRegister(11)",
        GuestFault::BadNumber => "BadNumber(12)",
        GuestFault::BadTarget => "BadTarget(13)",
        GuestFault::TooLong => "TooLong(14)",
        GuestFault::Empty => "Empty(15)",
    }
}

/// Writes the line of an error of this name, and of a key that is in no thread's table.
fn put_key<W: Write>(sink: &mut Sink<W>, name: &'static str, key: &'static str)
    requires { has_failed sink.old ≡ false }
    ensures { IsTold (between W.contents sink.old sink.new)
        (codes "error: " ++ (name.now ++ (key.now ++ 10 ∷ []))) }
{
    let name = name.as_bytes();
    let key = key.as_bytes();
    tell(sink, &[b"error: ".as_slice(), name, key, b"\n".as_slice()]);
}

/// Writes the line of an error of this name, and of a key that is in the table of a thread.
fn put_thread_key<W: Write>(sink: &mut Sink<W>, name: &'static str, thread: Tid, key: &'static str)
    requires { has_failed sink.old ≡ false }
    ensures { IsTold (between W.contents sink.old sink.new)
        (codes "error: " ++ (name.now
        ++ (codes "thread " ++ (decimal thread.0 ++ (key.now ++ 10 ∷ []))))) }
{
    let mut number = Buffer::new();
    let number = number.format(thread.0).as_bytes();
    let name = name.as_bytes();
    let key = key.as_bytes();
    let pieces = [
        b"error: ".as_slice(),
        name,
        b"thread ".as_slice(),
        number,
        key,
        b"\n".as_slice(),
    ];
    tell(sink, &pieces);
}

/// Writes the line of an error of this name, and of the key at which it is.
fn write_key<W: Write>(sink: &mut Sink<W>, name: &'static str, key: PlanKey)
    requires { has_failed sink.old ≡ false }
    ensures { IsTold (between W.contents sink.old sink.new) (key_line name.now key) }
{
    match key {
        PlanKey::Cpus => put_key(sink, name, "cpus"),
        PlanKey::Trace => put_key(sink, name, "trace"),
        PlanKey::Buffers => put_key(sink, name, "buffers"),
        PlanKey::Lock => put_key(sink, name, "lock"),
        PlanKey::Threads => put_key(sink, name, "thread"),
        PlanKey::Cpu(thread) => put_thread_key(sink, name, thread, " cpu"),
        PlanKey::Program(thread) => put_thread_key(sink, name, thread, " program"),
    }
}

/// Writes the line of what is wrong with a line of a thread's program.
fn put_guest<W: Write>(sink: &mut Sink<W>, thread: Tid, line: usize, fault: GuestFault)
    requires { has_failed sink.old ≡ false }
    ensures { IsTold (between W.contents sink.old sink.new) (guest_line thread line fault) }
{
    let mut thread_number = Buffer::new();
    let mut line_number = Buffer::new();
    let thread = thread_number.format(thread.0).as_bytes();
    let line = line_number.format(line).as_bytes();
    let fault = fault_name(fault).as_bytes();
    let pieces = [
        b"error: Guest(23) thread ".as_slice(),
        thread,
        b" line ".as_slice(),
        line,
        b" ".as_slice(),
        fault,
        b"\n".as_slice(),
    ];
    tell(sink, &pieces);
}

/// Reports why a plan is rejected, and flushes the report, if the sink accepts it. Takes no memory.
///
/// Requires: the sink has not failed.
pub(crate) fn write_plan_fault<W: Write>(sink: &mut Sink<W>, error: BootError)
    requires { has_failed sink.old ≡ false }
    ensures { IsTold (between W.contents sink.old sink.new) (plan_line error) }
{
    match error {
        BootError::NoMemory(_) => tell_text(sink, "error: NoMemory(1)\n"),
        BootError::BadToml => tell_text(sink, "error: BadToml(20)\n"),
        BootError::MissingKey(key) => write_key(sink, "MissingKey(21) ", key),
        BootError::OutOfRange(key) => write_key(sink, "OutOfRange(22) ", key),
        BootError::Guest {
            thread,
            line,
            fault,
        } => put_guest(sink, thread, line, fault),
    }
}
