//! What is told of a refusal on standard error. No call takes memory or waits, unless the sink's writer
//! does.

ghost use Rattle.std.specs.Prelude.{◌≡◌, false, map};
ghost use Rattle.{tracer.specs.Sinks.has_failed, mctower.specs.{Output.{IsTold, between}, Refusals.PutsRefusal}};
ghost use Rattle.mctower.specs.Faults.{expected_of, fault_lines, fault_text, kind_words, value_lines};

use crate::line::help_texts::usage_on;
use crate::refusals::Refusal;
use crate::refusals::line_faults::{LineFault, ValueOption, option_name};
use crate::refusals::shown_texts::Shown;
use crate::tell::pieces::{tell, tell_text};
use crate::tell::plan_lines::write_plan_fault;
use clap::error::ErrorKind;
use std::io::Write;
use tracer::Sink;

/// Which values an option takes.
fn expected(option: ValueOption) -> &'static str
    ensures { result.now ≡ expected_of option }
{
    match option {
        ValueOption::Cpus => "1 to 16",
        ValueOption::Times => "1 to 1000",
        ValueOption::Lock => "ticket or grant",
        ValueOption::Turns => "1 to 1000000000",
    }
}

/// What is wrong with the words, by the kind of a refusal of `clap`.
fn kind_words(kind: ErrorKind) -> &'static str
    ensures { result.now ≡ kind_words kind }
{
    match kind {
        ErrorKind::UnknownArgument => "unexpected argument",
        ErrorKind::InvalidSubcommand => "unknown command",
        ErrorKind::MissingRequiredArgument => "required option missing",
        ErrorKind::ArgumentConflict => "an option is given twice",
        ErrorKind::InvalidValue => "an option has no value",
        ErrorKind::TooManyValues => "an option takes no value",
        _ => "the words are no command line",
    }
}

/// Puts out a line with what is wrong and what it names, and the usage of the words' command.
fn put_fault<W: Write>(sink: &mut Sink<W>, words: &[&str], what: &'static str, named: Shown)
    requires { has_failed sink.old ≡ false }
    ensures { IsTold (between W.contents sink.old sink.new)
        (fault_lines (map (λ w. w.now) words.now) what.now named.bytes) }
{
    let what = what.as_bytes();
    let named = named.as_str().as_bytes();
    let usage = usage_on(words).as_bytes();
    tell(
        sink,
        &[b"error: ".as_slice(), what, named, b"\n".as_slice(), usage],
    );
}

/// Puts out a line with an option, its value and what is expected there, and the usage of the words'
/// command.
fn put_value_fault<W: Write>(sink: &mut Sink<W>, words: &[&str], option: ValueOption, value: Shown)
    requires { has_failed sink.old ≡ false }
    ensures { IsTold (between W.contents sink.old sink.new)
        (value_lines (map (λ w. w.now) words.now) option value.bytes) }
{
    let name = option_name(option).as_bytes();
    let value = value.as_str().as_bytes();
    let expected = expected(option).as_bytes();
    let usage = usage_on(words).as_bytes();
    let pieces = [
        b"error: --".as_slice(),
        name,
        b" ".as_slice(),
        value,
        b": expected ".as_slice(),
        expected,
        b"\n".as_slice(),
        usage,
    ];
    tell(sink, &pieces);
}

/// Tells what is wrong with words: a line `error: ..`, and the two lines of usage of the command that
/// they name. Takes no memory.
///
/// Requires: the sink has not failed.
fn write_fault<W: Write>(sink: &mut Sink<W>, words: &[&str], fault: LineFault)
    requires { has_failed sink.old ≡ false }
    ensures { IsTold (between W.contents sink.old sink.new)
        (fault_text (map (λ w. w.now) words.now) fault) }
{
    match fault {
        LineFault::NotText => put_fault(sink, words, "a word is not UTF-8 text", Shown::new()),
        LineFault::NoCommand => put_fault(sink, words, "no command is given", Shown::new()),
        LineFault::Words(kind, named) => put_fault(sink, words, kind_words(kind), named),
        LineFault::Value(option, value) => put_value_fault(sink, words, option, value),
    }
}

/// Tells a refusal of these words and sees that it is out, if the sink takes it. Takes no memory.
///
/// Requires: the sink has not failed.
pub(crate) fn write_report<W: Write>(sink: &mut Sink<W>, words: &[&str], refusal: Refusal)
    requires { has_failed sink.old ≡ false }
    ensures { PutsRefusal (map (λ w. w.now) words.now) refusal
        (between W.contents sink.old sink.new) }
{
    match refusal {
        Refusal::BadLine(fault) => write_fault(sink, words, fault),
        Refusal::NoMemory(_) => tell_text(sink, "error: NoMemory(1)\n"),
        Refusal::BadCpu => tell_text(sink, "error: BadCpu(4)\n"),
        Refusal::NoThread(_) => tell_text(sink, "error: NoThread(5)\n"),
        Refusal::NoOrder => tell_text(sink, "error: NoOrder(6)\n"),
        Refusal::ReadFault => tell_text(sink, "error: ReadFault(7)\n"),
        Refusal::WriteFault => tell_text(sink, "error: WriteFault(8)\n"),
        Refusal::BadSchedule => tell_text(sink, "error: BadSchedule(9)\n"),
        Refusal::Plan(error) => write_plan_fault(sink, error),
    }
}
