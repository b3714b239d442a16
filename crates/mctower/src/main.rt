//! The program `mctower`: a command line over the thread tower.
//!
//! The plan of one thread that sends 7, run for 21 steps of CPU 0, prints its trace text:
//!
//! ```text
//! mctower run --schedule '0*21' < plans/one-send.toml
//! mctower-trace 1
//! buffers 1
//! cap 0 1
//! e 0 0 send 0 7 0 0
//! left 0 7
//! end
//! ```
#![tactic(auto)]

ghost use Rattle.std.specs.{Prelude.{◌≡◌, IfOk, false, map, string_bytes}, Process.exit_status};
ghost use Rattle.{tracer.specs.Sinks.has_failed, mctower.specs.{Output.between, Refusals.{PutsRefusal, status_of_refusal}}};
ghost use Rattle.mctower.specs.Serve.{EndsProcess, process_reads, words_refused};

pub mod line;
pub mod locks;
pub mod refusals;
pub mod run;
pub mod serve;
pub mod tell;

use event_log::NoMemory;
use refusals::line_faults::LineFault;
use refusals::no_memory::read_refused;
use refusals::{Refusal, status_of_refusal};
use serve::serve;
use std::alloc::Global;
use std::io::{BufWriter, Read, Write};
use std::process::ExitCode;
use std::sync::Wait;
use std::thread::Threads;
use std::{env, io};
use tell::refusal_lines::write_report;
use tracer::Sink;

fn main(rt: HostRuntime) -> ExitCode {
    let words = words_after_the_name(&rt);
    let mut err = Sink::new(rt.stderr());
    match BufWriter::new(rt.alloc(), io::writer(&rt)) {
        Ok(out) => serve_words(&rt, words, &mut rt.reader(), &mut Sink::new(out), &mut err),
        Err(error) => refused(&mut err, &[], read_refused(error.kind())),
    }
}

/// Returns why the words could not be had, by the kind of the error. A word that is no UTF-8 text
/// makes a bad command line.
fn words_refused(kind: io::ErrorKind) -> Refusal
    ensures { result ≡ words_refused kind }
{
    match kind {
        io::ErrorKind::InvalidData => Refusal::BadLine(LineFault::NotText),
        kind => read_refused(kind),
    }
}

/// Returns the words of the command line.
///
/// Errors: as the kind of the error says.
fn words_after_the_name(rt: &HostRuntime) -> Result<Vec<String>, Refusal> {
    match env::args(rt) {
        Ok(args) => match args.skip(1).collect(rt.alloc()) {
            Ok(words) => Ok(words),
            Err(error) => Err(Refusal::NoMemory(NoMemory::from(error))),
        },
        Err(error) => Err(words_refused(error.kind())),
    }
}

/// Returns the words as texts.
fn texts_of<'w>(alloc: Global, words: &'w [String]) -> Result<Vec<&'w str>, NoMemory>
    ensures { IfOk result (λ texts. map (λ t. t.now) texts.items
        ≡ map string_bytes words.entry.now) }
{
    let mut texts = Vec::new(alloc);
    for word in words {
        texts.push(word.as_str())?;
    }
    Ok(texts)
}

/// Reports the error of these words, and returns the exit status of the process.
fn refused<E: Write>(err: &mut Sink<E>, words: &[&str], refusal: Refusal) -> ExitCode
    requires { has_failed err.old ≡ false }
    ensures status { exit_status result ≡ status_of_refusal refusal }
    ensures told { PutsRefusal (map (λ w. w.now) words.now) refusal
        (between E.contents err.old err.new) }
{
    let status = status_of_refusal(&refusal);
    write_report(err, words, refusal);
    ExitCode::from(status)
}

/// Serves the words over these streams, as [`serve`] says, and returns the exit status of the
/// process. If the words could not be had, that error is reported, and no input is read.
///
/// Requires: neither `out` nor `err` has failed.
fn serve_words<T: AllocGlobal + Threads + Wait + Sync, R: Read, O: Write, E: Write>(
    rt: &T,
    words: Result<Vec<String>, Refusal>,
    input: &mut R,
    out: &mut Sink<O>,
    err: &mut Sink<E>,
) -> ExitCode
    requires out { has_failed out.old ≡ false }
    requires err { has_failed err.old ≡ false }
    ensures ends { EndsProcess words (R.remaining input.old) (exit_status result)
        (between O.contents out.old out.new) (between E.contents err.old err.new) }
    ensures unread { process_reads words ≡ false → input.new ≡ input.old }
{
    let words = match words {
        Ok(words) => words,
        Err(refusal) => return refused(err, &[], refusal),
    };
    match texts_of(rt.alloc(), words.as_slice()) {
        Ok(texts) => ExitCode::from(serve(rt, rt.alloc(), texts.as_slice(), input, out, err)),
        Err(lacking) => refused(err, &[], Refusal::NoMemory(lacking)),
    }
}
