//! The command line: which order the words after the program's name make. `read_line` takes memory.
//! No call waits.
ghost use Rattle.std.specs.Prelude.{◌≡◌, IfOk, OkIff, codes, map, option_map, true, false};
ghost use Rattle.clap.specs.{Simple.{app_of, subcommand_rows_of}, Matches.found_of, Walk.{first_of, rows_of, rule_of}};
ghost use Rattle.{clap.specs.declared.builder.command.Command.TheViews.out-Command, event_log.specs.Refusals.no_memory};
ghost use Rattle.mctower.specs.{declared.line.LineError.TheVariants.NoMemory, Line.{Reads, check_app, count_app, count_meant, number_in, option_number}};
ghost use Rattle.mctower.specs.Line.{lock_asked, optional, order_of, program, run_app, threads_app, required_option, threads_meant, run_in, order_in, Finds};
ghost use Rattle.mctower.specs.Line.{Parses};

pub(crate) mod help_texts;
pub(crate) mod no_orders;
pub mod schedules;

use crate::line::help_texts::VERSION;
use crate::refusals::no_memory::told_by_clap;
use boot::LockKind;
use clap::{Arg, ArgMatches, Command};
use event_log::{CPUS, NoMemory};
use std::alloc::{AllocError, AllocFailed, Global};
use thiserror::Error;

/// The most CPUs that `count` takes.
pub const MOST_CPUS: u64 = CPUS as u64;
/// The most sections that `count` does for each CPU.
pub const MOST_TIMES: u64 = 1000;
/// The most turns that `threads` gives each CPU.
pub const MOST_TURNS: u64 = 1_000_000_000;

/// What the program is asked to do.
#[derive(Debug, Drop)]
pub enum Order {
    /// Adds 1 to one number in sections of several CPUs: how many CPUs (1 to `MOST_CPUS`), and how
    /// many sections for each (1 to 1000), and behind which lock.
    Count(u8, u64, LockKind),
    /// Runs the plan on standard input under this schedule; without one no step is taken.
    Run(Option<String>),
    /// Runs the plan on standard input with one thread for each CPU, each with at most that many
    /// turns (1 to 1,000,000,000).
    Threads(u64),
    /// Says whether standard input is the trace text of a run.
    Check,
}

/// Why the words make no order.
#[derive(Debug, Clone, Copy, PartialEq, Eq, Error)]
pub enum LineError {
    /// An allocation was refused.
    #[error("{0}")]
    NoMemory(NoMemory),
    /// The words are no command line of this program, or ask for help or the version.
    #[error("bad command line")]
    Refused,
}

impl From<AllocError> for LineError {
    ghost from_gives = { λ _ e. e ≡ NoMemory no_memory };

    fn from(error: AllocError) -> LineError {
        LineError::NoMemory(NoMemory::from(error))
    }
}

fn needed<'a>(alloc: Global, name: &'a str) -> Arg<'a>
    ensures rule { rule_of result ≡ required_option name.entry.now }
    ensures local_is { result.global ≡ false }
{
    Arg::new(alloc, name).long(name).required(true)
}

fn count_command<'a>(alloc: Global) -> Result<Command<'a>, AllocError>
    ensures { IfOk result (λ c. (app_of c ≡ count_app) × ((out-Command c).has_globals ≡ false)) }
{
    Command::new(alloc, "count")
        .arg(needed(alloc, "cpus"))?
        .arg(needed(alloc, "times"))?
        .arg(Arg::new(alloc, "lock").long("lock"))
}

fn run_command<'a>(alloc: Global) -> Result<Command<'a>, AllocError>
    ensures { IfOk result (λ c. (app_of c ≡ run_app) × ((out-Command c).has_globals ≡ false)) }
{
    Command::new(alloc, "run").arg(Arg::new(alloc, "schedule").long("schedule"))
}

fn threads_command<'a>(alloc: Global) -> Result<Command<'a>, AllocError>
    ensures { IfOk result (λ c. (app_of c ≡ threads_app) × ((out-Command c).has_globals ≡ false)) }
{
    Command::new(alloc, "threads").arg(needed(alloc, "turns"))
}

fn program<'a>(alloc: Global) -> Result<Command<'a>, AllocError>
    ensures { IfOk result (λ c. app_of c ≡ program) }
{
    Command::new(alloc, "mctower")
        .no_binary_name(true)
        .version(VERSION)
        .subcommand(count_command(alloc)?)?
        .subcommand(run_command(alloc)?)?
        .subcommand(threads_command(alloc)?)?
        .subcommand(Command::new(alloc, "check"))
}

/// What clap makes of the words.
pub(crate) fn parse<'a>(alloc: Global, words: &'a [&'a str]) -> Result<ArgMatches<'a>, clap::Error>
    ensures { Parses (map (λ w. w.now) words.entry.now) result }
{
    program(alloc)?.try_get_matches_from(words)
}

// What clap makes of the words; its error for out of memory is separated from the others.
fn matches_in<'a>(alloc: Global, words: &'a [&'a str]) -> Result<ArgMatches<'a>, LineError>
    ensures { Finds (map (λ w. w.now) words.entry.now) result }
{
    match parse(alloc, words) {
        Ok(matches) => Ok(matches),
        Err(error) => match told_by_clap(error.kind()) {
            Some(refused) => Err(LineError::NoMemory(refused)),
            None => Err(LineError::Refused),
        },
    }
}

// The number that a text spells, from `least` to `most`.
fn number(text: &str, least: u64, most: u64) -> Option<u64>
    ensures { result ≡ number_in least most text.now }
{
    match text.parse::<u64>() {
        Ok(n) => {
            if least <= n && n <= most {
                Some(n)
            } else {
                None
            }
        }
        Err(_) => None,
    }
}

/// The number that the option of this name has, from `least` to `most`.
pub(crate) fn number_of(matches: &ArgMatches<'_>, name: &str, least: u64, most: u64) -> Option<u64>
    ensures { result ≡ option_number least most name.now (rows_of (found_of matches.now)) }
{
    number(matches.get_str(name)?, least, most)
}

/// The lock that is asked for; the one with grant words, where none is named.
pub(crate) fn lock_given(matches: &ArgMatches<'_>) -> Option<LockKind>
    ensures { result ≡ lock_asked (first_of (codes "lock") (rows_of (found_of matches.now))) }
{
    match matches.get_str("lock") {
        Some(name) => LockKind::named(name),
        None => Some(LockKind::Grant),
    }
}

fn count_order(matches: &ArgMatches<'_>) -> Result<Order, LineError>
    ensures { Reads (count_meant (rows_of (found_of matches.now))) result }
{
    let Some(cpus) = number_of(matches, "cpus", 1, MOST_CPUS) else {
        return Err(LineError::Refused);
    };
    let Some(times) = number_of(matches, "times", 1, MOST_TIMES) else {
        return Err(LineError::Refused);
    };
    let Some(lock) = lock_given(matches) else {
        return Err(LineError::Refused);
    };
    Ok(Order::Count(cpus as u8, times, lock))
}

fn threads_order(matches: &ArgMatches<'_>) -> Result<Order, LineError>
    ensures { Reads (threads_meant (rows_of (found_of matches.now))) result }
{
    match number_of(matches, "turns", 1, MOST_TURNS) {
        Some(turns) => Ok(Order::Threads(turns)),
        None => Err(LineError::Refused),
    }
}

fn run_order(alloc: Global, matches: &ArgMatches<'_>) -> Result<Order, LineError>
    ensures { Reads (run_in (rows_of (found_of matches.now))) result }
{
    match matches.get_str("schedule") {
        Some(text) => Ok(Order::Run(Some(String::from_str(alloc, text)?))),
        None => Ok(Order::Run(None)),
    }
}

// The order of the command of this name.
fn order_named(alloc: Global, name: &str, matches: &ArgMatches<'_>) -> Result<Order, LineError>
    ensures { Reads (order_in (name.now, rows_of (found_of matches.now))) result }
{
    match name {
        "count" => count_order(matches),
        "run" => run_order(alloc, matches),
        "threads" => threads_order(matches),
        "check" => Ok(Order::Check),
        _ => Err(LineError::Refused),
    }
}

/// Reads the words after the program's name, by the rules of `clap`.
///
/// The order is given exactly where those rules find no fault in the words and each number is in
/// its range (as `clap` reads a number, so `+2` and `007` are numbers).
///
/// Errors: `Refused` for all other words, also for a request for help and for no word at all;
/// `why_no_order` says why. `NoMemory` only if memory ran out. Then nothing was done.
pub fn read_line(alloc: Global, words: &[&str]) -> Result<Order, LineError>
    ensures { Reads (order_of (map (λ w. w.now) words.now)) result }
{
    let matches = matches_in(alloc, words)?;
    match matches.subcommand() {
        Some((name, inner)) => order_named(alloc, name, inner),
        None => Err(LineError::Refused),
    }
}
