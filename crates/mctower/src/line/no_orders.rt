//! Why words make no order: what they ask for in its place, or what is wrong with them. `why_no_order`
//! takes memory. No call waits.

ghost use Rattle.std.specs.Prelude.{◌≡◌, None, codes, map};
ghost use Rattle.{clap.specs.{Matches.found_of, Values.kind_of, Walk.rows_of}, mctower.specs.{Line.{order_in, order_of}, Print.shown_line}};
ghost use Rattle.mctower.specs.Faults.{IsFaultIn, TellsWhy, TellsKind, first_bad, is_bad, value_at};

use crate::line::{MOST_CPUS, MOST_TIMES, MOST_TURNS, lock_given, number_of, parse};
use crate::refusals::line_faults::{LineFault, NoOrder, ValueOption, option_name};
use crate::refusals::no_memory::told_by_clap;
use crate::refusals::shown_texts::{Shown, shown};
use clap::ArgMatches;
use clap::error::ErrorKind;
use event_log::NoMemory;
use std::alloc::{AllocError, Global};

/// Whether the value that the option has among the matches is none that it takes.
fn is_bad(matches: &ArgMatches<'_>, option: ValueOption) -> bool
    ensures { result ≡ is_bad (rows_of (found_of matches.now)) option }
{
    match option {
        ValueOption::Cpus => number_of(matches, "cpus", 1, MOST_CPUS).is_none(),
        ValueOption::Times => number_of(matches, "times", 1, MOST_TIMES).is_none(),
        ValueOption::Lock => lock_given(matches).is_none(),
        ValueOption::Turns => number_of(matches, "turns", 1, MOST_TURNS).is_none(),
    }
}

/// The first option of `count` whose value is none that it takes.
fn first_bad_of_count(matches: &ArgMatches<'_>) -> Option<ValueOption>
    ensures { result ≡ first_bad (codes "count", rows_of (found_of matches.now)) }
{
    if is_bad(matches, ValueOption::Cpus) {
        Some(ValueOption::Cpus)
    } else if is_bad(matches, ValueOption::Times) {
        Some(ValueOption::Times)
    } else if is_bad(matches, ValueOption::Lock) {
        Some(ValueOption::Lock)
    } else {
        None
    }
}

/// The first option of the command of this name whose value is none that it takes.
fn first_bad(name: &str, matches: &ArgMatches<'_>) -> Option<ValueOption>
    ensures { result ≡ first_bad (name.now, rows_of (found_of matches.now)) }
{
    match name {
        "count" => first_bad_of_count(matches),
        "threads" => {
            if is_bad(matches, ValueOption::Turns) {
                Some(ValueOption::Turns)
            } else {
                None
            }
        }
        _ => None,
    }
}

/// The value of an option, as it is shown.
fn value_shown(matches: &ArgMatches<'_>, option: ValueOption) -> Shown
    ensures { result.bytes ≡ shown_line (value_at option (rows_of (found_of matches.now))) }
{
    shown(matches.get_str(option_name(option)).unwrap_or(""))
}

/// What is wrong with the command of this name and its values.
///
/// Requires: they are no order.
fn fault_named(name: &str, matches: &ArgMatches<'_>) -> LineFault
    requires { order_in (name.now, rows_of (found_of matches.now)) ≡ None }
    ensures { IsFaultIn (name.now, rows_of (found_of matches.now)) result }
{
    match first_bad(name, matches) {
        Some(option) => LineFault::Value(option, value_shown(matches, option)),
        None => LineFault::NoCommand,
    }
}

/// The text between the first quote and the last.
fn quoted(text: &str) -> Option<&str> {
    let (_, behind) = text.split_once('\'')?;
    let (word, _) = behind.rsplit_once('\'')?;
    Some(word)
}

/// The near word that a tip of `clap` tells.
fn near_word(tip: &str) -> Option<&str> {
    if tip.contains("similar") || tip.starts_with("  tip: '") {
        let (_, behind) = tip.split_once('\'')?;
        let (word, _) = behind.split_once('\'')?;
        Some(word)
    } else {
        None
    }
}

/// The options that stand in a list of `clap`, one a line, behind a colon.
fn listed(alloc: Global, message: &str) -> Result<String, AllocError> {
    let mut text = String::new(alloc);
    let Some((_, list)) = message.split_once(":\n") else {
        return Ok(text);
    };
    text.push_str(":")?;
    for line in list.lines() {
        text.push_str(" ")?;
        text.push_str(line.trim())?;
    }
    Ok(text)
}

/// What may be meant by a word to which `clap` knows no near one, or where what it asks for belongs.
/// Empty if nothing is known of it.
fn meant_by(word: &str) -> &'static str {
    match word {
        "version" => "; is '--version' meant?",
        "--lock" => "; a plan names its lock by its key lock",
        _ => "",
    }
}

/// What a refusal of `clap` names, behind a colon: the argument, and a near word if there is one; or
/// the options that are missing. Empty if it names nothing.
fn named_in(alloc: Global, refusal: &str) -> Result<String, AllocError> {
    let (message, tip) = match refusal.split_once("\n\n") {
        Some(parts) => parts,
        None => (refusal, ""),
    };
    match (quoted(message), near_word(tip)) {
        (Some(word), Some(near)) => format!(in alloc; ": '{word}'; is '{near}' meant?"),
        (Some(word), None) => format!(in alloc; ": '{word}'{}", meant_by(word)),
        (None, _) => listed(alloc, message),
    }
}

/// What `clap`'s refusal says of the words, by its kind.
///
/// Errors: `NoMemory` if an allocation was refused.
fn why_refused(alloc: Global, error: &clap::Error) -> Result<NoOrder, NoMemory>
    ensures { TellsKind (kind_of error.now) result }
{
    if let Some(refused) = told_by_clap(error.kind()) {
        return Err(refused);
    }
    match error.kind() {
        ErrorKind::DisplayHelp => Ok(NoOrder::AsksHelp),
        ErrorKind::DisplayVersion => Ok(NoOrder::AsksVersion),
        kind => {
            let text = format!(in alloc; "{error}")?;
            let named = named_in(alloc, text.as_str())?;
            Ok(NoOrder::Faulty(LineFault::Words(kind, shown(named.as_str()))))
        }
    }
}

/// Tells why the words after the program's name make no order: what they ask for, or what is wrong
/// with them. `clap`'s refusal comes first, then the values of the options in their order.
///
/// Requires: `read_line` refuses the words.
///
/// Errors: `NoMemory` where an allocation was refused.
pub fn why_no_order(alloc: Global, words: &[&str]) -> Result<NoOrder, NoMemory>
    requires { order_of (map (λ w. w.now) words.now) ≡ None }
    ensures { TellsWhy (map (λ w. w.now) words.now) result }
{
    match parse(alloc, words) {
        Ok(matches) => Ok(NoOrder::Faulty(match matches.subcommand() {
            Some((name, inner)) => fault_named(name, inner),
            None => LineFault::NoCommand,
        })),
        Err(error) => why_refused(alloc, &error),
    }
}
