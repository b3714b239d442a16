//! What is wrong with a command line. No call takes memory or waits.

ghost use Rattle.std.specs.Prelude.{◌≡◌};
ghost use Rattle.mctower.specs.Faults.{option_name};

use crate::refusals::shown_texts::Shown;
use clap::error::ErrorKind;

/// What words are that make no order.
#[derive(Clone, Copy, Debug, PartialEq, Eq)]
pub enum NoOrder {
    /// They ask for help.
    AsksHelp,
    /// They ask for the version.
    AsksVersion,
    /// They are no command line.
    Faulty(LineFault),
}

/// What is wrong with words that are no command line.
#[derive(Clone, Copy, Debug, PartialEq, Eq)]
pub enum LineFault {
    /// A word is no UTF-8 text.
    NotText,
    /// No command is named.
    NoCommand,
    /// `clap` refuses the words: the kind of the fault, and what `clap` names, as it is shown.
    Words(ErrorKind, Shown),
    /// The value of an option is none that it takes: the option, and the value as it is shown.
    Value(ValueOption, Shown),
}

/// An option whose value has to be in a range, or one of a few names.
#[derive(Clone, Copy, Debug, PartialEq, Eq)]
pub enum ValueOption {
    /// How many CPUs `count` has.
    Cpus,
    /// How many sections `count` does for each CPU.
    Times,
    /// The lock behind which `count` counts.
    Lock,
    /// How many turns `threads` gives each CPU.
    Turns,
}

/// The name of an option, without its dashes.
pub(crate) fn option_name(option: ValueOption) -> &'static str
    ensures { result.now ≡ option_name option }
{
    match option {
        ValueOption::Cpus => "cpus",
        ValueOption::Times => "times",
        ValueOption::Lock => "lock",
        ValueOption::Turns => "turns",
    }
}
