// The arguments of a command, one parse by it, and the values that the parse found.
ghost use Rattle.std.specs.Prelude.{◌≡◌, ◌≤◌, false, true, option_map, IfOk, IfSome, Some};
ghost use Rattle.clap.specs.Words.{app_of, found_of, is_simple_and_free, rows_of, rule_of, first_of};
ghost use Rattle.command_line.specs.meaning.Arguments.{is_on, number_of, number_or};
ghost use Rattle.command_line.specs.meaning.Words.{accepted, accepted_as, begins_with, texts};
ghost use Rattle.command_line.specs.Arguments.{app_with, found_rows, rule_for};

use crate::number::number_in;
use clap::error::ErrorKind;
use clap::{Arg, ArgAction, ArgMatches, Command};
use std::alloc::{AllocError, Global};

/// An argument that a command takes: a word that has to stand there, or one that may be left out, which is an option
/// with a value or a flag without one.
#[derive(Clone, Copy)]
pub enum Argument<'a> {
    Positional(&'a str),
    Valued(&'a str),
    Flag(&'a str),
}

// The argument as `clap` has it.
fn arg_of<'a>(alloc: Global, argument: &Argument<'a>) -> Arg<'a>
    ensures rule { rule_of result ≡ rule_for argument.now }
    ensures local { result.global ≡ false }
{
    match *argument {
        Argument::Positional(name) => Arg::new(alloc, name).required(true),
        Argument::Valued(name) => Arg::new(alloc, name).long(name),
        Argument::Flag(name) => Arg::new(alloc, name).long(name).action(ArgAction::SetTrue),
    }
}

// A command of this name that takes these arguments, and has no help flag.
fn command_of<'a>(
    alloc: Global,
    name: &'a str,
    arguments: &[Argument<'a>],
) -> Result<Command<'a>, AllocError>
    ensures { IfOk result (λ command. app_of command ≡ app_with name.entry.now arguments.entry.now) }
{
    let mut command = Command::new(alloc, name).disable_help_flag(true);
    for argument in arguments {
        command = command.arg(arg_of(alloc, argument))?;
    }
    Ok(command)
}

/// The matches of the words by a command of this name that takes these arguments, or none where it does not take the
/// words. The first word is any that stands for the command.
pub fn taken<'a>(
    alloc: Global,
    name: &'a str,
    arguments: &[Argument<'a>],
    words: &'a [String],
) -> Result<Option<ArgMatches<'a>>, AllocError>
    requires { is_simple_and_free (app_with name.now arguments.now) ≡ true }
    ensures { IfOk result (λ found. option_map found_rows found ≡ accepted (app_with name.entry.now arguments.entry.now) Some (texts words.entry.now)) }
{
    let command = command_of(alloc, name, arguments)?;
    match command.try_get_matches_from(words) {
        Ok(matches) => Ok(Some(matches)),
        Err(error) => {
            let kind = error.kind();
            drop(error);
            if kind == ErrorKind::OutOfMemory {
                Err(AllocError)
            } else {
                Ok(None)
            }
        }
    }
}

/// The same where the words begin with the command's name, and none where they do not.
pub fn taken_as<'a>(
    alloc: Global,
    name: &'a str,
    arguments: &[Argument<'a>],
    words: &'a [String],
) -> Result<Option<ArgMatches<'a>>, AllocError>
    requires { is_simple_and_free (app_with name.now arguments.now) ≡ true }
    ensures { IfOk result (λ found. option_map found_rows found ≡ accepted_as name.entry.now (app_with name.entry.now arguments.entry.now) Some (texts words.entry.now)) }
{
    if begins_with(name, words) {
        taken(alloc, name, arguments, words)
    } else {
        Ok(None)
    }
}

/// Whether the first of the words is this one.
pub fn begins_with(name: &str, words: &[String]) -> bool
    ensures { result ≡ begins_with name.now (texts words.now) }
{
    match words {
        [word, ..] => word.as_str() == name,
        [] => false,
    }
}

/// The text that stands for an argument.
pub fn found_text<'a>(matches: &ArgMatches<'a>, name: &str) -> Option<&'a str>
    ensures { option_map (λ text. text.now) result ≡ first_of name.now (rows_of (found_of matches.now)) }
{
    matches.get_str(name)
}

/// The number of an option, another where it was left out, or none where its text is no number within the limits.
pub fn option_number(
    matches: &ArgMatches<'_>,
    name: &str,
    low: u64,
    high: u64,
    other: u64,
) -> Option<u64>
    requires { (low ≤ other) × (other ≤ high) }
    ensures value { result ≡ number_or low high other (first_of name.now (rows_of (found_of matches.now))) }
    ensures within { IfSome result (λ n. (low ≤ n) × (n ≤ high)) }
{
    match found_text(matches, name) {
        Some(text) => number_in(low, high, text),
        None => Some(other),
    }
}

/// The number of an argument, or none where its text is no number within the limits.
pub fn found_number(matches: &ArgMatches<'_>, name: &str, low: u64, high: u64) -> Option<u64>
    ensures value { result ≡ number_of low high (first_of name.now (rows_of (found_of matches.now))) }
    ensures within { IfSome result (λ n. (low ≤ n) × (n ≤ high)) }
{
    let text = found_text(matches, name)?;
    number_in(low, high, text)
}

/// Whether a flag is there.
pub fn is_given(matches: &ArgMatches<'_>, name: &str) -> bool
    ensures { result ≡ is_on (first_of name.now (rows_of (found_of matches.now))) }
{
    match found_text(matches, name) {
        Some(text) => text == "true",
        None => false,
    }
}
