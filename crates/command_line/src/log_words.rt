// The words of `log`: a run that keeps a log of what retires.
ghost use Rattle.std.specs.Prelude.{◌≡◌, IfOk, IfSome};
ghost use Rattle.clap.specs.Words.{found_of, rows_of};
ghost use Rattle.command_line.specs.meaning.Words.{texts};
ghost use Rattle.command_line.specs.Words.{IsWithinLimits};
ghost use Rattle.command_line.specs.meaning.LogWords.{steals, log_with, log_in, log_by};

use crate::arguments::Argument::{self, Positional, Valued};
use crate::arguments::taken_as;
use crate::asked::{Asked, Command, CrewKind, Verb, asked_in};
use clap::ArgMatches;
use std::alloc::{AllocError, Global};

// What `log` takes.
const ARGUMENTS: [Argument<'static>; 6] = [
    Positional("program"),
    Valued("faults"),
    Valued("turns"),
    Valued("subthreads"),
    Valued("workers"),
    Valued("crew"),
];

// Whether the workers of the crew steal from one another.
fn steals(crew: CrewKind) -> bool
    ensures { result ≡ steals crew }
{
    crew == CrewKind::Steal
}

// The run with a log, or none where no log is kept under its crew.
fn logged(run: Asked) -> Option<Asked>
    requires { IsWithinLimits run }
    ensures asked { result ≡ log_with run }
    ensures within { IfSome result IsWithinLimits }
{
    if steals(run.crew) {
        return None;
    }
    Some(Asked {
        command: Command::Log,
        trace: false,
        ..run
    })
}

// What the matches of the command ask for, or none where a value is not one of its option, or no log is kept under the
// crew.
fn log_in(alloc: Global, matches: &ArgMatches<'_>) -> Result<Option<Asked>, AllocError>
    ensures asked { IfOk result (λ asked. asked ≡ log_in (rows_of (found_of matches.now))) }
    ensures within { IfOk result (λ asked. IfSome asked IsWithinLimits) }
{
    match asked_in(alloc, false, Verb::Run, matches)? {
        Some(run) => Ok(logged(run)),
        None => Ok(None),
    }
}

/// What the words ask for, or none where they are not those of `log`: the first word is another, the command does not
/// take the others, a number is outside its range, a crew's word names none, or its workers steal from one another.
/// `words` are those after the program's own name. The error is that memory is out.
pub fn read_log_words(alloc: Global, words: &[String]) -> Result<Option<Asked>, AllocError>
    ensures asked { IfOk result (λ asked. asked ≡ log_by (texts words.now)) }
    ensures within { IfOk result (λ asked. IfSome asked IsWithinLimits) }
{
    match taken_as(alloc, "log", &ARGUMENTS, words)? {
        Some(matches) => log_in(alloc, &matches),
        None => Ok(None),
    }
}
