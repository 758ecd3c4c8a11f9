// The words of `resume`: which run goes on, and from which log.
ghost use Rattle.std.specs.Prelude.{◌≡◌, IfOk, IfSome};
ghost use Rattle.clap.specs.Words.{found_of, rows_of};
ghost use Rattle.command_line.specs.meaning.Words.{texts};
ghost use Rattle.command_line.specs.Words.{IsWithinLimits};
ghost use Rattle.command_line.specs.meaning.ResumeWords.{resumed_in, resumed_by};

use crate::arguments::Argument::{self, Positional, Valued};
use crate::arguments::{found_text, taken_as};
use crate::asked::{Asked, Verb, asked_in};
use clap::ArgMatches;
use gp_base::Name;
use std::alloc::{AllocError, Global};

// What `resume` takes.
const ARGUMENTS: [Argument<'static>; 4] = [
    Positional("program"),
    Positional("log_file"),
    Valued("turns"),
    Valued("subthreads"),
];

/// What words ask to be gone on with: the run, as `one` asks for it, and the file of the log of what has retired in it.
#[derive(Drop)]
pub struct Resumed {
    pub run: Asked,
    pub log: Name,
}

// What the matches of the command ask for, or none where a value is not one of its option.
fn resumed_in(alloc: Global, matches: &ArgMatches<'_>) -> Result<Option<Resumed>, AllocError>
    ensures resumed { IfOk result (λ resumed. resumed ≡ resumed_in (rows_of (found_of matches.now))) }
    ensures within { IfOk result (λ resumed. IfSome resumed (λ r. IsWithinLimits r.run)) }
{
    let Some(log) = found_text(matches, "log_file") else {
        return Ok(None);
    };
    let log = Name::from_slice(alloc, log.as_bytes())?;
    let Some(run) = asked_in(alloc, false, Verb::One, matches)? else {
        return Ok(None);
    };
    Ok(Some(Resumed { run, log }))
}

/// What the words ask to be gone on with, or none where they are not those of `resume`: the first word is another, the
/// command does not take the others, or a number is outside its range. `words` are those after the program's own name.
/// The error is that memory is out.
pub fn read_resume_words(alloc: Global, words: &[String]) -> Result<Option<Resumed>, AllocError>
    ensures resumed { IfOk result (λ resumed. resumed ≡ resumed_by (texts words.now)) }
    ensures within { IfOk result (λ resumed. IfSome resumed (λ r. IsWithinLimits r.run)) }
{
    match taken_as(alloc, "resume", &ARGUMENTS, words)? {
        Some(matches) => resumed_in(alloc, &matches),
        None => Ok(None),
    }
}
