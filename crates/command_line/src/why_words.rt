// The words of `why`: which position of which run.
ghost use Rattle.std.specs.Prelude.{◌≡◌, IfOk, IfSome};
ghost use Rattle.clap.specs.Words.{found_of, rows_of};
ghost use Rattle.command_line.specs.meaning.Words.{texts};
ghost use Rattle.command_line.specs.Words.{IsWithinLimits};
ghost use Rattle.command_line.specs.meaning.WhyWords.{position_in, sought_in, sought_by};

use crate::arguments::Argument::{self, Positional, Valued};
use crate::arguments::{found_number, taken_as};
use crate::asked::{Asked, Verb, asked_in};
use clap::ArgMatches;
use std::alloc::{AllocError, Global};

// What `why` takes.
const ARGUMENTS: [Argument<'static>; 5] = [
    Positional("program"),
    Positional("position"),
    Valued("faults"),
    Valued("turns"),
    Valued("subthreads"),
];

/// What words ask to be told why: a position of a run, which is asked for as `run` asks for it by the default crew and
/// untraced.
#[derive(Drop)]
pub struct Sought {
    pub run: Asked,
    pub position: u64,
}

// The position, or none where its word is no number.
fn position_in(matches: &ArgMatches<'_>) -> Option<u64>
    ensures { result ≡ position_in (rows_of (found_of matches.now)) }
{
    found_number(matches, "position", 0, u64::MAX)
}

// What the matches of the command ask for, or none where a value is not one of its option.
fn sought_in(alloc: Global, matches: &ArgMatches<'_>) -> Result<Option<Sought>, AllocError>
    ensures sought { IfOk result (λ sought. sought ≡ sought_in (rows_of (found_of matches.now))) }
    ensures within { IfOk result (λ sought. IfSome sought (λ s. IsWithinLimits s.run)) }
{
    let Some(position) = position_in(matches) else {
        return Ok(None);
    };
    let Some(run) = asked_in(alloc, false, Verb::Run, matches)? else {
        return Ok(None);
    };
    Ok(Some(Sought { run, position }))
}

/// What the words ask to be told why, or none where they are not those of `why`: the first word is another, the command
/// does not take the others, or a number is outside its range. `words` are those after the program's own name.
pub fn read_why_words(alloc: Global, words: &[String]) -> Result<Option<Sought>, AllocError>
    ensures sought { IfOk result (λ sought. sought ≡ sought_by (texts words.now)) }
    ensures within { IfOk result (λ sought. IfSome sought (λ s. IsWithinLimits s.run)) }
{
    match taken_as(alloc, "why", &ARGUMENTS, words)? {
        Some(matches) => sought_in(alloc, &matches),
        None => Ok(None),
    }
}
