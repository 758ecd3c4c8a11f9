// The words of `ckpt`: a run by checkpoints.
ghost use Rattle.std.specs.Prelude.{◌≡◌, ◌≤◌, IfOk, IfSome};
ghost use Rattle.clap.specs.Words.{found_of, rows_of};
ghost use Rattle.command_line.specs.meaning.Words.{texts};
ghost use Rattle.command_line.specs.Words.{IsWithinLimits};
ghost use Rattle.command_line.specs.meaning.CkptWords.{every_in, ckpt_in, ckpt_by};
ghost use Rattle.command_line.specs.declared.ckpt_words.TheConstants.{LEAST_EVERY, MOST_EVERY};

use crate::arguments::Argument::{self, Positional, Valued};
use crate::arguments::{option_number, taken_as};
use crate::asked::{Asked, Command, Verb, asked_in};
use clap::ArgMatches;
use std::alloc::{AllocError, Global};

// What `ckpt` takes.
const ARGUMENTS: [Argument<'static>; 7] = [
    Positional("program"),
    Valued("every"),
    Valued("faults"),
    Valued("turns"),
    Valued("subthreads"),
    Valued("workers"),
    Valued("crew"),
];

/// The subthreads from one checkpoint to the next, at least, at most, and where the words do not say.
pub const LEAST_EVERY: u32 = 1;

pub const MOST_EVERY: u32 = 100000;

pub const DEFAULT_EVERY: u32 = 64;

// After how many subthreads there is a checkpoint, or none where that is no number in its range.
fn every_in(matches: &ArgMatches<'_>) -> Option<u32>
    ensures every { result ≡ every_in (rows_of (found_of matches.now)) }
    ensures within { IfSome result (λ every. (LEAST_EVERY ≤ every) × (every ≤ MOST_EVERY)) }
{
    let least = u64::from(LEAST_EVERY);
    let most = u64::from(MOST_EVERY);
    let usual = u64::from(DEFAULT_EVERY);
    let every = option_number(matches, "every", least, most, usual)?;
    Some(every as u32)
}

// What the matches of the command ask for, or none where a value is not one of its option.
fn ckpt_in(alloc: Global, matches: &ArgMatches<'_>) -> Result<Option<Asked>, AllocError>
    ensures asked { IfOk result (λ asked. asked ≡ ckpt_in (rows_of (found_of matches.now))) }
    ensures within { IfOk result (λ asked. IfSome asked IsWithinLimits) }
{
    let Some(every) = every_in(matches) else {
        return Ok(None);
    };
    let Some(run) = asked_in(alloc, false, Verb::Run, matches)? else {
        return Ok(None);
    };
    Ok(Some(Asked {
        command: Command::Ckpt(every),
        trace: false,
        ..run
    }))
}

/// What the words ask for, or none where they are not those of `ckpt`: the first word is another, the command does not
/// take the others, a number is outside its range, or a crew's word names none. `words` are those after the program's
/// own name.
pub fn read_ckpt_words(alloc: Global, words: &[String]) -> Result<Option<Asked>, AllocError>
    ensures asked { IfOk result (λ asked. asked ≡ ckpt_by (texts words.now)) }
    ensures within { IfOk result (λ asked. IfSome asked IsWithinLimits) }
{
    match taken_as(alloc, "ckpt", &ARGUMENTS, words)? {
        Some(matches) => ckpt_in(alloc, &matches),
        None => Ok(None),
    }
}
