// The words of `audit`: whose run is audited, and by which trace.
ghost use Rattle.std.specs.Prelude.{◌≡◌, IfOk, IfSome};
ghost use Rattle.clap.specs.Words.{found_of, rows_of};
ghost use Rattle.command_line.specs.meaning.Words.{texts};
ghost use Rattle.command_line.specs.Words.{IsWithinLimits};
ghost use Rattle.command_line.specs.meaning.AuditWords.{audited_in, audited_by};

use crate::arguments::Argument::{self, Positional, Valued};
use crate::arguments::{found_text, taken_as};
use crate::asked::{Asked, Verb, asked_in};
use clap::ArgMatches;
use gp_base::Name;
use std::alloc::{AllocError, Global};

// What `audit` takes.
const ARGUMENTS: [Argument<'static>; 5] = [
    Positional("program"),
    Positional("trace_file"),
    Valued("faults"),
    Valued("turns"),
    Valued("subthreads"),
];

/// What words ask to be audited: the run that is said to have been, as `run` asks for it by the default crew and
/// untraced, and the file of its trace.
#[derive(Drop)]
pub struct Audited {
    pub run: Asked,
    pub trace: Name,
}

// What the matches of the command ask for, or none where a value is not one of its option.
fn audited_in(alloc: Global, matches: &ArgMatches<'_>) -> Result<Option<Audited>, AllocError>
    ensures audited { IfOk result (λ audited. audited ≡ audited_in (rows_of (found_of matches.now))) }
    ensures within { IfOk result (λ audited. IfSome audited (λ a. IsWithinLimits a.run)) }
{
    let Some(trace) = found_text(matches, "trace_file") else {
        return Ok(None);
    };
    let trace = Name::from_slice(alloc, trace.as_bytes())?;
    let Some(run) = asked_in(alloc, false, Verb::Run, matches)? else {
        return Ok(None);
    };
    Ok(Some(Audited { run, trace }))
}

/// What the words ask to be audited, or none where they are not those of `audit`: the first word is another, the
/// command does not take the others, or a number is outside its range. `words` are those after the program's own name.
pub fn read_audit_words(alloc: Global, words: &[String]) -> Result<Option<Audited>, AllocError>
    ensures audited { IfOk result (λ audited. audited ≡ audited_by (texts words.now)) }
    ensures within { IfOk result (λ audited. IfSome audited (λ a. IsWithinLimits a.run)) }
{
    match taken_as(alloc, "audit", &ARGUMENTS, words)? {
        Some(matches) => audited_in(alloc, &matches),
        None => Ok(None),
    }
}
