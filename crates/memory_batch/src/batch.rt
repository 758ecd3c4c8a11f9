// What a batch over files in memory comes to.
ghost use Rattle.std.specs.Prelude.{◌≡◌, ◌++◌, IfOk, IfErr, IfSome};
ghost use Rattle.command_line.specs.meaning.Words.{texts};
ghost use Rattle.command_line.specs.declared.asked.Command.TheVariants.{Run};
ghost use Rattle.call_cases.specs.meaning.Case.{IsCase};
ghost use Rattle.call_cases.specs.meaning.RunCommands.{asking};
ghost use Rattle.call_cases.specs.Decided.{case_of, program_in};
ghost use Rattle.memory_batch.specs.Comes.{ComesTo, EndsSo, TellsSourced};
ghost use Rattle.memory_batch.specs.declared.batch.Unfinished.TheVariants.{OutOfMemory};

use crate::files::distinct_files;
use crate::run::{Ended, run_over};
use crate::sourced::sourced;
use call_cases::{Refusal, Request, read_request, refused_outcome};
use command_line::Command;
use gp_base::{Journal, Lines, MemSink, Name, NeverShelf, Nums, Seq, Text};
use run_told::{Told, told_by};
use std::alloc::{AllocError, Global};
use std::thread::Threads;

/// What a finished run came to: its printed lines; for each head that names a file the new cells of its record, those of a feed none;
/// and its text.
#[derive(Drop)]
pub struct Finished {
    pub lines: Lines,
    pub cells: Seq<Nums>,
    pub text: Text,
}

/// Why a batch comes to nothing: it ended otherwise, stuck, spent, refused or stopped; two of its files have one name; its words
/// are not those of `run`; its text was not read as it was written; memory is out.
#[derive(Drop)]
pub enum Unfinished {
    Ended(Ended),
    SameNames,
    NotRun,
    Unread,
    OutOfMemory,
}

impl From<AllocError> for Unfinished {
    ghost from_gives = { λ _ e. e ≡ OutOfMemory };

    fn from(_: AllocError) -> Self {
        Unfinished::OutOfMemory
    }
}

// How a batch ended that is refused.
fn ended_by(alloc: Global, refusal: Refusal) -> Result<Ended, AllocError> {
    let mut err = MemSink::new(alloc, usize::MAX, Seq::new(alloc));
    let outcome = refused_outcome(alloc, refusal, &mut err);
    Ok(Ended {
        status: outcome.status,
        text: Text::new(alloc),
        told: Text::from_slice(alloc, err.written())?,
    })
}

/// What the words ask for over these files, read and judged as for a run, but not run.
pub fn judge(
    alloc: Global,
    words: &[String],
    own: &[(Name, Text)],
    tables: &[(Name, Text)],
) -> Result<Request, Unfinished>
    ensures { IfOk result (λ request. IsCase asking (texts words.now) (own.now ++ tables.now) (case_of request)) }
{
    let Some(files) = distinct_files(alloc, own, tables)? else {
        return Err(Unfinished::SameNames);
    };
    let mut shelf = NeverShelf::new(alloc, files);
    match read_request(alloc, words, &mut shelf) {
        Ok(request) => Ok(request),
        Err(refusal) => Err(Unfinished::Ended(ended_by(alloc, refusal)?)),
    }
}

// The run that the words ask for over these files.
fn run_asked(
    alloc: Global,
    words: &[String],
    own: &[(Name, Text)],
    tables: &[(Name, Text)],
) -> Option<Request>
    ensures case { IfSome result (λ request. IsCase asking (texts words.now) (own.now ++ tables.now) (case_of request)) }
    ensures run { IfSome result (λ request. request.asked.command ≡ Run) }
{
    let Ok(request) = judge(alloc, words, own, tables) else {
        return None;
    };
    match request.asked.command {
        Command::Run => Some(request),
        _ => None,
    }
}

// What the text of a run of this program came to, whose journal this is.
fn finished_by(
    alloc: Global,
    request: &Request,
    text: Text,
    journal: Journal,
) -> Result<Option<Finished>, AllocError>
    ensures { IfOk result (λ finished. IfSome finished (λ finished.
        TellsSourced (program_in request.now).heads finished.lines finished.cells text × (finished.text ≡ text))) }
{
    let Some(told) = told_by(alloc, text.as_slice(), &request.checked, journal)? else {
        return Ok(None);
    };
    let heads = request.checked.program().heads.as_slice();
    let cells = sourced(alloc, heads, told.cells.as_slice())?;
    let Told { lines, .. } = told;
    Ok(Some(Finished { lines, cells, text }))
}

/// Runs what the words ask for over these files, and answers what it came to where it finished. Else it is answered how it
/// ended, as `gprs_run` does. The journal of the run is let go. `NotRun` is answered too where memory was out as it was
/// asked again what the words are for.
pub fn finish<R: Threads + Sync + AllocGlobal>(
    rt: &R,
    words: &[String],
    own: &[(Name, Text)],
    tables: &[(Name, Text)],
) -> Result<Finished, Unfinished>
    ensures finished { IfOk result (λ finished. ComesTo (texts words.now) (own.now ++ tables.now) finished.lines finished.cells finished.text) }
    ensures ended { IfErr result (EndsSo (texts words.now) (own.now ++ tables.now)) }
{
    let alloc = rt.alloc();
    let Some(files) = distinct_files(alloc, own, tables)? else {
        return Err(Unfinished::SameNames);
    };
    let (ended, journal) = run_over(rt, words, files)?;
    if ended.status != 0 {
        return Err(Unfinished::Ended(ended));
    }
    let Some(request) = run_asked(alloc, words, own, tables) else {
        return Err(Unfinished::NotRun);
    };
    let Some(finished) = finished_by(alloc, &request, ended.text, journal)? else {
        return Err(Unfinished::Unread);
    };
    Ok(finished)
}
