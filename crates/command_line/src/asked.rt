// The commands, and what words ask for.
ghost use Rattle.std.specs.Prelude.{◌≡◌, ◌<◌, ◌≤◌, IfOk, IfSome, Some, option_map};
ghost use Rattle.gp_base.specs.declared.limits.TheConstants.{MOST_WORKERS, MOST_SUBTHREADS, LEAST_MOVES, MOST_MOVES};
ghost use Rattle.clap.specs.Words.{found_of, rows_of};
ghost use Rattle.command_line.specs.meaning.Words.{accepted, texts, named_verb, named_crew, app_for, asked_among, asked_by, asked_in, asked_of, asked_waiting, command_in, crew_in, soak_in, limits_in, program_in, faults_in, is_pipe, wants_pipe};
ghost use Rattle.command_line.specs.Arguments.{found_rows};
ghost use Rattle.command_line.specs.Words.{IsWithinRanges, IsWithinLimits};

use crate::arguments::Argument::{self, Flag, Positional, Valued};
use crate::arguments::{found_number, found_text, is_given, option_number, taken};
use clap::ArgMatches;
use gp_base::limits::{
    DEFAULT_SUBTHREADS, DEFAULT_TURNS, DEFAULT_WORKERS, LEAST_MOVES, MOST_MOVES, MOST_SUBTHREADS,
    MOST_TURNS, MOST_WORKERS,
};
use gp_base::{Limits, Name};
use std::alloc::{AllocError, Global};

/// A batch of transfers that the program makes itself: how many moves, and the number from which their draws begin.
#[derive(Clone, Copy, PartialEq, Eq)]
pub struct Soak {
    pub moves: u32,
    pub start: u64,
}

/// What is to be done: that a program is run; that it is run on one thread, without faults; that it is checked alone;
/// that a batch is made and run; that a program is run by checkpoints, one after each so many subthreads; or that it is
/// run, and a log is kept of what retires.
#[derive(Clone, Copy, PartialEq, Eq)]
pub enum Command {
    Run,
    One,
    Check,
    Soak(Soak),
    Ckpt(u32),
    Log,
}

/// Who carries out the subthreads of a run: the calling thread, one after another; workers that share a wave of them
/// out beforehand, that draw from a board, or that steal from one another; or lasting workers that wait for boards.
#[derive(Clone, Copy, PartialEq, Eq)]
pub enum CrewKind {
    One,
    Wave,
    Board,
    Steal,
    Pipe,
}

/// What words ask for: a command, on the program of this file, with the faults of that one, under these limits, by such
/// a crew of so many workers, and whether the run is traced. A batch that the program makes has these files in itself.
#[derive(Drop)]
pub struct Asked {
    pub command: Command,
    pub program: Name,
    pub faults: Option<Name>,
    pub limits: Limits,
    pub crew: CrewKind,
    pub workers: u32,
    pub trace: bool,
}

/// The first word of a call.
#[derive(Clone, Copy)]
pub enum Verb {
    Run,
    One,
    Check,
    Soak,
}

fn named_verb(word: &str) -> Option<Verb>
    ensures { result ≡ named_verb word.now }
{
    match word {
        "run" => Some(Verb::Run),
        "one" => Some(Verb::One),
        "check" => Some(Verb::Check),
        "soak" => Some(Verb::Soak),
        _ => None,
    }
}

// The crew of a word. Lasting workers are one only for a call that may wait.
fn named_crew(waits: bool, word: &str) -> Option<CrewKind>
    ensures { result ≡ named_crew waits word.now }
{
    match word {
        "one" => Some(CrewKind::One),
        "wave" => Some(CrewKind::Wave),
        "board" => Some(CrewKind::Board),
        "steal" => Some(CrewKind::Steal),
        "pipe" if waits => Some(CrewKind::Pipe),
        _ => None,
    }
}

// What each command takes.
const RUN: [Argument<'static>; 7] = [
    Positional("program"),
    Valued("faults"),
    Flag("trace"),
    Valued("turns"),
    Valued("subthreads"),
    Valued("workers"),
    Valued("crew"),
];

const ONE: [Argument<'static>; 3] = [Positional("program"), Valued("turns"), Valued("subthreads")];

const CHECK: [Argument<'static>; 1] = [Positional("program")];

const SOAK: [Argument<'static>; 4] = [
    Positional("moves"),
    Positional("start"),
    Valued("workers"),
    Valued("crew"),
];

// The matches of the words by a command, or none where it does not take them.
fn taken_for<'a>(
    alloc: Global,
    verb: Verb,
    words: &'a [String],
) -> Result<Option<ArgMatches<'a>>, AllocError>
    ensures { IfOk result (λ found. option_map found_rows found ≡ accepted (app_for verb) Some (texts words.entry.now)) }
{
    match verb {
        Verb::Run => taken(alloc, "run", &RUN, words),
        Verb::One => taken(alloc, "one", &ONE, words),
        Verb::Check => taken(alloc, "check", &CHECK, words),
        Verb::Soak => taken(alloc, "soak", &SOAK, words),
    }
}

// The batch that is to be made, or none where a number is not one, or is outside its range.
fn soak_in(matches: &ArgMatches<'_>) -> Option<Soak>
    ensures batch { result ≡ soak_in (rows_of (found_of matches.now)) }
    ensures within { IfSome result (λ s. (LEAST_MOVES ≤ s.moves) × (s.moves ≤ MOST_MOVES)) }
{
    let least = u64::from(LEAST_MOVES);
    let most = u64::from(MOST_MOVES);
    let moves = found_number(matches, "moves", least, most)?;
    let start = found_number(matches, "start", 0, u64::MAX)?;
    Some(Soak {
        moves: moves as u32,
        start,
    })
}

// What is to be done, or none where it is a batch whose numbers are none.
fn command_in(verb: Verb, matches: &ArgMatches<'_>) -> Option<Command>
    ensures command { result ≡ command_in verb (rows_of (found_of matches.now)) }
    ensures within { IfSome result IsWithinRanges }
{
    match verb {
        Verb::Run => Some(Command::Run),
        Verb::One => Some(Command::One),
        Verb::Check => Some(Command::Check),
        Verb::Soak => {
            let soak = soak_in(matches)?;
            Some(Command::Soak(soak))
        }
    }
}

// The name of the program's file.
fn program_in<'a>(verb: Verb, matches: &ArgMatches<'a>) -> Option<&'a str>
    ensures { option_map (λ text. text.now) result ≡ program_in verb (rows_of (found_of matches.now)) }
{
    match verb {
        Verb::Soak => Some("soak.gp"),
        _ => found_text(matches, "program"),
    }
}

// The name of the file of faults, where there is one.
fn faults_in<'a>(verb: Verb, matches: &ArgMatches<'a>) -> Option<&'a str>
    ensures { option_map (λ text. text.now) result ≡ faults_in verb (rows_of (found_of matches.now)) }
{
    match verb {
        Verb::Soak => Some("faults.csv"),
        _ => found_text(matches, "faults"),
    }
}

// The crew, or none where the word is that of no crew.
fn crew_in(waits: bool, matches: &ArgMatches<'_>) -> Option<CrewKind>
    ensures { result ≡ crew_in waits (rows_of (found_of matches.now)) }
{
    match found_text(matches, "crew") {
        Some(word) => named_crew(waits, word),
        None => Some(CrewKind::Wave),
    }
}

// The limits, or none where one is no number or is outside its range.
fn limits_in(matches: &ArgMatches<'_>) -> Option<Limits>
    ensures limits { result ≡ limits_in (rows_of (found_of matches.now)) }
    ensures some_subthread { IfSome result (λ limits. 0 < limits.subthreads) }
    ensures few_subthreads { IfSome result (λ limits. limits.subthreads ≤ MOST_SUBTHREADS) }
{
    let most = u64::from(MOST_SUBTHREADS);
    let usual = u64::from(DEFAULT_SUBTHREADS);
    let turns = option_number(matches, "turns", 1, MOST_TURNS, DEFAULT_TURNS)?;
    let subthreads = option_number(matches, "subthreads", 1, most, usual)?;
    Some(Limits {
        turns,
        subthreads: subthreads as u32,
    })
}

// The name that a text is, where there is one.
fn named(alloc: Global, text: Option<&str>) -> Result<Option<Name>, AllocError>
    ensures { IfOk result (λ name. name ≡ option_map (λ text. text.now) text.entry) }
{
    match text {
        Some(text) => Ok(Some(Name::from_slice(alloc, text.as_bytes())?)),
        None => Ok(None),
    }
}

/// What the matches of a command ask for, or none where a value is not one of its option.
pub fn asked_in(
    alloc: Global,
    waits: bool,
    verb: Verb,
    matches: &ArgMatches<'_>,
) -> Result<Option<Asked>, AllocError>
    ensures asked { IfOk result (λ asked. asked ≡ asked_in waits verb (rows_of (found_of matches.now))) }
    ensures within { IfOk result (λ asked. IfSome asked IsWithinLimits) }
{
    let Some(command) = command_in(verb, matches) else {
        return Ok(None);
    };
    let Some(program) = program_in(verb, matches) else {
        return Ok(None);
    };
    let Some(limits) = limits_in(matches) else {
        return Ok(None);
    };
    let Some(crew) = crew_in(waits, matches) else {
        return Ok(None);
    };
    let most = u64::from(MOST_WORKERS);
    let usual = u64::from(DEFAULT_WORKERS);
    let Some(workers) = option_number(matches, "workers", 1, most, usual) else {
        return Ok(None);
    };
    let program = Name::from_slice(alloc, program.as_bytes())?;
    let faults = named(alloc, faults_in(verb, matches))?;
    Ok(Some(Asked {
        command,
        program,
        faults,
        limits,
        crew,
        workers: workers as u32,
        trace: is_given(matches, "trace"),
    }))
}

/// What words ask for that stand after the word of a command, or none where it does not take them. The first word is
/// any that stands for the command, and `waits` tells whether lasting workers are a crew of it. The error is that
/// memory is out.
pub fn asked_of(
    alloc: Global,
    waits: bool,
    verb: Verb,
    words: &[String],
) -> Result<Option<Asked>, AllocError>
    ensures asked { IfOk result (λ asked. asked ≡ asked_of waits verb (texts words.now)) }
    ensures within { IfOk result (λ asked. IfSome asked IsWithinLimits) }
{
    match taken_for(alloc, verb, words)? {
        Some(matches) => asked_in(alloc, waits, verb, &matches),
        None => Ok(None),
    }
}

// What the words ask for, or none where they are those of no command, for a call that may wait or for one that may not.
fn read_among(alloc: Global, waits: bool, words: &[String]) -> Result<Option<Asked>, AllocError>
    ensures asked { IfOk result (λ asked. asked ≡ asked_among waits (texts words.now)) }
    ensures within { IfOk result (λ asked. IfSome asked IsWithinLimits) }
{
    let [word, ..] = words else {
        return Ok(None);
    };
    let Some(verb) = named_verb(word.as_str()) else {
        return Ok(None);
    };
    asked_of(alloc, waits, verb, words)
}

/// What the words ask for, or none where they are those of no command: the first word names none, the command does not
/// take the others, a number is outside its range, or a crew's word names none. `words` are those after the program's
/// own name. Lasting workers, which wait, are no crew here.
pub fn read_words(alloc: Global, words: &[String]) -> Result<Option<Asked>, AllocError>
    ensures asked { IfOk result (λ asked. asked ≡ asked_by (texts words.now)) }
    ensures within { IfOk result (λ asked. IfSome asked IsWithinLimits) }
{
    read_among(alloc, false, words)
}

/// The same for a call that may wait, where `pipe` is the word of a crew too.
pub fn read_waiting_words(alloc: Global, words: &[String]) -> Result<Option<Asked>, AllocError>
    ensures asked { IfOk result (λ asked. asked ≡ asked_waiting (texts words.now)) }
    ensures within { IfOk result (λ asked. IfSome asked IsWithinLimits) }
{
    read_among(alloc, true, words)
}

/// Whether the words are those of a command with the crew `pipe`, for which a call is needed that may wait. The error
/// is that memory is out.
pub fn wants_pipe(alloc: Global, words: &[String]) -> Result<bool, AllocError>
    ensures { IfOk result (λ wants. wants ≡ wants_pipe (texts words.now)) }
{
    match read_waiting_words(alloc, words)? {
        Some(asked) => Ok(asked.crew == CrewKind::Pipe),
        None => Ok(false),
    }
}
