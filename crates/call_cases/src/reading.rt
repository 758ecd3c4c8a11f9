// What a call is to do, from its words and the shelf.
ghost use Rattle.std.specs.Prelude.{◌≡◌, ◌<◌, ◌≤◌, List, Some, None, IfOk, IfSome, MatchResult, length, true};
ghost use Rattle.gp_base.specs.declared.limits.TheConstants.{MOST_PROGRAM_BYTES};
ghost use Rattle.gp_base.specs.meaning.Files.{bytes_of};
ghost use Rattle.task_ast.specs.View.{plain_program};
ghost use Rattle.task_ast.specs.meaning.Tree.{Name};
ghost use Rattle.task_ast.specs.Inputs.{AreInputsOf};
ghost use Rattle.soak_batch.specs.meaning.Files.{soak_files};
ghost use Rattle.command_line.specs.meaning.Words.{texts, asked_by};
ghost use Rattle.command_line.specs.Words.{IsWithinLimits};
ghost use Rattle.command_line.specs.declared.asked.Command.TheVariants as command;
ghost use Rattle.call_cases.specs.meaning.Work.{runs, makes_files};
ghost use Rattle.call_cases.specs.meaning.Headline.{ReadsNothing};
ghost use Rattle.call_cases.specs.meaning.RunCommands.{MayRead, asking, commands};
ghost use Rattle.call_cases.specs.meaning.Lines.{fault_line, rule_number};
ghost use Rattle.call_cases.specs.meaning.Case.{IsCaseOf, IsCase};
ghost use Rattle.lock_checker.specs.Accepted.{program_of};
ghost use Rattle.call_cases.specs.inner.Loading.{AnswersLoad};
ghost use Rattle.call_cases.specs.meaning.InputFiles.{supplied_for};
ghost use Rattle.call_cases.specs.InputFiles.{names_for};
ghost use Rattle.call_cases.specs.declared.reading.Refusal.TheVariants.{OutOfMemory};
ghost use Rattle.call_cases.specs.Decided.{IsAcceptedIn, accepted_case, case_of, IsRefusedWith, RefusesLexing, RefusesParsing, RefusesChecking, MayRun};
ghost use Rattle.call_cases.specs.Refusals.{AnswersCase, AnswersNoCommand, ReadsAmong, RefusesCase, TouchesShelf};

use crate::agreed::Reading;
use crate::inputs::{read_inputs, read_struck};
use crate::lines::{TOO_LONG, fault_line};
use crate::work::{Request, runs};
use command_line::{Asked, Command, Soak, read_words};
use gp_base::limits::MOST_PROGRAM_BYTES;
use gp_base::{Inputs, Name, NeverShelf, Seq, Shelf, ShelfFault, Text};
use lock_checker::{CheckFault, Checked, check};
use soak_batch::soak_files;
use std::alloc::{AllocError, Global};
use task_ast::{CheckKind, Program};
use task_parser::{LexFault, ParseFault, lex, parse};

/// Why there is nothing to do: the words are those of no command; the program, or a file that it names, is refused with
/// this line; this file could not be read; memory ran out.
#[derive(Drop)]
pub enum Refusal {
    Usage,
    BadProgram(Text),
    BadInput(Text),
    ReadFault(Name),
    OutOfMemory,
}

impl From<AllocError> for Refusal {
    ghost from_gives = { λ _ e. e ≡ OutOfMemory };

    fn from(_: AllocError) -> Self {
        Refusal::OutOfMemory
    }
}

// A refusal of the program with this line.
fn refused(alloc: Global, line: &[u8]) -> Refusal
    ensures { IsRefusedWith line.now result }
{
    match Text::from_slice(alloc, line) {
        Ok(line) => Refusal::BadProgram(line),
        Err(_) => Refusal::OutOfMemory,
    }
}

// A refusal of the program by a fault at a place.
fn refused_at(alloc: Global, stage: &str, kind: u8, place: &str, at: u32) -> Refusal
    ensures { IsRefusedWith (fault_line stage.now kind place.now at) result }
{
    match fault_line(alloc, stage, kind, place, at) {
        Ok(line) => Refusal::BadProgram(Text::from_vec(line)),
        Err(_) => Refusal::OutOfMemory,
    }
}

fn refused_lexing(alloc: Global, fault: LexFault) -> Refusal
    ensures { RefusesLexing fault result }
{
    match fault {
        LexFault::BadByte(at) => refused_at(alloc, "lex", 1, "byte", at),
        LexFault::NumberTooBig(at) => refused_at(alloc, "lex", 2, "byte", at),
        LexFault::TooLong => refused(alloc, TOO_LONG),
        LexFault::OutOfMemory => Refusal::OutOfMemory,
    }
}

fn refused_parsing(alloc: Global, fault: ParseFault) -> Refusal
    ensures { RefusesParsing fault result }
{
    match fault {
        ParseFault::Unexpected(at) => refused_at(alloc, "parse", 1, "byte", at),
        ParseFault::TooDeep(at) => refused_at(alloc, "parse", 2, "byte", at),
        ParseFault::OutOfMemory => Refusal::OutOfMemory,
    }
}

// The number of a rule.
fn number_of(kind: CheckKind) -> u8
    ensures { result ≡ rule_number kind }
{
    match kind {
        CheckKind::UnknownName => 1,
        CheckKind::DoubleName => 2,
        CheckKind::WrongCount => 3,
        CheckKind::DataInControl => 4,
        CheckKind::NotHeld => 5,
        CheckKind::HeldTwice => 6,
        CheckKind::HeldAtEnd => 7,
        CheckKind::BranchesDiffer => 8,
        CheckKind::IndexChangedWhileHeld => 9,
        CheckKind::SizesDiffer => 10,
        CheckKind::TooMany => 11,
    }
}

fn refused_checking(alloc: Global, fault: CheckFault) -> Refusal
    ensures { RefusesChecking fault result }
{
    match fault {
        CheckFault::Bad { kind, line } => refused_at(alloc, "check", number_of(kind), "line", line),
        CheckFault::OutOfMemory => Refusal::OutOfMemory,
    }
}

// The program for which these bytes stand, where it is accepted.
fn program_in(alloc: Global, asked: &Asked, bytes: &[u8]) -> Result<Checked, Refusal>
    requires { length bytes.now ≤ MOST_PROGRAM_BYTES }
    ensures { IsAcceptedIn asked.now bytes.now result }
{
    let tokens = match lex(alloc, bytes) {
        Ok(tokens) => tokens,
        Err(fault) => return Err(refused_lexing(alloc, fault)),
    };
    let program = match parse(alloc, bytes, &tokens) {
        Ok(program) => program,
        Err(fault) => return Err(refused_parsing(alloc, fault)),
    };
    match check(alloc, program) {
        Ok(checked) => Ok(checked),
        Err(fault) => Err(refused_checking(alloc, fault)),
    }
}

// The inputs of an accepted program. A command that does not run it reads none.
fn inputs_for<H: Shelf>(
    alloc: Global,
    command: Command,
    checked: &Checked,
    shelf: &mut H,
    reading: Reading,
) -> Result<Inputs, Refusal>
    ensures kept { H.files shelf.new ≡ H.files shelf.old }
    ensures failed { ReadsAmong (names_for command (program_of checked.now).heads) (H.failed shelf.old) (H.failed shelf.new) result }
    ensures told { IfSome (H.files shelf.old) (λ files.
        AnswersLoad (supplied_for command (program_of checked.now).heads files) (names_for command (program_of checked.now).heads) result) }
    ensures inputs { runs command ≡ true → IfOk result (AreInputsOf (plain_program (program_of checked.now))) }
{
    if runs(command) {
        return read_inputs(alloc, shelf, checked.program().heads.as_slice(), reading);
    }
    Ok(Inputs {
        records: Seq::new(alloc),
        feeds: Seq::new(alloc),
    })
}

// What is asked, on an accepted program.
fn request_of<H: Shelf>(
    alloc: Global,
    asked: Asked,
    checked: Checked,
    shelf: &mut H,
    reading: Reading,
) -> Result<Request, Refusal>
    requires { IsWithinLimits asked }
    ensures kept { H.files shelf.new ≡ H.files shelf.old }
    ensures shelf { TouchesShelf MayRead (Some asked) (H.failed shelf.old) (H.failed shelf.new) result }
    ensures case { IfSome (H.files shelf.old) (λ files.
        AnswersCase case_of (λ case. accepted_case asked (plain_program (program_of checked)) files ≡ case) result) }
    ensures sound { IfOk result MayRun }
    ensures asked { IfOk result (λ request. request.asked ≡ asked) }
{
    let inputs = match inputs_for(alloc, asked.command, &checked, shelf, reading) {
        Ok(inputs) => inputs,
        Err(refusal) => return Err(refusal),
    };
    let faults = match read_struck(alloc, shelf, &asked.faults) {
        Ok(faults) => faults,
        Err(refusal) => return Err(refusal),
    };
    Ok(Request {
        asked,
        checked,
        inputs,
        faults,
    })
}

/// What is asked, on the program for which this text stands, with the files that the program names, and that of the
/// faults. The first refusal met is the answer.
pub fn read_beside<H: Shelf>(
    alloc: Global,
    asked: Asked,
    text: &[u8],
    shelf: &mut H,
    reading: Reading,
) -> Result<Request, Refusal>
    requires within { IsWithinLimits asked }
    requires short { length text.now ≤ MOST_PROGRAM_BYTES }
    ensures kept { H.files shelf.new ≡ H.files shelf.old }
    ensures shelf { TouchesShelf MayRead (Some asked) (H.failed shelf.old) (H.failed shelf.new) result }
    ensures case { IfSome (H.files shelf.old) (λ files. bytes_of files asked.program ≡ Some text.now
        → AnswersCase case_of (IsCaseOf asking asked files) result) }
    ensures sound { IfOk result MayRun }
    ensures asked { IfOk result (λ request. request.asked ≡ asked) }
{
    match program_in(alloc, &asked, text) {
        Ok(checked) => request_of(alloc, asked, checked, shelf, reading),
        Err(refusal) => Err(refusal),
    }
}

/// The text of the program that is asked for. The refusal is that of a file that can't be read, of a text that is longer
/// than a program may be, or that memory is out.
pub fn read_program<H: Shelf>(alloc: Global, asked: &Asked, shelf: &mut H) -> Result<Text, Refusal>
    ensures kept { H.files shelf.new ≡ H.files shelf.old }
    ensures shelf { TouchesShelf MayRead (Some asked.now) (H.failed shelf.old) (H.failed shelf.new) result }
    ensures case { IfSome (H.files shelf.old) (λ files. MatchResult result
        (λ text. bytes_of files asked.now.program ≡ Some text) (RefusesCase (IsCaseOf asking asked.now files))) }
    ensures short { IfOk result (λ text. length text ≤ MOST_PROGRAM_BYTES) }
{
    match shelf.read(&asked.program, MOST_PROGRAM_BYTES) {
        Ok(text) => Ok(text),
        Err(ShelfFault::TooLong) => Err(refused(alloc, TOO_LONG)),
        Err(ShelfFault::Failed) => match asked.program.copied(alloc) {
            Ok(name) => Err(Refusal::ReadFault(name)),
            Err(_) => Err(Refusal::OutOfMemory),
        },
        Err(ShelfFault::OutOfMemory) => Err(Refusal::OutOfMemory),
    }
}

/// What is asked, on the program that its file has, with the files that the program names, and that of the faults. The
/// first refusal met is the answer.
pub fn read_asked<H: Shelf>(
    alloc: Global,
    asked: Asked,
    shelf: &mut H,
    reading: Reading,
) -> Result<Request, Refusal>
    requires { IsWithinLimits asked }
    ensures kept { H.files shelf.new ≡ H.files shelf.old }
    ensures shelf { TouchesShelf MayRead (Some asked) (H.failed shelf.old) (H.failed shelf.new) result }
    ensures case { IfSome (H.files shelf.old) (λ files. AnswersCase case_of (IsCaseOf asking asked files) result) }
    ensures sound { IfOk result MayRun }
    ensures asked { IfOk result (λ request. request.asked ≡ asked) }
{
    match read_program(alloc, &asked, shelf) {
        Ok(text) => read_beside(alloc, asked, text.as_slice(), shelf, reading),
        Err(refusal) => Err(refusal),
    }
}

// What is asked, over the files that the program makes itself. All files of it are there, so none of them can fail to
// be read.
fn read_made(alloc: Global, asked: Asked, soak: Soak, reading: Reading) -> Result<Request, Refusal>
    requires within { IsWithinLimits asked }
    requires made { asked.command ≡ command.Soak soak }
    ensures shelf { (failed : List Name) → TouchesShelf MayRead (Some asked) failed failed result }
    ensures case { AnswersCase case_of (IsCaseOf asking asked (soak_files soak.moves soak.start)) result }
    ensures sound { IfOk result MayRun }
    ensures asked { IfOk result (λ request. request.asked ≡ asked) }
{
    let files = soak_files(alloc, soak.moves, soak.start)?;
    let mut shelf = NeverShelf::new(alloc, files);
    match read_asked(alloc, asked, &mut shelf, reading) {
        Err(Refusal::ReadFault(_)) => Err(Refusal::OutOfMemory),
        result => result,
    }
}

/// What is asked, over the files of the shelf, or over those that the program makes itself. The first refusal met is
/// the answer.
pub fn read_for<H: Shelf>(
    alloc: Global,
    asked: Asked,
    shelf: &mut H,
    reading: Reading,
) -> Result<Request, Refusal>
    requires { IsWithinLimits asked }
    ensures unread { makes_files asked.command ≡ true → shelf.new ≡ shelf.old }
    ensures shelf { TouchesShelf MayRead (Some asked) (H.failed shelf.old) (H.failed shelf.new) result }
    ensures case { IfSome (H.files shelf.old) (λ files. AnswersCase case_of (IsCaseOf asking asked (asking.files asked files)) result) }
    ensures sound { IfOk result MayRun }
    ensures asked { IfOk result (λ request. request.asked ≡ asked) }
{
    if let Command::Soak(soak) = asked.command {
        return read_made(alloc, asked, soak, reading);
    }
    read_asked(alloc, asked, shelf, reading)
}

/// What the words ask for, with the program that they name and the files that the program names, or with the files that
/// the program makes itself. The first refusal met is the answer.
pub fn read_request<H: Shelf>(
    alloc: Global,
    words: &[String],
    shelf: &mut H,
) -> Result<Request, Refusal>
    ensures no_command { asked_by (texts words.now) ≡ None → AnswersNoCommand result }
    ensures unread { ReadsNothing commands (asked_by (texts words.now)) → shelf.new ≡ shelf.old }
    ensures shelf { TouchesShelf MayRead (asked_by (texts words.now)) (H.failed shelf.old) (H.failed shelf.new) result }
    ensures case { IfSome (H.files shelf.old) (λ files. AnswersCase case_of (IsCase asking (texts words.now) files) result) }
    ensures sound { IfOk result MayRun }
    ensures asked { IfOk result (λ request. asked_by (texts words.now) ≡ Some request.asked) }
{
    let asked = match read_words(alloc, words) {
        Ok(Some(asked)) => asked,
        Ok(None) => return Err(Refusal::Usage),
        Err(_) => return Err(Refusal::OutOfMemory),
    };
    read_for(alloc, asked, shelf, Reading::Once)
}
