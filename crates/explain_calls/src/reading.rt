// What a call is to explain, from its words and the shelf.
ghost use Rattle.std.specs.Prelude.{◌≡◌, ◌≤◌, [], length, None, Some, IfErr, IfOk, IfSome};
ghost use Rattle.gp_base.specs.declared.limits.TheConstants.{MOST_PROGRAM_BYTES};
ghost use Rattle.command_line.specs.meaning.Words.{texts};
ghost use Rattle.command_line.specs.Words.{IsWithinLimits};
ghost use Rattle.call_cases.specs.meaning.Case.{IsCase, IsCaseOf};
ghost use Rattle.call_cases.specs.declared.reading.Refusal.TheVariants.{Usage as RefusedUsage};
ghost use Rattle.call_cases.specs.meaning.RunCommands as run;
ghost use Rattle.call_cases.specs.Decided.{case_of};
ghost use Rattle.call_cases.specs.Refusals.{AnswersCase, AnswersNoCommand};
ghost use Rattle.explain_calls.specs.meaning.Commands.{asking, explained_by};
ghost use Rattle.explain_calls.specs.Endings.{plainly, IsOrShort, KeepsFor, ReadsShelf, TextFor};

use crate::refused::{input_text, long_program, program_text};
use crate::unread::{unread_file, unread_program};
use crate::usage::usage_text;
use crate::words::read_words;
use call_cases::{Reading, Refusal, Request, read_beside, read_program};
use command_line::Asked;
use gp_base::{Name, Seq, Shelf, Text};
use std::alloc::Global;

/// The run that is to be told, and the text of its program.
#[derive(Drop)]
pub struct Readied {
    pub request: Request,
    pub source: Text,
}

/// Why there is no run to tell, and what is told of that.
#[derive(Drop)]
pub struct Explained {
    pub refusal: Refusal,
    pub text: Text,
}

// A refusal of which no more is told than its line.
fn bare(alloc: Global, refusal: Refusal) -> Explained
    ensures refusal { result.refusal ≡ refusal }
    ensures text { result.text ≡ [] }
{
    Explained {
        refusal,
        text: Seq::new(alloc),
    }
}

// A refusal with what is told of it by the program's text. A file that is refused is read once more.
fn told_by<H: Shelf>(
    alloc: Global,
    name: &Name,
    text: &Text,
    refusal: Refusal,
    shelf: &mut H,
) -> Explained
    requires { length text.now ≤ MOST_PROGRAM_BYTES }
    ensures same { IsOrShort refusal result.refusal }
    ensures text { TextFor result.refusal result.text }
    ensures shelf { KeepsFor refusal (H.failed shelf.new ≡ H.failed shelf.old) }
{
    match refusal {
        Refusal::BadProgram(line) => match program_text(alloc, name, text) {
            Ok(text) => Explained {
                refusal: Refusal::BadProgram(line),
                text: Text::from_vec(text),
            },
            Err(_) => bare(alloc, Refusal::OutOfMemory),
        },
        Refusal::BadInput(line) => match input_text(alloc, text, line.as_slice(), shelf) {
            Ok(text) => Explained {
                refusal: Refusal::BadInput(line),
                text: Text::from_vec(text),
            },
            Err(_) => bare(alloc, Refusal::OutOfMemory),
        },
        Refusal::ReadFault(file) => match unread_file(alloc, name, text, &file) {
            Ok(text) => Explained {
                refusal: Refusal::ReadFault(file),
                text: Text::from_vec(text),
            },
            Err(_) => bare(alloc, Refusal::OutOfMemory),
        },
        // The words were taken before the program was read.
        Refusal::Usage | Refusal::OutOfMemory => bare(alloc, Refusal::OutOfMemory),
    }
}

// The same where the program's text was not read, or is too long.
fn unread(alloc: Global, name: &Name, refusal: Refusal) -> Explained
    ensures same { IsOrShort refusal result.refusal }
    ensures text { TextFor result.refusal result.text }
{
    match refusal {
        Refusal::BadProgram(line) => match long_program(alloc, name) {
            Ok(text) => Explained {
                refusal: Refusal::BadProgram(line),
                text: Text::from_vec(text),
            },
            Err(_) => bare(alloc, Refusal::OutOfMemory),
        },
        Refusal::ReadFault(file) => match unread_program(alloc, &file) {
            Ok(text) => Explained {
                refusal: Refusal::ReadFault(file),
                text: Text::from_vec(text),
            },
            Err(_) => bare(alloc, Refusal::OutOfMemory),
        },
        // The words were taken, and no file beside the program is read yet.
        Refusal::Usage | Refusal::BadInput(_) | Refusal::OutOfMemory => {
            bare(alloc, Refusal::OutOfMemory)
        }
    }
}

// A refusal of words, with what is told of them.
fn untaken(alloc: Global, words: &[String]) -> Explained
    ensures same { IsOrShort RefusedUsage result.refusal }
    ensures text { TextFor result.refusal result.text }
{
    match usage_text(alloc, words) {
        Ok(text) => Explained {
            refusal: Refusal::Usage,
            text: Text::from_vec(text),
        },
        Err(_) => bare(alloc, Refusal::OutOfMemory),
    }
}

// What is asked to be explained, with the program and the files beside it. The first refusal met is the answer.
fn read_run<H: Shelf>(alloc: Global, asked: Asked, shelf: &mut H) -> Result<Readied, Explained>
    requires { IsWithinLimits asked }
    ensures shelf { ReadsShelf (Some asked) (H.failed shelf.old) (H.failed shelf.new) result }
    ensures case { IfSome (H.files shelf.old) (λ files. AnswersCase case_of (IsCaseOf run.asking asked files) (plainly result)) }
    ensures asked { IfOk result (λ read. read.request.asked ≡ asked) }
    ensures text { IfErr result (λ explained. TextFor explained.refusal explained.text) }
{
    let Ok(name) = asked.program.copied(alloc) else {
        return Err(bare(alloc, Refusal::OutOfMemory));
    };
    let text = match read_program(alloc, &asked, shelf) {
        Ok(text) => text,
        Err(refusal) => return Err(unread(alloc, &name, refusal)),
    };
    match read_beside(alloc, asked, text.as_slice(), shelf, Reading::Once) {
        Ok(request) => Ok(Readied {
            request,
            source: text,
        }),
        Err(refusal) => Err(told_by(alloc, &name, &text, refusal, shelf)),
    }
}

/// What the words ask to be explained, with the program that they name and the files that the program names. The first
/// refusal met is the answer, with what is told of it.
pub fn read_explained<H: Shelf>(
    alloc: Global,
    words: &[String],
    shelf: &mut H,
) -> Result<Readied, Explained>
    ensures no_command { explained_by (texts words.now) ≡ None → AnswersNoCommand (plainly result) }
    ensures unread { explained_by (texts words.now) ≡ None → shelf.new ≡ shelf.old }
    ensures shelf { ReadsShelf (explained_by (texts words.now)) (H.failed shelf.old) (H.failed shelf.new) result }
    ensures case { IfSome (H.files shelf.old) (λ files. AnswersCase case_of (IsCase asking (texts words.now) files) (plainly result)) }
    ensures asked { IfOk result (λ read. explained_by (texts words.now) ≡ Some read.request.asked) }
    ensures within { IfOk result (λ read. IsWithinLimits read.request.asked) }
    ensures text { IfErr result (λ explained. TextFor explained.refusal explained.text) }
{
    match read_words(alloc, words) {
        Ok(Some(asked)) => read_run(alloc, asked, shelf),
        Ok(None) => Err(untaken(alloc, words)),
        Err(_) => Err(bare(alloc, Refusal::OutOfMemory)),
    }
}
