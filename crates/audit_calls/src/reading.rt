// What words ask to be audited, from the shelf.
ghost use Rattle.std.specs.Prelude.{◌≡◌, ◌<◌, ◌≤◌, List, [], ◌∷◌, length, Some, None, IfOk, IfSome};
ghost use Rattle.gp_base.specs.meaning.Files.{bytes_of};
ghost use Rattle.gp_base.specs.declared.limits.TheConstants.{MOST_FILE_BYTES};
ghost use Rattle.task_ast.specs.meaning.Tree.{Name};
ghost use Rattle.command_line.specs.meaning.Words.{texts};
ghost use Rattle.command_line.specs.Words.{IsWithinLimits};
ghost use Rattle.command_line.specs.meaning.AuditWords.{audited_by};
ghost use Rattle.call_cases.specs.meaning.Work.{ToDo};
ghost use Rattle.call_cases.specs.meaning.Case.{IsCase, IsCaseOf};
ghost use Rattle.call_cases.specs.Refusals.{AnswersCase, AnswersNoCommand, ReadsAmong, TouchesShelf};
ghost use Rattle.audit_calls.specs.meaning.AuditCommands.{MayRead, asking};
ghost use Rattle.audit_calls.specs.inner.Trials.{AnswersLines, IsShort, Judge, audited_in, case_of};

use crate::trial::Trial;
use call_cases::{Reading, Refusal, read_asked, read_file, refused_input};
use command_line::{Audited, read_audit_words};
use gp_audit::{TraceFault, TraceLine, read_trace};
use gp_base::{Name, Seq, Shelf, Text};
use std::alloc::Global;

// The lines of a trace, whose file has this name and this text.
fn lines_in(alloc: Global, name: &Name, text: &Text) -> Result<Seq<TraceLine>, Refusal>
    requires { length text.now ≤ MOST_FILE_BYTES }
    ensures told { (judge : Judge) (names : List Name) (work : ToDo) → AnswersLines judge names name.now work (Some text.now) result }
    ensures unread { (names failed : List Name) → ReadsAmong names failed failed result }
    ensures few { IfOk result (λ lines. length lines < 4294967295) }
{
    match read_trace(alloc, text) {
        Ok(lines) => Ok(lines),
        Err(TraceFault::Line(row)) => Err(refused_input(alloc, name, 9, row)),
        Err(TraceFault::OutOfMemory) => Err(Refusal::OutOfMemory),
    }
}

// The lines of a trace, by its file.
fn trace_lines<H: Shelf>(
    alloc: Global,
    shelf: &mut H,
    name: &Name,
) -> Result<Seq<TraceLine>, Refusal>
    ensures failed { ReadsAmong (name.now ∷ []) (H.failed shelf.old) (H.failed shelf.new) result }
    ensures told { (judge : Judge) (names : List Name) (work : ToDo) → IfSome (H.files shelf.old) (λ files.
        AnswersLines judge names name.now work (bytes_of files name.now) result) }
    ensures few { IfOk result (λ lines. length lines < 4294967295) }
{
    let text = match read_file(alloc, shelf, name) {
        Ok(text) => text,
        Err(refusal) => return Err(refusal),
    };
    lines_in(alloc, name, &text)
}

// What the run would read, and then its trace. The first refusal met is the answer.
fn read_audited<H: Shelf>(alloc: Global, audited: Audited, shelf: &mut H) -> Result<Trial, Refusal>
    requires { IsWithinLimits audited.run }
    ensures shelf { TouchesShelf MayRead (Some audited) (H.failed shelf.old) (H.failed shelf.new) result }
    ensures case { (judge : Judge) → IfSome (H.files shelf.old) (λ files. AnswersCase (case_of judge) (IsCaseOf asking audited files) result) }
    ensures short { IfOk result IsShort }
    ensures audited { IfOk result (λ trial. audited_in trial ≡ audited) }
{
    let Audited { run, trace } = audited;
    let request = match read_asked(alloc, run, shelf, Reading::Once) {
        Ok(request) => request,
        Err(refusal) => return Err(refusal),
    };
    match trace_lines(alloc, shelf, &trace) {
        Ok(lines) => Ok(Trial {
            request,
            trace,
            lines,
        }),
        Err(refusal) => Err(refusal),
    }
}

/// What the words ask to be audited, with all that the run would read and the lines of its trace. The first refusal met
/// is the answer.
pub fn read_trial<H: Shelf>(
    alloc: Global,
    words: &[String],
    shelf: &mut H,
) -> Result<Trial, Refusal>
    ensures no_command { audited_by (texts words.now) ≡ None → AnswersNoCommand result }
    ensures unread { audited_by (texts words.now) ≡ None → shelf.new ≡ shelf.old }
    ensures shelf { TouchesShelf MayRead (audited_by (texts words.now)) (H.failed shelf.old) (H.failed shelf.new) result }
    ensures case { (judge : Judge) → IfSome (H.files shelf.old) (λ files. AnswersCase (case_of judge) (IsCase asking (texts words.now) files) result) }
    ensures short { IfOk result IsShort }
    ensures audited { IfOk result (λ trial. audited_by (texts words.now) ≡ Some (audited_in trial)) }
{
    let audited = match read_audit_words(alloc, words) {
        Ok(Some(audited)) => audited,
        Ok(None) => return Err(Refusal::Usage),
        Err(_) => return Err(Refusal::OutOfMemory),
    };
    read_audited(alloc, audited, shelf)
}
