// What a call is to show, from its words and the shelf.
ghost use Rattle.std.specs.Prelude.{◌≡◌, ◌<◌, ◌≤◌, ℕ, List, [], ◌∷◌, length, Option, Some, None, IfOk, IfSome};
ghost use Rattle.gp_base.specs.meaning.Files.{bytes_of};
ghost use Rattle.gp_base.specs.declared.limits.TheConstants.{MOST_FILE_BYTES};
ghost use Rattle.task_ast.specs.meaning.Tree.{Name};
ghost use Rattle.command_line.specs.meaning.Words.{texts};
ghost use Rattle.command_line.specs.Words.{IsWithinLimits};
ghost use Rattle.call_cases.specs.meaning.Case.{IsCase, IsCaseOf};
ghost use Rattle.call_cases.specs.Decided.{work_of};
ghost use Rattle.call_cases.specs.meaning.Journals.{dependence_for};
ghost use Rattle.call_cases.specs.Refusals.{AnswersCase, AnswersNoCommand, ReadsAmong, TouchesShelf};
ghost use Rattle.gp_audit.specs.declared.verdict.Verdict.{Verdict as VerdictGiven};
ghost use Rattle.gp_audit.specs.meaning.Lines.{IsTrace};
ghost use Rattle.gp_audit.specs.meaning.Verdicts.{IsVerdict};
ghost use Rattle.view_calls.specs.Traces.{unlawful_in};
ghost use Rattle.view_calls.specs.meaning.Commands.{viewed_by, MayRead, asking};
ghost use Rattle.view_calls.specs.Sights.{case_of, viewed_in};
ghost use Rattle.view_calls.specs.inner.Answers.{AnswersLines};

use crate::words::{Viewed, read_words};
use call_cases::{Reading, Refusal, Request, read_asked, read_file, refused_input};
use gp_audit::{TraceFault, TraceLine, Verdict, audit, read_trace};
use gp_base::{Name, Seq, Shelf, Text};
use one_thread::run_plain;
use std::alloc::{AllocError, Global};

/// The trace of a run: the file, and its lines.
#[derive(Drop)]
pub struct Trace {
    pub file: Name,
    pub lines: Seq<TraceLine>,
}

/// What a call is to show: a run, with all that is read for it, with a position of it where one is asked for, and with
/// its trace where words name one.
#[derive(Drop)]
pub struct Viewing {
    pub request: Request,
    pub position: Option<u64>,
    pub trace: Option<Trace>,
}

// The number of the first line that is not lawful, where there is one.
fn unlawful_in(verdict: Verdict) -> Option<u32>
    ensures { result ≡ unlawful_in verdict }
{
    match verdict {
        Verdict::Unlawful(number) => Some(number),
        Verdict::Lawful | Verdict::Incomplete => None,
    }
}

// The same of the lines of a trace of what is run. The error is that memory is out.
fn first_unlawful(
    alloc: Global,
    request: &Request,
    lines: &Seq<TraceLine>,
) -> Result<Option<u32>, AllocError>
    requires within { IsWithinLimits request.now.asked }
    requires few { length lines.now < 4294967295 }
    ensures { IfOk result (λ number. (verdict : VerdictGiven) × IsVerdict (dependence_for (work_of request.now)) (work_of request.now).faults lines.now verdict
        × (number ≡ unlawful_in verdict)) }
{
    let ran = run_plain(
        alloc,
        &request.checked,
        &request.inputs,
        request.asked.limits,
    )?;
    let verdict = audit(alloc, &ran.order, &request.faults, lines)?;
    Ok(unlawful_in(verdict))
}

// The lines of a trace whose file has this name, unless one is not lawful.
fn lawful_lines(
    alloc: Global,
    request: &Request,
    name: &Name,
    lines: Seq<TraceLine>,
) -> Result<Seq<TraceLine>, Refusal>
    requires within { IsWithinLimits request.now.asked }
    requires few { length lines < 4294967295 }
    ensures told { (names : List Name) (position : Option ℕ) (text : List ℕ) → length text ≤ MOST_FILE_BYTES
        → IsTrace text lines → AnswersLines names name.now position (work_of request.now) (Some text) result }
    ensures unread { (names failed : List Name) → ReadsAmong names failed failed result }
{
    match first_unlawful(alloc, request, &lines) {
        Ok(Some(number)) => Err(refused_input(alloc, name, 1, number)),
        Ok(None) => Ok(lines),
        Err(_) => Err(Refusal::OutOfMemory),
    }
}

// The lines of a trace whose file has this name and this text.
fn lines_in(
    alloc: Global,
    request: &Request,
    name: &Name,
    text: &Text,
) -> Result<Seq<TraceLine>, Refusal>
    requires within { IsWithinLimits request.now.asked }
    requires short { length text.now ≤ MOST_FILE_BYTES }
    ensures told { (names : List Name) (position : Option ℕ) →
        AnswersLines names name.now position (work_of request.now) (Some text.now) result }
    ensures unread { (names failed : List Name) → ReadsAmong names failed failed result }
{
    match read_trace(alloc, text) {
        Ok(lines) => lawful_lines(alloc, request, name, lines),
        Err(TraceFault::Line(row)) => Err(refused_input(alloc, name, 1, row)),
        Err(TraceFault::OutOfMemory) => Err(Refusal::OutOfMemory),
    }
}

// The lines of a trace of what is run, by its file.
fn trace_lines<H: Shelf>(
    alloc: Global,
    shelf: &mut H,
    request: &Request,
    name: &Name,
) -> Result<Seq<TraceLine>, Refusal>
    requires { IsWithinLimits request.now.asked }
    ensures failed { ReadsAmong (name.now ∷ []) (H.failed shelf.old) (H.failed shelf.new) result }
    ensures told { (names : List Name) (position : Option ℕ) → IfSome (H.files shelf.old) (λ files.
        AnswersLines names name.now position (work_of request.now) (bytes_of files name.now) result) }
{
    let text = match read_file(alloc, shelf, name) {
        Ok(text) => text,
        Err(refusal) => return Err(refusal),
    };
    lines_in(alloc, request, name, &text)
}

// What is asked to be shown, with the program and the files that are read for its run, and then its trace. The first
// refusal met is the answer.
fn read_viewed<H: Shelf>(alloc: Global, viewed: Viewed, shelf: &mut H) -> Result<Viewing, Refusal>
    requires { IsWithinLimits viewed.run }
    ensures shelf { TouchesShelf MayRead (Some viewed) (H.failed shelf.old) (H.failed shelf.new) result }
    ensures case { IfSome (H.files shelf.old) (λ files. AnswersCase case_of (IsCaseOf asking viewed files) result) }
    ensures viewed { IfOk result (λ viewing. viewed_in viewing ≡ viewed) }
    ensures within { IfOk result (λ viewing. IsWithinLimits viewing.request.asked) }
{
    let Viewed {
        run,
        position,
        trace,
    } = viewed;
    let request = match read_asked(alloc, run, shelf, Reading::Once) {
        Ok(request) => request,
        Err(refusal) => return Err(refusal),
    };
    let file = match trace {
        Some(file) => file,
        None => {
            return Ok(Viewing {
                request,
                position,
                trace: None,
            });
        }
    };
    match trace_lines(alloc, shelf, &request, &file) {
        Ok(lines) => Ok(Viewing {
            request,
            position,
            trace: Some(Trace { file, lines }),
        }),
        Err(refusal) => Err(refusal),
    }
}

/// What the words ask to be shown, with the program that they name, the files that the program names, and its trace.
/// The first refusal met is the answer.
pub fn read_view<H: Shelf>(
    alloc: Global,
    words: &[String],
    shelf: &mut H,
) -> Result<Viewing, Refusal>
    ensures no_command { viewed_by (texts words.now) ≡ None → AnswersNoCommand result }
    ensures unread { viewed_by (texts words.now) ≡ None → shelf.new ≡ shelf.old }
    ensures shelf { TouchesShelf MayRead (viewed_by (texts words.now)) (H.failed shelf.old) (H.failed shelf.new) result }
    ensures case { IfSome (H.files shelf.old) (λ files. AnswersCase case_of (IsCase asking (texts words.now) files) result) }
    ensures viewed { IfOk result (λ viewing. viewed_by (texts words.now) ≡ Some (viewed_in viewing)) }
    ensures within { IfOk result (λ viewing. IsWithinLimits viewing.request.asked) }
{
    let viewed = match read_words(alloc, words) {
        Ok(Some(viewed)) => viewed,
        Ok(None) => return Err(Refusal::Usage),
        Err(_) => return Err(Refusal::OutOfMemory),
    };
    read_viewed(alloc, viewed, shelf)
}
