// What a call answered.
ghost use Rattle.gp_base.specs.Files.{HasDistinctNames};

use crate::cases::{Call, Case, files_of};
use audit_calls::audit_run;
use batch_calls::{ckpt_run, gprs_run, log_run};
use batch_fixtures::files::words_of;
use call_cases::Outcome;
use gp_base::{FreeGate, Gate, Journal, MemShelf, MemSink, Name, Seq, Text};
use resume_calls::resume_run;
use soak_batch::soak_files;
use std::alloc::{AllocError, Global};
use std::str;
use std::thread::Threads;

/// What a call answered, and what its sinks took.
#[derive(Drop)]
pub struct Answer {
    pub status: u8,
    pub output: MemSink,
    pub error: MemSink,
    pub journal: Journal,
}

/// The answer of a call that ended so, with its two sinks.
pub fn answered(
    alloc: Global,
    outcome: Outcome,
    output: MemSink,
    error: MemSink,
) -> Result<Box<Answer>, AllocError> {
    let answer = Answer {
        status: outcome.status,
        output,
        error,
        journal: outcome.journal,
    };
    Ok(Box::new(alloc, answer)?)
}

/// The bytes, where they are text.
pub fn text_of(bytes: &[u8]) -> &str {
    str::from_utf8(bytes).unwrap_or("")
}

/// Whether the call ended with the status of the case, and wrote its output and its line of the error stream.
pub fn tells(answer: &Answer, case: &Case<'_>) -> bool {
    answer.status == case.status
        && answer.output.written() == case.output.as_bytes()
        && answer.error.written() == case.error.as_bytes()
}

// What the call comes to.
fn called<R: Threads + Sync + AllocGlobal, G: Gate>(
    rt: &R,
    call: Call,
    words: &[String],
    shelf: &mut MemShelf,
    output: &mut MemSink,
    error: &mut MemSink,
    gate: &G,
) -> Outcome {
    match call {
        Call::Run => gprs_run(rt, words, shelf, output, error, gate),
        Call::Ckpt => ckpt_run(rt, words, shelf, output, error, gate),
        Call::Log => log_run(rt, words, shelf, output, error, gate),
        Call::Resume => resume_run(rt, words, shelf, output, error, gate),
        Call::Audit => audit_run(rt, words, shelf, output, error, gate),
    }
}

// What the case comes to over this shelf, where tasks enter this gate.
fn answer_with<R: Threads + Sync + AllocGlobal, G: Gate>(
    rt: &R,
    case: &Case<'_>,
    shelf: &mut MemShelf,
    gate: &G,
) -> Result<Box<Answer>, AllocError> {
    let alloc = rt.alloc();
    let devices = &case.devices;
    let output = Seq::from_slice(alloc, &[devices.output])?;
    let error = Seq::from_slice(alloc, &[devices.error])?;
    let words = words_of(alloc, case.words)?;
    let mut output = MemSink::new(alloc, devices.most.max(1), output);
    let mut error = MemSink::new(alloc, devices.most.max(1), error);
    let outcome = called(rt, case.call, &words, shelf, &mut output, &mut error, gate);
    answered(alloc, outcome, output, error)
}

/// The status that the case comes to over this shelf.
pub fn status_with<R: Threads + Sync + AllocGlobal>(
    rt: &R,
    case: &Case<'_>,
    shelf: &mut MemShelf,
) -> Result<u8, AllocError> {
    let answer = answer_with(rt, case, shelf, &FreeGate)?;
    Ok(answer.status)
}

// What the case comes to over these files, where tasks enter this gate.
fn answer_over<R: Threads + Sync + AllocGlobal, G: Gate>(
    rt: &R,
    case: &Case<'_>,
    files: Seq<(Name, Text)>,
    gate: &G,
) -> Result<Box<Answer>, AllocError>
    requires { HasDistinctNames files }
{
    let alloc = rt.alloc();
    let failing = Seq::from_slice(alloc, &[case.devices.read])?;
    let mut shelf = MemShelf::new(alloc, files, failing);
    let answer = answer_with(rt, case, &mut shelf, gate);
    drop(shelf);
    answer
}

/// What the case comes to, where tasks enter this gate.
pub fn answer_through<R: Threads + Sync + AllocGlobal, G: Gate>(
    rt: &R,
    case: &Case<'_>,
    gate: &G,
) -> Result<Box<Answer>, AllocError> {
    let files = files_of(rt.alloc(), case)?;
    answer_over(rt, case, files, gate)
}

/// What the case comes to.
pub fn answer_of<R: Threads + Sync + AllocGlobal>(
    rt: &R,
    case: &Case<'_>,
) -> Result<Box<Answer>, AllocError> {
    answer_through(rt, case, &FreeGate)
}

/// What the case comes to over the files of the batch of 2,000 moves that are drawn from 1.
pub fn answer_over_batch<R: Threads + Sync + AllocGlobal>(
    rt: &R,
    case: &Case<'_>,
) -> Result<Box<Answer>, AllocError> {
    let files = soak_files(rt.alloc(), 2000, 1)?;
    answer_over(rt, case, files, &FreeGate)
}

/// Whether the call has the answer of the case.
pub fn gives<R: Threads + Sync + AllocGlobal>(rt: &R, case: &Case<'_>) -> Result<bool, AllocError> {
    let answer = answer_of(rt, case)?;
    Ok(tells(&answer, case))
}

/// Whether each of the calls has the answer of its case.
pub fn give<R: Threads + Sync + AllocGlobal>(
    rt: &R,
    cases: &[Case<'_>],
) -> Result<bool, AllocError> {
    for case in cases {
        if !gives(rt, case)? {
            return Ok(false);
        }
    }
    Ok(true)
}

/// Whether the call has the answer of the case by each of these crews, whose words come after its own.
pub fn gives_by<R: Threads + Sync + AllocGlobal>(
    rt: &R,
    case: &Case<'_>,
    crews: &[&str],
) -> Result<bool, AllocError> {
    let alloc = rt.alloc();
    for crew in crews {
        let words = format!(in alloc; "{}{crew}", case.words)?;
        let is_given = gives(
            rt,
            &Case {
                words: words.as_str(),
                ..*case
            },
        );
        drop(words);
        if !is_given? {
            return Ok(false);
        }
    }
    Ok(true)
}

/// The text up to the restarts.
pub fn front_of(answer: &Answer) -> &str {
    match text_of(answer.output.written()).split_once("restarts\n") {
        Some((front, _)) => front,
        None => "",
    }
}
