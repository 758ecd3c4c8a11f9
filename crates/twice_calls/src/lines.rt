// The lines that tell of walks that differed, and of data at rest that were not as they were left.
ghost use Rattle.std.specs.Prelude.{◌≡◌, ◌≤◌, ℕ, List, IfOk};
ghost use Rattle.gp_base.specs.meaning.Sinks.{AppendsPrefix};
ghost use Rattle.command_line.specs.meaning.Words.{texts, asked_waiting};
ghost use Rattle.twice_calls.specs.meaning.Differences.{differed_line, disagreed_line, damaged_line, traces, MayTellStop, MayTellDiffered, AreTold};

use command_line::read_waiting_words;
use gp_base::{Sink, put_all};
use itoa::Buffer;
use std::alloc::{AllocError, Global};
use subthread::Recheck;

// The line of a position whose walks could not be agreed on.
fn disagreed_line(alloc: Global, position: u64) -> Result<Vec<u8>, AllocError>
    ensures { IfOk result (λ line. line.items ≡ disagreed_line position) }
{
    let mut line = Vec::from_slice(alloc, b"gprs_twice: position ")?;
    line.extend_from_slice(Buffer::new().format(position).as_bytes())?;
    line.extend_from_slice(b" could not be agreed on\n")?;
    Ok(line)
}

// The line of a position at which data were not as they were left.
fn damaged_line(alloc: Global, position: u64) -> Result<Vec<u8>, AllocError>
    ensures { IfOk result (λ line. line.items ≡ damaged_line position) }
{
    let mut line = Vec::from_slice(alloc, b"gprs_twice: data damaged at position ")?;
    line.extend_from_slice(Buffer::new().format(position).as_bytes())?;
    line.extend_from_slice(b"\n")?;
    Ok(line)
}

// The line of walks that differed so many times, and those of a position last.
fn differed_line(alloc: Global, count: u64, last: u64) -> Result<Vec<u8>, AllocError>
    ensures { IfOk result (λ line. line.items ≡ differed_line count last) }
{
    let mut line = Vec::from_slice(alloc, b"gprs_twice: differed ")?;
    line.extend_from_slice(Buffer::new().format(count).as_bytes())?;
    line.extend_from_slice(b", last ")?;
    line.extend_from_slice(Buffer::new().format(last).as_bytes())?;
    line.extend_from_slice(b"\n")?;
    Ok(line)
}

// What tells a stop at a position whose walks could not be agreed on.
fn disagreement_told(alloc: Global, recheck: &Recheck) -> Result<Vec<u8>, AllocError>
    ensures { IfOk result (λ line. MayTellStop 1 line.items) }
{
    match recheck.disagreed() {
        Some(position) => disagreed_line(alloc, position),
        None => Ok(Vec::new(alloc)),
    }
}

// What tells a stop at a position at which data were not as they were left, or else at one of the former kind.
fn stop_told(alloc: Global, recheck: &Recheck, status: u8) -> Result<Vec<u8>, AllocError>
    ensures { IfOk result (λ line. MayTellStop status line.items) }
{
    if status != 1 {
        return Ok(Vec::new(alloc));
    }
    match recheck.damaged() {
        Some(position) => damaged_line(alloc, position),
        None => disagreement_told(alloc, recheck),
    }
}

// Whether the words ask for a trace, after which nothing may stand.
fn is_traced(alloc: Global, words: &[String]) -> Result<bool, AllocError>
    ensures { IfOk result (λ traced. traced ≡ traces (asked_waiting (texts words.now))) }
{
    match read_waiting_words(alloc, words)? {
        Some(asked) => Ok(asked.trace),
        None => Ok(false),
    }
}

// What tells of walks that differed.
fn seen_told(alloc: Global, recheck: &Recheck, words: &[String]) -> Result<Vec<u8>, AllocError>
    ensures { IfOk result (λ line. MayTellDiffered (traces (asked_waiting (texts words.now))) line.items) }
{
    if recheck.differed() == 0 {
        return Ok(Vec::new(alloc));
    }
    if is_traced(alloc, words)? {
        return Ok(Vec::new(alloc));
    }
    differed_line(alloc, recheck.differed(), recheck.last())
}

// The lines that tell both.
fn lines_told(
    alloc: Global,
    recheck: &Recheck,
    words: &[String],
    status: u8,
) -> Result<Vec<u8>, AllocError>
    ensures { IfOk result (λ lines. AreTold (traces (asked_waiting (texts words.now))) status lines.items) }
{
    let mut lines = stop_told(alloc, recheck, status)?;
    let seen = seen_told(alloc, recheck, words)?;
    lines.extend_from_slice(&seen)?;
    Ok(lines)
}

/// Tells of what a recheck has seen in a call by these words that answered this status: the position at which data were not
/// as they were left, or whose walks could not be agreed on, where that stopped the run, and how often walks differed, but
/// not after a trace. Where memory is
/// out it tells nothing, and where the write fails a part.
pub fn tell<E: Sink>(alloc: Global, recheck: &Recheck, words: &[String], status: u8, err: &mut E)
    ensures behind { (lines : List ℕ) × AreTold (traces (asked_waiting (texts words.now))) status lines × AppendsPrefix (E.written err.old) (E.written err.new) lines }
    ensures later { E.faults err.old ≤ E.faults err.new }
{
    if let Ok(lines) = lines_told(alloc, recheck, words, status) {
        // A line that can't be written changes no status.
        let _ = put_all(err, &lines);
    }
}
