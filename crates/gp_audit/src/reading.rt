// Reads the bytes of a trace.
ghost use Rattle.std.specs.Prelude.{◌≤◌, ◌++◌, codes, length, IfOk, option_map};
ghost use Rattle.gp_base.specs.declared.limits.TheConstants.{MOST_FILE_BYTES};
ghost use Rattle.gp_audit.specs.LineTexts.{line_text, before_space, attempt_before, restart_end, IsNarrow, IsNarrowLine, IsNarrowRestart};
ghost use Rattle.gp_audit.specs.Reading.{IsRead, AnswersTrace};

use crate::line::{TraceFault, TraceLine};
use crate::numbers::number_before;
use crate::redo::redo_at;
use gp_base::{Pos, Restart, Seq, Text, after};
use std::alloc::{AllocError, Global};

// A line after its first word, and what remains after it.
type Read<'a> = Option<(TraceLine, &'a [u8])>;

// An attempt of a position, before a space.
fn attempt_at<'a>(bytes: &'a [u8]) -> Option<((u32, u32), &'a [u8])>
    ensures { IsRead (λ pair. attempt_before pair.0 pair.1) (λ pair. IsNarrow pair.0 × IsNarrow pair.1) bytes.entry.now (option_map (λ read. (read.0, read.1.now)) result) }
{
    let (position, rest) = number_before(b" ", bytes)?;
    let (attempt, rest) = number_before(b" ", rest)?;
    Some(((position, attempt), rest))
}

fn issue_in<'a>(bytes: &'a [u8]) -> Read<'a>
    ensures { IsRead line_text IsNarrowLine (codes "issue " ++ bytes.entry.now) (option_map (λ read. (read.0, read.1.now)) result) }
{
    let (position, rest) = number_before(b"\n", bytes)?;
    Some((TraceLine::Issue(Pos(position)), rest))
}

fn post_in<'a>(bytes: &'a [u8]) -> Read<'a>
    ensures { IsRead line_text IsNarrowLine (codes "post " ++ bytes.entry.now) (option_map (λ read. (read.0, read.1.now)) result) }
{
    let (position, rest) = number_before(b" ", bytes)?;
    let (attempt, rest) = number_before(b"\n", rest)?;
    Some((TraceLine::Post(Pos(position), attempt), rest))
}

fn take_in<'a>(bytes: &'a [u8]) -> Read<'a>
    ensures { IsRead line_text IsNarrowLine (codes "take " ++ bytes.entry.now) (option_map (λ read. (read.0, read.1.now)) result) }
{
    let ((position, attempt), rest) = attempt_at(bytes)?;
    if let Some(rest) = after(b"applied\n", rest) {
        return Some((TraceLine::Take(Pos(position), attempt, true), rest));
    }
    let rest = after(b"stale\n", rest)?;
    Some((TraceLine::Take(Pos(position), attempt, false), rest))
}

fn retire_in<'a>(bytes: &'a [u8]) -> Read<'a>
    ensures { IsRead line_text IsNarrowLine (codes "retire " ++ bytes.entry.now) (option_map (λ read. (read.0, read.1.now)) result) }
{
    let (position, rest) = number_before(b"\n", bytes)?;
    Some((TraceLine::Retire(Pos(position)), rest))
}

// The front, the struck position and the attempt of a restart, with the word after them.
fn struck_at<'a>(bytes: &'a [u8]) -> Option<((u32, u32, u32), &'a [u8])>
    ensures { IsRead (λ s. before_space s.0 ++ (attempt_before s.1 s.2 ++ codes "redo")) (λ s. IsNarrow s.0 × IsNarrow s.1 × IsNarrow s.2) bytes.entry.now (option_map (λ read. (read.0, read.1.now)) result) }
{
    let (front, rest) = number_before(b" ", bytes)?;
    let ((struck, attempt), rest) = attempt_at(rest)?;
    let rest = after(b"redo", rest)?;
    Some(((front, struck, attempt), rest))
}

fn restart_at<'a>(alloc: Global, bytes: &'a [u8]) -> Result<Option<(Restart, &'a [u8])>, AllocError>
    ensures { IfOk result (λ read. IsRead restart_end IsNarrowRestart bytes.entry.now (option_map (λ read. (read.0, read.1.now)) read)) }
{
    let Some(((front, struck, attempt), rest)) = struck_at(bytes) else {
        return Ok(None);
    };
    let Some((redo, rest)) = redo_at(alloc, rest)? else {
        return Ok(None);
    };
    let restart = Restart {
        front: Pos(front),
        struck: Pos(struck),
        attempt,
        redo,
    };
    Ok(Some((restart, rest)))
}

fn restart_in<'a>(alloc: Global, bytes: &'a [u8]) -> Result<Read<'a>, AllocError>
    ensures { IfOk result (λ read. IsRead line_text IsNarrowLine (codes "restart " ++ bytes.entry.now) (option_map (λ read. (read.0, read.1.now)) read)) }
{
    match restart_at(alloc, bytes)? {
        Some((restart, rest)) => Ok(Some((TraceLine::Restart(restart), rest))),
        None => Ok(None),
    }
}

// The line at the front of the bytes.
fn line_at<'a>(alloc: Global, bytes: &'a [u8]) -> Result<Read<'a>, AllocError>
    ensures { IfOk result (λ read. IsRead line_text IsNarrowLine bytes.entry.now (option_map (λ read. (read.0, read.1.now)) read)) }
{
    if let Some(rest) = after(b"issue ", bytes) {
        return Ok(issue_in(rest));
    }
    if let Some(rest) = after(b"post ", bytes) {
        return Ok(post_in(rest));
    }
    if let Some(rest) = after(b"take ", bytes) {
        return Ok(take_in(rest));
    }
    if let Some(rest) = after(b"retire ", bytes) {
        return Ok(retire_in(rest));
    }
    if let Some(rest) = after(b"restart ", bytes) {
        return restart_in(alloc, rest);
    }
    Ok(None)
}

/// The lines of a trace. `Line` tells its first row that is no line of a trace: one with the bytes that the trace of a
/// journal has, numbers of 32 bits, and a line end.
pub fn read_trace(alloc: Global, bytes: &Text) -> Result<Seq<TraceLine>, TraceFault>
    requires { length bytes.now ≤ MOST_FILE_BYTES }
    ensures { AnswersTrace bytes.now result }
{
    let mut lines = Seq::new(alloc);
    let mut rest = bytes.as_slice();
    'reading: loop {
        if rest.is_empty() {
            return Ok(lines);
        }
        match line_at(alloc, rest)? {
            Some((line, later)) => {
                lines.push(line)?;
                rest = later;
            }
            None => return Err(TraceFault::Line(lines.len() as u32 + 1)),
        }
    }
}
