// Reads the rows of a log.

ghost use Rattle.std.specs.Prelude.{All, IfOk, option_map};
ghost use Rattle.std.specs.Bool.{Decides};
ghost use Rattle.retirement_log.specs.meaning.Rows.{group, IsWide};
ghost use Rattle.gp_resume.specs.meaning.Reading.{EndsNoLine};
ghost use Rattle.gp_resume.specs.inner.Fronts.{IsFront, EndsNumber, EndsNumbers, IsWideCell, Anything, head_text, cells_end};
ghost use Rattle.gp_resume.specs.inner.RowsRead.{row_in, IsRowRead};

use crate::groups::{cells_at, numbers_at, spaced_at};
use crate::numbers::number_at;
use crate::row::LogRow;
use gp_base::{Nums, Seq, after};
use std::alloc::{AllocError, Global};

/// Whether no line ends in the bytes.
pub fn ends_no_line(bytes: &[u8]) -> bool
    ensures { Decides result (EndsNoLine bytes.now) }
{
    !bytes.contains(&b'\n')
}

// The position of a row and how many bytes the text has up to the end of its lines, with the bytes after them.
fn head_at<'a>(bytes: &'a [u8]) -> Option<((i64, i64), &'a [u8])>
    ensures { IsFront head_text IsWideCell EndsNumber bytes.entry.now (option_map (λ read. (read.0, read.1.now)) result) }
{
    let (position, rest) = number_at(bytes)?;
    let (size, rest) = spaced_at(rest)?;
    Some(((position, size), rest))
}

// A group of numbers, with the bytes after it. The error is that memory is out.
fn group_at<'a>(alloc: Global, bytes: &'a [u8]) -> Result<Option<(Nums, &'a [u8])>, AllocError>
    ensures { IfOk result (λ read. IsFront group (All IsWide) EndsNumbers bytes.entry.now (option_map (λ read. (read.0, read.1.now)) read)) }
{
    match after(b" ;", bytes) {
        Some(rest) => Ok(Some(numbers_at(alloc, rest)?)),
        None => Ok(None),
    }
}

// The cells of a row up to the end of its line, with the bytes after that. The error is that memory is out.
fn cells_end_at<'a>(
    alloc: Global,
    bytes: &'a [u8],
) -> Result<Option<(Seq<(i64, i64)>, &'a [u8])>, AllocError>
    ensures { IfOk result (λ read. IsFront cells_end (All IsWideCell) Anything bytes.entry.now (option_map (λ read. (read.0, read.1.now)) read)) }
{
    let Some(rest) = after(b" ;", bytes) else {
        return Ok(None);
    };
    let (cells, rest) = cells_at(alloc, rest)?;
    match after(b"\n", rest) {
        Some(rest) => Ok(Some((cells, rest))),
        None => Ok(None),
    }
}

/// The row at the front of the bytes, with the bytes after it. The error is that memory is out.
pub fn row_at<'a>(alloc: Global, bytes: &'a [u8]) -> Result<Option<(LogRow, &'a [u8])>, AllocError>
    ensures { IfOk result (λ read. IsRowRead bytes.entry.now (option_map (λ read. (row_in read.0, read.1.now)) read)) }
{
    let Some(((position, size), rest)) = head_at(bytes) else {
        return Ok(None);
    };
    let Some((regs, rest)) = group_at(alloc, rest)? else {
        return Ok(None);
    };
    let Some((child, rest)) = group_at(alloc, rest)? else {
        return Ok(None);
    };
    let Some((cells, rest)) = cells_end_at(alloc, rest)? else {
        return Ok(None);
    };
    let row = LogRow {
        position,
        bytes: size,
        regs,
        child,
        cells,
    };
    Ok(Some((row, rest)))
}
