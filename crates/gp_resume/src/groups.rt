// Numbers and cells, each after a space.

ghost use Rattle.std.specs.Prelude.{flat_map, All, IfOk, option_map};
ghost use Rattle.restart_log.specs.meaning.Lines.{spaced};
ghost use Rattle.retirement_log.specs.meaning.Rows.{IsWide};
ghost use Rattle.gp_resume.specs.inner.Fronts.{IsFront, IsOnlyFront, EndsNumber, EndsNumbers, EndsCells, IsWideCell, spaced_number, cell_text};

use crate::numbers::number_at;
use gp_base::{Nums, Seq, after};
use std::alloc::{AllocError, Global};

/// The number after a space, with the bytes after it.
pub fn spaced_at<'a>(bytes: &'a [u8]) -> Option<(i64, &'a [u8])>
    ensures { IsFront spaced_number IsWide EndsNumber bytes.entry.now (option_map (λ read. (read.0, read.1.now)) result) }
{
    number_at(after(b" ", bytes)?)
}

// The cell and its value, each after a space, with the bytes after them.
fn cell_at<'a>(bytes: &'a [u8]) -> Option<((i64, i64), &'a [u8])>
    ensures { IsFront cell_text IsWideCell EndsNumber bytes.entry.now (option_map (λ read. (read.0, read.1.now)) result) }
{
    let (cell, rest) = spaced_at(bytes)?;
    let (value, rest) = spaced_at(rest)?;
    Some(((cell, value), rest))
}

/// The numbers, each after a space, with the bytes after them. The error is that memory is out.
pub fn numbers_at<'a>(alloc: Global, bytes: &'a [u8]) -> Result<(Nums, &'a [u8]), AllocError>
    ensures { IfOk result (λ read. IsOnlyFront spaced (All IsWide) EndsNumbers bytes.entry.now read.0 read.1.now) }
{
    let mut numbers = Nums::new(alloc);
    let mut rest = bytes;
    'reading: loop {
        match spaced_at(rest) {
            Some((number, later)) => {
                numbers.push(number)?;
                rest = later;
            }
            None => return Ok((numbers, rest)),
        }
    }
}

/// The cells, with the bytes after them. The error is that memory is out.
pub fn cells_at<'a>(
    alloc: Global,
    bytes: &'a [u8],
) -> Result<(Seq<(i64, i64)>, &'a [u8]), AllocError>
    ensures { IfOk result (λ read. IsOnlyFront (flat_map cell_text) (All IsWideCell) EndsCells bytes.entry.now read.0 read.1.now) }
{
    let mut cells = Seq::new(alloc);
    let mut rest = bytes;
    'reading: loop {
        match cell_at(rest) {
            Some((cell, later)) => {
                cells.push(cell)?;
                rest = later;
            }
            None => return Ok((cells, rest)),
        }
    }
}
