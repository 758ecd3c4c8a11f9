// The cells of records that begin with 0.

use call_cases::Request;
use gp_base::Name;
use std::alloc::AllocError;
use task_ast::{Head, natural};
use text_pieces::Piece::{Number, Word};
use text_pieces::push_pieces;

// How many of these cells have another value than 0, and from which on all have 0.
fn given_in(cells: &[i64]) -> (u64, u64) {
    let mut given: u64 = 0;
    let mut from: u64 = 0;
    let mut next: u64 = 0;
    for value in cells {
        next = next.saturating_add(1);
        if *value != 0 {
            given = given.saturating_add(1);
            from = next;
        }
    }
    (given, from)
}

// Appends how many of the cells of a record have another value than 0 by its file, and from which cell on all begin with 0,
// if any do.
fn push_cells<'a>(
    text: &mut Vec<u8>,
    name: &'a Name,
    file: &'a Name,
    cells: &[i64],
) -> Result<(), AllocError> {
    let (given, from) = given_in(cells);
    let count = cells.len() as u64;
    if from == count {
        return Ok(());
    }
    push_pieces(
        text,
        &[
            Word(b"hint: "),
            Word(file.as_slice()),
            Word(b" gives "),
            Number(given),
            Word(b" of the "),
            Number(count),
            Word(b" cells of record "),
            Word(name.as_slice()),
            Word(b" another value than 0; from "),
            Word(name.as_slice()),
            Word(b"["),
            Number(from),
            Word(b"] on they begin with 0: they have no row, or one that says 0\n"),
        ],
    )
}

/// Appends for each record with a file how many of its cells this gives a value, where the last of them begin with 0, as they do in a file that has too
/// few rows. The error is that memory is out.
pub fn push_first_cells(text: &mut Vec<u8>, request: &Request) -> Result<(), AllocError> {
    let cells = request.inputs.records.as_slice();
    let mut from: usize = 0;
    for head in request.checked.program().heads.as_slice() {
        if let Head::RecHead {
            name,
            size,
            from: file,
            ..
        } = head
        {
            let to = from.saturating_add(natural(*size) as usize);
            if let (Some(file), Some(own)) = (file, cells.get(from..to)) {
                push_cells(text, name, file, own)?;
            }
            from = to;
        }
    }
    Ok(())
}
