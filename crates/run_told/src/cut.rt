// What a text tells, cut out of it. No contract says that it is right: what is cut is rendered again and compared.

use gp_base::{End, Journal, Lines, Nums, Seq};
use reorder_list::Report;
use std::alloc::{AllocError, Global};

// The numbers of a line, with a space between each two; 0 for what is none.
fn numbers_in(alloc: Global, line: &str) -> Result<Nums, AllocError> {
    let mut numbers = Seq::new(alloc);
    for word in line.split_ascii_whitespace() {
        numbers.push(word.parse::<i64>().unwrap_or(0))?;
    }
    Ok(numbers)
}

// The numbers of each line after the first.
fn lines_in(alloc: Global, text: &str) -> Result<Lines, AllocError> {
    let mut lines = Seq::new(alloc);
    for line in text.lines().skip(1) {
        lines.push(numbers_in(alloc, line)?)?;
    }
    Ok(lines)
}

// Appends the numbers after the name of a record.
fn push_cells(alloc: Global, cells: &mut Nums, line: &str) -> Result<(), AllocError> {
    if let Some((_, values)) = line.split_once(':') {
        for value in numbers_in(alloc, values)?.as_slice() {
            cells.push(*value)?;
        }
    }
    Ok(())
}

// The cells of all records, a line for each.
fn cells_in(alloc: Global, text: &str) -> Result<Nums, AllocError> {
    let mut cells = Seq::new(alloc);
    for line in text.lines() {
        push_cells(alloc, &mut cells, line)?;
    }
    Ok(cells)
}

// The number after the word, up to the end of its line.
fn count_after(text: &str, word: &str) -> Option<u32> {
    let (_, rest) = text.split_once(word)?;
    let (count, _) = rest.split_once('\n')?;
    count.parse::<u32>().ok()
}

/// The printed lines, and what else the text of a finished run tells of it, whose journal this is. None where it has not the
/// parts of such a text.
pub fn cut_text(
    alloc: Global,
    text: &str,
    journal: Journal,
) -> Result<Option<(Lines, Report)>, AllocError> {
    let Some((output, rest)) = text.split_once("\nrecords\n") else {
        return Ok(None);
    };
    let Some((records, counts)) = rest.split_once("restarts\n") else {
        return Ok(None);
    };
    let lines = lines_in(alloc, output)?;
    let report = Report {
        end: End::Finished,
        records: cells_in(alloc, records)?,
        subthreads: count_after(counts, "\nsubthreads ").unwrap_or(0),
        unused: count_after(counts, "\nunused ").unwrap_or(0),
        journal,
    };
    Ok(Some((lines, report)))
}
