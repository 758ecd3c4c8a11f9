// What is told of the locks that are held, and of the one that is missing.

use crate::pasts::{Past, Spelt, missed, past_of};
use crate::pieces::comma;
use crate::spelling::index_piece;
use gp_base::Name;
use rule_blame::{Blame, Taken, Told};
use std::alloc::AllocError;
use task_ast::{CheckKind, Head, Program};
use text_pieces::Piece::{Number, Word};
use text_pieces::push_pieces;

// Appends a lock that is held, with a comma before it where it is not the first.
fn push_taken(text: &mut Vec<u8>, at: usize, taken: Taken<'_>) -> Result<(), AllocError> {
    push_pieces(
        text,
        &[
            Word(comma(at)),
            Word(taken.array.as_slice()),
            Word(b"["),
            index_piece(taken.index),
            Word(b"] (taken in line "),
            Number(u64::from(taken.line)),
            Word(b")"),
        ],
    )
}

// Appends the locks that are held.
fn push_held(text: &mut Vec<u8>, held: &[Taken<'_>]) -> Result<(), AllocError> {
    if held.is_empty() {
        return text.extend_from_slice(b"held here: nothing\n");
    }
    text.extend_from_slice(b"held here: ")?;
    for (at, taken) in held.iter().enumerate() {
        push_taken(text, at, *taken)?;
    }
    text.extend_from_slice(b"\n")
}

// Appends where a lock was taken and given back, and whether it was.
fn push_given(text: &mut Vec<u8>, lock: Spelt<'_>, past: Past) -> Result<bool, AllocError> {
    let Past::Given { taken, back } = past else {
        return Ok(false);
    };
    push_pieces(
        text,
        &[
            Word(lock.array.as_slice()),
            Word(b"["),
            index_piece(lock.index),
            Word(b"], taken in line "),
            Number(u64::from(taken)),
            Word(b", was given back in line "),
            Number(u64::from(back)),
            Word(b"\n"),
        ],
    )?;
    Ok(true)
}

// The first lock of an array that is held.
fn held_of<'a>(held: &[Taken<'a>], array: &Name) -> Option<Taken<'a>> {
    for taken in held {
        if taken.array.as_slice() == array.as_slice() {
            return Some(*taken);
        }
    }
    None
}

// Appends that a lock of the same array is held by another index.
fn push_other_index<'a>(
    text: &mut Vec<u8>,
    taken: Taken<'a>,
    lock: Spelt<'a>,
) -> Result<(), AllocError> {
    push_pieces(
        text,
        &[
            Word(b"hint: "),
            Word(taken.array.as_slice()),
            Word(b"["),
            index_piece(taken.index),
            Word(b"] and "),
            Word(lock.array.as_slice()),
            Word(b"["),
            index_piece(lock.index),
            Word(b"] count as two locks, even where both indices are equal\n"),
        ],
    )
}

// The line that declares a record.
fn record_line(heads: &[Head], cells: &Name) -> Option<u32> {
    for head in heads {
        if let Head::RecHead { name, line, .. } = head {
            if name.as_slice() == cells.as_slice() {
                return Some(*line);
            }
        }
    }
    None
}

// Appends under which locks a record stands, and the line that says it.
fn push_under<'a>(
    text: &mut Vec<u8>,
    cells: &'a Name,
    array: &'a Name,
    line: Option<u32>,
) -> Result<(), AllocError> {
    let (by_line, number) = match line {
        Some(line) => (b", by line ".as_slice(), Number(u64::from(line))),
        None => (b"".as_slice(), Word(b"")),
    };
    push_pieces(
        text,
        &[
            Word(b"hint: "),
            Word(cells.as_slice()),
            Word(b" stands under the locks "),
            Word(array.as_slice()),
            Word(by_line),
            number,
        ],
    )
}

// Appends how a cell that stands under a lock is touched.
fn push_touch(text: &mut Vec<u8>, lock: Spelt<'_>) -> Result<(), AllocError> {
    push_pieces(
        text,
        &[
            Word(b": `lock "),
            Word(lock.array.as_slice()),
            Word(b"["),
            index_piece(lock.index),
            Word(b"];` before this statement, and `unlock "),
            Word(lock.array.as_slice()),
            Word(b"["),
            index_piece(lock.index),
            Word(b"];` after it\n"),
        ],
    )
}

// Appends why the lock may be missing.
fn push_missing(
    text: &mut Vec<u8>,
    program: &Program,
    told: &Told<'_>,
    lock: Spelt<'_>,
) -> Result<(), AllocError> {
    if push_given(text, lock, past_of(program, told, lock))? {
        return Ok(());
    }
    if let Some(taken) = held_of(&told.held, lock.array) {
        return push_other_index(text, taken, lock);
    }
    let Blame::Unguarded { cells, .. } = told.blame else {
        return Ok(());
    };
    push_under(
        text,
        cells,
        lock.array,
        record_line(program.heads.as_slice(), cells),
    )?;
    push_touch(text, lock)
}

// Appends what to do where the index of a held lock is set.
fn push_own_index(text: &mut Vec<u8>, taken: Taken<'_>) -> Result<(), AllocError> {
    push_pieces(
        text,
        &[
            Word(b"hint: `unlock "),
            Word(taken.array.as_slice()),
            Word(b"["),
            index_piece(taken.index),
            Word(b"];` before this statement, or a variable of its own for the new value\n"),
        ],
    )
}

/// Appends what is told of locks where a rule on them is broken: those that are held, where the one that is missing was
/// given back, or how it is taken. The error is that memory is out.
pub fn push_lock_hints(
    text: &mut Vec<u8>,
    program: &Program,
    kind: CheckKind,
    told: &Told<'_>,
) -> Result<(), AllocError> {
    if kind == CheckKind::NotHeld {
        push_held(text, &told.held)?;
    }
    if let Blame::IndexSet { taken, .. } = told.blame {
        return push_own_index(text, taken);
    }
    let Some(lock) = missed(told) else {
        return Ok(());
    };
    if kind == CheckKind::NotHeld {
        push_missing(text, program, told, lock)
    } else {
        push_given(text, lock, past_of(program, told, lock))?;
        Ok(())
    }
}
