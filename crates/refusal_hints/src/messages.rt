// What is said of a line that breaks a rule of the check.

use crate::counts::{push_main_takes, push_no_size};
use crate::pieces::push_words;
use crate::spelling::{dollar, index_piece};
use gp_base::Name;
use rule_blame::{Blame, Many, Role, Taken};
use std::alloc::AllocError;
use task_ast::{Atom, Program};
use text_pieces::Piece::{Number, Word};
use text_pieces::push_pieces;

// What is said of a name that isn't declared as this; before the task, of a variable.
fn is_no(role: Role) -> &'static [u8] {
    match role {
        Role::LockArray => b" is no lock array",
        Role::Record => b" is no record",
        Role::Feed => b" is no feed",
        Role::Barrier => b" is no barrier",
        Role::Task => b" is no task",
        Role::Control => b" is no control variable of task ",
        Role::Data => b" is no data variable of task ",
    }
}

// Appends that a name isn't declared as what its place needs.
fn push_unknown<'a>(
    text: &mut Vec<u8>,
    role: Role,
    name: &'a Name,
    task: &'a Name,
) -> Result<(), AllocError> {
    let owner: &[u8] = match role {
        Role::Control | Role::Data => task.as_slice(),
        _ => b"",
    };
    push_pieces(
        text,
        &[
            Word(dollar(role)),
            Word(name.as_slice()),
            Word(is_no(role)),
            Word(owner),
        ],
    )
}

// Appends that a name is declared twice.
fn push_twice(text: &mut Vec<u8>, role: Role, name: &Name, first: u32) -> Result<(), AllocError> {
    push_pieces(
        text,
        &[
            Word(dollar(role)),
            Word(name.as_slice()),
            Word(b" is declared twice: in line "),
            Number(u64::from(first)),
            Word(b", and here"),
        ],
    )
}

// The role by which a variable is spelt.
fn role_of(dollar: bool) -> Role {
    if dollar { Role::Data } else { Role::Control }
}

// Appends with how many arguments a task is forked.
fn push_counts(text: &mut Vec<u8>, task: &Name, takes: u64, gets: u64) -> Result<(), AllocError> {
    push_pieces(
        text,
        &[
            Word(b"task "),
            Word(task.as_slice()),
            Word(b" takes "),
            Number(takes),
            Word(if takes == 1 {
                b" argument, and gets "
            } else {
                b" arguments, and gets "
            }),
            Number(gets),
        ],
    )
}

// Appends how many cells a record has, and how many locks.
fn push_sizes<'a>(
    text: &mut Vec<u8>,
    cells: &'a Name,
    size: u64,
    array: &'a Name,
    other: u64,
) -> Result<(), AllocError> {
    push_pieces(
        text,
        &[
            Word(b"record "),
            Word(cells.as_slice()),
            Word(b" has "),
            Number(size),
            Word(b" cells, and its locks "),
            Word(array.as_slice()),
            Word(b" "),
            Number(other),
        ],
    )
}

// What there may be so many of, with the words that its name follows.
fn most_of(what: Many) -> (&'static [u8], u64) {
    match what {
        Many::LockCells => (b" lock cells with ", 65536),
        Many::RecordCells => (b" record cells with ", 65536),
        Many::Threads => (b" threads at ", 4096),
        Many::Fields => (b" fields of ", 64),
        Many::Variables => (b" variables of task ", 256),
    }
}

// Appends how many there are, which are too many.
fn push_many(text: &mut Vec<u8>, what: Many, name: &Name, count: u64) -> Result<(), AllocError> {
    let (words, most) = most_of(what);
    push_pieces(
        text,
        &[
            Number(count),
            Word(words),
            Word(name.as_slice()),
            Word(b"; there may be "),
            Number(most),
        ],
    )
}

// Appends that a record is touched without its lock.
fn push_unguarded<'a>(
    text: &mut Vec<u8>,
    cells: &'a Name,
    array: &'a Name,
    index: &'a Atom,
) -> Result<(), AllocError> {
    push_pieces(
        text,
        &[
            Word(cells.as_slice()),
            Word(b"["),
            index_piece(index),
            Word(b"] is touched without "),
            Word(array.as_slice()),
            Word(b"["),
            index_piece(index),
            Word(b"]"),
        ],
    )
}

// Appends that a lock is given back which is not held.
fn push_not_taken<'a>(
    text: &mut Vec<u8>,
    array: &'a Name,
    index: &'a Atom,
) -> Result<(), AllocError> {
    push_pieces(
        text,
        &[
            Word(array.as_slice()),
            Word(b"["),
            index_piece(index),
            Word(b"] is given back and is not held"),
        ],
    )
}

const TAKEN_IN: &[u8] = b"], taken in line ";

// Appends what is said of a lock, with the line that took it.
fn push_lock<'a>(
    text: &mut Vec<u8>,
    taken: Taken<'a>,
    middle: &'a [u8],
    after: &'a [u8],
) -> Result<(), AllocError> {
    push_pieces(
        text,
        &[
            Word(taken.array.as_slice()),
            Word(b"["),
            index_piece(taken.index),
            Word(middle),
            Number(u64::from(taken.line)),
            Word(after),
        ],
    )
}

// Appends that a lock is held at the end of a task.
fn push_kept(text: &mut Vec<u8>, taken: Taken<'_>, task: &Name) -> Result<(), AllocError> {
    push_lock(text, taken, TAKEN_IN, b", is held at the end of task ")?;
    text.extend_from_slice(task.as_slice())
}

// Appends that the index of a lock is set which is held.
fn push_set(text: &mut Vec<u8>, name: &Name, taken: Taken<'_>) -> Result<(), AllocError> {
    push_words(text, name.as_slice(), b" is set while ", b"")?;
    push_lock(text, taken, b"] is held, taken in line ", b"")
}

// At which of two blocks a lock is held, or on which way where the second has no statement.
fn branch_words(first: bool, one_block: bool) -> &'static [u8] {
    match (first, one_block) {
        (true, false) => b", is held after the first block, and not after the second",
        (false, false) => b", is held after the second block, and not after the first",
        (true, true) => b", is held after the block, and not where the condition is 0",
        (false, true) => b", is held where the condition is 0, and not after the block",
    }
}

// At which end of a block a lock is held.
fn turn_words(before: bool) -> &'static [u8] {
    if before {
        b", is held at the beginning of the block, and not at its end"
    } else {
        b", is held at the end of the block, and not at its beginning"
    }
}

// Appends what is said of locks, in a line whose first `if` has one block alone, or not.
fn push_lock_message(
    text: &mut Vec<u8>,
    blame: &Blame<'_>,
    one_block: bool,
) -> Result<(), AllocError> {
    match *blame {
        Blame::Unguarded {
            cells,
            index,
            array,
        } => push_unguarded(text, cells, array, index),
        Blame::NotTaken { array, index } => push_not_taken(text, array, index),
        Blame::TakenTwice { taken } => {
            push_lock(text, taken, b"] is held already, taken in line ", b"")
        }
        Blame::KeptAtEnd { taken, task } => push_kept(text, taken, task),
        Blame::OneBranch { taken, first } => {
            push_lock(text, taken, TAKEN_IN, branch_words(first, one_block))
        }
        Blame::OneTurn { taken, before } => push_lock(text, taken, TAKEN_IN, turn_words(before)),
        Blame::IndexSet { name, taken } => push_set(text, name, taken),
        _ => Ok(()),
    }
}

/// Appends what is said of a line of a program that breaks a rule, whose first `if` has one block alone, or not.
pub fn push_message(
    text: &mut Vec<u8>,
    program: &Program,
    blame: &Blame<'_>,
    one_block: bool,
) -> Result<(), AllocError> {
    match blame {
        Blame::NoMain => text.extend_from_slice(b"there is no task main"),
        Blame::NoArray { array } => push_words(text, array.as_slice(), b" is no lock array", b""),
        Blame::Unknown { role, name, task } => push_unknown(text, *role, name, task),
        Blame::Twice { name, first } => push_twice(text, Role::Control, name, *first),
        Blame::VariableTwice {
            dollar,
            name,
            first,
        } => push_twice(text, role_of(*dollar), name, *first),
        Blame::Return => text.extend_from_slice(b"$ret is declared by each task, and here"),
        Blame::NoSize { name } => push_no_size(text, program, name),
        Blame::MainTakes => push_main_takes(text, program),
        Blame::Data { name } => push_words(
            text,
            b"$",
            name.as_slice(),
            b" is data, and this place decides about control",
        ),
        Blame::Counts { task, takes, gets } => push_counts(text, task, *takes, *gets),
        Blame::Sizes {
            cells,
            size,
            array,
            other,
        } => push_sizes(text, cells, *size, array, *other),
        Blame::TooMany { what, name, count } => push_many(text, *what, name, *count),
        _ => push_lock_message(text, blame, one_block),
    }
}
