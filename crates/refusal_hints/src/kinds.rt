// What could stand at a place, in words.

use crate::spelling::{mark_text, word_text};
use crate::spots::{
    AND, AT_LEAST, AT_MOST, BARRIER, EQUAL, FORK, GREATER, HEADS, IF, JOIN, LESS, LOCK, MINUS, NOT,
    NUMBER, OPEN_PAREN, OR, PERCENT, PLUS, PRINT, READ, ROWS, SELF, SETTLE, SLASH, STAR, UNEQUAL,
    UNLOCK, WHEN, WHILE, WRITE,
};
use std::alloc::AllocError;
use task_parser::Kind;
use text_pieces::Piece::Word;
use text_pieces::push_pieces;

// A group of kinds that has a name: its bit, its kinds, and its name.
type Group = (u8, &'static [Kind], &'static [u8]);

// Kinds by which a data statement begins.
const DATA_STATEMENT: &[Kind] = &[Kind::Reg, READ, WRITE, PRINT, WHEN];

// Kinds by which any statement begins.
const STATEMENT: &[Kind] = &[
    Kind::Reg,
    READ,
    WRITE,
    PRINT,
    WHEN,
    Kind::Name,
    WHILE,
    IF,
    LOCK,
    UNLOCK,
    FORK,
    JOIN,
    BARRIER,
    SETTLE,
];

// Kinds by which an expression begins.
const EXPRESSION: &[Kind] = &[
    NUMBER,
    Kind::Name,
    Kind::Reg,
    MINUS,
    NOT,
    SELF,
    ROWS,
    OPEN_PAREN,
];

// The operators that are no comparisons.
const JOINING: &[Kind] = &[OR, AND, PLUS, MINUS, STAR, SLASH, PERCENT];

// All operators.
const OPERATOR: &[Kind] = &[
    OR, AND, PLUS, MINUS, STAR, SLASH, PERCENT, EQUAL, UNEQUAL, LESS, AT_MOST, GREATER, AT_LEAST,
];

// The groups in the order in which they are looked for.
static GROUPS: [Group; 8] = [
    (1, EXPRESSION, b"an expression"),
    (2, STATEMENT, b"a statement"),
    (4, DATA_STATEMENT, b"a data statement"),
    (8, HEADS, b"a head"),
    (16, OPERATOR, b"an operator"),
    (32, JOINING, b"an operator that is no comparison"),
    (64, &[NUMBER, Kind::Name], b"a number or a control variable"),
    (128, &[Kind::Name, Kind::Reg], b"a variable"),
];

/// Whether the kind is among these.
pub fn has(kinds: &[Kind], kind: Kind) -> bool {
    for other in kinds {
        if *other == kind {
            return true;
        }
    }
    false
}

// Whether the kind is in one of these groups.
fn is_in(groups: u8, kind: Kind) -> bool {
    for (bit, members, _) in &GROUPS {
        if groups & *bit != 0 && has(members, kind) {
            return true;
        }
    }
    false
}

// Whether all members of a group are among the kinds, and in none of these groups.
fn has_all(kinds: &[Kind], groups: u8, members: &[Kind]) -> bool {
    for kind in members {
        if !has(kinds, *kind) || is_in(groups, *kind) {
            return false;
        }
    }
    true
}

// The groups among the kinds: no kind counts for two of them.
fn groups_in(kinds: &[Kind]) -> u8 {
    let mut groups: u8 = 0;
    for (bit, members, _) in &GROUPS {
        if has_all(kinds, groups, members) {
            groups |= *bit;
        }
    }
    groups
}

// How many names these groups and the kinds outside of them have.
fn count_of(kinds: &[Kind], groups: u8) -> usize {
    let mut count: usize = 0;
    for kind in kinds {
        if !is_in(groups, *kind) {
            count = count.saturating_add(1);
        }
    }
    for (bit, _, _) in &GROUPS {
        if groups & *bit != 0 {
            count = count.saturating_add(1);
        }
    }
    count
}

// What stands before the name at a place among so many.
fn joint(at: usize, count: usize) -> &'static [u8] {
    if at == 0 {
        b"; "
    } else if at.saturating_add(1) == count {
        b" or "
    } else {
        b", "
    }
}

// What a kind of token is called, and the mark around that.
fn called(kind: Kind) -> (&'static [u8], &'static [u8]) {
    match kind {
        Kind::Num(_) => (b"", b"a number"),
        Kind::Name => (b"", b"a name"),
        Kind::Reg => (b"", b"a data variable"),
        Kind::Quoted => (b"", b"a text in quotes"),
        Kind::Word(row) => (b"`", word_text(row)),
        Kind::Mark(row) => (b"`", mark_text(row)),
    }
}

// Appends what a kind of token is called, at a place among so many.
fn push_kind(text: &mut Vec<u8>, kind: Kind, at: usize, count: usize) -> Result<(), AllocError> {
    let (around, name) = called(kind);
    push_pieces(
        text,
        &[
            Word(joint(at, count)),
            Word(around),
            Word(name),
            Word(around),
        ],
    )
}

// Appends the names of the kinds outside of these groups, which stand first of so many. The answer is how many there are.
fn push_kinds(
    text: &mut Vec<u8>,
    kinds: &[Kind],
    groups: u8,
    count: usize,
) -> Result<usize, AllocError> {
    let mut at: usize = 0;
    for kind in kinds {
        if !is_in(groups, *kind) {
            push_kind(text, *kind, at, count)?;
            at = at.saturating_add(1);
        }
    }
    Ok(at)
}

// Appends the names of these groups, which so many of all names stand before.
fn push_groups(
    text: &mut Vec<u8>,
    groups: u8,
    before: usize,
    count: usize,
) -> Result<(), AllocError> {
    let mut at = before;
    for (bit, _, name) in &GROUPS {
        if groups & *bit != 0 {
            push_pieces(text, &[Word(joint(at, count)), Word(name)])?;
            at = at.saturating_add(1);
        }
    }
    Ok(())
}

/// Appends what was expected by its names, where these kinds could stand: the single kinds first.
pub fn push_expected(text: &mut Vec<u8>, kinds: &[Kind]) -> Result<(), AllocError> {
    if kinds.is_empty() {
        return Ok(());
    }
    let groups = groups_in(kinds);
    let count = count_of(kinds, groups);
    let before = push_kinds(text, kinds, groups, count)?;
    push_groups(text, groups, before, count)?;
    text.extend_from_slice(b" was expected")
}
