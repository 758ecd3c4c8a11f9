// Hints on statements: what they lack at their end, and what stands between them.

use crate::foreign::{BLOCK, ELSE_IF, is_among};
use crate::rules::Rule;
use crate::rules::Test::{
    Apart, Before, Begins, Beside, ElseOfWhen, First, Has, InHead, Is, Opens, This,
};
use crate::spots::{
    CLOSE_BLOCK, CLOSE_BRACKET, CLOSE_PAREN, COMMA, ELSE, FORK, IF, LOCK, NUMBER, OPEN_BLOCK,
    OPEN_BRACKET, PLUS, PRINT, READ, SEMICOLON, Spot, TASK, WHEN, WHILE, is_control,
};
use crate::told_hints::Hint;
use std::alloc::{AllocError, Global};
use task_parser::Kind;

const WHEN_INSIDE: &[u8] = b"write `else { when e { .. } }`";

// Tokens by which an expression in a list begins.
const LISTED: &[Kind] = &[NUMBER, Kind::Name, Kind::Reg];

/// The rules on the beginning of a block after a statement that has none, and on a statement right after an `else`.
pub static OPENING_RULES: [Rule; 7] = [
    (&[Opens, InHead], b"a head has no block, and ends with `;`"),
    (
        &[Opens, First(&[LOCK])],
        b"a lock has no block: write `lock l[i]; .. unlock l[i];`",
    ),
    (
        &[Opens, First(&[FORK])],
        b"a fork has no block: what a thread does is a task, `task t(x) { .. }`",
    ),
    (&[Before(&[ELSE]), Is(WHILE)], BLOCK),
    (
        &[Before(&[ELSE]), This(&[IF, WHEN]), ElseOfWhen],
        WHEN_INSIDE,
    ),
    (&[Before(&[ELSE]), Is(IF)], ELSE_IF),
    (&[Before(&[ELSE]), Is(WHEN)], WHEN_INSIDE),
];

/// The rules on an expression right after another in a list.
pub static LIST_RULES: [Rule; 2] = [
    (
        &[This(LISTED), Has(COMMA), Has(PLUS), Beside, First(&[PRINT])],
        b"values stand between commas: write `print e, g;`",
    ),
    (
        &[This(LISTED), Has(COMMA), Has(PLUS), Beside, First(&[FORK])],
        b"arguments stand between commas: write `fork t(e, g);`",
    ),
];

// The rules on the end of a statement, of a parenthesis or of an index, or the beginning of a block, that is missing.
static MISSING_RULES: [Rule; 5] = [
    (
        &[Has(SEMICOLON), Is(CLOSE_BLOCK)],
        b"a statement ends with `;`",
    ),
    (
        &[Has(CLOSE_PAREN), This(&[SEMICOLON, OPEN_BLOCK])],
        b"a `(` is not closed",
    ),
    (
        &[Has(CLOSE_BRACKET), This(&[SEMICOLON, OPEN_BLOCK])],
        b"a `[` is not closed",
    ),
    (&[Has(OPEN_BLOCK), Apart], BLOCK),
    (&[Has(OPEN_BLOCK), Begins], BLOCK),
];

// Words by which a block begins in other languages.
static OPENINGS: [&[u8]; 3] = [b"do", b"begin", b"then"];

impl<'a> Spot<'a> {
    /// What is missing before the token: the end of a statement, of a parenthesis, or the beginning of a block.
    pub fn missing_hint(&self) -> Option<Hint<'a>> {
        if self.has(SEMICOLON) && !self.is_beside() {
            Some(Hint::NoEnd(self.back(1)?.line))
        } else {
            Some(Hint::Fixed(self.told(&MISSING_RULES)?))
        }
    }

    /// Appends the hints on the block that may lack its `}`, or that ended too early, where a statement or an `else` can't
    /// stand.
    pub fn push_block_lines(&self, alloc: Global, text: &mut Vec<u8>) -> Result<(), AllocError> {
        let Some(kind) = self.kind() else {
            return Ok(());
        };
        if kind == ELSE && self.has(READ) {
            self.place.push_else_hints(alloc, text)
        } else if self.is_in_arm() && (kind == Kind::Name || is_control(kind)) {
            self.place.push_arm_hints(alloc, text)
        } else if self.wants(TASK) && self.begins_statement() {
            self.place.push_closing_hints(alloc, text)
        } else {
            Ok(())
        }
    }

    /// Whether a block begins at this token, here or in other languages, where a statement or a head could go on or end.
    pub fn opens(&self) -> bool {
        let is_end = self.has(SEMICOLON) || self.wants(OPEN_BRACKET);
        is_end && (self.is(OPEN_BLOCK) || is_among(&OPENINGS, self.bytes(self.back(0))))
    }
}
