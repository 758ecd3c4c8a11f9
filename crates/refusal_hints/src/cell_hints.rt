// Hints on indices, on cells, and on brackets and parentheses.

use crate::foreign::{function, without_parentheses};
use crate::mark_hints::ONE_INDEX;
use crate::rules::Rule;
use crate::rules::Test::{
    Before, FeedBefore, FeedCell, Fourth, Has, InHead, Index, Is, This, Wants,
};
use crate::spots::{
    ASSIGN, CLOSE_BRACKET, COMMA, MINUS, NOT, OPEN_BRACKET, OPEN_PAREN, PERCENT, PLUS, READ, ROWS,
    SELF, SEMICOLON, SLASH, STAR, Spot, WRITE,
};
use crate::told_hints::Hint;
use task_parser::Kind;

const INDEX: &[u8] = b"an index here is a number or a control variable: `k = i + 1; lock l[k];`";

const ONLY_READ: &[u8] = b"a feed is only read: `$x = f[i, 0];`";

/// What is told where a size or an index is to stand.
pub const BRACKETS: &[u8] = b"a size and an index stand between `[` and `]`";

/// What is told of a size that is no number.
pub const SIZE: &[u8] = b"a size stands as a number in the text";

// Tokens by which an expression or a cell goes on.
const GOING_ON: &[Kind] = &[PLUS, MINUS, STAR, SLASH, PERCENT, OPEN_BRACKET, OPEN_PAREN];

/// The rules on a cell of a feed in a `read` or a `write`, and on what is no index of a lock or of a record.
pub static INDEX_RULES: [Rule; 6] = [
    (
        &[Wants(CLOSE_BRACKET), FeedCell, Fourth(&[READ])],
        b"a cell of a feed stands in an expression: `$x = f[i, 0];`",
    ),
    (
        &[Wants(CLOSE_BRACKET), FeedCell, Fourth(&[WRITE])],
        ONLY_READ,
    ),
    (
        &[Index, Is(Kind::Reg)],
        b"an index here is control: `settle $x into c;` makes it that; `when $x == 0 { .. }` goes by data among cells that are named",
    ),
    (&[Index, This(&[NOT, SELF, ROWS, OPEN_PAREN, MINUS])], INDEX),
    (&[Wants(CLOSE_BRACKET), This(GOING_ON), InHead], SIZE),
    (&[Wants(CLOSE_BRACKET), This(GOING_ON)], INDEX),
];

// The rules on a bracket or a parenthesis that can't stand.
static BRACKET_RULES: [Rule; 6] = [
    (
        &[Is(CLOSE_BRACKET), Has(COMMA)],
        b"a cell of a record is read by `read r[i] into $x;`; one of a feed has a row and a field, as `f[i, 0]`",
    ),
    (&[Is(OPEN_BRACKET), Wants(ASSIGN), FeedBefore], ONLY_READ),
    (
        &[Is(OPEN_BRACKET), Wants(ASSIGN)],
        b"a cell of a record is written by `write r[i] = e;`",
    ),
    (&[Is(OPEN_BRACKET), Before(&[CLOSE_BRACKET])], ONE_INDEX),
    (&[Is(OPEN_BRACKET), Wants(SEMICOLON)], b"write `barrier b;`"),
    (
        &[Is(OPEN_PAREN), Before(&[Kind::Name]), Wants(OPEN_BRACKET)],
        BRACKETS,
    ),
];

impl<'a> Spot<'a> {
    /// A bracket or a parenthesis that can't stand.
    pub fn bracket_hint(&self) -> Option<Hint<'a>> {
        if let Some(told) = self.told(&BRACKET_RULES) {
            return Some(Hint::Fixed(told));
        }
        let before = self.bytes(self.back(1));
        if !self.is(OPEN_PAREN) {
            None
        } else if self.follows(Kind::Name) && self.has(OPEN_BRACKET) && self.is_feed(before) {
            Some(Hint::Cell(before))
        } else {
            Some(Hint::Fixed(self.paren_hint(before)?))
        }
    }

    // A `(` that can't stand: after the word of a statement, at the end of a statement, or after a name.
    fn paren_hint(&self, before: &[u8]) -> Option<&'static [u8]> {
        if self.follows_word() {
            without_parentheses(before)
        } else if !self.follows(Kind::Name) {
            None
        } else if self.wants(SEMICOLON) {
            without_parentheses(self.bytes(self.first()))
        } else {
            Some(function(before))
        }
    }
}
