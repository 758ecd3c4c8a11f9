// Hints on words: of other languages, and of this one where they can't stand.

use crate::foreign::{beginning, head, operator};
use crate::rules::Rule;
use crate::rules::Test::{Before, Has, Is, Lacks, This};
use crate::spelling::is_word;
use crate::spots::{
    ASSIGN, COMMA, CONTROLS, ELSE, FEED, FORK, JOIN, MINUS, OPEN_BRACKET, OPEN_PAREN, PLUS, READ,
    RECORD, SEMICOLON, SETTLE, Spot, TASK, VAR, is_arithmetic, is_comparison,
};
use crate::told_hints::Hint;
use task_parser::Kind;

const ARM: &[u8] =
    b"the arms of a `when` hold only `$x = e;`, `read`, `write`, `print` and `when`; `settle $x into c;` makes $x a control value, for an `if`";

// The rules on words of the language that can't stand: in an arm, where a statement could, in an expression, in a list.
static WORD_RULES: [Rule; 10] = [
    (&[Has(READ), Lacks(Kind::Name), Is(Kind::Name)], ARM),
    (&[Has(READ), Lacks(Kind::Name), This(CONTROLS)], ARM),
    (
        &[Has(READ), This(&[RECORD, FEED])],
        b"heads stand before all tasks",
    ),
    (
        &[Has(READ), Is(VAR)],
        b"all `var` lines stand before the first statement of the task",
    ),
    (
        &[Has(READ), Is(ELSE)],
        b"an `else` follows the block of its `if` or `when` directly",
    ),
    (
        &[Has(MINUS), Has(Kind::Name), Is(READ)],
        b"write `read r[i] into $x;`",
    ),
    (
        &[Has(MINUS), Has(Kind::Name), Is(FORK)],
        b"write `fork t(e) into h;`",
    ),
    (
        &[Has(MINUS), Has(Kind::Name), Is(JOIN)],
        b"write `join h into $x;`",
    ),
    (
        &[Has(MINUS), Has(Kind::Name), Is(SETTLE)],
        b"write `settle $x into c;`",
    ),
    (
        &[
            Has(Kind::Reg),
            Lacks(MINUS),
            Is(VAR),
            Before(&[OPEN_PAREN, COMMA]),
        ],
        b"names stand alone between the commas",
    ),
];

impl<'a> Spot<'a> {
    // Whether this token and the next would set what stands before them in other languages.
    fn sets(&self) -> bool {
        let Some(kind) = self.kind() else {
            return false;
        };
        if is_arithmetic(kind) {
            self.precedes(ASSIGN) || self.precedes(kind)
        } else {
            is_comparison(kind) || kind == OPEN_BRACKET || kind == COMMA
        }
    }

    // Whether the token before this one begins a statement that is none here.
    fn follows_beginning(&self) -> bool {
        self.wants(ASSIGN) && !self.sets()
    }

    /// A word of another language: the token before this one, where it begins a statement, or this token.
    pub fn foreign_hint(&self) -> Option<&'static [u8]> {
        let word = self.bytes(self.back(0));
        if self.follows_beginning() {
            beginning(self.bytes(self.back(1)))
        } else if self.has(TASK) {
            head(word)
        } else if self.is_beside() && (self.has(PLUS) || self.has(SEMICOLON)) {
            operator(word)
        } else {
            None
        }
    }

    /// A word of the language in another case: the token before this one, or this token.
    pub fn case_hint(&self) -> Option<Hint<'a>> {
        let before = self.bytes(self.back(1));
        if self.follows_beginning() && is_word(before) {
            return Some(Hint::Case(before));
        }
        let word = self.bytes(self.back(0));
        if self.is(Kind::Name) && is_word(word) {
            return Some(Hint::Case(word));
        }
        None
    }

    /// A word of the language that can't stand.
    pub fn word_hint(&self) -> Option<Hint<'a>> {
        if let Some(told) = self.told(&WORD_RULES) {
            return Some(Hint::Fixed(told));
        }
        if self.is(ASSIGN) && self.follows_word() && self.is_after_first() {
            Some(Hint::Word(self.bytes(self.back(1))))
        } else if self.is_misplaced() {
            Some(Hint::Word(self.bytes(self.back(0))))
        } else {
            None
        }
    }

    // Whether this token is a word of the language where a statement or a name could stand; `task` is told of by its blocks.
    fn is_misplaced(&self) -> bool {
        if !matches!(self.kind(), Some(Kind::Word(_))) {
            false
        } else if self.has(READ) {
            !self.is(TASK)
        } else {
            self.has(Kind::Name) && self.is_beside()
        }
    }
}
