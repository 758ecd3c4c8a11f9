// A token that can't stand where it does, and what stands around it.

use crate::blocks::{Place, is_end};
use crate::kinds::has;
use task_parser::{Kind, Token};
use text_places::bytes_of;

pub const OPEN_BRACKET: Kind = Kind::Mark(0);

pub const CLOSE_BRACKET: Kind = Kind::Mark(1);

pub const OPEN_PAREN: Kind = Kind::Mark(2);

pub const CLOSE_PAREN: Kind = Kind::Mark(3);

pub const OPEN_BLOCK: Kind = Kind::Mark(4);

pub const CLOSE_BLOCK: Kind = Kind::Mark(5);

pub const COMMA: Kind = Kind::Mark(6);

pub const SEMICOLON: Kind = Kind::Mark(7);

pub const ASSIGN: Kind = Kind::Mark(8);

pub const EQUAL: Kind = Kind::Mark(9);

pub const UNEQUAL: Kind = Kind::Mark(10);

pub const LESS: Kind = Kind::Mark(11);

pub const AT_MOST: Kind = Kind::Mark(12);

pub const GREATER: Kind = Kind::Mark(13);

pub const AT_LEAST: Kind = Kind::Mark(14);

pub const PLUS: Kind = Kind::Mark(15);

pub const MINUS: Kind = Kind::Mark(16);

pub const STAR: Kind = Kind::Mark(17);

pub const SLASH: Kind = Kind::Mark(18);

pub const PERCENT: Kind = Kind::Mark(19);

pub const LOCK: Kind = Kind::Word(0);

pub const UNLOCK: Kind = Kind::Word(1);

pub const BARRIER: Kind = Kind::Word(2);

pub const RECORD: Kind = Kind::Word(3);

pub const BY: Kind = Kind::Word(4);

pub const FROM: Kind = Kind::Word(5);

pub const FEED: Kind = Kind::Word(6);

pub const TASK: Kind = Kind::Word(7);

pub const VAR: Kind = Kind::Word(8);

pub const WHILE: Kind = Kind::Word(9);

pub const IF: Kind = Kind::Word(10);

pub const ELSE: Kind = Kind::Word(11);

pub const FORK: Kind = Kind::Word(12);

pub const INTO: Kind = Kind::Word(13);

pub const JOIN: Kind = Kind::Word(14);

pub const READ: Kind = Kind::Word(15);

pub const WRITE: Kind = Kind::Word(16);

pub const PRINT: Kind = Kind::Word(17);

pub const WHEN: Kind = Kind::Word(18);

pub const AND: Kind = Kind::Word(19);

pub const OR: Kind = Kind::Word(20);

pub const NOT: Kind = Kind::Word(21);

pub const SELF: Kind = Kind::Word(22);

pub const ROWS: Kind = Kind::Word(23);

pub const SETTLE: Kind = Kind::Word(24);

/// Any number.
pub const NUMBER: Kind = Kind::Num(1);

/// Words by which heads begin.
pub const HEADS: &[Kind] = &[LOCK, BARRIER, RECORD, FEED];

/// Words by which control statements begin.
pub const CONTROLS: &[Kind] = &[LOCK, UNLOCK, BARRIER, WHILE, IF, FORK, JOIN, SETTLE];

/// Words that stand in tasks alone: `unlock`, and those from `var` on.
pub const IN_TASK: &[Kind] = &[
    UNLOCK, VAR, WHILE, IF, ELSE, FORK, INTO, JOIN, READ, WRITE, PRINT, WHEN, AND, OR, NOT, SELF,
    ROWS, SETTLE,
];

/// Names and words.
pub const SPELT: &[Kind] = &[
    Kind::Name,
    LOCK,
    UNLOCK,
    BARRIER,
    RECORD,
    BY,
    FROM,
    FEED,
    TASK,
    VAR,
    WHILE,
    IF,
    ELSE,
    FORK,
    INTO,
    JOIN,
    READ,
    WRITE,
    PRINT,
    WHEN,
    AND,
    OR,
    NOT,
    SELF,
    ROWS,
    SETTLE,
];

/// A token that can't stand where it does, and what could stand there.
#[derive(Clone, Copy)]
pub struct Spot<'a> {
    pub place: Place<'a>,
    pub kinds: &'a [Kind],
}

pub fn is_arithmetic(kind: Kind) -> bool {
    matches!(kind, Kind::Mark(15..=19))
}

pub fn is_comparison(kind: Kind) -> bool {
    matches!(kind, Kind::Mark(9..=14))
}

/// Whether a control statement begins with this word.
pub fn is_control(kind: Kind) -> bool {
    matches!(kind, Kind::Word(0 | 1 | 2 | 9 | 10 | 12 | 14 | 24))
}

// Whether there is a token, and it is of the kind.
fn is_of(token: Option<&Token>, kind: Kind) -> bool {
    match token {
        Some(token) => token.kind == kind,
        None => false,
    }
}

/// Whether there are both tokens, and one stands right after the other.
pub fn are_joined(one: Option<&Token>, other: Option<&Token>) -> bool {
    match (one, other) {
        (Some(one), Some(other)) => one.to == other.from,
        _ => false,
    }
}

impl<'a> Spot<'a> {
    /// The token that stands so many before this one.
    pub fn back(&self, count: usize) -> Option<&'a Token> {
        self.place.tokens.get(self.place.number.checked_sub(count)?)
    }

    pub fn after(&self) -> Option<&'a Token> {
        self.place.tokens.get(self.place.number.saturating_add(1))
    }

    pub fn kind(&self) -> Option<Kind> {
        Some(self.back(0)?.kind)
    }

    /// Whether this token is of the kind.
    pub fn is(&self, kind: Kind) -> bool {
        is_of(self.back(0), kind)
    }

    /// Whether this token follows one of the kind.
    pub fn follows(&self, kind: Kind) -> bool {
        is_of(self.back(1), kind)
    }

    /// Whether one of the kind follows this token.
    pub fn precedes(&self, kind: Kind) -> bool {
        is_of(self.after(), kind)
    }

    /// Whether this token follows a word of the language.
    pub fn follows_word(&self) -> bool {
        matches!(self.back(1), Some(token) if matches!(token.kind, Kind::Word(_)))
    }

    pub fn bytes(&self, token: Option<&'a Token>) -> &'a [u8] {
        match token {
            Some(token) => bytes_of(self.place.program, token),
            None => &[],
        }
    }

    pub fn has(&self, kind: Kind) -> bool {
        has(self.kinds, kind)
    }

    /// Where only this kind could stand.
    pub fn wants(&self, kind: Kind) -> bool {
        self.kinds.len() == 1 && self.has(kind)
    }

    /// Where only an index of a lock or of a record could stand.
    pub fn wants_index(&self) -> bool {
        self.kinds.len() == 2 && self.has(Kind::Name) && self.has(Kind::Num(1))
    }

    /// Where a data statement could stand, and no control statement.
    pub fn is_in_arm(&self) -> bool {
        self.has(READ) && !self.has(Kind::Name)
    }

    /// Whether this token stands in the line of the one before it.
    pub fn is_beside(&self) -> bool {
        match (self.back(1), self.back(0)) {
            (Some(before), Some(token)) => before.line == token.line,
            _ => false,
        }
    }

    /// Whether this token stands right after the one before it.
    pub fn is_joined(&self) -> bool {
        are_joined(self.back(1), self.back(0))
    }

    /// Whether the token before this one begins a statement or a block, or ends one.
    pub fn is_after_first(&self) -> bool {
        match self.back(2) {
            Some(token) => is_end(token.kind),
            None => false,
        }
    }

    /// The first token of the statement before this one, which has no block.
    pub fn first(&self) -> Option<&'a Token> {
        self.place.head_of(self.place.number)
    }

    /// Whether this token follows the `else` of a `when`.
    pub fn is_in_else_of_when(&self) -> bool {
        match self.block_before() {
            Some(open) => is_of(self.place.head_of(open), WHEN),
            None => false,
        }
    }

    // The `{` of the last block before this token, or of the one around it where there is none, by its number.
    fn block_before(&self) -> Option<usize> {
        let tokens = self.place.tokens.get(..self.place.number)?;
        let mut depth: usize = 0;
        let mut number = tokens.len();
        while number > 0 {
            number -= 1;
            match tokens[number].kind {
                CLOSE_BLOCK => depth = depth.saturating_add(1),
                OPEN_BLOCK if depth <= 1 => return Some(number),
                OPEN_BLOCK => depth = depth.saturating_sub(1),
                _ => {}
            }
        }
        None
    }

    /// Whether the program has a feed of this name.
    pub fn is_feed(&self, name: &[u8]) -> bool {
        let mut head = false;
        for token in self.place.tokens {
            if head && *bytes_of(self.place.program, token) == *name {
                return true;
            }
            head = token.kind == FEED;
        }
        false
    }

    /// Whether the program has a task before this token.
    pub fn is_after_task(&self) -> bool {
        let Some(before) = self.place.tokens.get(..self.place.number) else {
            return false;
        };
        for token in before {
            if token.kind == TASK {
                return true;
            }
        }
        false
    }

    /// Whether a statement begins at this token.
    pub fn begins_statement(&self) -> bool {
        match self.kind() {
            Some(Kind::Name | Kind::Reg) => self.precedes(ASSIGN),
            Some(kind) => is_control(kind) || matches!(kind, Kind::Word(8 | 15..=18)),
            None => false,
        }
    }
}
