// Places in the lines of a program's text.

use gp_base::Name;
use std::alloc::{AllocError, Global};
use task_parser::{Kind, LexFault, Token, lex};
use text_places::{bytes_of, first_place};

const OPEN_BRACKET: Kind = Kind::Mark(0);

/// What is looked for in a line: a cell of this array, or an operator of arithmetic.
#[derive(Clone, Copy)]
pub enum LookedFor<'a> {
    Cell(&'a Name),
    Operator,
}

/// A place in a program's text, and its line.
#[derive(Clone, Copy)]
pub struct MarkedPlace {
    pub at: usize,
    pub line: u32,
}

/// The tokens of a program's text, or none where it has none. The error is that memory is out.
pub fn tokens_of(alloc: Global, source: &[u8]) -> Result<Vec<Token>, AllocError> {
    match lex(alloc, source) {
        Ok(tokens) => Ok(tokens.into_vec()),
        Err(LexFault::OutOfMemory) => Err(AllocError),
        Err(_) => Ok(Vec::new(alloc)),
    }
}

// Whether a statement or a task may begin behind a token: that is `;`, `{` or `}`.
fn ends_one(token: &Token) -> bool {
    matches!(token.kind, Kind::Mark(4) | Kind::Mark(5) | Kind::Mark(7))
}

// Whether the first token of a line begins a statement or a task, so that none goes on into the line.
fn begins_anew(tokens: &[Token], line: u32) -> bool {
    let mut begins = true;
    for token in tokens {
        if token.line >= line {
            return begins;
        }
        begins = ends_one(token);
    }
    begins
}

// Whether a token is `+`, `-`, `*`, `/` or `%`.
fn is_operator(token: &Token) -> bool {
    matches!(token.kind, Kind::Mark(number) if 15 <= number && number <= 19)
}

impl LookedFor<'_> {
    fn is_at(self, source: &[u8], token: &Token, next: &Token) -> bool {
        match self {
            LookedFor::Cell(array) => {
                next.kind == OPEN_BRACKET && *bytes_of(source, token) == *array.as_slice()
            }
            LookedFor::Operator => is_operator(token),
        }
    }
}

// The one of this number, counted from 1, from the beginning of a line on.
fn nth_spot(
    source: &[u8],
    tokens: &[Token],
    line: u32,
    sought: LookedFor<'_>,
    number: usize,
) -> Option<MarkedPlace> {
    if !begins_anew(tokens, line) {
        return None;
    }
    let mut count: usize = 0;
    let mut last: Option<&Token> = None;
    for next in tokens {
        if let Some(token) = last {
            if token.line >= line && sought.is_at(source, token, next) {
                count = count.saturating_add(1);
                if count == number {
                    return Some(MarkedPlace {
                        at: token.from as usize,
                        line: token.line,
                    });
                }
            }
        }
        last = Some(next);
    }
    None
}

/// Where the one of this number stands, counted from 1 from the beginning of a line on; and where that is not known, or a
/// statement goes on into the line, where the line begins.
pub fn spot_of(
    source: &[u8],
    tokens: &[Token],
    line: u32,
    sought: LookedFor<'_>,
    number: Option<usize>,
) -> Option<MarkedPlace> {
    let found = match number {
        Some(number) => nth_spot(source, tokens, line, sought, number),
        None => None,
    };
    match found {
        Some(spot) => Some(spot),
        None => match first_place(tokens, line) {
            Some(at) => Some(MarkedPlace {
                at: at as usize,
                line,
            }),
            None => None,
        },
    }
}
