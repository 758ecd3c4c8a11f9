// Which blocks are open at a token.

use crate::pieces::{comma, push_between};
use std::alloc::{AllocError, Global};
use task_parser::{Kind, Token};
use text_pieces::Piece::{Number, Word};
use text_pieces::push_pieces;
use text_places::{bytes_of, line_before};

const OPEN: Kind = Kind::Mark(4);

const CLOSE: Kind = Kind::Mark(5);

const TASK: Kind = Kind::Word(7);

/// A token of a program by its number, or the end of the program.
#[derive(Clone, Copy)]
pub struct Place<'a> {
    pub program: &'a [u8],
    pub tokens: &'a [Token],
    pub number: usize,
}

// A `}` with the `{` that it closes, by their lines.
#[derive(Clone, Copy)]
struct Closing {
    opened: u32,
    closed: u32,
}

// Of blocks that were closed: the first `}` at the beginning of a line that stands in another column than the line of
// its `{` begins in; and the last `}`.
#[derive(Clone, Copy)]
struct Closed {
    moved: Option<Closing>,
    last: Option<Closing>,
}

// The tokens `{` that are open at a place, by their numbers, and what is known of blocks that were closed.
#[derive(Drop)]
struct Blocks {
    open: Vec<usize>,
    closed: Closed,
}

// The first token of the line of this one, by their numbers.
fn line_start(tokens: &[Token], number: usize) -> usize {
    let Some(token) = tokens.get(number) else {
        return number;
    };
    let mut first = number;
    while first > 0 && tokens[first - 1].line == token.line {
        first -= 1;
    }
    first
}

/// A `;`, `{` or `}`.
pub fn is_end(kind: Kind) -> bool {
    matches!(kind, Kind::Mark(4 | 5 | 7))
}

// A `}` and its `{`, by their numbers.
fn closing_of(tokens: &[Token], open: usize, close: usize) -> Option<Closing> {
    let (opened, closed) = (tokens.get(open)?.line, tokens.get(close)?.line);
    Some(Closing { opened, closed })
}

// Appends which block a `}` closes.
fn push_closing(text: &mut Vec<u8>, closing: Closing) -> Result<(), AllocError> {
    push_pieces(
        text,
        &[
            Word(b"hint: the `}` in line "),
            Number(u64::from(closing.closed)),
            Word(b" closes the block that begins in line "),
            Number(u64::from(closing.opened)),
            Word(b"\n"),
        ],
    )
}

// Appends which block the first `}` closes that stands in another column, if there is one.
fn push_moved(text: &mut Vec<u8>, closed: Closed) -> Result<(), AllocError> {
    match closed.moved {
        Some(closing) => push_closing(text, closing),
        None => Ok(()),
    }
}

impl<'a> Place<'a> {
    /// The token, or none at the end of the program.
    pub fn token(&self) -> Option<&'a Token> {
        self.tokens.get(self.number)
    }

    // Where the line of a token begins, in bytes from the line's first.
    fn indent(&self, number: usize) -> usize {
        match self.tokens.get(line_start(self.tokens, number)) {
            Some(token) => line_before(self.program, token.from as usize).len(),
            None => 0,
        }
    }

    // Whether the token is the first of its line.
    fn begins_line(&self) -> bool {
        line_start(self.tokens, self.number) == self.number
    }

    fn closes(&self) -> bool {
        matches!(self.token(), Some(token) if token.kind == CLOSE)
    }

    // Whether all blocks have to be closed here: the text ends, or a task begins.
    fn ends_blocks(&self) -> bool {
        match self.token() {
            Some(token) => token.kind == TASK,
            None => true,
        }
    }

    // Whether the token before this one ends a block.
    fn is_after_block(&self) -> bool {
        let before = self.tokens.get(self.number.saturating_sub(1));
        matches!(before, Some(token) if token.kind == CLOSE)
    }

    // A `}` that begins its line in another column than the line of its `{` begins in.
    fn moved(&self, open: usize, close: usize) -> Option<Closing> {
        let closing = closing_of(self.tokens, open, close)?;
        if closing.opened == closing.closed || line_start(self.tokens, close) != close {
            return None;
        }
        if self.indent(open) == self.indent(close) {
            None
        } else {
            Some(closing)
        }
    }

    // What is known of blocks that were closed, with one more.
    fn with_closed(&self, closed: Closed, open: usize, close: usize) -> Closed {
        let moved = match closed.moved {
            Some(moved) => Some(moved),
            None => self.moved(open, close),
        };
        Closed {
            moved,
            last: closing_of(self.tokens, open, close),
        }
    }

    // The blocks of the tokens before this one.
    fn blocks(&self, alloc: Global) -> Result<Blocks, AllocError> {
        let mut open = Vec::new(alloc);
        let mut closed = Closed {
            moved: None,
            last: None,
        };
        for (at, token) in self.tokens.iter().enumerate() {
            if at >= self.number {
                break;
            }
            if token.kind == OPEN {
                open.push(at)?;
            } else if token.kind == CLOSE {
                if let Some(from) = open.pop() {
                    closed = self.with_closed(closed, from, at);
                }
            }
        }
        Ok(Blocks { open, closed })
    }

    // The last block that is open.
    fn last_open(&self, alloc: Global) -> Result<Option<usize>, AllocError> {
        let mut blocks = self.blocks(alloc)?;
        Ok(blocks.open.pop())
    }

    // Appends which block a `}` may have closed too early: the first that stands in another column than the line of its
    // `{`, or the last.
    fn push_early(&self, alloc: Global, text: &mut Vec<u8>) -> Result<(), AllocError> {
        let closed = self.blocks(alloc)?.closed;
        let closing = match closed.moved {
            Some(moved) => Some(moved),
            None => closed.last,
        };
        match closing {
            Some(closing) => push_closing(text, closing),
            None => Ok(()),
        }
    }

    // Appends the lines in which open blocks begin.
    fn push_open(&self, text: &mut Vec<u8>, open: &[usize]) -> Result<(), AllocError> {
        text.extend_from_slice(if open.len() == 1 {
            b"hint: the block is open that begins in line "
        } else {
            b"hint: the blocks are open that begin in the lines "
        })?;
        for (at, number) in open.iter().enumerate() {
            self.push_line(text, at, *number)?;
        }
        text.extend_from_slice(b"\n")
    }

    // Appends the line of a token, with a comma before it where it is not the first.
    fn push_line(&self, text: &mut Vec<u8>, at: usize, number: usize) -> Result<(), AllocError> {
        match self.tokens.get(number) {
            Some(token) => push_between(text, comma(at), u64::from(token.line), b""),
            None => Ok(()),
        }
    }

    /// The first token of the statement whose block begins at this token.
    pub fn head_of(&self, open: usize) -> Option<&'a Token> {
        if open > self.tokens.len() {
            return None;
        }
        let mut first = open;
        while first > 0 && !is_end(self.tokens[first - 1].kind) {
            first -= 1;
        }
        self.tokens.get(first)
    }

    // Appends that a block may lack its `}`, unless it is that of a task.
    fn push_missing(&self, text: &mut Vec<u8>, open: usize) -> Result<(), AllocError> {
        let Some(head) = self.head_of(open) else {
            return Ok(());
        };
        if !matches!(head.kind, Kind::Word(9 | 10 | 11 | 18)) {
            return Ok(());
        }
        push_pieces(
            text,
            &[
                Word(b"hint: a `}` may be missing: the block of the `"),
                Word(bytes_of(self.program, head)),
                Word(b"` in line "),
                Number(u64::from(head.line)),
                Word(b" is open\n"),
            ],
        )
    }

    /// Appends the hints where a text ends in a block, a task begins in one, or a `}` stands where no block is open: which
    /// blocks are open, and the first `}` that stands in another column than the line of its `{`.
    pub fn push_block_hints(&self, alloc: Global, text: &mut Vec<u8>) -> Result<(), AllocError> {
        if !self.closes() && !self.ends_blocks() {
            return Ok(());
        }
        let blocks = self.blocks(alloc)?;
        self.push_blocks(text, &blocks.open, blocks.closed)
    }

    // Appends those hints, where these blocks are open.
    fn push_blocks(
        &self,
        text: &mut Vec<u8>,
        open: &[usize],
        closed: Closed,
    ) -> Result<(), AllocError> {
        if open.is_empty() {
            return self.push_none_open(text, closed);
        }
        if self.closes() {
            return Ok(());
        }
        self.push_open(text, open)?;
        push_moved(text, closed)?;
        if self.is_inner_task() {
            text.extend_from_slice(b"hint: no task stands inside of another\n")
        } else {
            Ok(())
        }
    }

    // Appends those hints, where no block is open.
    fn push_none_open(&self, text: &mut Vec<u8>, closed: Closed) -> Result<(), AllocError> {
        if self.closes() {
            text.extend_from_slice(b"hint: no block is open here\n")?;
        }
        push_moved(text, closed)
    }

    // Whether a task begins here that is indented.
    fn is_inner_task(&self) -> bool {
        self.token().is_some() && self.indent(self.number) > 0
    }

    /// Appends the hint where a control statement stands in an arm of a `when`, and no deeper than the line that begins
    /// the arm: this block may lack its `}`.
    pub fn push_arm_hints(&self, alloc: Global, text: &mut Vec<u8>) -> Result<(), AllocError> {
        match self.last_open(alloc)? {
            Some(open) if self.begins_line() && self.indent(self.number) <= self.indent(open) => {
                self.push_missing(text, open)
            }
            _ => Ok(()),
        }
    }

    /// Appends the hint on an `else` that can't stand: which block is open where no `}` stands before it, and else which
    /// block a `}` closes: the first in another column than the line of its `{`, or the last.
    pub fn push_else_hints(&self, alloc: Global, text: &mut Vec<u8>) -> Result<(), AllocError> {
        if self.is_after_block() {
            return self.push_early(alloc, text);
        }
        match self.last_open(alloc)? {
            Some(open) => self.push_missing(text, open),
            None => Ok(()),
        }
    }

    /// Appends the hint on a statement after the end of a task, where it begins a line and is indented: which block a `}`
    /// closes, as for an `else`.
    pub fn push_closing_hints(&self, alloc: Global, text: &mut Vec<u8>) -> Result<(), AllocError> {
        if self.begins_line() && self.indent(self.number) > 0 {
            self.push_early(alloc, text)
        } else {
            Ok(())
        }
    }
}
