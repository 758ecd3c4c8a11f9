// How a hint is told.

use crate::pieces::{push_between, push_hint, push_words};
use std::alloc::AllocError;
use text_pieces::Piece::Word;
use text_pieces::push_pieces;

/// What is told of a token.
#[derive(Clone, Copy)]
pub enum Hint<'a> {
    /// The words of a table.
    Fixed(&'static [u8]),
    /// The word is one of the language.
    Word(&'a [u8]),
    /// The word is one of the language in another case.
    Case(&'a [u8]),
    /// A feed of this name.
    Cell(&'a [u8]),
    /// The line ends without a `;`.
    NoEnd(u32),
    /// No statement begins with this name.
    Unknown(&'a [u8]),
}

/// Appends a hint as a line.
pub fn push_told(text: &mut Vec<u8>, hint: Hint<'_>) -> Result<(), AllocError> {
    match hint {
        Hint::Fixed(fixed) => push_hint(text, fixed),
        Hint::Word(word) => push_words(
            text,
            b"hint: `",
            word,
            b"` is a word of the language: take another name\n",
        ),
        Hint::Case(word) => push_words(
            text,
            b"hint: `",
            word,
            b"` is no word of the language: those are in lower case\n",
        ),
        Hint::Cell(name) => push_words(text, b"hint: a cell of a feed is `", name, b"[i, 0]`\n"),
        Hint::Unknown(name) => {
            push_pieces(
                text,
                &[
                    Word(b"hint: `"),
                    Word(name),
                    Word(b"` is no word of the language; a variable is set by `"),
                    Word(name),
                    Word(b" = e;`\n"),
                ],
            )
        }
        Hint::NoEnd(line) => push_between(
            text,
            b"hint: a `;` is missing at the end of line ",
            u64::from(line),
            b"\n",
        ),
    }
}
