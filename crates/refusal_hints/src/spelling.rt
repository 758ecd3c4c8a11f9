// How kinds of tokens and names are spelt.

use crate::foreign::are_alike;
use rule_blame::Role;
use task_ast::Atom;
use text_pieces::Piece;

static WORDS: [&[u8]; 25] = [
    b"lock", b"unlock", b"barrier", b"record", b"by", b"from", b"feed", b"task", b"var", b"while",
    b"if", b"else", b"fork", b"into", b"join", b"read", b"write", b"print", b"when", b"and", b"or",
    b"not", b"self", b"rows", b"settle",
];

static MARKS: [&[u8]; 20] = [
    b"[", b"]", b"(", b")", b"{", b"}", b",", b";", b"=", b"==", b"!=", b"<", b"<=", b">", b">=",
    b"+", b"-", b"*", b"/", b"%",
];

// The text of a row of a table, or nothing past its end.
fn text_in<'a>(table: &[&'a [u8]], row: u8) -> &'a [u8] {
    match table.get(row as usize) {
        Some(text) => text,
        None => b"",
    }
}

/// The word of this number.
pub fn word_text(row: u8) -> &'static [u8] {
    text_in(&WORDS, row)
}

/// The mark of this number.
pub fn mark_text(row: u8) -> &'static [u8] {
    text_in(&MARKS, row)
}

/// Whether a word is one of the language once its letters are in lower case, and not before.
pub fn is_word(word: &[u8]) -> bool {
    for other in &WORDS {
        if are_alike(other, word) && **other != *word {
            return true;
        }
    }
    false
}

/// The `$` before a name, where it is a data variable's.
pub fn dollar(role: Role) -> &'static [u8] {
    if role == Role::Data { b"$" } else { b"" }
}

/// An index as a piece of a text.
pub fn index_piece<'a>(index: &'a Atom) -> Piece<'a> {
    match index {
        Atom::Num(number) => Piece::Signed(*number),
        Atom::Var(name) => Piece::Word(name.as_slice()),
    }
}
