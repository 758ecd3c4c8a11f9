// Splits a text into spaces, comments and tokens, the longest token at each place.
ghost use Rattle.std.specs.Prelude.{◌≡◌, ◌≤◌, ◌<◌, ◌^◌, ◌↔◌, ◌==◌, [], ◌∷◌, length, take, min, position, count_by, slice_index, bytes_eq, IfOk, IfErr};
ghost use Rattle.std.specs.List.{prefix_len};
ghost use Rattle.std.specs.Char.{is_ascii_digit};
ghost use Rattle.gp_base.specs.declared.limits.TheConstants.{MOST_PROGRAM_BYTES};
ghost use Rattle.task_parser.specs.meaning.Pieces.{is_space, is_comment_byte, is_letter, is_name_byte, is_quoted_byte, words, marks, row_of, number_piece, word_piece, register_piece, quoted_piece, mark_piece, piece_of, decimal};
ghost use Rattle.task_parser.specs.Pieces.{FitsIn};
ghost use Rattle.task_parser.specs.meaning.Lexing.{lexed};
ghost use Rattle.task_parser.specs.Lexing.{IsFaultOf, AreTokensOf};

use crate::fault::LexFault;
use crate::token::{Kind, Token};
use gp_base::Seq;
use gp_base::limits::MOST_PROGRAM_BYTES;
use std::alloc::{AllocError, Global};

// The reserved words, in the order in which they are counted.
const WORDS: [&[u8]; 25] = [
    b"lock", b"unlock", b"barrier", b"record", b"by", b"from", b"feed", b"task", b"var", b"while",
    b"if", b"else", b"fork", b"into", b"join", b"read", b"write", b"print", b"when", b"and", b"or",
    b"not", b"self", b"rows", b"settle",
];

// The marks, in the order in which they are counted.
const MARKS: [&[u8]; 20] = [
    b"[", b"]", b"(", b")", b"{", b"}", b",", b";", b"=", b"==", b"!=", b"<", b"<=", b">", b">=",
    b"+", b"-", b"*", b"/", b"%",
];

// The greatest number that a text may have.
const NUMBER_LIMIT: u64 = 9223372036854775807;

/// What stands at the front of a text: a space or a comment of so many bytes; a token of so many bytes; a number that
/// is too big; so many bytes that can stand there, before one that can't.
#[derive(Clone, Copy)]
pub(crate) enum Piece {
    Skip(usize),
    Take(Kind, usize),
    TooBig,
    Bad(usize),
}

fn is_space(byte: u8) -> bool
    ensures { result ≡ is_space byte }
{
    matches!(byte, b' ' | b'\t' | b'\r' | b'\n')
}

fn is_letter(byte: u8) -> bool
    ensures { result ≡ is_letter byte }
{
    byte.is_ascii_alphabetic() || byte == b'_'
}

fn is_name_byte(byte: u8) -> bool
    ensures { result ≡ is_name_byte byte }
{
    is_letter(byte) || byte.is_ascii_digit()
}

fn is_quoted_byte(byte: u8) -> bool
    ensures { result ≡ is_quoted_byte byte }
{
    byte >= 32 && byte <= 126 && byte != b'"'
}

// How many bytes of a comment stand at the front.
fn comment_length(text: &[u8]) -> usize
    ensures length { result ≡ prefix_len is_comment_byte text.now }
    ensures within { result ≤ length text.now }
{
    text.iter().take_while(|byte| **byte != b'\n').count()
}

// How many digits stand at the front.
fn digits_length(text: &[u8]) -> usize
    ensures length { result ≡ prefix_len is_ascii_digit text.now }
    ensures within { result ≤ length text.now }
{
    text.iter().take_while(|byte| byte.is_ascii_digit()).count()
}

// How many letters, digits and `_` stand at the front.
fn name_length(text: &[u8]) -> usize
    ensures length { result ≡ prefix_len is_name_byte text.now }
    ensures within { result ≤ length text.now }
{
    text.iter().take_while(|byte| is_name_byte(**byte)).count()
}

// How many bytes that may stand between quotes stand at the front.
fn quoted_length(text: &[u8]) -> usize
    ensures length { result ≡ prefix_len is_quoted_byte text.now }
    ensures within { result ≤ length text.now }
{
    text.iter()
        .take_while(|byte| is_quoted_byte(**byte))
        .count()
}

// The number of the row that is this text.
fn row_of(table: &[&[u8]], text: &[u8]) -> Option<usize>
    ensures { result ≡ position (λ row. bytes_eq row.now text.now) table.now }
{
    table.iter().position(|row| *row == text)
}

fn word_number(text: &[u8]) -> Option<usize>
    ensures { result ≡ row_of words text.now }
{
    let table: [&[u8]; 25] = WORDS;
    row_of(&table, text)
}

fn mark_number(text: &[u8]) -> Option<usize>
    ensures { result ≡ row_of marks text.now }
{
    let table: [&[u8]; 20] = MARKS;
    row_of(&table, text)
}

// The number that decimal digits stand for, or the greatest `u64` where that is less.
fn decimal(digits: &[u8]) -> u64
    ensures { result ≡ min u64.MAX (decimal digits.now) }
{
    let mut value: u64 = 0;
    for digit in digits {
        let digit = digit.saturating_sub(b'0') as u64;
        value = value.saturating_mul(10).saturating_add(digit);
    }
    value
}

fn number_piece(digits: &[u8]) -> Piece
    ensures { result ≡ number_piece digits.now }
{
    let value = decimal(digits);
    if value <= NUMBER_LIMIT {
        Piece::Take(Kind::Num(value as i64), digits.len())
    } else {
        Piece::TooBig
    }
}

fn word_piece(word: &[u8]) -> Piece
    ensures { result ≡ word_piece word.now }
{
    let kind = match word_number(word) {
        Some(number) => Kind::Word(number as u8),
        None => Kind::Name,
    };
    Piece::Take(kind, word.len())
}

// After a `$`.
fn register_piece(rest: &[u8]) -> Piece
    requires { length rest.now < 2 ^ 32 }
    ensures { result ≡ register_piece rest.now }
{
    match rest {
        [first, ..] if is_letter(*first) => Piece::Take(Kind::Reg, 1 + name_length(rest)),
        _ => Piece::Bad(1),
    }
}

// After the first quote.
fn quoted_piece(rest: &[u8]) -> Piece
    requires { length rest.now < 2 ^ 32 }
    ensures { result ≡ quoted_piece (prefix_len is_quoted_byte rest.now) rest.now }
{
    let inside = quoted_length(rest);
    match &rest[inside..] {
        [b'"', ..] => Piece::Take(Kind::Quoted, inside + 2),
        _ => Piece::Bad(inside + 1),
    }
}

fn mark_piece(text: &[u8]) -> Piece
    requires { 0 < length text.now }
    ensures { result ≡ mark_piece (slice_index text.now 0) (take 2 text.now) (row_of marks (take 2 text.now)) (row_of marks (slice_index text.now 0 ∷ [])) }
{
    let pair = &text[..text.len().min(2)];
    if let Some(number) = mark_number(pair) {
        return Piece::Take(Kind::Mark(number as u8), pair.len());
    }
    if let Some(number) = mark_number(&[text[0]]) {
        return Piece::Take(Kind::Mark(number as u8), 1);
    }
    if text[0] == b'!' {
        Piece::Bad(1)
    } else {
        Piece::Bad(0)
    }
}

// What stands at the front of a text that isn't empty.
fn piece_of(text: &[u8]) -> Piece
    requires some { 0 < length text.now }
    requires few { length text.now < 2 ^ 32 }
    ensures piece { result ≡ piece_of text.now }
    ensures within { FitsIn (length text.now) result }
{
    let first = text[0];
    if is_space(first) {
        Piece::Skip(1)
    } else if first == b'#' {
        Piece::Skip(comment_length(text))
    } else if first.is_ascii_digit() {
        number_piece(&text[..digits_length(text)])
    } else if is_letter(first) {
        word_piece(&text[..name_length(text)])
    } else if first == b'$' {
        register_piece(&text[1..])
    } else if first == b'"' {
        quoted_piece(&text[1..])
    } else {
        mark_piece(text)
    }
}

// How many LF bytes there are.
fn line_ends(bytes: &[u8]) -> usize
    ensures { result ≡ count_by (λ b. b == 10) bytes.now }
{
    bytes.iter().filter(|byte| **byte == b'\n').count()
}

/// The tokens of a text in order: the longest token at each place, with the places of its first byte and of the byte
/// after it, and its line. The faults are `TooLong` for more than 1,048,576 bytes, then `BadByte` and `NumberTooBig`,
/// whichever stands first in the text, and `OutOfMemory`.
pub fn lex(alloc: Global, bytes: &[u8]) -> Result<Seq<Token>, LexFault>
    ensures tokens { IfOk result (λ tokens. lexed bytes.now ≡ Ok tokens) }
    ensures fault { IfErr result (λ fault. IsFaultOf bytes.now fault) }
    ensures too_long { (result ≡ Err LexFault.TooLong) ↔ (MOST_PROGRAM_BYTES < length bytes.now) }
    ensures spans { IfOk result (λ tokens. AreTokensOf bytes.now tokens) }
{
    if bytes.len() > MOST_PROGRAM_BYTES {
        return Err(LexFault::TooLong);
    }
    let mut tokens = Seq::new(alloc);
    let mut from = 0;
    let mut line = 1;
    while from < bytes.len() {
        let length = match piece_of(&bytes[from..]) {
            Piece::Skip(length) => length,
            Piece::Take(kind, length) => {
                tokens.push(Token {
                    kind,
                    from: from as u32,
                    to: (from + length) as u32,
                    line: line as u32,
                })?;
                length
            }
            Piece::TooBig => return Err(LexFault::NumberTooBig(from as u32)),
            Piece::Bad(length) => return Err(LexFault::BadByte((from + length) as u32)),
        };
        line += line_ends(&bytes[from..from + length]);
        from += length;
    }
    Ok(tokens)
}

impl From<AllocError> for LexFault {
    ghost use Rattle.task_parser.specs.declared.fault.LexFault.TheVariants.{OutOfMemory};

    ghost from_gives = { λ _ fault. fault ≡ OutOfMemory };

    fn from(_error: AllocError) -> LexFault {
        LexFault::OutOfMemory
    }
}
