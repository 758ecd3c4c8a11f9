// What is told of a program or a file that is refused.
ghost use Rattle.std.specs.Prelude.{◌≡◌, ◌≤◌, length, Ok};
ghost use Rattle.gp_base.specs.declared.limits.TheConstants.{MOST_FILE_BYTES, MOST_PROGRAM_BYTES};
ghost use Rattle.task_parser.specs.meaning.Lexing.{lexed};
ghost use Rattle.task_parser.specs.Lexing.{AreTokensOf};

use crate::uses::use_of;
use batch_files::FileKind;
use gp_base::limits::MOST_FILE_BYTES;
use gp_base::{Name, Seq, Shelf, Text};
use lock_checker::{CheckFault, check};
use refusal_texts::{
    push_check_refusal, push_feed_head, push_file_refusal, push_lex_refusal, push_long_file,
    push_parse_refusal,
};
use std::alloc::{AllocError, Global};
use task_ast::{CheckKind, Program};
use task_parser::{LexFault, Token, lex, parse};

/// What is told of a program that is longer than one may be.
pub fn long_program(alloc: Global, name: &Name) -> Result<Vec<u8>, AllocError> {
    let mut told = Vec::new(alloc);
    push_lex_refusal(alloc, &mut told, name, b"", LexFault::TooLong)?;
    Ok(told)
}

// Appends which rule of the check a program breaks in a line.
fn push_checked(
    alloc: Global,
    told: &mut Vec<u8>,
    name: &Name,
    text: &[u8],
    tokens: &Seq<Token>,
    kind: CheckKind,
    line: u32,
) -> Result<(), AllocError>
    requires { length text.now ≤ MOST_PROGRAM_BYTES }
{
    match parse(alloc, text, tokens) {
        Ok(program) => {
            push_check_refusal(alloc, told, name, (text, tokens), &program, kind, line)
        }
        Err(_) => Err(AllocError),
    }
}

// Appends why tokens are no program, or none that is accepted.
fn push_parsed(
    alloc: Global,
    told: &mut Vec<u8>,
    name: &Name,
    text: &[u8],
    tokens: &Seq<Token>,
) -> Result<(), AllocError>
    requires few { length text.now ≤ MOST_PROGRAM_BYTES }
    requires lexed { lexed text.now ≡ Ok tokens.now }
    requires spans { AreTokensOf text.now tokens.now }
{
    match parse(alloc, text, tokens) {
        Ok(program) => match check(alloc, program) {
            Ok(_) => Ok(()),
            Err(CheckFault::OutOfMemory) => Err(AllocError),
            Err(CheckFault::Bad { kind, line }) => {
                push_checked(alloc, told, name, text, tokens, kind, line)
            }
        },
        Err(fault) => push_parse_refusal(alloc, told, name, text, tokens, fault),
    }
}

/// What is told of a program that is refused, whose file has this name and this text. The error is that memory is out.
pub fn program_text(alloc: Global, name: &Name, text: &Text) -> Result<Vec<u8>, AllocError>
    requires { length text.now ≤ MOST_PROGRAM_BYTES }
{
    let mut told = Vec::new(alloc);
    let bytes = text.as_slice();
    match lex(alloc, bytes) {
        Ok(tokens) => push_parsed(alloc, &mut told, name, bytes, &tokens)?,
        Err(fault) => push_lex_refusal(alloc, &mut told, name, bytes, fault)?,
    }
    Ok(told)
}

// The number at the end of a line, and what stands before it.
fn split_number(line: &[u8]) -> (&[u8], u32) {
    let mut at: usize = 0;
    let mut next: usize = 0;
    let mut number: u32 = 0;
    for byte in line {
        next = next.saturating_add(1);
        if byte.is_ascii_digit() {
            number = number
                .saturating_mul(10)
                .saturating_add(u32::from(byte.saturating_sub(b'0')));
        } else {
            at = next;
            number = 0;
        }
    }
    match line.get(..at) {
        Some(rest) => (rest, number),
        None => (line, number),
    }
}

// What stands before these last bytes.
fn before<'a>(line: &'a [u8], end: &[u8]) -> Option<&'a [u8]> {
    if line.ends_with(end) {
        line.get(..line.len().saturating_sub(end.len()))
    } else {
        None
    }
}

// The file, the kind and the row of the line `input NAME kind K row R`.
fn parts_of(line: &[u8]) -> Option<(&[u8], u32, u32)> {
    let (rest, row) = split_number(before(line, b"\n")?);
    let (rest, kind) = split_number(before(rest, b" row ")?);
    let name = before(rest, b" kind ")?.get(b"input ".len()..)?;
    Some((name, kind, row))
}

fn kind_of(kind: u32) -> Option<FileKind> {
    match kind {
        1 => Some(FileKind::Fields),
        2 => Some(FileKind::Number),
        3 => Some(FileKind::Range),
        4 => Some(FileKind::Twice),
        5 => Some(FileKind::TooMany),
        _ => None,
    }
}

/// The program of a text, where there is one.
pub fn program_of(alloc: Global, text: &[u8]) -> Option<Program>
    requires { length text.now ≤ MOST_PROGRAM_BYTES }
{
    let Ok(tokens) = lex(alloc, text) else {
        return None;
    };
    match parse(alloc, text, &tokens) {
        Ok(program) => Some(program),
        Err(_) => None,
    }
}

// Appends why a file is refused, by its bytes.
fn push_input(
    alloc: Global,
    told: &mut Vec<u8>,
    text: &Text,
    name: &Name,
    bytes: &Text,
    parts: (FileKind, u32),
) -> Result<(), AllocError>
    requires program { length text.now ≤ MOST_PROGRAM_BYTES }
    requires file { length bytes.now ≤ MOST_FILE_BYTES }
{
    let (kind, row) = parts;
    match program_of(alloc, text.as_slice()) {
        Some(program) => {
            let heads = program.heads.as_slice();
            match use_of(alloc, heads, name.as_slice(), bytes.as_slice(), parts) {
                Some(used) => {
                    push_file_refusal(alloc, told, name, bytes, used, kind, row)?;
                    push_feed_head(told, heads, name, used, kind)
                }
                None => Err(AllocError),
            }
        }
        None => Err(AllocError),
    }
}

/// What is told of a file that is refused with this line, beside the program of this text. The file is read once more.
/// The error is that memory is out.
pub fn input_text<H: Shelf>(
    alloc: Global,
    text: &Text,
    line: &[u8],
    shelf: &mut H,
) -> Result<Vec<u8>, AllocError>
    requires { length text.now ≤ MOST_PROGRAM_BYTES }
{
    let mut told = Vec::new(alloc);
    let Some((file, kind, row)) = parts_of(line) else {
        return Ok(told);
    };
    let name = Name::from_slice(alloc, file)?;
    let Some(kind) = kind_of(kind) else {
        push_long_file(&mut told, &name)?;
        return Ok(told);
    };
    if let Ok(bytes) = shelf.read(&name, MOST_FILE_BYTES) {
        push_input(alloc, &mut told, text, &name, &bytes, (kind, row))?;
    }
    Ok(told)
}
