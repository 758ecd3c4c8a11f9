// Why a text is no list of tokens.
ghost use Rattle.std.specs.Prelude.{◌≡◌, ◌<◌, ◌++◌, ◌^◌, length, OnOk, codes};
ghost use Rattle.text_places.specs.Faults.{lex_place};
ghost use Rattle.refusal_texts.specs.Fronts.{rule_text, IsRefusal};
ghost use Rattle.refusal_texts.specs.Refusals.{IsLexRefusal};

use crate::front::{Rule, push_refusal};
use gp_base::Name;
use refusal_hints::{digits, push_between, push_lex_hints, push_words};
use std::alloc::{AllocError, Global};
use task_parser::LexFault;
use text_places::{lex_place, push_shown};

/// What the first rule of lexing says.
pub const BYTES: &[u8] =
    b"outside of comments a text has ASCII letters, digits and the marks of the language";

/// What the second says.
pub const NUMBERS: &[u8] = b"a number is at most 9223372036854775807";

// Appends what is said of a byte that can't stand where it is shown.
fn push_byte_message(text: &mut Vec<u8>, program: &[u8], at: usize) -> Result<(), AllocError> {
    match program.get(at) {
        None => text.extend_from_slice(b"the text ends inside a text in quotes"),
        Some(b'\n') => text.extend_from_slice(b"the line ends inside a text in quotes"),
        Some(byte) if *byte > 32 && *byte < 127 => {
            push_words(text, b"`", &[*byte], b"` cannot stand here")
        }
        Some(byte) => push_between(text, b"byte ", u64::from(*byte), b" cannot stand here"),
    }
}

// Appends what is said of a number that is too big.
fn push_number_message(text: &mut Vec<u8>, program: &[u8], at: usize) -> Result<(), AllocError> {
    let rest = &program[at.min(program.len())..];
    push_shown(text, &rest[..digits(rest).min(40)])?;
    text.extend_from_slice(b" is too big")
}

// Appends why a byte can't stand where it does.
fn push_bad_byte(
    alloc: Global,
    text: &mut Vec<u8>,
    name: &Name,
    program: &[u8],
    at: u32,
) -> Result<(), AllocError>
    requires { length program.now < 2 ^ 31 }
    ensures { OnOk result (IsRefusal name.now program.now (lex_place program.now at)
        (rule_text (codes "lex") 1 BYTES.now (codes "byte") at) text.old.items text.new.items) }
{
    let place = lex_place(program, at as usize);
    let mut message = Vec::new(alloc);
    push_byte_message(&mut message, program, place)?;
    let mut hints = Vec::new(alloc);
    push_lex_hints(&mut hints, program, place)?;
    let rule = Rule {
        kind: b"lex",
        number: 1,
        says: BYTES,
        unit: b"byte",
        at: u64::from(at),
    };
    push_refusal(text, name, program, place, &message, rule, &hints)
}

// Appends why a number can't stand where it does.
fn push_big_number(
    alloc: Global,
    text: &mut Vec<u8>,
    name: &Name,
    program: &[u8],
    at: u32,
) -> Result<(), AllocError>
    requires { length program.now < 2 ^ 31 }
    ensures { OnOk result (IsRefusal name.now program.now at
        (rule_text (codes "lex") 2 NUMBERS.now (codes "byte") at) text.old.items text.new.items) }
{
    let mut message = Vec::new(alloc);
    push_number_message(&mut message, program, at as usize)?;
    let rule = Rule {
        kind: b"lex",
        number: 2,
        says: NUMBERS,
        unit: b"byte",
        at: u64::from(at),
    };
    push_refusal(text, name, program, at as usize, &message, rule, b"")
}

// Appends that a text is too long.
fn push_too_long(text: &mut Vec<u8>, name: &Name) -> Result<(), AllocError>
    ensures { OnOk result (text.new.items ≡ text.old.items ++ name.now ++ codes ": more than 1048576 bytes (lex 3)\n") }
{
    text.extend_from_slice(name.as_slice())?;
    text.extend_from_slice(b": more than 1048576 bytes (lex 3)\n")
}

/// Appends why a text is no list of tokens: its name, the place, the message, the line with a mark, the rule, and hints.
/// The only error is out of memory, which is the answer to that fault too.
pub fn push_lex_refusal(
    alloc: Global,
    text: &mut Vec<u8>,
    name: &Name,
    program: &[u8],
    fault: LexFault,
) -> Result<(), AllocError>
    requires { length program.now < 2 ^ 31 }
    ensures { OnOk result (IsLexRefusal name.now program.now fault text.old.items text.new.items) }
{
    match fault {
        LexFault::BadByte(at) => push_bad_byte(alloc, text, name, program, at),
        LexFault::NumberTooBig(at) => push_big_number(alloc, text, name, program, at),
        LexFault::TooLong => push_too_long(text, name),
        LexFault::OutOfMemory => Err(AllocError),
    }
}
