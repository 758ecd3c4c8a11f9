// Why tokens are no program.
ghost use Rattle.std.specs.Prelude.{◌≡◌, ◌<◌, ◌^◌, length, Ok, OnOk, codes};
ghost use Rattle.task_parser.specs.meaning.Lexing.{lexed};
ghost use Rattle.task_parser.specs.meaning.Answer.{IsFirstFault};
ghost use Rattle.task_parser.specs.Lexing.{AreTokensOf};
ghost use Rattle.text_places.specs.Faults.{parse_place};
ghost use Rattle.refusal_texts.specs.Fronts.{rule_text, IsRefusal};
ghost use Rattle.refusal_texts.specs.Refusals.{IsParseRefusal};

use crate::front::{Rule, push_refusal};
use gp_base::{Name, Seq};
use refusal_hints::{parse_hints, push_expected, token_number};
use std::alloc::{AllocError, Global};
use task_parser::{Kind, ParseFault, Token};
use text_places::{bytes_of, expected, parse_place, push_shown};

/// What the first rule of parsing says.
pub const NO_PROGRAM: &[u8] = b"the first token that no program goes on with";

/// What the second says.
pub const DEEP: &[u8] = b"the token that would be the 65th level of nesting";

// How many bytes of a token are told.
const LONGEST_TOKEN: usize = 40;

// The bytes of a token, as many as are told, or none where they are no part of the text.
fn told_bytes<'a>(program: &'a [u8], token: &Token) -> &'a [u8] {
    let bytes = bytes_of(program, token);
    &bytes[..bytes.len().min(LONGEST_TOKEN)]
}

// Appends what is said of the token that begins at a place.
fn push_token(
    text: &mut Vec<u8>,
    program: &[u8],
    tokens: &[Token],
    at: u32,
) -> Result<(), AllocError> {
    match tokens.get(token_number(tokens, at)) {
        Some(token) => {
            text.extend_from_slice(b"`")?;
            push_shown(text, told_bytes(program, token))?;
            text.extend_from_slice(b"` cannot stand here")
        }
        None => text.extend_from_slice(b"the text ends here"),
    }
}

// What is said of a token that can't stand where it does.
fn token_message(
    alloc: Global,
    program: &[u8],
    tokens: &[Token],
    at: u32,
    kinds: &[Kind],
) -> Result<Vec<u8>, AllocError> {
    let mut text = Vec::new(alloc);
    push_token(&mut text, program, tokens, at)?;
    push_expected(&mut text, kinds)?;
    Ok(text)
}

// Appends why a token can't stand where it does.
fn push_unexpected(
    alloc: Global,
    text: &mut Vec<u8>,
    name: &Name,
    program: &[u8],
    tokens: &Seq<Token>,
    at: u32,
) -> Result<(), AllocError>
    requires few { length program.now < 2 ^ 31 }
    requires lexed { lexed program.now ≡ Ok tokens.now }
    requires spans { AreTokensOf program.now tokens.now }
    requires fault { IsFirstFault program.now tokens.now (ParseFault.Unexpected at) }
    ensures { OnOk result (IsRefusal name.now program.now (parse_place program.now tokens.now at)
        (rule_text (codes "parse") 1 NO_PROGRAM.now (codes "byte") at) text.old.items text.new.items) }
{
    let kinds = expected(alloc, program, tokens, at)?;
    let message = token_message(alloc, program, tokens.as_slice(), at, &kinds)?;
    let hints = parse_hints(alloc, program, tokens.as_slice(), at, &kinds)?;
    let place = parse_place(program, tokens.as_slice(), at as usize);
    let rule = Rule {
        kind: b"parse",
        number: 1,
        says: NO_PROGRAM,
        unit: b"byte",
        at: u64::from(at),
    };
    push_refusal(text, name, program, place, &message, rule, &hints)
}

// Appends that a token nests too deep.
fn push_deep(text: &mut Vec<u8>, name: &Name, program: &[u8], at: u32) -> Result<(), AllocError>
    requires { length program.now < 2 ^ 31 }
    ensures { OnOk result (IsRefusal name.now program.now at
        (rule_text (codes "parse") 2 DEEP.now (codes "byte") at) text.old.items text.new.items) }
{
    let rule = Rule {
        kind: b"parse",
        number: 2,
        says: DEEP,
        unit: b"byte",
        at: u64::from(at),
    };
    let message = b"65 levels of nesting here; there may be 64";
    push_refusal(text, name, program, at as usize, message, rule, b"")
}

/// Appends why tokens are no program: its name, the place, the message with what could stand there, the line with a mark,
/// the rule, and hints. The only error is out of memory, which is the answer to that fault too.
pub fn push_parse_refusal(
    alloc: Global,
    text: &mut Vec<u8>,
    name: &Name,
    program: &[u8],
    tokens: &Seq<Token>,
    fault: ParseFault,
) -> Result<(), AllocError>
    requires few { length program.now < 2 ^ 31 }
    requires lexed { lexed program.now ≡ Ok tokens.now }
    requires spans { AreTokensOf program.now tokens.now }
    requires fault { IsFirstFault program.now tokens.now fault }
    ensures { OnOk result (IsParseRefusal name.now program.now tokens.now fault text.old.items text.new.items) }
{
    match fault {
        ParseFault::Unexpected(at) => push_unexpected(alloc, text, name, program, tokens, at),
        ParseFault::TooDeep(at) => push_deep(text, name, program, at),
        ParseFault::OutOfMemory => Err(AllocError),
    }
}
