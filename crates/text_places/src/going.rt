// Which tokens could stand where a program can't go on. The grammar stands in `task_parser` alone, so each kind is tried.
ghost use Rattle.std.specs.Prelude.{◌≡◌, ◌<◌, ◌≤◌, ◌^◌, ◌↔◌, List, length, nat_lt, IsTrue, IfOk};
ghost use Rattle.std.specs.List.{prefix_len};
ghost use Rattle.task_parser.specs.declared.token.Token.{Token as PlainToken};
ghost use Rattle.task_parser.specs.meaning.Lexing.{lexed};
ghost use Rattle.task_parser.specs.meaning.Answer.{IsFirstFault};
ghost use Rattle.task_parser.specs.Lexing.{AreTokensOf};
ghost use Rattle.text_places.specs.Expected.{GoesOn, IsFront, AreExpected, IsExpected, kind_of};

use gp_base::Seq;
use std::alloc::{AllocError, Global};
use task_parser::{Kind, ParseFault, Token, parse, tokens_are_placed};

// How many kinds there are: numbers, names, data variables, texts in quotes, 25 reserved words, 20 marks.
const KINDS: u8 = 49;

// The kinds in this order.
fn kind_of(number: u8) -> Kind
    requires { number < KINDS }
    ensures { result ≡ kind_of number }
{
    match number {
        0 => Kind::Num(1),
        1 => Kind::Name,
        2 => Kind::Reg,
        3 => Kind::Quoted,
        4..=28 => Kind::Word(number - 4),
        _ => Kind::Mark(number - 29),
    }
}

// Whether a program goes on with a token of this kind after those before the first fault.
fn goes_on(alloc: Global, text: &[u8], front: &[Token], kind: Kind) -> Result<bool, AllocError>
    requires few { length text.now < 2 ^ 31 }
    requires front { (tokens : List PlainToken) × IsFront text.now tokens front.now }
    ensures { IfOk result (λ yes. IsTrue yes ↔ GoesOn text.now front.now kind) }
{
    let past = text.len() as u32 + 1;
    let mut tokens = Seq::from_slice(alloc, front)?;
    tokens.push(Token {
        kind,
        from: past,
        to: past,
        line: 1,
    })?;
    match parse(alloc, text, &tokens) {
        Ok(_program) => Ok(true),
        // Where the token is not at fault, none before it is either.
        Err(ParseFault::Unexpected(at)) => Ok(at != past),
        Err(ParseFault::TooDeep(_)) => Ok(true),
        Err(ParseFault::OutOfMemory) => Err(AllocError),
    }
}

// The kinds with which a program goes on after these tokens.
fn expected_after(alloc: Global, text: &[u8], front: &[Token]) -> Result<Vec<Kind>, AllocError>
    requires few { length text.now < 2 ^ 31 }
    requires front { (tokens : List PlainToken) × IsFront text.now tokens front.now }
    ensures { IfOk result (λ kinds. AreExpected text.now front.now KINDS kinds.items) }
{
    let mut kinds = Vec::new(alloc);
    for number in 0..KINDS {
        let kind = kind_of(number);
        if goes_on(alloc, text, front, kind)? {
            kinds.push(kind)?;
        }
    }
    Ok(kinds)
}

// How many tokens begin before a place.
fn count_before(tokens: &[Token], at: u32) -> usize
    ensures count { result ≡ prefix_len (λ (token : PlainToken). nat_lt token.from at) tokens.now }
    ensures within { result ≤ length tokens.now }
{
    tokens.iter().take_while(|token| token.from < at).count()
}

/// The kinds of tokens with which a program goes on where the tokens of a text have their first fault, each kind of number
/// as the number 1. Each kind is tried by parsing the tokens before the fault and one of that kind: so there is no second
/// grammar. The only error is out of memory.
pub fn expected(
    alloc: Global,
    text: &[u8],
    tokens: &Seq<Token>,
    at: u32,
) -> Result<Vec<Kind>, AllocError>
    requires few { length text.now < 2 ^ 31 }
    requires lexed { lexed text.now ≡ Ok tokens.now }
    requires spans { AreTokensOf text.now tokens.now }
    requires fault { IsFirstFault text.now tokens.now (ParseFault.Unexpected at) }
    ensures { IfOk result (λ kinds. IsExpected text.now tokens.now kinds.items) }
{
    tokens_are_placed();
    let tokens = tokens.as_slice();
    expected_after(alloc, text, &tokens[..count_before(tokens, at)])
}
