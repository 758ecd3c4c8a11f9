// What stands next in a list of tokens.
ghost use Rattle.std.specs.Prelude.{◌≡◌, [], ◌∷◌};
ghost use Rattle.task_parser.specs.inner.Classes.{class, among};
ghost use Rattle.task_parser.specs.inner.Gives.{Gives};
ghost use Rattle.task_parser.specs.inner.Reading.{begins, read_one, read_past};
ghost use Rattle.task_parser.specs.inner.ExpressionReaders.{read_name, read_register};
ghost use Rattle.task_parser.specs.inner.StatementReaders.{read_titled};

use crate::classes::{NAME, REG};
use crate::halt::{Halt, Read};
use crate::source::Source;
use crate::token::{Kind, Token};
use gp_base::Name;

// The number of a kind of token.
fn class_of(kind: Kind) -> u32
    ensures { result ≡ class kind }
{
    match kind {
        Kind::Num(_) => 0,
        Kind::Name => 1,
        Kind::Reg => 2,
        Kind::Quoted => 3,
        Kind::Word(word) => 4 + word as u32,
        Kind::Mark(mark) => 300 + mark as u32,
    }
}

/// Whether the token is of the class.
pub fn is_of(token: Token, class: u32) -> bool
    ensures { result ≡ among (class ∷ []) token }
{
    class_of(token.kind) == class
}

/// Whether a token of the class is next.
pub fn is_next(tokens: &[Token], class: u32) -> bool
    ensures { result ≡ begins (among (class ∷ [])) tokens.now }
{
    match tokens {
        [] => false,
        [token, ..] => is_of(*token, class),
    }
}

/// The token of the class that is next, and what is after it.
pub fn expect(tokens: &[Token], class: u32) -> Read<'_, Token>
    ensures { Gives (λ x. (x.0, x.1.now)) result (read_one (among (class ∷ [])) tokens.now) }
{
    let [token, rest @ ..] = tokens else {
        return Err(Halt::Unexpected(tokens));
    };
    if !is_of(*token, class) {
        return Err(Halt::Unexpected(tokens));
    }
    Ok((*token, rest))
}

/// What is after the token of the class that is next.
pub fn past(tokens: &[Token], class: u32) -> Result<&[Token], Halt<'_>>
    ensures { Gives (λ rest. rest.now) result (read_past class tokens.now) }
{
    match tokens {
        [token, rest @ ..] if is_of(*token, class) => Ok(rest),
        _ => Err(Halt::Unexpected(tokens)),
    }
}

/// The name that is next, and what is after it.
pub fn expect_name<'a>(source: Source<'_>, tokens: &'a [Token]) -> Read<'a, Name>
    ensures { Gives (λ x. (x.0, x.1.now)) result (read_name source.entry.text.now tokens.now) }
{
    let (token, rest) = expect(tokens, NAME)?;
    Ok((source.name(token)?, rest))
}

/// The data variable that is next, and what is after it.
pub fn expect_register<'a>(source: Source<'_>, tokens: &'a [Token]) -> Read<'a, Name>
    ensures { Gives (λ x. (x.0, x.1.now)) result (read_register source.entry.text.now tokens.now) }
{
    let (token, rest) = expect(tokens, REG)?;
    Ok((source.register(token)?, rest))
}

/// The word, a name and the mark that are next, and what is after them.
pub fn expect_titled<'a>(
    source: Source<'_>,
    word: u32,
    mark: u32,
    tokens: &'a [Token],
) -> Read<'a, (Token, Name)>
    ensures { Gives (λ x. (x.0, x.1.now)) result (read_titled source.entry.text.now word mark tokens.now) }
{
    let (word, rest) = expect(tokens, word)?;
    let (title, rest) = expect(rest, NAME)?;
    let rest = past(rest, mark)?;
    Ok(((word, source.name(title)?), rest))
}
