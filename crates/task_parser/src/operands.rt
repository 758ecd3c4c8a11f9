// What statements are made of: indices, lists of expressions, and what stands after an `into`.
ghost use Rattle.std.specs.Prelude.{◌≡◌};
ghost use Rattle.task_ast.specs.View.{plain_expr, plain_exprs};
ghost use Rattle.task_parser.specs.inner.Classes.{among};
ghost use Rattle.task_parser.specs.inner.Reading.{begins, read_after, read_separated};
ghost use Rattle.task_parser.specs.inner.ExpressionReaders.{starting, read_expression};
ghost use Rattle.task_parser.specs.inner.StatementReaders.{read_atom, read_indexed, read_worded, read_list, read_into_name, read_into_reg};
ghost use Rattle.task_parser.specs.inner.Gives.{Gives};

use crate::classes::*;
use crate::expressions::expression;
use crate::halt::{Read, discard};
use crate::next::{expect, expect_name, expect_register, expect_titled, is_next, is_of, past};
use crate::source::{Source, number};
use crate::token::Token;
use gp_base::{Name, Seq};
use task_ast::{Atom, Expr};

// An index: a number or a control variable.
#[tactic(auto, unfolding(crate::specs::inner::StatementReaders::read_atom))]
fn atom<'a>(source: Source<'_>, tokens: &'a [Token]) -> Read<'a, Atom>
    ensures { Gives (λ x. (x.0, x.1.now)) result (read_atom source.entry.text.now tokens.now) }
{
    if is_next(tokens, NUM) {
        let (token, rest) = expect(tokens, NUM)?;
        return Ok((Atom::Num(number(token)), rest));
    }
    let (name, rest) = expect_name(source, tokens)?;
    Ok((Atom::Var(name), rest))
}

/// The word, a name, an index in brackets, and the word or mark after it.
#[tactic(auto, unfolding(crate::specs::inner::StatementReaders::read_indexed))]
pub fn indexed<'a>(
    source: Source<'_>,
    word: u32,
    after: u32,
    tokens: &'a [Token],
) -> Read<'a, ((Token, Name), Atom)>
    ensures { Gives (λ x. (x.0, x.1.now)) result (read_indexed source.entry.text.now word after tokens.now) }
{
    let (head, rest) = expect_titled(source, word, OPEN_BRACKET, tokens)?;
    let (index, rest) = atom(source, rest)?;
    let rest = match past(rest, CLOSE_BRACKET) {
        Ok(rest) => rest,
        Err(halt) => {
            discard(index);
            return Err(halt);
        }
    };
    let rest = match past(rest, after) {
        Ok(rest) => rest,
        Err(halt) => {
            discard(index);
            return Err(halt);
        }
    };
    Ok(((head, index), rest))
}

/// The word, and an expression.
#[tactic(auto, unfolding(crate::specs::inner::StatementReaders::read_worded))]
pub fn worded<'a>(
    source: Source<'_>,
    word: u32,
    room: u32,
    tokens: &'a [Token],
) -> Read<'a, (Token, Expr)>
    ensures { Gives (λ x. ((x.0.0, plain_expr x.0.1), x.1.now)) result (read_worded word (read_expression source.entry.text.now room) tokens.now) }
{
    let (word, rest) = expect(tokens, word)?;
    let (value, rest) = expression(source, room, rest)?;
    Ok(((word, value), rest))
}

// A comma and an expression.
fn next_expr<'a>(source: Source<'_>, room: u32, tokens: &'a [Token]) -> Read<'a, Expr>
    ensures { Gives (λ x. (plain_expr x.0, x.1.now)) result (read_after COMMA (read_expression source.entry.text.now room) tokens.now) }
{
    let rest = past(tokens, COMMA)?;
    expression(source, room, rest)
}

/// Expressions with commas between them.
pub fn exprs<'a>(source: Source<'_>, room: u32, tokens: &'a [Token]) -> Read<'a, Seq<Expr>>
    ensures { Gives (λ x. (plain_exprs x.0, x.1.now)) result (read_separated COMMA (read_expression source.entry.text.now room) tokens.now) }
{
    let (first, after) = expression(source, room, tokens)?;
    let mut exprs = Seq::new(source.alloc);
    exprs.push(first)?;
    let mut rest = after;
    while is_next(rest, COMMA) {
        let (next, after) = next_expr(source, room, rest)?;
        exprs.push(next)?;
        rest = after;
    }
    Ok((exprs, rest))
}

// Whether an expression begins here.
fn begins_expr(tokens: &[Token]) -> bool
    ensures { result ≡ begins (among starting) tokens.now }
{
    let [token, ..] = tokens else {
        return false;
    };
    is_of(*token, SUB)
        || is_of(*token, NOT)
        || is_of(*token, NUM)
        || is_of(*token, NAME)
        || is_of(*token, REG)
        || is_of(*token, SELF)
        || is_of(*token, ROWS)
        || is_of(*token, OPEN_PAREN)
}

/// Expressions with commas between them, or none.
#[tactic(auto, unfolding(crate::specs::inner::StatementReaders::read_list))]
pub fn arguments<'a>(source: Source<'_>, room: u32, tokens: &'a [Token]) -> Read<'a, Seq<Expr>>
    ensures { Gives (λ x. (plain_exprs x.0, x.1.now)) result (read_list starting (read_expression source.entry.text.now room) tokens.now) }
{
    if begins_expr(tokens) {
        return exprs(source, room, tokens);
    }
    Ok((Seq::new(source.alloc), tokens))
}

/// The control variable after an `into`, if there is one.
#[tactic(auto, unfolding(crate::specs::inner::StatementReaders::read_into_name))]
pub fn into_name<'a>(source: Source<'_>, tokens: &'a [Token]) -> Read<'a, Option<Name>>
    ensures { Gives (λ x. (x.0, x.1.now)) result (read_into_name source.entry.text.now tokens.now) }
{
    if !is_next(tokens, INTO) {
        return Ok((None, tokens));
    }
    let rest = past(tokens, INTO)?;
    let (name, rest) = expect_name(source, rest)?;
    Ok((Some(name), rest))
}

/// The data variable after an `into`, if there is one.
#[tactic(auto, unfolding(crate::specs::inner::StatementReaders::read_into_reg))]
pub fn into_register<'a>(source: Source<'_>, tokens: &'a [Token]) -> Read<'a, Option<Name>>
    ensures { Gives (λ x. (x.0, x.1.now)) result (read_into_reg source.entry.text.now tokens.now) }
{
    if !is_next(tokens, INTO) {
        return Ok((None, tokens));
    }
    let rest = past(tokens, INTO)?;
    let (register, rest) = expect_register(source, rest)?;
    Ok((Some(register), rest))
}
