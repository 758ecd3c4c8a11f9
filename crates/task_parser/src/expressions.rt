// Expressions from tokens, by recursive descent.
ghost use Rattle.std.specs.Prelude.{◌≡◌, [], ◌∷◌, Ok};
ghost use Rattle.task_ast.specs.meaning.Tree.{Cell};
ghost use Rattle.task_ast.specs.View.{plain_expr, plain_members};
ghost use Rattle.task_parser.specs.inner.Classes.{among, is, op_of};
ghost use Rattle.task_parser.specs.inner.Reading.{begins, read_one, repeat, ◌◃◌};
ghost use Rattle.task_parser.specs.inner.ExpressionReaders.{read_member, read_level, read_compared, negation, read_negation, read_place, read_named, read_rows, read_group, read_leaf, read_unary, below, read_expression};
ghost use Rattle.task_parser.specs.meaning.Expressions.{chain_of};
ghost use Rattle.task_parser.specs.inner.Gives.{Gives, operators, read_part};

use crate::classes::*;
use crate::halt::{Halt, Read, discard};
use crate::next::{expect, expect_name, expect_register, is_next, is_of, past};
use crate::source::{Source, number};
use crate::token::Token;
use gp_base::{Name, Seq};
use task_ast::{Expr, Op};

/// Operators that bind alike, from the loosest. Comparisons don't chain.
#[derive(Clone, Copy)]
pub enum Level {
    Or,
    And,
    Comparison,
    Sum,
    Product,
}

// The operator of a token.
fn operator_of(token: Token) -> Op
    ensures { result ≡ op_of token }
{
    if is_of(token, OR) {
        Op::Or
    } else if is_of(token, AND) {
        Op::And
    } else if is_of(token, EQ) {
        Op::Eq
    } else if is_of(token, NE) {
        Op::Ne
    } else if is_of(token, LT) {
        Op::Lt
    } else if is_of(token, LE) {
        Op::Le
    } else if is_of(token, GT) {
        Op::Gt
    } else if is_of(token, GE) {
        Op::Ge
    } else if is_of(token, ADD) {
        Op::Add
    } else if is_of(token, SUB) {
        Op::Sub
    } else if is_of(token, MUL) {
        Op::Mul
    } else if is_of(token, DIV) {
        Op::Div
    } else {
        Op::Rem
    }
}

// Whether the token is an operator of the level.
fn is_operator(level: Level, token: Token) -> bool
    ensures { result ≡ among (operators level) token }
{
    match level {
        Level::Or => is_of(token, OR),
        Level::And => is_of(token, AND),
        Level::Comparison => {
            is_of(token, EQ)
                || is_of(token, NE)
                || is_of(token, LT)
                || is_of(token, LE)
                || is_of(token, GT)
                || is_of(token, GE)
        }
        Level::Sum => is_of(token, ADD) || is_of(token, SUB),
        Level::Product => is_of(token, MUL) || is_of(token, DIV) || is_of(token, REM),
    }
}

// Whether an operator of the level is next.
fn goes_on(level: Level, tokens: &[Token]) -> bool
    ensures { result ≡ begins (among (operators level)) tokens.now }
{
    match tokens {
        [] => false,
        [token, ..] => is_operator(level, *token),
    }
}

// The operator of the level that is next, and what is after it.
fn operator_at(level: Level, tokens: &[Token]) -> Read<'_, Token>
    ensures { Gives (λ x. (x.0, x.1.now)) result (read_one (among (operators level)) tokens.now) }
{
    let [token, rest @ ..] = tokens else {
        return Err(Halt::Unexpected(tokens));
    };
    if !is_operator(level, *token) {
        return Err(Halt::Unexpected(tokens));
    }
    Ok((*token, rest))
}

// The negation of a value, by the class of its sign: a `-`, or else a `not`.
#[tactic(auto, using(task_ast::proofs::Views::view))]
fn negation(sign: u32, value: Box<Expr>) -> Expr
    ensures { plain_expr result ≡ negation sign (plain_expr value.value) }
{
    if sign == SUB {
        Expr::Neg(value)
    } else {
        Expr::Not(value)
    }
}

// A `-` or a `not`, by its class, and the operand after it.
#[tactic(auto, unfolding(crate::specs::inner::ExpressionReaders::read_negation))]
#[cycle(descent)]
fn negated<'a>(source: Source<'_>, sign: u32, room: u32, tokens: &'a [Token]) -> Read<'a, Expr>
    ensures { Gives (λ x. (plain_expr x.0, x.1.now)) result (read_negation sign (below source.entry.text.now room) tokens.now) }
{
    let (_, rest) = expect(tokens, sign)?;
    if room == 0 {
        return Err(Halt::TooDeep(tokens));
    }
    let (value, rest) = operand(source, room - 1, rest)?;
    let value = Box::new(source.alloc, value)?;
    Ok((negation(sign, value), rest))
}

// An expression, and the mark after it.
#[cycle(descent)]
fn closed<'a>(source: Source<'_>, mark: u32, room: u32, tokens: &'a [Token]) -> Read<'a, Expr>
    ensures { Gives (λ x. (plain_expr x.0, x.1.now)) result ((read_expression source.entry.text.now room ◃ mark) tokens.now) }
{
    let (value, rest) = chain(source, Level::Or, room, tokens)?;
    match past(rest, mark) {
        Ok(rest) => Ok((value, rest)),
        Err(halt) => {
            discard(value);
            Err(halt)
        }
    }
}

// An expression in parentheses.
#[tactic(auto, unfolding(crate::specs::inner::ExpressionReaders::read_group))]
#[cycle(descent)]
fn group<'a>(source: Source<'_>, room: u32, tokens: &'a [Token]) -> Read<'a, Expr>
    ensures { Gives (λ x. (plain_expr x.0, x.1.now)) result (read_group (below source.entry.text.now room) tokens.now) }
{
    let (_, rest) = expect(tokens, OPEN_PAREN)?;
    if room == 0 {
        return Err(Halt::TooDeep(tokens));
    }
    closed(source, CLOSE_PAREN, room - 1, rest)
}

// A row and a field in brackets.
#[tactic(auto, unfolding(crate::specs::inner::ExpressionReaders::read_place))]
#[cycle(descent)]
fn place<'a>(source: Source<'_>, room: u32, tokens: &'a [Token]) -> Read<'a, (Expr, Expr)>
    ensures { Gives (λ x. ((plain_expr x.0.0, plain_expr x.0.1), x.1.now)) result (read_place (below source.entry.text.now room) tokens.now) }
{
    let (_, rest) = expect(tokens, OPEN_BRACKET)?;
    if room == 0 {
        return Err(Halt::TooDeep(tokens));
    }
    let (row, rest) = closed(source, COMMA, room - 1, rest)?;
    let (field, rest) = match chain(source, Level::Or, room - 1, rest) {
        Ok(next) => next,
        Err(halt) => {
            discard(row);
            return Err(halt);
        }
    };
    let rest = match past(rest, CLOSE_BRACKET) {
        Ok(rest) => rest,
        Err(halt) => {
            discard((row, field));
            return Err(halt);
        }
    };
    Ok(((row, field), rest))
}

// A cell of a feed.
#[tactic(auto, using(task_ast::proofs::Views::view))]
fn cell<'a>(source: Source<'_>, feed: Name, row: Expr, field: Expr) -> Result<Expr, Halt<'a>>
    ensures { Gives plain_expr result (Ok (Cell feed (plain_expr row) (plain_expr field))) }
{
    let row = match Box::new(source.alloc, row) {
        Ok(row) => row,
        Err(failed) => {
            discard(field);
            return Err(Halt::from(failed));
        }
    };
    let field = Box::new(source.alloc, field)?;
    Ok(Expr::Cell(feed, row, field))
}

// A control variable or a cell of a feed.
#[tactic(auto, using(task_ast::proofs::Views::view), unfolding(crate::specs::inner::ExpressionReaders::read_named))]
#[cycle(descent)]
fn named<'a>(source: Source<'_>, room: u32, tokens: &'a [Token]) -> Read<'a, Expr>
    ensures { Gives (λ x. (plain_expr x.0, x.1.now)) result (read_named source.entry.text.now (below source.entry.text.now room) tokens.now) }
{
    let (name, rest) = expect_name(source, tokens)?;
    if !is_next(rest, OPEN_BRACKET) {
        return Ok((Expr::Ctl(name), rest));
    }
    let ((row, field), rest) = place(source, room, rest)?;
    Ok((cell(source, name, row, field)?, rest))
}

// The number of rows of a feed.
#[tactic(auto, using(task_ast::proofs::Views::view), unfolding(crate::specs::inner::ExpressionReaders::read_rows))]
fn rows<'a>(source: Source<'_>, tokens: &'a [Token]) -> Read<'a, Expr>
    ensures { Gives (λ x. (plain_expr x.0, x.1.now)) result (read_rows source.entry.text.now tokens.now) }
{
    let rest = past(tokens, ROWS)?;
    let rest = past(rest, OPEN_PAREN)?;
    let (token, rest) = expect(rest, NAME)?;
    let rest = past(rest, CLOSE_PAREN)?;
    Ok((Expr::Rows(source.name(token)?), rest))
}

// A number, a data variable, `self`, or the number of rows of a feed.
#[tactic(auto, using(task_ast::proofs::Views::view), unfolding(crate::specs::inner::ExpressionReaders::read_leaf))]
fn leaf<'a>(source: Source<'_>, tokens: &'a [Token]) -> Read<'a, Expr>
    ensures { Gives (λ x. (plain_expr x.0, x.1.now)) result (read_leaf source.entry.text.now tokens.now) }
{
    if is_next(tokens, NUM) {
        let (token, rest) = expect(tokens, NUM)?;
        Ok((Expr::Num(number(token)), rest))
    } else if is_next(tokens, REG) {
        let (register, rest) = expect_register(source, tokens)?;
        Ok((Expr::Reg(register), rest))
    } else if is_next(tokens, SELF) {
        let (_, rest) = expect(tokens, SELF)?;
        Ok((Expr::Me, rest))
    } else {
        rows(source, tokens)
    }
}

// An operand.
#[tactic(auto, unfolding(crate::specs::inner::ExpressionReaders::read_unary, crate::specs::inner::ExpressionReaders::read_operand))]
#[cycle(descent)]
fn operand<'a>(source: Source<'_>, room: u32, tokens: &'a [Token]) -> Read<'a, Expr>
    ensures { Gives (λ x. (plain_expr x.0, x.1.now)) result (read_unary source.entry.text.now room tokens.now) }
{
    if is_next(tokens, SUB) {
        negated(source, SUB, room, tokens)
    } else if is_next(tokens, NOT) {
        negated(source, NOT, room, tokens)
    } else if is_next(tokens, NAME) {
        named(source, room, tokens)
    } else if is_next(tokens, OPEN_PAREN) {
        group(source, room, tokens)
    } else {
        leaf(source, tokens)
    }
}

// What stands between the operators of a level.
#[cycle(descent)]
fn part<'a>(source: Source<'_>, level: Level, room: u32, tokens: &'a [Token]) -> Read<'a, Expr>
    ensures { Gives (λ x. (plain_expr x.0, x.1.now)) result (read_part level source.entry.text.now room tokens.now) }
{
    match level {
        Level::Or => chain(source, Level::And, room, tokens),
        Level::And => comparison(source, room, tokens),
        Level::Comparison => chain(source, Level::Sum, room, tokens),
        Level::Sum => chain(source, Level::Product, room, tokens),
        Level::Product => operand(source, room, tokens),
    }
}

// An operator of the level and what stands right of it.
#[cycle(descent)]
fn member<'a>(
    source: Source<'_>,
    level: Level,
    room: u32,
    tokens: &'a [Token],
) -> Read<'a, (Op, Expr)>
    ensures { Gives (λ x. ((x.0.0, plain_expr x.0.1), x.1.now)) result (read_member (operators level) (read_part level source.entry.text.now room) tokens.now) }
{
    let (operator, rest) = operator_at(level, tokens)?;
    let (right, rest) = part(source, level, room, rest)?;
    Ok(((operator_of(operator), right), rest))
}

// The operators of a level, as many as there are, each with what stands right of it.
#[cycle(descent)]
fn members<'a>(
    source: Source<'_>,
    level: Level,
    room: u32,
    tokens: &'a [Token],
) -> Read<'a, Seq<(Op, Expr)>>
    ensures { Gives (λ x. (plain_members x.0, x.1.now)) result (repeat (among (operators level)) (read_member (operators level) (read_part level source.entry.text.now room)) tokens.now) }
{
    let mut members = Seq::new(source.alloc);
    let mut rest = tokens;
    while goes_on(level, rest) {
        let (next, after) = member(source, level, room, rest)?;
        members.push(next)?;
        rest = after;
    }
    Ok((members, rest))
}

// A chain of the first and the others, or the first alone where there are none.
#[tactic(auto, using(task_ast::proofs::Views::view))]
fn chained<'a>(source: Source<'_>, first: Expr, others: Seq<(Op, Expr)>) -> Result<Expr, Halt<'a>>
    ensures { Gives plain_expr result (Ok (chain_of (plain_expr first, plain_members others))) }
{
    if others.is_empty() {
        return Ok(first);
    }
    let first = Box::new(source.alloc, first)?;
    Ok(Expr::Chain(first, others))
}

// A chain of two.
fn compared<'a>(source: Source<'_>, first: Expr, other: (Op, Expr)) -> Result<Expr, Halt<'a>>
    ensures { Gives plain_expr result (Ok (chain_of (plain_expr first, (other.0, plain_expr other.1) ∷ []))) }
{
    let mut others = Seq::new(source.alloc);
    others.push(other)?;
    chained(source, first, others)
}

/// Parts with operators of the level between them; not of comparisons.
#[tactic(auto, unfolding(crate::specs::inner::ExpressionReaders::read_level))]
#[cycle(descent)]
pub fn chain<'a>(source: Source<'_>, level: Level, room: u32, tokens: &'a [Token]) -> Read<'a, Expr>
    ensures { Gives (λ x. (plain_expr x.0, x.1.now)) result (read_level (operators level) (read_part level source.entry.text.now room) tokens.now) }
{
    let (first, rest) = part(source, level, room, tokens)?;
    let (others, rest) = match members(source, level, room, rest) {
        Ok(next) => next,
        Err(halt) => {
            discard(first);
            return Err(halt);
        }
    };
    Ok((chained(source, first, others)?, rest))
}

// Two sums with a comparison between them, or one sum.
#[tactic(auto, unfolding(crate::specs::inner::ExpressionReaders::read_compared))]
#[cycle(descent)]
fn comparison<'a>(source: Source<'_>, room: u32, tokens: &'a [Token]) -> Read<'a, Expr>
    ensures { Gives (λ x. (plain_expr x.0, x.1.now)) result (read_compared (read_part Level.Comparison source.entry.text.now room) tokens.now) }
{
    let (first, rest) = part(source, Level::Comparison, room, tokens)?;
    if !goes_on(Level::Comparison, rest) {
        return Ok((first, rest));
    }
    let (other, rest) = match member(source, Level::Comparison, room, rest) {
        Ok(next) => next,
        Err(halt) => {
            discard(first);
            return Err(halt);
        }
    };
    Ok((compared(source, first, other)?, rest))
}

/// An expression, with room for so many constructs that nest.
pub fn expression<'a>(source: Source<'_>, room: u32, tokens: &'a [Token]) -> Read<'a, Expr>
    ensures { Gives (λ x. (plain_expr x.0, x.1.now)) result (read_expression source.entry.text.now room tokens.now) }
{
    chain(source, Level::Or, room, tokens)
}
