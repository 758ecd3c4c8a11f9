// Statements without blocks.
ghost use Rattle.std.specs.Prelude.{◌≡◌};
ghost use Rattle.task_ast.specs.View.{plain_expr, plain_exprs, plain_stmt};
ghost use Rattle.task_parser.specs.inner.Classes.{among};
ghost use Rattle.task_parser.specs.inner.Reading.{begins};
ghost use Rattle.task_parser.specs.inner.ExpressionReaders.{read_expression};
ghost use Rattle.task_parser.specs.inner.StatementReaders.{read_assigned, read_set_ctl, read_locking, read_unlocking, read_forked, read_forking, read_joining, read_waiting, read_settling, read_set_reg, read_reading, read_writing, read_printing, simple_control_starts, read_simple_data, read_simple_control};
ghost use Rattle.task_parser.specs.inner.Gives.{Gives};

use crate::classes::*;
use crate::expressions::expression;
use crate::halt::{Halt, Read, discard};
use crate::next::{expect, expect_titled, is_next, is_of, past};
use crate::operands::{arguments, exprs, indexed, into_name, into_register, worded};
use crate::source::Source;
use crate::token::Token;
use gp_base::{Name, Seq};
use task_ast::{Expr, Stmt, What};

// The variable, by the class of its token, a `=` and an expression.
#[tactic(auto, unfolding(crate::specs::inner::StatementReaders::read_assigned))]
fn assigned<'a>(
    source: Source<'_>,
    class: u32,
    room: u32,
    tokens: &'a [Token],
) -> Read<'a, (Token, Expr)>
    ensures { Gives (λ x. ((x.0.0, plain_expr x.0.1), x.1.now)) result (read_assigned class (read_expression source.entry.text.now room) tokens.now) }
{
    let (variable, rest) = expect(tokens, class)?;
    let rest = past(rest, ASSIGN)?;
    let (value, rest) = expression(source, room, rest)?;
    let rest = match past(rest, SEMICOLON) {
        Ok(rest) => rest,
        Err(halt) => {
            discard(value);
            return Err(halt);
        }
    };
    Ok(((variable, value), rest))
}

// `NAME = expr ;`
#[tactic(auto, using(task_ast::proofs::Views::view), unfolding(crate::specs::inner::StatementReaders::read_set_ctl))]
fn set_ctl<'a>(source: Source<'_>, room: u32, tokens: &'a [Token]) -> Read<'a, Stmt>
    ensures { Gives (λ x. (plain_stmt x.0, x.1.now)) result (read_set_ctl source.entry.text.now (read_expression source.entry.text.now room) tokens.now) }
{
    let ((variable, value), rest) = assigned(source, NAME, room, tokens)?;
    let name = match source.name(variable) {
        Ok(name) => name,
        Err(failed) => {
            discard(value);
            return Err(Halt::from(failed));
        }
    };
    let what = What::SetCtl(name, value);
    let line = variable.line;
    Ok((Stmt { what, line }, rest))
}

// `DNAME = expr ;`
#[tactic(auto, using(task_ast::proofs::Views::view), unfolding(crate::specs::inner::StatementReaders::read_set_reg))]
fn set_register<'a>(source: Source<'_>, room: u32, tokens: &'a [Token]) -> Read<'a, Stmt>
    ensures { Gives (λ x. (plain_stmt x.0, x.1.now)) result (read_set_reg source.entry.text.now (read_expression source.entry.text.now room) tokens.now) }
{
    let ((variable, value), rest) = assigned(source, REG, room, tokens)?;
    let register = match source.register(variable) {
        Ok(register) => register,
        Err(failed) => {
            discard(value);
            return Err(Halt::from(failed));
        }
    };
    let what = What::SetReg(register, value);
    let line = variable.line;
    Ok((Stmt { what, line }, rest))
}

// `lock NAME [ atom ] ;`
#[tactic(auto, using(task_ast::proofs::Views::view), unfolding(crate::specs::inner::StatementReaders::read_locking))]
fn locking<'a>(source: Source<'_>, tokens: &'a [Token]) -> Read<'a, Stmt>
    ensures { Gives (λ x. (plain_stmt x.0, x.1.now)) result (read_locking source.entry.text.now tokens.now) }
{
    let (((word, name), index), rest) = indexed(source, LOCK, SEMICOLON, tokens)?;
    let what = What::Lock(name, index);
    let line = word.line;
    Ok((Stmt { what, line }, rest))
}

// `unlock NAME [ atom ] ;`
#[tactic(auto, using(task_ast::proofs::Views::view), unfolding(crate::specs::inner::StatementReaders::read_unlocking))]
fn unlocking<'a>(source: Source<'_>, tokens: &'a [Token]) -> Read<'a, Stmt>
    ensures { Gives (λ x. (plain_stmt x.0, x.1.now)) result (read_unlocking source.entry.text.now tokens.now) }
{
    let (((word, name), index), rest) = indexed(source, UNLOCK, SEMICOLON, tokens)?;
    let what = What::Unlock(name, index);
    let line = word.line;
    Ok((Stmt { what, line }, rest))
}

// `fork NAME ( exprs )`, where the expressions may be left out
#[tactic(auto, unfolding(crate::specs::inner::StatementReaders::read_forked))]
fn forked<'a>(
    source: Source<'_>,
    room: u32,
    tokens: &'a [Token],
) -> Read<'a, ((Token, Name), Seq<Expr>)>
    ensures { Gives (λ x. ((x.0.0, plain_exprs x.0.1), x.1.now)) result (read_forked source.entry.text.now (read_expression source.entry.text.now room) tokens.now) }
{
    let (head, rest) = expect_titled(source, FORK, OPEN_PAREN, tokens)?;
    let (arguments, rest) = arguments(source, room, rest)?;
    let rest = past(rest, CLOSE_PAREN)?;
    Ok(((head, arguments), rest))
}

// `fork NAME ( exprs ) into NAME ;`, where the expressions and the `into` may be left out
#[tactic(auto, using(task_ast::proofs::Views::view), unfolding(crate::specs::inner::StatementReaders::read_forking))]
fn forking<'a>(source: Source<'_>, room: u32, tokens: &'a [Token]) -> Read<'a, Stmt>
    ensures { Gives (λ x. (plain_stmt x.0, x.1.now)) result (read_forking source.entry.text.now (read_expression source.entry.text.now room) tokens.now) }
{
    let (((word, name), arguments), rest) = forked(source, room, tokens)?;
    let (into, rest) = into_name(source, rest)?;
    let rest = match past(rest, SEMICOLON) {
        Ok(rest) => rest,
        Err(halt) => {
            discard((name, arguments, into));
            return Err(halt);
        }
    };
    let what = What::Fork(name, arguments, into);
    let line = word.line;
    Ok((Stmt { what, line }, rest))
}

// `join expr into DNAME ;`, where the `into` may be left out
#[tactic(auto, using(task_ast::proofs::Views::view), unfolding(crate::specs::inner::StatementReaders::read_joining))]
fn joining<'a>(source: Source<'_>, room: u32, tokens: &'a [Token]) -> Read<'a, Stmt>
    ensures { Gives (λ x. (plain_stmt x.0, x.1.now)) result (read_joining source.entry.text.now (read_expression source.entry.text.now room) tokens.now) }
{
    let ((word, thread), rest) = worded(source, JOIN, room, tokens)?;
    let (into, rest) = match into_register(source, rest) {
        Ok(next) => next,
        Err(halt) => {
            discard(thread);
            return Err(halt);
        }
    };
    let rest = match past(rest, SEMICOLON) {
        Ok(rest) => rest,
        Err(halt) => {
            discard((thread, into));
            return Err(halt);
        }
    };
    let what = What::Join(thread, into);
    let line = word.line;
    Ok((Stmt { what, line }, rest))
}

// `barrier NAME ;`
#[tactic(auto, using(task_ast::proofs::Views::view), unfolding(crate::specs::inner::StatementReaders::read_waiting))]
fn waiting<'a>(source: Source<'_>, tokens: &'a [Token]) -> Read<'a, Stmt>
    ensures { Gives (λ x. (plain_stmt x.0, x.1.now)) result (read_waiting source.entry.text.now tokens.now) }
{
    let ((word, name), rest) = expect_titled(source, BARRIER, SEMICOLON, tokens)?;
    let what = What::Barrier(name);
    let line = word.line;
    Ok((Stmt { what, line }, rest))
}

// `settle DNAME into NAME ;`
#[tactic(auto, using(task_ast::proofs::Views::view), unfolding(crate::specs::inner::StatementReaders::read_settling))]
fn settling<'a>(source: Source<'_>, tokens: &'a [Token]) -> Read<'a, Stmt>
    ensures { Gives (λ x. (plain_stmt x.0, x.1.now)) result (read_settling source.entry.text.now tokens.now) }
{
    let (word, rest) = expect(tokens, SETTLE)?;
    let (from, rest) = expect(rest, REG)?;
    let rest = past(rest, INTO)?;
    let (into, rest) = expect(rest, NAME)?;
    let rest = past(rest, SEMICOLON)?;
    let what = What::Settle(source.register(from)?, source.name(into)?);
    let line = word.line;
    Ok((Stmt { what, line }, rest))
}

// `read NAME [ atom ] into DNAME ;`
#[tactic(auto, using(task_ast::proofs::Views::view), unfolding(crate::specs::inner::StatementReaders::read_reading))]
fn reading<'a>(source: Source<'_>, tokens: &'a [Token]) -> Read<'a, Stmt>
    ensures { Gives (λ x. (plain_stmt x.0, x.1.now)) result (read_reading source.entry.text.now tokens.now) }
{
    let (((word, name), index), rest) = indexed(source, READ, INTO, tokens)?;
    let (into, rest) = match expect(rest, REG) {
        Ok(next) => next,
        Err(halt) => {
            discard((index, name));
            return Err(halt);
        }
    };
    let rest = match past(rest, SEMICOLON) {
        Ok(rest) => rest,
        Err(halt) => {
            discard((index, name));
            return Err(halt);
        }
    };
    let into = match source.register(into) {
        Ok(next) => next,
        Err(failed) => {
            discard((index, name));
            return Err(Halt::from(failed));
        }
    };
    let what = What::Read(name, index, into);
    let line = word.line;
    Ok((Stmt { what, line }, rest))
}

// `write NAME [ atom ] = expr ;`
#[tactic(auto, using(task_ast::proofs::Views::view), unfolding(crate::specs::inner::StatementReaders::read_writing))]
fn writing<'a>(source: Source<'_>, room: u32, tokens: &'a [Token]) -> Read<'a, Stmt>
    ensures { Gives (λ x. (plain_stmt x.0, x.1.now)) result (read_writing source.entry.text.now (read_expression source.entry.text.now room) tokens.now) }
{
    let (((word, name), index), rest) = indexed(source, WRITE, ASSIGN, tokens)?;
    let (value, rest) = match expression(source, room, rest) {
        Ok(next) => next,
        Err(halt) => {
            discard((index, name));
            return Err(halt);
        }
    };
    let rest = match past(rest, SEMICOLON) {
        Ok(rest) => rest,
        Err(halt) => {
            discard((index, name, value));
            return Err(halt);
        }
    };
    let what = What::Write(name, index, value);
    let line = word.line;
    Ok((Stmt { what, line }, rest))
}

// `print exprs ;`
#[tactic(auto, using(task_ast::proofs::Views::view), unfolding(crate::specs::inner::StatementReaders::read_printing))]
fn printing<'a>(source: Source<'_>, room: u32, tokens: &'a [Token]) -> Read<'a, Stmt>
    ensures { Gives (λ x. (plain_stmt x.0, x.1.now)) result (read_printing (read_expression source.entry.text.now room) tokens.now) }
{
    let (word, rest) = expect(tokens, PRINT)?;
    let (values, rest) = exprs(source, room, rest)?;
    let rest = past(rest, SEMICOLON)?;
    let what = What::Print(values);
    let line = word.line;
    Ok((Stmt { what, line }, rest))
}

/// A data statement without blocks.
#[tactic(auto, unfolding(crate::specs::inner::StatementReaders::read_simple_data))]
pub fn simple_data<'a>(source: Source<'_>, room: u32, tokens: &'a [Token]) -> Read<'a, Stmt>
    ensures { Gives (λ x. (plain_stmt x.0, x.1.now)) result (read_simple_data source.entry.text.now (read_expression source.entry.text.now room) tokens.now) }
{
    if is_next(tokens, REG) {
        set_register(source, room, tokens)
    } else if is_next(tokens, READ) {
        reading(source, tokens)
    } else if is_next(tokens, WRITE) {
        writing(source, room, tokens)
    } else {
        printing(source, room, tokens)
    }
}

/// Any other statement without blocks.
#[tactic(auto, unfolding(crate::specs::inner::StatementReaders::read_simple_control))]
pub fn simple_control<'a>(source: Source<'_>, room: u32, tokens: &'a [Token]) -> Read<'a, Stmt>
    ensures { Gives (λ x. (plain_stmt x.0, x.1.now)) result (read_simple_control source.entry.text.now (read_expression source.entry.text.now room) tokens.now) }
{
    if is_next(tokens, NAME) {
        set_ctl(source, room, tokens)
    } else if is_next(tokens, LOCK) {
        locking(source, tokens)
    } else if is_next(tokens, UNLOCK) {
        unlocking(source, tokens)
    } else if is_next(tokens, FORK) {
        forking(source, room, tokens)
    } else if is_next(tokens, JOIN) {
        joining(source, room, tokens)
    } else if is_next(tokens, BARRIER) {
        waiting(source, tokens)
    } else {
        settling(source, tokens)
    }
}

/// Whether a statement begins with the token that has no blocks and is no data statement.
pub fn is_simple_control(token: Token) -> bool
    ensures { result ≡ among simple_control_starts token }
{
    is_of(token, NAME)
        || is_of(token, LOCK)
        || is_of(token, UNLOCK)
        || is_of(token, FORK)
        || is_of(token, JOIN)
        || is_of(token, BARRIER)
        || is_of(token, SETTLE)
}

/// Whether such a statement is next.
pub fn begins_simple_control(tokens: &[Token]) -> bool
    ensures { result ≡ begins (among simple_control_starts) tokens.now }
{
    match tokens {
        [] => false,
        [token, ..] => is_simple_control(*token),
    }
}
