// Statements from tokens, by recursive descent: blocks, and statements with blocks.
ghost use Rattle.std.specs.Prelude.{◌≡◌, []};
ghost use Rattle.task_ast.specs.View.{plain_expr, plain_what, plain_stmt, plain_stmts, plain_block};
ghost use Rattle.task_parser.specs.inner.Classes.{among};
ghost use Rattle.task_parser.specs.inner.Reading.{begins, repeat};
ghost use Rattle.task_parser.specs.inner.ExpressionReaders.{read_expression};
ghost use Rattle.task_parser.specs.inner.StatementReaders.{data_starts, read_looping, read_branching, read_data_form, read_any_form, read_data_statement, read_statement};
ghost use Rattle.task_parser.specs.inner.Gives.{Gives, starts, read_allowed, allowed_below, read_block_at, read_else_at, branch_word, branch, read_branching_at};

use crate::classes::*;
use crate::halt::{Halt, Read, discard};
use crate::next::{expect, is_next, is_of, past};
use crate::operands::worded;
use crate::simple_statements::{
    begins_simple_control, is_simple_control, simple_control, simple_data,
};
use crate::source::Source;
use crate::token::Token;
use gp_base::Seq;
use task_ast::{Expr, Stmt, What};

/// Which statements a block may hold: all, or data statements alone.
#[derive(Clone, Copy)]
pub enum Allowed {
    All,
    Data,
}

// Statements in braces.
#[tactic(auto, unfolding(crate::specs::inner::StatementReaders::read_block))]
#[cycle(nesting)]
fn block<'a>(
    source: Source<'_>,
    allowed: Allowed,
    room: u32,
    tokens: &'a [Token],
) -> Read<'a, Seq<Stmt>>
    ensures { Gives (λ x. (plain_block x.0, x.1.now)) result (read_block_at allowed source.entry.text.now room tokens.now) }
{
    let (_, rest) = expect(tokens, OPEN_BRACE)?;
    if room == 0 {
        return Err(Halt::TooDeep(tokens));
    }
    let (statements, rest) = statements(source, allowed, room - 1, rest)?;
    let rest = past(rest, CLOSE_BRACE)?;
    Ok((statements, rest))
}

// The block after an `else`, which is empty where there is none.
#[tactic(auto, unfolding(crate::specs::inner::StatementReaders::read_else))]
#[cycle(nesting)]
fn else_block<'a>(
    source: Source<'_>,
    allowed: Allowed,
    room: u32,
    tokens: &'a [Token],
) -> Read<'a, Seq<Stmt>>
    ensures { Gives (λ x. (plain_block x.0, x.1.now)) result (read_else_at allowed source.entry.text.now room tokens.now) }
{
    if !is_next(tokens, ELSE) {
        return Ok((Seq::new(source.alloc), tokens));
    }
    let rest = past(tokens, ELSE)?;
    block(source, allowed, room, rest)
}

// `while expr { .. }`
#[tactic(auto, using(task_ast::proofs::Views::view), unfolding(crate::specs::inner::StatementReaders::read_looping))]
#[cycle(nesting)]
fn looping<'a>(source: Source<'_>, room: u32, tokens: &'a [Token]) -> Read<'a, Stmt>
    ensures { Gives (λ x. (plain_stmt x.0, x.1.now)) result (read_looping (read_expression source.entry.text.now room) (allowed_below Allowed.All source.entry.text.now room) tokens.now) }
{
    let ((word, condition), rest) = worded(source, WHILE, room, tokens)?;
    let (body, rest) = match block(source, Allowed::All, room, rest) {
        Ok(next) => next,
        Err(halt) => {
            discard(condition);
            return Err(halt);
        }
    };
    let what = What::While(condition, body);
    let line = word.line;
    Ok((Stmt { what, line }, rest))
}

// The word of a branch whose blocks hold such statements.
fn branch_word(allowed: Allowed) -> u32
    ensures { result ≡ branch_word allowed }
{
    match allowed {
        Allowed::All => IF,
        Allowed::Data => WHEN,
    }
}

// A branch whose blocks hold such statements.
#[tactic(auto, using(task_ast::proofs::Views::view))]
fn branch(allowed: Allowed, condition: Expr, first: Seq<Stmt>, second: Seq<Stmt>) -> What
    ensures { plain_what result ≡ branch allowed (plain_expr condition) (plain_block first) (plain_block second) }
{
    match allowed {
        Allowed::All => What::If(condition, first, second),
        Allowed::Data => What::When(condition, first, second),
    }
}

// `if expr { .. } else { .. }`, or `when expr { .. } else { .. }` on data statements, where the `else` may be left out
#[tactic(auto, using(task_ast::proofs::Views::view), unfolding(crate::specs::inner::StatementReaders::read_branching))]
#[cycle(nesting)]
fn branching<'a>(
    source: Source<'_>,
    allowed: Allowed,
    room: u32,
    tokens: &'a [Token],
) -> Read<'a, Stmt>
    ensures { Gives (λ x. (plain_stmt x.0, x.1.now)) result (read_branching_at allowed source.entry.text.now room tokens.now) }
{
    let ((word, condition), rest) = worded(source, branch_word(allowed), room, tokens)?;
    let (first, rest) = match block(source, allowed, room, rest) {
        Ok(next) => next,
        Err(halt) => {
            discard(condition);
            return Err(halt);
        }
    };
    let (second, rest) = match else_block(source, allowed, room, rest) {
        Ok(next) => next,
        Err(halt) => {
            discard(condition);
            return Err(halt);
        }
    };
    let what = branch(allowed, condition, first, second);
    let line = word.line;
    Ok((Stmt { what, line }, rest))
}

// A data statement.
#[tactic(auto, unfolding(crate::specs::inner::StatementReaders::read_data_form, crate::specs::inner::StatementReaders::read_data_statement))]
#[cycle(nesting)]
fn data_statement<'a>(source: Source<'_>, room: u32, tokens: &'a [Token]) -> Read<'a, Stmt>
    ensures { Gives (λ x. (plain_stmt x.0, x.1.now)) result (read_data_statement source.entry.text.now room tokens.now) }
{
    if is_next(tokens, WHEN) {
        branching(source, Allowed::Data, room, tokens)
    } else {
        simple_data(source, room, tokens)
    }
}

// Whether a data statement begins with the token.
fn is_data_start(token: Token) -> bool
    ensures { result ≡ among data_starts token }
{
    is_of(token, REG)
        || is_of(token, READ)
        || is_of(token, WRITE)
        || is_of(token, PRINT)
        || is_of(token, WHEN)
}

// Whether a statement that is allowed begins with the token.
fn is_start(allowed: Allowed, token: Token) -> bool
    ensures { result ≡ among (starts allowed) token }
{
    match allowed {
        Allowed::All => {
            is_of(token, WHILE)
                || is_of(token, IF)
                || is_simple_control(token)
                || is_data_start(token)
        }
        Allowed::Data => is_data_start(token),
    }
}

// Whether a statement that is allowed is next.
fn begins_statement(allowed: Allowed, tokens: &[Token]) -> bool
    ensures { result ≡ begins (among (starts allowed)) tokens.now }
{
    match tokens {
        [] => false,
        [token, ..] => is_start(allowed, *token),
    }
}

// A statement.
#[tactic(auto, unfolding(crate::specs::inner::StatementReaders::read_any_form, crate::specs::inner::StatementReaders::read_statement))]
#[cycle(nesting)]
fn any_statement<'a>(source: Source<'_>, room: u32, tokens: &'a [Token]) -> Read<'a, Stmt>
    ensures { Gives (λ x. (plain_stmt x.0, x.1.now)) result (read_statement source.entry.text.now room tokens.now) }
{
    if is_next(tokens, WHILE) {
        looping(source, room, tokens)
    } else if is_next(tokens, IF) {
        branching(source, Allowed::All, room, tokens)
    } else if begins_simple_control(tokens) {
        simple_control(source, room, tokens)
    } else {
        data_statement(source, room, tokens)
    }
}

// A statement that is allowed.
#[cycle(nesting)]
fn statement<'a>(
    source: Source<'_>,
    allowed: Allowed,
    room: u32,
    tokens: &'a [Token],
) -> Read<'a, Stmt>
    ensures { Gives (λ x. (plain_stmt x.0, x.1.now)) result (read_allowed allowed source.entry.text.now room tokens.now) }
{
    match allowed {
        Allowed::All => any_statement(source, room, tokens),
        Allowed::Data => data_statement(source, room, tokens),
    }
}

/// As many statements as there are, with room for so many constructs that nest.
#[cycle(nesting)]
pub fn statements<'a>(
    source: Source<'_>,
    allowed: Allowed,
    room: u32,
    tokens: &'a [Token],
) -> Read<'a, Seq<Stmt>>
    ensures { Gives (λ x. (plain_stmts x.0, x.1.now)) result (repeat (among (starts allowed)) (read_allowed allowed source.entry.text.now room) tokens.now) }
{
    let mut statements = Seq::new(source.alloc);
    let mut rest = tokens;
    while begins_statement(allowed, rest) {
        let (next, after) = statement(source, allowed, room, rest)?;
        statements.push(next)?;
        rest = after;
    }
    Ok((statements, rest))
}
