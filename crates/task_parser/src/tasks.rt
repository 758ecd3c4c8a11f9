// Tasks: parameters, lines of variables, and statements.
ghost use Rattle.std.specs.Prelude.{◌≡◌, ◌<◌, [], ◌∷◌, map};
ghost use Rattle.task_ast.specs.View.{plain_task};
ghost use Rattle.task_parser.specs.inner.Classes.{among};
ghost use Rattle.task_parser.specs.inner.Reading.{begins, repeat, read_after, read_some, read_separated};
ghost use Rattle.task_parser.specs.inner.StatementReaders.{read_list};
ghost use Rattle.task_parser.specs.inner.ProgramReaders.{param_starts, read_param, read_var_line, read_task_head, read_task};
ghost use Rattle.task_parser.specs.inner.Gives.{Gives};

use crate::classes::*;
use crate::halt::Read;
use crate::next::{expect, expect_name, expect_register, expect_titled, is_next, is_of, past};
use crate::source::Source;
use crate::statements::{Allowed, statements};
use crate::token::Token;
use gp_base::{Name, Seq};
use task_ast::{Param, TaskText, VarLine};

// A control variable or a data variable.
#[tactic(auto, unfolding(crate::specs::inner::ProgramReaders::read_param))]
fn param<'a>(source: Source<'_>, tokens: &'a [Token]) -> Read<'a, Param>
    ensures { Gives (λ x. (x.0, x.1.now)) result (read_param source.entry.text.now tokens.now) }
{
    if is_next(tokens, NAME) {
        let (name, rest) = expect_name(source, tokens)?;
        return Ok((Param::Ctl(name), rest));
    }
    let (register, rest) = expect_register(source, tokens)?;
    Ok((Param::Reg(register), rest))
}

// A comma and a variable.
fn next_param<'a>(source: Source<'_>, tokens: &'a [Token]) -> Read<'a, Param>
    ensures { Gives (λ x. (x.0, x.1.now)) result (read_after COMMA (read_param source.entry.text.now) tokens.now) }
{
    let rest = past(tokens, COMMA)?;
    param(source, rest)
}

// Variables with commas between them.
fn params<'a>(source: Source<'_>, tokens: &'a [Token]) -> Read<'a, Seq<Param>>
    ensures { Gives (λ x. (x.0, x.1.now)) result (read_separated COMMA (read_param source.entry.text.now) tokens.now) }
{
    let (first, after) = param(source, tokens)?;
    let mut params = Seq::new(source.alloc);
    params.push(first)?;
    let mut rest = after;
    while is_next(rest, COMMA) {
        let (next, after) = next_param(source, rest)?;
        params.push(next)?;
        rest = after;
    }
    Ok((params, rest))
}

// Whether a variable is next.
fn begins_param(tokens: &[Token]) -> bool
    ensures { result ≡ begins (among param_starts) tokens.now }
{
    let [token, ..] = tokens else {
        return false;
    };
    is_of(*token, NAME) || is_of(*token, REG)
}

// Variables with commas between them, or none.
#[tactic(auto, unfolding(crate::specs::inner::StatementReaders::read_list))]
fn param_list<'a>(source: Source<'_>, tokens: &'a [Token]) -> Read<'a, Seq<Param>>
    ensures { Gives (λ x. (x.0, x.1.now)) result (read_list param_starts (read_param source.entry.text.now) tokens.now) }
{
    if begins_param(tokens) {
        return params(source, tokens);
    }
    Ok((Seq::new(source.alloc), tokens))
}

// One line of declared variables.
#[tactic(auto, unfolding(crate::specs::inner::ProgramReaders::read_var_line))]
fn var_line<'a>(source: Source<'_>, tokens: &'a [Token]) -> Read<'a, VarLine>
    ensures { Gives (λ x. (x.0, x.1.now)) result (read_var_line source.entry.text.now tokens.now) }
{
    let (word, rest) = expect(tokens, VAR)?;
    let (names, rest) = params(source, rest)?;
    let rest = past(rest, SEMICOLON)?;
    let line = word.line;
    Ok((VarLine { names, line }, rest))
}

// As many lines of declared variables as there are.
fn var_lines<'a>(source: Source<'_>, tokens: &'a [Token]) -> Read<'a, Seq<VarLine>>
    ensures { Gives (λ x. (x.0, x.1.now)) result (repeat (among (VAR ∷ [])) (read_var_line source.entry.text.now) tokens.now) }
{
    let mut lines = Seq::new(source.alloc);
    let mut rest = tokens;
    while is_next(rest, VAR) {
        let (next, after) = var_line(source, rest)?;
        lines.push(next)?;
        rest = after;
    }
    Ok((lines, rest))
}

// `task NAME ( params ) {`, where the parameters may be left out
#[tactic(auto, unfolding(crate::specs::inner::ProgramReaders::read_task_head))]
fn task_head<'a>(source: Source<'_>, tokens: &'a [Token]) -> Read<'a, ((Token, Name), Seq<Param>)>
    ensures { Gives (λ x. (x.0, x.1.now)) result (read_task_head source.entry.text.now tokens.now) }
{
    let (head, rest) = expect_titled(source, TASK, OPEN_PAREN, tokens)?;
    let (params, rest) = param_list(source, rest)?;
    let rest = past(rest, CLOSE_PAREN)?;
    let rest = past(rest, OPEN_BRACE)?;
    Ok(((head, params), rest))
}

// A task, with room for so many constructs that nest.
#[tactic(auto, unfolding(crate::specs::inner::ProgramReaders::read_task))]
fn task<'a>(source: Source<'_>, room: u32, tokens: &'a [Token]) -> Read<'a, TaskText>
    ensures { Gives (λ x. (plain_task x.0, x.1.now)) result (read_task source.entry.text.now room tokens.now) }
{
    let (((word, name), params), rest) = task_head(source, tokens)?;
    let (vars, rest) = var_lines(source, rest)?;
    let (body, rest) = statements(source, Allowed::All, room, rest)?;
    let rest = past(rest, CLOSE_BRACE)?;
    let line = word.line;
    Ok((
        TaskText {
            name,
            params,
            vars,
            body,
            line,
        },
        rest,
    ))
}

/// One task or more.
pub fn tasks<'a>(source: Source<'_>, room: u32, tokens: &'a [Token]) -> Read<'a, Seq<TaskText>>
    ensures { Gives (λ x. (map plain_task x.0, x.1.now)) result (read_some (among (TASK ∷ [])) (read_task source.entry.text.now room) tokens.now) }
{
    let (first, after) = task(source, room, tokens)?;
    let mut tasks = Seq::new(source.alloc);
    tasks.push(first)?;
    let mut rest = after;
    while is_next(rest, TASK) {
        let (next, after) = task(source, room, rest)?;
        tasks.push(next)?;
        rest = after;
    }
    Ok((tasks, rest))
}
