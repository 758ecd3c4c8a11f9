// The condition that lets an index come to be outside of its array.

use crate::loops::{Place, loops_at};
use crate::statements::{is_among, put_controls, statements_of, value_of};
use gp_base::Name;
use run_counts::Loop;
use std::alloc::{AllocError, Global};
use task_ast::{Env, Expr, Op, Stmt, TaskText, What, apply, eval_d};
use text_pieces::Piece::{Number, Signed, Word};
use text_pieces::push_pieces;

// How often the variables are followed from which an index is computed.
const MOST_FOLLOWED: usize = 2;

/// A variable that is compared with a bound.
#[derive(Clone, Copy)]
pub struct Bound<'a> {
    name: &'a Name,
    op: Op,
    bound: &'a Expr,
}

// The operator with its sides turned round, of comparisons.
fn turned(op: Op) -> Option<Op> {
    match op {
        Op::Lt => Some(Op::Gt),
        Op::Le => Some(Op::Ge),
        Op::Gt => Some(Op::Lt),
        Op::Ge => Some(Op::Le),
        Op::Ne => Some(Op::Ne),
        _ => None,
    }
}

// How an operator of comparison is written.
fn sign(op: Op) -> &'static [u8] {
    match op {
        Op::Lt => b" < ",
        Op::Le => b" <= ",
        Op::Gt => b" > ",
        Op::Ge => b" >= ",
        _ => b" != ",
    }
}

// The variable that an expression is, where it is one of these.
fn control_among<'a>(names: &[&Name], e: &'a Expr) -> Option<&'a Name> {
    match e {
        Expr::Ctl(name) if is_among(names, name) => Some(name),
        _ => None,
    }
}

// The bound of a variable by the two sides of a comparison.
fn bound_by<'a>(names: &[&Name], left: &'a Expr, op: Op, right: &'a Expr) -> Option<Bound<'a>> {
    let turned = turned(op)?;
    if let Some(name) = control_among(names, left) {
        return Some(Bound {
            name,
            op,
            bound: right,
        });
    }
    Some(Bound {
        name: control_among(names, right)?,
        op: turned,
        bound: left,
    })
}

/// The first bound of one of these variables among the comparisons that a condition joins by `and`.
pub fn bound_in<'a>(names: &[&Name], condition: &'a Expr) -> Option<Bound<'a>> {
    let Expr::Chain(first, links) = condition else {
        return None;
    };
    if let [link] = links.as_slice() {
        let found = bound_by(names, first, link.0, &link.1);
        if found.is_some() {
            return found;
        }
    }
    let found = bound_in(names, first);
    if found.is_some() {
        return found;
    }
    for link in links.as_slice() {
        if link.0 != Op::And {
            return None;
        }
        let found = bound_in(names, &link.1);
        if found.is_some() {
            return found;
        }
    }
    None
}

// Whether an expression names a cell of a feed.
fn has_cell(e: &Expr) -> bool {
    match e {
        Expr::Cell(_, _, _) => true,
        Expr::Neg(a) | Expr::Not(a) => has_cell(a),
        Expr::Chain(first, links) => {
            if has_cell(first) {
                return true;
            }
            for link in links.as_slice() {
                if has_cell(&link.1) {
                    return true;
                }
            }
            false
        }
        Expr::Num(_) | Expr::Ctl(_) | Expr::Reg(_) | Expr::Me | Expr::Rows(_) => false,
    }
}

// Adds the variables from which those of these names are computed, but for those that only choose a row of a feed.
fn follow<'a>(names: &mut Vec<&'a Name>, statements: &[&'a Stmt]) -> Result<(), AllocError> {
    for stmt in statements {
        if let What::SetCtl(name, e) = &stmt.what {
            if is_among(names, name) && !has_cell(e) {
                put_controls(names, e)?;
            }
        }
    }
    Ok(())
}

/// These variables, and those from which they are computed by these statements, but for those that only choose a row of a
/// feed. The error is that memory is out.
pub fn followed<'a>(
    alloc: Global,
    names: &[&'a Name],
    statements: &[&'a Stmt],
) -> Result<Vec<&'a Name>, AllocError> {
    let mut followed = Vec::new(alloc);
    for name in names {
        followed.push(*name)?;
    }
    for _ in 0..MOST_FOLLOWED {
        follow(&mut followed, statements)?;
    }
    Ok(followed)
}

/// The last statement before a line, or in it, that sets one of these variables to what a feed holds: the variable, and its
/// line.
pub fn fed_by<'a>(names: &[&Name], statements: &[&'a Stmt], line: u32) -> Option<(&'a Name, u32)> {
    let mut found = None;
    for stmt in statements {
        if let What::SetCtl(name, e) = &stmt.what {
            if stmt.line <= line && is_among(names, name) && has_cell(e) {
                found = Some((name, stmt.line));
            }
        }
    }
    found
}

/// What a bound came to, what its variable did, and whether the comparison of both holds.
#[derive(Clone, Copy)]
pub struct Came<'a> {
    bound: Bound<'a>,
    limit: i64,
    value: i64,
    holds: bool,
}

/// What a bound and its variable came to, or none where the bound has no value.
pub fn came_to<'a>(env: &Env, bound: Bound<'a>) -> Option<Came<'a>> {
    let limit = eval_d(bound.bound, env)?;
    let value = value_of(env.names.as_slice(), bound.name);
    Some(Came {
        bound,
        limit,
        value,
        holds: apply(bound.op, value, limit) != 0,
    })
}

// The condition in a line itself, where it names a cell of a feed.
fn own_condition<'a>(statements: &[&'a Stmt], line: u32) -> Option<&'a Expr> {
    for stmt in statements {
        if stmt.line == line {
            return match &stmt.what {
                What::While(e, _) if has_cell(e) => Some(e),
                What::If(e, _, _) if has_cell(e) => Some(e),
                _ => None,
            };
        }
    }
    None
}

// The bound of one of these variables in the condition in a line itself, where it does not hold.
fn own_bound<'a>(
    names: &[&Name],
    statements: &[&'a Stmt],
    line: u32,
    env: &Env,
) -> Option<Came<'a>> {
    let condition = own_condition(statements, line)?;
    let came = came_to(env, bound_in(names, condition)?)?;
    if came.holds { None } else { Some(came) }
}

// The bound of one of these variables by the innermost of these loops that has one, with the line of the loop.
fn loop_bound<'a>(names: &[&Name], loops: &[Loop<'a>], env: &Env) -> Option<(u32, Came<'a>)> {
    let mut found = None;
    for around in loops {
        if let Some(bound) = bound_in(names, around.condition) {
            found = Some((around.line, bound));
        }
    }
    let (line, bound) = found?;
    Some((line, came_to(env, bound)?))
}

// Appends that a condition reads a cell also where its comparison does not hold.
fn push_own<'a>(text: &mut Vec<u8>, came: Came<'a>) -> Result<(), AllocError> {
    push_pieces(
        text,
        &[
            Word(b"hint: all parts of a condition are read, also where "),
            Word(came.bound.name.as_slice()),
            Word(sign(came.bound.op)),
            Signed(came.limit),
            Word(b" does not hold: read the cell after that test\n"),
        ],
    )
}

/// Appends while what the loop in a line goes on, and after a word what its variable came to. The error is that memory is
/// out.
pub fn push_loop<'a>(
    text: &mut Vec<u8>,
    before: &'a [u8],
    line: u32,
    came: Came<'a>,
    after: &'a [u8],
) -> Result<(), AllocError> {
    let name = Word(came.bound.name.as_slice());
    push_pieces(
        text,
        &[
            Word(before),
            Number(u64::from(line)),
            Word(b" goes on while "),
            name,
            Word(sign(came.bound.op)),
            Signed(came.limit),
            Word(after),
            name,
            Word(b" came to "),
            Signed(came.value),
            Word(b"\n"),
        ],
    )
}

// Appends how the condition of the innermost of these loops that has a bound lets an index come to be outside.
fn push_outside(
    text: &mut Vec<u8>,
    names: &[&Name],
    loops: &[Loop<'_>],
    env: &Env,
) -> Result<(), AllocError> {
    let Some((line, came)) = loop_bound(names, loops, env) else {
        return Ok(());
    };
    let after: &[u8] = if came.holds {
        b", and "
    } else {
        b", but after that test "
    };
    push_loop(text, b"hint: the loop in line ", line, came, after)
}

// Appends that a variable comes from a feed.
fn push_fed<'a>(text: &mut Vec<u8>, name: &'a Name, line: u32) -> Result<(), AllocError> {
    push_pieces(
        text,
        &[
            Word(b"hint: "),
            Word(name.as_slice()),
            Word(b" comes from a feed, in line "),
            Number(u64::from(line)),
            Word(
                b": test such a number before it is an index, or take 1 off where the file counts from 1\n",
            ),
        ],
    )
}

/// Appends which loop, by its condition, lets an index that names these variables come to be outside of its array in a line
/// of a task. The error is that memory is out.
pub fn push_bound<'a>(
    alloc: Global,
    text: &mut Vec<u8>,
    task: &'a TaskText,
    line: u32,
    names: &[&'a Name],
    env: &Env,
) -> Result<(), AllocError> {
    let statements = statements_of(alloc, task)?;
    if let Some((name, set)) = fed_by(names, &statements, line) {
        return push_fed(text, name, set);
    }
    let followed = followed(alloc, names, &statements)?;
    if let Some(came) = own_bound(&followed, &statements, line, env) {
        return push_own(text, came);
    }
    let loops = loops_at(alloc, task, Place::Statement(line))?;
    push_outside(text, &followed, &loops, env)
}
