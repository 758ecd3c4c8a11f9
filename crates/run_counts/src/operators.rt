// Where expressions have operators that may not be exact, and whether they divide by 0.

use crate::data::reckon_data;
use gp_base::Name;
use std::alloc::{AllocError, Global};
use task_ast::{Env, Expr, Op, Program, Stmt, What};

/// Operators: those that divide, or all that may divide by 0 or leave 64 bits.
#[derive(Clone, Copy)]
pub enum Sought {
    Divisions,
    Arithmetic,
}

fn is_division(op: Op) -> bool {
    matches!(op, Op::Div | Op::Rem)
}

fn is_arithmetic(op: Op) -> bool {
    matches!(op, Op::Add | Op::Sub | Op::Mul | Op::Div | Op::Rem)
}

impl Sought {
    fn is_operator(self, op: Op) -> bool {
        match self {
            Sought::Divisions => is_division(op),
            Sought::Arithmetic => is_arithmetic(op),
        }
    }

    // Whether a minus before an operand is one of them.
    fn is_minus(self) -> bool {
        matches!(self, Sought::Arithmetic)
    }
}

// Whether an expression has one of these operators.
fn has_operator(e: &Expr, sought: Sought) -> bool {
    match e {
        Expr::Neg(a) => sought.is_minus() || has_operator(a, sought),
        Expr::Not(a) => has_operator(a, sought),
        Expr::Cell(_, row, field) => has_operator(row, sought) || has_operator(field, sought),
        Expr::Chain(first, links) => {
            if has_operator(first, sought) {
                return true;
            }
            for link in links.as_slice() {
                if sought.is_operator(link.0) || has_operator(&link.1, sought) {
                    return true;
                }
            }
            false
        }
        Expr::Num(_) | Expr::Ctl(_) | Expr::Reg(_) | Expr::Me | Expr::Rows(_) => false,
    }
}

fn some_have(es: &[Expr], sought: Sought) -> bool {
    for e in es {
        if has_operator(e, sought) {
            return true;
        }
    }
    false
}

// Whether a statement has one of these operators outside of its blocks.
fn has_one(what: &What, sought: Sought) -> bool {
    match what {
        What::SetCtl(_, e) => has_operator(e, sought),
        What::SetReg(_, e) => has_operator(e, sought),
        What::While(e, _) => has_operator(e, sought),
        What::If(e, _, _) => has_operator(e, sought),
        What::When(e, _, _) => has_operator(e, sought),
        What::Join(e, _) => has_operator(e, sought),
        What::Write(_, _, e) => has_operator(e, sought),
        What::Fork(_, es, _) => some_have(es.as_slice(), sought),
        What::Print(es) => some_have(es.as_slice(), sought),
        What::Lock(_, _)
        | What::Unlock(_, _)
        | What::Read(_, _, _)
        | What::Barrier(_)
        | What::Settle(_, _) => false,
    }
}

// Marks the lines of these statements, and of those in their blocks, that have one of these operators.
fn mark(lines: &mut Vec<bool>, block: &[Stmt], sought: Sought) {
    for stmt in block {
        if has_one(&stmt.what, sought) {
            if let Some(line) = lines.get_mut(stmt.line as usize) {
                *line = true;
            }
        }
        match &stmt.what {
            What::While(_, body) => mark(lines, body.as_slice(), sought),
            What::If(_, first, second) => {
                mark(lines, first.as_slice(), sought);
                mark(lines, second.as_slice(), sought);
            }
            What::When(_, first, second) => {
                mark(lines, first.as_slice(), sought);
                mark(lines, second.as_slice(), sought);
            }
            _ => {}
        }
    }
}

/// For so many lines whether a statement in it has one of these operators. The error is that memory is out.
pub fn lines_with(
    alloc: Global,
    program: &Program,
    sought: Sought,
    count: usize,
) -> Result<Vec<bool>, AllocError> {
    let mut lines = Vec::from_elem(alloc, false, count)?;
    for task in program.tasks.as_slice() {
        mark(&mut lines, task.body.as_slice(), sought);
    }
    Ok(lines)
}

// Whether an expression is 0.
fn is_zero(e: &Expr, names: &[Name], env: &Env, registers: &[i64]) -> bool {
    let mut exact = true;
    reckon_data(e, names, env, registers, &mut exact) == Some(0)
}

/// Whether a division in an expression that has a value is one by 0.
pub fn divides_by_zero(e: &Expr, names: &[Name], env: &Env, registers: &[i64]) -> bool {
    match e {
        Expr::Neg(a) => divides_by_zero(a, names, env, registers),
        Expr::Not(a) => divides_by_zero(a, names, env, registers),
        Expr::Cell(_, row, field) => {
            divides_by_zero(row, names, env, registers)
                || divides_by_zero(field, names, env, registers)
        }
        Expr::Chain(first, links) => {
            if divides_by_zero(first, names, env, registers) {
                return true;
            }
            for link in links.as_slice() {
                if divides_by_zero(&link.1, names, env, registers) {
                    return true;
                }
                if is_division(link.0) && is_zero(&link.1, names, env, registers) {
                    return true;
                }
            }
            false
        }
        Expr::Num(_) | Expr::Ctl(_) | Expr::Reg(_) | Expr::Me | Expr::Rows(_) => false,
    }
}
