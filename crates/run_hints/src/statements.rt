// The statements of a task, and the variables that expressions name.

use gp_base::Name;
use std::alloc::{AllocError, Global};
use task_ast::{Expr, Stmt, TaskText, What};

// Puts the statements of a block after others, each before those of its own blocks.
fn put_statements<'a>(all: &mut Vec<&'a Stmt>, block: &'a [Stmt]) -> Result<(), AllocError> {
    for stmt in block {
        all.push(stmt)?;
        match &stmt.what {
            What::While(_, body) => put_statements(all, body.as_slice())?,
            What::If(_, first, second) | What::When(_, first, second) => {
                put_statements(all, first.as_slice())?;
                put_statements(all, second.as_slice())?;
            }
            _ => {}
        }
    }
    Ok(())
}

/// The statements of a block in text order, those in its blocks too. The error is that memory is out.
pub fn statements_in<'a>(alloc: Global, block: &'a [Stmt]) -> Result<Vec<&'a Stmt>, AllocError> {
    let mut all = Vec::new(alloc);
    put_statements(&mut all, block)?;
    Ok(all)
}

/// The statements of a task in text order. The error is that memory is out.
pub fn statements_of<'a>(alloc: Global, task: &'a TaskText) -> Result<Vec<&'a Stmt>, AllocError> {
    statements_in(alloc, task.body.as_slice())
}

/// Whether a name is one of these.
pub fn is_among(names: &[&Name], name: &Name) -> bool {
    for other in names {
        if other.as_slice() == name.as_slice() {
            return true;
        }
    }
    false
}

/// Puts a name after others, unless it is one of them. The error is that memory is out.
pub fn put_name<'a>(names: &mut Vec<&'a Name>, name: &'a Name) -> Result<(), AllocError> {
    if !is_among(names, name) {
        names.push(name)?;
    }
    Ok(())
}

/// Puts the control variables that an expression names after others, each once. The error is that memory is out.
pub fn put_controls<'a>(names: &mut Vec<&'a Name>, e: &'a Expr) -> Result<(), AllocError> {
    match e {
        Expr::Ctl(name) => put_name(names, name),
        Expr::Cell(_, row, field) => {
            put_controls(names, row)?;
            put_controls(names, field)
        }
        Expr::Neg(a) | Expr::Not(a) => put_controls(names, a),
        Expr::Chain(first, links) => {
            put_controls(names, first)?;
            for link in links.as_slice() {
                put_controls(names, &link.1)?;
            }
            Ok(())
        }
        _ => Ok(()),
    }
}

/// Puts the data variables that an expression names after others, each once. The error is that memory is out.
pub fn put_registers<'a>(names: &mut Vec<&'a Name>, e: &'a Expr) -> Result<(), AllocError> {
    match e {
        Expr::Reg(name) => put_name(names, name),
        Expr::Neg(a) | Expr::Not(a) => put_registers(names, a),
        Expr::Chain(first, links) => {
            put_registers(names, first)?;
            for link in links.as_slice() {
                put_registers(names, &link.1)?;
            }
            Ok(())
        }
        _ => Ok(()),
    }
}

/// The value of a control variable, or 0.
pub fn value_of(names: &[(Name, i64)], name: &Name) -> i64 {
    for pair in names {
        if pair.0.as_slice() == name.as_slice() {
            return pair.1;
        }
    }
    0
}
