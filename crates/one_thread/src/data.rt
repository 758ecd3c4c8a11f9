// Data statements.
ghost use Rattle.std.specs.Prelude.{◌≡◌, ℤ, ◌≤◌, List, map, is_some, option_map, unwrap_or, pos, zip, IfOk, OnOk, Some};
ghost use Rattle.std.specs.Ordering.{int_eq};
ghost use Rattle.task_ast.specs.meaning.Names.{slot, records_of, cells_in, cell_number};
ghost use Rattle.task_ast.specs.meaning.Value.{value, value_at, value_on, branch};
ghost use Rattle.task_ast.specs.meaning.Action.{of_registers};
ghost use Rattle.task_ast.specs.meaning.Control.{action, arm, all_of};
ghost use Rattle.task_ast.specs.View.{plain_expr, plain_exprs, plain_links, plain_what, plain_stmts, plain_block};
ghost use Rattle.task_ast.specs.meaning.Tree.{Name as PlainName};
ghost use Rattle.one_thread.specs.inner.Working.{setting_in, Works, ArmWorks, Notes, ArmNotes};
ghost use Rattle.lock_checker.specs.Accepted.{program_of};

use crate::cells::{record_number, same_name};
use crate::names::Names;
use crate::reckoning::Reckon;
use crate::variables::{number_at, register_place, set_number};
use gp_base::{Lines, Name, Nums, Seq};
use lock_checker::Checked;
use std::alloc::{AllocError, Global};
use task_ast::{Atom, Env, Expr, Op, Stmt, What, apply, eval_d, negate};

/// What a subthread works on: the registers of its thread and of a child that it
/// forked, the cells of all records, the lines that it printed, and the record cells that it named.
#[derive(Drop)]
pub struct Data {
    pub registers: Nums,
    pub child: Nums,
    pub cells: Nums,
    pub lines: Lines,
    pub named: Names,
}

/// The number that an atom stands for.
pub fn index_of(atom: &Atom, env: &Env) -> i64
    ensures { result ≡ Rattle.task_ast.specs.meaning.Control.index_of atom.now env.now }
{
    match atom {
        Atom::Num(v) => *v,
        Atom::Var(x) => variable_value(env, x),
    }
}

// The value of a control variable, or 0.
fn variable_value(env: &Env, x: &Name) -> i64
    ensures { result ≡ value_at env.now.names x.now }
{
    for pair in env.names.as_slice() {
        if same_name(x, &pair.0) {
            return pair.1;
        }
    }
    0
}

/// Whether an expression names no cell outside its feed.
pub fn has_value(e: &Expr, env: &Env) -> bool
    ensures { (registers : List PlainName) → result ≡ is_some (of_registers registers (plain_expr e.now) env.now) }
{
    eval_d(e, env).is_some()
}

/// The value of a data variable, or 0 where there is none of this name.
#[tactic(auto, using(task_ast::proofs::Terms::register_value))]
pub fn register_value(names: &[Name], x: &Name, registers: &[i64]) -> i64
    ensures { result ≡ value_at (zip names.now registers.now) x.now }
{
    match register_place(names, x) {
        Some(k) => number_at(registers, k),
        None => 0,
    }
}

/// The value of an expression that may name data variables. Cells of feeds are read by control values alone.
pub fn data_value(e: &Expr, names: &[Name], env: &Env, registers: &[i64]) -> Option<i64>
    ensures { result ≡ option_map (λ t. t registers.now) (of_registers names.now (plain_expr e.now) env.now) }
{
    value_in(e, names, env, registers)
}

// The value of an expression where the data variables have these values.
#[cycle(values)]
#[tactic(auto, using(task_ast::proofs::Views::view, task_ast::proofs::Values::value_on_none))]
fn value_in(e: &Expr, names: &[Name], env: &Env, registers: &[i64]) -> Option<i64>
    ensures { result ≡ value (plain_expr e.now) (record env.now { regs = zip names.now registers.now }) }
{
    match e {
        Expr::Reg(x) => Some(register_value(names, x, registers)),
        Expr::Neg(a) => Some(negate(value_in(a, names, env, registers)?)),
        Expr::Not(a) => Some(i64::from(value_in(a, names, env, registers)? == 0)),
        Expr::Chain(first, links) => {
            let value = value_in(first, names, env, registers)?;
            chain_value(links.as_slice(), value, names, env, registers)
        }
        Expr::Num(_) => eval_d(e, env),
        Expr::Ctl(_) => eval_d(e, env),
        Expr::Me => eval_d(e, env),
        Expr::Rows(_) => eval_d(e, env),
        Expr::Cell(_, _, _) => eval_d(e, env),
    }
}

// The value of a chain from here on, from the value so far.
#[cycle(values)]
#[tactic(auto, using(task_ast::proofs::Views::view, task_ast::proofs::Values::value_on_none))]
fn chain_value(
    links: &[(Op, Expr)],
    first: i64,
    names: &[Name],
    env: &Env,
    registers: &[i64],
) -> Option<i64>
    ensures { result ≡ value_on (plain_links links.now) (record env.now { regs = zip names.now registers.now }) (Some first) }
{
    let mut so_far = first;
    for link in links {
        so_far = apply(link.0, so_far, value_in(&link.1, names, env, registers)?);
    }
    Some(so_far)
}

// Whether all of these have values.
fn have_values(es: &[Expr], env: &Env) -> bool
    ensures { (registers : List PlainName) → result ≡ is_some (all_of (map (λ e. of_registers registers e env.now) (plain_exprs es.now))) }
{
    for e in es {
        if !has_value(e, env) {
            return false;
        }
    }
    true
}

/// Whether a data statement names cells that exist.
#[cycle(fitting)]
#[tactic(auto, using(task_ast::proofs::Views::view), unfolding(task_ast::specs::View::plain_what, task_ast::specs::View::plain_stmt))]
pub fn fits(what: &What, program: &Checked, env: &Env) -> bool
    requires { cells_in (records_of (program_of program.now).heads) ≤ 65536 }
    ensures { (registers : List PlainName) → result ≡ is_some (action (setting_in (program_of program.now) env.now) registers (plain_what what.now) env.now) }
{
    match what {
        What::SetReg(_, e) => has_value(e, env),
        What::Read(r, i, _) => { record_number(program, r, index_of(i, env)).is_some() }
        What::Write(r, i, e) => {
            if has_value(e, env) {
                record_number(program, r, index_of(i, env)).is_some()
            } else {
                false
            }
        }
        What::Print(es) => have_values(es.as_slice(), env),
        What::When(e, first, second) => {
            if has_value(e, env) {
                if all_fit(first.as_slice(), program, env) {
                    all_fit(second.as_slice(), program, env)
                } else {
                    false
                }
            } else {
                false
            }
        }
        _ => false,
    }
}

#[cycle(fitting)]
#[tactic(auto, using(task_ast::proofs::Views::view), unfolding(task_ast::specs::View::plain_what, task_ast::specs::View::plain_stmt))]
fn all_fit(block: &[Stmt], program: &Checked, env: &Env) -> bool
    requires { cells_in (records_of (program_of program.now).heads) ≤ 65536 }
    ensures { (registers : List PlainName) → result ≡ is_some (arm (setting_in (program_of program.now) env.now) registers (plain_block block.now) env.now) }
{
    for stmt in block {
        if !fits(&stmt.what, program, env) {
            return false;
        }
    }
    true
}

// The values of a printed line, or `None` where one has none.
fn line_of<R: Reckon>(
    alloc: Global,
    reckon: &mut R,
    es: &[Expr],
    names: &[Name],
    env: &Env,
    registers: &[i64],
) -> Result<Option<Nums>, AllocError>
    ensures { IfOk result (λ line. line ≡ option_map (map (λ t. t registers.now)) (all_of (map (λ e. of_registers names.now e env.now) (plain_exprs es.now)))) }
{
    let mut line = Seq::new(alloc);
    for e in es {
        match reckon.of_data(e, names, env, registers) {
            Some(v) => line.push(v)?,
            None => return Ok(None),
        }
    }
    Ok(Some(line))
}

/// The number of a data variable's register.
pub fn register_number(names: &[Name], x: &Name) -> usize
    ensures { result ≡ slot names.now x.now }
{
    register_place(names, x).unwrap_or(names.len())
}

/// Whether a value is 0.
pub fn is_zero(v: i64) -> bool
    ensures { result ≡ int_eq v (pos 0) }
{
    v == 0
}

/// The block of a choice that a value takes: the first unless it is 0.
pub fn taken<'a>(v: i64, first: &'a [Stmt], second: &'a [Stmt]) -> &'a [Stmt]
    ensures { result.now ≡ branch v first.now second.now }
{
    if v == 0 { second } else { first }
}

/// Records the record cells that a data statement names, of a choice those of both arms.
#[cycle(noting)]
#[tactic(auto, using(task_ast::proofs::Views::view), unfolding(task_ast::specs::View::plain_what, task_ast::specs::View::plain_stmt))]
pub fn note(what: &What, program: &Checked, env: &Env, named: &mut Names) -> Result<(), AllocError>
    requires { cells_in (records_of (program_of program.now).heads) ≤ 65536 }
    ensures { OnOk result ((registers : List PlainName) → Notes (action (setting_in (program_of program.now) env.now) registers (plain_what what.now) env.now) named.old named.new) }
{
    match what {
        What::Read(r, i, _) => {
            match record_number(program, r, index_of(i, env)) {
                Some(c) => named.read(c),
                None => Ok(()),
            }
        }
        What::Write(r, i, _) => {
            match record_number(program, r, index_of(i, env)) {
                Some(c) => named.write(c),
                None => Ok(()),
            }
        }
        What::When(_, first, second) => {
            note_all(first.as_slice(), program, env, named)?;
            note_all(second.as_slice(), program, env, named)
        }
        _ => Ok(()),
    }
}

#[cycle(noting)]
#[tactic(auto, using(task_ast::proofs::Views::view), unfolding(task_ast::specs::View::plain_what, task_ast::specs::View::plain_stmt))]
fn note_all(
    block: &[Stmt],
    program: &Checked,
    env: &Env,
    named: &mut Names,
) -> Result<(), AllocError>
    requires { cells_in (records_of (program_of program.now).heads) ≤ 65536 }
    ensures { OnOk result ((registers : List PlainName) → ArmNotes (arm (setting_in (program_of program.now) env.now) registers (plain_block block.now) env.now) named.old named.new) }
{
    for stmt in block {
        note(&stmt.what, program, env, named)?;
    }
    Ok(())
}

/// Does a data statement that names cells that exist.
#[cycle(performing)]
#[tactic(auto, using(task_ast::proofs::Views::view), unfolding(task_ast::specs::View::plain_what, task_ast::specs::View::plain_stmt))]
pub fn perform<R: Reckon>(
    alloc: Global,
    reckon: &mut R,
    what: &What,
    program: &Checked,
    names: &[Name],
    env: &Env,
    data: &mut Data,
) -> Result<(), AllocError>
    requires { cells_in (records_of (program_of program.now).heads) ≤ 65536 }
    ensures { OnOk result (Works (action (setting_in (program_of program.now) env.now) names.now (plain_what what.now) env.now) data.old data.new) }
{
    match what {
        What::SetReg(x, e) => {
            if let Some(v) = reckon.of_data(e, names, env, data.registers.as_slice()) {
                set_number(&mut data.registers, register_number(names, x), v);
            }
            Ok(())
        }
        What::Read(r, i, x) => {
            if let Some(c) = record_number(program, r, index_of(i, env)) {
                let v = number_at(data.cells.as_slice(), c as usize);
                set_number(&mut data.registers, register_number(names, x), v);
            }
            Ok(())
        }
        What::Write(r, i, e) => {
            if let Some(v) = reckon.of_data(e, names, env, data.registers.as_slice()) {
                if let Some(c) = record_number(program, r, index_of(i, env)) {
                    set_number(&mut data.cells, c as usize, v);
                }
            }
            Ok(())
        }
        What::Print(es) => {
            match line_of(
                alloc,
                reckon,
                es.as_slice(),
                names,
                env,
                data.registers.as_slice(),
            )? {
                Some(line) => data.lines.push(line),
                None => Ok(()),
            }
        }
        What::When(e, first, second) => {
            match reckon.of_data(e, names, env, data.registers.as_slice()) {
                None => Ok(()),
                Some(v) => {
                    let block = taken(v, first.as_slice(), second.as_slice());
                    perform_all(alloc, reckon, block, program, names, env, data)
                }
            }
        }
        _ => Ok(()),
    }
}

#[cycle(performing)]
#[tactic(auto, using(task_ast::proofs::Views::view), unfolding(task_ast::specs::View::plain_what, task_ast::specs::View::plain_stmt))]
fn perform_all<R: Reckon>(
    alloc: Global,
    reckon: &mut R,
    block: &[Stmt],
    program: &Checked,
    names: &[Name],
    env: &Env,
    data: &mut Data,
) -> Result<(), AllocError>
    requires { cells_in (records_of (program_of program.now).heads) ≤ 65536 }
    ensures { OnOk result (ArmWorks (arm (setting_in (program_of program.now) env.now) names.now (plain_block block.now) env.now) data.old data.new) }
{
    for stmt in block {
        reckon.at(stmt.line);
        perform(alloc, reckon, &stmt.what, program, names, env, data)?;
    }
    Ok(())
}
