// Blocks of statements to instructions.

ghost use Rattle.std.specs.Prelude.{◌≡◌, ◌<◌, [], ◌∷◌, ◌++◌, length, slice_get, slice_set, unwrap_or, option_map, map, IfOk, OnOk};
ghost use Rattle.task_ast.specs.meaning.Names.{slot, task_named, task_number};
ghost use Rattle.task_ast.specs.View.{plain_expr, plain_exprs, plain_what, plain_stmt, plain_block};
ghost use Rattle.task_code.specs.Instructions.{At, Do, NoValue as no_value};
ghost use Rattle.task_code.specs.Lowering as lowering;
ghost use Rattle.task_code.specs.Lowering.{deed, control_calcs, gifts, forking, calc, if_code, while_code, what_code, block_code, stmt_code};
ghost use Rattle.task_code.specs.View.{plain_calc, plain_calcs, plain_gifts, plain_forking, plain_does, plain_instrs};
ghost use Rattle.task_code.specs.inner.Patched.{ended_while, ended_if};
ghost use Rattle.task_code.specs.inner.Scopes.{scope_here, IsScope};

use crate::expressions::lower_expr;
use crate::instrs::{Calc, Does, Forking, Instr};
use crate::scope::{Scope, barrier_place, cell_index, control, lock_array, register, task_place};
use crate::statements::{lower_deed, no_deed};
use crate::variables::slot;
use gp_base::{Name, Seq};
use std::alloc::{AllocError, Global};
use task_ast::{Expr, Param, Stmt, What};

/// A number of 32 bits. A greater one counts as out of memory.
pub fn small(number: usize) -> Result<u32, AllocError>
    ensures { IfOk result (λ n. n ≡ number) }
{
    match u32::try_from(number) {
        Ok(number) => Ok(number),
        Err(_) => Err(AllocError),
    }
}

// One more instruction.
fn put(code: &mut Seq<Instr>, line: u32, does: Does) -> Result<(), AllocError>
    ensures { OnOk result (plain_instrs code.new ≡ plain_instrs code.old ++ At line (plain_does does) ∷ []) }
{
    code.push(Instr { does, line })?;
    Ok(())
}

// Writes an instruction whose jump is now known.
fn patch(code: &mut Seq<Instr>, at: usize, line: u32, does: Does)
    requires { at < length code.old }
    ensures { plain_instrs code.new ≡ slice_set (plain_instrs code.old) at (At line (plain_does does)) }
{
    code.set(at, Instr { does, line });
}

// A barrier of this number, or an index fault where there is none.
fn barrier_code(place: Option<usize>) -> Result<Does, AllocError>
    ensures { IfOk result (λ d. plain_does d ≡ lowering.barrier_code place) }
{
    match place {
        Some(place) => Ok(Does::Barrier(small(place)?)),
        None => Ok(Does::Do(no_deed())),
    }
}

// The number of the variable that takes a value, where there is one.
fn into_slot(names: &[Name], into: &Option<Name>) -> Option<usize>
    ensures { result ≡ option_map (slot names.now) into.now }
{
    match into {
        Some(x) => Some(slot(names, x)),
        None => None,
    }
}

// The control arguments of a fork of a task with these parameters.
fn lower_controls(
    alloc: Global,
    scope: &Scope,
    params: &[Param],
    es: &[Expr],
) -> Result<Seq<Calc>, AllocError>
    requires { IsScope scope.now }
    ensures { IfOk result (λ cs. plain_calcs cs ≡ control_calcs (scope_here scope.now) params.now (plain_exprs es.now)) }
{
    let mut calcs = Seq::new(alloc);
    for (i, e) in es.iter().enumerate() {
        if let Some(Param::Ctl(_)) = params.get(i) {
            calcs.push(lower_expr(alloc, scope, e)?)?;
        }
    }
    Ok(calcs)
}

// The data arguments of a fork of a task with these parameters, whose registers have these names.
fn lower_gifts(
    alloc: Global,
    scope: &Scope,
    registers: &[Name],
    params: &[Param],
    es: &[Expr],
) -> Result<Seq<(usize, Calc)>, AllocError>
    requires { IsScope scope.now }
    ensures { IfOk result (λ made. plain_gifts made ≡ gifts (scope_here scope.now) registers.now params.now (plain_exprs es.now)) }
{
    let mut made = Seq::new(alloc);
    for (i, e) in es.iter().enumerate() {
        if let Some(Param::Reg(x)) = params.get(i) {
            made.push((slot(registers, x), lower_expr(alloc, scope, e)?))?;
        }
    }
    Ok(made)
}

// A fork of the task of this number.
fn known_forking(
    alloc: Global,
    scope: &Scope,
    task: usize,
    es: &[Expr],
    into: Option<usize>,
) -> Result<Forking, AllocError>
    requires scope { IsScope scope.now }
    requires within { task < length (scope_here scope.now).program.tasks }
    ensures { IfOk result (λ f. plain_forking f ≡ forking (scope_here scope.now) (slice_get (scope_here scope.now).program.tasks task) task (plain_exprs es.now) into) }
{
    let params = scope.checked.program().tasks.as_slice()[task]
        .params
        .as_slice();
    let registers = scope.index.registers[task].as_slice();
    let controls = lower_controls(alloc, scope, params, es)?;
    let gifts = lower_gifts(alloc, scope, registers, params, es)?;
    Ok(Forking {
        task: small(task)?,
        registers: registers.len(),
        controls,
        gifts,
        into,
    })
}

// A fork of no task, which ends at an index fault.
#[tactic(auto, using(crate::proofs::Views::calc_NoValue))]
fn no_forking(alloc: Global, into: Option<usize>) -> Result<Forking, AllocError>
    ensures { IfOk result (λ f. plain_forking f ≡ record { task = 0; registers = 0; controls = no_value ∷ []; gifts = []; into = into }) }
{
    let mut controls = Seq::new(alloc);
    controls.push(Calc::NoValue)?;
    Ok(Forking {
        task: 0,
        registers: 0,
        controls,
        gifts: Seq::new(alloc),
        into,
    })
}

// A fork of the task of a name.
fn lower_fork(
    alloc: Global,
    scope: &Scope,
    t: &Name,
    es: &[Expr],
    into: Option<usize>,
) -> Result<Forking, AllocError>
    requires { IsScope scope.now }
    ensures { IfOk result (λ f. plain_forking f ≡ forking (scope_here scope.now) (task_named (scope_here scope.now).program t.now) (unwrap_or (task_number (scope_here scope.now).program t.now) 0) (plain_exprs es.now) into) }
{
    match task_place(scope, t) {
        Some(task) => known_forking(alloc, scope, task, es, into),
        None => no_forking(alloc, into),
    }
}

// Ends a loop whose body stands after the instruction at `start`: that one jumps to the test, which leads back to the
// body.
fn end_while(
    alloc: Global,
    scope: &Scope,
    code: &mut Seq<Instr>,
    line: u32,
    start: usize,
    e: &Expr,
) -> Result<(), AllocError>
    requires scope { IsScope scope.now }
    requires within { start < length code.old }
    ensures { OnOk result (plain_instrs code.new ≡ ended_while line (calc (scope_here scope.now) (plain_expr e.now)) start (plain_instrs code.old)) }
{
    let size = code.len() - start - 1;
    let test = lower_expr(alloc, scope, e)?;
    patch(code, start, line, Does::GoOn(size));
    put(code, line, Does::Again(test, size))
}

// Ends a choice whose first side stands after the instruction at `start`, and its second side after that at `middle`:
// the one jumps to the second side where the test is 0, the other over the second side.
fn end_if(
    alloc: Global,
    scope: &Scope,
    code: &mut Seq<Instr>,
    line: u32,
    start: usize,
    middle: usize,
    e: &Expr,
) -> Result<(), AllocError>
    requires scope { IsScope scope.now }
    requires sides { start < middle }
    requires within { middle < length code.old }
    ensures { OnOk result (plain_instrs code.new ≡ ended_if line (calc (scope_here scope.now) (plain_expr e.now)) start middle (plain_instrs code.old)) }
{
    let size = code.len() - middle - 1;
    let test = lower_expr(alloc, scope, e)?;
    patch(code, start, line, Does::Unless(test, middle - start));
    patch(code, middle, line, Does::GoOn(size));
    Ok(())
}

/// Adds the instructions of a block.
#[cycle(control)]
#[tactic(auto, using(task_ast::proofs::Views::view))]
pub fn lower_block(
    alloc: Global,
    scope: &Scope,
    code: &mut Seq<Instr>,
    block: &[Stmt],
) -> Result<(), AllocError>
    requires { IsScope scope.now }
    ensures { OnOk result (plain_instrs code.new ≡ plain_instrs code.old ++ block_code (scope_here scope.now) (plain_block block.now)) }
{
    for s in block {
        lower_statement(alloc, scope, code, s)?;
    }
    Ok(())
}

// Adds the instructions of a statement.
#[cycle(control)]
#[tactic(auto, using(task_ast::proofs::Views::view))]
fn lower_statement(
    alloc: Global,
    scope: &Scope,
    code: &mut Seq<Instr>,
    s: &Stmt,
) -> Result<(), AllocError>
    requires { IsScope scope.now }
    ensures { OnOk result (plain_instrs code.new ≡ plain_instrs code.old ++ stmt_code (scope_here scope.now) (plain_stmt s.now)) }
{
    let line = s.line;
    match &s.what {
        What::While(e, body) => {
            let start = code.len();
            put(code, line, Does::GoOn(0))?;
            lower_block(alloc, scope, code, body.as_slice())?;
            end_while(alloc, scope, code, line, start, e)
        }
        What::If(e, first, second) => {
            let start = code.len();
            put(code, line, Does::GoOn(0))?;
            lower_block(alloc, scope, code, first.as_slice())?;
            let middle = code.len();
            put(code, line, Does::GoOn(0))?;
            lower_block(alloc, scope, code, second.as_slice())?;
            end_if(alloc, scope, code, line, start, middle, e)
        }
        What::SetCtl(x, e) => {
            let does = Does::Assign(control(scope, x), lower_expr(alloc, scope, e)?);
            put(code, line, does)
        }
        What::Lock(a, i) => {
            let does = Does::Lock(lock_array(scope, a), cell_index(scope, i));
            put(code, line, does)
        }
        What::Unlock(a, i) => {
            let does = Does::Unlock(lock_array(scope, a), cell_index(scope, i));
            put(code, line, does)
        }
        What::Fork(t, es, x) => {
            let into = into_slot(scope.controls, x);
            let forking = lower_fork(alloc, scope, t, es.as_slice(), into)?;
            put(code, line, Does::Fork(forking))
        }
        What::Join(e, x) => {
            let into = into_slot(scope.registers, x);
            let does = Does::Join(lower_expr(alloc, scope, e)?, into);
            put(code, line, does)
        }
        What::Barrier(b) => {
            let does = barrier_code(barrier_place(scope, b))?;
            put(code, line, does)
        }
        What::Settle(x, c) => {
            let from = small(register(scope, x))?;
            let into = small(control(scope, c))?;
            put(code, line, Does::Settle(from, into))
        }
        What::SetReg(..) | What::Read(..) | What::Write(..) | What::Print(..) | What::When(..) => {
            let does = Does::Do(lower_deed(alloc, scope, &s.what)?);
            put(code, line, does)
        }
    }
}
