// Expressions over names to expressions over numbers.

ghost use Rattle.std.specs.Prelude.{◌≡◌, IfOk};
ghost use Rattle.task_ast.specs.View.{plain_expr, plain_links, plain_exprs};
ghost use Rattle.task_code.specs.Lowering as lowering;
ghost use Rattle.task_code.specs.Lowering.{calc, operands_of, calcs};
ghost use Rattle.task_code.specs.View.{plain_calc, plain_operands, plain_calcs};
ghost use Rattle.task_code.specs.inner.Scopes.{scope_here, IsScope};

use crate::instrs::Calc;
use crate::scope::{Scope, control, feed_place, register_place};
use gp_base::Seq;
use std::alloc::{AllocError, Global};
use task_ast::{Expr, Op};

// The register of this number, or 0 where there is none.
#[tactic(auto, using(crate::proofs::Views::view))]
fn register_calc(register: Option<usize>) -> Calc
    ensures { plain_calc result ≡ lowering.register_calc register }
{
    match register {
        Some(register) => Calc::Reg(register),
        None => Calc::Const(0),
    }
}

// The rows of the feed of this number, or 0 where there is none.
#[tactic(auto, using(crate::proofs::Views::view))]
fn rows_calc(feed: Option<usize>) -> Calc
    ensures { plain_calc result ≡ lowering.rows_calc feed }
{
    match feed {
        Some(feed) => Calc::Rows(feed),
        None => Calc::Const(0),
    }
}

// A cell of the feed of this number, or no value where there is none.
#[tactic(auto, using(crate::proofs::Views::view))]
fn cell_calc(feed: Option<usize>, row: Box<Calc>, field: Box<Calc>) -> Calc
    ensures { plain_calc result ≡ lowering.cell_calc feed (plain_calc row.value) (plain_calc field.value) }
{
    match feed {
        Some(feed) => Calc::Cell(feed, row, field),
        None => Calc::NoValue,
    }
}

/// An expression over the numbers of its names.
#[cycle(calculation)]
#[tactic(auto, using(task_ast::proofs::Views::view, crate::proofs::Views::view))]
pub fn lower_expr(alloc: Global, scope: &Scope, e: &Expr) -> Result<Calc, AllocError>
    requires { IsScope scope.now }
    ensures { IfOk result (λ c. plain_calc c ≡ calc (scope_here scope.now) (plain_expr e.now)) }
{
    match e {
        Expr::Num(v) => Ok(Calc::Const(*v)),
        Expr::Ctl(x) => Ok(Calc::Ctl(control(scope, x))),
        Expr::Reg(x) => Ok(register_calc(register_place(scope, x))),
        Expr::Me => Ok(Calc::Me),
        Expr::Rows(f) => Ok(rows_calc(feed_place(scope, f))),
        Expr::Cell(f, row, field) => {
            let row = lower_boxed(alloc, scope, row)?;
            let field = lower_boxed(alloc, scope, field)?;
            Ok(cell_calc(feed_place(scope, f), row, field))
        }
        Expr::Neg(a) => Ok(Calc::Neg(lower_boxed(alloc, scope, a)?)),
        Expr::Not(a) => Ok(Calc::Not(lower_boxed(alloc, scope, a)?)),
        Expr::Chain(first, others) => {
            let first = lower_boxed(alloc, scope, first)?;
            let others = lower_members(alloc, scope, others.as_slice())?;
            Ok(Calc::Chain(first, others))
        }
    }
}

// The same in a box.
#[cycle(calculation)]
fn lower_boxed(alloc: Global, scope: &Scope, e: &Expr) -> Result<Box<Calc>, AllocError>
    requires { IsScope scope.now }
    ensures { IfOk result (λ c. plain_calc c.value ≡ calc (scope_here scope.now) (plain_expr e.now)) }
{
    let calc = lower_expr(alloc, scope, e)?;
    Ok(Box::new(alloc, calc)?)
}

// The further members of a chain.
#[cycle(calculation)]
fn lower_members(
    alloc: Global,
    scope: &Scope,
    others: &[(Op, Expr)],
) -> Result<Seq<(Op, Calc)>, AllocError>
    requires { IsScope scope.now }
    ensures { IfOk result (λ members. plain_operands members ≡ operands_of (scope_here scope.now) (plain_links others.now)) }
{
    let mut members = Seq::new(alloc);
    for other in others {
        members.push((other.0, lower_expr(alloc, scope, &other.1)?))?;
    }
    Ok(members)
}

/// Several expressions.
pub fn lower_exprs(alloc: Global, scope: &Scope, es: &[Expr]) -> Result<Seq<Calc>, AllocError>
    requires { IsScope scope.now }
    ensures { IfOk result (λ cs. plain_calcs cs ≡ calcs (scope_here scope.now) (plain_exprs es.now)) }
{
    let mut all = Seq::new(alloc);
    for e in es {
        all.push(lower_expr(alloc, scope, e)?)?;
    }
    Ok(all)
}
