// Data statements to what they do.

ghost use Rattle.std.specs.Prelude.{◌≡◌, IfOk};
ghost use Rattle.task_ast.specs.View.{plain_what, plain_block};
ghost use Rattle.task_code.specs.Lowering as lowering;
ghost use Rattle.task_code.specs.Lowering.{deed, arm};
ghost use Rattle.task_code.specs.View.{plain_deed, plain_arm};
ghost use Rattle.task_code.specs.inner.Scopes.{scope_here, IsScope};

use crate::expressions::{lower_expr, lower_exprs};
use crate::instrs::{Calc, Deed};
use crate::scope::{Scope, cell_index, record_array, register};
use gp_base::Seq;
use std::alloc::{AllocError, Global};
use task_ast::{Stmt, What};

/// A statement that always ends at an index fault.
#[tactic(auto, using(crate::proofs::Views::view))]
pub fn no_deed() -> Deed
    ensures { plain_deed result ≡ lowering.no_deed }
{
    Deed::SetReg(0, Calc::NoValue)
}

/// What a data statement does.
#[cycle(deed)]
#[tactic(auto, using(task_ast::proofs::Views::view, crate::proofs::Views::view), unfolding(task_ast::specs::View::plain_what, task_ast::specs::View::plain_stmt))]
pub fn lower_deed(alloc: Global, scope: &Scope, what: &What) -> Result<Deed, AllocError>
    requires { IsScope scope.now }
    ensures { IfOk result (λ d. plain_deed d ≡ deed (scope_here scope.now) (plain_what what.now)) }
{
    match what {
        What::SetReg(x, e) => Ok(Deed::SetReg(register(scope, x), lower_expr(alloc, scope, e)?)),
        What::Read(r, i, x) => Ok(Deed::Read(
            record_array(scope, r),
            cell_index(scope, i),
            register(scope, x),
        )),
        What::Write(r, i, e) => Ok(Deed::Write(
            record_array(scope, r),
            cell_index(scope, i),
            lower_expr(alloc, scope, e)?,
        )),
        What::Print(es) => Ok(Deed::Print(lower_exprs(alloc, scope, es.as_slice())?)),
        What::When(e, first, second) => {
            let first = lower_arm(alloc, scope, first.as_slice())?;
            let second = lower_arm(alloc, scope, second.as_slice())?;
            Ok(Deed::When(lower_expr(alloc, scope, e)?, first, second))
        }
        _ => Ok(no_deed()),
    }
}

// What the statements of an arm do.
#[cycle(deed)]
#[tactic(auto, using(task_ast::proofs::Views::view))]
fn lower_arm(alloc: Global, scope: &Scope, block: &[Stmt]) -> Result<Seq<Deed>, AllocError>
    requires { IsScope scope.now }
    ensures { IfOk result (λ ds. plain_arm ds ≡ arm (scope_here scope.now) (plain_block block.now)) }
{
    let mut deeds = Seq::new(alloc);
    for s in block {
        deeds.push(lower_deed(alloc, scope, &s.what)?)?;
    }
    Ok(deeds)
}
