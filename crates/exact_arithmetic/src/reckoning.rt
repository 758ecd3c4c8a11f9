// The values of expressions, which lower a flag where their arithmetic is not exact.
ghost use Rattle.std.specs.Prelude.{◌≡◌, ◌&&◌, Some, IfSome};
ghost use Rattle.task_ast.specs.meaning.Value.{value, value_on};
ghost use Rattle.task_ast.specs.View.{plain_expr, plain_links};
ghost use Rattle.exact_arithmetic.specs.Exact.{stays, stays_on};

use crate::operating::{negated, operated};
use gp_base::Name;
use task_ast::{Env, Expr, Op, eval_in};

/// The value of an expression, as `eval_d` gives it. The flag falls where an operation on the way is not exact.
pub fn reckon(e: &Expr, env: &Env, exact: &mut bool) -> Option<i64>
    ensures value { result ≡ value (plain_expr e.now) env.now }
    ensures flag { IfSome result (λ v. exact.new ≡ (exact.old && stays (plain_expr e.now) env.now)) }
{
    reckon_in(e, env, env.regs.as_slice(), exact)
}

// The value of an expression with these data variables, as `eval_in` gives it.
#[cycle(reckon)]
#[tactic(auto, using(task_ast::proofs::Views::view, task_ast::proofs::Values::value_on_none))]
fn reckon_in(e: &Expr, env: &Env, regs: &[(Name, i64)], exact: &mut bool) -> Option<i64>
    ensures value { result ≡ value (plain_expr e.now) (record env.now { regs = regs.now }) }
    ensures flag { IfSome result (λ v. exact.new ≡ (exact.old && stays (plain_expr e.now) (record env.now { regs = regs.now }))) }
{
    match e {
        Expr::Neg(a) => Some(negated(reckon_in(a, env, regs, exact)?, exact)),
        Expr::Not(a) => Some(i64::from(reckon_in(a, env, regs, exact)? == 0)),
        Expr::Chain(first, links) => {
            let first = reckon_in(first, env, regs, exact)?;
            reckon_links(first, links.as_slice(), env, regs, exact)
        }
        Expr::Cell(_, row, field) => {
            reckon_in(row, env, &[], exact)?;
            reckon_in(field, env, &[], exact)?;
            eval_in(e, env, regs)
        }
        Expr::Num(value) => Some(*value),
        Expr::Ctl(_) => eval_in(e, env, regs),
        Expr::Reg(_) => eval_in(e, env, regs),
        Expr::Me => eval_in(e, env, regs),
        Expr::Rows(_) => eval_in(e, env, regs),
    }
}

// The value of a chain from here on, from the value so far.
#[cycle(reckon)]
#[tactic(auto, using(task_ast::proofs::Views::view, task_ast::proofs::Values::value_on_none))]
fn reckon_links(
    first: i64,
    links: &[(Op, Expr)],
    env: &Env,
    regs: &[(Name, i64)],
    exact: &mut bool,
) -> Option<i64>
    ensures value { result ≡ value_on (plain_links links.now) (record env.now { regs = regs.now }) (Some first) }
    ensures flag { IfSome result (λ v. exact.new ≡ (exact.old && stays_on (plain_links links.now) (record env.now { regs = regs.now }) (Some first))) }
{
    let mut so_far = first;
    for link in links {
        let value = reckon_in(&link.1, env, regs, exact)?;
        so_far = operated(link.0, so_far, value, exact);
    }
    Some(so_far)
}
