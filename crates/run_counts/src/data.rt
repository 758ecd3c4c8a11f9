// The values of expressions that may name data variables.
ghost use Rattle.std.specs.Prelude.{◌≡◌, ◌&&◌, Some, IfSome};
ghost use Rattle.task_ast.specs.meaning.Value.{value, value_on};
ghost use Rattle.task_ast.specs.View.{plain_expr, plain_links};
ghost use Rattle.exact_arithmetic.specs.Exact.{stays, stays_on};
ghost use Rattle.run_counts.specs.Data.{with_data};

use exact_arithmetic::{negated, operated, reckon};
use gp_base::Name;
use one_thread::register_value;
use task_ast::{Env, Expr, Op, eval_d};

/// The value of an expression that may name data variables. The flag falls where an operation on the way is not exact;
/// cells of feeds are read by control values alone.
#[cycle(values)]
#[tactic(auto, using(task_ast::proofs::Views::view, task_ast::proofs::Values::value_on_none))]
pub fn reckon_data(
    e: &Expr,
    names: &[Name],
    env: &Env,
    registers: &[i64],
    exact: &mut bool,
) -> Option<i64>
    ensures value { result ≡ value (plain_expr e.now) (with_data names.now registers.now env.now) }
    ensures flag { IfSome result (λ v. exact.new ≡ (exact.old && stays (plain_expr e.now) (with_data names.now registers.now env.now))) }
{
    match e {
        Expr::Reg(x) => Some(register_value(names, x, registers)),
        Expr::Neg(a) => {
            let value = reckon_data(a, names, env, registers, exact)?;
            Some(negated(value, exact))
        }
        Expr::Not(a) => {
            let value = reckon_data(a, names, env, registers, exact)?;
            Some(i64::from(value == 0))
        }
        Expr::Chain(first, links) => {
            let first = reckon_data(first, names, env, registers, exact)?;
            chain_data(links.as_slice(), first, names, env, registers, exact)
        }
        Expr::Num(value) => Some(*value),
        Expr::Ctl(_) => eval_d(e, env),
        Expr::Me => eval_d(e, env),
        Expr::Rows(_) => eval_d(e, env),
        Expr::Cell(_, _, _) => reckon(e, env, exact),
    }
}

// The value of a chain from here on, from the value so far.
#[cycle(values)]
#[tactic(auto, using(task_ast::proofs::Views::view, task_ast::proofs::Values::value_on_none))]
fn chain_data(
    links: &[(Op, Expr)],
    first: i64,
    names: &[Name],
    env: &Env,
    registers: &[i64],
    exact: &mut bool,
) -> Option<i64>
    ensures value { result ≡ value_on (plain_links links.now) (with_data names.now registers.now env.now) (Some first) }
    ensures flag { IfSome result (λ v. exact.new ≡ (exact.old && stays_on (plain_links links.now) (with_data names.now registers.now env.now) (Some first))) }
{
    let mut so_far = first;
    for link in links {
        let value = reckon_data(&link.1, names, env, registers, exact)?;
        so_far = operated(link.0, so_far, value, exact);
    }
    Some(so_far)
}
