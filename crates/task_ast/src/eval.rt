// The values of expressions.
ghost use Rattle.std.specs.Prelude.{◌≡◌, IsFalse, pos, unwrap_or, option_map, Some};
ghost use Rattle.std.specs.Option.{option_copied};
ghost use Rattle.gp_base.specs.meaning.Feeds.{rows_in};
ghost use Rattle.task_ast.specs.meaning.Declarations.{has_data};
ghost use Rattle.task_ast.specs.meaning.Value.{value, value_on};
ghost use Rattle.task_ast.specs.View.{plain_expr, plain_links};

use crate::env::{find_named, find_value};
use crate::operate::{apply, negate};
use crate::{Env, Expr, Op};
use gp_base::{Feed, Name};

/// The value of a control expression, which names no data variable. `None` exactly where evaluation names a cell
/// outside its feed.
pub fn eval_c(e: &Expr, env: &Env) -> Option<i64>
    requires { IsFalse (has_data (plain_expr e.now)) }
    ensures { result ≡ value (plain_expr e.now) env.now }
{
    eval_d(e, env)
}

/// The value of an expression. `None` exactly where evaluation names a cell outside its feed.
pub fn eval_d(e: &Expr, env: &Env) -> Option<i64>
    ensures { result ≡ value (plain_expr e.now) env.now }
{
    eval_in(e, env, env.regs.as_slice())
}

/// The value of an expression with these data variables in place of those of `env`. The place of a cell is read without
/// data variables.
#[cycle(eval)]
#[tactic(auto, using(crate::proofs::Views::view, crate::proofs::Values::value_on_none))]
pub fn eval_in(e: &Expr, env: &Env, regs: &[(Name, i64)]) -> Option<i64>
    ensures { result ≡ value (plain_expr e.now) (record env.now { regs = regs.now }) }
{
    match e {
        Expr::Num(v) => Some(*v),
        Expr::Ctl(x) => Some(find_value(env.names.as_slice(), x)),
        Expr::Reg(x) => Some(find_value(regs, x)),
        Expr::Me => Some(i64::from(env.me.0)),
        Expr::Rows(f) => Some(rows_of(find_named(env.feeds.as_slice(), f))),
        Expr::Cell(f, row, field) => {
            let row = eval_in(row, env, &[])?;
            let field = eval_in(field, env, &[])?;
            find_named(env.feeds.as_slice(), f)?.cell(row, field)
        }
        Expr::Neg(a) => Some(negate(eval_in(a, env, regs)?)),
        Expr::Not(a) => Some(i64::from(eval_in(a, env, regs)? == 0)),
        Expr::Chain(first, links) => eval_links(
            eval_in(first, env, regs)?,
            links.as_slice(),
            env,
            regs,
        ),
    }
}

// The value of a chain from here on, from the value so far.
#[cycle(eval)]
#[tactic(auto, using(crate::proofs::Views::view, crate::proofs::Values::value_on_none))]
fn eval_links(first: i64, links: &[(Op, Expr)], env: &Env, regs: &[(Name, i64)]) -> Option<i64>
    ensures { result ≡ value_on (plain_links links.now) (record env.now { regs = regs.now }) (Some first) }
{
    let mut so_far = first;
    for link in links {
        so_far = apply(link.0, so_far, eval_in(&link.1, env, regs)?);
    }
    Some(so_far)
}

// The number of rows of a feed, or 0 where there is none.
fn rows_of(feed: Option<&Feed>) -> i64
    ensures { result ≡ pos (unwrap_or (option_map rows_in (option_copied feed.entry)) 0) }
{
    feed.map_or(0, Feed::rows)
}
