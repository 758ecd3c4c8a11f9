// What stands in an expression: names that aren't declared, and data variables.
ghost use Rattle.std.specs.Prelude.{◌≡◌};
ghost use Rattle.std.specs.List.{list_any};
ghost use Rattle.task_ast.specs.meaning.Tree as plain;
ghost use Rattle.task_ast.specs.meaning.Declarations.{has_unknown, has_data, has_data_index};
ghost use Rattle.task_ast.specs.View.{plain_expr, plain_exprs, plain_links};
ghost use Rattle.lock_checker.specs.inner.Scopes.{scope_of, IsScope};
ghost use Rattle.lock_checker.specs.inner.Sought.{IsSought, found_in, found_among, inside_cell};

use crate::scope::{Scope, is_control, is_feed, is_register};
use gp_base::Name;
use task_ast::{Expr, Op};

// What is looked for in an expression.
#[derive(Clone, Copy)]
enum Sought<'w, 's, 'a> {
    // A name that isn't declared as what its place needs.
    Unknown(&'w Scope<'s, 'a>),
    // A data variable.
    Data,
    // A data variable in an index of a cell.
    DataIndex,
}

// What is looked for in the indexes of a cell.
fn inside_cell<'w, 's, 'a>(sought: &Sought<'w, 's, 'a>) -> Sought<'w, 's, 'a>
    requires { IsSought sought.now }
    ensures inside { result ≡ inside_cell sought.now }
    ensures kept { IsSought result }
{
    match sought {
        Sought::Unknown(scope) => Sought::Unknown(scope),
        Sought::Data | Sought::DataIndex => Sought::Data,
    }
}

fn finds_control(sought: &Sought, x: &Name) -> bool
    requires { IsSought sought.now }
    ensures { result ≡ found_in sought.now (plain.Ctl x.now) }
{
    match sought {
        Sought::Unknown(scope) => !is_control(scope, x),
        Sought::Data | Sought::DataIndex => false,
    }
}

fn finds_register(sought: &Sought, x: &Name) -> bool
    requires { IsSought sought.now }
    ensures { result ≡ found_in sought.now (plain.Reg x.now) }
{
    match sought {
        Sought::Unknown(scope) => !is_register(scope, x),
        Sought::Data => true,
        Sought::DataIndex => false,
    }
}

fn finds_feed(sought: &Sought, f: &Name) -> bool
    requires { IsSought sought.now }
    ensures { result ≡ found_in sought.now (plain.Rows f.now) }
{
    match sought {
        Sought::Unknown(scope) => !is_feed(scope, f),
        Sought::Data | Sought::DataIndex => false,
    }
}

#[cycle(search)]
#[tactic(auto, using(task_ast::proofs::Views::view))]
fn finds(sought: &Sought, e: &Expr) -> bool
    requires { IsSought sought.now }
    ensures { result ≡ found_in sought.now (plain_expr e.now) }
{
    match e {
        Expr::Num(_) | Expr::Me => false,
        Expr::Ctl(x) => finds_control(sought, x),
        Expr::Reg(x) => finds_register(sought, x),
        Expr::Rows(f) => finds_feed(sought, f),
        Expr::Cell(f, row, field) => {
            let inside = inside_cell(sought);
            finds_feed(sought, f) || (finds(&inside, row) || finds(&inside, field))
        }
        Expr::Neg(a) | Expr::Not(a) => finds(sought, a),
        Expr::Chain(first, others) => {
            finds(sought, first) || finds_among(sought, others.as_slice())
        }
    }
}

#[cycle(search)]
#[tactic(auto, using(task_ast::proofs::Views::view))]
fn finds_among(sought: &Sought, links: &[(Op, Expr)]) -> bool
    requires { IsSought sought.now }
    ensures { result ≡ found_among sought.now (plain_links links.now) }
{
    for link in links {
        if finds(sought, &link.1) {
            return true;
        }
    }
    false
}

fn finds_any(sought: &Sought, es: &[Expr]) -> bool
    requires { IsSought sought.now }
    ensures { result ≡ list_any (found_in sought.now) (plain_exprs es.now) }
{
    for e in es {
        if finds(sought, e) {
            return true;
        }
    }
    false
}

/// Whether a name of the expression isn't declared as what its place needs.
pub fn has_unknown(scope: &Scope, e: &Expr) -> bool
    requires { IsScope scope.now }
    ensures { result ≡ has_unknown (scope_of scope.now) (plain_expr e.now) }
{
    finds(&Sought::Unknown(scope), e)
}

/// Whether one of the expressions has such a name.
pub fn any_unknown(scope: &Scope, es: &[Expr]) -> bool
    requires { IsScope scope.now }
    ensures { result ≡ list_any (has_unknown (scope_of scope.now)) (plain_exprs es.now) }
{
    finds_any(&Sought::Unknown(scope), es)
}

/// Whether a data variable stands in the expression.
pub fn has_data(e: &Expr) -> bool
    ensures { result ≡ has_data (plain_expr e.now) }
{
    finds(&Sought::Data, e)
}

/// Whether a data variable stands in an index of a cell.
pub fn has_data_index(e: &Expr) -> bool
    ensures { result ≡ has_data_index (plain_expr e.now) }
{
    finds(&Sought::DataIndex, e)
}

/// Whether a data variable stands in an index of a cell of one of the expressions.
pub fn any_data_index(es: &[Expr]) -> bool
    ensures { result ≡ list_any has_data_index (plain_exprs es.now) }
{
    finds_any(&Sought::DataIndex, es)
}
