// Data in expressions.

use gp_base::Name;
use task_ast::Expr;

/// Whether an expression names a data variable.
pub fn names_data(e: &Expr, name: &Name) -> bool {
    match e {
        Expr::Reg(other) => other.as_slice() == name.as_slice(),
        Expr::Neg(a) => names_data(a, name),
        Expr::Not(a) => names_data(a, name),
        Expr::Chain(first, links) => {
            if names_data(first, name) {
                return true;
            }
            for link in links.as_slice() {
                if names_data(&link.1, name) {
                    return true;
                }
            }
            false
        }
        Expr::Num(_) | Expr::Ctl(_) | Expr::Me | Expr::Rows(_) | Expr::Cell(_, _, _) => false,
    }
}
