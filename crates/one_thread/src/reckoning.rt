// Who evaluates the expressions of a run.
ghost use Rattle.std.specs.Prelude.{◌≡◌, option_map};
ghost use Rattle.task_ast.specs.View.{plain_expr};
ghost use Rattle.task_ast.specs.meaning.Action.{of_registers};
ghost use Rattle.task_ast.specs.meaning.Value.{value};

use crate::data::data_value;
use gp_base::Name;
use task_ast::{Env, Expr, eval_d};

/// Who evaluates the expressions of a run, each once where its value counts. It may keep what it likes of them, and the
/// values are those of the definitions. A run asks for a fork's arguments where the subthread of the fork begins.
pub trait Reckon {
    /// The next subthread begins.
    fn begin(&mut self);

    /// The expressions from here on are those of the statement in this line.
    fn at(&mut self, line: u32);

    /// The value of an expression that names no data variable.
    fn of_control(&mut self, e: &Expr, env: &Env) -> Option<i64>
        ensures { result ≡ value (plain_expr e.now) env.now };

    /// The value of an expression that may name data variables.
    fn of_data(&mut self, e: &Expr, names: &[Name], env: &Env, registers: &[i64]) -> Option<i64>
        ensures { result ≡ option_map (λ t. t registers.now) (of_registers names.now (plain_expr e.now) env.now) };
}

/// Evaluates, and keeps nothing.
#[derive(Clone, Copy)]
pub struct Plainly;

impl Reckon for Plainly {
    fn begin(&mut self) {}

    fn at(&mut self, _line: u32) {}

    fn of_control(&mut self, e: &Expr, env: &Env) -> Option<i64> {
        eval_d(e, env)
    }

    fn of_data(&mut self, e: &Expr, names: &[Name], env: &Env, registers: &[i64]) -> Option<i64> {
        data_value(e, names, env, registers)
    }
}
