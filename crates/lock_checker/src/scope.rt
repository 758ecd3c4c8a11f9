// What the names of a task's statements stand for.
ghost use Rattle.std.specs.Prelude.{◌≡◌, option_map};
ghost use Rattle.std.specs.Option.{option_copied};
ghost use Rattle.task_ast.specs.meaning.Names.{is_name, task_named};
ghost use Rattle.task_ast.specs.meaning.Declarations.{is_control, is_register, is_feed, is_lock, is_atom};
ghost use Rattle.task_ast.specs.meaning.Check.{array_over, is_barrier};
ghost use Rattle.task_ast.specs.View.{plain_task, plain_program};
ghost use Rattle.lock_checker.specs.inner.Scopes.{scope_of, IsScope};

use crate::index::ProgramIndex;
use crate::variables::Variables;
use gp_base::Name;
use task_ast::{Atom, Program, TaskText};

/// A program with its index, and the task whose statements are visited with its variables.
#[derive(Clone, Copy)]
pub struct Scope<'s, 'a> {
    pub program: &'a Program,
    pub task: &'a TaskText,
    pub index: &'s ProgramIndex<'a>,
    pub variables: &'s Variables,
}

pub fn same_name(x: &Name, y: &Name) -> bool
    ensures { result ≡ is_name x.now y.now }
{
    x.as_slice() == y.as_slice()
}

/// Whether a lock array has this name.
pub fn is_lock(scope: &Scope, x: &Name) -> bool
    requires { IsScope scope.now }
    ensures { result ≡ is_lock (scope_of scope.now) x.now }
{
    scope.index.locks.get(x).is_some()
}

/// The lock array that the record of this name stands under.
pub fn array_over<'a>(scope: &Scope<'_, 'a>, r: &Name) -> Option<&'a Name>
    requires { IsScope scope.now }
    ensures { option_copied result ≡ array_over (scope_of scope.now) r.now }
{
    scope.index.arrays.get(r)
}

pub fn is_barrier(scope: &Scope, x: &Name) -> bool
    requires { IsScope scope.now }
    ensures { result ≡ is_barrier (scope_of scope.now) x.now }
{
    scope.index.barriers.get(x).is_some()
}

pub fn is_feed(scope: &Scope, x: &Name) -> bool
    requires { IsScope scope.now }
    ensures { result ≡ is_feed (scope_of scope.now) x.now }
{
    scope.index.feeds.get(x).is_some()
}

pub fn task_named<'a>(scope: &Scope<'_, 'a>, x: &Name) -> Option<&'a TaskText>
    requires { IsScope scope.now }
    ensures { option_map plain_task (option_copied result) ≡ task_named (plain_program scope.now.program.now) x.now }
{
    scope.index.tasks.get(x)
}

/// Whether the task has a control variable of this name.
pub fn is_control(scope: &Scope, x: &Name) -> bool
    requires { IsScope scope.now }
    ensures { result ≡ is_control (scope_of scope.now) x.now }
{
    scope.variables.controls.get(x).is_some()
}

/// Whether the task has a data variable of this name, `$ret` among them.
pub fn is_register(scope: &Scope, x: &Name) -> bool
    requires { IsScope scope.now }
    ensures { result ≡ is_register (scope_of scope.now) x.now }
{
    scope.variables.has_data(x)
}

/// Whether an atom is a number or a control variable of the task.
pub fn is_atom(scope: &Scope, index: &Atom) -> bool
    requires { IsScope scope.now }
    ensures { result ≡ is_atom (scope_of scope.now) index.now }
{
    match index {
        Atom::Num(_) => true,
        Atom::Var(x) => is_control(scope, x),
    }
}
