// Whether a name is declared as what a statement needs.
ghost use Rattle.std.specs.Prelude.{◌≡◌, ◌++◌, option_map, is_some};
ghost use Rattle.std.specs.Option.{option_copied};
ghost use Rattle.task_ast.specs.meaning.Tree.{Name as PlainName};
ghost use Rattle.task_ast.specs.meaning.Names.{is_name, is_among, named, locks_of, arrays_over, barriers_of, feeds_of, controls, datas, controls_of, registers_of, declared_in, task_named};
ghost use Rattle.task_ast.specs.View.{plain_task, plain_program};
ghost use Rattle.rule_blame.specs.Uses.{is_declared, params_of};
ghost use Rattle.rule_blame.specs.Views.{scope_of};

use crate::uses::Role;
use gp_base::Name;
use task_ast::{Head, Param, Program, TaskText, VarLine, natural};

/// A program, and the task whose statements are looked at.
#[derive(Clone, Copy)]
pub struct Scope<'a> {
    pub program: &'a Program,
    pub task: &'a TaskText,
}

pub fn same_name(x: &Name, y: &Name) -> bool
    ensures { result ≡ is_name x.now y.now }
{
    x.as_slice() == y.as_slice()
}

/// The size of the lock array of this name.
pub fn lock_size(heads: &[Head], x: &Name) -> Option<u64>
    ensures { result ≡ named x.now (locks_of heads.now) }
{
    for head in heads {
        if let Head::LockHead { name, size, .. } = head {
            if same_name(x, name) {
                return Some(natural(*size));
            }
        }
    }
    None
}

/// The lock array that the record of this name stands under.
pub fn array_over<'a>(heads: &'a [Head], x: &Name) -> Option<&'a Name>
    ensures { option_copied result ≡ named x.now (arrays_over heads.now) }
{
    for head in heads {
        if let Head::RecHead { name, by, .. } = head {
            if same_name(x, name) {
                return Some(by);
            }
        }
    }
    None
}

fn is_barrier(heads: &[Head], x: &Name) -> bool
    ensures { result ≡ is_some (named x.now (barriers_of heads.now)) }
{
    for head in heads {
        if let Head::BarrierHead { name, .. } = head {
            if same_name(x, name) {
                return true;
            }
        }
    }
    false
}

fn is_feed(heads: &[Head], x: &Name) -> bool
    ensures { result ≡ is_among x.now (feeds_of heads.now) }
{
    for head in heads {
        if let Head::FeedHead { name, .. } = head {
            if same_name(x, name) {
                return true;
            }
        }
    }
    false
}

/// The first task of this name.
pub fn task_named<'a>(program: &'a Program, x: &[u8]) -> Option<&'a TaskText>
    ensures { option_map plain_task (option_copied result) ≡ task_named (plain_program program.now) x.now }
{
    for task in program.tasks.as_slice() {
        if x == task.name.as_slice() {
            return Some(task);
        }
    }
    None
}

/// The parameters of the first task of this name, or none where there is no such task.
pub fn params_of<'a>(program: &'a Program, x: &Name) -> &'a [Param]
    ensures { result.now ≡ params_of (task_named (plain_program program.now) x.now) }
{
    match task_named(program, x.as_slice()) {
        Some(task) => task.params.as_slice(),
        None => &[],
    }
}

fn has_control(params: &[Param], x: &Name) -> bool
    ensures { result ≡ is_among x.now (controls params.now) }
{
    for param in params {
        if let Param::Ctl(name) = param {
            if same_name(x, name) {
                return true;
            }
        }
    }
    false
}

/// Whether a data variable of this name is among the parameters.
pub fn has_data(params: &[Param], x: &[u8]) -> bool
    ensures { result ≡ is_among x.now (datas params.now) }
{
    for param in params {
        if let Param::Reg(name) = param {
            if x == name.as_slice() {
                return true;
            }
        }
    }
    false
}

// Whether a control variable of this name is among those of the lines.
#[tactic(auto, using(crate::proofs::NameLemmas::among_parts))]
fn lines_have_control(lines: &[VarLine], x: &Name) -> bool
    ensures { result ≡ is_among x.now (controls (declared_in lines.now)) }
{
    for vars in lines {
        if has_control(vars.names.as_slice(), x) {
            return true;
        }
    }
    false
}

/// Whether a data variable of this name is among those of the lines.
#[tactic(auto, using(crate::proofs::NameLemmas::among_parts))]
pub fn lines_have_data(lines: &[VarLine], x: &[u8]) -> bool
    ensures { result ≡ is_among x.now (datas (declared_in lines.now)) }
{
    for vars in lines {
        if has_data(vars.names.as_slice(), x) {
            return true;
        }
    }
    false
}

// Whether the task has a control variable of this name.
#[tactic(auto, using(crate::proofs::NameLemmas::among_parts))]
fn is_control(task: &TaskText, x: &Name) -> bool
    ensures { result ≡ is_among x.now (controls_of (plain_task task.now)) }
{
    has_control(task.params.as_slice(), x) || lines_have_control(task.vars.as_slice(), x)
}

/// Whether the task declares a data variable of this name.
#[tactic(auto, using(crate::proofs::NameLemmas::among_parts))]
pub fn declares_data(task: &TaskText, x: &[u8]) -> bool
    ensures { result ≡ is_among x.now (datas (task.now.params ++ declared_in task.now.vars)) }
{
    has_data(task.params.as_slice(), x) || lines_have_data(task.vars.as_slice(), x)
}

// Whether the task has a data variable of this name, `$ret` among them.
fn is_register(task: &TaskText, x: &Name) -> bool
    ensures { result ≡ is_among x.now (registers_of (plain_task task.now)) }
{
    x.as_slice() == b"ret".as_slice() || declares_data(task, x.as_slice())
}

/// Whether the name is declared as that.
pub fn is_declared(scope: Scope<'_>, role: Role, x: &Name) -> bool
    ensures { result ≡ is_declared (scope_of scope.entry) role x.now }
{
    let heads = scope.program.heads.as_slice();
    match role {
        Role::LockArray => lock_size(heads, x).is_some(),
        Role::Record => array_over(heads, x).is_some(),
        Role::Feed => is_feed(heads, x),
        Role::Barrier => is_barrier(heads, x),
        Role::Task => task_named(scope.program, x.as_slice()).is_some(),
        Role::Control => is_control(scope.task, x),
        Role::Data => is_register(scope.task, x),
    }
}
