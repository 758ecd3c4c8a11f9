// The rules at the beginning of a statement.
ghost use Rattle.std.specs.Prelude.{◌≡◌, [], zip, length, not, ◌||◌, false};
ghost use Rattle.std.specs.Option.{option_map_or};
ghost use Rattle.std.specs.List.{list_any};
ghost use Rattle.task_ast.specs.meaning.Tree as plain;
ghost use Rattle.task_ast.specs.meaning.Check.{fails_at};
ghost use Rattle.task_ast.specs.meaning.Declarations.{has_unknown, is_control, is_register, is_misplaced};
ghost use Rattle.task_ast.specs.meaning.Held.{is_index};
ghost use Rattle.task_ast.specs.View.{plain_expr, plain_exprs, plain_what};
ghost use Rattle.lock_checker.specs.inner.Scopes.{scope_of, IsScope};
ghost use Rattle.lock_checker.specs.inner.Pairs.{pairs_in};
ghost use Rattle.lock_checker.specs.inner.Faults.{lowest};

use crate::expressions::{any_data_index, any_unknown, has_data, has_data_index, has_unknown};
use crate::held::Pairs;
use crate::pair::Pair;
use crate::scope::{
    Scope, array_over, is_atom, is_barrier, is_control, is_lock, is_register, task_named,
};
use gp_base::Name;
use task_ast::{Atom, CheckKind, Expr, Param, What};

fn set_control_rule<'a>(
    scope: &Scope<'_, 'a>,
    x: &'a Name,
    e: &Expr,
    held: &Pairs<'a>,
) -> Option<CheckKind>
    requires { IsScope scope.now }
    ensures { result ≡ lowest (fails_at (scope_of scope.now) (plain.SetCtl x.now (plain_expr e.now)) (pairs_in held.now)) }
{
    if !is_control(scope, x) || has_unknown(scope, e) {
        Some(CheckKind::UnknownName)
    } else if has_data(e) {
        Some(CheckKind::DataInControl)
    } else if held.has_index(x) {
        Some(CheckKind::IndexChangedWhileHeld)
    } else {
        None
    }
}

// A condition of `while` or `if`.
fn condition_rule(scope: &Scope, e: &Expr) -> Option<CheckKind>
    requires { IsScope scope.now }
    ensures { result ≡ lowest (fails_at (scope_of scope.now) (plain.While (plain_expr e.now) plain.Nothing) []) }
{
    if has_unknown(scope, e) {
        Some(CheckKind::UnknownName)
    } else if has_data(e) {
        Some(CheckKind::DataInControl)
    } else {
        None
    }
}

fn lock_rule<'a>(
    scope: &Scope<'_, 'a>,
    array: &'a Name,
    index: &'a Atom,
    held: &Pairs<'a>,
) -> Option<CheckKind>
    requires { IsScope scope.now }
    ensures { result ≡ lowest (fails_at (scope_of scope.now) (plain.Lock array.now index.now) (pairs_in held.now)) }
{
    if !is_lock(scope, array) || !is_atom(scope, index) {
        Some(CheckKind::UnknownName)
    } else if held.has(&Pair::new(array, index)) {
        Some(CheckKind::HeldTwice)
    } else {
        None
    }
}

fn unlock_rule<'a>(
    scope: &Scope<'_, 'a>,
    array: &'a Name,
    index: &'a Atom,
    held: &Pairs<'a>,
) -> Option<CheckKind>
    requires { IsScope scope.now }
    ensures { result ≡ lowest (fails_at (scope_of scope.now) (plain.Unlock array.now index.now) (pairs_in held.now)) }
{
    if !is_lock(scope, array) || !is_atom(scope, index) {
        Some(CheckKind::UnknownName)
    } else if !held.has(&Pair::new(array, index)) {
        Some(CheckKind::NotHeld)
    } else {
        None
    }
}

fn is_misplaced(param: &Param, e: &Expr) -> bool
    ensures { result ≡ is_misplaced (param.now, plain_expr e.now) }
{
    match param {
        Param::Ctl(_) => has_data(e),
        Param::Reg(_) => has_data_index(e),
    }
}

fn any_misplaced(params: &[Param], arguments: &[Expr]) -> bool
    requires { length params.now ≡ length arguments.now }
    ensures { result ≡ list_any is_misplaced (zip params.now (plain_exprs arguments.now)) }
{
    for (i, param) in params.iter().enumerate() {
        if is_misplaced(param, &arguments[i]) {
            return true;
        }
    }
    false
}

fn into_control_unknown(scope: &Scope, into: &Option<Name>) -> bool
    requires { IsScope scope.now }
    ensures { result ≡ option_map_or (λ x. not (is_control (scope_of scope.now) x)) into.now false }
{
    match into {
        Some(x) => !is_control(scope, x),
        None => false,
    }
}

fn into_register_unknown(scope: &Scope, into: &Option<Name>) -> bool
    requires { IsScope scope.now }
    ensures { result ≡ option_map_or (λ x. not (is_register (scope_of scope.now) x)) into.now false }
{
    match into {
        Some(x) => !is_register(scope, x),
        None => false,
    }
}

fn into_held_index<'a>(held: &Pairs<'a>, into: &'a Option<Name>) -> bool
    ensures { result ≡ option_map_or (λ x. list_any (is_index x) (pairs_in held.now)) into.now false }
{
    match into {
        Some(x) => held.has_index(x),
        None => false,
    }
}

fn fork_unknown(scope: &Scope, arguments: &[Expr], into: &Option<Name>) -> bool
    requires { IsScope scope.now }
    ensures { result ≡ (list_any (has_unknown (scope_of scope.now)) (plain_exprs arguments.now) || option_map_or (λ x. not (is_control (scope_of scope.now) x)) into.now false) }
{
    any_unknown(scope, arguments) || into_control_unknown(scope, into)
}

fn fork_rule<'a>(
    scope: &Scope<'_, 'a>,
    t: &Name,
    arguments: &[Expr],
    into: &'a Option<Name>,
    held: &Pairs<'a>,
) -> Option<CheckKind>
    requires { IsScope scope.now }
    ensures { result ≡ lowest (fails_at (scope_of scope.now) (plain.Fork t.now (plain_exprs arguments.now) into.now) (pairs_in held.now)) }
{
    let unknown = fork_unknown(scope, arguments, into);
    match task_named(scope, t) {
        None => Some(CheckKind::UnknownName),
        Some(task) => {
            if unknown {
                Some(CheckKind::UnknownName)
            } else if task.params.len() != arguments.len() {
                Some(CheckKind::WrongCount)
            } else if any_misplaced(task.params.as_slice(), arguments) {
                Some(CheckKind::DataInControl)
            } else if into_held_index(held, into) {
                Some(CheckKind::IndexChangedWhileHeld)
            } else {
                None
            }
        }
    }
}

fn join_rule(scope: &Scope, e: &Expr, into: &Option<Name>) -> Option<CheckKind>
    requires { IsScope scope.now }
    ensures { result ≡ lowest (fails_at (scope_of scope.now) (plain.Join (plain_expr e.now) into.now) []) }
{
    if has_unknown(scope, e) || into_register_unknown(scope, into) {
        Some(CheckKind::UnknownName)
    } else if has_data(e) {
        Some(CheckKind::DataInControl)
    } else {
        None
    }
}

fn barrier_rule(scope: &Scope, b: &Name) -> Option<CheckKind>
    requires { IsScope scope.now }
    ensures { result ≡ lowest (fails_at (scope_of scope.now) (plain.Barrier b.now) []) }
{
    if is_barrier(scope, b) {
        None
    } else {
        Some(CheckKind::UnknownName)
    }
}

fn settle_rule<'a>(
    scope: &Scope<'_, 'a>,
    from: &Name,
    into: &'a Name,
    held: &Pairs<'a>,
) -> Option<CheckKind>
    requires { IsScope scope.now }
    ensures { result ≡ lowest (fails_at (scope_of scope.now) (plain.Settle from.now into.now) (pairs_in held.now)) }
{
    if !is_register(scope, from) || !is_control(scope, into) {
        Some(CheckKind::UnknownName)
    } else if held.has_index(into) {
        Some(CheckKind::IndexChangedWhileHeld)
    } else {
        None
    }
}

fn set_register_rule(scope: &Scope, x: &Name, e: &Expr) -> Option<CheckKind>
    requires { IsScope scope.now }
    ensures { result ≡ lowest (fails_at (scope_of scope.now) (plain.SetReg x.now (plain_expr e.now)) []) }
{
    if !is_register(scope, x) || has_unknown(scope, e) {
        Some(CheckKind::UnknownName)
    } else if has_data_index(e) {
        Some(CheckKind::DataInControl)
    } else {
        None
    }
}

fn read_rule<'a>(
    scope: &Scope<'_, 'a>,
    r: &Name,
    index: &'a Atom,
    into: &Name,
    held: &Pairs<'a>,
) -> Option<CheckKind>
    requires { IsScope scope.now }
    ensures { result ≡ lowest (fails_at (scope_of scope.now) (plain.Read r.now index.now into.now) (pairs_in held.now)) }
{
    let unknown = !is_atom(scope, index) || !is_register(scope, into);
    match array_over(scope, r) {
        None => Some(CheckKind::UnknownName),
        Some(array) => {
            if unknown {
                Some(CheckKind::UnknownName)
            } else if !held.has(&Pair::new(array, index)) {
                Some(CheckKind::NotHeld)
            } else {
                None
            }
        }
    }
}

fn write_rule<'a>(
    scope: &Scope<'_, 'a>,
    r: &Name,
    index: &'a Atom,
    e: &Expr,
    held: &Pairs<'a>,
) -> Option<CheckKind>
    requires { IsScope scope.now }
    ensures { result ≡ lowest (fails_at (scope_of scope.now) (plain.Write r.now index.now (plain_expr e.now)) (pairs_in held.now)) }
{
    let unknown = !is_atom(scope, index) || has_unknown(scope, e);
    match array_over(scope, r) {
        None => Some(CheckKind::UnknownName),
        Some(array) => {
            if unknown {
                Some(CheckKind::UnknownName)
            } else if has_data_index(e) {
                Some(CheckKind::DataInControl)
            } else if !held.has(&Pair::new(array, index)) {
                Some(CheckKind::NotHeld)
            } else {
                None
            }
        }
    }
}

fn print_rule(scope: &Scope, es: &[Expr]) -> Option<CheckKind>
    requires { IsScope scope.now }
    ensures { result ≡ lowest (fails_at (scope_of scope.now) (plain.Print (plain_exprs es.now)) []) }
{
    if any_unknown(scope, es) {
        Some(CheckKind::UnknownName)
    } else if any_data_index(es) {
        Some(CheckKind::DataInControl)
    } else {
        None
    }
}

// The condition of a `when`.
fn choice_rule(scope: &Scope, e: &Expr) -> Option<CheckKind>
    requires { IsScope scope.now }
    ensures { result ≡ lowest (fails_at (scope_of scope.now) (plain.When (plain_expr e.now) plain.Nothing plain.Nothing) []) }
{
    if has_unknown(scope, e) {
        Some(CheckKind::UnknownName)
    } else if has_data_index(e) {
        Some(CheckKind::DataInControl)
    } else {
        None
    }
}

/// The lowest rule that fails at the beginning of a statement.
pub fn rule_at<'a>(scope: &Scope<'_, 'a>, what: &'a What, held: &Pairs<'a>) -> Option<CheckKind>
    requires { IsScope scope.now }
    ensures { result ≡ lowest (fails_at (scope_of scope.now) (plain_what what.now) (pairs_in held.now)) }
{
    match what {
        What::SetCtl(x, e) => set_control_rule(scope, x, e, held),
        What::While(e, _) => condition_rule(scope, e),
        What::If(e, _, _) => condition_rule(scope, e),
        What::Lock(array, index) => lock_rule(scope, array, index, held),
        What::Unlock(array, index) => unlock_rule(scope, array, index, held),
        What::Fork(t, arguments, into) => fork_rule(scope, t, arguments.as_slice(), into, held),
        What::Join(e, into) => join_rule(scope, e, into),
        What::Barrier(b) => barrier_rule(scope, b),
        What::Settle(from, into) => settle_rule(scope, from, into, held),
        What::SetReg(x, e) => set_register_rule(scope, x, e),
        What::Read(r, index, into) => read_rule(scope, r, index, into, held),
        What::Write(r, index, e) => write_rule(scope, r, index, e, held),
        What::Print(es) => print_rule(scope, es.as_slice()),
        What::When(e, _, _) => choice_rule(scope, e),
    }
}
