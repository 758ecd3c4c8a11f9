// What a rule is about in one statement.
ghost use Rattle.std.specs.Prelude.{◌≡◌, ℕ, List, Some, IfOk, IfSome};
ghost use Rattle.task_ast.specs.View.{plain_what, plain_program};
ghost use Rattle.task_ast.specs.meaning.Tree as plain;
ghost use Rattle.task_ast.specs.meaning.Held.{Pair};
ghost use Rattle.rule_blame.specs.Uses.{names_in};
ghost use Rattle.rule_blame.specs.Blames.{IsTrueOf, Touches, Sets};
ghost use Rattle.rule_blame.specs.Views.{scope_of, pairs_of, used_in, point_at};

use crate::blames::Blame;
use crate::held::{Taken, find, find_index};
use crate::scope::{Scope, array_over, is_declared, task_named};
use crate::uses::{Role, Use, push_uses};
use gp_base::Name;
use std::alloc::{AllocError, Global};
use task_ast::{Atom, CheckKind, What};

// The first of these names that isn't declared as what its place needs.
fn first_unknown<'a>(scope: Scope<'a>, uses: &[Use<'a>]) -> Option<Blame<'a>>
    ensures { IfSome result (λ told. (w : plain.What) (line : ℕ) (held : List Pair) → used_in uses.now ≡ names_in (plain_program scope.entry.program.now) w
        → IsTrueOf (scope_of scope.entry) (record { line = line; what = w; held = held }) told) }
{
    for found in uses {
        if !is_declared(scope, found.role, found.name) {
            return Some(Blame::Unknown {
                role: found.role,
                name: found.name,
                task: &scope.task.name,
            });
        }
    }
    None
}

// The first of these names that is a data variable where control is decided about.
fn first_data<'a>(scope: Scope<'a>, uses: &[Use<'a>]) -> Option<Blame<'a>>
    ensures { IfSome result (λ told. (w : plain.What) (line : ℕ) (held : List Pair) → used_in uses.now ≡ names_in (plain_program scope.entry.program.now) w
        → IsTrueOf (scope_of scope.entry) (record { line = line; what = w; held = held }) told) }
{
    for found in uses {
        if found.role == Role::Data && found.decides {
            return Some(Blame::Data { name: found.name });
        }
    }
    None
}

// A name that isn't declared, or, where that isn't asked for, data where control is decided about.
fn name_blame<'a>(
    alloc: Global,
    scope: Scope<'a>,
    what: &'a What,
    unknown: bool,
) -> Result<Option<Blame<'a>>, AllocError>
    ensures { IfOk result (λ found. (line : ℕ) (held : List Pair) → IfSome found (IsTrueOf (scope_of scope.entry) (point_at line what.now held))) }
{
    let mut uses = Vec::new(alloc);
    push_uses(&mut uses, scope.program, what)?;
    if unknown {
        Ok(first_unknown(scope, &uses))
    } else {
        Ok(first_data(scope, &uses))
    }
}

// A fork whose number of arguments is not that of its task's parameters.
#[tactic(auto, using(task_ast::proofs::Views::view))]
fn counts<'a>(scope: Scope<'a>, what: &'a What) -> Option<Blame<'a>>
    ensures { (line : ℕ) (held : List Pair) → IfSome result (IsTrueOf (scope_of scope.entry) (point_at line what.now held)) }
{
    let What::Fork(task, arguments, _) = what else {
        return None;
    };
    let callee = task_named(scope.program, task.as_slice())?;
    let (takes, gets) = (callee.params.len() as u64, arguments.len() as u64);
    if takes == gets {
        return None;
    }
    Some(Blame::Counts { task, takes, gets })
}

// A cell of a record that is touched while its lock isn't held.
fn unguarded<'a>(
    scope: Scope<'a>,
    cells: &'a Name,
    index: &'a Atom,
    held: &[Taken<'a>],
) -> Option<Blame<'a>>
    ensures { IfSome result (λ told. (w : plain.What) (line : ℕ) → Touches w cells.now index.now
        → IsTrueOf (scope_of scope.entry) (record { line = line; what = w; held = pairs_of held.now }) told) }
{
    let array = array_over(scope.program.heads.as_slice(), cells)?;
    match find(held, array, index) {
        Some(_) => None,
        None => Some(Blame::Unguarded {
            cells,
            index,
            array,
        }),
    }
}

// A lock that is given back, or a cell that is touched, while the lock isn't held.
#[tactic(auto, using(task_ast::proofs::Views::view))]
fn not_held<'a>(scope: Scope<'a>, what: &'a What, held: &[Taken<'a>]) -> Option<Blame<'a>>
    ensures { (line : ℕ) → IfSome result (IsTrueOf (scope_of scope.entry) (point_at line what.now (pairs_of held.now))) }
{
    match what {
        What::Read(cells, index, _) => unguarded(scope, cells, index, held),
        What::Write(cells, index, _) => unguarded(scope, cells, index, held),
        What::Unlock(array, index) => match find(held, array, index) {
            Some(_) => None,
            None => Some(Blame::NotTaken { array, index }),
        },
        _ => None,
    }
}

// A lock that is taken and held.
#[tactic(auto, using(task_ast::proofs::Views::view))]
fn taken_twice<'a>(scope: Scope<'a>, what: &'a What, held: &[Taken<'a>]) -> Option<Blame<'a>>
    ensures { (line : ℕ) → IfSome result (IsTrueOf (scope_of scope.entry) (point_at line what.now (pairs_of held.now))) }
{
    let What::Lock(array, index) = what else {
        return None;
    };
    let first = find(held, array, index)?;
    Some(Blame::TakenTwice {
        taken: Taken {
            array,
            index,
            line: first.line,
        },
    })
}

// A variable that may be left out.
fn name_in(into: &Option<Name>) -> Option<&Name>
    ensures { IfSome result (λ name. into.now ≡ Some name.now) }
{
    match into {
        Some(x) => Some(x),
        None => None,
    }
}

// The control variable that a statement sets.
#[tactic(auto, using(task_ast::proofs::Views::view))]
fn set_by(what: &What) -> Option<&Name>
    ensures { IfSome result (λ name. Sets (plain_what what.now) name.now) }
{
    match what {
        What::SetCtl(x, _) => Some(x),
        What::Fork(_, _, into) => name_in(into),
        What::Settle(_, x) => Some(x),
        _ => None,
    }
}

// The index of a held lock that is set.
fn index_set<'a>(scope: Scope<'a>, what: &'a What, held: &[Taken<'a>]) -> Option<Blame<'a>>
    ensures { (line : ℕ) → IfSome result (IsTrueOf (scope_of scope.entry) (point_at line what.now (pairs_of held.now))) }
{
    let name = set_by(what)?;
    let taken = find_index(held, name)?;
    Some(Blame::IndexSet { name, taken })
}

/// What the rule is about in a statement, before which these locks are held.
pub fn statement_blame<'a>(
    alloc: Global,
    scope: Scope<'a>,
    kind: CheckKind,
    what: &'a What,
    held: &[Taken<'a>],
) -> Result<Option<Blame<'a>>, AllocError>
    ensures { IfOk result (λ found. (line : ℕ) → IfSome found (IsTrueOf (scope_of scope.entry) (point_at line what.now (pairs_of held.now)))) }
{
    match kind {
        CheckKind::UnknownName => name_blame(alloc, scope, what, true),
        CheckKind::DataInControl => name_blame(alloc, scope, what, false),
        CheckKind::WrongCount => Ok(counts(scope, what)),
        CheckKind::NotHeld => Ok(not_held(scope, what, held)),
        CheckKind::HeldTwice => Ok(taken_twice(scope, what, held)),
        CheckKind::IndexChangedWhileHeld => Ok(index_set(scope, what, held)),
        _ => Ok(None),
    }
}
