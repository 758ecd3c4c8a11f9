// The names that a statement uses.
ghost use Rattle.std.specs.Prelude.{◌≡◌, ◌++◌, false, OnOk};
ghost use Rattle.task_ast.specs.meaning.Tree as plain;
ghost use Rattle.task_ast.specs.View.{plain_expr, plain_exprs, plain_links, plain_what, plain_program};
ghost use Rattle.rule_blame.specs.Uses.{use_of, names_of, names_among, atom_names, into_names, argument_names, printed_names, names_in};
ghost use Rattle.rule_blame.specs.Views.{used_in, decides_at};

use crate::scope::params_of;
use gp_base::Name;
use std::alloc::AllocError;
use task_ast::{Atom, Expr, Op, Param, Program, What};

/// What a name has to be declared as.
#[derive(Clone, Copy, Debug, PartialEq, Eq)]
pub enum Role {
    LockArray,
    Record,
    Feed,
    Barrier,
    Task,
    Control,
    Data,
}

/// A name that is used, and whether its place decides about control.
#[derive(Clone, Copy)]
pub struct Use<'a> {
    pub role: Role,
    pub name: &'a Name,
    pub decides: bool,
}

// Appends the use of a name.
fn push_use<'a>(
    uses: &mut Vec<Use<'a>>,
    role: Role,
    decides: bool,
    name: &'a Name,
) -> Result<(), AllocError>
    ensures { OnOk result (used_in uses.new.items ≡ used_in uses.old.items ++ use_of role decides name.now) }
{
    uses.push(Use {
        role,
        name,
        decides,
    })?;
    Ok(())
}

// Appends the names of an expression.
#[cycle(names)]
#[tactic(auto, using(task_ast::proofs::Views::view, crate::proofs::Appends::appends))]
fn push_names<'a>(uses: &mut Vec<Use<'a>>, decides: bool, e: &'a Expr) -> Result<(), AllocError>
    ensures { OnOk result (used_in uses.new.items ≡ used_in uses.old.items ++ names_of decides (plain_expr e.now)) }
{
    match e {
        Expr::Num(_) | Expr::Me => Ok(()),
        Expr::Ctl(x) => push_use(uses, Role::Control, decides, x),
        Expr::Reg(x) => push_use(uses, Role::Data, decides, x),
        Expr::Rows(f) => push_use(uses, Role::Feed, decides, f),
        Expr::Cell(f, row, field) => {
            push_use(uses, Role::Feed, decides, f)?;
            push_names(uses, true, row)?;
            push_names(uses, true, field)
        }
        Expr::Neg(e) | Expr::Not(e) => push_names(uses, decides, e),
        Expr::Chain(first, others) => {
            push_names(uses, decides, first)?;
            push_links(uses, decides, others.as_slice())
        }
    }
}

// Appends the names of the further members of a chain.
#[cycle(names)]
#[tactic(auto, using(task_ast::proofs::Views::view, crate::proofs::Appends::appends))]
fn push_links<'a>(
    uses: &mut Vec<Use<'a>>,
    decides: bool,
    links: &'a [(Op, Expr)],
) -> Result<(), AllocError>
    ensures { OnOk result (used_in uses.new.items ≡ used_in uses.old.items ++ names_among decides (plain_links links.now)) }
{
    for link in links {
        push_names(uses, decides, &link.1)?;
    }
    Ok(())
}

// Appends the variable of an index.
fn push_atom<'a>(uses: &mut Vec<Use<'a>>, index: &'a Atom) -> Result<(), AllocError>
    ensures { OnOk result (used_in uses.new.items ≡ used_in uses.old.items ++ atom_names index.now) }
{
    match index {
        Atom::Num(_) => Ok(()),
        Atom::Var(x) => push_use(uses, Role::Control, false, x),
    }
}

// Appends a variable that may be left out.
fn push_into<'a>(
    uses: &mut Vec<Use<'a>>,
    role: Role,
    into: &'a Option<Name>,
) -> Result<(), AllocError>
    ensures { OnOk result (used_in uses.new.items ≡ used_in uses.old.items ++ into_names role into.now) }
{
    match into {
        None => Ok(()),
        Some(x) => push_use(uses, role, false, x),
    }
}

fn is_control_param(params: &[Param], at: usize) -> bool
    ensures { result ≡ decides_at params.now at }
{
    matches!(params.get(at), Some(Param::Ctl(_)))
}

// Appends the names of the arguments of a fork, whose task has these parameters.
#[tactic(auto, using(crate::proofs::Appends::appends, crate::proofs::Appends::arguments_at))]
fn push_arguments<'a>(
    uses: &mut Vec<Use<'a>>,
    params: &[Param],
    arguments: &'a [Expr],
) -> Result<(), AllocError>
    ensures { OnOk result (used_in uses.new.items ≡ used_in uses.old.items ++ argument_names params.now (plain_exprs arguments.now)) }
{
    for (at, e) in arguments.iter().enumerate() {
        push_names(uses, is_control_param(params, at), e)?;
    }
    Ok(())
}

// Appends the names of what is printed.
#[tactic(auto, using(crate::proofs::Appends::appends))]
fn push_printed<'a>(uses: &mut Vec<Use<'a>>, es: &'a [Expr]) -> Result<(), AllocError>
    ensures { OnOk result (used_in uses.new.items ≡ used_in uses.old.items ++ printed_names (plain_exprs es.now)) }
{
    for e in es {
        push_names(uses, false, e)?;
    }
    Ok(())
}

// Appends the names of a control statement.
#[tactic(auto, using(task_ast::proofs::Views::view, crate::proofs::Appends::appends))]
fn push_fork<'a>(
    uses: &mut Vec<Use<'a>>,
    program: &Program,
    task: &'a Name,
    arguments: &'a [Expr],
    into: &'a Option<Name>,
) -> Result<(), AllocError>
    ensures { OnOk result (used_in uses.new.items ≡ used_in uses.old.items
        ++ names_in (plain_program program.now) (plain.Fork task.now (plain_exprs arguments.now) into.now)) }
{
    push_use(uses, Role::Task, false, task)?;
    push_arguments(uses, params_of(program, task), arguments)?;
    push_into(uses, Role::Control, into)
}

// Appends the names of a lock, and of its index.
fn push_cell<'a>(
    uses: &mut Vec<Use<'a>>,
    role: Role,
    array: &'a Name,
    index: &'a Atom,
) -> Result<(), AllocError>
    ensures { OnOk result (used_in uses.new.items ≡ used_in uses.old.items ++ use_of role false array.now ++ atom_names index.now) }
{
    push_use(uses, role, false, array)?;
    push_atom(uses, index)
}

/// Appends the names of a statement, but for those in its blocks.
#[tactic(auto, using(task_ast::proofs::Views::view, crate::proofs::Appends::appends))]
pub fn push_uses<'a>(
    uses: &mut Vec<Use<'a>>,
    program: &Program,
    what: &'a What,
) -> Result<(), AllocError>
    ensures { OnOk result (used_in uses.new.items ≡ used_in uses.old.items ++ names_in (plain_program program.now) (plain_what what.now)) }
{
    match what {
        What::SetCtl(x, e) => {
            push_use(uses, Role::Control, false, x)?;
            push_names(uses, true, e)
        }
        What::While(e, _) | What::If(e, _, _) => push_names(uses, true, e),
        What::Lock(array, index) => push_cell(uses, Role::LockArray, array, index),
        What::Unlock(array, index) => push_cell(uses, Role::LockArray, array, index),
        What::Fork(t, es, into) => push_fork(uses, program, t, es.as_slice(), into),
        What::Join(e, into) => {
            push_names(uses, true, e)?;
            push_into(uses, Role::Data, into)
        }
        What::Barrier(b) => push_use(uses, Role::Barrier, false, b),
        What::Settle(from, into) => {
            push_use(uses, Role::Data, false, from)?;
            push_use(uses, Role::Control, false, into)
        }
        What::SetReg(x, e) => {
            push_use(uses, Role::Data, false, x)?;
            push_names(uses, false, e)
        }
        What::Read(r, index, into) => {
            push_cell(uses, Role::Record, r, index)?;
            push_use(uses, Role::Data, false, into)
        }
        What::Write(r, index, e) => {
            push_cell(uses, Role::Record, r, index)?;
            push_names(uses, false, e)
        }
        What::Print(es) => push_printed(uses, es.as_slice()),
        What::When(e, _, _) => push_names(uses, false, e),
    }
}
