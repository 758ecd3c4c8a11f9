// The rules of the heads of tasks.
ghost use Rattle.std.specs.Prelude.{◌≡◌, ◌<◌, List, [], ◌∷◌, map, length};
ghost use Rattle.gp_base.specs.declared.limits.TheConstants.{MOST_VARIABLES};
ghost use Rattle.task_ast.specs.meaning.Tree.{Name as PlainName};
ghost use Rattle.task_ast.specs.meaning.Names.{is_name, is_among};
ghost use Rattle.task_ast.specs.meaning.Declarations.{main, task_visit, task_visits, vars_visits, main_visit};
ghost use Rattle.task_ast.specs.View.{plain_task, plain_program};
ghost use Rattle.lock_checker.specs.inner.Heads.{HasNames};
ghost use Rattle.lock_checker.specs.inner.TaskVariables.{AreVariables};
ghost use Rattle.lock_checker.specs.inner.Faults.{Passes};

use crate::fault::CheckFault;
use crate::symbol_table::SymbolTable;
use crate::variables::Variables;
use gp_base::Name;
use gp_base::limits::MOST_VARIABLES;
use std::alloc::Global;
use task_ast::{CheckKind, Param, Program, TaskText, VarLine};

fn is_main(x: &Name) -> bool
    ensures { result ≡ is_name x.now main }
{
    x.as_slice() == b"main".as_slice()
}

// Checks the var lines of a task after its parameters.
fn check_lines(
    mut variables: Variables,
    params: &[Param],
    lines: &[VarLine],
) -> Result<(), CheckFault>
    requires variables { AreVariables variables params.now }
    requires few { length params.now < MOST_VARIABLES }
    ensures { Passes result (vars_visits params.now lines.now) }
{
    let mut count = params.len();
    for line in lines {
        let double = variables.add_all(line.names.as_slice())?;
        if double {
            return Err(CheckFault::Bad {
                kind: CheckKind::DoubleName,
                line: line.line,
            });
        }
        count += line.names.len();
        if count >= MOST_VARIABLES {
            return Err(CheckFault::Bad {
                kind: CheckKind::TooMany,
                line: line.line,
            });
        }
    }
    Ok(())
}

// Checks the head of a task and its var lines; whether its name was declared before is told.
fn check_task_head(alloc: Global, double: bool, task: &TaskText) -> Result<(), CheckFault>
    ensures { (before : List PlainName) → double ≡ is_among task.now.name before → Passes result (task_visit before (plain_task task.now) ∷ vars_visits task.now.params task.now.vars) }
{
    let params = task.params.as_slice();
    let mut variables = Variables::new(alloc);
    let double_param = variables.add_all(params)?;
    if double || double_param {
        Err(CheckFault::Bad {
            kind: CheckKind::DoubleName,
            line: task.line,
        })
    } else if is_main(&task.name) && !params.is_empty() {
        Err(CheckFault::Bad {
            kind: CheckKind::WrongCount,
            line: task.line,
        })
    } else if params.len() >= MOST_VARIABLES {
        Err(CheckFault::Bad {
            kind: CheckKind::TooMany,
            line: task.line,
        })
    } else {
        check_lines(variables, params, task.vars.as_slice())
    }
}

/// Checks the heads of the tasks, after these names of heads.
pub fn check_tasks(
    alloc: Global,
    mut names: SymbolTable<()>,
    tasks: &[TaskText],
) -> Result<(), CheckFault>
    ensures { (before : List PlainName) → HasNames names before → Passes result (task_visits before (map plain_task tasks.now)) }
{
    for task in tasks {
        let double = names.get(&task.name).is_some();
        match check_task_head(alloc, double, task) {
            Ok(()) => {}
            Err(fault) => return Err(fault),
        }
        names.put(&task.name, ())?;
    }
    Ok(())
}

/// Checks that there is a task `main`.
pub fn check_main(program: &Program) -> Result<(), CheckFault>
    ensures { Passes result (main_visit (plain_program program.now) ∷ []) }
{
    for task in program.tasks.as_slice() {
        if b"main".as_slice() == task.name.as_slice() {
            return Ok(());
        }
    }
    Err(CheckFault::Bad {
        kind: CheckKind::UnknownName,
        line: 1,
    })
}
