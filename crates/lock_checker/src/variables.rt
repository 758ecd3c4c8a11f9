// The variables of a task, by name.
ghost use Rattle.std.specs.Prelude.{◌≡◌, IfOk, List, [], ◌∷◌, ◌++◌, ◌||◌, is_some};
ghost use Rattle.task_ast.specs.declared.tree.Param.{Param as PlainParam};
ghost use Rattle.task_ast.specs.meaning.Names.{is_name, ret, declared_in};
ghost use Rattle.lock_checker.specs.Tables.{found};
ghost use Rattle.lock_checker.specs.inner.TaskVariables.{AreVariables, Adds};

use crate::symbol_table::SymbolTable;
use gp_base::Name;
use std::alloc::{AllocError, Global};
use task_ast::{Param, TaskText};

/// The control variables and the data variables of a task but `$ret`, by name.
pub struct Variables {
    pub controls: SymbolTable<()>,
    pub datas: SymbolTable<()>,
}

impl Drop for Variables {
    fn drop(self) {
        let Self {
            controls: _,
            datas: _,
        } = self;
    }
}

/// Whether this is the name of the data variable that each task has.
pub fn is_ret(x: &Name) -> bool
    ensures { result ≡ is_name x.now ret }
{
    x.as_slice() == b"ret".as_slice()
}

impl Variables {
    pub fn new(alloc: Global) -> Self
        ensures { AreVariables result [] }
    {
        Variables {
            controls: SymbolTable::new(alloc),
            datas: SymbolTable::new(alloc),
        }
    }

    /// Whether a data variable of this name is there; `$ret` always is.
    pub fn has_data(&self, name: &Name) -> bool
        ensures { result ≡ (is_name name.now ret || is_some (found self.now.datas name.now)) }
    {
        is_ret(name) || self.datas.get(name).is_some()
    }

    // Adds a variable, and tells whether one of its name was there.
    fn add(&mut self, x: &Param) -> Result<bool, AllocError>
        ensures { IfOk result (λ double. (before : List PlainParam) → AreVariables self.old before → Adds self.new before (x.now ∷ []) double) }
    {
        match x {
            Param::Ctl(name) => {
                let double = self.controls.get(name).is_some();
                self.controls.put(name, ())?;
                Ok(double)
            }
            Param::Reg(name) => {
                let double = self.has_data(name);
                self.datas.put(name, ())?;
                Ok(double)
            }
        }
    }

    /// Adds variables, and tells whether the name of one of them was there before it.
    pub fn add_all(&mut self, names: &[Param]) -> Result<bool, AllocError>
        ensures { IfOk result (λ double. (before : List PlainParam) → AreVariables self.old before → Adds self.new before names.now double) }
    {
        let mut double = false;
        for x in names {
            if self.add(x)? {
                double = true;
            }
        }
        Ok(double)
    }
}

pub fn variables_of(alloc: Global, task: &TaskText) -> Result<Variables, AllocError>
    ensures { IfOk result (λ variables. AreVariables variables (task.now.params ++ declared_in task.now.vars)) }
{
    let mut variables = Variables::new(alloc);
    variables.add_all(task.params.as_slice())?;
    for line in task.vars.as_slice() {
        variables.add_all(line.names.as_slice())?;
    }
    Ok(variables)
}
