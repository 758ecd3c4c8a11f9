// What a program declares, by name.
ghost use Rattle.std.specs.Prelude.{List, [], ◌∷◌, ◌++◌, IfOk, OnOk};
ghost use Rattle.task_ast.specs.declared.tree.Head.{Head as PlainHead};
ghost use Rattle.task_ast.specs.declared.tree.TaskText.{TaskText as PlainTask};
ghost use Rattle.lock_checker.specs.inner.Indexes.{Finds, IsIndexOf};

use crate::symbol_table::SymbolTable;
use gp_base::Name;
use std::alloc::{AllocError, Global};
use task_ast::{Head, Program, TaskText, natural};

/// The sizes of the lock arrays, the lock array of each record, the barriers, the feeds and the tasks; of a name that
/// is declared twice the first counts.
pub struct ProgramIndex<'a> {
    pub locks: SymbolTable<u64>,
    pub arrays: SymbolTable<&'a Name>,
    pub barriers: SymbolTable<()>,
    pub feeds: SymbolTable<()>,
    pub tasks: SymbolTable<&'a TaskText>,
}

impl<'a> Drop for ProgramIndex<'a> {
    fn drop(self) {
        let Self {
            locks: _,
            arrays: _,
            barriers: _,
            feeds: _,
            tasks: _,
        } = self;
    }
}

impl<'a> ProgramIndex<'a> {
    fn new(alloc: Global) -> Self
        ensures { Finds result [] [] }
    {
        ProgramIndex {
            locks: SymbolTable::new(alloc),
            arrays: SymbolTable::new(alloc),
            barriers: SymbolTable::new(alloc),
            feeds: SymbolTable::new(alloc),
            tasks: SymbolTable::new(alloc),
        }
    }

    // Adds what a head declares.
    fn add_head(&mut self, head: &'a Head) -> Result<(), AllocError>
        ensures { OnOk result ((heads : List PlainHead) (tasks : List PlainTask) → Finds self.old heads tasks → Finds self.new (heads ++ head.now ∷ []) tasks) }
    {
        match head {
            Head::LockHead { name, size, .. } => self.locks.put(name, natural(*size)),
            Head::BarrierHead { name, .. } => self.barriers.put(name, ()),
            Head::RecHead { name, by, .. } => self.arrays.put(name, by),
            Head::FeedHead { name, .. } => self.feeds.put(name, ()),
        }
    }

    fn add_task(&mut self, task: &'a TaskText) -> Result<(), AllocError>
        ensures { OnOk result ((heads : List PlainHead) (tasks : List PlainTask) → Finds self.old heads tasks → Finds self.new heads (tasks ++ task.now ∷ [])) }
    {
        self.tasks.put(&task.name, task)
    }
}

// The index of heads alone.
fn index_heads<'a>(alloc: Global, heads: &'a [Head]) -> Result<ProgramIndex<'a>, AllocError>
    ensures { IfOk result (λ index. Finds index heads.now []) }
{
    let mut index = ProgramIndex::new(alloc);
    for head in heads {
        index.add_head(head)?;
    }
    Ok(index)
}

pub fn index_of<'a>(alloc: Global, program: &'a Program) -> Result<ProgramIndex<'a>, AllocError>
    ensures { IfOk result (λ index. IsIndexOf index program.now) }
{
    let mut index = index_heads(alloc, program.heads.as_slice())?;
    for task in program.tasks.as_slice() {
        index.add_task(task)?;
    }
    Ok(index)
}
