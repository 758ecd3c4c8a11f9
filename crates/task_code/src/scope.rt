// What the names of a task's statements stand for.

ghost use Rattle.std.specs.Prelude.{◌≡◌, map, option_map, position, IfOk};
ghost use Rattle.task_ast.specs.meaning.Names.{is_name, slot, locks_of, records_of, barriers_of, feeds_of, registers_of, task_named, task_number};
ghost use Rattle.task_ast.specs.View.{plain_task, plain_program};
ghost use Rattle.lock_checker.specs.Cells.{cells_of};
ghost use Rattle.task_code.specs.Lowering.{index};
ghost use Rattle.task_code.specs.inner.Scopes.{scope_here, IsIndexOf, IsScope};

use crate::instrs::CellIndex;
use crate::tables::{barrier_names, feed_names, places, task_names};
use crate::variables::{place, register_names, slot};
use gp_base::{Name, Seq};
use lock_checker::{CellRange, Checked, SymbolTable};
use std::alloc::{AllocError, Global};
use task_ast::{Atom, Program, TaskText};

/// The places of the barriers, the feeds and the tasks, by name, and the names of each task's registers.
#[derive(Drop)]
pub struct CodeIndex {
    pub barriers: SymbolTable<usize>,
    pub feeds: SymbolTable<usize>,
    pub tasks: SymbolTable<usize>,
    pub registers: Vec<Seq<Name>>,
}

/// An accepted program with its index, and the names of the variables of the task that is lowered.
#[derive(Clone, Copy)]
pub struct Scope<'s> {
    pub checked: &'s Checked,
    pub index: &'s CodeIndex,
    pub controls: &'s [Name],
    pub registers: &'s [Name],
}

// The names of each task's registers.
fn all_registers(alloc: Global, tasks: &[TaskText]) -> Result<Vec<Seq<Name>>, AllocError>
    ensures { IfOk result (λ all. all.items ≡ map registers_of (map plain_task tasks.now)) }
{
    let mut all = Vec::new(alloc);
    for task in tasks {
        all.push(register_names(alloc, task)?)?;
    }
    Ok(all)
}

/// The index of a program.
pub fn index_of(alloc: Global, program: &Program) -> Result<CodeIndex, AllocError>
    ensures { IfOk result (λ i. IsIndexOf i (plain_program program.now)) }
{
    let heads = program.heads.as_slice();
    let tasks = program.tasks.as_slice();
    let barrier_names = barrier_names(alloc, heads)?;
    let feed_names = feed_names(alloc, heads)?;
    let task_names = task_names(alloc, tasks)?;
    let barriers = places(alloc, &barrier_names)?;
    let feeds = places(alloc, &feed_names)?;
    let tasks_at = places(alloc, &task_names)?;
    let registers = all_registers(alloc, tasks)?;
    Ok(CodeIndex {
        barriers,
        feeds,
        tasks: tasks_at,
        registers,
    })
}

/// The cells of the lock array of a name; where there is none, it has no cells.
pub fn lock_array(scope: &Scope, x: &Name) -> CellRange
    ensures { result ≡ cells_of (locks_of (scope_here scope.now).program.heads) x.now }
{
    scope.checked.lock_array(x)
}

/// The cells of the record of a name; where there is none, it has no cells.
pub fn record_array(scope: &Scope, x: &Name) -> CellRange
    ensures { result ≡ cells_of (records_of (scope_here scope.now).program.heads) x.now }
{
    scope.checked.record_array(x)
}

/// The place of the barrier of a name.
pub fn barrier_place(scope: &Scope, x: &Name) -> Option<usize>
    requires { IsScope scope.now }
    ensures { result ≡ position (λ other. is_name x.now other.0) (barriers_of (scope_here scope.now).program.heads) }
{
    scope.index.barriers.get(x)
}

/// The place of the feed of a name.
pub fn feed_place(scope: &Scope, x: &Name) -> Option<usize>
    requires { IsScope scope.now }
    ensures { result ≡ position (is_name x.now) (feeds_of (scope_here scope.now).program.heads) }
{
    scope.index.feeds.get(x)
}

/// The number of the task of a name.
pub fn task_place(scope: &Scope, x: &Name) -> Option<usize>
    requires { IsScope scope.now }
    ensures { result ≡ task_number (scope_here scope.now).program x.now }
{
    scope.index.tasks.get(x)
}

/// The number of the control variable of a name.
pub fn control(scope: &Scope, x: &Name) -> usize
    ensures { result ≡ slot (scope_here scope.now).controls x.now }
{
    slot(scope.controls, x)
}

/// The register of a name.
pub fn register(scope: &Scope, x: &Name) -> usize
    ensures { result ≡ slot (scope_here scope.now).registers x.now }
{
    slot(scope.registers, x)
}

/// The register of a name, or `None` where there is none.
pub fn register_place(scope: &Scope, x: &Name) -> Option<usize>
    ensures { result ≡ position (is_name x.now) (scope_here scope.now).registers }
{
    place(scope.registers, x)
}

/// The index of a cell.
pub fn cell_index(scope: &Scope, i: &Atom) -> CellIndex
    ensures { result ≡ index (scope_here scope.now) i.now }
{
    match i {
        Atom::Num(v) => CellIndex::Number(*v),
        Atom::Var(x) => CellIndex::Variable(control(scope, x)),
    }
}
