// The rules of heads and of the heads of tasks.
ghost use Rattle.std.specs.Prelude.{◌≡◌, ◌≤◌, ◌<◌, ◌^◌, List, [], ◌∷◌, ◌++◌, OnOk};
ghost use Rattle.gp_base.specs.declared.limits.TheConstants.{MOST_CELLS};
ghost use Rattle.task_ast.specs.declared.tree.Head.{Head as PlainHead};
ghost use Rattle.task_ast.specs.declared.tree.Program.{Program as PlainProgram};
ghost use Rattle.task_ast.specs.meaning.Names.{head_name, locks_of, records_of, cells_in};
ghost use Rattle.task_ast.specs.meaning.Declarations.{head_line, count_of, lacks_array, sizes_differ, passes_limit, head_visit};
ghost use Rattle.task_ast.specs.View.{plain_program};
ghost use Rattle.lock_checker.specs.inner.Indexes.{IsIndexOf};
ghost use Rattle.lock_checker.specs.inner.Heads.{AreHeads};
ghost use Rattle.lock_checker.specs.inner.Faults.{lowest};

use crate::index::ProgramIndex;
use crate::symbol_table::SymbolTable;
use gp_base::Name;
use gp_base::limits::{MOST_CELLS, MOST_FIELDS, MOST_THREADS};
use std::alloc::{AllocError, Global};
use task_ast::{CheckKind, Head, natural};

fn head_name(head: &Head) -> &Name
    ensures { result.now ≡ head_name head.now }
{
    match head {
        Head::LockHead { name, .. } => name,
        Head::BarrierHead { name, .. } => name,
        Head::RecHead { name, .. } => name,
        Head::FeedHead { name, .. } => name,
    }
}

pub fn line_of(head: &Head) -> u32
    ensures { result ≡ head_line head.now }
{
    match head {
        Head::LockHead { line, .. } => *line,
        Head::BarrierHead { line, .. } => *line,
        Head::RecHead { line, .. } => *line,
        Head::FeedHead { line, .. } => *line,
    }
}

fn count_of(head: &Head) -> u64
    ensures { result ≡ count_of head.now }
{
    match head {
        Head::LockHead { size, .. } => natural(*size),
        Head::BarrierHead { number, .. } => natural(*number),
        Head::RecHead { size, .. } => natural(*size),
        Head::FeedHead { fields, .. } => natural(*fields),
    }
}

fn lacks_array(index: &ProgramIndex, head: &Head) -> bool
    ensures { (program : PlainProgram) → IsIndexOf index.now program → result ≡ lacks_array program.heads head.now }
{
    match head {
        Head::LockHead { .. } => false,
        Head::BarrierHead { .. } => false,
        Head::RecHead { by, .. } => index.locks.get(by).is_none(),
        Head::FeedHead { .. } => false,
    }
}

fn sizes_differ(index: &ProgramIndex, head: &Head) -> bool
    ensures { (program : PlainProgram) → IsIndexOf index.now program → result ≡ sizes_differ program.heads head.now }
{
    match head {
        Head::LockHead { .. } => false,
        Head::BarrierHead { .. } => false,
        Head::RecHead { size, by, .. } => match index.locks.get(by) {
            Some(other) => natural(*size) != other,
            None => false,
        },
        Head::FeedHead { .. } => false,
    }
}

fn lock_cells_of(head: &Head) -> u64
    ensures cells { result ≡ cells_in (locks_of (head.now ∷ [])) }
    ensures small { result < 2 ^ 63 }
{
    match head {
        Head::LockHead { size, .. } => natural(*size),
        Head::BarrierHead { .. } => 0,
        Head::RecHead { .. } => 0,
        Head::FeedHead { .. } => 0,
    }
}

fn record_cells_of(head: &Head) -> u64
    ensures cells { result ≡ cells_in (records_of (head.now ∷ [])) }
    ensures small { result < 2 ^ 63 }
{
    match head {
        Head::LockHead { .. } => 0,
        Head::BarrierHead { .. } => 0,
        Head::RecHead { size, .. } => natural(*size),
        Head::FeedHead { .. } => 0,
    }
}

/// The heads visited so far: their names, and the cells of their lock arrays and of their records.
#[derive(Drop)]
pub struct Heads {
    pub names: SymbolTable<()>,
    pub lock_cells: u64,
    pub record_cells: u64,
}

impl Heads {
    pub fn new(alloc: Global) -> Self
        ensures { AreHeads result [] }
    {
        Heads {
            names: SymbolTable::new(alloc),
            lock_cells: 0,
            record_cells: 0,
        }
    }

    fn passes_limit(&self, head: &Head) -> bool
        requires locks { self.now.lock_cells ≤ MOST_CELLS }
        requires records { self.now.record_cells ≤ MOST_CELLS }
        ensures { (before : List PlainHead) → AreHeads self.now before → result ≡ passes_limit before head.now }
    {
        match head {
            Head::LockHead { size, .. } => self.lock_cells + natural(*size) > MOST_CELLS as u64,
            Head::BarrierHead { number, .. } => natural(*number) > MOST_THREADS as u64,
            Head::RecHead { size, .. } => self.record_cells + natural(*size) > MOST_CELLS as u64,
            Head::FeedHead { fields, .. } => natural(*fields) > MOST_FIELDS as u64,
        }
    }

    /// The lowest rule that fails at a head after these.
    pub fn rule_at(&self, index: &ProgramIndex, head: &Head) -> Option<CheckKind>
        requires locks { self.now.lock_cells ≤ MOST_CELLS }
        requires records { self.now.record_cells ≤ MOST_CELLS }
        ensures { (program : PlainProgram) (before : List PlainHead) → IsIndexOf index.now program → AreHeads self.now before → result ≡ lowest (head_visit (plain_program program) before head.now).fails }
    {
        if lacks_array(index, head) {
            Some(CheckKind::UnknownName)
        } else if self.names.get(head_name(head)).is_some() {
            Some(CheckKind::DoubleName)
        } else if count_of(head) == 0 {
            Some(CheckKind::WrongCount)
        } else if sizes_differ(index, head) {
            Some(CheckKind::SizesDiffer)
        } else if self.passes_limit(head) {
            Some(CheckKind::TooMany)
        } else {
            None
        }
    }

    pub fn add(&mut self, head: &Head) -> Result<(), AllocError>
        requires locks { self.old.lock_cells ≤ MOST_CELLS }
        requires records { self.old.record_cells ≤ MOST_CELLS }
        ensures { OnOk result ((before : List PlainHead) → AreHeads self.old before → AreHeads self.new (before ++ head.now ∷ [])) }
    {
        self.names.put(head_name(head), ())?;
        self.lock_cells += lock_cells_of(head);
        self.record_cells += record_cells_of(head);
        Ok(())
    }
}
