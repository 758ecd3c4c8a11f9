// The cells of lock arrays and of records, numbered one after another in declared order.
ghost use Rattle.std.specs.Prelude.{◌≡◌, ◌≤◌, ◌+◌, Some, None, if◌then◌else◌, option_map, IfOk, OnOk};
ghost use Rattle.gp_base.specs.declared.limits.TheConstants.{MOST_CELLS};
ghost use Rattle.task_ast.specs.meaning.Names.{is_name, natural, locks_of, records_of, cells_in};
ghost use Rattle.task_ast.specs.meaning.Tree as plain;
ghost use Rattle.lock_checker.specs.inner.Numberings.{IsNumbered};
ghost use Rattle.lock_checker.specs.Tables.{found, or_else, cells_or_none};

use crate::symbol_table::SymbolTable;
use gp_base::Name;
use std::alloc::{AllocError, Global};
use task_ast::{Head, natural};

/// The cells of an array among those of all lock arrays, or of all records: the number of its first cell, and how many
/// there are.
#[derive(Clone, Copy)]
pub struct CellRange {
    pub first: u32,
    pub size: u32,
}

/// The cells of all lock arrays, or of all records, by the name of the array, and how many they are.
pub struct Numbering {
    pub cells: SymbolTable<CellRange>,
    pub count: u32,
}

impl Drop for Numbering {
    fn drop(self) {
        let Self { cells: _, count: _ } = self;
    }
}

impl Numbering {
    fn new(alloc: Global) -> Self
        ensures cells { (x : plain.Name) → found result.cells x ≡ None }
        ensures count { result.count ≡ 0 }
    {
        Numbering {
            cells: SymbolTable::new(alloc),
            count: 0,
        }
    }

    // Gives an array the cells after those that are given. Of a name that is declared twice the first counts.
    fn add(&mut self, name: &Name, size: i64) -> Result<(), AllocError>
        requires { self.old.count + natural size ≤ MOST_CELLS }
        ensures cells { OnOk result ((x : plain.Name) → found self.new.cells x ≡ or_else (found self.old.cells x) (if is_name x name.now then Some (record { first = self.old.count; size = natural size }) else None)) }
        ensures count { OnOk result (self.new.count ≡ self.old.count + natural size) }
    {
        let size = natural(size) as u32;
        let first = self.count;
        self.cells.put(name, CellRange { first, size })?;
        self.count += size;
        Ok(())
    }

    /// The first cell of the array of a name, or `None` where there is no array.
    pub fn first_cell(&self, array: &Name) -> Option<u32>
        ensures { result ≡ option_map (λ cells. cells.first) (found self.now.cells array.now) }
    {
        match self.cells.get(array) {
            Some(cells) => Some(cells.first),
            None => None,
        }
    }

    /// The cells of the array of a name, or no cells where there is no array.
    pub fn array(&self, array: &Name) -> CellRange
        ensures { result ≡ cells_or_none (found self.now.cells array.now) }
    {
        match self.cells.get(array) {
            Some(cells) => cells,
            None => CellRange { first: 0, size: 0 },
        }
    }
}

/// The cells of the lock arrays, and those of the records.
#[tactic(auto, using(crate::proofs::TableLemmas::put_steps))]
pub fn number_cells(alloc: Global, heads: &[Head]) -> Result<(Numbering, Numbering), AllocError>
    requires locks { cells_in (locks_of heads.now) ≤ MOST_CELLS }
    requires records { cells_in (records_of heads.now) ≤ MOST_CELLS }
    ensures locks { IfOk result (λ both. IsNumbered both.0 (locks_of heads.now)) }
    ensures records { IfOk result (λ both. IsNumbered both.1 (records_of heads.now)) }
{
    let mut locks = Numbering::new(alloc);
    let mut records = Numbering::new(alloc);
    for head in heads {
        match head {
            Head::LockHead { name, size, .. } => locks.add(name, *size)?,
            Head::RecHead { name, size, .. } => records.add(name, *size)?,
            Head::BarrierHead { .. } | Head::FeedHead { .. } => {}
        }
    }
    Ok((locks, records))
}
