// An accepted program.
ghost use Rattle.task_ast.specs.meaning.Names.{locks_of, records_of};
ghost use Rattle.task_ast.specs.Shaped.{IsAccepted};
ghost use Rattle.task_ast.specs.View.{plain_program};
ghost use Rattle.lock_checker.specs.inner.Numberings.{IsNumbered};

use crate::cells::{CellRange, Numbering, number_cells};
use crate::layout::{cells_by_lock, push_numbers};
use gp_base::{LockNo, Name, Seq};
use std::alloc::{AllocError, Global};
use task_ast::{Head, Layout, Program, natural};

/// A program that keeps all rules of names, counts and held locks.
pub struct Checked {
    program: Program,
    locks: Numbering,
    records: Numbering,
    pub ghost accepted: { IsAccepted (plain_program program) },
    ghost locks_numbered: { IsNumbered locks (locks_of program.heads) },
    ghost records_numbered: { IsNumbered records (records_of program.heads) },
}

impl Drop for Checked {
    fn drop(self) {
        let Self {
            program: _,
            locks: _,
            records: _,
        } = self;
    }
}

impl Checked {
    ghost use Rattle.std.specs.Prelude.{◌≡◌, ℕ, ◌≤◌, [], ◌∷◌, ◌++◌, slice_get, IfOk, OnOk, IfSome};
    ghost use Rattle.gp_base.specs.declared.limits.TheConstants.{MOST_CELLS};
    ghost use Rattle.task_ast.specs.meaning.Names.{locks_of, records_of, cells_in};
    ghost use Rattle.task_ast.specs.meaning.Layout.{lock_over, layout};
    ghost use Rattle.task_ast.specs.Layout.{base_of};
    ghost use Rattle.lock_checker.specs.Accepted.{program_of};
    ghost use Rattle.lock_checker.specs.Cells.{cells_of};
    ghost use Rattle.lock_checker.specs.inner.Positions.{cells_over};

    pub(crate) fn of(alloc: Global, program: Program) -> Result<Checked, AllocError>
        requires { IsAccepted (plain_program program) }
        ensures { IfOk result (λ checked. program_of checked ≡ program) }
    {
        let (locks, records) = number_cells(alloc, program.heads.as_slice())?;
        Ok(Checked {
            program,
            locks,
            records,
        })
    }

    /// The number of the first cell of a lock array among the cells of all lock arrays in declared order, or `None`
    /// where no lock array has this name. Takes no memory.
    #[tactic(auto, using(crate::proofs::CellLemmas::first_is))]
    pub fn lock_base(&self, array: &Name) -> Option<u32>
        ensures value { result ≡ base_of (locks_of (program_of self.now).heads) array.now }
        ensures small { IfSome result (λ base. base ≤ MOST_CELLS) }
    {
        self.locks.first_cell(array)
    }

    /// The number of the first cell of a record among the cells of all records in declared order, or `None` where no
    /// record has this name. Takes no memory.
    #[tactic(auto, using(crate::proofs::CellLemmas::first_is))]
    pub fn rec_base(&self, r: &Name) -> Option<u32>
        ensures { result ≡ base_of (records_of (program_of self.now).heads) r.now }
    {
        self.records.first_cell(r)
    }

    /// The cells of the lock array of a name; where there is none, it has no cells. Takes no memory.
    #[tactic(auto, using(crate::proofs::CellLemmas::cells_is))]
    pub fn lock_array(&self, x: &Name) -> CellRange
        ensures { result ≡ cells_of (locks_of (program_of self.now).heads) x.now }
    {
        self.locks.array(x)
    }

    /// The cells of the record of a name; where there is none, it has no cells. Takes no memory.
    #[tactic(auto, using(crate::proofs::CellLemmas::cells_is))]
    pub fn record_array(&self, x: &Name) -> CellRange
        ensures { result ≡ cells_of (records_of (program_of self.now).heads) x.now }
    {
        self.records.array(x)
    }

    // Adds the lock cells over the record cells of a head.
    fn add_over(&self, over: &mut Vec<LockNo>, head: &Head) -> Result<(), AllocError>
        requires { cells_in (records_of (head.now ∷ [])) ≤ MOST_CELLS }
        ensures { OnOk result (over.new.items ≡ over.old.items ++ cells_over (locks_of (program_of self.now).heads) (head.now ∷ [])) }
    {
        match head {
            Head::RecHead { by, size, .. } => match self.lock_base(by) {
                Some(base) => push_numbers(over, base, natural(*size) as u32),
                None => Ok(()),
            },
            Head::LockHead { .. } | Head::BarrierHead { .. } | Head::FeedHead { .. } => Ok(()),
        }
    }

    // The lock cell over each record cell.
    fn locks_over(&self, alloc: Global) -> Result<Vec<LockNo>, AllocError>
        ensures { IfOk result (λ over. over.items ≡ cells_over (locks_of (program_of self.now).heads) (program_of self.now).heads) }
    {
        let mut over = Vec::new(alloc);
        for head in self.program.heads.as_slice() {
            self.add_over(&mut over, head)?;
        }
        Ok(over)
    }

    /// The lock cell over each record cell, in the order of all records' cells. The only error is out of memory.
    pub fn over(&self, alloc: Global) -> Result<Seq<LockNo>, AllocError>
        ensures { IfOk result (λ over. (cell : ℕ) → slice_get over cell ≡ lock_over (locks_of (program_of self.now).heads) (program_of self.now).heads cell) }
    {
        Ok(Seq::from_vec(self.locks_over(alloc)?))
    }

    /// For each lock cell, in the order of all lock arrays' cells, the record cells under it, in rising order. The
    /// only error is out of memory.
    pub fn layout(&self, alloc: Global) -> Result<Layout, AllocError>
        ensures { IfOk result (λ l. l ≡ layout (program_of self.now).heads) }
    {
        let over = self.locks_over(alloc)?;
        let under = cells_by_lock(alloc, &over, self.locks.count)?;
        Ok(Layout { under })
    }

    /// The accepted program.
    pub fn program(&self) -> &Program
        ensures { result.now ≡ program_of self.now }
    {
        &self.program
    }
}
