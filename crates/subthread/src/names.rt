// The record cells that the actions of a run name.
ghost use Rattle.std.specs.Prelude.{◌≡◌, [], OnOk};
ghost use Rattle.task_ast.specs.meaning.Footprint.{with_cell};

use std::alloc::{AllocError, Global};
use std::collections::BTreeSet;
use std::marker::Model;

/// The record cells that actions read, and those that they write.
#[derive(Drop)]
pub struct Names {
    reads: BTreeSet<u32>,
    writes: BTreeSet<u32>,
}

impl Model for Names {
    ghost use Rattle.task_ast.specs.meaning.Footprint.{Named};

    ghost Value = { Named };

    ghost view = { λ n. record { reads = n.reads.keys; writes = n.writes.keys } };
}

impl Names {
    /// No cells. Takes no memory.
    pub fn new(alloc: Global) -> Names
        ensures { result ≡ record { reads = []; writes = [] } }
    {
        Names {
            reads: BTreeSet::new(alloc),
            writes: BTreeSet::new(alloc),
        }
    }

    /// Notes that a cell is read. Takes no memory where that is noted.
    pub fn read(&mut self, cell: u32) -> Result<(), AllocError>
        ensures { OnOk result (self.new ≡ record self.old { reads = with_cell cell self.old.reads }) }
    {
        self.reads.insert(cell)?;
        Ok(())
    }

    /// Notes that a cell is written. Takes no memory where that is noted.
    pub fn write(&mut self, cell: u32) -> Result<(), AllocError>
        ensures { OnOk result (self.new ≡ record self.old { writes = with_cell cell self.old.writes }) }
    {
        self.writes.insert(cell)?;
        Ok(())
    }

    /// The cells that are read, in rising order.
    pub fn reads(&self) -> &BTreeSet<u32>
        ensures { result.now.keys ≡ self.now.reads }
    {
        &self.reads
    }

    /// The cells that are written, in rising order.
    pub fn writes(&self) -> &BTreeSet<u32>
        ensures { result.now.keys ≡ self.now.writes }
    {
        &self.writes
    }
}
