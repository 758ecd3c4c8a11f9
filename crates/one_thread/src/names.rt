// The record cells that a subthread names.
ghost use Rattle.std.specs.Prelude.{◌≡◌, [], ◌++◌, map, OnOk};
ghost use Rattle.gp_base.specs.declared.footprint.Loc.TheVariants as loc;
ghost use Rattle.task_ast.specs.meaning.Footprint.{with_cell};

use gp_base::{Loc, RecNo, Seq};
use std::alloc::{AllocError, Global};
use std::collections::BTreeSet;
use std::marker::Model;

/// The record cells that a subthread reads, and those that it writes.
#[derive(Drop)]
pub struct Names {
    reads: BTreeSet<u32>,
    writes: BTreeSet<u32>,
}

impl Model for Names {
    ghost use Rattle.task_ast.specs.meaning.Footprint.{Named};

    ghost Value = { Named };

    ghost view = { λ n. record { reads = n.reads.keys; writes = n.writes.keys } };
}

// A set with one more member.
fn add(cells: &mut BTreeSet<u32>, cell: u32) -> Result<(), AllocError>
    ensures { OnOk result (cells.new.keys ≡ with_cell cell cells.old.keys) }
{
    cells.insert(cell)?;
    Ok(())
}

// The cells of a set stand last among locations.
fn put_behind(locations: &mut Seq<Loc>, cells: &BTreeSet<u32>) -> Result<(), AllocError>
    ensures { OnOk result (locations.new ≡ locations.old ++ map loc.Rec cells.now.keys) }
{
    for cell in cells.iter() {
        locations.push(Loc::Rec(RecNo(*cell)))?;
    }
    Ok(())
}

impl Names {
    /// No cell.
    pub fn new(alloc: Global) -> Names
        ensures { result ≡ record { reads = []; writes = [] } }
    {
        Names {
            reads: BTreeSet::new(alloc),
            writes: BTreeSet::new(alloc),
        }
    }

    /// A cell is read.
    pub fn read(&mut self, cell: u32) -> Result<(), AllocError>
        ensures { OnOk result (self.new ≡ record self.old { reads = with_cell cell self.old.reads }) }
    {
        add(&mut self.reads, cell)
    }

    /// A cell is written.
    pub fn write(&mut self, cell: u32) -> Result<(), AllocError>
        ensures { OnOk result (self.new ≡ record self.old { writes = with_cell cell self.old.writes }) }
    {
        add(&mut self.writes, cell)
    }

    /// The cells that are read stand last among locations, in rising order.
    pub fn put_reads(&self, locations: &mut Seq<Loc>) -> Result<(), AllocError>
        ensures { OnOk result (locations.new ≡ locations.old ++ map loc.Rec self.now.reads) }
    {
        put_behind(locations, &self.reads)
    }

    /// The cells that are written stand last among locations, in rising order.
    pub fn put_writes(&self, locations: &mut Seq<Loc>) -> Result<(), AllocError>
        ensures { OnOk result (locations.new ≡ locations.old ++ map loc.Rec self.now.writes) }
    {
        put_behind(locations, &self.writes)
    }
}
