// What a subthread reads and what it writes.
ghost use Rattle.std.specs.Prelude.{◌≡◌, ◌∷◌, ◌++◌, map, IfOk, OnOk};
ghost use Rattle.gp_base.specs.declared.footprint.Loc.TheVariants as loc;
ghost use Rattle.task_ast.specs.meaning.Footprint.{joined_registers, child_registers};
ghost use Rattle.one_thread.specs.Moves.{foot_with};

use crate::names::Names;
use crate::turns::thread_number;
use gp_base::{Footprint, Loc, Seq};
use std::alloc::{AllocError, Global};
use task_ast::SyncOp;

// A join reads the registers of the thread that it joins.
fn add_joined(reads: &mut Seq<Loc>, begins: &SyncOp) -> Result<(), AllocError>
    ensures { OnOk result (reads.new ≡ reads.old ++ joined_registers begins.now) }
{
    if let SyncOp::Join(h) = begins {
        if *h >= 0 {
            return reads.push(Loc::Regs(thread_number(*h as usize)?));
        }
    }
    Ok(())
}

// A fork writes the registers of the child.
fn add_child(writes: &mut Seq<Loc>, child: Option<usize>) -> Result<(), AllocError>
    ensures { OnOk result (writes.new ≡ writes.old ++ child_registers child) }
{
    match child {
        Some(c) => writes.push(Loc::Regs(thread_number(c)?)),
        None => Ok(()),
    }
}

// What a subthread reads that names these record cells.
fn reads(alloc: Global, begins: &SyncOp, named: &Names) -> Result<Seq<Loc>, AllocError>
    ensures { IfOk result (λ reads. reads ≡ joined_registers begins.now ++ map loc.Rec named.now.reads) }
{
    let mut reads = Seq::new(alloc);
    add_joined(&mut reads, begins)?;
    named.put_reads(&mut reads)?;
    Ok(reads)
}

// What it writes.
fn writes(
    alloc: Global,
    t: usize,
    child: Option<usize>,
    named: &Names,
) -> Result<Seq<Loc>, AllocError>
    ensures { IfOk result (λ writes. writes ≡ loc.Regs t ∷ child_registers child ++ map loc.Rec named.now.writes) }
{
    let thread = thread_number(t)?;
    let mut writes = Seq::new(alloc);
    writes.push(Loc::Regs(thread))?;
    add_child(&mut writes, child)?;
    named.put_writes(&mut writes)?;
    Ok(writes)
}

/// The footprint of a subthread that names these record cells.
pub fn footprint(
    alloc: Global,
    t: usize,
    begins: &SyncOp,
    child: Option<usize>,
    named: &Names,
) -> Result<Footprint, AllocError>
    ensures { IfOk result (λ foot. foot ≡ foot_with t begins.now child named.now) }
{
    let reads = reads(alloc, begins, named)?;
    let writes = writes(alloc, t, child, named)?;
    Ok(Footprint { reads, writes })
}
