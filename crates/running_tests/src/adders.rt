// What two threads that add to one total touch.
use gp_base::{Footprint, Loc, RecNo, Seq, ThreadNo};
use std::alloc::{AllocError, Global};

pub const REGS_0: Loc = Loc::Regs(ThreadNo(0));

pub const REGS_1: Loc = Loc::Regs(ThreadNo(1));

pub const REGS_2: Loc = Loc::Regs(ThreadNo(2));

pub const TOTAL: Loc = Loc::Rec(RecNo(0));

/// The footprint of locations that are read and written.
pub fn foot(alloc: Global, reads: &[Loc], writes: &[Loc]) -> Result<Footprint, AllocError> {
    Ok(Footprint {
        reads: Seq::from_slice(alloc, reads)?,
        writes: Seq::from_slice(alloc, writes)?,
    })
}
