// What a run comes to.

ghost use Rattle.std.specs.Prelude.{◌≡◌};
ghost use Rattle.reorder_list.specs.declared.report.StopWhy.TheVariants as stop;

use gp_base::{End, Journal, Nums};
use std::alloc::AllocError;

/// How a run that came to its end ended: the end itself, the cells of all records, how many subthreads there were, how
/// many of the faults struck no attempt, and what was done.
#[derive(Drop)]
pub struct Report {
    pub end: End,
    pub records: Nums,
    pub subthreads: u32,
    pub unused: u32,
    pub journal: Journal,
}

/// Why a run stopped before its end: the output took no more, or memory is out.
#[derive(Clone, Copy, PartialEq, Eq)]
pub enum StopWhy {
    WriteFault,
    OutOfMemory,
}

impl From<AllocError> for StopWhy {
    ghost from_gives = { λ _ e. e ≡ stop.OutOfMemory };

    fn from(_error: AllocError) -> StopWhy {
        StopWhy::OutOfMemory
    }
}

/// A run that stopped before its end: why, and what was done before.
#[derive(Drop)]
pub struct EngineStop {
    pub why: StopWhy,
    pub journal: Journal,
}
