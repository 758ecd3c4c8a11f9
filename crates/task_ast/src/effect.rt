// What a subthread leaves.

use gp_base::{Lines, Nums, RecNo, Seq, ThreadNo};

/// What a subthread leaves: the record cells that it wrote, each once and in rising order, with its last value; the
/// registers of its thread; those of the child that it forked, with the child's number; and the lines that it printed.
#[derive(Drop)]
pub struct Effect {
    pub thread: ThreadNo,
    pub writes: Seq<(RecNo, i64)>,
    pub regs: Nums,
    pub child: Option<(ThreadNo, Nums)>,
    pub prints: Lines,
}
