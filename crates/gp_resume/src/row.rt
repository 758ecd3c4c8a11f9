// A row of a log.

use gp_base::{Nums, Seq};

/// A row of a log: a position, how many bytes the text has up to the end of its lines, the registers that its subthread
/// left to its thread and to a child, and the cells that it wrote, each with its value.
#[derive(Drop)]
pub struct LogRow {
    pub position: i64,
    pub bytes: i64,
    pub regs: Nums,
    pub child: Nums,
    pub cells: Seq<(i64, i64)>,
}
