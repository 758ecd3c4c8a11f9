// What a run reads, and what it changes.

use crate::Recheck;
use crate::cells::CellsAtHand;
use gp_base::{Feed, Lines, Nums, RecNo, Seq, ThreadNo};
use record_store::Bundle;
use std::snapshot::Snapshot;
use std::sync::atomic::{AtomicBool, Ordering};
use task_ast::Next;
use task_code::{Code, Instr};

/// What a run reads and never changes: the code, its task's number and instructions, the feeds, the recheck that has their
/// sums, the record cells under each lock cell, the bundles as they came, `$ret` of the thread that is joined, and its
/// thread; and whether what it read of a feed was not as it came.
#[derive(Drop)]
pub struct Ground<'a> {
    pub code: &'a Code,
    pub task: u32,
    pub instrs: &'a [Instr],
    pub feeds: &'a [Feed],
    pub recheck: &'a Recheck,
    pub under: &'a [Seq<RecNo>],
    pub bundles: Snapshot<Seq<Bundle>>,
    pub joined: i64,
    pub me: ThreadNo,
    pub is_misfed: AtomicBool,
}

impl<'a> Ground<'a> {
    /// Asks the sum over a feed for the cell that was read in a row and a field. Where the feed is not as it came, that is
    /// noted.
    pub fn ask_feed(&self, number: usize, feed: &Feed, row: i64, field: i64) {
        if !self.recheck.is_as_read(number, feed, row, field) {
            self.is_misfed.store(true, Ordering::SeqCst);
        }
    }
}

/// Where a run stands: the number of its next instruction, and its control variables.
#[derive(Drop)]
pub struct Cursor {
    pub pc: usize,
    pub ctl: Nums,
}

/// What a run did so far: the registers of its thread and of the child that it forked, the cells at hand, which it
/// writes in place, the lines that it printed, and how many control steps it made.
#[derive(Drop)]
pub struct Doing<'a> {
    pub regs: Nums,
    pub child: Nums,
    pub cells: CellsAtHand<'a>,
    pub lines: Lines,
    pub steps: u64,
}

/// What one control step did: it led on, or it found a loop turn, with the number of the instruction at which its body
/// begins, or a stop.
#[derive(Drop)]
pub enum Went {
    On,
    Turned(usize),
    Stopped(Next),
}
