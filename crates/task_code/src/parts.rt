// What lowered code consists of.

use crate::instrs::{Instr, Shape};
use gp_base::{LockNo, Seq};
use std::snapshot::Snapshot;
use task_ast::{Layout, Program};

/// The instructions, the shape and the number of control parameters of each task in text order, the number of `main`,
/// the stated numbers of the barriers, the record cells under each lock cell, and the lock cell over each record cell.
pub struct Parts {
    pub program: Snapshot<Program>,
    pub tasks: Seq<Seq<Instr>>,
    pub shapes: Seq<Shape>,
    pub params: Seq<usize>,
    pub main: u32,
    pub barriers: Seq<u32>,
    pub layout: Layout,
    pub over: Seq<LockNo>,
}

impl Drop for Parts {
    fn drop(self) {
        let Self {
            program: _,
            tasks: _,
            shapes: _,
            params: _,
            main: _,
            barriers: _,
            layout: _,
            over: _,
        } = self;
    }
}
