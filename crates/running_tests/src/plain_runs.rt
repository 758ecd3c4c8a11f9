// Plain runs within limits.
ghost use Rattle.std.specs.Prelude.{◌<◌, ◌^◌, length};

use crate::adders::{REGS_0, REGS_1, REGS_2, TOTAL};
use crate::outcome::passes;
use crate::programs::{ADD, EMPTY, accepted};
use gp_base::{End, Inputs, Limits, Loc, Pos, Seq};
use lock_checker::Checked;
use one_thread::{PlainRun, Step, run_plain};
use std::alloc::{AllocError, Global};
use std::test::Fail;

// A program's text, the cells of its records, its limits of turns and of subthreads, how its run ends, how many
// subthreads that has, and the cells then.
type Row = (
    &'static [u8],
    &'static [i64],
    u64,
    u32,
    End,
    usize,
    &'static [i64],
);

const LOOPS: &[u8] = b"task main() { while 1 { } }";

const COUNTS: &[u8] = b"task main() { var i; while i < 10 { i = i + 1; } }";

const ROWS: [Row; 5] = [
    (EMPTY, &[], 1, 1, End::Finished, 1, &[]),
    (LOOPS, &[], 10, 100, End::Spent(Pos(0)), 1, &[]),
    (COUNTS, &[], 10, 100, End::Finished, 1, &[]),
    (ADD, &[0], 100, 10, End::Spent(Pos(10)), 10, &[7]),
    (ADD, &[0], 100, 11, End::Finished, 11, &[7]),
];

// The plain run of a program whose records hold these cells, within these limits.
fn run_on(
    alloc: Global,
    checked: &Checked,
    cells: &[i64],
    limits: Limits,
) -> Result<PlainRun, AllocError> {
    let inputs = Inputs {
        records: Seq::from_slice(alloc, cells)?,
        feeds: Seq::new(alloc),
    };
    run_plain(alloc, checked, &inputs, limits)
}

/// The same of a text.
pub fn run_within(
    alloc: Global,
    text: &[u8],
    cells: &[i64],
    turns: u64,
    subthreads: u32,
) -> Result<PlainRun, Fail>
    requires { length text.now < 2 ^ 32 }
{
    let checked = accepted(alloc, text)?;
    let ran = run_on(alloc, &checked, cells, Limits { turns, subthreads });
    drop(checked);
    Ok(ran?)
}

// Fails where a row's run does not end as the row tells.
fn ends(alloc: Global, row: &Row) -> Result<(), Fail> {
    let (text, cells, turns, subthreads, end, steps, records) = row;
    if text.len() > 10000 {
        return Err(Fail::from("the text is too long"));
    }
    let run = run_within(alloc, text, cells, *turns, *subthreads)?;
    let is_told = run.end == *end
        && run.order.len() == *steps
        && run.records.as_slice() == *records;
    drop(run);
    passes(Ok(is_told))
}

#[test]
fn ends_by_its_limits(rt: HostRuntime) -> Result<(), Fail> {
    for row in &ROWS {
        ends(rt.alloc(), row)?;
    }
    Ok(())
}

// Whether the steps read and write these.
fn touch(steps: &[Step], touched: &[(&[Loc], &[Loc])]) -> bool {
    for (step, (reads, writes)) in steps.iter().zip(touched) {
        let is_told = step.foot.reads.as_slice() == *reads
            && step.foot.writes.as_slice() == *writes;
        if !is_told {
            return false;
        }
    }
    steps.len() == touched.len()
}

// Whether the steps of the two adders read and write what they should.
fn touch_as_adders(steps: &[Step]) -> bool {
    let touched: [(&[Loc], &[Loc]); 11] = [
        (&[], &[REGS_0]),
        (&[], &[REGS_0, REGS_1]),
        (&[], &[REGS_1]),
        (&[], &[REGS_0, REGS_2]),
        (&[TOTAL], &[REGS_1, TOTAL]),
        (&[], &[REGS_2]),
        (&[], &[REGS_1]),
        (&[TOTAL], &[REGS_2, TOTAL]),
        (&[REGS_1], &[REGS_0]),
        (&[], &[REGS_2]),
        (&[REGS_2], &[REGS_0]),
    ];
    touch(steps, &touched)
}

#[test]
fn names_the_records_that_it_reads_and_writes(rt: HostRuntime) -> Result<(), Fail> {
    let run = run_within(rt.alloc(), ADD, &[0], 1000, 20)?;
    let is_told = touch_as_adders(run.order.as_slice());
    drop(run);
    passes(Ok(is_told))
}
