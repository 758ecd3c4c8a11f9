// Conflicts and dependents of the worked example.
use crate::adders::{REGS_0, REGS_1, REGS_2, TOTAL, foot};
use crate::outcome::passes;
use dependence::{conflict, mark};
use gp_base::{Footprint, Loc, Seq};
use std::alloc::{AllocError, Global};
use std::test::Fail;

// Two threads that add to one record, up to the second one's lock.
fn two_adders(alloc: Global) -> Result<Seq<Footprint>, AllocError> {
    let touched: [(&[Loc], &[Loc]); 8] = [
        (&[], &[REGS_0]),
        (&[], &[REGS_0, REGS_1]),
        (&[], &[REGS_1]),
        (&[], &[REGS_0, REGS_2]),
        (&[TOTAL], &[REGS_1, TOTAL]),
        (&[], &[REGS_2]),
        (&[], &[REGS_1]),
        (&[TOTAL], &[REGS_2, TOTAL]),
    ];
    let mut feet = Seq::new(alloc);
    for (reads, writes) in &touched {
        feet.push(foot(alloc, reads, writes)?)?;
    }
    Ok(feet)
}

// Whether these are the dependents of one of the eight.
fn has_dependents(feet: &Seq<Footprint>, first: usize, want: [bool; 8]) -> bool {
    if feet.len() != 8 || first >= 8 {
        return false;
    }
    let mut marks = [true; 8];
    mark(feet, first, &mut marks);
    marks == want
}

#[test]
fn dependents_of_two_adders(rt: HostRuntime) -> Result<(), Fail> {
    let feet = two_adders(rt.alloc())?;
    let of_4 = has_dependents(
        &feet,
        4,
        [false, false, false, false, true, false, true, true],
    );
    let of_2 = has_dependents(
        &feet,
        2,
        [false, false, true, false, true, false, true, true],
    );
    let of_1 = has_dependents(&feet, 1, [false, true, true, true, true, true, true, true]);
    drop(feet);
    passes(Ok(of_4 && of_2 && of_1))
}

// Whether a footprint of these reads and writes is in conflict with another.
fn conflicts(
    alloc: Global,
    one: (&[Loc], &[Loc]),
    other: (&[Loc], &[Loc]),
) -> Result<bool, AllocError> {
    let one = foot(alloc, one.0, one.1)?;
    let other = foot(alloc, other.0, other.1)?;
    Ok(conflict(&one, &other))
}

// Whether a join of a thread's registers is in conflict with a write of them, and not with another join.
fn conflicts_with_writes(alloc: Global) -> Result<bool, AllocError> {
    let joins_1: (&[Loc], &[Loc]) = (&[REGS_1], &[REGS_0]);
    let writes_1: (&[Loc], &[Loc]) = (&[], &[REGS_1, TOTAL]);
    let joins_1_too: (&[Loc], &[Loc]) = (&[REGS_1], &[REGS_2]);
    let is_first = conflicts(alloc, joins_1, writes_1)?;
    let is_second = conflicts(alloc, writes_1, joins_1)?;
    let is_third = conflicts(alloc, joins_1, joins_1_too)?;
    Ok(is_first && is_second && !is_third)
}

#[test]
fn one_writes_what_the_other_names(rt: HostRuntime) -> Result<(), Fail> {
    passes(conflicts_with_writes(rt.alloc()))
}
