// The rows of a log, as bytes.
ghost use Rattle.std.specs.Prelude.{◌≡◌, ℤ, pos, ◌++◌, All, codes, map, flat_map, unwrap_or, IfOk, OnOk};
ghost use Rattle.std.specs.Fmt.{signed_decimal};
ghost use Rattle.task_ast.specs.meaning.Under.{under_lock};
ghost use Rattle.record_store.specs.Given.{value_beside, value_in};
ghost use Rattle.record_store.specs.Lent.{new_write};
ghost use Rattle.subthread.specs.Tasks.{effect_of};
ghost use Rattle.restart_log.specs.meaning.Lines.{spaced};
ghost use Rattle.retirement_log.specs.meaning.Rows.{IsWide, IsWideCell, IsWideRow, group, cell_numbers, groups_text};
ghost use Rattle.retirement_log.specs.meaning.Log.{child_left, numbered, log_row};

use gp_base::{LockNo, RecNo, Seq, ThreadNo};
use record_store::{Bundle, Summed};
use restart_log::{push_number, push_spaced};
use std::alloc::{AllocError, Global};
use subthread::{Done, Work};

// The record cells under a lock cell.
fn under_lock<'a>(under: &'a [Seq<RecNo>], lock: LockNo) -> &'a [RecNo]
    ensures { result.now ≡ under_lock under.now lock }
{
    match under.get(lock.0 as usize) {
        Some(cells) => cells.as_slice(),
        None => &[],
    }
}

// The value beside the number of a cell, where it is among these.
fn value_beside(cells: &[RecNo], values: &[i64], cell: RecNo) -> Option<i64>
    ensures { (other : ℤ) → unwrap_or result other ≡ value_beside cells.now values.now cell other }
{
    for at in 0..cells.len().min(values.len()) {
        let number = cells[at];
        if number.0 == cell.0 {
            return Some(values[at]);
        }
    }
    None
}

// The value of a cell in the first bundle that has it, or 0.
#[tactic(auto, using(crate::proofs::Cells::in_next, crate::proofs::Cells::in_none))]
fn value_in(under: &[Seq<RecNo>], bundles: &[Bundle], cell: RecNo) -> i64
    ensures { result ≡ value_in under.now bundles.now cell }
{
    for bundle in bundles {
        let cells = under_lock(under, bundle.lock);
        if let Some(value) = value_beside(cells, bundle.cells.as_slice(), cell) {
            return value;
        }
    }
    0
}

// Each of these numbers is of 64 bits, as its type has it: a fact for contracts, which takes no time.
fn are_wide(values: &[i64])
    ensures { All IsWide values.now }
{
    for value in values {
        let _value = *value;
    }
}

// Appends a group of numbers.
fn push_group(text: &mut Vec<u8>, values: &[i64]) -> Result<(), AllocError>
    ensures text { OnOk result (text.new.items ≡ text.old.items ++ group values.now) }
    ensures wide { All IsWide values.now }
{
    are_wide(values);
    text.extend_from_slice(b" ;")?;
    push_spaced(text, values)
}

// Appends the group of the registers of a child, which is empty where there is no child.
fn push_child(text: &mut Vec<u8>, child: &Option<(ThreadNo, Summed)>) -> Result<(), AllocError>
    ensures text { OnOk result (text.new.items ≡ text.old.items ++ group (child_left child.now)) }
    ensures wide { All IsWide (child_left child.now) }
{
    match child {
        Some(forked) => push_group(text, forked.1.as_slice()),
        None => push_group(text, &[]),
    }
}

// Appends a cell and its value, each after a space.
fn push_cell(text: &mut Vec<u8>, cell: RecNo, value: i64) -> Result<(), AllocError>
    ensures text { OnOk result (text.new.items ≡ text.old.items ++ spaced (cell_numbers (numbered (cell, value)))) }
    ensures wide { IsWideCell (numbered (cell, value)) }
{
    text.extend_from_slice(b" ")?;
    push_number(text, cell.0)?;
    text.extend_from_slice(b" ")?;
    push_number(text, value)
}

// Appends the group of the cells that were written, each with the value that it has in these bundles.
fn push_cells(
    text: &mut Vec<u8>,
    under: &[Seq<RecNo>],
    bundles: &[Bundle],
    old: &[(RecNo, i64)],
) -> Result<(), AllocError>
    ensures text { OnOk result (text.new.items ≡ text.old.items ++ group (flat_map cell_numbers (map numbered (map (new_write under.now bundles.now) old.now)))) }
    ensures wide { OnOk result (All IsWideCell (map numbered (map (new_write under.now bundles.now) old.now))) }
{
    text.extend_from_slice(b" ;")?;
    for write in old {
        push_cell(text, write.0, value_in(under, bundles, write.0))?;
    }
    Ok(())
}

/// The three groups of the row of a run: the registers of its thread, those of its child, and each cell that was
/// written with its value. The error is that memory is out.
pub fn groups_of(alloc: Global, work: &Work, done: &Done) -> Result<Vec<u8>, AllocError>
    ensures text { IfOk result (λ text. text.items ≡ groups_text (log_row 0 0 (effect_of work.now done.now))) }
    ensures wide { OnOk result (IsWideRow (log_row 0 0 (effect_of work.now done.now))) }
{
    let under = work.code.layout().under.as_slice();
    let bundles = done.task.given.bundles.as_slice();
    let mut text = Vec::new(alloc);
    push_group(&mut text, done.effect.regs.as_slice())?;
    push_child(&mut text, &done.effect.child)?;
    push_cells(&mut text, under, bundles, done.old.as_slice())?;
    text.extend_from_slice(b"\n")?;
    Ok(text)
}

/// A row: a position, the bytes of the text up to the end of its lines, and its groups. The error is that memory is
/// out.
pub fn row_with(
    alloc: Global,
    position: u32,
    bytes: u64,
    groups: &[u8],
) -> Result<Vec<u8>, AllocError>
    ensures { IfOk result (λ text. text.items ≡ signed_decimal (pos position) ++ codes " " ++ signed_decimal (pos bytes) ++ groups.now) }
{
    let mut text = Vec::new(alloc);
    push_number(&mut text, position)?;
    text.extend_from_slice(b" ")?;
    push_number(&mut text, bytes)?;
    text.extend_from_slice(groups)?;
    Ok(text)
}
