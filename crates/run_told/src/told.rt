// What a text tells of the run that has it.
ghost use Rattle.std.specs.Prelude.{◌≡◌, ◌++◌, All, IsTrue, IfOk, IfSome, codes};
ghost use Rattle.lock_checker.specs.Accepted.{program_of};
ghost use Rattle.restart_log.specs.meaning.Lines.{printed};
ghost use Rattle.retirement_log.specs.meaning.Rows.{IsWide};
ghost use Rattle.run_told.specs.Renders.{rendered};
ghost use Rattle.run_told.specs.Told.{TellsRun};

use crate::cut::cut_text;
use gp_base::{End, Journal, Lines, Nums, after};
use lock_checker::Checked;
use reorder_list::Report;
use restart_log::{is_tail_text, push_lines};
use std::alloc::{AllocError, Global};

/// What a text tells of a finished run: what was printed, and the cells of all records.
#[derive(Drop)]
pub struct Told {
    pub lines: Lines,
    pub cells: Nums,
}

// What the text of a run begins with, up to what follows its printed lines.
fn front_text(alloc: Global, lines: &Lines) -> Result<Vec<u8>, AllocError>
    ensures { IfOk result (λ text. text.items ≡ codes "output\n" ++ printed lines.now) }
{
    let mut text = Vec::from_slice(alloc, b"output\n")?;
    push_lines(&mut text, lines)?;
    Ok(text)
}

// Whether this is the text of a finished run of this program that printed these lines, and of which the report tells the rest.
fn is_told(
    alloc: Global,
    text: &[u8],
    checked: &Checked,
    lines: &Lines,
    report: &Report,
) -> Result<bool, AllocError>
    ensures { IfOk result (λ is. IsTrue is → text.now ≡ rendered (program_of checked.now).heads lines.now report.now) }
{
    let End::Finished = report.end else {
        return Ok(false);
    };
    let front = front_text(alloc, lines)?;
    match after(front.as_slice(), text) {
        Some(tail) => is_tail_text(alloc, tail, checked, report),
        None => Ok(false),
    }
}

// Each of these numbers is of 64 bits, as its type has it.
fn are_wide(values: &[i64])
    ensures { All IsWide values.now }
{
    for value in values {
        let _value = *value;
    }
}

// So is each of what is told.
fn is_wide(told: &Told)
    ensures lines { All (All IsWide) told.now.lines }
    ensures cells { All IsWide told.now.cells }
{
    are_wide(told.cells.as_slice());
    for line in told.lines.as_slice() {
        are_wide(line.as_slice());
    }
}

// What these lines and this report tell of the run that has the text, where they are rendered as that.
fn compared(
    alloc: Global,
    text: &[u8],
    checked: &Checked,
    lines: Lines,
    report: Report,
) -> Result<Option<Told>, AllocError>
    ensures { IfOk result (λ told. IfSome told (λ told. TellsRun (program_of checked.now).heads told.lines told.cells text.now)) }
{
    let same = is_told(alloc, text, checked, &lines, &report)?;
    if !same {
        return Ok(None);
    }
    let Report { records, .. } = report;
    let told = Told {
        lines,
        cells: records,
    };
    is_wide(&told);
    Ok(Some(told))
}

/// What the text of a finished run of this program tells, whose journal this is: whatever run has this text, it finished,
/// printed these lines, and left these cells in its records. None where the text is that of no finished run. What is read is
/// rendered again and compared, so no clause says that it is always read: that is tested. The error is that memory is out.
pub fn told_by(
    alloc: Global,
    text: &[u8],
    checked: &Checked,
    journal: Journal,
) -> Result<Option<Told>, AllocError>
    ensures { IfOk result (λ told. IfSome told (λ told. TellsRun (program_of checked.now).heads told.lines told.cells text.now)) }
{
    let Ok(read) = str::from_utf8(text) else {
        return Ok(None);
    };
    match cut_text(alloc, read, journal)? {
        Some((lines, report)) => compared(alloc, text, checked, lines, report),
        None => Ok(None),
    }
}
