// The summary of a batch that the program made itself.
ghost use Rattle.std.specs.Prelude.{◌≡◌, ◌↔◌, ◌++◌, IsTrue, IfOk, OnOk};
ghost use Rattle.restart_log.specs.meaning.Soak.{wrapped_sum, soak_end, soak_text};

use crate::counts::push_counts;
use crate::lines::{push_number, push_numbered_line};
use gp_base::{End, Seq, Text};
use reorder_list::Report;
use std::alloc::{AllocError, Global};

// The sum of all cells, as far as 64 bits hold it.
#[tactic(auto, unfolding(crate::specs::meaning::Soak::wrapped_sum))]
fn wrapped_sum(cells: &[i64]) -> i64
    ensures { result ≡ wrapped_sum cells.now }
{
    let mut sum: i64 = 0;
    for cell in cells {
        sum = sum.wrapping_add(*cell);
    }
    sum
}

// Appends how the batch ended.
fn push_end(text: &mut Vec<u8>, end: End, records: &[i64]) -> Result<(), AllocError>
    ensures { OnOk result (text.new.items ≡ text.old.items ++ soak_end end records.now) }
{
    match end {
        End::Finished => {
            text.extend_from_slice(b"end finished\n")?;
            push_numbered_line(text, b"sum ", wrapped_sum(records))
        }
        End::Stuck { .. } => text.extend_from_slice(b"end stuck\n"),
        End::Spent(_) => text.extend_from_slice(b"end spent\n"),
    }
}

/// The text of a batch of so many moves that were drawn from this start: how its run ended, the sum of its records
/// where it finished, and the counts. The error is that memory is out.
pub fn soak_text(alloc: Global, moves: u32, start: u64, r: &Report) -> Result<Text, AllocError>
    ensures { IfOk result (λ text. text ≡ soak_text moves start r.now.end r.now.records r.now.subthreads r.now.journal.restarts r.now.unused) }
{
    let mut text = Vec::from_slice(alloc, b"soak ")?;
    push_number(&mut text, moves)?;
    push_numbered_line(&mut text, b" ", start)?;
    push_end(&mut text, r.end, r.records.as_slice())?;
    push_counts(
        &mut text,
        r.subthreads as usize,
        r.journal.restarts.as_slice(),
        r.unused,
    )?;
    Ok(Seq::from_vec(text))
}

/// Whether this is the text of a batch, as `soak_text`, which is made again for that. The error is that memory is out.
pub fn is_soak_text(
    alloc: Global,
    text: &[u8],
    moves: u32,
    start: u64,
    r: &Report,
) -> Result<bool, AllocError>
    ensures { IfOk result (λ is. IsTrue is ↔ (text.now ≡ soak_text moves start r.now.end r.now.records r.now.subthreads r.now.journal.restarts r.now.unused)) }
{
    let again = soak_text(alloc, moves, start, r)?;
    Ok(again.as_slice() == text)
}
