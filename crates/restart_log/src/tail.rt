// What follows the printed lines of a run.
ghost use Rattle.std.specs.Prelude.{◌≡◌, ◌↔◌, ◌++◌, [], IsTrue, IfOk, OnOk};
ghost use Rattle.task_ast.specs.meaning.Names.{records_of};
ghost use Rattle.task_ast.specs.meaning.Layout.{cut};
ghost use Rattle.lock_checker.specs.Accepted.{program_of};
ghost use Rattle.restart_log.specs.meaning.Tail.{why_word, end_section, tail_text};

use crate::counts::push_counts;
use crate::lines::{push_number_after, push_numbered_line};
use crate::records::push_records;
use crate::restarts::push_restarts;
use gp_base::{End, Restart, Seq, Text, Why};
use lock_checker::Checked;
use reorder_list::Report;
use std::alloc::{AllocError, Global};
use task_ast::Head;

fn why_word(why: Why) -> &'static str
    ensures { result.now ≡ why_word why }
{
    match why {
        Why::Deadlock => "deadlock",
        Why::Index => "index",
        Why::Join => "join",
        Why::Threads => "threads",
    }
}

// Appends the section of how a run ended, of a program with these heads, whose records have these cells.
fn push_end(text: &mut Vec<u8>, heads: &[Head], end: End, records: &[i64]) -> Result<(), AllocError>
    ensures { OnOk result (text.new.items ≡ text.old.items ++ end_section end (cut (records_of heads.now) records.now)) }
{
    match end {
        End::Finished => {
            text.extend_from_slice(b"records\n")?;
            push_records(text, heads, records)
        }
        End::Stuck { why, thread, line } => {
            text.extend_from_slice(b"stuck ")?;
            text.extend_from_slice(why_word(why).as_bytes())?;
            push_number_after(text, b" thread ", thread.0)?;
            push_numbered_line(text, b" line ", line)
        }
        End::Spent(position) => push_numbered_line(text, b"spent ", position.0),
    }
}

// What follows the printed lines of a run that ended so.
fn tail_of(
    alloc: Global,
    c: &Checked,
    end: End,
    records: &[i64],
    subthreads: usize,
    restarts: &[Restart],
    unused: u32,
) -> Result<Text, AllocError>
    ensures { IfOk result (λ text. text ≡ tail_text end (cut (records_of (program_of c.now).heads) records.now) subthreads restarts.now unused) }
{
    let mut text = Vec::new(alloc);
    push_end(&mut text, c.program().heads.as_slice(), end, records)?;
    text.extend_from_slice(b"restarts\n")?;
    push_restarts(&mut text, restarts)?;
    push_counts(&mut text, subthreads, restarts, unused)?;
    Ok(Seq::from_vec(text))
}

/// What follows the printed lines of a run of this program that came to its end: the records by name or why it stopped,
/// the restarts, and the counts. The error is that memory is out.
pub fn tail_text(alloc: Global, c: &Checked, r: &Report) -> Result<Text, AllocError>
    ensures { IfOk result (λ text. text ≡ tail_text r.now.end (cut (records_of (program_of c.now).heads) r.now.records) r.now.subthreads r.now.journal.restarts r.now.unused) }
{
    tail_of(
        alloc,
        c,
        r.end,
        r.records.as_slice(),
        r.subthreads as usize,
        r.journal.restarts.as_slice(),
        r.unused,
    )
}

/// What follows the printed lines of a run of this program without faults, which has no restart. The error is that
/// memory is out.
pub fn plain_tail_text(
    alloc: Global,
    c: &Checked,
    end: End,
    records: &[i64],
    subthreads: usize,
) -> Result<Text, AllocError>
    ensures { IfOk result (λ text. text ≡ tail_text end (cut (records_of (program_of c.now).heads) records.now) subthreads [] 0) }
{
    tail_of(alloc, c, end, records, subthreads, &[], 0)
}

/// Whether this is the text that follows the printed lines of a run, as `tail_text`, which is made again for that. The
/// error is that memory is out.
pub fn is_tail_text(alloc: Global, text: &[u8], c: &Checked, r: &Report) -> Result<bool, AllocError>
    ensures { IfOk result (λ is. IsTrue is ↔ (text.now ≡ tail_text r.now.end (cut (records_of (program_of c.now).heads) r.now.records) r.now.subthreads r.now.journal.restarts r.now.unused)) }
{
    let again = tail_text(alloc, c, r)?;
    Ok(again.as_slice() == text)
}
