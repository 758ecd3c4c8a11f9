// Notes that keep a log.
ghost use Rattle.std.specs.Prelude.{◌≡◌, ◌≢◌, ◌≤◌, ◌<◌, ◌+◌, ◌^◌, ℕ, List, [], ◌∷◌, length, slice_get, Option, Some, None, IfOk, IfSome, OnOk, MatchOption};
ghost use Rattle.subthread.specs.Tasks.{effect_of};
ghost use Rattle.retirement_log.specs.meaning.Telling.{TellsPart};
ghost use Rattle.retirement_log.specs.Telling.{IsRowOf, Tells, KeepsRows, KeepsOthers, LacksFirst};

use crate::rows::{groups_of, row_with};
use crew::Notes;
use gp_base::{Pos, Sink, SinkFault, put_all};
use restart_log::printed;
use std::alloc::{AllocError, Global};
use std::collections::VecDeque;
use subthread::{Done, Work};

/// The row of a position that has not retired: its groups, and how many bytes its lines have.
#[derive(Drop)]
pub struct Pending {
    pub groups: Vec<u8>,
    pub size: u64,
}

/// Keeps the log of one run, a row for each position that retires: what its subthread left, and how many bytes of the
/// text there are up to the end of its lines. The row goes out when the position has retired.
#[derive(Drop)]
pub struct LogNotes {
    alloc: Global,
    next: u32,
    bytes: u64,
    rows: VecDeque<Option<Pending>>,
}

// Makes a list of rows so long, with no row at the places that are new.
fn grow(rows: &mut VecDeque<Option<Pending>>, count: usize) -> Result<(), AllocError>
    ensures count { OnOk result (count ≤ length rows.new.items) }
    ensures kept { KeepsRows rows.old.items rows.new.items }
{
    while rows.len() < count {
        rows.push_back(None)?;
    }
    Ok(())
}

// Puts a row into its place.
fn put_row(rows: &mut VecDeque<Option<Pending>>, at: usize, row: Pending)
    requires { at < length rows.old.items }
    ensures put { slice_get rows.new.items at ≡ Some (Some row) }
    ensures kept { KeepsOthers at rows.old.items rows.new.items }
{
    rows[at] = Some(row);
}

// Takes the first place out, with the row that it has, if any.
fn take_first(rows: &mut VecDeque<Option<Pending>>) -> Option<Pending>
    ensures { MatchOption result (LacksFirst rows.old.items) (λ row. rows.old.items ≡ Some row ∷ rows.new.items) }
{
    match rows.pop_front() {
        Some(first) => first,
        None => None,
    }
}

// The row of a run. The error is that memory is out.
fn pending_of(alloc: Global, work: &Work, done: &Done) -> Result<Pending, AllocError>
    ensures { IfOk result (λ row. IsRowOf row (effect_of work.now done.now)) }
{
    let groups = groups_of(alloc, work, done)?;
    let lines = printed(alloc, &done.effect.prints)?;
    Ok(Pending {
        groups,
        size: lines.len() as u64,
    })
}

// How many bytes two parts of a text have together, where a row can say so.
fn together(first: u64, second: u64) -> Option<u64>
    ensures sum { IfSome result (λ sum. sum ≡ first + second) }
    ensures wide { IfSome result (λ sum. sum < 2 ^ 63) }
{
    let sum = first.checked_add(second)?;
    if sum > i64::MAX as u64 {
        return None;
    }
    Some(sum)
}

impl LogNotes {
    /// The notes of a run that begins. Takes no memory.
    pub fn new(alloc: Global) -> LogNotes
        ensures { (start : Option (List ℕ)) → Tells result start start (λ p. None) [] }
    {
        LogNotes {
            alloc,
            next: 0,
            bytes: b"output\n".len() as u64,
            rows: VecDeque::new(alloc),
        }
    }
}

impl Notes for LogNotes {
    ghost tells = { Tells };

    ghost part = { TellsPart };

    fn took(&mut self, work: &Work, done: &Done) -> Result<(), AllocError> {
        let Some(at) = done.task.pos.0.checked_sub(self.next) else {
            return Ok(());
        };
        let at = at as usize;
        let row = pending_of(self.alloc, work, done)?;
        grow(&mut self.rows, at + 1)?;
        put_row(&mut self.rows, at, row);
        Ok(())
    }

    fn retired<L: Sink>(&mut self, position: Pos, log: &mut L) -> Result<(), SinkFault> {
        let Some(row) = take_first(&mut self.rows) else {
            return Ok(());
        };
        let (Some(next), Some(bytes)) = (self.next.checked_add(1), together(self.bytes, row.size))
        else {
            return Err(SinkFault::OutOfMemory);
        };
        let text = row_with(self.alloc, position.0, bytes, &row.groups)?;
        put_all(log, &text)?;
        self.next = next;
        self.bytes = bytes;
        Ok(())
    }
}
