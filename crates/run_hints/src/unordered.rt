// Record cells that a thread reads before another writes them, with nothing that orders the two but their turns.

use crate::statements::statements_of;
use crate::threads::{Tasks, child_of};
use crate::words::{at, push_counted, put};
use gp_base::{Footprint, Loc, Name, ThreadNo};
use one_thread::Step;
use run_views::{push_between, push_record};
use std::alloc::{AllocError, Global};
use std::collections::BTreeSet;
use task_ast::{Head, Program, SyncOp, What, natural};
use text_pieces::Piece::{Number, Word};
use text_pieces::push_pieces;

// The tasks with the records that they only read, and that another task of the run writes, by the numbers of both; and of
// each record cell its record.
#[derive(Drop)]
struct OnlyRead {
    pairs: BTreeSet<(u32, u32)>,
    records: Vec<u32>,
}

// The number of a record.
fn record_number(heads: &[Head], record: &Name) -> Option<u32> {
    let mut number: u32 = 0;
    for head in heads {
        if let Head::RecHead { name, .. } = head {
            if name.as_slice() == record.as_slice() {
                return Some(number);
            }
            number = number.saturating_add(1);
        }
    }
    None
}

// The record of each cell.
fn records_of(alloc: Global, heads: &[Head]) -> Result<Vec<u32>, AllocError> {
    let mut records = Vec::new(alloc);
    let mut number: u32 = 0;
    for head in heads {
        if let Head::RecHead { size, .. } = head {
            for _ in 0..natural(*size) {
                records.push(number)?;
            }
            number = number.saturating_add(1);
        }
    }
    Ok(records)
}

// The records that tasks read, and those that they write, by the numbers of both.
#[derive(Drop)]
struct RecordUses {
    reads: BTreeSet<(u32, u32)>,
    writes: BTreeSet<(u32, u32)>,
    written: BTreeSet<u32>,
}

impl RecordUses {
    // What a statement of a task names.
    fn note(&mut self, heads: &[Head], task: u32, what: &What) -> Result<(), AllocError> {
        match what {
            What::Read(record, _, _) => {
                if let Some(record) = record_number(heads, record) {
                    self.reads.insert((task, record))?;
                }
            }
            What::Write(record, _, _) => {
                if let Some(record) = record_number(heads, record) {
                    self.writes.insert((task, record))?;
                    self.written.insert(record)?;
                }
            }
            _ => {}
        }
        Ok(())
    }
}

// What the tasks of a run name.
fn named_in(alloc: Global, program: &Program, tasks: &Tasks) -> Result<RecordUses, AllocError> {
    let mut named = RecordUses {
        reads: BTreeSet::new(alloc),
        writes: BTreeSet::new(alloc),
        written: BTreeSet::new(alloc),
    };
    let mut number: u32 = 0;
    for task in program.tasks.as_slice() {
        if tasks.are_run(number) {
            for stmt in &statements_of(alloc, task)? {
                named.note(program.heads.as_slice(), number, &stmt.what)?;
            }
        }
        number = number.saturating_add(1);
    }
    Ok(named)
}

// The tasks with the records that they only read, and that another task writes.
fn pairs_of(alloc: Global, named: &RecordUses) -> Result<BTreeSet<(u32, u32)>, AllocError> {
    let mut pairs = BTreeSet::new(alloc);
    for pair in named.reads.iter() {
        if named.written.contains(&pair.1) && !named.writes.contains(pair) {
            pairs.insert(*pair)?;
        }
    }
    Ok(pairs)
}

impl OnlyRead {
    // Whether a task only reads the record of a cell.
    fn has(&self, task: u32, cell: u32) -> bool {
        match self.records.get(cell as usize) {
            Some(record) => self.pairs.contains(&(task, *record)),
            None => false,
        }
    }
}

// A subthread: its thread, its position plus 1, and the line in which it begins.
#[derive(Clone, Copy)]
struct Access {
    thread: ThreadNo,
    position: u32,
    line: u32,
}

// A thread reads a cell, and another writes it later.
#[derive(Clone, Copy)]
struct Unordered {
    read: Access,
    written: Access,
}

// What a cell has had so far: its last read by a thread that only reads, and the first write that such a read comes before.
#[derive(Clone, Copy)]
struct CellReads {
    read: Option<Access>,
    found: Option<Unordered>,
}

const NOTHING: CellReads = CellReads {
    read: None,
    found: None,
};

// What was found, unless it is of a read by this thread.
fn other_than(found: Option<Unordered>, thread: ThreadNo) -> Option<Unordered> {
    let Some(pair) = found else {
        return None;
    };
    if pair.read.thread.0 == thread.0 {
        return None;
    }
    Some(pair)
}

// The cells, and by thread the position plus 1 at which it last waited for others, or was forked.
#[derive(Drop)]
struct Accesses {
    cells: Vec<CellReads>,
    waited: Vec<u32>,
}

impl Accesses {
    fn read(&mut self, cell: u32, place: &Access) {
        let number = cell as usize;
        if number < self.cells.len() {
            let found = other_than(self.cells[number].found, place.thread);
            let read = Some(*place);
            self.cells[number] = CellReads { read, found };
        }
    }

    // A write comes behind a read where its thread has waited for others since then.
    fn write(&mut self, cell: u32, place: &Access) {
        let since = at(&self.waited, place.thread.0 as usize);
        let Some(cell) = self.cells.get_mut(cell as usize) else {
            return;
        };
        let Some(read) = cell.read else {
            return;
        };
        let is_unordered = read.thread.0 != place.thread.0 && read.position > since;
        if is_unordered && cell.found.is_none() {
            cell.found = Some(Unordered {
                read,
                written: *place,
            });
        }
    }

    // Where the threads stand to others when a subthread begins.
    fn wait(&mut self, step: &Step, position: u32) -> Result<(), AllocError> {
        match &step.begins.sync {
            SyncOp::Join(_) | SyncOp::Barrier(_) | SyncOp::Settle { .. } => {
                put(&mut self.waited, step.thread.0 as usize, position)?;
            }
            _ => {}
        }
        match child_of(step) {
            Some(child) => put(&mut self.waited, child.0 as usize, position),
            None => Ok(()),
        }
    }

    // A read by a thread of this task, of a cell that the task only reads.
    fn read_at(&mut self, lists: &OnlyRead, task: u32, loc: &Loc, place: &Access) {
        if let Loc::Rec(cell) = loc
            && lists.has(task, cell.0)
        {
            self.read(cell.0, place);
        }
    }

    fn write_at(&mut self, loc: &Loc, place: &Access) {
        if let Loc::Rec(cell) = loc {
            self.write(cell.0, place);
        }
    }

    // What a subthread of a thread of this task reads and writes.
    fn touch(&mut self, lists: &OnlyRead, task: u32, foot: &Footprint, place: &Access) {
        for loc in foot.reads.as_slice() {
            self.read_at(lists, task, loc, place);
        }
        for loc in foot.writes.as_slice() {
            self.write_at(loc, place);
        }
    }

    // One subthread more, of a thread of this task.
    fn note(
        &mut self,
        lists: &OnlyRead,
        task: u32,
        step: &Step,
        position: u32,
    ) -> Result<(), AllocError> {
        self.wait(step, position)?;
        let place = Access {
            thread: step.thread,
            position,
            line: step.begins.line,
        };
        self.touch(lists, task, &step.foot, &place);
        Ok(())
    }
}

// The cells of a run, after its last subthread.
fn cells_of(
    alloc: Global,
    order: &[Step],
    tasks: &Tasks,
    lists: &OnlyRead,
) -> Result<Accesses, AllocError> {
    let mut cells = Accesses {
        cells: Vec::from_elem(alloc, NOTHING, lists.records.len())?,
        waited: Vec::new(alloc),
    };
    let mut position: u32 = 0;
    for step in order {
        position = position.saturating_add(1);
        if let Some(task) = tasks.number_of(step.thread) {
            cells.note(lists, task, step, position)?;
        }
    }
    Ok(cells)
}

// Appends that a thread reads a cell and another writes it later.
fn push_one(
    text: &mut Vec<u8>,
    heads: &[Head],
    cell: u64,
    found: Unordered,
) -> Result<(), AllocError> {
    push_between(text, b"hint: thread ", found.read.thread.0, b" reads ")?;
    push_record(text, heads, cell)?;
    push_pieces(
        text,
        &[
            Word(b" after line "),
            Number(u64::from(found.read.line)),
            Word(b", and thread "),
            Number(u64::from(found.written.thread.0)),
            Word(b" has a write of it later, after line "),
            Number(u64::from(found.written.line)),
            Word(b": no join or barrier orders the two, only their turns"),
        ],
    )
}

// Appends the first of these cells that a thread reads and another writes later, and how many more there are.
fn push_first(text: &mut Vec<u8>, heads: &[Head], cells: &[CellReads]) -> Result<(), AllocError> {
    let mut number: u64 = 0;
    let mut count: u64 = 0;
    for cell in cells {
        if let Some(found) = cell.found {
            if count == 0 {
                push_one(text, heads, number, found)?;
            }
            count = count.saturating_add(1);
        }
        number = number.saturating_add(1);
    }
    if count == 0 {
        return Ok(());
    }
    let more = count.saturating_sub(1);
    if more == 0 {
        return text.extend_from_slice(b"\n");
    }
    push_counted(text, b"; so it is with ", more, b" more cell", b"\n")
}

/// Appends the first record cell that a thread reads whose task does not write that record, and that another thread writes
/// later, though it neither was forked nor waited at a join, a barrier or a settle since; and how many more there are. The error is
/// that memory is out.
pub fn push_unordered(
    alloc: Global,
    text: &mut Vec<u8>,
    program: &Program,
    order: &[Step],
    tasks: &Tasks,
) -> Result<(), AllocError> {
    let pairs = pairs_of(alloc, &named_in(alloc, program, tasks)?)?;
    if pairs.is_empty() {
        return Ok(());
    }
    let heads = program.heads.as_slice();
    let lists = OnlyRead {
        records: records_of(alloc, heads)?,
        pairs,
    };
    let cells = cells_of(alloc, order, tasks, &lists)?;
    push_first(text, heads, &cells.cells)
}
