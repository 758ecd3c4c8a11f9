// Two locks that threads take in two orders, in a run that has ended all the same.

use crate::circles::push_order;
use crate::statements::statements_of;
use crate::words::{at, put};
use gp_base::{LockNo, ThreadNo};
use one_thread::Step;
use run_views::push_labelled;
use std::alloc::{AllocError, Global};
use std::collections::BTreeMap;
use task_ast::{Head, Program, SyncOp, What};

// A thread takes a lock while it holds another: the position and line of the second, and the position of the first.
#[derive(Clone, Copy)]
struct Taking {
    thread: ThreadNo,
    line: u32,
    position: u32,
    since: u32,
}

// The two takings of a pair of locks: the first thread takes `low` before `high`.
#[derive(Clone, Copy)]
struct Crossing {
    first: Taking,
    second: Taking,
    low: LockNo,
    high: LockNo,
}

// By thread the positions of its first and its last subthread, and by lock that of the last that took it; each plus 1.
#[derive(Drop)]
struct Places {
    starts: Vec<u32>,
    lasts: Vec<u32>,
    locks: Vec<u32>,
}

// The first and the last subthread of each thread.
fn places_of(alloc: Global, order: &[Step]) -> Result<Places, AllocError> {
    let mut places = Places {
        starts: Vec::new(alloc),
        lasts: Vec::new(alloc),
        locks: Vec::new(alloc),
    };
    let mut position: u32 = 0;
    for step in order {
        position = position.saturating_add(1);
        let thread = step.thread.0 as usize;
        put(&mut places.lasts, thread, position)?;
        if at(&places.starts, thread) == 0 {
            put(&mut places.starts, thread, position)?;
        }
    }
    Ok(places)
}

impl Places {
    // Whether a later taking might have met an earlier one of another thread: each thread was there when the other took its
    // locks.
    fn might_meet(&self, earlier: &Taking, later: &Taking) -> bool {
        earlier.thread.0 != later.thread.0
            && at(&self.starts, later.thread.0 as usize) < earlier.position
            && at(&self.lasts, earlier.thread.0 as usize) > later.since
    }
}

// Whether two threads hold a third lock at these positions, beside those two: then they cannot wait for each other.
fn share_another(order: &[Step], crossing: &Crossing) -> bool {
    let one = order.get(crossing.first.position.saturating_sub(1) as usize);
    let other = order.get(crossing.second.position.saturating_sub(1) as usize);
    let (Some(one), Some(other)) = (one, other) else {
        return false;
    };
    for lock in one.held.as_slice() {
        let is_third = lock.0 != crossing.low.0 && lock.0 != crossing.high.0;
        if is_third && holds(other, *lock) {
            return true;
        }
    }
    false
}

fn holds(step: &Step, lock: LockNo) -> bool {
    for held in step.held.as_slice() {
        if held.0 == lock.0 {
            return true;
        }
    }
    false
}

// The takings of a run so far, by the two locks of each.
#[derive(Drop)]
struct Takings {
    places: Places,
    latest: BTreeMap<(u32, u32), Taking>,
}

impl Takings {
    // One taking more, and the crossing that it makes.
    fn note(
        &mut self,
        order: &[Step],
        held: LockNo,
        lock: LockNo,
        taking: Taking,
    ) -> Result<Option<Crossing>, AllocError> {
        let earlier = self.latest.get(&(lock.0, held.0)).copied();
        if let Some(first) = earlier {
            let crossing = Crossing {
                first,
                second: taking,
                low: lock,
                high: held,
            };
            if self.places.might_meet(&first, &taking) && !share_another(order, &crossing) {
                return Ok(Some(crossing));
            }
        }
        self.latest.insert((held.0, lock.0), taking)?;
        Ok(None)
    }

    // One subthread more that takes a lock.
    fn note_step(
        &mut self,
        order: &[Step],
        step: &Step,
        lock: LockNo,
        position: u32,
    ) -> Result<Option<Crossing>, AllocError> {
        for held in step.held.as_slice() {
            if held.0 == lock.0 {
                continue;
            }
            let taking = Taking {
                thread: step.thread,
                line: step.begins.line,
                position,
                since: at(&self.places.locks, held.0 as usize),
            };
            let found = self.note(order, *held, lock, taking)?;
            if found.is_some() {
                return Ok(found);
            }
        }
        put(&mut self.places.locks, lock.0 as usize, position)?;
        Ok(None)
    }
}

// The first crossing of a run.
fn crossing_of(alloc: Global, order: &[Step]) -> Result<Option<Crossing>, AllocError> {
    let mut takings = Takings {
        places: places_of(alloc, order)?,
        latest: BTreeMap::new(alloc),
    };
    let mut position: u32 = 0;
    for step in order {
        position = position.saturating_add(1);
        if let SyncOp::Lock(lock) = &step.begins.sync {
            let found = takings.note_step(order, step, *lock, position)?;
            if found.is_some() {
                return Ok(found);
            }
        }
    }
    Ok(None)
}

// Whether a task settles a value.
fn some_settle(alloc: Global, program: &Program) -> Result<bool, AllocError> {
    for task in program.tasks.as_slice() {
        for stmt in &statements_of(alloc, task)? {
            if let What::Settle(_, _) = &stmt.what {
                return Ok(true);
            }
        }
    }
    Ok(false)
}

// Whether the order of a program's subthreads may be another one with other files: what decides comes from feeds, and from
// records by a settle.
fn may_turn(alloc: Global, program: &Program) -> Result<bool, AllocError> {
    let mut has_values = false;
    for head in program.heads.as_slice() {
        match head {
            Head::FeedHead { .. } => return Ok(true),
            Head::RecHead { from: Some(_), .. } => has_values = true,
            _ => {}
        }
    }
    if has_values {
        some_settle(alloc, program)
    } else {
        Ok(false)
    }
}

// Appends after a word that a thread takes one lock before another, in which line.
fn push_taking(
    text: &mut Vec<u8>,
    heads: &[Head],
    word: &[u8],
    taking: Taking,
    before: LockNo,
    after: LockNo,
) -> Result<(), AllocError> {
    let thread = u64::from(taking.thread.0);
    push_order(text, heads, word, thread, before, after)?;
    push_labelled(text, b", in line ", taking.line)
}

/// Appends the first two threads of a run that has ended which take two locks in two orders, where other files may change
/// in which turns they take them. The error is that memory is out.
pub fn push_crossing(
    alloc: Global,
    text: &mut Vec<u8>,
    program: &Program,
    order: &[Step],
) -> Result<(), AllocError> {
    if !may_turn(alloc, program)? {
        return Ok(());
    }
    let Some(crossing) = crossing_of(alloc, order)? else {
        return Ok(());
    };
    let heads = program.heads.as_slice();
    let Crossing {
        first,
        second,
        low,
        high,
    } = crossing;
    push_taking(text, heads, b"hint: thread ", first, low, high)?;
    push_taking(text, heads, b", and thread ", second, high, low)?;
    text.extend_from_slice(b": this run ended, and with other rows each may wait for the other\n")
}
