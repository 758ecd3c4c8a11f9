// How much a run did, and how much of it side by side.

use one_thread::Step;
use run_hints::{at, child_of, plural, put};
use std::alloc::{AllocError, Global};
use task_ast::SyncOp;
use text_pieces::Piece::{Number, Word};
use text_pieces::push_pieces;

// How many subthreads can be out at one moment. A thread begins its next subthread once the token has come round to it: it has
// looked at each thread since the last one of that thread began, so that one and all before it are done. A settle waits for
// all before it. From `first` on stand those that can be out still. `after` has for each thread the position after its last
// subthread, or after its fork.
#[derive(Drop)]
struct Moments {
    after: Vec<u32>,
    begun: u32,
    first: u32,
    widest: u32,
}

impl Moments {
    fn new(alloc: Global) -> Moments {
        Moments {
            after: Vec::new(alloc),
            begun: 0,
            first: 0,
            widest: 0,
        }
    }

    // The position after the last subthread of the thread with this number, or 0.
    fn after_thread(&self, number: i64) -> u32 {
        match usize::try_from(number) {
            Ok(thread) => at(&self.after, thread),
            Err(_) => 0,
        }
    }

    // One subthread more. That which it waits for besides, its fork or the last of a thread that it joins, isn't out beside it.
    fn note(&mut self, step: &Step) -> Result<(), AllocError> {
        let thread = step.thread.0 as usize;
        let own = at(&self.after, thread);
        let (least, awaited) = match &step.begins.sync {
            SyncOp::Start => (0, own),
            SyncOp::Join(number) => (own, self.after_thread(*number)),
            SyncOp::Settle { .. } => (self.begun, 0),
            _ => (own, 0),
        };
        self.first = self.first.max(least);
        if awaited == self.first.saturating_add(1) {
            self.first = awaited;
        }
        let next = self.begun.saturating_add(1);
        let mut out = next.saturating_sub(self.first);
        if awaited > self.first {
            out = out.saturating_sub(1);
        }
        self.widest = self.widest.max(out);
        self.begun = next;
        put(&mut self.after, thread, next)?;
        if let Some(child) = child_of(step) {
            put(&mut self.after, child.0 as usize, next)?;
        }
        Ok(())
    }
}

// The most subthreads that can be out at one moment.
fn widest(alloc: Global, order: &[Step]) -> Result<u32, AllocError> {
    let mut moments = Moments::new(alloc);
    for step in order {
        moments.note(step)?;
    }
    Ok(moments.widest)
}

// How many of these steps begin a thread, and how many take a lock.
fn counted(order: &[Step]) -> (u64, u64) {
    let mut threads: u64 = 0;
    let mut locks: u64 = 0;
    for step in order {
        match &step.begins.sync {
            SyncOp::Start => threads = threads.saturating_add(1),
            SyncOp::Lock(_) => locks = locks.saturating_add(1),
            _ => {}
        }
    }
    (threads, locks)
}

/// Appends how many subthreads, threads and locks a run had, and how many subthreads can be out at one moment at most. The error
/// is that memory is out.
pub fn push_counts(alloc: Global, text: &mut Vec<u8>, order: &[Step]) -> Result<(), AllocError> {
    let widest = u64::from(widest(alloc, order)?);
    let count = order.len() as u64;
    let (threads, locks) = counted(order);
    push_pieces(
        text,
        &[
            Number(count),
            Word(b" subthread"),
            plural(count),
            Word(b", "),
            Number(threads),
            Word(b" thread"),
            plural(threads),
            Word(b", "),
            Number(locks),
            Word(b" lock"),
            plural(locks),
            Word(b" taken; at most "),
            Number(widest),
            Word(b" subthread"),
            plural(widest),
            Word(b" side by side, as the order of turns allows\n"),
        ],
    )
}
