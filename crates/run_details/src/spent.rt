// What is told of a run that has spent its limits, after its front.

use crate::halted::Halted;
use call_cases::Request;
use gp_base::limits::{MOST_SUBTHREADS, MOST_TURNS};
use gp_base::{End, Limits, ThreadNo};
use one_thread::{PlainRun, Step, run_plain};
use run_counts::{Counting, Loop};
use run_hints::{Place, Tasks, busiest, plural, push_ended_threads, push_loops, push_outer};
use run_standing::stand_before;
use std::alloc::{AllocError, Global};
use task_ast::SyncOp;
use text_pieces::Piece::{Number, Word};
use text_pieces::push_pieces;

impl<'a> Halted<'a> {
    // Appends that a subthread took all loop turns that it may, the last in the loop in a line.
    fn push_turns(
        &self,
        alloc: Global,
        text: &mut Vec<u8>,
        step: &Step,
        line: u32,
    ) -> Result<(), AllocError> {
        let given = self.request.asked.limits.turns;
        push_pieces(
            text,
            &[
                Word(b"thread "),
                Number(u64::from(step.thread.0)),
                Word(b" took "),
                Number(given),
                Word(b" loop turn"),
                plural(given),
                Word(b" in one subthread, last at the loop in line "),
                Number(u64::from(line)),
            ],
        )?;
        self.push_around(alloc, text, step.thread, line)?;
        push_limit(
            text,
            b"hint: --turns",
            given,
            MOST_TURNS,
            b", for a loop that ends\n",
            b": a long loop that ends is cut by a barrier of one\n",
        )
    }

    // Appends the loops around that in a line, and the control variables of a thread that began a turn too many there.
    fn push_around(
        &self,
        alloc: Global,
        text: &mut Vec<u8>,
        thread: ThreadNo,
        line: u32,
    ) -> Result<(), AllocError> {
        let loops = self.loops_of(alloc, thread, Place::Loop(line))?;
        push_outer(text, &loops)?;
        text.extend_from_slice(b"\n")?;
        let mut turned = self.turned(alloc, thread, &loops)?;
        turned.drop_last_turn();
        self.push_values_of(alloc, text, thread, &turned)?;
        Ok(())
    }

    // Appends where a thread would begin one subthread more, in which loops.
    fn push_place(
        &self,
        text: &mut Vec<u8>,
        step: &Step,
        loops: &[Loop<'a>],
    ) -> Result<(), AllocError> {
        let thread = u64::from(step.thread.0);
        if !matches!(step.begins.sync, SyncOp::Start) {
            let line = u64::from(step.begins.line);
            push_pieces(
                text,
                &[
                    Word(b"; thread "),
                    Number(thread),
                    Word(b" line "),
                    Number(line),
                    Word(b" would begin one more"),
                ],
            )?;
            push_loops(text, loops)?;
            return text.extend_from_slice(b"\n");
        }
        let name: &[u8] = match self.tasks.task_of(self.program(), step.thread) {
            Some(task) => task.name.as_slice(),
            None => b"",
        };
        push_pieces(
            text,
            &[
                Word(b"; thread "),
                Number(thread),
                Word(b" would begin one more, at the beginning of task "),
                Word(name),
                Word(b"\n"),
            ],
        )
    }

    // Appends which subthread would have begun next, and the control variables of its thread; and answers whether what a
    // record has sets a variable of its loops' conditions.
    fn push_next(
        &self,
        alloc: Global,
        text: &mut Vec<u8>,
        step: &Step,
    ) -> Result<bool, AllocError> {
        let place = Place::Subthread(step.begins.line);
        let loops = self.loops_of(alloc, step.thread, place)?;
        self.push_place(text, step, &loops)?;
        self.push_turned(alloc, text, step.thread, &loops)
    }

    // Appends which subthread would have begun next, which thread began the most, and, where records decide, which threads
    // have ended.
    fn push_one_more(
        &self,
        alloc: Global,
        text: &mut Vec<u8>,
        step: &Step,
    ) -> Result<(), AllocError> {
        let goes_by_record = self.push_next(alloc, text, step)?;
        if self.push_busiest(alloc, text, step.thread)? || goes_by_record {
            return push_ended_threads(alloc, text, self.order, self.standing);
        }
        Ok(())
    }

    // The line in which a thread began its last subthread.
    fn last_line(&self, thread: ThreadNo) -> u32 {
        let mut line = 0;
        for step in self.order {
            if step.thread.0 == thread.0 {
                line = step.begins.line;
            }
        }
        line
    }

    // Appends how many subthreads a thread began, the last in a line, in which loops, if in any; and answers whether what a
    // record has sets a variable of these loops' conditions.
    fn push_most(
        &self,
        alloc: Global,
        text: &mut Vec<u8>,
        thread: ThreadNo,
        count: u32,
    ) -> Result<bool, AllocError> {
        let line = self.last_line(thread);
        let loops = self.loops_of(alloc, thread, Place::Subthread(line))?;
        if loops.is_empty() {
            return Ok(false);
        }
        push_pieces(
            text,
            &[
                Word(b"thread "),
                Number(u64::from(thread.0)),
                Word(b" began the most, "),
                Number(u64::from(count)),
                Word(b", the last in line "),
                Number(u64::from(line)),
            ],
        )?;
        push_loops(text, &loops)?;
        text.extend_from_slice(b"\n")?;
        self.push_turned(alloc, text, thread, &loops)
    }

    // Appends which thread began more than half of the subthreads, in which loops, if it is another one; and answers whether
    // what a record has sets a variable of these loops' conditions.
    fn push_busiest(
        &self,
        alloc: Global,
        text: &mut Vec<u8>,
        other: ThreadNo,
    ) -> Result<bool, AllocError> {
        let (thread, count) = busiest(alloc, self.order)?;
        let is_most = count as usize > self.order.len() / 2;
        if thread.0 == other.0 || !is_most {
            return Ok(false);
        }
        self.push_most(alloc, text, thread, count)
    }

    // Appends which thread would begin the subthread at a position, as a run does that may begin one more.
    fn push_beyond(
        &self,
        alloc: Global,
        text: &mut Vec<u8>,
        position: usize,
    ) -> Result<(), AllocError> {
        let given = self.request.asked.limits;
        let limits = Limits {
            turns: given.turns,
            subthreads: given.subthreads.saturating_add(1),
        };
        let more = run_plain(alloc, &self.request.checked, &self.request.inputs, limits)?;
        match more.order.get(position) {
            Some(step) => self.push_one_more(alloc, text, step),
            None => text.extend_from_slice(b"\n"),
        }
    }

    // Appends which thread would begin a subthread more than there may be.
    fn push_subthreads(
        &self,
        alloc: Global,
        text: &mut Vec<u8>,
        position: usize,
    ) -> Result<(), AllocError> {
        let given = self.request.asked.limits.subthreads;
        let begun: &[u8] = if position == 1 {
            b" subthread was begun"
        } else {
            b" subthreads were begun"
        };
        push_pieces(text, &[Number(position as u64), Word(begun)])?;
        self.push_beyond(alloc, text, position)?;
        push_limit(
            text,
            b"hint: --subthreads",
            u64::from(given),
            u64::from(MOST_SUBTHREADS),
            b", for a batch that ends\n",
            b": cut the batch into parts\n",
        )
    }
}

// Appends how many of a thing are allowed, and for what, where that is more than was given, or else what to do.
fn push_limit(
    text: &mut Vec<u8>,
    option: &'static [u8],
    given: u64,
    most: u64,
    what: &'static [u8],
    instead: &'static [u8],
) -> Result<(), AllocError> {
    let (allows, rest) = if given < most {
        (Word(b" allows up to "), Word(what))
    } else {
        (Word(b" allows no more than "), Word(instead))
    };
    push_pieces(text, &[Word(option), allows, Number(most), rest])
}

// Where a run has spent its limits, or none where it ends in another way.
fn spent_at(end: End) -> Option<usize> {
    match end {
        End::Spent(position) => Some(position.0 as usize),
        End::Finished | End::Stuck { .. } => None,
    }
}

/// Appends what is told of a run that has spent its limits, after its front. The error is that memory is out.
pub fn push_spent_details(
    alloc: Global,
    text: &mut Vec<u8>,
    request: &Request,
    run: &PlainRun,
    counting: &Counting,
    tasks: &Tasks,
) -> Result<(), AllocError> {
    let Some(at) = spent_at(run.end) else {
        return Ok(());
    };
    let limits = request.asked.limits;
    let Ok(last) = u32::try_from(run.order.len()) else {
        return Err(AllocError);
    };
    let Some(standing) = stand_before(alloc, &request.checked, &request.inputs, limits, last)?
    else {
        return Ok(());
    };
    let spent = Halted {
        request,
        order: run.order.as_slice(),
        tasks,
        standing: &standing,
    };
    match run.order.get(at) {
        Some(step) => spent.push_turns(alloc, text, step, counting.control_line(at)),
        None => spent.push_subthreads(alloc, text, at),
    }
}
