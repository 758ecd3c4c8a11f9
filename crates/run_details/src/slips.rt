// In which lines the arithmetic of a run was not exact.

use crate::indices::named_feeds;
use crate::operators::{Inexact, Operator, slipping_in};
use crate::sources::{LookedFor, spot_of, tokens_of};
use call_cases::Request;
use gp_base::{Name, Seq, ThreadNo};
use one_thread::Step;
use run_counts::{Counting, Slip};
use run_hints::{Tasks, controls_of, push_values};
use run_views::push_labelled;
use std::alloc::{AllocError, Global};
use task_ast::{Env, Expr, Program, TaskText, eval_d};
use task_parser::Token;
use text_pieces::Piece::{Number, Signed, Word};
use text_pieces::push_pieces;
use text_places::push_marked;

/// A run of a program with this text, what was noted of it, and the tasks of its threads.
#[derive(Clone, Copy)]
pub struct Noted<'a> {
    pub request: &'a Request,
    pub source: &'a [u8],
    pub order: &'a [Step],
    pub counting: &'a Counting,
    pub tasks: &'a Tasks,
}

// What the lines are shown by: the tokens of the program's text, and under what expressions are read.
#[derive(Drop)]
struct Shown {
    tokens: Vec<Token>,
    env: Env,
}

// A line whose arithmetic was not exact in a way.
#[derive(Clone, Copy)]
struct Slipped<'a> {
    line: u32,
    way: Inexact,
    slip: &'a Slip,
}

// Puts the slip of a line after others, where there was one.
fn put_slip<'a>(
    all: &mut Vec<Slipped<'a>>,
    line: u32,
    way: Inexact,
    slip: &'a Slip,
) -> Result<(), AllocError> {
    if slip.times > 0 {
        all.push(Slipped { line, way, slip })?;
    }
    Ok(())
}

// The control variables of a task with these values.
fn named_values(
    alloc: Global,
    task: &TaskText,
    values: &[i64],
) -> Result<Seq<(Name, i64)>, AllocError> {
    let mut named = Seq::new(alloc);
    let mut place: usize = 0;
    for name in &controls_of(alloc, task)? {
        if let Some(value) = values.get(place) {
            named.push((name.copied(alloc)?, *value))?;
        }
        place = place.saturating_add(1);
    }
    Ok(named)
}

// What an operator surely divides by, where it does.
fn divisor_of<'a>(operator: Option<Operator<'a>>, way: Inexact) -> Option<&'a Expr> {
    let operator = operator?;
    if operator.is_sure && way == Inexact::Divided {
        operator.right
    } else {
        None
    }
}

// Appends the cell of a feed by which an operator divides, where that is one, and 0; and the end of the line.
fn push_divisor(
    text: &mut Vec<u8>,
    operator: Option<Operator<'_>>,
    way: Inexact,
    env: &Env,
) -> Result<(), AllocError> {
    let Some(Expr::Cell(feed, row, field)) = divisor_of(operator, way) else {
        return text.extend_from_slice(b"\n");
    };
    let row = eval_d(row, env).unwrap_or(0);
    let field = eval_d(field, env).unwrap_or(0);
    push_pieces(
        text,
        &[
            Word(b"; "),
            Word(feed.as_slice()),
            Word(b"["),
            Signed(row),
            Word(b", "),
            Signed(field),
            Word(b"] is 0\n"),
        ],
    )
}

// Appends a line whose arithmetic was not exact, how often, and at which position first.
fn push_slipped(text: &mut Vec<u8>, slipped: Slipped<'_>) -> Result<(), AllocError> {
    let Slipped { line, way, slip } = slipped;
    let what: &[u8] = match way {
        Inexact::Left => b": arithmetic left 64 bits, ",
        Inexact::Divided => b": arithmetic divided by 0, ",
    };
    let (count, times) = if slip.times == 1 {
        (Word(b"once"), Word(b""))
    } else {
        (Number(slip.times), Word(b" times"))
    };
    push_pieces(
        text,
        &[
            Word(b"line "),
            Number(u64::from(line)),
            Word(what),
            count,
            times,
            Word(b", first at position "),
            Number(u64::from(slip.first)),
        ],
    )
}

impl<'a> Noted<'a> {
    fn program(&self) -> &'a Program {
        self.request.checked.program()
    }

    // The thread of a slip when it was first, with its task.
    fn thread_of(&self, slip: &Slip) -> Option<(ThreadNo, &'a TaskText)> {
        let thread = self.order.get(slip.first as usize)?.thread;
        Some((thread, self.tasks.task_of(self.program(), thread)?))
    }

    // The values of the control variables that were kept of a slip.
    fn values_of(&self, slip: &Slip) -> Option<&'a [i64]> {
        self.counting.values.get(slip.kept?)
    }

    // Appends the thread of a slip when it was first, and its control variables there, which the environment gets. Answers
    // whether they are known.
    fn push_first(
        &self,
        alloc: Global,
        text: &mut Vec<u8>,
        slip: &Slip,
        env: &mut Env,
    ) -> Result<bool, AllocError> {
        let Some((thread, task)) = self.thread_of(slip) else {
            return Ok(false);
        };
        push_labelled(text, b", thread ", thread.0)?;
        let Some(values) = self.values_of(slip) else {
            return Ok(false);
        };
        push_values(alloc, text, task, values)?;
        env.me = thread;
        env.names = named_values(alloc, task, values)?;
        Ok(true)
    }

    // Appends the line of a program with a mark under an operator.
    fn push_line(
        &self,
        text: &mut Vec<u8>,
        tokens: &[Token],
        line: u32,
        operator: Option<Operator<'_>>,
    ) -> Result<(), AllocError> {
        let number = match operator {
            Some(operator) => Some(operator.number),
            None => None,
        };
        match spot_of(self.source, tokens, line, LookedFor::Operator, number) {
            Some(spot) => push_marked(text, self.source, spot.at),
            None => Ok(()),
        }
    }

    // Appends the line of a slip, where there is one.
    fn push_slip(
        &self,
        alloc: Global,
        text: &mut Vec<u8>,
        slipped: Slipped<'_>,
        shown: &mut Shown,
    ) -> Result<(), AllocError> {
        let Slipped { line, way, slip } = slipped;
        push_slipped(text, slipped)?;
        let is_known = self.push_first(alloc, text, slip, &mut shown.env)?;
        let env = if is_known { Some(&shown.env) } else { None };
        let operator = slipping_in(alloc, self.program(), line, way, env)?;
        push_divisor(text, operator, way, &shown.env)?;
        self.push_line(text, &shown.tokens, line, operator)
    }

    // The lines whose arithmetic was not exact, in their order.
    fn slipped(&self, alloc: Global) -> Result<Vec<Slipped<'a>>, AllocError> {
        let mut all = Vec::new(alloc);
        let mut line: u32 = 0;
        for left in &self.counting.left {
            put_slip(&mut all, line, Inexact::Left, left)?;
            if let Some(divided) = self.counting.divided.get(line as usize) {
                put_slip(&mut all, line, Inexact::Divided, divided)?;
            }
            line = line.saturating_add(1);
        }
        Ok(all)
    }

    // What the lines are shown by. The feeds are copied for it.
    fn shown(&self, alloc: Global) -> Result<Shown, AllocError> {
        let heads = self.program().heads.as_slice();
        Ok(Shown {
            tokens: tokens_of(alloc, self.source)?,
            env: Env {
                names: Seq::new(alloc),
                regs: Seq::new(alloc),
                me: ThreadNo(0),
                feeds: named_feeds(alloc, self.request, heads)?,
            },
        })
    }
}

/// Appends the lines whose arithmetic was not exact, each with the operator that was not when it first was so. The error is
/// that memory is out.
pub fn push_slips(alloc: Global, text: &mut Vec<u8>, noted: Noted<'_>) -> Result<(), AllocError> {
    let slipped = noted.slipped(alloc)?;
    if slipped.is_empty() {
        return text.extend_from_slice(b"arithmetic: exact in every line that ran\n");
    }
    let mut shown = noted.shown(alloc)?;
    for one in &slipped {
        noted.push_slip(alloc, text, *one, &mut shown)?;
    }
    Ok(())
}
