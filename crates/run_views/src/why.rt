// The text that tells why a position was redone.
ghost use Rattle.std.specs.Prelude.{◌≡◌, ◌<◌, ◌≤◌, ◌++◌, length, map, codes, decimal, slice_get, IfOk, OnOk};
ghost use Rattle.gp_base.specs.declared.limits.TheConstants.{MOST_SUBTHREADS};
ghost use Rattle.task_ast.specs.View.{plain_program};
ghost use Rattle.task_ast.specs.meaning.Names.{records_of, cells_in};
ghost use Rattle.lock_checker.specs.Accepted.{program_of};
ghost use Rattle.run_views.specs.meaning.Why.{record_text, link_line, struck_line, link_text, chain, why_line, restart_text, restart_texts, redone_line, why_lines, why_text};
ghost use Rattle.run_views.specs.Seen.{seen, party_in};

use crate::links::{Link, link_of, linked};
use crate::names::{push_between, push_labelled, push_number, push_record};
use crate::order::push_step;
use crate::restarted::{attempt_of, redoes};
use gp_audit::restarts_of;
use gp_base::{Faults, Inputs, Limits, Pos, Restart, Seq, Text, ThreadNo};
use lock_checker::Checked;
use one_thread::{Step, run_plain};
use std::alloc::{AllocError, Global};
use task_ast::Head;

// The subthreads of a run of a program with these heads, and how many record cells it has.
#[derive(Clone, Copy)]
struct Order<'a> {
    heads: &'a [Head],
    steps: &'a [Step],
    cells: u64,
}

// Appends in what way there is a link to a thread, after an earlier position.
fn push_after(
    text: &mut Vec<u8>,
    way: &[u8],
    thread: ThreadNo,
    earlier: usize,
) -> Result<(), AllocError>
    ensures { OnOk result (text.new.items ≡ text.old.items ++ way.now ++ decimal thread ++ codes " after " ++ decimal earlier ++ codes "\n") }
{
    push_labelled(text, way, thread.0)?;
    push_between(text, b" after ", earlier, b"\n")
}

// Appends in what way there is a link to a thread that an earlier position forked.
fn push_forked(
    text: &mut Vec<u8>,
    way: &[u8],
    thread: ThreadNo,
    earlier: usize,
) -> Result<(), AllocError>
    ensures { OnOk result (text.new.items ≡ text.old.items ++ way.now ++ decimal thread ++ codes " that " ++ decimal earlier ++ codes " forked\n") }
{
    push_labelled(text, way, thread.0)?;
    push_between(text, b" that ", earlier, b" forked\n")
}

// Appends a record cell, where there is one.
fn push_cell_found(text: &mut Vec<u8>, heads: &[Head], cell: Option<u64>) -> Result<(), AllocError>
    ensures { OnOk result (text.new.items ≡ text.old.items ++ record_text heads.now cell) }
{
    match cell {
        Some(cell) => push_record(text, heads, cell),
        None => Ok(()),
    }
}

// Appends that an earlier position names a record cell too.
fn push_named(
    text: &mut Vec<u8>,
    heads: &[Head],
    earlier: usize,
    cell: Option<u64>,
) -> Result<(), AllocError>
    ensures { OnOk result (text.new.items ≡ text.old.items ++ codes " and " ++ decimal earlier ++ codes " name " ++ record_text heads.now cell ++ codes "\n") }
{
    push_between(text, b" and ", earlier, b" name ")?;
    push_cell_found(text, heads, cell)?;
    text.extend_from_slice(b"\n")
}

// Appends the line of a link between a position and an earlier one.
fn push_link(
    text: &mut Vec<u8>,
    heads: &[Head],
    position: usize,
    earlier: usize,
    link: Link,
) -> Result<(), AllocError>
    ensures { OnOk result (text.new.items ≡ text.old.items ++ link_line heads.now position earlier link) }
{
    push_number(text, position)?;
    match link {
        Link::GoesOn(thread) => push_after(text, b" goes on in thread ", thread, earlier),
        Link::JoinsAfter(thread) => push_after(text, b" joins thread ", thread, earlier),
        Link::RunsIn(thread) => push_forked(text, b" runs in thread ", thread, earlier),
        Link::JoinsForked(thread) => push_forked(text, b" joins thread ", thread, earlier),
        Link::Names(cell) => push_named(text, heads, earlier, cell),
    }
}

// Appends the line of a position that has no link.
fn push_struck(text: &mut Vec<u8>, position: usize) -> Result<(), AllocError>
    ensures { OnOk result (text.new.items ≡ text.old.items ++ struck_line position) }
{
    push_number(text, position)?;
    text.extend_from_slice(b" was struck\n")
}

// Appends the line of a restart by its number.
fn push_restart_line(text: &mut Vec<u8>, number: usize, restart: &Restart) -> Result<(), AllocError>
    ensures { OnOk result (text.new.items ≡ text.old.items ++ why_line number restart.now) }
{
    push_labelled(text, b"restart ", number)?;
    push_labelled(text, b" front ", restart.front.0)?;
    push_labelled(text, b" struck ", restart.struck.0)?;
    push_between(text, b" try ", restart.attempt, b"\n")
}

// Appends how many restarts redo a position.
fn push_redone(text: &mut Vec<u8>, position: usize, restarts: &[Restart]) -> Result<(), AllocError>
    ensures { OnOk result (text.new.items ≡ text.old.items ++ redone_line position restarts.now) }
{
    push_between(
        text,
        b"redone ",
        attempt_of(restarts, position as u64),
        b"\n",
    )
}

impl Order<'_> {
    // Appends the line of the link between two positions.
    fn push_link(
        &self,
        text: &mut Vec<u8>,
        position: usize,
        earlier: usize,
    ) -> Result<(), AllocError>
        requires position { position < length self.now.steps.now }
        requires earlier { earlier < length self.now.steps.now }
        requires cells { self.now.cells ≡ cells_in (records_of self.now.heads.now) }
        ensures { OnOk result (text.new.items ≡ text.old.items ++ link_text self.now.heads.now position earlier
            (slice_get (map party_in self.now.steps.now) position) (slice_get (map party_in self.now.steps.now) earlier)) }
    {
        let link = link_of(self.cells, &self.steps[position], &self.steps[earlier]);
        push_link(text, self.heads, position, earlier, link)
    }

    // Appends the lines of the links from a position down to the one that was struck.
    fn push_chain(
        &self,
        text: &mut Vec<u8>,
        redo: &[Pos],
        position: usize,
    ) -> Result<(), AllocError>
        requires position { position < length self.now.steps.now }
        requires cells { self.now.cells ≡ cells_in (records_of self.now.heads.now) }
        ensures { OnOk result (text.new.items ≡ text.old.items ++ chain self.now.heads.now (map party_in self.now.steps.now) redo.now position position) }
    {
        let mut at = position;
        for links in 0..position {
            match linked(self.steps, redo, at) {
                Some(earlier) => {
                    self.push_link(text, at, earlier)?;
                    at = earlier;
                }
                None => return push_struck(text, at),
            }
        }
        push_struck(text, at)
    }

    // Appends the lines of a restart by its number, where it redoes the position.
    fn push_restart(
        &self,
        text: &mut Vec<u8>,
        position: usize,
        number: usize,
        restart: &Restart,
    ) -> Result<(), AllocError>
        requires position { position < length self.now.steps.now }
        requires cells { self.now.cells ≡ cells_in (records_of self.now.heads.now) }
        ensures { OnOk result (text.new.items ≡ text.old.items
            ++ restart_text self.now.heads.now (map party_in self.now.steps.now) position number restart.now) }
    {
        if redoes(restart, position as u64) {
            push_restart_line(text, number, restart)?;
            self.push_chain(text, restart.redo.as_slice(), position)?;
        }
        Ok(())
    }

    // Appends the lines of the restarts that redo the position, numbered from 1.
    fn push_restarts(
        &self,
        text: &mut Vec<u8>,
        position: usize,
        restarts: &[Restart],
    ) -> Result<(), AllocError>
        requires position { position < length self.now.steps.now }
        requires cells { self.now.cells ≡ cells_in (records_of self.now.heads.now) }
        ensures { OnOk result (text.new.items ≡ text.old.items
            ++ restart_texts self.now.heads.now (map party_in self.now.steps.now) position 1 restarts.now) }
    {
        for (at, restart) in restarts.iter().enumerate() {
            self.push_restart(text, position, at + 1, restart)?;
        }
        Ok(())
    }

    // Appends why a position was redone, at which this subthread stands.
    fn push_why(
        &self,
        text: &mut Vec<u8>,
        position: usize,
        step: &Step,
        restarts: &[Restart],
    ) -> Result<(), AllocError>
        requires position { position < length self.now.steps.now }
        requires cells { self.now.cells ≡ cells_in (records_of self.now.heads.now) }
        ensures { OnOk result (text.new.items ≡ text.old.items
            ++ why_lines self.now.heads.now (map party_in self.now.steps.now) restarts.now position (seen step.now)) }
    {
        push_step(text, self.heads, position, step)?;
        self.push_restarts(text, position, restarts)?;
        push_redone(text, position, restarts)
    }
}

/// Why a position of a program's run was redone, where these faults make restarts of it: its line in the order; each
/// restart that redoes it, with the links from it down to the position that was struck; and how many restarts redo it.
/// None where the run has no such position. The error is that memory is out.
pub fn why_text(
    alloc: Global,
    c: &Checked,
    inputs: &Inputs,
    limits: Limits,
    faults: &Faults,
    position: u64,
) -> Result<Option<Text>, AllocError>
    requires { limits.subthreads ≤ MOST_SUBTHREADS }
    ensures { IfOk result (λ text. text ≡ why_text (plain_program (program_of c.now)) inputs.now limits faults.now.list position) }
{
    let run = run_plain(alloc, c, inputs, limits)?;
    let position = position as usize;
    let steps = run.order.as_slice();
    if position >= steps.len() {
        return Ok(None);
    }
    let restarts = restarts_of(alloc, &run.order, faults)?;
    let order = Order {
        heads: c.program().heads.as_slice(),
        steps,
        cells: run.records.len() as u64,
    };
    let mut text = Vec::new(alloc);
    order.push_why(&mut text, position, &steps[position], restarts.as_slice())?;
    Ok(Some(Seq::from_vec(text)))
}
