// The columns of a picture, and what stands for positions without one.
ghost use Rattle.std.specs.Prelude.{◌≡◌, ◌<◌, ◌≤◌, ◌+◌, ◌-◌, ◌++◌, ◌∷◌, [], true, cond, length, map, codes, OnOk, IfOk};
ghost use Rattle.run_views.specs.Seen.{seen};
ghost use Rattle.run_picture.specs.meaning.Picture.{plain, is_touched, has_column, hidden, is_unrun, unrun_from, unrun_text, fold_text, column, columns};
ghost use Rattle.run_picture.specs.inner.Drawn.{shows_in, values_in};
ghost use Rattle.run_picture.specs.inner.Tellings.{found};

use crate::attempts::{Column, put_boxes};
use crate::elements::{Drawing, Element};
use crate::layout::Bands;
use crate::notes::{numeral, put_fronts};
use crate::told::{Tellings, Told};
use crate::values::Values;
use gp_base::{Name, Restart, Seq, Text};
use one_thread::Step;
use run_views::{push_between, push_number, redoes};
use std::alloc::{AllocError, Global};
use task_ast::Head;

/// What a picture shows, and how it is laid out: the program's heads, the steps of the run with the control variables of
/// their threads, the restarts, and what is told of the attempts.
#[derive(Clone, Copy)]
pub struct View<'a> {
    pub bands: &'a Bands,
    pub heads: &'a [Head],
    pub tellings: &'a Tellings,
    pub order: &'a [Step],
    pub known: &'a [Values],
    pub restarts: &'a [Restart],
}

/// Whether a restart redoes the position, or has its front right after it.
pub fn is_touched(restarts: &[Restart], position: usize) -> bool
    requires { position ≤ 200000 }
    ensures { result ≡ is_touched restarts.now position }
{
    for restart in restarts {
        if redoes(restart, position as u64) || restart.front.0 as usize == position + 1 {
            return true;
        }
    }
    false
}

// Whether a position has a column.
fn has_column(bands: &Bands, restarts: &[Restart], position: usize) -> bool
    requires { position ≤ 200000 }
    ensures { result ≡ has_column (shows_in bands.now) restarts.now position }
{
    bands.shows(position) || is_touched(restarts, position)
}

// How many of so many positions, from this one on, come before the first that has a column.
#[tactic(auto, using(crate::proofs::Folds::hidden_next))]
fn hidden(bands: &Bands, restarts: &[Restart], positions: usize, first: usize) -> usize
    requires { first + positions ≤ 200000 }
    ensures hidden { result ≡ hidden (shows_in bands.now) restarts.now positions first }
    ensures few { result ≤ positions }
{
    for at in 0..positions {
        if has_column(bands, restarts, first + at) {
            return at;
        }
    }
    positions
}

// Whether an attempt was not run.
fn is_unrun(told: Told) -> bool
    ensures { result ≡ is_unrun told }
{
    match told {
        Told::Unrun => true,
        Told::Untold | Told::Taken | Told::Stale => false,
    }
}

// How many of so many positions were not run at first, from this one on.
#[tactic(auto, using(crate::proofs::Folds::unrun_next))]
fn unrun_from(tellings: &Tellings, positions: usize, first: usize) -> usize
    requires { first + positions ≤ 200000 }
    ensures { result ≡ unrun_from (found tellings.now) positions first }
{
    let mut unrun = 0;
    for at in 0..positions {
        if is_unrun(tellings.told((first + at) as u32, 0)) {
            unrun += 1;
        }
    }
    unrun
}

// Appends how many positions were not run, where there are any.
fn push_unrun(text: &mut Vec<u8>, count: usize) -> Result<(), AllocError>
    ensures { OnOk result (text.new.items ≡ text.old.items ++ unrun_text count) }
{
    if count == 0 {
        return Ok(());
    }
    push_between(text, b", ", count, b" not run")
}

// What is told of so many positions without a column, from this one on.
#[tactic(auto, unfolding(crate::specs::meaning::Picture::fold_text))]
fn fold_text(
    alloc: Global,
    tellings: &Tellings,
    first: usize,
    count: usize,
) -> Result<Text, AllocError>
    requires { first + count ≤ 200000 }
    ensures { IfOk result (λ text. text ≡ fold_text (found tellings.now) first count) }
{
    let mut text = Vec::new(alloc);
    push_number(&mut text, count)?;
    push_between(
        &mut text,
        b" subthreads from ",
        first,
        b" on, without a restart",
    )?;
    push_unrun(&mut text, unrun_from(tellings, count, first))?;
    Ok(Seq::from_vec(text))
}

impl View<'_> {
    // Puts what stands for the positions from this one on that have no column.
    fn put_fold(
        &self,
        alloc: Global,
        drawing: &mut Drawing,
        position: usize,
    ) -> Result<(), AllocError>
        requires position { position < length self.now.order.now }
        requires few { length self.now.order.now ≤ 200000 }
        ensures { OnOk result (drawing.new.elements ≡ drawing.old.elements ++ plain (codes "fold") (fold_text (found self.now.tellings.now) position
            (hidden (shows_in self.now.bands.now) self.now.restarts.now (length self.now.order.now - position) position)) ∷ []) }
    {
        let left = self.order.len() - position;
        let count = hidden(self.bands, self.restarts, left, position);
        let words = fold_text(alloc, self.tellings, position, count)?;
        let element = Element::plain(alloc, b"fold", words)?;
        drawing.put(element, self.bands.fold_place(position))
    }

    // The control variables of the thread at a position.
    fn values_at(&self, position: usize) -> &[(Name, i64)]
        ensures { result.now ≡ values_in self.now.known.now position 0 }
    {
        match self.known.get(position) {
            Some(known) => known.as_slice(),
            None => &[],
        }
    }

    // Puts the column of the subthread at a position.
    fn put_column(
        &self,
        alloc: Global,
        drawing: &mut Drawing,
        position: usize,
        step: &Step,
    ) -> Result<(), AllocError>
        requires position { position ≤ 200000 }
        requires few { length self.now.restarts.now ≤ 1000 }
        ensures { OnOk result (drawing.new.elements ≡ drawing.old.elements
            ++ column self.now.heads.now (found self.now.tellings.now) self.now.restarts.now position (seen step.now)
            (values_in self.now.known.now position (seen step.now).thread)) }
    {
        let number = Element::plain(alloc, b"column", numeral(alloc, position as u64)?)?;
        drawing.put(number, self.bands.column_place(position))?;
        let column = Column {
            bands: self.bands,
            heads: self.heads,
            tellings: self.tellings,
            position,
            step,
            values: self.values_at(position),
        };
        put_boxes(alloc, drawing, &column, self.restarts)?;
        put_fronts(alloc, drawing, self.bands, position, self.restarts)
    }

    // Puts the column of the subthread at a position, where it has one, or else what stands for those from it on without
    // one, where it is the first of them.
    fn put_position(
        &self,
        alloc: Global,
        drawing: &mut Drawing,
        follows: bool,
        position: usize,
        step: &Step,
    ) -> Result<bool, AllocError>
        requires position { position < length self.now.order.now }
        requires few { length self.now.order.now ≤ 200000 }
        requires few_restarts { length self.now.restarts.now ≤ 1000 }
        ensures shown { IfOk result (λ shown. shown ≡ has_column (shows_in self.now.bands.now) self.now.restarts.now position) }
        ensures elements { OnOk result (drawing.new.elements ≡ drawing.old.elements
            ++ cond (has_column (shows_in self.now.bands.now) self.now.restarts.now position)
            (column self.now.heads.now (found self.now.tellings.now) self.now.restarts.now position (seen step.now)
            (values_in self.now.known.now position (seen step.now).thread))
            (cond follows (plain (codes "fold") (fold_text (found self.now.tellings.now) position
            (hidden (shows_in self.now.bands.now) self.now.restarts.now (length self.now.order.now - position) position)) ∷ []) [])) }
    {
        let shown = has_column(self.bands, self.restarts, position);
        if shown {
            self.put_column(alloc, drawing, position, step)?;
        } else if follows {
            self.put_fold(alloc, drawing, position)?;
        }
        Ok(shown)
    }

    /// Puts the columns of all subthreads.
    pub fn put_columns(&self, alloc: Global, drawing: &mut Drawing) -> Result<(), AllocError>
        requires few { length self.now.order.now ≤ 200000 }
        requires few_restarts { length self.now.restarts.now ≤ 1000 }
        ensures { OnOk result (drawing.new.elements ≡ drawing.old.elements
            ++ columns (shows_in self.now.bands.now) self.now.heads.now (found self.now.tellings.now) (values_in self.now.known.now) self.now.restarts.now
            true 0 (map seen self.now.order.now)) }
    {
        let mut follows = true;
        for (position, step) in self.order.iter().enumerate() {
            follows = self.put_position(alloc, drawing, follows, position, step)?;
        }
        Ok(())
    }
}
