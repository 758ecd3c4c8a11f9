// The boxes of a picture: one for each attempt of a subthread.
ghost use Rattle.std.specs.Prelude.{◌≡◌, ◌≤◌, ◌++◌, ◌∷◌, [], flat_map, length, codes, OnOk, IfOk};
ghost use Rattle.task_ast.specs.meaning.Names.{locks_of};
ghost use Rattle.run_views.specs.Seen.{seen};
ghost use Rattle.run_picture.specs.meaning.Attempts.{index_in, mark, fate_class, stale_class, class_of, fate_text, told_text, value_text, values_line, title, attempt_box, ended_by, boxes};
ghost use Rattle.run_picture.specs.inner.Tellings.{found};

use crate::elements::{Drawing, Element};
use crate::layout::Bands;
use crate::told::{Tellings, Told};
use gp_base::{LockNo, Name, Restart, Seq, Text, ThreadNo};
use one_thread::Step;
use run_views::{
    child_in, push_between, push_child, push_labelled, push_number, push_step, redoes,
};
use std::alloc::{AllocError, Global};
use task_ast::{Head, SyncOp, natural};

/// What became of an attempt: it stays, or a restart of this number struck it, or undid it.
#[derive(Clone, Copy)]
pub enum Fate {
    Stays,
    Struck(u64),
    Undone(u64),
}

/// A subthread at its position, in a picture of a program with these heads that is laid out in these bands; the control
/// variables of its thread before it, and what is told of its attempts.
#[derive(Clone, Copy)]
pub struct Column<'a> {
    pub bands: &'a Bands,
    pub heads: &'a [Head],
    pub tellings: &'a Tellings,
    pub position: usize,
    pub step: &'a Step,
    pub values: &'a [(Name, i64)],
}

// The index of a lock cell in its array.
fn index_of(heads: &[Head], lock: LockNo) -> u64
    ensures { result ≡ index_in (locks_of heads.now) lock }
{
    let mut left = u64::from(lock.0);
    for head in heads {
        if let Head::LockHead { size, .. } = head {
            let size = natural(*size);
            if left < size {
                return left;
            }
            left -= size;
        }
    }
    left
}

// Appends how a subthread begins, in short.
fn push_mark(
    text: &mut Vec<u8>,
    heads: &[Head],
    sync: &SyncOp,
    child: Option<ThreadNo>,
) -> Result<(), AllocError>
    ensures { OnOk result (text.new.items ≡ text.old.items ++ mark heads.now sync.now child) }
{
    match sync {
        SyncOp::Start => text.extend_from_slice(b"S"),
        SyncOp::Lock(lock) => push_labelled(text, b"L ", index_of(heads, *lock)),
        SyncOp::Unlock(lock) => push_labelled(text, b"U ", index_of(heads, *lock)),
        SyncOp::Fork { .. } => push_child(text, b"F ", child),
        SyncOp::Join(thread) => push_labelled(text, b"J ", *thread),
        SyncOp::Barrier(_) => text.extend_from_slice(b"B"),
        SyncOp::Settle { .. } => text.extend_from_slice(b"="),
        SyncOp::End | SyncOp::BadIndex | SyncOp::Spent => Ok(()),
    }
}

// How a subthread begins, in short.
fn mark(alloc: Global, heads: &[Head], step: &Step) -> Result<Text, AllocError>
    ensures { IfOk result (λ text. text ≡ mark heads.now (seen step.now).begins.sync (seen step.now).child) }
{
    let mut text = Vec::new(alloc);
    push_mark(&mut text, heads, &step.begins.sync, child_in(&step.foot))?;
    Ok(Seq::from_vec(text))
}

// The class of an attempt by what became of it.
fn fate_class(attempt: u64, fate: Fate) -> &'static [u8]
    ensures { result.now ≡ fate_class attempt fate }
{
    match fate {
        Fate::Stays if attempt == 0 => b"kept",
        Fate::Stays => b"again",
        Fate::Struck(_) => b"struck",
        Fate::Undone(_) => b"undone",
    }
}

// The class of an attempt whose result came after the restart.
fn stale_class(fate: Fate) -> &'static [u8]
    ensures { result.now ≡ stale_class fate }
{
    match fate {
        Fate::Struck(_) => b"struck",
        Fate::Stays | Fate::Undone(_) => b"stale",
    }
}

// The class of an attempt.
fn class_of(attempt: u64, fate: Fate, told: Told) -> &'static [u8]
    ensures { result.now ≡ class_of attempt fate told }
{
    match told {
        Told::Untold | Told::Taken => fate_class(attempt, fate),
        Told::Stale => stale_class(fate),
        Told::Unrun => b"unrun",
    }
}

// Appends what became of an attempt.
fn push_fate(text: &mut Vec<u8>, fate: Fate) -> Result<(), AllocError>
    ensures { OnOk result (text.new.items ≡ text.old.items ++ fate_text fate) }
{
    match fate {
        Fate::Stays => text.extend_from_slice(b" kept"),
        Fate::Struck(number) => push_labelled(text, b" struck by ", number),
        Fate::Undone(number) => push_labelled(text, b" undone by ", number),
    }
}

// Appends what is told of an attempt.
fn push_telling(text: &mut Vec<u8>, told: Told) -> Result<(), AllocError>
    ensures { OnOk result (text.new.items ≡ text.old.items ++ told_text told) }
{
    match told {
        Told::Untold | Told::Taken => Ok(()),
        Told::Stale => text.extend_from_slice(b", its result came after the restart"),
        Told::Unrun => text.extend_from_slice(b", not run"),
    }
}

// Appends a control variable with its value.
fn push_value(text: &mut Vec<u8>, value: &(Name, i64)) -> Result<(), AllocError>
    ensures { OnOk result (text.new.items ≡ text.old.items ++ value_text value.now) }
{
    text.extend_from_slice(value.0.as_slice())?;
    push_labelled(text, b" = ", value.1)
}

// Appends others after the first.
fn push_others(text: &mut Vec<u8>, values: &[(Name, i64)]) -> Result<(), AllocError>
    ensures { OnOk result (text.new.items ≡ text.old.items ++ flat_map (λ y. codes ", " ++ value_text y) values.now) }
{
    for value in values {
        text.extend_from_slice(b", ")?;
        push_value(text, value)?;
    }
    Ok(())
}

// Appends the line of control variables, where there are some.
fn push_values(text: &mut Vec<u8>, values: &[(Name, i64)]) -> Result<(), AllocError>
    ensures { OnOk result (text.new.items ≡ text.old.items ++ values_line values.now) }
{
    let Some((first, others)) = values.split_first() else {
        return Ok(());
    };
    push_value(text, first)?;
    push_others(text, others)?;
    text.extend_from_slice(b"\n")
}

// What the box of an attempt says when it is pointed at.
#[tactic(auto, unfolding(crate::specs::meaning::Attempts::title))]
fn title(
    alloc: Global,
    column: &Column<'_>,
    attempt: u64,
    fate: Fate,
    told: Told,
) -> Result<Text, AllocError>
    ensures { IfOk result (λ text. text
        ≡ title column.now.heads.now column.now.position (seen column.now.step.now) column.now.values.now attempt fate told) }
{
    let mut text = Vec::new(alloc);
    push_step(&mut text, column.heads, column.position, column.step)?;
    push_values(&mut text, column.values)?;
    push_labelled(&mut text, b"attempt ", attempt)?;
    push_fate(&mut text, fate)?;
    push_telling(&mut text, told)?;
    Ok(Seq::from_vec(text))
}

// The box of an attempt.
#[tactic(auto, unfolding(crate::specs::meaning::Attempts::attempt_box))]
fn attempt_box(
    alloc: Global,
    column: &Column<'_>,
    attempt: u64,
    fate: Fate,
) -> Result<Element, AllocError>
    requires position { column.now.position ≤ 200000 }
    requires attempt { attempt ≤ 1000 }
    ensures { IfOk result (λ element. element
        ≡ attempt_box column.now.heads.now column.now.position (seen column.now.step.now) column.now.values.now attempt fate
        (found column.now.tellings.now column.now.position attempt)) }
{
    let told = column.tellings.told(column.position as u32, attempt as u32);
    Ok(Element {
        class: Seq::from_slice(alloc, class_of(attempt, fate, told))?,
        title: title(alloc, column, attempt, fate, told)?,
        words: mark(alloc, column.heads, column.step)?,
    })
}

// What becomes of an attempt of the position that a restart of this number redoes.
fn ended_by(position: usize, number: u64, restart: &Restart) -> Fate
    ensures { result ≡ ended_by position number restart.now }
{
    if restart.struck.0 as usize == position {
        Fate::Struck(number)
    } else {
        Fate::Undone(number)
    }
}

// Puts the box of an attempt.
fn put_box(
    alloc: Global,
    drawing: &mut Drawing,
    column: &Column<'_>,
    attempt: u64,
    fate: Fate,
) -> Result<(), AllocError>
    requires position { column.now.position ≤ 200000 }
    requires attempt { attempt ≤ 1000 }
    ensures { OnOk result (drawing.new.elements ≡ drawing.old.elements
        ++ attempt_box column.now.heads.now column.now.position (seen column.now.step.now) column.now.values.now attempt fate
        (found column.now.tellings.now column.now.position attempt) ∷ []) }
{
    let element = attempt_box(alloc, column, attempt, fate)?;
    let place = column
        .bands
        .box_place(column.position, column.step.thread, attempt);
    drawing.put(element, place)
}

/// Puts the boxes of a subthread: one for each restart that redoes it, and one for the attempt that stays.
pub fn put_boxes(
    alloc: Global,
    drawing: &mut Drawing,
    column: &Column<'_>,
    restarts: &[Restart],
) -> Result<(), AllocError>
    requires position { column.now.position ≤ 200000 }
    requires few { length restarts.now ≤ 1000 }
    ensures { OnOk result (drawing.new.elements ≡ drawing.old.elements
        ++ boxes column.now.heads.now (found column.now.tellings.now) column.now.position (seen column.now.step.now) column.now.values.now 0 1 restarts.now) }
{
    let mut attempt = 0;
    for (at, restart) in restarts.iter().enumerate() {
        if redoes(restart, column.position as u64) {
            let fate = ended_by(column.position, at as u64 + 1, restart);
            put_box(alloc, drawing, column, attempt, fate)?;
            attempt += 1;
        }
    }
    put_box(alloc, drawing, column, attempt, Fate::Stays)
}
