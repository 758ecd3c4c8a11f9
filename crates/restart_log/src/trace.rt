// The trace of a run's events.
ghost use Rattle.std.specs.Prelude.{◌≡◌, ◌++◌, IfOk, OnOk};
ghost use Rattle.restart_log.specs.meaning.Trace.{attempt_text, event_restart, event_line, trace_text};

use crate::lines::{push_number_after, push_numbered_line};
use crate::restarts::push_redo;
use gp_base::{Event, Journal, Pos, Restart, Seq, Text};
use std::alloc::{AllocError, Global};

// Appends a word and an attempt of a position after it.
fn push_attempt(
    text: &mut Vec<u8>,
    word: &[u8],
    position: Pos,
    attempt: u32,
) -> Result<(), AllocError>
    ensures { OnOk result (text.new.items ≡ text.old.items ++ word.now ++ attempt_text position attempt) }
{
    push_number_after(text, word, position.0)?;
    push_number_after(text, b" ", attempt)
}

// Appends the line of a restart among the events.
fn push_restart(text: &mut Vec<u8>, restart: &Restart) -> Result<(), AllocError>
    ensures { OnOk result (text.new.items ≡ text.old.items ++ event_restart restart.now) }
{
    push_number_after(text, b"restart ", restart.front.0)?;
    push_attempt(text, b" ", restart.struck, restart.attempt)?;
    push_redo(text, restart.redo.as_slice())?;
    text.extend_from_slice(b"\n")
}

// Appends the line of an event; a restart is a member of this list.
fn push_event(text: &mut Vec<u8>, restarts: &[Restart], event: Event) -> Result<(), AllocError>
    ensures { OnOk result (text.new.items ≡ text.old.items ++ event_line restarts.now event) }
{
    match event {
        Event::Issue(position) => push_numbered_line(text, b"issue ", position.0),
        Event::Post(position, attempt) => {
            push_attempt(text, b"post ", position, attempt)?;
            text.extend_from_slice(b"\n")
        }
        Event::Take(position, attempt, applied) => {
            push_attempt(text, b"take ", position, attempt)?;
            text.extend_from_slice(if applied { b" applied\n" } else { b" stale\n" })
        }
        Event::Restart(number) => match restarts.get(number as usize) {
            Some(restart) => push_restart(text, restart),
            None => Ok(()),
        },
        Event::Retire(position) => push_numbered_line(text, b"retire ", position.0),
    }
}

/// The trace of a journal: a line for each event, in order. The error is that memory is out.
pub fn trace_text(alloc: Global, j: &Journal) -> Result<Text, AllocError>
    ensures { IfOk result (λ text. text ≡ trace_text j.now) }
{
    let mut text = Vec::new(alloc);
    for event in j.events.as_slice() {
        push_event(&mut text, j.restarts.as_slice(), *event)?;
    }
    Ok(Seq::from_vec(text))
}
