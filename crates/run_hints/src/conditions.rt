// Loops whose conditions may stay true, and what sets the variables that these name.

use crate::settings::{LoopTurns, Setting};
use crate::statements::{put_controls, put_name, value_of};
use crate::threads::push_variable;
use crate::words::{plural, push_lines};
use gp_base::Name;
use run_counts::Turned;
use std::alloc::{AllocError, Global};
use text_pieces::Piece::{Number, Word};
use text_pieces::push_pieces;

// A loop, and its place among the others.
#[derive(Clone, Copy)]
struct Placed<'a> {
    place: usize,
    turned: Turned<'a>,
}

// Puts a loop among others by its turns, after those with more of them, and after those around it with as many.
fn put_by_turns<'a>(sorted: &mut Vec<Placed<'a>>, placed: Placed<'a>) -> Result<(), AllocError> {
    let mut place: usize = 0;
    for other in sorted.as_slice() {
        if other.turned.turns >= placed.turned.turns {
            place = place.saturating_add(1);
        }
    }
    let place = place.min(sorted.len());
    sorted.insert(place, placed)?;
    Ok(())
}

// The loops by their turns, that with the most first.
fn by_turns<'a>(alloc: Global, loops: &[Turned<'a>]) -> Result<Vec<Placed<'a>>, AllocError> {
    let mut sorted = Vec::new(alloc);
    let mut place: usize = 0;
    for turned in loops {
        put_by_turns(
            &mut sorted,
            Placed {
                place,
                turned: *turned,
            },
        )?;
        place = place.saturating_add(1);
    }
    Ok(sorted)
}

// Appends the control variables that the condition of a loop names, with their values, and whether it sets them.
fn push_controls(
    text: &mut Vec<u8>,
    names: &[&Name],
    values: &[(Name, i64)],
    are_set: bool,
) -> Result<(), AllocError> {
    let mut between: &[u8] = b": ";
    for name in names {
        push_variable(text, between, name, value_of(values, name))?;
        between = b", ";
    }
    text.extend_from_slice(if names.is_empty() {
        b": its condition names no control variable\n"
    } else if are_set {
        b"\n"
    } else if names.len() == 1 {
        b"; nothing in the loop sets it\n"
    } else {
        b"; nothing in the loop sets any of them\n"
    })
}

// Appends how many turns a loop took since it was entered, and the control variables that its condition names, with their
// values.
fn push_condition(
    alloc: Global,
    text: &mut Vec<u8>,
    turned: Turned<'_>,
    values: &[(Name, i64)],
    are_set: bool,
) -> Result<(), AllocError> {
    push_pieces(
        text,
        &[
            Word(b"loop in line "),
            Number(u64::from(turned.around.line)),
            Word(b", "),
            Number(turned.turns),
            Word(b" turn"),
            plural(turned.turns),
            Word(b" since it was entered"),
        ],
    )?;
    let mut names = Vec::new(alloc);
    put_controls(&mut names, turned.around.condition)?;
    push_controls(text, &names, values, are_set)
}

// The variables that are set, each once.
fn names_of<'a>(alloc: Global, settings: &[Setting<'a>]) -> Result<Vec<&'a Name>, AllocError> {
    let mut names = Vec::new(alloc);
    for setting in settings {
        put_name(&mut names, setting.name)?;
    }
    Ok(names)
}

// Appends in which lines of a loop a variable of its condition is set, and that so many of its last turns came to none of
// them, where they are several.
fn push_set<'a>(
    text: &mut Vec<u8>,
    name: &'a Name,
    lines: &[u32],
    missed: u64,
) -> Result<(), AllocError> {
    push_pieces(
        text,
        &[
            Word(b"hint: in this loop "),
            Word(name.as_slice()),
            Word(b" is set in "),
        ],
    )?;
    push_lines(text, lines)?;
    let alone = Word(if lines.len() == 1 { b" alone" } else { b"" });
    if missed <= 1 {
        return push_pieces(text, &[alone, Word(b"\n")]);
    }
    push_pieces(
        text,
        &[
            alone,
            Word(b", where its last "),
            Number(missed),
            Word(b" turns did not come\n"),
        ],
    )
}

// Appends in which lines of a loop a variable of its condition is set, and that none of its last turns came to one of them.
fn push_setting(
    alloc: Global,
    text: &mut Vec<u8>,
    name: &Name,
    turns: u64,
    settings: &[Setting<'_>],
) -> Result<(), AllocError> {
    let mut lines = Vec::new(alloc);
    let mut last: u64 = 0;
    for setting in settings {
        if setting.name.as_slice() == name.as_slice() {
            lines.push(setting.line)?;
            last = last.max(setting.turn);
        }
    }
    push_set(text, name, &lines, turns.saturating_sub(last))
}

// Appends what sets the variables of a loop's condition.
fn push_settings(
    alloc: Global,
    text: &mut Vec<u8>,
    turns: u64,
    settings: &[Setting<'_>],
) -> Result<(), AllocError> {
    for name in &names_of(alloc, settings)? {
        push_setting(alloc, text, name, turns, settings)?;
    }
    Ok(())
}

// Appends of one of the loops its turns and what its condition names, and of the first what sets this.
fn push_placed(
    alloc: Global,
    text: &mut Vec<u8>,
    loops: &LoopTurns<'_>,
    values: &[(Name, i64)],
    placed: Placed<'_>,
    is_first: bool,
) -> Result<(), AllocError> {
    let settings = loops.settings_of(alloc, placed.place)?;
    push_condition(alloc, text, placed.turned, values, !settings.is_empty())?;
    if is_first {
        push_settings(alloc, text, placed.turned.turns, &settings)
    } else {
        Ok(())
    }
}

// Appends that the condition of one of these loops may stay true, and of each its turns and what its condition names.
fn push_sorted(
    alloc: Global,
    text: &mut Vec<u8>,
    loops: &LoopTurns<'_>,
    values: &[(Name, i64)],
    sorted: &[Placed<'_>],
) -> Result<(), AllocError> {
    text.extend_from_slice(if sorted.len() == 1 {
        b"hint: the condition of this loop may stay true:\n"
    } else {
        b"hint: the condition of one of these loops may stay true, of the first most likely:\n"
    })?;
    let mut is_first = true;
    for placed in sorted {
        push_placed(alloc, text, loops, values, *placed, is_first)?;
        is_first = false;
    }
    Ok(())
}

/// Appends that the condition of one of these loops may stay true, and of each, that with the most turns first, its turns and
/// the control variables that it names, with these values; of the first what sets these, which is given. Nothing is told where
/// there is no loop. The error is that memory is out.
pub fn push_conditions<'a>(
    alloc: Global,
    text: &mut Vec<u8>,
    loops: &LoopTurns<'a>,
    values: &[(Name, i64)],
) -> Result<Vec<Setting<'a>>, AllocError> {
    let sorted = by_turns(alloc, loops.loops())?;
    let Some(first) = sorted.first() else {
        return Ok(Vec::new(alloc));
    };
    push_sorted(alloc, text, loops, values, &sorted)?;
    loops.settings_of(alloc, first.place)
}
