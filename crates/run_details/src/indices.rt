// Which cell is not there, where a run is stuck at an index.

use crate::cells::{Absent, Missing, missing_in};
use crate::halted::Halted;
use crate::handles::push_handle;
use crate::sources::{LookedFor, MarkedPlace, spot_of, tokens_of};
use call_cases::{Request, copied_feeds};
use gp_base::{Feed, Name, Seq, ThreadNo};
use run_hints::{plural, push_names, put_controls};
use run_standing::Standing;
use run_views::push_between;
use std::alloc::{AllocError, Global};
use task_ast::{Atom, Env, Expr, Head, Stmt, eval_d};
use text_pieces::Piece::{Number, Signed, Word};
use text_pieces::push_pieces;
use text_places::push_marked;

// Appends a cell of an array, and the value of its index.
fn push_cell<'a>(
    text: &mut Vec<u8>,
    array: &'a Name,
    index: &'a Atom,
    at: i64,
) -> Result<(), AllocError> {
    let array = array.as_slice();
    match index {
        Atom::Num(_) => push_pieces(text, &[Word(array), Word(b"["), Signed(at), Word(b"]")]),
        Atom::Var(name) => {
            let name = name.as_slice();
            push_pieces(
                text,
                &[
                    Word(array),
                    Word(b"["),
                    Word(name),
                    Word(b"] with "),
                    Word(name),
                    Word(b" = "),
                    Signed(at),
                ],
            )
        }
    }
}

// Appends a cell of an array that is not there, and how many the array has.
fn push_outside(
    text: &mut Vec<u8>,
    array: &Name,
    index: &Atom,
    at: i64,
    size: i64,
) -> Result<(), AllocError> {
    push_cell(text, array, index, at)?;
    let count = size.unsigned_abs();
    push_pieces(
        text,
        &[
            Word(b"; "),
            Word(array.as_slice()),
            Word(b" has "),
            Number(count),
            Word(b" cell"),
            plural(count),
            Word(b", 0 to "),
            Signed(size.saturating_sub(1)),
            Word(b"\n"),
        ],
    )
}

// Appends how many rows and fields a feed has.
fn push_size(text: &mut Vec<u8>, feed: &Feed) -> Result<(), AllocError> {
    let rows = feed.rows();
    let count = rows.unsigned_abs();
    let (to, last) = if 0 < rows {
        (Word(b", 0 to "), Signed(rows.saturating_sub(1)))
    } else {
        (Word(b""), Word(b""))
    };
    let fields = u64::from(feed.fields);
    push_pieces(
        text,
        &[
            Word(b" has "),
            Number(count),
            Word(b" row"),
            plural(count),
            to,
            last,
            Word(b", of "),
            Number(fields),
            Word(b" field"),
            plural(fields),
            Word(b", 0 to "),
            Number(fields.saturating_sub(1)),
        ],
    )
}

// Appends a cell of a feed that is not there.
fn push_no_cell(
    text: &mut Vec<u8>,
    env: &Env,
    feed: &Name,
    row: &Expr,
    field: &Expr,
) -> Result<(), AllocError> {
    let row = eval_d(row, env).unwrap_or(0);
    let field = eval_d(field, env).unwrap_or(0);
    let name = feed.as_slice();
    push_pieces(
        text,
        &[
            Word(name),
            Word(b"["),
            Signed(row),
            Word(b", "),
            Signed(field),
            Word(b"]; "),
            Word(name),
        ],
    )?;
    for pair in env.feeds.as_slice() {
        if pair.0.as_slice() == name {
            push_size(text, &pair.1)?;
        }
    }
    text.extend_from_slice(b"\n")
}

// Appends a cell that is not there.
fn push_absent(text: &mut Vec<u8>, env: &Env, missing: Missing<'_>) -> Result<(), AllocError> {
    match missing {
        Missing::Cell {
            array,
            index,
            at,
            size,
        } => push_outside(text, array, index, at, size),
        Missing::Fed { feed, row, field } => push_no_cell(text, env, feed, row, field),
    }
}

// The control variables that the index of a cell names.
fn controls_of<'a>(alloc: Global, missing: Missing<'a>) -> Result<Vec<&'a Name>, AllocError> {
    let mut names = Vec::new(alloc);
    match missing {
        Missing::Cell {
            index: Atom::Var(name),
            ..
        } => names.push(name)?,
        Missing::Cell { .. } => {}
        Missing::Fed { row, field, .. } => {
            put_controls(&mut names, row)?;
            put_controls(&mut names, field)?;
        }
    }
    Ok(names)
}

// The array of a cell that is not there.
fn array_of<'a>(missing: Missing<'a>) -> &'a Name {
    match missing {
        Missing::Cell { array, .. } => array,
        Missing::Fed { feed, .. } => feed,
    }
}

// Where a cell stands that a statement in a line names, and that is not there.
fn spot_in(
    alloc: Global,
    source: &[u8],
    line: u32,
    found: &Absent<'_>,
) -> Result<Option<MarkedPlace>, AllocError> {
    let tokens = tokens_of(alloc, source)?;
    let sought = LookedFor::Cell(array_of(found.missing));
    Ok(spot_of(source, &tokens, line, sought, Some(found.place)))
}

// Appends the line of a place before other words, if it is another one than this.
fn push_other_line(
    text: &mut Vec<u8>,
    spot: Option<MarkedPlace>,
    line: u32,
) -> Result<(), AllocError> {
    match spot {
        Some(spot) if spot.line != line => push_between(text, b"in line ", spot.line, b": "),
        _ => Ok(()),
    }
}

// Appends a line of a program with a mark under a place in it.
fn push_spot(
    text: &mut Vec<u8>,
    source: &[u8],
    spot: Option<MarkedPlace>,
) -> Result<(), AllocError> {
    match spot {
        Some(spot) => push_marked(text, source, spot.at),
        None => Ok(()),
    }
}

// Appends a cell that is not there, the line of the program that names it, and where its index comes from, if that is a
// thread's number.
fn push_missing(
    alloc: Global,
    text: &mut Vec<u8>,
    env: &Env,
    source: &[u8],
    line: u32,
    found: &Absent<'_>,
) -> Result<(), AllocError> {
    let spot = spot_in(alloc, source, line, found)?;
    push_other_line(text, spot, line)?;
    push_absent(text, env, found.missing)?;
    push_spot(text, source, spot)?;
    match found.missing {
        Missing::Cell { index, .. } => push_handle(text, found.task.body.as_slice(), index),
        Missing::Fed { .. } => Ok(()),
    }
}

// Puts the feed that comes next by the name of its head, where there is one.
fn put_feed(
    alloc: Global,
    named: &mut Seq<(Name, Feed)>,
    name: &Name,
    feeds: &mut Vec<Feed>,
) -> Result<(), AllocError> {
    let name = name.copied(alloc)?;
    if let Some(feed) = feeds.pop() {
        named.push((name, feed))?;
    }
    Ok(())
}

/// The feeds of a run by their names. The error is that memory is out.
pub fn named_feeds(
    alloc: Global,
    request: &Request,
    heads: &[Head],
) -> Result<Seq<(Name, Feed)>, AllocError> {
    let mut feeds = copied_feeds(alloc, request.inputs.feeds.as_slice())?.into_vec();
    feeds.reverse();
    let mut named = Seq::new(alloc);
    for head in heads {
        if let Head::FeedHead { name, .. } = head {
            put_feed(alloc, &mut named, name, &mut feeds)?;
        }
    }
    Ok(named)
}

// The same control variables again.
fn names_again(
    alloc: Global,
    standing: &Standing,
    thread: ThreadNo,
) -> Result<Seq<(Name, i64)>, AllocError> {
    let mut names = Seq::new(alloc);
    if let Some(of) = standing.names.get(thread.0 as usize) {
        for pair in of.as_slice() {
            names.push((pair.0.copied(alloc)?, pair.1))?;
        }
    }
    Ok(names)
}

/// What a thread reads its expressions under. The error is that memory is out.
pub fn env_of(
    alloc: Global,
    request: &Request,
    standing: &Standing,
    thread: ThreadNo,
) -> Result<Env, AllocError> {
    let heads = request.checked.program().heads.as_slice();
    Ok(Env {
        names: names_again(alloc, standing, thread)?,
        regs: Seq::new(alloc),
        me: thread,
        feeds: named_feeds(alloc, request, heads)?,
    })
}

// Appends which cell is not there that a thread names in a line under this environment, that line, and how the thread was
// forked, if its arguments may be the cause.
fn push_found(
    alloc: Global,
    text: &mut Vec<u8>,
    halted: Halted<'_>,
    source: &[u8],
    env: &Env,
    line: u32,
) -> Result<(), AllocError> {
    let Some(found) = missing_in(alloc, halted.program(), env, line)? else {
        return Ok(());
    };
    push_missing(alloc, text, env, source, line, &found)?;
    let names = controls_of(alloc, found.missing)?;
    halted.push_given(alloc, text, (found.task, env.me, line), &names, env)
}

/// Appends which cell is not there that a thread names in a line of a program with this text, that line, how the thread was
/// forked, if its arguments may be the cause, and its control variables. The error is that memory is out.
pub fn push_index(
    alloc: Global,
    text: &mut Vec<u8>,
    halted: Halted<'_>,
    source: &[u8],
    thread: ThreadNo,
    line: u32,
) -> Result<(), AllocError> {
    let env = env_of(alloc, halted.request, halted.standing, thread)?;
    push_found(alloc, text, halted, source, &env, line)?;
    push_names(text, thread, env.names.as_slice())
}
