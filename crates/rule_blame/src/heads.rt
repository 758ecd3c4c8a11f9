// The blames of heads.
ghost use Rattle.std.specs.Prelude.{◌≡◌, IfSome};
ghost use Rattle.task_ast.specs.meaning.Names.{locks_of, records_of, cells_in};
ghost use Rattle.task_ast.specs.meaning.Declarations.{count_of};
ghost use Rattle.task_ast.specs.View.{plain_program};
ghost use Rattle.rule_blame.specs.Blames.{IsTrue, many_of, limit_of, count_with};

use crate::blames::{Blame, Many};
use crate::entries::{head_line, head_name};
use crate::scope::lock_size;
use gp_base::limits::{MOST_CELLS, MOST_FIELDS, MOST_THREADS, MOST_VARIABLES};
use task_ast::{CheckKind, Head, Program, natural};

// The size, the number or the number of fields of a head.
fn count_of(head: &Head) -> u64
    ensures { result ≡ count_of head.now }
{
    match head {
        Head::LockHead { size, .. } => natural(*size),
        Head::BarrierHead { number, .. } => natural(*number),
        Head::RecHead { size, .. } => natural(*size),
        Head::FeedHead { fields, .. } => natural(*fields),
    }
}

// A record whose lock array isn't declared.
fn no_array<'a>(program: &'a Program, line: u32) -> Option<Blame<'a>>
    ensures { IfSome result (IsTrue (plain_program program.now) line) }
{
    for head in program.heads.as_slice() {
        if let Head::RecHead { by, line: at, .. } = head {
            if *at == line && lock_size(program.heads.as_slice(), by).is_none() {
                return Some(Blame::NoArray { array: by });
            }
        }
    }
    None
}

// A head whose size, number or number of fields is 0.
fn no_size<'a>(program: &'a Program, line: u32) -> Option<Blame<'a>>
    ensures { IfSome result (IsTrue (plain_program program.now) line) }
{
    for head in program.heads.as_slice() {
        if head_line(head) == line && count_of(head) == 0 {
            return Some(Blame::NoSize {
                name: head_name(head),
            });
        }
    }
    None
}

// A record that has another size than its lock array.
fn sizes<'a>(program: &'a Program, line: u32) -> Option<Blame<'a>>
    ensures { IfSome result (IsTrue (plain_program program.now) line) }
{
    for head in program.heads.as_slice() {
        if let Head::RecHead {
            name,
            size,
            by,
            line: at,
            ..
        } = head
        {
            let size = natural(*size);
            if let Some(other) = lock_size(program.heads.as_slice(), by) {
                if *at == line && size != other {
                    return Some(Blame::Sizes {
                        cells: name,
                        size,
                        array: by,
                        other,
                    });
                }
            }
        }
    }
    None
}

// What a head has many of.
fn many_of(head: &Head) -> Many
    ensures { result ≡ many_of head.now }
{
    match head {
        Head::LockHead { .. } => Many::LockCells,
        Head::BarrierHead { .. } => Many::Threads,
        Head::RecHead { .. } => Many::RecordCells,
        Head::FeedHead { .. } => Many::Fields,
    }
}

/// How many of these there may be.
pub fn most_of(what: Many) -> u64 {
    match what {
        Many::LockCells | Many::RecordCells => MOST_CELLS as u64,
        Many::Threads => MOST_THREADS as u64,
        Many::Fields => MOST_FIELDS as u64,
        Many::Variables => MOST_VARIABLES as u64,
    }
}

// The cells of the lock arrays among these heads, where a `u64` holds their number.
fn lock_cells(heads: &[Head]) -> Option<u64>
    ensures { IfSome result (λ cells. cells ≡ cells_in (locks_of heads.now)) }
{
    let mut cells: u64 = 0;
    for head in heads {
        if let Head::LockHead { size, .. } = head {
            cells = cells.checked_add(natural(*size))?;
        }
    }
    Some(cells)
}

// The cells of the records among these heads, where a `u64` holds their number.
fn record_cells(heads: &[Head]) -> Option<u64>
    ensures { IfSome result (λ cells. cells ≡ cells_in (records_of heads.now)) }
{
    let mut cells: u64 = 0;
    for head in heads {
        if let Head::RecHead { size, .. } = head {
            cells = cells.checked_add(natural(*size))?;
        }
    }
    Some(cells)
}

// How many there are with a head, after those before it.
fn count_with(before: &[Head], head: &Head) -> Option<u64>
    ensures { IfSome result (λ count. count ≡ count_with before.now head.now) }
{
    match head {
        Head::LockHead { size, .. } => lock_cells(before)?.checked_add(natural(*size)),
        Head::BarrierHead { number, .. } => Some(natural(*number)),
        Head::RecHead { size, .. } => record_cells(before)?.checked_add(natural(*size)),
        Head::FeedHead { fields, .. } => Some(natural(*fields)),
    }
}

fn limit_of(head: &Head) -> u64
    ensures { result ≡ limit_of head.now }
{
    match head {
        Head::LockHead { .. } | Head::RecHead { .. } => MOST_CELLS as u64,
        Head::BarrierHead { .. } => MOST_THREADS as u64,
        Head::FeedHead { .. } => MOST_FIELDS as u64,
    }
}

// A head with which there are too many.
fn too_many<'a>(program: &'a Program, line: u32) -> Option<Blame<'a>>
    ensures { IfSome result (IsTrue (plain_program program.now) line) }
{
    let heads = program.heads.as_slice();
    for (at, head) in heads.iter().enumerate() {
        if head_line(head) == line {
            let count = count_with(&heads[..at], head)?;
            if count > limit_of(head) {
                return Some(Blame::TooMany {
                    what: many_of(head),
                    name: head_name(head),
                    count,
                });
            }
        }
    }
    None
}

/// What the rule is about in a head of the line.
pub fn head_blame<'a>(program: &'a Program, kind: CheckKind, line: u32) -> Option<Blame<'a>>
    ensures { IfSome result (IsTrue (plain_program program.now) line) }
{
    match kind {
        CheckKind::UnknownName => no_array(program, line),
        CheckKind::WrongCount => no_size(program, line),
        CheckKind::SizesDiffer => sizes(program, line),
        CheckKind::TooMany => too_many(program, line),
        _ => None,
    }
}
