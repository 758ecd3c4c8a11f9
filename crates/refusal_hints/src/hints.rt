// What to write instead in a line that breaks a rule of the check: names that are nearly declared, how data may decide.
ghost use Rattle.std.specs.Prelude.{◌≤◌, length};

use crate::counts::{push_lock_head, push_main_starts, push_takes};
use crate::data_names::names_data;
use crate::lock_hints::push_lock_hints;
use crate::spelling::dollar;
use crate::unknown_hints::{push_no_array, push_no_main, push_unknown};
use gp_base::Name;
use rule_blame::{Blame, Role, Told};
use std::alloc::AllocError;
use task_ast::{CheckKind, Head, Param, Program, TaskText, What};
use text_pieces::Piece::Word;
use text_pieces::push_pieces;

/// What is told where a comment of another language begins.
pub const COMMENT: &[u8] = b"a comment begins with `#`";

/// Appends a line that tells a name which is declared.
pub fn push_declared(text: &mut Vec<u8>, role: Role, name: &Name) -> Result<(), AllocError> {
    push_pieces(
        text,
        &[
            Word(b"hint: "),
            Word(dollar(role)),
            Word(name.as_slice()),
            Word(b" is declared\n"),
        ],
    )
}

// How many bytes two names have alike from the front.
fn front_alike(one: &[u8], other: &[u8]) -> usize
    ensures { result ≤ length one.now }
{
    let mut count = 0;
    while count < one.len() && count < other.len() && one[count] == other[count] {
        count += 1;
    }
    count
}

// How many bytes two names have alike from the end.
fn end_alike(one: &[u8], other: &[u8]) -> usize {
    let mut count = 0;
    while count < one.len()
        && count < other.len()
        && one[one.len() - 1 - count] == other[other.len() - 1 - count]
    {
        count += 1;
    }
    count
}

/// Whether two names differ by two bytes in a row at most, and have some byte alike.
pub fn is_near(one: &[u8], other: &[u8]) -> bool {
    let longer = one.len().max(other.len());
    let shorter = one.len().min(other.len());
    let alike = front_alike(one, other)
        .saturating_add(end_alike(one, other))
        .min(shorter);
    alike > 0 && longer - alike <= 2
}

/// The role and the name of a variable.
pub fn variable(param: &Param) -> (Role, &Name) {
    match param {
        Param::Ctl(name) => (Role::Control, name),
        Param::Reg(name) => (Role::Data, name),
    }
}

/// The name of a head.
pub fn name_of(head: &Head) -> &Name {
    match head {
        Head::LockHead { name, .. }
        | Head::BarrierHead { name, .. }
        | Head::RecHead { name, .. }
        | Head::FeedHead { name, .. } => name,
    }
}

/// The first head of a name.
pub fn head_named<'a>(heads: &'a [Head], name: &Name) -> Option<&'a Head> {
    for head in heads {
        if name_of(head).as_slice() == name.as_slice() {
            return Some(head);
        }
    }
    None
}

// What a head declares.
fn role_of(head: &Head) -> Role {
    match head {
        Head::LockHead { .. } => Role::LockArray,
        Head::BarrierHead { .. } => Role::Barrier,
        Head::RecHead { .. } => Role::Record,
        Head::FeedHead { .. } => Role::Feed,
    }
}

/// A name that is declared, and as what.
pub type Found<'a> = (Role, &'a Name);

// The first variable of these that is near a name, or has it as the other kind of variable.
fn near_param<'a>(params: &'a [Param], role: Role, name: &Name) -> Option<Found<'a>> {
    for param in params {
        let (found, other) = variable(param);
        let same = other.as_slice() == name.as_slice();
        if same || found == role && is_near(other.as_slice(), name.as_slice()) {
            return Some((found, other));
        }
    }
    None
}

// The same of all variables of a task.
fn near_variable<'a>(task: &'a TaskText, role: Role, name: &Name) -> Option<Found<'a>> {
    if let Some(found) = near_param(task.params.as_slice(), role, name) {
        return Some(found);
    }
    for vars in task.vars.as_slice() {
        if let Some(found) = near_param(vars.names.as_slice(), role, name) {
            return Some(found);
        }
    }
    None
}

/// The first head of the role that is near a name.
pub fn near_head<'a>(heads: &'a [Head], role: Role, name: &Name) -> Option<Found<'a>> {
    for head in heads {
        let other = name_of(head);
        if role_of(head) == role && is_near(other.as_slice(), name.as_slice()) {
            return Some((role, other));
        }
    }
    None
}

/// The first task that is near a name.
pub fn near_task<'a>(program: &'a Program, name: &[u8]) -> Option<Found<'a>> {
    for other in program.tasks.as_slice() {
        if is_near(other.name.as_slice(), name) {
            return Some((Role::Task, &other.name));
        }
    }
    None
}

// The first variable of a task that is near a name.
fn near_in<'a>(program: &'a Program, role: Role, name: &Name, task: &Name) -> Option<Found<'a>> {
    for other in program.tasks.as_slice() {
        if other.name.as_slice() == task.as_slice() {
            return near_variable(other, role, name);
        }
    }
    None
}

/// What of the role is near a name.
pub fn near<'a>(program: &'a Program, role: Role, name: &Name, task: &Name) -> Option<Found<'a>> {
    match role {
        Role::Control | Role::Data => near_in(program, role, name, task),
        Role::Task => near_task(program, name.as_slice()),
        _ => near_head(program.heads.as_slice(), role, name),
    }
}

// What stands before the settle in a hint on data that decides: what else the statement can do.
fn other_way(told: &Told<'_>, name: &Name) -> &'static [u8] {
    let Some(statement) = told.statement else {
        return b"";
    };
    match statement.what {
        What::If(condition, _, _) => if names_data(condition, name) {
            b"`when` in place of `if` decides by data about statements on data; "
        } else {
            b""
        },
        What::Fork(_, _, _) => b"a parameter with a `$` takes data; ",
        What::Join(_, _) => b"`fork t() into h;` gives the number of a thread; ",
        _ => b"",
    }
}

// Appends how data may decide: by a `when`, where it stands in the condition of an `if`, and by a settle.
fn push_ways(text: &mut Vec<u8>, told: &Told<'_>, name: &Name) -> Result<(), AllocError> {
    push_pieces(
        text,
        &[
            Word(b"hint: "),
            Word(other_way(told, name)),
            Word(b"`settle $"),
            Word(name.as_slice()),
            Word(b" into c;` makes it a control value\n"),
        ],
    )
}

/// Appends the hints on a line that breaks a rule of the check, and before them what is held where a lock is missing.
pub fn push_check_hints(
    text: &mut Vec<u8>,
    program: &Program,
    kind: CheckKind,
    told: &Told<'_>,
) -> Result<(), AllocError> {
    push_lock_hints(text, program, kind, told)?;
    match told.blame {
        Blame::NoMain => push_no_main(text, program),
        Blame::Unknown { role, name, task } => push_unknown(text, program, role, name, task),
        Blame::NoArray { array } => push_no_array(text, program, array),
        Blame::Data { name } => push_ways(text, told, name),
        Blame::MainTakes => push_main_starts(text),
        Blame::Counts { task, .. } => push_takes(text, program, task),
        Blame::Sizes { array, other, .. } => push_lock_head(text, program, array, other),
        _ => Ok(()),
    }
}
