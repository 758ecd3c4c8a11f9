// What to write in place of a name that isn't declared as what its place needs.

use crate::counts::task_named;
use crate::foreign::value;
use crate::hints::{head_named, name_of, near, near_head, near_task, push_declared, variable};
use crate::pieces::{push_hint, push_words};
use crate::spelling::dollar;
use gp_base::Name;
use rule_blame::Role;
use std::alloc::AllocError;
use task_ast::{Head, Param, Program, TaskText};
use text_pieces::Piece::Word;
use text_pieces::push_pieces;

// What a head declares.
fn kind_of(head: &Head) -> &'static [u8] {
    match head {
        Head::LockHead { .. } => b" is a lock array",
        Head::BarrierHead { .. } => b" is a barrier",
        Head::RecHead { .. } => b" is a record",
        Head::FeedHead { .. } => b" is a feed",
    }
}

// The first record that stands under the locks of this name.
fn record_under<'a>(heads: &'a [Head], array: &Name) -> Option<&'a Name> {
    for head in heads {
        if let Head::RecHead { name, by, .. } = head {
            if by.as_slice() == array.as_slice() {
                return Some(name);
            }
        }
    }
    None
}

// What a head that stands where another is needed has to do with it: words, a name of it, and words.
type Instead<'a> = (&'static [u8], &'a [u8], &'static [u8]);

fn instead<'a>(heads: &'a [Head], role: Role, head: &'a Head) -> Instead<'a> {
    match (role, head) {
        (Role::LockArray, Head::RecHead { by, .. }) => {
            (b", and stands under the locks ", by.as_slice(), b"")
        }
        (Role::Record, Head::LockHead { name, .. }) => match record_under(heads, name) {
            Some(cells) => (b", and record ", cells.as_slice(), b" stands under it"),
            None => (b"", b"", b""),
        },
        (Role::Record, Head::FeedHead { name, .. }) => {
            (
                b": `$x = ",
                name.as_slice(),
                b"[i, 0];` fetches a cell of it",
            )
        }
        (Role::Feed, Head::RecHead { name, .. }) => {
            (
                b": `read ",
                name.as_slice(),
                b"[i] into $x;` fetches a cell of it",
            )
        }
        _ => (b"", b"", b""),
    }
}

// Appends what a head is, where another is needed.
fn push_head<'a>(
    text: &mut Vec<u8>,
    heads: &'a [Head],
    role: Role,
    head: &'a Head,
) -> Result<(), AllocError> {
    let (before, name, after) = instead(heads, role, head);
    push_pieces(
        text,
        &[
            Word(b"hint: "),
            Word(name_of(head).as_slice()),
            Word(kind_of(head)),
            Word(before),
            Word(name),
            Word(after),
            Word(b"\n"),
        ],
    )
}

// What is told of a task that stands where this is needed.
fn told_of_task(role: Role) -> &'static [u8] {
    if role == Role::Control {
        b" is a task: the variable after the `into` of a fork is the number of its thread\n"
    } else {
        b" is a task\n"
    }
}

// Appends what else the name is declared as among the heads and the tasks.
fn push_other_role(
    text: &mut Vec<u8>,
    program: &Program,
    role: Role,
    name: &Name,
) -> Result<bool, AllocError> {
    let heads = program.heads.as_slice();
    if let Some(head) = head_named(heads, name) {
        push_head(text, heads, role, head)?;
        return Ok(true);
    }
    if task_named(program, name.as_slice()).is_none() {
        return Ok(false);
    }
    push_words(text, b"hint: ", name.as_slice(), told_of_task(role))?;
    Ok(true)
}

// Whether a variable is among these.
fn has_variable(params: &[Param], role: Role, name: &Name) -> bool {
    for param in params {
        let (found, other) = variable(param);
        if found == role && other.as_slice() == name.as_slice() {
            return true;
        }
    }
    false
}

// Whether a task declares a variable.
fn declares(task: &TaskText, role: Role, name: &Name) -> bool {
    if has_variable(task.params.as_slice(), role, name) {
        return true;
    }
    for vars in task.vars.as_slice() {
        if has_variable(vars.names.as_slice(), role, name) {
            return true;
        }
    }
    false
}

// The first task that declares a variable.
fn declaring_task<'a>(program: &'a Program, role: Role, name: &Name) -> Option<&'a TaskText> {
    for task in program.tasks.as_slice() {
        if declares(task, role, name) {
            return Some(task);
        }
    }
    None
}

// Appends which other task declares a variable.
fn push_elsewhere<'a>(
    text: &mut Vec<u8>,
    role: Role,
    name: &'a Name,
    task: &'a Name,
) -> Result<(), AllocError> {
    push_pieces(
        text,
        &[
            Word(b"hint: "),
            Word(dollar(role)),
            Word(name.as_slice()),
            Word(b" is declared in task "),
            Word(task.as_slice()),
            Word(b", for that task alone\n"),
        ],
    )
}

// What stands before and after a name where it is declared.
fn declaring(role: Role) -> (&'static [u8], &'static [u8]) {
    match role {
        Role::LockArray => (b"`lock ", b"[4];` before all tasks declares it"),
        Role::Record => (b"`record ", b"[4] by l;` before all tasks declares it"),
        Role::Feed => (
            b"`feed ",
            b"[2] from \"f.csv\";` before all tasks declares it",
        ),
        Role::Barrier => (b"`barrier ", b"(2);` before all tasks declares it"),
        Role::Task => (b"`task ", b"() { .. }` beside the other tasks declares it"),
        Role::Control => (
            b"`var ",
            b";` before the first statement of the task declares it",
        ),
        Role::Data => (
            b"`var $",
            b";` before the first statement of the task declares it",
        ),
    }
}

// Appends how a name is declared.
fn push_declaring(text: &mut Vec<u8>, role: Role, name: &Name) -> Result<(), AllocError> {
    let (before, after) = declaring(role);
    push_pieces(
        text,
        &[
            Word(b"hint: "),
            Word(before),
            Word(name.as_slice()),
            Word(after),
            Word(b"\n"),
        ],
    )
}

/// Appends what to write in place of a name that isn't declared as what its place needs.
pub fn push_unknown(
    text: &mut Vec<u8>,
    program: &Program,
    role: Role,
    name: &Name,
    task: &Name,
) -> Result<(), AllocError> {
    match value(name.as_slice()) {
        Some(hint) => push_hint(text, hint),
        None => push_undeclared(text, program, role, name, task),
    }
}

// The same of a name that stands for no value.
fn push_undeclared(
    text: &mut Vec<u8>,
    program: &Program,
    role: Role,
    name: &Name,
    task: &Name,
) -> Result<(), AllocError> {
    if role == Role::Control && name.as_slice() == b"ret".as_slice() {
        return push_declared(text, Role::Data, name);
    }
    if role != Role::Data && push_other_role(text, program, role, name)? {
        return Ok(());
    }
    match near(program, role, name, task) {
        Some((found, other)) => push_declared(text, found, other),
        None => push_far(text, program, role, name),
    }
}

// The same of a name that no other is near.
fn push_far(
    text: &mut Vec<u8>,
    program: &Program,
    role: Role,
    name: &Name,
) -> Result<(), AllocError> {
    if let Some(other) = declaring_task(program, role, name) {
        push_elsewhere(text, role, name, &other.name)?;
    }
    push_declaring(text, role, name)
}

/// Appends what to write in place of the lock array of a record.
pub fn push_no_array(
    text: &mut Vec<u8>,
    program: &Program,
    array: &Name,
) -> Result<(), AllocError> {
    if push_other_role(text, program, Role::LockArray, array)? {
        return Ok(());
    }
    match near_head(program.heads.as_slice(), Role::LockArray, array) {
        Some((role, other)) => push_declared(text, role, other),
        None => push_declaring(text, Role::LockArray, array),
    }
}

/// Appends which task is nearly named `main`, or what `main` is.
pub fn push_no_main(text: &mut Vec<u8>, program: &Program) -> Result<(), AllocError> {
    match near_task(program, b"main") {
        Some((role, name)) => push_declared(text, role, name),
        None => text.extend_from_slice(b"hint: the first thread runs `task main() { .. }`\n"),
    }
}
