// Control variables that have the numbers of threads.

use gp_base::Name;
use std::alloc::AllocError;
use task_ast::{Atom, Stmt, What};
use text_pieces::Piece::{Number, Word};
use text_pieces::push_pieces;

// The line of the first fork among these statements whose thread's number a variable gets.
fn fork_line(block: &[Stmt], name: &Name) -> Option<u32> {
    for stmt in block {
        let found = match &stmt.what {
            What::Fork(_, _, Some(into)) if into.as_slice() == name.as_slice() => Some(stmt.line),
            What::While(_, body) => fork_line(body.as_slice(), name),
            What::If(_, first, second) => match fork_line(first.as_slice(), name) {
                Some(line) => Some(line),
                None => fork_line(second.as_slice(), name),
            },
            _ => None,
        };
        if found.is_some() {
            return found;
        }
    }
    None
}

/// Appends how what a thread gives back becomes an index, where the index is the thread's number by a fork among these
/// statements. The error is that memory is out.
pub fn push_handle(text: &mut Vec<u8>, body: &[Stmt], index: &Atom) -> Result<(), AllocError> {
    let Atom::Var(name) = index else {
        return Ok(());
    };
    let Some(line) = fork_line(body, name) else {
        return Ok(());
    };
    let name = name.as_slice();
    push_pieces(
        text,
        &[
            Word(b"hint: "),
            Word(name),
            Word(b" is the number of a thread, by the fork in line "),
            Number(u64::from(line)),
            Word(b"; what the thread gives back is an index after `join "),
            Word(name),
            Word(b" into $x; settle $x into c;`\n"),
        ],
    )
}
