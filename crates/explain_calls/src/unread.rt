// What is told of a file that could not be read.
ghost use Rattle.std.specs.Prelude.{◌≤◌, length, IfOk};
ghost use Rattle.gp_base.specs.declared.limits.TheConstants.{MOST_PROGRAM_BYTES};
ghost use Rattle.explain_calls.specs.meaning.Fronts.{IsHint};

use crate::file_names::{folder_of, push_name_hints};
use crate::refused::program_of;
use crate::usage::program_of_command;
use gp_base::{Name, Text};
use std::alloc::{AllocError, Global};
use task_ast::Head;
use text_pieces::Piece::{Number, Word};
use text_pieces::push_pieces;

// A head that names a file: its word, its name, and its line.
#[derive(Clone, Copy)]
struct Naming<'a> {
    word: &'static [u8],
    name: &'a Name,
    line: u32,
}

// The head that names the file of this name first.
fn head_naming<'a>(heads: &'a [Head], file: &Name) -> Option<Naming<'a>> {
    for head in heads {
        let naming = match head {
            Head::RecHead {
                name,
                from: Some(from),
                line,
                ..
            } if from.as_slice() == file.as_slice() => Some(Naming {
                word: b"record ",
                name,
                line: *line,
            }),
            Head::FeedHead {
                name,
                from,
                line,
                ..
            } if from.as_slice() == file.as_slice() => Some(Naming {
                word: b"feed ",
                name,
                line: *line,
            }),
            _ => None,
        };
        if naming.is_some() {
            return naming;
        }
    }
    None
}

// Appends that a head of a program names a file, or the call.
fn push_named<'a>(
    told: &mut Vec<u8>,
    program: &'a Name,
    naming: Option<Naming<'a>>,
) -> Result<(), AllocError> {
    let Some(naming) = naming else {
        return told.extend_from_slice(b"hint: `--faults` names it\n");
    };
    push_pieces(
        told,
        &[
            Word(b"hint: line "),
            Number(u64::from(naming.line)),
            Word(b" of "),
            Word(program.as_slice()),
            Word(b" names it, for "),
            Word(naming.word),
            Word(naming.name.as_slice()),
            Word(b"\n"),
        ],
    )
}

// Appends what names the file in a call of this program with this text.
fn push_naming(
    alloc: Global,
    told: &mut Vec<u8>,
    program: &Name,
    text: &Text,
    file: &Name,
) -> Result<(), AllocError>
    requires { length text.now ≤ MOST_PROGRAM_BYTES }
{
    match program_of(alloc, text.as_slice()) {
        Some(tree) => push_named(told, program, head_naming(tree.heads.as_slice(), file)),
        None => Err(AllocError),
    }
}

// A text on a file that could not be read, with these hints after it.
fn with_hints(alloc: Global, file: &Name, hints: &[u8]) -> Result<Vec<u8>, AllocError>
    ensures { IfOk result (λ told. IsHint told.items) }
{
    let mut more = Vec::new(alloc);
    more.extend_from_slice(file.as_slice())?;
    more.extend_from_slice(
        b" cannot be read: there is no such file, or it is a folder, or it may not be read\n",
    )?;
    more.extend_from_slice(hints)?;
    let mut told = Vec::new(alloc);
    told.extend_from_slice(b"hint: ")?;
    told.extend_from_slice(&more)?;
    Ok(told)
}

// Appends where a name is looked for, where it does not say so itself.
fn push_folder(hints: &mut Vec<u8>, file: &Name) -> Result<(), AllocError> {
    if file.as_slice().starts_with(b"/") {
        return Ok(());
    }
    hints.extend_from_slice(
        b"hint: names are looked for from the folder in which the call is made\n",
    )
}

// Appends in which folder a program stands, where it is not the one of the call.
fn push_program_folder<'a>(
    hints: &mut Vec<u8>,
    program: &'a Name,
    file: &Name,
) -> Result<(), AllocError> {
    let program = program.as_slice();
    let folder = folder_of(program);
    if folder.is_empty() || file.as_slice().starts_with(b"/") {
        return Ok(());
    }
    push_pieces(
        hints,
        &[
            Word(b"hint: "),
            Word(program),
            Word(b" stands in "),
            Word(folder),
            Word(b": if its files do too, change into that folder and call it there\n"),
        ],
    )
}

// Appends that the name of a program is a command, where it is one.
fn push_command(hints: &mut Vec<u8>, file: &Name) -> Result<(), AllocError> {
    let Some(of) = program_of_command(file.as_slice()) else {
        return Ok(());
    };
    push_pieces(
        hints,
        &[
            Word(b"hint: `"),
            Word(file.as_slice()),
            Word(b"` is a command of "),
            Word(of),
            Word(b": after explain stands the name of a program alone\n"),
        ],
    )
}

/// What is told of the program's file, which could not be read. The error is that memory is out.
pub fn unread_program(alloc: Global, file: &Name) -> Result<Vec<u8>, AllocError>
    ensures { IfOk result (λ told. IsHint told.items) }
{
    let mut hints = Vec::new(alloc);
    hints.extend_from_slice(b"hint: it is the program of this call\n")?;
    push_command(&mut hints, file)?;
    push_folder(&mut hints, file)?;
    push_name_hints(&mut hints, file.as_slice())?;
    with_hints(alloc, file, &hints)
}

/// What is told of a file beside a program of this name and text, which could not be read. The error is that memory is
/// out.
pub fn unread_file(
    alloc: Global,
    program: &Name,
    text: &Text,
    file: &Name,
) -> Result<Vec<u8>, AllocError>
    requires { length text.now ≤ MOST_PROGRAM_BYTES }
    ensures { IfOk result (λ told. IsHint told.items) }
{
    let mut hints = Vec::new(alloc);
    push_naming(alloc, &mut hints, program, text, file)?;
    push_folder(&mut hints, file)?;
    push_program_folder(&mut hints, program, file)?;
    push_name_hints(&mut hints, file.as_slice())?;
    with_hints(alloc, file, &hints)
}
