// From which records the values come that settles put into control variables.

use crate::settings::Setting;
use crate::statements::{is_among, put_name, put_registers, statements_of};
use crate::words::{push_lines, put_once};
use gp_base::Name;
use std::alloc::{AllocError, Global};
use task_ast::{Program, Stmt, TaskText, What};
use text_pieces::Piece::{Number, Word};
use text_pieces::push_pieces;

// How often the variables are followed from which what is settled is computed.
const MOST_FOLLOWED: usize = 2;

// The data variable that a line settles into a control variable.
fn settled_in<'a>(statements: &[&'a Stmt], line: u32, into: &Name) -> Option<&'a Name> {
    for stmt in statements {
        if let What::Settle(from, name) = &stmt.what {
            if stmt.line == line && name.as_slice() == into.as_slice() {
                return Some(from);
            }
        }
    }
    None
}

// Adds the data variables from which those of these names are computed.
fn follow<'a>(names: &mut Vec<&'a Name>, statements: &[&'a Stmt]) -> Result<(), AllocError> {
    for stmt in statements {
        if let What::SetReg(name, e) = &stmt.what {
            if is_among(names, name) {
                put_registers(names, e)?;
            }
        }
    }
    Ok(())
}

// A data variable, and those from which it is computed.
fn sources_of<'a>(
    alloc: Global,
    name: &'a Name,
    statements: &[&'a Stmt],
) -> Result<Vec<&'a Name>, AllocError> {
    let mut names = Vec::new(alloc);
    names.push(name)?;
    for _ in 0..MOST_FOLLOWED {
        follow(&mut names, statements)?;
    }
    Ok(names)
}

// The records that are read into one of these data variables, each once.
fn records_into<'a>(
    alloc: Global,
    statements: &[&'a Stmt],
    names: &[&Name],
) -> Result<Vec<&'a Name>, AllocError> {
    let mut records = Vec::new(alloc);
    for stmt in statements {
        if let What::Read(record, _, into) = &stmt.what {
            if is_among(names, into) {
                put_name(&mut records, record)?;
            }
        }
    }
    Ok(records)
}

// The lines that read a record into one of these data variables.
fn reading_lines(
    alloc: Global,
    statements: &[&Stmt],
    record: &Name,
    names: &[&Name],
) -> Result<Vec<u32>, AllocError> {
    let mut lines = Vec::new(alloc);
    for stmt in statements {
        if let What::Read(other, _, into) = &stmt.what {
            if other.as_slice() == record.as_slice() && is_among(names, into) {
                put_once(&mut lines, stmt.line)?;
            }
        }
    }
    Ok(lines)
}

// Puts the lines of these statements that write a record after others.
fn put_writing(
    lines: &mut Vec<u32>,
    statements: &[&Stmt],
    record: &Name,
) -> Result<(), AllocError> {
    for stmt in statements {
        if let What::Write(other, _, _) = &stmt.what {
            if other.as_slice() == record.as_slice() {
                put_once(lines, stmt.line)?;
            }
        }
    }
    Ok(())
}

// The lines of a program that write a record.
fn writing_lines(alloc: Global, program: &Program, record: &Name) -> Result<Vec<u32>, AllocError> {
    let mut lines = Vec::new(alloc);
    for task in program.tasks.as_slice() {
        put_writing(&mut lines, &statements_of(alloc, task)?, record)?;
    }
    Ok(lines)
}

// Appends which lines write a record.
fn push_writing(text: &mut Vec<u8>, lines: &[u32]) -> Result<(), AllocError> {
    if lines.is_empty() {
        return text.extend_from_slice(b", which nothing writes\n");
    }
    text.extend_from_slice(b", which ")?;
    push_lines(text, lines)?;
    text.extend_from_slice(if lines.len() == 1 {
        b" alone writes\n"
    } else {
        b" write\n"
    })
}

// Appends that a settle in a line goes by a record, and which lines read that into these variables and write it.
fn push_record<'a>(
    alloc: Global,
    text: &mut Vec<u8>,
    program: &Program,
    statements: &[&Stmt],
    line: u32,
    record: &'a Name,
    names: &[&Name],
) -> Result<(), AllocError> {
    push_pieces(
        text,
        &[
            Word(b"hint: the settle in line "),
            Number(u64::from(line)),
            Word(b" goes by record "),
            Word(record.as_slice()),
            Word(b", read in "),
        ],
    )?;
    push_lines(text, &reading_lines(alloc, statements, record, names)?)?;
    push_writing(text, &writing_lines(alloc, program, record)?)
}

// Appends from which records the value comes that a line settles, and which lines write these; whether there are some.
fn push_one<'a>(
    alloc: Global,
    text: &mut Vec<u8>,
    program: &Program,
    statements: &[&'a Stmt],
    line: u32,
    from: &'a Name,
) -> Result<bool, AllocError> {
    let names = sources_of(alloc, from, statements)?;
    let records = records_into(alloc, statements, &names)?;
    for record in &records {
        push_record(alloc, text, program, statements, line, record, &names)?;
    }
    Ok(!records.is_empty())
}

/// Appends, where these lines of a task settle a value, from which records it comes, and which lines of the program write
/// these; and answers whether there are such records. The error is that memory is out.
pub fn push_settled(
    alloc: Global,
    text: &mut Vec<u8>,
    program: &Program,
    task: &TaskText,
    settings: &[Setting<'_>],
) -> Result<bool, AllocError> {
    let statements = statements_of(alloc, task)?;
    let mut are_told = false;
    for setting in settings {
        if let Some(from) = settled_in(&statements, setting.line, setting.name) {
            let is_told = push_one(alloc, text, program, &statements, setting.line, from)?;
            are_told = are_told || is_told;
        }
    }
    Ok(are_told)
}
