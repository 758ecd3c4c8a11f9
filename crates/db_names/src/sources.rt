// The tables of a program.
ghost use Rattle.std.specs.Prelude.{◌≡◌, ◌∷◌, ℕ, List, map, IfOk};
ghost use Rattle.std.specs.List.{list_any};
ghost use Rattle.sqlite_trees.specs.Sound.{same_name};
ghost use Rattle.gp_base.specs.Files.{HasDistinctNames};
ghost use Rattle.db_names.specs.declared.sources.NameFault.TheVariants.{OutOfMemory};
ghost use Rattle.db_names.specs.Sources as spec;
ghost use Rattle.db_names.specs.Tables.{table_of};
ghost use Rattle.db_names.specs.Answers.{IsAnswer};

use crate::tables::{is_reserved, table_of};
use gp_base::{Name, Seq};
use sqlite_trees::sound::same_name;
use std::alloc::{AllocError, Global};
use task_ast::Head;

/// What a program reads of a table: the cells of a record of this name and size, or rows of so many numbers.
#[derive(Drop)]
pub enum Shape {
    Cells { record_name: Name, size: i64 },
    Rows { fields: i64 },
}

/// A file that a program names, in whose place a table stands, and what the program reads of it.
#[derive(Drop)]
pub struct Source {
    pub file: Name,
    pub shape: Shape,
}

/// Why a table can't stand in the place of a file: the file is named as the program is; the name is kept for `gprs` or for
/// SQLite; a declaration before names the same table, in any case.
#[derive(Clone, Copy, Debug, PartialEq, Eq)]
pub enum NameRule {
    Program,
    Reserved,
    Twice,
}

/// Why there are no tables for a program: a file breaks a rule, or memory is out.
#[derive(Drop)]
pub enum NameFault {
    Refused { file: Name, rule: NameRule },
    OutOfMemory,
}

impl From<AllocError> for NameFault {
    ghost from_gives = { λ _ e. e ≡ OutOfMemory };

    fn from(_: AllocError) -> Self {
        NameFault::OutOfMemory
    }
}

/// The files that a program of this name names, in declared order. `Refused` tells the first that breaks a rule. No two
/// have one name, and none that of the program.
pub fn sources_of(alloc: Global, heads: &[Head], program: &Name) -> Result<Seq<Source>, NameFault>
    ensures sources { IsAnswer result (spec.sources_of program.now heads.now) }
    ensures apart { IfOk result (λ sources. (files : List (List ℕ × List ℕ)) →
        map (λ it. it.0) files ≡ program.now ∷ map (λ source. source.file) sources → HasDistinctNames files) }
{
    let sources = gathered(alloc, heads, program)?;
    Ok(sources)
}

// The files that heads name.
fn gathered(alloc: Global, heads: &[Head], program: &Name) -> Result<Seq<Source>, NameFault>
    ensures { IsAnswer result (spec.sources_of program.now heads.now) }
{
    let mut sources = Seq::new(alloc);
    for head in heads {
        if let Some(source) = source_in(alloc, head)? {
            if let Some(rule) = broken_rule(program, sources.as_slice(), &source) {
                let Source { file, shape: _ } = source;
                return Err(NameFault::Refused { file, rule });
            }
            sources.push(source)?;
        }
    }
    Ok(sources)
}

// The file that a head names, if it does.
fn source_in(alloc: Global, head: &Head) -> Result<Option<Source>, AllocError>
    ensures { IfOk result (λ source. source ≡ spec.source_in head.now) }
{
    match head {
        Head::RecHead {
            name,
            size,
            from,
            ..
        } => cells_in(alloc, name, *size, from),
        Head::FeedHead { fields, from, .. } => {
            Ok(Some(Source {
                file: from.copied(alloc)?,
                shape: Shape::Rows { fields: *fields },
            }))
        }
        Head::LockHead { .. } => Ok(None),
        Head::BarrierHead { .. } => Ok(None),
    }
}

// The file that a record names, if it does.
fn cells_in(
    alloc: Global,
    name: &Name,
    size: i64,
    from: &Option<Name>,
) -> Result<Option<Source>, AllocError>
    ensures { IfOk result (λ source. source ≡ spec.cells_in name.now size from.now) }
{
    match from {
        None => Ok(None),
        Some(file) => {
            Ok(Some(Source {
                file: file.copied(alloc)?,
                shape: Shape::Cells {
                    record_name: name.copied(alloc)?,
                    size,
                },
            }))
        }
    }
}

// The rule that a file breaks after those before it.
fn broken_rule(program: &Name, before: &[Source], source: &Source) -> Option<NameRule>
    ensures { result ≡ spec.rule_of program.now before.now source.now }
{
    if program.as_slice() == source.file.as_slice() {
        return Some(NameRule::Program);
    }
    let table = table_of(source.file.as_slice());
    if is_reserved(table) {
        return Some(NameRule::Reserved);
    }
    if names_table(before, table) {
        return Some(NameRule::Twice);
    }
    None
}

// Whether one of the files stands for this table.
fn names_table(sources: &[Source], table: &[u8]) -> bool
    ensures { result ≡ list_any (λ it. same_name (table_of it.file) table.now) sources.now }
{
    for source in sources {
        if same_name(table_of(source.file.as_slice()), table) {
            return true;
        }
    }
    false
}
