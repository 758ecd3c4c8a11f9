// What a source shows, as a file.
ghost use Rattle.std.specs.Prelude.{◌≡◌, ◌<◌, [], ◌∷◌, ◌++◌, length, None, IfOk, IfErr, OnOk};
ghost use Rattle.std.specs.Result.{is_ok};
ghost use Rattle.sqlite.specs.Held.{state};
ghost use Rattle.sqlite.specs.State.{HasCleanDisk};
ghost use Rattle.db_rows.specs.Csv.{csv_of};
ghost use Rattle.db_steps.specs.Shows.{Shows};
ghost use Rattle.db_steps.specs.Steps.{IsStep};
ghost use Rattle.db_tables.specs.Reading as spec;
ghost use Rattle.db_tables.specs.Faults.{IsCause, IsSeenFault, IsReadFault, IsOrderFault};

use crate::columns::need_columns;
use crate::fault::{SourceFault, TableFault, fault_of};
use crate::queries::query_of;
use db_names::{Shape, Source};
use db_rows::{csv_of, first_unordered};
use db_steps::{outline, select};
use gp_base::{Name, Seq, Text};
use sqlite::{Alter, Error, Row, Transaction};
use sqlite_resolve::CompileError;
use std::alloc::Global;

/// The file that a table is for a batch.
pub fn read_source<S: Alter>(
    alloc: Global,
    tx: &mut Transaction<'_, S>,
    source: &Source,
) -> Result<Text, TableFault>
    ensures same_reference { tx.new.conn.ghost_name ≡ tx.old.conn.ghost_name }
    ensures step { IsStep S.Store tx.old.conn.now tx.new.conn.now (is_ok result) }
    ensures read { HasCleanDisk (state S.Store tx.new.conn.now) →
        IfOk result (spec.IsRead S.Store source.now (state S.Store tx.old.conn.now).now (state S.Store tx.new.conn.now).now) }
    ensures cause { HasCleanDisk (state S.Store tx.new.conn.now) →
        IfErr result (IsCause S.Store source.now (state S.Store tx.old.conn.now).now (state S.Store tx.new.conn.now).now) }
{
    let query = query_of(alloc, source)?;
    see_table(tx, query.whole.as_str(), &source.shape)?;
    let rows = rows_of(tx, query.select.as_str())?;
    file_of(alloc, &source.shape, rows.as_slice())
}

// Looks at a table before it is read.
fn see_table<S: Alter>(
    tx: &mut Transaction<'_, S>,
    whole: &str,
    shape: &Shape,
) -> Result<(), TableFault>
    ensures same_reference { tx.new.conn.ghost_name ≡ tx.old.conn.ghost_name }
    ensures step { IsStep S.Store tx.old.conn.now tx.new.conn.now (is_ok result) }
    ensures unchanged { HasCleanDisk (state S.Store tx.new.conn.now) →
        IfOk result (λ _. (state S.Store tx.new.conn.now).now ≡ (state S.Store tx.old.conn.now).now) }
    ensures cause { HasCleanDisk (state S.Store tx.new.conn.now) → IfErr result (IsSeenFault (state S.Store tx.old.conn.now).now.schema whole.now) }
{
    match outline(tx, whole) {
        Ok(statement) => need_columns(statement.column_names(), shape),
        Err(Error::SqlInputError(CompileError::NoSuchTable)) => Err(TableFault::NoTable),
        Err(error) => Err(fault_of(error)),
    }
}

// The rows that a query shows.
fn rows_of<S: Alter>(tx: &mut Transaction<'_, S>, sql: &str) -> Result<Vec<Row>, TableFault>
    ensures same_reference { tx.new.conn.ghost_name ≡ tx.old.conn.ghost_name }
    ensures step { IsStep S.Store tx.old.conn.now tx.new.conn.now (is_ok result) }
    ensures shown { HasCleanDisk (state S.Store tx.new.conn.now) →
        IfOk result (λ rows. Shows S.Store sql.now [] (state S.Store tx.old.conn.now).now (state S.Store tx.new.conn.now).now rows.items) }
    ensures cause { IfErr result IsReadFault }
{
    match select(tx, sql, &[]) {
        Ok(rows) => Ok(rows),
        Err(error) => Err(fault_of(error)),
    }
}

// The file of the rows of a table.
fn file_of(alloc: Global, shape: &Shape, rows: &[Row]) -> Result<Text, TableFault>
    ensures ordered { IfOk result (λ _. spec.out_of_order shape.now rows.now ≡ None) }
    ensures text { IfOk result (λ text. text ≡ csv_of (spec.skip_of shape.now) rows.now) }
    ensures cause { IfErr result (IsOrderFault shape.now rows.now) }
{
    match shape {
        Shape::Cells { .. } => Ok(csv_of(alloc, rows, 0)?),
        Shape::Rows { .. } => {
            if let Some(number) = first_unordered(rows) {
                return Err(TableFault::Order(number));
            }
            Ok(csv_of(alloc, rows, 1)?)
        }
    }
}

/// The files that tables are for a batch, in the order of the sources.
pub fn read_sources<S: Alter>(
    alloc: Global,
    tx: &mut Transaction<'_, S>,
    sources: &[Source],
) -> Result<Seq<(Name, Text)>, SourceFault>
    ensures same_reference { tx.new.conn.ghost_name ≡ tx.old.conn.ghost_name }
    ensures step { IsStep S.Store tx.old.conn.now tx.new.conn.now (is_ok result) }
    ensures read { HasCleanDisk (state S.Store tx.new.conn.now) →
        IfOk result (spec.ReadEach S.Store sources.now (state S.Store tx.old.conn.now).now (state S.Store tx.new.conn.now).now) }
    ensures which { IfErr result (λ refused. refused.source < length sources.now) }
{
    let mut files = Seq::new(alloc);
    for at in 0..sources.len() {
        let file = read_file(alloc, tx, &sources[at], at)?;
        push_file(&mut files, file, at)?;
    }
    Ok(files)
}

// Adds a file to those before it.
fn push_file(
    files: &mut Seq<(Name, Text)>,
    file: (Name, Text),
    at: usize,
) -> Result<(), SourceFault>
    ensures pushed { OnOk result (files.new ≡ files.old ++ file ∷ []) }
    ensures which { IfErr result (λ refused. refused.source ≡ at) }
{
    match files.push(file) {
        Ok(()) => Ok(()),
        Err(_) => Err(SourceFault {
            source: at,
            fault: TableFault::OutOfMemory,
        }),
    }
}

// The file that a table is for a batch, with its name.
fn read_file<S: Alter>(
    alloc: Global,
    tx: &mut Transaction<'_, S>,
    source: &Source,
    at: usize,
) -> Result<(Name, Text), SourceFault>
    ensures same_reference { tx.new.conn.ghost_name ≡ tx.old.conn.ghost_name }
    ensures step { IsStep S.Store tx.old.conn.now tx.new.conn.now (is_ok result) }
    ensures read { HasCleanDisk (state S.Store tx.new.conn.now) →
        IfOk result (spec.IsFileRead S.Store source.now (state S.Store tx.old.conn.now).now (state S.Store tx.new.conn.now).now) }
    ensures which { IfErr result (λ refused. refused.source ≡ at) }
{
    match read_source(alloc, tx, source) {
        Ok(text) => with_name(alloc, source, text, at),
        Err(fault) => Err(SourceFault { source: at, fault }),
    }
}

// A text with the name of its file.
fn with_name(
    alloc: Global,
    source: &Source,
    text: Text,
    at: usize,
) -> Result<(Name, Text), SourceFault>
    ensures file { IfOk result (λ file. (file.0 ≡ source.now.file) × (file.1 ≡ text)) }
    ensures which { IfErr result (λ refused. refused.source ≡ at) }
{
    match source.file.copied(alloc) {
        Ok(name) => Ok((name, text)),
        Err(_) => Err(SourceFault {
            source: at,
            fault: TableFault::OutOfMemory,
        }),
    }
}
