// The columns of a table.
ghost use Rattle.std.specs.Prelude.{◌≡◌, IfErr};
ghost use Rattle.std.specs.List.{list_any};
ghost use Rattle.sqlite_trees.specs.Sound.{same_name};
ghost use Rattle.db_tables.specs.Faults.{IsMissing, has_column};

use crate::fault::{Column, TableFault};
use db_names::Shape;
use sqlite::types::Bytes;
use sqlite_trees::sound::same_name;

/// Tells the first column that a record's table lacks.
pub fn need_columns(columns: &[Bytes], shape: &Shape) -> Result<(), TableFault>
    ensures { IfErr result (IsMissing columns.now) }
{
    match shape {
        Shape::Cells { .. } => need_cells(columns),
        Shape::Rows { .. } => Ok(()),
    }
}

// Tells the first column of a record that is lacking.
fn need_cells(columns: &[Bytes]) -> Result<(), TableFault>
    ensures { IfErr result (IsMissing columns.now) }
{
    if !has_column(columns, b"cell") {
        return Err(TableFault::NoColumn(Column::Cell));
    }
    if !has_column(columns, b"value") {
        return Err(TableFault::NoColumn(Column::Value));
    }
    Ok(())
}

// Whether one of the columns has this name, in any case.
fn has_column(columns: &[Bytes], name: &[u8]) -> bool
    ensures { result ≡ has_column columns.now name.now }
{
    for column in columns {
        if same_name(column.as_slice(), name) {
            return true;
        }
    }
    false
}
