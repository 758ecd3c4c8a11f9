// Files of records: the index and the value of a cell in each row.
ghost use Rattle.std.specs.Prelude.{◌≡◌, ◌<◌, None, IfOk, length, map, replicate, unwrap_or, pos};
ghost use Rattle.csv.specs.Records.{fields_of};
ghost use Rattle.batch_files.specs.meaning.Rows.{csv_rows};
ghost use Rattle.batch_files.specs.meaning.Records as spec;
ghost use Rattle.batch_files.specs.Records.{AreCells};
ghost use Rattle.batch_files.specs.Answers.{Answers};

use crate::fault::{FileFault, FileKind, RowFault};
use crate::numbers::{natural_below, number_at};
use crate::rows::{Table, put_rows};
use csv::ByteRecord;
use gp_base::{Nums, Seq, Text};
use std::alloc::{AllocError, Global};

/// The cells of a record with this size, by a file whose rows are an index and a value. A cell without a row is 0.
/// `Bad` tells the first row that breaks a rule, with the first rule that it breaks: two fields, which are numbers; an
/// index below the size; and one that no earlier row has.
pub fn read_records(alloc: Global, bytes: &Text, size: u32) -> Result<Nums, FileFault>
    ensures { Answers (λ cells. cells) result (spec.records_by size (csv_rows bytes.now)) }
{
    let cells = RecordTable::new(alloc, size)?;
    let cells = put_rows(alloc, bytes.as_slice(), cells)?;
    Ok(Seq::from_vec(cells.values(alloc)?))
}

/// What a row says of a cell.
#[derive(Clone, Copy)]
pub struct Entry {
    pub index: u64,
    pub value: i64,
}

// The entry of a row, or the first rule that the row breaks by itself.
fn entry_of(size: u64, row: &ByteRecord) -> Result<Entry, FileKind>
    ensures value { result ≡ spec.entry_of size (fields_of row.now) }
    ensures range { IfOk result (λ entry. entry.index < size) }
{
    if row.len() != 2 {
        return Err(FileKind::Fields);
    }
    let (Some(index), Some(value)) = (number_at(row, 0), number_at(row, 1)) else {
        return Err(FileKind::Number);
    };
    match natural_below(size, index) {
        Some(index) => Ok(Entry { index, value }),
        None => Err(FileKind::Range),
    }
}

// The cells of a record while its rows are read, each with the value of its row.
#[derive(Drop)]
struct RecordTable {
    cells: Vec<Option<i64>>,
}

impl RecordTable {
    // As many cells as the size, without a row.
    fn new(alloc: Global, size: u32) -> Result<RecordTable, AllocError>
        ensures { IfOk result (λ table. table.cells.items ≡ replicate size None) }
    {
        let mut cells = Vec::new(alloc);
        cells.resize(size as usize, None)?;
        Ok(RecordTable { cells })
    }

    // The values of the cells, 0 where there is none.
    fn values(&self, alloc: Global) -> Result<Vec<i64>, AllocError>
        ensures { IfOk result (λ values. values.items ≡ map (λ cell. unwrap_or cell (pos 0)) self.now.cells.items) }
    {
        self.cells
            .iter()
            .map(|cell| cell.unwrap_or(0))
            .collect(alloc)
    }
}

impl Table for RecordTable {
    ghost rule = { λ begun. spec.record_rule (length begun.cells.items) };

    ghost holds = { λ begun table rows. AreCells (length begun.cells.items) rows table.cells.items };

    fn put(&mut self, row: &ByteRecord) -> Result<(), RowFault> {
        let entry = entry_of(self.cells.len() as u64, row)?;
        let cell = &mut self.cells[entry.index as usize];
        if cell.is_some() {
            return Err(RowFault::Breaks(FileKind::Twice));
        }
        *cell = Some(entry.value);
        Ok(())
    }
}
