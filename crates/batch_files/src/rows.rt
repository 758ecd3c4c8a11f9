// The rows of a file, one after the other.
ghost use Rattle.std.specs.Prelude.{[], ◌∷◌, ◌++◌, List};
ghost use Rattle.csv.specs.Records.{fields_of};
ghost use Rattle.batch_files.specs.meaning.Rows.{Row, Rule, first_broken, csv_rows};
ghost use Rattle.batch_files.specs.Answers.{PutsRow, PutsAll};

use crate::fault::{FileFault, RowFault, at_row};
use csv::{ByteRecord, ReaderBuilder};
use std::alloc::Global;

/// What the rows of a file are put into.
pub trait Table {
    // The rules of the rows, by the table that was begun with.
    ghost rule: { Self → Rule };

    // What a table is after these rows, none of which breaks a rule.
    ghost holds: { (begun table : Self) → List Row → Type 0 };

    // Puts a row into the table, unless the row breaks a rule. After a refusal the table is of no use.
    fn put(&mut self, row: &ByteRecord) -> Result<(), RowFault>
        ensures { (begun : Self) (rows : List Row) → holds begun self.old rows →
            PutsRow (rule begun rows (fields_of row.now)) (holds begun self.new (rows ++ fields_of row.now ∷ [])) result };
}

/// The table after all rows of a file.
pub fn put_rows<T: Table + Drop>(alloc: Global, bytes: &[u8], mut table: T) -> Result<T, FileFault>
    requires { T.holds table table [] }
    ensures { PutsAll (first_broken (T.rule table) [] (csv_rows bytes.now)) (λ full. T.holds table full (csv_rows bytes.now)) result }
{
    let mut reader = ReaderBuilder::new()
        .has_headers(false)
        .flexible(true)
        .from_reader(alloc, bytes);
    let mut row = ByteRecord::new(alloc);
    for number in 1..u32::MAX {
        match reader.read_byte_record(&mut row) {
            Ok(true) => {}
            Ok(false) => return Ok(table),
            // A text in memory is never refused, and rows may have any length, so nothing but memory can fail here.
            Err(_) => return Err(FileFault::OutOfMemory),
        }
        if let Err(fault) = table.put(&row) {
            return Err(at_row(fault, number));
        }
    }
    // The numbers of rows are used up.
    Err(FileFault::OutOfMemory)
}
