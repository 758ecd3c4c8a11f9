// The rows of a file, as the crate `csv` reads them.
ghost use Rattle.std.specs.Prelude.{◌≡◌, ◌<◌, length, IfSome};
ghost use Rattle.csv.specs.Records.{fields_of};
ghost use Rattle.batch_files.specs.meaning.Rows.{csv_rows};
ghost use Rattle.row_places.specs.Fields.{AreAlike, row_at};

use crate::fields::are_alike;
use csv::{ByteRecord, ReaderBuilder};
use std::alloc::Global;

/// How many rows a file has. `None` where memory runs out.
pub fn count_rows(alloc: Global, bytes: &[u8]) -> Option<u32>
    ensures { IfSome result (λ count. count ≡ length (csv_rows bytes.now)) }
{
    let mut reader = ReaderBuilder::new()
        .has_headers(false)
        .flexible(true)
        .from_reader(alloc, bytes);
    let mut row = ByteRecord::new(alloc);
    for count in 0..u32::MAX {
        match reader.read_byte_record(&mut row) {
            Ok(true) => {}
            Ok(false) => return Some(count),
            Err(_) => return None,
        }
    }
    None
}

/// The row of this number, from 1. `None` where there is none, or memory runs out.
pub fn row_of(alloc: Global, bytes: &[u8], number: u32) -> Option<ByteRecord>
    ensures { IfSome result (λ row. fields_of row ≡ row_at (csv_rows bytes.now) number) }
{
    let mut reader = ReaderBuilder::new()
        .has_headers(false)
        .flexible(true)
        .from_reader(alloc, bytes);
    let mut row = ByteRecord::new(alloc);
    for count in 0..u32::MAX {
        match reader.read_byte_record(&mut row) {
            Ok(true) => {}
            Ok(false) | Err(_) => return None,
        }
        if count + 1 == number {
            return Some(row);
        }
    }
    None
}

/// The number of the first row, from 1, so many fields of which write the same numbers as those of this row. `None` where
/// there is none, or memory runs out.
pub fn first_like(alloc: Global, bytes: &[u8], row: &ByteRecord, keys: usize) -> Option<u32>
    ensures { IfSome result (λ number. AreAlike keys (row_at (csv_rows bytes.now) number) (fields_of row.now)) }
{
    let mut reader = ReaderBuilder::new()
        .has_headers(false)
        .flexible(true)
        .from_reader(alloc, bytes);
    let mut other = ByteRecord::new(alloc);
    for count in 0..u32::MAX {
        match reader.read_byte_record(&mut other) {
            Ok(true) => {}
            Ok(false) | Err(_) => return None,
        }
        if are_alike(keys, &other, row) {
            return Some(count + 1);
        }
    }
    None
}
