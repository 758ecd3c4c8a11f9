// What a file is read for, and the fields of its rows.

use csv::ByteRecord;
use gp_base::Name;

/// What a file is read as: the cells of a record with so many, the rows of a feed with so many fields, or faults.
#[derive(Clone, Copy)]
pub enum FileUse<'a> {
    Record { name: &'a Name, size: u64 },
    Feed { fields: u64 },
    Faults,
}

/// How many fields a row has to have.
pub fn fields_of(used: FileUse<'_>) -> u64 {
    match used {
        FileUse::Record { .. } => 2,
        FileUse::Feed { fields } => fields,
        FileUse::Faults => 4,
    }
}

/// The bytes of a field, or none where the row has no such field.
pub fn bytes_in(row: &ByteRecord, field: usize) -> &[u8] {
    match row.get(field) {
        Some(bytes) => bytes,
        None => &[],
    }
}
