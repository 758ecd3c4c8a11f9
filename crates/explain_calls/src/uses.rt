// What a program reads a file as.
use batch_files::FileKind;
use csv::ByteRecord;
use refusal_texts::FileUse;
use row_places::{number_in, row_of};
use std::alloc::Global;
use task_ast::{Head, natural};

// What a head reads the file of this name as, and how many fields a row of it has then.
fn use_by<'a>(head: &'a Head, file: &[u8]) -> Option<(FileUse<'a>, u64)> {
    match head {
        Head::RecHead {
            name,
            size,
            from: Some(from),
            ..
        } if from.as_slice() == file => {
            let size = natural(*size);
            Some((FileUse::Record { name, size }, 2))
        }
        Head::FeedHead { fields, from, .. } if from.as_slice() == file => {
            let fields = natural(*fields);
            Some((FileUse::Feed { fields }, fields))
        }
        _ => None,
    }
}

// Whether a row begins with an index of a record of this size.
fn has_index(row: &ByteRecord, size: u64) -> bool {
    match number_in(row, 0) {
        Some(index) => index >= 0 && index.unsigned_abs() < size,
        None => false,
    }
}

// Whether a row may be refused so that is read as this: the number of its fields is asked first, and so is right where another rule is broken.
fn may_refuse(used: FileUse<'_>, fields: u64, kind: FileKind, row: &ByteRecord) -> bool {
    let is_full = row.len() as u64 == fields;
    match (used, kind) {
        (_, FileKind::Fields) => !is_full,
        (FileUse::Record { size, .. }, FileKind::Range) => is_full && !has_index(row, size),
        (FileUse::Record { .. }, FileKind::TooMany) => false,
        (FileUse::Feed { .. }, FileKind::Range) => false,
        (FileUse::Feed { .. }, FileKind::Twice) => false,
        _ => is_full,
    }
}

/// What a program with these heads reads the file of this name as where it refuses this row of it by such a rule: the first record or feed that may
/// refuse it so, and else the list of faults. `None` where the row isn't there, or memory runs out.
pub fn use_of<'a>(
    alloc: Global,
    heads: &'a [Head],
    file: &[u8],
    bytes: &[u8],
    parts: (FileKind, u32),
) -> Option<FileUse<'a>> {
    let (kind, number) = parts;
    let row = row_of(alloc, bytes, number)?;
    for head in heads {
        if let Some((used, fields)) = use_by(head, file) {
            if may_refuse(used, fields, kind, &row) {
                return Some(used);
            }
        }
    }
    Some(FileUse::Faults)
}
