// Why a file is refused.
ghost use Rattle.std.specs.Prelude.{◌<◌, ◌^◌, length};

use batch_files::FileKind;
use csv::ByteRecord;
use gp_base::{Name, Text};
use refusal_hints::{
    FileUse, Refused, bytes_in, fields_of, is_whole, push_between, push_number, push_row_hint,
    push_words,
};
use row_places::{
    RowPlace, bad_field, fault_field, field_start, first_like, line_from, place_of, row_of,
};
use std::alloc::{AllocError, Global};
use task_ast::{Head, natural};
use text_places::{push_marked, push_shown};

// How many bytes of a field are told.
const LONGEST_FIELD: usize = 40;

// The bytes of a field, as many as are told.
fn field_of(row: &ByteRecord, field: usize) -> &[u8] {
    let bytes = bytes_in(row, field);
    &bytes[..bytes.len().min(LONGEST_FIELD)]
}

// Appends the number of a field, from 1.
fn push_field(text: &mut Vec<u8>, field: usize) -> Result<(), AllocError> {
    push_between(text, b"field ", (field as u64).saturating_add(1), b": ")
}

// Appends that a row has another number of fields.
fn push_count(text: &mut Vec<u8>, row: &ByteRecord, used: FileUse<'_>) -> Result<(), AllocError> {
    let word: &[u8] = if row.len() == 1 {
        b" field, and not "
    } else {
        b" fields, and not "
    };
    push_between(text, b"", row.len() as u64, word)?;
    push_number(text, fields_of(used))
}

// Appends that a field writes no number of 64 bits.
fn push_no_number(text: &mut Vec<u8>, row: &ByteRecord) -> Result<(), AllocError> {
    let Some(field) = bad_field(row) else {
        return text.extend_from_slice(b"a field is no whole number");
    };
    push_field(text, field)?;
    text.extend_from_slice(b"\"")?;
    push_shown(text, field_of(row, field))?;
    let wrong: &[u8] = if is_whole(bytes_in(row, field)) {
        b"\" leaves 64 bits"
    } else {
        b"\" is no whole number"
    };
    text.extend_from_slice(wrong)
}

// Appends that a number is outside of its range.
fn push_range(text: &mut Vec<u8>, row: &ByteRecord, used: FileUse<'_>) -> Result<(), AllocError> {
    match used {
        FileUse::Record { name, size } => {
            push_field(text, 0)?;
            push_shown(text, field_of(row, 0))?;
            push_words(text, b" is no index of ", name.as_slice(), b", which has ")?;
            push_between(text, b"", size, b" cells, 0 to ")?;
            push_number(text, size.saturating_sub(1))
        }
        _ => push_fault_range(text, row),
    }
}

// Appends which number of a fault is outside of its range.
fn push_fault_range(text: &mut Vec<u8>, row: &ByteRecord) -> Result<(), AllocError> {
    let Some(field) = fault_field(row) else {
        return text.extend_from_slice(b"a number is outside its range");
    };
    push_field(text, field)?;
    push_shown(text, field_of(row, field))?;
    match field {
        0 => text.extend_from_slice(b" is no position, 0 to 4294967295"),
        1 => text.extend_from_slice(b" is no attempt, 0 to 4294967295"),
        2 => text.extend_from_slice(b" is no delay, 0 to 64"),
        _ => text.extend_from_slice(b" is no mask: it flips no bit"),
    }
}

// Appends which earlier row says the same.
fn push_twice(
    alloc: Global,
    text: &mut Vec<u8>,
    bytes: &[u8],
    row: &ByteRecord,
    used: FileUse<'_>,
) -> Result<(), AllocError>
    requires { length bytes.now < 2 ^ 31 }
{
    let keys = if matches!(used, FileUse::Faults) {
        2
    } else {
        1
    };
    let line = match first_like(alloc, bytes, row, keys) {
        Some(number) => place_of(alloc, bytes, number),
        None => None,
    };
    let first: &[u8] = if keys == 1 {
        b"field 1: index "
    } else {
        b"field 1: position "
    };
    push_words(text, first, field_of(row, 0), b"")?;
    if keys == 2 {
        push_words(text, b" with attempt ", field_of(row, 1), b"")?;
    }
    match line {
        Some(place) => push_between(
            text,
            b" stands in line ",
            u64::from(place.line),
            b" already",
        ),
        None => text.extend_from_slice(b" stands in an earlier row already"),
    }
}

// Appends what is said of a row.
fn push_row_message(
    alloc: Global,
    text: &mut Vec<u8>,
    bytes: &[u8],
    row: &ByteRecord,
    used: FileUse<'_>,
    kind: FileKind,
) -> Result<(), AllocError>
    requires { length bytes.now < 2 ^ 31 }
{
    match kind {
        FileKind::Fields => push_count(text, row, used),
        FileKind::Number => push_no_number(text, row),
        FileKind::Range => push_range(text, row, used),
        FileKind::Twice => push_twice(alloc, text, bytes, row, used),
        FileKind::TooMany => match used {
            FileUse::Faults => text.extend_from_slice(b"this row passes 1000 faults"),
            _ => text.extend_from_slice(b"this row passes 1000000 cells of feeds"),
        },
    }
}

// The number of a rule.
fn kind_number(kind: FileKind) -> u64 {
    match kind {
        FileKind::Fields => 1,
        FileKind::Number => 2,
        FileKind::Range => 3,
        FileKind::Twice => 4,
        FileKind::TooMany => 5,
    }
}

// The field of a row that a refusal is about, from 0, if it is about one: of a row with too many fields the first of these.
fn field_in(row: &ByteRecord, used: FileUse<'_>, kind: FileKind) -> Option<usize> {
    match (kind, used) {
        (FileKind::Fields, _) => usize::try_from(fields_of(used)).ok(),
        (FileKind::Number, _) => bad_field(row),
        (FileKind::Range, FileUse::Faults) => fault_field(row),
        (FileKind::Range | FileKind::Twice, _) => Some(0),
        (FileKind::TooMany, _) => None,
    }
}

// Appends the line of a row, with a mark under the field that is refused where the line has it.
fn push_line(text: &mut Vec<u8>, line: &[u8], field: Option<usize>) -> Result<(), AllocError> {
    if line.is_empty() {
        return Ok(());
    }
    let at = match field {
        Some(field) => field_start(line, field),
        None => None,
    };
    match at {
        Some(at) => push_marked(text, line, at),
        None => {
            push_shown(text, line)?;
            text.extend_from_slice(b"\n")
        }
    }
}

// The line of a row.
fn line_at(bytes: &[u8], place: Option<RowPlace>) -> &[u8] {
    match place {
        Some(place) if place.at <= bytes.len() => line_from(bytes, place.at),
        _ => &[],
    }
}

/// Appends why a file is refused at a row: the name of the file, the line of the row, what is said of the row, the rule
/// and the row, the line itself with a mark under the field, and hints. Where the line can't be found it is left out.
/// The only error is out of memory.
pub fn push_file_refusal(
    alloc: Global,
    text: &mut Vec<u8>,
    name: &Name,
    bytes: &Text,
    used: FileUse<'_>,
    kind: FileKind,
    row: u32,
) -> Result<(), AllocError>
    requires { length bytes.now < 2 ^ 31 }
{
    let bytes = bytes.as_slice();
    let place = place_of(alloc, bytes, row);
    let record = match row_of(alloc, bytes, row) {
        Some(record) => record,
        None => return Err(AllocError),
    };
    text.extend_from_slice(name.as_slice())?;
    if let Some(place) = place {
        push_between(text, b":", u64::from(place.line), b"")?;
    }
    text.extend_from_slice(b": ")?;
    push_row_message(alloc, text, bytes, &record, used, kind)?;
    push_between(text, b" (kind ", kind_number(kind), b" row ")?;
    push_between(text, b"", u64::from(row), b")\n")?;
    let line = line_at(bytes, place);
    push_line(text, line, field_in(&record, used, kind))?;
    let refused = Refused {
        bytes,
        line,
        row: &record,
        number: row,
        used,
        kind,
    };
    push_row_hint(text, refused)
}

/// Appends that a file is too long.
pub fn push_long_file(text: &mut Vec<u8>, name: &Name) -> Result<(), AllocError> {
    push_words(
        text,
        name.as_slice(),
        b": more than 33554432 bytes (kind 6 row 0)\n",
        b"",
    )
}

/// Appends which line of a program says how many fields a row of a feed has, where its file is refused since a row has another
/// number of them. The heads are those of the program, and the name is that of the file. The only error is out of memory.
pub fn push_feed_head(
    text: &mut Vec<u8>,
    heads: &[Head],
    file: &Name,
    used: FileUse<'_>,
    kind: FileKind,
) -> Result<(), AllocError> {
    let (FileUse::Feed { fields: wanted }, FileKind::Fields) = (used, kind) else {
        return Ok(());
    };
    for head in heads {
        if let Head::FeedHead {
            name,
            fields,
            from,
            line,
        } = head
        {
            if from.as_slice() == file.as_slice() && natural(*fields) == wanted {
                push_between(
                    text,
                    b"hint: line ",
                    u64::from(*line),
                    b" of the program says: ",
                )?;
                push_words(text, b"feed ", name.as_slice(), b" has ")?;
                return push_between(text, b"", wanted, b" fields in each row\n");
            }
        }
    }
    Ok(())
}
