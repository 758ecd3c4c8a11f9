// Hints on a row of a file that is refused.

use crate::field_hints::{field_hint, has_byte, has_digit, has_letter, is_empty, is_whole};
use crate::file_uses::{FileUse, bytes_in, fields_of};
use crate::odd_bytes::{UTF_16, is_utf_16, push_odd_in};
use crate::pieces::push_hint;
use batch_files::FileKind;
use csv::ByteRecord;
use row_places::bad_field;
use std::alloc::AllocError;
use text_pieces::Piece::{Number, Word};
use text_pieces::push_pieces;

/// A row that is refused: its file, its line, the row and its number, what it is read as, and its rule.
#[derive(Clone, Copy)]
pub struct Refused<'a> {
    pub bytes: &'a [u8],
    pub line: &'a [u8],
    pub row: &'a ByteRecord,
    pub number: u32,
    pub used: FileUse<'a>,
    pub kind: FileKind,
}

// How often a byte stands in a line.
fn count(line: &[u8], wanted: u8) -> u64 {
    let mut count: u64 = 0;
    for byte in line {
        if *byte == wanted {
            count = count.saturating_add(1);
        }
    }
    count
}

// Marks that stand between fields elsewhere.
static SEPARATORS: [(u8, &[u8]); 3] = [(b';', b" semicolon"), (b'\t', b" tab"), (b'|', b" bar")];

// Appends how often such a mark stands in a line.
fn push_marks(text: &mut Vec<u8>, marks: u64, word: &[u8]) -> Result<(), AllocError> {
    push_pieces(
        text,
        &[
            Word(b"hint: the line has "),
            Number(marks),
            Word(word),
            Word(if marks == 1 { b"" } else { b"s" }),
            Word(b": fields stand between commas\n"),
        ],
    )
}

// Appends that the fields of a line stand between other marks than commas, where they do.
fn push_separator(text: &mut Vec<u8>, line: &[u8]) -> Result<bool, AllocError> {
    for (mark, word) in &SEPARATORS {
        let marks = count(line, *mark);
        if marks > 0 {
            push_marks(text, marks, word)?;
            return Ok(true);
        }
    }
    Ok(false)
}

// Whether one of them stands in a field.
fn is_separated(field: &[u8]) -> bool {
    for (mark, _) in &SEPARATORS {
        if has_byte(field, *mark) {
            return true;
        }
    }
    false
}

// Whether no field of a row has a byte but blanks.
fn is_all_empty(row: &ByteRecord) -> bool {
    for field in 0..row.len() {
        if !is_empty(bytes_in(row, field)) {
            return false;
        }
    }
    true
}

// Whether a field of a row with this number is no name: it begins with a digit, or has one but in the first row.
fn is_numeric(field: &[u8], number: u32) -> bool {
    is_whole(field) || matches!(field, [b'0'..=b'9', ..]) || number > 1 && has_digit(field)
}

// Whether a row names its fields: none of them begins with a digit or has one, but in the first row, and some field has a letter.
fn names_fields(row: &ByteRecord, number: u32) -> bool {
    let mut letters = false;
    for field in 0..row.len() {
        let bytes = bytes_in(row, field);
        if is_numeric(bytes, number) {
            return false;
        }
        letters = letters || has_letter(bytes);
    }
    letters
}

// Whether each field of a row begins with a digit or a `-`, as where a comma stands inside of a number.
fn has_numbers(row: &ByteRecord) -> bool {
    for field in 0..row.len() {
        if !matches!(bytes_in(row, field), [b'0'..=b'9' | b'-', ..]) {
            return false;
        }
    }
    true
}

// Whether a comment of another language begins here.
fn is_comment(field: &[u8]) -> bool {
    field.starts_with(b"#") || field.starts_with(b"//") || field.starts_with(b"--")
}

// What is told of a row that holds no numbers at all.
fn line_hint(row: &ByteRecord, number: u32) -> Option<&'static [u8]> {
    if is_comment(bytes_in(row, 0)) {
        Some(b"there are no comments in a file of rows: this line has to go")
    } else if is_all_empty(row) {
        Some(if row.len() == 1 {
            b"a line of blanks is a row: it has to go; a line without a byte is none"
        } else {
            b"a line of commas alone is a row: it has to go"
        })
    } else if names_fields(row, number) {
        Some(b"a header has to go")
    } else {
        None
    }
}

// What a row of the file is to be.
fn row_form(used: FileUse<'_>) -> Option<&'static [u8]> {
    match used {
        FileUse::Record { .. } => Some(b"a row of a record's file is index,value"),
        FileUse::Faults => Some(b"a row of a list of faults is position,attempt,delay,mask"),
        FileUse::Feed { .. } => None,
    }
}

// Whether a row has one field too many, which is the last and empty.
fn ends_empty(row: &ByteRecord, wanted: u64) -> bool {
    let count = row.len() as u64;
    count == wanted.saturating_add(1) && is_empty(bytes_in(row, row.len().saturating_sub(1)))
}

// What is told of a row with another number of fields.
fn count_hint(row: &ByteRecord, used: FileUse<'_>) -> Option<&'static [u8]> {
    let wanted = fields_of(used);
    if ends_empty(row, wanted) {
        Some(b"the comma at the end of the line has to go")
    } else if row.len() as u64 > wanted && has_numbers(row) {
        Some(
            b"where a comma stands inside of a number it ends a field: 1,000 is written 1000, and 12,50 in cents 1250",
        )
    } else if row.len() == 1 && has_byte(bytes_in(row, 0), b' ') {
        Some(b"fields stand between commas, and not between blanks")
    } else {
        row_form(used)
    }
}

// Appends a hint, if there is one.
fn push_some(text: &mut Vec<u8>, hint: Option<&[u8]>) -> Result<(), AllocError> {
    match hint {
        Some(hint) => push_hint(text, hint),
        None => Ok(()),
    }
}

// Appends a hint on a row with another number of fields, that holds numbers or words.
fn push_form_hint(text: &mut Vec<u8>, refused: Refused<'_>) -> Result<(), AllocError> {
    if refused.row.len() == 1 && push_odd_in(text, bytes_in(refused.row, 0))? {
        return Ok(());
    }
    push_some(text, count_hint(refused.row, refused.used))
}

// Appends a hint on a row with another number of fields.
fn push_count_hint(text: &mut Vec<u8>, refused: Refused<'_>) -> Result<(), AllocError> {
    if push_separator(text, refused.line)? {
        return Ok(());
    }
    match line_hint(refused.row, refused.number) {
        Some(hint) => push_hint(text, hint),
        None => push_form_hint(text, refused),
    }
}

// Appends a hint on a field in which there is no form of a number.
fn push_word_hint(text: &mut Vec<u8>, field: &[u8]) -> Result<(), AllocError> {
    if push_odd_in(text, field)? || !has_letter(field) {
        return Ok(());
    }
    push_hint(text, b"a file holds numbers alone: give each name a number")
}

// Appends a hint on a field that is no number, in such a line.
fn push_field_hint(text: &mut Vec<u8>, line: &[u8], field: &[u8]) -> Result<(), AllocError> {
    if is_separated(field) && push_separator(text, line)? {
        return Ok(());
    }
    match field_hint(field) {
        Some(hint) => push_hint(text, hint),
        None => push_word_hint(text, field),
    }
}

// Appends a hint on a field that is no number, unless it is one that leaves 64 bits.
fn push_number_hint(
    text: &mut Vec<u8>,
    refused: Refused<'_>,
    field: usize,
) -> Result<(), AllocError> {
    let bytes = bytes_in(refused.row, field);
    if is_whole(bytes) {
        return Ok(());
    }
    match line_hint(refused.row, refused.number) {
        Some(hint) => push_hint(text, hint),
        None => push_field_hint(text, refused.line, bytes),
    }
}

// What is told of a number outside of its range, or of a row that says what an earlier one says.
fn value_hint(refused: Refused<'_>) -> Option<&'static [u8]> {
    match (refused.used, refused.kind) {
        (FileUse::Record { .. }, FileKind::Range) => Some(b"indices are counted from 0"),
        (FileUse::Record { .. }, FileKind::Twice) => Some(
            b"a cell has one row at most; rows stand in any order, and a cell without a row begins with 0",
        ),
        _ => None,
    }
}

// Whether a file is that of a table program, or is packed.
fn is_workbook(bytes: &[u8]) -> bool {
    bytes.starts_with(b"PK\x03\x04") || bytes.starts_with(b"\xd0\xcf\x11\xe0")
}

// What is told of a file that is no text with commas.
fn file_hint(bytes: &[u8]) -> Option<&'static [u8]> {
    if is_utf_16(bytes) {
        Some(UTF_16)
    } else if is_workbook(bytes) {
        Some(b"the file is a workbook, or is packed: save its sheet as CSV, text with commas")
    } else {
        None
    }
}

/// Appends a hint on a row that is refused, where there is one.
pub fn push_row_hint(text: &mut Vec<u8>, refused: Refused<'_>) -> Result<(), AllocError> {
    if let Some(hint) = file_hint(refused.bytes) {
        return push_hint(text, hint);
    }
    match (refused.kind, bad_field(refused.row)) {
        (FileKind::Fields, _) => push_count_hint(text, refused),
        (FileKind::Number, Some(field)) => push_number_hint(text, refused, field),
        _ => push_some(text, value_hint(refused)),
    }
}
