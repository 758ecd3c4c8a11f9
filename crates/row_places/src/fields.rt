// The fields of a row.
ghost use Rattle.std.specs.Prelude.{◌≡◌, ◌==◌, IsTrue, IfSome, length, slice_index};
ghost use Rattle.csv.specs.Records.{fields_of};
ghost use Rattle.batch_files.specs.meaning.Numbers.{signed_number, field_number};
ghost use Rattle.row_places.specs.Fields.{IsBadField, AreAlike};

use csv::ByteRecord;
use gp_base::limits::LONGEST_DELAY;

fn starts_with_plus(text: &[u8]) -> bool
    ensures { result ≡ (slice_index text.now 0 == 43) }
{
    !text.is_empty() && text[0] == b'+'
}

// The value of a text that is an optional minus and one or more digits, where an `i64` holds it.
fn signed_number(text: &[u8]) -> Option<i64>
    ensures { result ≡ signed_number text.now }
{
    // `parse` takes a plus, which is no part of a number here.
    if starts_with_plus(text) {
        return None;
    }
    match str::from_utf8(text) {
        Ok(text) => text.parse::<i64>().ok(),
        Err(_) => None,
    }
}

/// The number that a field of a row, from 0, writes.
pub fn number_in(row: &ByteRecord, field: usize) -> Option<i64>
    ensures { result ≡ field_number (fields_of row.now) field }
{
    signed_number(row.get(field)?)
}

/// The first field of a row, from 0, that writes no number.
pub fn bad_field(row: &ByteRecord) -> Option<usize>
    ensures { IfSome result (IsBadField (fields_of row.now)) }
{
    for field in 0..row.len() {
        if number_in(row, field).is_none() {
            return Some(field);
        }
    }
    None
}

// Whether two numbers are the same, or there is neither.
fn is_same(one: Option<i64>, other: Option<i64>) -> bool
    ensures { IsTrue result → one ≡ other }
{
    match (one, other) {
        (Some(v), Some(w)) => v == w,
        (None, None) => true,
        _ => false,
    }
}

/// Whether so many fields at the front of two rows write the same numbers.
pub fn are_alike(keys: usize, one: &ByteRecord, other: &ByteRecord) -> bool
    ensures { IsTrue result → AreAlike keys (fields_of one.now) (fields_of other.now) }
{
    for field in 0..keys {
        if !is_same(number_in(one, field), number_in(other, field)) {
            return false;
        }
    }
    true
}

// Whether a number is outside the range of this field of a fault: its position and attempt, its delay, its mask.
fn is_out_of_range(field: usize, number: i64) -> bool {
    match field {
        0 | 1 => number < 0 || number >= 1 << 32,
        2 => number < 0 || number > LONGEST_DELAY as i64,
        _ => number == 0,
    }
}

/// The first field of a fault's row, from 0, whose number is outside its range.
pub fn fault_field(row: &ByteRecord) -> Option<usize> {
    for field in 0..row.len() {
        if let Some(number) = number_in(row, field) {
            if is_out_of_range(field, number) {
                return Some(field);
            }
        }
    }
    None
}
