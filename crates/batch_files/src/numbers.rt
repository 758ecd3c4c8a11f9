// Numbers in the fields of a row.
ghost use Rattle.std.specs.Prelude.{◌≡◌, ◌==◌, slice_index};
ghost use Rattle.csv.specs.Records.{fields_of};
ghost use Rattle.batch_files.specs.meaning.Numbers as spec;

use csv::ByteRecord;

// The value of a text that is an optional minus and one or more digits, where an `i64` holds it.
fn signed_number(text: &[u8]) -> Option<i64>
    ensures { result ≡ spec.signed_number text.now }
{
    // `parse` takes a plus, which is no part of a number here.
    if starts_with_plus(text) {
        return None;
    }
    match str::from_utf8(text) {
        Ok(text) => text.parse::<i64>().ok(),
        Err(_) => None,
    }
}

fn starts_with_plus(text: &[u8]) -> bool
    ensures { result ≡ (slice_index text.now 0 == 43) }
{
    !text.is_empty() && text[0] == b'+'
}

/// The number that a field of a row writes.
pub fn number_at(row: &ByteRecord, field: usize) -> Option<i64>
    ensures { result ≡ spec.field_number (fields_of row.now) field }
{
    signed_number(row.get(field)?)
}

/// The number, where it is natural and below the limit.
pub fn natural_below(limit: u64, number: i64) -> Option<u64>
    ensures { result ≡ spec.natural_below limit number }
{
    if number < 0 {
        return None;
    }
    let number = number as u64;
    if number < limit { Some(number) } else { None }
}
