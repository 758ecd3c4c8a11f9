// The order of rows.
ghost use Rattle.std.specs.Prelude.{◌≡◌};
ghost use Rattle.db_rows.specs.Order as spec;

use sqlite::Row;
use sqlite::types::ValueRef;

/// The number, from 1, of the first row that doesn't come in order: its first column has no whole number of 64 bits, or
/// one that is not above that of the row before it.
pub fn first_unordered(rows: &[Row]) -> Option<usize>
    ensures { result ≡ spec.first_unordered rows.now }
{
    let mut last = None;
    for at in 0..rows.len() {
        let key = key_of(&rows[at]);
        if !comes_after(last, key) {
            return Some(at + 1);
        }
        last = key;
    }
    None
}

// The number in the first column.
fn key_of(row: &Row) -> Option<i64>
    ensures { result ≡ spec.key_of row.now }
{
    match row.get_ref(0) {
        Ok(ValueRef::Int(number)) => Some(number),
        Ok(_) => None,
        Err(_) => None,
    }
}

// Whether a row with this key may come after one with the last key.
fn comes_after(last: Option<i64>, key: Option<i64>) -> bool
    ensures { result ≡ spec.comes_after last key }
{
    match (last, key) {
        (_, None) => false,
        (None, Some(_)) => true,
        (Some(last), Some(key)) => last < key,
    }
}
