// Numbers at the front of bytes.

ghost use Rattle.std.specs.Prelude.{◌≡◌, ◌≤◌, true, false, length, take, drop, option_map};
ghost use Rattle.std.specs.Fmt.{signed_decimal};
ghost use Rattle.retirement_log.specs.meaning.Rows.{IsWide};
ghost use Rattle.gp_resume.specs.inner.Fronts.{IsNumber, IsFront, EndsNumber, is_numeral, goes_on};

use gp_base::{after, count_digits};
use itoa::Buffer;

// How many bytes at the front are digits, perhaps after a minus.
fn count_numeral(bytes: &[u8]) -> usize
    ensures numeral { is_numeral (take result bytes.now) ≡ true }
    ensures rest { goes_on (take result bytes.now) (drop result bytes.now) ≡ false }
    ensures within { result ≤ length bytes.now }
{
    match after(b"-", bytes) {
        Some(digits) => count_digits(digits) + 1,
        None => count_digits(bytes),
    }
}

// The number that these bytes are printed for, where an `i64` holds it.
fn number_of(bytes: &[u8]) -> Option<i64>
    ensures { IsNumber bytes.now result }
{
    let text = match str::from_utf8(bytes) {
        Ok(text) => text,
        Err(_) => return None,
    };
    let number = text.parse::<i64>().ok()?;
    let mut buffer = Buffer::new();
    if buffer.format(number).as_bytes() == bytes {
        Some(number)
    } else {
        None
    }
}

/// The number at the front of the bytes, with the bytes after it.
pub fn number_at<'a>(bytes: &'a [u8]) -> Option<(i64, &'a [u8])>
    ensures { IsFront signed_decimal IsWide EndsNumber bytes.entry.now (option_map (λ read. (read.0, read.1.now)) result) }
{
    let (front, rest) = bytes.split_at(count_numeral(bytes));
    let number = number_of(front)?;
    Some((number, rest))
}
