// Where a row of a file stands.
ghost use Rattle.std.specs.Prelude.{◌≡◌, ◌<◌, ◌≤◌, ◌+◌, ◌^◌, ◌==◌, not, length, take_while, IfSome};
ghost use Rattle.std.specs.List.{list_any, prefix_len};
ghost use Rattle.row_places.specs.Places.{is_line_end, line_end, line_of, line_from, IsRowPlace};

use crate::rows::count_rows;
use crate::scan::{is_line_end, row_start};
use std::alloc::Global;

/// Where a row begins: its first byte, and the line of that byte. Lines are counted from 1 by LF, and in a file without
/// LF by CR.
#[derive(Clone, Copy, Debug, PartialEq, Eq)]
pub struct RowPlace {
    pub at: usize,
    pub line: u32,
}

// Whether there is a LF.
fn has_line_feed(bytes: &[u8]) -> bool
    ensures { result ≡ list_any (λ b. b == 10) bytes.now }
{
    bytes.iter().any(|byte| *byte == b'\n')
}

// The byte that lines are counted by.
fn line_end(bytes: &[u8]) -> u8
    ensures { result ≡ line_end bytes.now }
{
    if has_line_feed(bytes) { b'\n' } else { b'\r' }
}

// The line of a byte.
fn line_of(bytes: &[u8], at: usize) -> usize
    requires { at ≤ length bytes.now }
    ensures line { result ≡ line_of bytes.now at }
    ensures few { result ≤ length bytes.now + 1 }
{
    let end = line_end(bytes);
    1 + bytes[..at].iter().filter(|byte| **byte == end).count()
}

/// Where the row of this number, from 1, begins. What a scan finds is looked up: as many rows as are to stand before it
/// do, by the reader of files, and the byte is no line end. `None` where that isn't so, where there is no such row, or
/// memory runs out.
pub fn place_of(alloc: Global, bytes: &[u8], row: u32) -> Option<RowPlace>
    requires { length bytes.now < 2 ^ 31 }
    ensures { IfSome result (IsRowPlace bytes.now row) }
{
    let at = row_start(bytes, row)?;
    if at >= bytes.len() || is_line_end(bytes[at]) {
        return None;
    }
    if count_rows(alloc, &bytes[..at])?.checked_add(1) != Some(row) {
        return None;
    }
    Some(RowPlace {
        at,
        line: line_of(bytes, at) as u32,
    })
}

// How many bytes stand before the first line end.
fn line_length(rest: &[u8]) -> usize
    ensures length { result ≡ prefix_len (λ b. not (is_line_end b)) rest.now }
    ensures within { result ≤ length rest.now }
{
    rest.iter().take_while(|byte| !is_line_end(**byte)).count()
}

// The bytes before the first line end.
fn up_to_end(rest: &[u8]) -> &[u8]
    ensures { result.now ≡ take_while (λ b. not (is_line_end b)) rest.now }
{
    &rest[..line_length(rest)]
}

/// The bytes from a place to the end of its line.
pub fn line_from(bytes: &[u8], at: usize) -> &[u8]
    requires { at ≤ length bytes.now }
    ensures { result.now ≡ line_from bytes.now at }
{
    up_to_end(&bytes[at..])
}
