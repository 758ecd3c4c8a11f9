// A line as it is shown, and the mark under one of its bytes.
ghost use Rattle.std.specs.Prelude.{◌≡◌, ◌≤◌, ◌++◌, length, drop, map, take_while, OnOk};
ghost use Rattle.std.specs.List.{prefix_len};
ghost use Rattle.std.specs.Str.Lines.{strip_carriage_return};
ghost use Rattle.text_places.specs.Places.{is_line_byte, line_at};
ghost use Rattle.text_places.specs.Shown.{shown_byte, shown, blank_byte, mark, marked_line, marked_part, marked};

use crate::place::{bytes_before, line_before};
use std::alloc::AllocError;

/// How many bytes of a line are shown, and how far a mark may stand under its front.
pub const LONGEST_SHOWN: usize = 160;

/// How many bytes are shown before a mark that stands further.
pub const SHOWN_BEFORE: usize = 80;

// A byte as it is shown: a byte that moves what is printed would, is a `?`.
fn shown_byte(byte: u8) -> u8
    ensures { result ≡ shown_byte byte }
{
    match byte {
        b'\t' => byte,
        0..=31 | 127 => b'?',
        _ => byte,
    }
}

// What stands under a byte that is not marked.
fn blank_byte(byte: u8) -> u8
    ensures { result ≡ blank_byte byte }
{
    if byte == b'\t' { b'\t' } else { b' ' }
}

// A line without the CR at its end.
fn without_cr(line: &[u8]) -> &[u8]
    ensures { result.now ≡ strip_carriage_return line.now }
{
    if !line.is_empty() && line[line.len() - 1] == b'\r' {
        return &line[..line.len() - 1];
    }
    line
}

// Appends bytes as they are shown.
fn push_bytes(text: &mut Vec<u8>, bytes: &[u8]) -> Result<(), AllocError>
    ensures { OnOk result (text.new.items ≡ text.old.items ++ map shown_byte bytes.now) }
{
    for byte in bytes {
        text.push(shown_byte(*byte))?;
    }
    Ok(())
}

/// Appends a line as it is shown: its first 160 bytes, with a `?` for each byte below 32 but a tab, and for 127, and
/// without a CR at its end.
pub fn push_shown(text: &mut Vec<u8>, line: &[u8]) -> Result<(), AllocError>
    ensures { OnOk result (text.new.items ≡ text.old.items ++ shown line.now) }
{
    push_bytes(text, bytes_before(without_cr(line), LONGEST_SHOWN))
}

// Appends what marks the byte after these of a line.
fn push_mark(text: &mut Vec<u8>, before: &[u8]) -> Result<(), AllocError>
    ensures { OnOk result (text.new.items ≡ text.old.items ++ mark before.now) }
{
    for byte in before {
        text.push(blank_byte(*byte))?;
    }
    text.extend_from_slice(b"^")
}

// How many bytes stand before the first LF.
fn line_length(rest: &[u8]) -> usize
    ensures length { result ≡ prefix_len is_line_byte rest.now }
    ensures within { result ≤ length rest.now }
{
    rest.iter().take_while(|byte| **byte != b'\n').count()
}

// The bytes before the first LF.
fn up_to_end(rest: &[u8]) -> &[u8]
    ensures { result.now ≡ take_while is_line_byte rest.now }
{
    &rest[..line_length(rest)]
}

// The line of a byte.
fn line_at(text: &[u8], at: usize) -> &[u8]
    ensures { result.now ≡ line_at text.now at }
{
    let before = bytes_before(text, at).len();
    let start = before.saturating_sub(line_before(text, at).len());
    up_to_end(&text[start..])
}

// Appends a line with a mark after so many bytes of it.
fn push_line(text: &mut Vec<u8>, line: &[u8], before: &[u8]) -> Result<(), AllocError>
    ensures { OnOk result (text.new.items ≡ text.old.items ++ marked_line line.now before.now) }
{
    push_shown(text, line)?;
    text.extend_from_slice(b"\n")?;
    push_mark(text, before)?;
    text.extend_from_slice(b"\n")
}

// The bytes after so many.
fn bytes_after(bytes: &[u8], count: usize) -> &[u8]
    ensures { result.now ≡ drop count bytes.now }
{
    &bytes[count.min(bytes.len())..]
}

// Appends a part of a line around its mark, which stands after so many bytes.
fn push_part(text: &mut Vec<u8>, line: &[u8], before: &[u8]) -> Result<(), AllocError>
    ensures { OnOk result (text.new.items ≡ text.old.items ++ marked_part line.now before.now) }
{
    let left_out = before.len().saturating_sub(SHOWN_BEFORE);
    text.extend_from_slice(b"..")?;
    push_shown(text, bytes_after(line, left_out))?;
    text.extend_from_slice(b"\n  ")?;
    push_mark(text, bytes_after(before, left_out))?;
    text.extend_from_slice(b"\n")
}

/// Appends the line of a byte, and a line with a mark under that byte. Where it stands further than the bytes of a line
/// that are shown, a part of the line stands in its place, after two points.
pub fn push_marked(text: &mut Vec<u8>, program: &[u8], at: usize) -> Result<(), AllocError>
    ensures { OnOk result (text.new.items ≡ text.old.items ++ marked program.now at) }
{
    let (line, before) = (line_at(program, at), line_before(program, at));
    if before.len() < LONGEST_SHOWN {
        push_line(text, line, before)
    } else {
        push_part(text, line, before)
    }
}
