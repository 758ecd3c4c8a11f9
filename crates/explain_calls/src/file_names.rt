// What in the name of a file that could not be read may not be meant.

use std::alloc::AllocError;
use text_pieces::Piece::Word;
use text_pieces::push_pieces;

// What stands after the last `/` of a name, or the whole name where it has none.
fn bare(name: &[u8]) -> &[u8] {
    let mut from: usize = 0;
    let mut next: usize = 0;
    for byte in name {
        next = next.saturating_add(1);
        if *byte == b'/' {
            from = next;
        }
    }
    match name.get(from..) {
        Some(bytes) => bytes,
        None => &[],
    }
}

/// The folders before the last `/` of a name, without that, or nothing where it has none.
pub fn folder_of(name: &[u8]) -> &[u8] {
    let length = bare(name).len().saturating_add(1);
    match name.get(..name.len().saturating_sub(length)) {
        Some(bytes) => bytes,
        None => &[],
    }
}

fn has_upper(name: &[u8]) -> bool {
    for byte in name {
        if byte.is_ascii_uppercase() {
            return true;
        }
    }
    false
}

// What in a name is likely not meant, whatever files there are.
fn odd(name: &[u8]) -> Option<&'static [u8]> {
    if name.is_empty() {
        Some(b"the name is empty")
    } else if name.starts_with(b" ") || name.ends_with(b" ") {
        Some(b"a blank is the first or the last byte of this name")
    } else if name.contains(&b'\\') {
        Some(b"folders stand before a `/`, and not before a `\\`")
    } else if name.starts_with(b"~") {
        Some(b"a `~` stands for no folder here: write the whole path")
    } else if !bare(name).contains(&b'.') {
        Some(b"the name has no ending, as `.csv` or `.gp`")
    } else {
        None
    }
}

// Appends the name in lower case, where it is another one.
fn push_lower(hints: &mut Vec<u8>, name: &[u8]) -> Result<(), AllocError> {
    if !has_upper(name) {
        return Ok(());
    }
    hints.extend_from_slice(b"hint: upper and lower case make two names: `")?;
    for byte in name {
        hints.push(byte.to_ascii_lowercase())?;
    }
    hints.extend_from_slice(b"` is another file\n")
}

// Appends the name without its folders, where it has some.
fn push_bare<'a>(hints: &mut Vec<u8>, name: &'a [u8]) -> Result<(), AllocError> {
    let folder = folder_of(name);
    if folder.is_empty() {
        return Ok(());
    }
    push_pieces(
        hints,
        &[
            Word(b"hint: `"),
            Word(folder),
            Word(b"` is a folder; without it the name is `"),
            Word(bare(name)),
            Word(b"`\n"),
        ],
    )
}

// Appends what in a name is likely not meant, whatever files there are.
fn push_odd(hints: &mut Vec<u8>, name: &[u8]) -> Result<(), AllocError> {
    match odd(name) {
        Some(odd) => push_pieces(hints, &[Word(b"hint: "), Word(odd), Word(b"\n")]),
        None => Ok(()),
    }
}

/// Appends what in the name of a file may not be meant: what hardly any name has, its case, its folders. The error is that
/// memory is out.
pub fn push_name_hints(hints: &mut Vec<u8>, name: &[u8]) -> Result<(), AllocError> {
    push_odd(hints, name)?;
    push_lower(hints, name)?;
    push_bare(hints, name)
}
