// What to write in place of a byte that can't stand where it does.
ghost use Rattle.std.specs.Prelude.{◌≤◌, length};

use crate::foreign::{BLOCK, beginning, is_among};
use crate::hints::COMMENT;
use crate::odd_bytes::{Place, UTF_16, is_utf_16, push_odd};
use crate::pieces::push_hint;
use std::alloc::AllocError;
use text_places::{is_quoted_at, line_before};

const CENTS: &[u8] = b"numbers are whole: write amounts in cents";

const GROUPED: &[u8] = b"a number has digits alone, as `1000`; amounts are written in cents";

const ROWS: &[u8] = b"no name has fields: `rows(f)` is the number of rows of feed f";

const FIELDS: &[u8] =
    b"no name has fields: a cell of a feed is `f[i, 0]`, and one of a record is read by `read r[i] into $x;`";

// What follows a name in other languages, and what is told of it.
static MEMBERS: [(&[u8], &[u8]); 8] = [
    (b".rows", ROWS),
    (b".len", ROWS),
    (b".size", ROWS),
    (b".count", ROWS),
    (b".num", ROWS),
    (b".join", b"write `join h into $x;`, or `join h;`"),
    (b".lock", b"write `lock l[i]; .. unlock l[i];`"),
    (b".unlock", b"write `lock l[i]; .. unlock l[i];`"),
];

// Bytes that can't stand anywhere, and what is told of them.
static BYTES: [(u8, &[u8]); 9] = [
    (
        b'!',
        b"`not e` is what other languages write `!e`, and `!=` is one mark",
    ),
    (b'&', b"`d and e` is what other languages write `d && e`"),
    (b'|', b"`d or e` is what other languages write `d || e`"),
    (
        b'$',
        b"the name of a data variable follows its `$` directly",
    ),
    (
        b'\'',
        b"there are numbers alone, and texts in double quotes for the names of files",
    ),
    (
        b'`',
        b"there are numbers alone, and texts in double quotes for the names of files",
    ),
    (
        b'?',
        b"write `if e { .. } else { .. }`, or for data `when e { .. } else { .. }`",
    ),
    (b'^', b"there is no power: write `a * a`"),
    (b'~', b"`not e` is 1 where e is 0, and else 0"),
];

// Words after which a block begins.
static HEADS: [&[u8]; 4] = [b"if", b"else", b"while", b"when"];

/// How many digits stand at the front.
pub fn digits(text: &[u8]) -> usize
    ensures { result ≤ length text.now }
{
    for at in 0..text.len() {
        if !text[at].is_ascii_digit() {
            return at;
        }
    }
    text.len()
}

// Whether the bytes before a place in its line have two slashes, or a slash and a star, in a row.
fn is_after_slashes(program: &[u8], at: usize) -> bool {
    let mut from = at.min(program.len());
    while from > 1 && program[from - 1] != b'\n' {
        if program[from - 2] == b'/' && (program[from - 1] == b'/' || program[from - 1] == b'*') {
            return true;
        }
        from -= 1;
    }
    false
}

fn is_digit(byte: Option<&u8>) -> bool {
    matches!(byte, Some(byte) if byte.is_ascii_digit())
}

fn is_letter(byte: Option<&u8>) -> bool {
    matches!(byte, Some(byte) if byte.is_ascii_alphabetic() || *byte == b'_')
}

// Whether a digit stands before a place, and three and no more after the byte there, as around a mark between thousands.
fn is_between_thousands(program: &[u8], at: usize) -> bool {
    let digits = match program.get(at.saturating_add(1)..) {
        Some(rest) => digits(rest),
        None => 0,
    };
    digits == 3 && is_digit(program.get(at.saturating_sub(1)))
}

// Whether the line has the word `from` before these last bytes of it.
fn names_file(line: &[u8]) -> bool {
    for at in 0..line.len() {
        if line[at..].starts_with(b" from ") {
            return true;
        }
    }
    false
}

// What to write in place of a point and what follows it.
fn member_hint(rest: &[u8]) -> &'static [u8] {
    for (member, told) in &MEMBERS {
        if rest.starts_with(member) {
            return told;
        }
    }
    if is_letter(rest.get(1)) {
        FIELDS
    } else {
        CENTS
    }
}

// What to write in place of a point.
fn point_hint(program: &[u8], at: usize) -> &'static [u8] {
    let rest = &program[at.min(program.len())..];
    let before = program.get(at.saturating_sub(1));
    let after = rest.get(1);
    if names_file(line_before(program, at)) {
        b"the name of a file stands in double quotes"
    } else if before == Some(&b'.') || after == Some(&b'.') {
        b"there are no ranges: write `i = 0; while i < n { .. i = i + 1; }`"
    } else if is_between_thousands(program, at) {
        GROUPED
    } else if is_digit(before) || is_digit(after) {
        CENTS
    } else {
        member_hint(rest)
    }
}

// The bytes after those at the front that are spaces, or ends of blocks.
fn after_margin(line: &[u8]) -> &[u8] {
    for at in 0..line.len() {
        if !matches!(line[at], b' ' | b'\t' | b'}') {
            return &line[at..];
        }
    }
    &[]
}

// The first word of a line.
fn first_word(line: &[u8]) -> &[u8] {
    let rest = after_margin(line);
    for at in 0..rest.len() {
        if !is_letter(rest.get(at)) {
            return &rest[..at];
        }
    }
    rest
}

// Whether the bytes at a place are the rest of a line without a mark.
fn ends_line(program: &[u8], at: usize) -> bool {
    let Some(rest) = program.get(at..) else {
        return true;
    };
    for byte in rest {
        if *byte != b' ' {
            return matches!(*byte, b'\n' | b'\r' | b'#');
        }
    }
    true
}

// Whether a `:` after these bytes of its line begins a block in other languages.
fn begins_block(line: &[u8]) -> bool {
    let word = first_word(line);
    is_among(&HEADS, word) || word.starts_with(b"task") && line.ends_with(b")")
}

// What to write in place of a `:` at this place after such a line.
fn colon_hint(program: &[u8], at: usize, line: &[u8]) -> Option<&'static [u8]> {
    let next = program.get(at.saturating_add(1));
    if next == Some(&b'=') {
        Some(b"write `i = 3;`")
    } else if is_digit(next) || is_letter(next) {
        None
    } else if begins_block(line) {
        Some(BLOCK)
    } else if ends_line(program, at.saturating_add(1)) {
        Some(b"a statement ends with `;`")
    } else if is_letter(program.get(at.saturating_add(2))) {
        Some(b"all values are whole numbers: write `var x;`, and names without a type")
    } else {
        None
    }
}

// What to write in place of a byte that can't stand anywhere.
fn told_of(wanted: u8) -> Option<&'static [u8]> {
    for (byte, told) in &BYTES {
        if *byte == wanted {
            return Some(told);
        }
    }
    None
}

// What to write in place of a byte that can't stand where it is shown.
fn byte_hint(program: &[u8], at: usize) -> Option<&'static [u8]> {
    let line = line_before(program, at);
    match *program.get(at)? {
        b'.' => Some(point_hint(program, at)),
        b'\'' if is_between_thousands(program, at) => Some(GROUPED),
        b':' => match beginning(first_word(line)) {
            Some(told) => Some(told),
            None => colon_hint(program, at, line),
        },
        byte => told_of(byte),
    }
}

// What is told of a byte outside of a text in quotes, or in one.
fn plain_hint(program: &[u8], at: usize) -> Option<&'static [u8]> {
    if is_quoted_at(program, at) {
        Some(b"a text in quotes is the name of a file, and ends in its line")
    } else {
        byte_hint(program, at)
    }
}

/// Appends the hints on a byte that can't stand where it is shown.
pub fn push_lex_hints(text: &mut Vec<u8>, program: &[u8], at: usize) -> Result<(), AllocError> {
    if is_utf_16(program) {
        return push_hint(text, UTF_16);
    }
    if is_after_slashes(program, at) {
        return push_hint(text, COMMENT);
    }
    if let Some(rest) = program.get(at..) {
        if push_odd(text, rest, Place::Program)? {
            return Ok(());
        }
    }
    match plain_hint(program, at) {
        Some(hint) => push_hint(text, hint),
        None => Ok(()),
    }
}
