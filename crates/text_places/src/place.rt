// The line and the column of a byte.
ghost use Rattle.std.specs.Prelude.{◌≡◌, ◌<◌, ◌≤◌, ◌+◌, ◌^◌, length, take};
ghost use Rattle.task_parser.specs.meaning.Lexing.{line_after};
ghost use Rattle.text_places.specs.Places.{line_start, line_before, place_of};

/// A line of a text and a column in it, both from 1. Columns count bytes.
#[derive(Clone, Copy, Debug, PartialEq, Eq)]
pub struct Place {
    pub line: u32,
    pub column: u32,
}

// Where the line begins that these bytes end in.
fn line_start(before: &[u8]) -> usize
    ensures start { result ≡ line_start before.now }
    ensures within { result ≤ length before.now }
{
    let mut start = before.len();
    while start > 0 && before[start - 1] != b'\n' {
        start -= 1;
    }
    start
}

// The line of what stands after these bytes.
fn line_after(before: &[u8]) -> usize
    ensures line { result ≡ line_after before.now }
    ensures few { result ≤ length before.now + 1 }
{
    1 + before.iter().filter(|byte| **byte == b'\n').count()
}

/// The bytes before a place, as far as the text goes.
pub fn bytes_before(text: &[u8], at: usize) -> &[u8]
    ensures { result.now ≡ take at text.now }
{
    &text[..at.min(text.len())]
}

/// The bytes of a line before a byte of it.
pub fn line_before(text: &[u8], at: usize) -> &[u8]
    ensures { result.now ≡ line_before text.now at }
{
    let before = bytes_before(text, at);
    &before[line_start(before)..]
}

/// Where a byte stands. The place of the text's length is the one after its last byte.
pub fn place_of(text: &[u8], at: usize) -> Place
    requires { length text.now < 2 ^ 31 }
    ensures { result ≡ place_of text.now at }
{
    Place {
        line: line_after(bytes_before(text, at)) as u32,
        column: line_before(text, at).len() as u32 + 1,
    }
}
