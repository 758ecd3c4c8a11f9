// Where a fault of lexing or of parsing is shown.
ghost use Rattle.std.specs.Prelude.{◌≡◌, ◌-◌, slice_index};
ghost use Rattle.text_places.specs.Faults.{is_quoted_at, is_opener, lex_place, end_of, parse_place};

use crate::place::line_before;
use task_parser::Token;

/// Whether a text in quotes is begun before the byte, in its line. A comment before it in its line counts like other
/// bytes.
pub fn is_quoted_at(text: &[u8], at: usize) -> bool
    ensures { result ≡ is_quoted_at text.now at }
{
    let quotes = line_before(text, at)
        .iter()
        .filter(|byte| **byte == b'"')
        .count();
    quotes % 2 == 1
}

// Whether a lone mark that has its fault at the next byte may stand before the place.
fn is_after_opener(text: &[u8], at: usize) -> bool
    ensures { result ≡ is_opener (slice_index text.now (at - 1)) }
{
    matches!(text.get(at.saturating_sub(1)), Some(b'!' | b'$'))
}

/// Where the fault of lexing at a byte is shown: a lone `!` or `$` has its fault at the next byte, and is shown itself.
pub fn lex_place(text: &[u8], at: usize) -> usize
    ensures { result ≡ lex_place text.now at }
{
    if is_after_opener(text, at) && !is_quoted_at(text, at) {
        at.saturating_sub(1)
    } else {
        at
    }
}

// Where the last token ends.
fn end_of(tokens: &[Token]) -> usize
    ensures { result ≡ end_of tokens.now }
{
    match tokens.last() {
        Some(token) => token.to as usize,
        None => 0,
    }
}

/// Where the fault of parsing at a byte is shown: the end of a text is shown after its last token.
pub fn parse_place(text: &[u8], tokens: &[Token], at: usize) -> usize
    ensures { result ≡ parse_place text.now tokens.now at }
{
    if at == text.len() { end_of(tokens) } else { at }
}
