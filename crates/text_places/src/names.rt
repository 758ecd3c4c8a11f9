// Tokens and their bytes.
ghost use Rattle.std.specs.Prelude.{◌≡◌, IfSome};
ghost use Rattle.text_places.specs.Tokens.{bytes_of, BeginsAt};

use task_parser::Token;

/// The bytes of a token, or none where they are no part of the text.
pub fn bytes_of<'a>(text: &'a [u8], token: &Token) -> &'a [u8]
    ensures { result.now ≡ bytes_of text.now token.now }
{
    let (from, to) = (token.from as usize, token.to as usize);
    if from <= to && to <= text.len() {
        &text[from..to]
    } else {
        &[]
    }
}

/// Where the first token of the line begins.
pub fn first_place(tokens: &[Token], line: u32) -> Option<u32>
    ensures { IfSome result (BeginsAt tokens.now line) }
{
    for token in tokens {
        if token.line == line {
            return Some(token.from);
        }
    }
    None
}
