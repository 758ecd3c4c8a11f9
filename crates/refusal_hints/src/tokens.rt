// Tokens by their places.

use task_parser::Token;

/// The number of the token that begins at a place, or how many there are where none does.
pub fn token_number(tokens: &[Token], at: u32) -> usize {
    for (number, token) in tokens.iter().enumerate() {
        if token.from == at {
            return number;
        }
    }
    tokens.len()
}
