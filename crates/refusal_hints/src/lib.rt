//! What is told of a refusal beside its front: the message of a rule that is broken, what could stand in place of a token,
//! and hints on what was likely meant. No clause says which of them are told; tests do.
#![tactic(auto)]

mod blocks;
mod cell_hints;
mod counts;
mod data_names;
mod field_hints;
mod file_hints;
mod file_uses;
mod foreign;
mod head_hints;
mod hints;
mod kinds;
mod lexical;
mod lock_hints;
mod mark_hints;
mod messages;
mod name_hints;
mod odd_bytes;
mod pasts;
mod pieces;
mod rules;
mod spelling;
mod spots;
mod statement_hints;
mod subjects;
mod syntactic;
mod tokens;
mod told_hints;
mod unknown_hints;
mod word_hints;

pub use field_hints::is_whole;
pub use file_hints::{Refused, push_row_hint};
pub use file_uses::{FileUse, bytes_in, fields_of};
pub use hints::push_check_hints;
pub use kinds::push_expected;
pub use lexical::{digits, push_lex_hints};
pub use messages::push_message;
pub use pieces::{push_between, push_number, push_words};
pub use subjects::{Subject, push_apart, subject_token};
pub use syntactic::parse_hints;
pub use tokens::token_number;
