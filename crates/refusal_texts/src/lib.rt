//! The texts that tell why a program or a file is refused: the place, the line with a mark under it, the rule, and hints.
#![tactic(auto)]

mod checking;
mod files;
mod front;
mod lexing;
mod parsing;

pub use checking::push_check_refusal;
pub use files::{push_feed_head, push_file_refusal, push_long_file};
pub use lexing::push_lex_refusal;
pub use parsing::push_parse_refusal;
pub use refusal_hints::FileUse;
