//! Reads the text of a batch program to its tree.
#![tactic(auto)]

mod classes;
mod expressions;
mod fault;
mod halt;
mod heads;
mod lex_laws;
mod lexer;
mod next;
mod operands;
mod parse_laws;
mod programs;
mod simple_statements;
mod source;
mod statements;
mod tasks;
mod token;

pub use fault::{LexFault, ParseFault};
pub use lex_laws::{faults_stop, lexings_split, splittings_are_lexed, tokens_are_placed};
pub use lexer::lex;
pub use parse_laws::{one_meaning, one_reading, spelled_is_shaped};
pub use programs::parse;
pub use token::{Kind, Token};
