//! What the words of a command line ask for, read exactly.
#![tactic(auto)]

mod arguments;
mod asked;
mod audit_words;
mod ckpt_words;
mod log_words;
mod number;
mod resume_words;
mod why_words;

pub use arguments::begins_with;
pub use asked::{
    Asked, Command, CrewKind, Soak, Verb, asked_of, read_waiting_words, read_words, wants_pipe,
};
pub use audit_words::{Audited, read_audit_words};
pub use ckpt_words::{DEFAULT_EVERY, LEAST_EVERY, MOST_EVERY, read_ckpt_words};
pub use log_words::read_log_words;
pub use resume_words::{Resumed, read_resume_words};
pub use why_words::{Sought, read_why_words};
