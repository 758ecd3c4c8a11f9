//! Texts that show a run: the order of its subthreads, and why one of them was redone.
#![tactic(auto)]

mod deadlocks;
pub mod laws;
mod links;
mod names;
mod order;
mod restarted;
mod waits;
mod why;

pub use deadlocks::push_standing;
pub use names::{push_between, push_labelled, push_lock, push_number, push_record};
pub use order::{child_in, order_text, push_child, push_end, push_step, why_word};
pub use restarted::{attempt_of, redoes};
pub use why::why_text;
