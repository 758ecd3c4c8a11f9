//! The threads of a run, and the turns of the token that gives their subthreads an order.
#![tactic(auto)]

mod held;
mod ring;
mod rules;
mod spans;
mod threads;

pub use ring::Ring;
pub use rules::Turn;
