//! The values of expressions, with whether their arithmetic is exact: no operation leaves 64 bits or divides by 0.
#![tactic(auto)]

mod operating;
mod reckoning;

pub use operating::{negated, operated};
pub use reckoning::reckon;
