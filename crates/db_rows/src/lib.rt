//! The rows of a query as the file that a batch reads in their place, and the test that they come in order.
#![tactic(auto)]

mod order;
mod text;

pub use order::first_unordered;
pub use text::csv_of;
