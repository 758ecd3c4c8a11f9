//! Where a row of a file stands: the first byte of the row and its line as an editor counts lines, the fields of the row,
//! and the first of them that is no number.
#![tactic(auto)]

mod fields;
mod place;
mod rows;
mod scan;

pub use fields::{bad_field, fault_field, number_in};
pub use place::{RowPlace, line_from, place_of};
pub use rows::{first_like, row_of};
pub use scan::field_start;
