//! Tables of a database as the files that a batch reads: the cells of a record, and the rows of a feed in the order of their
//! first column.
#![tactic(auto)]

mod columns;
mod fault;
mod queries;
mod sources;

pub use fault::{Column, SourceFault, TableFault};
pub use queries::{Query, push_quoted, query_of};
pub use sources::{read_source, read_sources};
