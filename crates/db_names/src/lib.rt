//! The tables that stand in the place of the files which a program names.
#![tactic(auto)]

mod sources;
mod tables;

pub use sources::{NameFault, NameRule, Shape, Source, sources_of};
pub use tables::table_of;
