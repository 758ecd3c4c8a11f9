//! Whether a batch program keeps the rules of names, counts and held locks, and the first rule that it breaks.
#![tactic(auto)]

mod cells;
mod checked;
mod ends;
mod expressions;
mod fault;
mod heads;
mod held;
mod index;
mod laws;
mod layout;
mod pair;
mod program;
mod rules;
mod scope;
mod symbol_table;
mod tasks;
mod variables;
mod walk;

pub use cells::CellRange;
pub use checked::Checked;
pub use fault::CheckFault;
pub use laws::{soundness_laws, walk_law};
pub use program::check;
pub use symbol_table::SymbolTable;
