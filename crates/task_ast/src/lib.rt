//! The trees of the task language, and what a batch program means.
#![tactic(auto)]

mod check_kind;
mod effect;
mod env;
mod eval;
pub mod laws;
mod layout;
mod operate;
pub mod position_laws;
mod sync;
pub mod table_laws;
mod tree;
pub mod value_laws;

pub use check_kind::CheckKind;
pub use effect::Effect;
pub use env::Env;
pub use eval::{eval_c, eval_d, eval_in};
pub use layout::{Layout, natural};
pub use operate::{apply, negate};
pub use sync::{Next, SyncOp};
pub use tree::{Atom, Expr, Head, Op, Param, Program, Stmt, TaskText, VarLine, What};
