//! What a rule of the check is about: the name that isn't declared, the lock that isn't held, the two lines of a name that
//! is declared twice, and the like, found again in a program after the check has refused it.
#![tactic(auto)]

mod blames;
mod entries;
mod heads;
mod held;
mod points;
mod scope;
mod statements;
mod tasks;
mod top;
mod uses;

pub use blames::{Blame, Many, Numbered, Told};
pub use held::Taken;
pub use top::blame;
pub use uses::{Role, Use, push_uses};
