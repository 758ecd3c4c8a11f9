//! A board of jobs that threads share without a lock. Each job lies on a desk of its own. Whoever has a *pass* draws
//! desks and puts the runs back on them; the one *clerk* looks at desks, collects the runs, and in the end gathers the
//! passes, joined into one.
#![tactic(auto)]

mod clerk;
mod laws;
mod made;
mod passes;
mod plays;
mod rule;
mod shared;
mod types;
mod view;

pub use laws::rule_law;
pub use made::{lay_out, take_back};
pub use plays::{Cut, Gather, Leave, Merge, Office, Return, Take};
pub use rule::{BoardSeat, BoardShared, BoardTable};
pub use shared::{lay_table, put_back, take_run};
pub use types::{Board, Clerk, Desk, Pass};
pub use view::{About, BoardSetup, Book, PassHand, SeatView, Slot};
