//! What is told of a run beside its front: what in it is likely not what was meant, who waits for what, and the loops that
//! led to its end.
#![tactic(auto)]

mod arrivals;
mod bounds;
mod branches;
mod circles;
mod conditions;
mod ended;
mod forked;
mod forks;
mod loops;
mod orders;
mod results;
mod settings;
mod settled;
mod statements;
mod taking;
mod threads;
mod unforked;
mod unordered;
mod unset;
mod waiting;
mod words;

pub use arrivals::push_arrivals;
pub use bounds::push_bound;
pub use branches::Branches;
pub use circles::push_circle;
pub use conditions::push_conditions;
pub use ended::{push_ended, push_ended_threads, push_gathered};
pub use forked::{is_given, push_forked};
pub use forks::{busiest, push_chain, push_forks};
pub use loops::{Place, loops_at, push_loops, push_outer};
pub use orders::push_crossing;
pub use results::Results;
pub use settings::{LoopTurns, Setting};
pub use settled::push_settled;
pub use statements::{put_controls, statements_of, value_of};
pub use threads::{Tasks, child_of, controls_of, push_names, push_values};
pub use unforked::push_unforked;
pub use unordered::push_unordered;
pub use unset::push_unset;
pub use waiting::{push_alike, push_kept, push_own_join};
pub use words::{at, plural, put};
