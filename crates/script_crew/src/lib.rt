//! A crew whose order is written down before, for tests of what holds in every order.
#![tactic(auto)]

mod script;

pub use script::ScriptCrew;
