//! Tests of what is read, and of the small types beneath: texts of programs, words, files, values of expressions,
//! shelves and sinks in memory. They stand in a crate of their own, above the crates that they call: a crate with tests
//! is proved twice.
#![tactic(auto)]

#[cfg(test)]
mod checks;
#[cfg(test)]
mod expressions;
#[cfg(test)]
mod operators;
#[cfg(test)]
mod rooms;
#[cfg(test)]
mod rows;
#[cfg(test)]
mod shelves;
#[cfg(test)]
mod sinks;
#[cfg(test)]
mod texts;
#[cfg(test)]
mod tokens;
#[cfg(test)]
mod words;
