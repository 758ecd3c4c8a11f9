//! Tests of the top calls: the worked examples, and devices that fail at each of their calls.
#![tactic(auto)]

#[cfg(test)]
mod calls;
#[cfg(test)]
mod hostile;
#[cfg(test)]
mod rows;
