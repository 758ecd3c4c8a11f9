//! Tests of the top calls of `gprs_view` over devices in memory, which fail or do not. What these calls tell is compared by the
//! built program, with `examples/mistakes`.
#![tactic(auto)]

#[cfg(test)]
mod devices;
