// What a run is made from.

use crate::Recovery;
use gp_base::{Faults, Inputs, Limits};
use subthread::Work;
use task_ast::Layout;

/// A batch that is to be run: the work that its tasks share, how it recovers from faults, the layout of its cells, its
/// inputs, the faults that strike it, and its limits.
#[derive(Drop)]
pub struct BatchRun<'a> {
    pub work: &'a Work,
    pub recovery: Recovery,
    pub layout: Layout,
    pub inputs: Inputs,
    pub faults: Faults,
    pub limits: Limits,
}
