// What a worker passes before it runs a task.

use crate::Pos;

/// A gate that each worker enters before it runs a task.
pub trait Gate: Sync {
    /// Enters with the task of this position. No contract speaks of it.
    fn enter(&self, pos: Pos);
}

/// A gate that lets every task pass.
#[derive(Clone, Copy)]
pub struct FreeGate;

impl Gate for FreeGate {
    fn enter(&self, _pos: Pos) {}
}
