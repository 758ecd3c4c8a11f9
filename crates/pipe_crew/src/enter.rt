// A gate as the calling thread of a crew enters it.

use gp_base::{Gate, Pos};

/// A gate that is entered in this thread alone. Each gate is one. The methods of a crew may call generic functions over
/// such a gate, and not over one that threads share.
pub trait Enter {
    /// Enters with the task of this position. No contract speaks of it.
    fn enter_here(&self, pos: Pos);
}

impl<G: Gate> Enter for G {
    fn enter_here(&self, pos: Pos) {
        self.enter(pos);
    }
}
