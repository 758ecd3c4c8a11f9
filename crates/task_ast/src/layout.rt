// The layout of a program's cells, and the numbers that declarations state.

ghost use Rattle.std.specs.Prelude.{◌≡◌, ◌<◌, ◌^◌};
ghost use Rattle.task_ast.specs.meaning.Names.{natural};

use gp_base::{RecNo, Seq};

/// For each lock cell the record cells under it, in rising order.
pub struct Layout {
    pub under: Seq<Seq<RecNo>>,
}

impl Drop for Layout {
    fn drop(self) {
        let Self { under: _ } = self;
    }
}

/// The number that a declaration states, as a size; one below 0 counts as 0.
pub fn natural(size: i64) -> u64
    ensures value { result ≡ natural size }
    ensures small { result < 2 ^ 63 }
{
    if size < 0 { 0 } else { size as u64 }
}
