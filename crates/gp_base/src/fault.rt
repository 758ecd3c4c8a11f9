// Faults, and the lists of them that a run may be given.
ghost use Rattle.std.specs.Prelude.{◌≡◌, ◌≤◌, [], length};
ghost use Rattle.std.specs.List.{All, IsDistinct};
ghost use Rattle.gp_base.specs.meaning.Faults.{strikes_same};
ghost use Rattle.gp_base.specs.Faults.{IsInRange};
ghost use Rattle.gp_base.specs.declared.limits.TheConstants.{MOST_FAULTS};
ghost use Rattle.std.proofs.Props.{props};

use crate::Seq;
use std::alloc::Global;

/// A fault that strikes one attempt of one subthread: it is reported `delay` issues after the attempt began, and
/// `mask` is XORed into the data that the attempt leaves. Delays are at most [`LONGEST_DELAY`](crate::limits::LONGEST_DELAY), and masks
/// are not 0.
#[derive(Clone, Copy, PartialEq, Eq)]
pub struct Fault {
    pub pos: u32,
    pub attempt: u32,
    pub delay: u32,
    pub mask: i64,
}

/// The faults that a run is given: at most [`MOST_FAULTS`](crate::limits::MOST_FAULTS), each in its range, and no two
/// on the same attempt of a position.
#[derive(Drop)]
pub struct Faults {
    pub list: Seq<Fault>,
    pub ghost few: { length list ≤ MOST_FAULTS },
    pub ghost in_range: { All IsInRange list },
    pub ghost apart: { IsDistinct strikes_same list } by { Prim.hlevel props },
}

impl Faults {
    /// No faults. Takes no memory.
    pub fn none(alloc: Global) -> Faults
        ensures { result.list ≡ [] }
    {
        Faults::new(Seq::new(alloc))
    }

    /// These faults. Takes no memory.
    pub fn new(list: Seq<Fault>) -> Faults
        requires few { length list ≤ MOST_FAULTS }
        requires in_range { All IsInRange list }
        requires apart { IsDistinct strikes_same list }
        ensures { result.list ≡ list }
    {
        Faults { list }
    }

    /// The faults, in order.
    pub fn as_slice(&self) -> &[Fault]
        ensures { result.now ≡ self.now.list }
    {
        self.list.as_slice()
    }
}
