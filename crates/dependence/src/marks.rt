// Which subthreads depend on one another.
ghost use Rattle.std.specs.Prelude.{◌≡◌, ◌↔◌, ◌<◌, IsTrue, length};
ghost use Rattle.dependence.specs.Conflict.{Conflict};
ghost use Rattle.dependence.specs.Dependents.{IsReached, MarksDependents};

use crate::sharing::share;
use gp_base::{Footprint, Seq};

/// Whether one location stands in both footprints and at least one of the two writes it.
pub fn conflict(a: &Footprint, b: &Footprint) -> bool
    ensures { IsTrue result ↔ Conflict a.now b.now }
{
    if share(&a.writes, &b.writes) {
        return true;
    }
    if share(&a.writes, &b.reads) {
        return true;
    }
    share(&a.reads, &b.writes)
}

// Whether an earlier position that is marked is in conflict with this one.
fn is_reached(feet: &[Footprint], marks: &[bool], position: usize) -> bool
    requires in_range { position < length feet.now }
    requires lengths { length marks.now ≡ length feet.now }
    ensures { IsTrue result ↔ IsReached feet.now marks.now position }
{
    for earlier in 0..position {
        if marks[earlier] && conflict(&feet[earlier], &feet[position]) {
            return true;
        }
    }
    false
}

/// Marks the dependents of `first` among the footprints, and nothing else: `first` itself, and each later position
/// that is in conflict with a marked one. Takes no memory.
pub fn mark(feet: &Seq<Footprint>, first: usize, marks: &mut [bool])
    requires in_range { first < length feet.now }
    requires lengths { length marks.old ≡ length feet.now }
    ensures { MarksDependents feet.now first marks.new }
{
    let feet = feet.as_slice();
    for position in 0..feet.len() {
        marks[position] = position == first
            || position > first && is_reached(feet, marks, position);
    }
}
