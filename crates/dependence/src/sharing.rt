// Whether one location stands in two lists.

ghost use Rattle.std.specs.Prelude.{◌≡◌, ◌↔◌, ◌≤◌, IsTrue, length};
ghost use Rattle.dependence.specs.Conflict.{Shared};
ghost use Rattle.dependence.specs.inner.Rising.{kind_of, number_of, IsBelow, Rises, AreBelow, IsNotBelow};

use gp_base::{Loc, Seq};

// The kind of a location: registers before lock cells before record cells.
fn kind_of(loc: &Loc) -> u8
    ensures { result ≡ kind_of loc.now }
{
    match loc {
        Loc::Regs(_) => 0,
        Loc::Lock(_) => 1,
        Loc::Rec(_) => 2,
    }
}

// Its number among those of its kind.
fn number_of(loc: &Loc) -> u32
    ensures { result ≡ number_of loc.now }
{
    match loc {
        Loc::Regs(thread) => thread.0,
        Loc::Lock(lock) => lock.0,
        Loc::Rec(cell) => cell.0,
    }
}

// Whether the one location comes before the other: by kind, and then by number.
fn is_below(left: &Loc, right: &Loc) -> bool
    ensures { IsTrue result ↔ IsBelow left.now right.now }
{
    let (kind, other) = (kind_of(left), kind_of(right));
    kind < other || kind == other && number_of(left) < number_of(right)
}

// Whether the two locations are the same.
fn is_same(left: &Loc, right: &Loc) -> bool
    ensures { IsTrue result ↔ (left.now ≡ right.now) }
{
    left == right
}

// Whether each location comes before the next, and so before every later one.
fn rises(locations: &[Loc]) -> bool
    ensures { IsTrue result → Rises locations.now }
{
    for place in 1..locations.len() {
        if !is_below(&locations[place - 1], &locations[place]) {
            return false;
        }
    }
    true
}

// The place of the first location from a place on that does not come before this one, or how many there are.
fn place_from(locations: &[Loc], from: usize, loc: &Loc) -> usize
    requires start { from ≤ length locations.now }
    requires before { AreBelow locations.now from loc.now }
    ensures within { result ≤ length locations.now }
    ensures below { AreBelow locations.now result loc.now }
    ensures found { IsNotBelow locations.now result loc.now }
{
    for place in from..locations.len() {
        if !is_below(&locations[place], loc) {
            return place;
        }
    }
    locations.len()
}

// Whether one location stands in both of two lists that rise. Goes through each of them once.
fn share_rising(left: &[Loc], right: &[Loc]) -> bool
    requires left { Rises left.now }
    requires right { Rises right.now }
    ensures { IsTrue result ↔ Shared left.now right.now }
{
    let mut place = 0;
    for loc in left {
        place = place_from(right, place, loc);
        if place < right.len() && is_same(&right[place], loc) {
            return true;
        }
    }
    false
}

// Lists this short are compared location by location: that is faster than first to look whether they rise.
const FEW: usize = 8;

/// Whether one location stands in both lists. Most subthreads read no location by their locks, and that is seen without a
/// look at the other list. Else it takes a time that grows with the lengths alone where both rise, as those
/// of footprints do, or where one of them is short, and else with their product.
pub fn share(left: &Seq<Loc>, right: &Seq<Loc>) -> bool
    ensures { IsTrue result ↔ Shared left.now right.now }
{
    if left.is_empty() || right.is_empty() {
        return false;
    }
    let left = left.as_slice();
    let right = right.as_slice();
    if left.len() > FEW && right.len() > FEW && rises(left) && rises(right) {
        return share_rising(left, right);
    }
    left.iter().any(|loc| right.contains(loc))
}
