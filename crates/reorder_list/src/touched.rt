// What was marked last of those that touch a location, by buckets of locations.

ghost use Rattle.std.specs.Prelude.{◌≡◌, ◌<◌, ◌≤◌, All};
ghost use Rattle.reorder_list.specs.Touching.{bucket, bucket_of, mark_of, Grows, IsMarked, KeepsMarks, IsClearPast};

use gp_base::{Footprint, Loc};

/// Locations fall into so many buckets.
pub const BUCKETS: usize = 4096;

/// Of each bucket, the greatest mark of what reads a location of it, and of what writes one. So where marks rise, it is
/// seen of most footprints, without a look at those that were marked, with which of these they can be in conflict. It
/// is a value of fixed size: it takes no memory.
#[derive(Drop)]
pub struct Touched {
    pub reads: [u32; BUCKETS],
    pub writes: [u32; BUCKETS],
}

// The bucket of the location of a kind with this number.
fn bucket(kind: usize, number: u32) -> usize
    requires { kind < 3 }
    ensures is { result ≡ bucket kind number }
    ensures within { result < 4096 }
{
    (number as usize * 3 + kind) % BUCKETS
}

// The bucket of a location. While the numbers of each kind are few, each has one of its own.
fn bucket_of(loc: &Loc) -> usize
    ensures is { result ≡ bucket_of loc.now }
    ensures within { result < 4096 }
{
    match loc {
        Loc::Regs(thread) => bucket(0, thread.0),
        Loc::Lock(lock) => bucket(1, lock.0),
        Loc::Rec(cell) => bucket(2, cell.0),
    }
}

// Marks the buckets of the locations with this number, but for those that have a greater mark.
fn mark_each(marks: &mut [u32; BUCKETS], locations: &[Loc], mark: u32)
    ensures marked { All (λ loc. mark ≤ mark_of marks.new loc) locations.now }
    ensures grows { Grows marks.old marks.new }
{
    for loc in locations {
        let bucket = bucket_of(loc);
        marks[bucket] = marks[bucket].max(mark);
    }
}

// The greatest mark of the locations.
fn greatest_mark(marks: &[u32; BUCKETS], locations: &[Loc]) -> u32
    ensures { All (λ loc. mark_of marks.now loc ≤ result) locations.now }
{
    let mut greatest: u32 = 0;
    for loc in locations {
        greatest = greatest.max(marks[bucket_of(loc)]);
    }
    greatest
}

impl Touched {
    /// Nothing is marked.
    pub fn new() -> Touched {
        Touched {
            reads: [0; BUCKETS],
            writes: [0; BUCKETS],
        }
    }

    /// Marks what this footprint touches, but for what has a greater mark.
    pub fn mark(&mut self, foot: &Footprint, mark: u32)
        ensures marked { IsMarked self.new mark foot.now }
        ensures kept { KeepsMarks self.old self.new }
    {
        mark_each(&mut self.reads, foot.reads.as_slice(), mark);
        mark_each(&mut self.writes, foot.writes.as_slice(), mark);
    }

    /// The greatest mark of those that may be in conflict with the footprint.
    pub fn last(&self, foot: &Footprint) -> u32
        ensures { IsClearPast self.now result foot.now }
    {
        let writes = greatest_mark(&self.writes, foot.writes.as_slice());
        let reads = greatest_mark(&self.writes, foot.reads.as_slice());
        let read = greatest_mark(&self.reads, foot.writes.as_slice());
        writes.max(reads).max(read)
    }
}
