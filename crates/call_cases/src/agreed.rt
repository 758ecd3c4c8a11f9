// Files of rows that are taken from their bytes twice, so that a fault of the machine which strikes meanwhile is found.
ghost use Rattle.std.specs.Prelude.{◌≡◌, ◌<◌, ◌≤◌, length, IfOk};
ghost use Rattle.gp_base.specs.declared.limits.TheConstants.{MOST_FEED_CELLS};
ghost use Rattle.batch_files.specs.Answers.{Answers};
ghost use Rattle.batch_files.specs.meaning.Rows.{csv_rows};
ghost use Rattle.batch_files.specs.meaning.Records.{records_by};
ghost use Rattle.batch_files.specs.meaning.Feeds.{feed_by};

use batch_files::{FileFault, read_feed, read_records};
use gp_base::{Feed, Nums, Text};
use std::alloc::Global;

/// How the rows of a file are taken from its bytes: once; or twice and compared, where a third time has to be like one of
/// them if they differ (N. Oh, P. P. Shirvani and E. J. McCluskey, "Error detection by duplicated instructions in
/// super-scalar processors", IEEE Transactions on Reliability, 2002). In a test, what so many times come to is taken for
/// another than it is.
#[derive(Clone, Copy, PartialEq, Eq)]
pub enum Reading {
    Once,
    Twice,
    Disturbed(u8),
}

/// What the rows of a file come to.
trait Cells {
    fn cells(&self) -> &[i64];
}

impl Cells for Nums {
    fn cells(&self) -> &[i64] {
        self.as_slice()
    }
}

impl Cells for Feed {
    fn cells(&self) -> &[i64] {
        self.cells.as_slice()
    }
}

// Whether two faults of a file are the same.
fn same_fault(one: FileFault, other: FileFault) -> bool {
    match (one, other) {
        (
            FileFault::Bad { kind, row },
            FileFault::Bad {
                kind: other,
                row: at,
            },
        ) => { kind == other && row == at }
        (FileFault::OutOfMemory, FileFault::OutOfMemory) => true,
        _ => false,
    }
}

// Whether a file came twice to the same cells, or to the same fault.
fn are_like<T: Cells>(one: &Result<T, FileFault>, other: &Result<T, FileFault>) -> bool {
    match (one, other) {
        (Ok(read), Ok(other)) => read.cells() == other.cells(),
        (Err(fault), Err(other)) => same_fault(*fault, *other),
        _ => false,
    }
}

impl Reading {
    // Whether a reading, after so many before it, is whole and like another.
    fn accepts<T: Cells>(
        self,
        before: u8,
        one: &Result<T, FileFault>,
        other: &Result<T, FileFault>,
    ) -> bool {
        let disturbed = match self {
            Reading::Disturbed(times) => times,
            _ => 0,
        };
        disturbed <= before && are_like(one, other)
    }
}

/// The feed of these bytes, as `read_feed` has it. Where no two readings agree, memory is said to be out.
pub fn feed_in(
    alloc: Global,
    bytes: &Text,
    fields: u32,
    room: u32,
    reading: Reading,
) -> Result<Feed, FileFault>
    requires some_field { 0 < fields }
    requires room { room ≤ MOST_FEED_CELLS }
    ensures cells { Answers (λ feed. feed.cells) result (feed_by fields room (csv_rows bytes.now)) }
    ensures fields { IfOk result (λ feed. feed.fields ≡ fields) }
{
    let first = read_feed(alloc, bytes, fields, room);
    if reading == Reading::Once {
        return first;
    }
    let second = read_feed(alloc, bytes, fields, room);
    if reading.accepts(0, &first, &second) {
        return second;
    }
    let third = read_feed(alloc, bytes, fields, room);
    if reading.accepts(1, &second, &third) || reading.accepts(0, &first, &third) {
        return third;
    }
    Err(FileFault::OutOfMemory)
}

/// The cells of a record of this size by these bytes, as `read_records` has them. Where no two readings agree, memory is
/// said to be out.
pub fn cells_in(alloc: Global, bytes: &Text, size: u32, reading: Reading) -> Result<Nums, FileFault>
    ensures { Answers (λ cells. cells) result (records_by size (csv_rows bytes.now)) }
{
    let first = read_records(alloc, bytes, size);
    if reading == Reading::Once {
        return first;
    }
    let second = read_records(alloc, bytes, size);
    if reading.accepts(0, &first, &second) {
        return second;
    }
    let third = read_records(alloc, bytes, size);
    if reading.accepts(1, &second, &third) || reading.accepts(0, &first, &third) {
        return third;
    }
    Err(FileFault::OutOfMemory)
}
