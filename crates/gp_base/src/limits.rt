//! What the runtime allows at most.

/// The bytes of a program's text.
pub const MOST_PROGRAM_BYTES: usize = 1048576;

/// The bytes of a file of records, of a feed or of faults.
pub const MOST_FILE_BYTES: usize = 33554432;

/// How deep the constructs of a program nest.
pub const DEEPEST_NESTING: u32 = 64;

/// The cells of all lock arrays together, and the cells of all records together.
pub const MOST_CELLS: u32 = 65536;

/// The cells of all feeds together.
pub const MOST_FEED_CELLS: usize = 1000000;

/// The fields of a row of a feed.
pub const MOST_FIELDS: u32 = 64;

/// The variables of a task, with its parameters and `$ret`.
pub const MOST_VARIABLES: usize = 256;

/// The threads of a run, and the stated number of a barrier.
pub const MOST_THREADS: u32 = 4096;

/// The faults of a list.
pub const MOST_FAULTS: usize = 1000;

/// The longest delay of a fault, in subthreads that are issued after the attempt that it strikes began.
pub const LONGEST_DELAY: u32 = 64;

/// The subthreads that a run may be allowed, and those that it is allowed where nothing else is said.
pub const MOST_SUBTHREADS: u32 = 200000;

pub const DEFAULT_SUBTHREADS: u32 = 100000;

/// The loop turns that a subthread may be allowed, and those that it is allowed where nothing else is said.
pub const MOST_TURNS: u64 = 10000000;

pub const DEFAULT_TURNS: u64 = 1000000;

/// The workers of a run, and those that it has where nothing else is said.
pub const MOST_WORKERS: u32 = 64;

pub const DEFAULT_WORKERS: u32 = 4;

/// The moves of a batch that the program makes itself, at least and at most.
pub const LEAST_MOVES: u32 = 4;

pub const MOST_MOVES: u32 = 20000;

/// The limits of a run: loop turns in one subthread, and subthreads in all.
#[derive(Clone, Copy, PartialEq, Eq)]
pub struct Limits {
    pub turns: u64,
    pub subthreads: u32,
}
