// What a rule is about.

use crate::held::Taken;
use crate::uses::Role;
use gp_base::Name;
use task_ast::{Atom, What};

/// What there may be too many of.
#[derive(Clone, Copy, Debug, PartialEq, Eq)]
pub enum Many {
    LockCells,
    RecordCells,
    Threads,
    Fields,
    Variables,
}

/// What a rule of the check is about in a line.
#[derive(Clone, Copy)]
pub enum Blame<'a> {
    /// There is no task `main`.
    NoMain,
    /// The lock array of a record isn't declared.
    NoArray {
        array: &'a Name,
    },
    /// A statement of the task uses a name that isn't declared as what its place needs.
    Unknown {
        role: Role,
        name: &'a Name,
        task: &'a Name,
    },
    /// A head or a task has a name that was declared in an earlier place, in this line.
    Twice {
        name: &'a Name,
        first: u32,
    },
    /// A variable of a task was declared in an earlier place, in this line. A data variable is told by `dollar`.
    VariableTwice {
        dollar: bool,
        name: &'a Name,
        first: u32,
    },
    /// A variable of a task is `$ret`, which each task has.
    Return,
    /// A head has the size, the number or the number of fields 0.
    NoSize {
        name: &'a Name,
    },
    /// The task `main` has parameters.
    MainTakes,
    /// A fork has another number of arguments than its task has parameters.
    Counts {
        task: &'a Name,
        takes: u64,
        gets: u64,
    },
    /// A data variable stands where control is decided about.
    Data {
        name: &'a Name,
    },
    /// A cell of a record is touched while the lock over it isn't held.
    Unguarded {
        cells: &'a Name,
        index: &'a Atom,
        array: &'a Name,
    },
    /// A lock is given back that isn't held.
    NotTaken {
        array: &'a Name,
        index: &'a Atom,
    },
    /// A lock is taken that is held.
    TakenTwice {
        taken: Taken<'a>,
    },
    /// A lock is held at the end of a task.
    KeptAtEnd {
        taken: Taken<'a>,
        task: &'a Name,
    },
    /// A lock is held after the first block of an `if` and not after the second, or, where `first` doesn't hold, the other
    /// way round.
    OneBranch {
        taken: Taken<'a>,
        first: bool,
    },
    /// A lock is held at the beginning of the block of a `while` and not at its end, or, where `before` doesn't hold, the
    /// other way round.
    OneTurn {
        taken: Taken<'a>,
        before: bool,
    },
    /// A control variable is set that is the index of a lock which is held.
    IndexSet {
        name: &'a Name,
        taken: Taken<'a>,
    },
    /// A record has another size than its lock array.
    Sizes {
        cells: &'a Name,
        size: u64,
        array: &'a Name,
        other: u64,
    },
    /// With this head or this task there are so many, which is more than there may be.
    TooMany {
        what: Many,
        name: &'a Name,
        count: u64,
    },
}

/// A statement, and how many stand before it in the text, in all tasks.
#[derive(Clone, Copy)]
pub struct Numbered<'a> {
    pub number: u32,
    pub what: &'a What,
}

/// A blame, the statement that it is about, and the locks that are held before that; none where it is about no statement.
#[derive(Drop)]
pub struct Told<'a> {
    pub blame: Blame<'a>,
    pub statement: Option<Numbered<'a>>,
    pub held: Vec<Taken<'a>>,
}
