// The numbers of threads, cells and subthreads, which contracts see as plain numbers.

use std::marker::Model;

/// The number of a thread, from 0 in the order in which threads are forked.
#[derive(Clone, Copy, PartialEq, Eq)]
pub struct ThreadNo(pub u32);

impl Model for ThreadNo {
    ghost use Rattle.std.specs.Prelude.{ℕ};

    ghost Value = { ℕ };

    ghost view = { λ n. n.0 };

    ghost inverse = { λ n. record { 0 = n } };
}

/// The number of a lock cell among the cells of all lock arrays, from 0 in declared order.
#[derive(Clone, Copy, PartialEq, Eq)]
pub struct LockNo(pub u32);

impl Model for LockNo {
    ghost use Rattle.std.specs.Prelude.{ℕ};

    ghost Value = { ℕ };

    ghost view = { λ n. n.0 };

    ghost inverse = { λ n. record { 0 = n } };
}

/// The number of a record cell among the cells of all records, from 0 in declared order.
#[derive(Clone, Copy, PartialEq, Eq)]
pub struct RecNo(pub u32);

impl Model for RecNo {
    ghost use Rattle.std.specs.Prelude.{ℕ};

    ghost Value = { ℕ };

    ghost view = { λ n. n.0 };

    ghost inverse = { λ n. record { 0 = n } };
}

/// The position of a subthread in the total order, from 0.
#[derive(Clone, Copy, PartialEq, Eq)]
pub struct Pos(pub u32);

impl Model for Pos {
    ghost use Rattle.std.specs.Prelude.{ℕ};

    ghost Value = { ℕ };

    ghost view = { λ n. n.0 };

    ghost inverse = { λ n. record { 0 = n } };
}

/// A place of lowered code: a task, from 0 in text order, and an instruction of it, from 0.
#[derive(Clone, Copy, PartialEq, Eq)]
pub struct At {
    pub task: u32,
    pub pc: u32,
}
