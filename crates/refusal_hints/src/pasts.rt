// What became of a lock on a way through the text: where it was taken, and where it was given back.

use gp_base::Name;
use rule_blame::{Blame, Numbered, Told};
use task_ast::{Atom, Program, Stmt, What};

/// What became of a lock: it was not taken; it was, in this line, and is held; or it was given back in another.
#[derive(Clone, Copy, PartialEq, Eq)]
pub enum Past {
    Untaken,
    Held(u32),
    Given { taken: u32, back: u32 },
}

/// A lock as it is spelt.
#[derive(Clone, Copy)]
pub struct Spelt<'a> {
    pub array: &'a Name,
    pub index: &'a Atom,
}

// A walk in the order of the text that looks at one lock, up to the statement that so many others stand before.
#[derive(Clone, Copy)]
struct Walk<'a> {
    lock: Spelt<'a>,
    past: Past,
    left: u32,
    arrived: bool,
}

fn same_index(one: &Atom, other: &Atom) -> bool {
    match (one, other) {
        (Atom::Num(v), Atom::Num(w)) => *v == *w,
        (Atom::Var(x), Atom::Var(y)) => x.as_slice() == y.as_slice(),
        _ => false,
    }
}

impl<'a> Spelt<'a> {
    fn is(&self, array: &Name, index: &Atom) -> bool {
        self.array.as_slice() == array.as_slice() && same_index(self.index, index)
    }
}

impl<'a> Walk<'a> {
    fn new(lock: Spelt<'a>, past: Past, left: u32) -> Walk<'a> {
        Walk {
            lock,
            past,
            left,
            arrived: false,
        }
    }

    // Whether the walk has come to its last statement with the next one.
    fn arrives(&mut self) -> bool {
        if self.left == 0 {
            self.arrived = true;
        }
        self.left = self.left.saturating_sub(1);
        self.arrived
    }

    // A statement that has no block.
    fn step(&mut self, stmt: &Stmt) {
        match &stmt.what {
            What::Lock(array, index) => if self.lock.is(array, index) {
                self.past = Past::Held(stmt.line);
            },
            What::Unlock(array, index) => if self.lock.is(array, index) {
                self.give_back(stmt.line);
            },
            _ => {}
        }
    }

    fn give_back(&mut self, back: u32) {
        if let Past::Held(taken) = self.past {
            self.past = Past::Given { taken, back };
        }
    }

    // The other block of a statement begins as the first did, and the walk did not end in that.
    fn turn(&mut self, before: Past) {
        if !self.arrived {
            self.past = before;
        }
    }

    // Both blocks of a statement end: where the second changes nothing, it is as after the first.
    fn meet(&mut self, before: Past, first: Past) {
        if !self.arrived && self.past == before {
            self.past = first;
        }
    }
}

// Goes through the statements of a block.
fn pass(walk: &mut Walk<'_>, block: &[Stmt]) {
    for stmt in block {
        if walk.arrives() {
            return;
        }
        match &stmt.what {
            What::While(_, body) => pass(walk, body.as_slice()),
            What::If(_, first, second) | What::When(_, first, second) => {
                let before = walk.past;
                pass(walk, first.as_slice());
                let after = walk.past;
                walk.turn(before);
                pass(walk, second.as_slice());
                walk.meet(before, after);
            }
            _ => walk.step(stmt),
        }
    }
}

/// What became of a lock before the statement that so many stand before in the text, on a way to it in its task.
pub fn past_before(program: &Program, lock: Spelt<'_>, number: u32) -> Past {
    let mut walk = Walk::new(lock, Past::Untaken, number);
    for task in program.tasks.as_slice() {
        walk.past = Past::Untaken;
        pass(&mut walk, task.body.as_slice());
        if walk.arrived {
            break;
        }
    }
    walk.past
}

// The block that ends without a lock, where the blocks of a statement differ in it.
fn lacking<'a>(what: &'a What, blame: &Blame<'_>) -> Option<&'a [Stmt]> {
    match (what, blame) {
        (What::If(_, _, second), Blame::OneBranch { first: true, .. }) => Some(second.as_slice()),
        (What::If(_, first, _), Blame::OneBranch { .. }) => Some(first.as_slice()),
        (What::While(_, body), Blame::OneTurn { before: true, .. }) => Some(body.as_slice()),
        _ => None,
    }
}

/// What became of a lock at the end of the block that ends without it, where the blocks of this statement differ in it.
fn past_in(program: &Program, lock: Spelt<'_>, statement: Numbered<'_>, blame: &Blame<'_>) -> Past {
    let past = past_before(program, lock, statement.number);
    let Some(block) = lacking(statement.what, blame) else {
        return Past::Untaken;
    };
    let mut walk = Walk::new(lock, past, u32::MAX);
    pass(&mut walk, block);
    walk.past
}

/// The lock that a blame misses: before its statement, or at the end of a block.
pub fn missed<'a>(told: &Told<'a>) -> Option<Spelt<'a>> {
    match told.blame {
        Blame::Unguarded { index, array, .. } => Some(Spelt { array, index }),
        Blame::NotTaken { array, index } => Some(Spelt { array, index }),
        Blame::OneBranch { taken, .. } => Some(Spelt {
            array: taken.array,
            index: taken.index,
        }),
        Blame::OneTurn { taken, .. } => Some(Spelt {
            array: taken.array,
            index: taken.index,
        }),
        _ => None,
    }
}

/// What became of a lock that a blame misses.
pub fn past_of(program: &Program, told: &Told<'_>, lock: Spelt<'_>) -> Past {
    let Some(statement) = told.statement else {
        return Past::Untaken;
    };
    match told.blame {
        Blame::OneBranch { .. } | Blame::OneTurn { .. } => {
            past_in(program, lock, statement, &told.blame)
        }
        _ => past_before(program, lock, statement.number),
    }
}
