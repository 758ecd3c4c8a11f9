// Pairs of a lock array and an index.
ghost use Rattle.std.specs.Prelude.{◌≡◌};
ghost use Rattle.lock_checker.specs.inner.Pairs.{pair_of};

use gp_base::Name;
use task_ast::Atom;

/// The index of a lock: a number, or a control variable by its name.
#[derive(Clone, Copy, PartialEq, Eq, PartialOrd, Ord)]
pub enum LockIndex<'a> {
    Number(i64),
    Variable(&'a [u8]),
}

/// An index, and the lock array whose lock it names. Pairs with one index follow one another in the order.
#[derive(Clone, Copy, PartialEq, Eq, PartialOrd, Ord)]
pub struct Pair<'a> {
    pub index: LockIndex<'a>,
    pub array: &'a [u8],
}

impl<'a> Pair<'a> {
    pub fn new(array: &'a Name, index: &'a Atom) -> Self
        ensures { pair_of result ≡ (array.now, index.now) }
    {
        let index = match index {
            Atom::Num(v) => LockIndex::Number(*v),
            Atom::Var(x) => LockIndex::Variable(x.as_slice()),
        };
        Pair {
            index,
            array: array.as_slice(),
        }
    }
}
