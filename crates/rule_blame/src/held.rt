// The pairs of a lock array and an index that are held, each with the line of its `lock`.
ghost use Rattle.std.specs.Prelude.{◌≡◌, true, false, IfOk, IfSome, MatchOption};
ghost use Rattle.task_ast.specs.meaning.Held.{same_atom, same_pair, has, without, is_index};
ghost use Rattle.rule_blame.specs.Views.{pair_of, pairs_of};

use crate::scope::same_name;
use gp_base::Name;
use std::alloc::{AllocError, Global};
use task_ast::Atom;

/// A lock that is held, by its array and its index as they are spelt, and the line that took it.
#[derive(Clone, Copy)]
pub struct Taken<'a> {
    pub array: &'a Name,
    pub index: &'a Atom,
    pub line: u32,
}

fn same_atom(one: &Atom, other: &Atom) -> bool
    ensures { result ≡ same_atom one.now other.now }
{
    match (one, other) {
        (Atom::Num(v), Atom::Num(w)) => *v == *w,
        (Atom::Var(x), Atom::Var(y)) => same_name(x, y),
        _ => false,
    }
}

impl<'a> Taken<'a> {
    // Whether this is the lock of the array at the index.
    fn is(&self, array: &Name, index: &Atom) -> bool
        ensures { result ≡ same_pair (array.now, index.now) (pair_of self.now) }
    {
        same_name(array, self.array) && same_atom(index, self.index)
    }

    // Whether the variable is the index.
    fn has_index(&self, x: &Name) -> bool
        ensures { result ≡ is_index x.now (pair_of self.now) }
    {
        match self.index {
            Atom::Num(_) => false,
            Atom::Var(y) => same_name(x, y),
        }
    }
}

/// The first pair that is the lock of the array at the index.
pub fn find<'a>(held: &[Taken<'a>], array: &Name, index: &Atom) -> Option<Taken<'a>>
    ensures { MatchOption result (has (pairs_of held.now) (array.now, index.now) ≡ false)
        (λ _. has (pairs_of held.now) (array.now, index.now) ≡ true) }
{
    for taken in held {
        if taken.is(array, index) {
            return Some(*taken);
        }
    }
    None
}

/// The first pair whose index is the variable.
pub fn find_index<'a>(held: &[Taken<'a>], x: &Name) -> Option<Taken<'a>>
    ensures { IfSome result (λ taken. (has (pairs_of held.now) (pair_of taken) ≡ true) × (is_index x.now (pair_of taken) ≡ true)) }
{
    for taken in held {
        if taken.has_index(x) && find(held, taken.array, taken.index).is_some() {
            return Some(*taken);
        }
    }
    None
}

/// A pair that is held, the first where there is one.
pub fn first<'a>(held: &[Taken<'a>]) -> Option<Taken<'a>>
    ensures { IfSome result (λ taken. has (pairs_of held.now) (pair_of taken) ≡ true) }
{
    for taken in held {
        if find(held, taken.array, taken.index).is_some() {
            return Some(*taken);
        }
    }
    None
}

/// The pairs without those that are the lock of the array at the index.
pub fn without<'a>(
    alloc: Global,
    held: &[Taken<'a>],
    array: &Name,
    index: &Atom,
) -> Result<Vec<Taken<'a>>, AllocError>
    ensures { IfOk result (λ left. pairs_of left.items ≡ without (pairs_of held.now) (array.now, index.now)) }
{
    let mut left = Vec::new(alloc);
    for taken in held {
        if !taken.is(array, index) {
            left.push(*taken)?;
        }
    }
    Ok(left)
}

/// The first of these pairs that isn't among the others.
pub fn missing<'a>(held: &[Taken<'a>], others: &[Taken<'a>]) -> Option<Taken<'a>>
    ensures { IfSome result (λ taken. (has (pairs_of held.now) (pair_of taken) ≡ true) × (has (pairs_of others.now) (pair_of taken) ≡ false)) }
{
    for taken in held {
        let is_held = find(held, taken.array, taken.index).is_some();
        if is_held && find(others, taken.array, taken.index).is_none() {
            return Some(*taken);
        }
    }
    None
}
