// Sets of pairs, and the changes that lead from one to another.
ghost use Rattle.std.specs.Prelude.{◌≡◌, ◌↔◌, [], ◌∷◌, ◌++◌, IsTrue, OnOk, IfOk};
ghost use Rattle.std.specs.List.{list_any};
ghost use Rattle.task_ast.specs.meaning.Held.{has, without, is_index};
ghost use Rattle.lock_checker.specs.inner.Pairs.{pair_of, pairs_of, pairs_in, IsFlipped, Leads, Moves, TellsAlike};

use crate::pair::{LockIndex, Pair};
use gp_base::Name;
use std::alloc::{AllocError, Global};
use std::collections::BTreeSet;

/// A set of pairs, in the order of their indexes.
pub struct Pairs<'a> {
    members: BTreeSet<Pair<'a>>,
}

impl<'a> Drop for Pairs<'a> {
    fn drop(self) {
        let Self { members: _ } = self;
    }
}

impl<'a> Pairs<'a> {
    pub fn new(alloc: Global) -> Self
        ensures { pairs_in result ≡ [] }
    {
        Pairs {
            members: BTreeSet::new(alloc),
        }
    }

    pub fn has(&self, p: &Pair<'a>) -> bool
        ensures { result ≡ has (pairs_in self.now) (pair_of p.now) }
    {
        self.members.contains(p)
    }

    /// Whether a pair has this variable as its index.
    pub fn has_index(&self, x: &'a Name) -> bool
        ensures { result ≡ list_any (is_index x.now) (pairs_in self.now) }
    {
        let index = LockIndex::Variable(x.as_slice());
        let first = Pair { index, array: &[] };
        match self.members.range(first..).next() {
            Some(p) => index == p.index,
            None => false,
        }
    }

    pub fn is_empty(&self) -> bool
        ensures { IsTrue result ↔ (pairs_in self.now ≡ []) }
    {
        self.members.is_empty()
    }

    /// Takes a member out, or puts in a pair that is none.
    pub fn flip(&mut self, p: Pair<'a>) -> Result<(), AllocError>
        ensures { OnOk result (IsFlipped (pairs_in self.old) (pair_of p.entry) (pairs_in self.new)) }
    {
        if !self.members.remove(&p) {
            self.members.insert(p)?;
        }
        Ok(())
    }

    /// Flips these pairs in turn. Done twice it leaves the set as it was.
    pub fn flip_all(&mut self, changes: &[Pair<'a>]) -> Result<(), AllocError>
        ensures { OnOk result (Leads (pairs_in self.old) (pairs_of changes.now) (pairs_in self.new)) }
    {
        for p in changes {
            self.flip(*p)?;
        }
        Ok(())
    }

    // Flips a pair, and gives it as the one change.
    fn change(&mut self, alloc: Global, p: Pair<'a>) -> Result<Vec<Pair<'a>>, AllocError>
        ensures { IfOk result (λ changes. (changes.items ≡ p.entry ∷ []) × IsFlipped (pairs_in self.old) (pair_of p.entry) (pairs_in self.new)) }
    {
        let mut changes = Vec::new(alloc);
        changes.push(p)?;
        self.flip(p)?;
        Ok(changes)
    }

    /// Puts a pair in, and gives the changes.
    pub fn insert(&mut self, alloc: Global, p: Pair<'a>) -> Result<Vec<Pair<'a>>, AllocError>
        ensures { IfOk result (λ changes. Moves (pairs_in self.old) (pairs_of changes.items) (pairs_in self.new) (pairs_in self.old ++ pair_of p.entry ∷ [])) }
    {
        if self.has(&p) {
            Ok(Vec::new(alloc))
        } else {
            Ok(self.change(alloc, p)?)
        }
    }

    /// Takes a pair out, and gives the changes.
    pub fn remove(&mut self, alloc: Global, p: Pair<'a>) -> Result<Vec<Pair<'a>>, AllocError>
        ensures { IfOk result (λ changes. Moves (pairs_in self.old) (pairs_of changes.items) (pairs_in self.new) (without (pairs_in self.old) (pair_of p.entry))) }
    {
        if self.has(&p) {
            Ok(self.change(alloc, p)?)
        } else {
            Ok(Vec::new(alloc))
        }
    }
}

/// Whether two lists of changes lead to the same pairs.
pub fn lead_alike<'a>(
    alloc: Global,
    first: &[Pair<'a>],
    second: &[Pair<'a>],
) -> Result<bool, AllocError>
    ensures { IfOk result (λ alike. TellsAlike alike (pairs_of first.now) (pairs_of second.now)) }
{
    let mut net = Pairs::new(alloc);
    net.flip_all(first)?;
    net.flip_all(second)?;
    Ok(net.is_empty())
}
