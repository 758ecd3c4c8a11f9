// Who owns each lock cell, and which lock cells each thread holds.
ghost use Rattle.std.specs.Prelude.{◌≡◌, ℕ, replicate, IfOk, OnOk, is_none, slice_set, None, Some};
ghost use Rattle.task_ast.specs.Table.{owner_in};
ghost use Rattle.task_ast.specs.LockLists.{with_lock, held_at};
ghost use Rattle.task_ast.specs.meaning.Table.{owned_from};
ghost use Rattle.task_ast.specs.meaning.Turn.{owners_after};
ghost use Rattle.one_thread.specs.Holding.{after_change, AreHeld};

use gp_base::Seq;
use std::alloc::{AllocError, Global};
use task_ast::SyncOp;

/// The owner of each lock cell, and for each thread the lock cells that it owns, in rising order.
#[derive(Drop)]
pub struct Owners {
    pub owners: Vec<Option<usize>>,
    pub held: Vec<Seq<u32>>,
}

// The locks of a rising list with one more or one less.
fn with_lock(alloc: Global, held: &[u32], lock: u32, holds: bool) -> Result<Seq<u32>, AllocError>
    ensures { IfOk result (λ locks. locks ≡ with_lock holds lock held.now) }
{
    let mut locks = Seq::new(alloc);
    for other in held {
        if *other < lock {
            locks.push(*other)?;
        }
    }
    if holds {
        locks.push(lock)?;
    }
    for other in held {
        if *other > lock {
            locks.push(*other)?;
        }
    }
    Ok(locks)
}

// The locks of a thread are changed by one.
fn change(
    alloc: Global,
    held: &mut Vec<Seq<u32>>,
    t: usize,
    lock: u32,
    holds: bool,
) -> Result<(), AllocError>
    ensures { OnOk result ((u : ℕ) → held_at held.new.items u ≡ after_change (Some t) holds lock held.old.items u) }
{
    while held.len() <= t {
        held.push(Seq::new(alloc))?;
    }
    held[t] = with_lock(alloc, held[t].as_slice(), lock, holds)?;
    Ok(())
}

// The locks of a thread are changed by one, where there is a thread.
fn change_of(
    alloc: Global,
    held: &mut Vec<Seq<u32>>,
    who: Option<usize>,
    lock: u32,
    holds: bool,
) -> Result<(), AllocError>
    ensures { OnOk result ((u : ℕ) → held_at held.new.items u ≡ after_change who holds lock held.old.items u) }
{
    match who {
        Some(t) => change(alloc, held, t, lock, holds),
        None => Ok(()),
    }
}

impl Owners {
    /// Nobody owns a lock.
    pub fn new(alloc: Global, locks: usize) -> Result<Owners, AllocError>
        ensures owners { IfOk result (λ o. o.owners.items ≡ replicate locks None) }
        ensures held { IfOk result (λ o. AreHeld o.owners.items o.held.items) }
    {
        Ok(Owners {
            owners: Vec::from_elem(alloc, None, locks)?,
            held: Vec::new(alloc),
        })
    }

    /// Whether nobody owns the lock.
    pub fn is_free(&self, lock: u32) -> bool
        ensures { result ≡ is_none (owner_in self.now.owners.items lock) }
    {
        match self.owners.get(lock as usize) {
            Some(owner) => owner.is_none(),
            None => true,
        }
    }

    /// The locks that the thread owns.
    pub fn held_by(&self, t: usize) -> &[u32]
        requires { AreHeld self.now.owners.items self.now.held.items }
        ensures { result.now ≡ owned_from 0 self.now.owners.items t }
    {
        match self.held.get(t) {
            Some(held) => held.as_slice(),
            None => &[],
        }
    }

    // The lock gets another owner, or none.
    fn set(&mut self, alloc: Global, lock: u32, owner: Option<usize>) -> Result<(), AllocError>
        requires { AreHeld self.old.owners.items self.old.held.items }
        ensures owners { OnOk result (self.new.owners.items ≡ slice_set self.old.owners.items lock owner) }
        ensures held { OnOk result (AreHeld self.new.owners.items self.new.held.items) }
    {
        let place = lock as usize;
        if place >= self.owners.len() {
            return Ok(());
        }
        change_of(alloc, &mut self.held, self.owners[place], lock, false)?;
        change_of(alloc, &mut self.held, owner, lock, true)?;
        self.owners[place] = owner;
        Ok(())
    }

    /// A lock is taken or given back.
    pub fn hand_over(&mut self, alloc: Global, sync: &SyncOp, t: usize) -> Result<(), AllocError>
        requires { AreHeld self.old.owners.items self.old.held.items }
        ensures owners { OnOk result (self.new.owners.items ≡ owners_after sync.now t self.old.owners.items) }
        ensures held { OnOk result (AreHeld self.new.owners.items self.new.held.items) }
    {
        match sync {
            SyncOp::Lock(lock) => self.set(alloc, lock.0, Some(t)),
            SyncOp::Unlock(lock) => self.set(alloc, lock.0, None),
            _ => Ok(()),
        }
    }
}
