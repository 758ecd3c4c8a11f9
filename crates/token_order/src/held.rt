// The locks that each thread holds.

ghost use Rattle.std.specs.Prelude.{◌≡◌, ℕ, ◌<◌, List, Option, Some, None, true, false, is_none, length, slice_set, slice_get, ◌==◌, if◌then◌else◌, replicate, IfOk, IfSome, OnOk, OnErr};
ghost use Rattle.task_ast.specs.LockLists.{is_owner, with_lock, held_at};
ghost use Rattle.task_ast.specs.meaning.Table.{owned_from};
ghost use Rattle.task_ast.specs.meaning.Turn.{owners_after};
ghost use Rattle.token_order.specs.Owning.{owners_with, locks_with, owners_now, HeldStands, noted};
ghost use Rattle.token_order.specs.Turned.{is_issue};

use crate::rules::Turn;
use gp_base::{LockNo, Seq};
use std::alloc::{AllocError, Global};
use std::mem;
use task_ast::SyncOp;

/// A lock that gets another owner, or none.
#[derive(Clone, Copy)]
pub struct Change {
    pub lock: u32,
    pub owner: Option<u32>,
}

/// The owner of each lock cell before the change of the last issue, and for each thread the locks that it owned then,
/// in rising order. A turn takes no memory, so what it changes is told to the lists later. The list that a change
/// replaced is kept as room for the next one.
#[derive(Drop)]
pub struct Held {
    pub owners: Vec<Option<u32>>,
    pub locks: Vec<Seq<LockNo>>,
    pub change: Option<Change>,
    pub room: Seq<LockNo>,
    pub alloc: Global,
}

// The change of a lock that there is, where there are so many.
fn change_to(lock: u32, owner: Option<u32>, locks: usize) -> Option<Change>
    ensures told { (owners : List (Option ℕ)) → length owners ≡ locks → owners_with result owners ≡ slice_set owners lock owner }
    ensures within { IfSome result (λ change. change.lock < locks) }
{
    if (lock as usize) < locks {
        Some(Change { lock, owner })
    } else {
        None
    }
}

// The change that a thread's synchronisation makes, where there are so many locks.
fn change_of(sync: &SyncOp, t: u32, locks: usize) -> Option<Change>
    ensures told { (owners : List (Option ℕ)) → length owners ≡ locks → owners_with result owners ≡ owners_after sync.now t owners }
    ensures within { IfSome result (λ change. change.lock < locks) }
{
    match sync {
        SyncOp::Lock(lock) => change_to(lock.0, Some(t), locks),
        SyncOp::Unlock(lock) => change_to(lock.0, None, locks),
        _ => None,
    }
}

// The locks of a rising list with one more or one less, in the memory of another list.
fn with_lock(
    room: Seq<LockNo>,
    held: &[LockNo],
    lock: u32,
    holds: bool,
) -> Result<Seq<LockNo>, AllocError>
    ensures { IfOk result (λ locks. locks ≡ with_lock holds lock held.now) }
{
    let mut room = room.into_vec();
    room.clear();
    room.reserve(held.len().saturating_add(holds as usize))?;
    let mut locks = Seq::from_vec(room);
    for other in held {
        if other.0 < lock {
            locks.push(*other)?;
        }
    }
    if holds {
        locks.push(LockNo(lock))?;
    }
    for other in held {
        if other.0 > lock {
            locks.push(*other)?;
        }
    }
    Ok(locks)
}

// Puts a list in the place of another, which is the answer.
fn exchange(lists: &mut Vec<Seq<LockNo>>, t: usize, list: Seq<LockNo>) -> Seq<LockNo>
    requires { t < length lists.old.items }
    ensures { lists.new.items ≡ slice_set lists.old.items t list }
{
    mem::replace(&mut lists[t], list)
}

// Whether the thread is the owner.
fn is_owner(t: u32, owner: Option<u32>) -> bool
    ensures { result ≡ is_owner t owner }
{
    match owner {
        Some(owner) => t == owner,
        None => false,
    }
}

// The locks of a thread after a change, where there is one.
fn locks_with(
    alloc: Global,
    held: &[LockNo],
    t: u32,
    change: Option<Change>,
) -> Result<Seq<LockNo>, AllocError>
    ensures { IfOk result (λ locks. locks ≡ locks_with change t held.now) }
{
    match change {
        Some(change) => {
            let holds = is_owner(t, change.owner);
            let most = held.len().saturating_add(holds as usize);
            let room = Seq::from_vec(Vec::with_capacity(alloc, most)?);
            with_lock(room, held, change.lock, holds)
        }
        None => Seq::from_slice(alloc, held),
    }
}

// The locks of a thread after two changes. They are copied once where there is no first.
fn locks_with_both(
    alloc: Global,
    held: &[LockNo],
    t: u32,
    first: Option<Change>,
    second: Option<Change>,
) -> Result<Seq<LockNo>, AllocError>
    ensures { IfOk result (λ locks. locks ≡ locks_with second t (locks_with first t held.now)) }
{
    if first.is_none() {
        return locks_with(alloc, held, t, second);
    }
    let now = locks_with(alloc, held, t, first)?;
    locks_with(alloc, now.as_slice(), t, second)
}

impl Held {
    /// Nobody owns a lock.
    pub fn new(alloc: Global, locks: usize) -> Result<Held, AllocError>
        ensures owners { IfOk result (λ held. owners_now held ≡ replicate locks None) }
        ensures stands { IfOk result HeldStands }
    {
        Ok(Held {
            owners: Vec::from_elem(alloc, None, locks)?,
            locks: Vec::new(alloc),
            change: None,
            room: Seq::new(alloc),
            alloc,
        })
    }

    // The list of a thread.
    fn of(&self, t: u32) -> &[LockNo]
        ensures { result.now ≡ held_at self.now.locks.items t }
    {
        match self.locks.get(t as usize) {
            Some(locks) => locks.as_slice(),
            None => &[],
        }
    }

    // The list of a thread gets a lock more, or less.
    fn put(&mut self, t: u32, lock: u32, holds: bool) -> Result<(), AllocError>
        ensures owners { self.new.owners ≡ self.old.owners }
        ensures change { self.new.change ≡ self.old.change }
        ensures ok { OnOk result ((u : ℕ) → held_at self.new.locks.items u ≡ (if u == t then with_lock holds lock (held_at self.old.locks.items t) else held_at self.old.locks.items u)) }
        ensures err { OnErr result ((u : ℕ) → held_at self.new.locks.items u ≡ held_at self.old.locks.items u) }
    {
        let t = t as usize;
        while self.locks.len() <= t {
            self.locks.push(Seq::new(self.alloc))?;
        }
        let room = mem::replace(&mut self.room, Seq::new(self.alloc));
        let locks = with_lock(room, self.locks[t].as_slice(), lock, holds)?;
        self.room = exchange(&mut self.locks, t, locks);
        Ok(())
    }

    // The owner of a lock, where there is one, gives it back.
    fn release(&mut self, lock: u32) -> Result<(), AllocError>
        requires stands { HeldStands self.old }
        requires within { lock < length self.old.owners.items }
        ensures stands { HeldStands self.new }
        ensures change { self.new.change ≡ self.old.change }
        ensures ok { OnOk result (self.new.owners.items ≡ slice_set self.old.owners.items lock None) }
        ensures err { OnErr result (self.new.owners.items ≡ self.old.owners.items) }
    {
        if let Some(owner) = self.owners[lock as usize] {
            self.put(owner, lock, false)?;
            self.owners[lock as usize] = None;
        }
        Ok(())
    }

    // A thread takes a lock that nobody owns.
    fn take(&mut self, lock: u32, t: u32) -> Result<(), AllocError>
        requires stands { HeldStands self.old }
        requires free { slice_get self.old.owners.items lock ≡ Some None }
        ensures stands { HeldStands self.new }
        ensures change { self.new.change ≡ self.old.change }
        ensures ok { OnOk result (self.new.owners.items ≡ slice_set self.old.owners.items lock (Some t)) }
        ensures err { OnErr result (self.new.owners.items ≡ self.old.owners.items) }
    {
        self.put(t, lock, true)?;
        self.owners[lock as usize] = Some(t);
        Ok(())
    }

    /// The lists are told the change of the last issue. The error is that memory is out.
    pub fn apply_change(&mut self) -> Result<(), AllocError>
        requires stands { HeldStands self.old }
        ensures stands { HeldStands self.new }
        ensures owners { owners_now self.new ≡ owners_now self.old }
        ensures applied { OnOk result (self.new.change ≡ None) }
        ensures kept { self.old.change ≡ None → self.new.change ≡ None }
    {
        let Some(change) = self.change else {
            return Ok(());
        };
        self.release(change.lock)?;
        if let Some(t) = change.owner {
            self.take(change.lock, t)?;
        }
        self.change = None;
        Ok(())
    }

    /// What a turn changes. Takes no memory.
    pub fn note(&mut self, turn: &Turn)
        requires stands { HeldStands self.old }
        requires applied { self.old.change ≡ None }
        ensures stands { HeldStands self.new }
        ensures owners { owners_now self.new ≡ noted turn.now (owners_now self.old) }
        ensures kept { is_issue turn.now ≡ false → self.new.change ≡ self.old.change }
    {
        if let Turn::Issue { thread, begins, .. } = turn {
            self.change = change_of(&begins.sync, thread.0, self.owners.len());
        }
    }

    /// The locks that the thread owns once it has performed the synchronisation, in rising order.
    pub fn held_after(
        &self,
        alloc: Global,
        t: u32,
        sync: &SyncOp,
    ) -> Result<Seq<LockNo>, AllocError>
        requires { HeldStands self.now }
        ensures { IfOk result (λ locks. locks ≡ owned_from 0 (owners_after sync.now t (owners_now self.now)) t) }
    {
        let change = change_of(sync, t, self.owners.len());
        locks_with_both(alloc, self.of(t), t, self.change, change)
    }
}
