// The first turns of a program that forks: each call once.

use crate::outcome::passes;
use gp_base::{LockNo, Seq, ThreadNo};
use std::alloc::{AllocError, Global};
use std::test::Fail;
use task_ast::{Next, SyncOp};
use token_order::{Ring, Turn};

// The start of the first thread, before which there is one lock and no barrier.
fn one_thread(alloc: Global) -> Result<Ring, AllocError> {
    let main = Next {
        sync: SyncOp::Start,
        line: 0,
    };
    Ring::new(alloc, 1, Seq::new(alloc), 100, main)
}

// The fork of line 12, with one argument.
fn fork(alloc: Global) -> Result<Next, AllocError> {
    let args = Seq::from_slice(alloc, &[3])?;
    Ok(Next {
        sync: SyncOp::Fork { task: 0, args },
        line: 12,
    })
}

// Whether the turn needs this thread.
fn needs(turn: &Turn, thread: u32) -> bool {
    match turn {
        Turn::Needs(needed) => needed.0 == thread,
        _ => false,
    }
}

// Whether the turn begins a subthread of this thread, with this child or none.
fn issues(turn: &Turn, thread: u32, child: u32) -> bool {
    match turn {
        Turn::Issue {
            thread: of,
            begins: _,
            child: forked,
        } => {
            let forked = match forked {
                Some(forked) => forked.0,
                None => 0,
            };
            of.0 == thread && forked == child
        }
        _ => false,
    }
}

// A settle of line 5.
fn settle() -> Next {
    Next {
        sync: SyncOp::Settle { reg: 1, ctl: 0 },
        line: 5,
    }
}

// Whether the turn tells that this thread settles.
fn settles(turn: &Turn, thread: u32) -> bool {
    match turn {
        Turn::Settles(told) => told.0 == thread,
        _ => false,
    }
}

// Whether the ring knows this thread's next synchronisation, whose rules it tries then, or awaits it.
fn knows(ring: &Ring, thread: ThreadNo, is_known: bool) -> bool {
    ring.ahead().is_some() == is_known
        && ring.next_of(thread).is_some() == is_known
        && ring.awaits(thread).is_none() == is_known
}

// Whether the next turn needs this thread.
fn next_needs(ring: &mut Ring, thread: u32) -> Result<bool, AllocError> {
    ring.reserve()?;
    let turn = ring.turn();
    let is_told = needs(&turn, thread);
    drop(turn);
    Ok(is_told)
}

// Whether the next turn begins a subthread of this thread, with this child or none.
fn next_issues(ring: &mut Ring, thread: u32, child: u32) -> Result<bool, AllocError> {
    ring.reserve()?;
    let turn = ring.turn();
    let is_told = issues(&turn, thread, child);
    drop(turn);
    Ok(is_told)
}

// Whether the next turn tells that this thread settles.
fn next_settles(ring: &mut Ring, thread: u32) -> Result<bool, AllocError> {
    ring.reserve()?;
    let turn = ring.turn();
    let is_told = settles(&turn, thread);
    drop(turn);
    Ok(is_told)
}

// How many locks a thread holds after it takes the only one.
fn locks_held(alloc: Global, ring: &Ring, thread: ThreadNo) -> Result<usize, AllocError> {
    let op = SyncOp::Lock(LockNo(0));
    let held = ring.held_after(alloc, thread, &op);
    drop(op);
    Ok(held?.len())
}

// Whether the fork is awaited, and then issued, with a second thread.
fn awaits_a_fork(alloc: Global, ring: &mut Ring) -> Result<bool, AllocError> {
    let main = ThreadNo(0);
    let is_begun = next_issues(ring, 0, 0)?;
    let is_awaited = next_needs(ring, 0)? && knows(ring, main, false);
    if ring.len() == 0 {
        return Ok(false);
    }
    ring.learn(main, fork(alloc)?);
    let is_known = knows(ring, main, true);
    let is_issued = next_issues(ring, 0, 1)?;
    let held = locks_held(alloc, ring, main)?;
    Ok(is_begun && is_awaited && is_known && is_issued && ring.len() == 2 && held == 1)
}

#[test]
fn a_fork_is_awaited_and_issued(rt: HostRuntime) -> Result<(), Fail> {
    let alloc = rt.alloc();
    let mut ring = one_thread(alloc)?;
    let is_told = awaits_a_fork(alloc, &mut ring);
    drop(ring);
    passes(is_told)
}

// Whether the thread begins, and then settles at each turn until that is let.
fn settles_until_let(ring: &mut Ring) -> Result<bool, AllocError> {
    let is_begun = next_issues(ring, 0, 0)?;
    if ring.len() == 0 {
        return Ok(false);
    }
    ring.learn(ThreadNo(0), settle());
    let is_told = next_settles(ring, 0)?;
    let is_told_again = next_settles(ring, 0)?;
    ring.clear();
    Ok(is_begun && is_told && is_told_again)
}

#[test]
fn a_settle_is_told_until_it_is_let(rt: HostRuntime) -> Result<(), Fail> {
    let mut ring = one_thread(rt.alloc())?;
    let first = settles_until_let(&mut ring);
    let second = settles_until_let(&mut ring);
    drop(ring);
    passes(first)?;
    passes(second)
}
