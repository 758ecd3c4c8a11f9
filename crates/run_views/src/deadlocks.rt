// What the order ends with where no thread can go on.
ghost use Rattle.std.specs.Prelude.{◌≡◌, ◌++◌, codes, decimal, flat_map, map, OnOk, IfOk};
ghost use Rattle.task_ast.specs.meaning.Names.{barriers_of};
ghost use Rattle.task_ast.specs.meaning.Table.{meets};
ghost use Rattle.run_views.specs.meaning.Deadlocks.{threads_at, are_text, gathered_text, barrier_line, barrier_lines, standing_text};

use crate::names::{push_between, push_labelled, push_number};
use crate::waits::push_waits;
use gp_base::Name;
use run_standing::Standing;
use std::alloc::{AllocError, Global};
use task_ast::{Head, Next, SyncOp, natural};

// Whether a next synchronisation is this barrier.
fn meets(barrier: u64, next: &Option<Next>) -> bool
    ensures { result ≡ meets barrier next.now }
{
    match next {
        Some(
            Next {
                sync: SyncOp::Barrier(other),
                ..
            },
        ) => barrier == u64::from(*other),
        _ => false,
    }
}

// The threads that stand at a barrier.
fn threads_at(alloc: Global, barrier: u64, nexts: &[Option<Next>]) -> Result<Vec<usize>, AllocError>
    ensures { IfOk result (λ threads. threads.items ≡ threads_at barrier 0 nexts.now) }
{
    let mut threads = Vec::new(alloc);
    for (thread, next) in nexts.iter().enumerate() {
        if meets(barrier, next) {
            threads.push(thread)?;
        }
    }
    Ok(threads)
}

// The verb for so many threads.
fn are_text(count: usize) -> &'static [u8]
    ensures { result.now ≡ are_text count }
{
    if count == 1 { b"is" } else { b"are" }
}

// Appends threads, each after a space.
fn push_threads(text: &mut Vec<u8>, threads: &[usize]) -> Result<(), AllocError>
    ensures { OnOk result (text.new.items ≡ text.old.items ++ flat_map (λ other. codes " " ++ decimal other) threads.now) }
{
    for thread in threads {
        push_labelled(text, b" ", *thread)?;
    }
    Ok(())
}

// Appends how many of the threads that a barrier waits for have come.
#[tactic(auto, unfolding(crate::specs::meaning::Deadlocks::gathered_text))]
fn push_gathered(
    text: &mut Vec<u8>,
    name: &Name,
    wanted: u64,
    count: usize,
) -> Result<(), AllocError>
    ensures { OnOk result (text.new.items ≡ text.old.items ++ gathered_text name.now wanted count) }
{
    text.extend_from_slice(b"barrier ")?;
    text.extend_from_slice(name.as_slice())?;
    push_labelled(text, b": ", count)?;
    push_between(text, b" of ", wanted, b" threads ")?;
    text.extend_from_slice(are_text(count))
}

// Appends the line of a barrier where these threads have come; there is none where no thread has.
fn push_barrier_line(
    text: &mut Vec<u8>,
    name: &Name,
    wanted: u64,
    threads: &[usize],
) -> Result<(), AllocError>
    ensures { OnOk result (text.new.items ≡ text.old.items ++ barrier_line name.now wanted threads.now) }
{
    if threads.len() == 0 {
        return Ok(());
    }
    push_gathered(text, name, wanted, threads.len())?;
    text.extend_from_slice(b" there:")?;
    push_threads(text, threads)?;
    text.extend_from_slice(b"\n")
}

// Appends the lines of the barriers at which threads stand.
fn push_barriers(
    alloc: Global,
    text: &mut Vec<u8>,
    heads: &[Head],
    nexts: &[Option<Next>],
) -> Result<(), AllocError>
    ensures { OnOk result (text.new.items ≡ text.old.items ++ barrier_lines (barriers_of heads.now) 0 nexts.now) }
{
    let mut barrier = 0;
    for head in heads {
        if let Head::BarrierHead { name, number, .. } = head {
            let threads = threads_at(alloc, barrier, nexts)?;
            push_barrier_line(text, name, natural(*number), &threads)?;
            barrier += 1;
        }
    }
    Ok(())
}

/// Appends a line for each thread that has not ended, with what it waits for, and one for each barrier at which threads
/// stand. The error is that memory is out.
pub fn push_standing(
    alloc: Global,
    text: &mut Vec<u8>,
    heads: &[Head],
    standing: &Standing,
) -> Result<(), AllocError>
    ensures { OnOk result (text.new.items ≡ text.old.items ++ standing_text heads.now standing.now.owners.items standing.now.nexts.items) }
{
    push_waits(text, heads, &standing.owners, &standing.nexts)?;
    push_barriers(alloc, text, heads, &standing.nexts)
}
