// The deques of the workers, with the numbers of desks as hints.
ghost use Rattle.std.specs.Prelude.{◌≡◌, ◌≤◌, length, IfOk};

use crossbeam_deque::{Stealer, Worker};
use std::alloc::{AllocError, Global};

// A deque with every so-manieth number below `count`, from this one on. A number that finds no memory is left out.
fn dealt(alloc: Global, first: u32, step: u32, count: u32) -> Result<Worker<u32>, AllocError>
    requires { 1 ≤ step }
{
    let room = (count / step) as usize + 1;
    let mut deque = Worker::new_fifo(alloc, room)?;
    for desk in (first..count).step_by(step as usize) {
        let _ = deque.push(desk);
    }
    Ok(deque)
}

/// A deque for each of so many workers, to whom the numbers below `count` are dealt in turn. Which numbers lie there is
/// said by no clause: each is a hint. The error is that memory is out.
pub fn deal(alloc: Global, workers: u32, count: u32) -> Result<Vec<Worker<u32>>, AllocError>
    requires { 1 ≤ workers }
    ensures { IfOk result (λ deques. length deques.items ≡ workers) }
{
    let mut deques = Vec::new(alloc);
    for first in 0..workers {
        let deque = dealt(alloc, first, workers, count)?;
        deques.push(deque)?;
    }
    Ok(deques)
}

/// What others steal from these deques by, in order. The error is that memory is out.
pub fn stealers_of(alloc: Global, deques: &[Worker<u32>]) -> Result<Vec<Stealer<u32>>, AllocError>
    ensures { IfOk result (λ stealers. length stealers.items ≡ length deques.now) }
{
    let mut stealers = Vec::new(alloc);
    for deque in deques {
        let stealer = deque.stealer()?;
        stealers.push(stealer)?;
    }
    Ok(stealers)
}
