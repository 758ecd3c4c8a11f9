// The control variables of the threads of a run, each time that one of them begins a subthread.
ghost use Rattle.std.specs.Prelude.{◌≡◌, [], map, slice_get, unwrap_or, IfOk};
ghost use Rattle.task_ast.specs.View.{plain_program};
ghost use Rattle.lock_checker.specs.Accepted.{program_of};
ghost use Rattle.one_thread.specs.Walking.{point_of};
ghost use Rattle.run_picture.specs.inner.Drawn.{values_from};

use gp_base::{Inputs, Limits, Name, Seq, ThreadNo};
use lock_checker::Checked;
use one_thread::{Move, Plainly, Run, Step, Walk, all_registers};
use std::alloc::{AllocError, Global};

/// Control variables with their values.
pub type Values = Seq<(Name, i64)>;

// The same variables with their values again.
fn copied_values(alloc: Global, values: &[(Name, i64)]) -> Result<Values, AllocError>
    ensures { IfOk result (λ copy. copy ≡ values.now) }
{
    let mut copy = Seq::new(alloc);
    for pair in values {
        copy.push((pair.0.copied(alloc)?, pair.1))?;
    }
    Ok(copy)
}

// The control variables of one of these threads, or none where it is not there.
fn values_of(alloc: Global, walks: &[Walk], thread: ThreadNo) -> Result<Values, AllocError>
    ensures { IfOk result (λ values. values ≡ unwrap_or (slice_get (map (λ p. p.names) (map point_of walks.now)) thread) []) }
{
    match walks.get(thread.0 as usize) {
        Some(walk) => copied_values(alloc, walk.env.names.as_slice()),
        None => Ok(Seq::new(alloc)),
    }
}

/// The control variables of the thread of each of these steps of a run before it, by a second run. The error is that
/// memory is out; steps that the run does not have are none of it.
pub fn values_before(
    alloc: Global,
    c: &Checked,
    inputs: &Inputs,
    limits: Limits,
    order: &[Step],
) -> Result<Vec<Values>, AllocError>
    ensures { IfOk result (λ known. known.items ≡ values_from (plain_program (program_of c.now)) inputs.now limits 0 order.now) }
{
    let slots = all_registers(alloc, c.program().tasks.as_slice())?;
    let opening = Run::new(alloc, c, slots.as_slice(), inputs, limits)?;
    let mut run = Box::new(alloc, opening)?;
    let mut known = Vec::new(alloc);
    for step in order {
        known.push(values_of(alloc, &run.threads, step.thread)?)?;
        match run.next(alloc, &mut Plainly)? {
            Move::Goes(next) => drop(next),
            Move::Ends(_end) => return Err(AllocError),
        }
    }
    Ok(known)
}
