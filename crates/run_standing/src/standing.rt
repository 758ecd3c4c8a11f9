// Where the threads of a run stand before a position.
ghost use Rattle.std.specs.Prelude.{◌≡◌, ◌<◌, map, length, IfOk, MatchOption};
ghost use Rattle.task_ast.specs.View.{plain_program};
ghost use Rattle.task_ast.specs.Plain.{order};
ghost use Rattle.task_ast.specs.Position.{before};
ghost use Rattle.lock_checker.specs.Accepted.{program_of};
ghost use Rattle.one_thread.specs.View.{seat_of, table_of};
ghost use Rattle.one_thread.specs.Walking.{point_of};
ghost use Rattle.run_standing.specs.Standings.{Stands};

use gp_base::{Inputs, Limits, Name, Seq};
use lock_checker::Checked;
use one_thread::{Move, Plainly, Run, Seat, Walk, all_registers};
use std::alloc::{AllocError, Global};
use task_ast::Next;

/// Where the threads of a run stand: what each does next, who owns each lock cell, and the control variables of each
/// thread with their values.
#[derive(Drop)]
pub struct Standing {
    pub nexts: Vec<Option<Next>>,
    pub owners: Vec<Option<usize>>,
    pub names: Vec<Seq<(Name, i64)>>,
}

// What the threads of these seats do next.
fn nexts_of(alloc: Global, seats: &[Seat]) -> Result<Vec<Option<Next>>, AllocError>
    ensures { IfOk result (λ nexts. nexts.items ≡ map (λ s. s.next) (map seat_of seats.now)) }
{
    let mut nexts = Vec::new(alloc);
    for seat in seats {
        match &seat.next {
            Some(next) => nexts.push(Some(next.copied(alloc)?))?,
            None => nexts.push(None)?,
        }
    }
    Ok(nexts)
}

// The same variables with their values again.
fn copied_names(alloc: Global, names: &[(Name, i64)]) -> Result<Seq<(Name, i64)>, AllocError>
    ensures { IfOk result (λ copy. copy ≡ names.now) }
{
    let mut copy = Seq::new(alloc);
    for pair in names {
        copy.push((pair.0.copied(alloc)?, pair.1))?;
    }
    Ok(copy)
}

// The control variables of threads.
fn names_of(alloc: Global, walks: &[Walk]) -> Result<Vec<Seq<(Name, i64)>>, AllocError>
    ensures { IfOk result (λ names. names.items ≡ map (λ p. p.names) (map point_of walks.now)) }
{
    let mut names = Vec::new(alloc);
    for walk in walks {
        names.push(copied_names(alloc, walk.env.names.as_slice())?)?;
    }
    Ok(names)
}

// Where the threads of a run stand now.
fn standing_of(alloc: Global, run: &Run) -> Result<Standing, AllocError>
    ensures { IfOk result (Stands (table_of run.now.table) (map point_of run.now.threads.items)) }
{
    let nexts = nexts_of(alloc, &run.table.seats)?;
    let owners = Vec::from_slice(alloc, &run.table.owners.owners)?;
    let names = names_of(alloc, &run.threads)?;
    Ok(Standing {
        nexts,
        owners,
        names,
    })
}

/// Where the threads of the plain run stand before the subthread at a position, or none where it has fewer subthreads
/// than that. The only error is out of memory.
pub fn stand_before(
    alloc: Global,
    c: &Checked,
    inputs: &Inputs,
    limits: Limits,
    position: u32,
) -> Result<Option<Standing>, AllocError>
    ensures { let program = plain_program (program_of c.now) in let here = before program inputs.now limits position in IfOk result (λ standing. MatchOption standing (length (order program inputs.now limits) < position) (Stands here.table here.points)) }
{
    let slots = all_registers(alloc, c.program().tasks.as_slice())?;
    let opening = Run::new(alloc, c, slots.as_slice(), inputs, limits)?;
    let mut run = Box::new(alloc, opening)?;
    for at in 0..position {
        match run.next(alloc, &mut Plainly)? {
            Move::Goes(step) => drop(step),
            Move::Ends(_end) => return Ok(None),
        }
    }
    Ok(Some(standing_of(alloc, &run)?))
}
