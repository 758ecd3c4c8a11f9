// The work of one subthread.
ghost use Rattle.std.specs.Prelude.{◌≡◌, ◌≤◌, [], IfOk, OnOk};
ghost use Rattle.task_ast.specs.meaning.Names.{locks_of, records_of, cells_in, registers_of};
ghost use Rattle.task_ast.specs.View.{plain_task};
ghost use Rattle.task_ast.specs.meaning.Control.{first_actions, beginning};
ghost use Rattle.one_thread.specs.Walking.{setting_of, point_of, Begun};
ghost use Rattle.one_thread.specs.inner.Subthreads.{at_work, RanWith};
ghost use Rattle.lock_checker.specs.Accepted.{program_of};

use crate::names::Names;
use crate::reckoning::Reckon;
use crate::walk::Walk;
use gp_base::{Feed, Lines, Name, Nums, Seq};
use std::alloc::{AllocError, Global};
use std::mem;
use task_ast::{Next, SyncOp};

/// What all threads share: the cells of all records, and the feeds by name.
#[derive(Drop)]
pub struct Shared {
    pub cells: Nums,
    pub feeds: Seq<(Name, Feed)>,
}

/// What is told of a subthread that was run: the lines that it printed, and the record cells that it named.
#[derive(Drop)]
pub struct Told {
    pub lines: Lines,
    pub named: Names,
}

/// What a subthread leaves beside its thread and what is shared: what comes next, the registers of a child that it
/// forked, and what is told of it.
#[derive(Drop)]
pub struct Done {
    pub next: Next,
    pub child: Nums,
    pub told: Told,
}

// The data of a subthread, before its first action.
fn hand_out(alloc: Global, walk: &mut Walk, shared: &mut Shared)
    ensures { walk.new ≡ at_work walk.old shared.old }
{
    mem::swap(&mut walk.data.cells, &mut shared.cells);
    mem::swap(&mut walk.env.feeds, &mut shared.feeds);
    walk.data.child = Seq::new(alloc);
    walk.data.lines = Seq::new(alloc);
    walk.data.named = Names::new(alloc);
}

// The synchronisation that a subthread begins with.
fn start<R: Reckon>(
    alloc: Global,
    reckon: &mut R,
    walk: &mut Walk,
    begins: &SyncOp,
    child: Option<usize>,
    joined: i64,
) -> Result<(), AllocError>
    requires registers { walk.old.registers.now ≡ registers_of (plain_task walk.old.task.now) }
    requires clean { walk.old.env.regs ≡ [] }
    ensures { OnOk result (Begun (first_actions (setting_of walk.old) begins.now (point_of walk.old)) (beginning begins.now child (point_of walk.old)) joined walk.old walk.new) }
{
    if begins.is_start() {
        return Ok(());
    }
    walk.begin(alloc, reckon, child, joined)
}

/// Runs a subthread of a thread: the synchronisation that it begins with, then its body.
pub fn work<R: Reckon>(
    alloc: Global,
    reckon: &mut R,
    walk: &mut Walk,
    shared: &mut Shared,
    begins: &SyncOp,
    child: Option<usize>,
    joined: i64,
    turns: u64,
) -> Result<Done, AllocError>
    requires locks { cells_in (locks_of (program_of walk.old.program.now).heads) ≤ 65536 }
    requires records { cells_in (records_of (program_of walk.old.program.now).heads) ≤ 65536 }
    requires registers { walk.old.registers.now ≡ registers_of (plain_task walk.old.task.now) }
    requires clean { walk.old.env.regs ≡ [] }
    ensures { IfOk result (λ done. RanWith walk.old shared.old begins.now child joined turns done walk.new shared.new) }
{
    hand_out(alloc, walk, shared);
    start(alloc, reckon, walk, begins, child, joined)?;
    let next = walk.run(alloc, reckon, turns)?;
    mem::swap(&mut walk.data.cells, &mut shared.cells);
    mem::swap(&mut walk.env.feeds, &mut shared.feeds);
    let child = mem::replace(&mut walk.data.child, Seq::new(alloc));
    let lines = mem::replace(&mut walk.data.lines, Seq::new(alloc));
    let named = mem::replace(&mut walk.data.named, Names::new(alloc));
    Ok(Done {
        next,
        child,
        told: Told { lines, named },
    })
}
