// The plain run.
ghost use Rattle.std.specs.Prelude.{◌≡◌, ◌<◌, length, map, IfOk};
ghost use Rattle.gp_base.specs.declared.limits.Limits.{Limits as LimitsThere};
ghost use Rattle.gp_base.specs.declared.feed.Inputs.{Inputs as InputsThere};
ghost use Rattle.task_ast.specs.Plain.{Plain};
ghost use Rattle.task_ast.specs.View.{plain_program};
ghost use Rattle.lock_checker.specs.Accepted.{program_of};
ghost use Rattle.one_thread.specs.Holding.{AreHeld};
ghost use Rattle.one_thread.specs.View.{WalksStand};
ghost use Rattle.one_thread.specs.Runs.{slots_of, AreSound, Holds, IsSmall};
ghost use Rattle.one_thread.specs.PlainRuns.{IsPlainRun};
ghost use Rattle.one_thread.specs.Moves.{foot_with, Stepped, Follows};

use crate::footprints::footprint;
use crate::opening::all_registers;
use crate::reckoning::{Plainly, Reckon};
use crate::threads::Run;
use crate::turns::{Turn, thread_number};
use crate::work::{Shared, Told};
use gp_base::{End, Footprint, Inputs, Limits, Lines, LockNo, Nums, Seq, ThreadNo};
use lock_checker::Checked;
use std::alloc::{AllocError, Global};
use task_ast::{Next, SyncOp};

/// One subthread of the order: its thread, the synchronisation that it begins with, the locks that its thread then
/// holds, what it reads and writes, and the lines that it prints.
#[derive(Drop)]
pub struct Step {
    pub thread: ThreadNo,
    pub begins: Next,
    pub held: Seq<LockNo>,
    pub foot: Footprint,
    pub prints: Lines,
}

/// The plain run of a program: its subthreads in order, the cells of all records at the end, and how it ends.
#[derive(Drop)]
pub struct PlainRun {
    pub order: Seq<Step>,
    pub records: Nums,
    pub end: End,
}

/// What comes next in a run.
#[derive(Drop)]
pub enum Move {
    Goes(Step),
    Ends(End),
}

// What is told of one subthread, beside the synchronisation that it begins with.
#[derive(Drop)]
struct Trace {
    thread: ThreadNo,
    held: Seq<LockNo>,
    foot: Footprint,
    prints: Lines,
}

// Lock cells as a list of their own.
fn locks_of(alloc: Global, held: &[u32]) -> Result<Seq<LockNo>, AllocError>
    ensures { IfOk result (λ locks. locks ≡ held.now) }
{
    let mut locks = Seq::new(alloc);
    for lock in held {
        locks.push(LockNo(*lock))?;
    }
    Ok(locks)
}

impl Trace {
    // What is told of a subthread that was performed, whose thread then held these locks.
    fn of(
        alloc: Global,
        t: usize,
        begins: &SyncOp,
        child: Option<usize>,
        held: Seq<LockNo>,
        told: Told,
    ) -> Result<Trace, AllocError>
        ensures { IfOk result (λ trace. trace ≡ record { thread = t; held = held; foot = foot_with t begins.now child told.named; prints = told.lines }) }
    {
        let thread = thread_number(t)?;
        let foot = footprint(alloc, t, begins, child, &told.named)?;
        let Told { lines: prints, .. } = told;
        Ok(Trace {
            thread,
            held,
            foot,
            prints,
        })
    }

    // The subthread, with the synchronisation that it begins with.
    fn begun_by(self, begins: Next) -> Step
        ensures { result ≡ record { thread = self.thread; begins = begins; held = self.held; foot = self.foot; prints = self.prints } }
    {
        let Trace {
            thread,
            held,
            foot,
            prints,
        } = self;
        Step {
            thread,
            begins,
            held,
            foot,
            prints,
        }
    }
}

impl Run<'_> {
    // One subthread, and what is told of it.
    fn trace<R: Reckon>(
        &mut self,
        alloc: Global,
        reckon: &mut R,
        t: usize,
        begins: &Next,
        child: Option<usize>,
    ) -> Result<Trace, AllocError>
        requires exists { t < length self.old.threads.items }
        requires seated { t < length self.old.table.seats.items }
        requires small { IsSmall (program_of self.old.program.now) }
        requires slots { self.old.slots.now ≡ map slots_of (program_of self.old.program.now).tasks }
        requires sound { AreSound (program_of self.old.program.now) self.old.threads.items }
        requires held { AreHeld self.old.table.owners.owners.items self.old.table.owners.held.items }
        requires walks { WalksStand self.old.table }
        ensures { IfOk result (λ trace. Stepped self.old t begins.now child (record { thread = trace.thread; begins = begins.now; held = trace.held; foot = trace.foot; prints = trace.prints }) self.new) }
    {
        let held = locks_of(alloc, self.table.owners.held_by(t))?;
        reckon.begin();
        let told = self.perform(alloc, reckon, t, begins, child)?;
        Trace::of(alloc, t, &begins.sync, child, held, told)
    }

    /// The next subthread, or the end.
    pub fn next<R: Reckon>(&mut self, alloc: Global, reckon: &mut R) -> Result<Move, AllocError>
        requires small { IsSmall (program_of self.old.program.now) }
        requires slots { self.old.slots.now ≡ map slots_of (program_of self.old.program.now).tasks }
        requires sound { AreSound (program_of self.old.program.now) self.old.threads.items }
        requires held { AreHeld self.old.table.owners.owners.items self.old.table.owners.held.items }
        requires walks { WalksStand self.old.table }
        requires alike { length self.old.threads.items ≡ length self.old.table.seats.items }
        ensures { IfOk result (λ m. (inputs : InputsThere) (limits : LimitsThere) (plain : Plain) → Holds (program_of self.old.program.now) inputs limits self.old plain → Follows (program_of self.old.program.now) inputs limits self.old plain m self.new) }
    {
        match self.table.next_issue(alloc)? {
            Turn::Issue(t, begins, child) => {
                let trace = self.trace(alloc, reckon, t, &begins, child)?;
                Ok(Move::Goes(trace.begun_by(begins)))
            }
            Turn::Ended(end) => Ok(Move::Ends(end)),
            Turn::Needs(_) => Ok(Move::Ends(End::Finished)),
            Turn::Pass => Ok(Move::Ends(End::Finished)),
        }
    }
}

// The cells of all records.
fn cells_of(run: Run) -> Nums
    ensures { result ≡ run.entry.shared.cells }
{
    let Run { shared, .. } = run;
    let Shared { cells, .. } = shared;
    cells
}

/// The plain run of an accepted program: one thread performs its subthreads one after another, in the order of the
/// token and without faults. The only error is out of memory.
pub fn run_plain(
    alloc: Global,
    c: &Checked,
    inputs: &Inputs,
    limits: Limits,
) -> Result<PlainRun, AllocError>
    ensures { IfOk result (λ run. IsPlainRun (plain_program (program_of c.now)) inputs.now limits run) }
{
    run_reckoned(alloc, c, inputs, limits, &mut Plainly)
}

/// The same run, in which another evaluates the expressions.
pub fn run_reckoned<R: Reckon>(
    alloc: Global,
    c: &Checked,
    inputs: &Inputs,
    limits: Limits,
    reckon: &mut R,
) -> Result<PlainRun, AllocError>
    ensures { IfOk result (λ run. IsPlainRun (plain_program (program_of c.now)) inputs.now limits run) }
{
    let slots = all_registers(alloc, c.program().tasks.as_slice())?;
    let mut run = Run::new(alloc, c, slots.as_slice(), inputs, limits)?;
    let mut order = Seq::new(alloc);
    loop {
        match run.next(alloc, reckon)? {
            Move::Goes(step) => order.push(step)?,
            Move::Ends(end) => {
                return Ok(PlainRun {
                    order,
                    records: cells_of(run),
                    end,
                });
            }
        }
    }
}
