// Tasks that are run over boards, by workers that steal from one another.
ghost use Rattle.std.specs.Prelude.{◌≡◌, ◌+◌, ◌<◌, ◌≤◌, [], length, All, IfOk};
ghost use Rattle.gp_steal.specs.Held.{about, book, gathered, IsClerkOf};
ghost use Rattle.gp_steal.specs.Told.{IsWhole};
ghost use Rattle.desk_board.specs.Told.{IsRunAt};
ghost use Rattle.subthread.specs.Tasks.{Fits, Answers};
ghost use Rattle.crew.specs.Out.{AreRuns};
ghost use Rattle.steal_crew.specs.Batches.{AreCounted};
ghost use Rattle.steal_crew.specs.Counts.{sum_of};

use crate::counts::Counts;
use crate::deques::{deal, stealers_of};
use crate::sharing::work_board;
use crew::{MeanSteps, run_wave};
use gp_base::{Gate, Seq};
use gp_steal::{StealBoard, StealClerk};
use std::alloc::{AllocError, AllocFailed, Global};
use std::thread::Threads;
use subthread::{Done, Task, Work};

// The most tasks of a board.
const MOST_TASKS: usize = 65_536;

// The most threads that share a board: each has a pass of its own, and the first pass has so many shares.
const MOST_WORKERS: u32 = 64;

// The run of the task of a desk, on a board whose last pass is gathered and of which no run was collected from this desk
// on: each desk was claimed once. The error is that the run found no memory.
fn run_at(
    board: &StealBoard<Task>,
    clerk: &mut StealClerk<Task>,
    desk: u32,
) -> Result<Done, AllocFailed<Task>>
    requires of { IsClerkOf board.now clerk.old }
    requires desk { desk < length (about board.now).jobs }
    requires whole { IsWhole (length (about board.now).jobs) (gathered clerk.old) }
    requires first { All (λ d. d < desk) (book clerk.old).taken }
    ensures of { IsClerkOf board.now clerk.new }
    ensures same { gathered clerk.new ≡ gathered clerk.old }
    ensures taken { All (λ d. d < desk + 1) (book clerk.new).taken }
    ensures run { IsRunAt Answers (about board.now) desk result }
    ensures once { length (gathered clerk.new).claimed ≡ length (about board.now).jobs }
{
    if !board.look(clerk, desk) {
        unreachable!()
    }
    board.collect(clerk, desk)
}

// The runs of all tasks of a board whose last pass is gathered, in order: each desk was claimed once. The error is that
// memory is out, here or in a run.
fn collect(
    alloc: Global,
    board: &StealBoard<Task>,
    clerk: &mut StealClerk<Task>,
) -> Result<Vec<Done>, AllocError>
    requires of { IsClerkOf board.now clerk.old }
    requires whole { IsWhole (length (about board.now).jobs) (gathered clerk.old) }
    requires first { (book clerk.old).taken ≡ [] }
    requires some { 1 ≤ length (about board.now).jobs }
    ensures runs { IfOk result (λ runs. AreRuns (about board.now).with (about board.now).jobs runs.items) }
    ensures claimed { IfOk result (λ _. length (gathered clerk.old).claimed ≡ length (about board.now).jobs) }
{
    let mut runs = Vec::with_capacity(alloc, board.count() as usize)?;
    for desk in 0..board.count() {
        let done = run_at(board, clerk, desk)?;
        runs.push_reserved(done);
    }
    Ok(runs)
}

// Runs tasks over one board, in so many threads.
fn share_out<G: Gate, R: Threads + Sync>(
    rt: &R,
    alloc: Global,
    work: &Work,
    gate: &G,
    mean_steps: &MeanSteps,
    workers: u32,
    tasks: Seq<Task>,
) -> Result<(Vec<Done>, Counts), AllocError>
    requires workers { (1 ≤ workers) × (workers ≤ 64) }
    requires some { 1 ≤ length tasks }
    requires few { length tasks ≤ 65536 }
    requires fits { All (Fits work.now) tasks }
    ensures runs { IfOk result (λ ran. AreRuns work.now tasks ran.0.items) }
    ensures counts { IfOk result (λ ran. sum_of ran.1 ≡ length tasks) }
{
    // all that takes memory comes before the first thread
    let mut deques = deal(alloc, workers, tasks.len() as u32)?;
    let stealers = stealers_of(alloc, &deques)?;
    let Some(own) = deques.pop() else {
        unreachable!()
    };
    let (board, pass, mut clerk) = match StealBoard::new(alloc, work, tasks) {
        Ok(made) => made,
        Err((refused, _tasks)) => return Err(refused),
    };
    let (pass, counts) = work_board(
        rt, alloc, &board, work, gate, mean_steps, pass, own, deques, &stealers,
    );
    board.gather(&mut clerk, pass);
    let runs = collect(alloc, &board, &mut clerk)?;
    Ok((runs, counts))
}

// Runs tasks over one board, in as many threads as they are worth, at most so many; in the calling thread without a
// board where they are worth one.
fn run_some<G: Gate, R: Threads + Sync>(
    rt: &R,
    alloc: Global,
    work: &Work,
    gate: &G,
    mean_steps: &MeanSteps,
    workers: u32,
    tasks: Seq<Task>,
) -> Result<(Vec<Done>, Counts), AllocError>
    requires few { length tasks ≤ 65536 }
    requires fits { All (Fits work.now) tasks }
    ensures runs { IfOk result (λ ran. AreRuns work.now tasks ran.0.items) }
    ensures counts { IfOk result (λ ran. sum_of ran.1 ≡ length tasks) }
{
    let worth = mean_steps.workers(tasks.as_slice(), workers.min(MOST_WORKERS));
    if worth > 1 {
        return share_out(rt, alloc, work, gate, mean_steps, worth, tasks);
    }
    let own = tasks.len() as u64;
    let runs = run_wave(rt, alloc, work, gate, mean_steps, 1, tasks)?;
    let counts = Counts {
        own,
        stolen: 0,
        swept: 0,
    };
    Ok((runs.into_vec(), counts))
}

/// Runs tasks over boards of at most 65,536 of them, the oldest first, each in at most so many threads at once (1 where
/// that is 0, and 64 where it is more), of which each enters the gate before each of its runs. It answers the runs in
/// the order of the tasks, and how many of them were claimed by hints of a worker's own deque, by stolen hints and by
/// sweeps. A board has no more threads than its tasks are worth by the steps of the last runs: tasks that are known to
/// be light stay in the calling thread, without a board, and count as its own. The error is that memory is out.
pub fn run_steal<G: Gate, R: Threads + Sync>(
    rt: &R,
    alloc: Global,
    work: &Work,
    gate: &G,
    mean_steps: &MeanSteps,
    workers: u32,
    tasks: Seq<Task>,
) -> Result<(Seq<Done>, (u64, u64, u64)), AllocError>
    requires { All (Fits work.now) tasks }
    ensures { IfOk result (AreCounted work.now tasks) }
{
    let mut runs = Vec::new(alloc);
    let mut counts = Counts::none();
    let mut rest = tasks.into_vec();
    while !rest.is_empty() {
        let later = rest.split_off(rest.len().min(MOST_TASKS))?;
        let first = Seq::from_vec(rest);
        rest = later;
        let (mut more, claimed) = run_some(rt, alloc, work, gate, mean_steps, workers, first)?;
        runs.append(&mut more)?;
        counts = counts.and(claimed);
    }
    let Counts { own, stolen, swept } = counts;
    Ok((Seq::from_vec(runs), (own, stolen, swept)))
}
