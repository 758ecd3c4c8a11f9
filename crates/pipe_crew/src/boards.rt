// Tasks that are run over boards, by threads that are started for each board and joined again.
ghost use Rattle.std.specs.Prelude.{◌≡◌, ◌+◌, ◌<◌, ◌≤◌, [], length, max, All, IfOk};
ghost use Rattle.desk_board.specs.Held.{about, book, gathered, IsClerkOf};
ghost use Rattle.desk_board.specs.Told.{IsWhole, IsRunAt};
ghost use Rattle.subthread.specs.Tasks.{Fits, Answers};
ghost use Rattle.crew.specs.Out.{AreRuns};

use crate::draining::work_board;
use crew::{MeanSteps, run_wave};
use desk_board::{Board, Clerk};
use gp_base::{Gate, Seq};
use std::alloc::{AllocError, AllocFailed, Global};
use std::thread::Threads;
use subthread::{Done, Task, Work};

// The most tasks of a board.
const MOST_TASKS: usize = 65_536;

// The most threads that share a board: each has a pass of its own, and the first pass has so many shares.
const MOST_WORKERS: u32 = 64;

// The run of the task of a desk, on a board whose last pass is gathered and of which no run was collected from this desk
// on. The error is that the run found no memory.
fn run_at(
    board: &Board<Task>,
    clerk: &mut Clerk<Task>,
    desk: u32,
) -> Result<Done, AllocFailed<Task>>
    requires of { IsClerkOf board.now clerk.old }
    requires desk { desk < length (about board.now).jobs }
    requires whole { IsWhole (gathered clerk.old) }
    requires first { All (λ d. d < desk) (book clerk.old).taken }
    ensures of { IsClerkOf board.now clerk.new }
    ensures whole { IsWhole (gathered clerk.new) }
    ensures taken { All (λ d. d < desk + 1) (book clerk.new).taken }
    ensures run { IsRunAt Answers (about board.now) desk result }
{
    if !board.look(clerk, desk) {
        unreachable!()
    }
    board.collect(clerk, desk)
}

// The runs of all tasks of a board whose last pass is gathered, in order. The error is that memory is out, here or in a
// run.
fn collect(
    alloc: Global,
    board: &Board<Task>,
    clerk: &mut Clerk<Task>,
) -> Result<Vec<Done>, AllocError>
    requires of { IsClerkOf board.now clerk.old }
    requires whole { IsWhole (gathered clerk.old) }
    requires first { (book clerk.old).taken ≡ [] }
    ensures { IfOk result (λ runs. AreRuns (about board.now).with (about board.now).jobs runs.items) }
{
    let mut runs = Vec::with_capacity(alloc, board.count() as usize)?;
    for desk in 0..board.count() {
        let done = run_at(board, clerk, desk)?;
        runs.push_reserved(done);
    }
    Ok(runs)
}

// Runs tasks over one board. It answers the runs, and by how many passes of the board they were made.
fn share_out<G: Gate, R: Threads + Sync>(
    rt: &R,
    alloc: Global,
    work: &Work,
    gate: &G,
    mean_steps: &MeanSteps,
    workers: u32,
    tasks: Seq<Task>,
) -> Result<(Vec<Done>, u32), AllocError>
    requires workers { (1 ≤ workers) × (workers ≤ 64) }
    requires few { length tasks ≤ 65536 }
    requires fits { All (Fits work.now) tasks }
    ensures runs { IfOk result (λ ran. AreRuns work.now tasks ran.0.items) }
    ensures passes { IfOk result (λ ran. ran.1 ≤ workers) }
{
    let (board, pass, mut clerk) = match Board::new(alloc, work, tasks) {
        Ok(made) => made,
        Err((refused, _tasks)) => return Err(refused),
    };
    let (pass, passes) = work_board(rt, alloc, &board, work, gate, mean_steps, pass, workers);
    board.gather(&mut clerk, pass);
    let runs = collect(alloc, &board, &mut clerk)?;
    Ok((runs, passes))
}

// Runs tasks over one board, in as many threads as they are worth, at most so many; in the calling thread without a
// board where they are worth one. It answers the runs, and by how many passes or in how many threads they were made.
fn run_some<G: Gate, R: Threads + Sync>(
    rt: &R,
    alloc: Global,
    work: &Work,
    gate: &G,
    mean_steps: &MeanSteps,
    workers: u32,
    tasks: Seq<Task>,
) -> Result<(Vec<Done>, u32), AllocError>
    requires few { length tasks ≤ 65536 }
    requires fits { All (Fits work.now) tasks }
    ensures runs { IfOk result (λ ran. AreRuns work.now tasks ran.0.items) }
    ensures passes { IfOk result (λ ran. ran.1 ≤ max 1 workers) }
{
    let worth = mean_steps.workers(tasks.as_slice(), workers.min(MOST_WORKERS));
    if worth == 1 {
        let runs = run_wave(rt, alloc, work, gate, mean_steps, 1, tasks)?;
        return Ok((runs.into_vec(), 1));
    }
    share_out(rt, alloc, work, gate, mean_steps, worth, tasks)
}

/// Runs tasks over boards of at most 65,536 of them, the oldest first, each in at most so many threads at once (1 where
/// that is 0, and 64 where it is more), of which each enters the gate before each of its runs. It answers the runs in
/// the order of the tasks, and how many passes the board had that had the most: one for each of its threads, so 1 where
/// all stayed in the calling thread. A board has no more threads than its tasks are worth by the steps of the last runs:
/// tasks that are known to be light stay in the calling thread. The error is that memory is out.
pub fn run_board<G: Gate, R: Threads + Sync>(
    rt: &R,
    alloc: Global,
    work: &Work,
    gate: &G,
    mean_steps: &MeanSteps,
    workers: u32,
    tasks: Seq<Task>,
) -> Result<(Seq<Done>, u32), AllocError>
    requires { All (Fits work.now) tasks }
    ensures runs { IfOk result (λ ran. AreRuns work.now tasks ran.0) }
    ensures passes { IfOk result (λ ran. ran.1 ≤ max 1 workers) }
{
    let mut runs = Vec::new(alloc);
    let mut most = 1;
    let mut rest = tasks.into_vec();
    while !rest.is_empty() {
        let later = rest.split_off(rest.len().min(MOST_TASKS))?;
        let first = Seq::from_vec(rest);
        rest = later;
        let (mut more, passes) = run_some(rt, alloc, work, gate, mean_steps, workers, first)?;
        runs.append(&mut more)?;
        most = most.max(passes);
    }
    Ok((Seq::from_vec(runs), most))
}
