// Workers at a board of tasks.
ghost use Rattle.std.specs.Prelude.{◌≡◌, ◌+◌, ◌-◌, ◌≤◌, []};
ghost use Rattle.std.specs.Thread.{IsSync};
ghost use Rattle.desk_board.specs.Held.{about, hand, IsPassOf};
ghost use Rattle.desk_board.specs.Told.{HasEnded};

use crate::crossing::shared;
use crew::{MeanSteps, run_noted};
use desk_board::{Board, Pass};
use gp_base::Gate;
use std::alloc::Global;
use std::thread;
use std::thread::Threads;
use subthread::{Task, Work};

/// Draws tasks until the pass has ended, and puts the run of each back. The gate is entered before each run, and how
/// many steps it made is noted.
pub fn drain<G: Gate>(
    alloc: Global,
    board: &Board<Task>,
    work: &Work,
    gate: &G,
    mean_steps: &MeanSteps,
    pass: Pass<Task>,
) -> Pass<Task>
    requires of { IsPassOf board.now pass }
    requires with { (about board.now).with ≡ work.now }
    requires idle { (hand pass).held ≡ [] }
    ensures of { IsPassOf board.now result }
    ensures share { (hand result).share ≡ (hand pass).share }
    ensures passes { (hand result).passes ≡ (hand pass).passes }
    ensures done { HasEnded (hand result) × ((hand result).held ≡ []) }
{
    let mut pass = pass;
    while let Some((desk, task)) = board.draw(&mut pass) {
        gate.enter(task.pos);
        let run = run_noted(alloc, work, mean_steps, task);
        board.finish(&mut pass, desk, run);
    }
    pass
}

/// Works a board of tasks to its end, in at most so many threads at once, each with a pass of its own: the passes are
/// split off the given one and joined into it again. It answers that one, and how many passes there were, the given one
/// among them. Each thread enters the gate before each of its runs. A run that finds no memory is put back as such, so
/// there is no error.
pub fn work_board<G: Gate, R: Threads + Sync>(
    rt: &R,
    alloc: Global,
    board: &Board<Task>,
    work: &Work,
    gate: &G,
    mean_steps: &MeanSteps,
    pass: Pass<Task>,
    workers: u32,
) -> (Pass<Task>, u32)
    requires of { IsPassOf board.now pass }
    requires with { (about board.now).with ≡ work.now }
    requires idle { (hand pass).held ≡ [] }
    requires share { (1 ≤ workers) × (workers ≤ (hand pass).share) }
    ensures of { IsPassOf board.now result.0 }
    ensures share { (hand result.0).share ≡ (hand pass).share }
    ensures passes { (hand result.0).passes + 1 ≡ (hand pass).passes + result.1 }
    ensures most { result.1 ≤ workers }
    ensures done { HasEnded (hand result.0) × ((hand result.0).held ≡ []) }
{
    if workers == 1 {
        let pass = drain(alloc, board, work, gate, mean_steps, pass);
        return (pass, 1);
    }
    let mut pass = pass;
    let other = board.split(&mut pass);
    shared::<Work>();
    let (other, rest) = thread::join(
        rt,
        move ||
            requires { IsPassOf board.now other × ((about board.now).with ≡ work.now) × ((hand other).held ≡ []) }
            ensures { IsPassOf board.entry.now result × ((hand result).share ≡ (hand other).share) × ((hand result).passes ≡ (hand other).passes) × HasEnded (hand result) × ((hand result).held ≡ []) }
        { drain(alloc, board, work, gate, mean_steps, other) },
        move ||
            requires { IsSync R.row × IsPassOf board.now pass × ((about board.now).with ≡ work.now) × ((hand pass).held ≡ []) × (2 ≤ workers) × (workers - 1 ≤ (hand pass).share) }
            ensures { IsPassOf board.entry.now result.0 × ((hand result.0).share ≡ (hand pass).share) × ((hand result.0).passes + 1 ≡ (hand pass).passes + result.1) × (result.1 ≤ workers - 1) × HasEnded (hand result.0) × ((hand result.0).held ≡ []) }
        { work_board(rt, alloc, board, work, gate, mean_steps, pass, workers - 1) },
    );
    let (mut pass, passes) = rest;
    board.join(&mut pass, other);
    (pass, passes + 1)
}
