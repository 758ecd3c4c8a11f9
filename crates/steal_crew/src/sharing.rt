// Workers that share a board.
ghost use Rattle.std.specs.Prelude.{◌≡◌, ◌+◌, ◌*◌, ◌≤◌, [], length};
ghost use Rattle.std.specs.Thread.{IsSync};
ghost use Rattle.gp_steal.specs.Held.{hand};
ghost use Rattle.steal_crew.specs.Counts.{sum_of};
ghost use Rattle.steal_crew.specs.Working.{IsIdle, HasSwept};

use crate::counts::Counts;
use crate::working::work_alone;
use crew::MeanSteps;
use crossbeam_deque::{Stealer, Worker};
use gp_base::Gate;
use gp_steal::{StealBoard, StealPass};
use std::alloc::Global;
use std::thread;
use std::thread::Threads;
use subthread::{Task, Work};

// Threads may share values of this type. Does nothing: the proof that threads may share what holds one starts from it.
fn shared<T: Sync>(_value: &T)
    ensures { IsSync T.row }
{}

/// Works a board to its end with a pass that has claimed nothing, in a thread for each of the deques, each with a pass
/// of its own: the passes are split off the given one and joined into it again. A run that finds no memory is put back
/// as such, so there is no error.
pub fn work_board<G: Gate, R: Threads + Sync>(
    rt: &R,
    alloc: Global,
    board: &StealBoard<Task>,
    work: &Work,
    gate: &G,
    mean_steps: &MeanSteps,
    pass: StealPass<Task>,
    own: Worker<u32>,
    others: Vec<Worker<u32>>,
    stealers: &[Stealer<u32>],
) -> (StealPass<Task>, Counts)
    requires idle { IsIdle board.now work.now pass }
    requires fresh { (hand pass).claimed ≡ [] }
    requires share { length others.items + 1 ≤ (hand pass).share }
    requires workers { length others.items + 1 ≤ 64 }
    requires few { length stealers.now ≤ 64 }
    ensures idle { IsIdle board.now work.now result.0 }
    ensures share { (hand result.0).share ≡ (hand pass).share }
    ensures swept { HasSwept board.now result.0 }
    ensures counts { sum_of result.1 ≡ length (hand result.0).claimed }
    ensures few { sum_of result.1 ≤ 1099511627776 * (length others.items + 1) }
{
    let mut others = others;
    let Some(next) = others.pop() else {
        return work_alone(alloc, board, work, gate, mean_steps, pass, own, 0, stealers);
    };
    let place = others.len() + 1;
    let mut pass = pass;
    let other = board.split(&mut pass);
    shared(work);
    let (one, rest) = thread::join(
        rt,
        move ||
            requires { IsIdle board.now work.now other × ((hand other).claimed ≡ []) × (length stealers.now ≤ 64) }
            ensures { IsIdle board.entry.now work.entry.now result.0 × ((hand result.0).share ≡ (hand other).share) × HasSwept board.entry.now result.0 × (sum_of result.1 ≡ length (hand result.0).claimed) × (sum_of result.1 ≤ 1099511627776) }
        {
            work_alone(
                alloc, board, work, gate, mean_steps, other, next, place, stealers,
            )
        },
        move ||
            requires { IsSync R.row × IsIdle board.now work.now pass × ((hand pass).claimed ≡ []) × (length others.items + 1 ≤ (hand pass).share) × (length others.items + 1 ≤ 64) × (length stealers.now ≤ 64) }
            ensures { IsIdle board.entry.now work.entry.now result.0 × ((hand result.0).share ≡ (hand pass).share) × HasSwept board.entry.now result.0 × (sum_of result.1 ≡ length (hand result.0).claimed) × (sum_of result.1 ≤ 1099511627776 * (length others.items + 1)) }
        {
            work_board(
                rt, alloc, board, work, gate, mean_steps, pass, own, others, stealers,
            )
        },
    );
    let (mut pass, counts) = rest;
    let (other, more) = one;
    board.join(&mut pass, other);
    (pass, counts.and(more))
}
