// What one worker does at a board.
ghost use Rattle.std.specs.Prelude.{◌≡◌, ◌+◌, ◌<◌, ◌≤◌, [], length};
ghost use Rattle.gp_steal.specs.Held.{about, hand};
ghost use Rattle.gp_steal.specs.Told.{swept_after};
ghost use Rattle.steal_crew.specs.Counts.{sum_of};
ghost use Rattle.steal_crew.specs.Working.{IsIdle, HasSwept};

use crate::counts::Counts;
use crew::{MeanSteps, run_noted};
use crossbeam_deque::{Steal, Stealer, Worker};
use gp_base::Gate;
use gp_steal::{StealBoard, StealPass};
use std::alloc::Global;
use subthread::{Task, Work};

// What a worker needs at a board beside its pass.
#[derive(Drop)]
struct Bench<'a, G> {
    alloc: Global,
    board: &'a StealBoard<Task>,
    work: &'a Work,
    gate: &'a G,
    mean_steps: &'a MeanSteps,
}

impl<'a, G: Gate> Bench<'a, G> {
    // Tries a desk: where the pass claims it, enters the gate, runs the task and puts the run back. How many desks it
    // claimed: 1 or 0.
    fn try_desk(&self, pass: &mut StealPass<Task>, desk: u32) -> u64
        requires idle { IsIdle self.now.board.now self.now.work.now pass.old }
        requires desk { desk < length (about self.now.board.now).jobs }
        ensures idle { IsIdle self.now.board.now self.now.work.now pass.new }
        ensures share { (hand pass.new).share ≡ (hand pass.old).share }
        ensures swept { (hand pass.new).swept ≡ swept_after desk (hand pass.old).swept }
        ensures claimed { length (hand pass.new).claimed ≡ length (hand pass.old).claimed + result }
        ensures few { result ≤ 1 }
    {
        let Some((place, task)) = self.board.claim(pass, desk) else {
            return 0;
        };
        self.gate.enter(task.pos);
        let run = run_noted(self.alloc, self.work, self.mean_steps, task);
        self.board.finish(pass, place, run);
        1
    }

    // Tries the desk of this number, where there is one. How many it claimed: 1 or 0.
    fn try_hint(&self, pass: &mut StealPass<Task>, hint: u32) -> u64
        requires idle { IsIdle self.now.board.now self.now.work.now pass.old }
        ensures idle { IsIdle self.now.board.now self.now.work.now pass.new }
        ensures share { (hand pass.new).share ≡ (hand pass.old).share }
        ensures claimed { length (hand pass.new).claimed ≡ length (hand pass.old).claimed + result }
        ensures few { result ≤ 1 }
    {
        if hint >= self.board.count() {
            return 0;
        }
        self.try_desk(pass, hint)
    }

    // Tries the desks of the hints in the worker's own deque, until it is empty. How many it claimed.
    fn take_own(&self, pass: &mut StealPass<Task>, own: &mut Worker<u32>) -> u64
        requires idle { IsIdle self.now.board.now self.now.work.now pass.old }
        ensures idle { IsIdle self.now.board.now self.now.work.now pass.new }
        ensures share { (hand pass.new).share ≡ (hand pass.old).share }
        ensures claimed { length (hand pass.new).claimed ≡ length (hand pass.old).claimed + result }
        ensures few { result < 4294967296 }
    {
        let mut claimed = 0;
        // there are no more hints than desks
        for _turn in 0..self.board.count() {
            let Some(hint) = own.pop() else {
                break;
            };
            claimed += self.try_hint(pass, hint);
        }
        claimed
    }

    // Steals hints from a deque and tries their desks, until the deque answers that it is empty or that another thread was
    // faster. How many it claimed.
    fn steal_from(&self, pass: &mut StealPass<Task>, other: &Stealer<u32>) -> u64
        requires idle { IsIdle self.now.board.now self.now.work.now pass.old }
        ensures idle { IsIdle self.now.board.now self.now.work.now pass.new }
        ensures share { (hand pass.new).share ≡ (hand pass.old).share }
        ensures claimed { length (hand pass.new).claimed ≡ length (hand pass.old).claimed + result }
        ensures few { result < 4294967296 }
    {
        let mut claimed = 0;
        // there are no more hints than desks
        for _turn in 0..self.board.count() {
            let Steal::Success(hint) = other.steal() else {
                break;
            };
            claimed += self.try_hint(pass, hint);
        }
        claimed
    }

    // Steals from each of these deques. How many desks it claimed.
    fn steal_each(&self, pass: &mut StealPass<Task>, others: &[Stealer<u32>]) -> u64
        requires idle { IsIdle self.now.board.now self.now.work.now pass.old }
        requires few { length others.now ≤ 64 }
        ensures idle { IsIdle self.now.board.now self.now.work.now pass.new }
        ensures share { (hand pass.new).share ≡ (hand pass.old).share }
        ensures claimed { length (hand pass.new).claimed ≡ length (hand pass.old).claimed + result }
        ensures few { result ≤ 274877906944 }
    {
        let mut claimed = 0;
        for place in 0..others.len() {
            let other = &others[place];
            claimed += self.steal_from(pass, other);
        }
        claimed
    }

    // Tries each desk from the pass's swept number on. How many it claimed.
    fn sweep(&self, pass: &mut StealPass<Task>) -> u64
        requires idle { IsIdle self.now.board.now self.now.work.now pass.old }
        ensures idle { IsIdle self.now.board.now self.now.work.now pass.new }
        ensures share { (hand pass.new).share ≡ (hand pass.old).share }
        ensures swept { HasSwept self.now.board.now pass.new }
        ensures claimed { length (hand pass.new).claimed ≡ length (hand pass.old).claimed + result }
        ensures few { result < 4294967296 }
    {
        let mut claimed = 0;
        while pass.swept() < self.board.count() {
            let desk = pass.swept();
            claimed += self.try_desk(pass, desk);
        }
        claimed
    }
}

/// Works a board with a pass that has claimed nothing: first by the hints of the worker's own deque, then by those that
/// it steals from the others, beginning after its own, and in the end by trying each desk. So each desk was claimed
/// then, by this worker or by another, whichever hints were lost.
pub fn work_alone<G: Gate>(
    alloc: Global,
    board: &StealBoard<Task>,
    work: &Work,
    gate: &G,
    mean_steps: &MeanSteps,
    pass: StealPass<Task>,
    own: Worker<u32>,
    place: usize,
    stealers: &[Stealer<u32>],
) -> (StealPass<Task>, Counts)
    requires idle { IsIdle board.now work.now pass }
    requires fresh { (hand pass).claimed ≡ [] }
    requires few { length stealers.now ≤ 64 }
    ensures idle { IsIdle board.now work.now result.0 }
    ensures share { (hand result.0).share ≡ (hand pass).share }
    ensures swept { HasSwept board.now result.0 }
    ensures counts { sum_of result.1 ≡ length (hand result.0).claimed }
    ensures few { sum_of result.1 ≤ 1099511627776 }
{
    let mut pass = pass;
    let mut own = own;
    let bench = Bench {
        alloc,
        board,
        work,
        gate,
        mean_steps,
    };
    let (before, after) = stealers.split_at(place.min(stealers.len()));
    let taken = bench.take_own(&mut pass, &mut own);
    let later = bench.steal_each(&mut pass, after);
    let earlier = bench.steal_each(&mut pass, before);
    let swept = bench.sweep(&mut pass);
    let counts = Counts {
        own: taken,
        stolen: later + earlier,
        swept,
    };
    (pass, counts)
}
