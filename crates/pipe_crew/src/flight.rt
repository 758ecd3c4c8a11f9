// A board whose runs come back one after another.
ghost use Rattle.std.specs.Prelude.{◌≡◌, ◌↔◌, ◌+◌, ◌<◌, ◌≤◌, IsTrue, true, [], length, All, IfOk, OnOk};
ghost use Rattle.std.specs.Arc.{arc_value};
ghost use Rattle.desk_board.specs.Held.{about, hand, IsPassOf};
ghost use Rattle.desk_board.specs.Rule.{first_hand};
ghost use Rattle.subthread.specs.Tasks.{Fits};
ghost use Rattle.pipe_crew.specs.inner.Flights.{Stands, IsFlight, IsBack, left_in, GivesOldest};

use crate::enter::Enter;
use crate::messages::{Message, send};
use crew::{MeanSteps, run_noted};
use crossbeam_channel::Sender;
use desk_board::{Board, Clerk, Pass};
use gp_base::Seq;
use std::alloc::{AllocError, AllocFailed, Global};
use std::sync::{Arc, Wait};
use std::thread::yield_now;
use subthread::{Done, Task, Work};

/// A board that is worked: the calling thread's pass and clerk, and how many runs were taken off it, which is the
/// oldest desk whose run was not taken.
#[derive(Drop)]
pub struct Flight {
    board: Arc<Board<Task>>,
    pass: Pass<Task>,
    clerk: Clerk<Task>,
    taken: u32,
}

/// Puts at most 65,536 tasks on a board, and sends passes of it to so many threads. The error is that memory is out.
pub fn launch<H: Wait>(
    rt: &H,
    alloc: Global,
    to: &Sender<Message<Task>>,
    work: &Arc<Work>,
    threads: u32,
    tasks: Seq<Task>,
) -> Result<Flight, AllocError>
    requires threads { threads ≤ 63 }
    requires few { length tasks ≤ 65536 }
    requires some { 0 < length tasks }
    requires fits { All (Fits (arc_value work.now)) tasks }
    ensures flight { IfOk result (IsFlight (arc_value work.now) (threads + 1)) }
    ensures left { IfOk result (λ flight. left_in flight ≡ tasks) }
{
    let mut flight = Flight::new(alloc, work, tasks)?;
    send_passes(rt, to, work, &flight.board, &mut flight.pass, threads)?;
    Ok(flight)
}

// Sends passes of a board, split off its first one, to so many threads. The error is that memory is out.
fn send_passes<H: Wait>(
    rt: &H,
    to: &Sender<Message<Task>>,
    work: &Arc<Work>,
    board: &Arc<Board<Task>>,
    pass: &mut Pass<Task>,
    threads: u32,
) -> Result<(), AllocError>
    requires threads { threads ≤ 63 }
    requires with { (about (arc_value board.now)).with ≡ arc_value work.now }
    requires of { IsPassOf (arc_value board.now) pass.old }
    requires first { hand pass.old ≡ first_hand }
    ensures of { IsPassOf (arc_value board.now) pass.new }
    ensures held { (hand pass.new).held ≡ [] }
    ensures share { OnOk result ((hand pass.new).share + threads ≡ 64) }
{
    for _sent in 0..threads {
        let other = board.split(pass);
        send(rt, to, work, board, other)?;
    }
    Ok(())
}

impl Flight {
    // A board of at most 65,536 tasks, with its first pass. The error is that memory is out.
    fn new(alloc: Global, work: &Work, tasks: Seq<Task>) -> Result<Flight, AllocError>
        requires few { length tasks ≤ 65536 }
        requires fits { All (Fits work.now) tasks }
        ensures stands { IfOk result Stands }
        ensures with { IfOk result (λ flight. (about (arc_value flight.board)).with ≡ work.now) }
        ensures jobs { IfOk result (λ flight. (about (arc_value flight.board)).jobs ≡ tasks) }
        ensures first { IfOk result (λ flight. hand flight.pass ≡ first_hand) }
        ensures none { IfOk result (λ flight. flight.taken ≡ 0) }
    {
        let (board, pass, clerk) = match Board::new(alloc, work, tasks) {
            Ok(made) => made,
            Err((refused, _tasks)) => return Err(refused),
        };
        Ok(Flight {
            board: Arc::new(alloc, board)?,
            pass,
            clerk,
            taken: 0,
        })
    }

    /// Whether the oldest run is back.
    pub fn is_back(&mut self) -> bool
        requires stands { Stands self.old }
        requires some { self.old.taken < length (about (arc_value self.old.board)).jobs }
        ensures stands { Stands self.new }
        ensures board { self.new.board ≡ self.old.board }
        ensures share { (hand self.new.pass).share ≡ (hand self.old.pass).share }
        ensures taken { self.new.taken ≡ self.old.taken }
        ensures back { result ≡ true → IsBack self.new }
    {
        self.board.look(&mut self.clerk, self.taken)
    }

    /// Runs tasks of the board in this thread until the oldest run is back, and where none is left to draw it looks
    /// again and again, and lets other threads run between. It enters the gate before each run, and notes how many
    /// steps it made.
    pub fn help<H: Wait, G: Enter>(
        &mut self,
        rt: &H,
        alloc: Global,
        work: &Work,
        gate: &G,
        mean_steps: &MeanSteps,
    )
        requires stands { Stands self.old }
        requires some { self.old.taken < length (about (arc_value self.old.board)).jobs }
        requires with { (about (arc_value self.old.board)).with ≡ work.now }
        ensures stands { Stands self.new }
        ensures board { self.new.board ≡ self.old.board }
        ensures share { (hand self.new.pass).share ≡ (hand self.old.pass).share }
        ensures taken { self.new.taken ≡ self.old.taken }
        ensures back { IsBack self.new }
    {
        for _ in rt.forever() {
            if self.is_back() {
                return;
            }
            if !self.run_one(alloc, work, gate, mean_steps) {
                yield_now();
            }
        }
        unreachable!()
    }

    // Runs one task in this thread, where one is left to draw.
    fn run_one<G: Enter>(
        &mut self,
        alloc: Global,
        work: &Work,
        gate: &G,
        mean_steps: &MeanSteps,
    ) -> bool
        requires stands { Stands self.old }
        requires with { (about (arc_value self.old.board)).with ≡ work.now }
        ensures stands { Stands self.new }
        ensures board { self.new.board ≡ self.old.board }
        ensures share { (hand self.new.pass).share ≡ (hand self.old.pass).share }
        ensures taken { self.new.taken ≡ self.old.taken }
    {
        let Some((desk, task)) = self.board.draw(&mut self.pass) else {
            return false;
        };
        gate.enter_here(task.pos);
        let run = run_noted(alloc, work, mean_steps, task);
        self.board.finish(&mut self.pass, desk, run);
        true
    }

    /// Takes the oldest run off the board. The error is that it found no memory.
    pub fn take(&mut self) -> Result<Done, AllocFailed<Task>>
        requires stands { Stands self.old }
        requires some { self.old.taken < length (about (arc_value self.old.board)).jobs }
        requires back { IsBack self.old }
        ensures stands { Stands self.new }
        ensures board { self.new.board ≡ self.old.board }
        ensures share { (hand self.new.pass).share ≡ (hand self.old.pass).share }
        ensures gives { GivesOldest (about (arc_value self.old.board)).with (left_in self.old) (left_in self.new) result }
    {
        if self.taken >= self.board.count() {
            unreachable!()
        }
        let run = self.board.collect(&mut self.clerk, self.taken);
        self.taken += 1;
        run
    }

    /// Whether all runs were taken.
    pub fn is_used_up(&self) -> bool
        requires { Stands self.now }
        ensures { IsTrue result ↔ (length (about (arc_value self.now.board)).jobs ≤ self.now.taken) }
    {
        self.taken >= self.board.count()
    }
}
