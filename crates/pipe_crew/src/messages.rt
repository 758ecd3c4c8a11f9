// What lasting threads get, and what they do with it.
ghost use Rattle.std.specs.Prelude.{◌≡◌};
ghost use Rattle.std.specs.Arc.{arc_value};
ghost use Rattle.desk_board.specs.Held.{about, hand};
ghost use Rattle.desk_board.specs.Views.{IsOf};
ghost use Rattle.pipe_crew.specs.inner.Passes.{unused};

use crate::draining::drain;
use crew::MeanSteps;
use crossbeam_channel::{Receiver, Sender};
use desk_board::{Board, Pass};
use gp_base::{Gate, Job};
use std::alloc::{AllocError, Global};
use std::sync::{Arc, Wait};
use subthread::{Task, Work};

/// A board for a lasting thread, with a pass of it, and what its jobs are run under.
#[derive(Drop)]
pub struct Message<J: Job>
where
    J::With: Drop,
{
    with: Arc<J::With>,
    board: Arc<Board<J>>,
    pass: Pass<J>,
    ghost of: { IsOf (arc_value board).table.shared.table_id (about (arc_value board)) pass.seat },
    ghost unused: { hand pass ≡ unused },
    ghost same: { (about (arc_value board)).with ≡ arc_value with },
}

/// Sends a pass of a board to the threads. One that can't be sent is let go: it holds no desk, and others draw what it
/// would have drawn. The error is that memory is out.
pub fn send<H: Wait>(
    rt: &H,
    to: &Sender<Message<Task>>,
    work: &Arc<Work>,
    board: &Arc<Board<Task>>,
    pass: Pass<Task>,
) -> Result<(), AllocError>
    requires of { IsOf (arc_value board.now).table.shared.table_id (about (arc_value board.now)) pass.seat }
    requires unused { hand pass ≡ unused }
    requires with { (about (arc_value board.now)).with ≡ arc_value work.now }
{
    let message = Message {
        with: Arc::try_clone(work)?,
        board: Arc::try_clone(board)?,
        pass,
    };
    let _ = to.send(rt, message);
    Ok(())
}

/// Drains the board of each message, until the channel is empty and its last sender is gone. The gate is entered before
/// each run, and how many steps it made is noted.
pub fn serve<H: Wait, G: Gate>(
    rt: &H,
    alloc: Global,
    gate: &G,
    mean_steps: &MeanSteps,
    from: Receiver<Message<Task>>,
) {
    for message in from.iter(rt) {
        drain_sent(alloc, gate, mean_steps, message);
    }
}

// Drains the board of a message by its pass.
fn drain_sent<G: Gate>(alloc: Global, gate: &G, mean_steps: &MeanSteps, message: Message<Task>) {
    let Message { with, board, pass } = message;
    drain(alloc, &board, &with, gate, mean_steps, pass);
}
