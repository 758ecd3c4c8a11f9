// Desks that are claimed.
ghost use Rattle.std.specs.Prelude.{◌≡◌, ℕ, ◌<◌, ◌≤◌, [], length, slice_get, Some, IfOk};
ghost use Rattle.gp_steal.specs.Held.{about, hand, gathered, book, IsPassOf, IsClerkOf};
ghost use Rattle.desk_board.specs.Rule.{first_book};
ghost use Rattle.gp_steal.specs.Rule.{first_hand};
ghost use Rattle.desk_board.specs.Told.{IsRunAt};
ghost use Rattle.gp_steal.specs.Told.{IsWhole};

use crate::numbers::{Number, numbers};
use gp_base::Job;
use gp_steal::{StealBoard, StealClerk, StealPass};
use std::alloc::{AllocError, Global};
use std::test::Fail;
use std::thread;

// Tries every desk from the first on, and puts the run of each that it claimed back.
fn sweep<J: Job>(board: &StealBoard<J>, with: &J::With, pass: StealPass<J>) -> StealPass<J>
    requires of { IsPassOf board.now pass }
    requires with { with.now ≡ (about board.now).with }
    requires idle { (hand pass).held ≡ [] }
    ensures of { IsPassOf board.now result }
    ensures share { (hand result).share ≡ (hand pass).share }
    ensures swept { (hand result).swept ≡ length (about board.now).jobs }
    ensures idle { (hand result).held ≡ [] }
{
    let mut pass = pass;
    while pass.swept() < board.count() {
        let next = pass.swept();
        if let Some((desk, job)) = board.claim(&mut pass, next) {
            let run = job.run(with);
            board.finish(&mut pass, desk, run);
        }
    }
    pass
}

// The runs of all jobs, in order, once the last pass is gathered: exactly one of each.
fn collect_all<J: Job>(
    alloc: Global,
    board: &StealBoard<J>,
    clerk: &mut StealClerk<J>,
) -> Result<Vec<J::Run>, AllocError>
    requires of { IsClerkOf board.now clerk.old }
    requires whole { IsWhole (length (about board.now).jobs) (gathered clerk.old) }
    requires first { (book clerk.old).taken ≡ [] }
    ensures count { IfOk result (λ runs. length runs.items ≡ length (about board.now).jobs) }
    ensures runs { IfOk result (λ runs. (k : ℕ) (run : J.Run) → slice_get runs.items k ≡ Some run → IsRunAt J.is_run (about board.now) k run) }
{
    let mut runs = Vec::with_capacity(alloc, board.count() as usize)?;
    for desk in 0..board.count() {
        if board.look(clerk, desk) {
            runs.push_reserved(board.collect(clerk, desk));
        } else {
            unreachable!()
        }
    }
    Ok(runs)
}

fn board_of(
    alloc: Global,
    count: u64,
) -> Result<(StealBoard<Number>, StealPass<Number>, StealClerk<Number>), AllocError>
    requires { count ≤ 1000 }
    ensures { IfOk result (λ made. IsPassOf made.0 made.1 × (hand made.1 ≡ first_hand) × IsClerkOf made.0 made.2 × (book made.2 ≡ first_book)) }
{
    let jobs = numbers(alloc, count)?;
    match StealBoard::new(alloc, &(), jobs) {
        Ok(made) => Ok(made),
        Err((refused, _jobs)) => Err(refused),
    }
}

#[test]
fn three_passes_square_five_numbers(rt: HostRuntime) -> Result<(), Fail> {
    let (board, mut pass, mut clerk) = board_of(rt.alloc(), 5)?;
    let second = board.split(&mut pass);
    let third = board.split(&mut pass);
    let (shared, with) = (&board, &());
    let (mut pass, second) = thread::join(
        &rt,
        move || sweep(shared, with, pass),
        move || sweep(shared, with, second),
    );
    let third = sweep(&board, &(), third);
    board.join(&mut pass, second);
    board.join(&mut pass, third);
    board.gather(&mut clerk, pass);
    let runs = collect_all(rt.alloc(), &board, &mut clerk)?;
    assert!(rt; runs.as_slice() == [0, 1, 4, 9, 16].as_slice());
    Ok(())
}

// Whether a try claimed the desk. A desk that was claimed is finished.
fn claims(board: &StealBoard<Number>, pass: &mut StealPass<Number>, desk: u32) -> bool
    requires of { IsPassOf board.now pass.old }
    requires desk { desk < length (about board.now).jobs }
    ensures of { IsPassOf board.now pass.new }
{
    match board.claim(pass, desk) {
        None => false,
        Some((desk, job)) => {
            let run = job.run(&());
            board.finish(pass, desk, run);
            true
        }
    }
}

// Whether the first desk has a run from the first claim on, and no second claim.
fn is_claimed_once(
    board: &StealBoard<Number>,
    pass: &mut StealPass<Number>,
    clerk: &mut StealClerk<Number>,
) -> bool
    requires of { IsPassOf board.now pass.old × IsClerkOf board.now clerk.old }
{
    if board.count() == 0 {
        return false;
    }
    let is_early = board.look(clerk, 0);
    let is_claimed = claims(board, pass, 0);
    let is_claimed_again = claims(board, pass, 0);
    !is_early && is_claimed && !is_claimed_again && board.look(clerk, 0)
}

#[test]
fn a_desk_is_claimed_once(rt: HostRuntime) -> Result<(), Fail> {
    let (board, mut pass, mut clerk) = board_of(rt.alloc(), 1)?;
    let is_told = is_claimed_once(&board, &mut pass, &mut clerk);
    assert!(rt; is_told);
    Ok(())
}
