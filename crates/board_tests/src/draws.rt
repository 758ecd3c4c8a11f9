// Desks that are drawn.
ghost use Rattle.std.specs.Prelude.{◌≡◌, ℕ, ◌+◌, ◌≤◌, [], length, slice_get, Some, IfOk};
ghost use Rattle.desk_board.specs.Held.{about, hand, gathered, book, IsPassOf, IsClerkOf};
ghost use Rattle.desk_board.specs.Rule.{first_hand, first_book};
ghost use Rattle.desk_board.specs.Told.{HasEnded, IsWhole, IsRunAt};

use crate::numbers::{Number, numbers};
use desk_board::{Board, Clerk, Pass};
use gp_base::Job;
use std::alloc::{AllocError, Global};
use std::sync::atomic::{AtomicU64, Ordering};
use std::test::Fail;
use std::thread;
use std::thread::Threads;

// Draws desks until the pass has ended, and puts each run back.
fn drain<J: Job>(board: &Board<J>, with: &J::With, pass: Pass<J>) -> Pass<J>
    requires of { IsPassOf board.now pass }
    requires with { with.now ≡ (about board.now).with }
    requires idle { (hand pass).held ≡ [] }
    ensures of { IsPassOf board.now result }
    ensures share { (hand result).share ≡ (hand pass).share }
    ensures done { HasEnded (hand result) × ((hand result).held ≡ []) }
{
    let mut pass = pass;
    while let Some((desk, job)) = board.draw(&mut pass) {
        let run = job.run(with);
        board.finish(&mut pass, desk, run);
    }
    pass
}

// The same in two threads, each with a pass of its own.
fn drain_in_two<R: Threads + Sync, J: Job>(
    rt: &R,
    board: &Board<J>,
    with: &J::With,
    pass: Pass<J>,
) -> Pass<J>
where
    J::With: Sync,
    requires of { IsPassOf board.now pass }
    requires with { with.now ≡ (about board.now).with }
    requires idle { (hand pass).held ≡ [] }
    requires share { 2 ≤ (hand pass).share }
    ensures of { IsPassOf board.now result }
    ensures share { (hand result).share ≡ (hand pass).share }
    ensures done { HasEnded (hand result) × ((hand result).held ≡ []) }
{
    let mut pass = pass;
    let other = board.split(&mut pass);
    let (mut pass, other) = thread::join(
        rt,
        move ||
            requires { IsPassOf board.now pass × (with.now ≡ (about board.now).with) × ((hand pass).held ≡ []) }
            ensures { IsPassOf board.entry.now result × ((hand result).share ≡ (hand pass).share) × HasEnded (hand result) × ((hand result).held ≡ []) }
        { drain(board, with, pass) },
        move ||
            requires { IsPassOf board.now other × (with.now ≡ (about board.now).with) × ((hand other).held ≡ []) }
            ensures { IsPassOf board.entry.now result × ((hand result).share ≡ (hand other).share) × HasEnded (hand result) × ((hand result).held ≡ []) }
        { drain(board, with, other) },
    );
    board.join(&mut pass, other);
    pass
}

// The runs of all jobs, in order, once the last pass is gathered: exactly one of each.
fn collect_all<J: Job>(
    alloc: Global,
    board: &Board<J>,
    clerk: &mut Clerk<J>,
) -> Result<Vec<J::Run>, AllocError>
    requires of { IsClerkOf board.now clerk.old }
    requires whole { IsWhole (gathered clerk.old) }
    requires first { (book clerk.old).taken ≡ [] }
    ensures count { IfOk result (λ runs. length runs.items ≡ length (about board.now).jobs) }
    ensures runs { IfOk result (λ runs. (k : ℕ) (run : J.Run) → slice_get runs.items k ≡ Some run → IsRunAt J.is_run (about board.now) k run) }
{
    let mut runs = Vec::with_capacity(alloc, board.count() as usize)?;
    for desk in 0..board.count() {
        if board.look(clerk, desk) {
            runs.push_reserved(board.collect(clerk, desk));
        } else {
            unreachable!()
        }
    }
    Ok(runs)
}

fn board_of(
    alloc: Global,
    count: u64,
) -> Result<(Board<Number>, Pass<Number>, Clerk<Number>), AllocError>
    requires { count ≤ 1000 }
    ensures { IfOk result (λ made. IsPassOf made.0 made.1 × (hand made.1 ≡ first_hand) × IsClerkOf made.0 made.2 × (book made.2 ≡ first_book)) }
{
    let jobs = numbers(alloc, count)?;
    match Board::new(alloc, &(), jobs) {
        Ok(made) => Ok(made),
        Err((refused, _jobs)) => Err(refused),
    }
}

#[test]
fn three_passes_square_five_numbers(rt: HostRuntime) -> Result<(), Fail> {
    let (board, mut pass, mut clerk) = board_of(rt.alloc(), 5)?;
    let third = board.split(&mut pass);
    let (shared, with, handle) = (&board, &(), &rt);
    let (mut pass, third) = thread::join(
        &rt,
        move || drain_in_two(handle, shared, with, pass),
        move || drain(shared, with, third),
    );
    board.join(&mut pass, third);
    board.gather(&mut clerk, pass);
    let runs = collect_all(rt.alloc(), &board, &mut clerk)?;
    assert!(rt; runs.as_slice() == [0, 1, 4, 9, 16].as_slice());
    Ok(())
}

// Whether a draw ended the pass. A desk that was drawn is finished.
fn ends(board: &Board<Number>, pass: &mut Pass<Number>) -> bool
    requires { IsPassOf board.now pass.old }
    ensures { IsPassOf board.now pass.new }
{
    match board.draw(pass) {
        None => true,
        Some((desk, job)) => {
            let run = job.run(&());
            board.finish(pass, desk, run);
            false
        }
    }
}

#[test]
fn a_board_of_no_job_ends_its_pass_at_once(rt: HostRuntime) -> Result<(), Fail> {
    let (board, mut pass, _clerk) = board_of(rt.alloc(), 0)?;
    assert!(rt; ends(&board, &mut pass) && ends(&board, &mut pass));
    Ok(())
}

// Whether the first desk is seen done once its run is back, and not before.
fn is_done_once_finished(
    board: &Board<Number>,
    pass: &mut Pass<Number>,
    clerk: &mut Clerk<Number>,
) -> bool
    requires of { IsPassOf board.now pass.old × IsClerkOf board.now clerk.old }
{
    if board.count() == 0 {
        return false;
    }
    let is_early = board.look(clerk, 0);
    let is_ended = ends(board, pass);
    !is_early && !is_ended && board.look(clerk, 0)
}

#[test]
fn a_desk_is_seen_done_once_its_run_is_back(rt: HostRuntime) -> Result<(), Fail> {
    let (board, mut pass, mut clerk) = board_of(rt.alloc(), 1)?;
    let is_told = is_done_once_finished(&board, &mut pass, &mut clerk);
    assert!(rt; is_told);
    Ok(())
}

// Draws a desk, and holds it until two were drawn or the looks run out. Whether two were.
fn draws_beside(board: &Board<Number>, pass: Pass<Number>, drawn: &AtomicU64) -> bool
    requires { IsPassOf board.now pass }
{
    let mut pass = pass;
    let Some((desk, job)) = board.draw(&mut pass) else {
        return false;
    };
    drawn.fetch_add(1, Ordering::SeqCst);
    let met = (0..100_000_000u64).any(|_look| drawn.load(Ordering::SeqCst) == 2);
    let run = job.run(&());
    board.finish(&mut pass, desk, run);
    met
}

#[test]
fn two_threads_hold_a_desk_at_the_same_time(rt: HostRuntime) -> Result<(), Fail> {
    let (board, mut pass, _clerk) = board_of(rt.alloc(), 2)?;
    let other = board.split(&mut pass);
    let drawn = AtomicU64::new(0);
    let (shared, counter) = (&board, &drawn);
    let (one, two) = thread::join(
        &rt,
        move || draws_beside(shared, pass, counter),
        move || draws_beside(shared, other, counter),
    );
    assert!(rt; one && two);
    Ok(())
}
