// The rows of the batch's files.
ghost use Rattle.std.specs.Prelude.{◌≡◌, ◌<◌, ◌^◌, [], ◌∷◌, ◌++◌, decimal, OnOk, IfOk};
ghost use Rattle.soak_batch.specs.meaning.Rows.{row, account_rows, move_row, move_rows, after_rows, fault_row, drawn_rows};
ghost use Rattle.soak_batch.specs.meaning.Draws.{after_row};

use crate::draws::Draws;
use gp_base::{Seq, Text};
use itoa::Buffer;
use std::alloc::{AllocError, Global};

// Appends a number in decimal.
fn push_number(text: &mut Vec<u8>, number: u64) -> Result<(), AllocError>
    ensures { OnOk result (text.new.items ≡ text.old.items ++ decimal number) }
{
    text.extend_from_slice(Buffer::new().format(number).as_bytes())
}

// Appends a row of these numbers.
fn push_row(text: &mut Vec<u8>, number: u64, others: &[u64]) -> Result<(), AllocError>
    ensures { OnOk result (text.new.items ≡ text.old.items ++ row number others.now) }
{
    push_number(text, number)?;
    for other in others {
        text.extend_from_slice(b",")?;
        push_number(text, *other)?;
    }
    text.extend_from_slice(b"\n")
}

/// The rows of 100 accounts, with 1000 each.
pub fn account_rows(alloc: Global) -> Result<Text, AllocError>
    ensures { IfOk result (λ text. text ≡ account_rows 0 100) }
{
    let mut text = Vec::new(alloc);
    for account in 0..100 {
        push_row(&mut text, account, &[1000])?;
    }
    Ok(Seq::from_vec(text))
}

// Appends a move.
fn push_move(text: &mut Vec<u8>, draws: &mut Draws) -> Result<(), AllocError>
    ensures text { OnOk result (text.new.items ≡ text.old.items ++ move_row draws.old.state) }
    ensures state { draws.new.state ≡ after_row draws.old.state }
{
    let giver = draws.draw() % 100;
    let taker = (giver + 1 + draws.draw() % 99) % 100;
    let amount = draws.draw() % 500 + 1;
    push_row(text, giver, &[taker, amount])
}

/// The rows of so many moves.
pub fn move_rows(alloc: Global, draws: &mut Draws, count: u32) -> Result<Text, AllocError>
    ensures text { IfOk result (λ text. text ≡ move_rows count draws.old.state) }
    ensures state { OnOk result (draws.new.state ≡ after_rows count draws.old.state) }
{
    let mut text = Vec::new(alloc);
    for _made in 0..count {
        push_move(&mut text, draws)?;
    }
    Ok(Seq::from_vec(text))
}

// Appends a fault of a part of the run.
fn push_fault(
    text: &mut Vec<u8>,
    draws: &mut Draws,
    width: u64,
    part: u64,
) -> Result<(), AllocError>
    requires some { 0 < width }
    requires small { width < 2 ^ 32 }
    requires few { part < 40 }
    ensures text { OnOk result (text.new.items ≡ text.old.items ++ fault_row width part draws.old.state) }
    ensures state { draws.new.state ≡ after_row draws.old.state }
{
    let position = part * width + draws.draw() % width;
    let delay = draws.draw() % 65;
    let mask = draws.draw() + 1;
    push_row(text, position, &[0, delay, mask])
}

/// The rows of 40 faults, one in each part of the run.
pub fn fault_rows(alloc: Global, draws: &mut Draws, width: u64) -> Result<Text, AllocError>
    requires some { 0 < width }
    requires small { width < 2 ^ 32 }
    ensures { IfOk result (λ text. text ≡ drawn_rows width 0 40 draws.old.state) }
{
    let mut text = Vec::new(alloc);
    for part in 0..40 {
        push_fault(&mut text, draws, width, part)?;
    }
    Ok(Seq::from_vec(text))
}
