// Shelves that are laid out, and read again.

ghost use Rattle.std.specs.Prelude.{◌≡◌, ◌<◌, ℕ, false, length, map, slice_get, Some, All, IfOk, OnOk};
ghost use Rattle.std.specs.List.Sorted.{IsStrictlyIncreasing};
ghost use Rattle.task_ast.specs.meaning.State.{number_at};
ghost use Rattle.task_ast.specs.meaning.Under.{under_lock};
ghost use Rattle.record_store.specs.Lent.{IsSharedOut};
ghost use Rattle.record_store.specs.inner.Shelves.{seen, is_away, value_on, cells_on, ArePlaced, new_shelf};

use crate::Summed;
use crate::shelf::CellShelf;
use crate::summed::value_at;
use gp_base::{LockNo, Nums, RecNo, Seq};
use std::alloc::{AllocError, Global};

// The values of these cells.
fn copy_cells(alloc: Global, cells: &[i64], numbers: &[RecNo]) -> Result<Nums, AllocError>
    ensures { IfOk result (λ values. values ≡ map (number_at cells.now) numbers.now) }
{
    let mut values = Seq::new(alloc);
    for number in numbers {
        values.push(value_at(cells, number.0 as usize))?;
    }
    Ok(values)
}

/// A shelf for each lock cell, with the values of the cells under it, and with their sum where that is asked for.
pub fn shelves_of(
    alloc: Global,
    cells: &[i64],
    under: &[Seq<RecNo>],
    is_summed: bool,
) -> Result<Vec<CellShelf>, AllocError>
    ensures { IfOk result (λ shelves. shelves.items ≡ map (new_shelf cells.now) under.now) }
{
    let mut shelves = Vec::new(alloc);
    for numbers in under {
        let values = copy_cells(alloc, cells, numbers.as_slice())?;
        shelves.push(CellShelf::Home(Summed::made(values, is_summed)))?;
    }
    Ok(shelves)
}

// Notes the places of the cells under a lock cell.
fn note(places: &mut [(LockNo, u32)], lock: LockNo, numbers: &[RecNo]) -> Result<(), AllocError>
    requires within { All (λ c. c < length places.old) numbers.now }
    requires rising { IsStrictlyIncreasing numbers.now }
    ensures count { length places.new ≡ length places.old }
    ensures noted { OnOk result ((k c : ℕ) → slice_get numbers.now k ≡ Some c → slice_get places.new c ≡ Some (lock, k)) }
    ensures others { (c : ℕ) → ((k : ℕ) → slice_get numbers.now k ≡ Some c → ⊥) → slice_get places.new c ≡ slice_get places.old c }
{
    for at in 0..numbers.len() {
        let Ok(place) = u32::try_from(at) else {
            return Err(AllocError);
        };
        let number = numbers[at];
        places[number.0 as usize] = (lock, place);
    }
    Ok(())
}

/// The place of each cell: the number of the lock cell over it, and how many cells stand there before it. A layout of
/// more cells than have numbers is taken as a want of memory.
pub fn places_of(
    alloc: Global,
    count: usize,
    under: &[Seq<RecNo>],
) -> Result<Vec<(LockNo, u32)>, AllocError>
    requires shared { IsSharedOut count under.now }
    ensures placed { IfOk result (λ places. ArePlaced under.now places.items) }
    ensures count { IfOk result (λ places. length places.items ≡ count) }
{
    let mut places = Vec::from_elem(alloc, (LockNo(0), 0u32), count)?;
    for at in 0..under.len() {
        let Ok(lock) = u32::try_from(at) else {
            return Err(AllocError);
        };
        note(&mut places, LockNo(lock), under[at].as_slice())?;
    }
    Ok(places)
}

// The value at a place of a shelf that is at home.
fn value_there(shelves: &[CellShelf], lock: LockNo, at: u32) -> i64
    requires { All (λ away. away ≡ false) (map is_away shelves.now) }
    ensures { result ≡ value_on (map seen shelves.now) (lock, at) }
{
    match shelves.get(lock.0 as usize) {
        None => 0,
        Some(CellShelf::Home(cells)) => value_at(cells.as_slice(), at as usize),
        Some(CellShelf::Lent(_)) => unreachable!(),
    }
}

/// Fills a list with the values of all cells, whose shelves are at home.
pub fn fill_cells(room: Nums, shelves: &[CellShelf], places: &[(LockNo, u32)]) -> Nums
    requires home { All (λ away. away ≡ false) (map is_away shelves.now) }
    requires room { length room ≡ length places.now }
    ensures { result ≡ cells_on (map seen shelves.now) places.now }
{
    let mut cells = room;
    for at in 0..places.len() {
        let place = &places[at];
        cells.set(at, value_there(shelves, place.0, place.1));
    }
    cells
}
