// The names of a program's lock cells, record cells and barriers.
ghost use Rattle.std.specs.Prelude.{◌≡◌, ◌++◌, OnOk};
ghost use Rattle.task_ast.specs.meaning.Names.{locks_of, records_of, barriers_of};
ghost use Rattle.run_views.specs.meaning.Order.{cell_name, cell_text, barrier_name};

use gp_base::{LockNo, Name};
use itoa::{Buffer, Integer};
use std::alloc::AllocError;
use task_ast::{Head, natural};

/// Appends a number in decimal.
pub fn push_number<I: Integer>(text: &mut Vec<u8>, number: I) -> Result<(), AllocError>
    ensures { OnOk result (text.new.items ≡ text.old.items ++ I.text number) }
{
    text.extend_from_slice(Buffer::new().format(number).as_bytes())
}

/// Appends a word and a number in decimal after it.
pub fn push_labelled<I: Integer>(
    text: &mut Vec<u8>,
    word: &[u8],
    number: I,
) -> Result<(), AllocError>
    ensures { OnOk result (text.new.items ≡ text.old.items ++ word.now ++ I.text number) }
{
    text.extend_from_slice(word)?;
    push_number(text, number)
}

/// Appends a number in decimal between two words.
pub fn push_between<I: Integer>(
    text: &mut Vec<u8>,
    before: &[u8],
    number: I,
    after: &[u8],
) -> Result<(), AllocError>
    ensures { OnOk result (text.new.items ≡ text.old.items ++ before.now ++ I.text number ++ after.now) }
{
    push_labelled(text, before, number)?;
    text.extend_from_slice(after)
}

// Appends the cell of an array at an index.
fn push_cell(text: &mut Vec<u8>, array: &Name, index: u64) -> Result<(), AllocError>
    ensures { OnOk result (text.new.items ≡ text.old.items ++ cell_text array.now index) }
{
    text.extend_from_slice(array.as_slice())?;
    push_between(text, b"[", index, b"]")
}

/// Appends the name of a lock cell.
pub fn push_lock(text: &mut Vec<u8>, heads: &[Head], lock: LockNo) -> Result<(), AllocError>
    ensures { OnOk result (text.new.items ≡ text.old.items ++ cell_name (locks_of heads.now) lock) }
{
    let mut left = u64::from(lock.0);
    for head in heads {
        if let Head::LockHead { name, size, .. } = head {
            let size = natural(*size);
            if left < size {
                return push_cell(text, name, left);
            }
            left -= size;
        }
    }
    Ok(())
}

/// Appends the name of a record cell.
pub fn push_record(text: &mut Vec<u8>, heads: &[Head], cell: u64) -> Result<(), AllocError>
    ensures { OnOk result (text.new.items ≡ text.old.items ++ cell_name (records_of heads.now) cell) }
{
    let mut index = cell;
    for head in heads {
        if let Head::RecHead { name, size, .. } = head {
            let size = natural(*size);
            if index < size {
                return push_cell(text, name, index);
            }
            index -= size;
        }
    }
    Ok(())
}

/// Appends the name of a barrier.
pub fn push_barrier(text: &mut Vec<u8>, heads: &[Head], barrier: u32) -> Result<(), AllocError>
    ensures { OnOk result (text.new.items ≡ text.old.items ++ barrier_name (barriers_of heads.now) barrier) }
{
    let mut left = barrier;
    for head in heads {
        if let Head::BarrierHead { name, .. } = head {
            if left == 0 {
                return text.extend_from_slice(name.as_slice());
            }
            left -= 1;
        }
    }
    Ok(())
}

/// Appends a word and the name of a lock cell after it.
pub fn push_named_lock(
    text: &mut Vec<u8>,
    word: &[u8],
    heads: &[Head],
    lock: LockNo,
) -> Result<(), AllocError>
    ensures { OnOk result (text.new.items ≡ text.old.items ++ word.now ++ cell_name (locks_of heads.now) lock) }
{
    text.extend_from_slice(word)?;
    push_lock(text, heads, lock)
}

/// Appends a word and the name of a barrier after it.
pub fn push_named_barrier(
    text: &mut Vec<u8>,
    word: &[u8],
    heads: &[Head],
    barrier: u32,
) -> Result<(), AllocError>
    ensures { OnOk result (text.new.items ≡ text.old.items ++ word.now ++ barrier_name (barriers_of heads.now) barrier) }
{
    text.extend_from_slice(word)?;
    push_barrier(text, heads, barrier)
}
