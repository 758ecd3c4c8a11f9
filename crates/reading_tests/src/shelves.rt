// Shelves in memory.
ghost use Rattle.std.specs.Prelude.{IfOk};
ghost use Rattle.gp_base.specs.Files.{HasDistinctNames};

use gp_base::{MemShelf, Name, NeverShelf, Seq, Shelf, ShelfFault, Text};
use std::alloc::{AllocError, Global};
use std::test::Fail;

// What is read, with how many bytes at most, and the answer.
type Read = (&'static [u8], usize, Result<&'static [u8], ShelfFault>);

const READS: [Read; 4] = [
    (b"p.gp", 4, Ok(b"task")),
    (b"p.gp", 3, Err(ShelfFault::TooLong)),
    (b"f.csv", 0, Ok(b"")),
    (b"q.gp", 4, Err(ShelfFault::Failed)),
];

fn files_of(alloc: Global) -> Result<Seq<(Name, Text)>, AllocError>
    ensures { IfOk result HasDistinctNames }
{
    let first = (
        Name::from_slice(alloc, b"p.gp")?,
        Text::from_slice(alloc, b"task")?,
    );
    let second = (Name::from_slice(alloc, b"f.csv")?, Text::new(alloc));
    Ok(Seq::from_vec(vec![in alloc; first, second]?))
}

// Whether a read has this answer.
fn is_answer(read: Result<Text, ShelfFault>, answer: &Result<&[u8], ShelfFault>) -> bool {
    match (read, answer) {
        (Ok(text), Ok(wanted)) => text.as_slice() == *wanted,
        (Err(fault), Err(wanted)) => fault == *wanted,
        _ => false,
    }
}

// Whether a shelf answers so.
fn answers(alloc: Global, row: &Read) -> Result<bool, AllocError> {
    let name = Name::from_slice(alloc, row.0)?;
    let files = files_of(alloc)?;
    let mut shelf = MemShelf::new(alloc, files, Seq::new(alloc));
    let read = shelf.read(&name, row.1);
    drop(shelf);
    Ok(is_answer(read, &row.2))
}

// Whether a shelf whose calls don't fail answers so.
fn never_answers(alloc: Global, row: &Read) -> Result<bool, AllocError> {
    let name = Name::from_slice(alloc, row.0)?;
    let files = files_of(alloc)?;
    let mut shelf = NeverShelf::new(alloc, files);
    let read = shelf.read(&name, row.1);
    drop(shelf);
    Ok(is_answer(read, &row.2))
}

#[test]
fn reads_answer_by_name_and_length(rt: HostRuntime) -> Result<(), Fail> {
    for row in &READS {
        assert!(rt; answers(rt.alloc(), row)?);
        assert!(rt; never_answers(rt.alloc(), row)?);
    }
    Ok(())
}

// Whether a read of at most nine bytes succeeds.
fn is_read(shelf: &mut MemShelf, name: &Name) -> bool {
    shelf.read(name, 9).is_ok()
}

// Whether the call that is listed fails, and not the one before it or after it.
fn second_fails(alloc: Global) -> Result<bool, AllocError> {
    let name = Name::from_slice(alloc, b"p.gp")?;
    let second = Seq::from_slice(alloc, &[2])?;
    let files = files_of(alloc)?;
    let mut shelf = MemShelf::new(alloc, files, second);
    let first = is_read(&mut shelf, &name);
    let second = is_read(&mut shelf, &name);
    let third = is_read(&mut shelf, &name);
    let failed = shelf.failed().len();
    drop(shelf);
    Ok(first && !second && third && failed == 1)
}

#[test]
fn the_listed_call_fails(rt: HostRuntime) -> Result<(), Fail> {
    assert!(rt; second_fails(rt.alloc())?);
    Ok(())
}
