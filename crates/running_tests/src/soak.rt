// A batch that the program makes itself: four moves, drawn from 1.
use crate::outcome::passes;
use crate::programs::accepted;
use gp_base::{Name, Text};
use soak_batch::soak_files;
use std::alloc::{AllocError, Global};
use std::test::Fail;

// Whether these are the four files, by their names and by what they hold.
fn are_files(files: &[(Name, Text)]) -> bool {
    let [program, accounts, moves, faults] = files else {
        return false;
    };
    let drawn: &[u8] = b"74,68,197\n70,61,296\n30,92,90\n46,40,303\n";
    program.0.as_slice() == b"soak.gp".as_slice()
        && accounts.0.as_slice() == b"acct.csv".as_slice()
        && accounts.1.len() == 790
        && accounts.1.as_slice().starts_with(b"0,1000\n1,1000\n")
        && moves.0.as_slice() == b"moves.csv".as_slice()
        && moves.1.as_slice() == drawn
        && faults.0.as_slice() == b"faults.csv".as_slice()
        && faults.1.len() == 726
        && faults
            .1
            .as_slice()
            .starts_with(b"0,0,40,523087035\n1,0,25,1228670496\n")
}

// How many tasks the first file's program has.
fn tasks_of(alloc: Global, files: &[(Name, Text)]) -> Result<usize, Fail> {
    match files.first() {
        Some((_, text)) if text.len() < 1048576 => {
            let checked = accepted(alloc, text.as_slice())?;
            let count = checked.program().tasks.len();
            drop(checked);
            Ok(count)
        }
        _ => Ok(0),
    }
}

#[test]
fn files_of_a_batch(rt: HostRuntime) -> Result<(), Fail> {
    let alloc = rt.alloc();
    let files = soak_files(alloc, 4, 1)?;
    let are_files = are_files(files.as_slice());
    let tasks = tasks_of(alloc, files.as_slice());
    drop(files);
    let tasks = tasks?;
    passes(Ok(are_files && tasks == 2))
}
