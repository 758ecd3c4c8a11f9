// The files of the batch.
ghost use Rattle.std.specs.Prelude.{◌≡◌, ◌≤◌, ◌++◌, [], ◌∷◌, codes, IfOk, OnOk};
ghost use Rattle.gp_base.specs.declared.limits.TheConstants.{LEAST_MOVES};
ghost use Rattle.gp_base.specs.Files.{HasDistinctNames};
ghost use Rattle.soak_batch.specs.meaning.Files.{program_text, soak_files};

use crate::draws::Draws;
use crate::program::PROGRAM;
use crate::rows::{account_rows, fault_rows, move_rows};
use gp_base::{Name, Seq, Text};
use std::alloc::{AllocError, Global};

// The program's text.
#[tactic(auto, unfolding(crate::specs::meaning::Files::program_text))]
fn program_text(alloc: Global) -> Result<Text, AllocError>
    ensures { IfOk result (λ text. text ≡ program_text) }
{
    Seq::from_slice(alloc, PROGRAM)
}

// Appends a file, by its name.
fn push_file(
    files: &mut Seq<(Name, Text)>,
    alloc: Global,
    name: &[u8],
    text: Text,
) -> Result<(), AllocError>
    ensures { OnOk result (files.new ≡ files.old ++ (name.now, text) ∷ []) }
{
    let name = Seq::from_slice(alloc, name)?;
    files.push((name, text))
}

/// The files of a batch of so many moves, each by its name: the program `soak.gp`, and beside it the accounts, the
/// moves and the faults, which are drawn from the start. The error is that memory is out.
pub fn soak_files(alloc: Global, moves: u32, start: u64) -> Result<Seq<(Name, Text)>, AllocError>
    requires { LEAST_MOVES ≤ moves }
    ensures files { IfOk result (λ files. files ≡ soak_files moves start) }
    ensures distinct { IfOk result HasDistinctNames }
{
    let mut draws = Draws { state: start };
    let width = (4 * moves as u64 + 25) / 40;
    let mut files = Seq::new(alloc);
    push_file(&mut files, alloc, b"soak.gp", program_text(alloc)?)?;
    push_file(&mut files, alloc, b"acct.csv", account_rows(alloc)?)?;
    push_file(
        &mut files,
        alloc,
        b"moves.csv",
        move_rows(alloc, &mut draws, moves)?,
    )?;
    push_file(
        &mut files,
        alloc,
        b"faults.csv",
        fault_rows(alloc, &mut draws, width)?,
    )?;
    Ok(files)
}
