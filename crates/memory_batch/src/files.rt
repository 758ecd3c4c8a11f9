// The files of a shelf in memory.
ghost use Rattle.std.specs.Prelude.{◌≡◌, ◌++◌, false, IfOk, IfSome, OnOk};
ghost use Rattle.gp_base.specs.Files.{HasDistinctNames, are_distinct};
ghost use Rattle.memory_batch.specs.Files.{has};

use gp_base::{Name, Seq, Text};
use std::alloc::{AllocError, Global};

/// Files, each with its name.
pub type Files = Seq<(Name, Text)>;

// Appends copies of these files.
fn push_files(alloc: Global, files: &mut Files, more: &[(Name, Text)]) -> Result<(), AllocError>
    ensures { OnOk result (files.new ≡ files.old ++ more.now) }
{
    for (name, text) in more {
        files.push((name.copied(alloc)?, text.copied(alloc)?))?;
    }
    Ok(())
}

// Whether one of the files has this name.
fn has(files: &[(Name, Text)], name: &Name) -> bool
    ensures { result ≡ has files.now name.now }
{
    for (known, _) in files {
        if name.as_slice() == known.as_slice() {
            return true;
        }
    }
    false
}

// Whether no two of the files have one name.
fn are_distinct(files: &[(Name, Text)]) -> bool
    ensures { result ≡ are_distinct files.now }
{
    match files.split_first() {
        None => true,
        Some((first, rest)) => !has(rest, &first.0) && are_distinct(rest),
    }
}

/// Copies of the files of both lists, where no two of them have one name.
pub fn distinct_files(
    alloc: Global,
    own: &[(Name, Text)],
    tables: &[(Name, Text)],
) -> Result<Option<Files>, AllocError>
    ensures files { IfOk result (λ files. IfSome files (λ files. files ≡ own.now ++ tables.now)) }
    ensures distinct { IfOk result (λ files. IfSome files HasDistinctNames) }
    ensures twice { IfOk result (λ files. files ≡ None → are_distinct (own.now ++ tables.now) ≡ false) }
{
    let mut files = Seq::new(alloc);
    push_files(alloc, &mut files, own)?;
    push_files(alloc, &mut files, tables)?;
    if !are_distinct(files.as_slice()) {
        return Ok(None);
    }
    Ok(Some(files))
}
