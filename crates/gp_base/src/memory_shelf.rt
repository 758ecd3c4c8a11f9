// Shelves in memory.
ghost use Rattle.std.specs.Prelude.{◌≡◌, ◌<◌, ◌≤◌, ◌⊎◌, ◌++◌, ◌+◌, ◌-◌, ◌^◌, min, ◌∷◌, [], None, Some, option_copied, IfOk, OnOk, OnErr, IsErrOf, length};
ghost use Rattle.gp_base.specs.Calls.{IsNextListed};
ghost use Rattle.gp_base.specs.meaning.Files.{bytes_of, GrowsByOnly, HasFileCause, IsWithin, AnswersRead, IsFailure};
ghost use Rattle.gp_base.specs.Files.{HasDistinctNames};

use crate::calls::Calls;
use crate::{Name, Seq, Shelf, ShelfFault, Text};
use std::alloc::{AllocError, Global};

// The bytes that stand under a name.
fn find<'a>(files: &'a [(Name, Text)], name: &Name) -> Option<&'a Text>
    ensures { option_copied result ≡ bytes_of files.now name.now }
{
    for (known, text) in files {
        if name.as_slice() == known.as_slice() {
            return Some(text);
        }
    }
    None
}

// A copy of a text that has at most so many bytes.
fn copy_of(alloc: Global, text: &Text, at_most: usize) -> Result<Text, ShelfFault>
    ensures copy { IfOk result (λ copy. (copy ≡ text.now) × (length copy ≤ at_most)) }
    ensures too_long { IsErrOf result ShelfFault.TooLong → at_most < length text.now }
    ensures short { (at_most < length text.now) → result ≡ Err ShelfFault.TooLong }
    ensures read { IsErrOf result ShelfFault.Failed → ⊥ }
{
    if text.len() > at_most {
        return Err(ShelfFault::TooLong);
    }
    Ok(text.copied(alloc)?)
}

// Adds the name of a file that was not read.
fn fail(alloc: Global, failed: &mut Vec<Name>, name: &Name) -> Result<(), AllocError>
    ensures named { GrowsByOnly name.now failed.old.items failed.new.items }
    ensures ok { OnOk result (length failed.old.items < length failed.new.items) }
{
    failed.push(name.copied(alloc)?)?;
    Ok(())
}

/// Files in memory. The calls whose numbers are listed fail.
#[derive(Drop)]
pub struct MemShelf {
    alloc: Global,
    files: Seq<(Name, Text)>,
    calls: Calls,
    failed: Vec<Name>,
}

impl MemShelf {
    /// A shelf of these files, whose calls fail that have the listed numbers, counted from 1. A call after number
    /// 18446744073709551615 counts as not listed. Takes no memory.
    pub fn new(alloc: Global, files: Seq<(Name, Text)>, failing: Seq<u64>) -> Self
        requires { HasDistinctNames files }
        ensures files { ⟦<MemShelf as Shelf>⟧.files result ≡ Some files }
        ensures failed { ⟦<MemShelf as Shelf>⟧.failed result ≡ [] }
        ensures listed { result.calls.failing ≡ failing }
        ensures made { result.calls.made ≡ 0 }
    {
        MemShelf {
            alloc,
            files,
            calls: Calls { failing, made: 0 },
            failed: Vec::new(alloc),
        }
    }

    /// The names whose reads failed, in order.
    pub fn failed(&self) -> &[Name]
        ensures { result.now ≡ ⟦<MemShelf as Shelf>⟧.failed self.now }
    {
        &self.failed
    }
}

impl Shelf for MemShelf {
    ghost files = { λ s. Some s.files };

    ghost failed = { λ s. s.failed.items };

    fn read(&mut self, name: &Name, at_most: usize) -> Result<Text, ShelfFault>
        ensures kept { self.new.files ≡ self.old.files }
        ensures named { GrowsByOnly name.now self.old.failed.items self.new.failed.items }
        ensures cause { HasFileCause self.old.failed.items self.new.failed.items result }
        ensures size { IsWithin at_most result }
        ensures told { AnswersRead (bytes_of self.old.files name.now) at_most self.old.failed.items self.new.failed.items result }

        // A call that is listed fails, and no other at a name that the shelf has; nor does another count as a failure.
        // Running out of memory may stand for a failure.
        ensures listed { IsNextListed self.old.calls.failing self.old.calls.made → IsFailure result }
        ensures unlisted { IsErrOf result ShelfFault.Failed →
            IsNextListed self.old.calls.failing self.old.calls.made ⊎ (bytes_of self.old.files name.now ≡ None) }
        ensures spared { (self.new.failed.items ≡ self.old.failed.items) ⊎
            IsNextListed self.old.calls.failing self.old.calls.made ⊎ (bytes_of self.old.files name.now ≡ None) }
        ensures counted { self.new.calls.made ≡ min (self.old.calls.made + 1) (2 ^ 64 - 1) }
        ensures same { self.new.calls.failing ≡ self.old.calls.failing }
    {
        let fails = self.calls.fails_next();
        match find(self.files.as_slice(), name) {
            Some(text) if !fails => copy_of(self.alloc, text, at_most),
            _ => {
                fail(self.alloc, &mut self.failed, name)?;
                Err(ShelfFault::Failed)
            }
        }
    }
}

/// Files in memory. No call fails but those that name none of them.
#[derive(Drop)]
pub struct NeverShelf {
    alloc: Global,
    files: Seq<(Name, Text)>,
    failed: Vec<Name>,
}

impl NeverShelf {
    /// A shelf of these files. Takes no memory.
    pub fn new(alloc: Global, files: Seq<(Name, Text)>) -> Self
        requires { HasDistinctNames files }
        ensures files { ⟦<NeverShelf as Shelf>⟧.files result ≡ Some files }
        ensures failed { ⟦<NeverShelf as Shelf>⟧.failed result ≡ [] }
    {
        NeverShelf {
            alloc,
            files,
            failed: Vec::new(alloc),
        }
    }
}

impl Shelf for NeverShelf {
    ghost files = { λ s. Some s.files };

    ghost failed = { λ s. s.failed.items };

    fn read(&mut self, name: &Name, at_most: usize) -> Result<Text, ShelfFault>
        ensures kept { self.new.files ≡ self.old.files }
        ensures named { GrowsByOnly name.now self.old.failed.items self.new.failed.items }
        ensures cause { HasFileCause self.old.failed.items self.new.failed.items result }
        ensures size { IsWithin at_most result }
        ensures told { AnswersRead (bytes_of self.old.files name.now) at_most self.old.failed.items self.new.failed.items result }

        // A name that it has is no cause of a failure, and doesn't count as one.
        ensures absent { IsErrOf result ShelfFault.Failed → bytes_of self.old.files name.now ≡ None }
        ensures spared { (self.new.failed.items ≡ self.old.failed.items) ⊎ (bytes_of self.old.files name.now ≡ None) }
    {
        match find(self.files.as_slice(), name) {
            Some(text) => copy_of(self.alloc, text, at_most),
            None => {
                fail(self.alloc, &mut self.failed, name)?;
                Err(ShelfFault::Failed)
            }
        }
    }
}
