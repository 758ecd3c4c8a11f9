// Files that are read by their names.
ghost use Rattle.std.specs.Prelude.{◌≡◌, ℕ, List, Option, IfSome};
ghost use Rattle.gp_base.specs.declared.shelf.ShelfFault.TheVariants.{OutOfMemory};
ghost use Rattle.gp_base.specs.meaning.Files.{bytes_of, GrowsByOnly, HasFileCause, IsWithin, AnswersRead};

use crate::{Name, Text};
use std::alloc::{AllocError, AllocFailed};

/// Why a file was not read: the read failed, or there is no such file; it has more bytes than were asked for; there is
/// no memory for it.
#[derive(Clone, Copy, Debug, PartialEq, Eq)]
pub enum ShelfFault {
    Failed,
    TooLong,
    OutOfMemory,
}

impl From<AllocError> for ShelfFault {
    ghost from_gives = { λ _ e. e ≡ OutOfMemory };

    fn from(_: AllocError) -> Self {
        ShelfFault::OutOfMemory
    }
}

impl<T: Drop> From<AllocFailed<T>> for ShelfFault {
    ghost from_gives = { λ _ e. e ≡ OutOfMemory };

    fn from(_: AllocFailed<T>) -> Self {
        ShelfFault::OutOfMemory
    }
}

/// Files that are read by their names.
pub trait Shelf {
    /// The files, each by its name and its bytes, where the shelf tells them.
    ghost files: { Self → Option (List (List ℕ × List ℕ)) };

    /// The names whose reads failed, in order. It only grows at its end.
    ghost failed: { Self → List (List ℕ) };

    /// The bytes of a file that has at most so many. `Failed` comes only where `failed` grew, by this name alone, and
    /// `TooLong` only where the file is longer. No answer changes the files.
    fn read(&mut self, name: &Name, at_most: usize) -> Result<Text, ShelfFault>
        ensures kept { files self.new ≡ files self.old }
        ensures named { GrowsByOnly name.now (failed self.old) (failed self.new) }
        ensures cause { HasFileCause (failed self.old) (failed self.new) result }
        ensures size { IsWithin at_most result }
        ensures told { IfSome (files self.old) (λ files.
            AnswersRead (bytes_of files name.now) at_most (failed self.old) (failed self.new) result) };
}
