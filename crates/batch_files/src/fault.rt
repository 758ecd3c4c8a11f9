// Why a file is refused.
ghost use Rattle.std.specs.Prelude.{◌≡◌};
ghost use Rattle.batch_files.specs.declared.fault.FileFault.TheVariants as file;
ghost use Rattle.batch_files.specs.declared.fault.RowFault.TheVariants as row;
ghost use Rattle.batch_files.specs.Answers.{fault_at};

use std::alloc::{AllocError, AllocFailed};

/// The rules of files. A row has as many fields as its file asks for; each field is a number; each number is in the
/// range of its field; no row says anew what an earlier row said; there are no more rows than there is room for.
#[derive(Clone, Copy, Debug, PartialEq, Eq)]
pub enum FileKind {
    Fields,
    Number,
    Range,
    Twice,
    TooMany,
}

/// Why a file is refused: its first broken row, counted from 1, with the first rule that this row breaks; or there is
/// no memory for it.
#[derive(Clone, Copy, Debug)]
pub enum FileFault {
    Bad { kind: FileKind, row: u32 },
    OutOfMemory,
}

impl From<AllocError> for FileFault {
    ghost from_gives = { λ _ e. e ≡ file.OutOfMemory };

    fn from(_: AllocError) -> Self {
        FileFault::OutOfMemory
    }
}

/// Why a row is not taken.
#[derive(Clone, Copy)]
pub enum RowFault {
    Breaks(FileKind),
    OutOfMemory,
}

impl From<FileKind> for RowFault {
    ghost from_gives = { λ kind e. e ≡ row.Breaks kind };

    fn from(kind: FileKind) -> Self {
        RowFault::Breaks(kind)
    }
}

impl From<AllocError> for RowFault {
    ghost from_gives = { λ _ e. e ≡ row.OutOfMemory };

    fn from(_: AllocError) -> Self {
        RowFault::OutOfMemory
    }
}

impl<T: Drop> From<AllocFailed<T>> for RowFault {
    ghost from_gives = { λ _ e. e ≡ row.OutOfMemory };

    fn from(_: AllocFailed<T>) -> Self {
        RowFault::OutOfMemory
    }
}

/// The fault of a file by that of its row, which has this number.
pub fn at_row(fault: RowFault, row: u32) -> FileFault
    ensures { result ≡ fault_at fault row }
{
    match fault {
        RowFault::Breaks(kind) => FileFault::Bad { kind, row },
        RowFault::OutOfMemory => FileFault::OutOfMemory,
    }
}
