/// The rules of an accepted program, each by what fails, from the first to the eleventh.
#[derive(Clone, Copy, Debug, PartialEq, Eq)]
pub enum CheckKind {
    UnknownName,
    DoubleName,
    WrongCount,
    DataInControl,
    NotHeld,
    HeldTwice,
    HeldAtEnd,
    BranchesDiffer,
    IndexChangedWhileHeld,
    SizesDiffer,
    TooMany,
}
