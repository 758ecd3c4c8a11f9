// The laws of what tokens and texts stand for, each a clause of a function that does nothing.
ghost use Rattle.task_parser.specs.OneReading.{ProgramOrFault, OneProgram, NoFault, OneFault, OnePlace, SomeMeaning, OneMeaning, OneSpelling};
ghost use Rattle.task_parser.specs.ShapedLaw.{SpelledIsShaped};

/// Tokens stand for one program, or have one first fault at one place, and never both.
pub fn one_reading()
    ensures either { ProgramOrFault }
    ensures program { OneProgram }
    ensures no_fault { NoFault }
    ensures fault { OneFault }
    ensures place { OnePlace }
{}

/// A text stands for one program, or has one first fault of lexing, or is tokens that have one first fault, and never
/// two of these.
pub fn one_meaning()
    ensures some { SomeMeaning }
    ensures one { OneMeaning }
    ensures program { OneSpelling }
{}

/// The program that a text stands for has no negative size, number of fields or barrier's number, and the blocks of
/// each
/// `when` in it hold data statements alone.
pub fn spelled_is_shaped()
    ensures { SpelledIsShaped }
{}
