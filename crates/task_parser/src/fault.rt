// Why a text stands for no program.

/// The first fault of lexing, by its place. `TooLong` comes before all else, where the text has more than 1,048,576
/// bytes.
#[derive(Clone, Copy, Debug, PartialEq, Eq)]
pub enum LexFault {
    BadByte(u32),
    NumberTooBig(u32),
    TooLong,
    OutOfMemory,
}

/// The first fault of parsing, by its place.
#[derive(Clone, Copy, Debug, PartialEq, Eq)]
pub enum ParseFault {
    Unexpected(u32),
    TooDeep(u32),
    OutOfMemory,
}
