// Hints on names and on what stands in quotes.

use crate::mark_hints::{DIGITS, WRITTEN};
use crate::rules::Rule;
use crate::rules::Test::{Before, First, Is, Joined, LacksInto, Stands, Wants};
use crate::spots::{FORK, INTO, JOIN, NUMBER, PRINT, READ, SETTLE, Spot, WRITE};
use task_parser::Kind;

/// The rules on names that are not of the kind which is wanted, and on an `into` that is missing.
pub static NAME_RULES: [Rule; 16] = [
    (
        &[Is(Kind::Name), Wants(Kind::Reg), First(&[JOIN])],
        b"what a thread gives back is data: `join h into $x;`, and `settle $x into c;` makes it a control value",
    ),
    (
        &[Is(Kind::Name), Wants(Kind::Reg), First(&[READ])],
        b"what is read is data: `read r[i] into $x;`, and `settle $x into c;` makes it a control value",
    ),
    (
        &[Is(Kind::Name), Wants(Kind::Reg), First(&[SETTLE])],
        b"a settle makes data a control value: `settle $x into c;`",
    ),
    (
        &[Is(Kind::Name), Wants(Kind::Reg)],
        b"data stands in a variable with a `$`: `into $x`",
    ),
    (
        &[Is(Kind::Reg), Before(&[INTO]), First(&[FORK])],
        b"a fork gives the number of its thread: `fork t() into h; join h into $x;`",
    ),
    (
        &[Is(Kind::Reg), Before(&[READ])],
        b"write `read r[i] into $x;`",
    ),
    (&[Is(Kind::Reg), Before(&[WRITE])], WRITTEN),
    (
        &[Is(Kind::Reg), Wants(Kind::Name)],
        b"control variables, arrays, barriers and tasks are named without a `$`",
    ),
    (&[Is(Kind::Name), Before(&[NUMBER]), Joined], DIGITS),
    (
        &[Is(Kind::Quoted), First(&[PRINT])],
        b"numbers alone are printed: give each kind of line a number of its own, as its first",
    ),
    (
        &[Is(Kind::Quoted)],
        b"a text in quotes is the name of a file alone, after `from`",
    ),
    (
        &[Stands, Wants(Kind::Quoted)],
        b"the name of a file stands in double quotes",
    ),
    (&[LacksInto, First(&[FORK])], b"write `fork t() into h;`"),
    (&[LacksInto, First(&[JOIN])], b"write `join h into $x;`"),
    (&[LacksInto, First(&[READ])], b"write `read r[i] into $x;`"),
    (&[LacksInto, First(&[SETTLE])], b"write `settle $x into c;`"),
];

impl<'a> Spot<'a> {
    /// Whether an `into` has to stand here, or could before a variable that stands in the line of what is before it.
    pub fn lacks_into(&self) -> bool {
        let is_variable = matches!(self.kind(), Some(Kind::Name | Kind::Reg));
        self.wants(INTO) || is_variable && self.has(INTO) && self.is_beside()
    }
}
