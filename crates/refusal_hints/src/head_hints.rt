// Hints on heads, and on what is to follow a name or a word.

use crate::cell_hints::{BRACKETS, SIZE};
use crate::mark_hints::WRITTEN;
use crate::rules::Rule;
use crate::rules::Test::{Before, First, Has, Is, Second, Stands, This, Wants};
use crate::spots::{
    ASSIGN, BARRIER, BY, CLOSE_BRACKET, CLOSE_PAREN, COMMA, FEED, HEADS, IN_TASK, NUMBER,
    OPEN_BRACKET, OPEN_PAREN, ROWS, Spot, TASK, VAR, WRITE,
};
use crate::told_hints::Hint;
use task_parser::Kind;

const STATEMENTS: &[u8] =
    b"a program is heads (`lock`, `record`, `feed`, `barrier`) and then tasks; statements stand in a task: `task main() { .. }`";

/// The rules on what a head lacks, and on what stands outside of all tasks.
pub static HEAD_RULES: [Rule; 7] = [
    (
        &[Stands, Wants(BY)],
        b"a record stands under the lock array that guards it: `record r[4] by l;`",
    ),
    (
        &[
            Wants(NUMBER),
            This(&[Kind::Name, CLOSE_BRACKET, CLOSE_PAREN]),
        ],
        SIZE,
    ),
    (&[Wants(TASK), This(HEADS)], b"heads stand before all tasks"),
    (
        &[Has(TASK), Is(NUMBER)],
        b"a program begins with a head or a task; a file of rows is named in a head, after its `from`",
    ),
    (
        &[Has(TASK), Is(VAR)],
        b"variables are those of a task: `task main() { var i; .. }`",
    ),
    (&[Has(TASK), This(&[Kind::Name, Kind::Reg])], STATEMENTS),
    (&[Has(TASK), This(IN_TASK)], STATEMENTS),
];

// The rules on what is missing after a name or a word.
static FOLLOW_RULES: [Rule; 8] = [
    (
        &[Wants(OPEN_BRACKET), Second(&[FEED])],
        b"a feed has the number of its fields after its name: `feed f[2] from \"f.csv\";`",
    ),
    (&[Wants(OPEN_BRACKET)], BRACKETS),
    (
        &[Wants(ASSIGN), Before(&[CLOSE_BRACKET]), First(&[WRITE])],
        WRITTEN,
    ),
    (
        &[Wants(OPEN_PAREN), Before(&[ROWS])],
        b"`rows(f)` is the number of rows of feed f",
    ),
    (
        &[Wants(OPEN_PAREN), Second(&[BARRIER])],
        b"write `barrier b(3);`",
    ),
    (
        &[Wants(OPEN_PAREN), Second(&[TASK])],
        b"write `task t() { .. }`",
    ),
    (&[Wants(OPEN_PAREN)], b"write `fork t();`"),
    (
        &[Has(COMMA), Before(&[Kind::Name]), Is(Kind::Name)],
        b"names stand between commas, and without a type",
    ),
];

impl<'a> Spot<'a> {
    /// What is missing after a name.
    pub fn follow_hint(&self) -> Option<Hint<'a>> {
        if self.wants(ASSIGN) && self.follows(Kind::Name) {
            Some(Hint::Unknown(self.bytes(self.back(1))))
        } else {
            Some(Hint::Fixed(self.told(&FOLLOW_RULES)?))
        }
    }
}
