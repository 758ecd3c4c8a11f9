// Hints on marks: comments of other languages, arithmetic, `=`, comparisons and commas.

use crate::hints::COMMENT;
use crate::rules::Rule;
use crate::rules::Test::{
    After, Before, First, Has, InHead, Is, Joined, JoinedAfter, Lacks, Second, Spaced, This, Wants,
};
use crate::spots::{
    ASSIGN, AT_LEAST, AT_MOST, BARRIER, CLOSE_BLOCK, CLOSE_BRACKET, CLOSE_PAREN, COMMA, EQUAL,
    FORK, GREATER, JOIN, LESS, LOCK, MINUS, NUMBER, OPEN_BLOCK, PERCENT, PLUS, PRINT, READ,
    SEMICOLON, SLASH, SPELT, STAR, TASK, UNEQUAL, UNLOCK, WRITE,
};
use task_parser::Kind;

/// What is told of a second index.
pub const ONE_INDEX: &[u8] =
    b"a lock and a cell of a record have one index: `k = 10 * i + j; read r[k] into $x;`";

const ONE_VARIABLE: &[u8] = b"one statement sets one variable: write two, as `n = 3; i = n;`";

/// How a cell of a record is written.
pub const WRITTEN: &[u8] = b"write `write r[i] = e;`";

/// What is told of a number with something else in it.
pub const DIGITS: &[u8] = b"a number has digits alone, as `1000`";

const MORE: &[u8] = b"write `i = i + 1;`";

const LESSER: &[u8] = b"write `i = i - 1;`";

const DOUBLE: &[u8] = b"write `i = i * 2;`";

const HALF: &[u8] = b"write `i = i / 2;`";

const REST: &[u8] = b"write `i = i % 2;`";

// `+`, `-`, `*`, `/`, `%`.
const ARITHMETIC: &[Kind] = &[PLUS, MINUS, STAR, SLASH, PERCENT];

// `==`, `!=`, `<`, `<=`, `>`, `>=`.
const COMPARISONS: &[Kind] = &[EQUAL, UNEQUAL, LESS, AT_MOST, GREATER, AT_LEAST];

/// The rules on marks: on comments and names, on arithmetic, on `=`, on comparisons, on `;`, and on commas.
pub static MARK_RULES: [Rule; 47] = [
    (&[Is(SLASH), Before(&[SLASH])], COMMENT),
    (&[Is(SLASH), After(&[STAR, SLASH]), JoinedAfter], COMMENT),
    (&[Is(PERCENT), Has(READ)], COMMENT),
    (&[Is(PERCENT), Has(TASK)], COMMENT),
    (
        &[Is(MINUS), After(&[MINUS]), JoinedAfter, Spaced, Has(READ)],
        COMMENT,
    ),
    (
        &[Is(MINUS), After(&[MINUS]), JoinedAfter, Spaced, Has(TASK)],
        COMMENT,
    ),
    (
        &[
            Is(MINUS),
            Lacks(MINUS),
            Before(&[Kind::Name]),
            After(SPELT),
            Joined,
            JoinedAfter,
        ],
        b"a name has letters, digits and `_`",
    ),
    (
        &[
            This(ARITHMETIC),
            Wants(ASSIGN),
            Before(&[CLOSE_BRACKET]),
            First(&[WRITE]),
        ],
        b"write `read r[i] into $x; write r[i] = $x + e;`",
    ),
    (&[Is(PLUS), Wants(ASSIGN)], MORE),
    (&[Is(PLUS), Has(READ)], MORE),
    (&[Is(MINUS), Wants(ASSIGN)], LESSER),
    (&[Is(MINUS), Has(READ)], LESSER),
    (&[Is(STAR), Wants(ASSIGN)], DOUBLE),
    (&[Is(STAR), Has(READ)], DOUBLE),
    (&[Is(SLASH), Wants(ASSIGN)], HALF),
    (&[Is(SLASH), Has(READ)], HALF),
    (&[Is(PERCENT), Wants(ASSIGN)], REST),
    (&[Is(PLUS), Before(&[PLUS])], MORE),
    (
        &[Is(PLUS), Has(MINUS)],
        b"no `+` stands before a number: leave it out",
    ),
    (
        &[Is(STAR), Before(&[STAR])],
        b"there is no power: write `a * a`",
    ),
    (
        &[Is(MINUS), Wants(OPEN_BLOCK), After(&[GREATER])],
        b"what a task gives back is its `$ret`: `task t(x) { .. $ret = 3; }`",
    ),
    (
        &[Is(ASSIGN), Before(COMPARISONS), Joined],
        b"`==` and `!=` are all there is to compare for equality",
    ),
    (
        &[Is(ASSIGN), After(&[LESS, GREATER]), JoinedAfter],
        b"write `<=` or `>=`",
    ),
    (
        &[
            Is(ASSIGN),
            Has(EQUAL),
            First(&[Kind::Name, Kind::Reg, WRITE]),
        ],
        ONE_VARIABLE,
    ),
    (
        &[Is(ASSIGN), Has(EQUAL), First(&[FORK])],
        b"arguments have no names: they stand in the order of the parameters of the task",
    ),
    (&[Is(ASSIGN), Has(EQUAL)], b"`==` compares, and `=` sets"),
    (
        &[Is(ASSIGN), Has(COMMA), Has(SEMICOLON)],
        b"write `var i;` and, after all `var` lines, `i = 3;`",
    ),
    (&[Is(GREATER), Before(&[LESS])], b"write `!=`"),
    (
        &[This(COMPARISONS), Wants(ASSIGN)],
        b"`=` sets, and `==` compares",
    ),
    (
        &[This(COMPARISONS), Has(PLUS)],
        b"comparisons do not chain: write `a < b and b < c`",
    ),
    (
        &[Is(SEMICOLON), Before(&[CLOSE_BLOCK])],
        b"no `;` stands after a block",
    ),
    (
        &[Is(SEMICOLON), Before(&[SEMICOLON])],
        b"one `;` is enough: the second has to go",
    ),
    (
        &[Is(SEMICOLON), Has(OPEN_BLOCK)],
        b"no `;` stands before a block",
    ),
    (&[Is(SEMICOLON), Before(&[MINUS]), Second(&[MINUS])], LESSER),
    (
        &[Is(SEMICOLON), Before(&[PERCENT])],
        b"`a % b` is the rest of a division; rates are whole numbers in a smaller unit",
    ),
    (&[Is(COMMA), Wants(CLOSE_BRACKET)], ONE_INDEX),
    (
        &[Is(COMMA), Wants(ASSIGN), Before(&[Kind::Name, Kind::Reg])],
        ONE_VARIABLE,
    ),
    (&[Is(COMMA), Wants(ASSIGN)], WRITTEN),
    (
        &[Is(COMMA), Has(CLOSE_PAREN), First(&[PRINT])],
        b"no parentheses around several values: write `print e, g;`",
    ),
    (
        &[
            Is(COMMA),
            Before(&[NUMBER]),
            After(&[NUMBER]),
            Joined,
            JoinedAfter,
        ],
        DIGITS,
    ),
    (
        &[Is(COMMA), Has(SEMICOLON), InHead],
        b"a head declares one name: `lock a[4]; lock b[2];`",
    ),
    (
        &[Is(COMMA), Has(SEMICOLON), First(&[JOIN])],
        b"each thread has a `join` of its own: `join g; join h;`",
    ),
    (
        &[Is(COMMA), Has(SEMICOLON), First(&[FORK])],
        b"each thread has a `fork` of its own: `fork t(1); fork t(2);`",
    ),
    (
        &[Is(COMMA), Has(SEMICOLON), First(&[LOCK, UNLOCK])],
        b"each lock has a statement of its own: `lock l[0]; lock l[1];`",
    ),
    (
        &[Is(COMMA), Has(SEMICOLON), First(&[BARRIER])],
        b"each barrier has a statement of its own: `barrier a; barrier b;`",
    ),
    (
        &[Is(COMMA), Has(SEMICOLON), First(&[READ, WRITE])],
        b"each cell has a statement of its own: `read r[0] into $x; read r[1] into $y;`",
    ),
    (
        &[Is(COMMA), Has(SEMICOLON), First(&[Kind::Name, Kind::Reg])],
        ONE_VARIABLE,
    ),
];
