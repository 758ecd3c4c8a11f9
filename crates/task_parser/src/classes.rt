// The numbers of the kinds of tokens, by which the parser goes: each reserved word and each mark has its own.

pub const NUM: u32 = 0;

pub const NAME: u32 = 1;

pub const REG: u32 = 2;

pub const QUOTED: u32 = 3;

pub const LOCK: u32 = 4;

pub const UNLOCK: u32 = 5;

pub const BARRIER: u32 = 6;

pub const RECORD: u32 = 7;

pub const BY: u32 = 8;

pub const FROM: u32 = 9;

pub const FEED: u32 = 10;

pub const TASK: u32 = 11;

pub const VAR: u32 = 12;

pub const WHILE: u32 = 13;

pub const IF: u32 = 14;

pub const ELSE: u32 = 15;

pub const FORK: u32 = 16;

pub const INTO: u32 = 17;

pub const JOIN: u32 = 18;

pub const READ: u32 = 19;

pub const WRITE: u32 = 20;

pub const PRINT: u32 = 21;

pub const WHEN: u32 = 22;

pub const AND: u32 = 23;

pub const OR: u32 = 24;

pub const NOT: u32 = 25;

pub const SELF: u32 = 26;

pub const ROWS: u32 = 27;

pub const SETTLE: u32 = 28;

pub const OPEN_BRACKET: u32 = 300;

pub const CLOSE_BRACKET: u32 = 301;

pub const OPEN_PAREN: u32 = 302;

pub const CLOSE_PAREN: u32 = 303;

pub const OPEN_BRACE: u32 = 304;

pub const CLOSE_BRACE: u32 = 305;

pub const COMMA: u32 = 306;

pub const SEMICOLON: u32 = 307;

pub const ASSIGN: u32 = 308;

pub const EQ: u32 = 309;

pub const NE: u32 = 310;

pub const LT: u32 = 311;

pub const LE: u32 = 312;

pub const GT: u32 = 313;

pub const GE: u32 = 314;

pub const ADD: u32 = 315;

pub const SUB: u32 = 316;

pub const MUL: u32 = 317;

pub const DIV: u32 = 318;

pub const REM: u32 = 319;
