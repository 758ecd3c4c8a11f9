// Tokens of texts, and faults of lexing.
use std::alloc::Global;
use std::process::Abort;
use std::test::Fail;
use task_parser::{Kind, LexFault, Token, lex};

// The kind of a token, from where to where it stands, and its line.
type Placed = (Kind, u32, u32, u32);

// Whether the tokens are these.
fn are(tokens: &[Token], want: &[Placed]) -> bool {
    for (token, (kind, from, to, line)) in tokens.iter().zip(want) {
        let is_told = token.kind == *kind && token.from == *from && token.to == *to;
        if !is_told || token.line != *line {
            return false;
        }
    }
    tokens.len() == want.len()
}

fn gives(rt: &impl Abort, alloc: Global, text: &[u8], want: &[Placed]) {
    match lex(alloc, text) {
        Ok(tokens) => {
            let tokens = tokens.as_slice();
            assert!(rt; are(tokens, want), "{tokens:?} in {text:?}");
        }
        Err(fault) => assert!(rt; false, "{fault:?} in {text:?}"),
    }
}

fn fault_of(alloc: Global, text: &[u8]) -> Option<LexFault> {
    match lex(alloc, text) {
        Ok(_) => None,
        Err(fault) => Some(fault),
    }
}

fn stops(rt: &impl Abort, alloc: Global, text: &[u8], want: LexFault) {
    assert_eq!(rt; fault_of(alloc, text), Some(want), "in {text:?}");
}

const WORDS: [&[u8]; 25] = [
    b"lock", b"unlock", b"barrier", b"record", b"by", b"from", b"feed", b"task", b"var", b"while",
    b"if", b"else", b"fork", b"into", b"join", b"read", b"write", b"print", b"when", b"and", b"or",
    b"not", b"self", b"rows", b"settle",
];

const MARKS: [&[u8]; 20] = [
    b"[", b"]", b"(", b")", b"{", b"}", b",", b";", b"=", b"==", b"!=", b"<", b"<=", b">", b">=",
    b"+", b"-", b"*", b"/", b"%",
];

#[test]
fn words_and_marks_in_order(rt: HostRuntime) {
    for (number, word) in WORDS.iter().enumerate() {
        let kind = Kind::Word(number as u8);
        gives(&rt, rt.alloc(), word, &[(kind, 0, word.len() as u32, 1)]);
    }
    for (number, mark) in MARKS.iter().enumerate() {
        let kind = Kind::Mark(number as u8);
        gives(&rt, rt.alloc(), mark, &[(kind, 0, mark.len() as u32, 1)]);
    }
}

const TEXTS: [(&[u8], &[Placed]); 12] = [
    (b"", &[]),
    (b" \t\r\n", &[]),
    (b"# \xff\"!$", &[]),
    (b"a#b\nc", &[(Kind::Name, 0, 1, 1), (Kind::Name, 4, 5, 2)]),
    (
        b"9223372036854775807",
        &[(Kind::Num(9223372036854775807), 0, 19, 1)],
    ),
    (b"00000000000000000000042", &[(Kind::Num(42), 0, 23, 1)]),
    (b"12ab", &[(Kind::Num(12), 0, 2, 1), (Kind::Name, 2, 4, 1)]),
    (
        b"_a9Z while_ While",
        &[
            (Kind::Name, 0, 4, 1),
            (Kind::Name, 5, 11, 1),
            (Kind::Name, 12, 17, 1),
        ],
    ),
    (
        b"$x$_9 $task",
        &[
            (Kind::Reg, 0, 2, 1),
            (Kind::Reg, 2, 5, 1),
            (Kind::Reg, 6, 11, 1),
        ],
    ),
    (
        b"\"\"\"a #!$~\"",
        &[(Kind::Quoted, 0, 2, 1), (Kind::Quoted, 2, 10, 1)],
    ),
    (
        b"<=<==!====-1",
        &[
            (Kind::Mark(12), 0, 2, 1),
            (Kind::Mark(12), 2, 4, 1),
            (Kind::Mark(8), 4, 5, 1),
            (Kind::Mark(10), 5, 7, 1),
            (Kind::Mark(9), 7, 9, 1),
            (Kind::Mark(8), 9, 10, 1),
            (Kind::Mark(16), 10, 11, 1),
            (Kind::Num(1), 11, 12, 1),
        ],
    ),
    (
        b"< =\n\n> =",
        &[
            (Kind::Mark(11), 0, 1, 1),
            (Kind::Mark(8), 2, 3, 1),
            (Kind::Mark(13), 5, 6, 3),
            (Kind::Mark(8), 7, 8, 3),
        ],
    ),
];

#[test]
fn tokens_of_texts(rt: HostRuntime) {
    for (text, want) in &TEXTS {
        gives(&rt, rt.alloc(), text, want);
    }
}

const FAULTS: [(&[u8], LexFault); 15] = [
    (
        b"task main() { print 9223372036854775808; }",
        LexFault::NumberTooBig(20),
    ),
    (b"task main() { print 1 ! 2; }", LexFault::BadByte(23)),
    (b"x !", LexFault::BadByte(3)),
    (b"x $", LexFault::BadByte(3)),
    (b"$9", LexFault::BadByte(1)),
    (b"$ x", LexFault::BadByte(1)),
    (b"\"abc", LexFault::BadByte(4)),
    (b"\"", LexFault::BadByte(1)),
    (b"\"ab\x7f\"", LexFault::BadByte(3)),
    (b"\"a\x1f\"", LexFault::BadByte(2)),
    (b"\"a\nb\"", LexFault::BadByte(2)),
    (b"a\x80", LexFault::BadByte(1)),
    (b"# \x80\n\x80", LexFault::BadByte(4)),
    (b"a.b 9223372036854775808", LexFault::BadByte(1)),
    (b"99999999999999999999 .", LexFault::NumberTooBig(0)),
];

#[test]
fn first_faults_of_texts(rt: HostRuntime) {
    for (text, want) in &FAULTS {
        stops(&rt, rt.alloc(), text, *want);
    }
}

#[test]
fn longest_texts(rt: HostRuntime) -> Result<(), Fail> {
    let alloc = rt.alloc();
    gives(&rt, alloc, &vec![in alloc; b' '; 1048576]?, &[]);
    stops(
        &rt,
        alloc,
        &vec![in alloc; b'!'; 1048577]?,
        LexFault::TooLong,
    );
    Ok(())
}
