// Whole texts, read by `lex` and `parse`.
use std::alloc::{AllocError, Global};
use std::process::Abort;
use std::test::Fail;
use task_parser::{LexFault, ParseFault, lex, parse};

// The fault of parsing a text that is lexed, or none where it is a program.
fn fault_of(alloc: Global, text: &[u8]) -> Result<Option<ParseFault>, LexFault> {
    let tokens = lex(alloc, text)?;
    let program = parse(alloc, text, &tokens);
    drop(tokens);
    match program {
        Ok(program) => {
            drop(program);
            Ok(None)
        }
        Err(fault) => Ok(Some(fault)),
    }
}

// The text has this fault, or is a program where there is none.
fn gives(rt: &impl Abort, alloc: Global, text: &[u8], want: Option<ParseFault>) {
    assert_eq!(rt; fault_of(alloc, text), Ok(want), "in {text:?}");
}

const PRODUCTIONS: [&[u8]; 21] = [
    b"task main() {}",
    b"lock a[4]; task main() {}",
    b"barrier b(2); task main() {}",
    b"lock a[4]; record r[4] by a; task main() {}",
    b"record r[4] by a from \"in.csv\"; task main() {}",
    b"feed f[2] from \"\"; task main() {}",
    b"task main(x, $y, z) {} task two() {}",
    b"task main() { var x; var $y, z; x = 1; }",
    b"task main() { while x { while y {} } }",
    b"task main() { if x {} if y { x = 0; } else { y = x; } }",
    b"task main() { lock a[0]; unlock a[i]; barrier b; }",
    b"task main() { fork t(); fork t(1 + 2, $x) into k; }",
    b"task main() { join k; join k + 1 into $x; }",
    b"task main() { $x = 1; $while = $if; }",
    b"task main() { read r[0] into $x; write r[i] = $x; }",
    b"task main() { print 1; print 1, x, $x; }",
    b"task main() { when $x { print 1; } else { when 1 {} $x = 2; } }",
    b"task main() { print 1 or 2 and 3 == 4 + 5 * 6 or 7; }",
    b"task main() { print 1 == 2, 1 != 2, 1 < 2, 1 <= 2, 1 > 2, 1 >= 2; }",
    b"task main() { print 1 + 2 - 3 * 4 / 5 % 6; }",
    b"task main() { print - not - 1, self, rows(f), f[1, f[2, 3]], ((1)); }",
];

#[test]
fn each_production(rt: HostRuntime) {
    for text in &PRODUCTIONS {
        gives(&rt, rt.alloc(), text, None);
    }
}

// Texts, and the place of the first token that can't stand there.
const UNEXPECTED: [(&[u8], u32); 67] = [
    (b"", 0),
    (b"main() {}", 0),
    (b"{}", 0),
    (b"settle", 0),
    (b"task () {}", 5),
    (b"task main {}", 10),
    (b"task main(1) {}", 10),
    (b"task main(x y) {}", 12),
    (b"task main(x,) {}", 12),
    (b"task main() print 1;", 12),
    (b"task main() {", 13),
    (b"task main() {} lock a[1];", 15),
    (b"task main() { } }", 16),
    (b"lock a[1];", 10),
    (b"lock [1];", 5),
    (b"lock a;", 6),
    (b"lock a[x];", 7),
    (b"lock a[1,", 8),
    (b"lock a[1] task", 10),
    (b"barrier b[2];", 9),
    (b"barrier b(x);", 10),
    (b"record r[1] from \"x\";", 12),
    (b"record r[1] by 1;", 15),
    (b"record r[1] by a from x;", 22),
    (b"feed f[1];", 9),
    (b"feed f[1] from ;", 15),
    (b"task main() { x = 1; var y; }", 21),
    (b"task main() { var ; }", 18),
    (b"task main() { var x }", 20),
    (b"task main() { x + 1; }", 16),
    (b"task main() { x = ; }", 18),
    (b"task main() { x = 1 }", 20),
    (b"task main() { while { } }", 20),
    (b"task main() { while x x = 1; }", 22),
    (b"task main() { if x { } else x = 1; }", 28),
    (b"task main() { while x { } else { } }", 26),
    (b"task main() { lock a[$x]; }", 21),
    (b"task main() { unlock a ; }", 23),
    (b"task main() { fork (1); }", 19),
    (b"task main() { fork t(1 2); }", 23),
    (b"task main() { fork t(,); }", 21),
    (b"task main() { fork t(1,); }", 23),
    (b"task main() { fork t() into $x; }", 28),
    (b"task main() { join ; }", 19),
    (b"task main() { join k into x; }", 26),
    (b"task main() { barrier (b); }", 22),
    (b"task main() { read r[0] = $x; }", 24),
    (b"task main() { read r[0] into x; }", 29),
    (b"task main() { write r[0] into $x; }", 25),
    (b"task main() { print ; }", 20),
    (b"task main() { print 1,; }", 22),
    (b"task main() { when 1 { x = 1; } }", 23),
    (b"task main() { when 1 { } else { while x { } } }", 32),
    (b"task main() { print 1 < 2 < 3; }", 26),
    (b"task main() { print 1 == 2 != 3; }", 27),
    (b"task main() { print 1 +; }", 23),
    (b"task main() { print * 2; }", 20),
    (b"task main() { print (1; }", 22),
    (b"task main() { print (); }", 21),
    (b"task main() { print f[1]; }", 23),
    (b"task main() { print f[1, 2, 3]; }", 26),
    (b"task main() { print rows; }", 24),
    (b"task main() { print rows(1); }", 25),
    (b"task main() { print not; }", 23),
    (b"task main() { print self self; }", 25),
    (b"task main() { print x y; }", 22),
    (b"task main() { print \"a\"; }", 20),
];

#[test]
fn unexpected_tokens(rt: HostRuntime) {
    for (text, at) in &UNEXPECTED {
        gives(&rt, rt.alloc(), text, Some(ParseFault::Unexpected(*at)));
    }
}

// Puts the part after the text so many times.
fn add(text: &mut Vec<u8>, part: &[u8], times: usize) -> Result<(), AllocError> {
    for _ in 0..times {
        text.extend_from_slice(part)?;
    }
    Ok(())
}

// The front, so many times the part, the middle, as many times the other part, the back. A bar stands between them.
fn nested(alloc: Global, times: usize, parts: &str) -> Result<Vec<u8>, AllocError> {
    let mut text = Vec::new(alloc);
    for (place, part) in parts.split('|').enumerate() {
        let times = if place % 2 == 1 { times } else { 1 };
        add(&mut text, part.as_bytes(), times)?;
    }
    Ok(text)
}

// The front, what opens, what is inside, what closes, the back; the place of the 65th that is open.
const NESTS: [(&str, u32); 9] = [
    ("task main() { print |(|1|)|; }", 84),
    ("task main() { print |-|1||; }", 84),
    ("task main() { print |not |1||; }", 276),
    ("task main() { print |f[|1|, 1]|; }", 149),
    ("task main() { print |f[1, |1|]|; }", 341),
    ("task main() { |if 1 { ||}|}", 467),
    ("task main() { |while 1 { ||}|}", 662),
    ("task main() { |when 1 { ||}|}", 597),
    ("task main() { |if 1 {} else { ||}|}", 979),
];

// The nest of so many has this fault, or is a program where there is none.
fn nests(
    rt: &impl Abort,
    alloc: Global,
    times: usize,
    parts: &str,
    want: Option<ParseFault>,
) -> Result<(), AllocError> {
    let text = nested(alloc, times, parts)?;
    gives(rt, alloc, &text, want);
    Ok(())
}

#[test]
fn nesting(rt: HostRuntime) -> Result<(), Fail> {
    for (parts, at) in &NESTS {
        nests(&rt, rt.alloc(), 64, parts, None)?;
        nests(&rt, rt.alloc(), 65, parts, Some(ParseFault::TooDeep(*at)))?;
    }
    Ok(())
}

// How often the parts stand around the middle, the text as above, and its fault.
type Mixed = (usize, &'static str, Option<ParseFault>);

const MIXED: [Mixed; 5] = [
    // After 63 blocks one more may be open, and no more.
    (63, "task main() { |if 1 { |x = (1) + -1;|}|}", None),
    (
        63,
        "task main() { |if 1 { |x = (-1);|}|}",
        Some(ParseFault::TooDeep(460)),
    ),
    // Braces of tasks, parentheses of `fork` and `rows` don't count.
    (64, "task main() { |if 1 { |fork t(rows(f));|}|}", None),
    // A condition at the deepest place may still be read, and its block not.
    (
        64,
        "task main() { |if 1 { |while 1 { |}|}}",
        Some(ParseFault::TooDeep(470)),
    ),
    // A token that can't stand there is unexpected, however deep.
    (
        64,
        "task main() { print |(|1 (||",
        Some(ParseFault::Unexpected(86)),
    ),
];

#[test]
fn nesting_of_several_kinds(rt: HostRuntime) -> Result<(), Fail> {
    for (times, parts, fault) in &MIXED {
        nests(&rt, rt.alloc(), *times, parts, *fault)?;
    }
    Ok(())
}

#[test]
fn worked_rows(rt: HostRuntime) {
    let alloc = rt.alloc();
    let bad = fault_of(alloc, b"task main() { print 1 ! 2; }");
    assert!(rt; bad == Err(LexFault::BadByte(23)));
    let big = fault_of(alloc, b"task main() { print 9223372036854775808; }");
    assert!(rt; big == Err(LexFault::NumberTooBig(20)));
    gives(
        &rt,
        alloc,
        b"task main() {",
        Some(ParseFault::Unexpected(13)),
    );
}

// The text, with spaces after it up to 1,048,576 bytes.
fn padded(text: Vec<u8>) -> Result<Vec<u8>, AllocError> {
    let mut padded = text;
    for _ in padded.len()..1_048_576 {
        padded.push(b' ')?;
    }
    Ok(padded)
}

// The text of so many parts, with spaces after it up to 1,048,576 bytes, is a program.
fn fits_padded(
    rt: &impl Abort,
    alloc: Global,
    times: usize,
    parts: &str,
) -> Result<(), AllocError> {
    let text = padded(nested(alloc, times, parts)?)?;
    gives(rt, alloc, &text, None);
    Ok(())
}

#[test]
fn longest_chain(rt: HostRuntime) -> Result<(), Fail> {
    Ok(fits_padded(&rt, rt.alloc(), 524_277, "task main(){print 1|+1|||;}")?)
}

// An assignment of a number in 64 pairs of parentheses, with bars around it.
fn deepest(alloc: Global) -> Result<String, AllocError> {
    let open = "(".repeat(alloc, 64)?;
    let close = ")".repeat(alloc, 64)?;
    format!(in alloc; "task main(){{|x={open}1{close};|||}}")
}

#[test]
fn longest_list_of_nests(rt: HostRuntime) -> Result<(), Fail> {
    let parts = deepest(rt.alloc())?;
    Ok(fits_padded(&rt, rt.alloc(), 7_943, &parts)?)
}

#[test]
fn longest_list_of_tasks(rt: HostRuntime) -> Result<(), Fail> {
    Ok(fits_padded(&rt, rt.alloc(), 104_857, "|task t(){}|||")?)
}
