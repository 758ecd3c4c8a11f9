// Why a program breaks a rule of the check.
ghost use Rattle.std.specs.Prelude.{◌≡◌, ◌<◌, ◌⊎◌, ◌^◌, length, IfSome, OnOk};
ghost use Rattle.text_places.specs.Tokens.{BeginsAt};
ghost use Rattle.refusal_texts.specs.Refusals.{kind_number, IsCheckRefusal};

use crate::front::{Rule, push_refusal};
use gp_base::{Name, Seq};
use refusal_hints::{Subject, push_apart, push_check_hints, push_message, subject_token};
use rule_blame::{Blame, Told, blame};
use std::alloc::{AllocError, Global};
use task_ast::{CheckKind, Program, What};
use task_parser::Token;
use text_places::first_place;

fn kind_number(kind: CheckKind) -> u64
    ensures { result ≡ kind_number kind }
{
    match kind {
        CheckKind::UnknownName => 1,
        CheckKind::DoubleName => 2,
        CheckKind::WrongCount => 3,
        CheckKind::DataInControl => 4,
        CheckKind::NotHeld => 5,
        CheckKind::HeldTwice => 6,
        CheckKind::HeldAtEnd => 7,
        CheckKind::BranchesDiffer => 8,
        CheckKind::IndexChangedWhileHeld => 9,
        CheckKind::SizesDiffer => 10,
        CheckKind::TooMany => 11,
    }
}

// What a rule says.
fn says(kind: CheckKind) -> &'static [u8] {
    match kind {
        CheckKind::UnknownName => b"a name has to be declared as what its place needs",
        CheckKind::DoubleName => b"a name is declared once in its space",
        CheckKind::WrongCount =>
            b"no size is 0, main has no parameters, and a fork has as many arguments as its task has parameters",
        CheckKind::DataInControl => b"data must not decide about control, but by a settle",
        CheckKind::NotHeld => b"a record is touched, and a lock given back, while the lock is held",
        CheckKind::HeldTwice =>
            b"a lock that is held is not taken again: the thread would wait for itself",
        CheckKind::HeldAtEnd =>
            b"no lock is held at the end of a task: nobody could ever take it again",
        CheckKind::BranchesDiffer =>
            b"both blocks of an if end with the same locks, and that of a while with those that it began with",
        CheckKind::IndexChangedWhileHeld =>
            b"the index of a held lock is not set: it would name another lock",
        CheckKind::SizesDiffer => b"a record has the size of its lock array",
        CheckKind::TooMany => b"there are limits on cells, fields, threads and variables",
    }
}

// Whether a program has no task `main`: that is shown at the text's first byte.
fn is_no_main(told: &Option<Told<'_>>) -> bool {
    match told {
        Some(told) => matches!(told.blame, Blame::NoMain),
        None => false,
    }
}

// Where a token stands, if it is one of the line.
fn place_in(tokens: &[Token], line: u32, number: Option<usize>) -> Option<u32>
    ensures { IfSome result (BeginsAt tokens.now line) }
{
    let token = tokens.get(number?)?;
    if token.line == line {
        Some(token.from)
    } else {
        None
    }
}

// Where a blame is shown: at this token, or at the line's first where that isn't one of it.
fn shown_at(tokens: &[Token], line: u32, subject: Option<usize>, told: &Option<Told<'_>>) -> u32
    ensures { BeginsAt tokens.now line result ⊎ (result ≡ 0) }
{
    if is_no_main(told) {
        return 0;
    }
    if let Some(at) = place_in(tokens, line, subject) {
        return at;
    }
    match first_place(tokens, line) {
        Some(at) => at,
        None => 0,
    }
}

// Whether the statement that is told of is an `if` with one block alone.
fn has_one_block(told: &Told<'_>) -> bool {
    match told.statement {
        Some(statement) => match statement.what {
            What::If(_, _, second) => second.is_empty(),
            _ => false,
        },
        None => false,
    }
}

// Appends the message of a blame, or what can be said without one.
fn push_told_message(
    text: &mut Vec<u8>,
    program: &Program,
    told: &Option<Told<'_>>,
) -> Result<(), AllocError> {
    match told {
        Some(told) => push_message(text, program, &told.blame, has_one_block(told)),
        None => text.extend_from_slice(b"a rule of the check is broken in this line"),
    }
}

// The token that is told of, where it is found.
fn subject_of(
    alloc: Global,
    source: (&[u8], &Seq<Token>),
    program: &Program,
    told: &Option<Told<'_>>,
    line: u32,
) -> Result<Subject, AllocError> {
    let (bytes, tokens) = source;
    match told {
        Some(told) => subject_token(alloc, program, (bytes, tokens.as_slice()), told, line),
        None => Ok(Subject::at(None)),
    }
}

// Appends the hints, and before them where the token stands that is told of, if it is in another line.
fn push_hints(
    text: &mut Vec<u8>,
    source: (&[u8], &Seq<Token>),
    program: &Program,
    kind: CheckKind,
    told: &Option<Told<'_>>,
    subject: Subject,
) -> Result<(), AllocError> {
    let (bytes, tokens) = source;
    push_apart(text, bytes, tokens.as_slice(), subject)?;
    match told {
        Some(told) => push_check_hints(text, program, kind, told),
        None => Ok(()),
    }
}

/// Appends why a program breaks a rule of the check in a line: its name, the place, what is said of that line, the line
/// with a mark, the rule, and hints. The program is that of the text and its tokens. The only error is out of memory.
pub fn push_check_refusal(
    alloc: Global,
    text: &mut Vec<u8>,
    name: &Name,
    source: (&[u8], &Seq<Token>),
    program: &Program,
    kind: CheckKind,
    line: u32,
) -> Result<(), AllocError>
    requires { length source.0.now < 2 ^ 31 }
    ensures { OnOk result (IsCheckRefusal name.now source.entry.0.now source.entry.1.now kind line text.old.items text.new.items) }
{
    let (bytes, tokens) = source;
    let told = blame(alloc, program, kind, line);
    let mut message = Vec::new(alloc);
    push_told_message(&mut message, program, &told)?;
    let subject = subject_of(alloc, source, program, &told, line)?;
    let mut hints = Vec::new(alloc);
    push_hints(&mut hints, source, program, kind, &told, subject)?;
    let at = shown_at(tokens.as_slice(), line, subject.shown, &told);
    let rule = Rule {
        kind: b"check",
        number: kind_number(kind),
        says: says(kind),
        unit: b"line",
        at: u64::from(line),
    };
    push_refusal(text, name, bytes, at as usize, &message, rule, &hints)?;
    Ok(())
}
