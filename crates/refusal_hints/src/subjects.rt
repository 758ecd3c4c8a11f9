// The token that a blame is about.

use crate::blocks::is_end;
use gp_base::Name;
use rule_blame::{Blame, Numbered, Role, Told, Use, push_uses};
use std::alloc::{AllocError, Global};
use task_ast::Program;
use task_parser::{Kind, Token};
use text_pieces::Piece::{Number, Word};
use text_pieces::push_pieces;
use text_places::bytes_of;

/// The token that is shown, by its number, if one is; and that of the name which a blame is about, where it stands in another
/// line.
#[derive(Clone, Copy)]
pub struct Subject {
    pub shown: Option<usize>,
    apart: Option<usize>,
}

impl Subject {
    /// A token, or none.
    pub fn at(shown: Option<usize>) -> Subject {
        Subject { shown, apart: None }
    }
}

// What a name is declared as: a head or a task, or a variable of a task; or it is the lock array that a record names.
#[derive(Clone, Copy, PartialEq, Eq)]
enum Space {
    Program,
    Task,
    Array,
}

// A name in a space. `again` asks for one that stands after another of its space and spelling.
#[derive(Clone, Copy)]
struct Wanted<'a> {
    space: Space,
    dollar: bool,
    name: &'a [u8],
    again: bool,
}

// What stands around a token: how many blocks are open, whether a list of parameters or of variables is, and the token before.
#[derive(Clone, Copy)]
struct Around {
    blocks: usize,
    listing: bool,
    before: Option<Kind>,
}

fn is_name(kind: Kind) -> bool {
    matches!(kind, Kind::Name | Kind::Reg)
}

impl Around {
    fn new() -> Around {
        Around {
            blocks: 0,
            listing: false,
            before: None,
        }
    }

    // One token more: `(` and `)`, `{` and `}`, `;` and `var` open and close.
    fn pass(&mut self, kind: Kind) {
        match kind {
            Kind::Mark(4) => self.blocks = self.blocks.saturating_add(1),
            Kind::Mark(5) => self.blocks = self.blocks.saturating_sub(1),
            Kind::Mark(2) => self.listing = self.blocks == 0,
            Kind::Word(8) => self.listing = true,
            Kind::Mark(3 | 7) => self.listing = false,
            _ => {}
        }
        self.before = Some(kind);
    }

    // Whether a `;`, `{` or `}` stands before.
    fn follows_end(&self) -> bool {
        match self.before {
            Some(before) => is_end(before),
            None => false,
        }
    }

    // Whether a statement begins with this token: `}`, `else` and `var` begin none.
    fn begins_statement(&self, kind: Kind) -> bool {
        self.blocks > 0 && self.follows_end() && !matches!(kind, Kind::Mark(5) | Kind::Word(11 | 8))
    }

    // Whether this token is a name outside of blocks and lists.
    fn is_outside(&self, kind: Kind) -> bool {
        self.blocks == 0 && !self.listing && kind == Kind::Name
    }

    // Whether this token is a name in the space. `lock`, `barrier`, `record`, `feed` and `task` declare, and `by` names an array.
    fn is_in(&self, space: Space, kind: Kind) -> bool {
        match space {
            Space::Program => {
                self.is_outside(kind) && matches!(self.before, Some(Kind::Word(0 | 2 | 3 | 6 | 7)))
            }
            Space::Task => self.listing && is_name(kind),
            Space::Array => self.is_outside(kind) && self.before == Some(Kind::Word(4)),
        }
    }

    // Whether this token is the name in its space.
    fn declares(&self, program: &[u8], token: &Token, wanted: Wanted<'_>) -> bool {
        self.is_in(wanted.space, token.kind) && spells(program, token, wanted)
    }
}

// Whether a token spells the name.
fn spells(program: &[u8], token: &Token, wanted: Wanted<'_>) -> bool {
    let bytes = bytes_of(program, token);
    wanted.dollar == bytes.starts_with(b"$") && *bare(bytes) == *wanted.name
}

// The bytes of a name without its `$`, if it has one.
fn bare(bytes: &[u8]) -> &[u8] {
    match bytes {
        [b'$', name @ ..] => name,
        _ => bytes,
    }
}

impl<'a> Wanted<'a> {
    // A name of a head or a task.
    fn of_program(name: &'a Name) -> Wanted<'a> {
        Wanted {
            space: Space::Program,
            dollar: false,
            name: name.as_slice(),
            again: false,
        }
    }

    // Whether the names before this token stand in another space: those of another task.
    fn begins_at(&self, kind: Kind) -> bool {
        self.space == Space::Task && kind == Kind::Word(7)
    }

    // Whether this is the name itself, where such a name was seen before or not.
    fn is_at(&self, token: &Token, line: u32, seen: bool) -> bool {
        token.line == line && (seen || !self.again)
    }
}

// The first token of the line that is the name in its space.
fn declared(program: &[u8], tokens: &[Token], line: u32, wanted: Wanted<'_>) -> Option<usize> {
    let mut around = Around::new();
    let mut seen = false;
    for (at, token) in tokens.iter().enumerate() {
        if wanted.begins_at(token.kind) {
            seen = false;
        }
        if around.declares(program, token, wanted) {
            if wanted.is_at(token, line, seen) {
                return Some(at);
            }
            seen = true;
        }
        around.pass(token.kind);
    }
    None
}

// The first token of the statement that so many stand before.
fn statement_start(tokens: &[Token], number: u32) -> Option<usize> {
    let mut around = Around::new();
    let mut passed: u32 = 0;
    for (at, token) in tokens.iter().enumerate() {
        if around.begins_statement(token.kind) {
            if passed == number {
                return Some(at);
            }
            passed = passed.saturating_add(1);
        }
        around.pass(token.kind);
    }
    None
}

// The token of a name of the statement that starts at this token, by how many names stand before it there.
fn name_token(tokens: &[Token], start: usize, number: usize) -> Option<usize> {
    let mut passed: usize = 0;
    for (at, token) in tokens.get(start..)?.iter().enumerate() {
        if is_end(token.kind) {
            return None;
        }
        if is_name(token.kind) {
            if passed == number {
                return Some(start.saturating_add(at));
            }
            passed = passed.saturating_add(1);
        }
    }
    None
}

// Whether a blame is about this name of its statement.
fn is_about(blame: &Blame<'_>, used: &Use<'_>) -> bool {
    match blame {
        Blame::Unknown { role, name, .. } => used.role == *role && same(used.name, name),
        Blame::Data { name } => { used.role == Role::Data && used.decides && same(used.name, name) }
        Blame::IndexSet { name, .. } => {
            used.role == Role::Control && !used.decides && same(used.name, name)
        }
        _ => true,
    }
}

fn same(one: &Name, other: &Name) -> bool {
    one.as_slice() == other.as_slice()
}

// The name of its statement that a blame is about, by how many stand before it: what a fork sets stands last.
fn use_number(
    alloc: Global,
    program: &Program,
    statement: Numbered<'_>,
    blame: &Blame<'_>,
) -> Result<Option<usize>, AllocError> {
    let mut uses = Vec::new(alloc);
    push_uses(&mut uses, program, statement.what)?;
    Ok(use_about(&uses, blame))
}

// The first of these names that a blame is about, or the last where the blame is about a name that is set.
fn use_about(uses: &[Use<'_>], blame: &Blame<'_>) -> Option<usize> {
    let is_last = matches!(blame, Blame::IndexSet { .. });
    let mut found = None;
    for (at, used) in uses.iter().enumerate() {
        if is_about(blame, used) {
            found = Some(at);
            if !is_last {
                break;
            }
        }
    }
    found
}

// Whether a blame is about a statement as a whole.
fn is_whole(blame: &Blame<'_>) -> bool {
    matches!(blame, Blame::OneBranch { .. } | Blame::OneTurn { .. })
}

// The declaration that a blame is about.
fn declaration<'a>(blame: &Blame<'a>) -> Option<Wanted<'a>> {
    match blame {
        Blame::NoArray { array } => Some(Wanted {
            space: Space::Array,
            dollar: false,
            name: array.as_slice(),
            again: false,
        }),
        Blame::Twice { name, .. } => Some(Wanted {
            space: Space::Program,
            dollar: false,
            name: name.as_slice(),
            again: true,
        }),
        Blame::VariableTwice { dollar, name, .. } => Some(Wanted {
            space: Space::Task,
            dollar: *dollar,
            name: name.as_slice(),
            again: true,
        }),
        Blame::Return => Some(Wanted {
            space: Space::Task,
            dollar: true,
            name: b"ret",
            again: false,
        }),
        Blame::MainTakes => Some(Wanted {
            space: Space::Program,
            dollar: false,
            name: b"main",
            again: false,
        }),
        Blame::NoSize { name } | Blame::TooMany { name, .. } => Some(Wanted::of_program(name)),
        Blame::KeptAtEnd { task, .. } => Some(Wanted::of_program(task)),
        Blame::Sizes { cells, .. } => Some(Wanted::of_program(cells)),
        _ => None,
    }
}

// The token of a statement that a blame is about: a name of it in the line, or its first.
fn token_of_statement(
    alloc: Global,
    program: &Program,
    tokens: &[Token],
    blame: &Blame<'_>,
    statement: Numbered<'_>,
    line: u32,
) -> Result<Subject, AllocError> {
    let Some(start) = statement_start(tokens, statement.number) else {
        return Ok(Subject::at(None));
    };
    if is_whole(blame) {
        return Ok(Subject::at(Some(start)));
    }
    match use_number(alloc, program, statement, blame)? {
        Some(number) => Ok(subject_in(tokens, start, number, line)),
        None => Ok(Subject::at(Some(start))),
    }
}

// A name of the statement that starts at this token, or its first token where the name stands in another line than this.
fn subject_in(tokens: &[Token], start: usize, number: usize, line: u32) -> Subject {
    let Some(at) = name_token(tokens, start, number) else {
        return Subject::at(Some(start));
    };
    match tokens.get(at) {
        Some(token) if token.line == line => Subject::at(Some(at)),
        _ => Subject {
            shown: Some(start),
            apart: Some(at),
        },
    }
}

/// Appends in which line the name stands that a blame is about, where it is not the one that is shown.
pub fn push_apart(
    text: &mut Vec<u8>,
    program: &[u8],
    tokens: &[Token],
    subject: Subject,
) -> Result<(), AllocError> {
    let Some(token) = tokens.get(subject.apart.unwrap_or(tokens.len())) else {
        return Ok(());
    };
    push_pieces(
        text,
        &[
            Word(b"hint: "),
            Word(bytes_of(program, token)),
            Word(b" stands in line "),
            Number(u64::from(token.line)),
            Word(b"\n"),
        ],
    )
}

/// The token that a blame is about in a line, where it is found. The error is that memory is out.
pub fn subject_token(
    alloc: Global,
    program: &Program,
    source: (&[u8], &[Token]),
    told: &Told<'_>,
    line: u32,
) -> Result<Subject, AllocError> {
    let (bytes, tokens) = source;
    match told.statement {
        Some(statement) => {
            token_of_statement(alloc, program, tokens, &told.blame, statement, line)
        }
        None => match declaration(&told.blame) {
            Some(wanted) => Ok(Subject::at(declared(bytes, tokens, line, wanted))),
            None => Ok(Subject::at(None)),
        },
    }
}
