// Programs from tokens.
ghost use Rattle.std.specs.Prelude.{◌≡◌, ◌<◌, ◌^◌, [], length, IfOk, IfErr};
ghost use Rattle.task_ast.specs.meaning.Tree.{Program as PlainProgram};
ghost use Rattle.task_ast.specs.View.{plain_program};
ghost use Rattle.task_parser.specs.inner.Reading.{begins};
ghost use Rattle.task_parser.specs.inner.ProgramReaders.{read_program};
ghost use Rattle.task_parser.specs.inner.Gives.{Gives};
ghost use Rattle.task_parser.specs.meaning.Promise.{StandFor};
ghost use Rattle.task_parser.specs.meaning.Answer.{offset_of, IsFirstFault};
ghost use Rattle.task_parser.specs.Answer.{Answers};
ghost use Rattle.task_parser.specs.inner.WholeText.{fault_at, read_all};

use crate::classes::*;
use crate::fault::ParseFault;
use crate::halt::{Halt, Read};
use crate::heads::heads;
use crate::source::Source;
use crate::tasks::tasks;
use crate::token::Token;
use gp_base::Seq;
use gp_base::limits::DEEPEST_NESTING;
use std::alloc::Global;
use task_ast::Program;

// Heads and tasks.
#[tactic(auto, unfolding(crate::specs::inner::ProgramReaders::read_program))]
fn program<'a>(source: Source<'_>, room: u32, tokens: &'a [Token]) -> Read<'a, Program>
    ensures { Gives (λ x. (plain_program x.0, x.1.now)) result (read_program source.entry.text.now room tokens.now) }
{
    let (heads, rest) = heads(source, tokens)?;
    let (tasks, rest) = tasks(source, room, rest)?;
    Ok((Program { heads, tasks }, rest))
}

// All of the tokens.
#[tactic(auto, unfolding(crate::specs::inner::WholeText::read_all))]
fn whole<'a>(source: Source<'_>, tokens: &'a [Token]) -> Result<Program, Halt<'a>>
    ensures { Gives plain_program result (read_all source.entry.text.now tokens.now) }
{
    let (program, rest) = program(source, DEEPEST_NESTING, tokens)?;
    if !rest.is_empty() {
        return Err(Halt::Unexpected(rest));
    }
    Ok(program)
}

// Where the rest of the tokens begins in the text.
fn place_of(text: &[u8], rest: &[Token]) -> u32
    requires { length text.now < 2 ^ 32 }
    ensures { result ≡ offset_of text.now rest.now }
{
    match rest {
        [] => text.len() as u32,
        [token, ..] => token.from,
    }
}

// Why reading halted, by its place.
fn fault_of(text: &[u8], halt: Halt<'_>) -> ParseFault
    requires { length text.now < 2 ^ 32 }
    ensures { result ≡ fault_at text.now halt.entry }
{
    match halt {
        Halt::Memory => ParseFault::OutOfMemory,
        Halt::Unexpected(rest) => ParseFault::Unexpected(place_of(text, rest)),
        Halt::TooDeep(rest) => ParseFault::TooDeep(place_of(text, rest)),
    }
}

/// The program that the tokens of the text stand for, in the grammar of batch programs.
///
/// Names and file names are the bytes that their tokens cover, without the `$` of a data variable and the quotes of a
/// file. At most [`DEEPEST_NESTING`] blocks, parentheses and brackets of expressions, and unary operators may be open
/// at a place.
///
/// # Errors
///
/// The first fault in text order, by the place of its token's first byte:
/// - `Unexpected`: no program has this token after the earlier ones, of whatever nesting; at the length of the text
///   where the tokens end too soon.
/// - `TooDeep`: a program may have this token here, but it would be the 65th that is open.
/// - `OutOfMemory`: there is no memory for the program.
pub fn parse(alloc: Global, text: &[u8], tokens: &Seq<Token>) -> Result<Program, ParseFault>
    requires { length text.now < 2 ^ 32 }
    // What is answered is what the tokens stand for.
    ensures found { IfOk result (λ p. StandFor text.now tokens.now (plain_program p)) }
    // What the tokens stand for is answered, unless memory runs out.
    ensures only { (p : PlainProgram) → StandFor text.now tokens.now p → Answers result p }
    // A fault is the first one, at its place.
    ensures fault { IfErr result (λ f. IsFirstFault text.now tokens.now f) }
{
    match whole(Source { alloc, text }, tokens.as_slice()) {
        Ok(program) => Ok(program),
        Err(halt) => Err(fault_of(text, halt)),
    }
}
