// The lines on the error stream. One is told of a program, with whose name it begins, and is else a text without that.
ghost use Rattle.std.specs.Prelude.{◌≡◌, ◌++◌, codes, IfOk, OnOk, OnErr};
ghost use Rattle.std.specs.Io.KnownBytes.{Appends};
ghost use Rattle.gp_base.specs.meaning.Sinks.{AppendsPrefix, HasCause};
ghost use Rattle.call_cases.specs.meaning.Lines.{tool_name, tool_line, usage_line, fault_line, input_line};
ghost use Rattle.call_cases.specs.meaning.Answers.{change_of};
ghost use Rattle.call_cases.specs.Answers.{LineEnds};

use gp_base::{Name, Sink, SinkFault, put_all};
use itoa::Buffer;
use std::alloc::{AllocError, Global};

/// A program whose lines these are.
#[derive(Clone, Copy)]
pub enum Tool {
    Gprs,
    GprsView,
}

impl Tool {
    // The name of the program, as its lines begin.
    fn name(self) -> &'static [u8]
        ensures { result.now ≡ tool_name self }
    {
        match self {
            Tool::Gprs => b"gprs: ",
            Tool::GprsView => b"gprs_view: ",
        }
    }

    /// The line for words that are those of no command.
    pub fn usage(self) -> &'static [u8]
        ensures { result.now ≡ usage_line self }
    {
        match self {
            Tool::Gprs => b"usage: run | one | check | soak\n",
            Tool::GprsView => b"usage: order | why | timeline | explain\n",
        }
    }
}

/// A program's text that is too long.
pub const TOO_LONG: &[u8] = b"lex 3\n";

/// Memory ran out.
pub const OUT_OF_MEMORY: &[u8] = b"out of memory\n";

/// A write that failed.
pub const WRITE_FAULT: &[u8] = b"write fault\n";

/// The line of a fault by its kind, at a place of the text that a stage of reading comes to: the number of a `byte`
/// or of a `line`.
pub fn fault_line(
    alloc: Global,
    stage: &str,
    kind: u8,
    place: &str,
    at: u32,
) -> Result<Vec<u8>, AllocError>
    ensures { IfOk result (λ line. line.items ≡ fault_line stage.now kind place.now at) }
{
    let mut line = Vec::from_slice(alloc, stage.as_bytes())?;
    line.extend_from_slice(b" ")?;
    line.extend_from_slice(Buffer::new().format(kind).as_bytes())?;
    line.extend_from_slice(b" at ")?;
    line.extend_from_slice(place.as_bytes())?;
    line.extend_from_slice(b" ")?;
    line.extend_from_slice(Buffer::new().format(at).as_bytes())?;
    line.extend_from_slice(b"\n")?;
    Ok(line)
}

/// The line of a file that is refused by a rule at a row.
pub fn input_line(alloc: Global, name: &Name, kind: u8, row: u32) -> Result<Vec<u8>, AllocError>
    ensures { IfOk result (λ line. line.items ≡ input_line name.now kind row) }
{
    let mut line = Vec::from_slice(alloc, b"input ")?;
    line.extend_from_slice(name.as_slice())?;
    line.extend_from_slice(b" kind ")?;
    line.extend_from_slice(Buffer::new().format(kind).as_bytes())?;
    line.extend_from_slice(b" row ")?;
    line.extend_from_slice(Buffer::new().format(row).as_bytes())?;
    line.extend_from_slice(b"\n")?;
    Ok(line)
}

// Writes two pieces one after the other.
fn put_both<E: Sink>(to: &mut E, first: &[u8], second: &[u8]) -> Result<(), SinkFault>
    ensures all { OnOk result (Appends (E.written to.old) (E.written to.new) (first.now ++ second.now)) }
    ensures prefix { OnErr result (AppendsPrefix (E.written to.old) (E.written to.new) (first.now ++ second.now)) }
    ensures cause { HasCause (E.faults to.old) (E.faults to.new) result }
{
    put_all(to, first)?;
    put_all(to, second)
}

// Writes three pieces one after another.
fn put_three<E: Sink>(
    to: &mut E,
    first: &[u8],
    second: &[u8],
    third: &[u8],
) -> Result<(), SinkFault>
    ensures all { OnOk result (Appends (E.written to.old) (E.written to.new) (first.now ++ (second.now ++ third.now))) }
    ensures prefix { OnErr result (AppendsPrefix (E.written to.old) (E.written to.new) (first.now ++ (second.now ++ third.now))) }
    ensures cause { HasCause (E.faults to.old) (E.faults to.new) result }
{
    put_all(to, first)?;
    put_both(to, second, third)
}

// Writes a line of this program.
fn put_line<E: Sink>(to: &mut E, tool: Tool, line: &[u8]) -> Result<(), SinkFault>
    ensures all { OnOk result (Appends (E.written to.old) (E.written to.new) (tool_line tool line.now)) }
    ensures prefix { OnErr result (AppendsPrefix (E.written to.old) (E.written to.new) (tool_line tool line.now)) }
    ensures cause { HasCause (E.faults to.old) (E.faults to.new) result }
{
    put_both(to, tool.name(), line)
}

// Writes a line of this program that tells this of something.
fn put_about<E: Sink>(to: &mut E, tool: Tool, told: &[u8], what: &[u8]) -> Result<(), SinkFault>
    ensures all { OnOk result (Appends (E.written to.old) (E.written to.new) (tool_line tool (told.now ++ (what.now ++ codes "\n")))) }
    ensures prefix { OnErr result (AppendsPrefix (E.written to.old) (E.written to.new) (tool_line tool (told.now ++ (what.now ++ codes "\n")))) }
    ensures cause { HasCause (E.faults to.old) (E.faults to.new) result }
{
    put_all(to, tool.name())?;
    put_three(to, told, what, b"\n")
}

/// Writes a text, and answers the status that is due. It is 8 where the write fails, and 1 where memory runs out.
pub fn end_with<E: Sink>(err: &mut E, line: &[u8], due: u8) -> u8
    ensures { LineEnds due line.now (change_of E.written E.faults err.old err.new) result }
{
    match put_all(err, line) {
        Ok(()) => due,
        Err(SinkFault::Failed) => 8,
        Err(SinkFault::OutOfMemory) => 1,
    }
}

/// Writes a line of this program, and answers as `end_with` does.
pub fn tell_line<E: Sink>(tool: Tool, err: &mut E, line: &[u8], due: u8) -> u8
    ensures { LineEnds due (tool_line tool line.now) (change_of E.written E.faults err.old err.new) result }
{
    match put_line(err, tool, line) {
        Ok(()) => due,
        Err(SinkFault::Failed) => 8,
        Err(SinkFault::OutOfMemory) => 1,
    }
}

/// Writes a line of this program that tells this of something, and answers as `end_with` does.
pub fn tell_about<E: Sink>(tool: Tool, err: &mut E, told: &[u8], what: &[u8], due: u8) -> u8
    ensures { LineEnds due (tool_line tool (told.now ++ (what.now ++ codes "\n"))) (change_of E.written E.faults err.old err.new) result }
{
    match put_about(err, tool, told, what) {
        Ok(()) => due,
        Err(SinkFault::Failed) => 8,
        Err(SinkFault::OutOfMemory) => 1,
    }
}
