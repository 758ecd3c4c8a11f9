// The top call: all that the program does.
ghost use Rattle.std.specs.Prelude.{◌≡◌, None, [], IfOk, OnOk, OnErr, option_map, unwrap_or};
ghost use Rattle.std.specs.Io.KnownBytes.{Appends};
ghost use Rattle.gp_base.specs.meaning.Sinks.{AppendsPrefix, HasCause};
ghost use Rattle.command_line.specs.meaning.Words.{texts};
ghost use Rattle.command_line.specs.Words.{IsWithinLimits};
ghost use Rattle.call_cases.specs.meaning.Answers.{change_of, no_journal};
ghost use Rattle.call_cases.specs.declared.lines.Tool.TheVariants.{GprsView};
ghost use Rattle.call_cases.specs.Answers.{LineEnds, RunEndsOf};
ghost use Rattle.call_cases.specs.Decided.{work_of};
ghost use Rattle.run_picture.specs.meaning.Elements.{Layout};
ghost use Rattle.view_calls.specs.meaning.Commands.{viewed_by, no_position_line, absent_line, Shows};
ghost use Rattle.view_calls.specs.meaning.Sights.{text_for, view_of, absent_by, status_by, sight_text, sight_status};
ghost use Rattle.view_calls.specs.Sights.{lines_in, sight_of};

use crate::reading::{Trace, Viewing, read_view};
use call_cases::{Request, Tool, refuse, stop_by, tell_about};
use command_line::Command;
use gp_audit::TraceLine;
use gp_base::{Shelf, Sink, SinkFault, Text, put_all};
use itoa::Buffer;
use run_picture::timeline_text;
use run_views::{order_text, why_text};
use std::alloc::{AllocError, Global};

// The text that shows a whole run.
fn run_text(
    alloc: Global,
    request: &Request,
    trace: Option<&[TraceLine]>,
) -> Result<Text, AllocError>
    requires { IsWithinLimits request.now.asked }
    ensures { IfOk result (λ text. (layout : Layout) × (text
        ≡ text_for layout request.now.asked.command (work_of request.now) (option_map (λ lines. lines.now) trace.entry))) }
{
    let limits = request.asked.limits;
    match request.asked.command {
        Command::Run => timeline_text(
            alloc,
            &request.checked,
            &request.inputs,
            limits,
            &request.faults,
            trace,
        ),
        _ => order_text(alloc, &request.checked, &request.inputs, limits),
    }
}

// The lines of the trace, where there is one.
fn lines_of(trace: &Option<Trace>) -> Option<&[TraceLine]>
    ensures { option_map (λ lines. lines.now) result ≡ lines_in trace.now }
{
    match trace {
        Some(trace) => Some(trace.lines.as_slice()),
        None => None,
    }
}

// The text that is asked for, or none where it is that of a position that there is not.
fn view_text(alloc: Global, viewing: &Viewing) -> Result<Option<Text>, AllocError>
    requires { IsWithinLimits viewing.now.request.asked }
    ensures { IfOk result (λ view. (layout : Layout) × (view ≡ view_of layout (sight_of viewing.now))) }
{
    let request = &viewing.request;
    let Some(position) = viewing.position else {
        let lines = lines_of(&viewing.trace);
        return Ok(Some(run_text(alloc, request, lines)?));
    };
    why_text(
        alloc,
        &request.checked,
        &request.inputs,
        request.asked.limits,
        &request.faults,
        position,
    )
}

// Writes a text, where there is one. The answer is the position, where there is none of it.
fn put_text<O: Sink>(
    view: &Option<Text>,
    position: Option<u64>,
    out: &mut O,
) -> Result<Option<u64>, SinkFault>
    ensures all { OnOk result (Appends (O.written out.old) (O.written out.new) (unwrap_or view.now [])) }
    ensures prefix { OnErr result (AppendsPrefix (O.written out.old) (O.written out.new) (unwrap_or view.now [])) }
    ensures cause { HasCause (O.faults out.old) (O.faults out.new) result }
    ensures absent { IfOk result (λ absent. absent ≡ absent_by view.now position) }
{
    let Some(text) = view else {
        return Ok(position);
    };
    put_all(out, text.as_slice())?;
    Ok(None)
}

// Tells that there is no such position, and answers the status, which is 5. It is 8 where the write fails, and 1 where
// memory runs out.
fn end_no_position<E: Sink>(err: &mut E, position: u64) -> u8
    ensures { LineEnds 5 (no_position_line position) (change_of E.written E.faults err.old err.new) result }
{
    let mut buffer = Buffer::new();
    let number = buffer.format(position).as_bytes();
    tell_about(Tool::GprsView, err, b"no position ", number, 5)
}

// Shows a text, or that there is none of this position, and answers the status.
fn show_text<O: Sink, E: Sink>(
    view: &Option<Text>,
    position: Option<u64>,
    out: &mut O,
    err: &mut E,
) -> u8
    ensures { let due = status_by (absent_by view.now position) in
        RunEndsOf GprsView (unwrap_or view.now []) (absent_line due position) due
        (change_of O.written O.faults out.old out.new) (change_of E.written E.faults err.old err.new) result }
{
    match put_text(view, position, out) {
        Ok(None) => 0,
        Ok(Some(position)) => end_no_position(err, position),
        Err(fault) => stop_by(Tool::GprsView, fault, err),
    }
}

// Shows what is asked for, in some layout, and answers the status.
fn show<O: Sink, E: Sink>(alloc: Global, viewing: &Viewing, out: &mut O, err: &mut E) -> u8
    requires { IsWithinLimits viewing.now.request.asked }
    ensures { let sight = sight_of viewing.now in (layout : Layout)
        × RunEndsOf GprsView (sight_text layout sight) (absent_line (sight_status layout sight) sight.position) (sight_status layout sight)
        (change_of O.written O.faults out.old out.new) (change_of E.written E.faults err.old err.new) result }
{
    match view_text(alloc, viewing) {
        Ok(view) => show_text(&view, viewing.position, out, err),
        Err(_) => stop_by(Tool::GprsView, SinkFault::OutOfMemory, err),
    }
}

/// Shows what the words ask for, over what is handed in, and answers the status. The words are those after the
/// program's name.
///
/// The status is 0 where the run was shown, also one that is stuck or has spent its limits, 1 where memory ran out, 2
/// where the words are those of no command, 3 where the program is refused, 4 where a file beside it is refused, or the
/// trace, 5 where the run has not the position that is asked for, 7 where a file could not be read, and 8 where a write
/// failed.
///
/// At 0 `out` took the whole text, a picture in some layout, and `err` nothing. At 2, 3, 4, 5 and 7 `out` took nothing, and `err` one line that
/// tells why; at 8 `err` took such a line, unless it failed itself. At each status `out` took a prefix of the text.
pub fn view_run<H: Shelf, O: Sink, E: Sink>(
    alloc: Global,
    words: &[String],
    shelf: &mut H,
    out: &mut O,
    err: &mut E,
) -> u8
    ensures headline { Shows (record {
      words = texts words.now;
      files = H.files shelf.old;
      failed = H.failed shelf.old;
      failed' = H.failed shelf.new;
      out = change_of O.written O.faults out.old out.new;
      err = change_of E.written E.faults err.old err.new;
      status = result;
      journal = no_journal;
    }) }

    // The shelf is not read for words of no command.
    ensures unread { viewed_by (texts words.now) ≡ None → shelf.new ≡ shelf.old }
{
    match read_view(alloc, words, shelf) {
        Ok(viewing) => show(alloc, &viewing, out, err),
        Err(refusal) => refuse(Tool::GprsView, &refusal, err),
    }
}
