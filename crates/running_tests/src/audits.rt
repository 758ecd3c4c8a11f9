// Traces, as an audit reads and judges them.
ghost use Rattle.std.specs.Prelude.{◌<◌, ◌^◌, length};

use crate::outcome::passes;
use crate::plain_runs::run_within;
use crate::programs::{ADD, EMPTY};
use batch_files::read_faults;
use gp_audit::{TraceFault, TraceLine, Verdict, audit, read_trace};
use gp_base::{Faults, Seq, Text};
use one_thread::Step;
use std::alloc::{AllocError, Global};
use std::test::Fail;

// Rows that are no line of a trace: another word, a number that is not canonical or too wide, a part too few or too
// many, another space or line end.
const NO_LINES: [&[u8]; 30] = [
    b"issue x\n",
    b"issue 00\n",
    b"issue 01\n",
    b"issue -1\n",
    b"issue +1\n",
    b"issue 4294967296\n",
    b"issue 99999999999999999999999\n",
    b"issue 1",
    b"issue 1\r\n",
    b"issue 1 \n",
    b"issue  1\n",
    b" issue 1\n",
    b"issue\n",
    b"issue \n",
    b"Issue 1\n",
    b"\n",
    b"post 1\n",
    b"post 1 2 3\n",
    b"take 0 0\n",
    b"take 0 0 applied",
    b"take 0 0 applied \n",
    b"take 0 0 staled\n",
    b"retire\n",
    b"retire 1 2\n",
    b"restart 1 0 0\n",
    b"restart 1 0 0 redone\n",
    b"restart 1 0 0 redo x\n",
    b"restart 1 0 0 redo 0 \n",
    b"restart 1 0 0 redo 0,1\n",
    b"restart 1 0 redo 0\n",
];

// Two rows that are lines of a trace, whatever they say.
const LINES: &[u8] = b"restart 4294967295 9 1 redo 2 1 1\nrestart 0 0 0 redo\n";

// Two threads that add to one total, up to the front at which a fault on position 4 is due.
const UP_TO_FAULT: &[u8] = b"issue 0
post 0 0
take 0 0 applied
issue 1
post 1 0
take 1 0 applied
issue 2
post 2 0
take 2 0 applied
issue 3
post 3 0
take 3 0 applied
issue 4
post 4 0
take 4 0 applied
issue 5
post 5 0
take 5 0 applied
issue 6
post 6 0
take 6 0 applied
issue 7
post 7 0
";

const AFTER_FAULT: &[u8] = b"restart 8 4 0 redo 4 6 7
take 7 0 stale
post 4 1
take 4 1 applied
post 6 1
take 6 1 applied
post 7 1
take 7 1 applied
issue 8
post 8 0
take 8 0 applied
issue 9
post 9 0
take 9 0 applied
issue 10
post 10 0
take 10 0 applied
retire 0
retire 1
retire 2
retire 3
retire 4
retire 5
retire 6
retire 7
retire 8
retire 9
retire 10
";

// The order of the plain run of a program whose records hold these cells.
fn order_of(alloc: Global, text: &[u8], cells: &[i64]) -> Result<Seq<Step>, Fail>
    requires { length text.now < 2 ^ 32 }
{
    Ok(run_within(alloc, text, cells, 1000, 20)?.order)
}

// Whether a trace is refused at its first row.
fn is_no_line(alloc: Global, trace: &[u8]) -> Result<bool, AllocError> {
    if trace.len() > 10000 {
        return Ok(false);
    }
    let text: Text = Seq::from_slice(alloc, trace)?;
    Ok(matches!(read_trace(alloc, &text), Err(TraceFault::Line(1))))
}

// The lines of a trace that has no broken row.
fn lines_of(alloc: Global, trace: &[u8]) -> Result<Seq<TraceLine>, AllocError> {
    if trace.len() > 10000 {
        return Err(AllocError);
    }
    let text: Text = Seq::from_slice(alloc, trace)?;
    match read_trace(alloc, &text) {
        Ok(lines) => Ok(lines),
        Err(_) => Err(AllocError),
    }
}

// What an audit says of a trace that has no broken row.
fn verdict_on(
    alloc: Global,
    order: &Seq<Step>,
    faults: &Faults,
    trace: &[u8],
) -> Result<Verdict, AllocError> {
    let lines = lines_of(alloc, trace)?;
    if order.len() > 10000 || lines.len() > 10000 {
        return Err(AllocError);
    }
    audit(alloc, order, faults, &lines)
}

// Whether the trace of a whole run of nothing is lawful, and what is answered where it is cut or a line is left out.
fn judges_one_subthread(
    alloc: Global,
    order: &Seq<Step>,
    faults: &Faults,
) -> Result<bool, AllocError> {
    let cut: &[u8] = b"issue 0\npost 0 0\ntake 0 0 applied\n";
    let whole = verdict_on(
        alloc,
        order,
        faults,
        b"issue 0\npost 0 0\ntake 0 0 applied\nretire 0\n",
    )?;
    let early = verdict_on(alloc, order, faults, b"issue 0\npost 0 0\nretire 0\n")?;
    let cut = verdict_on(alloc, order, faults, cut)?;
    let empty = verdict_on(alloc, order, faults, b"")?;
    Ok(
        matches!(whole, Verdict::Lawful)
            && matches!(early, Verdict::Unlawful(3))
            && matches!(cut, Verdict::Incomplete)
            && matches!(empty, Verdict::Incomplete),
    )
}

// What is answered on a trace of the two adders that goes on so after the fault is due.
fn after_fault(
    alloc: Global,
    order: &Seq<Step>,
    faults: &Faults,
    more: &[u8],
) -> Result<Verdict, AllocError> {
    let mut trace = Vec::new(alloc);
    trace.extend_from_slice(UP_TO_FAULT)?;
    trace.extend_from_slice(more)?;
    verdict_on(alloc, order, faults, &trace)
}

// Whether a trace that goes on with this line is unlawful from there on: it comes after 23 lawful ones.
fn is_unlawful(
    alloc: Global,
    order: &Seq<Step>,
    faults: &Faults,
    line: &[u8],
) -> Result<bool, AllocError> {
    let verdict = after_fault(alloc, order, faults, line)?;
    Ok(matches!(verdict, Verdict::Unlawful(24)))
}
// Whether the restart of the fault is lawful, and nothing else: nothing is issued and nothing retires while a fault is
// due, and a restart redoes the dependents alone.
fn judges_a_restart(alloc: Global, order: &Seq<Step>, faults: &Faults) -> Result<bool, AllocError> {
    let unlawful: [&[u8]; 5] = [
        b"issue 8\n",
        b"restart 8 4 0 redo 4 6\n",
        b"restart 8 4 0 redo 4 5 6 7\n",
        b"restart 8 4 1 redo 4 6 7\n",
        b"retire 0\n",
    ];
    for line in unlawful {
        if !is_unlawful(alloc, order, faults, line)? {
            return Ok(false);
        }
    }
    let verdict = after_fault(alloc, order, faults, AFTER_FAULT)?;
    Ok(matches!(verdict, Verdict::Lawful))
}

// Whether each row that is no line of a trace is refused.
fn refuses_other_rows(alloc: Global) -> Result<bool, AllocError> {
    for row in &NO_LINES {
        if !is_no_line(alloc, row)? {
            return Ok(false);
        }
    }
    Ok(true)
}

#[test]
fn rows_of_a_trace(rt: HostRuntime) -> Result<(), Fail> {
    let alloc = rt.alloc();
    let count = lines_of(alloc, LINES)?.len();
    passes(Ok(count == 2))?;
    passes(refuses_other_rows(alloc))
}

#[test]
fn a_trace_of_one_subthread(rt: HostRuntime) -> Result<(), Fail> {
    let alloc = rt.alloc();
    let order = order_of(alloc, EMPTY, &[])?;
    let faults = Faults::none(alloc);
    let is_told = judges_one_subthread(alloc, &order, &faults);
    drop(order);
    drop(faults);
    passes(is_told)
}

#[test]
fn a_trace_with_a_restart(rt: HostRuntime) -> Result<(), Fail> {
    let alloc = rt.alloc();
    let faults = read_faults(alloc, &Text::from_slice(alloc, b"4,0,3,1\n")?)?;
    let order = order_of(alloc, ADD, &[0])?;
    let is_told = judges_a_restart(alloc, &order, &faults);
    drop(order);
    drop(faults);
    passes(is_told)
}
