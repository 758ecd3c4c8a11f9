// What is told of a run.
ghost use Rattle.std.specs.Prelude.{◌≡◌, ◌++◌, List, [], length, IfOk, OnOk};
ghost use Rattle.task_ast.specs.declared.tree.Program.{Program as ProgramThere};
ghost use Rattle.task_ast.specs.meaning.Run.{Run};
ghost use Rattle.task_ast.specs.Plain.{order, end};
ghost use Rattle.task_ast.specs.Position.{before};
ghost use Rattle.run_views.specs.meaning.Waits.{nexts_in};
ghost use Rattle.run_views.specs.meaning.Deadlocks.{deadlock_text};
ghost use Rattle.one_thread.specs.PlainRuns.{IsPlainRun};
ghost use Rattle.run_standing.specs.Standings.{Stands};
ghost use Rattle.command_line.specs.Words.{IsWithinLimits};
ghost use Rattle.call_cases.specs.Decided.{work_of, program_in};
ghost use Rattle.call_cases.specs.meaning.Work.{Go};
ghost use Rattle.explain_calls.specs.meaning.Fronts.{ending_line, front, IsText};

use call_cases::Request;
use gp_base::{End, Seq, Text, Why};
use one_thread::{PlainRun, run_reckoned};
use run_counts::Counting;
use run_details::{
    Halted, Noted, push_counts, push_first_cells, push_slips, push_spent_details, push_strikes,
    push_stuck_details,
};
use run_hints::{Results, Tasks, push_crossing, push_unforked, push_unordered, push_unset};
use run_standing::{Standing, stand_before};
use run_views::{push_between, push_labelled, push_standing, why_word};
use std::alloc::{AllocError, Global};
use task_ast::Head;

/// What is told of a run, and how it ends.
#[derive(Drop)]
pub struct Told {
    pub text: Text,
    pub end: End,
}

// Appends the line that tells how a run ends.
fn push_ending(text: &mut Vec<u8>, end: End) -> Result<(), AllocError>
    ensures { OnOk result (text.new.items ≡ text.old.items ++ ending_line end) }
{
    match end {
        End::Finished => text.extend_from_slice(b"ok\n"),
        End::Stuck { why, thread, line } => {
            text.extend_from_slice(b"stuck ")?;
            text.extend_from_slice(why_word(why).as_bytes())?;
            push_labelled(text, b" thread ", thread.0)?;
            push_between(text, b" line ", line, b"\n")
        }
        End::Spent(position) => push_between(text, b"spent ", position.0, b"\n"),
    }
}

// Appends what the threads wait for, where no one can go on.
fn push_stuck(
    alloc: Global,
    text: &mut Vec<u8>,
    heads: &[Head],
    end: End,
    standing: &Standing,
) -> Result<(), AllocError>
    ensures { (x : Run) → standing.now.owners.items ≡ x.owners → standing.now.nexts.items ≡ nexts_in x
        → OnOk result (text.new.items ≡ text.old.items ++ deadlock_text heads.now x end) }
{
    match end {
        End::Stuck {
            why: Why::Deadlock,
            ..
        } => push_standing(alloc, text, heads, standing),
        End::Stuck { .. } | End::Finished | End::Spent(_) => Ok(()),
    }
}

// Where the threads stand after the last of so many subthreads.
fn last_standing(alloc: Global, request: &Request, position: usize) -> Result<Standing, AllocError>
    requires { let work = work_of request.now in position ≡ length (order work.program work.inputs work.limits) }
    ensures { let work = work_of request.now in let here = before work.program work.inputs work.limits position in IfOk result (Stands here.table here.points) }
{
    let limits = request.asked.limits;
    let Ok(position) = u32::try_from(position) else {
        return Err(AllocError);
    };
    match stand_before(alloc, &request.checked, &request.inputs, limits, position)? {
        Some(standing) => Ok(standing),
        None => unreachable!(),
    }
}

// The front of what is told of a run. What stands after it goes to `rest`.
fn front_of(
    alloc: Global,
    request: &Request,
    source: &[u8],
    run: &PlainRun,
    tasks: &Tasks,
    rest: &mut Vec<u8>,
) -> Result<Vec<u8>, AllocError>
    requires { let work = work_of request.now in IsPlainRun work.program work.inputs work.limits run.now }
    ensures { let work = work_of request.now in IfOk result (λ text. text.items ≡ front work.program work.inputs work.limits) }
{
    let heads = request.checked.program().heads.as_slice();
    let mut text = Vec::new(alloc);
    push_ending(&mut text, run.end)?;
    match run.end {
        End::Finished => Ok(text),
        End::Spent(_) => Ok(text),
        End::Stuck { why, thread, line } => {
            let standing = last_standing(alloc, request, run.order.len())?;
            push_stuck(alloc, &mut text, heads, run.end, &standing)?;
            let halted = Halted {
                request,
                order: run.order.as_slice(),
                tasks,
                standing: &standing,
            };
            push_stuck_details(alloc, rest, halted, source, (why, thread, line))?;
            Ok(text)
        }
    }
}

// Appends how what threads give back is lost. The run is made once more where a loop joins some of them and leaves others out.
fn push_results(
    alloc: Global,
    text: &mut Vec<u8>,
    request: &Request,
    run: &PlainRun,
    tasks: &Tasks,
) -> Result<(), AllocError> {
    let program = request.checked.program();
    let mut results = Results::new(alloc, program, run.order.as_slice(), tasks)?;
    if results.wants_run() {
        let limits = request.asked.limits;
        let (checked, inputs) = (&request.checked, &request.inputs);
        run_reckoned(alloc, checked, inputs, limits, &mut results)?;
    }
    results.push(alloc, text)
}

// Appends what in a run is likely not what was meant, though nothing stops at it.
fn push_hints(
    alloc: Global,
    text: &mut Vec<u8>,
    request: &Request,
    run: &PlainRun,
    tasks: &Tasks,
) -> Result<(), AllocError> {
    let program = request.checked.program();
    push_unforked(alloc, text, program)?;
    push_unset(alloc, text, program, tasks)?;
    match run.end {
        End::Finished => {
            push_unordered(alloc, text, program, run.order.as_slice(), tasks)?;
            push_results(alloc, text, request, run, tasks)?;
            push_crossing(alloc, text, program, run.order.as_slice())
        }
        End::Stuck { .. } | End::Spent(_) => Ok(()),
    }
}

/// What is told of a run on one thread of a program with this text, of which no fault strikes a subthread. The error is that
/// memory is out.
pub fn tell_of(alloc: Global, request: &Request, source: &[u8]) -> Result<Told, AllocError>
    requires { IsWithinLimits request.now.asked }
    ensures text { IfOk result (λ told. IsText (Go [] (work_of request.now)) told.text) }
    ensures end { let work = work_of request.now in IfOk result (λ told. told.end ≡ end work.program work.inputs work.limits) }
{
    let limits = request.asked.limits;
    let mut counting = Counting::new(alloc, request.checked.program(), limits)?;
    let run = run_reckoned(
        alloc,
        &request.checked,
        &request.inputs,
        limits,
        &mut counting,
    )?;
    let program = request.checked.program();
    let tasks = Tasks::new(alloc, program, run.order.as_slice())?;
    let mut rest = Vec::new(alloc);
    let mut text = front_of(alloc, request, source, &run, &tasks, &mut rest)?;
    push_spent_details(alloc, &mut rest, request, &run, &counting, &tasks)?;
    push_counts(alloc, &mut rest, run.order.as_slice())?;
    let noted = Noted {
        request,
        source,
        order: run.order.as_slice(),
        counting: &counting,
        tasks: &tasks,
    };
    push_slips(alloc, &mut rest, noted)?;
    push_strikes(alloc, &mut rest, request, &run)?;
    push_hints(alloc, &mut rest, request, &run, &tasks)?;
    push_first_cells(&mut rest, request)?;
    text.extend_from_slice(&rest)?;
    Ok(Told {
        text: Seq::from_vec(text),
        end: run.end,
    })
}
