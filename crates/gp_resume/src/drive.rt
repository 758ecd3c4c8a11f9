// A run that goes on from a log.

ghost use Rattle.std.specs.Prelude.{◌≡◌, ◌⊎◌, ◌≤◌, ◌+◌, ℕ, List, [], ◌∷◌, ◌++◌, length, take, pos, Contains, IfOk, IfErr, OnOk};
ghost use Rattle.std.specs.Io.KnownBytes.{Appends};
ghost use Rattle.gp_base.specs.meaning.Sinks.{AppendsPrefix};
ghost use Rattle.gp_base.specs.declared.limits.TheConstants.{MOST_FILE_BYTES};
ghost use Rattle.task_ast.specs.meaning.Plain.{Subthread};
ghost use Rattle.task_ast.specs.Plain.{Plain};
ghost use Rattle.task_ast.specs.meaning.Layout.{layout};
ghost use Rattle.record_store.specs.Stored.{IsAllHome};
ghost use Rattle.subthread.specs.Tasks.{program_in};
ghost use Rattle.crew.specs.Unposted.{IsUnposted};
ghost use Rattle.restart_log.specs.meaning.Lines.{printed};
ghost use Rattle.retirement_log.specs.meaning.Rows.{Retirement};
ghost use Rattle.gp_resume.specs.meaning.Reading.{IsLogOf};
ghost use Rattle.gp_resume.specs.meaning.Resumed.{lines_of, lines, count};
ghost use Rattle.gp_resume.specs.Resuming.{AnswersLog, IsRefused, DrivesRest, HasResumeCause};
ghost use Rattle.gp_resume.specs.Starting.{MayBegin};
ghost use Rattle.gp_resume.specs.inner.Course.{IsSuited, IsBegun, Stands, Begins};
ghost use Rattle.gp_resume.specs.inner.Going.{rest, WentOn, firsts_from, Replays};

use crate::beginning::begin;
use crate::course::{Course, Opening, PacedWork, ResumePlan, Step};
use crate::log::{Logged, replay_log};
use crate::stop::ResumeStop;
use crate::waves::{Leader, go_wave};
use crew::{Crew, MeanSteps};
use gp_base::{End, Inputs, Journal, Limits, Nums, Seq, Sink, SinkFault, Text, put_all};
use reorder_list::Report;
use std::alloc::Global;
use std::snapshot::Snapshot;
use std::thread::Threads;
use subthread::Work;
use task_ast::Layout;

/// Writes all the bytes, or answers why not.
pub fn put<O: Sink>(out: &mut O, bytes: &[u8]) -> Result<(), ResumeStop>
    ensures all { OnOk result (Appends (O.written out.old) (O.written out.new) bytes.now) }
    ensures prefix { AppendsPrefix (O.written out.old) (O.written out.new) bytes.now }
    ensures cause { HasResumeCause (O.faults out.old) (O.faults out.new) result }
    ensures told { ¬ IsRefused result }
{
    match put_all(out, bytes) {
        Ok(()) => Ok(()),
        Err(SinkFault::Failed) => Err(ResumeStop::WriteFault),
        Err(SinkFault::OutOfMemory) => Err(ResumeStop::OutOfMemory),
    }
}

// Goes on to the end, one wave of subthreads after another.
fn go_on<R: Threads + Sync, C: Crew, O: Sink>(
    rt: &R,
    alloc: Global,
    plan: &ResumePlan,
    course: &mut Course,
    crew: &mut C,
    out: &mut O,
) -> Result<End, ResumeStop>
    requires suits { IsSuited plan.now }
    requires stands { (x : Plain) × Stands plan.now x course.old }
    requires unposted { IsUnposted C.ready C.work C.out C.posted crew.old plan.now.work.now }
    ensures end { IfOk result (λ end. (x : Plain) → Stands plan.now x course.old → WentOn plan.now x end course.new) }
    ensures lines { OnOk result ((x : Plain) → Stands plan.now x course.old → Appends (O.written out.old) (O.written out.new) (printed (lines_of (rest plan.now x)))) }
    ensures partly { (x : Plain) → Stands plan.now x course.old → AppendsPrefix (O.written out.old) (O.written out.new) (printed (lines_of (rest plan.now x))) }
    ensures posts { OnOk result ((x : Plain) → Stands plan.now x course.old → C.posted crew.new ≡ firsts_from x.table.issued (length (rest plan.now x))) }
    ensures some { (x : Plain) → Stands plan.now x course.old → (n : ℕ) × (n ≤ length (rest plan.now x)) × (C.posted crew.new ≡ firsts_from x.table.issued n) }
    ensures cause { HasResumeCause (O.faults out.old) (O.faults out.new) result }
    ensures told { ¬ IsRefused result }
{
    'going: loop {
        let threads = course.spots.len();
        match course.next(alloc, plan)? {
            Step::Ends(end) => return Ok(end),
            Step::Goes(begun) => {
                let leader = Leader { threads, begun };
                go_wave(rt, alloc, plan, course, crew, out, leader)?;
            }
        }
    }
}

// The run as the rows of a log leave it, which is given beside how many they are and how many bytes the text had.
fn restored(
    alloc: Global,
    plan: &ResumePlan,
    cells: Layout,
    records: Nums,
    log: &Text,
) -> Result<(Course, Logged), ResumeStop>
    requires suits { IsSuited plan.now }
    requires layout { cells ≡ layout (program_in plan.now.work.now).heads }
    requires records { records ≡ plan.now.inputs.value.records }
    requires short { length log.now ≤ MOST_FILE_BYTES }
    ensures answer { AnswersLog (program_in plan.now.work.now) plan.now.inputs.value plan.now.limits log.now result }
    ensures replays { IfOk result (λ given. Replays plan.now log.now given.1 given.0) }
    ensures unwritten { IfErr result (λ stop. stop ≡ ResumeStop.WriteFault → ⊥) }
{
    let mut course = begin(alloc, plan, cells, records)?;
    let logged = replay_log(alloc, plan, &mut course, log)?;
    Ok((course, logged))
}

// The records that a run begins with, where its feeds are not needed any more.
fn records_in(inputs: Inputs) -> Nums
    ensures { result ≡ inputs.records }
{
    let Inputs { records, feeds: _ } = inputs;
    records
}

// How many bytes the text had.
fn text_bytes(logged: Logged) -> u64
    requires natural { (n : ℕ) × (logged.bytes ≡ pos n) }
    ensures { pos result ≡ logged.bytes }
{
    logged.bytes as u64
}

// What a run came to that ended so.
fn report_of(alloc: Global, end: End, course: Course) -> Report
    requires home { IsAllHome course.store }
    ensures end { result.end ≡ end }
    ensures records { result.records ≡ course.store.cells }
    ensures subthreads { result.subthreads ≡ course.issued }
    ensures unused { result.unused ≡ 0 }
    ensures events { result.journal.events ≡ [] }
    ensures restarts { result.journal.restarts ≡ [] }
{
    let Course { store, issued, .. } = course;
    Report {
        end,
        records: store.into_records(),
        subthreads: issued,
        unused: 0,
        journal: Journal {
            events: Seq::new(alloc),
            restarts: Seq::new(alloc),
        },
    }
}

/// Goes on with a run from a log of its retirements, without running the positions again that the log has, by a crew,
/// which has not been posted to, and writes the printed lines of the others to `out`. Nothing else is written. Gives
/// how many bytes the text had up to the lines of the last row, or 0 where there is none, and what the run comes to,
/// whose count has the positions of the log too.
///
/// `paced` has the table in which the crew notes the steps of its runs, if it does: a subthread that is light by it goes
/// alone, and others begin beside one that is heavy or new.
///
/// `LogLine` and `LogFit` tell the first row of the log that is none, or that does not fit the program, these inputs and
/// limits; nothing is written or posted then. `WriteFault` and `OutOfMemory` are that the output took no more, or memory
/// is out; a part of the lines is written then. What the rows say that fit is taken as it stands: that they are those of
/// this program's own run is not looked at.
pub fn resume_paced<R: Threads + Sync, C: Crew, O: Sink>(
    rt: &R,
    alloc: Global,
    paced: PacedWork<'_>,
    opening: Opening,
    log: &Text,
    crew: &mut C,
    out: &mut O,
) -> Result<(u64, Report), ResumeStop>
    requires { MayBegin C.ready C.work C.out C.posted paced.work.now opening log.now crew.old }
    ensures { DrivesRest (program_in paced.entry.work.now) opening.inputs opening.limits log.now (O.written out.old) (O.written out.new) (O.faults out.old) (O.faults out.new) (C.posted crew.new) result }
{
    let PacedWork { work, mean_steps } = paced;
    let Opening {
        layout,
        inputs,
        limits,
    } = opening;
    let plan = ResumePlan {
        work,
        inputs: Snapshot::of(&inputs),
        limits,
        mean_steps,
    };
    let records = records_in(inputs);
    let (course, logged) = restored(alloc, &plan, layout, records, log)?;
    let mut course = course;
    let end = go_on(rt, alloc, &plan, &mut course, crew, out)?;
    Ok((text_bytes(logged), report_of(alloc, end, course)))
}

/// Goes on with a run from a log, as `resume_paced` does, by a crew that notes no steps: each subthread counts as heavy, and
/// all that can begin beside it do.
pub fn resume_drive<R: Threads + Sync, C: Crew, O: Sink>(
    rt: &R,
    alloc: Global,
    work: &Work,
    layout: Layout,
    inputs: Inputs,
    limits: Limits,
    log: &Text,
    crew: &mut C,
    out: &mut O,
) -> Result<(u64, Report), ResumeStop>
    requires { MayBegin C.ready C.work C.out C.posted work.now (record { layout = layout; inputs = inputs; limits = limits }) log.now crew.old }
    ensures { DrivesRest (program_in work.now) inputs limits log.now (O.written out.old) (O.written out.new) (O.faults out.old) (O.faults out.new) (C.posted crew.new) result }
{
    let mean_steps = MeanSteps::new(alloc, work);
    let paced = PacedWork {
        work,
        mean_steps: &mean_steps,
    };
    let opening = Opening {
        layout,
        inputs,
        limits,
    };
    resume_paced(rt, alloc, paced, opening, log, crew, out)
}
