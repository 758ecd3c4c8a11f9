// How far a run has come, and what it leaves.

ghost use Rattle.std.specs.Prelude.{◌≡◌, false, Some, IfSome, IfNone};
ghost use Rattle.gp_base.specs.declared.ending.End.{End as EndThere};
ghost use Rattle.whole_run.specs.declared.calls.Halt.TheVariants as halt;
ghost use Rattle.whole_run.specs.Gives.{NoneLent, IsNextToPost, NoneToPost, HasFinished, IsJournalOf, IsReportOf};
ghost use Rattle.whole_run.specs.Recovering.{HasCuts};
ghost use Rattle.whole_run.specs.inner.Backed.{is_open, window_end};
ghost use Rattle.whole_run.specs.inner.Kept.{batch_in, view_of, Kept};

use crate::parts::{Backup, Parts, Plan};
use crate::{Halt, Recovery};
use gp_base::{End, Journal, Pos};
use reorder_list::Report;

/// Where all is rolled back, a position is looked at for a post only where it is fewer than so many after the first
/// that is not applied. After a rollback all of a block wait, and to look at all of them after each result would cost
/// the square of the block. As many as this keep all workers busy.
pub const WINDOW: u32 = 1024;

// The position from which on none is looked at.
fn window_end(recovery: Recovery, backup: &Backup) -> Pos
    ensures { result ≡ window_end recovery backup.now.whole }
{
    match recovery {
        Recovery::Selective => Pos(u32::MAX),
        Recovery::Rollback(_) => Pos(backup.whole.saturating_add(WINDOW)),
    }
}

// Whether the block of a position is open: all before it is applied, where all is rolled back.
fn is_open(recovery: Recovery, backup: &Backup, position: Pos) -> bool
    requires { HasCuts recovery }
    ensures { result ≡ is_open recovery backup.now.whole position }
{
    match recovery {
        Recovery::Selective => true,
        Recovery::Rollback(every) => position.0 - position.0 % every <= backup.whole,
    }
}

/// The first position from this one on whose present attempt may be posted: each earlier one in conflict with it by
/// locks is applied, and, where all is rolled back, each one before its block. There it is looked for only among those
/// that are near the first that is not applied.
pub fn runnable(plan: &Plan, parts: &mut Parts, from: Pos) -> Option<Pos>
    requires kept { Kept (batch_in plan.now) parts.old }
    requires closed { parts.old.ring.cleared ≡ false }
    ensures kept { Kept (batch_in plan.now) parts.new }
    ensures closed { parts.new.ring.cleared ≡ false }
    ensures same { view_of (batch_in plan.now) parts.new ≡ view_of (batch_in plan.now) parts.old }
    ensures room { parts.new.events ≡ parts.old.events }
    ensures found { IfSome result (IsNextToPost (view_of (batch_in plan.now) parts.old) from) }
    ensures none { IfNone result (NoneToPost (view_of (batch_in plan.now) parts.old) from) }
{
    if parts.issued <= from.0 {
        return None;
    }
    let below = window_end(plan.recovery, &parts.backup);
    let position = parts.rol.next_runnable(from, below)?;
    is_open(plan.recovery, &parts.backup, position).then_some(position)
}

// How the run ends, where it halts since it ends.
fn ended_in(halts: Option<Halt>) -> Option<End>
    ensures found { IfSome result (λ ending. halts ≡ Some (halt.Ended ending)) }
    ensures none { IfNone result ((ending : EndThere) → ¬ (halts ≡ Some (halt.Ended ending))) }
{
    match halts {
        Some(Halt::Ended(end)) => Some(end),
        Some(Halt::Settling) => None,
        None => None,
    }
}

/// How the run ends, where that is known and all positions have retired.
pub fn finished(plan: &Plan, parts: &Parts) -> Option<End>
    requires kept { Kept (batch_in plan.now) parts.now }
    ensures found { IfSome result (HasFinished (view_of (batch_in plan.now) parts.now)) }
    ensures none { IfNone result ((ending : EndThere) → ¬ HasFinished (view_of (batch_in plan.now) parts.now) ending) }
{
    if parts.rol.len() == 0 {
        ended_in(parts.ended)
    } else {
        None
    }
}

/// What the run did. Takes no memory.
pub fn into_journal(plan: &Plan, parts: Parts) -> Journal
    requires kept { Kept (batch_in plan.now) parts }
    ensures { IsJournalOf (view_of (batch_in plan.now) parts) result }
{
    let Parts {
        events,
        restarts,
        ..
    } = parts;
    Journal {
        events: events.into_seq(),
        restarts: restarts.into_seq(),
    }
}

/// The report of the run, which has ended so, when each lock is at home. Takes no memory.
pub fn into_report(plan: &Plan, parts: Parts, end: End) -> Report
    requires kept { Kept (batch_in plan.now) parts }
    requires home { NoneLent (view_of (batch_in plan.now) parts) }
    ensures { IsReportOf (view_of (batch_in plan.now) parts) end result }
{
    let unused = (plan.faults.len() - parts.restarts.len()) as u32;
    let Parts {
        store,
        events,
        restarts,
        issued,
        ..
    } = parts;
    Report {
        end,
        records: store.into_records(),
        subthreads: issued,
        unused,
        journal: Journal {
            events: events.into_seq(),
            restarts: restarts.into_seq(),
        },
    }
}
