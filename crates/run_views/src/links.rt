// How a subthread that is redone is linked to an earlier one.
ghost use Rattle.std.specs.Prelude.{◌≡◌, ◌<◌, length, map, IfSome};
ghost use Rattle.dependence.specs.meaning.Conflict.{clash_in};
ghost use Rattle.run_views.specs.meaning.Links.{Party, linked, joins, has_cell, is_shared, shared_cell, link_by, link_of};
ghost use Rattle.run_views.specs.Seen.{party_in};

use crate::order::child_in;
use dependence::conflict;
use gp_base::{Footprint, Loc, Pos, ThreadNo};
use one_thread::Step;
use task_ast::SyncOp;

/// The link of a subthread to an earlier one: it goes on in this thread, joins it, runs in it as a child of the other
/// one, or joins such a child; or both name this record cell.
#[derive(Clone, Copy)]
pub enum Link {
    GoesOn(ThreadNo),
    JoinsAfter(ThreadNo),
    RunsIn(ThreadNo),
    JoinsForked(ThreadNo),
    Names(Option<u64>),
}

// Whether a position is in conflict with a later one.
fn clashes(order: &[Step], earlier: usize, later: usize) -> bool
    requires earlier { earlier < length order.now }
    requires later { later < length order.now }
    ensures { result ≡ clash_in (map (λ (p : Party). p.foot) (map party_in order.now)) earlier later }
{
    conflict(&order[earlier].foot, &order[later].foot)
}

/// The first of these positions that is below another one and in conflict with it.
pub fn linked(order: &[Step], redo: &[Pos], position: usize) -> Option<usize>
    requires { position < length order.now }
    ensures linked { result ≡ linked (map party_in order.now) redo.now position }
    ensures below { IfSome result (λ earlier. earlier < position) }
{
    for earlier in redo {
        let earlier = earlier.0 as usize;
        if earlier < position && clashes(order, earlier, position) {
            return Some(earlier);
        }
    }
    None
}

// Whether a synchronisation is a join of the thread.
fn joins(begins: &SyncOp, thread: ThreadNo) -> bool
    ensures { result ≡ joins begins.now thread }
{
    match begins {
        SyncOp::Join(joined) => *joined == i64::from(thread.0),
        _ => false,
    }
}

// Whether the record cell stands among these locations.
fn has_cell(locations: &[Loc], cell: u64) -> bool
    ensures { result ≡ has_cell locations.now cell }
{
    for location in locations {
        if let Loc::Rec(named) = location {
            if u64::from(named.0) == cell {
                return true;
            }
        }
    }
    false
}

// Whether both footprints name the record cell, and one of them writes it.
fn is_shared(first: &Footprint, second: &Footprint, cell: u64) -> bool
    ensures { result ≡ is_shared first.now second.now cell }
{
    let written = has_cell(second.writes.as_slice(), cell);
    let read = has_cell(second.reads.as_slice(), cell);
    has_cell(first.writes.as_slice(), cell) && (written || read)
        || has_cell(first.reads.as_slice(), cell) && written
}

// The least record cell of so many that both footprints name, one of them writing it.
fn shared_cell(cells: u64, first: &Footprint, second: &Footprint) -> Option<u64>
    ensures { result ≡ shared_cell cells first.now second.now }
{
    for cell in 0..cells {
        if is_shared(first, second, cell) {
            return Some(cell);
        }
    }
    None
}

// The link to an earlier subthread of another thread that is not joined.
fn link_by(cells: u64, later: &Step, earlier: &Step, child: Option<ThreadNo>) -> Link
    ensures { result ≡ link_by cells (party_in later.now) (party_in earlier.now) child }
{
    match child {
        Some(child) if child.0 == later.thread.0 => Link::RunsIn(child),
        Some(child) if joins(&later.begins.sync, child) => Link::JoinsForked(child),
        _ => Link::Names(shared_cell(cells, &later.foot, &earlier.foot)),
    }
}

/// The link to an earlier subthread, where there are so many record cells.
pub fn link_of(cells: u64, later: &Step, earlier: &Step) -> Link
    ensures { result ≡ link_of cells (party_in later.now) (party_in earlier.now) }
{
    if later.thread.0 == earlier.thread.0 {
        return Link::GoesOn(earlier.thread);
    }
    if joins(&later.begins.sync, earlier.thread) {
        return Link::JoinsAfter(earlier.thread);
    }
    link_by(cells, later, earlier, child_in(&earlier.foot))
}
