// A new board.
ghost use Rattle.std.specs.Prelude.{◌≡◌, ◌+◌, ◌≤◌, length, map, replicate, All, IfOk, IfErr, [], vec_len, vec_capacity};
ghost use Rattle.desk_board.specs.Held.{about, hand, book, gathered, IsPassOf, IsClerkOf};
ghost use Rattle.desk_board.specs.Rule.{no_hand, first_hand, first_book};
ghost use Rattle.desk_board.specs.declared.view.Slot.TheVariants.{Todo};

use crate::rule::BoardRule;
use crate::shared::lay_table;
use crate::types::{Board, Clerk, Pass};
use crate::view::{Hand, Slot};
use gp_base::{Job, Seq};
use std::alloc::{AllocError, Global};
use std::snapshot::Snapshot;

/// The words of a table of so many slots, each of which is 0, and room for the slots.
pub(crate) fn room_for<J: Drop, R: Drop>(
    alloc: Global,
    count: usize,
) -> Result<(Vec<u64>, Vec<Slot<J, R>>), AllocError>
    requires few { count ≤ 65536 }
    ensures words { IfOk result (λ room. room.0.items ≡ replicate (count + 1) 0) }
    ensures slots { IfOk result (λ room. (room.1.items ≡ []) × (count ≤ vec_capacity room.1)) }
{
    let words = Vec::from_elem(alloc, 0u64, count + 1)?;
    let slots = Vec::with_capacity(alloc, count)?;
    Ok((words, slots))
}

/// Moves the jobs into slots. There is room for them.
pub fn lay_out<J: Drop, R: Drop>(jobs: &mut Vec<J>, slots: &mut Vec<Slot<J, R>>)
    requires room { (slots.old.items ≡ []) × (vec_len jobs.old ≤ vec_capacity slots.old) }
    ensures slots { slots.new.items ≡ map Todo jobs.old.items }
    ensures jobs { (jobs.new.items ≡ []) × (vec_capacity jobs.new ≡ vec_capacity jobs.old) }
{
    jobs.reverse();
    while let Some(job) = jobs.pop() {
        slots.push_reserved(Slot::Todo(job));
    }
}

/// Moves the jobs back out of the slots. `were` is what they were.
pub fn take_back<J: Drop, R: Drop>(
    mut slots: Vec<Slot<J, R>>,
    jobs: &mut Vec<J>,
    were: &Snapshot<Vec<J>>,
)
    requires slots { slots.items ≡ map Todo were.now.value.items }
    requires room { (jobs.old.items ≡ []) × (vec_len slots ≤ vec_capacity jobs.old) }
    ensures { jobs.new.items ≡ were.now.value.items }
{
    while let Some(slot) = slots.pop() {
        let Slot::Todo(job) = slot else {
            unreachable!()
        };
        jobs.push_reserved(job);
    }
    jobs.reverse();
}

impl<J: Job> Board<J> {
    /// A board of at most 65,536 jobs, its first pass, which has the whole share of 64, and its clerk. Out of memory,
    /// the jobs come back as they were.
    pub fn new(
        alloc: Global,
        with: &J::With,
        jobs: Seq<J>,
    ) -> Result<(Board<J>, Pass<J>, Clerk<J>), (AllocError, Seq<J>)>
        requires few { length jobs ≤ 65536 }
        requires fits { All (J.fits with.now) jobs }
        ensures board { IfOk result (λ made. ((about made.0).jobs ≡ jobs) × ((about made.0).with ≡ with.now)) }
        ensures pass { IfOk result (λ made. IsPassOf made.0 made.1 × (hand made.1 ≡ first_hand)) }
        ensures clerk { IfOk result (λ made. IsClerkOf made.0 made.2 × (book made.2 ≡ first_book) × (gathered made.2 ≡ no_hand)) }
        ensures refused { IfErr result (λ refusal. refusal.1 ≡ jobs) }
    {
        let (table, seat, office) = lay_table::<J, Hand, BoardRule<J>>(alloc, with, jobs)?;
        let count = table.slot_count() as u32;
        let pass = Pass { seat, ticket: None };
        let clerk = Clerk { seat: office };
        Ok((Board { table, count }, pass, clerk))
    }
}
