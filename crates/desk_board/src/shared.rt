// What boards do, whatever hands their passes have and whatever rule they keep: a table is laid, a run is put back, a
// run is taken.
ghost use Rattle.std.specs.Prelude.{◌≡◌, ◌+◌, ◌<◌, ◌≤◌, [], ◌∷◌, length, map, replicate, All, IfOk, IfErr};
ghost use mathlib.Core.Option.{none};
ghost use Rattle.atomic_table.specs.Table.{Allows, Joins, step};
ghost use Rattle.desk_board.specs.Rule.{about_of};
ghost use Rattle.desk_board.specs.Told.{IsRunAt, book_took};
ghost use Rattle.desk_board.specs.Views.{IsOf, Opens, took, given_up, pass_part, clerk_part};
ghost use Rattle.desk_board.specs.declared.view.Slot.TheVariants.{Empty, Todo, Done};

use crate::made::{lay_out, room_for, take_back};
use crate::plays::{Office, Return, Take};
use crate::rule::{BoardSeat, BoardShared, BoardTable};
use crate::view::{BoardSetup, PassHand, SeatView, Slot};
use atomic_table::{Play, Refused, Table, TableRule};
use gp_base::{Job, Seq};
use std::alloc::{AllocError, Global};
use std::mem;
use std::snapshot::Snapshot;

/// The table of a board of at most 65,536 jobs, each on its desk, with the seats of the first pass and of the clerk.
/// Word 0 and the word of each desk are 0. Out of memory, the jobs come back as they were.
pub fn lay_table<
    J: Job,
    H: PassHand,
    P: TableRule<Slot<J, J::Run>, SeatView<J, J::With, H>, BoardSetup<J, J::With>>,
>(
    alloc: Global,
    with: &J::With,
    jobs: Seq<J>,
) -> Result<(BoardTable<J, H, P>, BoardSeat<J, H>, BoardSeat<J, H>), (AllocError, Seq<J>)>
    requires few { length jobs ≤ 65536 }
    requires fits { All (J.fits with.now) jobs }
    requires opens { Opens J.fits P.holds P.first H.none }
    ensures about { IfOk result (λ made. ((about_of made.0.shared.key).jobs ≡ jobs) × ((about_of made.0.shared.key).with ≡ with.now)) }
    ensures sized { IfOk result (λ made. (made.0.shared.table_id.words ≡ length jobs + 1) × (made.0.shared.table_id.slots ≡ length jobs)) }
    ensures pass { IfOk result (λ made. (made.1.table_id ≡ made.0.shared.table_id) × (made.1.me ≡ (pass_part (P.first made.0.shared.key), []))) }
    ensures clerk { IfOk result (λ made. (made.2.table_id ≡ made.0.shared.table_id) × (made.2.me ≡ (clerk_part H.none (P.first made.0.shared.key), []))) }
    ensures refused { IfErr result (λ refusal. refusal.1 ≡ jobs) }
{
    let mut jobs = jobs.into_vec();
    let Ok((words, mut slots)) = room_for(alloc, jobs.len()) else {
        return Err((AllocError, Seq::from_vec(jobs)));
    };
    let plan = BoardSetup {
        jobs: Snapshot::of(&jobs),
        with: Snapshot::of(with),
    };
    lay_out(&mut jobs, &mut slots);
    match set_table::<J, H, P>(alloc, words.as_slice(), slots, &plan) {
        Ok(made) => Ok(made),
        Err(Refused { slots }) => {
            take_back(slots, &mut jobs, &plan.jobs);
            Err((AllocError, Seq::from_vec(jobs)))
        }
    }
}

// The table over these words and slots, with the seats of the first pass and of the clerk. Out of memory, the slots
// come back as they were.
fn set_table<
    J: Job,
    H: PassHand,
    P: TableRule<Slot<J, J::Run>, SeatView<J, J::With, H>, BoardSetup<J, J::With>>,
>(
    alloc: Global,
    words: &[u64],
    slots: Vec<Slot<J, J::Run>>,
    plan: &BoardSetup<J, J::With>,
) -> Result<
    (BoardTable<J, H, P>, BoardSeat<J, H>, BoardSeat<J, H>),
    Refused<Slot<J, J::Run>, Global>,
>
    requires few { length plan.now.jobs.value.items ≤ 65536 }
    requires fits { All (J.fits plan.now.with.value) plan.now.jobs.value.items }
    requires opens { Opens J.fits P.holds P.first H.none }
    requires words { words.now ≡ replicate (length plan.now.jobs.value.items + 1) 0 }
    requires slots { slots.items ≡ map Todo plan.now.jobs.value.items }
    ensures made { IfOk result (λ made. (made.0.shared.key ≡ plan.now) × (made.0.shared.table_id.words ≡ length plan.now.jobs.value.items + 1) × (made.0.shared.table_id.slots ≡ length plan.now.jobs.value.items) × (made.1.table_id ≡ made.0.shared.table_id) × (made.1.me ≡ (pass_part (P.first plan.now), [])) × (made.2.table_id ≡ made.0.shared.table_id) × (made.2.me ≡ (clerk_part H.none (P.first plan.now), []))) }
    ensures refused { IfErr result (λ refusal. refusal.slots.items ≡ slots.items) }
{
    let (table, mut seat) = match Table::new(alloc, words, slots, plan) {
        Ok(made) => made,
        Err(refusal) => return Err(refusal),
    };
    let office = table.shared.split_seat::<Office>(&mut seat);
    Ok((table, seat, office))
}

/// The pass comes to the seat of a desk, puts the run there and gives the slot up, where the desk's word becomes `word`.
/// M is what that step tells. Takes no memory.
pub fn put_back<
    M: Play<Slot<J, J::Run>, SeatView<J, J::With, H>>,
    J: Job,
    H: PassHand,
    P: TableRule<Slot<J, J::Run>, SeatView<J, J::With, H>, BoardSetup<J, J::With>>,
>(
    shared: &BoardShared<J, H, P>,
    pass: &mut BoardSeat<J, H>,
    desk: BoardSeat<J, H>,
    number: u32,
    run: J::Run,
    word: u64,
)
    requires of { (pass.old.table_id ≡ shared.now.table_id) × (desk.table_id ≡ shared.now.table_id) }
    requires within { number + 1 < shared.now.table_id.words }
    requires bare { pass.old.me.1 ≡ [] }
    requires desk { desk.me ≡ (given_up H.none, (number, Empty) ∷ []) }
    requires comes { Joins (P.holds shared.now.key) desk.id desk.me.0 pass.old.id pass.old.me.0 pass.old.me.0 (given_up H.none) }
    requires allowed { Allows (P.holds shared.now.key) shared.now.table_id.slots desk.id (pass.old.me.0, (number, Done run) ∷ []) (number + 1) (λ _. word) (λ _. M.then (step shared.now.table_id.slots (number + 1) word 0 none) (pass.old.me.0, (number, Done run) ∷ []) word) }
    ensures of { pass.new.table_id ≡ shared.now.table_id }
    ensures told { M.then (step shared.now.table_id.slots (number + 1) word 0 none) (pass.old.me.0, (number, Done run) ∷ []) word pass.new.me }
{
    let seat = mem::replace(pass, desk);
    shared.join_seat::<Return>(pass, seat);
    shared.exchange(pass, number as usize, Slot::Done(run));
    shared.store::<M>(pass, number as usize + 1, word);
}

/// Takes the run off a desk, where the desk's word becomes `word`. Takes no memory.
pub fn take_run<
    J: Job,
    H,
    P: TableRule<Slot<J, J::Run>, SeatView<J, J::With, H>, BoardSetup<J, J::With>>,
>(shared: &BoardShared<J, H, P>, clerk: &mut BoardSeat<J, H>, desk: u32, word: u64) -> J::Run
    requires of { IsOf shared.now.table_id (about_of shared.now.key) clerk.old }
    requires within { desk + 1 < shared.now.table_id.words }
    requires allowed { Allows (P.holds shared.now.key) shared.now.table_id.slots clerk.old.id clerk.old.me (desk + 1) (λ _. word) (λ _. took J.is_run (step shared.now.table_id.slots (desk + 1) word 0 none) clerk.old.me word) }
    ensures of { IsOf shared.now.table_id (about_of shared.now.key) clerk.new }
    ensures run { IsRunAt J.is_run (about_of shared.now.key) desk result }
    ensures view { clerk.new.me.0 ≡ record clerk.old.me.0 { book = book_took desk clerk.old.me.0.book } }
{
    shared.store::<Take>(clerk, desk as usize + 1, word);
    let Slot::Done(run) = shared.exchange(clerk, desk as usize, Slot::Empty) else {
        unreachable!()
    };
    run
}
