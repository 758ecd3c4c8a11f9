// What a run did, event by event.

use crate::{Pos, Seq};

/// One restart: at this front a fault struck an attempt of a position, and these positions are redone, in order.
#[derive(Drop)]
pub struct Restart {
    pub front: Pos,
    pub struck: Pos,
    pub attempt: u32,
    pub redo: Seq<Pos>,
}

/// One event of a run. `Post` and `Take` name a position and an attempt, `Take` also whether the result was applied,
/// and `Restart` a member of the journal's restarts, counted from 0.
#[derive(Clone, Copy, PartialEq, Eq)]
pub enum Event {
    Issue(Pos),
    Post(Pos, u32),
    Take(Pos, u32, bool),
    Restart(u32),
    Retire(Pos),
}

/// The events of a run in order, and its restarts.
#[derive(Drop)]
pub struct Journal {
    pub events: Seq<Event>,
    pub restarts: Seq<Restart>,
}
