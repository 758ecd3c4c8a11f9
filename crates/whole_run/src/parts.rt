// What an engine keeps of a run, and what it was begun with.

ghost use Rattle.std.specs.Prelude.{◌≡◌, IfOk};

mod backing;
mod beginning;
mod closing;
mod detecting;
mod issuing;
mod posting;
mod retiring;
mod striking;
mod taking;

use crate::{Halt, Recovery};
pub use backing::{Backup, Checkpoint};
pub use beginning::begin;
pub use closing::{finished, into_journal, into_report, runnable};
pub use detecting::{all_home, detect, due, scouted};
use gp_base::{At, Event, Inputs, Limits, Nums, Restart, Room};
pub use issuing::issue;
pub use posting::post;
use record_store::Store;
use reorder_list::Rol;
pub use retiring::retire;
use std::alloc::{AllocError, Global};
use std::snapshot::Snapshot;
pub use striking::FaultsInOrder;
use subthread::Work;
pub use taking::accept;
use token_order::Ring;

/// What is run: the work that its tasks share, how it recovers from faults, the inputs as they were at its start, its
/// limits, and the faults that strike it.
#[derive(Drop)]
pub struct Plan<'a> {
    pub work: &'a Work,
    pub recovery: Recovery,
    pub inputs: Snapshot<Inputs>,
    pub limits: Limits,
    pub faults: FaultsInOrder,
}

/// A place of the code with the values of the control variables.
#[derive(Drop)]
pub struct Place {
    pub at: At,
    pub ctl: Nums,
}

/// How far a run has come: the ring of its threads and where each of them stands, the entries of the subthreads that
/// have not retired, the data, what they are rolled back to, the events and restarts so far, how many subthreads were
/// issued, and how the run ends, where it is known that it ends at this front.
#[derive(Drop)]
pub struct Parts {
    pub ring: Ring,
    pub places: Vec<Place>,
    pub rol: Rol,
    pub store: Store,
    pub backup: Backup,
    pub events: Room<Event>,
    pub restarts: Room<Restart>,
    pub issued: u32,
    pub ended: Option<Halt>,
}

impl Place {
    // The same place. The error is that memory is out.
    fn copied(&self, alloc: Global) -> Result<Place, AllocError>
        ensures { IfOk result (λ place. place ≡ self.now) }
    {
        Ok(Place {
            at: self.at,
            ctl: self.ctl.copied(alloc)?,
        })
    }
}
