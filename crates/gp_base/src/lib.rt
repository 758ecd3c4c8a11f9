//! What every crate of the runtime speaks of: lists that contracts see as lists, the small types of a run, and the
//! outside (shelves of files, sinks of bytes, gates) with plain objects in memory. Beside them, words and digits at the
//! front of bytes.
#![tactic(auto)]

mod calls;
mod ending;
mod fault;
mod feed;
mod footprint;
mod front;
mod gate;
mod job;
mod journal;
pub mod limits;
mod memory_shelf;
mod memory_sink;
mod numbers;
mod room;
mod seq;
mod shelf;
mod sink;

pub use ending::{End, Why};
pub use fault::{Fault, Faults};
pub use feed::{Feed, Inputs};
pub use footprint::{Footprint, Loc};
pub use front::{after, count_digits};
pub use gate::{FreeGate, Gate};
pub use job::Job;
pub use journal::{Event, Journal, Restart};
pub use limits::Limits;
pub use memory_shelf::{MemShelf, NeverShelf};
pub use memory_sink::{MemSink, NeverSink};
pub use numbers::{At, LockNo, Pos, RecNo, ThreadNo};
pub use room::Room;
pub use seq::{Lines, Name, Nums, Seq, Text};
pub use shelf::{Shelf, ShelfFault};
pub use sink::{Sink, SinkFault, put_all};
