// What a task is given from a store.

ghost use Rattle.std.specs.Prelude.{◌≡◌, ◌≤◌, true, [], length, All, IfOk};
ghost use Rattle.std.specs.List.Sorted.{IsStrictlyIncreasing};
ghost use Rattle.record_store.specs.Lent.{marked};
ghost use Rattle.record_store.specs.Stored.{IsAtHome};
ghost use Rattle.subthread.specs.Lending.{lent_by};

use crate::task::Task;
use gp_base::Room;
use record_store::{Bundle, Store};
use std::alloc::{AllocError, Global};

/// Room for the cells of so many locks. The error is that memory is out.
pub fn room_for(alloc: Global, locks: usize) -> Result<Room<Bundle>, AllocError>
    ensures empty { IfOk result (λ room. room.items ≡ []) }
    ensures room { IfOk result (λ room. locks ≤ room.spare) }
{
    let mut room = Room::new(alloc);
    room.reserve(locks)?;
    Ok(room)
}

/// Lends a task the cells of its locks, which are at home.
pub fn lend(store: &mut Store, task: Task, room: Room<Bundle>) -> Task
    requires home { All (IsAtHome store.old) task.held }
    requires rising { IsStrictlyIncreasing task.held }
    requires empty { room.items ≡ [] }
    requires room { length task.held ≤ room.spare }
    ensures task { result ≡ lent_by store.old task }
    ensures store { store.new ≡ record store.old { away = marked task.held true store.old.away } }
{
    let mut task = task;
    let mut room = room;
    store.lend(&task.held, &mut room);
    task.given.bundles = room.into_seq();
    task
}
