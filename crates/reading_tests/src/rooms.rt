// Lists with reserved room.
use gp_base::Room;
use std::test::Fail;

#[test]
fn elements_go_into_the_room(rt: HostRuntime) -> Result<(), Fail> {
    let mut room = Room::new(rt.alloc());
    room.reserve(2)?;
    room.push(5);
    room.push(7);
    let length = room.len();
    let elements = room.into_seq();
    let is_told = length == 2 && elements.as_slice() == [5, 7].as_slice();
    drop(elements);
    assert!(rt; is_told);
    Ok(())
}
