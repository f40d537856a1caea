//! A desk that is refused memory. tests/node/refusals runs it with one request for memory refused, the first, the second
//! and so on; else none is. Where a call was refused, it writes a line.

use super::*;

// The join that is asked again is refused for what the first one did, or is the first one again.
const LINES: &[u8] = b"join 5 10.0.0.5:7000\njoin 5 10.0.0.5:7000\nstop\n";

// A life of an operator who stops it, where there is memory for the connection, and else of nobody.
fn lived<R: Wait + Copy + Drop>(rt: R, alloc: Global, room: &Room) -> Result<Option<Lived>, Fail> {
    let mut door = Row::new(alloc, room, 3);
    if door.operator(Who::First, Typed::new(0, LINES)).is_err() {
        return Ok(None);
    }
    let mut controller = controller(alloc, door);
    live(rt, alloc, 1000, &room.over, &mut controller)
}

// A refused call is told and counted, and the connection goes on. Where no node was to be had it is opened again, and
// nothing is refused then; and so if there was no memory for the connection.
#[test]
fn a_join_is_asked_again(rt: HostRuntime) -> Result<(), Fail> {
    let room = Room::of_one(b"");
    let Some(lived_once) = lived(rt, rt.alloc(), &room)? else {
        let again = lived(rt, rt.alloc(), &room)?;
        let wanted = Lived {
            why: Some(Why::Stopped),
            entries: 2,
            refused: 0,
        };
        assert_same(&rt, &again, &Some(wanted));
        return Ok(());
    };
    if lived_once.why.is_none() {
        assert_same(&rt, &lived_once.entries, &0);
        return Ok(());
    }
    assert_same(&rt, &lived_once.why, &Some(Why::Stopped));
    assert!(rt; lived_once.refused < 2);
    assert_same(
        &rt,
        &(u64::from(lived_once.entries) + lived_once.refused),
        &2,
    );
    if lived_once.refused > 0 {
        println!(rt; "a call was refused")?;
    }
    Ok(())
}
