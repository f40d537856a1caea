//! Several connections, and the ends of a life in the middle of them: the others go on in the next one.

use super::*;

// The first operator joins a member and removes one.
const JOINS: &[u8] = b"join 5 10.0.0.5:7000\nremove 2\n";

const THEIR_JOINS: &[u8] = b"joined 2\nremoved\n";

// The second stops the life with the second line.
const STOPS: &[u8] = b"gap 2\nstop\ngap 2\n";

const THEIR_STOPS: &[u8] = b"gap none\nstopping\n";

// The third is answered one line, and the other two in the next life, of another node.
const LISTS: &[u8] = b"list\nremove 5\nlist\n";

const THEIR_LISTS: &[u8] = b"2 10.0.0.2:7000 up\n3 10.0.0.3:7000 up\n5 10.0.0.5:7000 up\n.\n\
refused 4\n2 10.0.0.2:7000 up\n3 10.0.0.3:7000 up\n.\n";

// The list in the first life.
const FIRST_LIST: usize = 59;

// They come one after the other, and type when all are there.
fn all_three<'s>(alloc: Global, room: &'s Room) -> Result<Row<'s>, Fail> {
    let mut door = Row::new(alloc, room, 3);
    door.operator(Who::Third, Typed::new(0, LISTS))?;
    door.operator(Who::Second, Typed::new(1, STOPS))?;
    door.operator(Who::First, Typed::new(2, JOINS))?;
    Ok(door)
}

#[test]
fn a_stop_ends_a_life_of_several_connections(rt: HostRuntime) -> Result<(), Fail> {
    let alloc = rt.alloc();
    let room = Room::of_three(THEIR_JOINS, THEIR_STOPS, THEIR_LISTS);
    let mut controller = controller(alloc, all_three(alloc, &room)?);
    let lived = live(rt, alloc, 1000, &room.over, &mut controller)?;
    let first = Lived {
        why: Some(Why::Stopped),
        entries: 2,
        refused: 0,
    };
    assert_same(&rt, &lived, &Some(first));
    assert!(rt; room.first.is_all() && room.second.is_all() && room.third.is_front(FIRST_LIST));
    let lived = live(rt, alloc, 1000, &room.over, &mut controller)?;
    let second = Lived {
        why: None,
        entries: 1,
        refused: 0,
    };
    assert_same(&rt, &lived, &Some(second));
    assert!(rt; room.first.is_all() && room.second.is_all() && room.third.is_all());
    Ok(())
}

// A journal of one entry: the removal meets it full, which ends the life.
#[test]
fn a_full_journal_ends_a_life(rt: HostRuntime) -> Result<(), Fail> {
    let alloc = rt.alloc();
    let room = Room::of_one(b"joined 2\njournal full\n");
    let mut door = Row::new(alloc, &room, 3);
    door.operator(Who::First, Typed::new(0, JOINS))?;
    let mut controller = controller(alloc, door);
    let lived = live(rt, alloc, 1, &room.over, &mut controller)?;
    let wanted = Lived {
        why: Some(Why::JournalFull),
        entries: 1,
        refused: 0,
    };
    assert_same(&rt, &lived, &Some(wanted));
    assert!(rt; room.first.is_all());
    Ok(())
}
