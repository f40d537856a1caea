//! The examples of docs/FORMATS.md, "Control lines", over the desk of a node.

use super::*;

const LINES: &[u8] = b"list\njoin 0 1.2.3.4:5\nlis";

const ANSWERS: &[u8] = b"2 10.0.0.2:7000 up\n3 10.0.0.3:7000 up\n.\nfault 3\nfault 6\n";

// Line by line, with lists behind a join and a removal, and a stop.
const CALLS: &[u8] =
    b"gap 2\njoin 5 10.0.0.5:7000\nlist\njoin 5 10.0.0.5:7000\njoin 6\njoin 6 10.0.0.6:7000 x\n\
remove 9\nremove 5\nlist\nList\nlist \nstats 3\nstats\nreload\nstop\nlist\n";

// Of a seed of zeros the first place drawn of three is the last: the first word of its stream is 0xade0b876.
const THEIR_ANSWERS: &[u8] =
    b"gap none\njoined 2\n2 10.0.0.2:7000 up\n3 10.0.0.3:7000 up\n5 10.0.0.5:7000 up\n.\n\
refused 2\nfault 4\nfault 5\nrefused 4\nremoved\n2 10.0.0.2:7000 up\n3 10.0.0.3:7000 up\n.\n\
fault 2\nfault 5\nfault 5\nlives 7\n.\nreloaded; wire needs a start\nstopping\n";

// A life in which an operator types these lines, and how it ended.
fn typed<R: Wait + Copy + Drop>(
    rt: R,
    alloc: Global,
    room: &Room,
    lines: &'static [u8],
) -> Result<Option<Lived>, Fail> {
    let mut door = Row::new(alloc, room, 3);
    door.operator(Who::First, Typed::new(0, lines))?;
    let mut controller = controller(alloc, door);
    live(rt, alloc, 1000, &room.over, &mut controller)
}

// The last line is cut off: the connection ends with it, and the life goes on until it is over. Nothing is in the
// journal.
#[test]
fn an_operator_is_answered(rt: HostRuntime) -> Result<(), Fail> {
    let room = Room::of_one(ANSWERS);
    let lived = typed(rt, rt.alloc(), &room, LINES)?;
    let wanted = Lived {
        why: None,
        entries: 0,
        refused: 0,
    };
    assert_same(&rt, &lived, &Some(wanted));
    assert!(rt; room.first.is_all());
    Ok(())
}

// Each join and each removal is in the journal, one that is refused too, and nothing else is. No line is answered behind
// the stop.
#[test]
fn an_operator_makes_calls(rt: HostRuntime) -> Result<(), Fail> {
    let room = Room::of_one(THEIR_ANSWERS);
    let lived = typed(rt, rt.alloc(), &room, CALLS)?;
    let wanted = Lived {
        why: Some(Why::Stopped),
        entries: 4,
        refused: 0,
    };
    assert_same(&rt, &lived, &Some(wanted));
    assert!(rt; room.first.is_all());
    Ok(())
}
