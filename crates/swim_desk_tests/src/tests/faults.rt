//! A door that is out of order, and one that turns operators away.

use super::*;

// The controller with that door, after a life of nobody's calls, which ended so.
fn lived<'s, R: Wait + Copy + Drop + Abort>(
    rt: R,
    alloc: Global,
    room: &'s Room,
    door: Row<'s>,
    why: Option<Why>,
) -> Result<Controller<Row<'s>, Teller>, Fail> {
    let mut controller = controller(alloc, door);
    let lived = live(rt, alloc, 1000, &room.over, &mut controller)?;
    let wanted = Lived {
        why,
        entries: 0,
        refused: 0,
    };
    assert_same(&rt, &lived, &Some(wanted));
    Ok(controller)
}

#[test]
fn sixteen_faults_end_the_controller(rt: HostRuntime) -> Result<(), Fail> {
    let room = Room::of_one(b"");
    let mut door = Row::new(rt.alloc(), &room, 0);
    door.faults(17)?;
    let controller = lived(rt, rt.alloc(), &room, door, Some(Why::Socket))?;
    assert_same(&rt, &controller.hall.door.left(), &1);
    Ok(())
}

#[test]
fn an_answer_ends_the_row_of_faults(rt: HostRuntime) -> Result<(), Fail> {
    let room = Room::of_one(b"");
    let mut door = Row::new(rt.alloc(), &room, 0);
    door.faults(15)?;
    door.nobody()?;
    door.faults(15)?;
    let controller = lived(rt, rt.alloc(), &room, door, None)?;
    assert_same(&rt, &controller.hall.door.left(), &0);
    Ok(())
}

// While an operator is there, who types when the door is in order again, no fault counts.
#[test]
fn an_operator_is_served_beside_faults(rt: HostRuntime) -> Result<(), Fail> {
    let room = Room::of_one(b"gap none\n");
    let mut door = Row::new(rt.alloc(), &room, 3);
    door.faults(20)?;
    door.operator(Who::First, Typed::new(21, b"gap 2\n"))?;
    let controller = lived(rt, rt.alloc(), &room, door, None)?;
    assert_same(&rt, &controller.hall.door.left(), &0);
    assert!(rt; room.first.is_all());
    Ok(())
}

// Operators who are turned away are counted, and the speaker is told of them once a turn: of nobody in the first one.
#[test]
fn who_is_turned_away_is_told(rt: HostRuntime) -> Result<(), Fail> {
    let room = Room::of_one(b"lives 7\n.\n");
    let mut door = Row::new(rt.alloc(), &room, 1);
    door.operator(Who::First, Typed::new(0, b"stats\n"))?;
    door.refusals(2)?;
    let controller = lived(rt, rt.alloc(), &room, door, None)?;
    assert!(rt; room.first.is_all());
    assert_same(&rt, &controller.hall.turned_away, &2);
    assert_same(&rt, &controller.speaker.turned_away, &2);
    assert_same(&rt, &controller.speaker.turns, &5);
    Ok(())
}

// However many are turned away with nobody at the door, the life goes on until it is over.
#[test]
fn refusals_of_an_empty_door(rt: HostRuntime) -> Result<(), Fail> {
    let room = Room::of_one(b"");
    let mut door = Row::new(rt.alloc(), &room, 0);
    door.refusals(40)?;
    let controller = lived(rt, rt.alloc(), &room, door, None)?;
    assert_same(&rt, &controller.hall.door.left(), &0);
    assert_same(&rt, &controller.hall.turned_away, &40);
    Ok(())
}
