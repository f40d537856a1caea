use crate::rows::{ack, failed, id, period, rejoiner};
use std::process::Abort;
use swim_history::{Row, RowState};
use swim_rejoin::{Knocker, Rejoiner};
use swim_wire::Version;

/// How many members are failed.
const FAILED: usize = 64;

/// The first of them by id.
const FIRST: u8 = 65;

fn is_up(row: &Row) -> bool {
    row.state == RowState::Up
}

// A period starts: whoever is knocked at answers, and is joined again at once. The place of its row.
fn start(
    rt: &impl Abort,
    knocker: &mut Knocker,
    rejoiner: &mut Rejoiner,
    rows: &[Row],
    number: u64,
) -> usize {
    let Some(knock) = knocker.start(1, rows, period(number)) else {
        panic!(rt; "no knock in {number}");
    };
    let whom = knock.message.target;
    rejoiner.knocked(whom, period(number));
    let member = u8::try_from(whom.get()).unwrap_or_default();
    assert!(rt;
        rejoiner
            .believes(&ack(member, number), &knock.peer)
            .is_some()
    );
    rejoiner.joined(whom, number);
    usize::from(member.saturating_sub(FIRST))
}

// Half of a group of 128 was cut off, and is there again: with a knock at each start the last of them is up after 64
// periods, and not before.
#[test]
fn sixty_four_come_back_in_64_periods(rt: HostRuntime) {
    let mut rows = [failed(FIRST, 20); FAILED];
    for place in 0..FAILED {
        rows[place] = failed(u8::try_from(place + 65).unwrap_or_default(), 20);
    }
    let mut knocker = Knocker::new(id(1), Version::One);
    let mut rejoiner = rejoiner(1);
    rejoiner.looked_at(&rows);
    for number in 21..85u64 {
        assert!(rt; !rows.iter().all(is_up), "all are up before {number}");
        let place = start(&rt, &mut knocker, &mut rejoiner, &rows, number);
        assert!(rt; place < FAILED);
        rows[place].state = RowState::Up;
        rejoiner.looked_at(&rows);
    }
    assert!(rt; rows.iter().all(is_up));
}
