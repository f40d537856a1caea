use std::process::Abort;
use std::test::*;
use swim_work::{Counts, Metered, Meters};

// Five counts of three workers, no two of them alike: each is shown as what it is, and all are added up.
#[test]
fn each_count_is_shown_as_itself(rt: HostRuntime) -> Result<(), Fail> {
    let meters = Meters::new();
    let first = Counts {
        unsent: 20,
        wire: 300,
        refused: 4_000,
    };
    meters.first.show(1, first);
    meters.first.show_knocks(50_000);
    let metered = Metered {
        calls: 1,
        unsent: 20,
        wire: 300,
        refused: 4_000,
        knocks: 50_000,
    };
    assert!(rt; meters.read() == metered);
    let others = Counts {
        unsent: 2,
        wire: 3,
        refused: 4,
    };
    meters.second.show(7, others);
    meters.third.show_knocks(5);
    let metered = Metered {
        calls: 8,
        unsent: 22,
        wire: 303,
        refused: 4_004,
        knocks: 50_005,
    };
    assert!(rt; meters.read() == metered);
    Ok(())
}
