use super::steps::{ByTwo, Step};
use super::*;
use swim_history::Gap;

// Members 2 and 3 are probed in the orders 2, 3 and 3, 2, and each answers. A seat that made no call is told the
// same.
#[test]
fn gaps_are_those_of_all_calls(rt: HostRuntime) -> Result<(), Fail> {
    let alloc = rt.alloc();
    let (first, second) = (periods_and_gaps(), [gap_of_2(), gap_of_3(), no_gap()]);
    let trial = ByTwo {
        steps: &first,
        others_steps: &second,
    };
    let journal = try_on_node(rt, alloc, 1000, opening(0)?, two_orders(alloc)?, trial)?;
    assert_same(&rt, &journal.len(), &13);
    Ok(())
}

fn two_orders(alloc: Global) -> Result<Scripted, Fail> {
    let orders = vec![in alloc; order_of(&[2, 3]), order_of(&[3, 2])]?;
    Ok(Scripted::new(orders, Vec::new(alloc)))
}

// Three periods and the start of a fourth.
fn periods_and_gaps() -> [Step; 7] {
    [
        Step::Acked(2, 1),
        Step::Acked(3, 2),
        Step::Acked(3, 3),
        Step::Made(Call::Tick),
        gap_of_2(),
        gap_of_3(),
        no_gap(),
    ]
}

fn gap_of_2() -> Step {
    Step::Gap(id(2), Some(Gap { a: 1, b: 4, n: 2 }))
}

fn gap_of_3() -> Step {
    Step::Gap(id(3), Some(Gap { a: 2, b: 3, n: 2 }))
}

fn no_gap() -> Step {
    Step::Gap(id(9), None)
}
