//! The ticks that a view is of. Periods have three ticks, and the first of them is period 8.

use super::{address, assert_same, called, id, journal, span};
use std::alloc::Global;
use std::process::Abort;
use std::test::Fail;
use swim_detector::Recorder;
use swim_history::{Call, Journal, Opening};
use swim_targets::Scripted;
use swim_timeline::{Span, View};
use swim_wire::Version;

// Periods 8, 9 and 10 began at ticks 1, 4 and 7. Member 3 was judged at the end of period 9, which is the second one:
// so the periods round it begin with period 8, and end with 14. Members 2 and 4 weren't judged.
#[test]
fn a_view_is_of_periods_that_began(rt: HostRuntime) -> Result<(), Fail> {
    let wanted = [
        (View::Start, Some(span(0, 1200))),
        (View::From(7), None),
        (View::From(8), Some(span(1, 1200))),
        (View::From(10), Some(span(7, 1206))),
        (View::From(11), None),
        (View::Around(id(3)), Some(span(1, 21))),
        (View::Around(id(4)), None),
        (View::At(id(3), 9), Some(span(1, 21))),
        (View::At(id(3), 8), None),
        (View::At(id(3), 10), None),
        (View::At(id(2), 9), None),
    ];
    assert_views(&rt, &journal(&rt, rt.alloc())?, &wanted);
    Ok(())
}

// Member 2 is judged at the end of period 8, and once more at the end of period 16, which began at tick 25. Round the
// first one are it and five periods behind it; round the second one are periods 11 to 21.
#[test]
fn a_member_is_judged_twice(rt: HostRuntime) -> Result<(), Fail> {
    let wanted = [
        (View::At(id(2), 8), Some(span(1, 18))),
        (View::At(id(2), 16), Some(span(10, 42))),
        (View::Around(id(2)), Some(span(10, 42))),
        (View::At(id(2), 9), None),
        (View::At(id(2), 7), None),
        (View::At(id(2), 17), None),
        (View::At(id(2), u64::MAX), None),
    ];
    assert_views(&rt, &judged_twice(&rt, rt.alloc())?, &wanted);
    Ok(())
}

// Member 2 is the only one, never answers, and joins again behind tick 24.
fn judged_twice<R: Abort>(rt: &R, alloc: Global) -> Result<Journal, Fail> {
    let opening = Opening::check(id(1), 0, 1, 3, &[(id(2), address(2))], 7, Version::One);
    let chooser = Scripted::new(Vec::new(alloc), Vec::new(alloc));
    let recorder = Recorder::open(alloc, opening.map_err(|_| "an opening")?, chooser, 1000);
    let mut calls = [Call::Tick; 29];
    calls[24] = Call::Join(id(2), address(2));
    Ok(called(rt, recorder, &calls))
}

fn assert_views<R: Abort>(rt: &R, journal: &Journal, wanted: &[(View, Option<Span>)]) {
    for (view, span) in wanted {
        assert_view(rt, journal, *view, *span);
    }
}

fn assert_view<R: Abort>(rt: &R, journal: &Journal, view: View, wanted: Option<Span>) {
    assert_same(rt, &Span::of(journal, view), &Ok(wanted));
}
