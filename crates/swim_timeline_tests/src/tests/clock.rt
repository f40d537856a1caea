//! The clock line. Periods 8, 9 and 10 of the journal began at ticks 1, 4 and 7, by its entries 0, 6 and 9. A tick is
//! 56 pixels wide there. 1795996798 is two seconds before 2026-11-30 began, in UTC.

use super::{assert_same, journal, picture_of, picture_with, stands_in};
use std::alloc::Global;
use std::process::Abort;
use std::test::Fail;
use swim_text::Page;
use swim_timeline::{StartTime, Times};

// What stands in it of each start: where its date and its time stand, and its words.
const WHOLE: [&str; 9] = [
    "\n<g id=\"clock\" text-anchor=\"middle\">\n<text class=\"tick date\" x=\"232\" y=\"134\"",
    " aria-hidden=\"true\">2026-11-29</text><text class=\"tick clock\" x=\"232\" y=\"149\" role=\"img\">",
    "<title>a period began at 2026-11-29T23:59:58Z, tick 1</title>23:59:58</text>\n",
    "\n<text class=\"tick date\" x=\"400\" y=\"134\" aria-hidden=\"true\">2026-11-30</text>",
    "2026-11-30</text><text class=\"tick clock\" x=\"400\" y=\"149\" role=\"img\">",
    "<title>a period began at 2026-11-30T00:00:01Z, tick 4</title>00:00:01</text>\n",
    "\n<text class=\"tick clock\" x=\"568\" y=\"149\" role=\"img\"><title>",
    "<title>a period began at 2026-11-30T00:00:04Z, tick 7</title>00:00:04</text>\n</g>\n",
    "\n<text class=\"tick clock\" x=\"24\" y=\"149\" aria-hidden=\"true\">UTC</text>\n<g id=\"clock\"",
];

fn seconds(seconds: u64) -> StartTime {
    StartTime {
        seconds,
        milliseconds: None,
    }
}

// The picture of the journal with these times, by places.
fn picture_at<R: Abort>(rt: &R, alloc: Global, known: &[(u32, StartTime)]) -> Result<Page, Fail> {
    let mut times = Times::new(alloc);
    for (place, time) in known {
        times.insert(*place, *time)?;
    }
    picture_with(alloc, &journal(rt, alloc)?, &times)
}

#[test]
fn each_start_has_its_time(rt: HostRuntime) -> Result<(), Fail> {
    let known = [
        (0, seconds(1_795_996_798)),
        (6, seconds(1_795_996_801)),
        (9, seconds(1_795_996_804)),
    ];
    let page = picture_at(&rt, rt.alloc(), &known)?;
    for words in WHOLE {
        assert!(rt; stands_in(page.text(), words.as_bytes()), "{words}");
    }
    Ok(())
}

#[test]
fn what_no_time_tells_is_left_out(rt: HostRuntime) -> Result<(), Fail> {
    let page = picture_at(&rt, rt.alloc(), &[(6, seconds(1_795_996_801))])?;
    assert!(rt; !stands_in(page.text(), b">23:59:58<"));
    assert!(rt; stands_in(page.text(), b" tick 4</title>00:00:01</text>\n</g>\n"));
    assert!(rt; !stands_in(page.text(), b">00:00:04<"));
    Ok(())
}

// Whether a picture with these times is the one without any.
fn is_plain<R: Abort>(rt: &R, alloc: Global, known: &[(u32, StartTime)]) -> Result<bool, Fail> {
    let page = picture_at(rt, alloc, known)?;
    let plain = picture_of(alloc, &journal(rt, alloc)?)?;
    Ok(page.text() == plain.text())
}

// Entries 1, 4 and 10 are none that started a period: an ask, a join, and none at all. jiff's last second is in
// the last days of the year 9999.
#[test]
fn where_no_start_has_a_time_there_is_no_line(rt: HostRuntime) -> Result<(), Fail> {
    let time = seconds(1_795_996_798);
    let others = [(1, time), (4, time), (10, time)];
    assert!(rt; is_plain(&rt, rt.alloc(), &others)?);
    for late in [253_402_300_800, 9_223_372_036_854_775_807, u64::MAX] {
        assert!(rt; is_plain(&rt, rt.alloc(), &[(0, seconds(late))])?);
    }
    assert!(rt; !is_plain(&rt, rt.alloc(), &[(0, time)])?);
    Ok(())
}

#[test]
fn milliseconds_are_told_where_they_are_known(rt: HostRuntime) -> Result<(), Fail> {
    let time = StartTime {
        seconds: 1_795_996_798,
        milliseconds: Some(7),
    };
    let page = picture_at(&rt, rt.alloc(), &[(0, time)])?;
    let words = "2026-11-29T23:59:58.007Z, tick 1</title>23:59:58.007</text>";
    assert!(rt; stands_in(page.text(), words.as_bytes()));
    Ok(())
}

#[test]
fn a_clock_that_was_set_back_tells_its_day_again(rt: HostRuntime) -> Result<(), Fail> {
    let known = [
        (0, seconds(1_795_996_801)),
        (6, seconds(1_795_996_798)),
        (9, seconds(0)),
    ];
    let page = picture_at(&rt, rt.alloc(), &known)?;
    for words in [
        ">2026-11-30</text><text class=\"tick clock\" x=\"232\"",
        ">2026-11-29</text><text class=\"tick clock\" x=\"400\"",
        ">1970-01-01</text><text class=\"tick clock\" x=\"568\"",
        ">00:00:00</text>",
    ] {
        assert!(rt; stands_in(page.text(), words.as_bytes()), "{words}");
    }
    Ok(())
}

// How a time is told as it stands in a file, and in UTC.
fn assert_told<R: Abort>(
    rt: &R,
    alloc: Global,
    time: StartTime,
    told: &str,
    utc: Option<&str>,
) -> Result<(), Fail> {
    let text = format!(in alloc; "{time}")?;
    assert_same(rt, &text.as_str(), &told);
    match time.utc() {
        Some(found) => assert_same(rt, &Some(found.as_str()), &utc),
        None => assert_same(rt, &None, &utc),
    }
    Ok(())
}

#[test]
fn a_time_is_told_with_as_many_digits_as_it_has(rt: HostRuntime) -> Result<(), Fail> {
    for (seconds, milliseconds, told, utc) in [
        (0, None, "0", Some("1970-01-01T00:00:00Z")),
        (0, Some(0), "0.000", Some("1970-01-01T00:00:00.000Z")),
        (
            1_795_996_798,
            Some(40),
            "1795996798.040",
            Some("2026-11-29T23:59:58.040Z"),
        ),
        (u64::MAX, Some(999), "18446744073709551615.999", None),
    ] {
        let time = StartTime {
            seconds,
            milliseconds,
        };
        assert_told(&rt, rt.alloc(), time, told, utc)?;
    }
    Ok(())
}
