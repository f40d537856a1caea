use std::alloc::Global;
use std::process::Abort;
use std::test::Fail;
use swim_chart::{Arrow, Chart, Lane, Role, put_chart};
use swim_doubles::FailingPage;
use swim_text::{Page, Sink};
use swim_trace::{Fate, Leg, ProbeName, Way};
use swim_wire::{Id, Kind};

// A datagram: its kind, who sent it to whom, what became of it, and the entries that sent and heard it.
type Told = (Kind, u32, u32, Fate, Option<u32>, Option<u32>);

// Of a probe of member 3 by member 1, which asks members 5 and 2: the ack of member 3 is lost, the one that member 5
// forwards comes after the end of the period, and the request to member 2 is lost.
const TOLD: [Told; 10] = [
    (Kind::Ping, 1, 3, Fate::Passed, Some(89), Some(211)),
    (Kind::Ack, 3, 1, Fate::Lost, Some(211), None),
    (Kind::PingReq, 1, 5, Fate::Passed, Some(91), Some(77)),
    (Kind::Ping, 5, 3, Fate::Passed, Some(77), Some(213)),
    (Kind::Ack, 3, 5, Fate::Passed, Some(213), Some(79)),
    (Kind::Ack, 5, 1, Fate::Dropped, Some(79), Some(96)),
    (Kind::PingReq, 1, 2, Fate::Lost, Some(91), None),
    (Kind::Ping, 2, 3, Fate::Unsent, None, None),
    (Kind::Ack, 3, 2, Fate::Unsent, None, None),
    (Kind::Ack, 2, 1, Fate::Unsent, None, None),
];

// The strokes of that, worked out by hand: a step is 40 pixels wide, from 120 on, and a lane 64 high, from 190 on.
const STROKES: [&str; 9] = [
    "<title>ping 1 -> 3 (arrived), sent at entry 89, heard at entry 211</title><path class=\"whole\" d=\"M120 190L200 254\"/></g>\n",
    "<title>ack 3 -> 1 (lost), sent at entry 211</title><path class=\"half\" d=\"M200 254L240 222\"/>",
    "<use class=\"lost\" href=\"#lost\" x=\"240\" y=\"222\"/></g>\n<g class=\"ping-req\" role=\"img\"><title>ping-req 1 -> 5 (arrived)",
    "<path class=\"whole\" d=\"M360 190L440 318\"/></g>\n",
    "<path class=\"whole\" d=\"M440 318L520 254\"/></g>\n",
    "<path class=\"whole\" d=\"M520 254L640 318\"/></g>\n",
    "(late), sent at entry 79, heard at entry 96</title><path class=\"whole\" d=\"M640 318L960 190\"/><use class=\"ignored\" href=\"#ignored\" x=\"960\" y=\"190\"/>",
    "<path class=\"half\" d=\"M360 190L400 286\"/><use class=\"lost\" href=\"#lost\" x=\"400\" y=\"286\"/></g>\n</g>\n",
    "<path class=\"end\" d=\"M840 160V410\"/><text class=\"entry\" x=\"840\" y=\"154\">judged at entry 95</text>",
];

fn id(value: u32) -> Id {
    Id::new(value).unwrap_or_default()
}

fn arrow(place: u32, told: &Told) -> Arrow {
    let leg = Leg {
        kind: told.0,
        from: id(told.1),
        to: id(told.2),
    };
    Arrow {
        role: Role::at(place),
        way: Way { leg, fate: told.3 },
        is_late: told.3 == Fate::Dropped,
        sent: told.4,
        heard: told.5,
    }
}

fn arrows(alloc: Global) -> Result<Vec<Arrow>, Fail> {
    let mut arrows = Vec::new(alloc);
    let mut place = 0u32;
    for told in &TOLD {
        arrows.push(arrow(place, told))?;
        place = place.saturating_add(1);
    }
    Ok(arrows)
}

fn draw<W: Sink>(alloc: Global, conclusion: &str, page: &mut W) -> Result<bool, Fail> {
    let lanes = [
        Lane {
            place: 0,
            member: id(1),
        },
        Lane {
            place: 3,
            member: id(2),
        },
    ];
    let arrows = arrows(alloc)?;
    let chart = Chart {
        probe: ProbeName {
            initiator: id(1),
            target: id(3),
            number: 12,
        },
        judged: 95,
        relays: 2,
        conclusion,
        lanes: &lanes,
        arrows: arrows.as_slice(),
    };
    Ok(put_chart(page, &chart))
}

fn stands_in(text: &[u8], words: &[u8]) -> bool {
    for start in 0..text.len() {
        if text[start..].starts_with(words) {
            return true;
        }
    }
    false
}

#[test]
fn strokes_are_where_they_were_worked_out(rt: HostRuntime) -> Result<(), Fail> {
    let mut page = Page::new(rt.alloc());
    assert!(rt; draw(rt.alloc(), "3 was alive", &mut page)?);
    assert_strokes(&rt, page.text());
    assert!(rt; !stands_in(page.text(), b"(not sent)"));
    Ok(())
}

fn assert_strokes<R: Abort>(rt: &R, text: &[u8]) {
    for stroke in STROKES {
        assert!(rt; stands_in(text, stroke.as_bytes()));
    }
}

#[test]
fn a_picture_stands_alone(rt: HostRuntime) -> Result<(), Fail> {
    let mut page = Page::new(rt.alloc());
    assert!(rt; draw(rt.alloc(), "a < b & c", &mut page)?);
    let text = page.text();
    assert!(rt;
        text.starts_with(b"<svg xmlns=\"http://www.w3.org/2000/svg\" width=\"1104\" height=\"426\"")
    );
    assert!(rt;
        stands_in(
            text,
            b"<title id=\"title\">Probe of member 3 by member 1, period 12</title>\n"
        )
    );
    assert!(rt; stands_in(text, b">a &lt; b &amp; c</text>\n"));
    assert!(rt; text.ends_with(b"</svg>\n"));
    Ok(())
}

#[test]
fn tells_what_was_not_written(rt: HostRuntime) -> Result<(), Fail> {
    let mut page = FailingPage::new(rt.alloc(), Some(30), None);
    assert!(rt; !draw(rt.alloc(), "3 was alive", &mut page)?);
    Ok(())
}
