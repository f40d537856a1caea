mod clock;
mod views;

use std::alloc::Global;
use std::fmt::Debug;
use std::process::Abort;
use std::test::Fail;
use swim_detector::Recorder;
use swim_doubles::FailingPage;
use swim_history::{Call, Journal, Opening, Row, RowState};
use swim_targets::Scripted;
use swim_text::Page;
use swim_timeline::{MarkKind, Picture, PictureMark, Span, Times, put_timeline, show};
use swim_wire::{Id, Kind, Message, Peer, PeriodNumber, Version};

// The two are the same. A call of this is proved at once, and an `assert_eq!` in some seconds.
fn assert_same<T: PartialEq + Debug, R: Abort>(rt: &R, left: &T, right: &T) {
    assert_eq!(rt; *left, *right);
}

fn id(value: u32) -> Id {
    Id::new(value).unwrap_or_default()
}

fn address(last: u8) -> Peer {
    Peer {
        ip: [10, 0, 0, last],
        port: 7000,
    }
}

// Of member 1, which asks one relay, with a timeout of one tick and a period of three, after period 7. Members 2, 3 and
// 4 are up.
fn opening(version: Version) -> Result<Opening, Fail> {
    opening_after(7, version)
}

// The same after that period.
fn opening_after(last: u64, version: Version) -> Result<Opening, Fail> {
    let rows = [
        (id(2), address(2)),
        (id(3), address(3)),
        (id(4), address(4)),
    ];
    Ok(Opening::check(id(1), 1, 1, 3, &rows, last, version).map_err(|_| "an opening")?)
}

// The ack of member 2 for period 8, as member 3 forwards it.
fn forwarded_ack() -> Call {
    let message = Message {
        version: Version::One,
        kind: Kind::Ack,
        sender: id(3),
        initiator: id(1),
        target: id(2),
        number: PeriodNumber::new(8).unwrap_or_default(),
        at: None,
    };
    Call::Hear(address(3), message)
}

// Member 2 acks by a relay, 5 joins and leaves, and 3 is judged.
fn calls() -> [Call; 10] {
    [
        Call::Tick,
        Call::Tick,
        forwarded_ack(),
        Call::Tick,
        Call::Join(id(5), address(5)),
        Call::Remove(id(5)),
        Call::Tick,
        Call::Tick,
        Call::Tick,
        Call::Tick,
    ]
}

// The journal of these calls. Orders are left as they are.
fn journal<R: Abort>(rt: &R, alloc: Global) -> Result<Journal, Fail> {
    let chooser = Scripted::new(Vec::new(alloc), Vec::new(alloc));
    let recorder = Recorder::open(alloc, opening(Version::One)?, chooser, 1000);
    Ok(called(rt, recorder, &calls()))
}

fn called<R: Abort>(rt: &R, recorder: Recorder<Scripted>, calls: &[Call]) -> Journal {
    let mut recorder = recorder;
    for call in calls {
        assert!(rt; recorder.apply(0, *call).is_ok());
    }
    recorder.into_journal()
}

fn span(first: u32, until: u64) -> Span {
    Span { first, until }
}

fn state_at(rows: &[Row], place: usize) -> Option<RowState> {
    match rows.get(place) {
        Some(row) => Some(row.state),
        None => None,
    }
}

#[test]
fn each_kind_has_its_mark(rt: HostRuntime) -> Result<(), Fail> {
    let shown = show(rt.alloc(), &journal(&rt, rt.alloc())?, span(0, 10))?;
    assert_counts(&rt, &shown, (7, 10), 4);
    assert_each_kind(&rt, shown.marks.as_slice());
    Ok(())
}

// So many ticks and entries, and so many lanes.
fn assert_counts<R: Abort>(rt: &R, shown: &Picture, counts: (u32, u32), lanes: usize) {
    assert_same(rt, &(shown.ticks, shown.entries), &counts);
    assert_same(rt, &shown.lanes.len(), &lanes);
}

fn assert_each_kind<R: Abort>(rt: &R, marks: &[PictureMark]) {
    let places = [
        (1, 2),
        (2, 2),
        (2, 2),
        (3, 5),
        (3, 5),
        (4, 3),
        (5, 3),
        (7, 3),
        (7, 4),
    ];
    assert_places(rt, marks, &places);
    assert!(rt; is_ask(kind_at(marks, 1), 8));
    assert!(rt; is_ask(kind_at(marks, 6), 9));
    let kinds = [
        (0, MarkKind::Probed(8)),
        (2, MarkKind::Heard(8)),
        (3, MarkKind::Joined),
        (4, MarkKind::Removed),
        (5, MarkKind::Probed(9)),
        (7, MarkKind::Judged(9)),
        (8, MarkKind::Probed(10)),
    ];
    for (place, kind) in &kinds {
        assert_same(rt, &kind_at(marks, *place), &Some(kind));
    }
}

// The ticks and members of these marks.
fn assert_places<R: Abort>(rt: &R, marks: &[PictureMark], wanted: &[(u32, u32)]) {
    assert_same(rt, &marks.len(), &wanted.len());
    for (mark, place) in marks.iter().zip(wanted) {
        assert_same(rt, &(mark.tick, mark.member.get()), place);
    }
}

fn kind_at(marks: &[PictureMark], place: usize) -> Option<&MarkKind> {
    match marks.get(place) {
        Some(mark) => Some(&mark.kind),
        None => None,
    }
}

// Whether one relay was asked at the timeout of this period.
fn is_ask(kind: Option<&MarkKind>, number: u64) -> bool {
    matches!(kind, Some(MarkKind::Asked(asked, relays)) if *asked == number && relays.len() == 1)
}

#[test]
fn a_long_run_is_cut_behind_a_tick(rt: HostRuntime) -> Result<(), Fail> {
    let shown = show(rt.alloc(), &journal(&rt, rt.alloc())?, span(0, 4))?;
    assert_same(&rt, &(shown.ticks, shown.entries), &(7, 7));
    assert_same(&rt, &shown.marks.len(), &6);
    Ok(())
}

// Members 2 and 3 were probed before, and 5 has come and gone. What is left of ticks 5 to 6 is an ask.
#[test]
fn a_later_part_begins_with_the_table_of_then(rt: HostRuntime) -> Result<(), Fail> {
    let journal = journal(&rt, rt.alloc())?;
    let (alloc, journal) = (rt.alloc(), &journal);
    assert_behind_fifth(&rt, &show(alloc, journal, span(5, 6))?);
    assert_behind_last(&rt, &show(alloc, journal, span(8, 20))?);
    Ok(())
}

fn assert_behind_fifth<R: Abort>(rt: &R, shown: &Picture) {
    assert_same(rt, &(shown.before.entries, shown.entries), &(7, 9));
    assert_same(rt, &(shown.before.rows.len(), shown.lanes.len()), &(3, 3));
    assert_places(rt, shown.marks.as_slice(), &[(5, 3)]);
}

fn assert_behind_last<R: Abort>(rt: &R, shown: &Picture) {
    let judged = state_at(shown.before.rows.as_slice(), 1);
    assert_same(rt, &judged, &Some(RowState::Failed(9)));
    assert!(rt; shown.marks.is_empty());
}

#[test]
fn an_empty_run_has_its_lanes(rt: HostRuntime) -> Result<(), Fail> {
    let journal = Journal::new(rt.alloc(), opening(Version::One)?);
    let shown = show(rt.alloc(), &journal, span(0, 10))?;
    assert_counts(&rt, &shown, (0, 0), 3);
    assert!(rt; shown.marks.is_empty());
    assert_drawn(&rt, picture_of(rt.alloc(), &journal)?.text());
    Ok(())
}

fn assert_drawn<R: Abort>(rt: &R, text: &[u8]) {
    assert!(rt; text.starts_with(b"<svg xmlns="));
    assert!(rt; text.ends_with(b"</svg>\n"));
}

// The picture of a run's first ticks, of which no times are known.
fn picture_of(alloc: Global, journal: &Journal) -> Result<Page, Fail> {
    picture_with(alloc, journal, &Times::new(alloc))
}

fn picture_with(alloc: Global, journal: &Journal, times: &Times) -> Result<Page, Fail> {
    let mut page = Page::new(alloc);
    if put_timeline(alloc, journal, span(0, 10), times, &mut page)? {
        return Ok(page);
    }
    Err(Fail::new("a picture"))
}

// Whether these words stand in the picture of a run without calls, where the member's own messages have that version.
fn has_words(alloc: Global, version: Version, words: &[u8]) -> Result<bool, Fail> {
    has_words_of(alloc, opening(version)?, words)
}

fn has_words_of(alloc: Global, opening: Opening, words: &[u8]) -> Result<bool, Fail> {
    let journal = Journal::new(alloc, opening);
    let page = picture_of(alloc, &journal)?;
    Ok(stands_in(page.text(), words))
}

fn stands_in(text: &[u8], words: &[u8]) -> bool {
    for start in 0..text.len() {
        if text[start..].starts_with(words) {
            return true;
        }
    }
    false
}

#[test]
fn the_head_tells_the_second_version_alone(rt: HostRuntime) -> Result<(), Fail> {
    let first = b">period 3 ticks, timeout 1, relays 1</text>\n";
    let second = b">period 3 ticks, timeout 1, relays 1, wire 2</text>\n";
    assert!(rt; has_words(rt.alloc(), Version::One, first)?);
    assert!(rt; !has_words(rt.alloc(), Version::One, second)?);
    assert!(rt; has_words(rt.alloc(), Version::Two, second)?);
    assert!(rt; !has_words(rt.alloc(), Version::Two, first)?);
    Ok(())
}

#[test]
fn the_head_tells_a_long_first_number_alone(rt: HostRuntime) -> Result<(), Fail> {
    let long = b", relays 1, period 1 is 1000000000000</text>\n";
    let short = b", relays 1</text>\n";
    let opening = opening_after(999_999_999_999, Version::One)?;
    assert!(rt; has_words_of(rt.alloc(), opening, long)?);
    let opening = opening_after(999_999_999_998, Version::One)?;
    assert!(rt; has_words_of(rt.alloc(), opening, short)?);
    Ok(())
}

#[test]
fn tells_what_was_not_written(rt: HostRuntime) -> Result<(), Fail> {
    let journal = Journal::new(rt.alloc(), opening(Version::One)?);
    let mut page = FailingPage::new(rt.alloc(), Some(0), None);
    let times = Times::new(rt.alloc());
    assert!(rt; !put_timeline(rt.alloc(), &journal, span(0, 10), &times, &mut page)?);
    Ok(())
}
