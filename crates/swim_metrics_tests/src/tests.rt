mod entries;
mod expected;

use crate::tests::entries::{
    address, asked, dropped, first_opening, heard, id, message, outside, second_opening, sent,
    start,
};
use crate::tests::expected::{exposition, key_lines, keys, stats};
use std::alloc::Global;
use std::fmt::Debug;
use std::process::Abort;
use std::test::Fail;
use swim_doubles::FailingPage;
use swim_history::{Call, DropReason, Refusal, Reply};
use swim_metrics::{
    Fingerprints, Hearings, HistogramBucket, Metrics, OddMessage, put_exposition, put_stats,
};
use swim_text::{Page, Sink};
use swim_wire::Kind;

// The two are the same. A call of this is proved at once, and an `assert_eq!` in some seconds.
fn assert_same<T: PartialEq + Debug, R: Abort>(rt: &R, left: &T, right: &T) {
    assert_eq!(rt; *left, *right);
}

fn two_keys() -> Fingerprints {
    let mut fingerprints = Fingerprints::new();
    let _ = fingerprints.try_push(*b"66687aad");
    let _ = fingerprints.try_push(*b"0a1b2c3d");
    fingerprints
}

// These texts, one behind the other.
fn page_of(alloc: Global, texts: &[&str]) -> Page {
    let mut page = Page::new(alloc);
    for text in texts {
        let _ = page.put(text.as_bytes());
    }
    page
}

// Reads an entry. It says nothing of what it does, so that the proofs of long tests stay short.
fn read(metrics: &mut Metrics, call: Call, reply: Reply) {
    metrics.read(&call, &reply);
}

// Member 2 answers its probe itself at once, and once more by member 3.
fn read_period_8(metrics: &mut Metrics) {
    read(metrics, Call::Tick, start(None, 2, 8));
    read(metrics, heard(Kind::Ack, 2, 1, 2, 8), Reply::Heard);
    read(metrics, Call::Tick, Reply::Quiet);
    read(metrics, heard(Kind::Ack, 3, 1, 2, 8), Reply::Heard);
    read(metrics, Call::Tick, Reply::Quiet);
}

// Member 3 answers by 2, two ticks late.
fn read_period_9(metrics: &mut Metrics) {
    read(metrics, Call::Tick, start(None, 3, 9));
    read(metrics, Call::Tick, asked(3, 9, &[2]));
    read(metrics, Call::Tick, Reply::Quiet);
    read(metrics, heard(Kind::Ack, 2, 1, 3, 9), Reply::Heard);
}

// Member 2 answers nothing and is judged. Its ack comes too late.
fn read_period_10(metrics: &mut Metrics) {
    read(metrics, Call::Tick, start(None, 2, 10));
    read(metrics, Call::Tick, asked(2, 10, &[3, 5]));
    read(metrics, Call::Tick, Reply::Quiet);
    read(metrics, Call::Tick, start(Some(id(2)), 3, 11));
    read(
        metrics,
        heard(Kind::Ack, 2, 1, 2, 10),
        dropped(DropReason::Stray),
    );
}

// Member 3 pings, asks for 5 before it is listed and after, and is answered.
fn read_requests(metrics: &mut Metrics) {
    let answer = sent(3, message(Kind::Ack, 1, 3, 1, 40));
    read(metrics, heard(Kind::Ping, 3, 3, 1, 40), answer);
    read(
        metrics,
        heard(Kind::PingReq, 3, 3, 5, 41),
        dropped(DropReason::Unlisted),
    );
    read(
        metrics,
        Call::Join(id(5), address(5)),
        Reply::Joined { place: 0 },
    );
    let ping = sent(5, message(Kind::Ping, 1, 3, 5, 41));
    read(metrics, heard(Kind::PingReq, 3, 3, 5, 41), ping);
    let ack = sent(3, message(Kind::Ack, 1, 3, 5, 41));
    read(metrics, heard(Kind::Ack, 5, 3, 5, 41), ack);
}

// A known member is removed, and one that isn't known is not.
fn read_removals(metrics: &mut Metrics) {
    read(metrics, Call::Remove(id(4)), Reply::Removed);
    read(
        metrics,
        Call::Remove(id(9)),
        Reply::Refused(Refusal::Unknown),
    );
}

// Member 5 is probed, a ping comes that is for another member, and 6 joins.
fn read_period_12(metrics: &mut Metrics) {
    read(metrics, Call::Tick, start(None, 5, 12));
    read(
        metrics,
        heard(Kind::Ping, 5, 5, 9, 3),
        dropped(DropReason::NotForMe),
    );
    read(
        metrics,
        Call::Join(id(6), address(6)),
        Reply::Joined { place: 0 },
    );
}

// Both lives.
fn read_lives() -> Result<Metrics, Fail> {
    let mut metrics = Metrics::new(&first_opening()?);
    read_period_8(&mut metrics);
    read_period_9(&mut metrics);
    read_period_10(&mut metrics);
    read_requests(&mut metrics);
    read_removals(&mut metrics);
    metrics.begins(&second_opening()?);
    read_period_12(&mut metrics);
    Ok(metrics)
}

#[test]
fn tells_two_lives(rt: HostRuntime) -> Result<(), Fail> {
    let metrics = read_lives()?;
    let no_keys = Fingerprints::new();
    let outside = outside("0.9.1", id(1), &no_keys);
    let mut page = Page::new(rt.alloc());
    let is_told = put_exposition(&mut page, &metrics.measures(), &outside);
    assert!(rt; is_told);
    let wanted = page_of(rt.alloc(), &exposition());
    assert_same(&rt, &page.text(), &wanted.text());
    Ok(())
}

#[test]
fn tells_the_stats_of_who_begins(rt: HostRuntime) -> Result<(), Fail> {
    let metrics = Metrics::new(&first_opening()?);
    let no_keys = Fingerprints::new();
    let outside = outside("a\"b\\c\nd", id(1), &no_keys);
    let mut page = Page::new(rt.alloc());
    let is_told = put_stats(&mut page, &metrics.measures(), &outside);
    assert!(rt; is_told);
    let wanted = page_of(rt.alloc(), &stats());
    assert_same(&rt, &page.text(), &wanted.text());
    Ok(())
}

#[test]
fn tells_the_keys(rt: HostRuntime) -> Result<(), Fail> {
    let metrics = read_lives()?;
    let fingerprints = two_keys();
    let outside = outside("0.9.1", id(1), &fingerprints);
    let mut page = Page::new(rt.alloc());
    let is_told = put_exposition(&mut page, &metrics.measures(), &outside);
    assert!(rt; is_told);
    let [front, behind] = exposition();
    let wanted = page_of(rt.alloc(), &[front, keys(), behind]);
    assert_same(&rt, &page.text(), &wanted.text());
    Ok(())
}

#[test]
fn tells_the_keys_in_stats(rt: HostRuntime) -> Result<(), Fail> {
    let metrics = Metrics::new(&first_opening()?);
    let fingerprints = two_keys();
    let outside = outside("a\"b\\c\nd", id(1), &fingerprints);
    let mut page = Page::new(rt.alloc());
    let is_told = put_stats(&mut page, &metrics.measures(), &outside);
    assert!(rt; is_told);
    let [front, behind] = stats();
    let wanted = page_of(rt.alloc(), &[front, key_lines(), behind]);
    assert_same(&rt, &page.text(), &wanted.text());
    Ok(())
}

#[test]
fn counts_are_there_to_be_read(rt: HostRuntime) -> Result<(), Fail> {
    let metrics = read_lives()?;
    let measures = metrics.measures();
    let counts = &measures.counts;
    assert_same(&rt, &counts.ticks, &11);
    assert_same(&rt, &counts.dropped.stray, &1);
    assert_same(
        &rt,
        &counts.waits.buckets[1],
        &HistogramBucket { bound: 2, count: 2 },
    );
    assert_same(
        &rt,
        &(measures.up, measures.failed, measures.number),
        &(3, 1, 12),
    );
    Ok(())
}

// A stranger pings, one that has this member's id does, and member 3 from where 2 is listed.
#[test]
fn odd_senders_are_counted(rt: HostRuntime) -> Result<(), Fail> {
    let mut metrics = Metrics::new(&first_opening()?);
    for sender in [9, 1, 3] {
        let ping = message(Kind::Ping, sender, sender, 1, 3);
        let answer = sent(2, message(Kind::Ack, 1, sender, 1, 3));
        read(&mut metrics, Call::Hear(address(2), ping), answer);
    }
    let odd = metrics.measures().copy().odd;
    assert_same(
        &rt,
        &(odd.unlisted.count, odd.own_id.count, odd.elsewhere.count),
        &(1, 1, 1),
    );
    let newest = OddMessage {
        sender: id(3),
        source: address(2),
        listed: Some(address(3)),
    };
    assert_same(&rt, &odd.elsewhere.newest, &Some(newest));
    Ok(())
}

// Member 2 is heard by 3 alone in two periods, in one of them twice, and then by itself.
#[test]
fn periods_by_relays_alone_are_counted(rt: HostRuntime) -> Result<(), Fail> {
    let mut metrics = Metrics::new(&first_opening()?);
    let acks = [(3, 8, 1), (3, 9, 2), (3, 9, 2), (2, 10, 0), (3, 10, 0)];
    for (sender, number, relayed) in acks {
        read(
            &mut metrics,
            heard(Kind::Ack, sender, 1, 2, number),
            Reply::Heard,
        );
        assert_same(&rt, &metrics.relayed(id(2)), &relayed);
    }
    let first = metrics.members().first();
    assert_same(&rt, &first.map(|member| member.tally.by_relay), &Some(4));
    Ok(())
}

// A sink that fails in the midst took a front of the text.
#[test]
fn a_sink_that_fails_is_told(rt: HostRuntime) -> Result<(), Fail> {
    let metrics = Metrics::new(&first_opening()?);
    let no_keys = Fingerprints::new();
    let outside = outside("0.9.1", id(1), &no_keys);
    for puts in 0..20 {
        let mut page = FailingPage::new(rt.alloc(), Some(puts), None);
        let is_told = put_exposition(&mut page, &metrics.measures(), &outside);
        assert!(rt; !is_told);
    }
    Ok(())
}

// Member 2 was heard in periods 8 and 10, once by member 3; 3 was heard in 9, and then removed.
#[test]
fn members_are_heard_until_they_are_removed(rt: HostRuntime) {
    let mut hearings = Hearings::new();
    for (sender, target, number) in [(2, 2, 8), (3, 3, 9), (3, 2, 10)] {
        hearings.read(&heard(Kind::Ack, sender, 1, target, number), &Reply::Heard);
    }
    hearings.read(&Call::Remove(id(3)), &Reply::Removed);
    for (member, number) in [(2, Some(10)), (3, None), (4, None)] {
        assert_same(&rt, &hearings.last(id(member)), &number);
    }
}

#[test]
fn as_many_are_heard_as_may_be_known(rt: HostRuntime) {
    let mut hearings = Hearings::new();
    for member in 2..130 {
        hearings.read(
            &heard(Kind::Ack, member, 1, member, u64::from(member)),
            &Reply::Heard,
        );
    }
    for member in 2..130 {
        assert_same(&rt, &hearings.last(id(member)), &Some(u64::from(member)));
    }
}
