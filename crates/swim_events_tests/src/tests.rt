ghost use Rattle.std.specs.Prelude.{None};

use std::fmt::Debug;
use std::process::Abort;
use std::test::Fail;
use swim_events::{
    Event, Gallery, Offer, Outlet, Watcher, Watching, event_of_row, line_of, tell_next,
};
use swim_history::{Call, Change, Opening, Reply, Row, RowState, change_by};
use swim_wire::{Id, Peer, Version};

// The two are the same. A call of this is proved at once, and an `assert_eq!` in some seconds.
fn assert_same<T: PartialEq + Debug, R: Abort>(rt: &R, left: &T, right: &T) {
    assert_eq!(rt; *left, *right);
}

fn id(value: u32) -> Id {
    Id::new(value).unwrap_or_default()
}

fn address(last: u8) -> Peer {
    Peer {
        ip: [10, 0, 0, last],
        port: 7000,
    }
}

// Of member 1, after period 7. Members 3 and 2 are up, and 4 failed in period 5.
fn opening() -> Result<Opening, Fail> {
    let rows = [
        (id(3), address(3)),
        (id(2), address(2)),
        (id(4), address(4)),
    ];
    let all_up = Opening::check(id(1), 1, 1, 3, &rows, 7, Version::One).map_err(|_| "an opening")?;
    Ok(all_up.with_failed(id(4), 5).ok_or("a known member")?)
}

fn start(judged: Option<Id>) -> Reply {
    Reply::Started {
        judged,
        probe: None,
    }
}

#[test]
fn writes_each_event(rt: HostRuntime) {
    let widest = Peer {
        ip: [255, 255, 255, 255],
        port: 65535,
    };
    let lines = [
        (
            Event::Changed(Change::Up(id(3), address(3))),
            "up 3 10.0.0.3:7000\n",
        ),
        (
            Event::Changed(Change::Up(id(u32::MAX), widest)),
            "up 4294967295 255.255.255.255:65535\n",
        ),
        (Event::Changed(Change::Failed(id(3), 17)), "failed 3 17\n"),
        (
            Event::Changed(Change::Failed(id(u32::MAX), u64::MAX)),
            "failed 4294967295 18446744073709551615\n",
        ),
        (Event::Changed(Change::Gone(id(3))), "gone 3\n"),
        (Event::Life(2), "life 2\n"),
        (Event::Lost, "lost\n"),
        (Event::Ended, "ended\n"),
    ];
    for (event, text) in lines {
        assert_same(&rt, &line_of(&event).as_str(), &text);
    }
}

#[test]
fn tells_a_row_as_it_stands(rt: HostRuntime) {
    let mut row = Row {
        id: id(5),
        peer: address(5),
        state: RowState::Up,
    };
    assert_same(
        &rt,
        &line_of(&event_of_row(&row)).as_str(),
        &"up 5 10.0.0.5:7000\n",
    );
    row.state = RowState::Failed(9);
    assert_same(&rt, &line_of(&event_of_row(&row)).as_str(), &"failed 5 9\n");
}

#[test]
fn tells_the_table_and_then_each_change(rt: HostRuntime) -> Result<(), Fail> {
    let mut watching = Watching::new(&opening()?);
    let mut early = Watcher::new(rt.alloc(), watching.rows())?;
    let calls = [
        (Call::Tick, start(None)),
        (Call::Join(id(5), address(5)), Reply::Joined { place: 0 }),
        (Call::Tick, Reply::Quiet),
        (Call::Remove(id(4)), Reply::Removed),
        (Call::Tick, start(Some(id(3)))),
    ];
    for (call, reply) in calls {
        if let Some(change) = watching.next(&call, &reply) {
            early.put(line_of(&Event::Changed(change)).as_str().as_bytes());
        }
    }
    let late = Watcher::new(rt.alloc(), watching.rows())?;
    let told =
        b"up 2 10.0.0.2:7000\nup 3 10.0.0.3:7000\nfailed 4 5\n.\nup 5 10.0.0.5:7000\ngone 4\nfailed 3 8\n".as_slice();
    let table = b"up 2 10.0.0.2:7000\nfailed 3 8\nup 5 10.0.0.5:7000\n.\n".as_slice();
    assert_same(&rt, &early.pending(), &told);
    assert_same(&rt, &late.pending(), &table);
    assert_same(
        &rt,
        &change_by(&Call::Tick, &start(Some(id(2))), 8),
        &Some(Change::Failed(id(2), 8)),
    );
    Ok(())
}

// Takes all, but nothing while it is slow, and a byte each time where it trickles.
#[derive(Drop)]
enum Pipe {
    Quick,
    Trickling,
    Slow(u32),
    Gone,
}

impl Outlet for Pipe {
    ghost taken = { λ p. None };

    ghost offers = { λ p. None };

    fn offer(&mut self, bytes: &[u8]) -> Offer {
        match self {
            Pipe::Quick => Offer::Took(bytes.len()),
            Pipe::Trickling => Offer::Took(bytes.len().min(1)),
            Pipe::Gone => Offer::Gone,
            Pipe::Slow(0) => Offer::Took(bytes.len()),
            Pipe::Slow(left) => {
                *left -= 1;
                Offer::Full
            }
        }
    }
}

#[test]
fn who_is_slow_is_lost(rt: HostRuntime) -> Result<(), Fail> {
    let mut slow = Watcher::new(rt.alloc(), &[])?;
    // Its line has 16 bytes. Behind the two bytes of the table 4,095 of them fit, with 14 bytes left.
    let line = line_of(&Event::Changed(Change::Gone(id(4_000_000_000))));
    for _ in 0..4096 {
        slow.put(line.as_str().as_bytes());
    }
    assert_lost(&rt, &mut slow);
    Ok(())
}

#[test]
fn who_is_slow_leaves_and_the_others_stay(rt: HostRuntime) {
    let mut gallery = Gallery::new(rt.alloc());
    for pipe in [Pipe::Quick, Pipe::Slow(4097), Pipe::Quick] {
        assert!(rt; gallery.admit(rt.alloc(), &[], pipe));
    }
    let event = Event::Changed(Change::Gone(id(4_000_000_000)));
    for _ in 0..4096 {
        gallery.tell(&event);
        gallery.send(0);
    }
    assert_same(&rt, &gallery.len(), &3);
    gallery.send(0);
    assert_same(&rt, &gallery.len(), &3);
    gallery.send(0);
    assert_same(&rt, &gallery.len(), &2);
    gallery.clear();
    assert_same(&rt, &gallery.len(), &0);
}

// Three are told a table of two bytes: the first takes none of them, the second one at a time, and the third all.
#[test]
fn who_takes_nothing_for_ten_seconds_leaves(rt: HostRuntime) {
    let mut gallery = Gallery::new(rt.alloc());
    for pipe in [Pipe::Slow(u32::MAX), Pipe::Trickling, Pipe::Quick] {
        assert!(rt; gallery.admit(rt.alloc(), &[], pipe));
    }
    for time in [5, 9_000, 10_004] {
        gallery.send(time);
        assert_same(&rt, &gallery.len(), &3);
    }
    gallery.send(10_005);
    assert_same(&rt, &gallery.len(), &2);
    gallery.send(100_000);
    assert_same(&rt, &gallery.len(), &2);
}

// What it takes at last ends the wait: the next one is ten seconds long again.
#[test]
fn who_takes_something_again_stays(rt: HostRuntime) {
    let mut gallery = Gallery::new(rt.alloc());
    assert!(rt; gallery.admit(rt.alloc(), &[], Pipe::Slow(2)));
    for time in [0, 9_999, 10_000, 20_000] {
        gallery.send(time);
        assert_same(&rt, &gallery.len(), &1);
    }
}

#[test]
fn tells_entries_to_all_of_them(rt: HostRuntime) -> Result<(), Fail> {
    let mut watching = Watching::new(&opening()?);
    let mut gallery = Gallery::new(rt.alloc());
    for _ in 0..63 {
        assert!(rt; gallery.admit(rt.alloc(), watching.rows(), Pipe::Quick));
    }
    assert!(rt; gallery.admit(rt.alloc(), watching.rows(), Pipe::Gone));
    assert!(rt; gallery.is_full());
    assert!(rt; !gallery.admit(rt.alloc(), watching.rows(), Pipe::Quick));
    let judged = start(Some(id(3)));
    let change = tell_next(&mut watching, &mut gallery, &Call::Tick, &judged);
    assert_same(&rt, &change, &Some(Change::Failed(id(3), 7)));
    gallery.send(0);
    assert_same(&rt, &gallery.len(), &63);
    Ok(())
}

// It was told 4,095 lines and of its loss, and it is over once all was sent.
fn assert_lost<R: Abort>(rt: &R, slow: &mut Watcher) {
    assert!(rt; slow.is_losing());
    assert!(rt; slow.pending().len() == 65_527);
    assert_same(
        rt,
        &&slow.pending()[65_506..],
        &b"gone 4000000000\nlost\n".as_slice(),
    );
    slow.sent(65_526);
    assert!(rt; !slow.is_over());
    let count = slow.pending().len();
    slow.sent(count);
    assert!(rt; slow.is_over());
}

#[test]
fn is_told_of_its_loss_as_soon_as_that_fits(rt: HostRuntime) -> Result<(), Fail> {
    let mut watcher = Watcher::new(rt.alloc(), &[])?;
    watcher.put(&[b'x'; 65_531]);
    watcher.put(b"yyyy");
    // Three bytes are left.
    assert!(rt; watcher.pending().len() == 65_533);
    watcher.sent(1);
    assert!(rt; watcher.pending().len() == 65_532);
    watcher.put(b"z");
    watcher.sent(1);
    assert!(rt; watcher.pending().len() == 65_536);
    assert_same(&rt, &&watcher.pending()[65_529..], &b"xxlost\n".as_slice());
    watcher.put(b"z");
    assert!(rt; watcher.pending().len() == 65_536);
    Ok(())
}
