mod folders;
mod heralds;
mod paces;

use self::folders::Folder;
use self::heralds::Caller;
use self::paces::Never;
use std::alloc::Global;
use std::fmt::Debug;
use std::process::Abort;
use std::sync::Wait;
use std::test::*;
use swim_crew::{Ends, Keeper, Past, Terms};
use swim_events::Gallery;
use swim_history::{Journal, Opening};
use swim_keeper::LifeKeeper;
use swim_keeper::laws::a_kept_life_is_told;
use swim_recorder::{JournalRecorder, NoEntrance, NoOutlet, NoReporter};
use swim_text::{Page, Sink};
use swim_wire::{Id, Peer, Version};
use swim_work::{Counts, End, TidingsBoard, Why};

// Three workers that counted these, the second of which met a full journal, and the third of which was told to stop or
// had no reason of its own.
const COUNTS: Counts = Counts {
    unsent: 1,
    wire: 2,
    refused: 3,
};

// The header of the second life of a member that knows one other.
const HEADER: &[u8] = b"journal 1\nopen 1 1 1 3 9 100\nrow 2 10.0.0.2:7000\n\
seed 0707070707070707070707070707070707070707070707070707070707070707 1\n";

type Recorded = JournalRecorder<Page, Never, NoOutlet, NoEntrance, NoReporter>;

// The two are the same. A call of this is proved at once, and an `assert_eq!` in some seconds.
fn assert_same<T: PartialEq + Debug, R: Abort>(rt: &R, left: &T, right: &T) {
    assert_eq!(rt; *left, *right);
}

fn opening() -> Result<Opening, Fail> {
    let me = Id::new(1).ok_or("an id")?;
    let other = Id::new(2).ok_or("an id")?;
    let peer = Peer {
        ip: [10, 0, 0, 2],
        port: 7000,
    };
    Ok(Opening::check(me, 1, 1, 3, &[(other, peer)], 9, Version::One).map_err(|_| "an opening")?)
}

fn terms() -> Terms {
    Terms {
        seed: [7; 32],
        limit: 100,
    }
}

fn recorder(alloc: Global) -> Result<Recorded, Fail> {
    Ok(JournalRecorder::new(
        alloc,
        &opening()?,
        Never {},
        Gallery::new(alloc),
        NoEntrance {},
        NoReporter {},
    ))
}

// What is left of a life without a call, for this reason, whose third worker ended so.
fn past(alloc: Global, why: Why, third: Option<Why>) -> Result<Past, Fail> {
    let end = End {
        why: Some(why),
        counts: COUNTS,
    };
    Ok(Past {
        journal: Journal::new(alloc, opening()?),
        why,
        ends: Ends {
            first: end,
            second: end,
            third: End {
                why: third,
                counts: COUNTS,
            },
            all_began: true,
        },
    })
}

// A keeper opens and closes the life with number 1: this is written of it.
fn assert_told<R: Abort + Wait>(
    rt: &R,
    alloc: Global,
    shelf: Folder,
    past: &Past,
    lines: &[u8],
) -> Result<(), Fail> {
    let mut shelf = shelf;
    let mut herald = Caller { begun: 0 };
    let mut writer = Page::new(alloc);
    let mut notices = Page::new(alloc);
    let board = TidingsBoard::new(0, 0);
    let mut recorder = recorder(alloc)?;
    let mut keeper = LifeKeeper {
        writer: &mut writer,
        notices: &mut notices,
        herald: &mut herald,
        shelf: &mut shelf,
        board: &board,
        terms: terms(),
    };
    keeper.open(rt, 1, &opening()?, &mut recorder);
    assert_same(rt, &recorder.number, &1);
    keeper.close(rt, 1, past, &mut recorder);
    assert!(rt; recorder.transcript.is_none());
    drop(keeper);
    assert_same(rt, &herald.begun, &1);
    assert_same(rt, &writer.text(), &lines);
    assert!(rt; notices.text().is_empty());
    Ok(())
}

#[test]
fn a_life_without_a_file(rt: HostRuntime) -> Result<(), Fail> {
    let alloc = rt.alloc();
    let past = past(alloc, Why::Stopped, None)?;
    let shelf = Folder::none(alloc);
    let line = b"ended stopped entries 0 judged 0 unsent 3 wire 6 refused 9\n";
    assert_told(&rt, alloc, shelf, &past, line)
}

#[test]
fn a_life_whose_journal_was_full(rt: HostRuntime) -> Result<(), Fail> {
    let alloc = rt.alloc();
    let past = past(alloc, Why::JournalFull, None)?;
    let shelf = Folder::new(alloc, true, HEADER);
    let line = b"life 1 entries 0 judged 0 unsent 3 wire 6 refused 9\n";
    assert_told(&rt, alloc, shelf, &past, line)
}

// The file isn't kept; and the life was told to stop while its journal was full.
#[test]
fn a_stop_at_a_full_journal(rt: HostRuntime) -> Result<(), Fail> {
    let alloc = rt.alloc();
    let past = past(alloc, Why::JournalFull, Some(Why::Stopped))?;
    let shelf = Folder::new(alloc, false, HEADER);
    let lines = b"life 1 entries 0 judged 0 unsent 3 wire 6 refused 9 journal cut\n\
ended stopped entries 0 judged 0 unsent 0 wire 0 refused 0\n";
    assert_told(&rt, alloc, shelf, &past, lines)
}

#[test]
fn laws_are_called(_rt: HostRuntime) {
    a_kept_life_is_told::<Page>();
}
