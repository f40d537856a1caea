//! Lives whose journals are written to files, here in memory.

ghost use Rattle.std.specs.Prelude.{◌≡◌, None};
ghost use Rattle.std.specs.Io.KnownBytes.{Keeps};
ghost use Rattle.swim_text.specs.Streams.{Puts, failures_if};

use super::short_lives::live_shortly;
use super::*;
use swim_devices::{ClockSleeper, SleepingPace};
use swim_doubles::Text;
use swim_recorder::Shelf;
use swim_script::{Session, run};
use swim_text::Sink;

// A file that takes so many bytes, and no text that is longer than what is left.
#[derive(Drop)]
struct File {
    page: Page,
    room: usize,
    failures: u64,
}

impl Sink for File {
    ghost written = { λ f. None };

    ghost failures = { λ f. f.failures };

    ghost held = { λ f. 0 };

    fn put(&mut self, text: &[u8]) -> bool
        ensures bytes { Puts None None text.now result }
        ensures failures { self.new.failures ≡ failures_if self.old.failures result }
    {
        if text.len() <= self.room && self.page.put(text) {
            self.room -= text.len();
            return true;
        }
        self.failures = self.failures.saturating_add(1);
        false
    }

    fn flush(&mut self) -> bool
        ensures bytes { Keeps None None }
        ensures failures { self.new.failures ≡ failures_if self.old.failures result }
    {
        true
    }
}

// A shelf of files that take so many bytes. It plays each file that comes back, and counts those that were played to
// their end, and the calls in them.
#[derive(Drop)]
struct Player {
    alloc: Global,
    room: usize,
    played: u32,
    calls: u32,
}

impl Shelf<File> for Player {
    ghost fresh = { None };

    ghost opened = { λ s. None };

    ghost filed = { λ s. None };

    #[tactic(auto, using(swim_telling::specs::Notices::no_notices))]
    fn open<F: Sink>(&mut self, _number: u64, _notices: &mut F) -> Option<File> {
        Some(File {
            page: Page::new(self.alloc),
            room: self.room,
            failures: 0,
        })
    }

    #[tactic(auto, using(swim_telling::specs::Notices::no_notices, swim_recorder::specs::Filed::unknown_back))]
    fn close<F: Sink>(&mut self, _number: u64, sink: File, _notices: &mut F) -> bool {
        let mut session = Session::new(self.alloc);
        let mut output = Page::new(self.alloc);
        let text = sink.page.text();
        if run(&mut session, &mut Text::new(text), &mut output).is_err() {
            return false;
        }
        let Some(journal) = session.into_journal() else {
            return false;
        };
        self.played = self.played.saturating_add(1);
        self.calls = self.calls.saturating_add(journal.len());
        true
    }
}

// Two lives of two entries each, with files that take so many bytes: what was told of them, and what was played.
fn live_twice<R: Threads + Wait + Clock + Send + Sync + Copy + Drop>(
    rt: R,
    alloc: Global,
    room: usize,
) -> Result<(Player, Page), Fail> {
    let shelf = Player {
        alloc,
        room,
        played: 0,
        calls: 0,
    };
    let recorder = JournalRecorder::new(
        alloc,
        &pair()?,
        SleepingPace::new(ClockSleeper::new(rt), 1),
        Gallery::<NoOutlet>::new(alloc),
        NoEntrance {},
        NoReporter {},
    );
    let lived = live_shortly(&rt, alloc, shelf, recorder)?;
    if lived.end != LivesEnd::Stopped {
        return Err(Fail::new("an end"));
    }
    Ok((lived.shelf, lived.page))
}

// The file of each life is played without a difference, and has all of its calls.
#[test]
fn each_life_has_a_file(rt: HostRuntime) -> Result<(), Fail> {
    let (shelf, page) = live_twice(rt, rt.alloc(), 1000)?;
    assert_same(&rt, &shelf.played, &2);
    assert_same(&rt, &shelf.calls, &4);
    assert!(rt;
        page.text()
            .starts_with(b"life 0 entries 2 judged 0 unsent 0 wire 0 refused 0\n")
    );
    assert!(rt;
        page.text().ends_with(b"ended stopped entries 2 judged 0 unsent 0 wire 0 refused 0\n")
    );
    Ok(())
}

// A file with no room for its header, and one with room for the header alone: the lives go on, and it is told.
#[test]
fn a_file_that_is_cut(rt: HostRuntime) -> Result<(), Fail> {
    for room in [5, 150] {
        let (shelf, page) = live_twice(rt, rt.alloc(), room)?;
        assert!(rt; shelf.calls < 4);
        assert!(rt;
            page.text().starts_with(
                b"life 0 entries 2 judged 0 unsent 0 wire 0 refused 0 journal cut\n"
            )
        );
        assert!(rt;
            page.text().ends_with(
                b"ended stopped entries 2 judged 0 unsent 0 wire 0 refused 0 journal cut\n"
            )
        );
    }
    Ok(())
}
