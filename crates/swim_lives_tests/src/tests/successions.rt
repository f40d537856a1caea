//! A life that goes on from the one before.

use super::reporters::Listener;
use super::shelves::NoShelf;
use super::short_lives::live_shortly;
use super::*;

const FIRST_LIFE: &[u8] = b"life 0 entries 2 judged 0 unsent 0 wire 0 refused 0\n";

const LAST_LIFE: &[u8] = b"ended stopped entries 2 judged 0 unsent 0 wire 0 refused 0\n";

// A journal of two entries, and five ticks: the third meets the full journal of the first life, and is in no life. The
// second life goes on from it, and is stopped.
#[test]
fn two_lives(rt: HostRuntime) -> Result<(), Fail> {
    let recorder = JournalRecorder::new(
        rt.alloc(),
        &pair()?,
        Never {},
        Gallery::<NoOutlet>::new(rt.alloc()),
        NoEntrance {},
        Listener::new(),
    );
    let lived = live_shortly(&rt, rt.alloc(), NoShelf {}, recorder)?;
    assert_same(&rt, &lived.end, &LivesEnd::Stopped);
    assert_same(&rt, &lived.begun, &2);
    let text = lived.page.text();
    assert!(rt; text.starts_with(FIRST_LIFE));
    assert!(rt; text.ends_with(LAST_LIFE));
    assert_same(&rt, &text.len(), &(FIRST_LIFE.len() + LAST_LIFE.len()));
    // The reporter heard of each entry of both lives, of which none changed the member table.
    let heard = &lived.recorder.reporter;
    assert_same(&rt, &(heard.lives, heard.calls, heard.changes), &(2, 4, 0));
    Ok(())
}
