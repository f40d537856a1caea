//! The keeper of lives: what it does before each of them and after it.

ghost use Rattle.std.specs.Prelude.{◌≡◌, ◌∷◌, []};
ghost use Rattle.swim_keeper.specs.Filing.{IsBegun, IsPutBack};
ghost use Rattle.swim_telling.specs.Notices.{Notices};
ghost use Rattle.swim_trail.specs.Growing.{Grows};

use crate::endings::tell_end;
use std::sync::Wait;
use swim_crew::{Keeper, Past, Terms};
use swim_events::{Entrance, Outlet};
use swim_history::Opening;
use swim_recorder::{JournalRecorder, Reporter, Shelf, Transcript};
use swim_telling::Herald;
use swim_text::Sink;
use swim_work::{Pace, TidingsBoard};

/// Keeps the lives of a daemon. Before a life it has the herald announce it, and the shelf open the file that its
/// recorder writes. After the life it gives the file back to the shelf, and writes how the life ended.
///
/// It has all of that only on loan, so that it is known at its end what was written and told.
#[derive(Drop)]
pub struct LifeKeeper<'w, 'f, 'h, 's, 'b, W: Sink, F: Sink, H: Herald, S> {
    /// Takes the lines that tell how lives ended.
    pub writer: &'w mut W,
    /// Takes what the herald and the shelf have to tell people.
    pub notices: &'f mut F,
    /// Announces lives.
    pub herald: &'h mut H,
    /// Has the files of the journals.
    pub shelf: &'s mut S,
    /// Where the ticker leaves word for the receiver.
    pub board: &'b TidingsBoard,
    /// The seed and the limit that the headers of the files tell. They are those that the lives run with.
    pub terms: Terms,
}

impl<'w, 'f, 'h, 's, 'b, W: Sink, F: Sink, H: Herald, S> LifeKeeper<
    'w,
    'f,
    'h,
    's,
    'b,
    W,
    F,
    H,
    S,
> {
    /// Removes what the life before left on the board, so that the receiver of the next one doesn't learn of it. From
    /// now on the period with this number runs.
    fn clear_board<R: Wait>(&self, rt: &R, period: u64) {
        let _left = self.board.take(rt);
        self.board.leave(rt, period, &None);
    }
}

impl<
    'w,
    'f,
    'h,
    's,
    'b,
    W: Sink,
    F: Sink,
    H: Herald,
    V: Sink + Drop,
    S: Shelf<V>,
    Q: Pace + Drop,
    E: Outlet + Drop,
    I: Entrance<E> + Drop,
    Y: Reporter + Drop,
> Keeper<JournalRecorder<V, Q, E, I, Y>> for LifeKeeper<'w, 'f, 'h, 's, 'b, W, F, H, S> {
    ghost use Rattle.swim_keeper.specs.Keeping.{closes_by, opens_by, outlets};

    ghost opens = { opens_by (outlets W.written W.failures F.written F.failures H.begun S.opened S.filed S.fresh
        V.written V.held Y.heard) };

    ghost closes = { closes_by (outlets W.written W.failures F.written F.failures H.begun S.opened S.filed S.fresh
        V.written V.held Y.heard) };

    fn open<R: Wait>(
        &mut self,
        rt: &R,
        number: u64,
        opening: &Opening,
        recorder: &mut JournalRecorder<V, Q, E, I, Y>,
    ) {
        self.clear_board(rt, opening.last());
        self.herald.begins(number, &mut *self.notices);
        recorder.number = number;
        recorder.transcript = begun(
            &mut *self.shelf,
            &self.terms,
            number,
            opening,
            &mut *self.notices,
        );
    }

    fn close<R: Wait>(
        &mut self,
        _rt: &R,
        number: u64,
        past: &Past,
        recorder: &mut JournalRecorder<V, Q, E, I, Y>,
    ) {
        let transcript = recorder.transcript.take();
        let is_cut = put_back(&mut *self.shelf, number, transcript, &mut *self.notices);
        tell_end(&mut *self.writer, number, past, is_cut);
    }
}

/// Opens the file of a life's journal, and writes its header. Returns `None` if lives have no files.
fn begun<V: Sink + Drop, S: Shelf<V>, F: Sink>(
    shelf: &mut S,
    terms: &Terms,
    number: u64,
    opening: &Opening,
    notices: &mut F,
) -> Option<Transcript<V>>
    ensures begun { IsBegun V.written S.fresh terms.now number opening.now result }
    ensures opened { Grows (S.opened shelf.old) (S.opened shelf.new) (number ∷ []) }
    ensures filed { S.filed shelf.new ≡ S.filed shelf.old }
    ensures notices { Notices (F.written notices.old, F.failures notices.old)
        (F.written notices.new, F.failures notices.new) }
{
    let Some(sink) = shelf.open(number, notices) else {
        return None;
    };
    Some(Transcript::begin(sink, opening, terms.limit, &terms.seed, number))
}

/// Gives the file of a life's journal back to the shelf. Returns whether the line of the life is to say that the
/// journal was cut: if not all of it was written, or the file isn't kept.
#[tactic(auto, using(swim_telling::specs::Notices::no_notices))]
fn put_back<V: Sink + Drop, S: Shelf<V>, F: Sink>(
    shelf: &mut S,
    number: u64,
    transcript: Option<Transcript<V>>,
    notices: &mut F,
) -> bool
    ensures opened { S.opened shelf.new ≡ S.opened shelf.old }
    ensures back { IsPutBack V.written number transcript (S.filed shelf.old) (S.filed shelf.new) result }
    ensures notices { Notices (F.written notices.old, F.failures notices.old)
        (F.written notices.new, F.failures notices.new) }
{
    let Some(transcript) = transcript else {
        return false;
    };
    let Transcript { sink, is_whole } = transcript;
    let is_kept = shelf.close(number, sink, notices);
    !(is_whole & is_kept)
}
