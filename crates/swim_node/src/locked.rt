//! What lies under a node's lock.

ghost use Rattle.std.specs.Prelude.{◌≡◌, ◌<◌, ◌≤◌, ◌+◌, length, true, IfOk, IfSome, IfNone};
ghost use Rattle.std.specs.Vec.{vec_capacity, vec_len};
ghost use mathlib.Core.List.{IsPrefix};
ghost use Rattle.swim_detector.specs.Recording.{IsKept};
ghost use Rattle.swim_node.specs.Following.{filings_of, note_in};
ghost use Rattle.swim_node.specs.Draws.{DrawsAll};
ghost use Rattle.swim_history.specs.Changes.{changes};
ghost use Rattle.swim_history.specs.Seats.{kept_of};
ghost use Rattle.swim_node.specs.News.{SawNothing, EndsWithChange, HaveSeen};
ghost use Rattle.swim_node.specs.Seats.{AreNew, AreTheSeats};
ghost use Rattle.swim_node.specs.Cells.{noted};
ghost use Rattle.swim_node.specs.Answered.{EndsARun, MayRefuse, refused, IsGapAtMoment};
ghost use Rattle.swim_node.specs.OneHistory.{AreFullWhereMet, HoldsCalls, IsOneHistory};

use crate::board::Board;
use crate::cells::{CellNote, Cells, Filed};
use crate::following::{Followed, Follower, ReadCall};
use crate::ledgers::{Books, Tally};
use crate::naming::Naming;
use crate::news::News;
use crate::parts::Parts;
use crate::receipts::{CallFault, OpenFault};
use crate::seats::{Seat, seats_of};
use crate::viewers::{Viewer, compare_each};
use std::alloc::Global;
use std::marker::Model;
use std::sync::Wait;
use swim_detector::{ApplyFault, Recorder};
use swim_history::{Call, Called, Gap, Journal, Kept, Opening};
use swim_targets::Chooser;
use swim_wire::Id;

/// What lies under a node's lock: the detector with its journal, how many calls each seat was answered, what was
/// published, and notes of the cells. Whenever the lock is free, the journal is a run of the node's opening, each
/// seat's count is how many entries of it the journal has, what is published are the journal's changes, and each
/// entry stands in the cell of its place. A contract sees the detector.
#[derive(Drop)]
pub(crate) struct Locked<N: Naming, C: Chooser, H: Wait + Drop> {
    recorder: Recorder<C>,
    books: Books<N>,
    board: Board<N, H>,
    // One of each entry: that it stands in the cell of its place.
    notes: Vec<CellNote>,
}

/// What a call was answered under the lock: the call as its seat is to keep it, the news, and that it stands in the
/// cell of its place.
#[derive(Drop)]
pub(crate) struct Answered<N: Naming> {
    pub(crate) kept: Kept,
    pub(crate) news: News<N>,
    pub(crate) note: CellNote,
}

impl<N: Naming, C: Chooser, H: Wait + Drop> Model for Locked<N, C, H> {
    ghost use Rattle.std.specs.Prelude.{◌≡◌, ◌<◌, length};
    ghost use Rattle.swim_detector.specs.Recording.{Recording};
    ghost use Rattle.swim_history.specs.Changes.{changes};
    ghost use Rattle.swim_node.specs.Names.{AreCounts};
    ghost use Rattle.swim_node.specs.Cells.{notes_of};
    ghost use Rattle.swim_node.specs.Draws.{IsDrawnSo};

    ghost Value = { Recording C };

    ghost view = { λ l. l.recorder };

    ghost invariant = { λ l. (l.recorder.opening ≡ N.opening) × (l.recorder.limit ≡ N.limit)
        × AreCounts l.books.calls l.recorder.past
        × (l.board ≡ changes N.opening l.recorder.past)
        × (l.notes.items ≡ notes_of N.cells l.recorder.past)
        × IsDrawnSo C.orders C.places N.opening N.drawn l.recorder.past l.recorder.chooser
        × (0 < l.books.full → length l.recorder.past ≡ N.limit) };
}

impl<N: Naming, C: Chooser, H: Wait + Drop> Locked<N, C, H> {
    /// A detector that wasn't called yet, with the seats and viewers of its node, and its cells.
    pub(crate) fn open(
        alloc: Global,
        rt: H,
        parts: Parts,
        opening: Opening,
        chooser: C,
        limit: u32,
    ) -> Result<(Locked<N, C, H>, Cells<N>, [Seat<N>; 4], [Viewer<N>; 4]), OpenFault>
        requires parts { parts ≡ record { limit = N.limit; ledgers = N.ledgers; log = N.log; cells = N.cells } }
        requires opening { opening ≡ N.opening }
        requires limit { limit ≡ N.limit }
        requires drawn { DrawsAll C.orders C.places N.opening chooser N.drawn }
        ensures seats { IfOk result (λ opened. AreNew opened.2) }
        ensures viewers { IfOk result (λ opened. SawNothing opened.3) }
    {
        let Parts {
            limit: _,
            ledgers,
            log,
            cells,
        } = parts;
        let (board, viewers) = Board::open(alloc, rt, &opening, log)?;
        let counting = Books::open(ledgers);
        let (books, tallies) = counting;
        let locked = Locked {
            recorder: Recorder::open(alloc, opening, chooser, limit),
            books,
            board,
            notes: Vec::new(alloc),
        };
        Ok((locked, Cells::new(cells), seats_of(alloc, tallies), viewers))
    }

    /// Answers a call of a seat that made so many before. In this order: the journal's limit; every growth of memory
    /// under the lock; and from then on nothing is refused: the detector's answer and entry, the count, the publication
    /// of the change, the cell. `None` where the journal is full or there is no memory; then nothing was changed.
    pub(crate) fn call<R: Wait>(
        &mut self,
        rt: &R,
        cells: &Cells<N>,
        tally: &mut Tally<N>,
        number: usize,
        call: &Call,
        filed: Box<Filed>,
    ) -> Option<Answered<N>>
        requires { number ≡ tally.old.calls }
        ensures some { IfSome result (λ a. (a.kept.call ≡ call.now) × (a.kept.number ≡ number)
            × (tally.new ≡ record tally.old { calls = number + 1 }) × (tally.old.full ≡ 0)
            × EndsARun N.opening tally.old.seat a.kept a.news
            × (a.note ≡ noted N.cells tally.old.seat a.kept)) }
        ensures change { IfSome result (λ a. EndsWithChange a.kept.call a.kept.reply a.news) }
        ensures none { IfNone result (tally.new ≡ tally.old) }
    {
        // These two take no time, and show what the seat's counts and the journal are.
        self.books.audit(tally);
        let position = self.recorder.journal().len();
        if !make_room(&mut self.recorder, &mut self.notes) {
            return None;
        }
        let change = self.recorder.change(call);
        let seat = tally.seat();
        self.recorder.record_ready(seat, call);
        self.books.add(tally);
        self.board.publish_if(&change);
        let kept = Kept {
            position,
            number: number as u32,
            call: *call,
            reply: self.recorder.reply().copy(),
        };
        let mut note = cells.file(rt, seat, &kept, filed);
        self.notes.push_reserved(note.again());
        Some(Answered {
            kept,
            news: self.board.news(),
            note,
        })
    }

    /// Why a call of a seat is refused to which there was no room: where the journal is full, that is told.
    pub(crate) fn refusal<R: Wait>(&mut self, rt: &R, caller: &mut Seat<N>) -> CallFault
        ensures seat { caller.new ≡ refused result caller.old }
        ensures may { MayRefuse N.opening N.limit caller.old result }
    {
        self.compare(rt, caller);
        let _run = self.recorder.journal().len();
        match self.recorder.ready() {
            Err(ApplyFault::JournalFull) => self.full(&mut caller.tally),
            Ok(()) | Err(ApplyFault::NoMemory) => CallFault::NoMemory,
        }
    }

    /// What a call of a seat is told that met the full journal. It is counted.
    fn full(&mut self, tally: &mut Tally<N>) -> CallFault
        requires { length self.old.past ≡ N.limit }
        ensures locked { self.new ≡ self.old }
        ensures tally { tally.new ≡ record tally.old { full = tally.old.full + 1 } }
        ensures fault { result ≡ CallFault.JournalFull }
    {
        self.books.add_full(tally);
        CallFault::JournalFull
    }

    /// Shows that the journal holds a seat's calls, by the notes of them and by the counts, and that it is full if a
    /// call of the seat met a full one.
    #[tactic(auto, using(crate::proofs::Filing::placed_notes, crate::proofs::Filing::hold_calls))]
    fn compare<R: Wait>(&mut self, rt: &R, seat: &mut Seat<N>)
        ensures locked { self.new ≡ self.old }
        ensures seat { seat.new ≡ seat.old }
        ensures calls { seat.old.calls ≡ kept_of seat.old.number self.old.past }
        ensures full { 0 < seat.old.full → length self.old.past ≡ N.limit }
    {
        self.books.audit(&mut seat.tally);
        let _run = self.recorder.journal().len();
        seat.compare(rt, &mut self.notes);
    }

    /// The widest gap of a member in the journal as it is.
    pub(crate) fn gap<R: Wait>(&mut self, rt: &R, seat: &mut Seat<N>, member: Id) -> Option<Gap>
        ensures locked { self.new ≡ self.old }
        ensures seat { seat.new ≡ seat.old }
        ensures gap { IsGapAtMoment N.opening seat.old member result }
    {
        self.compare(rt, seat);
        let journal = self.recorder.journal();
        let _run = journal.len();
        journal.widest_gap(member)
    }

    /// Ends the publication, and hands the journal back, with the seats, whose calls it holds.
    pub(crate) fn close<R: Wait>(
        self,
        rt: &R,
        seats: [Seat<N>; 4],
    ) -> (Journal, [Seat<N>; 4], News<N>)
        requires { AreTheSeats seats }
        ensures opening { result.0.opening ≡ N.opening }
        ensures past { result.0.past ≡ self.past }
        ensures drawn { N.drawn result.0.past }
        ensures within { length result.0.past ≤ N.limit }
        ensures seats { result.1 ≡ seats }
        ensures history { IsOneHistory N.opening result.0.past seats result.2 }
        ensures full { AreFullWhereMet N.limit result.0.past seats }
    {
        let mut locked = self;
        let seats = locked.compare_all(rt, seats);
        let Locked {
            recorder,
            books: _,
            board,
            notes: _,
        } = locked;
        let _run = recorder.journal().len();
        let news = board.news();
        (recorder.into_journal(), seats, news)
    }

    /// The call at a place of the journal, with the note of its cell. There is none beyond the journal's end.
    pub(crate) fn read(&mut self, place: usize) -> Option<ReadCall>
        ensures locked { self.new ≡ self.old }
        ensures place { IfSome result (λ r. r.followed.kept.position ≡ place) }
        ensures note { IfSome result (λ r. r.note ≡ note_in N.cells r.followed) }
    {
        let journal = self.recorder.journal();
        if place >= journal.len() as usize {
            return None;
        }
        let position = place as u32;
        let Some(called) = journal.called(position) else {
            return None;
        };
        let Called {
            seat,
            number,
            call,
            reply,
        } = called;
        let note = self.notes[place].again();
        let kept = Kept {
            position,
            number,
            call,
            reply,
        };
        let followed = Followed { seat, kept };
        Some(ReadCall { followed, note })
    }

    /// As `close`; and what the follower has read is a beginning of the journal, or all of it; and what these viewers
    /// have seen is a beginning of its changes.
    #[tactic(auto, using(crate::proofs::Reading::whole_read))]
    pub(crate) fn close_followed<R: Wait>(
        self,
        rt: &R,
        seats: [Seat<N>; 4],
        follower: Follower<N>,
        viewers: &[Viewer<N>],
    ) -> (Journal, [Seat<N>; 4], News<N>)
        requires { AreTheSeats seats }
        ensures opening { result.0.opening ≡ N.opening }
        ensures within { length result.0.past ≤ N.limit }
        ensures seats { result.1 ≡ seats }
        ensures history { IsOneHistory N.opening result.0.past seats result.2 }
        ensures full { AreFullWhereMet N.limit result.0.past seats }
        ensures followed { IsPrefix follower (filings_of result.0.past) }
        ensures whole { length follower ≡ length result.0.past → follower ≡ filings_of result.0.past }
        ensures seen { HaveSeen (changes N.opening result.0.past) viewers.now }
        ensures drawn { N.drawn result.0.past }
    {
        let mut locked = self;
        let mut follower = follower;
        locked.compare_followed(rt, &mut follower);
        let all = locked.board.news();
        compare_each(rt, &all, viewers);
        locked.close(rt, seats)
    }

    // As `compare`, of what the follower has read.
    fn compare_followed<R: Wait>(&mut self, rt: &R, follower: &mut Follower<N>)
        ensures locked { self.new ≡ self.old }
        ensures begins { IsPrefix follower.old (filings_of self.old.past) }
    {
        follower.compare(rt, &mut self.notes);
    }

    // As `compare`, of all seats.
    fn compare_all<R: Wait>(&mut self, rt: &R, seats: [Seat<N>; 4]) -> [Seat<N>; 4]
        ensures locked { self.new ≡ self.old }
        ensures seats { result ≡ seats }
        ensures calls { HoldsCalls self.old.past seats }
        ensures full { AreFullWhereMet N.limit self.old.past seats }
    {
        let [first, second, third, fourth] = seats;
        [
            self.compared(rt, first),
            self.compared(rt, second),
            self.compared(rt, third),
            self.compared(rt, fourth),
        ]
    }

    fn compared<R: Wait>(&mut self, rt: &R, seat: Seat<N>) -> Seat<N>
        ensures locked { self.new ≡ self.old }
        ensures seat { result ≡ seat }
        ensures calls { seat.calls ≡ kept_of seat.number self.old.past }
        ensures full { 0 < seat.full → length self.old.past ≡ N.limit }
    {
        let mut seat = seat;
        self.compare(rt, &mut seat);
        seat
    }
}

/// Makes room for one more entry and the note of its cell: not where the journal is full, nor where there is no memory.
fn make_room<C: Chooser>(recorder: &mut Recorder<C>, notes: &mut Vec<CellNote>) -> bool
    ensures recorder { IsKept recorder.old recorder.new }
    ensures notes { notes.new.items ≡ notes.old.items }
    ensures room { result ≡ true → (0 < recorder.new.room) × (length recorder.new.past < recorder.new.limit)
        × (vec_len notes.new < vec_capacity notes.new) }
{
    recorder.ready().is_ok() && notes.reserve(1).is_ok()
}
