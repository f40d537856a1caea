//! The node: one detector for four callers.

ghost use Rattle.std.specs.Prelude.{◌≡◌, ◌≤◌, ◌<◌, ◌++◌, ◌∷◌, [], Err, Some, IfOk, IfErr, IfSome, IfNone, length};
ghost use Rattle.std.specs.Vec.{vec_capacity, vec_len};
ghost use mathlib.Core.List.{IsPrefix};
ghost use Rattle.swim_node.specs.Following.{filings_of};
ghost use Rattle.swim_node.specs.Draws.{DrawsAll};
ghost use Rattle.swim_wire.specs.declared.codec.WireFault.{WireFault};
ghost use Rattle.swim_wire.specs.Messages.{Message};
ghost use Rattle.swim_wire.specs.Layout.{IsTextOf, first_fault};
ghost use Rattle.swim_history.specs.declared.calls.Call.TheVariants as call;
ghost use Rattle.swim_history.specs.Changes.{changes};
ghost use Rattle.swim_node.specs.News.{SawNothing, EndsWithChange, HaveSeen};
ghost use Rattle.swim_node.specs.Seats.{AreNew, AreTheSeats};
ghost use Rattle.swim_node.specs.Answered.{kept, refused, IsAnswered, MayRefuse, MayRefuseBytes, IsGapAtMoment};
ghost use Rattle.swim_node.specs.OneHistory.{AreFullWhereMet, IsOneHistory};

use crate::cells::{CellNote, Cells, Filed};
use crate::following::{Followed, Follower, ReadCall};
use crate::locked::{Answered, Locked};
use crate::naming::Naming;
use crate::news::News;
use crate::node_openings::NodeOpening;
use crate::parts::Parts;
use crate::receipts::{CallFault, OpenFault, Receipt};
use crate::seats::Seat;
use crate::viewers::Viewer;
use std::alloc::Global;
use std::sync::{Mutex, Wait};
use swim_history::{Call, Gap, Journal, Kept, Opening};
use swim_targets::Chooser;
use swim_wire::{Id, Peer, decode};

/// One detector, behind one lock, for four callers: its seats. Its calls take the lock and may wait for it; readers
/// of its member table, its viewers, don't. Seats, viewers and news have to be of the node that they are used with,
/// which their type says.
///
/// `H` is with what it waits for readers that look at an old table, also where it is closed or dropped.
pub struct Node<N: Naming, C: Chooser, H: Wait + Drop> {
    start: NodeOpening<N>,
    cells: Cells<N>,
    locked: Mutex<Locked<N, C, H>>,
}

// By hand, so that whoever holds one proves a single call where it is dropped, and not each field.
impl<N: Naming, C: Chooser, H: Wait + Drop> Drop for Node<N, C, H> {
    fn drop(self) {
        let Node {
            start: _,
            cells: _,
            locked: _,
        } = self;
    }
}

impl<N: Naming, C: Chooser, H: Wait + Drop> Node<N, C, H> {
    /// A node whose detector wasn't called yet, with its seats, numbered 0 to 3 in order, and its viewers. The parts
    /// are those of the limit, which says how many entries the journal may have. Parts, opening and chooser are
    /// dropped on a fault.
    pub fn open(
        alloc: Global,
        rt: H,
        parts: Parts,
        opening: Opening,
        chooser: C,
        limit: u32,
    ) -> Result<(Node<N, C, H>, [Seat<N>; 4], [Viewer<N>; 4]), OpenFault>
        requires parts { parts ≡ record { limit = N.limit; ledgers = N.ledgers; log = N.log; cells = N.cells } }
        requires opening { opening ≡ N.opening }
        requires limit { limit ≡ N.limit }
        requires drawn { DrawsAll C.orders C.places N.opening chooser N.drawn }
        ensures seats { IfOk result (λ opened. AreNew opened.1) }
        ensures viewers { IfOk result (λ opened. SawNothing opened.2) }
    {
        let start = NodeOpening::new(opening.copy());
        let opened = Locked::open(alloc, rt, parts, opening, chooser, limit)?;
        let (locked, cells, seats, viewers) = opened;
        let node = Node {
            start,
            cells,
            locked: Mutex::new(locked),
        };
        Ok((node, seats, viewers))
    }

    /// What its detector started from. It takes no lock.
    pub fn opening(&self) -> &Opening
        ensures { result.now ≡ N.opening }
    {
        self.start.opening()
    }

    /// A datagram came from this address. `Wire` exactly where the bytes are none, and then before the lock.
    pub fn hear<R: Wait>(
        &self,
        rt: &R,
        seat: &mut Seat<N>,
        bytes: &[u8],
        source: Peer,
    ) -> Result<Receipt<N>, CallFault>
        ensures ok { IfOk result (λ r. let k = kept r.position r.number r.call r.reply in
            (m : Message) × IsTextOf bytes.now m
            × IsAnswered N.opening seat.old seat.new (call.Hear source m) k r.news) }
        ensures change { IfOk result (λ r. EndsWithChange r.call r.reply r.news) }
        ensures number { seat.new.number ≡ seat.old.number }
        ensures err { IfErr result (λ fault. seat.new ≡ refused fault seat.old) }
        ensures refuses { IfErr result (MayRefuseBytes bytes.now N.opening N.limit seat.old) }
        ensures wire { (f : WireFault) → first_fault bytes.now ≡ Some f → result ≡ Err (CallFault.Wire f) }
    {
        match decode(bytes) {
            Ok(message) => self.call(rt, seat, &Call::Hear(source, message)),
            Err(fault) => Err(CallFault::Wire(fault)),
        }
    }

    /// One tick of time passed.
    pub fn tick<R: Wait>(&self, rt: &R, seat: &mut Seat<N>) -> Result<Receipt<N>, CallFault>
        ensures ok { IfOk result (λ r. let k = kept r.position r.number r.call r.reply in
            IsAnswered N.opening seat.old seat.new call.Tick k r.news) }
        ensures change { IfOk result (λ r. EndsWithChange r.call r.reply r.news) }
        ensures number { seat.new.number ≡ seat.old.number }
        ensures err { IfErr result (λ fault. seat.new ≡ refused fault seat.old) }
        ensures refuses { IfErr result (MayRefuse N.opening N.limit seat.old) }
    {
        self.call(rt, seat, &Call::Tick)
    }

    /// A member at this address is to be listed.
    pub fn join<R: Wait>(
        &self,
        rt: &R,
        seat: &mut Seat<N>,
        id: Id,
        peer: Peer,
    ) -> Result<Receipt<N>, CallFault>
        ensures ok { IfOk result (λ r. let k = kept r.position r.number r.call r.reply in
            IsAnswered N.opening seat.old seat.new (call.Join id peer) k r.news) }
        ensures change { IfOk result (λ r. EndsWithChange r.call r.reply r.news) }
        ensures number { seat.new.number ≡ seat.old.number }
        ensures err { IfErr result (λ fault. seat.new ≡ refused fault seat.old) }
        ensures refuses { IfErr result (MayRefuse N.opening N.limit seat.old) }
    {
        self.call(rt, seat, &Call::Join(id, peer))
    }

    /// A member is to be forgotten.
    pub fn remove<R: Wait>(
        &self,
        rt: &R,
        seat: &mut Seat<N>,
        id: Id,
    ) -> Result<Receipt<N>, CallFault>
        ensures ok { IfOk result (λ r. let k = kept r.position r.number r.call r.reply in
            IsAnswered N.opening seat.old seat.new (call.Remove id) k r.news) }
        ensures change { IfOk result (λ r. EndsWithChange r.call r.reply r.news) }
        ensures number { seat.new.number ≡ seat.old.number }
        ensures err { IfErr result (λ fault. seat.new ≡ refused fault seat.old) }
        ensures refuses { IfErr result (MayRefuse N.opening N.limit seat.old) }
    {
        self.call(rt, seat, &Call::Remove(id))
    }

    /// The gap of a member with the greatest distance between successive probes, the earliest of equals; `None` if it
    /// has none. It looks up what the journal keeps. The seat stays as it was.
    pub fn gap<R: Wait>(&self, rt: &R, seat: &mut Seat<N>, member: Id) -> Option<Gap>
        ensures seat { seat.new ≡ seat.old }
        ensures gap { IsGapAtMoment N.opening seat.old member result }
    {
        self.locked.lock(rt).gap(rt, seat, member)
    }

    /// Closes the node: from then on its viewers list nothing. The journal is handed back with the seats, whose calls
    /// it holds, and the closing news, which a viewer may still learn. It waits for viewers that look.
    pub fn close<R: Wait>(self, rt: &R, seats: [Seat<N>; 4]) -> (Journal, [Seat<N>; 4], News<N>)
        requires { AreTheSeats seats }
        ensures opening { result.0.opening ≡ N.opening }
        ensures within { length result.0.past ≤ N.limit }
        ensures seats { result.1 ≡ seats }
        ensures history { IsOneHistory N.opening result.0.past seats result.2 }
        ensures full { AreFullWhereMet N.limit result.0.past seats }
        ensures drawn { N.drawn result.0.past }
    {
        let Node {
            start: _,
            cells: _,
            locked,
        } = self;
        locked.into_inner().close(rt, seats)
    }

    /// Someone who is to read its journal while it runs, and has read nothing yet. There may be several; what one of
    /// them has read is compared where it is given to `close_followed`.
    pub fn follower(&self, alloc: Global) -> Follower<N>
        ensures { result ≡ [] }
    {
        Follower::new(alloc)
    }

    /// The next call of the journal that the follower hasn't read. There is none where it has read all that were made
    /// up to now; asked again, it may be given one. It holds the lock while it copies the call, and its cost doesn't
    /// grow with the journal. A note has no bytes; were room for it refused, there would be none, too.
    pub fn follow<R: Wait>(&self, rt: &R, follower: &mut Follower<N>) -> Option<Followed>
        ensures some { IfSome result (λ f. follower.new ≡ follower.old ++ f ∷ []) }
        ensures place { IfSome result (λ f. f.kept.position ≡ length follower.old) }
        ensures none { IfNone result (follower.new ≡ follower.old) }
    {
        let Ok(()) = follower.notes.reserve(1) else {
            return None;
        };
        let place = follower.notes.len();
        let Some(read) = self.locked.lock(rt).read(place) else {
            return None;
        };
        // The lock is free again: what is left to do touches the follower alone.
        let ReadCall { followed, note } = read;
        follower.notes.push_reserved(note);
        Some(followed)
    }

    /// As `close`; and what the follower has read is a beginning of the journal that is handed back, and all of it
    /// where it has read as many calls as that has entries; and what these viewers have seen is a beginning of its
    /// changes of the member table.
    pub fn close_followed<R: Wait>(
        self,
        rt: &R,
        seats: [Seat<N>; 4],
        follower: Follower<N>,
        viewers: &[Viewer<N>],
    ) -> (Journal, [Seat<N>; 4], News<N>)
        requires { AreTheSeats seats }
        ensures opening { result.0.opening ≡ N.opening }
        ensures within { length result.0.past ≤ N.limit }
        ensures seats { result.1 ≡ seats }
        ensures history { IsOneHistory N.opening result.0.past seats result.2 }
        ensures full { AreFullWhereMet N.limit result.0.past seats }
        ensures followed { IsPrefix follower (filings_of result.0.past) }
        ensures whole { length follower ≡ length result.0.past → follower ≡ filings_of result.0.past }
        ensures seen { HaveSeen (changes N.opening result.0.past) viewers.now }
        ensures drawn { N.drawn result.0.past }
    {
        let Node {
            start: _,
            cells: _,
            locked,
        } = self;
        locked
            .into_inner()
            .close_followed(rt, seats, follower, viewers)
    }

    fn call<R: Wait>(
        &self,
        rt: &R,
        seat: &mut Seat<N>,
        call: &Call,
    ) -> Result<Receipt<N>, CallFault>
        ensures ok { IfOk result (λ r. let k = kept r.position r.number r.call r.reply in
            IsAnswered N.opening seat.old seat.new call.now k r.news) }
        ensures change { IfOk result (λ r. EndsWithChange r.call r.reply r.news) }
        ensures number { seat.new.number ≡ seat.old.number }
        ensures err { IfErr result (λ fault. seat.new ≡ refused fault seat.old) }
        ensures refuses { IfErr result (MayRefuse N.opening N.limit seat.old) }
    {
        let Some(filed) = room_for_one(&mut seat.calls, &mut seat.notes) else {
            return Err(self.refusal(rt, seat));
        };
        let number = seat.calls.len();
        let answered = self
            .locked
            .lock(rt)
            .call(rt, &self.cells, &mut seat.tally, number, call, filed);
        // The lock is free again: what is left to do touches the seat alone.
        let Some(Answered { kept, news, note }) = answered else {
            return Err(self.refusal(rt, seat));
        };
        let receipt = Receipt {
            position: kept.position,
            number: kept.number,
            call: kept.call,
            reply: kept.reply.copy(),
            news,
        };
        seat.notes.push_reserved(note);
        seat.calls.push_reserved(kept);
        Ok(receipt)
    }

    // Why a call is refused to which there was no room: where the journal is full, that is told. The lock is taken anew,
    // and so what is told is so at that moment.
    fn refusal<R: Wait>(&self, rt: &R, seat: &mut Seat<N>) -> CallFault
        ensures seat { seat.new ≡ refused result seat.old }
        ensures may { MayRefuse N.opening N.limit seat.old result }
    {
        self.locked.lock(rt).refusal(rt, seat)
    }
}

/// Makes room for one more call of a seat and its note, and what is to go into the call's cell: `None` where there is no
/// memory.
fn room_for_one(calls: &mut Vec<Kept>, notes: &mut Vec<CellNote>) -> Option<Box<Filed>>
    ensures calls { calls.new.items ≡ calls.old.items }
    ensures notes { notes.new.items ≡ notes.old.items }
    ensures room { IfSome result (λ filed. (vec_len calls.new < vec_capacity calls.new)
        × (vec_len notes.new < vec_capacity notes.new)) }
{
    let Ok(()) = calls.reserve(1) else {
        return None;
    };
    let Ok(()) = notes.reserve(1) else {
        return None;
    };
    Filed::blank(*calls.allocator()).ok()
}
