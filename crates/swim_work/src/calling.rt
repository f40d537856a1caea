//! Who calls a node and sends the datagrams of its replies.

ghost use Rattle.std.specs.Prelude.{◌≡◌, ◌+◌, ◌<◌, List, Option, Some};
ghost use Rattle.std.specs.Int.{from_bool};
ghost use Rattle.swim_work.specs.Calling.{Hears, IsMessage, Joins, Ticks};
ghost use Rattle.swim_work.specs.Posts.{HasSent, Posted, at_sender, starts_in};

use crate::answers::{has_joined, has_started, message_of};
use crate::counts::{Counts, Why};
use crate::meters::Meter;
use crate::posts::Post;
use crate::sending::finish;
use crate::workers::{Done, End};
use std::sync::Wait;
use swim_history::Row;
use swim_node::{Naming, Node, Seat, Viewer};
use swim_targets::Chooser;
use swim_wire::{Message, Peer};

/// Who calls a node: its seat, and what it counted.
#[derive(Drop)]
pub struct Caller<N: Naming> {
    /// With which it calls.
    pub seat: Seat<N>,
    /// What happened beside its calls.
    pub counts: Counts,
}

impl<N: Naming> Caller<N> {
    /// A caller with this seat. Nothing was counted yet.
    pub fn new(seat: Seat<N>) -> Caller<N>
        ensures seat { result.seat ≡ seat }
        ensures counts { result.counts ≡ record { unsent = 0; wire = 0; refused = 0 } }
    {
        Caller {
            seat,
            counts: Counts::none(),
        }
    }

    /// What its worker hands back after a life: with this viewer, and why it ended.
    pub fn done(self, viewer: Viewer<N>, why: Option<Why>) -> Done<N>
        ensures seat { result.seat ≡ self.seat }
        ensures viewer { result.viewer ≡ viewer }
        ensures end { result.end ≡ record { why = why; counts = self.counts } }
    {
        Done {
            seat: self.seat,
            viewer,
            end: End {
                why,
                counts: self.counts,
            },
        }
    }

    /// Hears a datagram, and hands the datagrams of the reply to the post. Why the worker ends, if it does; and the
    /// message of the datagram, where the node answered.
    pub fn hear<O: Post, C: Chooser, H: Wait + Drop, R: Wait>(
        &mut self,
        rt: &R,
        node: &Node<N, C, H>,
        post: &mut O,
        bytes: &[u8],
        source: Peer,
    ) -> (Option<Why>, Option<Message>)
        ensures hears { Hears N.opening N.limit bytes.now source
            (at_sender self.old.seat post.old self.old.counts) result.0
            (at_sender self.new.seat post.new self.new.counts) }
        ensures message { IsMessage N.opening bytes.now source
            (at_sender self.old.seat post.old self.old.counts) result.0
            (at_sender self.new.seat post.new self.new.counts) result.1 }
        ensures sent { (start : Option (List Posted))
            → HasSent N.opening self.old.seat.calls start (O.posted post.old) self.old.counts.unsent
            → HasSent N.opening self.new.seat.calls start (O.posted post.new) self.new.counts.unsent }
        ensures number { self.new.seat.number ≡ self.old.seat.number }
        ensures full { result.0 ≡ Some Why.JournalFull → 0 < self.new.seat.full }
    {
        let answer = node.hear(rt, &mut self.seat, bytes, source);
        let message = message_of(&answer);
        let opening = node.opening();
        let end = finish(rt, post, opening, answer, &mut self.counts);
        (end, message)
    }

    /// Joins the member with this row at its address, and hands the datagrams of the reply to the post, of which there
    /// are none. Why the worker ends, if it does; and whether the member was joined.
    pub fn join<O: Post, C: Chooser, H: Wait + Drop, R: Wait>(
        &mut self,
        rt: &R,
        node: &Node<N, C, H>,
        post: &mut O,
        row: &Row,
    ) -> (Option<Why>, bool)
        ensures joins { Joins N.opening N.limit row.now (at_sender self.old.seat post.old self.old.counts) result.0
            (at_sender self.new.seat post.new self.new.counts) result.1 }
        ensures sent { (start : Option (List Posted))
            → HasSent N.opening self.old.seat.calls start (O.posted post.old) self.old.counts.unsent
            → HasSent N.opening self.new.seat.calls start (O.posted post.new) self.new.counts.unsent }
        ensures number { self.new.seat.number ≡ self.old.seat.number }
        ensures full { result.0 ≡ Some Why.JournalFull → 0 < self.new.seat.full }
    {
        let answer = node.join(rt, &mut self.seat, row.id, row.peer);
        let is_joined = has_joined(&answer);
        let opening = node.opening();
        let end = finish(rt, post, opening, answer, &mut self.counts);
        (end, is_joined)
    }

    /// Gives a tick, and hands the datagrams of the reply to the post. Why the worker ends, if it does; and whether a
    /// period started.
    pub fn tick<O: Post, C: Chooser, H: Wait + Drop, R: Wait>(
        &mut self,
        rt: &R,
        node: &Node<N, C, H>,
        post: &mut O,
    ) -> (Option<Why>, bool)
        ensures ticks { Ticks N.opening N.limit (at_sender self.old.seat post.old self.old.counts) result.0
            (at_sender self.new.seat post.new self.new.counts) }
        ensures sent { (start : Option (List Posted))
            → HasSent N.opening self.old.seat.calls start (O.posted post.old) self.old.counts.unsent
            → HasSent N.opening self.new.seat.calls start (O.posted post.new) self.new.counts.unsent }
        ensures started { starts_in self.new.seat.calls ≡ starts_in self.old.seat.calls + from_bool result.1 }
        ensures number { self.new.seat.number ≡ self.old.seat.number }
        ensures full { result.0 ≡ Some Why.JournalFull → 0 < self.new.seat.full }
    {
        let answer = node.tick(rt, &mut self.seat);
        let is_started = has_started(&answer);
        let opening = node.opening();
        let end = finish(rt, post, opening, answer, &mut self.counts);
        (end, is_started)
    }

    /// Shows by a meter how many calls it made, and what it counted.
    pub fn show(&self, meter: &Meter) {
        meter.show(self.seat.calls().len(), self.counts);
    }
}
