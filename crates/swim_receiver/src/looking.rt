//! How the line is shown the members: the receiver looks at the member table once a tick, however many datagrams come.

ghost use Rattle.std.specs.Prelude.{◌≡◌, ◌≤◌, length};
ghost use Rattle.swim_receiver.specs.Rejoining.{IsOfSame, Learns};
ghost use Rattle.swim_receiver.specs.Showing.{AreShown, addresses_in};

use crate::receivers::Receiver;
use arrayvec::ArrayVec;
use std::sync::Wait;
use swim_history::Row;
use swim_node::{Naming, Viewer};
use swim_wire::{KNOWN_MEMBERS, Peer};
use swim_work::{Line, Post};

impl<'b, L: Line + Drop, O: Post + Drop> Receiver<'b, L, O> {
    /// Where the board says that it is time to look, takes over which rule is in force, shows the line who stands in
    /// the table now, and takes over what the ticker left. So a turn costs no more than a look at the board's flag.
    #[tactic(auto, using(crate::proofs::Showing::none_shown, crate::proofs::Learning::none_learnt, crate::proofs::Learning::more_learnt))]
    pub(crate) fn show<N: Naming, R: Wait>(&mut self, rt: &R, viewer: &mut Viewer<N>)
        ensures received { L.received self.new.line ≡ L.received self.old.line }
        ensures shown { AreShown N.opening viewer.old viewer.new (L.listed self.old.line) (L.listed self.new.line) }
        ensures same { IsOfSame self.old.returning self.new.returning }
        ensures learns { Learns N.opening viewer.old viewer.new self.old.returning self.new.returning }
        ensures post { self.new.post ≡ self.old.post }
    {
        if self.board.take_due() {
            self.returning.rule(rt);
            self.look(viewer);
            self.returning.take_over(rt);
        }
    }

    /// Shows the line who stands in the table now: whoever does, as one that was judged may be up all the same.
    // Kept out of line: tables are large, and `show` runs twice for every datagram.
    #[inline(never)]
    #[tactic(auto, using(crate::proofs::Showing::none_shown, crate::proofs::Showing::one_shown, crate::proofs::Learning::none_learnt))]
    fn look<N: Naming>(&mut self, viewer: &mut Viewer<N>)
        ensures received { L.received self.new.line ≡ L.received self.old.line }
        ensures shown { AreShown N.opening viewer.old viewer.new (L.listed self.old.line) (L.listed self.new.line) }
        ensures same { IsOfSame self.old.returning self.new.returning }
        ensures learns { Learns N.opening viewer.old viewer.new self.old.returning self.new.returning }
        ensures post { self.new.post ≡ self.old.post }
    {
        if let Some(table) = viewer.list() {
            self.line.list(addresses_in(table.as_slice()).as_slice());
            self.returning.looked_at(table.as_slice());
        }
    }
}

/// The addresses in these rows.
fn addresses_in(rows: &[Row]) -> ArrayVec<Peer, KNOWN_MEMBERS>
    requires { length rows.now ≤ KNOWN_MEMBERS }
    ensures addresses { result.items ≡ addresses_in rows.now }
    ensures bound { length result.items ≤ KNOWN_MEMBERS }
{
    let mut addresses = ArrayVec::new();
    for row in rows {
        addresses.push(row.peer);
    }
    addresses
}
