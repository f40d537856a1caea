//! What is kept of a member of the table.

ghost use Rattle.std.specs.Prelude.{◌≡◌, ◌==◌, position};
ghost use Rattle.swim_rejoin.specs.Believing.{is_believed, is_ready, is_same, tells};
ghost use Rattle.swim_rejoin.specs.Failed.{verdict_of};
ghost use Rattle.swim_rejoin.specs.Knowing.{after_join, after_knock, first_known, known_again};
ghost use Rattle.swim_rejoin.specs.Rejoiners.{shown_of};

use crate::knocks::Knocks;
use crate::waits::times_once_judged;
use swim_history::{Row, RowState};
use swim_wire::{Id, Kind, Message, Peer, PeriodNumber};

/// A member of the table: its row, the last knocks at it, the period in which it was last joined again, the last
/// verdict on it that a table showed, and how many knocks since a verdict it waits for.
#[derive(Clone, Copy)]
pub(crate) struct Known {
    row: Row,
    knocks: Knocks,
    joined: Option<u64>,
    shown: Option<u64>,
    times: u8,
}

/// Some member, so that members can stand in an array of a fixed capacity. Nothing rests on which one.
impl Default for Known {
    fn default() -> Known {
        Known::first(&Row::default())
    }
}

impl Known {
    /// A member that a table shows for the first time.
    pub(crate) fn first(row: &Row) -> Known
        ensures { result ≡ first_known row.now }
    {
        Known {
            row: *row,
            knocks: Knocks::none(),
            joined: None,
            shown: verdict_of(row.state),
            times: 1,
        }
    }

    /// The member, once a table shows it with that row.
    pub(crate) fn again(&self, row: &Row) -> Known
        ensures { result ≡ known_again row.now self.now }
    {
        let verdict = verdict_of(row.state);
        Known {
            row: *row,
            knocks: self.knocks,
            joined: self.joined,
            shown: verdict.or(self.shown),
            times: times_once_judged(self.times, self.joined, self.shown, verdict),
        }
    }

    /// It is knocked at with that number.
    pub(crate) fn knock(&mut self, number: PeriodNumber)
        ensures { self.new ≡ after_knock number self.old }
    {
        self.knocks.add(number);
    }

    /// It is joined again in that period.
    pub(crate) fn join(&mut self, period: u64)
        ensures { self.new ≡ after_join period self.old }
    {
        self.joined = Some(period);
    }

    /// The row, where a datagram shows that the member is there again.
    pub(crate) fn shown(&self, me: Id, message: &Message, from: &Peer) -> Option<Row>
        ensures { result ≡ shown_of me message.now from.now self.now }
    {
        self.is_believed(me, message, from).then_some(self.row)
    }

    /// Whether a datagram shows that the member is there again, and it waited for long enough.
    fn is_believed(&self, me: Id, message: &Message, from: &Peer) -> bool
        ensures { result
            ≡ is_believed me self.now.row self.now.knocks.numbers self.now.times message.now from.now }
    {
        self.is_ready(message.number)
            && is_same(&self.row.peer, from)
            && self.knocks.are_told(me, message)
    }

    /// Whether a verdict stands on it, the knock with that number was sent after it, and there were enough knocks
    /// since.
    fn is_ready(&self, number: PeriodNumber) -> bool
        ensures { result ≡ is_ready self.now.row.state self.now.times self.now.knocks.numbers number }
    {
        match self.row.state {
            RowState::Up => false,
            RowState::Failed(verdict) => {
                number.get() > verdict
                    && usize::from(self.times) <= self.knocks.count_after(verdict)
            }
        }
    }
}

impl Knocks {
    /// Whether the message is its sender's ack of one of these knocks.
    fn are_told(&self, me: Id, message: &Message) -> bool
        ensures { result ≡ tells message.now.kind me self.now.numbers message.now }
    {
        match message.kind {
            Kind::Ping | Kind::PingReq => false,
            Kind::Ack => {
                message.initiator == me
                    && message.target == message.sender
                    && self.has(message.number)
            }
        }
    }
}

/// The first place of a member.
pub(crate) fn place_of(knowns: &[Known], id: Id) -> Option<usize>
    ensures { result ≡ position (λ known. known.row.id == id) knowns.now }
{
    knowns.iter().position(|known| known.row.id == id)
}

/// Whether both are the same address.
fn is_same(first: &Peer, second: &Peer) -> bool
    ensures { result ≡ is_same first.now second.now }
{
    first.ip.as_slice() == second.ip.as_slice() && first.port == second.port
}

/// The number of the period at whose end a member was judged, if a verdict stands on it.
fn verdict_of(state: RowState) -> Option<u64>
    ensures { result ≡ verdict_of state }
{
    match state {
        RowState::Up => None,
        RowState::Failed(number) => Some(number),
    }
}
