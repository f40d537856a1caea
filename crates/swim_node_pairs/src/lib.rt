//! Two nodes in one program: each is closed with its own seats, and each viewer learns the news of its own node. Here
//! it is seen that nobody can mix them up: tests/edits plants what does so, and the compiler or the prover has to
//! refuse it.
#![tactic(auto)]

ghost use Rattle.std.specs.Prelude.{◌≡◌};
ghost use Rattle.swim_history.specs.Run.{IsRun};
ghost use Rattle.swim_node.specs.News.{IsLongerOf};
ghost use Rattle.swim_node.specs.Seats.{AreTheSeats};

use std::sync::Wait;
use swim_history::Journal;
use swim_node::{Naming, News, Node, Seat, Viewer};
use swim_targets::Chooser;

/// What closing a node hands back.
type Closed<N> = (Journal, [Seat<N>; 4], News<N>);

/// Closes two nodes, each with its own seats, and hands back their journals. It waits for viewers that look.
pub fn close_both<N: Naming, M: Naming, C: Chooser, H: Wait + Drop, R: Wait>(
    rt: &R,
    nodes: (Node<N, C, H>, Node<M, C, H>),
    seats: [Seat<N>; 4],
    others: [Seat<M>; 4],
) -> (Journal, Journal)
    requires seats { AreTheSeats seats }
    requires others { AreTheSeats others }
    ensures opening { result.0.opening ≡ N.opening }
    ensures run { IsRun N.opening result.0.past }
    ensures other_opening { result.1.opening ≡ M.opening }
    ensures other_run { IsRun M.opening result.1.past }
{
    let (node, other) = nodes;
    let [one, two, three, four] = seats;
    let [first, second, third, fourth] = others;
    let journal = journal_of(node.close(rt, [one, two, three, four]));
    let other_journal = journal_of(other.close(rt, [first, second, third, fourth]));
    (journal, other_journal)
}

fn journal_of<N: Naming>(closed: Closed<N>) -> Journal
    ensures { result ≡ closed.0 }
{
    let (journal, seats, _news) = closed;
    drop(seats);
    journal
}

/// The viewers of two nodes learn what calls of these nodes told, each of its own.
pub fn learn_both<N: Naming, M: Naming>(
    viewer: &mut Viewer<N>,
    news: &News<N>,
    other: &mut Viewer<M>,
    other_news: &News<M>,
)
    ensures learns { IsLongerOf viewer.old news.now viewer.new }
    ensures other_learns { IsLongerOf other.old other_news.now other.new }
{
    viewer.learn(news);
    other.learn(other_news);
}
