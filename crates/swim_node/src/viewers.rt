//! Viewers: readers of a node's member table. They take no lock.

ghost use Rattle.std.specs.Prelude.{◌≡◌, ◌≤◌, [], length, IfSome, IfNone, MatchBool};
ghost use mathlib.Core.List.{IsPrefix};
ghost use Rattle.swim_history.specs.Changes.{table_after};
ghost use Rattle.swim_node.specs.News.{HaveSeen, IsLongerOf};

use crate::naming::Naming;
use crate::news::News;
use crate::seats::wait_for_good;
use crate::shown::ShownTable;
use crossbeam_utils::rule::{Outcome, Protocol};
use left_right::reader::Reader;
use std::marker::{Model, PhantomData};
use std::sync::Wait;
use swim_history::{Row, Table, replace_rows};
use swim_wire::KNOWN_MEMBERS;

/// The rule of what readers are shown: it is the table of this node, after the changes that it tells.
pub struct ShowsNode<N> {
    of: PhantomData<N>,
}

impl<N: Naming> Protocol<ShownTable, ()> for ShowsNode<N> {
    ghost use Rattle.swim_node.specs.Shown.{IsOfNode};

    ghost holds = { λ s views. IsOfNode N.opening N.log s };

    ghost first = { tt };
}

/// A look at what is shown tells that it is so.
pub struct Looks<N> {
    of: PhantomData<N>,
}

impl<N: Naming> Outcome<ShownTable, ()> for Looks<N> {
    ghost use Rattle.swim_node.specs.Shown.{IsOfNode};

    ghost then = { λ before old new after. IsOfNode N.opening N.log new };
}

/// A reader of a node's member table. There are four; each may go to a thread of its own. It takes no lock and waits
/// for nobody, and nobody who calls the node waits for more than its present look. A contract sees the changes that
/// it has seen, oldest first: it never goes back behind them.
pub struct Viewer<N: Naming> {
    // None only while it looks.
    reader: Option<Reader<ShownTable, (), ShowsNode<N>>>,
    seen: News<N>,
}

// By hand, so that whoever holds one proves a single call where it is dropped, and not each field.
impl<N: Naming> Drop for Viewer<N> {
    fn drop(self) {
        let Viewer { reader: _, seen: _ } = self;
    }
}

impl<N: Naming> Model for Viewer<N> {
    ghost use Rattle.std.specs.Prelude.{List};
    ghost use Rattle.swim_history.specs.declared.rows.Change.{Change};

    ghost Value = { List Change };

    ghost view = { λ v. v.seen };
}

impl<N: Naming> Viewer<N> {
    /// A viewer that has seen no change.
    pub(crate) fn new(reader: Reader<ShownTable, (), ShowsNode<N>>, seen: News<N>) -> Viewer<N>
        ensures { result ≡ seen }
    {
        Viewer {
            reader: Some(reader),
            seen,
        }
    }

    /// The member table as it was published last, ascending by id. `None` once the node is closed.
    pub fn list(&mut self) -> Option<Table>
        ensures later { IsPrefix self.old self.new }
        ensures table { IfSome result (λ table. table.items ≡ table_after N.opening self.new) }
        ensures none { IfNone result (self.new ≡ self.old) }
    {
        let mut table = Table::new();
        if self.look(&mut table) {
            Some(table)
        } else {
            None
        }
    }

    /// Has the rows of the member table as it was published last, ascending by id, take the place of those in a table
    /// of the caller's. `false` once the node is closed: then these stay. It writes no more than there are rows, so it
    /// suits who looks often, and keeps a table for it.
    pub fn look(&mut self, table: &mut Table) -> bool
        ensures later { IsPrefix self.old self.new }
        ensures table { MatchBool result (table.new.items ≡ table_after N.opening self.new)
            ((self.new ≡ self.old) × (table.new ≡ table.old)) }
    {
        let Some(reader) = self.reader.take() else {
            return false;
        };
        match reader.enter_as::<Looks<N>>() {
            Ok(reading) => {
                let shown = reading.get();
                let news = News::new(shown.shown.again());
                let is_seen = self.see(shown.table.as_slice(), news, table);
                self.reader = Some(reading.leave());
                is_seen
            }
            Err(reader) => {
                self.reader = Some(reader);
                false
            }
        }
    }

    /// Learns what a call of the node told: from then on it lists no older table. It takes no lock, and may be called
    /// after the node was closed.
    pub fn learn(&mut self, news: &News<N>)
        ensures { IsLongerOf self.old news.now self.new }
    {
        self.seen = self.seen.longer(news);
    }

    /// Compares what it has seen with all that was published: it is a beginning of that. It waits for good where it has
    /// seen more, which never happens.
    pub(crate) fn compare<R: Wait>(&self, rt: &R, all: &News<N>)
        ensures { IsPrefix self.now all.now }
    {
        if !self.seen.begins(all) {
            wait_for_good(rt);
        }
    }

    // Sees the rows after the changes of some news, if they aren't older than what was seen, and answers whether it did.
    fn see(&mut self, rows: &[Row], news: News<N>, table: &mut Table) -> bool
        requires rows { rows.now ≡ table_after N.opening news }
        requires bound { length rows.now ≤ KNOWN_MEMBERS }
        ensures later { IsPrefix self.old self.new }
        ensures table { MatchBool result (table.new.items ≡ table_after N.opening self.new)
            ((self.new ≡ self.old) × (table.new ≡ table.old)) }
    {
        // What is published only grows, so this comes only where this viewer learnt of a change, or saw one, and a look
        // showed less: never in fact.
        if !self.seen.begins(&news) {
            return false;
        }
        self.seen = news;
        replace_rows(table, rows);
        true
    }
}

/// Compares what viewers have seen with all that was published.
pub(crate) fn compare_each<N: Naming, R: Wait>(rt: &R, all: &News<N>, viewers: &[Viewer<N>])
    ensures { HaveSeen all.now viewers.now }
{
    let [first, others @ ..] = viewers else {
        return;
    };
    first.compare(rt, all);
    compare_each(rt, all, others);
}
