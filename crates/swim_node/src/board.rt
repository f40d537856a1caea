//! The writer's side of the published table.

ghost use Rattle.std.specs.Prelude.{◌≡◌, ◌≤◌, ◌<◌, ◌^◌, ◌++◌, ◌∷◌, [], Some, drop, length, IfOk};
ghost use Rattle.std.specs.Option.{option_to_list};
ghost use Rattle.swim_history.specs.Changes.{table_after};
ghost use Rattle.swim_node.specs.News.{SawNothing};

use crate::change_log::{Beginning, BlankLog, Head};
use crate::naming::Naming;
use crate::news::News;
use crate::receipts::OpenFault;
use crate::shown::{ShownTable, Update};
use crate::viewers::{ShowsNode, Viewer};
use core::mem::replace_with;
use crossbeam_utils::rule::Outcome;
use left_right::writer::Writer;
use std::alloc::{AllocError, Global};
use std::marker::{Model, PhantomData};
use std::sync::Wait;
use swim_history::{Change, KNOWN_MEMBERS, Opening};

/// A publication tells its writer nothing.
pub struct Shows<N> {
    of: PhantomData<N>,
}

impl<N: Naming> Outcome<ShownTable, ()> for Shows<N> {
    ghost then = { λ before old new after. Unit {0} };
}

/// The writer's side of the published table, and all changes that were published. What readers take is the table after
/// these changes, and none is pending.
pub(crate) struct Board<N: Naming, H: Wait + Drop> {
    // With what the writer waits for readers that are looking, also at its end.
    rt: H,
    writer: Writer<ShownTable, Update, (), ShowsNode<N>>,
    head: Head<N>,
    news: News<N>,
}

impl<N: Naming, H: Wait + Drop> Model for Board<N, H> {
    ghost use Rattle.std.specs.Prelude.{◌≡◌, List, [], drop};
    ghost use Rattle.swim_history.specs.declared.rows.Change.{Change};
    ghost use Rattle.swim_node.specs.Shown.{showing};

    ghost Value = { List Change };

    ghost view = { λ b. b.news };

    ghost invariant = { λ b. (b.writer.desk.shown.value ≡ showing N.opening N.log b.news)
        × (drop b.writer.behind b.writer.log.items ≡ []) };
}

impl<N: Naming, H: Wait + Drop> Drop for Board<N, H> {
    fn drop(self) {
        let Self {
            rt,
            writer,
            head: _,
            news: _,
        } = self;
        writer.take(&rt);
    }
}

impl<N: Naming, H: Wait + Drop> Board<N, H> {
    /// Publishes the table of an opening, and gives out four viewers. It waits for nobody, as nobody looks yet.
    pub(crate) fn open(
        alloc: Global,
        rt: H,
        opening: &Opening,
        log: BlankLog,
    ) -> Result<(Board<N, H>, [Viewer<N>; 4]), OpenFault>
        requires opening { opening.now ≡ N.opening }
        requires log { log ≡ N.log }
        ensures board { IfOk result (λ opened. opened.0 ≡ []) }
        ensures viewers { IfOk result (λ opened. SawNothing opened.1) }
    {
        let (head, none) = log.open::<N>();
        let first = ShownTable::new(opening.rows(), none.again());
        let second = ShownTable::new(opening.rows(), none.again());
        match Writer::new(alloc, first, second, 4) {
            Ok(writer) => {
                let news = News::new(none);
                let board = Board {
                    rt,
                    writer,
                    head,
                    news,
                };
                board.warmed()?.with_viewers()
            }
            Err(_) => Err(OpenFault::NoMemory),
        }
    }

    // Publishes an update without a change, so that the writer's queue has the memory that it ever needs: it never
    // has more than two updates, the one published last and the next.
    fn warmed(self) -> Result<Board<N, H>, OpenFault>
        ensures { IfOk result (λ board. board ≡ self) }
    {
        let Board {
            rt,
            mut writer,
            head,
            news,
        } = self;
        let update = Update {
            change: None,
            shown: news.beginning(),
        };
        if writer.append(update).is_err() {
            writer.take(&rt);
            return Err(OpenFault::NoMemory);
        }
        let (writer, _always) = writer.publish_as::<Shows<N>, H>(&rt);
        Ok(Board {
            rt,
            writer,
            head,
            news,
        })
    }

    fn with_viewers(self) -> Result<(Board<N, H>, [Viewer<N>; 4]), OpenFault>
        requires { self ≡ [] }
        ensures board { IfOk result (λ opened. opened.0 ≡ []) }
        ensures viewers { IfOk result (λ opened. SawNothing opened.1) }
    {
        let first = self.viewer()?;
        let second = self.viewer()?;
        let third = self.viewer()?;
        let fourth = self.viewer()?;
        Ok((self, [first, second, third, fourth]))
    }

    fn viewer(&self) -> Result<Viewer<N>, OpenFault>
        ensures { IfOk result (λ viewer. viewer ≡ self.now) }
    {
        match self.writer.factory().reader() {
            Ok(reader) => Ok(Viewer::new(reader, self.news.again())),
            Err(_) => Err(OpenFault::NoPlace),
        }
    }

    /// What was published so far.
    pub(crate) fn news(&self) -> News<N>
        ensures { result ≡ self.now }
    {
        self.news.again()
    }

    /// Publishes a change, if there is one. It waits for readers that still look at the table before the last change.
    pub(crate) fn publish_if(&mut self, change: &Option<Change>)
        requires room { length self.old < 2 ^ 62 }
        requires fits { length (table_after N.opening (self.old ++ option_to_list change.now)) ≤ KNOWN_MEMBERS }
        ensures { self.new ≡ self.old ++ option_to_list change.now }
    {
        if let Some(change) = change {
            self.publish(change);
        }
    }

    fn publish(&mut self, change: &Change)
        requires room { length self.old < 2 ^ 62 }
        requires fits { length (table_after N.opening (self.old ++ change.now ∷ [])) ≤ KNOWN_MEMBERS }
        ensures { self.new ≡ self.old ++ change.now ∷ [] }
    {
        replace_with(self, change, |board, change| board.published(change))
    }

    fn published(self, change: &Change) -> (Board<N, H>, ())
        requires room { length self < 2 ^ 62 }
        requires fits { length (table_after N.opening (self ++ change.now ∷ [])) ≤ KNOWN_MEMBERS }
        ensures { result.0 ≡ self ++ change.now ∷ [] }
    {
        let Board {
            rt,
            mut writer,
            head,
            news,
        } = self;
        let longer = extended(&rt, &head, &news, change);
        append(&rt, &mut writer, change, &longer);
        let (writer, _always) = writer.publish_as::<Shows<N>, H>(&rt);
        let news = News::new(longer);
        let board = Board {
            rt,
            writer,
            head,
            news,
        };
        (board, ())
    }
}

/// The node's list of changes with one more.
fn extended<N: Naming, R: Wait>(
    rt: &R,
    head: &Head<N>,
    news: &News<N>,
    change: &Change,
) -> Beginning
    requires { length news.now < 2 ^ 62 }
    ensures { result ≡ record { book = N.log; changes = news.now ++ change.now ∷ [] } }
{
    // Only the board adds to the list, under the lock, so the first try succeeds.
    for _ in rt.forever() {
        let mut longer = news.beginning();
        if longer.add(head, change) {
            return longer;
        }
    }
    unreachable!()
}

/// Puts an update into the writer's queue.
fn append<N: Naming, R: Wait>(
    rt: &R,
    writer: &mut Writer<ShownTable, Update, (), ShowsNode<N>>,
    change: &Change,
    shown: &Beginning,
)
    ensures desk { writer.new.desk ≡ writer.old.desk }
    ensures pending { drop writer.new.behind writer.new.log.items
        ≡ drop writer.old.behind writer.old.log.items ++ record { change = Some change.now; shown = shown.now } ∷ [] }
{
    // The queue has room since the node was opened, so the first try succeeds.
    for _ in rt.forever() {
        let update = Update {
            change: Some(*change),
            shown: shown.again(),
        };
        if writer.append(update).is_ok() {
            return;
        }
    }
    unreachable!()
}
