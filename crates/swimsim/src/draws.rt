//! What became of the orders and places that a script tells.

use crate::notes::Told;
use std::alloc::{AllocError, Global};
use std::fmt;
use swim_history::{Call, Choice, Entry, Journal, Reply, Row, RowState};
use swim_targets::Order;
use swim_wire::Id;

/// What is strange about a line of an order or a place.
#[derive(Clone, Copy)]
pub enum Oddity {
    /// The order has other members than were to be put in order, so that they were left as they were.
    Unfit,
    /// No draw came so far.
    OrderLeft,
    PlaceLeft,
}

/// An oddity with its line.
#[derive(Clone, Copy)]
pub struct Warning {
    pub line: u32,
    pub oddity: Oddity,
}

impl fmt::Display for Warning {
    fn fmt<W: fmt::Write>(&self, f: &mut fmt::Formatter<W>) -> fmt::Result {
        let line = self.line;
        let text = match self.oddity {
            Oddity::Unfit => "this order is none of the members that were to be put in order",
            Oddity::OrderLeft => "this order was left over",
            Oddity::PlaceLeft => "this place was left over",
        };
        write!(f, "line {line}: {text}")
    }
}

/// A journal's draws as they are gone through: the members that are listed, how many orders and places were drawn, and
/// the warnings so far.
#[derive(Drop)]
struct Walk {
    listed: Vec<Id>,
    orders: usize,
    places: usize,
    warnings: Vec<Warning>,
}

/// The warnings of a run, from its journal and what its script told: unfit orders, and then what was left over. `Err`
/// only where memory was refused, also for an order or a place that was told.
pub fn warnings_of(
    alloc: Global,
    journal: &Journal,
    told: &Told,
) -> Result<Vec<Warning>, AllocError> {
    told.kept?;
    let mut walk = Walk {
        listed: listed_in(alloc, journal.opening().rows())?,
        orders: 0,
        places: 0,
        warnings: Vec::new(alloc),
    };
    for place in 0..journal.len() {
        if let Some(entry) = journal.entry(place) {
            walk.step(&entry, told.orders.as_slice())?;
        }
    }
    walk.finish(told)
}

/// The members that an opening lists.
fn listed_in(alloc: Global, rows: &[Row]) -> Result<Vec<Id>, AllocError> {
    let mut listed = Vec::new(alloc);
    for row in rows {
        if row.state == RowState::Up {
            listed.push(row.id)?;
        }
    }
    Ok(listed)
}

impl Walk {
    /// Goes one entry on.
    fn step(&mut self, entry: &Entry, orders: &[(u32, Order)]) -> Result<(), AllocError> {
        match (&entry.call, &entry.reply) {
            (Call::Join(id, _), Reply::Joined { .. }) => {
                self.places = self.places.saturating_add(1);
                self.listed.push(*id)?;
            }
            (Call::Remove(id), Reply::Removed) => self.unlist(*id),
            (_, Reply::Started { judged, .. }) => {
                if let Some(member) = judged {
                    self.unlist(*member);
                }
            }
            (_, Reply::Asked { target, relays, .. }) => {
                if !relays.is_empty() {
                    self.ask(*target, orders)?;
                }
            }
            _ => {}
        }
        match &entry.choice {
            Choice::Round(drawn) => self.begin_round(drawn, orders),
            Choice::Nothing => Ok(()),
        }
    }

    fn unlist(&mut self, member: Id) {
        self.listed.retain(|id| *id != member);
    }

    /// A round began in that order: it is that of the line, or the line's is none of the members.
    fn begin_round(&mut self, drawn: &Order, orders: &[(u32, Order)]) -> Result<(), AllocError> {
        match self.next_order(orders) {
            Some((line, order)) => self.warn_unless(order.as_slice() == drawn.as_slice(), *line),
            None => Ok(()),
        }
    }

    /// Relays were chosen among the members listed but the target.
    fn ask(&mut self, target: Id, orders: &[(u32, Order)]) -> Result<(), AllocError> {
        let Some((line, order)) = self.next_order(orders) else {
            return Ok(());
        };
        let mut others: usize = 0;
        let mut fits = true;
        for id in self.listed.as_slice() {
            if *id != target {
                others = others.saturating_add(1);
                fits = fits && order.as_slice().contains(id);
            }
        }
        self.warn_unless(fits && others == order.len(), *line)
    }

    /// The line of the order that is drawn next, if any is left.
    fn next_order<'a>(&mut self, orders: &'a [(u32, Order)]) -> Option<&'a (u32, Order)> {
        let order = orders.get(self.orders);
        self.orders = self.orders.saturating_add(1);
        order
    }

    fn warn_unless(&mut self, fits: bool, line: u32) -> Result<(), AllocError> {
        if fits {
            return Ok(());
        }
        Ok(
            self.warnings.push(Warning {
                line,
                oddity: Oddity::Unfit,
            })?,
        )
    }

    /// What was left over.
    fn finish(self, told: &Told) -> Result<Vec<Warning>, AllocError> {
        let mut warnings = self.warnings;
        let orders = told.orders.as_slice();
        for (line, _) in &orders[self.orders.min(orders.len())..] {
            warnings.push(Warning {
                line: *line,
                oddity: Oddity::OrderLeft,
            })?;
        }
        let places = told.places.as_slice();
        for line in &places[self.places.min(places.len())..] {
            warnings.push(Warning {
                line: *line,
                oddity: Oddity::PlaceLeft,
            })?;
        }
        Ok(warnings)
    }
}
