//! One who watches, with the outlet of its bytes.

ghost use Rattle.std.specs.Prelude.{◌≡◌, ◌↔◌, ◌⊎◌, [], IsTrue, None, false, box_value};
ghost use Rattle.swim_events.specs.declared.outlets.Offer.{Offer as Offered};
ghost use Rattle.swim_events.specs.declared.watchers.WatcherStanding.TheVariants.{Lost};
ghost use Rattle.swim_events.specs.Guests.{IsGivenUp, IsTurn, is_losing, put_text, stuck_then, taken_by};

use crate::outlets::{Offer, Outlet};
use crate::watchers::Watcher;
use std::marker::Model;

/// After how long one is given up to whom nothing can be sent, in milliseconds.
const PATIENCE_MS: u64 = 10_000;

/// One who watches: what is to be sent, and where it goes. The outlet stands in a box, since nothing is known of its
/// size. A contract sees the watcher, since when it is stuck, what its outlet took, and each offer to it.
#[derive(Drop)]
pub(crate) struct Guest<E: Outlet + Drop> {
    watcher: Watcher,
    // Since when nothing of what waits could be sent, if that is so.
    stuck: Option<u64>,
    outlet: Box<E>,
}

impl<E: Outlet + Drop> Model for Guest<E> {
    ghost use Rattle.std.specs.Prelude.{box_value};
    ghost use Rattle.swim_events.specs.Guests.{AtGuest};

    ghost Value = { AtGuest };

    ghost view = { λ g. record {
      watcher = g.watcher;
      stuck = g.stuck;
      taken = E.taken (box_value g.outlet);
      offers = E.offers (box_value g.outlet);
    } };
}

impl<E: Outlet + Drop> Guest<E> {
    /// Who watches so, by this outlet.
    pub(crate) fn new(watcher: Watcher, outlet: Box<E>) -> Guest<E>
        ensures { result ≡ record {
          watcher = watcher;
          stuck = None;
          taken = E.taken (box_value outlet);
          offers = E.offers (box_value outlet);
        } }
    {
        Guest {
            watcher,
            stuck: None,
            outlet,
        }
    }

    /// Takes a text.
    pub(crate) fn put(&mut self, text: &[u8])
        ensures { self.new ≡ put_text text.now self.old }
    {
        self.watcher.put(text);
    }

    /// Whether it doesn't keep up.
    pub(crate) fn is_losing(&self) -> bool
        ensures { result ≡ is_losing self.now }
    {
        self.watcher.is_losing()
    }

    /// Offers all that is to be sent, at this time, and answers whether there is to be another turn: not where nobody
    /// takes it any more, not where it was told of its loss, and not where nothing could be sent to it for ten seconds.
    pub(crate) fn turn(&mut self, time: u64) -> bool
        ensures { (offer : Offered) × IsTurn time self.old offer self.new result }
    {
        let offer = self.outlet.offer(self.watcher.pending());
        self.stuck = stuck_then(time, self.watcher.pending(), &offer, self.stuck);
        match offer {
            Offer::Took(count) => {
                self.watcher.sent(count);
                self.stays(time)
            }
            Offer::Full => self.stays(time),
            Offer::Gone => false,
        }
    }

    /// Whether it wasn't told of its loss, and isn't given up.
    fn stays(&self, time: u64) -> bool
        ensures { (result ≡ false)
            ↔ (((self.now.watcher.standing ≡ Lost) × (self.now.watcher.pending ≡ [])) ⊎ IsGivenUp time self.now.stuck) }
    {
        !self.watcher.is_over() && !is_given_up(time, self.stuck)
    }
}

/// Since when nothing of what waits could be sent, once these bytes were offered at this time.
fn stuck_then(time: u64, bytes: &[u8], offer: &Offer, since: Option<u64>) -> Option<u64>
    ensures { result ≡ stuck_then time bytes.now offer.now since }
{
    if bytes.is_empty() || 0 < taken_by(offer) {
        None
    } else {
        Some(since.unwrap_or(time))
    }
}

/// How many bytes were taken.
fn taken_by(offer: &Offer) -> usize
    ensures { result ≡ taken_by offer.now }
{
    match offer {
        Offer::Took(count) => *count,
        Offer::Full | Offer::Gone => 0,
    }
}

/// Whether nothing could be sent for ten seconds.
fn is_given_up(time: u64, stuck: Option<u64>) -> bool
    ensures { IsTrue result ↔ IsGivenUp time stuck }
{
    match stuck {
        Some(since) => PATIENCE_MS <= time.saturating_sub(since),
        None => false,
    }
}
